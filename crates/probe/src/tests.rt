// The first and the last byte of every class, and slices of equal and of unequal length.
use super::*;

#[test]
fn both_ends_of_each_class(rt: HostRuntime) {
    let rows = [
        (0, 39, 0),
        (40, 79, 1),
        (80, 99, 2),
        (100, 119, 3),
        (120, 159, 4),
        (160, 199, 5),
        (200, 254, 6),
        (255, 255, 7),
    ];
    for (first, last, number) in rows {
        assert_eq!(rt; class(first), Symbol(number));
        assert_eq!(rt; class(last), Symbol(number));
    }
}

#[test]
fn each_byte_is_classed_at_its_place(rt: HostRuntime) {
    let mut symbols = [Symbol(9); 4];
    assert_eq!(rt; classify(&[255, 0, 100, 40], &mut symbols), Ok(()));
    assert_eq!(rt; symbols, [Symbol(7), Symbol(0), Symbol(3), Symbol(1)]);
}

#[test]
fn unequal_lengths_are_refused_and_nothing_is_written(rt: HostRuntime) {
    let mut symbols = [Symbol(9); 2];
    let rows: [&[u8]; 3] = [&[1, 2, 3], &[1], &[]];
    for bytes in rows {
        assert_eq!(rt;
            classify(bytes, &mut symbols),
            Err(Refusal::LengthMismatch.at(0))
        );
    }
    assert_eq!(rt; symbols, [Symbol(9), Symbol(9)]);
}

#[test]
fn no_bytes_are_classed_into_no_symbols(rt: HostRuntime) {
    assert_eq!(rt; classify(&[], &mut []), Ok(()));
}
