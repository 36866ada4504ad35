// Counts of a few loads, and what is printed of symbols and counts.
use super::*;
use std::test::Fail;

#[test]
fn each_reading_is_counted_once(rt: HostRuntime) {
    assert_eq!(rt; Counts::of(&[]), Counts([0, 0, 0, 0, 0, 0, 0, 0]));
    let symbols = [
        Symbol(7),
        Symbol(0),
        Symbol(2),
        Symbol(0),
        Symbol(7),
        Symbol(7),
    ];
    assert_eq!(rt; Counts::of(&symbols), Counts([2, 0, 1, 0, 0, 0, 0, 3]));
}

#[test]
fn a_symbol_past_h_is_not_counted(rt: HostRuntime) {
    assert_eq!(rt;
        Counts::of(&[Symbol(8), Symbol(1), Symbol(255)]),
        Counts([0, 1, 0, 0, 0, 0, 0, 0])
    );
}

#[test]
fn symbols_print_as_letters(rt: HostRuntime) -> Result<(), Fail> {
    let heap = rt.alloc();
    let text = format!(in heap; "{} {} {} {}", Symbol(0), Symbol(7), Symbol(8), Symbol(255))?;
    assert_eq!(rt; text.as_str(), "a h 8 255");
    Ok(())
}

#[test]
fn counts_print_letter_by_letter(rt: HostRuntime) -> Result<(), Fail> {
    let text = format!(in rt.alloc(); "{}", Counts([1, 20, 0, 4, 5, 600, 7, 8]))?;
    assert_eq!(rt; text.as_str(), "a 1 b 20 c 0 d 4 e 5 f 600 g 7 h 8");
    Ok(())
}
