// Loads that the advice settles, each kind at the ends of its ranges, layers, compiled questions, and numbers taken apart and joined.
use compiled::{Compiled, Lane};
use kinds::{Presence, Remainder, Threshold};
use protocol::Advice;
use question::Question;
use question::layers::{Both, Not};
use reading::Symbol;
use refusal::{Fault, Refusal};
use std::alloc::{AllocError, Global};
use std::process::Abort;
use std::test::Fail;

const A: Presence = Presence { mask: 1 };

const B: Presence = Presence { mask: 2 };

// A threshold of the first three symbols.
fn threshold(a: i32, b: i32, c: i32, bound: i32) -> Result<Threshold, Fault> {
    Threshold::new([a, b, c, 0, 0, 0, 0, 0], bound)
}

// A remainder of the first three symbols.
fn remainder(a: i32, b: i32, c: i32, modulus: u32, residue: u32) -> Result<Remainder, Fault> {
    Remainder::new([a, b, c, 0, 0, 0, 0, 0], modulus, residue)
}

fn both<L, R>(left: L, right: R, rule: u8) -> Both<L, R> {
    Both { left, right, rule }
}

fn any(mask: u8) -> Lane {
    Lane::Presence(Presence { mask })
}

// The words in which a load of letters a to h starts.
fn started<Q: Question>(alloc: Global, q: &Q, load: &[u8]) -> Result<Vec<u32>, AllocError> {
    load.iter()
        .map(|letter| q.start(Symbol(letter.wrapping_sub(b'a'))))
        .collect(alloc)
}

// Follows the advice: how many meetings settle the load, and what every tag then answers.
fn followed<Q: Question>(rt: &impl Abort, q: &Q, words: &mut [u32]) -> Result<(usize, bool), Fail> {
    let tags = words.len();
    assert!(rt; 0 < tags);
    let most = q.weight().saturating_mul((tags - 1) as u64) as usize;
    for meetings in 0..=most {
        match q.advice(words, 1) {
            Advice::Meet(first, second) => {
                assert!(rt; first < tags && second < tags && first != second);
                (words[first], words[second]) = q.meet(words[first], words[second]);
            }
            Advice::Settled => {
                let answer = q.answer(words[0]);
                assert!(rt; words.iter().all(|&word| q.answer(word) == answer));
                return Ok((meetings, answer));
            }
            Advice::Lost => return Err(Fail::new("the load is lost")),
        }
    }
    Err(Fail::new("the load is not settled in time"))
}

// Starts the load and follows the advice: the meetings, the words left, and the answer.
fn settles<Q: Question>(
    rt: &(impl Abort + AllocGlobal),
    q: &Q,
    load: &[u8],
    meetings: usize,
    left: &[u32],
    answer: bool,
) -> Result<(), Fail> {
    let mut words = started(rt.alloc(), q, load)?;
    assert_eq!(rt; followed(rt, q, &mut words)?, (meetings, answer));
    assert_eq!(rt; words.as_slice(), left);
    Ok(())
}

// A load of letters, the meetings that settle it, the words that they leave, and the answer.
type LoadRow<'a> = (&'a [u8], usize, &'a [u32], bool);

// A load whose first tag has one letter and the others another.
fn large<Q: Question>(
    rt: &(impl Abort + AllocGlobal),
    q: &Q,
    tags: usize,
    letters: [u8; 2],
    meetings: usize,
    answer: bool,
) -> Result<(), Fail> {
    let [first, other] = letters;
    let mut load = vec![in rt.alloc(); first]?;
    load.resize(tags, other)?;
    let mut words = started(rt.alloc(), q, &load)?;
    assert_eq!(rt; followed(rt, q, &mut words)?, (meetings, answer));
    Ok(())
}

// Kind, size, weight, the starts of all symbols and their answers; and that no unknown number is answered yes or altered.
fn replies<Q: Question>(
    rt: &impl Abort,
    q: &Q,
    kind: char,
    size: u32,
    weight: u64,
    starts: [u32; 8],
    answers: &[u8; 8],
) {
    assert_eq!(rt; q.kind(), kind);
    assert_eq!(rt; q.size(), u64::from(size));
    assert_eq!(rt; q.weight(), weight);
    for ((symbol, start), answer) in (0..).zip(starts).zip(answers) {
        assert_eq!(rt; q.start(Symbol(symbol)), start);
        assert_eq!(rt; q.answer(start), *answer == b'y');
    }
    assert_eq!(rt; q.start(Symbol(8)), 0);
    assert_eq!(rt; q.start(Symbol(255)), 0);
    for known in starts {
        for unknown in [size, size.wrapping_add(1), u32::MAX] {
            assert!(rt; !q.answer(unknown));
            assert_eq!(rt; q.meet(unknown, known), (unknown, known));
            assert_eq!(rt; q.meet(known, unknown), (known, unknown));
            assert_eq!(rt; q.meet(unknown, unknown), (unknown, unknown));
        }
    }
}

// The advice on each row's states, and the same with larger units, whatever the other digits of the words are.
fn advises<Q: Question>(
    rt: &(impl Abort + AllocGlobal),
    q: &Q,
    rows: &[(&[u32], Advice)],
) -> Result<(), Fail> {
    for &(states, advice) in rows {
        assert_eq!(rt; q.advice(states, 1), advice);
        for (unit, high, low) in [(2, 1, 1), (10, 3, 7), (1000, 50, 999), (2503, 0, 2502)] {
            let mut words = Vec::new(rt.alloc());
            for (&state, digit) in states.iter().zip(high..) {
                let digits = q.size().wrapping_mul(digit).wrapping_add(u64::from(state));
                words.push(u32::try_from(digits.wrapping_mul(unit).wrapping_add(low))?)?;
            }
            assert_eq!(rt; q.advice(&words, unit), advice);
        }
    }
    Ok(())
}

// With the largest unit the word holds a settled state; 0 and larger units are not allowed.
fn largest_unit<Q: Question>(rt: &impl Abort, q: &Q, word: u32, unit: u64) {
    assert_eq!(rt; q.advice(&[word], unit), Advice::Settled);
    assert_eq!(rt; q.advice(&[], unit), Advice::Lost);
    assert_eq!(rt; q.advice(&[], 1), Advice::Lost);
    let refused = [
        0,
        unit.wrapping_add(1),
        1 << 32,
        (1 << 62) + 1,
        1 << 63,
        (1 << 63) + 1,
        u64::MAX,
    ];
    for unit in refused {
        assert_eq!(rt; q.advice(&[word], unit), Advice::Lost);
    }
}

// A question with more states than words can number.
fn without_states<Q: Question>(rt: &impl Abort, q: &Q) {
    assert_eq!(rt; q.size(), 0);
    assert_eq!(rt; q.weight(), 0);
    for symbol in 0..9 {
        assert_eq!(rt; q.start(Symbol(symbol)), 0);
    }
    for (first, second) in [(0, 0), (0, 1), (3, 2), (7, 7), (u32::MAX, 1)] {
        assert!(rt; !q.answer(first));
        assert_eq!(rt; q.meet(first, second), (first, second));
        assert_eq!(rt; q.advice(&[first, second], 1), Advice::Lost);
    }
}

#[test]
fn loads_settle_on_the_truth(rt: HostRuntime) -> Result<(), Fail> {
    let thresholds: [([i32; 4], &[u8], usize, &[u32], bool); 14] = [
        ([3, 0, 0, 7], b"a", 0, &[47], true),
        ([3, 0, 0, 7], b"aa", 1, &[59, 33], true),
        ([3, 0, 0, 7], b"aaa", 3, &[66, 32, 36], false),
        ([-1, 0, 0, -2], b"aa", 1, &[6, 12], false),
        ([-1, 0, 0, -2], b"aaa", 3, &[3, 13, 13], true),
        ([1, -1, 0, 0], b"aabb", 3, &[6, 4, 4, 4], false),
        ([1, -1, 0, 0], b"abbab", 6, &[3, 5, 5, 5, 5], true),
        ([1, -1, 0, 1], b"aabb", 4, &[11, 9, 9, 9], true),
        ([99, -99, 0, 0], b"aabbb", 7, &[3, 397, 397, 397, 397], true),
        ([99, -99, 0, 0], b"aaab", 3, &[794, 396, 792, 396], false),
        ([2, -3, 1, 0], b"bcaba", 5, &[11, 13, 13, 13, 13], true),
        ([2, -3, 1, -1], b"bcaba", 6, &[10, 12, 12, 12, 12], false),
        ([0, 0, 0, 0], b"ah", 1, &[6, 4], false),
        ([0, 0, 0, 1], b"bcd", 2, &[11, 9, 9], true),
    ];
    for ([a, b, c, bound], load, meetings, left, answer) in thresholds {
        let q = threshold(a, b, c, bound)?;
        settles(&rt, &q, load, meetings, left, answer)?;
    }
    let remainders: [([i32; 3], u32, u32, &[u8], usize, &[u32], bool); 9] = [
        ([1, 0, 0], 2, 0, b"a", 0, &[6], false),
        ([1, 0, 0], 2, 0, b"aa", 1, &[3, 1], true),
        ([1, 0, 0], 2, 0, b"aaa", 3, &[6, 0, 0], false),
        ([1, 2, -1], 3, 1, b"aab", 3, &[7, 1, 1], true),
        ([1, 2, -1], 3, 1, b"cab", 2, &[10, 0, 0], false),
        ([-99, 99, 0], 999, 900, b"a", 0, &[3603], true),
        ([-99, 99, 0], 999, 801, b"aab", 3, &[3602, 0, 0], false),
        ([-99, 99, 0], 999, 900, b"baa", 3, &[3603, 1, 1], true),
        ([0, 0, 0], 5, 0, b"cd", 1, &[3, 1], true),
    ];
    for ([a, b, c], modulus, residue, load, meetings, left, answer) in remainders {
        let q = remainder(a, b, c, modulus, residue)?;
        settles(&rt, &q, load, meetings, left, answer)?;
    }
    let presences: [(u8, &[u8], usize, &[u32], bool); 7] = [
        (1, b"a", 0, &[1], true),
        (1, b"bcb", 0, &[0, 0, 0], false),
        (1, b"bab", 2, &[1, 1, 1], true),
        (128, b"abch", 3, &[1, 1, 1, 1], true),
        (5, b"bcba", 2, &[1, 1, 1, 1], true),
        (0, b"abcdefgh", 0, &[0; 8], false),
        (255, b"abcdefgh", 0, &[1; 8], true),
    ];
    for (mask, load, meetings, left, answer) in presences {
        settles(&rt, &Presence { mask }, load, meetings, left, answer)?;
    }
    Ok(())
}

#[test]
fn each_kind_at_its_ends(rt: HostRuntime) -> Result<(), Fail> {
    let ends = [99, -99, 0, 1, -1, 50, -50, 98];
    let high = [4399, 3607, 4003, 4007, 3999, 4203, 3803, 4395];
    let low = [4398, 3606, 4002, 4006, 3998, 4202, 3802, 4394];
    let zero = [794, 3, 398, 402, 395, 598, 199, 790];
    let ones = [1, -1, 0, 0, 0, 0, 0, 0];
    let thresholds = [
        (ends, 999, 8004, high, b"yyyyyyyy"),
        (ends, -999, 8004, low, b"nnnnnnnn"),
        (ends, 0, 796, zero, b"nynnynyn"),
        (ones, 0, 12, [10, 3, 6, 6, 6, 6, 6, 6], b"nynnnnnn"),
        ([0; 8], 0, 12, [6; 8], b"nnnnnnnn"),
    ];
    for (coefficients, bound, size, starts, answers) in thresholds {
        let q = Threshold::new(coefficients, bound)?;
        replies(&rt, &q, 'T', size, 2, starts, answers);
    }
    let ends = [99, -99, 0, 1, -1, 50, -50, 2];
    let at_0 = [398, 3602, 3, 6, 3994, 202, 3798, 10];
    let at_998 = [398, 3602, 2, 6, 3995, 202, 3798, 10];
    let less = [-99, -98, -1, 0, 0, 0, 0, 0];
    let at_97 = [391, 2, 391, 2, 2, 2, 2, 2];
    let remainders = [
        (ends, 2, 0, 8, [6, 6, 3, 6, 6, 3, 3, 3], b"nnynnyyy"),
        (ends, 2, 1, 8, [7, 7, 2, 7, 7, 2, 2, 2], b"yynyynnn"),
        (ends, 999, 0, 3996, at_0, b"nnynnnnn"),
        (ends, 999, 998, 3996, at_998, b"nnnnynnn"),
        (less, 99, 0, 396, [3, 6, 394, 3, 3, 3, 3, 3], b"ynnyyyyy"),
        (less, 98, 97, 392, at_97, b"ynynnnnn"),
    ];
    for (coefficients, modulus, residue, size, starts, answers) in remainders {
        let q = Remainder::new(coefficients, modulus, residue)?;
        replies(&rt, &q, 'R', size, 2, starts, answers);
    }
    let presences = [
        (0, [0; 8], b"nnnnnnnn"),
        (255, [1; 8], b"yyyyyyyy"),
        (128, [0, 0, 0, 0, 0, 0, 0, 1], b"nnnnnnny"),
        (90, [0, 1, 0, 1, 1, 0, 1, 0], b"nynyynyn"),
    ];
    for (mask, starts, answers) in presences {
        replies(&rt, &Presence { mask }, 'P', 2, 1, starts, answers);
    }
    Ok(())
}

#[test]
fn numbers_out_of_range_are_refused(rt: HostRuntime) {
    let fault = Some(Refusal::NumberRange.at(0));
    let thresholds = [
        ([100, 0, 0, 0, 0, 0, 0, 0], 0),
        ([0, 0, 0, 0, 0, 0, 0, -100], 0),
        ([0, 0, 0, i32::MIN, 0, 0, 0, 0], 0),
        ([0; 8], 1000),
        ([0; 8], -1000),
        ([0; 8], i32::MAX),
        ([0; 8], i32::MIN),
    ];
    for (coefficients, bound) in thresholds {
        assert_eq!(rt; Threshold::new(coefficients, bound).err(), fault);
    }
    let remainders = [
        ([100, 0, 0, 0, 0, 0, 0, 0], 2, 0),
        ([0, 0, 0, 0, 0, 0, 0, -100], 2, 0),
        ([0; 8], 0, 0),
        ([0; 8], 1, 0),
        ([0; 8], 1000, 0),
        ([0; 8], u32::MAX, 0),
        ([0; 8], 2, 2),
        ([0; 8], 999, 999),
        ([0; 8], 999, u32::MAX),
    ];
    for (coefficients, modulus, residue) in remainders {
        assert_eq!(rt; Remainder::new(coefficients, modulus, residue).err(), fault);
    }
}

// 1,024 times 99 is 101,376, and 477 more than 101 times 999; -101,376 leaves 522, and 1,024 leaves 25. A letter d counts nothing.
#[test]
fn one_tag_and_1024(rt: HostRuntime) -> Result<(), Fail> {
    for (bound, tags, letters, meetings, answer) in [
        (999, 1, *b"aa", 0, true),
        (999, 1024, *b"aa", 1032, false),
        (999, 1024, *b"bb", 1023, true),
        (999, 1024, *b"cc", 2020, false),
        (999, 1024, *b"bc", 1023, true),
        (-999, 1, *b"bb", 0, false),
        (-999, 1024, *b"bb", 1032, true),
        (-999, 1024, *b"cc", 1023, false),
        (0, 1, *b"bb", 0, true),
        (0, 1024, *b"bc", 1121, false),
        (0, 1024, *b"dd", 1023, false),
    ] {
        let t = threshold(99, -99, 1, bound)?;
        large(&rt, &t, tags, letters, meetings, answer)?;
        large(&rt, &Not(t), tags, letters, meetings, !answer)?;
    }
    for (modulus, residue, tags, letters, meetings, answer) in [
        (999, 477, 1, *b"aa", 0, false),
        (999, 477, 1024, *b"aa", 2036, true),
        (999, 522, 1024, *b"bb", 2036, true),
        (999, 522, 1024, *b"aa", 1032, false),
        (999, 998, 1024, *b"cc", 1024, false),
        (999, 25, 1024, *b"cc", 2044, true),
        (999, 25, 1024, *b"dc", 1024, false),
        (2, 0, 1, *b"dd", 0, true),
        (2, 0, 1024, *b"cc", 1534, true),
        (2, 1, 1024, *b"dc", 1534, true),
    ] {
        let q = remainder(99, -99, 1, modulus, residue)?;
        large(&rt, &q, tags, letters, meetings, answer)?;
    }
    for (tags, letters, meetings, answer) in [
        (1, *b"aa", 0, true),
        (1, *b"bb", 0, false),
        (1024, *b"aa", 0, true),
        (1024, *b"bb", 0, false),
        (1024, *b"ab", 1023, true),
        (1024, *b"ba", 1, true),
    ] {
        large(&rt, &A, tags, letters, meetings, answer)?;
    }
    let t = threshold(99, -99, 1, 999)?;
    let r = remainder(99, -99, 1, 999, 25)?;
    let one_of_two = both(t, r, 6);
    large(&rt, &one_of_two, 1, *b"cc", 0, true)?;
    large(&rt, &one_of_two, 1024, *b"cc", 3042, true)?;
    large(&rt, &one_of_two, 1024, *b"aa", 1032, false)?;
    let (t, r) = (Lane::Threshold(t), Lane::Remainder(r));
    let two_of_three = Compiled::new(&[t, r, any(8)], 0b0110_1000)?;
    large(&rt, &two_of_three, 1, *b"dd", 0, true)?;
    large(&rt, &two_of_three, 1024, *b"cc", 3042, false)?;
    large(&rt, &two_of_three, 1024, *b"dd", 1023, true)
}

#[test]
fn advice_is_that_of_the_states_read(rt: HostRuntime) -> Result<(), Fail> {
    let thresholds: [(&[u32], Advice); 11] = [
        (&[45, 32], Advice::Lost),
        (&[33, 47, 47, 27], Advice::Meet(1, 3)),
        (&[27, 21, 33, 36], Advice::Meet(0, 3)),
        (&[66, 32, 0], Advice::Meet(0, 2)),
        (&[35, 33, 28, 55], Advice::Meet(0, 2)),
        (&[47, 32, 49], Advice::Meet(0, 2)),
        (&[66, 52, 33], Advice::Meet(0, 2)),
        (&[3, 13, 35], Advice::Meet(0, 2)),
        (&[46, 32], Advice::Meet(0, 1)),
        (&[46, 33], Advice::Settled),
        (&[66, 52, 32], Advice::Settled),
    ];
    let t = threshold(3, 0, 0, 7)?;
    advises(&rt, &t, &thresholds)?;
    let remainders: [(&[u32], Advice); 6] = [
        (&[4, 1], Advice::Lost),
        (&[0, 7, 2], Advice::Meet(1, 2)),
        (&[2, 1, 0, 7], Advice::Meet(0, 3)),
        (&[0, 7, 9], Advice::Meet(1, 0)),
        (&[1, 10, 0], Advice::Meet(1, 0)),
        (&[1, 6, 1], Advice::Settled),
    ];
    let r = remainder(1, 2, -1, 3, 1)?;
    advises(&rt, &r, &remainders)?;
    let presences: [(&[u32], Advice); 6] = [
        (&[0], Advice::Settled),
        (&[1], Advice::Settled),
        (&[1, 1], Advice::Settled),
        (&[0, 1, 0, 1], Advice::Meet(1, 0)),
        (&[1, 0], Advice::Meet(0, 1)),
        (&[0, 0, 0, 1], Advice::Meet(3, 0)),
    ];
    advises(&rt, &A, &presences)?;
    let pairs: [(&[u32], Advice); 6] = [
        (&[2, 14], Advice::Meet(1, 0)),
        (&[31, 19], Advice::Meet(0, 1)),
        (&[43, 36], Advice::Meet(0, 1)),
        (&[43, 37], Advice::Settled),
        (&[16, 14], Advice::Settled),
        (&[37, 37], Advice::Lost),
    ];
    let ab = both(A, B, 8);
    let lanes = Compiled::new(&[any(1), any(2), Lane::Remainder(r)], 0)?;
    advises(&rt, &both(ab, r, 8), &pairs)?;
    advises(&rt, &lanes, &pairs)?;
    Ok(())
}

#[test]
fn units_that_do_not_fit_are_lost(rt: HostRuntime) -> Result<(), Fail> {
    let t = threshold(3, 0, 0, 7)?;
    largest_unit(&rt, &t, 3_000_000_000, 63_161_283);
    // The last word reads 68, which is state 0 again: the value -8.
    let words = [4_200_000_000, u32::MAX];
    assert_eq!(rt; t.advice(&words, 63_161_283), Advice::Meet(0, 1));
    largest_unit(&rt, &remainder(1, 2, -1, 3, 1)?, 2_600_000_000, 357_913_941);
    largest_unit(&rt, &A, 3_000_000_000, 1 << 31);
    largest_unit(&rt, &Not(A), 3_000_000_000, 1 << 31);
    largest_unit(&rt, &both(A, B, 8), 3_000_000_000, 1 << 30);
    let lanes = Compiled::new(&[any(1), any(2)], 2)?;
    largest_unit(&rt, &lanes, 3_000_000_000, 1 << 30);
    Ok(())
}

#[test]
fn not_reverses_the_answers_of_known_numbers(rt: HostRuntime) -> Result<(), Fail> {
    let t = threshold(3, 0, 0, 7)?;
    let starts = [47, 35, 35, 35, 35, 35, 35, 35];
    replies(&rt, &Not(t), 'N', 68, 2, starts, b"nnnnnnnn");
    settles(&rt, &Not(t), b"aaa", 3, &[66, 32, 36], true)?;
    for state in 0..72 {
        assert_eq!(rt; Not(t).answer(state), state < 68 && state % 2 == 0);
        assert_eq!(rt; Not(Not(t)).answer(state), state < 68 && state % 2 == 1);
    }
    Ok(())
}

#[test]
fn both_asks_two_at_once(rt: HostRuntime) -> Result<(), Fail> {
    for (rule, answers) in [
        (8, [false, false, false, true]),
        (14, [false, true, true, true]),
        (6, [false, true, true, false]),
        (2, [false, true, false, false]),
        (0xf8, [false, false, false, true]),
        (0xf1, [true, false, false, false]),
    ] {
        let q = both(A, B, rule);
        for (state, answer) in (0..).zip(answers) {
            assert_eq!(rt; q.answer(state), answer);
        }
        settles(&rt, &q, b"cab", 3, &[3, 3, 3], answers[3])?;
    }
    let t = threshold(3, 0, 0, 7)?;
    let r = remainder(1, 2, -1, 3, 1)?;
    let q = both(both(t, r, 8), both(A, B, 6), 14);
    let starts = [2286, 1721, 1720, 1688, 1688, 1688, 1688, 1688];
    replies(&rt, &q, 'B', 3264, 6, starts, b"yynnnnnn");
    let rows: [LoadRow; 4] = [
        (b"aab", 3, &[2863, 1591, 1591], true),
        (b"aaab", 6, &[3211, 1539, 1731, 1539], false),
        (b"ccb", 3, &[1689, 1585, 1585], true),
        (b"abc", 2, &[2299, 1587, 1587], false),
    ];
    for (load, meetings, left, answer) in rows {
        settles(&rt, &q, load, meetings, left, answer)?;
    }
    let q = both(r, t, 8);
    for left in 0..12 {
        for right in 0..68 {
            assert_eq!(rt; q.number(left, right), Some(left * 68 + right));
            assert_eq!(rt; q.halves(left * 68 + right), Some((left, right)));
            assert_eq!(rt; q.number(left, 68 + right), None);
            assert_eq!(rt; q.number(12 + left, right), None);
            assert_eq!(rt; q.halves(816 + left * 68 + right), None);
        }
    }
    Ok(())
}

#[test]
fn states_up_to_4294967296(rt: HostRuntime) -> Result<(), Fail> {
    let r = remainder(1, -1, 0, 256, 0)?;
    let all = both(both(r, r, 8), both(r, both(A, B, 8), 8), 8);
    let lane = Lane::Remainder(r);
    let table = u64::from(u32::MAX);
    let lanes = Compiled::new(&[lane, lane, lane, any(1), any(2)], table)?;
    assert_eq!(rt; all.size(), 1 << 32);
    assert_eq!(rt; lanes.size(), 1 << 32);
    assert!(rt; all.answer(u32::MAX) && lanes.answer(u32::MAX));
    assert_eq!(rt; all.meet(u32::MAX, u32::MAX), (4273975275, 3));
    assert_eq!(rt; lanes.meet(u32::MAX, u32::MAX), (4273975275, 3));
    settles(&rt, &all, b"ab", 1, &[12595215, 4198407], true)?;
    settles(&rt, &lanes, b"ab", 1, &[12595215, 4198407], true)?;
    assert_eq!(rt; all.advice(&[12595215, 4198407], 2), Advice::Lost);
    assert_eq!(rt; lanes.advice(&[12595215, 4198407], 2), Advice::Lost);
    let too_many = both(A, all, 15);
    without_states(&rt, &too_many);
    without_states(&rt, &Not(too_many));
    without_states(&rt, &both(too_many, B, 15));
    without_states(&rt, &both(B, too_many, 15));
    let t = threshold(1, 0, 0, 999)?;
    let two = both(t, t, 15);
    assert_eq!(rt; two.size(), 64_064_016);
    without_states(&rt, &both(two, t, 15));
    without_states(&rt, &both(lanes, lanes, 15));
    assert_eq!(rt; too_many.number(0, 0), None);
    assert_eq!(rt; too_many.halves(0), None);
    Ok(())
}

#[test]
fn compiled_questions_answer_by_their_table(rt: HostRuntime) -> Result<(), Fail> {
    let a_and_not_b = Compiled::new(&[any(1), any(2)], 2)?;
    let starts = [2, 1, 0, 0, 0, 0, 0, 0];
    replies(&rt, &a_and_not_b, 'C', 4, 2, starts, b"ynnnnnnn");
    let rows: [LoadRow; 4] = [
        (b"ab", 1, &[3, 3], false),
        (b"ca", 1, &[2, 2], true),
        (b"cba", 3, &[3, 3, 3], false),
        (b"acac", 2, &[2, 2, 2, 2], true),
    ];
    for (load, meetings, left, answer) in rows {
        settles(&rt, &a_and_not_b, load, meetings, left, answer)?;
    }
    let t = threshold(3, 0, 0, 7)?;
    let r = remainder(1, 2, -1, 3, 1)?;
    // The threshold and the remainder, or any h.
    let lanes = [Lane::Threshold(t), Lane::Remainder(r), any(128)];
    let mixed = Compiled::new(&lanes, 0b1111_1000)?;
    let starts = [1142, 860, 860, 844, 844, 844, 844, 845];
    replies(&rt, &mixed, 'C', 1632, 5, starts, b"ynnnnnny");
    let rows: [LoadRow; 6] = [
        (b"aa", 1, &[1436, 792], false),
        (b"aab", 3, &[1430, 794, 794], true),
        (b"aaaa", 6, &[1598, 770, 866, 1058], false),
        (b"bh", 1, &[861, 793], true),
        (b"abc", 2, &[1148, 792, 792], false),
        (b"habc", 4, &[1149, 793, 793, 793], true),
    ];
    for (load, meetings, left, answer) in rows {
        settles(&rt, &mixed, load, meetings, left, answer)?;
    }
    for (table, all, some, none) in [
        (u64::MAX, true, true, true),
        (1 << 63, true, false, false),
        (1, false, false, true),
        (0, false, false, false),
    ] {
        let lanes = [any(1), any(2), any(4), any(8), any(16), any(32)];
        let q = Compiled::new(&lanes, table)?;
        settles(&rt, &q, b"abcdef", 9, &[63; 6], all)?;
        settles(&rt, &q, b"abcde", 7, &[62; 5], some)?;
        settles(&rt, &q, b"gh", 0, &[0; 2], none)?;
    }
    Ok(())
}

#[test]
fn lanes_and_tables_that_are_refused(rt: HostRuntime) -> Result<(), Fail> {
    let t = Lane::Threshold(threshold(1, 0, 0, 999)?);
    let none = Some(Refusal::LengthMismatch.at(0));
    let seventh = Some(Refusal::TooManyAtoms.at(6));
    let states = Some(Refusal::TooManyStates.at(2));
    let bits = Some(Refusal::NumberRange.at(0));
    for (large, count, table, fault) in [
        (false, 0, 0, none),
        (true, 0, u64::MAX, none),
        (false, 7, 0, seventh),
        (true, 7, u64::MAX, seventh),
        (true, 3, 0, states),
        (true, 3, u64::MAX, states),
        (true, 2, 16, bits),
        (true, 2, 15, None),
        (false, 1, 4, bits),
        (false, 1, 3, None),
        (false, 2, 16, bits),
        (false, 3, 1 << 8, bits),
        (false, 3, 255, None),
        (false, 4, 1 << 16, bits),
        (false, 4, 65535, None),
        (false, 5, 1 << 32, bits),
        (false, 5, u64::from(u32::MAX), None),
        (false, 6, u64::MAX, None),
    ] {
        let lane = if large { t } else { any(1) };
        let lanes = vec![in rt.alloc(); lane; count]?;
        assert_eq!(rt; Compiled::new(&lanes, table).err(), fault);
    }
    // 8,004 × 8,004 × 4 × 16 is 4,100,097,024, and with 17 it is 4,356,353,088.
    for (modulus, fault) in [(16, None), (17, states)] {
        let r = Lane::Remainder(remainder(1, 0, 0, modulus, 0)?);
        assert_eq!(rt; Compiled::new(&[t, t, r], 0).err(), fault);
    }
    assert_eq!(rt;
        Compiled::new(&[any(1), t, t, t], 0).err(),
        Some(Refusal::TooManyStates.at(3))
    );
    Ok(())
}

#[test]
fn lanes_are_taken_apart_and_joined(rt: HostRuntime) -> Result<(), Fail> {
    let t = Lane::Threshold(threshold(1, 0, 0, 0)?);
    let r = Lane::Remainder(remainder(1, 0, 0, 2, 0)?);
    let q = Compiled::new(&[t, r, any(1)], 128)?;
    assert_eq!(rt; q.table(), 128);
    assert_eq!(rt; q.size(), 192);
    assert!(rt; q.lanes().iter().map(|lane| lane.kind()).eq(['T', 'R', 'P']));
    for first in 0..12 {
        for second in 0..8 {
            for third in 0..2 {
                let state = (first * 8 + second) * 2 + third;
                assert_eq!(rt; q.number(&[first, second, third]), Some(state));
                assert_eq!(rt; q.lane_state(0, state), Some(first));
                assert_eq!(rt; q.lane_state(1, state), Some(second));
                assert_eq!(rt; q.lane_state(2, state), Some(third));
                assert_eq!(rt; q.lane_state(3, state), None);
                assert_eq!(rt; q.lane_state(0, 192 + state), None);
                let yes = first % 2 == 1 && second % 2 == 1 && third == 1;
                assert_eq!(rt; q.answer(state), yes);
            }
        }
    }
    let numbers: [&[u32]; 7] = [
        &[12, 0, 0],
        &[0, 8, 0],
        &[0, 0, 2],
        &[u32::MAX, 0, 0],
        &[0, 0],
        &[0, 0, 0, 0],
        &[],
    ];
    for row in numbers {
        assert_eq!(rt; q.number(row), None);
    }
    assert_eq!(rt; q.lane_state(usize::MAX, 0), None);
    Ok(())
}
