// A constant alone and under every layer, beside itself and beside a question of two states; and a search by a test of this crate's own.
ghost use Rattle.std.specs.Prelude.{◌≡◌, ◌&&◌, ◌==◌, nat_le};

use super::*;
use kinds::Presence;
use question::digit::{Digit, Test};
use question::layers::{Both, Not};
use std::process::Abort;

const YES: Constant = Constant(true);

const NO: Constant = Constant(false);

// 2^32, the largest unit of one state.
const LARGEST: u64 = 4_294_967_296;

// 2^31, the highest bit of a word.
const HIGHEST: u32 = 2_147_483_648;

// What every question of one state replies, whatever it answers in that state.
fn has_one_state<Q: Question>(rt: &impl Abort, q: &Q, answer: bool) {
    assert_eq!(rt; q.size(), 1);
    assert_eq!(rt; q.weight(), 0);
    for symbol in [0, 1, 2, 3, 4, 5, 6, 7, 8, 255] {
        assert_eq!(rt; q.start(Symbol(symbol)), 0);
    }
    for (state, expected) in [(0, answer), (1, false), (u32::MAX, false)] {
        assert_eq!(rt; q.answer(state), expected);
    }
    for (first, second) in [(0, 0), (0, 1), (1, 0), (7, u32::MAX)] {
        assert_eq!(rt; q.meet(first, second), (first, second));
    }
    let units = [
        (1, Advice::Settled),
        (3, Advice::Settled),
        (LARGEST, Advice::Settled),
        (0, Advice::Lost),
        (LARGEST + 1, Advice::Lost),
        (u64::MAX, Advice::Lost),
    ];
    for (unit, advice) in units {
        assert_eq!(rt; q.advice(&[0], unit), advice);
        assert_eq!(rt; q.advice(&[3, u32::MAX, 0], unit), advice);
        assert_eq!(rt; q.advice(&[], unit), Advice::Lost);
    }
}

// What a presence replies whose mask has symbol 0 alone.
fn has_two_states<Q: Question>(rt: &impl Abort, q: &Q) {
    assert_eq!(rt; q.size(), 2);
    assert_eq!(rt; q.weight(), 1);
    assert_eq!(rt; q.start(Symbol(0)), 1);
    for symbol in [1, 2, 3, 4, 5, 6, 7, 8, 255] {
        assert_eq!(rt; q.start(Symbol(symbol)), 0);
    }
    for (state, answer) in [(0, false), (1, true), (2, false)] {
        assert_eq!(rt; q.answer(state), answer);
    }
    let meetings = [
        (0, 0, (0, 0)),
        (0, 1, (1, 1)),
        (1, 0, (1, 1)),
        (1, 1, (1, 1)),
        (2, 0, (2, 0)),
        (1, 2, (1, 2)),
    ];
    for (first, second, left) in meetings {
        assert_eq!(rt; q.meet(first, second), left);
    }
    let loads = [
        ([1, 0], 1, Advice::Meet(0, 1)),
        ([0, 1], 1, Advice::Meet(1, 0)),
        ([1, 1], 1, Advice::Settled),
        ([0, 0], 1, Advice::Settled),
        // Unit 3 reads 2 and 7 as 0, and 5 as 1.
        ([7, 2], 3, Advice::Settled),
        ([7, 5], 3, Advice::Meet(1, 0)),
        // The largest unit reads the highest bit.
        ([HIGHEST, 1], LARGEST / 2, Advice::Meet(0, 1)),
        ([HIGHEST, 1], LARGEST / 2 + 1, Advice::Lost),
        ([1, 0], 0, Advice::Lost),
    ];
    for (words, unit, advice) in loads {
        assert_eq!(rt; q.advice(&words, unit), advice);
    }
    assert_eq!(rt; q.advice(&[], 1), Advice::Lost);
}

fn both<L, R>(left: L, right: R, rule: u8) -> Both<L, R> {
    Both { left, right, rule }
}

// Whether each rule answers two yes and two no so.
fn answer_by_rule(rows: &[(u8, bool, bool)]) -> bool {
    rows.iter().all(|&(rule, of_yes, of_no)| {
        both(YES, YES, rule).answer(0) == of_yes && both(NO, NO, rule).answer(0) == of_no
    })
}

#[test]
fn alone(rt: HostRuntime) {
    assert_eq!(rt; YES.kind(), 'K');
    assert_eq!(rt; NO.kind(), 'K');
    has_one_state(&rt, &YES, true);
    has_one_state(&rt, &NO, false);
}

#[test]
fn under_not(rt: HostRuntime) {
    assert_eq!(rt; Not(YES).kind(), 'N');
    has_one_state(&rt, &Not(YES), false);
    has_one_state(&rt, &Not(NO), true);
}

#[test]
fn under_not_twice(rt: HostRuntime) {
    assert_eq!(rt; Not(Not(YES)).kind(), 'N');
    has_one_state(&rt, &Not(Not(YES)), true);
    has_one_state(&rt, &Not(Not(NO)), false);
}

#[test]
fn two_of_one_state_have_one_state(rt: HostRuntime) {
    assert_eq!(rt; both(YES, YES, 8).kind(), 'B');
    has_one_state(&rt, &both(YES, YES, 8), true);
    has_one_state(&rt, &both(NO, NO, 8), false);
    has_one_state(&rt, &both(YES, NO, 4), true);
    has_one_state(&rt, &both(NO, YES, 4), false);
    has_one_state(&rt, &Not(both(YES, YES, 8)), false);
    has_one_state(&rt, &both(Not(NO), NO, 4), true);
}

// Two yes ask for bit 3 of the rule, two no for bit 0.
#[test]
fn equal_answers_under_every_rule(rt: HostRuntime) {
    let rows = [
        (0, false, false),
        (1, false, true),
        (2, false, false),
        (3, false, true),
        (4, false, false),
        (5, false, true),
        (6, false, false),
        (7, false, true),
        (8, true, false),
        (9, true, true),
        (10, true, false),
        (11, true, true),
        (12, true, false),
        (13, true, true),
        (14, true, false),
        (15, true, true),
    ];
    assert!(rt; answer_by_rule(&rows));
}

// Yes and no asks for bit 2, no and yes for bit 1.
#[test]
fn the_low_four_bits_of_a_rule_count(rt: HostRuntime) {
    let rows = [
        (16, false, false),
        (23, false, true),
        (24, true, false),
        (240, false, false),
        (254, true, false),
        (255, true, true),
    ];
    assert!(rt; answer_by_rule(&rows));
}

#[test]
fn both_of_both(rt: HostRuntime) {
    // A yes on the left; on the right a yes under rule 1, and a no under rule 14.
    has_one_state(&rt, &both(both(YES, NO, 4), both(NO, NO, 1), 8), true);
    has_one_state(&rt, &both(both(YES, NO, 4), both(NO, NO, 14), 8), false);
    let presence = Presence { mask: 1 };
    has_two_states(&rt, &both(both(YES, NO, 4), both(NO, presence, 2), 8));
}

// The tags in a state, from a place on.
#[derive(Clone, Copy)]
struct HeldFrom {
    place: usize,
    state: u32,
}

impl Test for HeldFrom {
    ghost passes = { λ t place state. nat_le t.place place && (state == t.state) };

    fn passes_at(&self, place: usize, state: u32) -> bool {
        self.place <= place && state == self.state
    }
}

// Words of the states 4, 1, 0, 1 and 4, of five, by unit 3.
#[test]
fn the_lowest_place_that_passes_a_test(rt: HostRuntime) {
    let found = Digit::new(3, 5).map(|digit| {
        let lowest = |place, state| digit.lowest(&[13, 4, 0, 19, 28], &HeldFrom { place, state });
        [
            lowest(0, 4),
            lowest(0, 1),
            lowest(2, 1),
            lowest(0, 0),
            lowest(4, 1),
            lowest(0, 2),
        ]
    });
    assert_eq!(rt;
        found,
        Some([Some(0), Some(1), Some(3), Some(2), None, None])
    );
}
