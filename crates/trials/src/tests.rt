// Every refusal of every call with its place and its order, meetings broken off and finished, and loads settled, stirred and asked.
// Questions are named as in docs/QUESTIONS.md: `3a < 7` is the threshold with coefficient 3 for symbol a and bound 7.
use compiled::{Compiled, Lane};
use constant::Constant;
use kinds::{Presence, Remainder, Threshold};
use load::{Meeting, Ready, Refused};
use protocol::Advice;
use question::Question;
use question::layers::{Both, Not};
use reading::Symbol;
use refusal::{Fault, Refusal};
use settling::{ask, settle};
use std::alloc::{AllocError, Global};
use std::fmt::Display;
use std::test::Fail;

const A: Symbol = Symbol(0);

const B: Symbol = Symbol(1);

const C: Symbol = Symbol(2);

const D: Symbol = Symbol(3);

const H: Symbol = Symbol(7);

// How many tags a load can have.
const MOST: usize = 1024;

// How many meetings stir a settled load.
const STIRS: usize = 600;

// What words hold before a call; only a question of 2^32 states knows it.
const UNWRITTEN: u32 = u32::MAX;

// The rule of a layer of two for *and*, and tables of three and of four lanes.
const AND: u8 = 8;

const TWO_OF_THREE: u64 = 0b1110_1000;

const ALL_OF_FOUR: u64 = 1 << 15;

const ANY_A: Presence = Presence { mask: 1 };

#[derive(Clone, Copy)]
struct Questions {
    // `3a < 7`, which has 68 states.
    few: Threshold,
    // `2a - 3b + c < -1`.
    signs: Threshold,
    // `a + 2b - c = 1 mod 3`.
    thirds: Remainder,
    // At least two of these two and `any a`.
    lanes: Compiled,
    // Four times `a = 1 mod 64`, which has 256 states: so many that every word is known.
    all: Compiled,
}

fn make_questions() -> Result<Questions, Fault> {
    let signs = Threshold::new([2, -3, 1, 0, 0, 0, 0, 0], -1)?;
    let thirds = Remainder::new([1, 2, -1, 0, 0, 0, 0, 0], 3, 1)?;
    let lanes = [
        Lane::Threshold(signs),
        Lane::Remainder(thirds),
        Lane::Presence(ANY_A),
    ];
    let lane = Lane::Remainder(Remainder::new([1, 0, 0, 0, 0, 0, 0, 0], 64, 1)?);
    Ok(Questions {
        few: Threshold::new([3, 0, 0, 0, 0, 0, 0, 0], 7)?,
        signs,
        thirds,
        lanes: Compiled::new(&lanes, TWO_OF_THREE)?,
        all: Compiled::new(&[lane; 4], ALL_OF_FOUR)?,
    })
}

// Fails a test where the fact does not hold.
fn ensure<D: Display + Drop>(holds: bool, what: D) -> Result<(), Fail> {
    if holds { Ok(()) } else { Err(Fail::new(what)) }
}

// A meeting finished; one that is refused is broken off.
fn finish<Q: Question>(meeting: Meeting, q: &Q, words: &mut [u32]) -> Result<Ready, Fault> {
    meeting.finish(q, words).map_err(|refused| {
        refused.kept.break_off();
        refused.fault
    })
}

// Whether the load is settled, and every tag has this answer.
fn all_answer<Q: Question>(load: &Ready, q: &Q, words: &[u32], answer: bool) -> bool {
    (0..load.tags()).all(|place| load.read(q, words, place) == Ok(answer))
        && load.advise(q, words) == Ok(Advice::Settled)
}

// Hands the lead of a settled load from place to place: after each meeting it is settled still, and every tag answers the same.
fn stir<Q: Question>(mut load: Ready, q: &Q, words: &mut [u32], answer: bool) -> Result<(), Fail> {
    let tags = load.tags();
    ensure(all_answer(&load, q, words, answer), "not settled")?;
    if tags < 2 {
        return Ok(());
    }
    let mut place = 0;
    for step in 0..STIRS {
        let next = (place + 1 + step % (tags - 1)) % tags;
        let meeting = load.open(q, words, next, place).map_err(Fault::from)?;
        load = finish(meeting, q, words)?;
        ensure(
            all_answer(&load, q, words, answer),
            format_args!("not settled after {next} met {place}"),
        )?;
        place = next;
    }
    Ok(())
}

// What settling comes to: the meetings made and the advice at the end, or what is refused.
type Outcome = Result<(u64, Advice), Fault>;

// The load after settling, and what it came to.
fn followed<Q: Question>(load: Ready, q: &Q, words: &mut [u32]) -> (Ready, Outcome) {
    match settle(load, q, words) {
        Ok(done) => (done.load, Ok((done.meetings, done.advice))),
        Err(Refused { fault, kept }) => (kept, Err(fault)),
    }
}

// A load, the meetings that settle it, the words that they leave, or the first of them, and the answer.
type LoadRow = (&'static [Symbol], u64, &'static [u32], bool);

// The symbols of a load, made up to so many where it has fewer: the last stands for all further tags.
fn symbols_of(alloc: Global, load: &[Symbol], least: usize) -> Result<Vec<Symbol>, AllocError> {
    let last = load.last().copied().unwrap_or(H);
    let mut symbols = load.to_vec(alloc)?;
    symbols.resize(load.len().max(least), last)?;
    Ok(symbols)
}

// Starts each load, settles it and stirs it; and asks the same.
fn settle_all<Q: Question>(
    alloc: Global,
    q: &Q,
    least: usize,
    rows: &[LoadRow],
) -> Result<(), Fail> {
    for &(load, meetings, left, answer) in rows {
        let symbols = symbols_of(alloc, load, least)?;
        let mut words = vec![in alloc; UNWRITTEN; symbols.len()]?;
        let ready = Ready::start(q, &symbols, &mut words)?;
        let (settled, outcome) = followed(ready, q, &mut words);
        ensure(
            outcome == Ok((meetings, Advice::Settled)) && words.starts_with(left),
            format_args!("settle came to {outcome:?} and {words:?} of {load:?}"),
        )?;
        stir(settled, q, &mut words, answer)?;
        let asked = ask(q, &symbols, &mut words);
        ensure(
            asked == Ok(answer) && words.starts_with(left),
            format_args!("ask came to {asked:?} and {words:?} of {load:?}"),
        )?;
    }
    Ok(())
}

// Words that need be no started load's, what settling them comes to, and the words left.
type WordsRow = (&'static [u32], Outcome, &'static [u32]);

// The load of five tags that settle hands back goes on to the next row.
fn settle_words<Q: Question>(alloc: Global, q: &Q, rows: &[WordsRow]) -> Result<(), Fail> {
    let mut load = Ready::start(q, &[A; 5], &mut [UNWRITTEN; 5])?;
    for &(before, expected, left) in rows {
        let mut words = before.to_vec(alloc)?;
        let (kept, outcome) = followed(load, q, &mut words);
        ensure(
            outcome == expected && words.as_slice() == left,
            format_args!("settle came to {outcome:?} and {words:?} of {before:?}"),
        )?;
        load = kept;
    }
    Ok(())
}

// How many symbols and words there are, from which place on the symbols are another than h, and which, and what start refuses of them.
type StartRow = (usize, usize, usize, u8, Option<Fault>);

// Ask refuses what start does, and neither writes a word.
fn start_refuses<Q: Question>(alloc: Global, q: &Q, rows: &[StartRow]) -> Result<(), Fail> {
    for &(tags, length, place, other, expected) in rows {
        let mut load = vec![in alloc; H; place]?;
        load.resize(tags, Symbol(other))?;
        let mut words = vec![in alloc; UNWRITTEN; length]?;
        let of_start = Ready::start(q, &load, &mut words).err();
        let of_ask = ask(q, &load, &mut words).err();
        let unwritten = words.iter().all(|&word| word == UNWRITTEN);
        ensure(
            of_start == expected && of_ask == expected && unwritten,
            format_args!("{of_start:?} and {of_ask:?} of {tags} symbols and {length} words"),
        )?;
    }
    Ok(())
}

// The load after an open, which is broken off where it is granted, and what it refuses.
fn opened<Q: Question>(
    load: Ready,
    q: &Q,
    words: &[u32],
    first: usize,
    second: usize,
) -> (Ready, Option<Fault>) {
    match load.open(q, words, first, second) {
        Ok(meeting) => (meeting.break_off(), None),
        Err(Refused { fault, kept }) => (kept, Some(fault)),
    }
}

// Words and two places, and what open, advise and read, of the first place, refuse of them.
type CallRow = (&'static [u32], usize, usize, [Option<Fault>; 3]);

// The load aaa, started over one question, is called over another, and what open hands back goes on to the next row.
fn calls_refuse<Q: Question>(few: &Threshold, q: &Q, rows: &[CallRow]) -> Result<(), Fail> {
    let mut load = Ready::start(few, &[A; 3], &mut [UNWRITTEN; 3])?;
    for &(words, first, second, expected) in rows {
        let of_read = load.read(q, words, first).err();
        let of_advise = load.advise(q, words).err();
        let (kept, of_open) = opened(load, q, words, first, second);
        let found = [of_open, of_advise, of_read];
        ensure(
            found == expected,
            format_args!("{found:?} at {first} and {second} of {words:?}"),
        )?;
        load = kept;
    }
    Ok(())
}

// A meeting of the load aaa is opened, broken off and opened again.
fn reopened(
    few: &Threshold,
    words: &mut [u32],
    first: usize,
    second: usize,
) -> Result<Meeting, Fault> {
    let load = Ready::start(few, &[A; 3], words)?;
    let meeting = load.open(few, words, first, second)?;
    Ok(meeting.break_off().open(few, words, first, second)?)
}

// Finishes a meeting over another question and other words: what is refused. Then the meeting that came back is finished as it should be.
fn handed_back<Q: Question>(
    meeting: Meeting,
    q: &Q,
    others: &mut [u32],
    few: &Threshold,
    words: &mut [u32],
) -> Result<Option<Fault>, Fault> {
    match meeting.finish(q, others) {
        Ok(_) => Ok(None),
        Err(Refused { fault, kept }) => {
            finish(kept, few, words)?;
            Ok(Some(fault))
        }
    }
}

// Other words and two places, what finish refuses of them, and what is left in the end of the others and of the load's own words.
type FinishRow = (
    &'static [u32],
    usize,
    usize,
    Option<Fault>,
    &'static [u32],
    [u32; 3],
);

fn finish_refuses<Q: Question>(
    alloc: Global,
    few: &Threshold,
    q: &Q,
    rows: &[FinishRow],
) -> Result<(), Fail> {
    for &(before, first, second, expected, others_left, left) in rows {
        let mut others = before.to_vec(alloc)?;
        let mut words = [UNWRITTEN; 3];
        let meeting = reopened(few, &mut words, first, second)?;
        let refused = handed_back(meeting, q, &mut others, few, &mut words)?;
        ensure(
            refused == expected && others.as_slice() == others_left && words == left,
            format_args!(
                "{refused:?}, {others:?} and {words:?} at {first} and {second} of {before:?}"
            ),
        )?;
    }
    Ok(())
}

const TOO_LARGE: Option<Fault> = Some(Fault {
    refusal: Refusal::QuestionTooLarge,
    place: 0,
});

const TAG_COUNT: Option<Fault> = Some(Fault {
    refusal: Refusal::TagCount,
    place: 0,
});

const LENGTH: Option<Fault> = Some(Fault {
    refusal: Refusal::LengthMismatch,
    place: 0,
});

const SYMBOL_0: Option<Fault> = Some(Fault {
    refusal: Refusal::UnknownSymbol,
    place: 0,
});

const SYMBOL_1: Option<Fault> = Some(Fault {
    refusal: Refusal::UnknownSymbol,
    place: 1,
});

const SYMBOL_1023: Option<Fault> = Some(Fault {
    refusal: Refusal::UnknownSymbol,
    place: 1023,
});

static OF_TOO_LARGE: [StartRow; 4] = [
    (0, 1, 0, 8, TOO_LARGE),
    (1025, 1024, 0, 8, TOO_LARGE),
    (2, 3, 1, 8, TOO_LARGE),
    (3, 3, 3, 7, TOO_LARGE),
];

static OF_START: [StartRow; 11] = [
    (0, 0, 0, 7, TAG_COUNT),
    (0, 1, 0, 8, TAG_COUNT),
    (1025, 1025, 0, 7, TAG_COUNT),
    (1025, 1024, 0, 8, TAG_COUNT),
    (1024, 1025, 0, 8, LENGTH),
    (1024, 1023, 1023, 8, LENGTH),
    (2, 0, 0, 255, LENGTH),
    (1, 2, 1, 7, LENGTH),
    (1, 1, 0, 8, SYMBOL_0),
    (3, 3, 1, 255, SYMBOL_1),
    (1024, 1024, 1023, 8, SYMBOL_1023),
];

#[test]
fn start_and_ask_refuse_in_order(rt: HostRuntime) -> Result<(), Fail> {
    let of = make_questions()?;
    let too_large = Both {
        left: of.all,
        right: ANY_A,
        rule: AND,
    };
    start_refuses(rt.alloc(), &of.few, &OF_START)?;
    start_refuses(rt.alloc(), &too_large, &OF_TOO_LARGE)?;
    Ok(())
}

const FAR: usize = usize::MAX;

const MAX: u32 = u32::MAX;

const PLACE_3: Option<Fault> = Some(Fault {
    refusal: Refusal::NoSuchPlace,
    place: 3,
});

const PLACE_FAR: Option<Fault> = Some(Fault {
    refusal: Refusal::NoSuchPlace,
    place: FAR,
});

const SAME_1: Option<Fault> = Some(Fault {
    refusal: Refusal::SamePlace,
    place: 1,
});

const SAME_2: Option<Fault> = Some(Fault {
    refusal: Refusal::SamePlace,
    place: 2,
});

const STATE_0: Option<Fault> = Some(Fault {
    refusal: Refusal::UnknownState,
    place: 0,
});

const STATE_1: Option<Fault> = Some(Fault {
    refusal: Refusal::UnknownState,
    place: 1,
});

const STATE_2: Option<Fault> = Some(Fault {
    refusal: Refusal::UnknownState,
    place: 2,
});

// Of 68 states 67 is known and 68 is not.
static OF_CALLS: [CallRow; 19] = [
    (&[], 0, 1, [LENGTH; 3]),
    (&[68, 68], 2, 2, [LENGTH; 3]),
    (&[68; 4], 3, FAR, [LENGTH; 3]),
    (&[68; 3], 3, 0, [PLACE_3, STATE_0, PLACE_3]),
    (&[68; 3], 1, 3, [PLACE_3, STATE_0, STATE_1]),
    (&[47; 3], FAR, 3, [PLACE_FAR, None, PLACE_FAR]),
    (&[47; 3], 3, FAR, [PLACE_3, None, PLACE_3]),
    (&[47; 3], 0, FAR, [PLACE_FAR, None, None]),
    (&[47; 3], 3, 3, [PLACE_3, None, PLACE_3]),
    (&[MAX; 3], 1, 1, [SAME_1, STATE_0, STATE_1]),
    (&[47; 3], 2, 2, [SAME_2, None, None]),
    (&[47, 47, 68], 2, 0, [STATE_2; 3]),
    (&[68, 47, MAX], 2, 0, [STATE_2, STATE_0, STATE_2]),
    (&[68, 47, 67], 2, 0, [STATE_0, STATE_0, None]),
    (&[67, 68, MAX], 0, 2, [STATE_2, STATE_1, None]),
    (&[67, 68, MAX], 1, 2, [STATE_1; 3]),
    (&[47, 68, 47], 2, 0, [None, STATE_1, None]),
    (&[67; 3], 0, 2, [None; 3]),
    (&[47; 3], 2, 1, [None; 3]),
];

const WRONG_LENGTH: Outcome = Err(Fault {
    refusal: Refusal::LengthMismatch,
    place: 0,
});

const UNKNOWN_1: Outcome = Err(Fault {
    refusal: Refusal::UnknownState,
    place: 1,
});

const UNKNOWN_2: Outcome = Err(Fault {
    refusal: Refusal::UnknownState,
    place: 2,
});

static OF_SETTLE: [WordsRow; 5] = [
    (&[68; 4], WRONG_LENGTH, &[68; 4]),
    (&[68; 6], WRONG_LENGTH, &[68; 6]),
    (&[47, 47, 68, 47, 68], UNKNOWN_2, &[47, 47, 68, 47, 68]),
    (&[67, 68, MAX, 0, 0], UNKNOWN_1, &[67, 68, MAX, 0, 0]),
    (&[47; 5], Ok((5, Advice::Settled)), &[66, 32, 36, 44, 44]),
];

// Of 47 and 47 the first leaves as 59 and the second as 33; of 59 and 47, as 66 and 36.
static OF_FINISH: [FinishRow; 9] = [
    (&[], 0, 1, LENGTH, &[], [59, 33, 47]),
    (&[68, 68], 1, 0, LENGTH, &[68, 68], [33, 59, 47]),
    (&[68; 4], 0, 2, LENGTH, &[68; 4], [59, 47, 33]),
    (&[68; 3], 2, 0, STATE_2, &[68; 3], [33, 47, 59]),
    (&[68, 68, 67], 2, 0, STATE_0, &[68, 68, 67], [33, 47, 59]),
    (&[MAX, 47, 47], 0, 1, STATE_0, &[MAX, 47, 47], [59, 33, 47]),
    (&[67, MAX, 68], 0, 1, STATE_1, &[67, MAX, 68], [59, 33, 47]),
    (&[47, 68, 47], 2, 0, None, &[33, 68, 59], [47; 3]),
    (&[59, 33, 47], 0, 2, None, &[66, 33, 36], [47; 3]),
];

#[test]
fn calls_refuse_in_order_and_change_nothing(rt: HostRuntime) -> Result<(), Fail> {
    let of = make_questions()?;
    calls_refuse(&of.few, &of.few, &OF_CALLS)?;
    settle_words(rt.alloc(), &of.few, &OF_SETTLE)?;
    finish_refuses(rt.alloc(), &of.few, &of.few, &OF_FINISH)?;
    Ok(())
}

// `any a` has two states, so that it knows 0 and 1.
static OF_TWO_STATES: [CallRow; 4] = [
    (&[47; 3], 1, 2, [STATE_1, STATE_0, STATE_1]),
    (&[0, 2, 1], 1, 2, [STATE_1; 3]),
    (&[0, 2, 1], 2, 1, [STATE_1, STATE_1, None]),
    (&[0, 2, 1], 0, 2, [None, STATE_1, None]),
];

static FINISH_OF_TWO_STATES: [FinishRow; 3] = [
    (&[47; 3], 1, 2, STATE_1, &[47; 3], [47, 59, 33]),
    (&[0, 2, 1], 2, 1, STATE_1, &[0, 2, 1], [47, 33, 59]),
    (&[0, 2, 1], 0, 2, None, &[1, 2, 1], [47; 3]),
];

// The largest word has the value 63, a lead and a yes in each lane. Of two such the first leaves with 62, a lead and a no in each.
static OF_ALL_STATES: [CallRow; 1] = [(&[MAX; 3], 0, 2, [None; 3])];

const MET_MAX: u32 = 4_210_752_250;

static FINISH_OF_ALL_STATES: [FinishRow; 1] = [(
    &[MAX; 3],
    0,
    2,
    None,
    &[MET_MAX, MAX, 0],
    [47; 3],
)];

// With twice as many states there is no word for each, the size is 0, and no word is known.
static OF_NO_STATES: [CallRow; 1] = [(&[0; 3], 2, 1, [STATE_2, STATE_0, STATE_2])];

#[test]
fn a_question_of_another_size(rt: HostRuntime) -> Result<(), Fail> {
    let of = make_questions()?;
    let none = Both {
        left: of.all,
        right: ANY_A,
        rule: AND,
    };
    calls_refuse(&of.few, &ANY_A, &OF_TWO_STATES)?;
    finish_refuses(rt.alloc(), &of.few, &ANY_A, &FINISH_OF_TWO_STATES)?;
    calls_refuse(&of.few, &of.all, &OF_ALL_STATES)?;
    finish_refuses(rt.alloc(), &of.few, &of.all, &FINISH_OF_ALL_STATES)?;
    calls_refuse(&of.few, &none, &OF_NO_STATES)?;
    Ok(())
}

static OF_FEW: [LoadRow; 5] = [
    (&[A], 0, &[47], true),
    (&[A, A, A], 3, &[66, 32, 36], false),
    (&[A, A, B], 2, &[59, 33, 33], true),
    (&[B, B, A, B, B, A], 5, &[59, 33, 33, 33, 33, 33], true),
    (&[A; 8], 8, &[66, 32, 36, 44, 44, 44, 44, 44], false),
];

static OF_SIGNS: [LoadRow; 3] = [
    (&[B], 0, &[3], true),
    (
        &[A, B, C, A, B, C, A, B],
        7,
        &[10, 12, 12, 12, 12, 12, 12, 12],
        false,
    ),
    (
        &[C, B, C, B, B, A, A, H],
        10,
        &[3, 13, 13, 13, 13, 13, 13, 13],
        true,
    ),
];

static OF_THIRDS: [LoadRow; 3] = [
    (&[A], 0, &[7], true),
    (
        &[A, B, C, A, B, C, A, B],
        12,
        &[7, 1, 1, 1, 1, 1, 1, 1],
        true,
    ),
    (
        &[H, D, D, D, D, C, B, A],
        8,
        &[10, 0, 0, 0, 0, 0, 0, 0],
        false,
    ),
];

// `any a c`.
static OF_PRESENCE: [LoadRow; 4] = [
    (&[B], 0, &[0], false),
    (&[B; 8], 0, &[0; 8], false),
    (&[B, C, B, A], 2, &[1; 4], true),
    (&[B, B, B, B, B, B, B, A], 7, &[1; 8], true),
];

#[test]
fn plain_questions_settle_and_stay_settled(rt: HostRuntime) -> Result<(), Fail> {
    let of = make_questions()?;
    settle_all(rt.alloc(), &of.few, 1, &OF_FEW)?;
    settle_all(rt.alloc(), &of.signs, 1, &OF_SIGNS)?;
    settle_all(rt.alloc(), &of.thirds, 1, &OF_THIRDS)?;
    settle_all(rt.alloc(), &Presence { mask: 5 }, 1, &OF_PRESENCE)?;
    Ok(())
}

// `not 3a < 7 and a + 2b - c = 1 mod 3`.
static OF_LAYERS: [LoadRow; 4] = [
    (&[A, B], 1, &[566, 396], false),
    (&[A, A, A], 3, &[794, 384, 432], false),
    (&[A, A, A, A], 6, &[799, 385, 433, 529], true),
    (
        &[A, B, C, A, B, C, A, B],
        12,
        &[799, 385, 385, 385, 385, 385, 433, 385],
        true,
    ),
];

static OF_LANES: [LoadRow; 5] = [
    (&[A], 0, &[543], true),
    (&[B], 0, &[92], false),
    (&[B, C], 1, &[182, 314], true),
    (&[B, B, B, C], 4, &[92, 120, 24, 312], false),
    (&[A, B, B, A, B], 6, &[93, 313, 313, 313, 121], true),
];

static OF_YES: [LoadRow; 2] = [
    (&[A], 0, &[0], true),
    (&[A, B, C, D, D, C, B, H], 0, &[0; 8], true),
];

static OF_NO: [LoadRow; 1] = [(&[A, B, C, D, D, C, B, H], 0, &[0; 8], false)];

#[test]
fn joined_questions_settle_and_stay_settled(rt: HostRuntime) -> Result<(), Fail> {
    let of = make_questions()?;
    let layers = Both {
        left: Not(of.few),
        right: of.thirds,
        rule: AND,
    };
    settle_all(rt.alloc(), &layers, 1, &OF_LAYERS)?;
    settle_all(rt.alloc(), &of.lanes, 1, &OF_LANES)?;
    settle_all(rt.alloc(), &Constant(true), 1, &OF_YES)?;
    settle_all(rt.alloc(), &Not(Constant(true)), 1, &OF_NO)?;
    Ok(())
}

// Loads of 1,024 tags, of which the words of the first four are given.
static LARGE_OF_SIGNS: [LoadRow; 3] = [
    (&[H, B], 1023, &[3, 13, 1, 1], true),
    (&[C], 1023, &[26, 12, 12, 16], false),
    (&[B, C], 1024, &[26, 12, 12, 12], false),
];

static LARGE_OF_ANY: [LoadRow; 2] = [(&[A, B], 1023, &[1; 4], true), (&[B, C], 0, &[0; 4], false)];

static LARGE_OF_LANES: [LoadRow; 2] = [
    (&[A, B], 1706, &[87, 315, 219, 27], true),
    (&[C], 1364, &[644, 288, 288, 384], false),
];

#[test]
fn loads_of_1024_tags(rt: HostRuntime) -> Result<(), Fail> {
    let of = make_questions()?;
    settle_all(rt.alloc(), &of.signs, MOST, &LARGE_OF_SIGNS)?;
    settle_all(rt.alloc(), &ANY_A, MOST, &LARGE_OF_ANY)?;
    settle_all(rt.alloc(), &of.lanes, MOST, &LARGE_OF_LANES)?;
    Ok(())
}

const LOST_AT_ONCE: Outcome = Ok((0, Advice::Lost));

const LOST_AFTER_3: Outcome = Ok((3, Advice::Lost));

const STOPPED: Outcome = Ok((12, Advice::Meet(0, 3)));

const SETTLED_BY_ONE: Outcome = Ok((1, Advice::Settled));

// Where no tag leads the load is lost; where all do, with bits that no start gives them, it settles.
static WORDS_OF_FEW: [WordsRow; 2] = [
    (&[45, 32, 33, 36, 41], LOST_AT_ONCE, &[45, 32, 33, 36, 41]),
    (&[67; 5], Ok((4, Advice::Settled)), &[66, 64, 64, 64, 64]),
];

// No tag leads in the second lane. In the first, 0 does not lead either, 336 does, and 288 and 312 follow it with no and with yes.
static WORDS_OF_LANES: [WordsRow; 3] = [
    (&[0; 5], LOST_AT_ONCE, &[0; 5]),
    (
        &[336, 288, 288, 288, 288],
        LOST_AT_ONCE,
        &[336, 288, 288, 288, 288],
    ),
    (
        &[336, 312, 288, 312, 312],
        LOST_AFTER_3,
        &[336, 288, 288, 288, 288],
    ),
];

// `a + 2b - c = 1 mod 3 and any a`, of weight 3. A remainder that is settled, and holds values besides the leader's, is unsettled again.
// Settle stops after 3 × (5 - 1) meetings, and goes on from there when it is called again.
static WORDS_OF_LAYERS: [WordsRow; 2] = [
    (&[18, 18, 6, 18, 11], STOPPED, &[15, 3, 3, 1, 3]),
    (&[15, 3, 3, 1, 3], SETTLED_BY_ONE, &[15, 3, 3, 3, 3]),
];

#[test]
fn words_that_no_started_load_comes_to(rt: HostRuntime) -> Result<(), Fail> {
    let of = make_questions()?;
    let layers = Both {
        left: of.thirds,
        right: ANY_A,
        rule: AND,
    };
    settle_words(rt.alloc(), &of.few, &WORDS_OF_FEW)?;
    settle_words(rt.alloc(), &of.lanes, &WORDS_OF_LANES)?;
    settle_words(rt.alloc(), &layers, &WORDS_OF_LAYERS)?;
    Ok(())
}
