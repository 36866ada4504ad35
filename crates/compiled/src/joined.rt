// Lanes in one number, the first highest.
ghost use Rattle.std.specs.Prelude.{◌≡◌, ℕ, ◌^◌, ◌<◌, ◌≤◌, Bool, length, cond, nat_lt, Some, None, IfSome};
ghost use Rattle.protocol.specs.Protocols.{start_reply, meet_reply, advice_reply};
ghost use Rattle.protocol.specs.Joining.{answers_number};
ghost use Rattle.question.specs.Halves.{halves_reply, number_reply as pair_number};
ghost use Rattle.compiled.specs.Lanes.{lane_meaning, lanes_of, lane_state_reply, number_reply};

use super::lane::Lane;
use protocol::Advice;
use question::Question;
use question::states::{Sizes, allowed};
use reading::Symbol;

// How many states lanes have together, or 0 where words of 32 bits cannot number them.
pub(crate) fn size_of(lanes: &[Lane]) -> u64
    ensures { result ≡ (lanes_of lanes.now).tables.size }
{
    lanes.iter().rev().fold(1, |right, lane| {
        let left = lane.size();
        Sizes { left, right }.product()
    })
}

// The sizes of the first lane and of the rest.
fn sizes(lane: &Lane, rest: &[Lane]) -> Sizes
    ensures left { result.left ≡ (lane_meaning lane.now).protocol.tables.size }
    ensures right { result.right ≡ (lanes_of rest.now).tables.size }
{
    Sizes {
        left: lane.size(),
        right: size_of(rest),
    }
}

// The number of the first lane and that of the rest, in one.
fn join(lane: &Lane, rest: &[Lane], first: u32, others: u32) -> Option<u32>
    ensures { result ≡ pair_number (lane_meaning lane.now).protocol.tables.size (lanes_of rest.now).tables.size first others }
{
    sizes(lane, rest).number(first, others)
}

// The number of the first lane and that of the rest, in a state; none for an unknown one.
fn split(lane: &Lane, rest: &[Lane], state: u32) -> Option<(u32, u32)>
    ensures { result ≡ halves_reply (lane_meaning lane.now).protocol.tables.size (lanes_of rest.now).tables.size state }
{
    sizes(lane, rest).halves(state)
}

// The advised meetings that lanes need, for each tag but one: the sum, or 0 where the size is. An `if` of its own, as in `Both::weight`.
pub(crate) fn weight_of(lanes: &[Lane]) -> u64
    ensures { result ≡ (lanes_of lanes.now).weight }
{
    match lanes {
        [lane, rest @ ..] if sizes(lane, rest).product() > 0 => lane.weight() + weight_of(rest),
        _ => 0,
    }
}

// The number in which a symbol starts every lane.
pub(crate) fn start_of(lanes: &[Lane], symbol: Symbol) -> u32
    ensures { result ≡ start_reply (lanes_of lanes.now).tables symbol.0 }
{
    match lanes {
        [] => 0,
        [lane, rest @ ..] => {
            join(lane, rest, lane.start(symbol), start_of(rest, symbol)).unwrap_or(0)
        }
    }
}

// The answers of lanes as a number: 2^k for each lane k that answers yes; none for an unknown state. That there are at most six is required, as of
// `padded` and `table_fits`: a type of such slices would be made anew at each step.
pub(crate) fn answers_of(lanes: &[Lane], state: u32) -> Option<u32>
    requires { length lanes.now ≤ 6 }
    ensures value { result ≡ cond (nat_lt state (lanes_of lanes.now).tables.size) (Some (answers_number ((lanes_of lanes.now).tables.answer state))) None }
    ensures below { IfSome result (λ answers. answers < 2 ^ length lanes.now) }
{
    match lanes {
        [] => (state == 0).then_some(0),
        [lane, rest @ ..] => {
            let (first, others) = split(lane, rest, state)?;
            let answers = answers_of(rest, others)?;
            Some(u32::from(lane.answer(first)) + 2 * answers)
        }
    }
}

// A meeting meets every lane.
pub(crate) fn meet_of(lanes: &[Lane], first: u32, second: u32) -> (u32, u32)
    ensures { result ≡ meet_reply (lanes_of lanes.now).tables first second }
{
    match lanes {
        [] => (first, second),
        [lane, rest @ ..] => sizes(lane, rest).meet(
            first,
            second,
            |a, b| lane.meet(a, b),
            |a, b| -> (u32, u32)
                ensures { result ≡ meet_reply (lanes_of rest.entry.now).tables a b }
            { meet_of(rest, a, b) },
        ),
    }
}

// The advice of the first lane that is not settled, each asked with the unit times the sizes after it.
pub(crate) fn advice_of(lanes: &[Lane], words: &[u32], unit: u64) -> Advice
    ensures { result ≡ advice_reply (lanes_of lanes.now) words.now unit }
{
    // Before any size is asked for.
    if words.is_empty() {
        return Advice::Lost;
    }
    match lanes {
        [] if !allowed(unit, 1) => Advice::Lost,
        [] => Advice::Settled,
        [lane, rest @ ..] => sizes(lane, rest).advice(
            words,
            unit,
            |unit| lane.advice(words, unit),
            |unit| -> Advice
                ensures { result ≡ advice_reply (lanes_of rest.entry.now) words.entry.now unit }
            { advice_of(rest, words, unit) },
        ),
    }
}

// The number of a lane in a state: none for an unknown state or a lane that is not there.
pub(crate) fn lane_state_of(lanes: &[Lane], place: usize, state: u32) -> Option<u32>
    ensures { result ≡ lane_state_reply lanes.now place state }
{
    let (lane, rest) = lanes.split_first()?;
    let (first, others) = split(lane, rest, state)?;
    if place == 0 {
        Some(first)
    } else {
        lane_state_of(rest, place - 1, others)
    }
}

// The state of one number a lane: none where their number is not the lanes', and where one is unknown.
pub(crate) fn number_of(lanes: &[Lane], numbers: &[u32]) -> Option<u32>
    ensures { result ≡ number_reply lanes.now numbers.now }
{
    match (lanes, numbers) {
        ([], []) => Some(0),
        ([lane, rest @ ..], [first, others @ ..]) => {
            // The rest first: where it has no number, no size is asked for.
            join(lane, rest, *first, number_of(rest, others)?)
        }
        _ => None,
    }
}
