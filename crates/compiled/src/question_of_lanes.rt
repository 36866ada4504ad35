// The compiled question.
ghost use Rattle.std.specs.Prelude.{◌≡◌, ℕ, ◌+◌, ◌^◌, ◌<◌, ◌≤◌, Bool, List, length, take, Some, Ok, Err, MatchResult, nat_lt, slice_index};
ghost use Rattle.protocol.specs.Joining.{compiled, bit_at, answers_number};
ghost use Rattle.refusal.specs.Checks.{verdict};
ghost use Rattle.compiled.specs.Lanes.{lane_protocols, lanes_of, number_reply, lane_state_reply, states_checks, lanes_checks};
ghost use Rattle.protocol.proofs.Joining.{answered_lawful};
ghost use Rattle.compiled.specs.LanesLemmas.{lanes_of_lawful};

use super::joined;
use super::lane::Lane;
use kinds::Presence;
use protocol::Advice;
use question::Question;
use question::states::{Sizes, bit_at};
use reading::Symbol;
use refusal::{Fault, Refusal};

// How many lanes a question has at most.
pub const MAX_LANES: usize = 6;

// One to six lanes, kept as they were given, and a table: bit t is the answer where t has bit k for each lane k that answers yes.
// An array with a count, since no call of the libraries takes memory from the heap, and a question is Copy.
#[derive(Clone, Copy)]
pub struct Compiled {
    kept: [Lane; MAX_LANES],
    count: usize,
    table: u64,
    ghost six: { length kept ≡ 6 },
    ghost some: { 0 < count },
    ghost few: { count ≤ 6 },
    ghost sized: { 0 < (lanes_of (take count kept)).tables.size },
    ghost bits: { table < 2 ^ (2 ^ count) },
}

// Whether a table for so many lanes has no bit beyond them.
fn table_fits(lanes: usize, table: u64) -> bool
    requires { lanes ≤ 6 }
    ensures { result ≡ nat_lt table (2 ^ (2 ^ lanes)) }
{
    table.unbounded_shr(1 << lanes) == 0
}

// With each lane in turn, the states still fit words of 32 bits.
fn check_states(lanes: &[Lane]) -> Result<(), Fault>
    ensures { result ≡ verdict (states_checks 1 0 lanes.now) }
{
    // A loop with a `?`: a `try_fold` would be no shorter.
    let mut product = 1;
    for (place, lane) in lanes.iter().enumerate() {
        let sizes = Sizes {
            left: product,
            right: lane.size(),
        };
        product = sizes.product();
        Refusal::TooManyStates.unless(product > 0, place)?;
    }
    Ok(())
}

// What is asked of lanes and a table, in this order: no lane, more than six (at the seventh), more states than words of 32 bits can
// number (at the lane with which there are), a table bit from 2^lanes up.
fn check_lanes(lanes: &[Lane], table: u64) -> Result<(), Fault>
    ensures { result ≡ verdict (lanes_checks lanes.now table) }
{
    Refusal::LengthMismatch.unless(!lanes.is_empty(), 0)?;
    Refusal::TooManyAtoms.unless(lanes.len() <= MAX_LANES, MAX_LANES)?;
    check_states(lanes)?;
    Refusal::NumberRange.unless(table_fits(lanes.len(), table), 0)
}

// The lanes in an array; what stands behind them does not count.
fn padded(lanes: &[Lane]) -> [Lane; MAX_LANES]
    requires { length lanes.now ≤ 6 }
    ensures front { take (length lanes.now) result ≡ lanes.now }
    ensures six { length result ≡ 6 }
{
    let mut all = [Lane::Presence(Presence { mask: 0 }); MAX_LANES];
    all[..lanes.len()].copy_from_slice(lanes);
    all
}

impl Compiled {
    ghost use Rattle.compiled.specs.Compiled.{lanes_in};

    // Lanes in their order, kept as they are given, and a table; what does not fit is refused, not mended.
    pub fn new(lanes: &[Lane], table: u64) -> Result<Compiled, Fault>
        ensures { MatchResult result
            (λ q. (verdict (lanes_checks lanes.now table) ≡ Ok tt) × (lanes_in q ≡ lanes.now) × (q.table ≡ table))
            (λ f. verdict (lanes_checks lanes.now table) ≡ Err f) }
    {
        check_lanes(lanes, table)?;
        Ok(Compiled {
            kept: padded(lanes),
            count: lanes.len(),
            table,
        })
    }

    // The lanes, in their order.
    pub fn lanes(&self) -> &[Lane]
        ensures { result.now ≡ lanes_in self.now }
    {
        &self.kept[..self.count]
    }

    // The number of the lane at a place in a state: none for an unknown state or a lane that is not there.
    pub fn lane_state(&self, place: usize, state: u32) -> Option<u32>
        ensures value { result ≡ lane_state_reply (lanes_in self.now) place state }
        ensures undone { (ns : List ℕ) → length ns ≡ length (lanes_in self.now) → ((k : ℕ) → k < length ns → lane_state_reply (lanes_in self.now) k state ≡ Some (slice_index ns k)) → number_reply (lanes_in self.now) ns ≡ Some state }
    {
        joined::lane_state_of(self.lanes(), place, state)
    }

    // The state of one number a lane: none where there are not as many numbers as lanes, and where one is unknown.
    pub fn number(&self, numbers: &[u32]) -> Option<u32>
        ensures value { result ≡ number_reply (lanes_in self.now) numbers.now }
        ensures undone { (state k : ℕ) → result ≡ Some state → k < length numbers.now → lane_state_reply (lanes_in self.now) k state ≡ Some (slice_index numbers.now k) }
    {
        joined::number_of(self.lanes(), numbers)
    }

    pub fn table(&self) -> u64
        ensures { result ≡ self.now.table }
    {
        self.table
    }
}

impl Question for Compiled {
    ghost use Rattle.compiled.specs.Compiled.{lanes_in};

    ghost meaning = { λ q. compiled (lane_protocols (lanes_in q)) q.table };

    ghost lawful = { λ q.
        let ls = lanes_in q in
        answered_lawful (λ bs. bit_at q.table (answers_number bs)) (lanes_of ls) (lanes_of_lawful ls) };

    fn kind(&self) -> char {
        'C'
    }

    fn size(&self) -> u64 {
        joined::size_of(self.lanes())
    }

    fn start(&self, symbol: Symbol) -> u32 {
        joined::start_of(self.lanes(), symbol)
    }

    fn answer(&self, state: u32) -> bool {
        joined::answers_of(self.lanes(), state).is_some_and(|answers| bit_at(self.table, answers))
    }

    fn meet(&self, first: u32, second: u32) -> (u32, u32) {
        joined::meet_of(self.lanes(), first, second)
    }

    fn weight(&self) -> u64 {
        joined::weight_of(self.lanes())
    }

    fn advice(&self, words: &[u32], unit: u64) -> Advice {
        joined::advice_of(self.lanes(), words, unit)
    }
}
