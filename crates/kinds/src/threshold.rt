// Threshold: is the sum of the coefficients over the tags below a bound?
ghost use Rattle.std.specs.Prelude.{◌≡◌, ℕ, ◌≤◌, true, ◌||◌, length, Some, Ok, Err, MatchResult, unsigned_abs};
ghost use Rattle.protocol.specs.Threshold.{largest, span_of, number_of, fields_of, met_fields, opposes, threshold};
ghost use Rattle.refusal.specs.Checks.{verdict};
ghost use Rattle.kinds.specs.Ranges.{threshold_fits, numbers_checks};
ghost use Rattle.kinds.specs.Numbers.{threshold_fields, threshold_number};
ghost use Rattle.kinds.specs.RangesLemmas.{threshold_in_range};

use super::leader::Leader;
use super::numbers::{bit_of, coefficients_fit, leads, pack, unpack, value_of};
use protocol::{Advice, Fields};
use question::Question;
use reading::{SYMBOLS, Symbol};
use refusal::{Fault, Refusal};

// How far a bound is from 0 at most.
const MAX_BOUND: u32 = 999;

// The tags of a threshold hold values from -span to span: room for each coefficient, and for a sum on either side of the bound.
#[derive(Clone, Copy)]
pub struct Threshold {
    coefficients: [i32; SYMBOLS],
    bound: i32,
    span: u32,
    ghost eight: { length coefficients ≡ 8 },
    ghost fits: { threshold_fits coefficients bound ≡ true },
    ghost wide: { span ≡ span_of coefficients bound },
    ghost small: { span ≤ 1000 },
}

// Whether v is not 0 and has another sign than u.
fn opposes(u: i32, v: i32) -> bool
    ensures { result ≡ opposes u v }
{
    v != 0 && u.signum() != v.signum()
}

// The largest absolute value.
fn largest_of(coefficients: &[i32]) -> u32
    ensures { result ≡ largest coefficients.now }
{
    coefficients
        .iter()
        .fold(0, |most, k| most.max(k.unsigned_abs()))
}

impl Threshold {
    // A coefficient for each symbol, from -99 to 99, and a bound, from -999 to 999.
    pub fn new(coefficients: [i32; SYMBOLS], bound: i32) -> Result<Threshold, Fault>
        ensures { MatchResult result
            (λ q. (verdict (numbers_checks (threshold_fits coefficients bound)) ≡ Ok tt) × (q.coefficients ≡ coefficients) × (q.bound ≡ bound))
            (λ f. verdict (numbers_checks (threshold_fits coefficients bound)) ≡ Err f) }
    {
        let fit = coefficients_fit(&coefficients) && bound.unsigned_abs() <= MAX_BOUND;
        Refusal::NumberRange.unless(fit, 0)?;
        let span = largest_of(&coefficients).max(bound.unsigned_abs() + 1);
        Ok(Threshold {
            coefficients,
            bound,
            span,
        })
    }

    // The fields in a state number; none for an unknown one.
    pub fn fields(&self, state: u32) -> Option<Fields<i32>>
        ensures value { result ≡ threshold_fields (span_of self.now.coefficients self.now.bound) state }
        ensures undone { (f : _) → result ≡ Some f → threshold_number (span_of self.now.coefficients self.now.bound) f ≡ Some state }
    {
        let Fields { lead, bit, .. } = unpack(state, self.size())?;
        Some(Fields {
            lead,
            bit,
            value: self.value_in(state),
        })
    }

    // The number of fields; none where the value is beyond the span.
    pub fn number(&self, fields: Fields<i32>) -> Option<u32>
        ensures value { result ≡ threshold_number (span_of self.now.coefficients self.now.bound) fields }
        ensures undone { (state : ℕ) → result ≡ Some state → threshold_fields (span_of self.now.coefficients self.now.bound) state ≡ Some fields }
    {
        (fields.value.unsigned_abs() <= self.span).then(|| self.packed(fields))
    }

    // The number of fields whose value is within the span.
    fn packed(&self, fields: Fields<i32>) -> u32
        requires { unsigned_abs fields.value ≤ self.now.span }
        ensures { result ≡ number_of self.now.span fields }
    {
        let Fields { lead, bit, value } = fields;
        pack(Fields {
            lead,
            bit,
            value: (value + self.span as i32) as u32,
        })
    }

    // The value in a state number.
    fn value_in(&self, state: u32) -> i32
        ensures { result ≡ (fields_of self.now.span state).value }
    {
        value_of(state) as i32 - self.span as i32
    }

    // The meeting of two tags of which one leads.
    fn joined(&self, a: Fields<i32>, b: Fields<i32>) -> (u32, u32)
        requires leads { (a.lead || b.lead) ≡ true }
        requires first { unsigned_abs a.value ≤ self.now.span }
        requires second { unsigned_abs b.value ≤ self.now.span }
        ensures { result ≡ (number_of self.now.span (met_fields self.now.span self.now.bound a b).0, number_of self.now.span (met_fields self.now.span self.now.bound a b).1) }
    {
        let span = self.span as i32;
        let sum = a.value + b.value;
        let kept = sum.clamp(-span, span);
        let bit = kept < self.bound;
        let first = Fields {
            lead: true,
            bit,
            value: kept,
        };
        let second = Fields {
            lead: false,
            bit,
            value: sum - kept,
        };
        (self.packed(first), self.packed(second))
    }
}

impl Question for Threshold {
    ghost meaning = { λ q. threshold q.coefficients q.bound };

    ghost lawful = { λ q. threshold_in_range q.coefficients q.bound q.eight q.fits };

    fn kind(&self) -> char {
        'T'
    }

    fn size(&self) -> u64 {
        4 * (2 * u64::from(self.span) + 1)
    }

    fn start(&self, symbol: Symbol) -> u32 {
        let Some(index) = symbol.index() else {
            return 0;
        };
        let value = self.coefficients[index];
        let bit = value < self.bound;
        self.packed(Fields {
            lead: true,
            bit,
            value,
        })
    }

    fn answer(&self, state: u32) -> bool {
        self.fields(state).is_some_and(|fields| fields.bit)
    }

    fn meet(&self, first: u32, second: u32) -> (u32, u32) {
        let (Some(a), Some(b)) = (self.fields(first), self.fields(second)) else {
            return (first, second);
        };
        if a.lead || b.lead {
            self.joined(a, b)
        } else {
            (first, second)
        }
    }

    fn weight(&self) -> u64 {
        2
    }

    fn advice(&self, words: &[u32], unit: u64) -> Advice {
        let Some(leader) = Leader::find(words, unit, self.size()) else {
            return Advice::Lost;
        };
        let value = self.value_in(leader.state());
        let has_room = value.unsigned_abs() < self.span;
        let bit = value < self.bound;
        leader
            .rule(|state| opposes(value, self.value_in(state)))
            .rule(|state| has_room && self.value_in(state) != 0)
            .rule(|state| leads(state) || bit_of(state) != bit)
            .advice()
    }
}
