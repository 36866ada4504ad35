// Remainder: does the sum of the coefficients over the tags leave a given remainder?
ghost use Rattle.std.specs.Prelude.{◌≡◌, ℕ, ◌<◌, true, length, Some, Ok, Err, MatchResult};
ghost use Rattle.protocol.specs.Remainder.{reduced, remainder};
ghost use Rattle.protocol.specs.Sums.{coefficient_of};
ghost use Rattle.protocol.specs.declared.Fields.{Fields};
ghost use Rattle.refusal.specs.Checks.{verdict};
ghost use Rattle.kinds.specs.Ranges.{remainder_fits, numbers_checks};
ghost use Rattle.kinds.specs.Numbers.{remainder_fields, remainder_number};
ghost use Rattle.kinds.specs.RangesLemmas.{remainder_in_range};

use super::leader::Leader;
use super::numbers::{bit_of, coefficients_fit, leads, pack, unpack, value_of};
use protocol::{Advice, Fields};
use question::Question;
use reading::{SYMBOLS, Symbol};
use refusal::{Fault, Refusal};

// What a modulus is at most.
const MAX_MODULUS: u32 = 999;

// The coefficients are kept as they were given; a tag starts with what they leave modulo the modulus.
#[derive(Clone, Copy)]
pub struct Remainder {
    coefficients: [i32; SYMBOLS],
    modulus: u32,
    residue: u32,
    ghost eight: { length coefficients ≡ 8 },
    ghost fits: { remainder_fits coefficients modulus residue ≡ true },
}

impl Remainder {
    // A coefficient for each symbol, from -99 to 99, a modulus from 2 to 999, and a residue below it.
    pub fn new(coefficients: [i32; SYMBOLS], modulus: u32, residue: u32) -> Result<Remainder, Fault>
        ensures { MatchResult result
            (λ q. (verdict (numbers_checks (remainder_fits coefficients modulus residue)) ≡ Ok tt) × (q.coefficients ≡ coefficients) × (q.modulus ≡ modulus) × (q.residue ≡ residue))
            (λ f. verdict (numbers_checks (remainder_fits coefficients modulus residue)) ≡ Err f) }
    {
        let fit = coefficients_fit(&coefficients)
            && (2..=MAX_MODULUS).contains(&modulus)
            && residue < modulus;
        Refusal::NumberRange.unless(fit, 0)?;
        Ok(Remainder {
            coefficients,
            modulus,
            residue,
        })
    }

    // The fields in a state number; none for an unknown one.
    pub fn fields(&self, state: u32) -> Option<Fields<u32>>
        ensures value { result ≡ remainder_fields self.now.modulus state }
        ensures undone { (f : Fields ℕ) → result ≡ Some f → remainder_number self.now.modulus f ≡ Some state }
    {
        unpack(state, self.size())
    }

    // The number of fields; none where the value is not below the modulus.
    pub fn number(&self, fields: Fields<u32>) -> Option<u32>
        ensures value { result ≡ remainder_number self.now.modulus fields }
        ensures undone { (state : ℕ) → result ≡ Some state → remainder_fields self.now.modulus state ≡ Some fields }
    {
        (fields.value < self.modulus).then(|| pack(fields))
    }

    // The value with which a symbol starts.
    fn reduced_at(&self, index: usize) -> u32
        requires { index < 8 }
        ensures value { result ≡ reduced self.now.modulus (coefficient_of self.now.coefficients index) }
        ensures below { result < self.now.modulus }
    {
        self.coefficients[index].rem_euclid(self.modulus as i32) as u32
    }
}

impl Question for Remainder {
    ghost meaning = { λ q. remainder q.coefficients q.modulus q.residue };

    ghost lawful = { λ q. remainder_in_range q.coefficients q.modulus q.residue q.eight q.fits };

    fn kind(&self) -> char {
        'R'
    }

    fn size(&self) -> u64 {
        4 * u64::from(self.modulus)
    }

    fn start(&self, symbol: Symbol) -> u32 {
        let Some(index) = symbol.index() else {
            return 0;
        };
        let value = self.reduced_at(index);
        pack(Fields {
            lead: true,
            bit: value == self.residue,
            value,
        })
    }

    fn answer(&self, state: u32) -> bool {
        self.fields(state).is_some_and(|fields| fields.bit)
    }

    // Its guards are those of a threshold; a function over what follows them would be no shorter.
    fn meet(&self, first: u32, second: u32) -> (u32, u32) {
        let (Some(a), Some(b)) = (self.fields(first), self.fields(second)) else {
            return (first, second);
        };
        if !a.lead && !b.lead {
            return (first, second);
        }
        let value = (a.value + b.value) % self.modulus;
        let bit = value == self.residue;
        let first = Fields {
            lead: true,
            bit,
            value,
        };
        let second = Fields {
            lead: false,
            bit,
            value: 0,
        };
        (pack(first), pack(second))
    }

    fn weight(&self) -> u64 {
        2
    }

    fn advice(&self, words: &[u32], unit: u64) -> Advice {
        let Some(leader) = Leader::find(words, unit, self.size()) else {
            return Advice::Lost;
        };
        let bit = value_of(leader.state()) == self.residue;
        leader
            .rule(leads)
            .rule(|state| bit_of(state) != bit)
            .advice()
    }
}
