// The tag of a load that leads, and whom it meets.
ghost use Rattle.std.specs.Prelude.{◌≡◌, ℕ, ◌<◌, Bool, true, map, length, Some, None, IfSome, IfNone};
ghost use Rattle.std.specs.Option.{option_or};
ghost use Rattle.protocol.specs.Places.{state_at, paired};
ghost use Rattle.protocol.specs.Protocols.{allowed_unit, state_read};
ghost use Rattle.question.specs.Tested.{AnswersAs};
ghost use Rattle.kinds.specs.Leaders.{leading, partner_by};

use super::numbers::leads;
use protocol::Advice;
use question::digit::Digit;

// The lowest tag that leads, where a unit reads the states in the words, and whom it meets by the rules so far.
#[derive(Clone, Copy)]
pub(crate) struct Leader<'a> {
    words: &'a [u32],
    digit: Digit,
    place: usize,
    partner: Option<usize>,
    ghost within: { place < length words.now },
    ghost lowest: { leading (map (state_read digit.unit digit.size) words.now) ≡ Some place },
}

impl<'a> Leader<'a> {
    ghost use Rattle.kinds.specs.LeaderStates.{states_of};

    // None where the unit is not allowed for so many states, and where no tag leads.
    pub(crate) fn find(words: &'a [u32], unit: u64, size: u64) -> Option<Self>
        ensures some { IfSome result (λ l. (allowed_unit unit size ≡ true) × (states_of l ≡ map (state_read unit size) words.now) × (l.partner ≡ None)) }
        ensures none { IfNone result (allowed_unit unit size ≡ true → leading (map (state_read unit size) words.now) ≡ None) }
    {
        let digit = Digit::new(unit, size)?;
        let place = digit.lowest_by(words, |_, state| leads(state))?;
        Some(Leader {
            words,
            digit,
            place,
            partner: None,
        })
    }

    // The state that it is in.
    pub(crate) fn state(&self) -> u32
        ensures { result ≡ state_at (states_of self.now) self.now.place }
    {
        self.digit.of(self.words[self.place])
    }

    // One rule more: where those before found nobody, it meets the lowest other tag whose state fits.
    pub(crate) fn rule<F: Fn(u32) -> bool>(mut self, fits: F) -> Self
        requires { F.IsAlwaysCallable fits }
        ensures same { (result.place ≡ self.entry.place) × (states_of result ≡ states_of self.entry) }
        ensures found { (test : ℕ → Bool) → AnswersAs (λ _. F.post fits) (λ _. test) → result.partner ≡ option_or self.entry.partner (partner_by test (states_of self.entry) self.entry.place) }
    {
        if self.partner.is_none() {
            self.partner = self.digit.lowest_by(
                self.words,
                |place, state| place != self.place && fits(state),
            );
        }
        self
    }

    // It meets whom a rule found; where none did nobody has to meet.
    pub(crate) fn advice(&self) -> Advice
        ensures { result ≡ paired (Some self.now.place) self.now.partner }
    {
        match self.partner {
            Some(partner) => Advice::Meet(self.place, partner),
            None => Advice::Settled,
        }
    }
}
