// States in words: a unit and a size say which digit of a word is the state.
ghost use Rattle.std.specs.Prelude.{◌≡◌, ℕ, ◌*◌, ◌^◌, ◌<◌, ◌≤◌, Bool, length, is_some, IfSome};
ghost use Rattle.protocol.specs.Protocols.{allowed_unit, state_read};
ghost use Rattle.question.specs.Tested.{AnswersAs, lowest_read};

use super::states::allowed;

// The digit of a word that is a tag's state: floor(word / unit) mod size.
#[derive(Clone, Copy)]
pub struct Digit {
    unit: u64,
    size: u64,
    ghost fits: { (0 < unit) × (0 < size) × (unit * size ≤ 2 ^ 32) },
}

// A test of a tag by its place and its state.
pub trait Test {
    ghost passes: { Self → ℕ → ℕ → Bool };

    fn passes_at(&self, place: usize, state: u32) -> bool
        ensures { result ≡ passes self.now place state };
}

impl Digit {
    // None where the unit is not allowed for so many states.
    pub fn new(unit: u64, size: u64) -> Option<Digit>
        ensures test { is_some result ≡ allowed_unit unit size }
        ensures some { IfSome result (λ d. (d.unit ≡ unit) × (d.size ≡ size)) }
    {
        // Under `then` a closure would have to require once more that the unit is allowed.
        if allowed(unit, size) {
            Some(Digit { unit, size })
        } else {
            None
        }
    }

    pub fn of(&self, word: u32) -> u32
        ensures { result ≡ state_read self.now.unit self.now.size word }
    {
        (u64::from(word) / self.unit % self.size) as u32
    }

    // The lowest place whose tag passes.
    pub fn lowest<T: Test>(&self, words: &[u32], test: &T) -> Option<usize>
        ensures { result ≡ lowest_read (T.passes test.now) self.now.unit self.now.size words.now }
    {
        self.lowest_by(words, |place, state| test.passes_at(place, state))
    }

    // The same by a closure over the place and the state, which has to be one that may be called on any: no ghost field can say that of a
    // closure, and so no type of tests can.
    pub fn lowest_by<F: Fn(usize, u32) -> bool>(&self, words: &[u32], passes: F) -> Option<usize>
        requires { F.IsAlwaysCallable passes }
        ensures lowest { (test : ℕ → ℕ → Bool) → AnswersAs (F.post passes) test → result ≡ lowest_read test self.now.unit self.now.size words.now }
        ensures within { IfSome result (λ place. place < length words.now) }
    {
        // A loop: the chain by `position` takes twice as long where tests are tried unoptimized.
        for (place, &word) in words.iter().enumerate() {
            if passes(place, self.of(word)) {
                return Some(place);
            }
        }
        None
    }
}
