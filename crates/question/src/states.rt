// Arithmetic on state numbers: how many fit into words, and two in one number.
ghost use Rattle.std.specs.Prelude.{◌≡◌, ℕ, ◌+◌, ◌*◌, ◌^◌, ◌<◌, ◌==◌, if◌then◌else◌, Some};
ghost use Rattle.protocol.specs.Protocols.{allowed_unit};
ghost use Rattle.protocol.specs.Joining.{bounded, bit_at};
ghost use Rattle.protocol.specs.declared.Advice.{Advice};
ghost use Rattle.question.specs.Halves.{halves_reply, number_reply, MeetsAs, meet_of_halves, AdvisesAs, advice_of_halves};

use protocol::Advice;

// How many states words of 32 bits can number.
pub const MAX_STATES: u64 = 1 << 32;

// The sizes of two questions in one number.
#[derive(Clone, Copy, PartialEq, Eq, Debug)]
pub struct Sizes {
    pub left: u64,
    pub right: u64,
}

impl Sizes {
    // How many states two questions have together, or 0, as the size of a question is, where words of 32 bits cannot number them.
    pub fn product(self) -> u64
        ensures { result ≡ bounded (self.left * self.right) }
    {
        if allowed(self.left, self.right) {
            self.left * self.right
        } else {
            0
        }
    }

    // The left and the right number in a number; none for an unknown one. What it and `number` undo stands with both, as with each such pair: a
    // trait of two functions and two laws would take the names that say what each pair is.
    pub fn halves(self, state: u32) -> Option<(u32, u32)>
        ensures value { result ≡ halves_reply self.left self.right state }
        ensures undone { (left right : ℕ) → result ≡ Some (left, right) → number_reply self.left self.right left right ≡ Some state }
    {
        let state = u64::from(state);
        (state < self.product()).then(|| ((state / self.right) as u32, (state % self.right) as u32))
    }

    // The number of a left and a right number; none where one of them is unknown, and where there are too many.
    pub fn number(self, left: u32, right: u32) -> Option<u32>
        ensures value { result ≡ number_reply self.left self.right left right }
        ensures undone { (state : ℕ) → result ≡ Some state → halves_reply self.left self.right state ≡ Some (left, right) }
    {
        let left = u64::from(left);
        let right = u64::from(right);
        let known = self.product() > 0 && left < self.left && right < self.right;
        known.then(|| (left * self.right + right) as u32)
    }

    // The states that a first and a second tag leave their meeting with: the left halves meet, and the right halves. It speaks of closures that
    // have one answer to each asking, as the functions of a question have.
    pub fn meet<L: FnOnce(u32, u32) -> (u32, u32), R: FnOnce(u32, u32) -> (u32, u32)>(
        self,
        first: u32,
        second: u32,
        left: L,
        right: R,
    ) -> (u32, u32)
        requires can_left { L.IsAlwaysCallable left }
        requires can_right { R.IsAlwaysCallable right }
        ensures { (l r : ℕ → ℕ → ℕ × ℕ) → MeetsAs (L.post left) l → MeetsAs (R.post right) r
            → result ≡ meet_of_halves self.left self.right l r first second }
    {
        let (Some(a), Some(b)) = (self.halves(first), self.halves(second)) else {
            return (first, second);
        };
        let lefts = left(a.0, b.0);
        let rights = right(a.1, b.1);
        (
            self.number(lefts.0, rights.0).unwrap_or(first),
            self.number(lefts.1, rights.1).unwrap_or(second),
        )
    }

    // Who should meet next: the left is asked with the unit that reads its halves, and where it is settled the right. The closures know the words.
    pub fn advice<L: FnOnce(u64) -> Advice, R: FnOnce(u64) -> Advice>(
        self,
        words: &[u32],
        unit: u64,
        left: L,
        right: R,
    ) -> Advice
        requires can_left { L.IsAlwaysCallable left }
        requires can_right { R.IsAlwaysCallable right }
        ensures { (l r : ℕ → Advice) → AdvisesAs (L.post left) l → AdvisesAs (R.post right) r
            → result ≡ advice_of_halves self.left self.right l r words.now unit }
    {
        if words.is_empty() || !allowed(unit, self.product()) {
            return Advice::Lost;
        }
        match left(unit * self.right) {
            Advice::Settled => right(unit),
            other => other,
        }
    }
}

// Whether the unit can read so many states in words of 32 bits. The product is not computed: it could pass 64 bits.
pub fn allowed(unit: u64, size: u64) -> bool
    ensures { result ≡ allowed_unit unit size }
{
    unit > 0 && size > 0 && unit <= MAX_STATES / size
}

// Bit k of a number.
pub fn bit_at(number: u64, k: u32) -> bool
    ensures { result ≡ bit_at number k }
{
    number.unbounded_shr(k) % 2 == 1
}
