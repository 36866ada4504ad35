// Layers: questions made of questions, written once for any.
ghost use Rattle.std.specs.Prelude.{◌≡◌, ℕ, ◌+◌, ◌*◌, Bool, not, Some};
ghost use Rattle.protocol.specs.Joining.{negated, both, one_if, pair, bit_at};
ghost use Rattle.question.specs.Halves.{halves_reply, number_reply};
ghost use Rattle.protocol.proofs.Joining.{answered_lawful, pair_lawful};

use super::Question;
use super::states::{Sizes, bit_at};
use protocol::Advice;
use reading::Symbol;

// The question below with its answer and its truth reversed.
#[derive(Clone, Copy, Drop)]
pub struct Not<Q>(pub Q);

// Two questions at once. Bit 2 × left + right of the rule is the answer, so that only its low four bits count.
#[derive(Clone, Copy, Drop)]
pub struct Both<L, R> {
    pub left: L,
    pub right: R,
    pub rule: u8,
}

impl<Q: Question> Question for Not<Q> {
    ghost meaning = { λ n. negated (Q.meaning n.0) };

    ghost lawful = { λ q. answered_lawful not (Q.meaning q.0).protocol (Q.lawful q.0) };

    fn kind(&self) -> char {
        'N'
    }

    fn size(&self) -> u64 {
        self.0.size()
    }

    fn start(&self, symbol: Symbol) -> u32 {
        self.0.start(symbol)
    }

    fn answer(&self, state: u32) -> bool {
        u64::from(state) < self.0.size() && !self.0.answer(state)
    }

    fn meet(&self, first: u32, second: u32) -> (u32, u32) {
        self.0.meet(first, second)
    }

    fn weight(&self) -> u64 {
        self.0.weight()
    }

    fn advice(&self, words: &[u32], unit: u64) -> Advice {
        self.0.advice(words, unit)
    }
}

// Which bit of the rule is the answer to these two.
fn index_of(left: bool, right: bool) -> u32
    ensures { result ≡ 2 * one_if left + one_if right }
{
    2 * u32::from(left) + u32::from(right)
}

impl<L: Question, R: Question> Both<L, R> {
    // How many states each of the two has.
    fn sizes(&self) -> Sizes
        ensures left { result.left ≡ (L.meaning self.now.left).protocol.tables.size }
        ensures right { result.right ≡ (R.meaning self.now.right).protocol.tables.size }
    {
        Sizes {
            left: self.left.size(),
            right: self.right.size(),
        }
    }

    // The left and the right number in a number; none for an unknown one.
    pub fn halves(&self, state: u32) -> Option<(u32, u32)>
        ensures value { result ≡ halves_reply (L.meaning self.now.left).protocol.tables.size (R.meaning self.now.right).protocol.tables.size state }
        ensures undone { (left right : ℕ) → result ≡ Some (left, right) → number_reply (L.meaning self.now.left).protocol.tables.size (R.meaning self.now.right).protocol.tables.size left right ≡ Some state }
    {
        self.sizes().halves(state)
    }

    // The number of a left and a right number; none where one of them is unknown, and where the size is 0.
    pub fn number(&self, left: u32, right: u32) -> Option<u32>
        ensures value { result ≡ number_reply (L.meaning self.now.left).protocol.tables.size (R.meaning self.now.right).protocol.tables.size left right }
        ensures undone { (state : ℕ) → result ≡ Some state → halves_reply (L.meaning self.now.left).protocol.tables.size (R.meaning self.now.right).protocol.tables.size state ≡ Some (left, right) }
    {
        self.sizes().number(left, right)
    }
}

impl<L: Question, R: Question> Question for Both<L, R> {
    ghost meaning = { λ b. both b.rule (L.meaning b.left) (R.meaning b.right) };

    ghost lawful = { λ q.
        let l = (L.meaning q.left).protocol in
        let r = (R.meaning q.right).protocol in
        answered_lawful (λ b. bit_at q.rule (2 * one_if b.0 + one_if b.1)) (pair l r)
        (pair_lawful l r (L.lawful q.left) (R.lawful q.right)) };

    fn kind(&self) -> char {
        'B'
    }

    fn size(&self) -> u64 {
        self.sizes().product()
    }

    fn start(&self, symbol: Symbol) -> u32 {
        self.number(self.left.start(symbol), self.right.start(symbol))
            .unwrap_or(0)
    }

    fn answer(&self, state: u32) -> bool {
        let Some((left, right)) = self.halves(state) else {
            return false;
        };
        let answers = index_of(self.left.answer(left), self.right.answer(right));
        bit_at(u64::from(self.rule), answers)
    }

    fn meet(&self, first: u32, second: u32) -> (u32, u32) {
        self.sizes().meet(
            first,
            second,
            |a, b| self.left.meet(a, b),
            |a, b| self.right.meet(a, b),
        )
    }

    // Not a method of `Sizes`: that would have to require that the sum fits, which the laws of the two show here.
    fn weight(&self) -> u64 {
        if self.size() == 0 {
            0
        } else {
            self.left.weight() + self.right.weight()
        }
    }

    fn advice(&self, words: &[u32], unit: u64) -> Advice {
        // Before any size is asked for: in a pile of these that is one question for each below.
        if words.is_empty() {
            return Advice::Lost;
        }
        self.sizes().advice(
            words,
            unit,
            |unit| self.left.advice(words, unit),
            |unit| self.right.advice(words, unit),
        )
    }
}
