// Questions behind one interface: what a question replies to each asking, and what it owes.
#![tactic(auto)]

ghost use Rattle.std.specs.Prelude.{◌≡◌, ℕ, Bool};
ghost use Rattle.protocol.specs.Protocols.{Meaning, start_reply, answer_reply, meet_reply, advice_reply};
ghost use Rattle.protocol.specs.Laws.{Lawful, LawfulOnWords};

use protocol::Advice;
use reading::Symbol;

pub mod digit;
pub mod layers;
pub mod states;

// A question about a load. Its meaning is one fixed value, and each reply is an equation with it, on all input.
pub trait Question {
    ghost meaning: { Self → Meaning };

    // The letter of its kind. A letter and no enum: whoever implements the trait may add a kind.
    fn kind(&self) -> char
        ensures { result ≡ (meaning self.now).kind };

    // How many states it has, or 0 where they would be more than words of 32 bits can number. A number below the size is known, so that with 0,
    // a number and no None, none is.
    fn size(&self) -> u64
        ensures { result ≡ (meaning self.now).protocol.tables.size };

    // The state in which a tag with this symbol starts: 0 for a symbol above 7, and where the size is 0.
    fn start(&self, symbol: Symbol) -> u32
        ensures { result ≡ start_reply (meaning self.now).protocol.tables symbol.0 };

    // What a tag in this state answers: no for an unknown number.
    fn answer(&self, state: u32) -> bool
        ensures { result ≡ answer_reply (meaning self.now).protocol.tables state };

    // The states that a first and a second tag leave their meeting with: unaltered where one is unknown.
    fn meet(&self, first: u32, second: u32) -> (u32, u32)
        ensures { result ≡ meet_reply (meaning self.now).protocol.tables first second };

    // How many advised meetings a load needs at most, for each tag but one.
    fn weight(&self) -> u64
        ensures { result ≡ (meaning self.now).protocol.weight };

    // Who should meet next, where the unit reads each tag's state in its word. A load asks with unit 1.
    // Words and a unit apart, since a layer asks with the same words and another unit.
    // Lost without words, with size 0 or unit 0, and where unit × size is above 2^32; a kind may be Lost on states that no load comes to.
    fn advice(&self, words: &[u32], unit: u64) -> Advice
        ensures { result ≡ advice_reply (meaning self.now).protocol words.now unit };

    // What every question owes: from all that meetings can leave, its advice settles the load, and a settled load answers the truth.
    ghost lawful: { (q : Self) → Lawful (meaning q).protocol };
}

// The laws over words, as a theorem: wherever an allowed unit reads states that a load can come to, the advice names two different places of
// the load or is Settled, following it settles the load, a settled load answers the truth, and no meeting unsettles it.
pub fn laws_hold_of_words<Q: Question>(question: &Q)
    ensures { LawfulOnWords (Q.meaning question.now).protocol }
{}
