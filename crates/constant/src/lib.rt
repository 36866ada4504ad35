// A question of one state. It is here to show that the interface is open: whatever keeps its rules is a question, and goes under any layer.
#![tactic(auto)]

ghost use Rattle.std.specs.Prelude.{◌≡◌};
ghost use Rattle.constant.specs.Constant.{constant};
ghost use Rattle.constant.specs.ConstantLemmas.{constant_lawful};

use protocol::Advice;
use question::{Question, states};
use reading::Symbol;

// The question that every load answers with this.
#[derive(Clone, Copy, PartialEq, Eq, Debug)]
pub struct Constant(pub bool);

impl Question for Constant {
    ghost meaning = { λ q. constant q.0 };

    ghost lawful = { λ q. constant_lawful q.0 };

    fn kind(&self) -> char {
        'K'
    }

    fn size(&self) -> u64 {
        1
    }

    fn start(&self, _symbol: Symbol) -> u32 {
        0
    }

    fn answer(&self, state: u32) -> bool {
        state == 0 && self.0
    }

    fn meet(&self, first: u32, second: u32) -> (u32, u32) {
        (first, second)
    }

    fn weight(&self) -> u64 {
        0
    }

    fn advice(&self, words: &[u32], unit: u64) -> Advice {
        if words.is_empty() || !states::allowed(unit, 1) {
            Advice::Lost
        } else {
            Advice::Settled
        }
    }
}

#[cfg(test)]
mod tests;
