// A lane: one plain question of a compiled one, of any kind.
ghost use Rattle.std.specs.Prelude.{◌≡◌};
ghost use Rattle.compiled.specs.Lanes.{lane_meaning};
ghost use Rattle.compiled.specs.LanesLemmas.{lane_lawful};

use kinds::{Presence, Remainder, Threshold};
use protocol::Advice;
use question::Question;
use reading::Symbol;

// A new kind is one case more here and in `asked`.
#[derive(Clone, Copy)]
pub enum Lane {
    Threshold(Threshold),
    Remainder(Remainder),
    Presence(Presence),
}

// The reply of the lane's question. A macro, since no closure is generic over the kinds and no function may hand out a `&dyn Question`.
macro_rules! asked {
    ($lane:expr, $question:ident => $reply:expr) => {
        match $lane {
            Lane::Threshold($question) => $reply,
            Lane::Remainder($question) => $reply,
            Lane::Presence($question) => $reply,
        }
    };
}

impl Question for Lane {
    ghost meaning = { lane_meaning };

    ghost lawful = { lane_lawful };

    fn kind(&self) -> char {
        asked!(self, q => q.kind())
    }

    fn size(&self) -> u64 {
        asked!(self, q => q.size())
    }

    fn start(&self, symbol: Symbol) -> u32 {
        asked!(self, q => q.start(symbol))
    }

    fn answer(&self, state: u32) -> bool {
        asked!(self, q => q.answer(state))
    }

    fn meet(&self, first: u32, second: u32) -> (u32, u32) {
        asked!(self, q => q.meet(first, second))
    }

    fn weight(&self) -> u64 {
        asked!(self, q => q.weight())
    }

    fn advice(&self, words: &[u32], unit: u64) -> Advice {
        asked!(self, q => q.advice(words, unit))
    }
}
