// Presence: does any tag have one of some symbols?
ghost use Rattle.protocol.specs.Presence.{presence};
ghost use Rattle.protocol.proofs.Presence.{presence_lawful};

use protocol::Advice;
use question::Question;
use question::digit::Digit;
use question::states::bit_at;
use reading::Symbol;

// The symbols that are looked for: bit i of the mask for symbol i.
#[derive(Clone, Copy, PartialEq, Eq, Debug)]
pub struct Presence {
    pub mask: u8,
}

impl Question for Presence {
    ghost meaning = { λ q. presence q.mask };

    ghost lawful = { λ q. presence_lawful q.mask };

    fn kind(&self) -> char {
        'P'
    }

    fn size(&self) -> u64 {
        2
    }

    fn start(&self, symbol: Symbol) -> u32 {
        let sought = symbol
            .index()
            .is_some_and(|index| bit_at(u64::from(self.mask), index as u32));
        u32::from(sought)
    }

    fn answer(&self, state: u32) -> bool {
        state == 1
    }

    fn meet(&self, first: u32, second: u32) -> (u32, u32) {
        if first > 1 || second > 1 {
            return (first, second);
        }
        let larger = first.max(second);
        (larger, larger)
    }

    fn weight(&self) -> u64 {
        1
    }

    fn advice(&self, words: &[u32], unit: u64) -> Advice {
        let Some(digit) = Digit::new(unit, 2) else {
            return Advice::Lost;
        };
        if words.is_empty() {
            return Advice::Lost;
        }
        let Some(first) = digit.lowest_by(words, |_, state| state == 1) else {
            return Advice::Settled;
        };
        match digit.lowest_by(words, |_, state| state == 0) {
            Some(second) => Advice::Meet(first, second),
            None => Advice::Settled,
        }
    }
}
