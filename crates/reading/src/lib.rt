// Readings: what the probe of each tag was classed as, and how many tags of a load have each symbol.
// A tag is the device on a crate, and a load is a number of tags; the reading of a tag is one of the symbols a to h.
#![tactic(auto)]

ghost use Rattle.std.specs.Prelude.{◌≡◌, ◌+◌, ◌^◌, ◌<◌, Some, slice_index};
ghost use Rattle.reading.specs.Counting.{index_of, counts_of, counted};
ghost use Rattle.reading.specs.Letters.{symbol_text, counts_text};

use std::fmt;

// How many symbols a reading can be: a to h.
pub const SYMBOLS: usize = 8;

// A symbol by its number: 0 to 7 are the readings a to h, and a larger one is no reading. An enum would have no place for those, which a load
// refuses.
#[derive(Clone, Copy, PartialEq, Eq, Debug)]
pub struct Symbol(pub u8);

// How many tags have each symbol, from a to h.
#[derive(Clone, Copy, PartialEq, Eq, Debug)]
pub struct Counts(pub [usize; SYMBOLS]);

impl Symbol {
    // Its place among the readings a to h; none where it is no reading.
    pub fn index(self) -> Option<usize>
        ensures { result ≡ index_of self }
    {
        let index = usize::from(self.0);
        (index < SYMBOLS).then_some(index)
    }
}

impl Counts {
    pub fn of(symbols: &[Symbol]) -> Counts
        ensures { result.0 ≡ counts_of symbols.now }
    {
        // A loop, since `add` changes the counts where they are.
        let mut counts = Counts([0; SYMBOLS]);
        for symbol in symbols {
            counts.add(*symbol);
        }
        counts
    }

    // Counts one symbol; one that is no reading is not counted.
    fn add(&mut self, symbol: Symbol)
        requires { slice_index self.old.0 symbol.0 + 1 < 2 ^ 64 }
        ensures { self.new.0 ≡ counted self.old.0 symbol }
    {
        if let Some(index) = symbol.index() {
            self.0[index] += 1;
        }
    }
}

// A reading as its letter, any other symbol as its number.
impl fmt::Display for Symbol {
    ghost output = { λ s. Some (symbol_text s) };

    fn fmt<W: fmt::Write>(&self, f: &mut fmt::Formatter<W>) -> fmt::Result {
        let number = self.0;
        if self.index().is_some() {
            let letter = char::from(b'a' + number);
            write!(f, "{letter}")
        } else {
            write!(f, "{number}")
        }
    }
}

// Each letter with its count, as `a 2 b 0 c 1 ..`.
impl fmt::Display for Counts {
    ghost output = { λ n. Some (counts_text n.0) };

    fn fmt<W: fmt::Write>(&self, f: &mut fmt::Formatter<W>) -> fmt::Result {
        let n = self.0;
        // Two formats, and no loop: the bytes of a `write!` in a loop are not known to a proof.
        write!(f, "a {} b {} c {} d {}", n[0], n[1], n[2], n[3])?;
        write!(f, " e {} f {} g {} h {}", n[4], n[5], n[6], n[7])
    }
}

#[cfg(test)]
mod tests;
