// Probe bytes: what a probe measured, and the symbol that it is classed as.
#![tactic(auto)]

ghost use Rattle.std.specs.Prelude.{◌≡◌, IsTrue, map};
ghost use Rattle.probe.specs.Classes.{class_of, symbol_of, keeps_rule};
ghost use Rattle.probe.specs.Classing.{checks};
ghost use Rattle.refusal.specs.Checks.{verdict, leaves};

use reading::Symbol;
use refusal::{Fault, Refusal};

mod classes;

// The symbol that a probe byte is classed as.
pub fn class(byte: u8) -> Symbol
    ensures { result ≡ symbol_of byte }
{
    Symbol(entry(&classes::TABLE, byte))
}

// What a table that keeps the rule has for a byte.
fn entry(table: &[u8; 256], byte: u8) -> u8
    requires { IsTrue (keeps_rule table.now) }
    ensures { result ≡ class_of byte }
{
    table[usize::from(byte)]
}

// Writes the symbol of each probe byte at its place, or refuses where there are not as many places as bytes.
pub fn classify(bytes: &[u8], symbols: &mut [Symbol]) -> Result<(), Fault>
    ensures result { result ≡ verdict (checks bytes.now symbols.old) }
    ensures written { symbols.new ≡ leaves (verdict (checks bytes.now symbols.old)) (map symbol_of bytes.now) symbols.old }
{
    Refusal::LengthMismatch.unless(bytes.len() == symbols.len(), 0)?;
    // By place: of what a `zip` with `iter_mut` has written, a proof knows the length alone.
    for (place, byte) in bytes.iter().enumerate() {
        symbols[place] = class(*byte);
    }
    Ok(())
}

#[cfg(test)]
mod tests;
