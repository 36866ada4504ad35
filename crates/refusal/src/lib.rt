// Refusals: what a call answers where it does not grant what it was asked.
#![tactic(auto)]

ghost use Rattle.std.specs.Prelude.{◌≡◌, Some};
ghost use Rattle.refusal.specs.Checks.{fault_at, check, FirstNoDecides};
ghost use Rattle.refusal.specs.Numbers.{number_of, layer_of};
ghost use Rattle.refusal.specs.Texts.{name_of, sentence_of, fault_text};

use std::error::Error;
use std::fmt;

// The layer that a refusal belongs to.
#[derive(Clone, Copy, PartialEq, Eq, Debug)]
pub enum Layer {
    Words,
    Grammar,
    Limits,
    Load,
}

// What a call refuses, under the number that users see.
#[derive(Clone, Copy, PartialEq, Eq, Debug)]
pub enum Refusal {
    TextLength = 1,
    UnknownToken = 2,
    Syntax = 3,
    RepeatedLetter = 4,
    NumberRange = 5,
    TooManyAtoms = 6,
    TooManyStates = 7,
    QuestionTooLarge = 8,
    TagCount = 9,
    LengthMismatch = 10,
    UnknownSymbol = 11,
    NoSuchPlace = 12,
    SamePlace = 13,
    UnknownState = 14,
}

// A refusal and the place that it is about: a byte of a text or its end, a tag of a load, a lane of a question, or 0.
#[derive(Clone, Copy, PartialEq, Eq, Debug)]
pub struct Fault {
    pub refusal: Refusal,
    pub place: usize,
}

impl Refusal {
    pub fn layer(self) -> Layer
        ensures { result ≡ layer_of self }
    {
        match self {
            Refusal::TextLength | Refusal::UnknownToken => Layer::Words,
            Refusal::Syntax => Layer::Grammar,
            Refusal::RepeatedLetter
            | Refusal::NumberRange
            | Refusal::TooManyAtoms
            | Refusal::TooManyStates => Layer::Limits,
            Refusal::QuestionTooLarge
            | Refusal::TagCount
            | Refusal::LengthMismatch
            | Refusal::UnknownSymbol
            | Refusal::NoSuchPlace
            | Refusal::SamePlace
            | Refusal::UnknownState => Layer::Load,
        }
    }

    pub fn at(self, place: usize) -> Fault
        ensures { result ≡ fault_at self place }
    {
        Fault {
            refusal: self,
            place,
        }
    }

    // One check of a call: passed where `holds`, else this refusal at `place`.
    pub fn unless(self, holds: bool, place: usize) -> Result<(), Fault>
        ensures { result ≡ check self holds place }
    {
        // Two arms: `ok_or` would first have to make an Option of the bool.
        if holds { Ok(()) } else { Err(self.at(place)) }
    }

    // What is wrong, in words for whoever made the call. A derive of `thiserror` would print it too, and promise nothing of what it prints.
    fn sentence(self) -> &'static str
        ensures { result.now ≡ sentence_of self }
    {
        match self {
            Refusal::TextLength => "a question text has 1 to 200 bytes",
            Refusal::UnknownToken => "this word or mark is not part of the question language",
            Refusal::Syntax => "here the text stops being a question, or ends too early",
            Refusal::RepeatedLetter =>
                "this letter stands a second time in the same sum or list of letters",
            Refusal::NumberRange =>
                "a number is out of range: coefficient to 99, bound to 999, modulus 2 to 999, residue below it, table to 2^lanes bits",
            Refusal::TooManyAtoms => "a question joins at most 6 atoms, and this is the seventh",
            Refusal::TooManyStates => "with this atom the question has more than 4294967296 states",
            Refusal::QuestionTooLarge =>
                "the question has more than 4294967296 states, too many to run a load",
            Refusal::TagCount => "a load has 1 to 1024 tags",
            Refusal::LengthMismatch => "this call was given a list of the wrong length",
            Refusal::UnknownSymbol => "the reading at this place is none of a to h",
            Refusal::NoSuchPlace => "the load has no tag at this place",
            Refusal::SamePlace => "a tag cannot meet itself",
            Refusal::UnknownState => "the word of this tag is no state of the question",
        }
    }
}

// The law behind every call's list of checks, as a theorem: the verdict is the first no among them, and yes where there is none.
pub fn first_no_decides()
    ensures { FirstNoDecides }
{}

// The number by which users know a refusal.
impl From<Refusal> for u8 {
    ghost from_gives = { λ refusal number. number ≡ number_of refusal };

    fn from(refusal: Refusal) -> u8 {
        refusal as u8
    }
}

impl Layer {
    fn name(self) -> &'static str
        ensures { result.now ≡ name_of self }
    {
        match self {
            Layer::Words => "words",
            Layer::Grammar => "grammar",
            Layer::Limits => "limits",
            Layer::Load => "load",
        }
    }
}

impl fmt::Display for Layer {
    ghost output = { λ x. Some (name_of x) };

    fn fmt<W: fmt::Write>(&self, f: &mut fmt::Formatter<W>) -> fmt::Result {
        f.write_str(self.name())
    }
}

impl fmt::Display for Refusal {
    ghost output = { λ x. Some (sentence_of x) };

    fn fmt<W: fmt::Write>(&self, f: &mut fmt::Formatter<W>) -> fmt::Result {
        f.write_str(self.sentence())
    }
}

// As `refused 10 at 0 load: ..`, with the sentence.
impl fmt::Display for Fault {
    ghost output = { λ x. Some (fault_text x) };

    fn fmt<W: fmt::Write>(&self, f: &mut fmt::Formatter<W>) -> fmt::Result {
        let Fault { refusal, place } = *self;
        let number = u8::from(refusal);
        let layer = refusal.layer();
        write!(f, "refused {number} at {place} {layer}: {refusal}")
    }
}

impl Error for Fault {}

#[cfg(test)]
mod tests;
