// A line of input: its words, parted into those that write a probe byte and the others.
ghost use Rattle.std.specs.Prelude.{map, IfOk};
ghost use Rattle.reader.specs.Lines.{Parsed};

use std::alloc::{AllocError, Global};

// The probe bytes of a line and its other words, both in their order.
#[derive(Drop)]
pub(crate) struct Line<'a> {
    pub(crate) bytes: Vec<u8>,
    pub(crate) others: Vec<&'a str>,
}

impl<'a> Line<'a> {
    pub(crate) fn parse(heap: Global, text: &'a str) -> Result<Self, AllocError>
        ensures { IfOk result (λ l. Parsed text.now l.bytes.items (map (λ x. x.now) l.others.items)) }
    {
        let mut bytes = Vec::new(heap);
        let mut others = Vec::new(heap);
        // A loop: a closure under `partition` could not pass on that a `push` failed.
        for word in text.split_whitespace() {
            match word.parse::<u8>() {
                Ok(byte) => bytes.push(byte)?,
                Err(_) => others.push(word)?,
            }
        }
        Ok(Line { bytes, others })
    }
}
