// What each call asks before it does anything.
ghost use Rattle.std.specs.Prelude.{◌≡◌, ◌<◌, [], ◌∷◌, length};
ghost use Rattle.protocol.specs.Places.{state_at};
ghost use Rattle.refusal.specs.Checks.{verdict};
ghost use Rattle.load.specs.Asked.{word_known, start_verdict, open_verdict, finish_verdict, advise_verdict, read_verdict};

use question::Question;
use reading::Symbol;
use refusal::{Fault, Refusal};

// How many tags a load can have.
const MAX_TAGS: usize = 1024;

pub(crate) fn check_start<Q: Question>(
    question: &Q,
    symbols: &[Symbol],
    words: &[u32],
) -> Result<(), Fault>
    ensures { result ≡ start_verdict (Q.meaning question.now).protocol.tables symbols.now words.now }
{
    let tags = symbols.len();
    Refusal::QuestionTooLarge.unless(question.size() > 0, 0)?;
    Refusal::TagCount.unless((1..=MAX_TAGS).contains(&tags), 0)?;
    Refusal::LengthMismatch.unless(words.len() == tags, 0)?;
    // A loop with a `?`, like the lines above: `try_for_each` and its closure are no shorter.
    for (place, symbol) in symbols.iter().enumerate() {
        Refusal::UnknownSymbol.unless(symbol.index().is_some(), place)?;
    }
    Ok(())
}

// What is lent to a call on a load of so many tags; each method asks of it what that call asks.
#[derive(Drop)]
pub(crate) struct Lent<'a, Q> {
    tags: usize,
    question: &'a Q,
    words: &'a [u32],
}

impl<'a, Q: Question> Lent<'a, Q> {
    pub(crate) fn new(tags: usize, question: &'a Q, words: &'a [u32]) -> Self
        ensures tags { result.tags ≡ tags }
        ensures question { result.question.now ≡ question.now }
        ensures words { result.words.now ≡ words.now }
    {
        Lent {
            tags,
            question,
            words,
        }
    }

    pub(crate) fn check_open(&self, first: usize, second: usize) -> Result<(), Fault>
        ensures { result ≡ open_verdict (Q.meaning self.now.question.now).protocol.tables self.now.tags first second self.now.words.now }
    {
        Refusal::LengthMismatch.unless(self.words.len() == self.tags, 0)?;
        Refusal::NoSuchPlace.unless(first < self.tags, first)?;
        Refusal::NoSuchPlace.unless(second < self.tags, second)?;
        Refusal::SamePlace.unless(first != second, first)?;
        self.check_words(first, second)
    }

    pub(crate) fn check_finish(&self, first: usize, second: usize) -> Result<(), Fault>
        requires first_within { first < self.now.tags }
        requires second_within { second < self.now.tags }
        ensures { result ≡ finish_verdict (Q.meaning self.now.question.now).protocol.tables self.now.tags first second self.now.words.now }
    {
        Refusal::LengthMismatch.unless(self.words.len() == self.tags, 0)?;
        self.check_words(first, second)
    }

    pub(crate) fn check_advise(&self) -> Result<(), Fault>
        ensures { result ≡ advise_verdict (Q.meaning self.now.question.now).protocol.tables self.now.tags self.now.words.now }
    {
        Refusal::LengthMismatch.unless(self.words.len() == self.tags, 0)?;
        let size = self.question.size();
        // A loop, as in `check_start`.
        for (place, word) in self.words.iter().enumerate() {
            word_known(size, place, *word)?;
        }
        Ok(())
    }

    pub(crate) fn check_read(&self, place: usize) -> Result<(), Fault>
        ensures { result ≡ read_verdict (Q.meaning self.now.question.now).protocol.tables self.now.tags place self.now.words.now }
    {
        Refusal::LengthMismatch.unless(self.words.len() == self.tags, 0)?;
        Refusal::NoSuchPlace.unless(place < self.tags, place)?;
        word_known(self.question.size(), place, self.words[place])
    }

    // Are the words at both places the numbers of states?
    fn check_words(&self, first: usize, second: usize) -> Result<(), Fault>
        requires first_within { first < length self.now.words.now }
        requires second_within { second < length self.now.words.now }
        ensures { let size = (Q.meaning self.now.question.now).protocol.tables.size in
            let words = self.now.words.now in
            result ≡ verdict (word_known size first (state_at words first) ∷ word_known size second (state_at words second) ∷ []) }
    {
        let size = self.question.size();
        word_known(size, first, self.words[first])?;
        word_known(size, second, self.words[second])
    }
}

fn word_known(size: u64, place: usize, word: u32) -> Result<(), Fault>
    ensures { result ≡ word_known size place word }
{
    Refusal::UnknownState.unless(u64::from(word) < size, place)
}
