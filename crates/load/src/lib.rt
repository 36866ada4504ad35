// Loads: tags that started from readings, and the calls by which they meet, two at a time.
// The words of the tags and the question are lent to each call. A refused call leaves everything as it was.
#![tactic(auto)]

ghost use Rattle.std.specs.Prelude.{◌≡◌, ℕ, ◌<◌, Bool, false, List, length, IfOk, IfErr};
ghost use Rattle.protocol.specs.Places.{state_at, meeting};
ghost use Rattle.protocol.specs.Protocols.{Protocol, answer_reply, meet_reply, advice_reply};
ghost use Rattle.refusal.specs.Checks.{leaves};
ghost use Rattle.load.specs.Asked.{start_verdict, open_verdict, finish_verdict, advise_verdict, read_verdict, start_words, granted, granted_or_back};
ghost use Rattle.load.specs.Calls.{Call, Start, Open, Finish, BreakOff, Advise, Read, done, advised, answered, reply_of, phase_of, look_reply};
ghost use Rattle.load.specs.Phases.{ready, opened, of_ready, of_meeting, outcome, started_as};

use protocol::Advice;
use question::Question;
use reading::Symbol;
use refusal::Fault;

mod asked;
mod phases;

use asked::Lent;
pub use phases::{Meeting, Ready, Refused};

impl Ready {
    // Starts a load: each tag's word becomes the state in which its symbol starts. Asks 8, 9, 10, 11.
    pub fn start<Q: Question>(
        question: &Q,
        symbols: &[Symbol],
        words: &mut [u32],
    ) -> Result<Ready, Fault>
        ensures result { let tables = (Q.meaning question.now).protocol.tables in
            started_as result ≡ granted (start_verdict tables symbols.now words.old) (ready (length symbols.now)) }
        ensures written { let tables = (Q.meaning question.now).protocol.tables in
            words.new ≡ leaves (start_verdict tables symbols.now words.old) (start_words tables symbols.now) words.old }
        ensures call { IfOk result (λ load. Start (Q.meaning question.now).protocol symbols.now (of_ready load) words.new) }
    {
        asked::check_start(question, symbols, words)?;
        write_starts(question, symbols, words);
        Ok(Ready {
            tags: symbols.len(),
        })
    }

    // How many tags the load has.
    pub fn tags(&self) -> usize
        ensures { result ≡ self.now.tags }
    {
        self.tags
    }

    // Opens a meeting of the tags at two different places. Asks 10, 12, 13, 14.
    // Two numbers, as a user names them: a struct of two places would be made and taken apart at each call.
    pub fn open<Q: Question>(
        self,
        question: &Q,
        words: &[u32],
        first: usize,
        second: usize,
    ) -> Result<Meeting, Refused<Ready>>
        ensures result { let tables = (Q.meaning question.now).protocol.tables in
            outcome of_meeting of_ready result
            ≡ granted_or_back (open_verdict tables self.tags first second words.now) (opened self.tags first second) (of_ready self) }
        ensures unspent { IfOk result (λ meeting. meeting.spent ≡ false) }
        ensures call { let came_to = outcome of_meeting of_ready result in
            Call (Q.meaning question.now).protocol (Open first second) (of_ready self) words.now (reply_of came_to) (phase_of came_to) words.now }
    {
        let lent = Lent::new(self.tags, question, words);
        // Not by `map_err`, whose closure would take `self`.
        if let Err(fault) = lent.check_open(first, second) {
            return Err(Refused { fault, kept: self });
        }
        Ok(Meeting {
            tags: self.tags,
            first,
            second,
            spent: false,
        })
    }

    // Which two tags should meet next. Asks 10, and 14 of all words.
    pub fn advise<Q: Question>(&self, question: &Q, words: &[u32]) -> Result<Advice, Fault>
        ensures result { let p = (Q.meaning question.now).protocol in
            result ≡ granted (advise_verdict p.tables self.now.tags words.now) (advice_reply p words.now 1) }
        ensures call { Call (Q.meaning question.now).protocol Advise (of_ready self.now) words.now (look_reply advised result) (of_ready self.now) words.now }
    {
        Lent::new(self.tags, question, words).check_advise()?;
        Ok(question.advice(words, 1))
    }

    // What the tag at this place answers. Asks 10, 12, 14.
    pub fn read<Q: Question>(
        &self,
        question: &Q,
        words: &[u32],
        place: usize,
    ) -> Result<bool, Fault>
        ensures result { let tables = (Q.meaning question.now).protocol.tables in
            result ≡ granted (read_verdict tables self.now.tags place words.now) (answer_reply tables (state_at words.now place)) }
        ensures call { Call (Q.meaning question.now).protocol (Read place) (of_ready self.now) words.now (look_reply answered result) (of_ready self.now) words.now }
    {
        Lent::new(self.tags, question, words).check_read(place)?;
        Ok(question.answer(words[place]))
    }
}

impl Meeting {
    // Writes the states that the two tags leave their meeting with; the load is ready again. Asks 10, 14.
    pub fn finish<Q: Question>(
        self,
        question: &Q,
        words: &mut [u32],
    ) -> Result<Ready, Refused<Meeting>>
        ensures result { let tables = (Q.meaning question.now).protocol.tables in
            outcome of_ready of_meeting result
            ≡ granted_or_back (finish_verdict tables self.tags self.first self.second words.old) (ready self.tags) (of_meeting self) }
        ensures written { let tables = (Q.meaning question.now).protocol.tables in
            words.new
            ≡ leaves (finish_verdict tables self.tags self.first self.second words.old) (meeting (meet_reply tables) words.old self.first self.second) words.old }
        ensures unspent { IfErr result (λ refused. refused.kept.spent ≡ self.spent) }
        ensures call { let came_to = outcome of_ready of_meeting result in
            Call (Q.meaning question.now).protocol Finish (of_meeting self) words.old (reply_of came_to) (phase_of came_to) words.new }
    {
        let lent = Lent::new(self.tags, question, words);
        // Not by `map_err`, as in `open`.
        if let Err(fault) = lent.check_finish(self.first, self.second) {
            return Err(Refused { fault, kept: self });
        }
        write_met(question, words, self.first, self.second);
        Ok(self.spend())
    }

    // Gives the meeting up; the load is ready again. Never refused. No word is lent, so none is written.
    pub fn break_off(self) -> Ready
        ensures result { of_ready result ≡ ready self.tags }
        ensures call { (p : Protocol Bool) (words : List ℕ) → Call p BreakOff (of_meeting self) words done (of_ready result) words }
    {
        self.spend()
    }
}

// Writes the words with which a load starts.
fn write_starts<Q: Question>(question: &Q, symbols: &[Symbol], words: &mut [u32])
    requires { length words.old ≡ length symbols.now }
    ensures { words.new ≡ start_words (Q.meaning question.now).protocol.tables symbols.now }
{
    // By place: after a `zip` with `iter_mut` the check would know none of the words.
    for (place, word) in words.iter_mut().enumerate() {
        *word = question.start(symbols[place]);
    }
}

// Writes the states that the tags at the two places leave their meeting with.
fn write_met<Q: Question>(question: &Q, words: &mut [u32], first: usize, second: usize)
    requires first_within { first < length words.old }
    requires second_within { second < length words.old }
    ensures { words.new ≡ meeting (meet_reply (Q.meaning question.now).protocol.tables) words.old first second }
{
    let (a, b) = question.meet(words[first], words[second]);
    words[first] = a;
    words[second] = b;
}
