// Settling: following the advice to its end, for whoever wants the answer.
#![tactic(auto)]

ghost use Rattle.std.specs.Prelude.{◌≡◌, ◌-◌, ◌*◌, List};
ghost use Rattle.reading.specs.Counting.{counts_of};
ghost use Rattle.refusal.specs.Checks.{leaves};
ghost use Rattle.protocol.specs.Places.{state_at, meeting};
ghost use Rattle.protocol.specs.Protocols.{answer_reply, meet_reply};
ghost use Rattle.load.specs.Asked.{start_verdict, open_verdict, read_verdict, granted, granted_or_back};
ghost use Rattle.load.specs.Calls.{Calls, Request, Reply};
ghost use Rattle.load.specs.Phases.{of_ready, outcome};
ghost use Rattle.settling.specs.Settle.{AnswersSettle, AskLeaves, load_after};
ghost use Rattle.settling.specs.Stability.{StablyComputes};

use load::{Ready, Refused};
use protocol::Advice;
use question::Question;
use reading::Symbol;
use refusal::Fault;

// What following the advice came to.
#[derive(Drop)]
pub struct Followed {
    pub load: Ready,
    // How many advised meetings were made.
    pub meetings: u64,
    // The advice on the words as they are now: Settled, for every load that only these calls have touched.
    pub advice: Advice,
}

// Follows the advice until the load is settled, through at most weight × (tags - 1) advised meetings. Asks what advise asks: 10, and 14 of
// all words. On words that no started load comes to, it ends where the advice is no meeting of two different tags, or with the last of
// those meetings.
pub fn settle<Q: Question>(
    mut load: Ready,
    question: &Q,
    words: &mut [u32],
) -> Result<Followed, Refused<Ready>>
    ensures result { AnswersSettle (Q.meaning question.now).protocol load words.old result words.new }
    ensures calls { let p = (Q.meaning question.now).protocol in
        (calls : List (Request × Reply)) × Calls p (of_ready load) words.old calls (load_after result) words.new }
    ensures stable { StablyComputes (Q.meaning question.now).protocol }
{
    let most = most_meetings(&load, question);
    // How many were made, for the answer. A `for` over them would have to advise once more after its end.
    let mut meetings = 0;
    let advice = loop {
        // A match, since the closure of a `map_err` would take the load, refused or not.
        let advice = match load.advise(question, words) {
            Ok(advice) => advice,
            Err(fault) => return Err(Refused { fault, kept: load }),
        };
        let Advice::Meet(first, second) = advice else {
            break advice;
        };
        if meetings == most {
            break advice;
        }
        match meet(load, question, words, first, second) {
            Ok(met) => load = met,
            Err(refused) => {
                load = refused.kept;
                break advice;
            }
        }
        meetings += 1;
    };
    Ok(Followed {
        load,
        meetings,
        advice,
    })
}

// The answer of a load with these symbols: starts it in the words lent, settles it and reads it. Refused exactly where start is, and then
// the words are as they were; else they are those of the settled load.
// Like settle it carries the promise of stable computation: no list of calls strands a load.
pub fn ask<Q: Question>(question: &Q, symbols: &[Symbol], words: &mut [u32]) -> Result<bool, Fault>
    ensures result { let p = (Q.meaning question.now).protocol in
        result ≡ granted (start_verdict p.tables symbols.now words.old) (p.truth (counts_of symbols.now)) }
    ensures written { AskLeaves (Q.meaning question.now).protocol symbols.now words.old result words.new }
    ensures stable { StablyComputes (Q.meaning question.now).protocol }
{
    let load = Ready::start(question, symbols, words)?;
    let followed = settle(load, question, words)?;
    first_answer(&followed.load, question, words)
}

// What the first tag answers. In a settled load every tag answers alike.
fn first_answer<Q: Question>(load: &Ready, question: &Q, words: &[u32]) -> Result<bool, Fault>
    ensures { let tables = (Q.meaning question.now).protocol.tables in
        result ≡ granted (read_verdict tables load.now.tags 0 words.now) (answer_reply tables (state_at words.now 0)) }
{
    load.read(question, words, 0)
}

// How many advised meetings settle the load at most.
fn most_meetings<Q: Question>(load: &Ready, question: &Q) -> u64
    ensures { result ≡ (Q.meaning question.now).protocol.weight * (load.now.tags - 1) }
{
    question.weight() * (load.tags() as u64 - 1)
}

// A meeting, opened and finished, that gives the load back, where a program of one load wants the fault alone. Refused where it cannot be opened, and then nothing has changed.
fn meet<Q: Question>(
    load: Ready,
    question: &Q,
    words: &mut [u32],
    first: usize,
    second: usize,
) -> Result<Ready, Refused<Ready>>
    ensures result { let tables = (Q.meaning question.now).protocol.tables in
        outcome of_ready of_ready result
        ≡ granted_or_back (open_verdict tables load.tags first second words.old) (of_ready load) (of_ready load) }
    ensures written { let tables = (Q.meaning question.now).protocol.tables in
        words.new
        ≡ leaves (open_verdict tables load.tags first second words.old) (meeting (meet_reply tables) words.old first second) words.old }
{
    let meeting = load.open(question, words, first, second)?;
    meeting.finish(question, words).map_err(|refused| Refused {
        fault: refused.fault,
        kept: refused.kept.break_off(),
    })
}
