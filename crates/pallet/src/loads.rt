// Loads of the readings: one that follows the advice meeting by meeting, and one that is asked in one call.
use anyhow::bail;
use compiled::{Compiled, Lane};
use kinds::{Presence, Threshold};
use load::{Meeting, Ready, Refused};
use protocol::Advice;
use question::Question;
use reading::Symbol;
use refusal::Fault;
use settling::ask;

// Asks two questions of loads with these readings: the one meeting by meeting, the other in one call.
pub(crate) fn show_some(
    rt: &(impl Print + AllocGlobal),
    readings: &[Symbol],
) -> anyhow::Result<()> {
    let mut pallet = Pallet {
        rt,
        readings,
        words: vec![in rt.alloc(); 0; readings.len()]?,
    };
    pallet.follow("3a < 7", &few()?)?;
    pallet.answer("any a and not any b", &only()?)
}

// `reader` makes the same two: a crate for them would be longer than they are.

// 3a < 7
fn few() -> Result<Threshold, Fault> {
    Threshold::new([3, 0, 0, 0, 0, 0, 0, 0], 7)
}

// any a and not any b
fn only() -> Result<Compiled, Fault> {
    let lanes = [
        Lane::Presence(Presence { mask: 1 }),
        Lane::Presence(Presence { mask: 2 }),
    ];
    Compiled::new(&lanes, 2)
}

// The tags on a pallet: their readings, their words, and the runtime that prints what they do.
#[derive(Drop)]
struct Pallet<'a, R> {
    rt: &'a R,
    readings: &'a [Symbol],
    words: Vec<u32>,
}

impl<R: Print> Pallet<'_, R> {
    // Starts a load and follows the advice to its end.
    fn follow<Q: Question>(&mut self, name: &str, question: &Q) -> anyhow::Result<()> {
        println!(self.rt; "{name}, meeting by meeting:")?;
        match Ready::start(question, self.readings, &mut self.words) {
            Ok(load) => self.follow_advice(load, question),
            Err(fault) => Ok(println!(self.rt; "  {fault}")?),
        }
    }

    // A line for each meeting, and one for the answer.
    fn follow_advice<Q: Question>(&mut self, mut load: Ready, question: &Q) -> anyhow::Result<()> {
        // The promise: within weight × (tags - 1) meetings the advice settles the load.
        let most = question.weight().saturating_mul(load.tags() as u64 - 1);
        // The count is printed.
        for meetings in 0..=most {
            match load.advise(question, &self.words)? {
                Advice::Meet(first, second) => {
                    load = self.show_meeting(load, question, first, second)?;
                }
                Advice::Settled => {
                    let answer = yes_or_no(load.read(question, &self.words, 0)?);
                    println!(self.rt; "  settled after {meetings} meetings: {answer}")?;
                    return Ok(());
                }
                Advice::Lost => bail!("the load is lost"),
            }
        }
        bail!("the load is not settled")
    }

    // One meeting, opened and finished, and its line.
    fn show_meeting<Q: Question>(
        &mut self,
        load: Ready,
        question: &Q,
        first: usize,
        second: usize,
    ) -> anyhow::Result<Ready> {
        let (a, b) = (self.word(first), self.word(second));
        let load = meet(load, question, &mut self.words, first, second)?;
        let (c, d) = (self.word(first), self.word(second));
        println!(self.rt; "  {first} meets {second}: {a} {b} become {c} {d}")?;
        Ok(load)
    }

    // The word at a place that the advice names. 0 at any other: an error would be a branch that no load comes to.
    fn word(&self, place: usize) -> u32 {
        self.words.get(place).copied().unwrap_or(0)
    }

    // Starts a load, settles it and reads the answer in one call.
    fn answer<Q: Question>(&mut self, name: &str, question: &Q) -> anyhow::Result<()> {
        match ask(question, self.readings, &mut self.words) {
            Ok(answer) => println!(self.rt; "{name}: {}", yes_or_no(answer))?,
            Err(fault) => println!(self.rt; "{name}: {fault}")?,
        }
        Ok(())
    }
}

// Unlike `settle`, which gives the load back, it answers the fault alone.
fn meet<Q: Question>(
    load: Ready,
    question: &Q,
    words: &mut [u32],
    first: usize,
    second: usize,
) -> Result<Ready, Fault> {
    let meeting = load.open(question, words, first, second)?;
    meeting.finish(question, words).map_err(broken_off)
}

// Breaks off a meeting that could not be finished: no program may let it fall.
fn broken_off(refused: Refused<Meeting>) -> Fault {
    let _load = refused.kept.break_off();
    refused.fault
}

// A function: a type with a `Display` for two words would be longer.
fn yes_or_no(answer: bool) -> &'static str {
    if answer { "yes" } else { "no" }
}
