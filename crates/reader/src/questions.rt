// Questions made from numbers, and what they reply.
use compiled::{Compiled, Lane};
use kinds::{Presence, Threshold};
use question::Question;
use reading::{SYMBOLS, Symbol};
use std::fmt::Write;

// Two questions and one that is refused, each by its name.
pub(crate) fn show_some(rt: &(impl Print + AllocGlobal)) -> anyhow::Result<()> {
    let few = Threshold::new([3, 0, 0, 0, 0, 0, 0, 0], 7)?;
    show(rt, "3a < 7", &few, Symbol(0), Symbol(0))?;
    let lanes = [
        Lane::Presence(Presence { mask: 1 }),
        Lane::Presence(Presence { mask: 2 }),
    ];
    let only = Compiled::new(&lanes, 2)?;
    show(rt, "any a and not any b", &only, Symbol(0), Symbol(1))?;
    if let Err(fault) = Threshold::new([100, 0, 0, 0, 0, 0, 0, 0], 1) {
        println!(rt; "100a < 1: {fault}")?;
    }
    Ok(())
}

// What a question is, in which state each symbol starts, and what a meeting of two tags with these symbols leaves.
fn show<Q: Question>(
    rt: &(impl Print + AllocGlobal),
    name: &str,
    question: &Q,
    first: Symbol,
    second: Symbol,
) -> anyhow::Result<()> {
    let kind = question.kind();
    let size = question.size();
    let weight = question.weight();
    println!(rt; "{name}: kind {kind}, size {size}, weight {weight}")?;
    let mut starts = format!(in rt.alloc(); "  starts:")?;
    for symbol in (0..).map(Symbol).take(SYMBOLS) {
        let state = question.start(symbol);
        write!(starts, " {symbol} {state}")?;
    }
    rt.println(starts)?;
    let a = question.start(first);
    let b = question.start(second);
    let (c, d) = question.meet(a, b);
    println!(rt; "  {first} meets {second}: {a} {b} become {c} {d}")?;
    Ok(())
}
