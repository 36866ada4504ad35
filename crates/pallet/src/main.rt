// Classes five probe bytes and runs a load of their readings until it has the answer.
#![tactic(auto)]

use probe::classify;
use reading::Symbol;

mod loads;

fn main(rt: HostRuntime) -> anyhow::Result<()> {
    run(&rt)
}

fn run(rt: &(impl Print + AllocGlobal)) -> anyhow::Result<()> {
    let mut readings = [Symbol(0); 5];
    classify(&[12, 39, 40, 255, 7], &mut readings)?;
    loads::show_some(rt, &readings)
}
