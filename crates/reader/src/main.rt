// Reads probe bytes from standard input, classes them, and prints their symbols and how often each came; then shows some questions.
#![tactic(auto)]

ghost use Rattle.std.specs.Prelude.{◌≡◌, map, IfOk, OnOk};
ghost use Rattle.probe.specs.Classes.{symbol_of};
ghost use Rattle.reader.specs.Classed.{Classed};

use lines::Line;
use probe::class;
use reading::{Counts, Symbol};
use std::alloc::{AllocError, Global};
use std::fmt::Write;
use std::io::{BufRead, BufReader, Read};

mod lines;
mod questions;

fn main(rt: HostRuntime) -> anyhow::Result<()> {
    run(&rt, rt.stdin())
}

// From the handle itself: what `rt.reader()` gives holds 8 KiB more, and is moved about on the stack.
fn run<R: Read + Drop>(rt: &(impl Print + AllocGlobal), from: R) -> anyhow::Result<()> {
    let heap = rt.alloc();
    let mut input = BufReader::new(heap, from)?;
    let mut raw = Vec::new(heap);
    let mut readings = Vec::new(heap);
    // Into one buffer: `split` makes one for each line, and blank lines then take half as long again. No input has so many lines: the bound is
    // what shows that the loop ends.
    for line_number in 1..u64::MAX {
        raw.clear();
        if input.read_until(b'\n', &mut raw)? == 0 {
            break;
        }
        let text = String::from_utf8_lossy(heap, &raw)?;
        class_line(rt, line_number, &text, &mut readings)?;
    }
    println!(rt; "counts: {}", Counts::of(&readings))?;
    questions::show_some(rt)
}

// Adds the symbols of one line to the readings, and prints what the line held.
fn class_line(
    rt: &(impl Print + AllocGlobal),
    line_number: u64,
    text: &str,
    readings: &mut Vec<Symbol>,
) -> anyhow::Result<()>
    ensures { OnOk result (Classed text.now readings.old.items readings.new.items) }
{
    let heap = rt.alloc();
    let line = Line::parse(heap, text)?;
    let symbols = symbols_of(heap, &line.bytes)?;
    print_line(rt, line_number, &symbols, &line.others)?;
    readings.extend_from_slice(&symbols)?;
    Ok(())
}

fn symbols_of(heap: Global, bytes: &[u8]) -> Result<Vec<Symbol>, AllocError>
    ensures { IfOk result (λ v. v.items ≡ map symbol_of bytes.now) }
{
    bytes.iter().map(|byte| class(*byte)).collect(heap)
}

// A line with the symbols, if there are any, and then a line for each word that is no probe byte.
fn print_line(
    rt: &(impl Print + AllocGlobal),
    line_number: u64,
    symbols: &[Symbol],
    others: &[&str],
) -> anyhow::Result<()> {
    if !symbols.is_empty() {
        let mut text = format!(in rt.alloc(); "line {line_number}:")?;
        for symbol in symbols {
            write!(text, " {symbol}")?;
        }
        rt.println(text)?;
    }
    for word in others {
        println!(rt;
            "error: line {line_number}: {word:?} is no probe byte; write a number from 0 to 255"
        )?;
    }
    Ok(())
}
