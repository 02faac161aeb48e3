// Reads a sheet from standard input and prints the plan: `found`, n, t and then one entry a line, or `refused`, number, place.
#![tactic(auto)]

use planner::Planned;
use std::io;

// The words, the trace entries and the words of index that the program lends, and the bytes that it reads.
const WORDS: usize = 16384;

const ENTRIES: usize = 64;

const INDEX: usize = 32768;

const BYTES: usize = 16384;

fn found(rt: &impl Print, plan: Planned, trace: &[u16]) -> io::Result<()> {
    let Planned { n, t } = plan;
    println!(rt; "found {n} {t}")?;
    for entry in trace.iter().take(n) {
        println!(rt; "{entry}")?;
    }
    Ok(())
}

fn report(rt: &impl Print, sheet: &[u8]) -> io::Result<()> {
    let mut work = [0u32; WORDS];
    let mut trace = [0u16; ENTRIES];
    let mut index = [0u32; INDEX];
    match planner::plan(sheet, &mut work, &mut trace, &mut index) {
        Ok(plan) => found(rt, plan, &trace),
        Err(why) => println!(rt; "refused {why}"),
    }
}

fn main(rt: HostRuntime) -> io::Result<()> {
    let mut input = [0u8; BYTES + 1];
    let n = input::read_full(&mut rt.stdin(), &mut input)?;
    if BYTES < n {
        println!(rt; "too long")
    } else {
        report(&rt, &input[..n])
    }
}
