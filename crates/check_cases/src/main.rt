// Runs the checks of a sheet on the cases that standard input lists, one to a line: writes each line, and after it what
// checking that line's sheet answers. The first line describes the sheet with which all others start; headings, which
// are written as they stand, say how a line is to be read.
#![tactic(auto)]

mod cases;
mod report;
mod scan;
mod write;

use std::io;

// The bytes that the program reads; more are left unread.
const BYTES: usize = 65536;

fn line(rt: &impl Print, base: &[u8], t: &[u8]) -> io::Result<()> {
    report::text(rt, t)?;
    if scan::is_heading(t) {
        return println!(rt);
    }
    let mut s = [0u8; 16384];
    let c = cases::build(&mut s, cases::empty(), scan::clauses(base));
    report_on(rt, cases::build(&mut s, c, scan::clauses(t)), &s)
}

fn report_on(rt: &impl Print, c: cases::Case, s: &[u8]) -> io::Result<()> {
    let sheet = c.sheet(s);
    report::answer(rt, sheet)?;
    if c.shows_trailer {
        report::trailer(rt, c.trailer(s))?;
    }
    if c.shows_notes {
        report::notes(rt, sheet)?;
    }
    Ok(())
}

fn lines(rt: &impl Print, base: &[u8], text: &[u8]) -> io::Result<()> {
    for t in text.split_inclusive(|c| *c == b'\n') {
        line(rt, base, t.strip_suffix(b"\n").unwrap_or(t))?;
    }
    Ok(())
}

fn report_all(rt: &impl Print, text: &[u8]) -> io::Result<()> {
    let first = text.split(|c| *c == b'\n').next().unwrap_or(text);
    lines(rt, first, text)
}

fn main(rt: HostRuntime) -> io::Result<()> {
    let mut text = [0u8; BYTES];
    let n = input::read_full(&mut rt.stdin(), &mut text)?;
    report_all(&rt, &text[..n])
}
