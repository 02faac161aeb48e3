// What is written: answers to standard output, times to standard error.

use std::io;

// The most microseconds of which a ratio is told.
const MOST: u64 = 1000000000000;

// A line's question and its answer.
pub fn answer(rt: &impl Print, question: &str, yes: bool) -> io::Result<()> {
    let word = if yes { "yes" } else { "no" };
    println!(rt; "{question}: {word}")
}

// The first n of a list, all where there are not so many.
pub fn list<T: Copy + Into<u64>>(
    rt: &impl Print,
    what: &str,
    n: usize,
    list: &[T],
) -> io::Result<()> {
    print!(rt; "  {what}")?;
    for x in list.iter().take(n) {
        let number: u64 = (*x).into();
        print!(rt; " {number}")?;
    }
    println!(rt)
}

// A time and what it is of.
pub fn time(rt: &impl Eprint, label: &str, microseconds: u64) -> io::Result<()> {
    eprintln!(rt; "{label}: {microseconds} us")
}

// The one time in thousandths of the other, told only of times that are far from overflowing.
pub fn ratio(rt: &impl Eprint, label: &str, one: u64, other: u64) -> io::Result<()> {
    if other == 0 || one > MOST {
        return Ok(());
    }
    let thousandths = 1000 * one / other;
    eprintln!(rt; "{label}: {thousandths} thousandths")
}
