// Document 02, F-4: planning with an index of configurations already explored, of several lengths, and without one.
use crate::{clock, report, sheets};
use planner::Planned;
use sheet::Refusal;
use std::io;
use std::time::CpuClock;

// The bound of the request's case, and one at which planning ends soon without an index too.
const FAR: u8 = 40;

const NEAR: u8 = 16;

const ROUNDS: usize = 5;

const TEN_SECONDS: u64 = 10000000;

// The words of work (the star at D 40 requires 32,267), trace entries and words of index that are lent at most; what stands in all of them before.
const WORDS: usize = 32768;

const ENTRIES: usize = 64;

const INDEX: usize = 4096;

const BEFORE: u16 = 0xbe4e;

// What planning answers.
type Answer = Result<Planned, Refusal>;

// The answer and the trace, whether the whole index was 0 after it, and the microseconds that it took.
#[derive(Clone, Copy, Debug, PartialEq, Eq)]
struct Run {
    answer: Answer,
    trace: [u16; ENTRIES],
    cleared: bool,
    time: u64,
}

// The times of the quickest round with and without an index, and whether the answers were the same in all rounds.
#[derive(Clone, Copy, Debug, PartialEq, Eq)]
struct Times {
    with_index: u64,
    without: u64,
    same: bool,
}

fn is_zero(index: &[u32]) -> bool {
    index.iter().all(|word| *word == 0)
}

// Plans with this index.
fn plan_with(rt: &impl CpuClock, s: &[u8], index: &mut [u32]) -> Run {
    let mut work = [BEFORE as u32; WORDS];
    let mut trace = [BEFORE; ENTRIES];
    let begin = clock::microseconds(rt);
    let answer = planner::plan(s, &mut work, &mut trace, index);
    let time = clock::since(rt, begin);
    Run {
        answer,
        trace,
        cleared: is_zero(index),
        time,
    }
}

// Plans with so many words of index.
fn plan(rt: &impl CpuClock, s: &[u8], words: usize) -> Run {
    let mut index = [BEFORE as u32; INDEX];
    let n = words.min(INDEX);
    plan_with(rt, s, &mut index[..n])
}

fn tell(rt: &impl Print, a: Answer) -> io::Result<()> {
    match a {
        Ok(Planned { n, t }) => println!(rt; "  found {n} {t}"),
        Err(why) => println!(rt; "  refused {why}"),
    }
}

fn title(rt: &impl Print, bound: u8) -> io::Result<()> {
    println!(rt;
        "a star of a choice between two like actions, then a test that never holds, D {bound}"
    )
}

// The request's case.
fn far(rt: &(impl Print + Eprint + CpuClock)) -> io::Result<()> {
    title(rt, FAR)?;
    let s = sheets::star(FAR);
    let r = plan(rt, &s, INDEX);
    tell(rt, r.answer)?;
    report::answer(
        rt,
        "  within ten seconds",
        clock::at_most(r.time, TEN_SECONDS),
    )?;
    report::answer(rt, "  index 0", r.cleared)?;
    report::time(rt, "the request's case, 4,096 words of index", r.time)
}

// With the whole index and without one in turn, round by round.
fn measure(rt: &impl CpuClock, s: &[u8], expected: Answer) -> Times {
    let mut with_index = u64::MAX;
    let mut without = u64::MAX;
    let mut same = true;
    for _ in 0..ROUNDS {
        let a = plan(rt, s, INDEX);
        let b = plan(rt, s, 0);
        with_index = with_index.min(a.time);
        without = without.min(b.time);
        same = same & (a.answer == expected) & (b.answer == expected);
    }
    Times {
        with_index,
        without,
        same,
    }
}

// What an index saves.
fn near(rt: &(impl Print + Eprint + CpuClock)) -> io::Result<()> {
    title(rt, NEAR)?;
    let s = sheets::star(NEAR);
    let r = plan(rt, &s, 0);
    tell(rt, r.answer)?;
    let t = measure(rt, &s, r.answer);
    report::answer(rt, "  the same answer in every round", t.same)?;
    report::answer(
        rt,
        "  with 4,096 words at most half as long as with none",
        clock::at_most(t.with_index, t.without / 2),
    )?;
    report::time(rt, "4,096 words of index", t.with_index)?;
    report::time(rt, "no index", t.without)?;
    report::ratio(rt, "4,096 words of index to none", t.with_index, t.without)
}

// The lengths of index that are compared with 0.
const LENGTHS: [usize; 5] = [1, 15, 16, 40, INDEX];

// Whether planning with each length of index is as without one, and leaves it 0.
fn agrees(rt: &impl CpuClock, s: &[u8], expected: Run) -> bool {
    let mut same = true;
    for words in LENGTHS {
        let r = plan(rt, s, words);
        same = same & (r.answer == expected.answer) & (r.trace == expected.trace) & r.cleared;
    }
    same
}

// A sheet with a plan.
fn lengths(rt: &(impl Print + CpuClock)) -> io::Result<()> {
    println!(rt; "two fluents exchange their values, 0, 1, 15, 16, 40 and 4,096 words of index")?;
    let s = sheets::exchange();
    let r = plan(rt, &s, 0);
    tell(rt, r.answer)?;
    if let Ok(plan) = r.answer {
        report::list(rt, "entries", plan.n, &r.trace)?;
    }
    report::answer(rt, "  the same at every length, index 0", agrees(rt, &s, r))
}

pub fn cases(rt: &(impl Print + Eprint + CpuClock)) -> io::Result<()> {
    far(rt)?;
    near(rt)?;
    lengths(rt)
}
