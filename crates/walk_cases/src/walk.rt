// A walk through the configurations of a sheet, one transition after another, by the functions of the engine that strategies use.
ghost use Rattle.std.specs.Prelude.{◌≡◌, ℕ, ◌+◌, length, IfOk, IfSome};
ghost use Rattle.golog.specs.Prog.{Prog};
ghost use Rattle.demands.specs.Decoded.{bound_of};
ghost use Rattle.engine.specs.Tables.{Prepared, Surveyed};
ghost use Rattle.engine.specs.Frames.{Frame};
ghost use Rattle.sheet.specs.Inspection.{words_required};
ghost use Rattle.engine.specs.Going.{Ahead, transitions_of, CanGoOn};

use crate::report;
use engine::{Cursor, Taken};
use golog::State;
use sheet::Sheet;
use std::io;

// The transition that a walk takes at depth d: as listed, the first one past the list's end.
fn choice(choices: &[u8], d: usize) -> usize {
    choices.get(d).map_or(0, |n| usize::from(*n))
}

// Surveys and writes the configuration of frame d and the state: its first cursor.
fn tell(
    rt: &impl Print,
    flags: &mut [bool],
    numbers: &mut [u32],
    work: &[u32],
    s: &Sheet,
    st: State,
    d: usize,
) -> io::Result<Cursor>
    requires prepared { Prepared s.now flags.old numbers.old }
    requires by_index { (left : ℕ) × (p : Prog) × Frame s.now left work.now d p }
    ensures answer { IfOk result (λ k. (left : ℕ) (p : Prog) → Frame s.now left work.now d p
        → Ahead s.now (p, st) k (transitions_of s.now (p, st))) }
    ensures tables { Surveyed s.now st d flags.new numbers.new }
{
    let f = engine::survey(flags, numbers, work, s, st, d);
    report::configuration(rt, d, st, f)?;
    let from = engine::nodes_from(s, d);
    report::nodes(rt, work, from, words::size_at(work, from))?;
    Ok(f.first)
}

// Makes the transitions from a cursor on, past n of them, each into the frame after frame d: the last one made, if there are so many.
fn make(
    work: &mut [u32],
    flags: &[bool],
    numbers: &[u32],
    s: &Sheet,
    st: State,
    d: usize,
    k: Cursor,
    n: usize,
) -> Option<Taken>
    requires { Surveyed s.now st d flags.now numbers.now × CanGoOn s.now st work.old d k }
    ensures answer { (g : CanGoOn s.now st work.old d k) → IfSome result (λ t. (p : Prog) × Frame s.now g.left work.new (d + 1) p) }
    ensures places { length work.new ≡ length work.old }
{
    let mut cursor = k;
    for _ in 0..n {
        cursor = engine::next(work, flags, numbers, s, st, d, cursor)?.cursor;
    }
    engine::next(work, flags, numbers, s, st, d, cursor)
}

// Walks on from the configuration of frame 0 and the state, while transitions are left and there is the one chosen.
fn walk(
    rt: &impl Print,
    work: &mut [u32],
    flags: &mut [bool],
    numbers: &mut [u32],
    s: &Sheet,
    choices: &[u8],
    first: State,
) -> io::Result<()>
    requires prepared { Prepared s.now flags.old numbers.old }
    requires frame { (p : Prog) × Frame s.now (bound_of s.now) work.old 0 p }
{
    let bound = s.found().layout.d;
    let mut st = first;
    for d in 0..bound {
        let k = tell(rt, flags, numbers, work, s, st, d)?;
        let n = choice(choices, d);
        let Some(x) = make(work, flags, numbers, s, st, d, k, n) else {
            return Ok(());
        };
        report::transition(rt, n, x.entry)?;
        st = x.state;
    }
    tell(rt, flags, numbers, work, s, st, bound)?;
    Ok(())
}

// Walks from the first configuration of a sheet.
fn walk_from(rt: &impl Print, work: &mut [u32], s: &Sheet, choices: &[u8]) -> io::Result<()>
    requires { length work.old ≡ words_required s.now }
{
    let mut flags = [false; engine::FLAGS];
    let mut numbers = [0u32; engine::NUMBERS];
    engine::prepare(&mut flags, &mut numbers, s);
    engine::put_first(work, s);
    let st = engine::initial_of(s);
    walk(rt, work, &mut flags, &mut numbers, s, choices, st)
}

// Walks a sheet, if it is accepted and not too large.
pub fn walk_sheet(rt: &impl Print, bytes: &[u8], choices: &[u8]) -> io::Result<()> {
    let mut work = [0u32; 1024];
    let Ok(s) = Sheet::open(bytes) else {
        return println!(rt; "refused");
    };
    let words = s.found().words;
    if work.len() < words {
        return println!(rt; "too large");
    }
    walk_from(rt, &mut work[..words], &s, choices)
}
