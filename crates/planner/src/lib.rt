// The library's face: check, sizes, plan, replay, look up, notes. No call has a `requires`.
#![tactic(auto)]

ghost use Rattle.std.specs.Prelude.{◌≡◌, length};
ghost use Rattle.sheet.specs.Check.{check_of, number_of, place_of};
ghost use Rattle.sheet.specs.Notes.{notes_of};
ghost use Rattle.lookup.specs.LookUp.{look_of};
ghost use Rattle.planner.specs.Answers.{answer_of, trace_of, plan_work, index_of, reply_of, replay_work};
ghost use Rattle.planner.specs.Reports.{planned_as};
ghost use Rattle.planner.specs.Sizes.{sizes_of};

use records::Fluent;
use search::Outcome;
use sheet::{Acceptance, Cause, Refusal, Sheet};

// What planning finds: n moves and t transitions, the moves standing in the trace.
#[derive(Clone, Copy, Debug, PartialEq, Eq)]
pub struct Planned {
    pub n: usize,
    pub t: usize,
}

// A sheet's sizes: the number of its fluents and its bound.
#[derive(Clone, Copy, Debug, PartialEq, Eq)]
pub struct Size {
    pub fluents: usize,
    pub bound: usize,
}

// Checks a sheet: the words of work that planning and replay require and the set of the fluents that formulas name, or a refusal.
pub fn check(s: &[u8]) -> Result<Acceptance, Refusal>
    ensures answer { result ≡ check_of s.now }
{
    sheet::check(s)
}

// How many fluents a sheet has, and its bound: so many entries of trace are enough for planning.
pub fn sizes(s: &[u8]) -> Result<Size, Refusal>
    ensures answer { result ≡ sizes_of s.now }
{
    let l = Sheet::open(s)?.found().layout;
    Ok(Size {
        fluents: l.f,
        bound: l.d,
    })
}

// The notes of a sheet: the caller's own bytes ahead of the first record; under a number, the empty part at the slice's start.
pub fn notes<'a>(s: &'a [u8], number: &mut u32, place: &mut usize) -> &'a [u8]
    ensures answer { result.now ≡ notes_of s.now }
    ensures borrowed { result.ref_ptr ≡ s.entry.ref_ptr }
    ensures number { number.new ≡ number_of (check_of s.now) }
    ensures place { place.new ≡ place_of (check_of s.now) }
{
    sheet::notes(s, number, place)
}

// Fluent x of a sheet: its domain size and initial value, or a refusal.
pub fn look_up(s: &[u8], x: usize) -> Result<Fluent, Refusal>
    ensures answer { result ≡ look_of s.now x }
{
    view::look_up(s, x)
}

fn answer_of(o: Outcome) -> Result<Planned, Refusal>
    ensures { result ≡ planned_as o }
{
    match o {
        Outcome::Found { n, t } => Ok(Planned { n, t }),
        Outcome::Nothing => Err(Refusal::from(Cause::NoPlan)),
        Outcome::More => Err(Refusal::from(Cause::NoPlanInBound)),
    }
}

// Plans on an accepted sheet.
fn plan_on(
    s: &Sheet,
    work: &mut [u32],
    trace: &mut [u16],
    index: &mut [u32],
) -> Result<Planned, Refusal>
    ensures answer { result ≡ answer_of s.now (length work.old) (length trace.old) }
    ensures trace { trace.new ≡ trace_of s.now (length work.old) trace.old }
    ensures work { work.new ≡ plan_work s.now work.old (length trace.old) }
    ensures index { index.new ≡ index_of s.now (length work.old) (length trace.old) index.old }
{
    let found = s.found();
    if trace.len() < found.layout.d {
        return Err(Refusal::from(Cause::ShortTrace));
    }
    let words = found.words;
    if work.len() < words {
        return Err(Refusal::from(Cause::ShortWork));
    }
    answer_of(first::plan(s, &mut work[..words], trace, index))
}

// Plans: the first plan, or why there is none: of the runs of at most D transitions that end final those of fewest transitions, and of their
// histories the smallest.
pub fn plan(
    s: &[u8],
    work: &mut [u32],
    trace: &mut [u16],
    index: &mut [u32],
) -> Result<Planned, Refusal>
    ensures answer { result ≡ answer_of s.now (length work.old) (length trace.old) }
    ensures trace { trace.new ≡ trace_of s.now (length work.old) trace.old }
    ensures work { work.new ≡ plan_work s.now work.old (length trace.old) }
    ensures index { index.new ≡ index_of s.now (length work.old) (length trace.old) index.old }
{
    let sheet = Sheet::open(s)?;
    plan_on(&sheet, work, trace, index)
}

// Replays on an accepted sheet. A history of more moves than the bound is answered at once.
fn replay_on(s: &Sheet, history: &[u16], work: &mut [u32]) -> Result<bool, Refusal>
    ensures answer { result ≡ reply_of s.now history.now (length work.old) }
    ensures work { work.new ≡ replay_work s.now work.old }
{
    let found = s.found();
    let required = found.words;
    if work.len() < required {
        return Err(Refusal::from(Cause::ShortWork));
    }
    if found.layout.d < history.len() {
        work[..required].fill(0);
        return Ok(false);
    }
    Ok(search::accepts(s, history, &mut work[..required]))
}

// Replays a history: whether some run of at most D transitions makes exactly these moves and ends final.
pub fn replay(s: &[u8], history: &[u16], work: &mut [u32]) -> Result<bool, Refusal>
    ensures answer { result ≡ reply_of s.now history.now (length work.old) }
    ensures work { work.new ≡ replay_work s.now work.old }
{
    let sheet = Sheet::open(s)?;
    replay_on(&sheet, history, work)
}
