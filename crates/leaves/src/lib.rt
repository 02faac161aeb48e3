// Tables over the program records, each by one pass: for a state, whether each record is final and how many transitions it has; and for
// every state at once, whether it may be final, whether it surely is, which records depend on the state, how far each is from its end, and
// which actions they perform.
#![tactic(auto)]

ghost use Rattle.std.specs.Prelude.{◌≡◌, true, ◌&&◌, ◌≤◌, ◌<◌, min, T, length, get_or};
ghost use Rattle.records.specs.Records.{TwoBytes, ProgramTable, program_at};
ghost use Rattle.kinds.specs.Programs.{acts};
ghost use Rattle.remaining.specs.Extended.{most_records, empty, virtual};
ghost use Rattle.state.specs.Conflicts.{allowed_by};
ghost use Rattle.state.specs.Ranges.{InActions};
ghost use Rattle.leaves.specs.Tallies.{capped_count_by, Tallied};
ghost use Rattle.leaves.specs.Endable.{final_bounds_of, doubt_by, skips_of, Tallyable};
ghost use Rattle.leaves.specs.Distances.{distances_of};
ghost use Rattle.leaves.specs.Performed.{Performed};
ghost use Rattle.leaves.specs.Running.{running_of, records, size};

use kinds::programs::Kind;
use records::Program;
use std::marker::Model;

// How many program records can run: those of a sheet, and four more.
pub const RECORDS: usize = 260;

// The places from which on one is skipped to: each record, and behind them.
pub const SKIPS: usize = 261;

// Counts end here.
const CAP: u64 = 1000000;

// Distances end here: one more than the largest bound, so that it makes no difference how much farther an end is.
pub const FARTHEST: usize = 65;

// The record that does nothing.
const EMPTY: Program = Program {
    kind: Kind::Nil as usize,
    a: 0,
    b: 0,
    c: 0,
};

// The records above the first n, where there are interrupts.
fn virtual_at(n: usize, k: usize) -> Program
    requires { (1 ≤ n) × (n ≤ 256) }
    ensures record { result ≡ get_or (virtual true n) k empty }
    ensures fields { TwoBytes result }
{
    match k {
        0 => Program {
            kind: Kind::Act as usize,
            a: golog::START,
            b: 0,
            c: 0,
        },
        1 => Program {
            kind: Kind::Act as usize,
            a: golog::STOP,
            b: 0,
            c: 0,
        },
        2 => Program {
            kind: Kind::Over as usize,
            a: n - 1,
            b: n + 1,
            c: 0,
        },
        3 => Program {
            kind: Kind::Sequence as usize,
            a: n,
            b: n + 2,
            c: 0,
        },
        _ => EMPTY,
    }
}

// Which actions the first n records perform.
pub fn performed(programs: &[u8], n: usize) -> [bool; state::conflicts::ACTIONS]
    requires { ProgramTable programs.now n }
    ensures { Performed (program_at programs.now) n result }
{
    let mut marks = [false; state::conflicts::ACTIONS];
    for i in 0..n {
        let r = records::program_at(programs, i);
        if kinds::programs::acts(r.kind) & (r.a < state::conflicts::ACTIONS) {
            marks[r.a] = true;
        }
    }
    marks
}

// Whether a record performs an action, and one that is possible.
fn can_act(r: Program, actions: &[u8], truths: &[bool], conflicted: &[bool]) -> bool
    requires { T (acts r.kind) → InActions actions.now r.a }
    ensures { result ≡ (acts r.kind && allowed_by actions.now truths.now conflicted.now r.a) }
{
    kinds::programs::acts(r.kind) && state::possible(actions, truths, conflicted, r.a)
}

fn count_at(
    r: Program,
    actions: &[u8],
    truths: &[bool],
    conflicted: &[bool],
    running: bool,
    finals: &[bool],
    counts: &[u32],
) -> u32
    requires { T (acts r.kind) → InActions actions.now r.a }
    ensures { result ≡ capped_count_by r actions.now truths.now conflicted.now running finals.now counts.now }
{
    let can = can_act(r, actions, truths, conflicted);
    kinds::programs::count_by(r, can, truths, running, finals, counts).min(CAP) as u32
}

// The program table that runs: the n records of a sheet, and four more where there are interrupts.
#[derive(Drop)]
pub struct Programs<'a> {
    bytes: &'a [u8],
    n: usize,
    interrupts: bool,
}

impl<'a> Model for Programs<'a> {
    ghost use Rattle.records.specs.Records.{ProgramTable};
    ghost use Rattle.leaves.specs.Running.{Running, running_of};

    ghost Value = { Running };

    ghost view = { λ p. running_of p.bytes.now p.n p.interrupts };

    ghost invariant = { λ p. ProgramTable p.bytes.now p.n };
}

impl<'a> Programs<'a> {
    pub fn new(bytes: &'a [u8], n: usize, interrupts: bool) -> Programs<'a>
        requires { ProgramTable bytes.now n }
        ensures { result ≡ running_of bytes.now n interrupts }
    {
        Programs {
            bytes,
            n,
            interrupts,
        }
    }

    // Its record i; and that there are so few that the number of each fits a word.
    #[tactic(auto, unfolding(remaining::specs::Extended::extended))]
    pub fn record(&self, i: usize) -> Program
        ensures record { result ≡ records self.now i }
        ensures fields { TwoBytes result }
        ensures few { size self.now ≤ most_records }
    {
        if i < self.n {
            return records::program_at(self.bytes, i);
        }
        if self.interrupts {
            return virtual_at(self.n, i - self.n);
        }
        EMPTY
    }

    // How many there are.
    pub fn places(&self) -> usize
        ensures { (result ≡ size self.now) × (result ≤ most_records) }
    {
        if self.interrupts { self.n + 4 } else { self.n }
    }
}

// Fills in how many transitions each record of the table that runs has in the state that `truths`, the actions, `conflicted` and `running`
// say, where `finals` tells which are final, whatever stood there: one pass upwards, since a record names lower ones only.
pub fn tallies(
    counts: &mut [u32],
    p: &Programs,
    actions: &[u8],
    truths: &[bool],
    conflicted: &[bool],
    running: bool,
    finals: &[bool],
)
    requires places { length counts.old ≡ most_records }
    requires tallyable { Tallyable (records p.now) (size p.now) actions.now truths.now running finals.now }
    ensures counts { Tallied (records p.now) (size p.now) actions.now truths.now
        conflicted.now running counts.old counts.new }
    ensures places { length counts.new ≡ most_records }
{
    let m = p.places();
    for i in 0..m {
        let r = p.record(i);
        let k = count_at(r, actions, truths, conflicted, running, finals, counts);
        counts[i] = k;
    }
}

// With `most`, which records of the table that runs may be final in some state; without, which are in every one.
pub fn bounds(p: &Programs, most: bool) -> [bool; RECORDS]
    ensures { result ≡ final_bounds_of most (records p.now) (size p.now) }
{
    let m = p.places();
    let mut marks = [true; RECORDS];
    for i in 0..m {
        let r = p.record(i);
        marks[i] = kinds::programs::final_bound_by(r, most, &marks);
    }
    marks
}

// Whether a record's finality depends on the state.
fn doubt_at(endable: &[bool], sure: &[bool], i: usize) -> bool
    ensures { result ≡ doubt_by endable.now sure.now i }
{
    records::value_in(endable, i, true) & !records::value_in(sure, i, true)
}

// From each record on, the first whose finality depends on the state, where `endable` has those that may be final in some.
pub fn skips(p: &Programs, endable: &[bool]) -> [u32; SKIPS]
    ensures { result ≡ skips_of (records p.now) (size p.now) endable.now }
{
    let m = p.places();
    let sure = bounds(p, false);
    let mut skips = [m as u32; SKIPS];
    let mut first = m as u32;
    for i in (0..m).rev() {
        if doubt_at(endable, &sure, i) {
            first = i as u32;
        }
        skips[i] = first;
    }
    skips
}

// How far each record of the table that runs is from its end at least, in transitions and whatever the states.
pub fn distances(p: &Programs) -> [u32; RECORDS]
    ensures { result ≡ distances_of (records p.now) (size p.now) }
{
    let m = p.places();
    let mut distances = [0u32; RECORDS];
    for i in 0..m {
        let r = p.record(i);
        distances[i] = kinds::programs::distance_by(r, &distances).min(FARTHEST as u64) as u32;
    }
    distances
}
