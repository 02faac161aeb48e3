// The tables of a sheet with placeholders (document 02, F-6), over the bytes of its five tables: what is told once, and what is told of a
// state. All stand in one lent slice of numbers; those of a state twice, for even and for odd depths of a search.
#![tactic(auto)]

ghost use Rattle.std.specs.Prelude.{◌≡◌, ◌+◌, ◌*◌, ◌≤◌, ◌<◌, length};
ghost use Rattle.machine.specs.Tables.{Only, PutAt, spans_on, marks_on, told_places, sets_places, sets_from, sets_at, places, records_of, many_of};
ghost use Rattle.machine.specs.Ruled.{RuledActions, RuledOnce, RuledTables, IsEntry};
ghost use Rattle.machine.specs.Told.{mark_of, Marks, Told, ReadableMarked, ActionsFilled, SetsKnown, StateTold, StateAfter};
ghost use Rattle.enabled.specs.Spans.{SpansKnown};
ghost use Rattle.state.specs.Conflicts.{most_actions};

use golog::State;
use leaves::Programs;
use state::conflicts::ACTIONS;

// How many records each table has, and whether there are interrupts.
#[derive(Clone, Copy)]
pub struct Shape {
    pub f: usize,
    pub q: usize,
    pub e: usize,
    pub a: usize,
    pub p: usize,
    pub interrupts: bool,
}

// Where among the numbers these begin: how many values each record lists, its digits, how far it is from its end, and the marks of actions.
pub const SPANS: usize = 0;

pub const DIGITS: usize = SPANS + leaves::RECORDS;

pub const DISTANCES: usize = DIGITS + leaves::RECORDS;

pub const MARKS: usize = DISTANCES + leaves::RECORDS;

const MARKS_END: usize = MARKS + ACTIONS;

// Where the sets of a state begin, and how many words they have.
pub const SETS: usize = 848;

pub const TABLE: usize = enabled::SETS * sets::WORDS;

// All places: behind the sets there is one more, which is not written here.
pub const PLACES: usize = SETS + 2 * TABLE + 1;

// Writes a table at place `at`.
fn put_numbers(numbers: &mut [u32], at: usize, from: &[u32])
    requires { at + length «from».now ≤ length numbers.old }
    ensures { PutAt at «from».now numbers.old numbers.new }
{
    let to = at + from.len();
    numbers[at..to].copy_from_slice(from);
}

// The mark of an action: 0 where no record performs it, 1 where its effects contradict each other in no state, else 2.
// Kept: a number, since the marks stand in the lent table of numbers, where `prepare` promises them (clause `told`, record Marks).
fn mark_of(performed: bool, conflicts: bool) -> u32
    ensures { result ≡ mark_of performed conflicts }
{
    match (performed, conflicts) {
        (false, _) => 0,
        (true, false) => 1,
        (true, true) => 2,
    }
}

// The marks of all actions.
fn marks_of(
    formulas: &[u8],
    effects: &[u8],
    actions: &[u8],
    programs: &[u8],
    v: Shape,
) -> [u32; ACTIONS]
    requires { RuledOnce formulas.now effects.now actions.now programs.now v }
    ensures { Marks formulas.now effects.now actions.now programs.now v.p result }
{
    let performed = leaves::performed(programs, v.p);
    let may = state::exclusion::may_conflict(formulas, effects, actions, &performed);
    let mut marks = [0u32; ACTIONS];
    for a in 0..ACTIONS {
        marks[a] = mark_of(performed[a], may[a]);
    }
    marks
}

// Fills in once what depends on the sheet alone: how many values each record lists, its digits, how far it is from its end, and the marks of
// the actions.
pub fn prepare(
    numbers: &mut [u32],
    formulas: &[u8],
    effects: &[u8],
    actions: &[u8],
    programs: &[u8],
    v: Shape,
)
    requires { RuledOnce formulas.now effects.now actions.now programs.now v × (length numbers.old ≡ places) }
    ensures told { Told formulas.now effects.now actions.now programs.now v numbers.new }
    ensures written { Only 0 told_places numbers.old numbers.new }
{
    let p = Programs::new(programs, v.p, v.interrupts);
    let spans = enabled::spans(&p);
    let endable = leaves::bounds(&p, true);
    let digits = positions::digits(&p, &endable, &spans);
    let distances = leaves::distances(&p);
    let marks = marks_of(formulas, effects, actions, programs, v);
    put_numbers(numbers, SPANS, &spans);
    put_numbers(numbers, DIGITS, &digits);
    put_numbers(numbers, DISTANCES, &distances);
    put_numbers(numbers, MARKS, &marks);
}

// Where the sets for depth d begin.
pub fn sets_from(d: usize) -> usize
    ensures { (result ≡ sets_from d) × (result + sets_places < places) }
{
    SETS + TABLE * (d % 2)
}

// How many values each record lists.
fn spans_in(numbers: &[u32]) -> [u32; leaves::RECORDS]
    requires { length numbers.now ≡ places }
    ensures { result ≡ spans_on numbers.now }
{
    numbers[SPANS..DIGITS].try_into().unwrap()
}

// The marks of the actions.
fn marks_in(numbers: &[u32]) -> [u32; ACTIONS]
    requires { length numbers.now ≡ places }
    ensures { result ≡ marks_on numbers.now }
{
    numbers[MARKS..MARKS_END].try_into().unwrap()
}

// Fills in where the marked actions are possible, in the state of which the sets of formulas tell.
fn fill_possible(fluents: &[u8], effects: &[u8], actions: &[u8], marks: &[u32], table: &mut [u32])
    requires { ReadableMarked fluents.now effects.now actions.now marks.now table.old }
    ensures { ActionsFilled fluents.now effects.now actions.now marks.now most_actions
        table.old table.new }
{
    for a in 0..ACTIONS {
        let mark = marks[a];
        if mark != 0 {
            let set = possible::set_of(fluents, effects, actions, table, a, mark != 1);
            sets::put_set(table, enabled::POSSIBLE + a, set);
        }
    }
}

// Fills in the sets of a state, whatever stood there.
fn fill_sets(
    table: &mut [u32],
    spans: &[u32],
    marks: &[u32],
    fluents: &[u8],
    formulas: &[u8],
    effects: &[u8],
    actions: &[u8],
    programs: &[u8],
    v: Shape,
    s: State,
)
    requires ruled_tables { RuledTables fluents.now formulas.now effects.now actions.now programs.now v × (length table.old ≡ sets_places) }
    requires spans_known { SpansKnown (records_of programs.now v) (many_of v) spans.now }
    requires marks_len { (length marks.now ≡ most_actions) × Marks formulas.now effects.now actions.now programs.now v.p marks.now }
    ensures { SetsKnown fluents.now formulas.now effects.now actions.now programs.now v s
        table.new }
{
    truths::fill(formulas, v.q, s, table);
    fill_possible(fluents, effects, actions, marks, table);
    let p = Programs::new(programs, v.p, v.interrupts);
    enabled::fill(&p, s.running, spans, table);
}

// Fills in the sets of a state for depth d.
pub fn fill(
    numbers: &mut [u32],
    fluents: &[u8],
    formulas: &[u8],
    effects: &[u8],
    actions: &[u8],
    programs: &[u8],
    v: Shape,
    s: State,
    d: usize,
)
    requires ruled_tables { RuledTables fluents.now formulas.now effects.now actions.now programs.now v }
    requires told_2 { Told formulas.now effects.now actions.now programs.now v numbers.old }
    ensures told { StateTold fluents.now formulas.now effects.now actions.now programs.now v s d
        numbers.new }
    ensures written { Only (sets_from d) sets_places numbers.old numbers.new }
{
    let spans = spans_in(numbers);
    let marks = marks_in(numbers);
    let from = sets_from(d);
    let to = from + TABLE;
    fill_sets(
        &mut numbers[from..to],
        &spans,
        &marks,
        fluents,
        formulas,
        effects,
        actions,
        programs,
        v,
        s,
    );
}

// The state after a transition, by its code, where the sets for depth d tell of the state before it.
pub fn after(
    numbers: &[u32],
    effects: &[u8],
    actions: &[u8],
    v: Shape,
    d: usize,
    entry: u32,
    s: State,
) -> State
    requires { RuledActions effects.now actions.now v × (length numbers.now ≡ places) × IsEntry v entry }
    ensures { StateAfter effects.now actions.now (sets_at d numbers.now) v.q entry s result }
{
    if entry == steps::TEST {
        return s;
    }
    let from = sets_from(d);
    let to = from + TABLE;
    possible::perform(effects, actions, v.f, &numbers[from..to], entry as usize, s)
}
