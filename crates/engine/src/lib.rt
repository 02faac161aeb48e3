// The machine on one configuration of an accepted sheet: its first remaining program, a survey of a configuration, and its transitions
// made one by one from a cursor on. A state goes by value, a remaining program stands in a frame of the work area, and the tables of a
// state in two lent slices that only this crate looks into.
#![tactic(auto)]

ghost use Rattle.std.specs.Prelude.{◌≡◌, ℕ, ◌+◌, ◌*◌, ◌%◌, ◌^◌, ◌<◌, ◌≤◌, true, false, List, length, slice_index};
ghost use Rattle.sheet.specs.Layout.{layout_of};
ghost use Rattle.sheet.specs.Check.{Accepts};
ghost use Rattle.sheet.specs.Inspection.{words_required};
ghost use Rattle.kinds.specs.Programs.{final_by};
ghost use Rattle.golog.specs.World.{after};
ghost use Rattle.golog.specs.Prog.{Prog};
ghost use Rattle.golog.specs.Transitions.{Configuration, Transition, is_none};
ghost use Rattle.golog.specs.declared.State.{State};
ghost use Rattle.demands.specs.Decoded.{world_of, starting_with, initial_of, first_of, bound_of};
ghost use Rattle.remaining.specs.Rest.{Rest, AllLower, Plain};
ghost use Rattle.remaining.specs.Extended.{most_records, top};
ghost use Rattle.leaves.specs.Running.{records, size};
ghost use Rattle.leaves.specs.Endable.{Skips};
ghost use Rattle.words.specs.Words.{At, Stands};
ghost use Rattle.ends.specs.Ends.{Totalled};
ghost use Rattle.state.specs.Truths.{AreTruths};
ghost use Rattle.engine.specs.Tables.{window, Only, most_formulas, set_flags, truths_on, finals_on, FinalsOn, SameFrom, flag_places};
ghost use Rattle.engine.specs.Tables.{number_places, surveys_at, surveys_in};
ghost use Rattle.engine.specs.Tables.{running_in, endable_in, truths_from, finals_at, distances_in, counts_from, counts_at};
ghost use Rattle.engine.specs.Tables.{ListsMayConflict, Prepared, Judged, ConflictedAt, Surveyed, Filled};
ghost use Rattle.engine.specs.Tables.{truths_at, ConflictOf};
ghost use Rattle.engine.specs.Evaluated.{FormulasNamed, ActionsNamed, evaluated, possibility};
ghost use Rattle.engine.specs.Frames.{nodes_at, Frame};
ghost use Rattle.engine.specs.Going.{is_final, Ahead, Tells, Known, IsAction, move_of, CanGoOn, GoesOn};
ghost use Rattle.engine.specs.Turns.{Turns};

use ends::Totals;
use golog::State;
use leaves::Programs;
use records::Program;
use sheet::Sheet;
use state::{Evaluated, Possibility};
use steps::tables::Tables;
use steps::{Laid, Passed};

// How many sets of tables there are: those for a depth stand until a configuration so much deeper is surveyed.
pub const SETS: usize = 8;

// The places of the two slices that hold the tables.
pub const FLAGS: usize = leaves::RECORDS + SETS * (sheet::MOST_FORMULAS + leaves::RECORDS);

pub const NUMBERS: usize = SURVEYS + 1;

// Where among the numbers the actions are listed whose effects may contradict each other, behind the skips and the distances, and where
// those of the sets begin.
const MAY_CONFLICT: usize = leaves::SKIPS + leaves::RECORDS;

const COUNTS: usize = MAY_CONFLICT + state::exclusion::LIST;

// Where among them it is counted how many configurations were surveyed.
const SURVEYS: usize = COUNTS + SETS * leaves::RECORDS;

// How far the transitions of a configuration have been gone through: the number of the next one, and how many there are.
#[derive(Clone, Copy)]
pub struct Cursor {
    pub next: usize,
    pub end: usize,
}

// What a survey tells of a configuration: whether it is final, how far it is from its end at least by way of any transition, that one
// counted, and the first cursor.
#[derive(Clone, Copy)]
pub struct Findings {
    pub done: bool,
    pub soon: usize,
    pub first: Cursor,
}

// A transition that was made: the code of its move, the state after it, and the cursor after it.
#[derive(Clone, Copy)]
pub struct Taken {
    pub entry: u32,
    pub state: State,
    pub cursor: Cursor,
}

// The first state of n fluents.
fn initial(fluents: &[u8], n: usize) -> State
    requires { (2 * n ≤ length fluents.now) × (n ≤ 32) }
    ensures { result ≡ starting_with fluents.now n }
{
    let mut values = [0u8; 32];
    for x in 0..n {
        values[x] = records::fluent_at(fluents, x).initial as u8;
    }
    State {
        values,
        running: false,
    }
}

// The sheet's initial state.
pub fn initial_of(s: &Sheet) -> State
    ensures { result ≡ initial_of s.now }
{
    initial(s.fluents(), s.found().layout.f)
}

// The record that runs, of n records.
fn top_of(n: usize, interrupts: bool) -> usize
    requires { (1 ≤ n) × (n ≤ 256) }
    ensures { (result ≡ top interrupts n) × (result < most_records) }
{
    if interrupts { n + 3 } else { n - 1 }
}

// Puts what runs at first, whatever the state, into frame 0 of a work area that is as long as required.
pub fn put_first(work: &mut [u32], s: &Sheet)
    requires { (length work.old ≡ words_required s.now) }
    ensures frame { Frame s.now (bound_of s.now) work.new 0 (first_of s.now).0 }
    ensures places { length work.new ≡ length work.old }
    ensures accepted { Accepts s.now }
{
    let found = s.found();
    let top = top_of(found.layout.p, found.interrupts);
    words::put_node(work, height::HEADER, words::LEAF, top, 1);
}

// Where the nodes of frame d begin.
pub fn nodes_from(s: &Sheet, d: usize) -> usize
    requires { nodes_at s.now d < 2 ^ 32 }
    ensures begins { result ≡ nodes_at s.now d }
    ensures accepted { Accepts s.now }
{
    d * s.found().frame + height::HEADER
}

// The program table that runs.
fn programs_of<'a>(s: &Sheet<'a>) -> Programs<'a>
    ensures running { result ≡ running_in s.now }
    ensures accepted { Accepts s.now }
{
    let found = s.found();
    Programs::new(s.programs(), found.layout.p, found.interrupts)
}

// The actions that records perform and whose effects may contradict each other in some state.
fn may_conflict_of(s: &Sheet) -> [u32; state::exclusion::LIST]
    ensures { ListsMayConflict s.now result }
{
    let performed = leaves::performed(s.programs(), s.found().layout.p);
    let may_conflict = state::exclusion::may_conflict(
        s.formulas(),
        s.effects(),
        s.actions(),
        &performed,
    );
    state::exclusion::listed(&may_conflict)
}

// Fills in once what depends on the sheet alone: which records may be final in some state, which depend on it, how far each is from its
// end, and which actions' effects may contradict each other.
pub fn prepare(flags: &mut [bool], numbers: &mut [u32], s: &Sheet)
    requires { (length flags.old ≡ flag_places) × (length numbers.old ≡ number_places) × ((i : ℕ) → slice_index numbers.old i ≡ 0) }
    ensures { Prepared s.now flags.new numbers.new }
{
    let p = programs_of(s);
    let endable = leaves::bounds(&p, true);
    let skips = leaves::skips(&p, &endable);
    let distances = leaves::distances(&p);
    let listed = may_conflict_of(s);
    flags[..leaves::RECORDS].copy_from_slice(&endable);
    numbers[..leaves::SKIPS].copy_from_slice(&skips);
    numbers[leaves::SKIPS..MAY_CONFLICT].copy_from_slice(&distances);
    numbers[MAY_CONFLICT..COUNTS].copy_from_slice(&listed);
}

// Where the tables for depth d begin: among the flags what the formulas say, and behind it which records are final.
fn flags_from(d: usize) -> usize
    ensures { (result ≡ truths_from d) × (result + set_flags ≤ flag_places) }
{
    leaves::RECORDS + (sheet::MOST_FORMULAS + leaves::RECORDS) * (d % SETS)
}

// Among the numbers how many transitions each record has.
fn counts_from(d: usize) -> usize
    ensures { (result ≡ counts_from d) × (result + most_records ≤ number_places) }
{
    COUNTS + leaves::RECORDS * (d % SETS)
}

// The tables for depth d: what the formulas say, which records are final, and how many transitions each record has.
fn truths_at(flags: &[bool], d: usize) -> &[bool]
    requires { length flags.now ≡ flag_places }
    ensures { result.now ≡ truths_at d flags.now }
{
    let from = flags_from(d);
    &flags[from..from + sheet::MOST_FORMULAS]
}

fn finals_at(flags: &[bool], d: usize) -> &[bool]
    requires { length flags.now ≡ flag_places }
    ensures { result.now ≡ finals_at d flags.now }
{
    let from = flags_from(d) + sheet::MOST_FORMULAS;
    &flags[from..from + leaves::RECORDS]
}

fn counts_at(numbers: &[u32], d: usize) -> &[u32]
    requires { length numbers.now ≡ number_places }
    ensures { result.now ≡ counts_at d numbers.now }
{
    let from = counts_from(d);
    &numbers[from..from + leaves::RECORDS]
}

// Whether a record is final, by the tables that begin at `from`: what the formulas say, and what is told of lower records.
fn final_by(flags: &[bool], from: usize, r: Program, running: bool) -> bool
    requires { «from» + set_flags ≤ length flags.now }
    ensures { result ≡ final_by r (truths_on «from» flags.now) running (finals_on «from» flags.now) }
{
    let middle = from + sheet::MOST_FORMULAS;
    let end = middle + leaves::RECORDS;
    let truths = &flags[from..middle];
    let finals = &flags[middle..end];
    kinds::programs::final_by(r, truths, running, finals)
}

// Looks at the records whose finality depends on the state, and at no others.
fn mark_finals(flags: &mut [bool], from: usize, p: &Programs, skips: &[u32], running: bool)
    requires places { «from» + set_flags ≤ length flags.old }
    requires all_lower { AllLower (records p.now) × Plain (records p.now) }
    requires skips { Skips (records p.now) (size p.now) (finals_on «from» flags.old) skips.now }
    ensures finals { FinalsOn (records p.now) (size p.now) «from» running flags.new }
    ensures written { Only («from» + most_formulas) most_records flags.old flags.new }
    ensures behind { SameFrom (size p.now) (finals_on «from» flags.old) (finals_on «from» flags.new) }
{
    let size = p.places();
    let none = size as u32;
    let to = from + sheet::MOST_FORMULAS;
    let mut i = records::value_in(skips, 0, none) as usize;
    // Kept: no index count: it goes from one record in doubt to the next, by skips.
    while i < size {
        let r = p.record(i);
        let f = final_by(flags, from, r, running);
        flags[to + i] = f;
        i = records::value_in(skips, i + 1, none) as usize;
    }
}

// Fills in what the formulas say in a state, and which records are final, in the tables for depth d.
pub fn judge(flags: &mut [bool], numbers: &[u32], s: &Sheet, st: State, d: usize)
    requires { Prepared s.now flags.old numbers.now }
    ensures tables { Judged s.now st d flags.new numbers.now }
    ensures written { Only (truths_from d) set_flags flags.old flags.new }
{
    let p = programs_of(s);
    let from = flags_from(d);
    let to = from + sheet::MOST_FORMULAS;
    state::fill_truths(s.formulas(), s.found().layout.q, st, &mut flags[from..to]);
    // every record is as it may be, unless that depends on the state
    flags.copy_within(..leaves::RECORDS, to);
    mark_finals(flags, from, &p, &numbers[..leaves::SKIPS], st.running);
}

// Whether the configuration of frame d and the state is final.
pub fn is_final(
    flags: &mut [bool],
    numbers: &[u32],
    work: &[u32],
    s: &Sheet,
    st: State,
    d: usize,
) -> bool
    requires prepared { Prepared s.now flags.old numbers.now }
    requires by_index { (left : ℕ) × (p : Prog) × Frame s.now left work.now d p }
    ensures answer { (left : ℕ) (p : Prog) → Frame s.now left work.now d p → result ≡ is_final s.now (p, st) }
    ensures tables { Prepared s.now flags.new numbers.now }
    ensures written { Filled d d flags.old flags.new numbers.now numbers.now }
{
    judge(flags, numbers, s, st, d);
    ends::final_rest(finals_at(flags, d), work, nodes_from(s, d))
}

// What each formula of the sheet names: made once, since it does not depend on the state.
pub fn formula_sets(s: &Sheet) -> [u32; named::FORMULAS]
    ensures { FormulasNamed s.now result }
{
    named::sets_of(s.formulas(), s.found().layout.q)
}

// What the precondition of each action and the conditions of its effects name, where `sets` has what each formula does.
pub fn action_sets(s: &Sheet, sets: &[u32]) -> [u32; named::ACTIONS]
    requires { FormulasNamed s.now sets.now }
    ensures { ActionsNamed s.now result }
{
    named::action_sets(s.effects(), s.actions(), s.found().layout.a, sets)
}

// Evaluates formula q in the state that was judged at depth d, where `sets` has what each formula names.
pub fn evaluate(flags: &[bool], sets: &[u32], d: usize, q: usize) -> Evaluated
    requires { length flags.now ≡ flag_places }
    ensures { (s numbers : List ℕ) (st : State) → Judged s st d flags.now numbers → FormulasNamed s sets.now → q < (layout_of s).q → result ≡ evaluated s st q }
{
    state::evaluate(truths_at(flags, d), sets, q)
}

// Whether action a is in conflict, by the truths for depth d, and no other.
fn only_conflicted(
    flags: &[bool],
    s: &Sheet,
    d: usize,
    a: usize,
) -> [bool; state::conflicts::ACTIONS]
    requires { (length flags.now ≡ flag_places) × (a < (layout_of s.now).a) }
    ensures { ConflictOf s.now (truths_at d flags.now) a result }
{
    let r = records::action_at(s.actions(), a);
    let mut conflicted = [false; state::conflicts::ACTIONS];
    conflicted[a] = state::conflicts::is_in_conflict(s.effects(), r, truths_at(flags, d));
    conflicted
}

// A possible-check of action a in the state that was judged at depth d, where `sets` has what each action names.
pub fn possible_check(flags: &[bool], sets: &[u32], s: &Sheet, d: usize, a: usize) -> Possibility
    requires { (length flags.now ≡ flag_places) × (a < (layout_of s.now).a) }
    ensures { (numbers : List ℕ) (st : State) → Judged s.now st d flags.now numbers → ActionsNamed s.now sets.now
        → result ≡ possibility s.now st a }
{
    let conflicted = only_conflicted(flags, s, d, a);
    state::possible_check(s.actions(), truths_at(flags, d), &conflicted, sets, a)
}

// Which of the listed actions are in conflict, by the truths for depth d.
fn conflicted_at(
    flags: &[bool],
    numbers: &[u32],
    s: &Sheet,
    d: usize,
) -> [bool; state::conflicts::ACTIONS]
    requires { Prepared s.now flags.now numbers.now }
    ensures { ConflictedAt s.now d flags.now numbers.now result }
{
    state::conflicts::in_conflict(
        s.effects(),
        s.actions(),
        &numbers[MAY_CONFLICT..COUNTS],
        truths_at(flags, d),
    )
}

// Fills in how many transitions each record has in a state, in the tables for depth d.
fn tally(numbers: &mut [u32], flags: &[bool], s: &Sheet, st: State, d: usize)
    requires { Judged s.now st d flags.now numbers.old }
    ensures tables { Surveyed s.now st d flags.now numbers.new }
    ensures written { Only (counts_from d) most_records numbers.old numbers.new }
{
    let p = programs_of(s);
    let first = counts_from(d);
    let last = first + leaves::RECORDS;
    let conflicted = conflicted_at(flags, numbers, s, d);
    leaves::tallies(
        &mut numbers[first..last],
        &p,
        s.actions(),
        truths_at(flags, d),
        &conflicted,
        st.running,
        finals_at(flags, d),
    );
}

// What the tables for depth d say of the remaining program at `at`.
fn total(flags: &[bool], numbers: &[u32], work: &[u32], d: usize, at: usize) -> Totals
    requires { (length flags.now ≡ flag_places) × (length numbers.now ≡ number_places) × Stands work.now at × (length work.now < 2 ^ 32) }
    ensures { (g : Rest) → At g work.now at → Totalled (finals_at d flags.now) (distances_in numbers.now) (counts_at d numbers.now) g result }
{
    ends::total_rest(
        finals_at(flags, d),
        &numbers[leaves::SKIPS..MAY_CONFLICT],
        counts_at(numbers, d),
        work,
        at,
    )
}

fn count_survey(numbers: &mut [u32])
    requires { length numbers.old ≡ number_places }
    ensures written { Only surveys_at 1 numbers.old numbers.new }
    ensures counted { surveys_in numbers.new ≡ (surveys_in numbers.old + 1) % 2 ^ 32 }
{
    numbers[SURVEYS] = numbers[SURVEYS].wrapping_add(1);
}

// How many configurations were surveyed since the tables were prepared, modulo 2^32: what searches have cost. No answer depends on it.
pub fn surveys(numbers: &[u32]) -> u32
    requires { length numbers.now ≡ number_places }
    ensures { result ≡ surveys_in numbers.now }
{
    numbers[SURVEYS]
}

// Surveys the configuration of frame d and the state: the tables for depth d become those of the state.
pub fn survey(
    flags: &mut [bool],
    numbers: &mut [u32],
    work: &[u32],
    s: &Sheet,
    st: State,
    d: usize,
) -> Findings
    requires prepared { Prepared s.now flags.old numbers.old }
    requires by_index { (left : ℕ) × (p : Prog) × Frame s.now left work.now d p }
    ensures answer { (left : ℕ) (p : Prog) → Frame s.now left work.now d p → Tells s.now (p, st) result }
    ensures tables { Surveyed s.now st d flags.new numbers.new }
    ensures written { Filled d d flags.old flags.new numbers.old numbers.new }
{
    judge(flags, numbers, s, st, d);
    tally(numbers, flags, s, st, d);
    count_survey(numbers);
    let totals = total(flags, numbers, work, d, nodes_from(s, d));
    Findings {
        done: totals.done,
        soon: totals.soon,
        first: Cursor {
            next: 0,
            end: totals.count,
        },
    }
}

// The state after a transition, where `truths` has what the formulas say in the state before it.
fn state_after(s: &Sheet, truths: &[bool], entry: u32, st: State) -> State
    requires truths { AreTruths (world_of s.now) st (layout_of s.now).q truths.now }
    requires known { Known (IsAction s.now) (move_of entry) }
    ensures { result ≡ after (world_of s.now) (move_of entry) st }
{
    if entry == steps::TEST {
        return st;
    }
    let n = s.found().layout.f;
    state::perform(s.effects(), s.actions(), n, truths, entry as usize, st)
}

// Whether nothing is ahead of a cursor.
#[tactic(auto, using(crate::proofs::Going::spent_is))]
pub fn is_spent(k: Cursor) -> bool
    ensures { (s : List ℕ) (c : Configuration) (xs : List Transition) → Ahead s c k xs → result ≡ is_none xs }
{
    k.end <= k.next
}

// Lays what the transition at a cursor leaves out in the frame after frame d.
fn lay_next(
    work: &mut [u32],
    flags: &[bool],
    numbers: &[u32],
    s: &Sheet,
    st: State,
    d: usize,
    k: Cursor,
) -> Result<Laid, Passed>
    requires { Surveyed s.now st d flags.now numbers.now × CanGoOn s.now st work.old d k }
    ensures turns { Turns s.now st d k work.old work.new result }
    ensures accepted { Accepts s.now }
{
    let found = s.found();
    let p = programs_of(s);
    let t = Tables {
        programs: &p,
        running: st.running,
        truths: truths_at(flags, d),
        finals: finals_at(flags, d),
        counts: counts_at(numbers, d),
    };
    let at = nodes_from(s, d);
    steps::step_rest(&t, work, at, at + found.frame, k.next)
}

// Makes the next transition from a cursor on into the frame after frame d, or says that there is none.
pub fn next(
    work: &mut [u32],
    flags: &[bool],
    numbers: &[u32],
    s: &Sheet,
    st: State,
    d: usize,
    k: Cursor,
) -> Option<Taken>
    requires { Surveyed s.now st d flags.now numbers.now × CanGoOn s.now st work.old d k }
    ensures { GoesOn s.now st d k work.old work.new result }
{
    if k.end <= k.next {
        return None;
    }
    let turn = lay_next(work, flags, numbers, s, st, d, k);
    let Ok(x) = turn else {
        return None;
    };
    let state = state_after(s, truths_at(flags, d), x.entry, st);
    Some(Taken {
        entry: x.entry,
        state,
        cursor: Cursor {
            next: k.next + 1,
            end: k.end,
        },
    })
}
