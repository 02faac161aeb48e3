// For a state, the environments in which each program record is final, and in which it is enabled, which is to have a transition: sets made
// upwards, one pass, in the table that has the environments in which formulas hold and actions are possible. And, told once of a sheet, how
// many values are listed where a record chooses one.
#![tactic(auto)]

ghost use Rattle.std.specs.Prelude.{◌≡◌, true, false, not, cond, ◌&&◌, ◌||◌, ℕ, ◌*◌, ◌≤◌, ◌<◌, length, get_or};
ghost use Rattle.records.specs.Records.{TwoBytes};
ghost use Rattle.sets.specs.Sets.{member, Has, set_at};
ghost use Rattle.golog.specs.World.{start};
ghost use Rattle.golog.specs.Written.{sees_of};
ghost use Rattle.state.specs.Conflicts.{most_actions};
ghost use Rattle.remaining.specs.Extended.{most_records};
ghost use Rattle.leaves.specs.Running.{records, size};
ghost use Rattle.enabled.specs.Spans.{seeing_of, span_by, spans_of};
ghost use Rattle.enabled.specs.Filled.{most_formulas, final_set, enabled_set, table_sets, valuation_by, Readable};
ghost use Rattle.enabled.specs.Filled.{BothFinal, EitherEnabled, FinalBy, EnabledBy, Fillable, Filled, FinalsFilled};

use kinds::programs::{Kind, kind_of};
use leaves::Programs;
use records::Program;

// The sets of a table: first the formulas', then these.
pub const FINAL: usize = 512;

pub const ENABLED: usize = 772;

pub const POSSIBLE: usize = 1032;

// All of them.
pub const SETS: usize = 1096;

fn either_in(marks: &[bool], a: usize, b: usize) -> bool
    ensures { result ≡ (get_or marks.now a false || get_or marks.now b false) }
{
    records::value_in(marks, a, false) | records::value_in(marks, b, false)
}

// Whether a record sees placeholder c, where `lower` says which lower records do.
fn sees_by(r: Program, c: usize, lower: &[bool]) -> bool
    ensures { result ≡ sees_of r c lower.now }
{
    match kind_of(r.kind) {
        Some(Kind::Act | Kind::Test | Kind::If | Kind::While | Kind::Interrupt) => true,
        Some(Kind::Sequence | Kind::Choice | Kind::Together | Kind::Over) => either_in(
            lower, r.a, r.b,
        ),
        Some(Kind::Star | Kind::Iteration) => records::value_in(lower, r.a, false),
        Some(Kind::Pick) => records::value_in(lower, r.b, false) & (r.c != c),
        None | Some(Kind::Nil) => false,
    }
}

// Which records of the table that runs see placeholder c.
fn seeing(p: &Programs, c: usize) -> [bool; leaves::RECORDS]
    ensures { result ≡ seeing_of (records p.now) (size p.now) c }
{
    let m = p.places();
    let mut marks = [false; leaves::RECORDS];
    for i in 0..m {
        let r = p.record(i);
        marks[i] = sees_by(r, c, &marks);
    }
    marks
}

// How many values a record lists: one, which stands for all, unless it chooses (`Kind::Pick`) and its part sees them. `first` and `second` have the
// records that see placeholders 0 and 1.
fn span_by(r: Program, first: &[bool], second: &[bool]) -> u32
    requires { TwoBytes r }
    ensures { result ≡ span_by r first.now second.now }
{
    let seeing = if r.c == 0 { first } else { second };
    if (kind_of(r.kind) == Some(Kind::Pick)) & records::value_in(seeing, r.b, false) {
        return r.a as u32;
    }
    1
}

// How many values are listed for each record of the table that runs, where it chooses one.
pub fn spans(p: &Programs) -> [u32; leaves::RECORDS]
    ensures { result ≡ spans_of (records p.now) (size p.now) }
{
    let m = p.places();
    let first = seeing(p, 0);
    let second = seeing(p, 1);
    let mut spans = [0u32; leaves::RECORDS];
    for i in 0..m {
        let r = p.record(i);
        spans[i] = span_by(r, &first, &second);
    }
    spans
}

// Where record i is final.
fn final_at(table: &[u32], i: usize) -> [u32; sets::WORDS]
    requires { (8 * table_sets ≤ length table.now) × (i < most_records) }
    ensures { result ≡ set_at table.now (final_set i) }
{
    sets::set_at(table, FINAL + i)
}

// Where record i is enabled.
fn enabled_at(table: &[u32], i: usize) -> [u32; sets::WORDS]
    requires { (8 * table_sets ≤ length table.now) × (i < most_records) }
    ensures { result ≡ set_at table.now (enabled_set i) }
{
    sets::set_at(table, ENABLED + i)
}

// Where formula q holds.
fn holding_at(table: &[u32], q: usize) -> [u32; sets::WORDS]
    requires { (8 * table_sets ≤ length table.now) × (q < most_formulas) }
    ensures { result ≡ set_at table.now q }
{
    sets::set_at(table, q)
}

// Where action a is possible.
fn possible_at(table: &[u32], a: usize) -> [u32; sets::WORDS]
    requires { (8 * table_sets ≤ length table.now) × (a < start → a < most_actions) }
    ensures { Has ((valuation_by table.now).possible a) result }
{
    if golog::START <= a {
        return sets::whole(true);
    }
    sets::set_at(table, POSSIBLE + a)
}

// Where h has x, and elsewhere y.
fn branch(h: [u32; sets::WORDS], x: [u32; sets::WORDS], y: [u32; sets::WORDS]) -> [u32; sets::WORDS]
    ensures { Has (λ (e : ℕ). member h e && member x e || not (member h e) && member y e) result }
{
    sets::either(sets::both(h, x), sets::without(y, h))
}

// Both h and x where interrupts run, and else all or none.
fn while_running(
    running: bool,
    h: [u32; sets::WORDS],
    x: [u32; sets::WORDS],
    other: bool,
) -> [u32; sets::WORDS]
    ensures { Has (λ (e : ℕ). cond running (member h e && member x e) other) result }
{
    if running {
        sets::both(h, x)
    } else {
        sets::whole(other)
    }
}

// Where records a and b are both final.
fn both_final(table: &[u32], a: usize, b: usize) -> [u32; sets::WORDS]
    requires { (8 * table_sets ≤ length table.now) × (a < most_records) × (b < most_records) }
    ensures { BothFinal table.now a b result }
{
    sets::both(final_at(table, a), final_at(table, b))
}

// Where record a or b is enabled, or with `after` b after a, which has to be final.
fn either_enabled(table: &[u32], a: usize, b: usize, after: bool) -> [u32; sets::WORDS]
    requires { (8 * table_sets ≤ length table.now) × (a < most_records) × (b < most_records) }
    ensures { EitherEnabled table.now a b after result }
{
    let x = enabled_at(table, a);
    let y = enabled_at(table, b);
    if after {
        return sets::either(x, sets::both(final_at(table, a), y));
    }
    sets::either(x, y)
}

// Where a record is final, by the sets of lower ones, where n values are listed for it if it chooses one.
#[tactic(auto, unfolding(kinds::specs::Programs::field_a, kinds::specs::Programs::field_b, kinds::specs::Programs::field_c, kinds::specs::Programs::final_of, crate::specs::Enabled::final_in))]
fn final_set(r: Program, n: usize, running: bool, table: &[u32]) -> [u32; sets::WORDS]
    requires { Readable table.now n r }
    ensures { FinalBy table.now running n r result }
{
    match kind_of(r.kind) {
        Some(Kind::Act | Kind::Test) => sets::whole(false),
        Some(Kind::Sequence | Kind::Together | Kind::Over) => both_final(table, r.a, r.b),
        Some(Kind::Choice) => sets::either(final_at(table, r.a), final_at(table, r.b)),
        Some(Kind::If) => branch(
            holding_at(table, r.c),
            final_at(table, r.a),
            final_at(table, r.b),
        ),
        Some(Kind::While) => sets::either(
            sets::others(holding_at(table, r.c)),
            final_at(table, r.a),
        ),
        Some(Kind::Interrupt) => while_running(
            running,
            holding_at(table, r.c),
            final_at(table, r.a),
            true,
        ),
        Some(Kind::Pick) => sets::some(final_at(table, r.b), r.c, n),
        _ => sets::whole(true),
    }
}

// Where it is enabled.
#[tactic(auto, unfolding(kinds::specs::Programs::field_a, kinds::specs::Programs::field_b, kinds::specs::Programs::field_c, crate::specs::Enabled::enabled_of, crate::specs::Enabled::enabled_in))]
fn enabled_set(r: Program, n: usize, running: bool, table: &[u32]) -> [u32; sets::WORDS]
    requires { Readable table.now n r }
    ensures { EnabledBy table.now running n r result }
{
    match kind_of(r.kind) {
        Some(Kind::Act) => possible_at(table, r.a),
        Some(Kind::Test) => holding_at(table, r.a),
        Some(Kind::Sequence) => either_enabled(table, r.a, r.b, true),
        Some(Kind::Choice | Kind::Together | Kind::Over) => either_enabled(table, r.a, r.b, false),
        Some(Kind::Star | Kind::Iteration) => enabled_at(table, r.a),
        Some(Kind::If) => branch(
            holding_at(table, r.c),
            enabled_at(table, r.a),
            enabled_at(table, r.b),
        ),
        Some(Kind::While) => sets::both(holding_at(table, r.c), enabled_at(table, r.a)),
        Some(Kind::Interrupt) => while_running(
            running,
            holding_at(table, r.c),
            enabled_at(table, r.a),
            false,
        ),
        Some(Kind::Pick) => sets::some(enabled_at(table, r.b), r.c, n),
        _ => sets::whole(false),
    }
}

// Fills in where each record of the table that runs is final, and with `goes` where it is enabled, in the state of which the sets of formulas and
// of actions tell, whatever stood there: one pass upwards, since a record names lower ones only.
// Kept: `goes` is a flag and no closure, which would have to say in its clauses what it reads of the table and puts into it.
fn fill_sets(p: &Programs, running: bool, spans: &[u32], table: &mut [u32], goes: bool)
    requires { Fillable (records p.now) (size p.now) spans.now table.old }
    ensures all { goes ≡ true → Filled (records p.now) (size p.now) running table.old table.new }
    ensures ends { goes ≡ false → FinalsFilled (records p.now) (size p.now) running table.old table.new }
{
    let m = p.places();
    for i in 0..m {
        let r = p.record(i);
        let k = spans[i] as usize;
        let ends = final_set(r, k, running, table);
        if goes {
            let starts = enabled_set(r, k, running, table);
            sets::put_set(table, ENABLED + i, starts);
        }
        sets::put_set(table, FINAL + i, ends);
    }
}

// Fills in where each record is final and where it is enabled.
pub fn fill(p: &Programs, running: bool, spans: &[u32], table: &mut [u32])
    requires { Fillable (records p.now) (size p.now) spans.now table.old }
    ensures { Filled (records p.now) (size p.now) running table.old table.new }
{
    fill_sets(p, running, spans, table, true)
}

// Fills in where each record is final, and not where it is enabled: for a state of which no more is asked.
pub fn fill_finals(p: &Programs, running: bool, spans: &[u32], table: &mut [u32])
    requires { Fillable (records p.now) (size p.now) spans.now table.old }
    ensures { FinalsFilled (records p.now) (size p.now) running table.old table.new }
{
    fill_sets(p, running, spans, table, false)
}
