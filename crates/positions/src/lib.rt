// Transitions by their positions (specs/Spots.antt): where no counter holds how many there are, a cursor that rises goes through all.
#![tactic(auto)]

ghost use Rattle.std.specs.Prelude.{◌≡◌, true, false, not, cond, ◌&&◌, ℕ, ◌+◌, ◌-◌, ◌/◌, ◌^◌, ◌≤◌, ◌<◌, min, max, T, eqb, length, get_or};
ghost use Rattle.std.specs.Option.{ForSome};
ghost use Rattle.leaves.specs.Running.{records, size};
ghost use Rattle.positions.specs.Spots.{digits_by, apart};
ghost use Rattle.positions.specs.Found.{NextValue, gap_of, CanFork, ForksParts, value_way, ForksValues};
ghost use Rattle.positions.specs.Found.{tables_of, CanLook, ForksRecord, CanGo, FindsWay, FindsRecord};
ghost use Rattle.positions.specs.Levels.{digits_over, digits_of};
ghost use Rattle.golog.specs.Written.{entry_in, program_read};
ghost use Rattle.records.specs.Placeholders.{put, reading};
ghost use Rattle.kinds.specs.Programs.{has_a, has_condition, picks, uses_a, uses_b};
ghost use Rattle.sets.specs.Sets.{member, set_at};
ghost use Rattle.steps.specs.Laid.{InWords};
ghost use Rattle.positions.specs.Read.{Readable};
ghost use Rattle.positions.specs.Placed.{CanPlace, PlacesRecord};

use kinds::programs::{Kind, kind_of};
use leaves::Programs;
use records::{ACTIONS, CHOICES, Program};
use steps::Laid;

// How many environments there are.
pub const ENVIRONMENTS: usize = records::ENVIRONMENTS;

// How many digits a record has, where its parts have da and db.
fn digits_by(r: Program, endable: bool, span: u32, da: u32, db: u32) -> u32
    requires { (da < 2 ^ 31) × (db < 2 ^ 31) }
    ensures { result ≡ digits_by r endable span da db }
{
    match kind_of(r.kind) {
        Some(Kind::Sequence) => da.max(db) + u32::from(endable),
        Some(Kind::Choice | Kind::Together) => da.max(db) + 1,
        Some(Kind::Star | Kind::While | Kind::Iteration | Kind::Interrupt) => da,
        Some(Kind::If | Kind::Over) => da.max(db),
        Some(Kind::Pick) => db + u32::from(span != 1),
        _ => 0,
    }
}

// The same by what is tabled of lower records.
fn digits_over(r: Program, endable: bool, span: u32, digits: &[u32]) -> u32
    requires { (a : ℕ) → get_or digits.now a 0 < 2 ^ 31 }
    ensures { result ≡ digits_over r endable span digits.now }
{
    let da = records::value_in(digits, r.a, 0);
    let db = records::value_in(digits, r.b, 0);
    digits_by(r, endable, span, da, db)
}

// How many digits each record of the table that runs has, where `endable` has those that may be final and `spans` how many values each
// lists: one pass upwards, since a record names lower ones only.
pub fn digits(p: &Programs, endable: &[bool], spans: &[u32]) -> [u32; leaves::RECORDS]
    ensures { result ≡ digits_of (records p.now) (size p.now) endable.now spans.now }
{
    let m = p.places();
    let mut digits = [0u32; leaves::RECORDS];
    for i in 0..m {
        let r = p.record(i);
        let ends = records::value_in(endable, r.a, true);
        digits[i] = digits_over(r, ends, records::value_in(spans, i, 1), &digits);
    }
    digits
}

// The number of record i, read in e.
fn reading_of(i: usize, e: usize) -> usize
    requires { (i < 65536) × (e < 256) }
    ensures { (result ≡ reading i e) × (result < 2 ^ 32) }
{
    ENVIRONMENTS * i + e
}

// The entry of an action, performed in e.
fn entry_in(a: usize, e: usize) -> usize
    requires { (a < 65536) × (e < 256) }
    ensures { (result ≡ entry_in a e) × (result < 2 ^ 32) }
{
    if golog::START <= a {
        a
    } else {
        // an entry of a history is an action's number and as many times the environment as there are actions
        a + ACTIONS * e
    }
}

// The fields of a record, read in e, where it lists `span` values if it chooses one.
#[tactic(auto, unfolding(golog::specs::Written::program_read))]
fn read_a(r: Program, e: usize, span: usize) -> usize
    requires { Readable r e span }
    ensures { (result ≡ (program_read e span r).a) × (result < 2 ^ 32) }
{
    match kind_of(r.kind) {
        None | Some(Kind::Nil) => r.a,
        Some(Kind::Act) => entry_in(r.a, e),
        Some(Kind::Pick) => span,
        _ => reading_of(r.a, e),
    }
}

#[tactic(auto, unfolding(kinds::specs::Programs::field_b, golog::specs::Written::program_read))]
fn read_b(r: Program, e: usize, span: usize) -> usize
    requires { Readable r e span }
    ensures { (result ≡ (program_read e span r).b) × (result < 2 ^ 32) }
{
    if kinds::programs::has_b(r.kind) {
        reading_of(r.b, e)
    } else {
        r.b
    }
}

#[tactic(auto, unfolding(kinds::specs::Programs::field_c, golog::specs::Written::program_read))]
fn read_c(r: Program, e: usize, span: usize) -> usize
    requires { Readable r e span }
    ensures { result ≡ (program_read e span r).c }
{
    match kind_of(r.kind) {
        Some(Kind::If | Kind::While | Kind::Interrupt) => reading_of(r.c, e),
        _ => r.c,
    }
}

// Record r, read in e.
fn read(r: Program, e: usize, span: usize) -> Program
    requires { Readable r e span }
    ensures { (result ≡ program_read e span r) × InWords result }
{
    Program {
        kind: r.kind,
        a: read_a(r, e, span),
        b: read_b(r, e, span),
        c: read_c(r, e, span),
    }
}

// The environment with v in placeholder c.
fn put_value(e: usize, c: usize, v: usize) -> usize
    requires { e < 256 }
    ensures { (result ≡ put e c v) × (result < 256) }
{
    match c {
        0 => v % CHOICES + CHOICES * (e / CHOICES),
        _ => e % CHOICES + CHOICES * (v % CHOICES),
    }
}

// Whether record i, read in e, is final; whether it has a transition.
pub fn final_in(table: &[u32], i: usize, e: usize) -> bool
    requires { (8256 ≤ length table.now) × (i < 260) × (e < 256) }
    ensures { result ≡ member (set_at table.now (512 + i)) e }
{
    sets::has_in(table, enabled::FINAL + i, e)
}

pub fn enabled_in(table: &[u32], i: usize, e: usize) -> bool
    requires { (8256 ≤ length table.now) × (i < 260) × (e < 256) }
    ensures { result ≡ member (set_at table.now (772 + i)) e }
{
    sets::has_in(table, enabled::ENABLED + i, e)
}

// How far apart the parts of a record of d digits stand.
fn apart_of(d: usize) -> u64
    requires { d ≤ 16 }
    ensures { (result ≡ apart d) × (0 < result) × (result ≤ 2 ^ 60) }
{
    1 << (4 * d.saturating_sub(1))
}

// Where a search goes on: to the transitions of record i, read in e, from position k on, which stand `base` further on.
#[derive(Clone, Copy, Debug, PartialEq, Eq)]
pub struct Way {
    pub i: usize,
    pub e: usize,
    pub k: u64,
    pub base: u64,
}

// What ways are found by: the table that runs and whether interrupts do, how many values each record lists, its digits, and the sets of a
// state: where its formulas hold, and which records are final and have a transition.
#[derive(Clone, Copy)]
pub struct Tables<'a> {
    pub programs: &'a Programs<'a>,
    pub running: bool,
    pub spans: &'a [u32],
    pub digits: &'a [u32],
    pub table: &'a [u32],
}

// A record, and its one way, then the other, where it goes them.
#[derive(Clone, Copy, Debug, PartialEq, Eq)]
pub struct Fork {
    pub r: Program,
    pub first: Option<Way>,
    pub second: Option<Way>,
}

// The least value from v on, below n, with which record b has a transition, read in e with the value in placeholder c.
fn next_value(table: &[u32], b: usize, e: usize, c: usize, v: usize, n: usize) -> Option<usize>
    requires { (8256 ≤ length table.now) × (b < 260) × (e < 256) × (n ≤ 16) }
    ensures { NextValue (λ (u : ℕ). member (set_at table.now (772 + b)) (put e c u)) v n result }
{
    (v..n).find(|&w| enabled_in(table, b, put_value(e, c, w)))
}

// Whether the condition of record r, where it has one, holds in e.
#[tactic(auto, unfolding(kinds::specs::Programs::field_c))]
fn condition(r: Program, table: &[u32], e: usize) -> bool
    requires { (8256 ≤ length table.now) × (T (has_condition r.kind) → r.c < 512) × (e < 256) }
    ensures { T (has_condition r.kind) → result ≡ member (set_at table.now r.c) e }
{
    match kind_of(r.kind) {
        Some(Kind::If | Kind::While | Kind::Interrupt) => sets::has_in(table, r.c, e),
        _ => false,
    }
}

// Whether part a goes, and has a transition, where h says whether the condition holds.
#[tactic(auto, unfolding(kinds::specs::Programs::field_a, kinds::specs::Programs::uses_a))]
fn goes_a(r: Program, h: bool, running: bool, table: &[u32], e: usize) -> bool
    requires { (8256 ≤ length table.now) × (T (has_a r.kind) → r.a < 260) × (e < 256) }
    ensures { result ≡ (uses_a r.kind h running && member (set_at table.now (772 + r.a)) e) }
{
    kinds::programs::uses_a(r.kind, h, running) && enabled_in(table, r.a, e)
}

// Whether part b goes.
#[tactic(auto, unfolding(kinds::specs::Programs::field_a, kinds::specs::Programs::uses_b))]
fn goes_b(r: Program, h: bool, table: &[u32], e: usize) -> bool
    requires { (8256 ≤ length table.now) × (T (has_a r.kind) → r.a < 260) × (e < 256) }
    ensures { result ≡ uses_b r.kind (member (set_at table.now (512 + r.a)) e) h (not (member (set_at table.now (772 + r.a)) e)) }
{
    match kind_of(r.kind) {
        Some(Kind::Sequence) => final_in(table, r.a, e),
        Some(Kind::Choice | Kind::Together) => true,
        Some(Kind::If) => !h,
        Some(Kind::Over) => !enabled_in(table, r.a, e),
        _ => false,
    }
}

// How far part b stands from part a, where it goes: a record whose two parts may both go has them apart.
fn gap(kind: usize, goes: bool, d: usize) -> u64
    requires { d ≤ 16 }
    ensures { result ≡ gap_of kind goes d }
{
    match kind_of(kind) {
        Some(Kind::Sequence | Kind::Choice | Kind::Together) if goes => apart_of(d),
        _ => 0,
    }
}

// The ways of a record that chooses no value.
fn fork_parts(r: Program, running: bool, d: usize, table: &[u32], e: usize, k: u64) -> Fork
    requires { CanFork r d e table.now }
    ensures { ForksParts r running d e k table.now result }
{
    let h = condition(r, table, e);
    let a = goes_a(r, h, running, table, e);
    let b = goes_b(r, h, table, e);
    let by = gap(r.kind, b, d);
    let first = Way {
        i: r.a,
        e,
        k,
        base: 0,
    };
    let second = Way {
        i: r.b,
        e,
        k: k.saturating_sub(by),
        base: by,
    };
    Fork {
        r,
        first: (a & ((by == 0) | (k < by))).then_some(first),
        second: b.then_some(second),
    }
}

// The way of value u of a choice.
fn value_way(r: Program, e: usize, u: usize, k: u64, by: u64) -> Way
    requires { (u < 16) × (e < 256) × (by ≤ 2 ^ 60) }
    ensures { result ≡ value_way r e u k by }
{
    Way {
        i: r.b,
        e: put_value(e, r.c, u),
        k,
        base: u as u64 * by,
    }
}

// The ways of a choice between n values.
fn fork_values(r: Program, n: usize, d: usize, table: &[u32], e: usize, k: u64) -> Fork
    requires can_fork { CanFork r d e table.now }
    requires n_bound { (n ≤ 16) × (r.b < 260) }
    ensures { ForksValues r n d e k (λ (u : ℕ). member (set_at table.now (772 + r.b)) (put e r.c u)) result }
{
    if n == 1 {
        return Fork {
            r,
            first: Some(value_way(r, e, 0, k, 1)),
            second: None,
        };
    }
    let by = apart_of(d);
    let v = (k / by).min(CHOICES as u64) as usize;
    let first = (v < n).then(|| value_way(r, e, v, k % by, by));
    let second = next_value(table, r.b, e, r.c, v + 1, n).map(|w| value_way(r, e, w, 0, by));
    Fork { r, first, second }
}

// Whether a record chooses a value.
fn picks(kind: usize) -> bool
    ensures { result ≡ picks kind }
{
    kind_of(kind) == Some(Kind::Pick)
}

// The ways of record i, read in e, from position k on.
fn ways(t: &Tables, i: usize, e: usize, k: u64) -> Fork
    requires { CanLook (tables_of t.now) i e }
    ensures { ForksRecord (tables_of t.now) i e k result }
{
    let r = t.programs.record(i);
    let d = records::value_in(t.digits, i, 0) as usize;
    if picks(r.kind) {
        let n = records::value_in(t.spans, i, 1) as usize;
        return fork_values(r, n, d, t.table, e, k);
    }
    fork_parts(r, t.running, d, t.table, e, k)
}

// The position of the first transition that a way leads to: straight down, since a record that has none is passed by at once.
fn find_way(t: &Tables, way: Option<Way>) -> Option<u64>
    requires { ForSome way (CanGo (tables_of t.now)) }
    ensures { FindsWay (tables_of t.now) way result }
{
    let w = way?;
    if !enabled_in(t.table, w.i, w.e) {
        return None;
    }
    let f = ways(t, w.i, w.e, w.k);
    if kinds::programs::has_own(f.r.kind) {
        return (w.k == 0).then_some(w.base);
    }
    if let Some(at) = find_way(t, f.first) {
        return Some(w.base + at);
    }
    let at = find_way(t, f.second)?;
    Some(w.base + at)
}

// The position of the first transition of record i, read in e, at k or later.
pub fn find_record(t: &Tables, i: usize, e: usize, k: u64) -> Option<u64>
    requires { CanLook (tables_of t.now) i e }
    ensures { FindsRecord (tables_of t.now) i e k result }
{
    let w = Way { i, e, k, base: 0 };
    find_way(t, Some(w))
}

// Lays out the transition of record i, read in e, at position k: its own, or the one that its ways lead to. What stands beside what it leaves
// is read in e too, so that it does not see a value chosen below.
pub fn lay_record(t: &Tables, work: &mut [u32], i: usize, e: usize, to: usize, k: u64) -> Laid
    requires { CanPlace (tables_of t.now) work.old i e to k }
    ensures { PlacesRecord (tables_of t.now) i e k to work.old work.new result.entry result.size }
{
    let f = ways(t, i, e, k);
    let r = read(f.r, e, records::value_in(t.spans, i, 1) as usize);
    if kinds::programs::has_own(r.kind) {
        return steps::lay_own(work, to, r);
    }
    if let Some(w) = f.first {
        let at = to + steps::past_words(kinds::programs::tag_a(r.kind) == 0, 3);
        let x = lay_record(t, work, w.i, w.e, at, w.k);
        return steps::wrap_a(work, to, r, reading_of(i, e), x);
    }
    let w = f.second.unwrap();
    let at = to + steps::past_words(kinds::programs::tag_b(r.kind) == 0, 6);
    let x = lay_record(t, work, w.i, w.e, at, w.k);
    steps::wrap_b(work, to, r, x)
}
