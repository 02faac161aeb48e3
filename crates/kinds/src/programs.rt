// What each kind of program record is and does (specs/Programs.antt, whose columns have a place for each kind): a function for each
// column that is asked for. Tables are read in the arms, so that a kind reads no more than it uses.
ghost use Rattle.std.specs.Prelude.{◌≡◌, true, not, cond, ◌&&◌, ◌||◌, ◌+◌, ◌^◌, ◌<◌, get_or};
ghost use Rattle.kinds.specs.Programs.{kind_of, field_a, field_b, field_c, field_ok, program_ok, has_a, has_b, acts};
ghost use Rattle.kinds.specs.Programs.{final_by, final_bound_by, distance_by, has_own, uses_a, tag_a, loops, tag_b, count_by, first_by};

use records::Program;

// What a program record does (document 01, "Program"; document 02, F-6).
#[derive(Clone, Copy, Debug, PartialEq, Eq)]
pub enum Kind {
    Nil,
    Act,
    Test,
    Sequence,
    Choice,
    Star,
    If,
    While,
    Together,
    Over,
    Iteration,
    Interrupt,
    Pick,
}

// The kind of a number.
pub fn kind_of(number: usize) -> Option<Kind>
    ensures { result ≡ kind_of number }
{
    match number {
        0 => Some(Kind::Nil),
        1 => Some(Kind::Act),
        2 => Some(Kind::Test),
        3 => Some(Kind::Sequence),
        4 => Some(Kind::Choice),
        5 => Some(Kind::Star),
        6 => Some(Kind::If),
        7 => Some(Kind::While),
        8 => Some(Kind::Together),
        9 => Some(Kind::Over),
        10 => Some(Kind::Iteration),
        11 => Some(Kind::Interrupt),
        12 => Some(Kind::Pick),
        _ => None,
    }
}

// What a field of a program record is: an action, a formula, a lower record, how many values are chosen from, a placeholder.
// Kept: one enum for the fields of formulas and of program records would have roles that only one of them has, each with a test in both.
#[derive(Clone, Copy, Debug, PartialEq, Eq)]
pub enum Field {
    Unused,
    Action,
    Formula,
    Record,
    Choices,
    Placeholder,
}

#[tactic(auto, unfolding(crate::specs::Programs::field_a))]
fn field_a(kind: usize) -> Field
    ensures { result ≡ field_a kind }
{
    match kind_of(kind) {
        None | Some(Kind::Nil) => Field::Unused,
        Some(Kind::Act) => Field::Action,
        Some(Kind::Test) => Field::Formula,
        Some(Kind::Pick) => Field::Choices,
        _ => Field::Record,
    }
}

#[tactic(auto, unfolding(crate::specs::Programs::field_b))]
fn field_b(kind: usize) -> Field
    ensures { result ≡ field_b kind }
{
    match kind_of(kind) {
        Some(Kind::Sequence | Kind::Choice | Kind::If | Kind::Together | Kind::Over | Kind::Pick) =>
            Field::Record,
        _ => Field::Unused,
    }
}

#[tactic(auto, unfolding(crate::specs::Programs::field_c))]
fn field_c(kind: usize) -> Field
    ensures { result ≡ field_c kind }
{
    match kind_of(kind) {
        Some(Kind::If | Kind::While | Kind::Interrupt) => Field::Formula,
        Some(Kind::Pick) => Field::Placeholder,
        _ => Field::Unused,
    }
}

fn field_ok(nq: usize, na: usize, i: usize, field: Field, x: usize) -> bool
    ensures { result ≡ field_ok nq na i field x }
{
    match field {
        Field::Unused => x == 0,
        Field::Action => x < na,
        Field::Formula => x < nq,
        Field::Record => x < i,
        Field::Choices => (0 < x) & (x <= records::CHOICES),
        Field::Placeholder => x < records::PLACEHOLDERS,
    }
}

// The last kind of program record that a sheet has.
// Kept: a number to compare with, as `program_ok` is defined: a kind that has a name may be one that sheets do not have yet.
const LAST_KIND: usize = Kind::Interrupt as usize;

// Whether program record i keeps its rule, where there are nq formulas and na actions.
#[tactic(auto, unfolding(crate::specs::Programs::program_ok))]
pub fn program_ok(nq: usize, na: usize, i: usize, r: Program) -> bool
    ensures { result ≡ program_ok nq na i r }
{
    (r.kind <= LAST_KIND)
        & field_ok(nq, na, i, field_a(r.kind), r.a)
        & field_ok(nq, na, i, field_b(r.kind), r.b)
        & field_ok(nq, na, i, field_c(r.kind), r.c)
}

// Whether part a, part b is a program record.
pub fn has_a(kind: usize) -> bool
    ensures { result ≡ has_a kind }
{
    field_a(kind) == Field::Record
}

pub fn has_b(kind: usize) -> bool
    ensures { result ≡ has_b kind }
{
    field_b(kind) == Field::Record
}

// Whether it performs an action.
#[tactic(auto, unfolding(crate::specs::Programs::field_a))]
pub fn acts(kind: usize) -> bool
    ensures { result ≡ acts kind }
{
    kind_of(kind) == Some(Kind::Act)
}

// Whether it has a transition of its own, and so no other.
#[tactic(auto, unfolding(crate::specs::Programs::field_a))]
pub fn has_own(kind: usize) -> bool
    ensures { result ≡ has_own kind }
{
    matches!(kind_of(kind), Some(Kind::Act | Kind::Test))
}

fn both_final(finals: &[bool], a: usize, b: usize) -> bool
    ensures { result ≡ (get_or finals.now a true && get_or finals.now b true) }
{
    records::value_in(finals, a, true) & records::value_in(finals, b, true)
}

fn either_final(finals: &[bool], a: usize, b: usize) -> bool
    ensures { result ≡ (get_or finals.now a true || get_or finals.now b true) }
{
    records::value_in(finals, a, true) | records::value_in(finals, b, true)
}

fn choice(h: bool, fa: bool, fb: bool) -> bool
    ensures { result ≡ (h && fa || not h && fb) }
{
    h & fa | !h & fb
}

// Whether a record is final, by what the formulas say and by what is tabled of lower records.
#[tactic(auto, unfolding(crate::specs::Programs::final_of, crate::specs::Programs::final_by))]
pub fn final_by(r: Program, truths: &[bool], running: bool, finals: &[bool]) -> bool
    ensures { result ≡ final_by r truths.now running finals.now }
{
    match kind_of(r.kind) {
        Some(Kind::Act | Kind::Test) => false,
        Some(Kind::Sequence | Kind::Together | Kind::Over) => both_final(finals, r.a, r.b),
        Some(Kind::Choice) => either_final(finals, r.a, r.b),
        Some(Kind::If) => choice(
            records::value_in(truths, r.c, false),
            records::value_in(finals, r.a, true),
            records::value_in(finals, r.b, true),
        ),
        Some(Kind::While) => !records::value_in(truths, r.c, false)
            | records::value_in(finals, r.a, true),
        Some(Kind::Interrupt) => {
            !running | records::value_in(truths, r.c, false) & records::value_in(finals, r.a, true)
        }
        Some(Kind::Pick) => records::value_in(finals, r.b, true),
        _ => true,
    }
}

// By what is tabled of lower records: with `most`, whether a record may be final in some state; without, whether it is in every one.
#[tactic(auto, unfolding(crate::specs::Programs::final_bound_of, crate::specs::Programs::final_bound_by))]
pub fn final_bound_by(r: Program, most: bool, marks: &[bool]) -> bool
    ensures { result ≡ final_bound_by r most marks.now }
{
    match kind_of(r.kind) {
        Some(Kind::Act | Kind::Test) => false,
        Some(Kind::Sequence | Kind::Together | Kind::Over) => both_final(marks, r.a, r.b),
        Some(Kind::Choice) => either_final(marks, r.a, r.b),
        Some(Kind::If) => both_final(marks, r.a, r.b) | most & either_final(marks, r.a, r.b),
        Some(Kind::While) => most | records::value_in(marks, r.a, true),
        Some(Kind::Interrupt) => most,
        Some(Kind::Pick) => records::value_in(marks, r.b, true),
        _ => true,
    }
}

// Whether the transitions of part a are among a record's own, where h says whether its c holds.
#[tactic(auto, unfolding(crate::specs::Programs::uses_a))]
pub fn uses_a(kind: usize, h: bool, running: bool) -> bool
    ensures { result ≡ uses_a kind h running }
{
    match kind_of(kind) {
        Some(
            Kind::Sequence
            | Kind::Choice
            | Kind::Star
            | Kind::Together
            | Kind::Over
            | Kind::Iteration,
        ) => true,
        Some(Kind::If | Kind::While) => h,
        Some(Kind::Interrupt) => running & h,
        _ => false,
    }
}

// The kind of the construct that what part a leaves stands in; 0 where it stands alone.
#[tactic(auto, unfolding(crate::specs::Programs::tag_a))]
pub fn tag_a(kind: usize) -> u32
    ensures { result ≡ tag_a kind }
{
    match kind_of(kind) {
        Some(Kind::Sequence | Kind::Star | Kind::While | Kind::Interrupt) => Kind::Sequence as u32,
        Some(Kind::Together | Kind::Iteration) => Kind::Together as u32,
        Some(Kind::Over) => Kind::Over as u32,
        _ => 0,
    }
}

// Whether the record itself stands beside what part a leaves, and not its part b.
#[tactic(auto, unfolding(crate::specs::Programs::loops))]
pub fn loops(kind: usize) -> bool
    ensures { result ≡ loops kind }
{
    matches!(
        kind_of(kind),
        Some(Kind::Star | Kind::While | Kind::Iteration | Kind::Interrupt)
    )
}

// The kind of the construct that what part b leaves stands in; 0 where it stands alone.
#[tactic(auto, unfolding(crate::specs::Programs::tag_b))]
pub fn tag_b(kind: usize) -> u32
    ensures { result ≡ tag_b kind }
{
    match kind_of(kind) {
        Some(Kind::Together) => Kind::Together as u32,
        Some(Kind::Over) => Kind::Over as u32,
        _ => 0,
    }
}

// How many transitions part a has, where they count.
fn part(counts: &[u32], a: usize, goes: bool) -> u64
    ensures { (result ≡ cond goes (get_or counts.now a 0) 0) × (result < 2 ^ 32) }
{
    if goes {
        u64::from(records::value_in(counts, a, 0))
    } else {
        0
    }
}

// How many parts a and b have, those of b where they count.
fn both_if(counts: &[u32], a: usize, b: usize, goes: bool) -> u64
    ensures { result ≡ get_or counts.now a 0 + cond goes (get_or counts.now b 0) 0 }
{
    part(counts, a, true) + part(counts, b, goes)
}

// How many the one of two parts that is picked has.
fn either(counts: &[u32], a: usize, b: usize, first: bool) -> u64
    ensures { result ≡ cond first (get_or counts.now a 0) (get_or counts.now b 0) }
{
    part(counts, if first { a } else { b }, true)
}

// How many transitions a record has, where `can` says whether its action is possible: its own, and those of the parts that it uses.
#[tactic(auto, unfolding(crate::specs::Programs::count_of, crate::specs::Programs::count_by))]
pub fn count_by(
    r: Program,
    can: bool,
    truths: &[bool],
    running: bool,
    finals: &[bool],
    counts: &[u32],
) -> u64
    ensures { result ≡ count_by r can truths.now running finals.now counts.now }
{
    match kind_of(r.kind) {
        Some(Kind::Act) => u64::from(can),
        Some(Kind::Test) => u64::from(records::value_in(truths, r.a, false)),
        Some(Kind::Sequence) => both_if(counts, r.a, r.b, records::value_in(finals, r.a, true)),
        Some(Kind::Choice | Kind::Together) => both_if(counts, r.a, r.b, true),
        Some(Kind::Star | Kind::Iteration) => part(counts, r.a, true),
        Some(Kind::If) => either(counts, r.a, r.b, records::value_in(truths, r.c, false)),
        Some(Kind::While) => part(counts, r.a, records::value_in(truths, r.c, false)),
        Some(Kind::Over) => both_if(counts, r.a, r.b, records::value_in(counts, r.a, 0) == 0),
        Some(Kind::Interrupt) => part(counts, r.a, running & records::value_in(truths, r.c, false)),
        _ => 0,
    }
}

// How many of them are those of its part a: they come first.
#[tactic(auto, unfolding(crate::specs::Programs::first_by))]
pub fn first_by(r: Program, truths: &[bool], running: bool, counts: &[u32]) -> usize
    ensures { (result ≡ first_by r truths.now running counts.now) × (result < 2 ^ 32) }
{
    let goes = uses_a(r.kind, records::value_in(truths, r.c, false), running);
    part(counts, r.a, goes) as usize
}

// How far a record is from its end at least, in transitions and whatever the states, by what is tabled of lower records.
#[tactic(auto, unfolding(crate::specs::Programs::distance_of, crate::specs::Programs::distance_by))]
pub fn distance_by(r: Program, distances: &[u32]) -> u64
    ensures { result ≡ distance_by r distances.now }
{
    match kind_of(r.kind) {
        Some(Kind::Act | Kind::Test) => 1,
        Some(Kind::Sequence | Kind::Together | Kind::Over) => both_if(distances, r.a, r.b, true),
        Some(Kind::Choice | Kind::If) => part(distances, r.a, true).min(part(distances, r.b, true)),
        Some(Kind::Pick) => part(distances, r.b, true),
        _ => 0,
    }
}
