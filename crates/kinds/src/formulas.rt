// What each kind of formula is (specs/Formulas.antt), says (specs/Truth.antt) and names (specs/Names.antt, specs/Sets.antt): a function for each column that is asked for.
ghost use Rattle.std.specs.Prelude.{◌≡◌, T};
ghost use Rattle.kinds.specs.Truth.{truth_of};
ghost use Rattle.kinds.specs.Sets.{bit_of, set_of};
ghost use Rattle.kinds.specs.Formulas.{kind_of, field_x, field_a, field_b, field_ok, formula_ok, asks_value, is_plain};

use records::Formula;

// What a formula says of the values of fluents (document 01, "Formula"; document 02, F-6).
#[derive(Clone, Copy, Debug, PartialEq, Eq)]
pub enum Kind {
    True,
    False,
    HasValue,
    LessThan,
    EqualValues,
    Not,
    And,
    Or,
    EqualsPlaceholder,
    ForSome,
    ForEvery,
}

// The kind of a number.
pub fn kind_of(number: usize) -> Option<Kind>
    ensures { result ≡ kind_of number }
{
    match number {
        0 => Some(Kind::True),
        1 => Some(Kind::False),
        2 => Some(Kind::HasValue),
        3 => Some(Kind::LessThan),
        4 => Some(Kind::EqualValues),
        5 => Some(Kind::Not),
        6 => Some(Kind::And),
        7 => Some(Kind::Or),
        8 => Some(Kind::EqualsPlaceholder),
        9 => Some(Kind::ForSome),
        10 => Some(Kind::ForEvery),
        _ => None,
    }
}

// What a field of a formula is: a fluent, one of its values, a number up to its size, a lower formula, a placeholder, how many values are
// gone through.
#[derive(Clone, Copy, Debug, PartialEq, Eq)]
pub enum Field {
    Unused,
    Fluent,
    Value,
    Limit,
    Lower,
    Placeholder,
    Choices,
}

// Whether it asks that a fluent has a value.
#[tactic(auto, unfolding(crate::specs::Formulas::field_a))]
pub fn asks_value(kind: usize) -> bool
    ensures { result ≡ asks_value kind }
{
    kind_of(kind) == Some(Kind::HasValue)
}

#[tactic(auto, unfolding(crate::specs::Formulas::field_x))]
fn field_x(kind: usize) -> Field
    ensures { result ≡ field_x kind }
{
    match kind_of(kind) {
        Some(Kind::HasValue | Kind::LessThan | Kind::EqualValues | Kind::EqualsPlaceholder) =>
            Field::Fluent,
        Some(Kind::ForSome | Kind::ForEvery) => Field::Choices,
        _ => Field::Unused,
    }
}

#[tactic(auto, unfolding(crate::specs::Formulas::field_a))]
fn field_a(kind: usize) -> Field
    ensures { result ≡ field_a kind }
{
    match kind_of(kind) {
        Some(Kind::HasValue) => Field::Value,
        Some(Kind::LessThan) => Field::Limit,
        Some(Kind::EqualValues) => Field::Fluent,
        Some(Kind::Not | Kind::And | Kind::Or | Kind::ForSome | Kind::ForEvery) => Field::Lower,
        Some(Kind::EqualsPlaceholder) => Field::Placeholder,
        _ => Field::Unused,
    }
}

#[tactic(auto, unfolding(crate::specs::Formulas::field_b))]
fn field_b(kind: usize) -> Field
    ensures { result ≡ field_b kind }
{
    match kind_of(kind) {
        Some(Kind::And | Kind::Or) => Field::Lower,
        Some(Kind::ForSome | Kind::ForEvery) => Field::Placeholder,
        _ => Field::Unused,
    }
}

fn field_ok(nf: usize, size: usize, i: usize, field: Field, x: usize) -> bool
    ensures { result ≡ field_ok nf size i field x }
{
    match field {
        Field::Unused => x == 0,
        Field::Fluent => x < nf,
        Field::Value => x < size,
        Field::Limit => x <= size,
        Field::Lower => x < i,
        Field::Placeholder => x < records::PLACEHOLDERS,
        Field::Choices => (0 < x) & (x <= records::CHOICES),
    }
}

// The last kind of formula that a sheet has.
// Kept: a number to compare with, as `formula_ok` is defined: a kind that has a name may be one that sheets do not have yet.
const LAST_KIND: usize = Kind::Or as usize;

// Whether formula i keeps its rule, where there are nf fluents and size is the domain size of fluent x.
#[tactic(auto, unfolding(crate::specs::Formulas::formula_ok))]
pub fn formula_ok(nf: usize, size: usize, i: usize, r: Formula) -> bool
    ensures { result ≡ formula_ok nf size i r }
{
    (r.kind <= LAST_KIND)
        & field_ok(nf, size, i, field_x(r.kind), r.x)
        & field_ok(nf, size, i, field_a(r.kind), r.a)
        & field_ok(nf, size, i, field_b(r.kind), r.b)
}

// The kinds of formulas without placeholders are those below it.
const PLAIN_KINDS: usize = Kind::EqualsPlaceholder as usize;

// What a formula without placeholders says of values, where `lower` has what the lower ones say. The remainder is the kind: with it the
// machine code takes the kind's branch with no test before it.
#[tactic(auto, unfolding(crate::specs::Truth::truth_of))]
pub fn truth_of(r: Formula, values: &[u8], lower: &[bool]) -> bool
    requires { T (is_plain r.kind) }
    ensures { result ≡ truth_of r values.now lower.now }
{
    match kind_of(r.kind % PLAIN_KINDS) {
        Some(Kind::True) => true,
        Some(Kind::False) => false,
        Some(Kind::HasValue) => records::byte_in(values, r.x) == r.a,
        Some(Kind::LessThan) => records::byte_in(values, r.x) < r.a,
        Some(Kind::EqualValues) => records::byte_in(values, r.x) == records::byte_in(values, r.a),
        Some(Kind::Not) => !records::value_in(lower, r.a, false),
        Some(Kind::And) => records::value_in(lower, r.a, false)
            & records::value_in(lower, r.b, false),
        Some(Kind::Or) => records::value_in(lower, r.a, false)
            | records::value_in(lower, r.b, false),
        _ => false,
    }
}

// The bits of a set of fluents.
const BITS: usize = 32;

// The set of one fluent; of none where there is no such bit.
fn bit(x: usize) -> u32
    ensures { result ≡ bit_of x }
{
    if x < BITS { 1 << x } else { 0 }
}

// The set of the fluents that a formula names, bit x for fluent x, where `lower` has the sets of the lower ones.
#[tactic(auto, unfolding(crate::specs::Sets::set_of))]
pub fn names_of(r: Formula, lower: &[u32]) -> u32
    ensures { result ≡ set_of r lower.now }
{
    match kind_of(r.kind) {
        Some(Kind::HasValue | Kind::LessThan | Kind::EqualsPlaceholder) => bit(r.x),
        Some(Kind::EqualValues) => bit(r.x) | bit(r.a),
        Some(Kind::Not | Kind::ForSome | Kind::ForEvery) => records::value_in(lower, r.a, 0),
        Some(Kind::And | Kind::Or) => records::value_in(lower, r.a, 0)
            | records::value_in(lower, r.b, 0),
        _ => 0,
    }
}
