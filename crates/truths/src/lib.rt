// What formulas with placeholders say of one state, in every environment at once: for each formula the set of those in which it holds.
#![tactic(auto)]

ghost use Rattle.std.specs.Prelude.{ℕ, ◌+◌, ◌*◌, ◌≤◌, ◌<◌, eqb, length};
ghost use Rattle.records.specs.Placeholders.{look};
ghost use Rattle.sets.specs.Sets.{Has};
ghost use Rattle.truths.specs.Held.{RuledFormulas};
ghost use Rattle.truths.specs.Evaluated.{Atomic, AtomSet, Composable, ComposedSet, Evaluable, EvaluatedSet, WalkedSet, Filled};

use golog::State;
use kinds::formulas::{Kind, kind_of};
use records::Formula;

// The first kind of formula that goes through values.
// Kept: a number to compare with, since what is asked of `composed_set` (Composable) is that a kind is below it, named or not.
const FIRST_QUANTIFIER: usize = Kind::ForSome as usize;

// The environments with v in placeholder c; a placeholder never has 16 or more.
fn with_value(c: usize, v: usize) -> [u32; sets::WORDS]
    requires { c < 2 }
    ensures { Has (λ (e : ℕ). eqb v (look e c)) result }
{
    if v < records::CHOICES {
        return sets::holding(c, v);
    }
    sets::whole(false)
}

// The environments in which a formula holds that has no parts.
#[tactic(auto, using(sets::proofs::Members::has_by), unfolding(crate::specs::Evaluated::said_in, kinds::specs::Formulas::field_a))]
fn atom_set(r: Formula, values: &[u8]) -> [u32; sets::WORDS]
    requires { Atomic r }
    ensures { AtomSet r values.now result }
{
    let value = records::byte_in(values, r.x);
    match kind_of(r.kind) {
        Some(Kind::True) => sets::whole(true),
        Some(Kind::HasValue) => sets::whole(value == r.a),
        Some(Kind::LessThan) => sets::whole(value < r.a),
        Some(Kind::EqualValues) => sets::whole(value == records::byte_in(values, r.a)),
        Some(Kind::EqualsPlaceholder) => with_value(r.a, value),
        _ => sets::whole(false),
    }
}

// The environments in which a formula holds that goes through no values, where the table has the sets of its parts.
#[tactic(auto, using(sets::proofs::Members::has_by), unfolding(crate::specs::Evaluated::said_in, kinds::specs::Formulas::field_a, kinds::specs::Formulas::field_b))]
fn composed_set(r: Formula, values: &[u8], table: &[u32]) -> [u32; sets::WORDS]
    requires { Composable r table.now }
    ensures { ComposedSet r values.now table.now result }
{
    match kind_of(r.kind) {
        Some(Kind::Not) => sets::others(sets::set_at(table, r.a)),
        Some(Kind::And) => sets::both(sets::set_at(table, r.a), sets::set_at(table, r.b)),
        Some(Kind::Or) => sets::either(sets::set_at(table, r.a), sets::set_at(table, r.b)),
        _ => atom_set(r, values),
    }
}

// Evaluation: the environments in which formula i holds. The table has the sets of the formulas below `filled`, none if that is 0; others
// are evaluated from their parts, which are lower, and where a quantifier is met by a walk over its values.
#[cycle(evaluate_walk)]
#[tactic(auto, using(crate::proofs::Evaluating::parts), unfolding(kinds::specs::Formulas::field_a, kinds::specs::Formulas::field_b))]
fn evaluate(
    formulas: &[u8],
    values: &[u8],
    table: &[u32],
    filled: usize,
    i: usize,
) -> [u32; sets::WORDS]
    requires { Evaluable formulas.now table.now filled i }
    ensures { EvaluatedSet formulas.now values.now table.now filled i result }
{
    if i < filled {
        return sets::set_at(table, i);
    }
    let r = records::formula_at(formulas, i);
    match kind_of(r.kind) {
        Some(Kind::Not) => sets::others(evaluate(formulas, values, table, filled, r.a)),
        Some(Kind::And) => sets::both(
            evaluate(formulas, values, table, filled, r.a),
            evaluate(formulas, values, table, filled, r.b),
        ),
        Some(Kind::Or) => sets::either(
            evaluate(formulas, values, table, filled, r.a),
            evaluate(formulas, values, table, filled, r.b),
        ),
        Some(Kind::ForSome) => walk(formulas, values, table, filled, r.a, r.b, r.x, false),
        Some(Kind::ForEvery) => walk(formulas, values, table, filled, r.a, r.b, r.x, true),
        _ => atom_set(r, values),
    }
}

// A quantifier's walk over values, the last first: the environments in which formula a holds with some value, with `every` each value, below
// `left` put into placeholder c. What stands there outside is hidden.
#[cycle(evaluate_walk)]
fn walk(
    formulas: &[u8],
    values: &[u8],
    table: &[u32],
    filled: usize,
    a: usize,
    c: usize,
    left: usize,
    every: bool,
) -> [u32; sets::WORDS]
    requires { Evaluable formulas.now table.now filled a × (c < 2) × (left ≤ 16) }
    ensures { WalkedSet formulas.now values.now table.now filled a c left every result }
{
    if left == 0 {
        return sets::whole(every);
    }
    let v = left - 1;
    let inner = evaluate(formulas, values, table, filled, a);
    let last = sets::given(inner, c, v);
    let lower = walk(formulas, values, table, filled, a, c, v, every);
    if every {
        return sets::both(lower, last);
    }
    sets::either(lower, last)
}

// The environments in which formula i holds, where the table has the sets of all lower ones.
fn next_set(formulas: &[u8], values: &[u8], table: &[u32], i: usize) -> [u32; sets::WORDS]
    requires { Evaluable formulas.now table.now i i }
    ensures { EvaluatedSet formulas.now values.now table.now i i result }
{
    let r = records::formula_at(formulas, i);
    if r.kind < FIRST_QUANTIFIER {
        return composed_set(r, values, table);
    }
    evaluate(formulas, values, table, i, i)
}

// Fills in, for each of the first n formulas, the environments in which it holds in a state, whatever stood there: one pass upwards, since a
// formula names lower ones only.
pub fn fill(formulas: &[u8], n: usize, s: State, table: &mut [u32])
    requires { (6 * n ≤ length formulas.now) × (8 * n ≤ length table.old) × (n ≤ 512) × RuledFormulas formulas.now n }
    ensures { Filled formulas.now s.values n table.old table.new }
{
    let values = s.values;
    for i in 0..n {
        let set = next_set(formulas, &values, table, i);
        sets::put_set(table, i, set);
    }
}
