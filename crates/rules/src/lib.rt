// The rule of each table's records, and the lowest record of a table that breaks it.
#![tactic(auto, unfolding(crate::specs::Rules::fluent_ok, crate::specs::Rules::effect_ok, crate::specs::Rules::action_ok, records::specs::Records::fluent_at))]

ghost use Rattle.std.specs.Prelude.{◌≡◌, ℕ, ◌+◌, ◌*◌, ◌≤◌, ◌<◌, Bool, length};
ghost use Rattle.records.specs.Bytes.{limit16};
ghost use Rattle.records.specs.Records.{fluent_at};
ghost use Rattle.records.specs.Lowest.{lowest};
ghost use Rattle.rules.specs.Rules.{fluent_ok, effect_ok, action_ok};
ghost use Rattle.rules.specs.Tables.{fluents_ok, formulas_ok, effects_ok, actions_ok, programs_ok};

use records::{Action, Effect, Fluent};

fn fluent_ok(r: Fluent) -> bool
    ensures { result ≡ fluent_ok r }
{
    (1 <= r.size) & (r.size <= 16) & (r.initial < r.size)
}

fn effect_ok(nf: usize, nq: usize, size: usize, r: Effect) -> bool
    ensures { result ≡ effect_ok nf nq size r }
{
    (r.condition < nq) & (r.fluent < nf) & (r.value < size)
}

fn action_ok(nq: usize, ne: usize, r: Action) -> bool
    requires { (r.first < limit16) × (r.count < limit16) }
    ensures { result ≡ action_ok nq ne r }
{
    (r.precondition < nq) & (r.first + r.count <= ne)
}

// The domain size of fluent x, 0 past the table's end.
fn size_of(fluents: &[u8], x: usize) -> usize
    requires { x < limit16 }
    ensures { result ≡ (fluent_at fluents.now x).size }
{
    records::byte_in(fluents, 2 * x)
}

fn formulas_ok(fluents: &[u8], nf: usize, t: &[u8], i: usize) -> bool
    requires { 6 * i + 6 ≤ length t.now }
    ensures { result ≡ formulas_ok fluents.now nf t.now i }
{
    let r = records::formula_at(t, i);
    kinds::formulas::formula_ok(nf, size_of(fluents, r.x), i, r)
}

fn effects_ok(fluents: &[u8], nf: usize, nq: usize, t: &[u8], i: usize) -> bool
    requires { 4 * i + 4 ≤ length t.now }
    ensures { result ≡ effects_ok fluents.now nf nq t.now i }
{
    let r = records::effect_at(t, i);
    effect_ok(nf, nq, size_of(fluents, r.fluent), r)
}

// The lowest number below n at which a rule fails, or n.
fn lowest<F: Fn(usize) -> bool>(n: usize, holds: F) -> usize
    requires { (i : ℕ) → i < n → F.pre holds i }
    ensures { (ok : ℕ → Bool) → ((i : ℕ) (b : Bool) → i < n → F.post holds i b → b ≡ ok i) → result ≡ lowest ok n }
{
    for i in 0..n {
        if !holds(i) {
            return i;
        }
    }
    n
}

// The lowest faulty fluent of a table of n, or n.
pub fn fluents(t: &[u8], n: usize) -> usize
    requires { 2 * n ≤ length t.now }
    ensures { result ≡ lowest (fluents_ok t.now) n }
{
    lowest(n, |i| fluent_ok(records::fluent_at(t, i)))
}

// The lowest faulty formula of a table of n, or n.
pub fn formulas(fluents: &[u8], nf: usize, t: &[u8], n: usize) -> usize
    requires { 6 * n ≤ length t.now }
    ensures { result ≡ lowest (formulas_ok fluents.now nf t.now) n }
{
    lowest(n, |i| formulas_ok(fluents, nf, t, i))
}

// The lowest faulty effect of a table of n, or n.
pub fn effects(fluents: &[u8], nf: usize, nq: usize, t: &[u8], n: usize) -> usize
    requires { 4 * n ≤ length t.now }
    ensures { result ≡ lowest (effects_ok fluents.now nf nq t.now) n }
{
    lowest(n, |i| effects_ok(fluents, nf, nq, t, i))
}

// The lowest faulty action of a table of n, or n.
pub fn actions(nq: usize, ne: usize, t: &[u8], n: usize) -> usize
    requires { 6 * n ≤ length t.now }
    ensures { result ≡ lowest (actions_ok nq ne t.now) n }
{
    lowest(n, |i| action_ok(nq, ne, records::action_at(t, i)))
}

// The lowest faulty program record of a table of n, or n.
pub fn programs(nq: usize, na: usize, t: &[u8], n: usize) -> usize
    requires { 8 * n ≤ length t.now }
    ensures { result ≡ lowest (programs_ok nq na t.now) n }
{
    lowest(n, |i| {
        kinds::programs::program_ok(nq, na, i, records::program_at(t, i))
    })
}
