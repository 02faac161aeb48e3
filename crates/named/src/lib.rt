// Which fluents the formulas of a sheet name (document 02, F-5), as 32-bit sets, bit x for fluent x: each formula through all its
// subformulas, each action's precondition with the conditions of its effects, and all formulas together. They do not depend on the state:
// they are made once.
#![tactic(auto)]

ghost use Rattle.std.specs.Prelude.{◌≡◌, ◌+◌, ◌*◌, ◌≤◌, ◌<◌, length};
ghost use Rattle.records.specs.Records.{formula_at};
ghost use Rattle.kinds.specs.Sets.{set_of};
ghost use Rattle.kinds.specs.Formulas.{LowerFormulas};
ghost use Rattle.named.specs.Tables.{sets_of, union_of, conditions_by, action_set_by, action_sets_of, Ranged};

use records::Action;

// How many formulas and actions a sheet may have.
pub const FORMULAS: usize = records::FORMULAS;

pub const ACTIONS: usize = records::ACTIONS;

// What formula i names, where `lower` has what the formulas before it name.
fn names_at(formulas: &[u8], i: usize, lower: &[u32]) -> u32
    requires { 6 * i + 6 ≤ length formulas.now }
    ensures { result ≡ set_of (formula_at formulas.now i) lower.now }
{
    kinds::formulas::names_of(records::formula_at(formulas, i), lower)
}

// What each of the first n formulas names: one pass upwards, since a formula names lower ones only.
pub fn sets_of(formulas: &[u8], n: usize) -> [u32; FORMULAS]
    requires { (6 * n ≤ length formulas.now) × (n ≤ 512) × LowerFormulas formulas.now n }
    ensures { result ≡ sets_of formulas.now n }
{
    let mut sets = [0u32; FORMULAS];
    for i in 0..n {
        sets[i] = names_at(formulas, i, &sets);
    }
    sets
}

// The union of the first n sets.
pub fn union_of(sets: &[u32], n: usize) -> u32
    ensures { result ≡ union_of sets.now n }
{
    (0..n).fold(0, |union, q| union | records::value_in(sets, q, 0))
}

// What the conditions of a range of effects name, whether they hold or not.
fn conditions_in(effects: &[u8], first: usize, count: usize, sets: &[u32]) -> u32
    requires { 4 * (first + count) ≤ length effects.now }
    ensures { result ≡ conditions_by effects.now sets.now first count }
{
    (first..first + count).fold(0, |union, i| {
        union | records::value_in(sets, records::effect_at(effects, i).condition, 0)
    })
}

// What an action's precondition and the conditions of its effects name.
fn action_set(effects: &[u8], r: Action, sets: &[u32]) -> u32
    requires { 4 * (r.first + r.count) ≤ length effects.now }
    ensures { result ≡ action_set_by effects.now sets.now r }
{
    records::value_in(sets, r.precondition, 0) | conditions_in(effects, r.first, r.count, sets)
}

// What the precondition of each of the first n actions and the conditions of its effects name.
pub fn action_sets(effects: &[u8], actions: &[u8], n: usize, sets: &[u32]) -> [u32; ACTIONS]
    requires { (n ≤ 64) × Ranged effects.now actions.now n }
    ensures { result ≡ action_sets_of effects.now actions.now sets.now n }
{
    let mut unions = [0u32; ACTIONS];
    for a in 0..n {
        unions[a] = action_set(effects, records::action_at(actions, a), sets);
    }
    unions
}
