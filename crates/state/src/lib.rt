// One state: what all formulas say of it, whether an action is possible, and the state after it.
#![tactic(auto)]

ghost use Rattle.std.specs.Prelude.{◌≡◌, ◌+◌, ◌*◌, ◌≤◌, length, T};
ghost use Rattle.records.specs.Records.{formula_at, effect_at, action_at};
ghost use Rattle.kinds.specs.Truth.{truth_of};
ghost use Rattle.kinds.specs.Formulas.{LowerFormulas, is_plain, PlainFormulas};
ghost use Rattle.golog.specs.declared.State.{State};
ghost use Rattle.golog.specs.World.{changed, perform_by};
ghost use Rattle.state.specs.Truths.{truths_of, said_by};
ghost use Rattle.state.specs.Ranges.{Names, InActions, Performable};
ghost use Rattle.state.specs.Conflicts.{allowed_by};
ghost use Rattle.state.specs.Evaluated.{evaluated_by, possibility_by};

use golog::State;
use records::Action;

pub mod conflicts;
pub mod effects;
pub mod exclusion;

// What formula i, which has no placeholder, says, where `lower` has what the formulas before it say.
fn truth_at(formulas: &[u8], i: usize, values: &[u8], lower: &[bool]) -> bool
    requires { (6 * i + 6 ≤ length formulas.now) × T (is_plain (formula_at formulas.now i).kind) }
    ensures { result ≡ truth_of (formula_at formulas.now i) values.now lower.now }
{
    kinds::formulas::truth_of(records::formula_at(formulas, i), values, lower)
}

// Fills in what each of the first n formulas, none of which has placeholders, says of a state, whatever stood there: one pass upwards, since
// a formula names lower ones only. Never inlined: the loop's time hangs on where its jumps lie.
#[inline(never)]
pub fn fill_truths(formulas: &[u8], n: usize, s: State, truths: &mut [bool])
    requires n_in_bounds { (6 * n ≤ length formulas.now) × (n ≤ length truths.old) }
    requires lower_formulas { LowerFormulas formulas.now n × PlainFormulas formulas.now n }
    ensures { truths.new ≡ truths_of formulas.now s.values n truths.old }
{
    for i in 0..n {
        let r = truth_at(formulas, i, &s.values, truths);
        truths[i] = r;
    }
}

// Whether action a is possible, where `truths` has what the formulas say and `conflicted` which actions are in conflict.
pub fn possible(actions: &[u8], truths: &[bool], conflicted: &[bool], a: usize) -> bool
    requires { InActions actions.now a }
    ensures { result ≡ allowed_by actions.now truths.now conflicted.now a }
{
    if golog::START <= a {
        return true;
    }
    let r = records::action_at(actions, a);
    records::value_in(truths, r.precondition, false) & !records::value_in(conflicted, a, false)
}

// What evaluating a formula answers: whether it holds, and the set of the fluents that it names, bit x for fluent x.
#[derive(Clone, Copy)]
pub struct Evaluated {
    pub holds: bool,
    pub names: u32,
}

// Evaluates formula q, where `truths` has what the formulas say of the state, and `sets`, made once a sheet, what each of them names.
pub fn evaluate(truths: &[bool], sets: &[u32], q: usize) -> Evaluated
    ensures { result ≡ evaluated_by truths.now sets.now q }
{
    Evaluated {
        holds: records::value_in(truths, q, false),
        names: records::value_in(sets, q, 0),
    }
}

// What a possible-check answers: whether the action is possible, and the set of the fluents that its precondition and the conditions of its
// effects name.
#[derive(Clone, Copy)]
pub struct Possibility {
    pub possible: bool,
    pub names: u32,
}

// A possible-check of action a, as `possible`, where `sets`, made once a sheet, has what each action names.
pub fn possible_check(
    actions: &[u8],
    truths: &[bool],
    conflicted: &[bool],
    sets: &[u32],
    a: usize,
) -> Possibility
    requires { InActions actions.now a }
    ensures { result ≡ possibility_by actions.now truths.now conflicted.now sets.now a }
{
    let possible = possible(actions, truths, conflicted, a);
    if golog::START <= a {
        return Possibility { possible, names: 0 };
    }
    Possibility {
        possible,
        names: records::value_in(sets, a, 0),
    }
}

// The values after an action's effects, which name fluents below n, where `truths` has what the formulas say.
pub fn new_values(
    effects: &[u8],
    r: Action,
    n: usize,
    truths: &[bool],
    values: [u8; 32],
) -> [u8; 32]
    requires { (4 * (r.first + r.count) ≤ length effects.now) × (n ≤ 32) × Names effects.now n r.first r.count }
    ensures { result ≡ changed (said_by truths.now) (effect_at effects.now) r values }
{
    effects::new_values(
        effects,
        r,
        n,
        values,
        |q| records::value_in(truths, q, false),
        |value| value as u8,
    )
}

// The state after action a, where n is the number of fluents and `truths` has what the formulas say of s.
#[tactic(auto, unfolding(golog::specs::World::perform_by))]
pub fn perform(
    effects: &[u8],
    actions: &[u8],
    n: usize,
    truths: &[bool],
    a: usize,
    s: State,
) -> State
    requires { Performable effects.now actions.now n a × (n ≤ 32) }
    ensures { result ≡ perform_by (said_by truths.now) (effect_at effects.now) (action_at actions.now) a s }
{
    let values = s.values;
    if golog::START <= a {
        return State {
            values,
            running: a == golog::START,
        };
    }
    let new = new_values(effects, records::action_at(actions, a), n, truths, values);
    State {
        values: new,
        running: s.running,
    }
}
