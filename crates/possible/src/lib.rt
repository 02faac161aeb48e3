// Actions of a sheet with placeholders (document 02, F-6), by a table of the environments in which each formula holds: in which environments an
// action is possible, and the state after a move.
#![tactic(auto)]

ghost use Rattle.std.specs.Prelude.{◌≡◌, not, ◌&&◌, ℕ, ◌+◌, ◌*◌, ◌≤◌, ◌<◌, eqb, length};
ghost use Rattle.records.specs.Records.{effect_at};
ghost use Rattle.sets.specs.Sets.{member, Has};
ghost use Rattle.golog.specs.World.{changed};
ghost use Rattle.golog.specs.Written.{resolved};
ghost use Rattle.possible.specs.Written.{said_at, resolved_table, conflicting_in, strays_in, straying_in};
ghost use Rattle.possible.specs.Possible.{ReadableRange, GivesValue, GiveValues, Readable, PossibleSet, Performable, PerformedState};

use golog::State;
use records::{ACTIONS, Action, CHOICES, ENVIRONMENTS, Effect};
use sets::WORDS;

// The value that a value byte means in environment e: CHOICES means placeholder 0, and the next one placeholder 1.
fn resolved(e: usize, value: usize) -> usize
    requires { e < 256 }
    ensures { (result ≡ resolved e value) × (result < 16) }
{
    if value < CHOICES {
        value
    } else if value == CHOICES {
        e % CHOICES
    } else {
        e / CHOICES
    }
}

// Whether effects of a range that hold in environment e give one fluent different values there.
fn conflict_in(effects: &[u8], first: usize, count: usize, table: &[u32], e: usize) -> bool
    requires { ReadableRange effects.now table.now 32 first count × (e < 256) }
    ensures { result ≡ conflicting_in effects.now table.now first count e }
{
    state::effects::conflict(
        effects,
        first,
        count,
        |q| sets::has_in(table, q, e),
        |value| resolved(e, value) as u8,
    )
}

// The set of one environment.
fn only(e: usize) -> [u32; WORDS]
    requires { e < 256 }
    ensures { Has (λ (d : ℕ). eqb d e) result }
{
    sets::both(sets::holding(0, e % CHOICES), sets::holding(1, e / CHOICES))
}

// Of a set the environments in which effects of a range that hold do not contradict each other: compared in one environment after the other.
fn agreeing(
    effects: &[u8],
    first: usize,
    count: usize,
    table: &[u32],
    set: [u32; WORDS],
) -> [u32; WORDS]
    requires { ReadableRange effects.now table.now 32 first count }
    ensures { Has (λ (e : ℕ). member set e && not (conflicting_in effects.now table.now first count e)) result }
{
    let mut left = set;
    for e in 0..ENVIRONMENTS {
        if sets::has(&set, e) && conflict_in(effects, first, count, table, e) {
            let less = sets::without(left, only(e));
            left = less;
        }
    }
    left
}

// Of a set the environments in which an effect, whose value byte means a placeholder, does not hold or gives a value of its fluent's domain.
fn staying(fluents: &[u8], r: Effect, table: &[u32], set: [u32; WORDS]) -> [u32; WORDS]
    requires { (8 * r.condition + 8 ≤ length table.now) × GivesValue fluents.now r × (16 ≤ r.value) }
    ensures { Has (λ (e : ℕ). member set e && not (strays_in fluents.now table.now r e)) result }
{
    let size = records::fluent_at(fluents, r.fluent).size;
    if size < CHOICES {
        let outside = sets::reaching(r.value - CHOICES, size);
        return sets::without(set, sets::both(sets::set_at(table, r.condition), outside));
    }
    set
}

// Of a set the environments in which no effect of a range that holds gives a value outside its fluent's domain: each is tested, also where an
// earlier one gives its fluent the value.
fn inside(
    fluents: &[u8],
    effects: &[u8],
    first: usize,
    count: usize,
    table: &[u32],
    set: [u32; WORDS],
) -> [u32; WORDS]
    requires { ReadableRange effects.now table.now 32 first count × GiveValues fluents.now effects.now first count }
    ensures { Has (λ (e : ℕ). member set e && not (straying_in fluents.now effects.now table.now first count e)) result }
{
    let mut left = set;
    for i in first..first + count {
        let effect = records::effect_at(effects, i);
        if CHOICES <= effect.value {
            let less = staying(fluents, effect, table, left);
            left = less;
        }
    }
    left
}

// The environments in which action a is possible, where `table` has the truths of the state. Without `may_conflict` its effects are known not
// to contradict each other, and are not compared.
pub fn set_of(
    fluents: &[u8],
    effects: &[u8],
    actions: &[u8],
    table: &[u32],
    a: usize,
    may_conflict: bool,
) -> [u32; WORDS]
    requires { Readable fluents.now effects.now actions.now table.now a }
    ensures { PossibleSet fluents.now effects.now actions.now table.now a may_conflict result }
{
    let r = records::action_at(actions, a);
    let held = sets::set_at(table, r.precondition);
    let left = inside(fluents, effects, r.first, r.count, table, held);
    if may_conflict {
        return agreeing(effects, r.first, r.count, table, left);
    }
    left
}

// The values after an action's effects in environment e, which name fluents below n.
fn new_values(
    effects: &[u8],
    r: Action,
    n: usize,
    table: &[u32],
    e: usize,
    values: [u8; 32],
) -> [u8; 32]
    requires { ReadableRange effects.now table.now n r.first r.count × (n ≤ 32) × (e < 256) }
    ensures { result ≡ changed (said_at table.now e) (effect_at (resolved_table e effects.now)) r values }
{
    state::effects::new_values(
        effects,
        r,
        n,
        values,
        |q| sets::has_in(table, q, e),
        |value| resolved(e, value) as u8,
    )
}

// The state after the move `entry`, an action in an environment, or start or stop, where n is the number of fluents and `table` has the truths
// of s.
pub fn perform(
    effects: &[u8],
    actions: &[u8],
    n: usize,
    table: &[u32],
    entry: usize,
    s: State,
) -> State
    requires { Performable effects.now actions.now table.now n entry × (n ≤ 32) }
    ensures { PerformedState effects.now actions.now table.now entry s result }
{
    if golog::START <= entry {
        return State {
            running: entry == golog::START,
            ..s
        };
    }
    let r = records::action_at(actions, entry % ACTIONS);
    let values = new_values(effects, r, n, table, entry / ACTIONS, s.values);
    State { values, ..s }
}
