// Effects that contradict each other in a state (document 02, F-2): which of the actions listed have such effects.
ghost use Rattle.std.specs.Prelude.{◌≡◌, ◌+◌, ◌*◌, ◌≤◌, length};
ghost use Rattle.records.specs.Records.{effect_at};
ghost use Rattle.golog.specs.World.{conflicting};
ghost use Rattle.state.specs.Truths.{said_by};
ghost use Rattle.state.specs.Ranges.{Names};
ghost use Rattle.state.specs.Conflicts.{in_conflict, Conflicted, ReadableListed};

use crate::effects;
use records::Action;

// How many actions a sheet may have.
pub const ACTIONS: usize = records::ACTIONS;

// How many fluents.
pub const FLUENTS: usize = records::FLUENTS;

// Whether effects of a range that hold give one fluent different values: one pass, which notes what value each fluent was given.
pub fn conflict(effects: &[u8], first: usize, count: usize, truths: &[bool]) -> bool
    requires { (4 * (first + count) ≤ length effects.now) × Names effects.now 32 first count }
    ensures { result ≡ conflicting (said_by truths.now) (effect_at effects.now) first count }
{
    effects::conflict(
        effects,
        first,
        count,
        |q| records::value_in(truths, q, false),
        |value| value as u8,
    )
}

// Whether effects of an action contradict each other although its precondition holds.
pub fn is_in_conflict(effects: &[u8], r: Action, truths: &[bool]) -> bool
    requires { (4 * (r.first + r.count) ≤ length effects.now) × Names effects.now 32 r.first r.count }
    ensures { result ≡ in_conflict effects.now truths.now r }
{
    records::value_in(truths, r.precondition, false) && conflict(effects, r.first, r.count, truths)
}

// Of which of the listed actions effects contradict each other although the precondition holds, where `truths` has what the formulas say.
pub fn in_conflict(effects: &[u8], actions: &[u8], list: &[u32], truths: &[bool]) -> [bool; ACTIONS]
    requires { ReadableListed effects.now actions.now list.now }
    ensures { Conflicted effects.now actions.now list.now truths.now result }
{
    let n = records::value_in(list, ACTIONS, 0) as usize;
    let mut marks = [false; ACTIONS];
    for j in 0..n {
        let a = records::value_in(list, j, 0) as usize;
        marks[a] = is_in_conflict(effects, records::action_at(actions, a), truths);
    }
    marks
}
