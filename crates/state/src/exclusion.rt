// What is told once of a sheet: which actions' effects may contradict each other in some state, so that only theirs are compared in each.
ghost use Rattle.std.specs.Prelude.{◌≡◌, true, false, ◌+◌, ◌*◌, ◌≤◌, ◌<◌, length};
ghost use Rattle.records.specs.Records.{formula_at};
ghost use Rattle.state.specs.Conflicts.{most_actions, Lists};
ghost use Rattle.state.specs.Exclusion.{asked_of, Exclusive, Readable, ReadableAll, MayConflict};

use crate::conflicts::{ACTIONS, FLUENTS};
use records::{Action, CHOICES, FORMULAS};

// The places of a list of actions: one for each, and one for how many there are.
// Kept: the count stands behind the places by the promises of `listed` and `in_conflict` (specs/Conflicts.antt, `Lists`, `listed_count`).
pub const LIST: usize = ACTIONS + 1;

// What a condition asks for: that a fluent has a value.
#[derive(Clone, Copy)]
struct Asked {
    fluent: u8,
    value: usize,
}

fn asked_at(formulas: &[u8], q: usize) -> Option<Asked>
    requires { 6 * q + 6 ≤ length formulas.now }
    ensures { result ≡ asked_of (formula_at formulas.now q) }
{
    let r = records::formula_at(formulas, q);
    if kinds::formulas::asks_value(r.kind) & (r.a < CHOICES) {
        return Some(Asked {
            fluent: r.x as u8,
            value: r.a,
        });
    }
    None
}

// Yes only if effects of a range that give one fluent different values stand under conditions that one fluent has different values: one
// pass, which notes for each fluent which one the conditions of its effects ask for, if any, and what each value asked for gives.
fn is_exclusive(formulas: &[u8], effects: &[u8], first: usize, count: usize) -> bool
    requires { Readable formulas.now effects.now first count }
    ensures { result ≡ true → Exclusive formulas.now effects.now first count }
{
    let mut fluents: [Option<Option<u8>>; FLUENTS] = [None; FLUENTS];
    let mut noted: [Option<u8>; FLUENTS * CHOICES] = [None; FLUENTS * CHOICES];
    for i in first..first + count {
        let e = records::effect_at(effects, i);
        let asked = asked_at(formulas, e.condition);
        let x = e.fluent;
        let fluent = asked.map(|a| a.fluent);
        let at = CHOICES * x + asked.map_or(0, |a| a.value);
        let given = e.value as u8;
        if fluents[x].is_some_and(|f| f != fluent) | noted[at].is_some_and(|v| v != given) {
            return false;
        }
        fluents[x] = Some(fluent);
        noted[at] = Some(given);
    }
    true
}

// No only if effects of an action contradict each other in no state: yes if they would were every formula true, unless their conditions are
// exclusive.
fn action_may_conflict(formulas: &[u8], effects: &[u8], r: Action) -> bool
    requires { Readable formulas.now effects.now r.first r.count }
    ensures { result ≡ false → Exclusive formulas.now effects.now r.first r.count }
{
    let held = [true; FORMULAS];
    crate::conflicts::conflict(effects, r.first, r.count, &held)
        && !is_exclusive(formulas, effects, r.first, r.count)
}

// Of the marked actions those whose effects may contradict each other in some state; the others do so in none.
pub fn may_conflict(
    formulas: &[u8],
    effects: &[u8],
    actions: &[u8],
    marks: &[bool],
) -> [bool; ACTIONS]
    requires { (length marks.now ≡ most_actions) × ReadableAll formulas.now effects.now actions.now marks.now }
    ensures { MayConflict formulas.now effects.now actions.now marks.now result }
{
    let mut may = [false; ACTIONS];
    for a in 0..ACTIONS {
        may[a] = marks[a] && action_may_conflict(formulas, effects, records::action_at(actions, a));
    }
    may
}

// The marked actions as a list, and behind its places how many they are.
pub fn listed(marks: &[bool]) -> [u32; LIST]
    requires { length marks.now ≡ most_actions }
    ensures { Lists marks.now result }
{
    let mut list = [0u32; LIST];
    let mut n = 0;
    for (a, mark) in marks.iter().enumerate() {
        if *mark {
            list[n] = a as u32;
            n += 1;
        }
    }
    list[ACTIONS] = n as u32;
    list
}
