// Document 01's form for "the first effect in the action's range that names it": for each fluent a labelled loop over effects, left at the first
// one that holds. It is the test copy of what document 02, F-3, replaced by one pass, with the same contract.
ghost use Rattle.std.specs.Prelude.{◌≡◌, ◌+◌, ◌*◌, ◌≤◌, length};
ghost use Rattle.records.specs.Records.{effect_at};
ghost use Rattle.golog.specs.World.{changes, given, changed};
ghost use Rattle.state.specs.Truths.{said_by};
ghost use Rattle.state.specs.Ranges.{Names};

use records::{Action, Effect};

// Whether an effect names fluent x and its condition holds.
fn changes_value(e: Effect, truths: &[bool], x: usize) -> bool
    ensures { result ≡ changes (said_by truths.now) e x }
{
    e.fluent == x && records::value_in(truths, e.condition, false)
}

// The new value of fluent x under an action's effects: the first one that changes it gives it.
fn new_value(effects: &[u8], first: usize, count: usize, truths: &[bool], x: usize, old: u8) -> u8
    requires { 4 * (first + count) ≤ length effects.now }
    ensures { result ≡ given (said_by truths.now) (effect_at effects.now) x old first count }
{
    let end = first + count;
    let mut value = old;
    'effects: for i in first..end {
        let e = records::effect_at(effects, i);
        if changes_value(e, truths, x) {
            value = e.value as u8;
            break 'effects;
        }
    }
    value
}

// The values after an action's effects, which name fluents below n.
pub fn new_values(
    effects: &[u8],
    r: Action,
    n: usize,
    truths: &[bool],
    values: [u8; 32],
) -> [u8; 32]
    requires { (4 * (r.first + r.count) ≤ length effects.now) × (n ≤ 32) × Names effects.now n r.first r.count }
    ensures { result ≡ changed (said_by truths.now) (effect_at effects.now) r values }
{
    let mut new = values;
    for x in 0..n {
        new[x] = new_value(effects, r.first, r.count, truths, x, values[x]);
    }
    new
}
