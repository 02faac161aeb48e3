// Passes over a range of effects that do not know what formulas and value bytes mean: `holds` tells whether a formula holds, `meant` the value
// that a byte means.
ghost use Rattle.std.specs.Prelude.{◌≡◌, ℕ, Bool, List, ◌+◌, ◌*◌, ◌≤◌, ◌<◌, length};
ghost use Rattle.records.specs.Records.{effect_at};
ghost use Rattle.golog.specs.World.{conflicting, changed};
ghost use Rattle.state.specs.Ranges.{Names};
ghost use Rattle.state.specs.Reads.{Reads, MayAsk};

use crate::conflicts::FLUENTS;
use records::{Action, Effect};

// Whether effects of a range that hold give one fluent different values: one pass, which notes what value each fluent was given.
pub fn conflict<H: Fn(usize) -> bool, V: Fn(usize) -> u8>(
    effects: &[u8],
    first: usize,
    count: usize,
    holds: H,
    meant: V,
) -> bool
    requires range { (4 * (first + count) ≤ length effects.now) × Names effects.now 32 first count }
    requires asked { MayAsk (H.pre holds) (V.pre meant) effects.now first count }
    ensures { (says : ℕ → Bool) (table : List ℕ) → Reads (H.post holds) (V.post meant) says effects.now table first count → result ≡ conflicting says (effect_at table) first count }
{
    let mut noted: [Option<u8>; FLUENTS] = [None; FLUENTS];
    for i in first..first + count {
        let Effect {
            condition,
            fluent: x,
            value,
        } = records::effect_at(effects, i);
        if holds(condition) {
            let given = meant(value);
            if noted[x].is_some_and(|v| v != given) {
                return true;
            }
            noted[x] = Some(given);
        }
    }
    false
}

// The values after an action's effects, which name fluents below n: one pass from the first effect to the last. It notes which fluents were
// given a value, since the first effect that holds gives it, and is left once all were.
pub fn new_values<H: Fn(usize) -> bool, V: Fn(usize) -> u8>(
    effects: &[u8],
    r: Action,
    n: usize,
    values: [u8; 32],
    holds: H,
    meant: V,
) -> [u8; 32]
    requires range { (4 * (r.first + r.count) ≤ length effects.now) × (n ≤ 32) × Names effects.now n r.first r.count }
    requires asked { MayAsk (H.pre holds) (V.pre meant) effects.now r.first r.count }
    ensures { (says : ℕ → Bool) (table : List ℕ) → Reads (H.post holds) (V.post meant) says effects.now table r.first r.count → result ≡ changed says (effect_at table) r values }
{
    let mut new = values;
    let mut given = [false; FLUENTS];
    let mut left = n;
    for i in r.first..r.first + r.count {
        let e = records::effect_at(effects, i);
        let x = e.fluent;
        if holds(e.condition) & !given[x] {
            new[x] = meant(e.value);
            given[x] = true;
            left -= 1;
            if left == 0 {
                return new;
            }
        }
    }
    new
}
