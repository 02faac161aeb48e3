// What an index says of configurations already explored (document 02, F-4). An entry's key is the packed configuration, with what is asked of
// the moves to come as its label; its value has the transitions left when it was explored, a flag of what is known of the bound, and the
// round. Where something is asked, an entry serves in its own round only, since a later search asks something else.
#![tactic(auto)]

ghost use Rattle.std.specs.Prelude.{◌≡◌, true, false, ◌||◌, ◌⊎◌, ℕ, ◌^◌, ◌≤◌, ◌<◌, eqb, IfSome};
ghost use Rattle.golog.specs.Prog.{Prog};
ghost use Rattle.runs.specs.Guide.{Guide};
ghost use Rattle.runs.specs.Bounded.{join, flagged};
ghost use Rattle.runs.specs.Claims.{claim_flag, serves};
ghost use Rattle.engine.specs.Frames.{Frame};
ghost use Rattle.index.specs.Content.{Sound};
ghost use Rattle.explored.specs.Known.{verdict_in, value_of, flag_in, left_in, round_of, Known, Explored};

use golog::State;
use sheet::Sheet;

// A configuration as an index is asked of it: the frame of its program, its state, and what is asked of the moves to come, as a number,
// 0 where that is nothing.
#[derive(Clone, Copy)]
pub struct Subject {
    pub depth: usize,
    pub state: State,
    pub label: usize,
}

// The fewest words of an index that has room for an entry.
const LEAST: usize = 16;

// Whether an index may have entries at all: else there is no need to ask it.
pub fn has_room(index: &[u32]) -> bool {
    LEAST <= index.len()
}

// Where an entry of this value serves a visit with so many transitions left, the bound having run out in some run before or not: has it now?
fn weigh(value: u32, label: usize, left: usize, round: u32, cut: bool) -> Option<bool>
    ensures { IfSome result (λ more. ((label ≡ 0) ⊎ (round_of value ≡ round)) × (serves cut left (left_in value) (flag_in value) ≡ true)
        × (more ≡ (cut || eqb (flag_in value) 1))) }
{
    let explored = (value / 4 % 128) as usize;
    let flag = value % 4;
    let told = (label == 0) | (value / 512 == round);
    let fewer = (left <= explored) & (cut | (flag == 1));
    let over = (flag == 2) & (cut | (explored <= left));
    (told & (fewer | over)).then_some(cut | (flag == 1))
}

// Asks the index whether a configuration may be passed over with so many transitions left: where it may, whether the bound has then run out in
// some run.
// Kept: `note` makes its key in the same two lines: a function of them is longer, as it needs a struct of the array with its length (no heap).
pub fn recall(
    index: &[u32],
    work: &[u32],
    s: &Sheet,
    c: Subject,
    left: usize,
    round: u32,
    cut: bool,
) -> Option<bool>
    requires { Sound index.now × ((k : ℕ) × (p : Prog) × Frame s.now k work.now c.depth p) }
    ensures { (guides : ℕ → Guide) (k : ℕ) (p : Prog) → Known s.now guides round index.now → Frame s.now k work.now c.depth p
        → IfSome result (λ more. join (flagged cut) (verdict_in s.now left ((p, c.state), guides c.label)) ≡ flagged more) }
{
    let mut key = [0u32; keys::WORDS];
    let n = keys::key_of(&mut key, work, s, c.state, c.depth, c.label)?;
    let value = index::find(index, &key[..n])?;
    weigh(value, c.label, left, round, cut)
}

// The flag of a configuration that was explored without a plan: had the bound run out in some run before, and has it now?
// Kept: a number, since it is packed into a word of the lent index (`value_of`), and `claim_flag` and `serves` (crate runs), by which the
// contracts and the proofs of runs say what an entry claims, go by it.
pub fn flag_of(before: bool, after: bool) -> u32
    ensures { (result ≡ claim_flag before after) × (result ≤ 2) }
{
    if before {
        return 0;
    }
    if after { 1 } else { 2 }
}

fn value_of(round: u32, left: usize, flag: u32) -> u32
    requires { (round < 65536) × (left ≤ 64) × (flag ≤ 2) }
    ensures { (result ≡ value_of round left flag) × (result < 2 ^ 25) }
{
    flag + 4 * left as u32 + 512 * round
}

// Notes a configuration that was explored with so many transitions left, where there is room.
pub fn note(
    index: &mut [u32],
    work: &[u32],
    s: &Sheet,
    c: Subject,
    left: usize,
    round: u32,
    flag: u32,
)
    requires { Sound index.old × ((k : ℕ) × (p : Prog) × Frame s.now k work.now c.depth p) × (round < 65536) × (left ≤ 64) × (flag ≤ 2) }
    ensures { (guides : ℕ → Guide) → Known s.now guides round index.old → Explored s.now work.now guides c left flag →
        Known s.now guides round index.new }
{
    let mut key = [0u32; keys::WORDS];
    if let Some(n) = keys::key_of(&mut key, work, s, c.state, c.depth, c.label) {
        index::note(index, &key[..n], value_of(round, left, flag));
    }
}
