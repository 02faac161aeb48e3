// The k-th transition of a remaining program: straight down by counts to what performs it, and on the way back up the constructs around
// what it leaves.
#![tactic(auto)]

ghost use Rattle.std.specs.Prelude.{◌≡◌, ◌&&◌, ◌+◌, ◌^◌, ◌≤◌, ◌<◌, eqb};
ghost use Rattle.kinds.specs.Programs.{tag_a, tag_b};
ghost use Rattle.remaining.specs.Rest.{Rest};
ghost use Rattle.remaining.specs.Leaves.{own_move, sibling_a, wrap_a, wrap_b};
ghost use Rattle.words.specs.Words.{At, Stands, Room, CanPutCopy};
ghost use Rattle.ends.specs.Ends.{final_by_table};
ghost use Rattle.steps.specs.Laid.{code_of, seen_in, CanLay, LaysRecord, InWords, past, LaidOwn, WrappedLaid, GotRight, GotLeft};
ghost use Rattle.steps.specs.Stepped.{CanStepRecord, StepsRecord, CanStep, StepsRest, CanPutRight};

pub mod tables;

use records::Program;
use tables::Tables;

// The code of a transition that is no move, above every entry of a history.
pub const TEST: u32 = 65536;

// The record beside what part a leaves: the record itself for a loop, else its part b.
pub fn sibling(r: Program, i: usize) -> usize
    ensures { result ≡ sibling_a r i }
{
    if kinds::programs::loops(r.kind) {
        i
    } else {
        r.b
    }
}

// The code of a record's own move.
pub fn entry_of(r: Program) -> u32
    requires { InWords r }
    ensures { result ≡ code_of (own_move r) }
{
    let a = r.a;
    if kinds::programs::acts(r.kind) {
        a as u32
    } else {
        TEST
    }
}

// How far what a part leaves stands after its construct.
pub fn past_words(alone: bool, words: usize) -> usize
    ensures { (result ≡ past alone words) × (result ≤ words) }
{
    if alone { 0 } else { words }
}

// What a transition left: the code of its move, and the number of nodes.
#[derive(Clone, Copy, Debug, PartialEq, Eq)]
pub struct Laid {
    pub entry: u32,
    pub size: usize,
}

// Lays out the own transition of record r, which leaves nothing.
pub fn lay_own(work: &mut [u32], to: usize, r: Program) -> Laid
    requires room { Room work.old to 1 }
    requires in_words { InWords r }
    ensures { LaidOwn r to work.old work.new result }
{
    words::put_node(work, to, words::GONE, 0, 1);
    Laid {
        entry: entry_of(r),
        size: 1,
    }
}

// Puts what part a of record i left into its construct.
pub fn wrap_a(work: &mut [u32], to: usize, r: Program, i: usize, x: Laid) -> Laid
    requires room { Room work.old to (x.size + 2) }
    requires i_bound { i < 2 ^ 32 }
    requires in_words { InWords r }
    ensures { WrappedLaid (wrap_a (tag_a r.kind) (sibling_a r i)) (to + past (eqb (tag_a r.kind) 0) 3) to work.old work.new x result }
{
    let tag = kinds::programs::tag_a(r.kind);
    if tag == 0 {
        return x;
    }
    words::put_leaf_right(work, to, tag, x.size, sibling(r, i));
    Laid {
        entry: x.entry,
        size: x.size + 2,
    }
}

// The same for part b, which part a stands left of.
pub fn wrap_b(work: &mut [u32], to: usize, r: Program, x: Laid) -> Laid
    requires room { Room work.old to (x.size + 2) }
    requires in_words { InWords r }
    ensures { WrappedLaid (wrap_b (tag_b r.kind) r.a) (to + past (eqb (tag_b r.kind) 0) 6) to work.old work.new x result }
{
    let tag = kinds::programs::tag_b(r.kind);
    if tag == 0 {
        return x;
    }
    words::put_leaf_left(work, to, tag, x.size, r.a);
    Laid {
        entry: x.entry,
        size: x.size + 2,
    }
}

// Puts a copy of the right part at `from` beside what a transition of the left one left.
pub fn put_right(work: &mut [u32], from: usize, to: usize, tag: u32, x: Laid) -> Laid
    requires { CanPutRight tag from to x.size work.old }
    ensures { GotRight tag from to work.old work.new x result }
{
    let m = words::size_at(work, from);
    words::put_copy_right(work, from, to, tag, x.size, m);
    Laid {
        entry: x.entry,
        size: 1 + x.size + m,
    }
}

// Puts the left part, n nodes at `from`, beside what a transition of the right one left, but in a sequence.
pub fn put_left(work: &mut [u32], from: usize, to: usize, tag: u32, n: usize, x: Laid) -> Laid
    requires { CanPutCopy from to tag x.size n work.old }
    ensures { GotLeft tag from to n work.old work.new x result }
{
    if tag == words::SEQUENCE {
        return x;
    }
    words::put_copy_left(work, from, to, tag, n, x.size);
    Laid {
        entry: x.entry,
        size: 1 + n + x.size,
    }
}

// Lays out the k-th transition of record i at `to`: its own, or one of part a, or of part b, by how many part a has.
fn lay_record(t: &Tables, work: &mut [u32], i: usize, to: usize, k: usize) -> Laid
    requires can_lay { CanLay (seen_in t.now) work.old i to k }
    ensures { LaysRecord (seen_in t.now) i k to work.old work.new result.entry result.size }
{
    let r = t.programs.record(i);
    if kinds::programs::has_own(r.kind) {
        return lay_own(work, to, r);
    }
    let first = kinds::programs::first_by(r, t.truths, t.running, t.counts);
    if k < first {
        let at = to + past_words(kinds::programs::tag_a(r.kind) == 0, 3);
        let x = lay_record(t, work, r.a, at, k);
        return wrap_a(work, to, r, i, x);
    }
    let at = to + past_words(kinds::programs::tag_b(r.kind) == 0, 6);
    let x = lay_record(t, work, r.b, at, k - first);
    wrap_b(work, to, r, x)
}

// Where there is none: what is left of k, and whether what was searched is final.
#[derive(Clone, Copy, Debug, PartialEq, Eq)]
pub struct Passed {
    pub k: usize,
    pub done: bool,
}

// The k-th transition of record i.
fn step_record(t: &Tables, work: &mut [u32], i: usize, to: usize, k: usize) -> Result<Laid, Passed>
    requires can_step_record { CanStepRecord (seen_in t.now) t.now.finals.now work.old i to }
    ensures { StepsRecord (seen_in t.now) t.now.finals.now i k to work.old work.new result }
{
    let count = records::value_in(t.counts, i, 0) as usize;
    if k < count {
        let x = lay_record(t, work, i, to, k);
        return Ok(x);
    }
    Err(Passed {
        k: k - count,
        done: records::value_in(t.finals, i, true),
    })
}

// Whether a left part that is final or not, and the right part at `at`, are both final.
fn final_after(done: bool, finals: &[bool], work: &[u32], at: usize) -> bool
    requires { Stands work.now at }
    ensures { (g : Rest) → At g work.now at → result ≡ (done && final_by_table finals.now g) }
{
    done && ends::final_rest(finals, work, at)
}

// The k-th transition of the remaining program at `from`, laid out at `to`: one pass, which also tells how many there are and whether
// it is final where there is none. A part is copied only once the transition is made.
pub fn step_rest(
    t: &Tables,
    work: &mut [u32],
    from: usize,
    to: usize,
    k: usize,
) -> Result<Laid, Passed>
    requires can_step { CanStep (seen_in t.now) t.now.finals.now work.old from to }
    ensures { StepsRest (seen_in t.now) t.now.finals.now from k to work.old work.new result }
{
    let tag = words::tag_at(work, from);
    if tag == words::GONE {
        return Err(Passed { k, done: true });
    }
    if tag == words::LEAF {
        let i = words::record_at(work, from);
        return step_record(t, work, i, to, k);
    }
    let left = from + 3;
    let n = words::size_at(work, left);
    let right = left + 3 * n;
    let made = step_rest(t, work, left, to + 3, k);
    let p = match made {
        Ok(x) => return Ok(put_right(work, right, to, tag, x)),
        Err(passed) => passed,
    };
    if !ends::goes_right(tag, p.done, p.k == k) {
        let done = final_after(p.done, t.finals, work, right);
        return Err(Passed { k: p.k, done });
    }
    let at = to + past_words(tag == words::SEQUENCE, 3 + 3 * n);
    let u = step_rest(t, work, right, at, p.k);
    match u {
        Ok(x) => Ok(put_left(work, left, to, tag, n, x)),
        Err(q) => Err(Passed {
            k: q.k,
            done: p.done & q.done,
        }),
    }
}
