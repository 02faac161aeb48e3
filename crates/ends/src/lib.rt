// What the tables say of a remaining program: each function calls itself on the parts, whose sizes fall.
#![tactic(auto)]

ghost use Rattle.std.specs.Prelude.{◌≡◌, Bool, true, List, ℕ, ◌*◌, ◌^◌, ◌<◌, length, get_or};
ghost use Rattle.remaining.specs.Rest.{Rest, leaf};
ghost use Rattle.remaining.specs.Leaves.{goes_right};
ghost use Rattle.words.specs.Words.{At, Stands};
ghost use Rattle.ends.specs.Ends.{final_by_table, soon_of, totals_of, joined, Below, Totalled, Leaves, Asked, Told};

// Whether the remaining program at `at` is final, where `leaf` answers that of a record.
pub fn final_by<F: Fn(usize) -> bool>(leaf: &F, work: &[u32], at: usize) -> bool
    requires { Asked (F.pre leaf.now) work.now at }
    ensures { (finals : List Bool) (g : Rest) → At g work.now at → Leaves (λ i. (b : Bool) → F.post leaf.now i b → b ≡ get_or finals i true) g
        → result ≡ final_by_table finals g }
{
    let tag = words::tag_at(work, at);
    if tag == words::GONE {
        return true;
    }
    if tag == words::LEAF {
        return leaf(words::record_at(work, at));
    }
    let left = words::size_at(work, at + 3);
    if final_by(leaf, work, at + 3) {
        return final_by(leaf, work, at + 3 + 3 * left);
    }
    false
}

// The same by a table.
pub fn final_rest(finals: &[bool], work: &[u32], at: usize) -> bool
    requires { Stands work.now at }
    ensures { (g : Rest) → At g work.now at → result ≡ final_by_table finals.now g }
{
    final_by(&|i| records::value_in(finals, i, true), work, at)
}

// Whether the right part of a construct goes, where the left one is as said: in a;b where that is final, in a together b always, in
// a over b where it has no transition.
pub fn goes_right(tag: u32, done: bool, idle: bool) -> bool
    ensures { result ≡ goes_right tag done idle }
{
    if tag == words::SEQUENCE {
        return done;
    }
    if tag == words::TOGETHER {
        return true;
    }
    idle
}

// Whether it is final, how many transitions it has, how far it is from its end at least, and the same by way of any transition, that one
// counted.
#[derive(Clone, Copy, Debug, PartialEq, Eq)]
pub struct Totals {
    pub done: bool,
    pub count: usize,
    pub far: usize,
    pub soon: usize,
}

// How far a record is from its end at least by way of any transition.
pub fn soon_of(count: usize, far: usize) -> usize
    ensures { result ≡ soon_of count far }
{
    if count == 0 {
        return leaves::FARTHEST;
    }
    far.max(1)
}

impl Totals {
    // The totals of a record, from whether it is final, its count and its distance.
    pub fn new(done: bool, count: usize, far: usize) -> Totals
        ensures { result ≡ totals_of done count far }
    {
        Totals {
            done,
            count,
            far,
            soon: soon_of(count, far),
        }
    }
}

// The totals of a construct, from those of its parts.
pub fn join_totals(tag: u32, l: Totals, r: Totals) -> Totals
    requires { Below (2 ^ 63) l × Below (2 ^ 63) r }
    ensures { result ≡ joined tag l r }
{
    let (count, soon) = if goes_right(tag, l.done, l.count == 0) {
        (l.count + r.count, l.far + r.soon)
    } else {
        (l.count, leaves::FARTHEST)
    };
    Totals {
        done: l.done & r.done,
        count,
        far: l.far + r.far,
        soon: (l.soon + r.far).min(soon),
    }
}

// The totals of the remaining program at `at`, where `leaf` answers those of a record.
pub fn total_by<F: Fn(usize) -> Totals>(leaf: &F, work: &[u32], at: usize) -> Totals
    requires told { (finals : List Bool) × (distances : List ℕ) × (counts : List ℕ)
        × Asked (λ i. F.pre leaf.now i × Told finals distances counts (F.post leaf.now i) i) work.now at }
    requires work_len_bound { length work.now < 2 ^ 32 }
    ensures { (finals : List Bool) (distances : List ℕ) (counts : List ℕ) (g : Rest) → At g work.now at
        → Leaves (λ i. Told finals distances counts (F.post leaf.now i) i) g → Totalled finals distances counts g result }
{
    let tag = words::tag_at(work, at);
    if tag == words::GONE {
        return Totals {
            done: true,
            count: 0,
            far: 0,
            soon: leaves::FARTHEST,
        };
    }
    if tag == words::LEAF {
        return leaf(words::record_at(work, at));
    }
    let left = words::size_at(work, at + 3);
    let l = total_by(leaf, work, at + 3);
    let r = total_by(leaf, work, at + 3 + 3 * left);
    join_totals(tag, l, r)
}

// The totals of a record, by the tables.
fn total_of(finals: &[bool], distances: &[u32], counts: &[u32], i: usize) -> Totals
    ensures { Totalled finals.now distances.now counts.now (leaf i) result }
{
    let count = records::value_in(counts, i, 0) as usize;
    let far = records::value_in(distances, i, 0) as usize;
    Totals::new(records::value_in(finals, i, true), count, far)
}

// The totals of the remaining program at `at`, by the tables.
pub fn total_rest(
    finals: &[bool],
    distances: &[u32],
    counts: &[u32],
    work: &[u32],
    at: usize,
) -> Totals
    requires stands { Stands work.now at }
    requires work_len_bound { length work.now < 2 ^ 32 }
    ensures { (g : Rest) → At g work.now at → Totalled finals.now distances.now counts.now g result }
{
    total_by(&|i| total_of(finals, distances, counts, i), work, at)
}
