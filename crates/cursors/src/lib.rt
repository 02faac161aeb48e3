// Remaining programs whose records are read in environments, by the sets of a state: whether they are final, how far they are from their end
// at least, and their transitions by cursors. A leaf's number is that of its record, read in its environment (records/specs/Placeholders.antt).
#![tactic(auto)]

ghost use Rattle.std.specs.Prelude.{◌≡◌, true, ◌-◌, ◌*◌, ◌^◌, ◌≤◌, ◌<◌, length, get_or};
ghost use Rattle.records.specs.Placeholders.{environments, read_in, environment_of};
ghost use Rattle.remaining.specs.Extended.{most_records};
ghost use Rattle.remaining.specs.Rest.{Rest, leaf};
ghost use Rattle.words.specs.Words.{At};
ghost use Rattle.ends.specs.Ends.{final_by_table, Totalled};
ghost use Rattle.positions.specs.Found.{tables_of, CanLook};
ghost use Rattle.cursors.specs.Ended.{finals_in, counts_in, distances_in, CanEnd};
ghost use Rattle.cursors.specs.Going.{cursor_at, CanPoint, FindsLeaf, FindsRest, CanLayRest, PlacesRest};

use ends::Totals;
use positions::{ENVIRONMENTS, Tables};
use steps::Laid;

// Whether the record of leaf n is final.
fn final_of(table: &[u32], n: usize) -> bool
    requires { (8256 ≤ length table.now) × (n < environments * most_records) }
    ensures { result ≡ get_or (finals_in table.now) n true }
{
    positions::final_in(table, n / ENVIRONMENTS, n % ENVIRONMENTS)
}

// Whether the remaining program at `at` is final.
pub fn final_rest(table: &[u32], work: &[u32], at: usize) -> bool
    requires { CanEnd table.now work.now at }
    ensures { (g : Rest) → At g work.now at → result ≡ final_by_table (finals_in table.now) g }
{
    ends::final_by(&|n| final_of(table, n), work, at)
}

// The totals of leaf n: as many as there are records that go and have a transition, so 0 where there is none.
fn total_of(table: &[u32], distances: &[u32], n: usize) -> Totals
    requires { (8256 ≤ length table.now) × (n < environments * most_records) }
    ensures { Totalled (finals_in table.now) (distances_in distances.now) (counts_in table.now) (leaf n) result }
{
    let i = n / ENVIRONMENTS;
    let count = usize::from(positions::enabled_in(table, i, n % ENVIRONMENTS));
    let far = records::value_in(distances, i, 0) as usize;
    Totals::new(final_of(table, n), count, far)
}

// The totals of the remaining program at `at`.
pub fn total_rest(table: &[u32], distances: &[u32], work: &[u32], at: usize) -> Totals
    requires can_end { CanEnd table.now work.now at }
    requires work_len_bound { length work.now < 2 ^ 32 }
    ensures { (g : Rest) → At g work.now at
        → Totalled (finals_in table.now) (distances_in distances.now) (counts_in table.now) g result }
{
    ends::total_by(&|n| total_of(table, distances, n), work, at)
}

// Where a transition is: the place of its record's node, and its position among those of the record.
#[derive(Clone, Copy, Debug, PartialEq, Eq)]
pub struct Cursor {
    pub place: usize,
    pub k: u64,
}

// Where there is none: whether what was searched is final, and whether it has no transition at all.
#[derive(Clone, Copy, Debug, PartialEq, Eq)]
pub struct Passed {
    pub done: bool,
    pub idle: bool,
}

// The position that a cursor leaves to a record's node at its place or behind it.
fn position(at: usize, c: Cursor) -> u64
    requires { c.place ≤ at }
    ensures { result ≡ cursor_at c.place c.k - at * 2 ^ 64 }
{
    if at == c.place { c.k } else { 0 }
}

// The first transition from the cursor on of a record, whose node is at `at`.
fn find_leaf(t: &Tables, n: usize, at: usize, c: Cursor) -> Result<Cursor, Passed>
    requires { CanLook (tables_of t.now) (read_in n) (environment_of n) }
    ensures { FindsLeaf (tables_of t.now) n at c.place c.k result }
{
    let i = n / ENVIRONMENTS;
    let e = n % ENVIRONMENTS;
    let passed = Passed {
        done: positions::final_in(t.table, i, e),
        idle: !positions::enabled_in(t.table, i, e),
    };
    if at < c.place {
        return Err(passed);
    }
    let found = positions::find_record(t, i, e, position(at, c));
    found.map(|k| Cursor { place: at, k }).ok_or(passed)
}

// The first transition from the cursor on of the remaining program at `at`: one pass. Of records before the cursor's place only the sets are
// asked, for whether right parts go.
pub fn find_rest(t: &Tables, work: &[u32], at: usize, c: Cursor) -> Result<Cursor, Passed>
    requires { CanPoint (tables_of t.now) work.now at }
    ensures { FindsRest (tables_of t.now) work.now at c.place c.k result }
{
    let tag = words::tag_at(work, at);
    if tag == words::GONE {
        return Err(Passed {
            done: true,
            idle: true,
        });
    }
    if tag == words::LEAF {
        let n = words::record_at(work, at);
        return find_leaf(t, n, at, c);
    }
    let left = at + 3;
    let right = left + 3 * words::size_at(work, left);
    let x = match find_rest(t, work, left, c) {
        Ok(found) => return Ok(found),
        Err(passed) => passed,
    };
    if !ends::goes_right(tag, x.done, x.idle) {
        return Err(Passed {
            done: x.done && final_rest(t.table, work, right),
            idle: x.idle,
        });
    }
    let y = match find_rest(t, work, right, c) {
        Ok(found) => return Ok(found),
        Err(passed) => passed,
    };
    Err(Passed {
        done: x.done & y.done,
        idle: x.idle & y.idle,
    })
}

// Lays out the transition at the cursor of the remaining program at `from`: straight down to its record's node by the place, and on the way
// back up the constructs around what it leaves.
pub fn lay_rest(t: &Tables, work: &mut [u32], from: usize, to: usize, c: Cursor) -> Laid
    requires { CanLayRest (tables_of t.now) work.old from to c.place c.k }
    ensures { PlacesRest (tables_of t.now) from c.place c.k to work.old work.new result }
{
    let tag = words::tag_at(work, from);
    if tag == words::LEAF {
        let j = words::record_at(work, from);
        let i = j / ENVIRONMENTS;
        let e = j % ENVIRONMENTS;
        return positions::lay_record(t, work, i, e, to, c.k);
    }
    let left = from + 3;
    let n = words::size_at(work, left);
    let right = left + 3 * n;
    if c.place < right {
        let at = to + 3;
        let x = lay_rest(t, work, left, at, c);
        return steps::put_right(work, right, to, tag, x);
    }
    let at = to + steps::past_words(tag == words::SEQUENCE, 3 + 3 * n);
    let x = lay_rest(t, work, right, at, c);
    steps::put_left(work, left, to, tag, n, x)
}
