// The first plan (document 02, F-1), by the bounded search alone. Its number of transitions: the least bound that finds a plan. Its history:
// entry by entry, each the least that some plan of so many transitions has after those before it.
#![tactic(auto)]

ghost use Rattle.std.specs.Prelude.{◌≡◌, ◌+◌, ◌<◌, ◌≤◌, ◌++◌, length, drop, replicate};
ghost use Rattle.runs.specs.Guide.{rank};
ghost use Rattle.sheet.specs.Inspection.{words_required};
ghost use Rattle.demands.specs.Decoded.{bound_of};
ghost use Rattle.demands.specs.Planning.{FirstPlan, verdict_of};
ghost use Rattle.search.specs.Outcome.{Reported};
ghost use Rattle.search.specs.Searching.{Standing};
ghost use Rattle.explored.specs.Known.{Lasting};
ghost use Rattle.first.specs.Settling.{history_of, Within, FoundSoFar, FewestFound, CanSettle, Settled, Answers};

use search::{Outcome, Question, Window};
use sheet::Sheet;

// A history: the first n of the entries.
// Kept: the array with its length beside it: a plan's history outlives the search that found it, and there is no heap and no slice lent for it.
#[derive(Clone, Copy)]
pub struct History {
    pub entries: [u16; sheet::MOST_TRANSITIONS],
    pub n: usize,
}

// Half way between two bounds.
fn half_way(low: usize, high: usize) -> usize
    requires { low < high }
    ensures { (low ≤ result) × (result < high) }
{
    low + (high - low) / 2
}

// The fewest transitions, where no run of fewer than `low` ends final and what was found is a plan or not: one of fewer is sought, by
// halves, until there is none.
fn lower(
    work: &mut [u32],
    best: &mut [u16],
    flags: &mut [bool],
    numbers: &mut [u32],
    index: &mut [u32],
    s: &Sheet,
    low: usize,
    o: Outcome,
) -> Outcome
    requires { Standing s.now work.old flags.old numbers.old × (bound_of s.now ≤ length best.old) × FoundSoFar s.now low best.old o × Lasting s.now index.old }
    ensures answer { FewestFound s.now best.new result }
    ensures stands { Standing s.now work.new flags.new numbers.new }
    ensures index { Lasting s.now index.new }
{
    let Outcome::Found { mut n, mut t } = o else {
        return o;
    };
    let mut tried = low;
    while tried < t {
        let left = half_way(tried, t);
        let a = Question {
            window: None,
            left,
            cut: true,
        };
        match search::explore(work, best, flags, numbers, index, s, &[], a) {
            Outcome::Found {
                n: entries,
                t: fewer,
            } => (n, t) = (entries, fewer),
            _ => tried = left + 1,
        }
    }
    Outcome::Found { n, t }
}

// So many bounds, the last ones, are tried at once where the cost of a search about doubles from bound to bound.
const LAST: usize = 3;

// Whether it does, after two searches that cost so much, the bound of one being lower by one: no answer depends on it. Small searches tell
// nothing of the next.
fn doubles(before: u32, cost: u32) -> bool {
    let b = u64::from(before);
    let c = u64::from(cost);
    (8 <= b) & (3 * b <= 2 * c) & (5 * c <= 11 * b)
}

// How many bounds to pass over next, after two searches that cost so much: one where the second cost little more. No answer depends on it.
fn leap(before: u32, cost: u32) -> usize {
    let b = u64::from(before);
    let c = u64::from(cost);
    usize::from(2 * c <= 3 * b)
}

// The bound to try where those below `low` are done, so many being passed over: D itself where that is one of the last, to be tried at once.
fn next_bound(low: usize, d: usize, at_once: bool, ahead: usize) -> usize
    requires { low ≤ d }
    ensures { (low ≤ result) × (result ≤ d) }
{
    if at_once && d - low < LAST {
        return d;
    }
    low + ahead.min(d - low)
}

// Raises the bound, from 0 to D, until a plan is found, or no run goes on past it. A plan's history is left in `best`.
fn deepen(
    work: &mut [u32],
    best: &mut [u16],
    flags: &mut [bool],
    numbers: &mut [u32],
    index: &mut [u32],
    s: &Sheet,
) -> Outcome
    requires { Standing s.now work.old flags.old numbers.old × (bound_of s.now ≤ length best.old) × Lasting s.now index.old }
    ensures answer { FewestFound s.now best.new result }
    ensures stands { Standing s.now work.new flags.new numbers.new }
    ensures index { Lasting s.now index.new }
{
    let d = s.found().layout.d;
    let mut low = 0;
    let mut at_once = false;
    let mut ahead = 0;
    let mut before = 0u32;
    while low <= d {
        let t = next_bound(low, d, at_once, ahead);
        let begun = engine::surveys(numbers);
        let a = Question {
            window: None,
            left: t,
            cut: false,
        };
        let o = search::explore(work, best, flags, numbers, index, s, &[], a);
        if !o.is_more() {
            return lower(work, best, flags, numbers, index, s, low, o);
        }
        let cost = engine::surveys(numbers).wrapping_sub(begun);
        at_once = doubles(before, cost);
        ahead = leap(before, cost);
        before = cost;
        low = t + 1;
    }
    Outcome::More
}

// The rank of what follows the first i entries: 0 where nothing does.
fn rank_at(h: History, i: usize) -> u32
    requires { Within h }
    ensures { (result ≡ rank (drop i (history_of h))) × (result ≤ 65536) }
{
    h.entries[..h.n].get(i).map_or(0, |e| u32::from(*e) + 1)
}

// Asks for a plan of at most t transitions whose history begins with the first i entries, what follows them lying in the window.
fn ask(
    work: &mut [u32],
    flags: &mut [bool],
    numbers: &mut [u32],
    index: &mut [u32],
    s: &Sheet,
    t: usize,
    h: History,
    i: usize,
    window: Window,
) -> Option<History>
    requires { Standing s.now work.old flags.old numbers.old × (t ≤ bound_of s.now) × Within h × (i ≤ h.n) × Lasting s.now index.old }
    ensures answer { Answers s.now t h i window result }
    ensures stands { Standing s.now work.new flags.new numbers.new }
    ensures index { Lasting s.now index.new }
{
    let mut entries = h.entries;
    let a = Question {
        window: Some(window),
        left: t,
        cut: true,
    };
    let o = search::explore(
        work,
        &mut entries,
        flags,
        numbers,
        index,
        s,
        &h.entries[..i],
        a,
    );
    let Outcome::Found { n, .. } = o else {
        return None;
    };
    Some(History { entries, n })
}

// Where the next window ends: half way from what is known to what is found.
fn middle(low: u32, rank: u32) -> u32
    requires { rank ≤ 65536 }
    ensures { (result ≤ rank) × (low < rank → low < result) }
{
    rank - rank.saturating_sub(low) / 2
}

// Settles entry i, those before it being settled: of what may follow them the least rank is sought, first below that of the plan at hand and
// then by halves.
fn narrow(
    work: &mut [u32],
    flags: &mut [bool],
    numbers: &mut [u32],
    index: &mut [u32],
    s: &Sheet,
    t: usize,
    h: History,
    i: usize,
) -> History
    requires { Standing s.now work.old flags.old numbers.old × CanSettle s.now t × Settled s.now t i h × (i ≤ h.n) × Lasting s.now index.old }
    ensures answer { Settled s.now t (i + 1) result }
    ensures stands { Standing s.now work.new flags.new numbers.new }
    ensures index { Lasting s.now index.new }
{
    let mut best = h;
    let mut low = 0;
    let mut high = rank_at(h, i);
    while low < rank_at(best, i) {
        let window = Window { low, high };
        match ask(work, flags, numbers, index, s, t, best, i, window) {
            Some(nearer) => best = nearer,
            None => low = high,
        }
        high = middle(low, rank_at(best, i));
    }
    best
}

// Settles the entries one after the other.
fn grow(
    work: &mut [u32],
    flags: &mut [bool],
    numbers: &mut [u32],
    index: &mut [u32],
    s: &Sheet,
    t: usize,
    h: History,
) -> History
    requires { Standing s.now work.old flags.old numbers.old × CanSettle s.now t × Settled s.now t 0 h × Lasting s.now index.old }
    ensures answer { Within result × FirstPlan s.now (history_of result) t }
    ensures stands { Standing s.now work.new flags.new numbers.new }
    ensures index { Lasting s.now index.new }
{
    let mut best = h;
    let mut settled = 0;
    // Kept: a `while`, since each turn changes best.n, where it ends.
    while settled < best.n {
        best = narrow(work, flags, numbers, index, s, t, best, settled);
        settled += 1;
    }
    best
}

// Writes a history into the front of the trace.
fn hand_out(trace: &mut [u16], h: History)
    requires { Within h × (h.n ≤ length trace.old) }
    ensures trace { trace.new ≡ history_of h ++ drop h.n trace.old }
{
    trace[..h.n].copy_from_slice(&h.entries[..h.n]);
}

// The first plan in the place of the plan found, which has the fewest transitions: its history goes into the trace.
fn settle(
    work: &mut [u32],
    trace: &mut [u16],
    flags: &mut [bool],
    numbers: &mut [u32],
    index: &mut [u32],
    s: &Sheet,
    entries: [u16; sheet::MOST_TRANSITIONS],
    o: Outcome,
) -> Outcome
    requires standing { Standing s.now work.old flags.old numbers.old × (bound_of s.now ≤ length trace.old) × Lasting s.now index.old }
    requires fewest_found { FewestFound s.now entries o × (length entries ≡ 64) }
    ensures answer { Reported 0 0 trace.old trace.new result (verdict_of s.now) }
{
    let Outcome::Found { n, t } = o else {
        return o;
    };
    let h = grow(work, flags, numbers, index, s, t, History { entries, n });
    hand_out(trace, h);
    Outcome::Found { n: h.n, t }
}

// The first plan of an accepted sheet; the work area is as long as required, the index of any length.
pub fn plan(s: &Sheet, work: &mut [u32], trace: &mut [u16], index: &mut [u32]) -> Outcome
    requires { (length work.old ≡ words_required s.now) × (bound_of s.now ≤ length trace.old) }
    ensures answer { Reported 0 0 trace.old trace.new result (verdict_of s.now) }
    ensures work { work.new ≡ replicate (length work.old) 0 }
    ensures index { index.new ≡ replicate (length index.old) 0 }
{
    let mut flags = [false; engine::FLAGS];
    let mut numbers = [0u32; engine::NUMBERS];
    search::stand(work, &mut flags, &mut numbers, s);
    index::begin(index);
    let mut entries = [0u16; sheet::MOST_TRANSITIONS];
    let o = deepen(work, &mut entries, &mut flags, &mut numbers, index, s);
    let r = settle(work, trace, &mut flags, &mut numbers, index, s, entries, o);
    work.fill(0);
    index.fill(0);
    r
}
