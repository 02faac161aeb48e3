// The bounded depth-first search over the engine's configurations, under a guide: the one primitive of the strategies. And replay.
#![tactic(auto)]

ghost use Rattle.std.specs.Prelude.{◌≡◌, true, false, ℕ, ◌≤◌, length, get_or, replicate, IfSome};
ghost use Rattle.golog.specs.Prog.{Prog};
ghost use Rattle.demands.specs.Decoded.{bound_of};
ghost use Rattle.demands.specs.Planning.{accepts_of};
ghost use Rattle.engine.specs.Tables.{flag_places, number_places, Prepared, Surveyed, Filled};
ghost use Rattle.sheet.specs.Inspection.{words_required};
ghost use Rattle.engine.specs.Frames.{Frame};
ghost use Rattle.explored.specs.Known.{Lasting};
ghost use Rattle.search.specs.Outcome.{Reported, is_found, is_more, told};
ghost use Rattle.search.specs.Moves.{subject_of};
ghost use Rattle.search.specs.Searching.{verdict_on, Standing, Visited, Told, Ready, SearchedAs, LookedAt, Going, Preserves, Expanded, Came, Follows};

use engine::{Cursor, Taken};
use explored::Subject;
use golog::State;
use sheet::Sheet;

mod guide;
mod pruning;

// What a search comes to: a run that ends final, of n moves and t transitions; none at all; none within the bound.
#[derive(Clone, Copy, Debug, PartialEq, Eq)]
pub enum Outcome {
    Found { n: usize, t: usize },
    Nothing,
    More,
}

impl Outcome {
    pub fn is_found(self) -> bool
        ensures { result ≡ is_found self }
    {
        matches!(self, Outcome::Found { .. })
    }

    pub fn is_more(self) -> bool
        ensures { result ≡ is_more self }
    {
        matches!(self, Outcome::More)
    }
}

// What may follow the given moves, by rank: nothing is 0, and an entry e is e + 1. From low on, below high.
#[derive(Clone, Copy, Debug, PartialEq, Eq)]
pub struct Window {
    pub low: u32,
    pub high: u32,
}

// What is asked of a search: a run of at most `left` transitions that makes the given moves, followed by what the window has; without a
// window, any run. With `cut` only a plan matters, as where the bound ran out in some run before.
#[derive(Clone, Copy, Debug, PartialEq, Eq)]
pub struct Question {
    pub window: Option<Window>,
    pub left: usize,
    pub cut: bool,
}

// What stays the same throughout a search: the window, and the round in which the index is told.
// Kept: a window also where nothing is asked, when none reads it: the clauses take window and given moves apart (`guide_at`).
#[derive(Clone, Copy)]
struct Task {
    window: Window,
    round: u32,
}

// A visit to a configuration: the transitions made, which number its frame, and those left; how many of the given moves are used, unless
// nothing is asked any more; the moves made; the state.
#[derive(Clone, Copy)]
struct Visit {
    depth: usize,
    left: usize,
    given: Option<usize>,
    n: usize,
    state: State,
}

// Where the transitions of a visit are tried from: whether the bound ran out in some run before, and the first cursor.
#[derive(Clone, Copy)]
struct Start {
    ran: bool,
    cursor: Cursor,
}

// What a search comes to that found no plan: whether the bound ran out in some run is all that matters.
fn unfound(cut: bool) -> Outcome
    ensures { result ≡ told cut }
{
    if cut { Outcome::More } else { Outcome::Nothing }
}

// Looks at the configuration visited: what the search comes to, where that can be told before a transition is made, or else the first
// cursor. `cut` is whether the bound ran out in some run before.
fn look(
    flags: &mut [bool],
    numbers: &mut [u32],
    work: &[u32],
    s: &Sheet,
    moves: &[u16],
    t: Task,
    q: Visit,
    cut: bool,
) -> Result<Cursor, Outcome>
    requires { Prepared s.now flags.old numbers.old × ((p : Prog) × Visited s.now work.now moves.now t q p) }
    ensures { LookedAt s.now work.now moves.now t q cut flags.old flags.new numbers.old numbers.new result }
{
    if pruning::only_final(cut, q.left) {
        let end = engine::is_final(flags, numbers, work, s, q.state, q.depth);
        if guide::is_over(moves, t.window, q.given, end) {
            return Err(Outcome::Found { n: q.n, t: q.depth });
        }
        return Err(Outcome::More);
    }
    let x = engine::survey(flags, numbers, work, s, q.state, q.depth);
    if guide::is_over(moves, t.window, q.given, x.done) {
        return Err(Outcome::Found { n: q.n, t: q.depth });
    }
    if q.left == 0 {
        return Err(unfound(!engine::is_spent(x.first)));
    }
    if pruning::too_far(cut, q.left, x.soon) {
        return Err(Outcome::More);
    }
    Ok(x.first)
}

// The configuration visited, as the index is asked of it.
fn subject_of(q: Visit) -> Subject
    requires { IfSome q.given (λ used. used ≤ 64) }
    ensures { result ≡ subject_of q }
{
    Subject {
        depth: q.depth,
        state: q.state,
        label: guide::label_of(q.given),
    }
}

// What is known of the configuration visited: by what the index says of it, or else by a look.
fn see(
    flags: &mut [bool],
    numbers: &mut [u32],
    work: &[u32],
    index: &[u32],
    s: &Sheet,
    moves: &[u16],
    t: Task,
    q: Visit,
    cut: bool,
) -> Result<Cursor, Outcome>
    requires { Prepared s.now flags.old numbers.old × ((p : Prog) × Visited s.now work.now moves.now t q p) × Told s.now moves.now t index.now }
    ensures { LookedAt s.now work.now moves.now t q cut flags.old flags.new numbers.old numbers.new result }
{
    if explored::has_room(index) {
        let c = subject_of(q);
        if let Some(more) = explored::recall(index, work, s, c, q.left, t.round, cut) {
            return Err(unfound(more));
        }
    }
    look(flags, numbers, work, s, moves, t, q, cut)
}

// The visit that a transition leads to.
fn follow(moves: &[u16], q: Visit, x: Taken) -> Visit
    requires { (1 ≤ q.left) × IfSome q.given (λ used. used ≤ length moves.now) × (q.n ≤ 64) × (q.depth ≤ 64) }
    ensures { Follows moves.now q x result }
{
    Visit {
        depth: q.depth + 1,
        left: q.left - 1,
        given: guide::given_after(moves, q.given, x.entry),
        n: q.n + guide::entries_of(x.entry),
        state: x.state,
    }
}

// Notes in the index what came of a visit that was searched on from, unless that is a plan.
fn remember(
    index: &mut [u32],
    work: &[u32],
    s: &Sheet,
    moves: &[u16],
    t: Task,
    q: Visit,
    cut: bool,
    o: Outcome,
)
    requires { Told s.now moves.now t index.old × SearchedAs s.now work.now moves.now t q cut o }
    ensures { Told s.now moves.now t index.new }
{
    if explored::has_room(index) && !o.is_found() {
        let c = subject_of(q);
        let flag = explored::flag_of(cut, o.is_more());
        explored::note(index, work, s, c, q.left, t.round, flag);
    }
}

// Fills the tables for the configuration visited again, where they may have been filled for another in between.
fn refresh(flags: &mut [bool], numbers: &mut [u32], work: &[u32], s: &Sheet, q: Visit, stale: bool)
    requires prepared { Prepared s.now flags.old numbers.old × (stale ≡ false → Surveyed s.now q.state q.depth flags.old numbers.old) }
    requires by_index { (left : ℕ) × (p : Prog) × Frame s.now left work.now q.depth p }
    ensures tables { Surveyed s.now q.state q.depth flags.new numbers.new }
    ensures written { Filled q.depth q.depth flags.old flags.new numbers.old numbers.new }
{
    if stale {
        engine::survey(flags, numbers, work, s, q.state, q.depth);
    }
}

// Tries the transitions ahead of a cursor of the configuration visited, until a plan is found: each is made in the next frame and, if the
// guide lets it pass, visited.
#[cycle(searching)]
fn expand(
    work: &mut [u32],
    trace: &mut [u16],
    flags: &mut [bool],
    numbers: &mut [u32],
    index: &mut [u32],
    s: &Sheet,
    moves: &[u16],
    t: Task,
    q: Visit,
    start: Start,
) -> Outcome
    requires { Going s.now work.old moves.now (length trace.old) t q start.cursor flags.old numbers.old × Told s.now moves.now t index.old }
    ensures answer { Expanded s.now work.old moves.now trace.old trace.new t q start.ran start.cursor flags.old numbers.old result }
    ensures tables { Preserves s.now work.old work.new q flags.old flags.new numbers.old numbers.new }
    ensures index { Told s.now moves.now t index.new }
{
    let mut cut = start.ran;
    let mut k = start.cursor;
    let mut stale = false;
    while !engine::is_spent(k) {
        refresh(flags, numbers, work, s, q, stale);
        let Some(x) = engine::next(work, flags, numbers, s, q.state, q.depth, k) else {
            return unfound(cut);
        };
        k = x.cursor;
        stale = false;
        if guide::lets_pass(moves, t.window, q.given, x.entry) {
            let v = follow(moves, q, x);
            let (o, tried) = search_from(work, trace, flags, numbers, index, s, moves, t, v, cut);
            stale = tried & (engine::SETS <= q.left);
            if guide::note(trace, q.n, x.entry, o) {
                return o;
            }
            cut = o.is_more();
        }
    }
    unfound(cut)
}

// What a visit comes to: what is seen of it, or else what its transitions come to, which is noted in the index. And whether they were tried.
#[cycle(searching)]
fn search_from(
    work: &mut [u32],
    trace: &mut [u16],
    flags: &mut [bool],
    numbers: &mut [u32],
    index: &mut [u32],
    s: &Sheet,
    moves: &[u16],
    t: Task,
    q: Visit,
    cut: bool,
) -> (Outcome, bool)
    requires { Prepared s.now flags.old numbers.old × ((p : Prog) × Ready s.now work.old moves.now (length trace.old) t q p) × Told s.now moves.now t index.old }
    ensures answer { Came s.now work.old moves.now trace.old trace.new t q cut result.0 }
    ensures tables { Preserves s.now work.old work.new q flags.old flags.new numbers.old numbers.new }
    ensures untried { result.1 ≡ false → Filled q.depth q.depth flags.old flags.new numbers.old numbers.new }
    ensures index { Told s.now moves.now t index.new }
{
    match see(flags, numbers, work, index, s, moves, t, q, cut) {
        Err(o) => (o, false),
        Ok(cursor) => {
            let start = Start { ran: cut, cursor };
            let o = expand(work, trace, flags, numbers, index, s, moves, t, q, start);
            remember(index, work, s, moves, t, q, cut, o);
            (o, true)
        }
    }
}

// Makes a search stand at the sheet's first configuration: its program in frame 0, and in the tables what is told once of the sheet.
pub fn stand(work: &mut [u32], flags: &mut [bool], numbers: &mut [u32], s: &Sheet)
    requires work_len { length work.old ≡ words_required s.now }
    requires flags_len { (length flags.old ≡ flag_places) × (length numbers.old ≡ number_places) × ((i : ℕ) → get_or numbers.old i 0 ≡ 0) }
    ensures stands { Standing s.now work.new flags.new numbers.new }
{
    engine::put_first(work, s);
    engine::prepare(flags, numbers, s);
}

// Searches from the first configuration, in a round of the index of its own.
pub fn explore(
    work: &mut [u32],
    trace: &mut [u16],
    flags: &mut [bool],
    numbers: &mut [u32],
    index: &mut [u32],
    s: &Sheet,
    moves: &[u16],
    a: Question,
) -> Outcome
    requires { Standing s.now work.old flags.old numbers.old × (a.left ≤ bound_of s.now) × (a.left ≤ length trace.old) × (length moves.now ≤ 64)
        × Lasting s.now index.old }
    ensures answer { Reported 0 0 trace.old trace.new result (verdict_on s.now moves.now a) }
    ensures stands { Standing s.now work.new flags.new numbers.new }
    ensures index { Lasting s.now index.new }
{
    let t = Task {
        window: a.window.unwrap_or(Window { low: 0, high: 0 }),
        round: index::next_round(index),
    };
    let q = Visit {
        depth: 0,
        left: a.left,
        given: a.window.and(Some(0)),
        n: 0,
        state: engine::initial_of(s),
    };
    let (o, _tried) = search_from(work, trace, flags, numbers, index, s, moves, t, q, a.cut);
    o
}

// The words of the index that a replay lends its search.
const OWN_INDEX: usize = 2048;

// Whether some run of at most D transitions makes exactly these moves and ends final; the work area is as long as required.
pub fn accepts(s: &Sheet, history: &[u16], work: &mut [u32]) -> bool
    requires { (length work.old ≡ words_required s.now) × (length history.now ≤ 64) }
    ensures answer { result ≡ accepts_of s.now history.now }
    ensures work { work.new ≡ replicate (length work.old) 0 }
{
    let mut flags = [false; engine::FLAGS];
    let mut numbers = [0u32; engine::NUMBERS];
    stand(work, &mut flags, &mut numbers, s);
    let a = Question {
        window: Some(Window { low: 0, high: 1 }),
        left: s.found().layout.d,
        cut: true,
    };
    let mut trace = [0u16; sheet::MOST_TRANSITIONS];
    let mut index = [0u32; OWN_INDEX];
    index::begin(&mut index);
    let o = explore(
        work,
        &mut trace,
        &mut flags,
        &mut numbers,
        &mut index,
        s,
        history,
        a,
    );
    work.fill(0);
    o.is_found()
}
