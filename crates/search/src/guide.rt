// The guide: moves that are given first, and a window of what may follow them. So many of the moves are used, or nothing is asked any more.
// Whether it lets a transition pass, and what the transition leaves of it; the trace.
ghost use Rattle.std.specs.Prelude.{◌≡◌, ◌&&◌, ◌≤◌, ◌<◌, length, IfSome};
ghost use Rattle.runs.specs.Guide.{in_window, may_end};
ghost use Rattle.steps.specs.Laid.{test_code};
ghost use Rattle.engine.specs.Going.{move_of};
ghost use Rattle.search.specs.Outcome.{is_found};
ghost use Rattle.search.specs.declared.Window.{Window};
ghost use Rattle.search.specs.Moves.{guide_at, label_of, passes, left_over, entries, noted};

use crate::{Outcome, Window};

fn in_window(w: Window, rank: u32) -> bool
    ensures { result ≡ in_window w.low w.high rank }
{
    (w.low..w.high).contains(&rank)
}

// Whether the guide lets a transition pass: a test always, else the next move, or one in the window where none is left; any where
// nothing is asked any more.
pub fn lets_pass(moves: &[u16], w: Window, given: Option<usize>, entry: u32) -> bool
    requires { entry ≤ test_code }
    ensures { result ≡ passes (guide_at moves.now w given) (move_of entry) }
{
    if entry == steps::TEST {
        return true;
    }
    let Some(used) = given else {
        return true;
    };
    match moves.get(used) {
        Some(&next) => u32::from(next) == entry,
        None => in_window(w, entry + 1),
    }
}

// What a transition that passed leaves of the guide.
pub fn given_after(moves: &[u16], given: Option<usize>, entry: u32) -> Option<usize>
    requires { IfSome given (λ used. used ≤ length moves.now) }
    ensures within { IfSome result (λ used. used ≤ length moves.now) }
    ensures rest { (w : Window) → guide_at moves.now w result ≡ left_over (guide_at moves.now w given) (move_of entry) }
{
    if entry == steps::TEST {
        return given;
    }
    match given {
        Some(used) if used < moves.len() => Some(used + 1),
        _ => None,
    }
}

// What is left of the guide, as a number: 0 where nothing is asked any more, else one more than the moves used.
// Kept: a number, since it is packed into the key of a configuration (`Keyed`, `head_of`).
pub fn label_of(given: Option<usize>) -> usize
    requires { IfSome given (λ used. used ≤ 64) }
    ensures { result ≡ label_of given }
{
    match given {
        Some(used) => used + 1,
        None => 0,
    }
}

// How many entries a transition puts into a history.
pub fn entries_of(entry: u32) -> usize
    ensures { (result ≡ entries (move_of entry)) × (result ≤ 1) }
{
    usize::from(entry != steps::TEST)
}

// Whether an answer is a plan: then the move before it is written into place n of the trace.
pub fn note(trace: &mut [u16], n: usize, entry: u32, answer: Outcome) -> bool
    requires { (n < length trace.old) × (entry ≤ test_code) }
    ensures answer { result ≡ is_found answer }
    ensures trace { trace.new ≡ noted (move_of entry) n answer trace.old }
{
    let found = answer.is_found();
    if found && entry < steps::TEST {
        trace[n] = entry as u16;
    }
    found
}

// Whether a history may end here and the remaining program is final.
pub fn is_over(moves: &[u16], w: Window, given: Option<usize>, done: bool) -> bool
    ensures { result ≡ (may_end (guide_at moves.now w given) && done) }
{
    let Some(used) = given else {
        return done;
    };
    match moves.get(used) {
        Some(_) => false,
        None => in_window(w, 0) & done,
    }
}
