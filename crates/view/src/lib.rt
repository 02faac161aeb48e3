// A view of a sheet: it looks at the caller's bytes and copies nothing. `opened_of`, `count_from` and `find_in` do the work of `open` and
// `find`, and `look_up` stands above them.
#![tactic(auto)]

ghost use Rattle.std.specs.Prelude.{◌≡◌};
ghost use Rattle.lookup.specs.LookUp.{look_of};
ghost use Rattle.view.specs.View.{opened_of, count_from, found_at, view_of, found_in};

use records::Fluent;
use sheet::{Cause, Refusal};

// Document 01: "a struct holding the sheet slice and table offset"; or, of a sheet that was turned away, why, which `find` answers then.
#[derive(Clone, Copy)]
pub struct View<'a> {
    pub src: &'a [u8],
    pub opened: Result<usize, Refusal>,
}

fn opened_of(s: &[u8]) -> Result<usize, Refusal>
    ensures { result ≡ opened_of s.now }
{
    Ok(sheet::inspect(s)?.layout.fluents)
}

// How many fluents stand from an offset on: no more than the trailer counts and than the bytes hold.
#[tactic(auto, unfolding(crate::specs::View::count_from))]
fn count_from(s: &[u8], at: usize) -> usize
    ensures { result ≡ count_from s.now at }
{
    let n = s.len();
    if n < 18 {
        return 0;
    }
    sheet::read_trailer(s).f.min(n.saturating_sub(at) / 2)
}

// Fluent x of the table that starts at an offset.
#[tactic(auto, using(crate::proofs::Finding::past_end, crate::proofs::Finding::table_long), unfolding(crate::specs::View::found_at))]
fn find_in(s: &[u8], at: usize, x: usize) -> Result<Fluent, Refusal>
    ensures { result ≡ found_at s.now at x }
{
    let n = s.len();
    if n < at {
        return Err(Refusal::from(Cause::NoFluent));
    }
    lookup::look_in(&s[at..n], count_from(s, at), x)
}

// Opens a view of a sheet, which is checked.
pub fn open<'a>(s: &'a [u8]) -> View<'a>
    ensures { result ≡ view_of s.entry }
{
    View {
        src: s,
        opened: opened_of(s),
    }
}

// Fluent x in a view, whatever the view holds.
pub fn find<'a>(v: View<'a>, x: usize) -> Result<Fluent, Refusal>
    ensures { result ≡ found_in v.entry x }
{
    find_in(v.src, v.opened?, x)
}

// Fluent x of a sheet.
#[tactic(auto, using(crate::proofs::Finding::found))]
pub fn look_up(s: &[u8], x: usize) -> Result<Fluent, Refusal>
    ensures { result ≡ look_of s.now x }
{
    find(open(s), x)
}
