// Builds the sheet that a line's clauses describe. No rule of the sheet is applied here.
use crate::scan::{self, Topic};
use crate::write;
use std::ops::Range;

// Where a sheet's first record lies in the buffer; notes are written before it.
const FIRST: usize = 512;

// A sheet in the buffer: how far after the first record each table and the trailer start, its bounds in the buffer, and
// what is shown beside the answer.
#[derive(Clone, Copy, Debug, PartialEq, Eq)]
pub struct Case {
    formulas: u32,
    effects: u32,
    actions: u32,
    programs: u32,
    trailer: u32,
    start: usize,
    end: usize,
    pub shows_trailer: bool,
    pub shows_notes: bool,
}

// The bytes of a sheet and of its trailer; none where they are not all in the buffer.
impl Case {
    pub fn sheet(self, s: &[u8]) -> &[u8] {
        s.get(self.start..self.end).unwrap_or(&[])
    }

    pub fn trailer(self, s: &[u8]) -> &[u8] {
        s.get(index(self.trailer, 0)..self.end).unwrap_or(&[])
    }
}

// Where the numbers of a clause go: from index `at` on, a byte each for those in `bytes`, two bytes each for the others.
#[derive(Drop)]
struct Fields {
    at: usize,
    numbers: Range<usize>,
    bytes: Range<usize>,
}

// The sheet with so many fluents, formulas, effects, actions and program records.
fn lay_out([f, q, e, a, p]: [u16; 5]) -> Case {
    let formulas = 2 * u32::from(f);
    let effects = formulas + 6 * u32::from(q);
    let actions = effects + 4 * u32::from(e);
    let programs = actions + 6 * u32::from(a);
    let trailer = programs + 8 * u32::from(p);
    Case {
        formulas,
        effects,
        actions,
        programs,
        trailer,
        start: FIRST,
        end: index(trailer, 18),
        shows_trailer: false,
        shows_notes: false,
    }
}

// The sheet with no records, before the first clause.
pub fn empty() -> Case {
    lay_out([0; 5])
}

// The index of what lies at an offset in a table.
fn index(table: u32, offset: u32) -> usize {
    FIRST + (table as usize) + (offset as usize)
}

// Writes numbers of the clause into their fields.
fn put(s: &mut [u8], t: &[u8], fields: Fields) {
    let Fields { at, numbers, bytes } = fields;
    let mut next = at;
    for k in numbers {
        let size = if bytes.contains(&k) { 1 } else { 2 };
        next = write::bytes(s, next, &scan::number(t, k).to_le_bytes()[..size]);
    }
}

// A sheet of given counts, with fluents of size 1 and 0 in all other records.
fn counts(s: &mut [u8], t: &[u8]) -> Case {
    let counts: [u16; 5] = std::array::from_fn(|k| scan::two(t, k));
    let c = lay_out(counts);
    write::zeros(s, FIRST, c.trailer as usize);
    write::fluents(s, FIRST, counts[0]);
    put(s, t, wide(index(c.trailer, 0), 0..6));
    write::bytes(s, index(c.trailer, 12), &c.trailer.to_le_bytes());
    write::bytes(s, index(c.trailer, 16), &[0x42, 0x51]);
    c
}

// Fields of two bytes each.
fn wide(at: usize, numbers: Range<usize>) -> Fields {
    Fields {
        at,
        numbers,
        bytes: 0..0,
    }
}

// The fields that a clause sets, if it sets any: a record's, or some of the trailer's.
fn fields_of(c: Case, topic: Topic, record: u16) -> Option<Fields> {
    let i = u32::from(record);
    Some(match topic {
        Topic::Fluent => Fields {
            at: index(0, 2 * i),
            numbers: 1..3,
            bytes: 1..3,
        },
        Topic::Formula => Fields {
            at: index(c.formulas, 6 * i),
            numbers: 1..5,
            bytes: 1..3,
        },
        Topic::Effect => Fields {
            at: index(c.effects, 4 * i),
            numbers: 1..4,
            bytes: 2..4,
        },
        Topic::Magic => Fields {
            at: index(c.trailer, 16),
            numbers: 0..2,
            bytes: 0..2,
        },
        Topic::Action => wide(index(c.actions, 6 * i), 1..4),
        Topic::Program => wide(index(c.programs, 8 * i), 1..5),
        Topic::Bound => wide(index(c.trailer, 10), 0..1),
        _ => return None,
    })
}

// Program record i + 1, with these parts.
fn link(s: &mut [u8], table: u32, kind: u16, i: u16, [a, b]: [u16; 2]) {
    let mut next = index(table, 8 * u32::from(i) + 8);
    for x in [kind, a, b, 0] {
        next = write::bytes(s, next, &x.to_le_bytes());
    }
}

// Program records of one kind, above the first named and up to the last; the parts of each by the number of the one below it.
fn chain<F: Fn(u16) -> [u16; 2]>(s: &mut [u8], table: u32, t: &[u8], parts: F)
    requires { F.IsAlwaysCallable parts }
{
    let kind = scan::two(t, 0);
    let last = scan::two(t, 2);
    for i in scan::two(t, 1)..last {
        link(s, table, kind, i, parts(i));
    }
}

// The last n bytes of the sheet alone.
fn last(c: Case, n: usize) -> Case {
    Case {
        start: c.end.checked_sub(n).unwrap_or(c.start),
        ..c
    }
}

// Room for n notes, which are to be shown.
fn noted(c: Case, n: usize) -> Case {
    Case {
        start: FIRST.checked_sub(n).unwrap_or(c.start),
        shows_notes: true,
        ..c
    }
}

// The sheet's bounds and what is shown, after a clause.
fn framed(c: Case, topic: Topic, n: u16) -> Case {
    match topic {
        Topic::Last => last(c, usize::from(n)),
        Topic::Notes => noted(c, usize::from(n)),
        Topic::Nested => noted(c, 98),
        Topic::Trailer => Case {
            shows_trailer: true,
            ..c
        },
        _ => c,
    }
}

// Changes the bytes as a clause says.
fn change(s: &mut [u8], c: Case, topic: Topic, t: &[u8]) {
    match topic {
        Topic::ChainA => chain(s, c.programs, t, |i| [i, 0]),
        Topic::ChainB => chain(s, c.programs, t, |i| [0, i]),
        Topic::ChainBoth => chain(s, c.programs, t, |i| [i, i]),
        Topic::Distance => {
            write::bytes(s, index(c.trailer, 12), &scan::number(t, 0).to_le_bytes());
        }
        Topic::Notes => write::counted(s, c.start, usize::from(scan::two(t, 0))),
        Topic::Nested => write::copy(s, c.start, FIRST, c.end),
        _ => {
            if let Some(fields) = fields_of(c, topic, scan::two(t, 0)) {
                put(s, t, fields);
            }
        }
    }
}

// The sheet after one clause; another word changes nothing.
fn changed(s: &mut [u8], c: Case, t: &[u8]) -> Case {
    let Some(topic) = scan::topic_of(t) else {
        return c;
    };
    if topic == Topic::Counts {
        return counts(s, t);
    }
    let r = framed(c, topic, scan::two(t, 0));
    change(s, r, topic, t);
    r
}

// The sheet after the clauses, in their order.
pub fn build(s: &mut [u8], base: Case, t: &[u8]) -> Case {
    let mut c = base;
    for clause in t.split(|b| *b == b';') {
        c = changed(s, c, clause);
    }
    c
}
