// Reads the text of a case: clauses between semicolons, ended by a comma; in each a word and then numbers.
// An empty line, or one that starts with '#'.
pub fn is_heading(t: &[u8]) -> bool {
    t.first().is_none_or(|c| *c == b'#')
}

// The line without its remark, which a comma starts.
pub fn clauses(t: &[u8]) -> &[u8] {
    t.split(|c| *c == b',').next().unwrap_or(t)
}

// What a clause is about, by the first two letters of its word.
#[derive(Clone, Copy, Debug, PartialEq, Eq)]
pub enum Topic {
    Counts,
    Fluent,
    Formula,
    Effect,
    Action,
    Program,
    ChainA,
    ChainB,
    ChainBoth,
    Bound,
    Distance,
    Magic,
    Last,
    Notes,
    Nested,
    Trailer,
}

// The word of a clause, if it is one of these; a blank before it is passed over.
pub fn topic_of(t: &[u8]) -> Option<Topic> {
    match t {
        [b' ', a, b, ..] => named(*a, *b),
        [a, b, _, ..] => named(*a, *b),
        _ => None,
    }
}

fn named(a: u8, b: u8) -> Option<Topic> {
    Some(match [a, b] {
        [b'c', b'o'] => Topic::Counts,
        [b'f', b'l'] => Topic::Fluent,
        [b'f', b'o'] => Topic::Formula,
        [b'e', b'f'] => Topic::Effect,
        [b'a', b'c'] => Topic::Action,
        [b'p', b'r'] => Topic::Program,
        [b'a', b'-'] => Topic::ChainA,
        [b'b', b'-'] => Topic::ChainB,
        [b'a', b'b'] => Topic::ChainBoth,
        [b'b', b'o'] => Topic::Bound,
        [b'd', b'i'] => Topic::Distance,
        [b'm', b'a'] => Topic::Magic,
        [b'l', b'a'] => Topic::Last,
        [b'n', b'o'] => Topic::Notes,
        [b'n', b'e'] => Topic::Nested,
        [b't', b'r'] => Topic::Trailer,
        _ => return None,
    })
}

// A number with one more digit; it stays where it would grow too large for any field.
fn with_digit(v: u32, digit: u8) -> u32 {
    if v > 99999999 {
        return v;
    }
    10 * v + u32::from(digit)
}

// The number at place k among the numbers of a clause; 0 where there are fewer.
pub fn number(t: &[u8], k: usize) -> u32 {
    t.split(|c| !c.is_ascii_digit())
        .filter(|digits| !digits.is_empty())
        .nth(k)
        .map_or(0, value)
}

// What digits say.
fn value(digits: &[u8]) -> u32 {
    digits
        .iter()
        .fold(0, |v, c| with_digit(v, c.saturating_sub(b'0')))
}

pub fn two(t: &[u8], k: usize) -> u16 {
    (number(t, k) % 65536) as u16
}
