// An index of keys in a lent slice of any length: each key is a run of words and has one value. Words 0 and 1 are the number of words that
// entries use and the round, then come the heads, then the entries.
#![tactic(auto)]

ghost use Rattle.std.specs.Prelude.{◌≡◌, true, List, ℕ, ◌+◌, ◌-◌, ◌*◌, ◌/◌, ◌^◌, ◌≤◌, ◌<◌, length, get_or, IfSome};
ghost use Rattle.index.specs.Written.{Entered};
ghost use Rattle.index.specs.Content.{Entry, heads_of, Says, Sound, Begun, Opened, Linked, Located, Matches, Tells, Notes};

// Rounds are below this number.
const ROUNDS: u32 = 65536;

// A value is below this number: in an entry's second word the key's length stands above it.
const VALUES: u32 = 33554432;

// A key has fewer words than this; a longer one is not noted.
const LENGTHS: usize = 128;

// One head for each 16 words that a place of 32 bits reaches, so that there are about as many as there is room for entries of a dozen words.
#[tactic(auto, unfolding(crate::specs::Content::heads_of))]
fn heads(len: usize) -> usize
    ensures { (result ≡ heads_of len) × (result < 2 ^ 28) }
{
    len.min(4294967295) / 16
}

// An index that says nothing, in round 0; the words behind the heads are left as they are.
pub fn begin(index: &mut [u32])
    ensures { Begun index.new }
{
    let n = index.len();
    let end = n.min(2 + heads(n));
    index[..end].fill(0);
}

// Opens the next round, and answers its number; after the last one the index begins anew. One too short for a round has no entries.
// Kept: 0 for one too short and no Option, since `Opened` has the round that `round_in` reads in word 1, which is 0 where there is none.
pub fn next_round(index: &mut [u32]) -> u32
    requires { Sound index.old }
    ensures { Opened index.old index.new result }
{
    if index.len() < 2 {
        return 0;
    }
    let round = index[1];
    if round < ROUNDS - 1 {
        index[1] = round + 1;
        return round + 1;
    }
    begin(index);
    index[1] = 1;
    1
}

// A word stirred into a sum of 33 bits: a product by a large odd number, its upper half added to its lower half.
fn stir(h: u64, x: u64) -> u64
    requires { (h < 2 ^ 33) × (x < 2 ^ 32) }
    ensures { result < 2 ^ 33 }
{
    let p = ((h + x) % 4294967296) * 2654435761;
    p / 4294967296 + p % 4294967296
}

// Which of n heads a key belongs to: its sum's share of them.
fn bucket(key: &[u32], n: usize) -> usize
    requires { (0 < n) × (n < 2 ^ 28) }
    ensures { result < n }
{
    let mut h = 0;
    for x in key {
        h = stir(h, u64::from(*x));
    }
    ((h % 4294967296) * (n as u64) / 4294967296) as usize
}

// Whether the entry at `at` has the key.
fn has_key(index: &[u32], at: usize, key: &[u32]) -> bool
    requires { at + 2 + get_or index.now (at + 1) 0 / 2 ^ 25 ≤ length index.now }
    ensures { result ≡ true → Matches index.now at key.now }
{
    let n = key.len();
    (index[at + 1] / VALUES) as usize == n && &index[at + 2..at + 2 + n] == key
}

// The head that a key belongs to, where there are any.
fn head_for(index: &[u32], key: &[u32]) -> Option<usize>
    ensures { IfSome result (λ x. (1 < x) × (x ≤ 1 + heads_of (length index.now))) }
{
    let n = heads(index.len());
    if n == 0 {
        return None;
    }
    Some(2 + bucket(key, n))
}

// The place of the entry with the key, by the links from a head on.
// Kept: a link is 0 where it leads nowhere, since it stands in a word of the lent index (`Linked`, specs/Content.antt).
#[tactic(auto, unfolding(crate::specs::Content::heads_of))]
fn look(index: &[u32], key: &[u32], head: usize) -> Option<usize>
    requires { Sound index.now × (1 < head) × (head ≤ 1 + heads_of (length index.now)) }
    ensures { (es : List Entry) → Says index.now es → Located es key.now result }
{
    let mut at = index[head] as usize;
    while at != 0 {
        if has_key(index, at, key) {
            return Some(at);
        }
        at = index[at] as usize;
    }
    None
}

// The value that the index has of a key.
pub fn find(index: &[u32], key: &[u32]) -> Option<u32>
    requires { Sound index.now }
    ensures { (es : List Entry) → Says index.now es → Tells es key.now result }
{
    let head = head_for(index, key)?;
    let at = look(index, key, head)?;
    Some(index[at + 1] % VALUES)
}

// An entry's second word.
fn header(value: u32, k: usize) -> u32
    requires { (value < 2 ^ 25) × (k < 128) }
    ensures { result ≡ value + 2 ^ 25 * k }
{
    value + VALUES * k as u32
}

// Writes an entry.
fn enter(index: &mut [u32], at: usize, next: u32, header: u32, key: &[u32])
    requires { at + 2 + length key.now ≤ length index.old }
    ensures { Entered at next header key.now index.old index.new }
{
    index[at] = next;
    index[at + 1] = header;
    let from = at + 2;
    let to = from + key.len();
    index[from..to].copy_from_slice(key);
}

// Adds an entry behind the last one, where there is room, and lets the head lead to it.
#[tactic(auto, unfolding(crate::specs::Content::heads_of))]
fn add(index: &mut [u32], key: &[u32], head: usize, value: u32)
    requires lt_head { (1 < head) × (head ≤ 1 + heads_of (length index.old)) }
    requires value_bound { (value < 2 ^ 25) × (length key.now < 128) }
    ensures { Notes key.now value index.old index.new }
{
    let used = index[0] as usize;
    let end = 2 + heads(index.len()) + used;
    let k = key.len();
    if end + 2 + k <= index.len().min(4294967295) {
        let next = index[head];
        enter(index, end, next, header(value, k), key);
        index[head] = end as u32;
        index[0] = (used + 2 + k) as u32;
    }
}

// Notes the value of a key: in its entry where there is one, else in a new one where there is room.
pub fn note(index: &mut [u32], key: &[u32], value: u32)
    requires { Sound index.old × (value < 2 ^ 25) }
    ensures { Notes key.now value index.old index.new }
{
    if LENGTHS <= key.len() {
        return;
    }
    let Some(head) = head_for(index, key) else {
        return;
    };
    match look(index, key, head) {
        Some(at) => index[at + 1] = header(value, key.len()),
        None => add(index, key, head, value),
    }
}
