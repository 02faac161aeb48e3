// The key of a configuration: its remaining program, its state and a label, in few words. Equal keys are those of equal configurations.
#![tactic(auto)]

ghost use Rattle.std.specs.Prelude.{◌≡◌, true, ℕ, ◌+◌, ◌*◌, ◌/◌, ◌%◌, ◌^◌, ◌≤◌, ◌<◌, length, get_or, take, IfSome};
ghost use Rattle.golog.specs.Prog.{Prog};
ghost use Rattle.engine.specs.Frames.{Frame};
ghost use Rattle.keys.specs.Packed.{two_at, four_at, eight_at, node_at, pair_at, limit_of, words_of, word_at, head_of, Coded, CodedPair, Whole, WrittenValues, WrittenNodes, Held, Packed};
ghost use Rattle.keys.specs.Keyed.{Keyed};

use golog::State;
use sheet::Sheet;

// How many words a caller has for a key: a configuration that takes more has none.
pub const WORDS: usize = 32;

// Limits of what a key holds: 4 bits for a value and for a tag, 12 for a node's number in a pair, 28 for one in a word of its own, 12 for the
// count of nodes, 16 for the label.
const VALUES: u8 = 16;

const TAGS: u32 = 16;

const NARROW: u32 = 4096;

const LARGE: u32 = 268435456;

const NODES: usize = 4096;

const LABELS: usize = 65536;

// The lower four bits of a value.
fn low(x: u8) -> u32
    ensures { result ≡ x % 16 }
{
    u32::from(x % VALUES)
}

// Two values.
fn two(values: &[u8; 32], i: usize) -> u32
    requires { i + 2 ≤ 32 }
    ensures { result ≡ two_at values.now i }
{
    low(values[i]) + 16 * low(values[i + 1])
}

// Four values.
#[tactic(auto, unfolding(crate::specs::Packed::four_at))]
fn four(values: &[u8; 32], i: usize) -> u32
    requires { i + 4 ≤ 32 }
    ensures { (result ≡ four_at values.now i) × (result < 65536) }
{
    two(values, i) + 256 * two(values, i + 2)
}

// Eight values.
#[tactic(auto, unfolding(crate::specs::Packed::eight_at))]
fn eight(values: &[u8; 32], i: usize) -> u32
    requires { i + 8 ≤ 32 }
    ensures { result ≡ eight_at values.now i }
{
    four(values, i) + 65536 * four(values, i + 4)
}

// Whether all values from place `from` on are below a limit.
// Kept: a loop without an early exit: the two calls in `pack` take 5 ns with it, and 15 ns with `iter().all(..)` (both in plain Rust, rustc -O).
fn are_below(values: &[u8; 32], from: usize, limit: u8) -> bool
    requires { from ≤ 32 }
    ensures { result ≡ true → (k : ℕ) → from ≤ k → k < 32 → get_or values.now k 0 < limit }
{
    let mut below = true;
    for v in &values[from..] {
        below &= *v < limit;
    }
    below
}

// Writes n groups of eight values, each into a word, from word 1 on.
fn write_values(key: &mut [u32], values: &[u8; 32], n: usize)
    requires { (n ≤ 4) × (1 + n ≤ length key.old) }
    ensures { WrittenValues values.now n key.old key.new }
{
    for k in 0..n {
        key[1 + k] = eight(values, 8 * k);
    }
}

// The lower bits of a node's tag and number, those of a number below the limit.
fn node<const LIMIT: u32>(work: &[u32], i: usize) -> u32
    requires { (i + 3 ≤ length work.now) × (0 < LIMIT) × (LIMIT ≤ 268435456) }
    ensures { (result ≡ node_at LIMIT work.now i) × (result < 16 * LIMIT) }
{
    work[i] % TAGS + 16 * (work[i + 1] % LIMIT)
}

// Whether that is all of them: there are no higher bits.
fn is_coded(work: &[u32], i: usize, limit: u32) -> bool
    requires { i + 3 ≤ length work.now }
    ensures { result ≡ true → Coded limit work.now i }
{
    (work[i] < TAGS) & (work[i + 1] < limit)
}

// The first of n nodes and, where there is one, the second.
#[tactic(auto, using(crate::proofs::Joined::pair_two, crate::proofs::Joined::pair_one))]
fn pair(work: &[u32], i: usize, n: usize) -> u32
    requires { (i + 3 * n ≤ length work.now) × (0 < n) }
    ensures { result ≡ pair_at work.now i n }
{
    if 1 < n {
        return node::<NARROW>(work, i) + 65536 * node::<NARROW>(work, i + 3);
    }
    node::<NARROW>(work, i)
}

fn both_coded(work: &[u32], i: usize, n: usize) -> bool
    requires { (i + 3 * n ≤ length work.now) × (0 < n) }
    ensures { result ≡ true → CodedPair work.now i n }
{
    if 1 < n {
        return is_coded(work, i, NARROW) & is_coded(work, i + 3, NARROW);
    }
    is_coded(work, i, NARROW)
}

// How many words n nodes take.
fn words_of(wide: bool, n: usize) -> usize
    requires { n < 2 ^ 63 }
    ensures { result ≡ words_of wide n }
{
    if wide { n } else { (n + 1) / 2 }
}

// The k-th of these, for the nodes from `from` on.
fn word<const WIDE: bool>(work: &[u32], from: usize, n: usize, k: usize) -> u32
    requires { (from + 3 * n ≤ length work.now) × (k < words_of WIDE n) }
    ensures { result ≡ word_at WIDE work.now from n k }
{
    if WIDE {
        node::<LARGE>(work, from + 3 * k)
    } else {
        pair(work, from + 6 * k, n - 2 * k)
    }
}

// Whether it is all of its nodes.
fn is_whole<const WIDE: bool>(work: &[u32], from: usize, n: usize, k: usize) -> bool
    requires { (from + 3 * n ≤ length work.now) × (k < words_of WIDE n) }
    ensures { result ≡ true → Whole WIDE work.now from n k }
{
    if WIDE {
        is_coded(work, from + 3 * k, LARGE)
    } else {
        both_coded(work, from + 6 * k, n - 2 * k)
    }
}

// Writes n nodes, a word each or two a word, from word `to` on, and tells whether they are all there.
fn write<const WIDE: bool>(key: &mut [u32], to: usize, work: &[u32], from: usize, n: usize) -> bool
    requires { (from + 3 * n ≤ length work.now) × (to + words_of WIDE n ≤ length key.old) }
    ensures written { WrittenNodes WIDE work.now from n to key.old key.new }
    ensures whole { result ≡ true → (k : ℕ) → k < n → Coded (limit_of WIDE) work.now (from + 3 * k) }
{
    let mut whole = true;
    for k in 0..words_of(WIDE, n) {
        key[to + k] = word::<WIDE>(work, from, n, k);
        whole &= is_whole::<WIDE>(work, from, n, k);
    }
    whole
}

// Writes n nodes from word `to` on: in pairs, and where not all fit in pairs, a word each. Where they fit, whether each has a word of its own.
fn write_nodes(key: &mut [u32], to: usize, work: &[u32], from: usize, n: usize) -> Option<bool>
    requires { (from + 3 * n ≤ length work.now) × (to + (n + 1) / 2 ≤ length key.old) }
    ensures len { length key.new ≡ length key.old }
    ensures held { IfSome result (λ wide. Held wide work.now from n to (words_of wide n) key.old key.new) }
{
    if write::<false>(key, to, work, from, n) {
        return Some(false);
    }
    if to + n <= key.len() && write::<true>(key, to, work, from, n) {
        return Some(true);
    }
    None
}

// Whether interrupts run, the number of nodes, the label, and whether each node has a word of its own, in one word.
#[tactic(auto, unfolding(crate::specs::Packed::head_of))]
fn head(running: bool, n: usize, label: usize, wide: bool) -> u32
    requires { (n < 4096) × (label < 65536) }
    ensures { result ≡ head_of running n label wide }
{
    u32::from(running) + 2 * (n as u32) + 8192 * (label as u32) + 536870912 * u32::from(wide)
}

// Packs a state of `groups` groups of values, the n nodes at `at` and a label: how many words that takes, where they fit.
fn pack(
    key: &mut [u32],
    work: &[u32],
    at: usize,
    n: usize,
    st: State,
    groups: usize,
    label: usize,
) -> Option<usize>
    requires { (at + 3 * n ≤ length work.now) × (groups ≤ 4) }
    ensures { IfSome result (λ size. (size ≤ length key.old) × Packed groups st work.now at n label (take size key.new)) }
{
    let least = 1 + groups + (n + 1) / 2;
    if (key.len() < least) | (NODES <= n) | (LABELS <= label) {
        return None;
    }
    let values = st.values;
    write_values(key, &values, groups);
    let wide = write_nodes(key, 1 + groups, work, at, n)?;
    if are_below(&values, 0, VALUES) & are_below(&values, 8 * groups, 1) {
        key[0] = head(st.running, n, label, wide);
        return Some(1 + groups + words_of(wide, n));
    }
    None
}

// The key of the configuration of frame d and the state, with a label: how many words it takes, where it has one.
#[tactic(auto, using(engine::proofs::Frames::frame_by, words::proofs::Standing::at_node_room, words::proofs::Standing::at_room, words::proofs::Standing::at_size, sheet::proofs::Found::in_sheet))]
pub fn key_of(
    key: &mut [u32],
    work: &[u32],
    s: &Sheet,
    st: State,
    d: usize,
    label: usize,
) -> Option<usize>
    requires { (left : ℕ) × (p : Prog) × Frame s.now left work.now d p }
    ensures inside { IfSome result (λ size. size ≤ length key.old) }
    ensures keyed { (left : ℕ) (p : Prog) → Frame s.now left work.now d p → IfSome result (λ size. Keyed s.now (p, st) label (take size key.new)) }
{
    let found = s.found();
    let at = engine::nodes_from(s, d);
    let n = words::size_at(work, at);
    pack(key, work, at, n, st, (found.layout.f + 7) / 8, label)
}
