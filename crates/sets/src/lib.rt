// Sets of environments (specs/Sets.antt): eight words, environment e is bit e % 32 of word e / 32. A row, half a word, has the sixteen
// environments with one value in placeholder 1, a bit for each value of placeholder 0; the operations work on whole words and rows.
#![tactic(auto)]

ghost use Rattle.std.specs.Prelude.{◌≡◌, true, false, not, ◌&&◌, ◌||◌, ℕ, ◌+◌, ◌*◌, ◌≤◌, ◌<◌, eqb, ltb, length};
ghost use Rattle.records.specs.Mask.{has_bit};
ghost use Rattle.records.specs.Placeholders.{look, put};
ghost use Rattle.records.specs.Some.{some_from};
ghost use Rattle.sets.specs.Sets.{member, Has, Gathered, set_at, PutSet};

// The words of a set.
pub const WORDS: usize = 8;

// A full word, and a full row.
const FULL: u32 = 0xFFFF_FFFF;

const FULL_ROW: u32 = 0xFFFF;

// The lowest bit of the second row of a word.
const ROW: u32 = 0x1_0000;

// The lowest bit of each row of a word: times a row, the row twice.
const EACH_ROW: u32 = 0x1_0001;

// Every environment, or none.
pub fn whole(all: bool) -> [u32; WORDS]
    ensures { Has (λ (e : ℕ). all) result }
{
    let word = if all { FULL } else { 0 };
    [word; WORDS]
}

// The environments that are in x and in y.
pub fn both(x: [u32; WORDS], y: [u32; WORDS]) -> [u32; WORDS]
    ensures { Has (λ (e : ℕ). member x e && member y e) result }
{
    std::array::from_fn(|k| x[k] & y[k])
}

// The environments that are in x or in y.
pub fn either(x: [u32; WORDS], y: [u32; WORDS]) -> [u32; WORDS]
    ensures { Has (λ (e : ℕ). member x e || member y e) result }
{
    std::array::from_fn(|k| x[k] | y[k])
}

// The environments that are not in x.
pub fn others(x: [u32; WORDS]) -> [u32; WORDS]
    ensures { Has (λ (e : ℕ). not (member x e)) result }
{
    std::array::from_fn(|k| !x[k])
}

// The environments that are in x and not in y.
pub fn without(x: [u32; WORDS], y: [u32; WORDS]) -> [u32; WORDS]
    ensures { Has (λ (e : ℕ). member x e && not (member y e)) result }
{
    std::array::from_fn(|k| x[k] & !y[k])
}

// The environments whose placeholder 0 holds one of the values, a bit for each: every row has those bits.
fn in_columns(values: u32) -> [u32; WORDS]
    ensures { Has (λ (e : ℕ). has_bit values (look e 0)) result }
{
    [(values & FULL_ROW) * EACH_ROW; WORDS]
}

// The environments whose placeholder 1 holds one of the values: word k has rows 2k and 2k + 1, each full or empty.
fn in_rows(values: u32) -> [u32; WORDS]
    ensures { Has (λ (e : ℕ). has_bit values (look e 1)) result }
{
    std::array::from_fn(|k| {
        let two = values >> (2 * k);
        (two % 2 + two / 2 % 2 * ROW) * FULL_ROW
    })
}

// The environments whose placeholder c holds one of the values.
// Kept: a placeholder is a number here and below, as `look` and `put` (specs of records) have it, of which these functions' clauses speak.
fn among(c: usize, values: u32) -> [u32; WORDS]
    requires { c < 2 }
    ensures { Has (λ (e : ℕ). has_bit values (look e c)) result }
{
    match c {
        0 => in_columns(values),
        _ => in_rows(values),
    }
}

// The environments with v in placeholder c.
pub fn holding(c: usize, v: usize) -> [u32; WORDS]
    requires { (c < 2) × (v < 16) }
    ensures { Has (λ (e : ℕ). eqb (look e c) v) result }
{
    among(c, 1 << v)
}

// The environments with n or more in placeholder c.
pub fn reaching(c: usize, n: usize) -> [u32; WORDS]
    requires { (c < 2) × (n ≤ 16) }
    ensures { Has (λ (e : ℕ). not (ltb (look e c) n)) result }
{
    among(c, FULL_ROW << n)
}

// The environments that are in x once v is put into placeholder 0: each row is full or empty, by its bit v.
fn given_column(x: [u32; WORDS], v: usize) -> [u32; WORDS]
    requires { v < 16 }
    ensures { Has (λ (e : ℕ). member x (put e 0 v)) result }
{
    std::array::from_fn(|k| ((x[k] >> v) & EACH_ROW) * FULL_ROW)
}

// The environments that are in x once v is put into placeholder 1: every row is row v, which is half v % 2 of word v / 2.
fn given_row(x: [u32; WORDS], v: usize) -> [u32; WORDS]
    requires { v < 16 }
    ensures { Has (λ (e : ℕ). member x (put e 1 v)) result }
{
    let row = (x[v / 2] >> (16 * (v % 2))) & FULL_ROW;
    [row * EACH_ROW; WORDS]
}

// The environments that are in x once v is put into placeholder c.
pub fn given(x: [u32; WORDS], c: usize, v: usize) -> [u32; WORDS]
    requires { (c < 2) × (v < 16) }
    ensures { Has (λ (e : ℕ). member x (put e c v)) result }
{
    match c {
        0 => given_column(x, v),
        _ => given_row(x, v),
    }
}

// The or of the words of x.
fn gathered(x: [u32; WORDS]) -> u32
    ensures { Gathered x 8 result }
{
    x.iter().fold(0, |any, word| any | word)
}

// The environments that are in x once some value is put into placeholder 0: each row is full or empty, by whether it has a bit. A row that
// has one, with a full row added, reaches into the next.
fn some_column(x: [u32; WORDS]) -> [u32; WORDS]
    ensures { Has (λ (e : ℕ). some_from (λ (v : ℕ). member x (put e 0 v)) 0 16) result }
{
    std::array::from_fn(|k| {
        let first = (x[k] % ROW + FULL_ROW) / ROW;
        let second = (x[k] / ROW + FULL_ROW) / ROW;
        (first + second * ROW) * FULL_ROW
    })
}

// The environments that are in x once some value is put into placeholder 1: every row is the or of all rows.
fn some_row(x: [u32; WORDS]) -> [u32; WORDS]
    ensures { Has (λ (e : ℕ). some_from (λ (v : ℕ). member x (put e 1 v)) 0 16) result }
{
    let two = gathered(x);
    let row = (two | two / ROW) & FULL_ROW;
    [row * EACH_ROW; WORDS]
}

// The environments that are in x once some value below n is put into placeholder c.
pub fn some(x: [u32; WORDS], c: usize, n: usize) -> [u32; WORDS]
    requires { (c < 2) × (n ≤ 16) }
    ensures { Has (λ (e : ℕ). some_from (λ (v : ℕ). member x (put e c v)) 0 n) result }
{
    let few = without(x, reaching(c, n));
    match c {
        0 => some_column(few),
        _ => some_row(few),
    }
}

// Whether a bit of a word is set.
fn has_bit(word: u32, at: usize) -> bool
    requires { at < 32 }
    ensures { result ≡ has_bit word at }
{
    (word >> at) % 2 == 1
}

// Whether environment e is in x.
#[tactic(auto, unfolding(crate::specs::Sets::member))]
pub fn has(x: &[u32], e: usize) -> bool
    requires { (length x.now ≡ 8) × (e < 256) }
    ensures { result ≡ member x.now e }
{
    has_bit(x[e / 32], e % 32)
}

// Whether no environment is in x.
pub fn is_empty(x: [u32; WORDS]) -> bool
    ensures { (result ≡ true → (e : ℕ) → e < 256 → member x e ≡ false) × (result ≡ false → (e : ℕ) × (e < 256) × (member x e ≡ true)) }
{
    gathered(x) == 0
}

// Set i of a table.
pub fn set_at(table: &[u32], i: usize) -> [u32; WORDS]
    requires { 8 * i + 8 ≤ length table.now }
    ensures { result ≡ set_at table.now i }
{
    let first = WORDS * i;
    let mut r = [0u32; WORDS];
    r.copy_from_slice(&table[first..first + WORDS]);
    r
}

// Whether environment e is in set i of a table.
#[tactic(auto, using(crate::proofs::Tables::member_at))]
pub fn has_in(table: &[u32], i: usize, e: usize) -> bool
    requires { (8 * i + 8 ≤ length table.now) × (e < 256) }
    ensures { result ≡ member (set_at table.now i) e }
{
    has_bit(table[WORDS * i + e / 32], e % 32)
}

// Makes x set i of a table.
pub fn put_set(table: &mut [u32], i: usize, x: [u32; WORDS])
    requires { 8 * i + 8 ≤ length table.old }
    ensures { PutSet i x table.old table.new }
{
    let first = WORDS * i;
    table[first..first + WORDS].copy_from_slice(&x);
}
