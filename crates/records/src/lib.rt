// One record of each of a sheet's five tables, read from the table's bytes; and what a table says of a place, or a default past its end.
#![tactic(auto)]

ghost use Rattle.std.specs.Prelude.{◌≡◌, ◌+◌, ◌*◌, ◌≤◌, ◌<◌, length, get_or};
ghost use Rattle.records.specs.Bytes.{limit16, le16, le32};
ghost use Rattle.records.specs.Records.{fluent_at, formula_at, effect_at, action_at, program_at, TwoBytes};

// The most fluents, formulas and actions that a sheet may have (document 01, its limits: `specs/Trailer.antt` of crate sheet).
pub const FLUENTS: usize = 32;

pub const FORMULAS: usize = 512;

pub const ACTIONS: usize = 64;

// Document 02, F-6: the placeholders (`placeholders` of `specs/Placeholders.antt`), and the most values that are chosen from: below it are a
// fluent's values and a placeholder's.
pub const PLACEHOLDERS: usize = 2;

pub const CHOICES: usize = 16;

// How many environments there are: what stands in placeholder 0, and 16 times what stands in placeholder 1.
pub const ENVIRONMENTS: usize = CHOICES * CHOICES;

// Document 01: "Fluent, 2 bytes".
#[derive(Clone, Copy, Debug, PartialEq, Eq)]
pub struct Fluent {
    pub size: usize,
    pub initial: usize,
}

// Document 01: "Formula, 6 bytes".
#[derive(Clone, Copy, Debug, PartialEq, Eq)]
pub struct Formula {
    pub kind: usize,
    pub x: usize,
    pub a: usize,
    pub b: usize,
}

// Document 01: "Effect, 4 bytes".
#[derive(Clone, Copy, Debug, PartialEq, Eq)]
pub struct Effect {
    pub condition: usize,
    pub fluent: usize,
    pub value: usize,
}

// Document 01: "Action, 6 bytes".
#[derive(Clone, Copy, Debug, PartialEq, Eq)]
pub struct Action {
    pub precondition: usize,
    pub first: usize,
    pub count: usize,
}

// Document 01: "Program, 8 bytes".
#[derive(Clone, Copy, Debug, PartialEq, Eq)]
pub struct Program {
    pub kind: usize,
    pub a: usize,
    pub b: usize,
    pub c: usize,
}

pub fn read16(s: &[u8], at: usize) -> usize
    requires { at + 1 < length s.now }
    ensures { (result ≡ le16 s.now at) × (result < limit16) }
{
    usize::from(u16::from_le_bytes([s[at], s[at + 1]]))
}

pub fn read32(s: &[u8], at: usize) -> usize
    requires { at + 3 < length s.now }
    ensures { (result ≡ le32 s.now at) × (result < 4294967296) }
{
    u32::from_le_bytes([s[at], s[at + 1], s[at + 2], s[at + 3]]) as usize
}

#[tactic(auto, unfolding(crate::specs::Records::fluent_at))]
pub fn fluent_at(t: &[u8], i: usize) -> Fluent
    requires { 2 * i + 2 ≤ length t.now }
    ensures record { result ≡ fluent_at t.now i }
    ensures fields { (result.size < 256) × (result.initial < 256) }
{
    let at = 2 * i;
    let size = usize::from(t[at]);
    let initial = usize::from(t[at + 1]);
    Fluent { size, initial }
}

#[tactic(auto, unfolding(crate::specs::Records::formula_at))]
pub fn formula_at(t: &[u8], i: usize) -> Formula
    requires { 6 * i + 6 ≤ length t.now }
    ensures record { result ≡ formula_at t.now i }
    ensures fields { result.x < 256 }
{
    let at = 6 * i;
    let kind = usize::from(t[at]);
    let x = usize::from(t[at + 1]);
    let a = read16(t, at + 2);
    let b = read16(t, at + 4);
    Formula { kind, x, a, b }
}

#[tactic(auto, unfolding(crate::specs::Records::effect_at))]
pub fn effect_at(t: &[u8], i: usize) -> Effect
    requires { 4 * i + 4 ≤ length t.now }
    ensures record { result ≡ effect_at t.now i }
    ensures fields { (result.fluent < 256) × (result.value < 256) }
{
    let at = 4 * i;
    let condition = read16(t, at);
    let fluent = usize::from(t[at + 2]);
    let value = usize::from(t[at + 3]);
    Effect {
        condition,
        fluent,
        value,
    }
}

#[tactic(auto, unfolding(crate::specs::Records::action_at))]
pub fn action_at(t: &[u8], i: usize) -> Action
    requires { 6 * i + 6 ≤ length t.now }
    ensures record { result ≡ action_at t.now i }
    ensures fields { (result.first < limit16) × (result.count < limit16) }
{
    let at = 6 * i;
    let precondition = read16(t, at);
    let first = read16(t, at + 2);
    let count = read16(t, at + 4);
    Action {
        precondition,
        first,
        count,
    }
}

#[tactic(auto, unfolding(crate::specs::Records::program_at))]
pub fn program_at(t: &[u8], i: usize) -> Program
    requires { 8 * i + 8 ≤ length t.now }
    ensures record { result ≡ program_at t.now i }
    ensures fields { TwoBytes result }
{
    let at = 8 * i;
    let kind = read16(t, at);
    let a = read16(t, at + 2);
    let b = read16(t, at + 4);
    let c = read16(t, at + 6);
    Program { kind, a, b, c }
}

// What stands in a table at place i, and the default past its end.
pub fn value_in<V: Copy>(table: &[V], i: usize, default: V) -> V
    ensures { result ≡ get_or table.now i default }
{
    table.get(i).copied().unwrap_or(default)
}

pub fn byte_in(bytes: &[u8], i: usize) -> usize
    ensures { (result ≡ get_or bytes.now i 0) × (result < 256) }
{
    usize::from(value_in(bytes, i, 0))
}
