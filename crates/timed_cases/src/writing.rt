// A sheet of 32 fluents and one action with 512 effects: effect i stands under formula i and names fluent i mod 32, so that each fluent is named
// sixteen times, each time with another value. No rule of the sheet is applied here.
// The action is impossible where formula 0, its precondition, fails, and where two effects of one fluent hold (document 02, F-2); what its
// effects give is defined all the same.
ghost use Rattle.std.specs.Prelude.{◌<◌};

pub const BYTES: usize = 5216;

// Where the tables start; fluents stand first.
const FORMULAS: usize = 64;

const EFFECTS: usize = 3136;

// The action, the program record and the trailer.
const LAST: usize = 5184;

// Writes a byte, if there is room.
pub fn byte(s: &mut [u8], at: usize, v: u8) {
    if at < s.len() {
        s[at] = v;
    }
}

// Writes bytes from a place on, as far as there is room.
pub fn copy(s: &mut [u8], at: usize, bytes: &[u8]) {
    for (place, b) in s.iter_mut().skip(at).zip(bytes) {
        *place = *b;
    }
}

// 32 fluents of size 16, which start with different values.
fn fluents(s: &mut [u8]) {
    for x in 0..32 {
        copy(s, 2 * x, &[16, (x * 7 % 16) as u8]);
    }
}

// Effect i, and formula i as its condition, of this kind: 0 true, 1 false.
fn effect(s: &mut [u8], i: usize, kind: u8)
    requires { i < 512 }
{
    byte(s, FORMULAS + 6 * i, kind);
    let [low, high] = (i as u16).to_le_bytes();
    let value = (i % 32 + i / 32) % 16;
    copy(
        s,
        EFFECTS + 4 * i,
        &[low, high, (i % 32) as u8, value as u8],
    );
}

// All effects: those from number `from` on hold.
fn effects(s: &mut [u8], from: usize) {
    for i in 0..512 {
        effect(s, i, u8::from(i < from));
    }
}

// The action has the whole range, the program performs it.
fn rest(s: &mut [u8]) {
    copy(
        s,
        LAST,
        b"\x00\x00\x00\x00\x00\x02\x01\x00\x00\x00\x00\x00\x00\x00\x20\x00\x00\x02\x00\x02\x01\x00\x01\x00\x01\x00\x4e\x14\x00\x00\x42\x51",
    );
}

// The sheet, over bytes that are 0: the effects from number `from` on hold.
pub fn write(s: &mut [u8], from: usize) {
    fluents(s);
    effects(s, from);
    rest(s);
}
