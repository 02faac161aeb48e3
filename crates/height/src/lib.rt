// The height of a program table, whether it has interrupts, and the work figure.
#![tactic(auto)]

ghost use Rattle.std.specs.Prelude.{◌≡◌, cond, ℕ, suc, ◌+◌, ◌-◌, ◌*◌, ◌≤◌, ◌<◌, max, length, get_or};
ghost use Rattle.records.specs.Records.{program_at, ProgramTable};
ghost use Rattle.kinds.specs.Programs.{links};
ghost use Rattle.height.specs.Height.{height_over, height_of, plain, interrupts};
ghost use Rattle.height.specs.Work.{FrameLimits, frame_words};

use kinds::programs::{Kind, kind_of};
use records::Program;

// The words of a frame before its nodes.
pub const HEADER: usize = 64;

// One link more than record a is high, where there is a link to it.
fn above(h: &[u32], link: bool, a: usize) -> u32
    requires { (j : ℕ) → get_or h.now j 0 ≤ 256 }
    ensures { result ≡ cond link (suc (get_or h.now a 0)) 0 }
{
    if link {
        records::value_in(h, a, 0) + 1
    } else {
        0
    }
}

// The height of a record, from those of lower ones.
fn height_over(h: &[u32], r: Program) -> u32
    requires { (j : ℕ) → get_or h.now j 0 ≤ 256 }
    ensures { result ≡ height_over h.now (links r) }
{
    let a = above(h, kinds::programs::has_a(r.kind), r.a);
    let b = above(h, kinds::programs::has_b(r.kind), r.b);
    a.max(b)
}

// The height of a table of n program records.
pub fn height(t: &[u8], n: usize) -> usize
    requires { ProgramTable t.now n }
    ensures { result ≡ height_of (program_at t.now) n }
{
    let mut h = [0u32; 256];
    for i in 0..n {
        h[i] = height_over(&h, records::program_at(t, i));
    }
    h[n - 1] as usize
}

// Whether any of n program records is an interrupt.
pub fn has_interrupts(t: &[u8], n: usize) -> bool
    requires { 8 * n ≤ length t.now }
    ensures { result ≡ interrupts (program_at t.now) n }
{
    (0..n).any(|i| kind_of(records::program_at(t, i).kind) == Some(Kind::Interrupt))
}

// What counts as height for the work area: two levels more where there are interrupts.
pub fn levels_from(h: usize, interrupts: bool) -> usize
    requires { h ≤ 256 }
    ensures { result ≡ h + cond interrupts 2 0 }
{
    h + if interrupts { 2 } else { 0 }
}

// The words of one frame.
pub fn frame_words(h: usize, d: usize) -> usize
    requires { FrameLimits h d }
    ensures { (result ≡ frame_words h d) × (result ≤ 6979) }
{
    HEADER + 3 * (1 + 2 * h * d)
}

// The words that planning and replay require, from those of one frame.
pub fn work_words(frame: usize, d: usize) -> usize
    requires { (frame ≤ 6979) × (d ≤ 64) }
    ensures { (result ≡ (d + 1) * frame) × (result ≤ 453635) }
{
    (d + 1) * frame
}
