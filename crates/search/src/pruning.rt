// What a search may leave out, by the law of runs (proofs/Pruned.antt): where the bound ran out in some run before, a configuration from
// which none ends later matters only if it is final itself. A strategy may ask this or not.
ghost use Rattle.std.specs.Prelude.{◌≡◌, true, false, ◌<◌};

// Whether only the configuration's own finality matters, told before it is surveyed: at the bound.
pub fn only_final(cut: bool, left: usize) -> bool
    ensures { (result ≡ true → (cut ≡ true) × (left ≡ 0)) × (result ≡ false → left ≡ 0 → cut ≡ false) }
{
    cut && left == 0
}

// The same, told by a survey: so far is the end by way of any transition that those left do not reach it.
pub fn too_far(cut: bool, left: usize, soon: usize) -> bool
    ensures { result ≡ true → (cut ≡ true) × (left < soon) }
{
    cut && left < soon
}
