// What the transitions of a state are found by.
#![tactic(auto)]

use leaves::Programs;

// The table that runs and whether interrupts do; the truths of the formulas; which records are final, and how many transitions each has.
#[derive(Clone, Copy)]
pub struct Tables<'a> {
    pub programs: &'a Programs<'a>,
    pub running: bool,
    pub truths: &'a [bool],
    pub finals: &'a [bool],
    pub counts: &'a [u32],
}
