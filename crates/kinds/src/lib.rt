// What a kind is and does: of program records and of formulas, each column as a function of the name that its definition in specs/ has.
// A new kind is added here, in golog's meaning, and where the two are tied (remaining/proofs/Same.antt).
#![tactic(auto)]

pub mod formulas;
pub mod programs;
