// The state that conditions and actions speak of. Its meaning, and that of programs, is in specs/; nothing runs here.

// The entries of a history for start and stop, above every action's number.
#![tactic(auto)]

pub const START: usize = 65534;

pub const STOP: usize = 65535;

// Document 01: "The values of all fluents at one moment are one record of 32 places, unused ones 0"; and whether interrupts run.
#[derive(Clone, Copy)]
pub struct State {
    pub values: [u8; 32],
    pub running: bool,
}
