// Looks up one fluent of a table.
#![tactic(auto)]

ghost use Rattle.std.specs.Prelude.{◌≡◌, ◌*◌, ◌≤◌, length};
ghost use Rattle.lookup.specs.LookUp.{looked_in};

use records::Fluent;
use sheet::{Cause, Refusal};

// Fluent x of a table of n.
#[tactic(auto, unfolding(crate::specs::LookUp::looked_in))]
pub fn look_in(fluents: &[u8], n: usize, x: usize) -> Result<Fluent, Refusal>
    requires { 2 * n ≤ length fluents.now }
    ensures { result ≡ looked_in fluents.now n x }
{
    if x < n {
        Ok(records::fluent_at(fluents, x))
    } else {
        Err(Refusal::from(Cause::NoFluent))
    }
}
