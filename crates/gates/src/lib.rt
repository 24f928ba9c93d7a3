// A gate belongs to one house, counts days, and keeps the certificates that came to it.
#![tactic(auto)]

ghost use Rattle.std.specs.Prelude.{◌≤◌};

use registry::Registry;

pub mod reading;
pub mod requests;
pub mod taking;
pub mod troubles;

#[derive(Drop)]
pub struct Gate {
    owner: u16,
    day: u32,
    registry: Registry,
    ghost known: { owner ≤ 1023 },
}
