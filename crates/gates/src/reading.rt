// What others read of a gate: its owner, the day, and its certificates.
ghost use Rattle.std.specs.Prelude.{◌≡◌, ◌≤◌};
ghost use Rattle.gates.specs.Gates.{state_of};
ghost use Rattle.registry.specs.Numbered.{certificates_of};

use crate::Gate;
use registry::Registry;

impl Gate {
    // The house whose gate it is.
    pub fn owner(&self) -> u16
        ensures value { result ≡ (state_of self.now).owner }
        ensures known { result ≤ 1023 }
    {
        self.owner
    }

    // The day that it is.
    pub fn day(&self) -> u32
        ensures { result ≡ (state_of self.now).day }
    {
        self.day
    }

    // The certificates that came.
    pub fn registry(&self) -> &Registry
        ensures { certificates_of result.now ≡ (state_of self.now).certificates }
    {
        &self.registry
    }
}
