ghost use Rattle.std.specs.Prelude.{◌≡◌, IsOk};

use crate::{Engine, Failed};

/// An engine that never fails.
#[derive(Clone, Copy, Debug, Default, PartialEq, Eq)]
pub struct SureEngine;

impl SureEngine {
    /// The engine; it has no state.
    pub fn new() -> SureEngine {
        SureEngine
    }
}

impl Engine for SureEngine {
    ghost faults = { λ _. 0 };

    fn try_run(&mut self) -> Result<(), Failed>
        ensures { IsOk result }
    {
        Ok(())
    }
}
