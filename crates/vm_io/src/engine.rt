ghost use Rattle.std.specs.Prelude.{◌≡◌, ◌≤◌, ℕ, OnOk, OnErr};
ghost use Rattle.vm_io.specs.Faults.{Rose};

use crate::Failed;

/// The device's working unit, which is called once for each job.
pub trait Engine {
    /// How many calls failed, as far as 64 bits go.
    ghost faults: { Self → ℕ };

    /// Runs once. `Failed` makes the job bad, and the next job may run again. A call that goes well
    /// leaves the count of faults.
    fn try_run(&mut self) -> Result<(), Failed>
        ensures well { OnOk result (faults self.new ≡ faults self.old) }
        ensures fault { OnErr result (Rose (faults self.old) (faults self.new)) }
        ensures count { faults self.old ≤ faults self.new };
}
