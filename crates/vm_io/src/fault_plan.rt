ghost use Rattle.std.specs.Prelude.{◌≡◌, ◌≤◌, ◌↔◌, IsErr, OnOk, OnErr};
ghost use Rattle.vm_io.specs.Faults.{next_count};
ghost use Rattle.vm_io.specs.Plan.{fresh_plan, IsDue, after_call, after_fault};

use crate::Failed;
use std::marker::Model;

/// Which calls of an outside in memory are to fail, and how many came and failed so far.
///
/// Calls are numbered from 1. The number stays at the end of 64 bits once it has come to it, and so
/// does the count of faults.
#[derive(Drop)]
pub struct FaultPlan {
    fails: Vec<u64>,
    calls: u64,
    faults: u64,
}

impl Model for FaultPlan {
    ghost use Rattle.vm_io.specs.Plan.{Plan};

    ghost Value = { Plan };

    ghost view = { λ p. record { fails = p.fails.items; calls = p.calls; faults = p.faults } };
}

impl FaultPlan {
    pub fn new(fails: Vec<u64>) -> FaultPlan
        ensures { result ≡ fresh_plan fails.items }
    {
        FaultPlan {
            fails,
            calls: 0,
            faults: 0,
        }
    }

    /// Counts a call, which fails exactly where its number is in the list.
    pub fn call(&mut self) -> Result<(), Failed>
        ensures due { IsErr result ↔ IsDue self.old }
        ensures ok { OnOk result (self.new ≡ after_call self.old) }
        ensures err { OnErr result (self.new ≡ after_fault self.old) }
        ensures count { self.old.faults ≤ self.new.faults }
    {
        self.calls = self.calls.saturating_add(1);
        if self.fails.contains(&self.calls) {
            return Err(self.fail());
        }
        Ok(())
    }

    /// Counts a fault of the call that was counted last.
    pub fn fail(&mut self) -> Failed
        ensures raised { self.new ≡ record self.old { faults = next_count self.old.faults } }
        ensures count { self.old.faults ≤ self.new.faults }
    {
        self.faults = self.faults.saturating_add(1);
        Failed
    }
}
