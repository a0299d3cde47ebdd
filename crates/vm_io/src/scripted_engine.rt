ghost use Rattle.std.specs.Prelude.{◌≡◌, ◌≤◌, ◌↔◌, IsErr, OnOk, OnErr};
ghost use Rattle.vm_io.specs.Plan.{fresh_plan, IsDue, after_call, after_fault};

use crate::fault_plan::FaultPlan;
use crate::{Engine, Failed};
use std::marker::Model;

/// An engine that fails at the calls that it is told to.
#[derive(Drop)]
pub struct ScriptedEngine {
    plan: FaultPlan,
}

impl Model for ScriptedEngine {
    ghost use Rattle.vm_io.specs.Plan.{Plan};

    ghost Value = { Plan };

    ghost view = { λ e. e.plan };
}

impl ScriptedEngine {
    /// An engine that fails at the calls with these numbers, counted from 1.
    pub fn new(fails: Vec<u64>) -> ScriptedEngine
        ensures { result ≡ fresh_plan fails.items }
    {
        ScriptedEngine {
            plan: FaultPlan::new(fails),
        }
    }
}

impl Engine for ScriptedEngine {
    ghost faults = { λ plan. plan.faults };

    fn try_run(&mut self) -> Result<(), Failed>
        ensures due { IsErr result ↔ IsDue self.old }
        ensures ok { OnOk result (self.new ≡ after_call self.old) }
        ensures err { OnErr result (self.new ≡ after_fault self.old) }
        ensures count { self.old.faults ≤ self.new.faults }
    {
        self.plan.call()
    }
}
