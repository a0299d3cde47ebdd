use crate::Line;
use std::marker::Model;
use v4l_const::Model as DeviceModel;
use vm_local::Name;

/// How many statements a process has at most.
pub const STATEMENT_LIMIT: usize = 1024;

/// One process's handles and statements.
#[derive(Debug, Drop)]
pub struct Process {
    /// The handles' names, in the order of their `open` lines.
    pub handles: Vec<Name>,
    pub lines: Vec<Line>,
}

impl Model for Process {
    ghost use Rattle.vm_script.specs.Script.{ProcessLines};

    ghost Value = { ProcessLines };

    ghost view = { λ p. record { handles = p.handles.items; lines = p.lines.items } };
}

/// What all processes of a machine do with a device.
#[derive(Debug, Drop)]
pub struct Script {
    pub model: DeviceModel,
    /// The processes, in the script's order.
    pub processes: Vec<Process>,
}

impl Model for Script {
    ghost use Rattle.vm_script.specs.Script.{ScriptLines};

    ghost Value = { ScriptLines };

    ghost view = { λ s. record { model = s.model; processes = s.processes.items } };
}
