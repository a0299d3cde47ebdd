ghost use Rattle.vm_handle.specs.Laws.{StepsLeaveCrossings};

/// A step of the device refuses no call that crosses and that the driver refused by nothing before
/// it.
pub fn steps_leave_calls_underway()
    ensures { StepsLeaveCrossings }
{}
