ghost use Rattle.vm_log.specs.Laws.{StepsLeaveTouched, StepsLeaveAlong};

/// A step of the device refuses no line that touches a memory and that nothing refused, and leaves
/// its memory and that memory's bytes. The memory that goes along with a call stays the same one.
pub fn steps_leave_what_is_out()
    ensures touched { StepsLeaveTouched }
    ensures along { StepsLeaveAlong }
{}
