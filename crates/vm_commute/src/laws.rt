ghost use Rattle.vm_local.specs.Replays.{EachReplay};
ghost use Rattle.vm_commute.specs.Commute.{CallsGoFirst, RefusalsComeFirst};

/// After a legal log the device makes some steps of its own, and then a call is answered that may
/// cross, and that is neither an open nor a stopping call that was done. The call has the same
/// reply before the steps, but for the flags that QUERYBUF tells. The steps are legal after it, and
/// lead to the same state, but for subscription, events and the number of the next event.
pub fn calls_go_before_steps()
    ensures { EachReplay (λ log s. CallsGoFirst s) }
{}

/// A call that may cross and is refused after some steps of the device is refused so before them.
/// This holds of stopping calls too, and a refused call changes nothing.
pub fn refusals_come_before_steps()
    ensures { EachReplay (λ log s. RefusalsComeFirst s) }
{}
