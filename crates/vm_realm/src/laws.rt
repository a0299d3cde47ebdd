ghost use Rattle.std.specs.Prelude.{ℕ, ◌≡◌, ◌≢◌, true, false, None, map};
ghost use Rattle.vm_realm.specs.Laws.{CallsKeepSlice, EachKeepsSound, EnabledCanBeDone, FramesAreMade, LeftFalls, ListsEnabled, LogsGrow, MemoriesAreDropped, MemoriesHavePlaces, NoStall, NoStallOnceBegun, OpeningIsSound, OpeningLeft, PlacesStay, PumpKeepsSound, RunsEnd, RunsKeepSound, SoundCanGoOn, StepKeepsSlice, StepsKeepSound, StepsKeepWhole, StepsMoveOne, TakingKeepsSlice, WaitingKeepsSlice, closes_handle, gives_mapping, halts_queue, is_plain, makes_mapping, queues_buffer, FinishCounts, OthersCountNone};
ghost use Rattle.vm_commute.specs.Commute.{is_open};
ghost use Rattle.vm_device.specs.Keeps.{IsSound as IsSoundDevice};
ghost use Rattle.vm_realm.specs.SliceSteps.{TakingIsPumping};
ghost use Rattle.vm_realm.specs.declared.step.Step.{Step};
ghost use Rattle.vm_realm.specs.declared.step.Step.TheVariants.{Announce, Begin, Collect, Execute, Finish, GiveBack, Issue, Lease, Resume};
ghost use Rattle.vm_home.specs.Home.{is_kept};
ghost use Rattle.vm_local.specs.Live.{is_of_device};
ghost use Rattle.vm_local.specs.Memory.{is_lent};
ghost use Rattle.vm_log.specs.declared.away.Away.TheVariants.{Sent};
ghost use Rattle.vm_mem.specs.Lists.{occurrences};
ghost use Rattle.vm_realm.specs.Inner.{Inner, driver_state};
ghost use Rattle.vm_realm.specs.Places.{AgreesWithOwners, HasBytesAhead, Lies, places_of, with_driver};
ghost use Rattle.vm_realm.specs.Slice.{Slice};
ghost use Rattle.vm_realm.specs.Sound.{IsRunnable, IsSound, IsSoundSlice};
ghost use Rattle.vm_realm.specs.Steps.{Steps};
ghost use Rattle.vm_realm.specs.World.{WorldState};
ghost use Rattle.vm_script.specs.Reading.{IsReadScript};
ghost use Rattle.vm_script.specs.Script.{ScriptLines};

/// The list of steps has just those that may come next.
pub fn what_may_come_is_listed()
    ensures { ListsEnabled }
{}

/// Before the first line of a script there are at most 12 steps left for each of its statements.
pub fn few_steps_are_left_at_first()
    ensures { OpeningLeft }
{}

/// Each step of the world lowers what is left.
pub fn left_falls()
    ensures { LeftFalls }
{}

/// A step that takes all events first is as many steps that take one, and then itself.
pub fn taking_events_is_pumping()
    ensures { TakingIsPumping }
{}

/// Each step lets each handle's log go on from what it was, and leaves the script.
pub fn logs_grow()
    ensures { LogsGrow }
{}

/// Where a line isn't answered some step may come next; and where one was begun, a step that begins
/// no other.
pub fn no_line_stalls()
    ensures goes { NoStall }
    ensures once_begun { NoStallOnceBegun }
{}

/// Before the first line of a script the world is a sound one.
pub fn the_opening_is_sound()
    ensures { OpeningIsSound }
{}

/// Where no event is to be taken first, each step is one of one handle, or of none.
pub fn each_step_moves_one_handle()
    ensures { StepsMoveOne }
{}

/// A sound world can go on.
pub fn a_sound_world_can_go_on()
    ensures { SoundCanGoOn }
{}

/// A frame that begins, comes back or is told of keeps a slice sound.
pub fn frames_keep_a_slice()
    ensures announce { StepKeepsSlice Announce }
    ensures begin { (session : ℕ) → StepKeepsSlice (Begin session) }
    ensures finish { (number : ℕ) → StepKeepsSlice (Finish number) }
{}

/// An event that is taken keeps a slice sound.
pub fn taking_keeps_a_slice()
    ensures { TakingKeepsSlice }
{}

/// An event that is taken keeps a world sound.
pub fn an_event_keeps_the_world_sound()
    ensures { PumpKeepsSound }
{}

/// A lease that goes out or comes back keeps a slice sound.
pub fn leases_keep_a_slice()
    ensures lease { (n : ℕ) → StepKeepsSlice (Lease n) }
    ensures give_back { (n : ℕ) → StepKeepsSlice (GiveBack n) }
{}

/// A line that is begun keeps a slice sound.
pub fn a_line_keeps_a_slice()
    ensures { (n : ℕ) → StepKeepsSlice (Issue n) }
{}

/// A reply that is collected keeps a slice sound.
pub fn a_reply_keeps_a_slice()
    ensures { StepKeepsSlice Collect }
{}

/// A call that has to wait in the device keeps a slice sound.
pub fn a_waiting_call_keeps_a_slice()
    ensures { WaitingKeepsSlice }
{}

/// A call that the device does keeps a slice sound: an open, a close, one that moves no memory, one
/// that gives a mapping back, one that stops a queue, one that queues a buffer, and one that maps a
/// frame.
pub fn calls_keep_a_slice()
    ensures opens { CallsKeepSlice is_open }
    ensures closes { CallsKeepSlice closes_handle }
    ensures plain { CallsKeepSlice is_plain }
    ensures unmaps { CallsKeepSlice gives_mapping }
    ensures halts { CallsKeepSlice halts_queue }
    ensures queues { CallsKeepSlice queues_buffer }
    ensures maps { CallsKeepSlice makes_mapping }
{}

/// A job that comes back bad is one frame more that failed, a good one none; and no other step
/// changes how many did.
pub fn frames_that_fail_are_counted()
    ensures finish { FinishCounts }
    ensures others { OthersCountNone }
{}

/// While no call of a handle crosses, the memories that its log lends to no queue are with the
/// driver, and no others. Each that goes along with no call is there once.
pub fn owners_have_their_memories()
    ensures agree { (x : Slice) (v : Inner) → IsSoundSlice x v → AgreesWithOwners x v }
    ensures once { (x : Slice) (v : Inner) (m : ℕ) → IsSoundSlice x v →
        is_kept (driver_state x) m ≡ true → is_lent (driver_state x) m ≡ false →
        (x.handle.log.away ≢ Sent m) →
        occurrences m (map (λ (l : Lies). l.number) (with_driver x)) ≡ 1 }
    ensures away { (x : Slice) (v : Inner) (m : ℕ) → IsSoundSlice x v →
        is_lent (driver_state x) m ≡ true →
        occurrences m (map (λ (l : Lies). l.number) (with_driver x)) ≡ 0 }
{}

/// In a sound slice each live memory is at one place, which is the driver's where the log says so.
pub fn each_memory_is_at_one_place()
    ensures { MemoriesHavePlaces }
{}

/// In a sound slice each memory, wherever it is, has the bytes that it has in the state ahead.
pub fn each_memory_has_its_bytes()
    ensures { (x : Slice) (v : Inner) → IsSoundSlice x v → HasBytesAhead x v }
{}

/// Where no call was executed that isn't collected, what the device has yet to tell makes no frame.
pub fn no_message_makes_a_frame()
    ensures { (x : Slice) (v : Inner) (m : ℕ) → IsSoundSlice x v → v.executed ≡ None →
        is_of_device v.ahead m ≡ true → is_of_device (driver_state x) m ≡ true }
{}

/// Frames are made by a reqbufs alone, where the device does it.
pub fn only_a_reqbufs_makes_frames()
    ensures { FramesAreMade }
{}

/// A memory that a handle has it has no more only behind a step that may drop it.
pub fn few_steps_drop_a_memory()
    ensures { MemoriesAreDropped }
{}

/// Where a slice's memories are it says alone, whatever is behind it: so those of a handle that a
/// step doesn't move stay at their places.
pub fn a_slice_has_its_places()
    ensures { (x : Slice) (v v' : Inner) → IsSoundSlice x v → IsSoundSlice x v' →
        places_of x v' ≡ places_of x v }
{}

/// Each memory that a handle still has stays at its place in all steps that move none of themselves
/// and deliver no event to the handle.
pub fn memories_stay_at_their_places()
    ensures { PlacesStay }
{}

/// A command that the device does, or lets wait, keeps a slice sound.
pub fn commands_keep_a_slice()
    ensures execute { StepKeepsSlice Execute }
    ensures resume { (session : ℕ) → StepKeepsSlice (Resume session) }
{}

/// What the device keeps to it keeps to after each step of a sound world.
pub fn the_device_keeps_to_itself()
    ensures { (w w' : WorldState) (s : Step) → IsSound w → Steps w s w' →
        IsSoundDevice w'.host.device }
{}

/// Each step that may come next in a sound world can be done.
pub fn each_enabled_step_can_be_done()
    ensures { EnabledCanBeDone }
{}

/// Each step keeps a sound world, where both ends keep to themselves; and they do so in each step.
/// So each step leads from a sound world to a sound one, and so does every list of steps; and a run
/// of a script has at most 12 steps for each of its statements.
pub fn steps_keep_the_world_sound()
    ensures sound { EachKeepsSound }
    ensures whole { StepsKeepWhole }
    ensures each { StepsKeepSound }
    ensures runs { RunsKeepSound }
    ensures end { RunsEnd }
{}

/// A script that was read is one that the world runs.
pub fn scripts_that_are_read_run()
    ensures { (script : ScriptLines) → IsReadScript script → IsRunnable script }
{}
