ghost use Rattle.vm_home.specs.Laws.{EachHasOneOwner, OthersStay, QueuedGoesAlong, QueuedStaysAway, GivenComesHome, StoppedComeHome, OpenHasNone, MadeIsHome, TouchedIsHome, TouchedComesHome, CallAddsFew, StepTakesOne};

/// After a legal log each memory has one owner: two buffers that aren't Idle never have one memory,
/// and a memory that the device made is that of no other buffer.
pub fn each_memory_has_one_owner()
    ensures { EachHasOneOwner }
{}

/// Calls that move no memory, those that are refused, and the device's steps but for a buffer's
/// return leave each memory where it is.
pub fn other_entries_leave_memories_in_place()
    ensures { OthersStay }
{}

/// A buffer that may be queued has its memory at home. It goes to the device along with the call,
/// and comes back when the buffer is given.
pub fn a_queued_memory_goes_to_the_device_and_back()
    ensures goes { QueuedGoesAlong }
    ensures away { QueuedStaysAway }
    ensures back { GivenComesHome }
{}

/// Where queues are stopped, what was queued on them comes back, and what is made anew is there
/// too.
pub fn stopped_queues_give_their_memories_back()
    ensures { StoppedComeHome }
{}

/// A handle that is opened has no memories. User memory that is made is at home.
pub fn memories_begin_at_home()
    ensures opened { OpenHasNone }
    ensures made { MadeIsHome }
{}

/// A line that touches a memory's bytes finds it at home, and where its work was done on it, it may
/// be put back.
pub fn a_line_works_on_a_memory_that_is_at_home()
    ensures out { TouchedIsHome }
    ensures back { TouchedComesHome }
{}

/// A call makes at most 32 memories, and only one that queues a buffer brings entries to come,
/// three at most. A step of the device makes none, and is one of those that were to come.
pub fn few_entries_and_memories_are_to_come()
    ensures call { CallAddsFew }
    ensures step { StepTakesOne }
{}
