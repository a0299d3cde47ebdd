ghost use Rattle.vm_local.specs.declared.call.Call.TheVariants.{QueryCap, EnumFmt, GFmt, TryFmt, SFmt, EnumInput, GInput, SInput, QueryBuf, StreamOn, StreamOff, ReqBufs, Subscribe, Unsubscribe};
ghost use Rattle.std.specs.Prelude.{ℕ};
ghost use Rattle.v4l_const.specs.declared.four_cc.FourCc.{FourCc};
ghost use Rattle.vm_session.specs.Rows.{querycap_row, enumfmt_row, gfmt_row, tryfmt_row, sfmt_row, enuminput_row, ginput_row, sinput_row, querybuf_row, streamon_row, streamoff_row, reqbufs_row, subscribe_row, unsubscribe_row};
ghost use Rattle.vm_stands.specs.Ahead.{MessagesJoin, MessagesJoinRefused, DeliveryKeeps, ExecutionMoves, ExecutionLeads, StoppingMoves, CollectionKeeps, RefusedCollectionKeeps, StoppedCollectionKeeps};
ghost use Rattle.vm_stands.specs.Slice.{SliceCloses, SliceStaysApart, SliceOpens, SliceRefusesFor, SliceComes, SliceStopsFor, SliceAnswers, AlongStays, WaysStay, ResponsesStay, SliceIsAhead, SliceSends, SliceDelivers, SliceExecutes, SliceCollects, SliceStops, SliceRefuses, SliceCollectsRefused, SliceCollectsStopped, SliceBegins, SliceFinishes, SliceFinishesRefused, SliceHasOwnCalls};
ghost use Rattle.vm_stands.specs.Laws.{IoctlsAreAnswered, MemoriesHaveLengths, MapsAlike, NamesKeep, OwnCallsKeep, GivingKeepsNext, EventsKeepNext, CallsKeepNext, ClosesAlike, IsServedAtRest, IsRefusedAlike, QBufComesWith, QBufIsServed, IsServed, CanBegin, BeginsNext, FinishesNext, EventsKeep, SendingKeeps, GivingKeeps, MessagesAreSteps, OpensAlike};

/// Subscription and events of a handle are nothing to a session that stands for it.
pub fn sessions_see_no_events()
    ensures { EventsKeep }
{}

/// A session that sends a message stands for what it stood for.
pub fn sending_keeps()
    ensures { SendingKeeps }
{}

/// The step that gives what is owed is nothing to a session.
pub fn giving_keeps()
    ensures { GivingKeeps }
{}

/// Messages that lead from one state to another stand for steps that do so.
pub fn messages_are_steps()
    ensures { MessagesAreSteps }
{}

/// A session that was opened stands for the handle that was opened.
pub fn opening_is_alike()
    ensures { OpensAlike }
{}

/// A session begins a job where the frame is possible in the state that it stands for.
pub fn a_job_is_the_next_frame()
    ensures can { CanBegin }
    ensures begins { BeginsNext }
{}

/// A job that runs goes on being the frame that is possible in the state.
pub fn a_job_stays_the_next_frame()
    ensures given { GivingKeepsNext }
    ensures events { EventsKeepNext }
    ensures calls { CallsKeepNext }
{}

/// Once a job is done, its messages lead on to the state that the session stands for then.
pub fn a_done_job_is_a_frame()
    ensures { FinishesNext }
{}

/// A session answers a call that stops no queue as the handle does that it stands for.
pub fn calls_are_answered_alike()
    ensures querycap { IsServed QueryCap querycap_row }
    ensures enumfmt { (t i : ℕ) → IsServed (EnumFmt t i) (λ session. enumfmt_row session t i) }
    ensures gfmt { (t : ℕ) → IsServed (GFmt t) (λ session. gfmt_row session t) }
    ensures tryfmt { (t : ℕ) (f : FourCc) (w h : ℕ) → IsServed (TryFmt t f w h)
        (λ session. tryfmt_row session t f w h) }
    ensures sfmt { (t : ℕ) (f : FourCc) (w h : ℕ) → IsServed (SFmt t f w h)
        (λ session. sfmt_row session t f w h) }
    ensures enuminput { (i : ℕ) → IsServed (EnumInput i) (λ session. enuminput_row session i) }
    ensures ginput { IsServed GInput ginput_row }
    ensures sinput { (i : ℕ) → IsServed (SInput i) (λ session. sinput_row session i) }
    ensures querybuf { (t i : ℕ) → IsServed (QueryBuf t i) (λ session. querybuf_row session t i) }
    ensures streamon { (t : ℕ) → IsServed (StreamOn t) (λ session. streamon_row session t) }
    ensures subscribe { (e : ℕ) → IsServed (Subscribe e) (λ session. subscribe_row session e) }
    ensures unsubscribe { (e : ℕ) → IsServed (Unsubscribe e)
        (λ session. unsubscribe_row session e) }
{}

/// Where the driver doesn't refuse a qbuf, its record comes with its memory, and the session queues
/// the buffer as the handle does.
pub fn a_buffer_is_queued_alike()
    ensures comes { QBufComesWith }
    ensures served { QBufIsServed }
{}

/// A quiet session answers a call that stops queues as the handle does. A session that isn't quiet
/// may refuse it, as the handle does.
pub fn queues_are_stopped_alike()
    ensures streamoff { (t : ℕ) → IsServedAtRest (StreamOff t)
        (λ session. streamoff_row session t) }
    ensures reqbufs { (t m n : ℕ) → IsServedAtRest (ReqBufs t m n)
        (λ session. reqbufs_row session t m n) }
    ensures streamoff_refused { (t : ℕ) → IsRefusedAlike (StreamOff t)
        (λ session. streamoff_row session t) }
    ensures reqbufs_refused { (t m n : ℕ) → IsRefusedAlike (ReqBufs t m n)
        (λ session. reqbufs_row session t m n) }
    ensures closes { ClosesAlike }
{}

/// The state ahead moves as the device does: with the messages that join those under way, and with
/// the calls that it executes. It stays while the driver delivers messages and collects replies.
pub fn the_state_ahead_moves()
    ensures joins { MessagesJoin }
    ensures joins_refused { MessagesJoinRefused }
    ensures delivers { DeliveryKeeps }
    ensures executes { ExecutionMoves }
    ensures leads { ExecutionLeads }
    ensures stops { StoppingMoves }
    ensures collects { CollectionKeeps }
    ensures collects_refused { RefusedCollectionKeeps }
    ensures collects_stopped { StoppedCollectionKeeps }
{}

/// The device makes the same steps before a call that the driver answers by itself, and after it.
pub fn the_drivers_own_calls_keep_sessions()
    ensures { OwnCallsKeep }
{}

/// A session has the frames that the handle may map, and names are nothing to it.
pub fn frames_are_mapped_alike()
    ensures maps { MapsAlike }
    ensures names { NamesKeep }
{}

/// After a legal log a memory is as long as its buffer, and a picture of the queue's format goes
/// into it.
pub fn memories_have_lengths()
    ensures { MemoriesHaveLengths }
{}

/// The ioctl with which a call crosses comes in the session to what the call comes to in the
/// handle.
pub fn ioctls_are_answered_alike()
    ensures { IoctlsAreAnswered }
{}

/// A session that was opened is one, with nothing under way.
pub fn a_slice_is_opened()
    ensures { SliceOpens }
{}

/// A session with what is under way of it goes on being one: with each message, each job and each
/// call.
pub fn a_slice_moves()
    ensures ahead { SliceIsAhead }
    ensures sends { SliceSends }
    ensures delivers { SliceDelivers }
    ensures executes { SliceExecutes }
    ensures collects { SliceCollects }
    ensures stops { SliceStops }
    ensures refuses { SliceRefuses }
    ensures collects_refused { SliceCollectsRefused }
    ensures collects_stopped { SliceCollectsStopped }
    ensures begins { SliceBegins }
    ensures finishes { SliceFinishes }
    ensures finishes_refused { SliceFinishesRefused }
    ensures own { SliceHasOwnCalls }
{}

/// While messages are under way a call is begun from the driver's state as it would be from the
/// state ahead, and its reply crosses back alike.
pub fn what_crosses_stays()
    ensures ways { WaysStay }
    ensures responses { ResponsesStay }
    ensures along { AlongStays }
{}

/// A call that crosses while messages are under way is answered as the driver's state says, and the
/// slice goes on.
pub fn a_slice_answers_calls()
    ensures answers { SliceAnswers }
    ensures apart { SliceStaysApart }
    ensures stops { SliceStopsFor }
    ensures refuses { SliceRefusesFor }
    ensures closes { SliceCloses }
    ensures comes { SliceComes }
{}
