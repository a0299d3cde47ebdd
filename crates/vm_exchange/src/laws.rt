// Laws of the definitions.

ghost use Rattle.std.specs.Prelude.{ℕ};
ghost use Rattle.v4l_const.specs.declared.model.Model.{Model};
ghost use Rattle.vm_local.specs.State.{LocalState, opening};
ghost use Rattle.vm_local.specs.Record.{without_bytes};
ghost use Rattle.vm_exchange.specs.Laws.{WaysAreAlike, ResponsesAreAlike, AnswersAreAlike, EntriesStayInRange, RepliesAreOffered, MayCrossWhereCrosses, TouchesExactly, WaitsWhereUnanswered, AnsweredAtOnce, CrossingsFit, QueuedBuffersFit, AnswersFit, EntriesAreReadAgain};
ghost use Rattle.vm_exchange.specs.Range.{IsInRange, IsRecord};

/// The record of a state in range is one, and says of each call what the state says, since nothing
/// that crosses depends on the bytes of a memory.
pub fn records_exchange_as_states()
    ensures record { (s : LocalState) → IsInRange s → IsRecord (without_bytes s) }
    ensures ways { WaysAreAlike }
    ensures responses { ResponsesAreAlike }
    ensures answers { AnswersAreAlike }
{}

/// The numbers of a handle are in range as it begins, and stay so by each entry whose own numbers
/// fit.
pub fn numbers_stay_in_range()
    ensures opening { (m : Model) → IsInRange (opening m) }
    ensures after { EntriesStayInRange }
    ensures replies { RepliesAreOffered }
{}

/// A call crosses only if it is of a kind that may, and touches memory exactly if it is of a kind
/// that does. Where it waits no refusal of it applies and it has no reply yet; and where it is
/// answered without the device it has a reply.
pub fn each_call_has_its_way()
    ensures crosses { MayCrossWhereCrosses }
    ensures touches { TouchesExactly }
    ensures waits { WaitsWhereUnanswered }
    ensures answered { AnsweredAtOnce }
{}

/// What crosses is a command whose numbers fit into their fields, with what may stand behind it,
/// and both go into a page. So do the numbers of a buffer that is queued fit.
pub fn crossings_fit()
    ensures crossing { CrossingsFit }
    ensures buffer { QueuedBuffersFit }
{}

/// The device's answer is one that the command may have.
pub fn answers_fit()
    ensures { AnswersFit }
{}

/// The entries of user memory are read as they were written.
pub fn entries_are_read_again()
    ensures { EntriesAreReadAgain }
{}
