//! Laws of the definitions.

ghost use Rattle.vm_across.specs.Across.{IsRead, HasRoom, IsReturned, IsReturnedEmpty, TakesEvents, IsDelivered, IsPostedAgain};
ghost use Rattle.vm_across.specs.Lines.{SendsWhatIsFit, IsCollected};
ghost use Rattle.vm_across.specs.Served.{IsServed, IsResumed, IsAnnounced};

/// The device reads in a parcel what the process sends in it, and has room for what it gives back.
pub fn commands_are_read()
    ensures read { IsRead }
    ensures room { HasRoom }
{}

/// The driver reads in a chain that comes back what the device wrote to it.
pub fn replies_are_returned()
    ensures written { IsReturned }
    ensures empty { IsReturnedEmpty }
{}

/// An event chain takes each event, the driver reads in it what the device sent, and it can be
/// posted again.
pub fn events_are_delivered()
    ensures takes { TakesEvents }
    ensures brings { IsDelivered }
    ensures again { IsPostedAgain }
{}

/// What a line sends is fit to be sent, and the chain that comes back is the one that answers it.
pub fn lines_are_sent()
    ensures fit { SendsWhatIsFit }
    ensures collected { IsCollected }
{}

/// The device's steps on chains are its part of them over what was sent, and what it returns or
/// sends is what comes back.
pub fn chains_are_served()
    ensures served { IsServed }
    ensures resumed { IsResumed }
    ensures announced { IsAnnounced }
{}
