//! Laws of the driver's steps.
ghost use Rattle.vm_guest.specs.Laws.{IssuesAsPart, CollectsAsPart, PumpsAsPart, ReadLinesFit, RawLinesAskByChain, RefusalsAreTold};

/// What `Guest::issue` does at the link is the driver's part of that step, over what is said there.
pub fn what_is_issued_is_the_part()
    ensures { IssuesAsPart }
{}

/// What `Guest::collect` does at the link is the driver's part of that step, over what is said
/// there.
pub fn what_is_collected_is_the_part()
    ensures { CollectsAsPart }
{}

/// What `Guest::pump` does at the link is the driver's part of that step, over what is said there.
pub fn what_is_pumped_is_the_part()
    ensures { PumpsAsPart }
{}

/// The lines of a process that a reader gives are ones for the driver.
pub fn lines_that_are_read_fit()
    ensures { ReadLinesFit }
{}

/// What a raw line asks of the device is what its chain does, by the walk of its descriptors.
pub fn raw_lines_ask_by_their_chains()
    ensures { RawLinesAskByChain }
{}

/// A refusal of the device tells a raw line its errno.
pub fn refusals_are_told()
    ensures { RefusalsAreTold }
{}
