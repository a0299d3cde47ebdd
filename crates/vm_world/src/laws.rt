//! Laws of the steps at the link.
ghost use Rattle.vm_world.specs.Laws.{CarriedCan, ExecutesOver, ResumesOver, AnnouncesOver, IssuesOver, CollectsOver, PumpsOver, BeginsOver, FinishesOver, LeasesOver, GivesBackOver, SendsItsOwn};

/// What the device does at the link is the world's step.
pub fn the_device_does_the_worlds_steps()
    ensures execute { ExecutesOver }
    ensures resume { ResumesOver }
    ensures announce { AnnouncesOver }
{}

/// What both ends ask of the link is there.
pub fn the_ends_have_what_they_ask()
    ensures { CarriedCan }
{}

/// What the driver does at the link is the world's step.
pub fn the_driver_does_the_worlds_steps()
    ensures issue { IssuesOver }
    ensures collect { CollectsOver }
    ensures pump { PumpsOver }
{}

/// What goes out and comes back is the world's step, and leaves the link.
pub fn what_goes_out_leaves_the_link()
    ensures begin { BeginsOver }
    ensures finish { FinishesOver }
    ensures lease { LeasesOver }
    ensures give_back { GivesBackOver }
{}

/// An event is of the session for which it is sent.
pub fn each_event_is_of_its_session()
    ensures { SendsItsOwn }
{}
