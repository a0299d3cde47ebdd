//! The world: the driver, the device, and the link between them, step by step.
//!
//! Begin with `World`. Its main definition is what the link's parcels say, `IsCarried`, in
//! `specs/Carried.antt`; what a world is over plain data, which steps may come next and what each
//! of them does is in `vm_realm`.
#![tactic(auto)]

mod kind;
mod laws;
mod offers;
mod world;

pub use laws::{
    each_event_is_of_its_session, the_device_does_the_worlds_steps,
    the_driver_does_the_worlds_steps, the_ends_have_what_they_ask, what_goes_out_leaves_the_link,
};
pub use vm_realm::Step;
pub use world::World;
