//! The streaming world: the driver, the device, and what is under way between them, with what each
//! step of it does, keeps and lowers.
//!
//! It has laws alone: begin with `steps_keep_the_world_sound`. Its main definitions are the world,
//! in `specs/World.antt`, the steps that may come next, in `specs/Enabled.antt`, what each of them
//! does, in `specs/Steps.antt`, and when a world is a sound one, in `specs/Sound.antt`.
#![tactic(auto)]

mod laws;
mod step;

pub use step::Step;
