//! When a session of the device stands for the state of a handle, and that every call and every
//! step of the device keeps it.
//!
//! It has laws alone: begin with `calls_are_answered_alike` and `a_slice_moves`. Its main
//! definitions are `Stands`, in `specs/Stands.antt`, what a message under way stands for, in
//! `specs/Flight.antt`, and `IsSlice`, a session with all that is under way between it and its
//! driver, in `specs/Slice.antt`.
#![tactic(auto)]

mod laws;
