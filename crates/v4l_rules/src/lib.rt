//! The rules of models, queues and formats that a local handle and the device's session share,
//! whatever else the records of their queues keep.
//!
//! Begin with `place_in` and `adjust_from`. Its main definitions are the queue that a type names,
//! in `specs/Queues.antt`, and the format that a queue takes, in `specs/Formats.antt`.
#![tactic(auto)]

mod formats;
mod queues;

pub use formats::{FIRST_FORMAT, adjust_from, first_format, is_source, sized_as};
pub use queues::place_in;

#[cfg(test)]
mod tests;
