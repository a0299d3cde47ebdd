//! Picture formats: their sizes, and the pictures that patterns and conversions make.
//!
//! Begin with `adjust`, `pattern_byte` and `converted_byte`. Its main definitions are a format made
//! to fit, `adjusted`, in `specs/Fmt.antt`, what each byte carries, `carried_by`, in
//! `specs/SampleOrder.antt`, and whole pictures, in `specs/Picture.antt`.
#![tactic(auto)]

mod carried;
mod codes;
mod colours;
mod component;
mod fmt;
mod format_row;
mod formats;
mod laws;
mod levels;
mod pattern;
mod patterns;
mod picture;
mod places;
mod sample_order;
mod sizes;
mod triple;

pub use carried::Carried;
pub use colours::Colours;
pub use component::Component;
pub use fmt::Fmt;
pub use format_row::FormatRow;
pub use formats::{nth_format, order_of};
pub use laws::{adjusting_gives_adjusted_formats_back, converting_to_the_same_format_copies};
pub use pattern::Pattern;
pub use patterns::pattern_at;
pub use picture::{converted_byte, pattern_byte};
pub use sample_order::SampleOrder;
pub use sizes::{adjust, bytesperline, sizeimage};
pub use triple::Triple;

#[cfg(test)]
mod tests;
