use crate::sample_order::SampleOrder;
use v4l_const::FourCc;

/// A row of the table of formats: a format's code, and how its samples lie.
#[derive(Clone, Copy, Debug, PartialEq, Eq)]
pub struct FormatRow {
    pub code: FourCc,
    pub order: SampleOrder,
}
