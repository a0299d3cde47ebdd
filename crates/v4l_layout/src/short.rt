/// The answer of a call whose slice is shorter than the record.
#[derive(Clone, Copy, Debug, PartialEq, Eq)]
pub struct Short;
