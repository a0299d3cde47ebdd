use thiserror::Error;

/// The answer of a call of the outside that failed, and was counted as a fault there.
#[derive(Clone, Copy, Debug, PartialEq, Eq, Error)]
#[error("the outside failed")]
pub struct Failed;
