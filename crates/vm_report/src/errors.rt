use thiserror::Error;
use vm_mem::Memory;

/// Why a text gives no logs.
#[derive(Clone, Copy, Debug, PartialEq, Eq, Error)]
pub enum LogsError {
    /// No logs print as the text.
    #[error("the text isn't printed of logs")]
    NotPrinted,
    #[error("out of memory")]
    Memory,
}

impl From<Memory> for LogsError {
    ghost use Rattle.std.specs.Prelude.{◌≡◌};
    ghost use Rattle.vm_report.specs.declared.errors.LogsError.TheVariants.{Memory as Lacking};

    ghost from_gives = { λ memory e. e ≡ Lacking };

    fn from(_memory: Memory) -> LogsError {
        LogsError::Memory
    }
}
