//! How the program ends.

ghost use Rattle.std.specs.Prelude.{◌≡◌};
ghost use Rattle.vmedia.specs.Top.{status_of};

/// How a call of the program ends.
///
/// Source: own.
#[derive(Clone, Copy, Debug, PartialEq, Eq)]
pub enum Ending {
    /// The script was read to its end and run, and its text was written.
    Ran,
    /// The words are none of the command lines that are served, and the usage line was written.
    BadWords,
    /// The script has a faulty line, or too many bytes, and the line that tells so was written.
    BadScript,
    /// The source failed, and nothing was written.
    SourceFailed,
    /// The sink failed, and a front of what was to be written went out.
    SinkFailed,
    /// Memory was wanting, and nothing was written.
    NoMemory,
}

impl Ending {
    /// The status with which the program ends.
    pub fn status(self) -> u8
        ensures { result ≡ status_of self }
    {
        match self {
            Ending::Ran => 0,
            Ending::BadWords => 2,
            Ending::BadScript => 3,
            Ending::SourceFailed => 4,
            Ending::SinkFailed => 5,
            Ending::NoMemory => 6,
        }
    }
}
