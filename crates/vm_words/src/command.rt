//! The command lines that are served.

/// What is done with a script that the source gives.
#[derive(Clone, Copy, Debug, PartialEq, Eq)]
pub enum Task {
    /// It is read, and its processes and statements are counted.
    Check,
    /// It is run under a seed's schedule.
    Run { seed: u64 },
}

/// What a command line asks for.
///
/// Source: own.
#[derive(Clone, Copy, Debug, PartialEq, Eq)]
pub enum Command {
    /// A script is read from the source.
    OnScript(Task),
    /// The script of so many processes is made, and run.
    Bulk { n: u32 },
}
