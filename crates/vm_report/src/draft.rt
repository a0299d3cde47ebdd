use crate::logs::{HandleLog, Logs};

/// Where in a text the lines that were read so far end.
#[derive(Drop)]
pub enum Place {
    /// At the text's beginning.
    Opening,
    /// In the log of a handle.
    Log(HandleLog),
    /// Behind the head of a process's raw lines.
    RawHead(u32),
    /// Behind a raw line of a process.
    Raws(u32),
    /// In the region's journal.
    Region,
    /// Behind the digest.
    Wire,
    /// At the text's end.
    End,
}

/// The logs that the lines so far tell. The handle whose log is being read stands in the place.
#[derive(Drop)]
pub struct Draft {
    pub logs: Logs,
    pub place: Place,
}
