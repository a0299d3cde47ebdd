//! What is printed of a run: which text stands for which logs, and their digest.
//!
//! Begin with `print`, which writes the text of logs, `logs_of`, which reads one back, and
//! `wire_digest`, which hashes what crossed. Its main definitions are the text of logs, `text_of`,
//! in `specs/Text.antt`, and the digest, `digest_of`, in `specs/Digest.antt`.
#![tactic(auto)]

mod digest;
mod draft;
mod errors;
mod laws;
mod lent;
mod lines;
mod logs;
mod printer;
mod raw;
mod readback;
mod replies;
mod reply_text;
mod tells;
mod text;
mod words;

pub use digest::wire_digest;
pub use errors::LogsError;
pub use laws::texts_tell_one_run;
pub use lent::{HandleText, LogsText, RawText};
pub use logs::{HandleLog, Logs, RawLog};
pub use printer::print;
pub use readback::logs_of;

#[cfg(test)]
mod print_tests;
#[cfg(test)]
mod tests;
#[cfg(test)]
mod vector_tests;
