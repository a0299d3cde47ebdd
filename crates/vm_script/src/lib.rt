//! Scripts: the lines that processes give to their handles.
//!
//! Begin with `read_script`. Its main definitions are which bytes are a script, `script_of`, in
//! `specs/Grammar.antt`, and what each statement asks, `asked`, in `specs/Statements.antt`.
#![tactic(auto)]

mod built;
mod draft;
mod drafts;
mod echo;
mod extras;
mod fault;
mod forms;
mod laws;
mod line;
mod mention;
mod names;
mod number;
mod process;
mod reader;
mod script;
mod statement;
mod values;
mod verb;
mod words;

pub use built::is_built_line;
pub use echo::Echo;
pub use fault::{ScriptError, ScriptFault, ScriptKind};
pub use laws::{scripts_are_read, texts_read_as_one_call};
pub use line::{Line, LineKind, RawChain};
pub use number::number_of;
pub use reader::read_script;
pub use script::{Process, STATEMENT_LIMIT, Script};
pub use statement::{Statement, statement_of};
pub use values::{between_of, bytes_of, code_of, name_of};

#[cfg(test)]
mod grammar_tests;
#[cfg(test)]
mod tests;
