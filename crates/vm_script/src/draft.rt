//! A process while its lines are read.

ghost use Rattle.std.specs.Prelude.{◌≡◌, OnOk, OnErr, Ok};
ghost use Rattle.vm_script.specs.Drafts.{no_lines};
ghost use Rattle.vm_script.specs.Grammar.{declares, handle_for, with_statement};

use crate::mention::{Mention, check_mention, mention_of};
use crate::names::Names;
use crate::statement::Statement;
use crate::{Echo, Line, LineKind, Process, STATEMENT_LIMIT, ScriptKind};
use std::alloc::Global;
use std::marker::Model;
use vm_local::Call;
use vm_mem::Memory;

/// A process while its lines are read, which finds names without going through its lines. Contracts
/// see it as the process that its lines so far give.
#[derive(Debug, Drop)]
pub struct Draft {
    handles: Names,
    /// For each handle the names of memory that its lines declare.
    memories: Vec<Names>,
    lines: Vec<Line>,
}

impl Model for Draft {
    ghost use Rattle.std.specs.Prelude.{◌≡◌, ◌≤◌, length};
    ghost use Rattle.vm_script.specs.Memory.{AreMemories};
    ghost use Rattle.vm_script.specs.Script.{ProcessLines};

    ghost Value = { ProcessLines };

    ghost view = { λ d. record { handles = d.handles; lines = d.lines.items } };

    ghost invariant = { λ d.
        (length d.handles ≤ length d.lines.items)
        × (length d.memories.items ≡ length d.handles)
        × AreMemories d.memories.items d.lines.items };
}

/// Whether the call declares its handle's name.
fn declares(call: &Call) -> bool
    ensures { result ≡ declares call.now }
{
    matches!(call, Call::OpenHandle { .. })
}

impl Draft {
    /// A process without lines.
    pub fn new(alloc: Global) -> Draft
        ensures { result ≡ no_lines }
    {
        Draft {
            handles: Names::new(alloc),
            memories: Vec::new(alloc),
            lines: Vec::new(alloc),
        }
    }

    /// The handle that a statement is on: a name that it declares is the next handle's, any other
    /// an earlier one's.
    ///
    /// # Errors
    /// `TooManyLines` where the process has all lines that it may have, else `OpenTwice` for a name
    /// that was declared before, and `NotDeclared` for one that was not.
    pub fn handle_of(&self, statement: &Statement) -> Result<u32, ScriptKind>
        ensures { result ≡ handle_for self.now statement.now }
    {
        if self.lines.len() >= STATEMENT_LIMIT {
            return Err(ScriptKind::TooManyLines);
        }
        let place = self.handles.place_of(&statement.handle);
        if declares(&statement.call) {
            return match place {
                None => Ok(self.handles.len() as u32),
                Some(_place) => Err(ScriptKind::OpenTwice),
            };
        }
        let place = place.ok_or(ScriptKind::NotDeclared)?;
        check_mention(&mention_of(&statement.call), &self.memories[place])?;
        Ok(place as u32)
    }

    /// Adds the line of a statement on its handle.
    ///
    /// # Errors
    /// `Memory` where there is none for it. The process stays as it was.
    pub fn add(
        &mut self,
        alloc: Global,
        number: u32,
        echo: Echo,
        statement: Statement,
        h: u32,
    ) -> Result<(), Memory>
        requires { handle_for self.old statement ≡ Ok h }
        ensures ok { OnOk result (self.new ≡ with_statement self.old number echo statement h) }
        ensures err { OnErr result (self.new ≡ self.old) }
    {
        self.lines.reserve(1)?;
        let Statement { handle, call } = statement;
        if declares(&call) {
            self.memories.reserve(1)?;
            self.handles.push(handle)?;
            self.memories.push_reserved(Names::new(alloc));
        } else if let Mention::Declares(name) = mention_of(&call) {
            self.memories[h as usize].push(name)?;
        }
        let what = LineKind::OnHandle { h, call };
        self.lines.push_reserved(Line { number, echo, what });
        Ok(())
    }

    /// The process.
    pub fn finish(self) -> Process
        ensures { result ≡ self }
    {
        let Draft {
            handles,
            memories: _,
            lines,
        } = self;
        Process {
            handles: handles.into_names(),
            lines,
        }
    }
}
