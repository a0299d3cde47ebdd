//! A script while its lines are read.

ghost use Rattle.std.specs.Prelude.{◌≡◌, IfOk, map};
ghost use Rattle.std.specs.Option.{ok_or};
ghost use Rattle.vm_script.specs.Drafts.{device_in, no_script, with_device, with_process, with_own};
ghost use Rattle.vm_script.specs.Grammar.{at_line, drafted, with_any, with_built, with_words};
ghost use Rattle.vm_script.specs.Reading.{Becomes};
ghost use Rattle.vm_script.specs.Verbs.{begins};

use crate::built::is_built_line;
use crate::draft::Draft;
use crate::fault::faulty;
use crate::process::add_words;
use crate::{Process, Script, ScriptError, ScriptKind};
use std::alloc::Global;
use std::marker::Model;
use std::mem;
use v4l_const::Model as DeviceModel;
use vm_mem::Memory;

/// How many processes a script has at most.
const PROCESS_LIMIT: usize = 16;

const DEVICE: &[u8] = b"device";

const PROC: &[u8] = b"proc";

const CAPTURE: &[u8] = b"capture";

const CONVERT: &[u8] = b"convert";

/// A script while its lines are read. Contracts see it as what its lines so far give.
#[derive(Debug, Drop)]
pub struct ScriptDraft {
    /// Whether a line with words was read.
    begun: bool,
    model: DeviceModel,
    /// The processes before the one that the next line is of.
    before: Vec<Process>,
    process: Draft,
}

impl Model for ScriptDraft {
    ghost use Rattle.vm_script.specs.Drafts.{ScriptDraft as Drafted};

    ghost Value = { Drafted };

    ghost view = { λ d. record {
      begun = d.begun;
      model = d.model;
      before = d.before.items;
      process = d.process;
    } };
}

/// Whether the first word is this one.
fn begins(word: &[u8], words: &[&[u8]]) -> bool
    ensures { result ≡ begins word.now (map (λ word. word.now) words.now) }
{
    match words.split_first() {
        Some((first, _rest)) => *first == word,
        None => false,
    }
}

/// The model that the words of a `device` line name.
fn device_of(words: &[&[u8]]) -> Option<DeviceModel>
    ensures { result ≡ device_in (map (λ word. word.now) words.now) }
{
    match words {
        [_device, word] if *word == CAPTURE => Some(DeviceModel::Capture),
        [_device, word] if *word == CONVERT => Some(DeviceModel::Convert),
        _ => None,
    }
}

impl ScriptDraft {
    /// A script of which nothing was read.
    pub fn new(alloc: Global) -> ScriptDraft
        ensures { result ≡ no_script }
    {
        ScriptDraft {
            begun: false,
            model: DeviceModel::Capture,
            before: Vec::new(alloc),
            process: Draft::new(alloc),
        }
    }

    /// Adds a `device` line of these words.
    ///
    /// # Errors
    /// `Fault` where it isn't the first line with words, or names no model.
    fn add_device(&mut self, number: u32, words: &[&[u8]]) -> Result<(), ScriptError>
        ensures { Becomes (at_line number (with_device self.old (map (λ word. word.now) words.now)))
            self.new result }
    {
        if self.begun {
            return Err(faulty(number, ScriptKind::Word));
        }
        match device_of(words) {
            Some(model) => {
                self.begun = true;
                self.model = model;
                Ok(())
            }
            None => Err(faulty(number, ScriptKind::Word)),
        }
    }

    /// Adds a `proc` line of these words.
    ///
    /// # Errors
    /// `Fault` where there is a word more, or there are as many processes as there may be; `Memory`
    /// where there is none for one more.
    fn add_process(
        &mut self,
        alloc: Global,
        number: u32,
        words: &[&[u8]],
    ) -> Result<(), ScriptError>
        ensures { Becomes (at_line number
            (with_process self.old (map (λ word. word.now) words.now))) self.new result }
    {
        if words.len() != 1 {
            return Err(faulty(number, ScriptKind::Word));
        }
        if self.before.len() >= PROCESS_LIMIT - 1 {
            return Err(faulty(number, ScriptKind::TooManyProcesses));
        }
        self.before.reserve(1).map_err(|_| ScriptError::Memory)?;
        let process = mem::replace(&mut self.process, Draft::new(alloc));
        self.before.push_reserved(process.finish());
        self.begun = true;
        Ok(())
    }

    /// Adds a statement's line to the process.
    ///
    /// # Errors
    /// `Fault` where the line is faulty, `Memory` where there is none for it.
    fn add_own(&mut self, alloc: Global, number: u32, words: &[&[u8]]) -> Result<(), ScriptError>
        ensures { Becomes (at_line number (with_own self.old
            (with_words self.old.process number (map (λ word. word.now) words.now))))
            self.new result }
    {
        add_words(alloc, &mut self.process, number, words)?;
        self.begun = true;
        Ok(())
    }

    /// Adds the line of these words, which is built.
    ///
    /// # Errors
    /// `Fault` where the line is faulty, `Memory` where there is none for it.
    fn add_any(&mut self, alloc: Global, number: u32, words: &[&[u8]]) -> Result<(), ScriptError>
        ensures { Becomes (at_line number (with_any self.old number
            (map (λ word. word.now) words.now))) self.new result }
    {
        if begins(DEVICE, words) {
            self.add_device(number, words)
        } else if begins(PROC, words) {
            self.add_process(alloc, number, words)
        } else {
            self.add_own(alloc, number, words)
        }
    }

    /// Adds the line of these words.
    ///
    /// # Errors
    /// `Fault` where the line is faulty, first of all where it isn't built; `Memory` where there
    /// is none for it.
    pub fn add(&mut self, alloc: Global, number: u32, words: &[&[u8]]) -> Result<(), ScriptError>
        ensures { Becomes (at_line number (with_built self.old number
            (map (λ word. word.now) words.now))) self.new result }
    {
        if is_built_line(words) {
            self.add_any(alloc, number, words)
        } else {
            Err(faulty(number, ScriptKind::NotBuilt))
        }
    }

    /// The script.
    ///
    /// # Errors
    /// `Memory` where there is none for the last process.
    pub fn finish(self) -> Result<Script, Memory>
        ensures { IfOk result (λ script. script ≡ drafted self) }
    {
        let ScriptDraft {
            begun: _,
            model,
            before: mut processes,
            process,
        } = self;
        processes.push(process.finish()).map_err(|_| Memory)?;
        Ok(Script { model, processes })
    }
}
