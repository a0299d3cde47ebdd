ghost use Rattle.std.specs.Prelude.{◌≡◌, ◌<◌, ◌+◌, ◌*◌, ◌≤◌, true, false, IfOk, Some};
ghost use Rattle.std.specs.Option.{option_map};
ghost use Rattle.vm_home.specs.Home.{home_of, is_kept};
ghost use Rattle.vm_local.specs.Record.{without_bytes};
ghost use Rattle.vm_log.specs.LegalLog.{fresh_log, state_of, lease_in, IsSound};
ghost use Rattle.vm_log.specs.Answers.{with_line};

use crate::away::{Away, lease_in};
use std::alloc::Global;
use std::marker::Model;
use v4l_const::Model as DeviceModel;
use vm_frame::Mem;
use vm_home::Home;
use vm_lease::LeaseOut;
use vm_local::{Entry, Record};
use vm_mem::Memory;

/// How many entries of its log a line has at most.
const ENTRIES_OF_A_LINE: usize = 4;

/// How many memories a line makes at most.
const MEMORIES_OF_A_LINE: usize = 32;

/// The log of one handle of the driver, which is legal, and the memories of the handle that are at
/// home.
///
/// A line is begun, and then it is answered, which logs it. Meanwhile its memory may be out, and
/// steps of the device may be logged. Each line has room for four entries and for 32 memories.
///
/// Source: own.
#[derive(Drop)]
pub struct LegalLog {
    pub(crate) model: DeviceModel,
    pub(crate) entries: Vec<Entry>,
    /// What the log leads to.
    pub(crate) kept: Record,
    pub(crate) home: Home,
    pub(crate) away: Away,
    pub(crate) lines: u32,
    pub(crate) begun: u32,
    pub(crate) unanswered: bool,
}

impl Model for LegalLog {
    ghost use Rattle.std.specs.Prelude.{◌+◌, ◌*◌, ◌≤◌, length, vec_len, vec_capacity};
    ghost use Rattle.vm_home.specs.Home.{kept_only};
    ghost use Rattle.vm_log.specs.LegalLog.{LogState, Keeps, IsWithin, state_after};

    ghost Value = { LogState };

    ghost view = { λ l. record {
      model = l.model;
      entries = l.entries.items;
      home = kept_only (state_after l.model l.entries.items) l.home.places;
      away = l.away;
      lines = l.lines;
      begun = l.begun;
      unanswered = l.unanswered;
    } };

    ghost invariant = { λ l. Keeps l.model l.entries.items l.kept.local l.home.places l.away
        l.unanswered
        × IsWithin (state_after l.model l.entries.items)
        (length l.entries.items) l.lines l.begun l.unanswered
        × (4 * l.lines ≤ vec_capacity l.entries)
        × (4 * l.lines ≤ vec_len l.entries + l.kept.room)
        × (32 * l.lines ≤ l.home.room) };
}

impl LegalLog {
    /// The log of a handle of a device of this model, which is closed. It has room for `lines`
    /// lines, so that nothing but the memories themselves is wanting from then on.
    ///
    /// # Errors
    /// `Memory` where the room can't be had.
    pub fn make(alloc: Global, model: DeviceModel, lines: u32) -> Result<LegalLog, Memory>
        ensures { IfOk result (λ l. l ≡ fresh_log model lines) }
    {
        let room = lines as usize * ENTRIES_OF_A_LINE;
        let mut entries = Vec::new(alloc);
        entries.reserve(room)?;
        let mut kept = Record::new(alloc, model);
        kept.reserve(room)?;
        let mut home = Home::new(alloc);
        home.reserve(lines as usize * MEMORIES_OF_A_LINE)?;
        Ok(LegalLog {
            model,
            entries,
            kept,
            home,
            away: Away::Nothing,
            lines,
            begun: 0,
            unanswered: false,
        })
    }

    /// Begins the next line. It stays unanswered until one of the other calls answers it.
    pub fn begin_line(&mut self)
        requires lines { self.old.begun < self.old.lines }
        requires answered { self.old.unanswered ≡ false }
        ensures { self.new ≡ with_line self.old }
    {
        self.begun += 1;
        self.unanswered = true;
    }

    /// The entries in order. They are a legal log.
    pub fn log(&self) -> &[Entry]
        ensures entries { result.now ≡ self.now.entries }
        ensures sound { IsSound self.now }
    {
        &self.entries
    }

    /// The record of the state that the log leads to.
    pub fn record(&self) -> &Record
        ensures { result.now.local ≡ without_bytes (state_of self.now) }
    {
        &self.kept
    }

    /// The memory with this number of those that the handle has, if it is at home.
    pub fn at_home(&self, number: u64) -> Option<&Mem>
        requires { is_kept (state_of self.now) number ≡ true }
        ensures { option_map (λ mem. mem.now) result ≡ home_of self.now.home number }
    {
        self.home.get(number)
    }

    /// The lease that is out.
    pub fn lease_out(&self) -> Option<&LeaseOut>
        ensures { option_map (λ entry. entry.now) result ≡ lease_in self.now.away }
    {
        lease_in(&self.away)
    }
}
