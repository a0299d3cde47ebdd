ghost use Rattle.std.specs.Prelude.{◌≡◌, ℕ, [], false};
ghost use Rattle.vm_local.specs.declared.call.Call.TheVariants.{OpenHandle};
ghost use Rattle.vm_local.specs.State.{LocalState};
ghost use Rattle.vm_handle.specs.Answers.{AnswersWith};

use crate::{Handle, Leased, Started};
use std::alloc::Global;
use std::marker::Model;
use std::process::Abort;
use std::test::Fail;
use v4l_const::Model as DeviceModel;
use vm_exchange::touches_memory;
use vm_local::{Call, Entry, Local, Reply, local_step};
use vm_wire::Response;

const OPEN: Call = Call::OpenHandle { nonblock: false };

/// For how many lines there is room.
const LINES: u32 = 32;

/// What stands behind what a call crosses by.
const BEHIND: u8 = 0xee;

/// More events than a log of these tests has.
const EVENT_LIMIT: usize = 1000;

/// A handle whose lines are numbered from 1 on.
#[derive(Drop)]
pub struct Rig {
    handle: Handle,
    alloc: Global,
    // How many more lines there is room for.
    left: u32,
}

impl Model for Rig {
    ghost use Rattle.std.specs.Prelude.{◌≤◌, ◌+◌};
    ghost use Rattle.vm_handle.specs.Handle.{HandleState};

    ghost Value = { HandleState };

    ghost view = { λ r. r.handle };

    ghost invariant = { λ r. r.left + r.handle.log.begun ≤ r.handle.log.lines };
}

impl Rig {
    /// A handle of a device of this model, closed.
    pub fn make(alloc: Global, model: DeviceModel) -> Result<Rig, Fail> {
        Ok(Rig {
            handle: Handle::make(alloc, model, LINES)?,
            alloc,
            left: LINES,
        })
    }

    /// The handle's session.
    pub fn session(&self) -> Option<u32> {
        self.handle.session()
    }

    // The number of the next line.
    fn line(&self) -> u32 {
        LINES.saturating_sub(self.left) + 1
    }

    /// A line whose call is answered without the device.
    pub fn answer(&mut self, rt: &impl Abort, call: &Call) -> Result<(), Fail> {
        assert!(rt; self.left > 0);
        assert!(rt; self.handle.is_answered());
        assert!(rt; !touches_memory(call));
        let line = self.line();
        let mut out = [BEHIND; 4096];
        let mut held = Vec::with_capacity(self.alloc, 1)?;
        let started = self.handle.start(line, call, &mut out, &mut held);
        self.left -= 1;
        assert!(rt; started == Started::Answered);
        assert!(rt; out.iter().all(|byte| *byte == BEHIND));
        assert!(rt; held.is_empty());
        Ok(())
    }

    /// A line that opens the handle, which the device answers so.
    pub fn open(&mut self, rt: &impl Abort, response: &Response) -> Result<(), Fail>
        requires { (s : LocalState) (line : ℕ) →
            AnswersWith s line (OpenHandle false) response.now [] }
    {
        assert!(rt; self.left > 0);
        assert!(rt; self.handle.is_answered());
        let line = self.line();
        let mut out = [BEHIND; 4096];
        let mut held = Vec::with_capacity(self.alloc, 1)?;
        let started = self.handle.start(line, &OPEN, &mut out, &mut held);
        assert!(rt; started == Started::Send { len: 8 });
        assert_eq!(rt;
            out.get(..9),
            Some([1, 0, 0, 0, 0, 0, 0, 0, BEHIND].as_slice())
        );
        self.handle.reply(line, &OPEN, response, &mut held);
        self.left -= 1;
        Ok(())
    }

    /// A line that touches a memory, by a lease where nothing refuses it.
    pub fn touch(&mut self, rt: &impl Abort, call: &Call) {
        assert!(rt; self.left > 0);
        assert!(rt; self.handle.is_answered());
        assert!(rt; touches_memory(call));
        if let Call::Peek { len, .. } = call {
            assert!(rt; *len <= 256);
        }
        let line = self.line();
        if let Leased::Out(mut lease) = self.handle.lease(line, call) {
            lease.apply();
            assert!(rt; self.handle.give_back(lease).is_ok());
        }
        self.left -= 1;
    }

    /// The log has just these lines, which the table of calls allows.
    pub fn has_logged(
        &self,
        rt: &impl Abort,
        model: DeviceModel,
        lines: &[(Call, Reply)],
    ) -> Result<(), Fail> {
        let mut local = Local::new(self.alloc, model);
        let mut line = 0;
        for (call, reply) in lines {
            assert!(rt; local.events_listed() < EVENT_LIMIT && line < LINES);
            line += 1;
            let entry = Entry::Called {
                line,
                call: *call,
                reply: *reply,
            };
            let legal = local_step(&mut local, &entry)?;
            assert_eq!(rt;
                (legal, self.handle.log().get(line as usize - 1)),
                (true, Some(&entry))
            );
        }
        assert_eq!(rt; self.handle.log().len(), lines.len());
        Ok(())
    }
}
