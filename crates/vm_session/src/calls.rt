// The calls of a session.

ghost use Rattle.std.specs.Prelude.{◌≡◌, ◌+◌, ◌-◌, ◌^◌, ◌<◌, ◌≤◌, ◌++◌, [], true, false, length, vec_len, vec_capacity, IfOk, IfErr, OnOk, OnErr};
ghost use Rattle.vm_wire.specs.Payload.{HasItsLength};
ghost use Rattle.vm_session.specs.State.{is_quiet};
ghost use Rattle.vm_session.specs.Rows.{ioctl_row, puts_back, moves_memories, Comes, held_after, stops, Answers, Refuses, MayRefuse};

use crate::Session;
use crate::requests::{fmtdesc_in, format_in, input_in, number_in};
use v4l_const::{Errno, FourCc, IoctlCode};
use vm_frame::Held;
use vm_wire::{Payload, buffer_in, reqbufs_in, subscription_in};

impl Session {
    /// Whether the call with this code and request is a stopping one that isn't refused at once:
    /// its type and its memory kind are there, and it doesn't ask for buffers of a queue that
    /// streams. Such a call waits until the session is quiet, also where memory is refused to it
    /// then.
    ///
    /// Source: own.
    #[tactic(auto, unfolding(crate::specs::Rows::reqbufs_row, crate::specs::Rows::streamoff_row))]
    pub fn stops(&self, code: IoctlCode, payload: &Payload) -> bool
        requires { HasItsLength code payload.now }
        ensures { result ≡ stops self.now code payload.now }
    {
        match code {
            IoctlCode::ReqBufs => {
                let asked = reqbufs_in(payload);
                self.check_reqbufs(asked.kind, asked.memory, asked.count)
                    .is_ok()
            }
            IoctlCode::StreamOff => self.check_type(number_in(payload)).is_ok(),
            _ => false,
        }
    }

    /// Does the call with this code, whose request is in the payload and whose answer stands there
    /// afterwards, in as many bytes. A QBUF takes the memory out of `held` that comes along there:
    /// just one, for the buffer of the type and the index, of the kind and of the length that its
    /// record tells; a frame has the length that its buffer has. What another call takes out of the
    /// session's hands goes behind what `held` has: STREAMOFF puts the memories of those buffers
    /// there that were queued, in the order in which they were queued, and so does a request for
    /// buffers, which puts the fresh frames behind them by their index. A call that puts memories
    /// back has room for 64 there, and the session is quiet, unless the call is refused at once.
    /// Fewer than 2^32 - 32 frames were made before.
    ///
    /// # Errors
    /// The first refusal of the call that applies, or `ENOMEM` where none does and the memory for
    /// fresh frames can't be had. A refused call changes nothing.
    ///
    /// Source: own, after the Linux V4L2 interface.
    pub fn ioctl(
        &mut self,
        code: IoctlCode,
        payload: &mut Payload,
        held: &mut Vec<Held>,
    ) -> Result<(), Errno>
        requires payload { HasItsLength code payload.old }
        requires frames { self.old.made < 2 ^ 32 - 32 }
        requires room { puts_back code ≡ true → vec_len held.old + 64 ≤ vec_capacity held.old }
        requires quiet { stops self.old code payload.old ≡ true → is_quiet self.old ≡ true }
        requires comes { Comes self.old code payload.old held.old.items }
        ensures ok { OnOk result
            (Answers (ioctl_row self.old code payload.old held.old.items) payload.new self.new) }
        ensures err { IfErr result (λ e. MayRefuse
            (ioctl_row self.old code payload.old held.old.items) e) }
        ensures session_kept { OnErr result (self.new ≡ self.old) }
        ensures payload_kept { OnErr result (payload.new ≡ payload.old) }
        ensures held { OnOk result (held.new.items ≡
            held_after code held.old.items
            (ioctl_row self.old code payload.old held.old.items).back) }
        ensures held_kept { OnErr result (held.new.items ≡ held.old.items) }
        ensures capacity { vec_capacity held.new ≡ vec_capacity held.old }
        ensures size { length payload.new ≡ length payload.old }
    {
        let answer = self.answer(code, payload, held)?;
        *payload = answer;
        Ok(())
    }

    /// Does a call, and gives the payload that answers it.
    fn answer(
        &mut self,
        code: IoctlCode,
        request: &Payload,
        held: &mut Vec<Held>,
    ) -> Result<Payload, Errno>
        requires payload { HasItsLength code request.now }
        requires frames { self.old.made < 2 ^ 32 - 32 }
        requires room { puts_back code ≡ true → vec_len held.old + 64 ≤ vec_capacity held.old }
        requires quiet { stops self.old code request.now ≡ true → is_quiet self.old ≡ true }
        requires comes { Comes self.old code request.now held.old.items }
        ensures ok { IfOk result (λ payload. Answers
            (ioctl_row self.old code request.now held.old.items) payload self.new) }
        ensures err { IfErr result (λ e. MayRefuse
            (ioctl_row self.old code request.now held.old.items) e) }
        ensures kept { OnErr result (self.new ≡ self.old) }
        ensures held { OnOk result (held.new.items ≡
            held_after code held.old.items
            (ioctl_row self.old code request.now held.old.items).back) }
        ensures held_kept { OnErr result (held.new.items ≡ held.old.items) }
        ensures capacity { vec_capacity held.new ≡ vec_capacity held.old }
        ensures size { IfOk result (λ payload. length payload ≡ length request.now) }
    {
        match code {
            IoctlCode::ReqBufs => {
                let asked = reqbufs_in(request);
                self.reqbufs(asked.kind, asked.memory, asked.count, held)
            }
            IoctlCode::StreamOff => self.streamoff(number_in(request), held),
            IoctlCode::QBuf => self.qbuf(&buffer_in(request), held),
            _ => self.answer_alone(code, request),
        }
    }

    /// Does a call that has nothing to do with memories, and gives the payload that answers it.
    fn answer_alone(&mut self, code: IoctlCode, request: &Payload) -> Result<Payload, Errno>
        requires payload { HasItsLength code request.now }
        requires alone { moves_memories code ≡ false }
        ensures ok { IfOk result (λ payload. Answers
            (ioctl_row self.old code request.now []) payload self.new) }
        ensures err { IfErr result (λ e. Refuses (ioctl_row self.old code request.now []) e) }
        ensures kept { OnErr result (self.new ≡ self.old) }
        ensures size { IfOk result (λ payload. length payload ≡ length request.now) }
    {
        match code {
            IoctlCode::QueryCap => Ok(self.querycap()),
            IoctlCode::EnumFmt => {
                let asked = fmtdesc_in(request);
                self.enumfmt(asked.kind, asked.index)
            }
            IoctlCode::GFmt => self.gfmt(format_in(request).kind),
            IoctlCode::TryFmt => {
                let asked = format_in(request);
                self.tryfmt(
                    asked.kind,
                    FourCc(asked.pixelformat),
                    asked.width,
                    asked.height,
                )
            }
            IoctlCode::SFmt => {
                let asked = format_in(request);
                self.sfmt(
                    asked.kind,
                    FourCc(asked.pixelformat),
                    asked.width,
                    asked.height,
                )
            }
            IoctlCode::EnumInput => self.enuminput(input_in(request).index),
            IoctlCode::GInput => self.ginput(),
            IoctlCode::SInput => self.sinput(number_in(request)),
            IoctlCode::QueryBuf => {
                let asked = buffer_in(request);
                self.querybuf(asked.kind, asked.index)
            }
            IoctlCode::StreamOn => self.streamon(number_in(request)),
            IoctlCode::SubscribeEvent => self.subscribe(subscription_in(request).kind),
            IoctlCode::UnsubscribeEvent => self.unsubscribe(subscription_in(request).kind),
            // These have to do with memories.
            IoctlCode::ReqBufs | IoctlCode::QBuf | IoctlCode::StreamOff => Err(Errno::Eopnotsupp),
        }
    }
}
