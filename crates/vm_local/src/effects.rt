//! What each call does where no refusal applies.
ghost use Rattle.std.specs.Prelude.{◌≡◌, ◌<◌, ◌≤◌, ◌+◌, None, false};
ghost use Rattle.v4l_rules.specs.Refusals.{first_refusal};
ghost use Rattle.vm_local.specs.Calls.{row_of};
ghost use Rattle.vm_local.specs.Record.{with_call};

use crate::call::Call;
use crate::record::Record;

impl Record {
    /// Does a call that no refusal stops and that doesn't wait. What it writes isn't kept.
    #[tactic(auto, unfolding(crate::specs::Calls::querycap_row, crate::specs::Calls::enumfmt_row, crate::specs::Calls::gfmt_row, crate::specs::Calls::tryfmt_row, crate::specs::Calls::enuminput_row, crate::specs::Calls::ginput_row, crate::specs::Calls::querybuf_row, crate::specs::Calls::read_row, crate::specs::Calls::hash_row))]
    pub(crate) fn perform(&mut self, line: u32, call: &Call, addr: u64)
        requires room { 0 < self.old.room }
        requires passes { first_refusal (row_of self.old.local line addr call.now).refusals ≡ None }
        requires goes { (row_of self.old.local line addr call.now).waits ≡ false }
        ensures next { self.new.local ≡ with_call self.old.local line addr call.now }
        ensures room { self.old.room ≤ self.new.room + 1 }
    {
        match call {
            Call::OpenHandle { nonblock } => self.open_anew(*nonblock),
            Call::CloseHandle => self.close(),
            Call::SFmt { t, f, w, h } => self.set_format(*t, *f, *w, *h),
            Call::SInput { i } => self.set_input(*i),
            Call::ReqBufs { t, m, n } => self.renew_buffers(*t, *m, *n),
            Call::UAlloc { u, len, off } => self.allocate(line, u, *len, *off),
            Call::QBuf {
                t,
                i,
                user,
                used,
                ts,
            } => self.queue_buffer(*t, *i, user, *used, *ts),
            Call::StreamOn { t } => self.start(*t),
            Call::StreamOff { t } => self.stop(*t),
            Call::DqBuf { t } => self.take_back(*t),
            Call::Mmap { m, t, i, ro } => self.map(addr, m, *t, *i, *ro),
            Call::Munmap { m } => self.unmap(m),
            Call::Subscribe { e: _ } => self.subscribe(),
            Call::Unsubscribe { e: _ } => self.unsubscribe(),
            Call::DqEvent => self.take_event(),
            Call::QueryCap
            | Call::EnumFmt { .. }
            | Call::GFmt { .. }
            | Call::TryFmt { .. }
            | Call::EnumInput { .. }
            | Call::GInput
            | Call::QueryBuf { .. }
            | Call::Peek { .. }
            | Call::Hash { .. }
            | Call::Poke { .. }
            | Call::Fill { .. } => {}
        }
    }
}
