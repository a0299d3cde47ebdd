//! What each call answers where no refusal applies.
ghost use Rattle.std.specs.Prelude.{◌≡◌, ◌+◌, ℕ, slice_index_or, List, Bool, false};
ghost use Rattle.v4l_const.specs.declared.four_cc.FourCc.{FourCc};
ghost use Rattle.v4l_format.specs.Fmt.{IsAdjusted};
ghost use Rattle.vm_local.specs.State.{LocalState};
ghost use Rattle.vm_local.specs.declared.reply.Reply.TheVariants.{Pages};
ghost use Rattle.vm_local.specs.Memory.{pages_of};
ghost use Rattle.vm_local.specs.Calls.{row_of, format_reply, querycap_row, enumfmt_row, gfmt_row, tryfmt_row, sfmt_row, enuminput_row, ginput_row, sinput_row, reqbufs_row, querybuf_row, ualloc_row, dqbuf_row, mmap_row, dqevent_row};
ghost use Rattle.vm_local.specs.Record.{without_bytes, tells_bytes};

use crate::buffers::BUFFER_LIMIT;
use crate::call::Call;
use crate::owed::SyncEvent;
use crate::record::Record;
use crate::reply::Reply;
use v4l_const::{EVENT_FRAME_SYNC, FourCc};
use v4l_format::{Fmt, bytesperline, nth_format, sizeimage};
use v4l_rules::FIRST_FORMAT;
use vm_mem::PAGE_SIZE;

impl Record {
    /// The reply of a call that no refusal stops, and that doesn't tell bytes, from each state that
    /// this is the record of. A successful `mmap` answers this address.
    pub fn reply(&self, call: &Call, addr: u64) -> Reply
        ensures { (s : LocalState) (line : ℕ) → self.now.local ≡ without_bytes s →
            tells_bytes call.now ≡ false → result ≡ (row_of s line addr call.now).reply }
    {
        self.row_reply(call, addr)
    }

    /// The same from the record itself.
    #[tactic(auto, unfolding(crate::specs::Calls::enuminput_row, crate::specs::Calls::ginput_row, crate::specs::Calls::sinput_row, crate::specs::Calls::reqbufs_row, crate::specs::Calls::ualloc_row, crate::specs::Calls::qbuf_row, crate::specs::Calls::streamon_row, crate::specs::Calls::streamoff_row, crate::specs::Calls::munmap_row, crate::specs::Calls::write_row, crate::specs::Calls::fill_row, crate::specs::Calls::subscribe_row, crate::specs::Calls::unsubscribe_row))]
    pub(crate) fn row_reply(&self, call: &Call, addr: u64) -> Reply
        ensures { (line : ℕ) → tells_bytes call.now ≡ false →
            result ≡ (row_of self.now.local line addr call.now).reply }
    {
        match call {
            Call::QueryCap => self.capabilities(),
            Call::EnumFmt { t, i } => self.code(*t, *i),
            Call::GFmt { t } => self.format(*t),
            Call::TryFmt { t, f, w, h } | Call::SFmt { t, f, w, h } => {
                self.adjusted(*t, *f, *w, *h)
            }
            Call::EnumInput { i } => Reply::InputName(*i),
            Call::GInput => Reply::InputIs(self.input),
            Call::SInput { i } => Reply::InputIs(*i),
            Call::ReqBufs { t: _, m: _, n } => Reply::Count((*n).min(BUFFER_LIMIT as u32)),
            Call::QueryBuf { t, i } => self.buffer_told(*t, *i),
            Call::UAlloc { u: _, len, off } => pages(*len, *off),
            Call::DqBuf { t } => self.frame(*t),
            Call::Mmap { m: _, t, i, ro: _ } => self.mapping(addr, *t, *i),
            Call::DqEvent => self.event(),
            Call::OpenHandle { .. }
            | Call::CloseHandle
            | Call::QBuf { .. }
            | Call::StreamOn { .. }
            | Call::StreamOff { .. }
            | Call::Munmap { .. }
            | Call::Peek { .. }
            | Call::Hash { .. }
            | Call::Poke { .. }
            | Call::Fill { .. }
            | Call::Subscribe { .. }
            | Call::Unsubscribe { .. } => Reply::Done,
        }
    }

    #[tactic(auto, unfolding(crate::specs::Calls::querycap_row))]
    fn capabilities(&self) -> Reply
        ensures { result ≡ (querycap_row self.now.local).reply }
    {
        Reply::Caps {
            all: self.model.capabilities().0,
            device: self.model.device_capabilities().0,
        }
    }

    #[tactic(auto, unfolding(crate::specs::Calls::enumfmt_row))]
    fn code(&self, t: u32, i: u32) -> Reply
        ensures { result ≡ (enumfmt_row self.now.local t i).reply }
    {
        match nth_format(i) {
            Some(code) => Reply::Code(code),
            None => Reply::Code(FIRST_FORMAT.code),
        }
    }

    #[tactic(auto, unfolding(crate::specs::Calls::gfmt_row))]
    fn format(&self, t: u32) -> Reply
        ensures { result ≡ (gfmt_row self.now.local t).reply }
    {
        format_reply(&self.format_of(t))
    }

    #[tactic(auto, unfolding(crate::specs::Calls::tryfmt_row, crate::specs::Calls::sfmt_row))]
    fn adjusted(&self, t: u32, f: FourCc, w: u32, h: u32) -> Reply
        ensures tryfmt { result ≡ (tryfmt_row self.now.local t f w h).reply }
        ensures sfmt { result ≡ (sfmt_row self.now.local t f w h).reply }
    {
        format_reply(&self.adjusted_for(t, f, w, h))
    }

    #[tactic(auto, unfolding(crate::specs::Calls::querybuf_row))]
    fn buffer_told(&self, t: u32, i: u32) -> Reply
        ensures { result ≡ (querybuf_row self.now.local t i).reply }
    {
        let buffer = self.buffer_of(t, i);
        Reply::Buf {
            length: buffer.length,
            flags: self.flags_of(&buffer),
        }
    }

    #[tactic(auto, unfolding(crate::specs::Calls::dqbuf_row))]
    fn frame(&self, t: u32) -> Reply
        ensures { result ≡ (dqbuf_row self.now.local t).reply }
    {
        let buffer = self.given_back(t);
        Reply::Frame {
            index: self.first_done(t),
            used: buffer.used,
            seq: buffer.sequence,
            ts: buffer.timestamp,
            flags: self.flags_of(&buffer),
        }
    }

    #[tactic(auto, unfolding(crate::specs::Calls::mmap_row))]
    fn mapping(&self, addr: u64, t: u32, i: u32) -> Reply
        ensures { (m : List ℕ) (ro : Bool) → result ≡
            (mmap_row self.now.local addr m t i ro).reply }
    {
        Reply::Mapped {
            addr,
            length: self.buffer_of(t, i).length,
        }
    }

    #[tactic(auto, unfolding(crate::specs::Calls::dqevent_row))]
    fn event(&self) -> Reply
        ensures { result ≡ (dqevent_row self.now.local).reply }
    {
        let event = first_event(&self.events);
        Reply::Event {
            kind: EVENT_FRAME_SYNC,
            frame: event.frame,
            pending: self.events.len().saturating_sub(1) as u32,
            seq: event.number,
        }
    }
}

/// A format as a reply.
fn format_reply(f: &Fmt) -> Reply
    requires { IsAdjusted f.now }
    ensures { result ≡ format_reply f.now }
{
    Reply::Format {
        f: *f,
        line: bytesperline(f),
        size: sizeimage(f),
    }
}

/// How many pages hold `len` bytes that begin `off` bytes into the first, as a reply.
fn pages(len: u32, off: u32) -> Reply
    ensures { result ≡ Pages (pages_of (len + off)) }
{
    let end = u64::from(len) + u64::from(off);
    Reply::Pages(end.div_ceil(u64::from(PAGE_SIZE)) as u32)
}

/// The first event, one with zeros where there is none.
fn first_event(events: &[SyncEvent]) -> SyncEvent
    ensures { result ≡ slice_index_or events.now 0 (record { frame = 0; number = 0 }) }
{
    events.first().copied().unwrap_or(SyncEvent {
        frame: 0,
        number: 0,
    })
}
