//! The refusals of each call, in the order in which they are tried, and which calls wait.
ghost use Rattle.std.specs.Prelude.{◌≡◌, ℕ};
ghost use Rattle.v4l_rules.specs.Refusals.{first_refusal};
ghost use Rattle.vm_local.specs.State.{LocalState};
ghost use Rattle.vm_local.specs.Calls.{row_of};
ghost use Rattle.vm_local.specs.Record.{without_bytes};

use crate::call::Call;
use crate::record::Record;
use v4l_const::Errno;

impl Record {
    /// The first refusal that applies to a call from each state that this is the record of.
    pub fn refusal(&self, call: &Call) -> Option<Errno>
        ensures { (s : LocalState) → self.now.local ≡ without_bytes s → (line addr : ℕ) →
            result ≡ first_refusal (row_of s line addr call.now).refusals }
    {
        self.row_refusal(call)
    }

    /// Whether a call that no refusal stops has no reply yet.
    pub fn waits(&self, call: &Call) -> bool
        ensures { (s : LocalState) → self.now.local ≡ without_bytes s → (line addr : ℕ) →
            result ≡ (row_of s line addr call.now).waits }
    {
        self.row_waits(call)
    }

    /// The first refusal that applies to a call from the record itself.
    pub(crate) fn row_refusal(&self, call: &Call) -> Option<Errno>
        ensures { (line addr : ℕ) → result ≡ first_refusal
            (row_of self.now.local line addr call.now).refusals }
    {
        match call {
            Call::OpenHandle { .. } => None,
            Call::CloseHandle | Call::QueryCap => self.closed_refusal(),
            Call::EnumFmt { t, i } => self.enumfmt_refusal(*t, *i),
            Call::GFmt { t } | Call::StreamOff { t } => self.type_refusal(*t),
            Call::TryFmt { t, .. } => self.type_refusal(*t),
            Call::SFmt { t, .. } => self.sfmt_refusal(*t),
            Call::EnumInput { i } => self.enuminput_refusal(*i),
            Call::GInput => self.ginput_refusal(),
            Call::SInput { i } => self.sinput_refusal(*i),
            Call::ReqBufs { t, m, n } => self.reqbufs_refusal(*t, *m, *n),
            Call::QueryBuf { t, i } => self.querybuf_refusal(*t, *i),
            Call::UAlloc { u: _, len, off } => self.ualloc_refusal(*len, *off),
            Call::QBuf {
                t,
                i,
                user,
                used,
                ts: _,
            } => self.qbuf_refusal(*t, *i, user, *used),
            Call::StreamOn { t } => self.streamon_refusal(*t),
            Call::DqBuf { t } => self.dqbuf_refusal(*t),
            Call::Mmap { m: _, t, i, ro: _ } => self.mmap_refusal(*t, *i),
            Call::Munmap { m } => self.munmap_refusal(m),
            Call::Peek { m, off, len } => self.read_refusal(m, *off, *len),
            Call::Hash { m } => self.hash_refusal(m),
            Call::Poke { m, off, bytes } => self.write_refusal(m, *off, bytes.as_bytes()),
            Call::Fill { m, seed: _ } => self.fill_refusal(m),
            Call::Subscribe { e } => self.subscribe_refusal(*e),
            Call::Unsubscribe { e } => self.unsubscribe_refusal(*e),
            Call::DqEvent => self.dqevent_refusal(),
        }
    }

    /// Whether a call that no refusal stops from the record itself has no reply yet.
    #[tactic(auto, unfolding(crate::specs::Calls::querycap_row, crate::specs::Calls::enumfmt_row, crate::specs::Calls::gfmt_row, crate::specs::Calls::tryfmt_row, crate::specs::Calls::sfmt_row, crate::specs::Calls::enuminput_row, crate::specs::Calls::ginput_row, crate::specs::Calls::sinput_row, crate::specs::Calls::reqbufs_row, crate::specs::Calls::querybuf_row, crate::specs::Calls::ualloc_row, crate::specs::Calls::qbuf_row, crate::specs::Calls::streamon_row, crate::specs::Calls::streamoff_row, crate::specs::Calls::dqbuf_row, crate::specs::Calls::mmap_row, crate::specs::Calls::munmap_row, crate::specs::Calls::read_row, crate::specs::Calls::hash_row, crate::specs::Calls::write_row, crate::specs::Calls::fill_row, crate::specs::Calls::subscribe_row, crate::specs::Calls::unsubscribe_row, crate::specs::Calls::dqevent_row))]
    pub(crate) fn row_waits(&self, call: &Call) -> bool
        ensures { (line addr : ℕ) → result ≡ (row_of self.now.local line addr call.now).waits }
    {
        match call {
            Call::DqBuf { t } => !self.has_done(*t),
            _ => false,
        }
    }
}

/// Whether a call may answer ENOMEM where no refusal applies.
#[tactic(auto, unfolding(crate::specs::Calls::querycap_row, crate::specs::Calls::enumfmt_row, crate::specs::Calls::gfmt_row, crate::specs::Calls::tryfmt_row, crate::specs::Calls::sfmt_row, crate::specs::Calls::enuminput_row, crate::specs::Calls::ginput_row, crate::specs::Calls::sinput_row, crate::specs::Calls::reqbufs_row, crate::specs::Calls::querybuf_row, crate::specs::Calls::ualloc_row, crate::specs::Calls::qbuf_row, crate::specs::Calls::streamon_row, crate::specs::Calls::streamoff_row, crate::specs::Calls::dqbuf_row, crate::specs::Calls::mmap_row, crate::specs::Calls::munmap_row, crate::specs::Calls::read_row, crate::specs::Calls::hash_row, crate::specs::Calls::write_row, crate::specs::Calls::fill_row, crate::specs::Calls::subscribe_row, crate::specs::Calls::unsubscribe_row, crate::specs::Calls::dqevent_row))]
pub(crate) fn may_lack_memory(call: &Call) -> bool
    ensures { (s : LocalState) (line addr : ℕ) →
        result ≡ (row_of s line addr call.now).may_lack_memory }
{
    match call {
        Call::OpenHandle { .. } | Call::UAlloc { .. } | Call::Mmap { .. } => true,
        Call::ReqBufs { t: _, m: _, n } => *n > 0,
        _ => false,
    }
}
