//! How the frames of sessions are mapped in the region.
ghost use Rattle.std.specs.Prelude.{◌≡◌, ◌<◌, [], Some, None, Ok, Err, slice_index_or};
ghost use Rattle.vm_region.specs.Region.{map_count, range_at};
ghost use Rattle.vm_device.specs.Device.{session_of};
ghost use Rattle.vm_device.specs.Mappings.{frame_in};
ghost use Rattle.vm_device.specs.Perform.{MapsFound, UnmapsAt, EachMadeFew};

use crate::Device;
use crate::sessions::Sessions;
use v4l_const::Errno;
use vm_num::pages_of;
use vm_wire::Response;

/// The tag and the length of the frame that is mapped from an offset in a session, if it is live.
fn find_frame(sessions: &Sessions, session: u32, offset: u32) -> Result<(u64, u32), Errno>
    ensures { result ≡ frame_in (slice_index_or sessions.now session None) offset }
{
    match sessions.get(session) {
        Some(session) => session.frame_of(offset),
        None => Err(Errno::Ebadf),
    }
}

impl Device {
    /// Maps the frame that a session has at an offset, and tells its range's address and its
    /// length. EBADF comes where the session isn't live, then EINVAL where no frame is mapped from
    /// there, and ENOMEM where memory is wanting.
    pub(crate) fn map(&mut self, session: u32, offset: u32) -> Response
        requires few { map_count self.old.region.journal < 16384 }
        requires frames { EachMadeFew self.old }
        ensures { MapsFound self.old [] (frame_in (session_of self.old session) offset)
            (record { response = result; held = []; device = self.new }) }
    {
        let (tag, length) = match find_frame(&self.sessions, session, offset) {
            Ok(frame) => frame,
            Err(errno) => return Response::Refused(errno.number()),
        };
        match self.region.map(tag, pages_of(length)) {
            Ok(addr) => Response::Mapped {
                addr,
                length: u64::from(length),
            },
            Err(_) => Response::Refused(Errno::Enomem.number()),
        }
    }

    /// Gives a mapping of the range that starts at an address back. EINVAL comes exactly where no
    /// live range does. No session is asked: a frame stays mapped after its session is closed.
    pub(crate) fn unmap(&mut self, addr: u64) -> Response
        ensures { UnmapsAt self.old [] addr (range_at addr self.old.region.ranges)
            (record { response = result; held = []; device = self.new }) }
    {
        match self.region.unmap(addr) {
            Ok(()) => Response::Unmapped,
            Err(errno) => Response::Refused(errno.number()),
        }
    }
}
