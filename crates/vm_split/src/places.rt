ghost use Rattle.std.specs.Prelude.{◌≡◌, ◌≤◌, ◌+◌, ◌*◌};
ghost use Rattle.vm_split.specs.Ring.{available_at, used_at};

use vm_num::align_up;

/// The bytes of a descriptor.
const DESC_SIZE: u32 = 16;

/// The place of the available ring.
pub fn available_at(size: u16) -> u32
    ensures { result ≡ available_at size }
{
    DESC_SIZE * u32::from(size)
}

/// The place of the used ring: the next multiple of 4 behind the available ring, which has an entry
/// of 2 bytes for each descriptor, and its flags, its index and the number of the last event.
pub fn used_at(size: u16) -> u32
    requires { size ≤ 64 }
    ensures value { result ≡ used_at size }
    ensures behind { 18 * size + 6 ≤ result }
    ensures near { result ≤ 18 * size + 9 }
{
    let end = available_at(size) + 6 + 2 * u32::from(size);
    align_up(u64::from(end), 4) as u32
}
