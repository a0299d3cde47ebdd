ghost use Rattle.std.specs.Prelude.{◌≡◌, ◌≤◌, ◌++◌, length, take, drop};

use vm_mem::Store;

/// How many bytes are copied at once.
const PART: u32 = 4096;

/// Sets the first `count` bytes of `dst` to those of `src`, and no others.
pub fn copy_front<S: Store, D: Store>(src: &S, dst: &mut D, count: u32)
    requires whole { count ≤ length (S.bytes_of src.now) }
    requires room { count ≤ length (D.bytes_of dst.old) }
    ensures bytes { D.bytes_of dst.new ≡ take count (S.bytes_of src.now) ++
        drop count (D.bytes_of dst.old) }
    ensures size { length (D.bytes_of dst.new) ≡ length (D.bytes_of dst.old) }
    ensures rest { D.rest_of dst.new ≡ D.rest_of dst.old }
{
    let mut part = [0; 4096];
    let mut at = 0;
    'parts: while at < count {
        let len = (count - at).min(PART);
        let piece = &mut part[..len as usize];
        src.copy_out(at, piece);
        dst.copy_in(at, piece);
        at += len;
    }
}
