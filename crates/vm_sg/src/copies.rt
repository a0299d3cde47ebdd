ghost use Rattle.std.specs.Prelude.{◌≡◌, ◌+◌, ◌≤◌, length, take, drop, map};
ghost use Rattle.vm_sg.specs.Copies.{named_bytes, overwritten};

use vm_frame::User;
use vm_mem::Store;

/// Fills `out` with the bytes from `at` on of those that the entries name, run by run.
///
/// Source: own.
pub fn gather_into(user: &User, at: u32, out: &mut [u8])
    requires { at + length out.old ≤ length (named_bytes user.now) }
    ensures { out.new ≡ take (length out.old) (drop at (named_bytes user.now)) }
{
    user.copy_out(at, out);
}

/// Sets the bytes from `at` on of those that the entries name to `bytes`, and no others, run by
/// run. Entries and pages stay those that they were.
///
/// Source: own.
pub fn scatter_from(user: &mut User, at: u32, bytes: &[u8])
    requires { at + length bytes.now ≤ length (named_bytes user.old) }
    ensures bytes { named_bytes user.new ≡ overwritten at bytes.now (named_bytes user.old) }
    ensures entries { user.new.entries ≡ user.old.entries }
    ensures pages { map (λ p. p.number) user.new.pages ≡ map (λ p. p.number) user.old.pages }
{
    user.copy_in(at, bytes);
}
