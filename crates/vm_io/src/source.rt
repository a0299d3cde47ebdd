ghost use Rattle.std.specs.Prelude.{◌≡◌, ◌<◌, ◌≤◌, ℕ, List, Option, length, take, IfOk, OnOk, OnErr};
ghost use Rattle.vm_io.specs.Bytes.{WasRead, NothingLeft};
ghost use Rattle.vm_io.specs.Faults.{Rose};

use crate::Failed;

/// Where bytes come from.
pub trait Source {
    /// The bytes that are left, where the source tells them; it tells always, or never.
    ghost left: { Self → Option (List ℕ) };

    /// How many calls failed, as far as 64 bits go.
    ghost faults: { Self → ℕ };

    /// Gives up to `buf.len()` of the bytes that are left, in order, at the buffer's front; what
    /// stands behind them in the buffer is not said. An answer of 0 to a buffer that isn't empty is
    /// the end of input. After `Failed` the source may be read again. A call that goes well leaves
    /// the count of faults.
    fn read(&mut self, buf: &mut [u8]) -> Result<usize, Failed>
        ensures bound { IfOk result (λ n. n ≤ length buf.new) }
        ensures read { IfOk result (λ n. WasRead (left self.old) (left self.new) (take n buf.new)) }
        ensures end { IfOk result (λ n. n ≡ 0 → 0 < length buf.new → NothingLeft (left self.new)) }
        ensures failed { OnErr result (left self.new ≡ left self.old) }
        ensures well { OnOk result (faults self.new ≡ faults self.old) }
        ensures fault { OnErr result (Rose (faults self.old) (faults self.new)) }
        ensures count { faults self.old ≤ faults self.new };
}
