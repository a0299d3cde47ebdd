ghost use Rattle.std.specs.Prelude.{◌≡◌, ◌<◌, ◌≤◌, ℕ, List, Option, length, take, IfOk, OnOk, OnErr};
ghost use Rattle.vm_io.specs.Bytes.{WasAppended};
ghost use Rattle.vm_io.specs.Faults.{Rose};

use crate::Failed;

/// Where bytes go to.
pub trait Sink {
    /// The bytes that it holds, where the sink tells them; it tells always, or never.
    ghost held: { Self → Option (List ℕ) };

    /// How many calls failed, as far as 64 bits go.
    ghost faults: { Self → ℕ };

    /// Takes bytes from the piece's front, and answers how many: at least one of a piece that isn't
    /// empty. After `Failed` the sink holds what it held, and may be written again. A call that
    /// goes well leaves the count of faults.
    fn write(&mut self, piece: &[u8]) -> Result<usize, Failed>
        ensures bound { IfOk result (λ n. n ≤ length piece.now) }
        ensures some { IfOk result (λ n. 0 < length piece.now → 0 < n) }
        ensures appended { IfOk result (λ n. WasAppended (held self.old) (held self.new)
            (take n piece.now)) }
        ensures failed { OnErr result (held self.new ≡ held self.old) }
        ensures well { OnOk result (faults self.new ≡ faults self.old) }
        ensures fault { OnErr result (Rose (faults self.old) (faults self.new)) }
        ensures count { faults self.old ≤ faults self.new };
}
