//! Where bytes go.

ghost use Rattle.std.specs.Prelude.{◌≡◌, ℕ, ◌<◌, ◌≤◌, List, Option, length, IfOk, OnOk, OnErr};
ghost use Rattle.std.specs.Io.{WritesAtMost};
ghost use Rattle.ide_io.specs.Fault.{HasFault};
ghost use Rattle.ide_io.specs.Known.{WriteTakes};

use crate::failed::Failed;

/// A stream of bytes that is written once, at its end.
pub trait Sink {
    // The bytes that were taken, where the sink tells them; `None` tells nothing.
    ghost taken: { Self → Option (List ℕ) };

    // How many faults the sink has met. The count stands still at 2^64 - 1.
    ghost faults: { Self → ℕ };

    /// Takes some bytes from the front of `piece`, and says how many: at least one, where `piece`
    /// isn't empty.
    fn write(&mut self, piece: &[u8]) -> Result<usize, Failed>
        ensures count { WritesAtMost result piece.now }
        ensures some { IfOk result (λ n. 0 < length piece.now → 0 < n) }
        ensures bytes { WriteTakes (taken self.old) (taken self.new) result piece.now }
        ensures never_falls { faults self.old ≤ faults self.new }
        ensures no_fault { OnOk result (faults self.new ≡ faults self.old) }
        ensures fault { OnErr result (HasFault (faults self.old) (faults self.new)) };
}
