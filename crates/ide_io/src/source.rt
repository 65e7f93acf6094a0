//! Where bytes come from.

ghost use Rattle.std.specs.Prelude.{◌≡◌, ℕ, ◌≤◌, List, Option, OnOk, OnErr};
ghost use Rattle.std.specs.Io.{ReadsAtMost};
ghost use Rattle.ide_io.specs.Fault.{HasFault};
ghost use Rattle.ide_io.specs.Known.{ReadTakes, ReadTells};

use crate::failed::Failed;

/// A stream of bytes that is read once, from its front.
pub trait Source {
    // The bytes that are left, where the source tells them; `None` tells nothing.
    ghost left: { Self → Option (List ℕ) };

    // How many faults the source has met. The count stands still at 2^64 - 1.
    ghost faults: { Self → ℕ };

    // How many reads told the end. The count stands still at 2^64 - 1.
    ghost ends: { Self → ℕ };

    /// Reads some bytes into the front of `into`, and says how many. 0 for a piece that isn't empty
    /// is the end.
    fn read(&mut self, into: &mut [u8]) -> Result<usize, Failed>
        ensures count { ReadsAtMost result into.new }
        ensures bytes { ReadTakes (left self.old) (left self.new) result into.new }
        ensures told { ReadTells (ends self.old) (ends self.new) result into.new }
        ensures never_falls { faults self.old ≤ faults self.new }
        ensures no_fault { OnOk result (faults self.new ≡ faults self.old) }
        ensures fault { OnErr result (HasFault (faults self.old) (faults self.new)) };
}
