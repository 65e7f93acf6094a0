//! Writing bytes.
ghost use Rattle.std.specs.Prelude.{◌≡◌, ◌≢◌};
ghost use Rattle.ide_script.specs.Outside.{written};
ghost use Rattle.ide_script.specs.Writing.{WriteEnds};

use crate::Status;
use ide_io::{Sink, write_all};

/// Writes some bytes.
pub(crate) fn write_bytes<K: Sink>(bytes: &[u8], out: &mut K) -> Status
    ensures ends { WriteEnds (written K.Sink out.old out.new) bytes.now result }
    ensures told { result ≢ Status.OutOfMemory }
    ensures quiet { result ≢ Status.SinkFault → K.faults out.new ≡ K.faults out.old }
{
    match write_all(out, bytes) {
        Ok(()) => Status::Done,
        Err(_) => Status::SinkFault,
    }
}
