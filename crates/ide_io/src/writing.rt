//! Writing all of some bytes to a sink.

ghost use Rattle.std.specs.Prelude.{◌≡◌, ◌≤◌, OnOk, OnErr};
ghost use Rattle.std.specs.Io.KnownBytes.{append_known};
ghost use Rattle.ide_io.specs.Fault.{HasFault};
ghost use Rattle.ide_io.specs.Known.{TakesPrefix};

use crate::failed::Failed;
use crate::sink::Sink;

/// Writes all the bytes, or those before the first fault.
///
/// Costs one write for each piece that the sink takes.
pub fn write_all<K: Sink>(sink: &mut K, bytes: &[u8]) -> Result<(), Failed>
    ensures ok { OnOk result (K.taken sink.new ≡ append_known (K.taken sink.old) bytes.now) }
    // The bytes before the fault.
    ensures front { OnErr result (TakesPrefix (K.taken sink.old) (K.taken sink.new) bytes.now) }
    ensures never_falls { K.faults sink.old ≤ K.faults sink.new }
    ensures no_fault { OnOk result (K.faults sink.new ≡ K.faults sink.old) }
    ensures fault { OnErr result (HasFault (K.faults sink.old) (K.faults sink.new)) }
{
    let mut sent = 0;
    'writes: while sent < bytes.len() {
        sent += sink.write(&bytes[sent..])?;
    }
    Ok(())
}
