//! A writer of std as a sink.

ghost use Rattle.std.specs.Prelude.{◌≡◌, ◌<◌, ◌≤◌, true, false, length, IsSome, IfOk, OnOk, OnErr};
ghost use Rattle.std.specs.Io.{WritesAtMost};
ghost use Rattle.std.specs.Io.KnownBytes.{WriteAppends};
ghost use Rattle.ide_io.specs.Fault.{HasFault};
ghost use Rattle.ide_io.specs.Known.{WriteTakes, told};

use crate::failed::Failed;
use crate::fault_count::FaultCount;
use crate::sink::Sink;
use std::io::{ErrorKind, Printer, Stderr, Write};

// How many writes in a row a signal may interrupt.
const TRIES: usize = 64;

/// A sink that writes to a writer. It tells contracts of its bytes what the writer tells, where it was
/// made so, or else nothing. An error of the writer is a fault, and so is a write that takes nothing.
/// The writer is never flushed.
#[derive(Drop)]
pub struct WriterSink<W: Write> {
    /// What is written to.
    pub writer: W,
    /// Whether it tells what the writer tells. Only contracts look at it.
    pub tells: bool,
    /// How many faults it has met.
    pub faults: FaultCount,
    ghost known: { tells ≡ true → IsSome (W.contents writer) },
}

/// Standard output: `StdoutSink::new(io::writer(&rt))`.
pub type StdoutSink<'a, R> = WriterSink<Printer<'a, R>>;

/// Standard error: `StderrSink::new(io::writer(&rt.stderr()))`.
pub type StderrSink<'a> = WriterSink<Printer<'a, Stderr>>;

impl<W: Write> WriterSink<W> {
    /// The sink of a writer, which tells nothing of its bytes and has met no fault.
    pub fn new(writer: W) -> WriterSink<W>
        ensures writer { result.writer ≡ writer }
        ensures silent { result.tells ≡ false }
        ensures faults { result.faults ≡ 0 }
    {
        WriterSink {
            writer,
            tells: false,
            faults: FaultCount::new(),
        }
    }

    /// The sink of a writer that tells its bytes, as a vector does: it tells them too.
    pub fn telling(writer: W) -> WriterSink<W>
        requires { IsSome (W.contents writer) }
        ensures writer { result.writer ≡ writer }
        ensures tells { result.tells ≡ true }
        ensures faults { result.faults ≡ 0 }
    {
        WriterSink {
            writer,
            tells: true,
            faults: FaultCount::new(),
        }
    }
}

impl<W: Write> Sink for WriterSink<W> {
    ghost taken = { λ sink. told sink.tells (W.contents sink.writer) };

    ghost faults = { λ sink. sink.faults };

    fn write(&mut self, piece: &[u8]) -> Result<usize, Failed>
        // What the writer takes, where it tells that, also where the sink tells nothing.
        ensures passed { WriteAppends (W.contents self.old.writer)
            (W.contents self.new.writer) result piece.now }

        ensures count { WritesAtMost result piece.now }
        ensures some { IfOk result (λ n. 0 < length piece.now → 0 < n) }
        ensures bytes { WriteTakes (told self.old.tells (W.contents self.old.writer))
            (told self.new.tells (W.contents self.new.writer)) result piece.now }
        ensures never_falls { self.old.faults ≤ self.new.faults }
        ensures no_fault { OnOk result (self.new.faults ≡ self.old.faults) }
        ensures fault { OnErr result (HasFault self.old.faults self.new.faults) }
    {
        'tries: for _ in 0..TRIES {
            match self.writer.write(piece) {
                Ok(count) if count > 0 || piece.is_empty() => return Ok(count),
                Err(error) if error.kind() == ErrorKind::Interrupted => {}
                _ => break,
            }
        }
        Err(self.faults.raise())
    }
}
