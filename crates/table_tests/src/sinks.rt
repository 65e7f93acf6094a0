//! Sinks to which ten digits are written. `fails N` writes them in pieces of 4 bytes with that call failing, `room N` with room for so
//! many, `writer` by a writer of std. It is told whether all was written, and what was.
use crate::marks::{number_of, word_of};
use ide_io::{BytesSink, Failed, Failing, FaultPlan, WriterSink, write_all};
use std::alloc::{AllocError, Global};

const DIGITS: &str = "0123456789";

/// Tells what is written.
pub fn tell(alloc: Global, line: &str, out: &mut String) -> Result<(), AllocError> {
    match word_of(line) {
        ("fails", call) => tell_fault(alloc, u64::from(number_of(call)), out),
        ("room", room) => tell_room(alloc, number_of(room) as usize, out),
        _ => tell_writer(alloc, out),
    }
}

/// Writes with one call that fails.
fn tell_fault(alloc: Global, call: u64, out: &mut String) -> Result<(), AllocError> {
    let mut sink = Failing {
        inner: BytesSink::with_room(alloc, 10)?.in_pieces(4),
        plan: FaultPlan::new(vec![in alloc; call]?),
    };
    let outcome = write_all(&mut sink, DIGITS.as_bytes());
    write!(out, " faults {},", sink.plan.faults())?;
    push_outcome(out, outcome, sink.inner.bytes())
}

/// Writes with room for so many bytes.
fn tell_room(alloc: Global, room: usize, out: &mut String) -> Result<(), AllocError> {
    let mut sink = BytesSink::with_room(alloc, room)?;
    let outcome = write_all(&mut sink, DIGITS.as_bytes());
    write!(out, " faults {},", sink.faults())?;
    push_outcome(out, outcome, sink.bytes())
}

/// Writes by a writer of std.
fn tell_writer(alloc: Global, out: &mut String) -> Result<(), AllocError> {
    let mut sink = WriterSink::telling(Vec::new(alloc));
    let outcome = write_all(&mut sink, DIGITS.as_bytes());
    push_outcome(out, outcome, &sink.writer)
}

/// Adds whether all was written, and what was.
fn push_outcome(
    out: &mut String,
    outcome: Result<(), Failed>,
    written: &[u8],
) -> Result<(), AllocError> {
    out.push_str(if outcome.is_ok() {
        " all, "
    } else {
        " failed, "
    })?;
    out.push_str(str::from_utf8(written).unwrap_or("no text"))
}
