//! Sources over ten digits. `limit N` reads them in pieces of 4 bytes with that limit, `fails N` with that call failing, and then what
//! is left; `reader` reads them by a reader of std. It is told what was read, or the fault.
use crate::marks::{number_of, word_of};
use ide_io::{BytesSource, Failing, FaultPlan, ReadAllError, ReaderSource, read_all};
use std::alloc::{AllocError, Global};

const DIGITS: &str = "0123456789";

/// Tells what is read.
pub fn tell(alloc: Global, line: &str, out: &mut String) -> Result<(), AllocError> {
    match word_of(line) {
        ("limit", limit) => tell_limit(alloc, number_of(limit) as usize, out),
        ("fails", call) => tell_fault(alloc, u64::from(number_of(call)), out),
        _ => {
            let mut reader = ReaderSource::telling(DIGITS.as_bytes());
            push_outcome(out, &read_all(alloc, &mut reader, 10))
        }
    }
}

/// Reads with a limit.
fn tell_limit(alloc: Global, limit: usize, out: &mut String) -> Result<(), AllocError> {
    let mut source = BytesSource::new(DIGITS.as_bytes()).in_pieces(4);
    push_outcome(out, &read_all(alloc, &mut source, limit))
}

/// Reads with one call that fails, and then what is left.
fn tell_fault(alloc: Global, call: u64, out: &mut String) -> Result<(), AllocError> {
    let mut source = Failing {
        inner: BytesSource::new(DIGITS.as_bytes()).in_pieces(4),
        plan: FaultPlan::new(vec![in alloc; call]?),
    };
    push_outcome(out, &read_all(alloc, &mut source, 10))?;
    write!(out, ", faults {},", source.plan.faults())?;
    push_outcome(out, &read_all(alloc, &mut source.inner, 10))
}

/// Adds what was read, or the fault.
fn push_outcome(
    out: &mut String,
    outcome: &Result<Vec<u8>, ReadAllError>,
) -> Result<(), AllocError> {
    match outcome {
        Ok(bytes) => {
            out.push_str(" read ")?;
            out.push_str(str::from_utf8(bytes).unwrap_or("no text"))
        }
        Err(error) => write!(out, " {error:?}"),
    }
}
