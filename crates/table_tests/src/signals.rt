//! A reader and a writer of std that signals interrupt, or that fail: each line says how many of the first calls a signal interrupts,
//! and how many behind them fail by another error. Up to 63 signals in a row are passed over, any other error is a fault at once.
use crate::marks::{number_of, word_of};
use ide_io::{ReadAllError, ReaderSource, WriterSink, read_all, write_all};
use std::alloc::{AllocError, Global};
use std::io;
use std::io::{ErrorKind, Read, Write};

const TEXT: &str = "text";

/// Tells how often each was called, its faults, and whether all was read or written.
pub fn tell(alloc: Global, line: &str, out: &mut String) -> Result<(), AllocError> {
    let (signals, errors) = word_of(line);
    let (signals, errors) = (number_of(signals), number_of(errors));
    tell_reader(alloc, signals, errors, out)?;
    tell_writer(alloc, signals, errors, out)
}

/// A stream with trouble in its first calls, which counts its calls.
#[derive(Drop)]
struct Halting<T> {
    inner: T,
    signals: u32,
    errors: u32,
    calls: u32,
}

impl<T> Halting<T> {
    /// Counts a call, which fails where there is trouble left.
    fn turn(&mut self) -> io::Result<()> {
        self.calls = self.calls.saturating_add(1);
        if self.signals > 0 {
            self.signals -= 1;
            return Err(io::Error::from(ErrorKind::Interrupted));
        }
        if self.errors > 0 {
            self.errors -= 1;
            return Err(io::Error::from(ErrorKind::TimedOut));
        }
        Ok(())
    }
}

impl<T: Read> Read for Halting<T> {
    fn read(&mut self, buf: &mut [u8]) -> io::Result<usize> {
        self.turn()?;
        self.inner.read(buf)
    }
}

impl<T: Write> Write for Halting<T> {
    fn write(&mut self, buf: &[u8]) -> io::Result<usize> {
        self.turn()?;
        self.inner.write(buf)
    }

    fn flush(&mut self) -> io::Result<()> {
        Ok(())
    }
}

/// Reads with so much trouble.
fn tell_reader(
    alloc: Global,
    signals: u32,
    errors: u32,
    out: &mut String,
) -> Result<(), AllocError> {
    let mut source = ReaderSource::new(Halting {
        inner: TEXT.as_bytes(),
        signals,
        errors,
        calls: 0,
    });
    let is_read = is_text(&read_all(alloc, &mut source, 10));
    let (calls, faults) = (source.reader.calls, source.faults.get());
    let ends = source.ends.get();
    write!(
        out,
        " reader: calls {calls}, faults {faults}, ends {ends}, read {is_read};"
    )
}

/// Whether the text was read.
fn is_text(outcome: &Result<Vec<u8>, ReadAllError>) -> bool {
    match outcome {
        Ok(bytes) => bytes.as_slice() == TEXT.as_bytes(),
        Err(_) => false,
    }
}

/// Writes with so much trouble.
fn tell_writer(
    alloc: Global,
    signals: u32,
    errors: u32,
    out: &mut String,
) -> Result<(), AllocError> {
    let mut sink = WriterSink::new(Halting {
        inner: Vec::new(alloc),
        signals,
        errors,
        calls: 0,
    });
    let is_all = write_all(&mut sink, TEXT.as_bytes()).is_ok();
    let is_written = is_all && sink.writer.inner.as_slice() == TEXT.as_bytes();
    let (calls, faults) = (sink.writer.calls, sink.faults.get());
    write!(
        out,
        " writer: calls {calls}, faults {faults}, written {is_written}"
    )
}
