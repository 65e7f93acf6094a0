//! A reader of std as a source.

ghost use Rattle.std.specs.Prelude.{◌≡◌, ◌≤◌, true, false, IsSome, OnOk, OnErr};
ghost use Rattle.std.specs.Io.{ReadsAtMost};
ghost use Rattle.std.specs.Io.KnownBytes.{ReadConsumes};
ghost use Rattle.ide_io.specs.Fault.{HasFault};
ghost use Rattle.ide_io.specs.Known.{ReadTakes, ReadTells, told};

use crate::end_count::EndCount;
use crate::failed::Failed;
use crate::fault_count::FaultCount;
use crate::source::Source;
use std::io::{ErrorKind, Input, Read};

// How many reads in a row a signal may interrupt.
const TRIES: usize = 64;

/// A source that reads from a reader. It tells contracts of its bytes what the reader tells, where it
/// was made so, or else nothing. An error of the reader is a fault.
#[derive(Drop)]
pub struct ReaderSource<R: Read> {
    /// What is read from.
    pub reader: R,
    /// Whether it tells what the reader tells. Only contracts look at it.
    pub tells: bool,
    /// How many faults it has met.
    pub faults: FaultCount,
    /// How often it has told the end.
    pub ends: EndCount,
    ghost known: { tells ≡ true → IsSome (R.remaining reader) },
}

/// Standard input: `StdinSource::<R>::new(rt.reader())`.
pub type StdinSource<R> = ReaderSource<<R as Input>::Reader>;

impl<R: Read> ReaderSource<R> {
    /// The source of a reader, which tells nothing of its bytes, has met no fault and told no end.
    pub fn new(reader: R) -> ReaderSource<R>
        ensures reader { result.reader ≡ reader }
        ensures silent { result.tells ≡ false }
        ensures faults { result.faults ≡ 0 }
        ensures ends { result.ends ≡ 0 }
    {
        ReaderSource {
            reader,
            tells: false,
            faults: FaultCount::new(),
            ends: EndCount::new(),
        }
    }

    /// The source of a reader that tells its bytes, as a slice does: it tells them too.
    pub fn telling(reader: R) -> ReaderSource<R>
        requires { IsSome (R.remaining reader) }
        ensures reader { result.reader ≡ reader }
        ensures tells { result.tells ≡ true }
        ensures faults { result.faults ≡ 0 }
        ensures ends { result.ends ≡ 0 }
    {
        ReaderSource {
            reader,
            tells: true,
            faults: FaultCount::new(),
            ends: EndCount::new(),
        }
    }
}

impl<R: Read> Source for ReaderSource<R> {
    ghost left = { λ source. told source.tells (R.remaining source.reader) };

    ghost faults = { λ source. source.faults };

    ghost ends = { λ source. source.ends };

    fn read(&mut self, into: &mut [u8]) -> Result<usize, Failed>
        // What the reader gives, where it tells that, also where the source tells nothing.
        ensures given { ReadConsumes (R.remaining self.old.reader)
            (R.remaining self.new.reader) result into.new }

        ensures count { ReadsAtMost result into.new }
        ensures bytes { ReadTakes (told self.old.tells (R.remaining self.old.reader))
            (told self.new.tells (R.remaining self.new.reader)) result into.new }
        ensures told { ReadTells self.old.ends self.new.ends result into.new }
        ensures never_falls { self.old.faults ≤ self.new.faults }
        ensures no_fault { OnOk result (self.new.faults ≡ self.old.faults) }
        ensures fault { OnErr result (HasFault self.old.faults self.new.faults) }
    {
        'tries: for _ in 0..TRIES {
            match self.reader.read(into) {
                Ok(count) => {
                    self.ends.count_read(count, into.len());
                    return Ok(count);
                }
                Err(error) if error.kind() == ErrorKind::Interrupted => {}
                Err(_) => break,
            }
        }
        Err(self.faults.raise())
    }
}
