//! A source in memory.

ghost use Rattle.std.specs.Prelude.{◌≡◌, ◌<◌, ◌≤◌, Some, Ok, OnOk, OnErr, length, min, take, drop, ◌++◌};
ghost use Rattle.std.specs.Io.{ReadsAtMost};
ghost use Rattle.ide_io.specs.Fault.{HasFault, zero_faults};
ghost use Rattle.ide_io.specs.Known.{ReadTakes, ReadTells};
ghost use Rattle.ide_io.specs.Memory.{Unread};

use crate::end_count::EndCount;
use crate::failed::Failed;
use crate::source::Source;
use std::marker::Model;

/// Bytes in memory, read from their front. No read fails.
///
/// A contract sees the bytes that are left, how many one read gives at most, and how many reads told
/// the end.
#[derive(Drop)]
pub struct BytesSource<'a> {
    rest: &'a [u8],
    most: usize,
    ends: EndCount,
}

impl<'a> Model for BytesSource<'a> {
    ghost Value = { Unread };

    ghost view = { λ source. record { left = source.rest.now; most = source.most; ends = source.ends } };

    ghost invariant = { λ source. 0 < source.most };
}

impl<'a> BytesSource<'a> {
    /// A source of these bytes. A read gives as many as it has room for.
    pub fn new(bytes: &'a [u8]) -> BytesSource<'a>
        ensures { result ≡ record { left = bytes.now; most = usize.MAX; ends = 0 } }
    {
        BytesSource {
            rest: bytes,
            most: usize::MAX,
            ends: EndCount::new(),
        }
    }

    /// The same bytes, of which one read gives at most `most`.
    pub fn in_pieces(self, most: usize) -> BytesSource<'a>
        requires { 0 < most }
        ensures { result ≡ record self.entry { most = most } }
    {
        let BytesSource {
            rest,
            most: _,
            ends,
        } = self;
        BytesSource { rest, most, ends }
    }
}

impl Source for BytesSource<'_> {
    ghost left = { λ source. Some source.left };

    ghost faults = { λ _. zero_faults };

    ghost ends = { λ source. source.ends };

    fn read(&mut self, into: &mut [u8]) -> Result<usize, Failed>
        ensures ok { result
            ≡ Ok (min (min (length self.old.left) (length into.old)) self.old.most) }
        ensures most { self.new.most ≡ self.old.most }
        ensures count { ReadsAtMost result into.new }
        ensures bytes { ReadTakes (Some self.old.left) (Some self.new.left) result into.new }
        ensures told { ReadTells self.old.ends self.new.ends result into.new }
        ensures never_falls { zero_faults ≤ zero_faults }
        ensures no_fault { OnOk result (zero_faults ≡ zero_faults) }
        ensures fault { OnErr result (HasFault zero_faults zero_faults) }
    {
        let all = self.rest;
        let count = copy_front(all, into, self.most);
        self.rest = &all[count..];
        self.ends.count_read(count, into.len());
        Ok(count)
    }
}

/// Copies as many bytes as there are, as there is room for, and at most `most`. Returns how many.
fn copy_front(from: &[u8], into: &mut [u8], most: usize) -> usize
    ensures count { result ≡ min (min (length from.now) (length into.old)) most }
    ensures copied { into.new ≡ take result from.now ++ drop result into.old }
{
    let count = from.len().min(into.len()).min(most);
    into[..count].copy_from_slice(&from[..count]);
    count
}
