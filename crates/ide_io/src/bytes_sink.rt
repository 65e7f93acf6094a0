//! A sink in memory.

ghost use Rattle.std.specs.Prelude.{◌≡◌, ◌↔◌, ◌<◌, ◌≤◌, ◌+◌, [], Some, IsErr, IfOk, OnOk, OnErr, length, min, vec_len, vec_capacity};
ghost use Rattle.std.specs.Io.{WritesAtMost};
ghost use Rattle.ide_io.specs.Fault.{HasFault, next_count};
ghost use Rattle.ide_io.specs.Known.{WriteTakes};
ghost use Rattle.ide_io.specs.Memory.{Filled};

use crate::failed::Failed;
use crate::fault_count::FaultCount;
use crate::sink::Sink;
use std::alloc::{AllocError, Global};
use std::marker::Model;

/// Bytes in memory, each write put last. A write fails only where no room is left.
///
/// A write has no answer for running out of memory, so the room is taken when the sink is made.
#[derive(Drop)]
pub struct BytesSink {
    taken: Vec<u8>,
    room: usize,
    most: usize,
    faults: FaultCount,
}

impl Model for BytesSink {
    ghost Value = { Filled };

    ghost view = { λ sink. record { taken = sink.taken.items; room = sink.room; most = sink.most; faults = sink.faults } };

    ghost invariant = { λ sink. (0 < sink.most) × (vec_len sink.taken + sink.room ≤ vec_capacity sink.taken) };
}

impl BytesSink {
    /// An empty sink that takes `room` bytes and no more. A write takes as many as it is given.
    pub fn with_room(alloc: Global, room: usize) -> Result<BytesSink, AllocError>
        ensures { IfOk result
            (λ sink. sink ≡ record { taken = []; room = room; most = usize.MAX; faults = 0 }) }
    {
        Ok(BytesSink {
            taken: Vec::with_capacity(alloc, room)?,
            room,
            most: usize::MAX,
            faults: FaultCount::new(),
        })
    }

    /// The same sink, of which one write takes at most `most` bytes.
    pub fn in_pieces(self, most: usize) -> BytesSink
        requires { 0 < most }
        ensures { result ≡ record self { most = most } }
    {
        let BytesSink {
            taken,
            room,
            most: _,
            faults,
        } = self;
        BytesSink {
            taken,
            room,
            most,
            faults,
        }
    }

    /// The bytes that were taken.
    pub fn bytes(&self) -> &[u8]
        ensures { result.now ≡ self.now.taken }
    {
        self.taken.as_slice()
    }

    /// How many writes failed.
    pub fn faults(&self) -> u64
        ensures { result ≡ self.now.faults }
    {
        self.faults.get()
    }
}

impl Sink for BytesSink {
    ghost taken = { λ sink. Some sink.taken };

    ghost faults = { λ sink. sink.faults };

    fn write(&mut self, piece: &[u8]) -> Result<usize, Failed>
        ensures ok { IfOk result
            (λ n. n ≡ min (min (length piece.now) self.old.room) self.old.most) }
        ensures most { self.new.most ≡ self.old.most }
        ensures full { IsErr result ↔ ((0 < length piece.now) × (self.old.room ≡ 0)) }
        ensures count { WritesAtMost result piece.now }
        ensures some { IfOk result (λ n. 0 < length piece.now → 0 < n) }
        ensures bytes { WriteTakes (Some self.old.taken) (Some self.new.taken) result piece.now }
        ensures room { IfOk result (λ n. self.new.room + n ≡ self.old.room) }
        ensures room_at_fault { OnErr result (self.new.room ≡ self.old.room) }
        ensures no_fault { OnOk result (self.new.faults ≡ self.old.faults) }
        ensures one_fault { OnErr result (self.new.faults ≡ next_count self.old.faults) }
        ensures never_falls { self.old.faults ≤ self.new.faults }
        ensures fault { OnErr result (HasFault self.old.faults self.new.faults) }
    {
        let count = piece.len().min(self.room).min(self.most);
        if count == 0 && !piece.is_empty() {
            return Err(self.faults.raise());
        }
        self.taken.extend_from_slice(&piece[..count]).unwrap();
        self.room -= count;
        Ok(count)
    }
}
