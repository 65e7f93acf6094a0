//! The records of a run: what each command was answered.
ghost use Rattle.std.specs.Prelude.{◌≡◌, [], ◌∷◌, ◌++◌, OnOk, OnErr, length};

use ide_text::Name;
use index_workers::{Sighted, Worked};
use std::alloc::{AllocError, Global};
use std::marker::Model;
use write_history::{History, Refusal};

/// What a command was answered. `at` is the length of the history's prefix at which it holds.
#[derive(Drop)]
pub enum Answer {
    /// The change or group is the entry at this position.
    Accepted {
        at: u64,
    },
    /// The first reason; of a group also the place of the change that it refuses, from 1.
    Refused {
        at: u64,
        place: Option<u32>,
        why: Refusal,
    },
    /// The bytes of a load aren't UTF-8 from this one on.
    NotText {
        at: usize,
    },
    /// The bytes of a load have this many characters, line breaks repaired.
    TooLong {
        count: usize,
    },
    /// No file is unready.
    Smart {
        at: u64,
    },
    /// The unready file with the lowest id has this path.
    NotReady {
        at: u64,
        path: Name,
    },
    /// What a question found.
    Found {
        at: u64,
        found: query_engine::Finding,
    },
    /// A soft question was given up: each of its attempts found that a write waits.
    Cancelled {
        sighted: Sighted,
    },
}

/// The answer to the command on a line of the script.
#[derive(Drop)]
pub struct Record {
    /// The seat of its section.
    pub seat: u32,
    /// From 1.
    pub line: u32,
    /// What the command is answered.
    pub answer: Answer,
}

/// Records in order of the script's lines.
#[derive(Drop)]
pub struct Records {
    records: Vec<Record>,
}

impl Model for Records {
    ghost use Rattle.std.specs.Prelude.{List};
    ghost use Rattle.transcripts.specs.declared.record.Record.{Record};

    ghost Value = { List Record };

    ghost view = { λ r. r.records.items };
}

impl Records {
    /// No record.
    pub fn new(alloc: Global) -> Records
        ensures { result ≡ [] }
    {
        Records {
            records: Vec::new(alloc),
        }
    }

    /// Makes room for so many records more, or for none where there is no memory.
    pub fn reserve(&mut self, more: usize) -> Result<(), AllocError>
        ensures { self.new ≡ self.old }
    {
        self.records.reserve(more)
    }

    /// Adds a record, or changes nothing where there is no memory.
    pub fn push(&mut self, record: Record) -> Result<(), AllocError>
        ensures ok { OnOk result (self.new ≡ self.old ++ «record» ∷ []) }
        ensures err { OnErr result (self.new ≡ self.old) }
    {
        self.records.push(record)?;
        Ok(())
    }

    /// Adds all records of another list, or changes nothing where there is no memory.
    pub fn append(&mut self, mut other: Records) -> Result<(), AllocError>
        ensures ok { OnOk result (self.new ≡ self.old ++ other) }
        ensures err { OnErr result (self.new ≡ self.old) }
    {
        self.records.append(&mut other.records)
    }

    /// The records.
    pub fn as_slice(&self) -> &[Record]
        ensures { result.now ≡ self.now }
    {
        &self.records
    }
}

/// What a script leaves: the one history, the answers to the commands before the last section, those to its own, and what
/// each worker did, in order of their seats.
#[derive(Drop)]
pub struct Played {
    /// The accepted entries.
    pub history: History,
    /// The answers before the last section.
    pub records: Records,
    /// The answers of the last section.
    pub last: Records,
    /// What each worker did.
    pub workers: Vec<Worked>,
}
