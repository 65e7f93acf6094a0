//! How a run of the program ends.
ghost use Rattle.std.specs.Prelude.{◌≡◌};
ghost use Rattle.ide_script.specs.Status.{exit_code};

/// How a run of the program ends. `main` ends with its number.
#[derive(Clone, Copy, Debug, PartialEq, Eq)]
pub enum Status {
    /// The script was read to its end and the whole output written; of a transcript that was to be judged, that it is good.
    Done,
    /// The words are outside the grammar of the command line.
    Usage,
    /// The first line outside the grammar of scripts.
    BadScript { line: u32 },
    /// Standard input, or the source in its place, met a fault.
    SourceFault,
    /// A file couldn't be read.
    TreeFault,
    /// The output couldn't be written whole.
    SinkFault,
    /// Memory ran out.
    OutOfMemory,
    /// The script has more bytes than a script may have.
    ScriptTooLong,
    /// The transcript that was to be judged is none of the script.
    Rejected,
}

impl Status {
    /// The status with which the process ends.
    pub fn number(self) -> u8
        ensures { result ≡ exit_code self }
    {
        match self {
            Status::Done => 0,
            Status::Usage => 1,
            Status::BadScript { .. } => 2,
            Status::SourceFault => 3,
            Status::TreeFault => 4,
            Status::SinkFault => 5,
            Status::OutOfMemory => 6,
            Status::ScriptTooLong => 7,
            Status::Rejected => 8,
        }
    }
}
