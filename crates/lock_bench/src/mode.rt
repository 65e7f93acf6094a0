//! What a run does in each turn, and on which lock.

/// What each turn does.
#[derive(Clone, Copy)]
pub enum Turn {
    /// One thread reads.
    Read,
    /// Two threads that read at once.
    ReadTwo,
    /// Four of them.
    ReadFour,
    /// One thread writes.
    Write,
    /// One thread that writes beside three that read.
    WriteBeside,
}

/// All of them, in the order in which a run without words takes them.
pub const ALL: [Turn; 5] = [
    Turn::Read,
    Turn::ReadTwo,
    Turn::ReadFour,
    Turn::Write,
    Turn::WriteBeside,
];

/// What one of the four threads does.
#[derive(Clone, Copy)]
pub enum Job {
    /// Nothing.
    Rests,
    /// Reads once a turn.
    Reads,
    /// Writes once a turn, and then tells the others to end.
    Writes,
    /// Reads until it is told to end. These reads aren't counted.
    ReadsOn,
}

impl Turn {
    /// What each thread does.
    pub fn jobs(self) -> [Job; 4] {
        match self {
            Turn::Read => [Job::Reads, Job::Rests, Job::Rests, Job::Rests],
            Turn::ReadTwo => [Job::Reads, Job::Reads, Job::Rests, Job::Rests],
            Turn::ReadFour => [Job::Reads; 4],
            Turn::Write => [Job::Writes, Job::Rests, Job::Rests, Job::Rests],
            Turn::WriteBeside => [Job::Writes, Job::ReadsOn, Job::ReadsOn, Job::ReadsOn],
        }
    }

    /// Its word on the command line, on this lock or on a plain one.
    pub fn name(self, plain: bool) -> &'static str {
        match (self, plain) {
            (Turn::Read, false) => "read",
            (Turn::ReadTwo, false) => "read-two",
            (Turn::ReadFour, false) => "read-four",
            (Turn::Write, false) => "write",
            (Turn::WriteBeside, false) => "write-beside",
            (Turn::Read, true) => "plain-read",
            (Turn::ReadTwo, true) => "plain-read-two",
            (Turn::ReadFour, true) => "plain-read-four",
            (Turn::Write, true) => "plain-write",
            (Turn::WriteBeside, true) => "plain-write-beside",
        }
    }
}
