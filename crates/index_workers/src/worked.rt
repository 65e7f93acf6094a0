//! What a worker did.

/// Why a worker ended.
#[derive(Clone, Copy, Debug, PartialEq, Eq)]
pub enum End {
    /// No file was unready after the first `at` entries, and the gate told it to end.
    Idle { at: u64 },
    /// The history is full, with this many entries.
    Refused { at: u64 },
    /// It has made all its steps.
    Turns,
}

/// What a worker did. Only a worker makes one.
#[derive(Clone, Copy, Debug, PartialEq, Eq)]
pub struct Worked {
    pub(crate) seat: u32,
    pub(crate) turns: u32,
    pub(crate) taken: u32,
    pub(crate) end: End,
}

impl Worked {
    ghost use Rattle.std.specs.Prelude.{◌≡◌};

    /// The number of its pass.
    pub fn seat(&self) -> u32
        ensures { result ≡ self.now.seat }
    {
        self.seat
    }

    /// How many steps it made.
    pub fn turns(&self) -> u32
        ensures { result ≡ self.now.turns }
    {
        self.turns
    }

    /// How many entries it made.
    pub fn taken(&self) -> u32
        ensures { result ≡ self.now.taken }
    {
        self.taken
    }

    /// Why it ended.
    pub fn end(&self) -> End
        ensures { result ≡ self.now.end }
    {
        self.end
    }
}
