//! What decides whether a file is unready.
ghost use Rattle.std.specs.Prelude.{◌≡◌};

/// A live file, as far as its index data go.
#[derive(Clone, Copy, Debug, PartialEq, Eq, Drop)]
pub struct Mark {
    /// Its id.
    pub file: u32,
    /// Whether its path passes the filter of the indexes, so that the file has a kind; it need not be a Java file.
    pub java: bool,
    /// Whether it has an open document.
    pub docs_open: bool,
    /// Its stamp.
    pub present: u64,
    /// The stamp at which it was indexed last.
    pub indexed: Option<u64>,
}

impl Mark {
    ghost use Rattle.dumb_mode.specs.Unready.{is_unready_mark};

    /// Whether the file is to be indexed before a search may answer.
    pub fn is_unready(&self) -> bool
        ensures { result ≡ is_unready_mark self.now }
    {
        self.java && !self.docs_open && self.indexed != Some(self.present)
    }
}
