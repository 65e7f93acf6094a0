//! A question about a workspace.
ghost use Rattle.std.specs.Prelude.{◌≡◌, IfOk};

use ide_text::Name;
use std::alloc::AllocError;

/// A question about a workspace.
#[derive(Drop)]
pub enum Query {
    /// Which types have the name.
    Class { name: Name },
    /// Which types name it behind `extends` or `implements`.
    Supers { name: Name },
    /// Which methods have the name.
    Method { name: Name },
    /// Which files have the word, and where in them.
    Word { name: Name },
    /// Where the name stands as an identifier in code.
    Usages { name: Name },
    /// Which types come from a type with the name, through any number of types between.
    Inheritors { name: Name },
    /// Where property files have the key.
    Key { key: Name },
    /// What the file at the path declares.
    Outline { path: Name },
    /// How many files, open documents and unready files there are.
    Status,
}

impl Query {
    /// The same question once more.
    pub fn copy(&self) -> Result<Query, AllocError>
        ensures { IfOk result (λ copy. copy ≡ self.now) }
    {
        Ok(match self {
            Query::Class { name } => Query::Class { name: name.copy()? },
            Query::Supers { name } => Query::Supers { name: name.copy()? },
            Query::Method { name } => Query::Method { name: name.copy()? },
            Query::Word { name } => Query::Word { name: name.copy()? },
            Query::Usages { name } => Query::Usages { name: name.copy()? },
            Query::Inheritors { name } => Query::Inheritors { name: name.copy()? },
            Query::Key { key } => Query::Key { key: key.copy()? },
            Query::Outline { path } => Query::Outline { path: path.copy()? },
            Query::Status => Query::Status,
        })
    }
}
