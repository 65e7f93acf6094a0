//! How the letters of a name lie in memory.
ghost use Rattle.std.specs.Prelude.{◌≡◌, IfOk};
ghost use Rattle.std.specs.String.{string_bytes};
ghost use Rattle.ide_text.specs.Spelling.{bytes_of};

use crate::inline::Inline;
use std::alloc::{AllocError, Global};
use std::sync::Arc;

/// Some UTF-8 that is never changed.
#[derive(Drop)]
pub(crate) enum Spelling {
    /// Most names are as short as this.
    InPlace(Inline),
    /// With several owners.
    Shared(Arc<String>),
}

impl Spelling {
    /// The spelling of a text.
    pub(crate) fn of(alloc: Global, text: &str) -> Result<Spelling, AllocError>
        ensures { IfOk result (λ made. bytes_of made ≡ text.now) }
    {
        match Inline::of(text) {
            Some(inline) => Ok(Spelling::InPlace(inline)),
            None => Spelling::shared(alloc, String::from_str(alloc, text)?),
        }
    }

    /// The same of a string, whose memory it takes over where it isn't short.
    pub(crate) fn of_string(alloc: Global, text: String) -> Result<Spelling, AllocError>
        ensures { IfOk result (λ made. bytes_of made ≡ string_bytes text) }
    {
        match Inline::of(&text) {
            Some(inline) => Ok(Spelling::InPlace(inline)),
            None => Spelling::shared(alloc, text),
        }
    }

    /// A string with its first owner.
    fn shared(alloc: Global, text: String) -> Result<Spelling, AllocError>
        ensures { IfOk result (λ made. bytes_of made ≡ string_bytes text) }
    {
        Ok(Spelling::Shared(Arc::new(alloc, text)?))
    }

    /// The same spelling once more. Constant time.
    pub(crate) fn share(&self) -> Result<Spelling, AllocError>
        ensures { IfOk result (λ again. bytes_of again ≡ bytes_of self.now) }
    {
        Ok(match self {
            Spelling::InPlace(inline) => Spelling::InPlace(inline.copy()),
            Spelling::Shared(text) => Spelling::Shared(text.clone()?),
        })
    }

    /// The text.
    pub(crate) fn as_str(&self) -> &str
        ensures { result.now ≡ bytes_of self.now }
    {
        match self {
            Spelling::InPlace(inline) => inline.as_str(),
            Spelling::Shared(text) => text.as_str(),
        }
    }
}
