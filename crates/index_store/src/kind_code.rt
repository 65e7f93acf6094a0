//! The codes of kinds in stored bytes.
ghost use Rattle.std.specs.Prelude.{◌≡◌};
ghost use Rattle.byte_fields.specs.Answers.{Gives};
ghost use Rattle.index_store.specs.Data.{code_of};
ghost use Rattle.index_store.specs.Reading.{kind_at, kind_by};

use byte_fields::{Fault, byte_of, check};
use dumb_mode::FileKind;

/// The code of a kind.
pub(crate) fn code_of(kind: FileKind) -> u8
    ensures { result ≡ code_of kind }
{
    match kind {
        FileKind::Java => 1,
        FileKind::Properties => 2,
    }
}

/// The kind whose code stands at the front of bytes.
#[tactic(auto, unfolding(crate::specs::Reading::kind_at))]
pub(crate) fn kind_of(bytes: &[u8]) -> Result<(FileKind, &[u8]), Fault>
    ensures { Gives (λ x. (x.0, x.1.now)) result (kind_at bytes.now) }
{
    let (code, rest) = byte_of(bytes)?;
    check(1 <= code && code <= 2, bytes)?;
    Ok((kind_by(code), rest))
}

/// The kind by its code; any other code is that of properties.
fn kind_by(code: u8) -> FileKind
    ensures { result ≡ kind_by code }
{
    if code == 1 {
        FileKind::Java
    } else {
        FileKind::Properties
    }
}
