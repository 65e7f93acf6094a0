//! A name that has the characters of a text, as that text.
ghost use Rattle.std.specs.Prelude.{◌≡◌, IfOk};
ghost use Rattle.ide_text.specs.Text.{IsText};

use ide_text::laws::texts_are_read_back;
use ide_text::{Name, Text};
use std::alloc::{AllocError, Global};

/// The text with the characters of a name. Linear in it.
pub(crate) fn text_of_name(alloc: Global, name: &Name) -> Result<Text, AllocError>
    requires { IsText name.now }
    ensures { IfOk result (λ text. text ≡ name.now) }
{
    texts_are_read_back();
    match Text::from_utf8(alloc, name.as_str().as_bytes()) {
        Ok(text) => Ok(text),
        Err(_) => Err(AllocError),
    }
}
