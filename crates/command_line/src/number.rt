//! Numbers as words spell them.
ghost use Rattle.std.specs.Prelude.{◌≡◌};
ghost use Rattle.command_line.specs.Number.{number_of, number_between};

use itoa::Buffer;

/// The number whose decimal digits a text is: no sign and no zero stands before them.
fn number_of(text: &str) -> Option<u32>
    ensures { result ≡ number_of text.now }
{
    let number = text.parse::<u32>().ok()?;
    let mut buffer = Buffer::new();
    if buffer.format(number) == text {
        Some(number)
    } else {
        None
    }
}

/// The number that a text spells, where it lies within these bounds.
pub fn number_between(least: u32, most: u32, text: &str) -> Option<u32>
    ensures { result ≡ number_between least most text.now }
{
    let number = number_of(text)?;
    if least <= number && number <= most {
        Some(number)
    } else {
        None
    }
}
