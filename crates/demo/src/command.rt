//! The commands that give a file its text, and their lines.
ghost use Rattle.std.specs.Prelude.{◌≡◌, ◌++◌, OnOk, decimal};
ghost use Rattle.demo.specs.Line.{letter_of, line_of, word_of};

use itoa::Buffer;
use std::alloc::AllocError;

/// What is done with a file.
#[derive(Clone, Copy)]
pub enum Verb {
    /// It is made, with that text.
    Create,
    /// It is given another text.
    Write,
}

impl Verb {
    /// The word of the command.
    fn word(self) -> &'static [u8]
        ensures { result.now ≡ word_of self }
    {
        match self {
            Verb::Create => b"create",
            Verb::Write => b"write",
        }
    }

    /// The letter before the number of the class's method.
    fn letter(self) -> &'static [u8]
        ensures { result.now ≡ letter_of self }
    {
        match self {
            Verb::Create => b"m",
            Verb::Write => b"w",
        }
    }
}

/// A file gets the text of a class that extends its parent and has one method.
#[derive(Clone, Copy)]
pub struct Command {
    /// What is done with the file.
    pub verb: Verb,
    /// The number in the names of file and class.
    pub file: u32,
    /// The number in the name of the class that is extended.
    pub parent: u32,
    /// The number in the method's name.
    pub method: u32,
}

/// Adds the line of a command.
pub fn push_line(script: &mut Vec<u8>, command: Command) -> Result<(), AllocError>
    ensures { OnOk result (script.new.items ≡ script.old.items ++ line_of command) }
{
    script.extend_from_slice(command.verb.word())?;
    push_numbered(script, b" G", command.file)?;
    push_numbered(script, b".java \"class G", command.file)?;
    push_numbered(script, b" extends G", command.parent)?;
    script.extend_from_slice(b" { void ")?;
    push_numbered(script, command.verb.letter(), command.method)?;
    script.extend_from_slice(b"() {} }\"\n")?;
    Ok(())
}

/// Adds a text and a number after it.
fn push_numbered(script: &mut Vec<u8>, before: &[u8], number: u32) -> Result<(), AllocError>
    ensures { OnOk result (script.new.items ≡ script.old.items ++ (before.now ++ decimal number)) }
{
    let mut buffer = Buffer::new();
    script.extend_from_slice(before)?;
    script.extend_from_slice(buffer.format(number).as_bytes())
}
