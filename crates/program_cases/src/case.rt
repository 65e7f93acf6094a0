//! A case: a command line, a script, and calls that are to fail.
use std::alloc::{AllocError, Global};

/// What is played.
#[derive(Drop)]
pub struct Case {
    /// The line that begins it.
    pub title: String,
    /// The words behind the program's name.
    pub words: Vec<String>,
    /// The script's bytes.
    pub script: Vec<u8>,
    /// The call on the source that fails, counted from 1; 0 is none.
    pub read: u64,
    /// The same of the tree.
    pub load: u64,
    /// The same of the sink.
    pub write: u64,
    /// How many bytes the sink takes.
    pub room: usize,
    /// Whether source and sink go in small pieces.
    pub in_pieces: bool,
    /// Whether only the first and the last line are shown.
    pub shows_ends: bool,
    /// Whether what is written is shown in hex digits.
    pub shows_hex: bool,
}

impl Case {
    /// The program's name alone, and an empty script.
    pub fn new(alloc: Global, title: &str) -> Result<Case, AllocError> {
        Ok(Case {
            title: String::from_str(alloc, title)?,
            words: words_of(alloc, "ide")?,
            script: Vec::new(alloc),
            read: 0,
            load: 0,
            write: 0,
            room: 10_000,
            in_pieces: false,
            shows_ends: false,
            shows_hex: false,
        })
    }

    /// Takes a line: a setting, or a line of the script.
    pub fn add(&mut self, alloc: Global, line: &str) -> Result<(), AllocError> {
        let (word, value) = line.split_once(" ").unwrap_or((line, ""));
        match word {
            "=words" => self.words = words_of(alloc, value)?,
            "=times" => push_times(alloc, &mut self.script, value)?,
            "=cut" => {
                self.script.pop();
            }
            "=ends" => self.shows_ends = true,
            "=hex" => self.shows_hex = true,
            "=pieces" => self.in_pieces = true,
            "=read" => self.read = number_of(value),
            "=load" => self.load = number_of(value),
            "=write" => self.write = number_of(value),
            "=room" => self.room = number_of(value) as usize,
            _ => {
                push_marked(&mut self.script, line)?;
                self.script.push(b'\n')?;
            }
        }
        Ok(())
    }
}

/// The words between bars; none where there is nothing.
fn words_of(alloc: Global, line: &str) -> Result<Vec<String>, AllocError> {
    let mut words = Vec::new(alloc);
    if line.is_empty() {
        return Ok(words);
    }
    for word in line.split("|") {
        words.push(String::from_str(alloc, word)?)?;
    }
    Ok(words)
}

/// The number that digits spell, or 0.
fn number_of(digits: &str) -> u64 {
    digits.parse::<u64>().unwrap_or(0)
}

/// Adds a text as often as its first word says.
fn push_times(alloc: Global, script: &mut Vec<u8>, value: &str) -> Result<(), AllocError> {
    let (times, text) = value.split_once(" ").unwrap_or((value, ""));
    for before in 0..number_of(times) {
        push_numbered(alloc, script, text, before.saturating_add(1))?;
    }
    Ok(())
}

/// Adds a text with a number for each of its marks.
fn push_numbered(
    alloc: Global,
    script: &mut Vec<u8>,
    text: &str,
    number: u64,
) -> Result<(), AllocError> {
    let mut is_first = true;
    for piece in text.split("@") {
        if !is_first {
            push_marked(script, &format!(in alloc; "{number}")?)?;
        }
        is_first = false;
        push_marked(script, piece)?;
    }
    Ok(())
}

/// Adds the bytes of a text, with those that its marks stand for.
fn push_marked(script: &mut Vec<u8>, text: &str) -> Result<(), AllocError> {
    for byte in text.bytes() {
        script.push(match byte {
            b'|' => b'\n',
            b'^' => b'\r',
            _ => byte,
        })?;
    }
    Ok(())
}
