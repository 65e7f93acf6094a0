//! A script: its commands with their line numbers, read from bytes.
ghost use Rattle.std.specs.Prelude.{◌≡◌, ◌≤◌, ◌<◌, IfOk, IfErr, MatchResult, Ok, Some, length, nat_le, slice_get};
ghost use Rattle.script_lang.specs.Reading.{script_of, IsRefusalOf, max_lanes};
ghost use Rattle.script_lang.specs.Grammar.{IsScript, IsRefused};
ghost use Rattle.script_lang.specs.Held.{AreOfPrelude, AreOfSection, AreOfScript};
ghost use Rattle.script_lang.specs.Lines.{max_bytes};
ghost use Rattle.script_lang.specs.Parts.{Parts};

use crate::reader::Reader;
use crate::sections::Sections;
use crate::split::first_line;
use crate::{Line, ScriptRefusal};
use std::alloc::Global;
use std::marker::Model;

/// The most bytes that a script may have.
pub const MAX_BYTES: usize = 16_777_216;

/// A script: the commands of its prelude, of its lanes and of its last section, each in order.
#[derive(Drop)]
pub struct Script {
    sections: Sections,
}

impl Model for Script {
    ghost use Rattle.script_lang.specs.Held.{AreOfScript};
    ghost use Rattle.script_lang.specs.Parts.{Parts};

    ghost Value = { Parts };

    ghost view = { λ s. s.sections };

    ghost invariant = { λ s. AreOfScript s.sections };
}

impl Script {
    /// The commands before any lane.
    pub fn prelude(&self) -> &[Line]
        ensures lines { result.now ≡ self.now.prelude }
        ensures commands { AreOfPrelude result.now }
    {
        self.sections.prelude.as_slice()
    }

    /// The number of lanes, at most 16.
    pub fn lanes(&self) -> usize
        ensures count { result ≡ length self.now.lanes }
        ensures few { result ≤ max_lanes }
    {
        self.sections.lanes.len()
    }

    /// The commands of a lane, counted from 0.
    pub fn lane(&self, i: usize) -> &[Line]
        requires { i < length self.now.lanes }
        ensures lines { slice_get self.now.lanes i ≡ Some result.now }
        ensures commands { AreOfSection result.now }
    {
        self.sections.lanes[i].as_slice()
    }

    /// The commands after all lanes.
    pub fn last(&self) -> &[Line]
        ensures lines { result.now ≡ self.now.last }
        ensures commands { AreOfSection result.now }
    {
        self.sections.last.as_slice()
    }

    /// A law: its sections hold the commands of a script, whose numbers rise through them in order.
    pub fn is_of_script(&self)
        ensures { AreOfScript self.now }
    {
        let _ = &self.sections;
    }
}

/// Whether bytes are few enough for a script.
pub fn is_within_limit(bytes: &[u8]) -> bool
    ensures { result ≡ nat_le (length bytes.now) max_bytes }
{
    bytes.len() <= MAX_BYTES
}

/// The script that the bytes spell. Linear in the bytes.
pub fn parse(alloc: Global, bytes: &[u8]) -> Result<Script, ScriptRefusal>
    requires { length bytes.now ≤ max_bytes }

    // What is answered is in the grammar, and a script of the grammar is answered unless memory runs out.
    ensures script { IfOk result (λ script. IsScript bytes.now script) }
    ensures only { (script : Parts) → IsScript bytes.now script
        → MatchResult result (λ read. read ≡ script)
        (λ refusal. refusal ≡ ScriptRefusal.OutOfMemory) }

    // The line that is named is the first up to which the lines begin no script, or else that of a group that is open at the end.
    ensures bad_line { IfErr result (λ refusal. IsRefused bytes.now refusal) }
{
    script_of(alloc, bytes)
}

/// The script of the bytes, line by line.
fn script_of(alloc: Global, bytes: &[u8]) -> Result<Script, ScriptRefusal>
    requires { length bytes.now ≤ max_bytes }
    ensures ok { IfOk result (λ script. script_of bytes.now ≡ Ok script) }
    ensures err { IfErr result (λ refusal. IsRefusalOf (script_of bytes.now) refusal) }
{
    let mut reader = Reader::new(alloc);
    let mut number = 0;
    let mut rest = bytes;
    while let Some((line, after)) = first_line(rest) {
        number += 1;
        match reader.go_on(alloc, number, line) {
            Ok(true) => rest = after,
            Ok(false) => {
                drop(reader);
                return Err(ScriptRefusal::BadLine { number });
            }
            Err(refusal) => {
                drop(reader);
                return Err(refusal.into());
            }
        }
    }
    Ok(Script {
        sections: reader.finished(alloc)?,
    })
}
