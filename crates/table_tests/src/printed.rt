//! What `parse` answers, on one line.
use crate::commands::push_command;
use script_lang::{Line, Script, ScriptRefusal, is_within_limit, parse};
use std::alloc::{AllocError, Global};

/// Adds each command behind its line's number, section by section, or the refusal.
pub fn push_script(alloc: Global, bytes: &[u8], out: &mut String) -> Result<(), AllocError> {
    out.push(' ')?;
    if !is_within_limit(bytes) {
        return out.push_str("too many bytes");
    }
    match parse(alloc, bytes) {
        Ok(script) => push_sections(out, &script),
        Err(ScriptRefusal::BadLine { number }) => { write!(out, "bad {number}") }
        Err(ScriptRefusal::OutOfMemory) => Err(AllocError),
    }
}

/// Adds the sections.
fn push_sections(out: &mut String, script: &Script) -> Result<(), AllocError> {
    push_lines(out, script.prelude())?;
    for i in 0..script.lanes() {
        out.push_str("lane:")?;
        push_lines(out, script.lane(i))?;
    }
    if !script.last().is_empty() {
        out.push_str("finally:")?;
        push_lines(out, script.last())?;
    }
    Ok(())
}

/// Adds the commands of a section.
fn push_lines(out: &mut String, lines: &[Line]) -> Result<(), AllocError> {
    for line in lines {
        write!(out, "{} ", line.number)?;
        push_command(out, &line.command)?;
        out.push(';')?;
    }
    Ok(())
}
