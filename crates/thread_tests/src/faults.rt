//! Whether transcripts of a script are told from changed ones.
use crate::beside::JUDGED;
use crate::changed::changed;
use crate::judging::{is_good, loaded_files, no_files};
use crate::lanes::SCRIPTS;
use crate::running::{run, script_of, text_of};
use crate::sessions::SESSIONS;
use ide_io::MemoryTree;
use script_lang::Script;
use std::alloc::{AllocError, Global};
use std::sync::Wait;
use std::thread::Threads;
use transcripts::transcript;

/// What is wrong with the verdicts on texts for a script with so many workers, or nothing: those of the first list are to
/// be good, and those of the second bad, as are all with one change to a text of the first that aren't among these.
fn fault_of(
    alloc: Global,
    script: &str,
    workers: u32,
    good: &[&str],
    bad: &[&str],
) -> Result<String, AllocError> {
    let script = script_of(alloc, script.as_bytes())?;
    let mut tree = no_files(alloc);
    fault_over(alloc, &script, workers, &mut tree, good, bad)
}

/// The same of the script, over a tree.
fn fault_over(
    alloc: Global,
    script: &Script,
    workers: u32,
    tree: &mut MemoryTree,
    good: &[&str],
    bad: &[&str],
) -> Result<String, AllocError> {
    let fault = fault_of_good(alloc, script, workers, tree, good)?;
    if fault.is_empty() {
        fault_of_bad(alloc, script, workers, tree, bad)
    } else {
        Ok(fault)
    }
}

/// The first fault of the scripts with lanes and workers, or nothing.
pub fn fault_of_lanes(alloc: Global) -> Result<String, AllocError> {
    for judged in &JUDGED {
        let (script, workers) = (judged.script, judged.workers);
        let fault = fault_of(alloc, script, workers, judged.good, judged.bad)?;
        if !fault.is_empty() {
            return Ok(fault);
        }
    }
    fault_of_lawful(alloc)
}

/// The first fault of the scripts of which all transcripts are known, or nothing.
fn fault_of_lawful(alloc: Global) -> Result<String, AllocError> {
    for lawful in &SCRIPTS {
        let fault = fault_of(alloc, lawful.script, 0, lawful.transcripts, &[])?;
        if !fault.is_empty() {
            return Ok(fault);
        }
    }
    Ok(String::new(alloc))
}

/// The first fault of the scripts without lanes and workers, or nothing. It may block.
pub fn fault_of_sessions<R: Threads + Wait + Sync>(
    rt: &R,
    alloc: Global,
) -> Result<String, AllocError> {
    for session in &SESSIONS {
        let fault = fault_of_session(rt, alloc, session)?;
        if !fault.is_empty() {
            return Ok(fault);
        }
    }
    Ok(String::new(alloc))
}

/// The same of the transcript of a run of a script without lanes, which is the only one: nothing is to be good besides. It
/// may block.
fn fault_of_session<R: Threads + Wait + Sync>(
    rt: &R,
    alloc: Global,
    script: &str,
) -> Result<String, AllocError> {
    let script = script_of(alloc, script.as_bytes())?;
    let mut tree = loaded_files(alloc)?;
    fault_of_run(rt, alloc, &script, &mut tree)
}

/// The same of a script, over a tree.
fn fault_of_run<R: Threads + Wait + Sync>(
    rt: &R,
    alloc: Global,
    script: &Script,
    tree: &mut MemoryTree,
) -> Result<String, AllocError> {
    let printed = printed_run(rt, alloc, script, tree)?;
    fault_of_good(alloc, script, 0, tree, &[printed.as_str()])
}

/// The transcript of a run of a script, over a tree.
fn printed_run<R: Threads + Wait + Sync>(
    rt: &R,
    alloc: Global,
    script: &Script,
    tree: &mut MemoryTree,
) -> Result<String, AllocError> {
    let played = run(rt, alloc, script, 0, tree)?;
    text_of(alloc, &transcript(alloc, &played)?)
}

/// What is wrong with the verdicts on texts that are to be good, and on those with one change to one of them.
fn fault_of_good(
    alloc: Global,
    script: &Script,
    workers: u32,
    tree: &mut MemoryTree,
    good: &[&str],
) -> Result<String, AllocError> {
    for text in good {
        if !is_good(alloc, script, workers, tree, text.as_bytes())? {
            return format!(in alloc; "is bad:\n{text}");
        }
        let fault = fault_of_changed(alloc, script, workers, tree, text, good)?;
        if !fault.is_empty() {
            return Ok(fault);
        }
    }
    Ok(String::new(alloc))
}

/// What is wrong with the verdicts on the forms of a text with one change: those that aren't among these are to be bad.
fn fault_of_changed(
    alloc: Global,
    script: &Script,
    workers: u32,
    tree: &mut MemoryTree,
    text: &str,
    good: &[&str],
) -> Result<String, AllocError> {
    let forms = changed(alloc, text)?;
    for form in &forms {
        if !has_bytes(good, form) && is_good(alloc, script, workers, tree, form)? {
            return told_good(alloc, form);
        }
    }
    Ok(String::new(alloc))
}

/// What is wrong with the verdicts on texts that are to be bad.
fn fault_of_bad(
    alloc: Global,
    script: &Script,
    workers: u32,
    tree: &mut MemoryTree,
    bad: &[&str],
) -> Result<String, AllocError> {
    for text in bad {
        if is_good(alloc, script, workers, tree, text.as_bytes())? {
            return told_good(alloc, text.as_bytes());
        }
    }
    Ok(String::new(alloc))
}

/// Tells of bytes that they were found good.
fn told_good(alloc: Global, bytes: &[u8]) -> Result<String, AllocError> {
    let text = text_of(alloc, bytes)?;
    format!(in alloc; "is good:\n{text}")
}

/// Whether bytes are those of one of these texts.
fn has_bytes(texts: &[&str], bytes: &[u8]) -> bool {
    texts.iter().any(|text| text.as_bytes() == bytes)
}
