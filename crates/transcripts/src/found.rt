//! Printing what a question found.
ghost use Rattle.std.specs.Prelude.{◌≡◌, ◌++◌, OnOk, string_bytes};
ghost use Rattle.transcripts.specs.Transcript.{found_text, count_line, counts_line};

use crate::rows::{push_keys, push_levels, push_outline, push_rows, push_usages, push_words};
use query_engine::Finding;
use std::alloc::AllocError;
use write_history::push_numbered;

/// Adds what a question found: a line that says how much, and one for each row.
pub(crate) fn push_found(out: &mut String, found: &Finding) -> Result<(), AllocError>
    ensures { OnOk result (string_bytes out.new ≡ string_bytes out.old ++ found_text found.now) }
{
    match found {
        Finding::Rows { rows } => {
            push_count(out, rows.len())?;
            push_rows(out, rows.as_slice())
        }
        Finding::Outline { rows } => {
            push_count(out, rows.len())?;
            push_outline(out, rows.as_slice())
        }
        Finding::Words { rows } => {
            push_count(out, rows.len())?;
            push_words(out, rows.as_slice())
        }
        Finding::Usages { name, rows } => {
            push_count(out, rows.len())?;
            push_usages(out, name, rows.as_slice())
        }
        Finding::Inheritors { rows } => {
            push_count(out, rows.len())?;
            push_levels(out, rows.as_slice())
        }
        Finding::Keys { rows } => {
            push_count(out, rows.len())?;
            push_keys(out, rows.as_slice())
        }
        Finding::Counts {
            files,
            docs,
            unready,
        } => push_counts(out, *files, *docs, *unready),
    }
}

/// Adds how many files, open documents and unready files there are, in a line.
fn push_counts(out: &mut String, files: u32, docs: u32, unready: u32) -> Result<(), AllocError>
    ensures { OnOk result
        (string_bytes out.new ≡ string_bytes out.old ++ counts_line files docs unready) }
{
    write!(out, "status files {files}")?;
    write!(out, " open {docs}")?;
    write!(out, " unready {unready}\n")
}

/// Adds how many rows there are, in a line.
fn push_count(out: &mut String, count: usize) -> Result<(), AllocError>
    ensures { OnOk result (string_bytes out.new ≡ string_bytes out.old ++ count_line count) }
{
    push_numbered(out, "rows ", count as u64)?;
    out.push_str("\n")
}
