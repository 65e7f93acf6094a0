//! What a line of a script is.
ghost use Rattle.std.specs.Prelude.{◌≡◌, IfOk};
ghost use Rattle.std.specs.Str.{chars};
ghost use Rattle.script_lang.specs.Lines.{without_return, is_passed_by};
ghost use Rattle.script_lang.specs.Contents.{content_of, content_of_text, lone_content, or_bad};

use crate::Command;
use crate::command_line::command_with;
use crate::field::parts_at_space;
use crate::query_line::lone_query_of_bytes;
use std::alloc::{AllocError, Global};

/// What a line is.
#[derive(Drop)]
pub(crate) enum Content {
    /// Empty or a comment.
    PassedBy,
    /// One of the forms of a command.
    Holds(Command),
    /// A lane begins.
    Lane,
    /// The last section begins.
    Finally,
    /// A group begins.
    Group,
    /// A group ends.
    End,
    /// None of these.
    Bad,
}

/// What a line is, as the grammar says.
#[tactic(auto, unfolding(crate::specs::Contents::content_of))]
pub(crate) fn content_of(alloc: Global, line: &[u8]) -> Result<Content, AllocError>
    ensures { IfOk result (λ content. content ≡ content_of line.now) }
{
    let line = without_return(line);
    if is_passed_by(line) {
        return Ok(Content::PassedBy);
    }
    let Ok(text) = std::str::from_utf8(line) else {
        return Ok(Content::Bad);
    };
    content_of_text(alloc, text)
}

/// What a line with a text is.
#[tactic(auto, unfolding(crate::specs::Contents::content_of_text))]
fn content_of_text(alloc: Global, text: &str) -> Result<Content, AllocError>
    ensures { IfOk result (λ content. content ≡ content_of_text (chars text.now)) }
{
    let content = match parts_at_space(text) {
        Some((word, rest)) => command_with(alloc, word, rest)?.map(Content::Holds),
        None => lone_content(text),
    };
    Ok(or_bad(content))
}

/// What a line of one word is.
fn lone_content(word: &str) -> Option<Content>
    ensures { result ≡ lone_content (chars word.now) }
{
    lone_content_of_bytes(word)
}

/// What a line of one word is, by its bytes.
fn lone_content_of_bytes(word: &str) -> Option<Content>
    ensures { result ≡ lone_content word.now }
{
    match word {
        "lane" => Some(Content::Lane),
        "finally" => Some(Content::Finally),
        "group" => Some(Content::Group),
        "end" => Some(Content::End),
        "settle" => Some(Content::Holds(Command::Settle)),
        _ => lone_query_of_bytes(word).map(|query| Content::Holds(Command::Ask(query))),
    }
}

/// What a line is, or a bad line.
fn or_bad(content: Option<Content>) -> Content
    ensures { result ≡ or_bad content }
{
    content.unwrap_or(Content::Bad)
}

/// The line with one carriage return at its end dropped.
fn without_return(line: &[u8]) -> &[u8]
    ensures { result.now ≡ without_return line.now }
{
    if line.last() == Some(&b'\r') {
        &line[..line.len() - 1]
    } else {
        line
    }
}

/// Whether the line is empty or begins with `#`.
fn is_passed_by(line: &[u8]) -> bool
    ensures { result ≡ is_passed_by line.now }
{
    line.is_empty() || line[0] == b'#'
}
