//! The command on a line.
ghost use Rattle.std.specs.Prelude.{◌≡◌, IfOk, option_map};
ghost use Rattle.std.specs.Option.{option_and_then};
ghost use Rattle.std.specs.Str.{chars};
ghost use Rattle.script_lang.specs.Fields.{two_fields, path_of, number_of};
ghost use Rattle.script_lang.specs.Quotes.{text_of_field};
ghost use Rattle.script_lang.specs.Commands.{command_with, change_with, request_with, soft_command, attempts_of};

use crate::Command;
use crate::command::MAX_ATTEMPTS;
use crate::field::{number_of, parts_at_space, path_of};
use crate::query_line::{query_of, query_of_word};
use crate::quoted::text_of_field;
use ide_text::{Name, SharedText};
use std::alloc::{AllocError, Global};
use write_history::Change;

/// The command of a word and of the text behind the space after it, where they have one of the forms.
pub(crate) fn command_with(
    alloc: Global,
    word: &str,
    rest: &str,
) -> Result<Option<Command>, AllocError>
    ensures { IfOk result (λ command. command ≡ command_with (chars word.now) (chars rest.now)) }
{
    command_of_word(alloc, word, rest)
}

/// The command of a word's bytes.
fn command_of_word(alloc: Global, word: &str, rest: &str) -> Result<Option<Command>, AllocError>
    ensures { IfOk result (λ command. command ≡ command_with word.now (chars rest.now)) }
{
    match change_of_word(alloc, word, rest)? {
        Some(change) => Ok(Some(Command::Change(change))),
        None => request_of_word(alloc, word, rest),
    }
}

/// The change of a word's bytes.
fn change_of_word(alloc: Global, word: &str, rest: &str) -> Result<Option<Change>, AllocError>
    ensures { IfOk result (λ change. change ≡ change_with word.now (chars rest.now)) }
{
    match word {
        "create" => {
            let fields = path_and_text(alloc, rest)?;
            Ok(fields.map(|(path, text)| Change::Create { path, text }))
        }
        "write" => {
            let fields = path_and_text(alloc, rest)?;
            Ok(fields.map(|(path, text)| Change::Write { path, text }))
        }
        "delete" => Ok(path_of(alloc, rest)?.map(|path| Change::Delete { path })),
        "open" => Ok(path_of(alloc, rest)?.map(|path| Change::OpenDoc { path })),
        "insert" => {
            let fields = path_and_piece(alloc, rest)?;
            Ok(fields.map(|(path, (at, text))| Change::Insert { path, at, text }))
        }
        "erase" => {
            let fields = path_and_range(alloc, rest)?;
            Ok(fields.map(|(path, (from, to))| Change::Erase { path, from, to }))
        }
        "commit" => Ok(path_of(alloc, rest)?.map(|path| Change::Commit { path })),
        "save" => Ok(path_of(alloc, rest)?.map(|path| Change::Save { path })),
        "close" => Ok(path_of(alloc, rest)?.map(|path| Change::CloseDoc { path })),
        "move" => {
            let fields = two_paths(alloc, rest)?;
            Ok(fields.map(|(path, to)| Change::Move { path, to }))
        }
        _ => Ok(None),
    }
}

/// The load, the soft read or the question of a word's bytes.
fn request_of_word(alloc: Global, word: &str, rest: &str) -> Result<Option<Command>, AllocError>
    ensures { IfOk result (λ command. command ≡ request_with word.now (chars rest.now)) }
{
    match word {
        "load" => Ok(path_of(alloc, rest)?.map(|path| Command::Load { path })),
        "soft" => soft_command(alloc, rest),
        _ => Ok(query_of_word(alloc, word, rest)?.map(Command::Ask)),
    }
}

/// The soft read of the two fields behind its word.
fn soft_command(alloc: Global, fields: &str) -> Result<Option<Command>, AllocError>
    ensures { IfOk result (λ command. command ≡ soft_command (chars fields.now)) }
{
    let Some((number, line)) = parts_at_space(fields) else {
        return Ok(None);
    };
    let Some(attempts) = attempts_of(number) else {
        return Ok(None);
    };
    let query = query_of(alloc, line)?;
    Ok(query.map(|query| Command::Soft { attempts, query }))
}

/// The number of attempts that a field spells.
#[tactic(auto, unfolding(crate::specs::Commands::attempts_of))]
fn attempts_of(field: &str) -> Option<u32>
    ensures { result ≡ attempts_of (chars field.now) }
{
    let attempts = number_of(field)?;
    if attempts < 1 || attempts > MAX_ATTEMPTS {
        return None;
    }
    Some(attempts)
}

/// A path and a text.
fn path_and_text(alloc: Global, fields: &str) -> Result<Option<(Name, SharedText)>, AllocError>
    ensures { IfOk result (λ found. found ≡ two_fields path_of text_of_field (chars fields.now)) }
{
    let Some((path, text)) = parts_at_space(fields) else {
        return Ok(None);
    };
    let Some(path) = path_of(alloc, path)? else {
        return Ok(None);
    };
    let text = text_of_field(alloc, text)?;
    Ok(text.map(|text| (path, text)))
}

/// A path, a place and a text.
fn path_and_piece(
    alloc: Global,
    fields: &str,
) -> Result<Option<(Name, (u32, SharedText))>, AllocError>
    ensures { IfOk result
        (λ found. found
        ≡ two_fields path_of (two_fields number_of text_of_field) (chars fields.now)) }
{
    let Some((path, piece)) = parts_at_space(fields) else {
        return Ok(None);
    };
    let Some(path) = path_of(alloc, path)? else {
        return Ok(None);
    };
    let piece = place_and_text(alloc, piece)?;
    Ok(piece.map(|piece| (path, piece)))
}

/// A place and a text.
fn place_and_text(alloc: Global, fields: &str) -> Result<Option<(u32, SharedText)>, AllocError>
    ensures { IfOk result (λ found. found ≡ two_fields number_of text_of_field (chars fields.now)) }
{
    let Some((at, text)) = parts_at_space(fields) else {
        return Ok(None);
    };
    let Some(at) = number_of(at) else {
        return Ok(None);
    };
    let text = text_of_field(alloc, text)?;
    Ok(text.map(|text| (at, text)))
}

/// A path and two places.
fn path_and_range(alloc: Global, fields: &str) -> Result<Option<(Name, (u32, u32))>, AllocError>
    ensures { IfOk result
        (λ found. found ≡ two_fields path_of (two_fields number_of number_of) (chars fields.now)) }
{
    let Some((path, range)) = parts_at_space(fields) else {
        return Ok(None);
    };
    let Some(path) = path_of(alloc, path)? else {
        return Ok(None);
    };
    Ok(two_places(range).map(|range| (path, range)))
}

/// Two places.
fn two_places(fields: &str) -> Option<(u32, u32)>
    ensures { result ≡ two_fields number_of number_of (chars fields.now) }
{
    let (from, to) = parts_at_space(fields)?;
    Some((number_of(from)?, number_of(to)?))
}

/// Two paths.
fn two_paths(alloc: Global, fields: &str) -> Result<Option<(Name, Name)>, AllocError>
    ensures { IfOk result (λ found. found ≡ two_fields path_of path_of (chars fields.now)) }
{
    let Some((path, to)) = parts_at_space(fields) else {
        return Ok(None);
    };
    let Some(path) = path_of(alloc, path)? else {
        return Ok(None);
    };
    let to = path_of(alloc, to)?;
    Ok(to.map(|to| (path, to)))
}
