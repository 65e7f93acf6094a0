//! The question on a line.
ghost use Rattle.std.specs.Prelude.{◌≡◌, IfOk};
ghost use Rattle.std.specs.Str.{chars};
ghost use Rattle.script_lang.specs.Commands.{lone_query, query_with, query_of};
ghost use Rattle.script_lang.specs.Readers.{value_of};
ghost use Rattle.script_lang.specs.Forms.{Word};

use crate::field::{parts_at_space, path_of};
use crate::quoted::key_of_field;
use ide_text::Name;
use java_tokens::is_word;
use queries::Query;
use std::alloc::{AllocError, Global};

/// The question of a line's text, where the line has one of the forms.
#[tactic(auto, unfolding(crate::specs::Commands::query_of))]
pub(crate) fn query_of(alloc: Global, line: &str) -> Result<Option<Query>, AllocError>
    ensures { IfOk result (λ query. query ≡ query_of (chars line.now)) }
{
    match parts_at_space(line) {
        Some((word, rest)) => query_with(alloc, word, rest),
        None => Ok(lone_query(line)),
    }
}

/// The question of one word.
fn lone_query(word: &str) -> Option<Query>
    ensures { result ≡ lone_query (chars word.now) }
{
    lone_query_of_bytes(word)
}

/// The question of one word, by its bytes.
pub(crate) fn lone_query_of_bytes(word: &str) -> Option<Query>
    ensures { result ≡ lone_query word.now }
{
    match word {
        "status" => Some(Query::Status),
        _ => None,
    }
}

/// The question of a word and of the text behind the space after it.
fn query_with(alloc: Global, word: &str, rest: &str) -> Result<Option<Query>, AllocError>
    ensures { IfOk result (λ query. query ≡ query_with (chars word.now) (chars rest.now)) }
{
    query_of_word(alloc, word, rest)
}

/// The question of a word's bytes.
pub(crate) fn query_of_word(
    alloc: Global,
    word: &str,
    rest: &str,
) -> Result<Option<Query>, AllocError>
    ensures { IfOk result (λ query. query ≡ query_with word.now (chars rest.now)) }
{
    match word {
        "class" => Ok(name_of(alloc, rest)?.map(|name| Query::Class { name })),
        "supers" => Ok(name_of(alloc, rest)?.map(|name| Query::Supers { name })),
        "method" => Ok(name_of(alloc, rest)?.map(|name| Query::Method { name })),
        "word" => Ok(name_of(alloc, rest)?.map(|name| Query::Word { name })),
        "usages" => Ok(name_of(alloc, rest)?.map(|name| Query::Usages { name })),
        "inheritors" => Ok(name_of(alloc, rest)?.map(|name| Query::Inheritors { name })),
        "key" => Ok(key_of_field(alloc, rest)?.map(|key| Query::Key { key })),
        "outline" => Ok(path_of(alloc, rest)?.map(|path| Query::Outline { path })),
        _ => Ok(None),
    }
}

/// The word that a field is.
fn name_of(alloc: Global, field: &str) -> Result<Option<Name>, AllocError>
    ensures { IfOk result (λ name. name ≡ value_of Word (chars field.now)) }
{
    if !is_word(field) {
        return Ok(None);
    }
    Ok(Some(Name::of(alloc, field)?))
}
