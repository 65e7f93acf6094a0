//! A text in quotes: its form, its escapes, its line breaks and its length.
ghost use Rattle.std.specs.Prelude.{◌≡◌, ℕ, ◌<◌, ◌≤◌, [], ◌∷◌, ◌++◌, IfOk, MatchOption, Some, None, length, take, drop, option_map, string_bytes};
ghost use Rattle.std.specs.Str.{chars, IsCharBoundary};
ghost use Rattle.script_lang.specs.Quotes.{escape_of, quote_step, unquoted_from, text_of_field};

use ide_text::{Name, SharedText, Text, TextRefusal};
use memchr::memchr2;
use std::alloc::{AllocError, Global};

/// Where the reading of a text in quotes stands.
#[derive(Clone, Copy)]
pub(crate) enum QuoteState {
    /// Before the first quote.
    Outside,
    /// Between the quotes.
    Inside,
    /// Right after a backslash.
    Escaping,
    /// Behind the last quote.
    Behind,
}

/// The text that a field in quotes stands for.
pub(crate) fn text_of_field(alloc: Global, field: &str) -> Result<Option<SharedText>, AllocError>
    ensures { IfOk result (λ text. text ≡ text_of_field (chars field.now)) }
{
    match read_field(alloc, field)? {
        Some(text) => Ok(Some(SharedText::new(alloc, text)?)),
        None => Ok(None),
    }
}

/// The text that a field in quotes stands for, as a key.
pub(crate) fn key_of_field(alloc: Global, field: &str) -> Result<Option<Name>, AllocError>
    ensures { IfOk result (λ key. key ≡ text_of_field (chars field.now)) }
{
    match read_field(alloc, field)? {
        Some(text) => Ok(Some(Name::of_text(alloc, &text, 0, text.len())?)),
        None => Ok(None),
    }
}

/// The text that a field in quotes stands for, with no owner yet.
fn read_field(alloc: Global, field: &str) -> Result<Option<Text>, AllocError>
    ensures { IfOk result (λ text. text ≡ text_of_field (chars field.now)) }
{
    let Some(unquoted) = unquoted(alloc, field)? else {
        return Ok(None);
    };
    match Text::from_string(alloc, unquoted) {
        Ok(text) => Ok(Some(text)),
        Err(TextRefusal::OutOfMemory) => Err(AllocError),
        // A `String` is UTF-8, so a text that is refused is too long.
        Err(TextRefusal::TooLong { .. }) => Ok(None),
        Err(TextRefusal::NotText { .. }) => Ok(None),
    }
}

/// What stands between the quotes of a field, its escapes undone.
fn unquoted(alloc: Global, field: &str) -> Result<Option<String>, AllocError>
    ensures { IfOk result (λ text. option_map (λ s. chars (string_bytes s)) text
        ≡ unquoted_from QuoteState.Outside (chars field.now)) }
{
    let mut text = String::with_capacity(alloc, field.len())?;
    let mut place = QuoteState::Outside;
    let mut rest = field;
    while let Some((c, after)) = first_char(rest) {
        let Some((next, meant)) = step(place, c) else {
            return Ok(None);
        };
        if let Some(meant) = meant {
            text.push(meant)?;
        }
        rest = add_plain(&mut text, next, after)?;
        place = next;
    }
    Ok(match place {
        QuoteState::Behind => Some(text),
        _ => None,
    })
}

/// The first character and what stands behind it, where there is a character.
fn first_char(text: &str) -> Option<(char, &str)>
    ensures cut { MatchOption result (chars text.now ≡ [])
        (λ p. chars text.now ≡ p.0 ∷ chars p.1.now) }
    ensures shorter { MatchOption result (chars text.now ≡ [])
        (λ p. length p.1.now < length text.now) }
{
    let mut chars = text.chars();
    let c = chars.next()?;
    Some((c, chars.as_str()))
}

/// Adds the first characters of a text, read from a place on, that mean themselves, where there are some; and gives
/// what stands behind them.
fn add_plain<'a>(out: &mut String, place: QuoteState, text: &'a str) -> Result<&'a str, AllocError>
    ensures same { IfOk result
        (λ rest. option_map (λ cs. chars (string_bytes out.new) ++ cs)
        (unquoted_from place (chars rest.now))
        ≡ option_map (λ cs. chars (string_bytes out.old) ++ cs)
        (unquoted_from place (chars text.now))) }
    ensures shorter { IfOk result (λ rest. length rest.now ≤ length text.now) }
{
    if !begins_plain(place, text.as_bytes()) {
        return Ok(text);
    }
    let (plain, rest) = text.split_at(plain_len(place, text));
    out.push_str(plain)?;
    Ok(rest)
}

/// Whether two bytes at the front mean themselves: a single one isn't worth a search.
fn begins_plain(place: QuoteState, bytes: &[u8]) -> bool {
    match place {
        QuoteState::Inside => 1 < bytes.len() && is_plain(bytes[0]) && is_plain(bytes[1]),
        _ => false,
    }
}

/// Whether a byte is no quote and no backslash.
fn is_plain(byte: u8) -> bool {
    byte != b'"' && byte != b'\\'
}

/// How many bytes of a text, read from a place on, spell characters that mean themselves, up to the first that doesn't.
fn plain_len(place: QuoteState, text: &str) -> usize
    ensures boundary { IsCharBoundary text.now result }
    ensures cut { unquoted_from place (chars text.now)
        ≡ option_map (λ cs. chars (take result text.now) ++ cs)
        (unquoted_from place (chars (drop result text.now))) }
{
    match place {
        QuoteState::Inside => memchr2(b'"', b'\\', text.as_bytes()).unwrap_or(text.len()),
        _ => 0,
    }
}

/// The place after a character and the character that it means, where the form goes on.
fn step(place: QuoteState, c: char) -> Option<(QuoteState, Option<char>)>
    ensures { result ≡ quote_step place c }
{
    match (place, c) {
        (QuoteState::Outside, '"') => Some((QuoteState::Inside, None)),
        (QuoteState::Inside, '"') => Some((QuoteState::Behind, None)),
        (QuoteState::Inside, '\\') => Some((QuoteState::Escaping, None)),
        (QuoteState::Inside, _) => Some((QuoteState::Inside, Some(c))),
        (QuoteState::Escaping, _) => meant_by(c).map(|meant| (QuoteState::Inside, Some(meant))),
        (QuoteState::Outside | QuoteState::Behind, _) => None,
    }
}

/// The character that a letter after a backslash stands for.
fn meant_by(letter: char) -> Option<char>
    ensures { result ≡ escape_of letter }
{
    match letter {
        '"' | '\\' => Some(letter),
        'n' => Some('\n'),
        'r' => Some('\r'),
        't' => Some('\t'),
        _ => None,
    }
}
