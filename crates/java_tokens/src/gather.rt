//! The words of a text, gathered token by token.
ghost use Rattle.std.specs.Prelude.{◌≡◌, ◌+◌, ◌-◌, ◌≤◌, OnOk, IfOk, length, take, drop, fold, [], ◌∷◌, if◌then◌else◌};
ghost use Rattle.std.specs.List.{prefix_len};
ghost use Rattle.java_tokens.specs.Chars.{continues_word};
ghost use Rattle.java_tokens.specs.Identifier.{is_reserved};
ghost use Rattle.java_tokens.specs.declared.context.Context.TheVariants.{Code};
ghost use Rattle.java_tokens.specs.Tokens.{tokens_of};
ghost use Rattle.java_tokens.specs.Words.{AreInOrder, HasMasksOf, bit_of, gap_at, words_among, words_at, marked, occurrences_at, occurrences_of, with_occurrence, words_of};

use crate::chars::{Class, continues_word};
use crate::context::Context;
use crate::kind::TokenKind;
use crate::masks::Masks;
use crate::piece::Piece;
use crate::reserved::is_reserved;
use crate::scan::run_end;
use crate::token::Token;
use crate::tokenizer::begins_word_at;
use crate::word_list::WordList;
use ide_text::Text;
use std::alloc::{AllocError, Global};

/// The most words for which room is made before any is met; for more, room is made as they come.
const FIRST_ROOM: usize = 2048;

/// The words of a text, of which the tokens are at hand: its identifiers, and the words in its comments and strings.
/// Each occurrence is looked up by hash, and the distinct words are sorted at the end.
pub fn words(alloc: Global, text: &Text, tokens: &[Token]) -> Result<WordList, AllocError>
    requires { tokens.now ≡ tokens_of text.now }
    ensures value { IfOk result (λ list. list ≡ words_of text.now) }

    // So the names rise, and each has the union of the bits of the places where it stands.
    ensures in_order { IfOk result AreInOrder }
    ensures masks { IfOk result (λ list. HasMasksOf list (occurrences_of text.now)) }
{
    WordList::from_masks(masks_of(alloc, text, tokens)?)
}

/// The words of a text, each with the places where it stands.
#[tactic(auto, unfolding(crate::specs::Words::words_of))]
fn masks_of(alloc: Global, text: &Text, tokens: &[Token]) -> Result<Masks, AllocError>
    requires { tokens.now ≡ tokens_of text.now }
    ensures { IfOk result (λ masks. masks ≡ words_of text.now) }
{
    // Sources have about one word that wasn't met before in 32 characters.
    let mut masks = Masks::with_room(alloc, (text.len() as usize / 32).min(FIRST_ROOM))?;
    for token in tokens {
        add_token(&mut masks, text, token)?;
    }
    Ok(masks)
}

/// Adds the words of a token.
#[tactic(auto, unfolding(crate::specs::Words::occurrences_at))]
fn add_token(masks: &mut Masks, text: &Text, token: &Token) -> Result<(), AllocError>
    requires { token.now.at + token.now.len ≤ length text.now }
    ensures { OnOk result (masks.new
        ≡ fold with_occurrence masks.old (occurrences_at text.now token.now)) }
{
    if token.is(TokenKind::Word) {
        add_identifier(masks, &Piece::part(text, token.at(), token.len()))
    } else if token.is(TokenKind::LineComment) || token.is(TokenKind::BlockComment) {
        add_words(
            masks,
            &Piece::part(text, token.at(), token.len()),
            Context::Comment,
        )
    } else if token.is(TokenKind::Str) || token.is(TokenKind::TextBlock) {
        add_words(
            masks,
            &Piece::part(text, token.at(), token.len()),
            Context::String,
        )
    } else {
        Ok(())
    }
}

/// Adds a word of code that isn't reserved.
fn add_identifier(masks: &mut Masks, piece: &Piece) -> Result<(), AllocError>
    ensures { OnOk result
        (masks.new
        ≡ fold with_occurrence masks.old
        (if is_reserved piece.now then [] else marked Code (piece.now ∷ []))) }
{
    if is_reserved(piece) {
        Ok(())
    } else {
        masks.add(piece, 0, piece.len(), Context::Code)
    }
}

/// Adds the words in a comment or a string.
fn add_words(masks: &mut Masks, piece: &Piece, place: Context) -> Result<(), AllocError>
    ensures { OnOk result (masks.new
        ≡ fold with_occurrence masks.old (words_at place piece.now)) }
{
    let mut at = 0;
    loop {
        let start = run_start(piece, at, place);
        let end = run_end(piece, start, Class::Word);
        add_run(masks, piece, start, end, place)?;
        let Some(c) = piece.get(end) else {
            return Ok(());
        };
        at = end + gap_at(place, c);
    }
}

/// Where the first run of what may go on in a word begins, from a place on. What parts runs is passed by in one loop.
fn run_start(piece: &Piece, from: u32, place: Context) -> u32
    ensures same { words_at place (drop result piece.now) ≡ words_at place (drop from piece.now) }
    ensures forward { from ≤ result }
{
    let mut at = from;
    while let Some(c) = piece.get(at) {
        if continues_word(c) {
            break;
        }
        at += gap_at(place, c);
    }
    at
}

/// How many characters part a run from the next, `c` the first of them.
fn gap_at(place: Context, c: char) -> u32
    ensures value { result ≡ gap_at place c }
    ensures few { result ≤ 2 }
    ensures some { 1 ≤ result }
{
    match place {
        Context::String if c == '\\' => 2,
        _ => 1,
    }
}

/// Adds a longest run of what may go on in a word, if it begins as a word does.
fn add_run(
    masks: &mut Masks,
    piece: &Piece,
    at: u32,
    end: u32,
    place: Context,
) -> Result<(), AllocError>
    requires { end ≡ at + prefix_len continues_word (drop at piece.now) }
    ensures { OnOk result (let run = take (end - at) (drop at piece.now) in
        masks.new ≡ fold with_occurrence masks.old (marked place (words_among (run ∷ [])))) }
{
    if begins_word_at(piece, at) {
        masks.add(piece, at, end, place)
    } else {
        Ok(())
    }
}
