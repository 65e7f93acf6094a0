//! Cutting a transcript into blocks, and the laws of it: functions that do nothing, whose contracts are the laws.
ghost use Rattle.std.specs.Prelude.{◌≡◌, ◌^◌, ◌<◌, ℕ, List, [], ◌∷◌, IfOk, All, length, take};
ghost use Rattle.std.specs.List.{concat};
ghost use Rattle.write_history.specs.declared.change.Change.TheVariants.{Intake};
ghost use Rattle.write_history.specs.declared.entry.Entry.{Entry};
ghost use Rattle.write_history.specs.Print.{entry_line};
ghost use Rattle.script_lang.specs.Parts.{Parts};
ghost use Rattle.transcripts.specs.Worked.{Worked};
ghost use Rattle.transcripts.specs.declared.loaded.Loaded.{Loaded};
ghost use Rattle.transcripts.specs.Serial.{RunEnd};
ghost use Rattle.transcripts.specs.Fits.{RunFits};
ghost use Rattle.transcripts.specs.Transcript.{transcript_of};
ghost use Rattle.transcript_check.specs.Blocks.{blocks_of, ends_block, first_len, IsBlock};
ghost use Rattle.transcript_check.specs.Reading.{file_in, seat_in};
ghost use Rattle.transcript_check.specs.Texts.{texts_of};

use crate::block::Block;
use decl_parser::laws::{names_are_identifiers, supers_are_identifiers};
use java_tokens::laws::identifiers_are_words;
use std::alloc::{AllocError, Global};

/// The blocks of some bytes, as parts of them: each is a line with the lines behind it that begin with a space. Joined they
/// are the bytes: where these begin with a space, so does the first block, and where no line break ends them, none ends the
/// last. The cost is linear in the bytes.
pub(crate) fn cut(alloc: Global, bytes: &[u8]) -> Result<Vec<Block<'_>>, AllocError>
    ensures { IfOk result (λ parts. parts.items ≡ blocks_of bytes.now) }
{
    let mut parts = Vec::new(alloc);
    let mut left = bytes;
    while !left.is_empty() {
        let (block, later) = left.split_at(first_len(left));
        parts.push(Block { bytes: block })?;
        left = later;
    }
    Ok(parts)
}

/// How many bytes stand before the block with this number, counted from 0: where it begins, or all bytes where there are no
/// so many. It goes over the bytes up to there, and takes a step for each number.
pub fn offset_of(bytes: &[u8], block: usize) -> usize
    ensures { result ≡ length (concat (take block (blocks_of bytes.now))) }
{
    let mut left = bytes;
    for _number in 0..block {
        let (_, later) = left.split_at(first_len(left));
        left = later;
    }
    bytes.len() - left.len()
}

/// How many bytes the first block has.
fn first_len(bytes: &[u8]) -> usize
    ensures { result ≡ first_len bytes.now }
{
    let mut len = 0;
    let mut left = bytes;
    while let Some((byte, later)) = left.split_first() {
        len += 1;
        if ends_block(*byte, later) {
            return len;
        }
        left = later;
    }
    len
}

/// Whether a block ends behind a byte that these follow.
fn ends_block(byte: u8, bytes: &[u8]) -> bool
    ensures { result ≡ ends_block byte bytes.now }
{
    byte == b'\n' && bytes.first() != Some(&b' ')
}

/// The blocks of some bytes, joined, are the bytes.
pub fn blocks_join()
    ensures { (bytes : List ℕ) → concat (blocks_of bytes) ≡ bytes }
{}

/// Texts of which each is one block, joined, are cut into these texts.
pub fn texts_are_cut()
    ensures { (texts : List (List ℕ)) → All IsBlock texts → blocks_of (concat texts) ≡ texts }
{}

/// A transcript is its texts, joined: the line of the history, then one for each entry, then one for each record. Of a run
/// that fits each is one block, whatever its loads read, and the transcript is cut into them.
pub fn transcripts_are_cut()
    ensures joined { (ended : RunEnd) → concat (texts_of ended) ≡ transcript_of ended }
    ensures blocks { (loads : List Loaded) (script : Parts) (told : List Worked) (ended : RunEnd)
        → RunFits loads script told ended → All IsBlock (texts_of ended) }
    ensures cut { (loads : List Loaded) (script : Parts) (told : List Worked) (ended : RunEnd)
        → RunFits loads script told ended → blocks_of (transcript_of ended) ≡ texts_of ended }
{
    names_are_identifiers();
    supers_are_identifiers();
    identifiers_are_words();
}

/// The seat that is read from an entry's text is the entry's, and the file that is read from that of an intake the one that
/// it takes in.
pub fn what_was_printed_is_read()
    ensures seat { (position : ℕ) (entry : Entry) → entry.seat < 2 ^ 64
        → seat_in (entry_line position entry) ≡ entry.seat }
    ensures file { (position : ℕ) (seat : ℕ) (line : ℕ) (file : ℕ) (stamp : ℕ) → file < 2 ^ 64
        → file_in
        (entry_line position
        (record { seat = seat; line = line; changes = Intake file stamp ∷ [] }))
        ≡ file }
{}
