//! Laws of texts that callers rest on: functions that do nothing, whose contracts are the laws.
ghost use Rattle.std.specs.Prelude.{ℕ, ◌≡◌, ◌≤◌, ◌+◌, ◌++◌, List, length, take, drop, Ok, encode_utf8_all};
ghost use Rattle.ide_text.specs.Text.{IsText, max_chars, text_of};

/// A text with another put in is a text, where they are few enough together, and so is one with a part taken out.
pub fn edited_texts_are_texts()
    ensures with_piece { (at : ℕ) (piece : List ℕ) (text : List ℕ) → IsText piece → IsText text
        → at ≤ length text → length text + length piece ≤ max_chars
        → IsText (take at text ++ piece ++ drop at text) }
    ensures without_part { (from : ℕ) (to : ℕ) (text : List ℕ) → IsText text → from ≤ to
        → to ≤ length text → IsText (take from text ++ drop to text) }
{}

/// The bytes of a text's characters are read as that text.
pub fn texts_are_read_back()
    ensures { (text : List ℕ) → IsText text → text_of (encode_utf8_all text) ≡ Ok text }
{}
