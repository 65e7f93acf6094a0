//! Laws of words and places: functions that do nothing, whose contracts are the laws.
ghost use Rattle.std.specs.Prelude.{◌≡◌, ◌≢◌, List, ℕ, true, false, [], All, Contains};
ghost use Rattle.std.specs.List.{list_all};
ghost use Rattle.java_tokens.specs.Token.{Token};
ghost use Rattle.java_tokens.specs.Chars.{is_in_line};
ghost use Rattle.java_tokens.specs.Identifier.{is_word};
ghost use Rattle.java_tokens.specs.Places.{is_in_code, places_of};
ghost use Rattle.java_tokens.specs.Tokens.{characters_of, tokens_of, AreTokensFrom, IsInside};
ghost use Rattle.java_tokens.specs.Words.{is_identifier_token, mask_in, words_of, AreInOrder};

/// The bit of code in a word's mask is exact: a name stands as an identifier somewhere in a text exactly where the name
/// is among the text's words with that bit in its mask.
pub fn masks_tell_uses()
    ensures unused { (name text : List ℕ) → is_in_code (mask_in (words_of text) name) ≡ false
        → places_of name text ≡ [] }
    ensures used { (name text : List ℕ) → is_in_code (mask_in (words_of text) name) ≡ true
        → places_of name text ≢ [] }
{}

/// Each identifier among the tokens of a text is one whole word, and a name that stands in a text as an identifier is one.
/// No word has a line break.
pub fn identifiers_are_words()
    ensures token { (text : List ℕ) (token : Token) → Contains (tokens_of text) token
        → is_identifier_token text token ≡ true → is_word (characters_of text token) ≡ true }
    ensures place { (name text : List ℕ) → places_of name text ≢ [] → is_word name ≡ true }
    ensures in_line { (name : List ℕ) → is_word name ≡ true → list_all is_in_line name ≡ true }
{}

/// The tokens of a text follow one another through all of it, with white space alone between them, and each lies inside it.
pub fn tokens_cover_their_text()
    ensures follow { (text : List ℕ) → AreTokensFrom 0 text (tokens_of text) }
    ensures inside { (text : List ℕ) → All (IsInside text) (tokens_of text) }
{}

/// The words of a text are in order, each once.
pub fn words_are_in_order()
    ensures { (text : List ℕ) → AreInOrder (words_of text) }
{}
