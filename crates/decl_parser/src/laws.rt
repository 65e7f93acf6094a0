//! Laws of the listing: functions that do nothing, whose contracts are the laws.
ghost use Rattle.std.specs.Prelude.{◌≡◌, ◌≤◌, ◌<◌, ℕ, List, All, false, not, filter, length};
ghost use Rattle.std.specs.List.{AllPairs};
ghost use Rattle.ide_text.specs.Text.{max_chars};
ghost use Rattle.java_tokens.specs.Token.{Token};
ghost use Rattle.java_tokens.specs.Tokens.{tokens_of};
ghost use Rattle.java_tokens.specs.Words.{is_comment};
ghost use Rattle.stub_tree.specs.Lawful.{IsLawfulList};
ghost use Rattle.stub_tree.specs.Stub.{is_type};
ghost use Rattle.decl_parser.specs.Forest.{forest_of};
ghost use Rattle.decl_parser.specs.Listing.{listing_of, IsIdentifierOf, IsNamedIn};
ghost use Rattle.decl_parser.specs.Rule.{DeclaresNoType};
ghost use Rattle.decl_parser.specs.Unit.{units_of};

use java_tokens::laws::tokens_cover_their_text;

/// The listing of a text is a lawful list: its offsets rise, and each depth is at most one more than the one before
/// it, and more only behind a type.
pub fn listings_are_lawful()
    ensures { (text : List ℕ) → length text ≤ max_chars → IsLawfulList (listing_of text) }
{
    tokens_cover_their_text();
}

/// The offsets of a listing rise, however long the text is.
pub fn offsets_rise()
    ensures { (text : List ℕ) → AllPairs (λ a b. a.at < b.at) (listing_of text) }
{
    tokens_cover_their_text();
}

/// Each declaration of a listing is named by an identifier of the text, which stands at its offset.
pub fn names_are_identifiers()
    ensures { (text : List ℕ) → All (IsNamedIn text) (listing_of text) }
{
    tokens_cover_their_text();
}

/// Each super of a declaration of a listing is an identifier of the text.
pub fn supers_are_identifiers()
    ensures { (text : List ℕ) → All (λ s. All (IsIdentifierOf text) s.supers) (listing_of text) }
{
    tokens_cover_their_text();
}

/// Comments count for nothing: the forest of groups, from which the listing is made, is that of the other tokens.
pub fn comments_count_for_nothing()
    ensures { (text : List ℕ) (tokens : List Token)
        → forest_of text (filter (λ t. not (is_comment t)) tokens) ≡ forest_of text tokens }
{}

/// Where no unit at the top of a text is one of the words that may declare a type, the text lists no type, at any depth.
pub fn types_are_declared_by_their_words()
    ensures { (text : List ℕ)
        → All (λ u. DeclaresNoType u.node) (units_of (forest_of text (tokens_of text)))
        → All (λ s. is_type s ≡ false) (listing_of text) }
{}
