//! Laws of the rows of a text: functions that do nothing, whose contracts are the laws. A text of the other kind has no row
//! of a kind of key.
ghost use Rattle.std.specs.Prelude.{◌≡◌, ℕ, List, [], filter, option_to_list};
ghost use Rattle.dumb_mode.specs.declared.kind.FileKind.TheVariants.{Java, Properties};
ghost use Rattle.java_tokens.specs.Words.{mask_in, words_of};
ghost use Rattle.decl_parser.specs.Listing.{listing_of};
ghost use Rattle.stub_index.specs.Named.{is_type_named, names_super, is_method_named};
ghost use Rattle.property_index.specs.Keys.{places_of_key};
ghost use Rattle.overlay_index.specs.Parts.{parts_of};
ghost use Rattle.overlay_index.specs.Found.{values_of};

use java_tokens::laws::words_are_in_order;
use property_index::laws::keys_are_found_by_their_characters;
use stub_index::laws::{
    methods_are_found_by_their_names, types_are_found_by_their_names,
    types_are_found_by_their_supers,
};

/// A name finds the types of the listing that have it, in their order.
pub fn a_name_finds_its_types()
    ensures java { (text name : List ℕ)
        → values_of name (parts_of Java text).types
        ≡ filter (is_type_named name) (listing_of text) }
    ensures properties { (text name : List ℕ)
        → values_of name (parts_of Properties text).types ≡ [] }
{
    types_are_found_by_their_names();
}

/// A name finds the types of the listing that name it as a super, in their order, each once.
pub fn a_name_finds_its_subtypes()
    ensures java { (text name : List ℕ)
        → values_of name (parts_of Java text).supers ≡ filter (names_super name) (listing_of text) }
    ensures properties { (text name : List ℕ)
        → values_of name (parts_of Properties text).supers ≡ [] }
{
    types_are_found_by_their_supers();
}

/// A name finds the methods of the listing that have it, in their order.
pub fn a_name_finds_its_methods()
    ensures java { (text name : List ℕ)
        → values_of name (parts_of Java text).methods
        ≡ filter (is_method_named name) (listing_of text) }
    ensures properties { (text name : List ℕ)
        → values_of name (parts_of Properties text).methods ≡ [] }
{
    methods_are_found_by_their_names();
}

/// A word finds its mask, if it is among the words of the text.
pub fn a_word_finds_its_mask()
    ensures java { (text name : List ℕ)
        → values_of name (parts_of Java text).words
        ≡ option_to_list (mask_in (words_of text) name) }
    ensures properties { (text name : List ℕ)
        → values_of name (parts_of Properties text).words ≡ [] }
{
    words_are_in_order();
}

/// A key finds the offsets at which it stands in the text, in their order.
pub fn a_key_finds_its_places()
    ensures properties { (text key : List ℕ)
        → values_of key (parts_of Properties text).keys ≡ places_of_key key text }
    ensures java { (text key : List ℕ) → values_of key (parts_of Java text).keys ≡ [] }
{
    keys_are_found_by_their_characters();
}
