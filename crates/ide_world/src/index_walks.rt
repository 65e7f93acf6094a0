//! Walks over what a name finds, file by file in order of their ids: types, methods and words in Java files, keys in files of
//! properties. They take no memory. Of an unready file they find what its content had when it was indexed last.
ghost use Rattle.std.specs.Prelude.{◌≡◌, None};
ghost use Rattle.dumb_mode.specs.declared.kind.FileKind.TheVariants.{Java, Properties};
ghost use Rattle.write_history.specs.World.{lowest_unready};
ghost use Rattle.overlay_index.specs.Named.{is_type_named, names_super, is_method_named};
ghost use Rattle.overlay_index.specs.Found.{values_of};
ghost use Rattle.overlay_index.specs.Keys.{places_of_key};
ghost use Rattle.ide_world.specs.Found.{found, shown, kept_of, stubs_in, masks_in};

use crate::State;
use dumb_mode::laws::a_path_has_one_kind;
use ide_text::Name;
use overlay_index::laws::{
    a_key_finds_its_places, a_name_finds_its_methods, a_name_finds_its_subtypes,
    a_name_finds_its_types, a_word_finds_its_mask,
};
use overlay_index::{KeyWalk, StubWalk, WordWalk};

impl State {
    /// The types with a name.
    pub fn type_rows<'a>(&'a self, name: &'a Name) -> StubWalk<'a>
        ensures shown { result
            ≡ shown Java (λ id. values_of name.now (kept_of self.now id).types)
            (stubs_in (is_type_named name.now)) self.now.world }
        ensures ready { lowest_unready self.now.world ≡ None
            → result ≡ found Java (stubs_in (is_type_named name.now)) self.now.world }
    {
        a_path_has_one_kind();
        a_name_finds_its_types();
        self.layers.type_rows(name)
    }

    /// The types that name a type as a super, each once.
    pub fn super_rows<'a>(&'a self, name: &'a Name) -> StubWalk<'a>
        ensures shown { result
            ≡ shown Java (λ id. values_of name.now (kept_of self.now id).supers)
            (stubs_in (names_super name.now)) self.now.world }
        ensures ready { lowest_unready self.now.world ≡ None
            → result ≡ found Java (stubs_in (names_super name.now)) self.now.world }
    {
        a_path_has_one_kind();
        a_name_finds_its_subtypes();
        self.layers.super_rows(name)
    }

    /// The methods with a name.
    pub fn method_rows<'a>(&'a self, name: &'a Name) -> StubWalk<'a>
        ensures shown { result
            ≡ shown Java (λ id. values_of name.now (kept_of self.now id).methods)
            (stubs_in (is_method_named name.now)) self.now.world }
        ensures ready { lowest_unready self.now.world ≡ None
            → result ≡ found Java (stubs_in (is_method_named name.now)) self.now.world }
    {
        a_path_has_one_kind();
        a_name_finds_its_methods();
        self.layers.method_rows(name)
    }

    /// The files that have a word, each with the word's mask in it.
    pub fn word_rows<'a>(&'a self, name: &'a Name) -> WordWalk<'a>
        ensures shown { result
            ≡ shown Java (λ id. values_of name.now (kept_of self.now id).words)
            (masks_in name.now) self.now.world }
        ensures ready { lowest_unready self.now.world ≡ None
            → result ≡ found Java (masks_in name.now) self.now.world }
    {
        a_path_has_one_kind();
        a_word_finds_its_mask();
        self.layers.word_rows(name)
    }

    /// The offsets of a property key.
    pub fn key_rows<'a>(&'a self, name: &'a Name) -> KeyWalk<'a>
        ensures shown { result
            ≡ shown Properties (λ id. values_of name.now (kept_of self.now id).keys)
            (places_of_key name.now) self.now.world }
        ensures ready { lowest_unready self.now.world ≡ None
            → result ≡ found Properties (places_of_key name.now) self.now.world }
    {
        a_path_has_one_kind();
        a_key_finds_its_places();
        self.layers.key_rows(name)
    }
}
