//! The rows of one text.
ghost use Rattle.std.specs.Prelude.{◌≡◌, IfOk};
ghost use Rattle.dumb_mode.specs.declared.kind.FileKind.TheVariants.{Java, Properties};
ghost use Rattle.overlay_index.specs.Parts.{java_parts, no_parts, parts_of};

use crate::word_masks::{WordMasks, rows_of_words};
use decl_parser::stubs;
use dumb_mode::FileKind;
use file_index::{Indexer, KeyRows, copy_rows};
use ide_text::{Name, Text};
use java_tokens::{tokens, words};
use property_index::PropertyKeys;
use std::alloc::{AllocError, Global};
use std::marker::Model;
use stub_index::{MethodNames, SharedStub, SharedStubs, SuperNames, TypeNames};

/// The rows of a text, by the kind of its file: of a Java text its types under their names and under their supers, its
/// methods, and its words; of properties the keys, each with its offset.
///
/// A stub that several rows find is there once.
#[derive(Drop)]
pub struct FileData {
    pub(crate) types: KeyRows<Name, SharedStub>,
    pub(crate) supers: KeyRows<Name, SharedStub>,
    pub(crate) methods: KeyRows<Name, SharedStub>,
    pub(crate) words: KeyRows<Name, u8>,
    pub(crate) keys: KeyRows<Name, u32>,
}

impl Model for FileData {
    ghost use Rattle.overlay_index.specs.Parts.{Parts};

    ghost Value = { Parts };

    ghost view = { λ d. record { types = d.types; supers = d.supers; methods = d.methods; words = d.words; keys = d.keys } };
}

impl FileData {
    /// No rows. It takes no memory.
    pub fn new(alloc: Global) -> FileData
        ensures { result ≡ no_parts }
    {
        FileData {
            types: KeyRows::new(alloc),
            supers: KeyRows::new(alloc),
            methods: KeyRows::new(alloc),
            words: KeyRows::new(alloc),
            keys: KeyRows::new(alloc),
        }
    }

    /// The same rows once more.
    pub fn copy(&self, alloc: Global) -> Result<FileData, AllocError>
        ensures { IfOk result (λ copy. copy ≡ self.now) }
    {
        Ok(FileData {
            types: copy_rows(alloc, &TypeNames, &self.types)?,
            supers: copy_rows(alloc, &SuperNames, &self.supers)?,
            methods: copy_rows(alloc, &MethodNames, &self.methods)?,
            words: copy_rows(alloc, &WordMasks, &self.words)?,
            keys: copy_rows(alloc, &PropertyKeys, &self.keys)?,
        })
    }
}

/// The rows of a text of a file of this kind. Linear in the text, but for the sorting of its rows.
pub fn data_of(alloc: Global, kind: FileKind, text: &Text) -> Result<FileData, AllocError>
    ensures { IfOk result (λ made. made ≡ parts_of kind text.now) }
{
    match kind {
        FileKind::Java => java_data(alloc, text),
        FileKind::Properties => property_data(alloc, text),
    }
}

/// The rows of a text of properties.
fn property_data(alloc: Global, text: &Text) -> Result<FileData, AllocError>
    ensures { IfOk result (λ made. made ≡ parts_of Properties text.now) }
{
    let keys = PropertyKeys.rows(alloc, text)?;
    Ok(FileData {
        types: KeyRows::new(alloc),
        supers: KeyRows::new(alloc),
        methods: KeyRows::new(alloc),
        words: KeyRows::new(alloc),
        keys,
    })
}

/// The rows of a Java text. Its words come first, since its declarations take the tokens.
#[tactic(auto, unfolding(crate::specs::Parts::parts_of))]
fn java_data(alloc: Global, text: &Text) -> Result<FileData, AllocError>
    ensures { IfOk result (λ made. made ≡ parts_of Java text.now) }
{
    let tokens = tokens(alloc, text)?;
    let words = rows_of_words(words(alloc, text, &tokens)?);
    let stubs = SharedStubs::of(alloc, stubs(alloc, text, tokens)?)?;
    rows_of(alloc, &stubs, words)
}

/// The rows of a Java text that lists these stubs and has these words.
fn rows_of(
    alloc: Global,
    stubs: &SharedStubs,
    words: KeyRows<Name, u8>,
) -> Result<FileData, AllocError>
    ensures { IfOk result (λ made. made ≡ java_parts stubs.now words) }
{
    Ok(FileData {
        types: TypeNames.rows(alloc, stubs)?,
        supers: SuperNames.rows(alloc, stubs)?,
        methods: MethodNames.rows(alloc, stubs)?,
        words,
        keys: KeyRows::new(alloc),
    })
}
