//! The data that a text has, as bytes.
ghost use Rattle.std.specs.Prelude.{◌≡◌, ◌++◌, ◌<◌, ◌^◌, true, length, IfOk, OnOk};
ghost use Rattle.dumb_mode.specs.declared.kind.FileKind.TheVariants.{Java, Properties};
ghost use Rattle.byte_fields.specs.Spelling.{name, number};
ghost use Rattle.index_store.specs.Data.{data_of};
ghost use Rattle.index_store.specs.Lawful.{IsData, are_spelled, is_spelled};
ghost use Rattle.byte_fields.specs.Spelling.{counted};
ghost use Rattle.index_store.specs.Spelling.{data_bytes, key, word};

use byte_fields::{put_name, put_number};
use decl_parser::laws::names_are_identifiers;
use decl_parser::stubs;
use dumb_mode::FileKind;
use ide_text::{Name, Text};
use java_tokens::laws::identifiers_are_words;
use java_tokens::{tokens, words};
use property_index::laws::keys_stand_in_the_text;
use property_index::property_keys;
use std::alloc::{AllocError, Global};
use stub_codec::encode;

/// The bytes of the data that a text has, by the kind of a file with it. Linear in the text, but for the sorting of its
/// words.
pub(crate) fn spelled_data(
    alloc: Global,
    kind: FileKind,
    text: &Text,
) -> Result<Vec<u8>, AllocError>
    ensures spelled { IfOk result (λ bytes. bytes.items ≡ data_bytes kind (data_of kind text.now)) }
    ensures lawful { IfOk result (λ bytes. IsData kind (length text.now) (data_of kind text.now)) }
{
    match kind {
        FileKind::Java => java_data(alloc, text),
        FileKind::Properties => property_data(alloc, text),
    }
}

/// The bytes of the declarations and the words of a text. The words come first, since the declarations take the tokens.
#[tactic(auto, unfolding(crate::specs::Data::data_of, crate::specs::Spelling::data_bytes))]
fn java_data(alloc: Global, text: &Text) -> Result<Vec<u8>, AllocError>
    ensures spelled { IfOk result (λ bytes. bytes.items ≡ data_bytes Java (data_of Java text.now)) }
    ensures lawful { IfOk result (λ bytes. IsData Java (length text.now) (data_of Java text.now)) }
{
    identifiers_are_words();
    names_are_identifiers();
    let tokens = tokens(alloc, text)?;
    let words = words(alloc, text, &tokens)?;
    let listed = encode(alloc, &stubs(alloc, text, tokens)?)?;
    let mut out = Vec::new(alloc);
    put_count(&mut out, listed.len())?;
    out.extend_from_slice(&listed)?;
    put_words(&mut out, words.as_slice())?;
    Ok(out)
}

/// The bytes of the keys of a text.
#[tactic(auto, unfolding(crate::specs::Data::data_of, crate::specs::Spelling::data_bytes))]
fn property_data(alloc: Global, text: &Text) -> Result<Vec<u8>, AllocError>
    ensures spelled { IfOk result
        (λ bytes. bytes.items ≡ data_bytes Properties (data_of Properties text.now)) }
    ensures lawful { IfOk result
        (λ bytes. IsData Properties (length text.now) (data_of Properties text.now)) }
{
    keys_stand_in_the_text();
    let keys = property_keys(alloc, text)?;
    let mut out = Vec::new(alloc);
    put_keys(&mut out, &keys)?;
    Ok(out)
}

/// Puts words at the end, behind their number.
fn put_words(out: &mut Vec<u8>, words: &[(Name, u8)]) -> Result<(), AllocError>
    ensures written { OnOk result (out.new.items ≡ out.old.items ++ counted word words.now) }
    ensures few { OnOk result (length words.now < 2 ^ 32) }
    ensures named { OnOk result (are_spelled words.now ≡ true) }
{
    put_count(out, words.len())?;
    for (name, mask) in words {
        put_short_name(out, name)?;
        out.push(*mask)?;
    }
    Ok(())
}

/// Puts keys at the end, behind their number.
fn put_keys(out: &mut Vec<u8>, keys: &[(Name, u32)]) -> Result<(), AllocError>
    ensures written { OnOk result (out.new.items ≡ out.old.items ++ counted key keys.now) }
    ensures few { OnOk result (length keys.now < 2 ^ 32) }
    ensures named { OnOk result (are_spelled keys.now ≡ true) }
{
    put_count(out, keys.len())?;
    for (name, at) in keys {
        put_short_name(out, name)?;
        put_number(out, *at)?;
    }
    Ok(())
}

/// Puts a number of things at the end. One that four bytes can't spell is memory that isn't there.
fn put_count(out: &mut Vec<u8>, count: usize) -> Result<(), AllocError>
    ensures written { OnOk result (out.new.items ≡ out.old.items ++ number count) }
    ensures few { OnOk result (count < 2 ^ 32) }
{
    match u32::try_from(count) {
        Ok(count) => put_number(out, count),
        Err(_) => Err(AllocError),
    }
}

/// Puts a name at the end. One whose length four bytes can't spell is memory that isn't there.
pub(crate) fn put_short_name(out: &mut Vec<u8>, of: &Name) -> Result<(), AllocError>
    ensures written { OnOk result (out.new.items ≡ out.old.items ++ name of.now) }
    ensures named { OnOk result (is_spelled of.now ≡ true) }
{
    if of.as_str().len() > u32::MAX as usize {
        return Err(AllocError);
    }
    put_name(out, of)
}
