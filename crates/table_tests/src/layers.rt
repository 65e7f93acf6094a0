//! Calls on layers over small texts, and what a name finds.
//!
//! `java FILE TEXT` and `properties FILE TEXT` give a file a base by a text of that kind, `java-over` and `properties-over` an overlay;
//! `to-base FILE` lets its overlay be its base, `drop FILE` takes it out, and `copy` lets a copy take the place of all. `finds NAME`
//! tells what the name finds: by a letter the walk (types, supers, methods, words, keys), the file, and an offset or a mask.
use crate::marks::{kind_of, number_of, text_of, word_of};
use crate::tell::{Tell, tell_all};
use ide_text::Name;
use overlay_index::{FileData, Layers, data_of};
use std::alloc::{AllocError, Global};

/// Does the lines from empty layers on.
pub fn play(alloc: Global, lines: &str, out: &mut String) -> Result<(), AllocError> {
    let mut layers = Layers::new(alloc);
    tell_all(alloc, &mut layers, lines, out)
}

impl Tell for Layers {
    fn tell(&mut self, alloc: Global, line: &str, out: &mut String) -> Result<(), AllocError> {
        match word_of(line) {
            ("finds", name) => find(self, &Name::of(alloc, name)?, out),
            ("copy", _) => copy(self),
            (word, rest) => change(alloc, self, word, rest),
        }
    }
}

/// Lets a copy take the place of layers.
fn copy(layers: &mut Layers) -> Result<(), AllocError> {
    *layers = layers.copy()?;
    Ok(())
}

/// Makes a change of one file.
fn change(alloc: Global, layers: &mut Layers, word: &str, rest: &str) -> Result<(), AllocError> {
    let (file, text) = word_of(rest);
    let file = number_of(file);
    match word {
        "to-base" | "drop" => {
            take_away(layers, word, file);
            Ok(())
        }
        _ => put(layers, word, file, data(alloc, word, text)?),
    }
}

/// The rows of a text, by the kind with which a word begins.
fn data(alloc: Global, word: &str, text: &str) -> Result<FileData, AllocError> {
    data_of(alloc, kind_of(word), &text_of(alloc, text)?)
}

/// Gives a file rows: as its overlay, where a word says so, else as its base.
fn put(layers: &mut Layers, word: &str, file: u32, data: FileData) -> Result<(), AllocError> {
    layers.reserve(file, &data)?;
    let gone = if word.ends_with("over") {
        layers.set_overlay(file, data)
    } else {
        layers.set_base(file, data)
    };
    layers.sweep(file, &gone);
    Ok(())
}

/// Lets a file's overlay be its base, or takes it out.
fn take_away(layers: &mut Layers, word: &str, file: u32) {
    let gone = match word {
        "to-base" => layers.overlay_to_base(file),
        _ => layers.drop_file(file),
    };
    layers.sweep(file, &gone);
}

/// Tells the files and offsets, or files and masks, that a name finds: as a type, by a super, as a method, as a word and as a key.
fn find(layers: &Layers, name: &Name, out: &mut String) -> Result<(), AllocError> {
    for (file, stub) in layers.type_rows(name) {
        push_row(out, "t", file, stub.at)?;
    }
    for (file, stub) in layers.super_rows(name) {
        push_row(out, "s", file, stub.at)?;
    }
    for (file, stub) in layers.method_rows(name) {
        push_row(out, "m", file, stub.at)?;
    }
    for (file, mask) in layers.word_rows(name) {
        push_row(out, "w", file, u32::from(mask))?;
    }
    for (file, at) in layers.key_rows(name) {
        push_row(out, "k", file, at)?;
    }
    Ok(())
}

/// Adds what a walk gives: its mark, the file, and an offset or a mask.
fn push_row(out: &mut String, kind: &str, file: u32, value: u32) -> Result<(), AllocError> {
    write!(out, " {kind}{file}:{value}")
}
