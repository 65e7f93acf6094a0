//! Printing the rows of answers.
ghost use Rattle.std.specs.Prelude.{◌≡◌, ◌++◌, ℕ, List, OnOk, string_bytes};
ghost use Rattle.std.specs.List.{flat_map};
ghost use Rattle.transcripts.specs.Transcript.{word_line, mask_text, found_line, outline_line, usage_line, key_line, level_line, place_text, declared_text, indent, supers_text, super_text, kind_text};

use ide_text::Name;
use query_engine::{LevelRow, PlaceRow, Row, WordRow};
use std::alloc::AllocError;
use write_history::{push_named, push_numbered};

/// Adds the lines of declarations that a question found.
pub(crate) fn push_rows(out: &mut String, rows: &[Row]) -> Result<(), AllocError>
    ensures { OnOk result
        (string_bytes out.new ≡ string_bytes out.old ++ flat_map found_line rows.now) }
{
    for row in rows {
        push_row(out, row)?;
    }
    Ok(())
}

/// Adds the line of a declaration that a question found.
fn push_row(out: &mut String, row: &Row) -> Result<(), AllocError>
    ensures { OnOk result (string_bytes out.new ≡ string_bytes out.old ++ found_line row.now) }
{
    push_place(out, &row.path, row.line, row.column)?;
    push_declared(out, row)?;
    out.push_str("\n")
}

/// Adds the lines of places where a name stands.
pub(crate) fn push_usages(
    out: &mut String,
    name: &Name,
    rows: &[PlaceRow],
) -> Result<(), AllocError>
    ensures { OnOk result
        (string_bytes out.new ≡ string_bytes out.old ++ flat_map (usage_line name.now) rows.now) }
{
    for row in rows {
        push_usage(out, name, row)?;
    }
    Ok(())
}

/// Adds the line of a place where a name stands.
fn push_usage(out: &mut String, name: &Name, row: &PlaceRow) -> Result<(), AllocError>
    ensures { OnOk result
        (string_bytes out.new ≡ string_bytes out.old ++ usage_line name.now row.now) }
{
    push_place(out, &row.path, row.line, row.column)?;
    push_named(out, " usage ", name)?;
    out.push_str("\n")
}

/// Adds the lines of places where a property key stands.
pub(crate) fn push_keys(out: &mut String, rows: &[PlaceRow]) -> Result<(), AllocError>
    ensures { OnOk result
        (string_bytes out.new ≡ string_bytes out.old ++ flat_map key_line rows.now) }
{
    for row in rows {
        push_key(out, row)?;
    }
    Ok(())
}

/// Adds the line of a place where a property key stands.
fn push_key(out: &mut String, row: &PlaceRow) -> Result<(), AllocError>
    ensures { OnOk result (string_bytes out.new ≡ string_bytes out.old ++ key_line row.now) }
{
    push_place(out, &row.path, row.line, row.column)?;
    out.push_str(" property\n")
}

/// Adds the lines of types that come from a name.
pub(crate) fn push_levels(out: &mut String, rows: &[LevelRow]) -> Result<(), AllocError>
    ensures { OnOk result
        (string_bytes out.new ≡ string_bytes out.old ++ flat_map level_line rows.now) }
{
    for found in rows {
        push_level(out, found)?;
    }
    Ok(())
}

/// Adds the line of a type that comes from a name.
fn push_level(out: &mut String, found: &LevelRow) -> Result<(), AllocError>
    ensures { OnOk result (string_bytes out.new ≡ string_bytes out.old ++ level_line found.now) }
{
    let row = &found.row;
    push_place(out, &row.path, row.line, row.column)?;
    push_declared(out, row)?;
    push_numbered(out, " level ", found.level as u64)?;
    out.push_str("\n")
}

/// Adds the lines of files that have a word.
pub(crate) fn push_words(out: &mut String, rows: &[WordRow]) -> Result<(), AllocError>
    ensures { OnOk result
        (string_bytes out.new ≡ string_bytes out.old ++ flat_map word_line rows.now) }
{
    for row in rows {
        push_word(out, row)?;
    }
    Ok(())
}

/// Adds the line of a file that has a word.
fn push_word(out: &mut String, row: &WordRow) -> Result<(), AllocError>
    ensures { OnOk result (string_bytes out.new ≡ string_bytes out.old ++ word_line row.now) }
{
    push_named(out, "  ", &row.path)?;
    out.push_str(" ")?;
    out.push_str(places(row.mask))?;
    out.push_str("\n")
}

/// Adds the lines of a file's declarations.
pub(crate) fn push_outline(out: &mut String, rows: &[Row]) -> Result<(), AllocError>
    ensures { OnOk result
        (string_bytes out.new ≡ string_bytes out.old ++ flat_map outline_line rows.now) }
{
    for row in rows {
        push_declaration(out, row)?;
    }
    Ok(())
}

/// Adds the line of a declaration.
fn push_declaration(out: &mut String, row: &Row) -> Result<(), AllocError>
    ensures { OnOk result (string_bytes out.new ≡ string_bytes out.old ++ outline_line row.now) }
{
    push_indent(out, row.depth)?;
    push_place(out, &row.path, row.line, row.column)?;
    push_declared(out, row)?;
    push_supers(out, row.supers.as_slice())?;
    out.push_str("\n")?;
    Ok(())
}

/// Adds a place in a file.
fn push_place(out: &mut String, path: &Name, line: u32, column: u32) -> Result<(), AllocError>
    ensures { OnOk result
        (string_bytes out.new ≡ string_bytes out.old ++ place_text path.now line column) }
{
    push_named(out, "  ", path)?;
    push_numbered(out, ":", line as u64)?;
    push_numbered(out, ":", column as u64)
}

/// Adds the kind and the name of a declaration.
fn push_declared(out: &mut String, row: &Row) -> Result<(), AllocError>
    ensures { OnOk result (string_bytes out.new ≡ string_bytes out.old ++ declared_text row.now) }
{
    out.push_str(" ")?;
    out.push_str(kind_name(row.kind))?;
    push_named(out, " ", &row.name)
}

/// Adds two spaces for each depth.
fn push_indent(out: &mut String, depth: u8) -> Result<(), AllocError>
    ensures { OnOk result (string_bytes out.new ≡ string_bytes out.old ++ indent depth) }
{
    for _level in 0..depth {
        out.push_str("  ")?;
    }
    Ok(())
}

/// Adds the supers of a type after a colon, where there are any.
fn push_supers(out: &mut String, supers: &[Name]) -> Result<(), AllocError>
    ensures { OnOk result (string_bytes out.new ≡ string_bytes out.old ++ supers_text supers.now) }
{
    if supers.is_empty() {
        return Ok(());
    }
    out.push_str(" :")?;
    push_names(out, supers)
}

/// Adds names, each after a space.
fn push_names(out: &mut String, names: &[Name]) -> Result<(), AllocError>
    ensures { OnOk result
        (string_bytes out.new ≡ string_bytes out.old ++ flat_map super_text names.now) }
{
    for name in names {
        push_name(out, name)?;
    }
    Ok(())
}

/// Adds a name after a space.
fn push_name(out: &mut String, name: &Name) -> Result<(), AllocError>
    ensures { OnOk result (string_bytes out.new ≡ string_bytes out.old ++ super_text name.now) }
{
    push_named(out, " ", name)
}

/// The word for a kind of declaration.
fn kind_name(kind: u8) -> &'static str
    ensures { result.now ≡ kind_text kind }
{
    match kind {
        1 => "class",
        2 => "interface",
        3 => "enum",
        4 => "record",
        5 => "annotation",
        6 => "method",
        7 => "constructor",
        8 => "field",
        _ => "constant",
    }
}

/// The places of a mask, as the transcript names them.
fn places(mask: u8) -> &'static str
    ensures { result.now ≡ mask_text mask }
{
    match (mask & 1 != 0, mask & 2 != 0, mask & 4 != 0) {
        (false, false, false) => "",
        (true, false, false) => "code",
        (false, true, false) => "comment",
        (true, true, false) => "code+comment",
        (false, false, true) => "string",
        (true, false, true) => "code+string",
        (false, true, true) => "comment+string",
        (true, true, true) => "code+comment+string",
    }
}
