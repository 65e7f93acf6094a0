//! Texts that are changed in one place.
use std::alloc::{AllocError, Global};

/// Each form of a text with one change: a digit is another, a zero stands before a number, a line is left out, stands twice,
/// or changes places with the next one where that is another; the last byte is missing; and nothing at all.
pub fn changed(alloc: Global, text: &str) -> Result<Vec<Vec<u8>>, AllocError> {
    let mut forms = Vec::new(alloc);
    push_numbers(alloc, text.as_bytes(), &mut forms)?;
    push_lines(alloc, &lines_of(alloc, text)?, &mut forms)?;
    if let Some((_, front)) = text.as_bytes().split_last() {
        forms.push(Vec::from_slice(alloc, front)?)?;
    }
    forms.push(Vec::new(alloc))?;
    Ok(forms)
}

/// The lines of a text, without their ends.
pub fn lines_of(alloc: Global, text: &str) -> Result<Vec<&str>, AllocError> {
    let mut lines = Vec::new(alloc);
    for line in text.lines() {
        lines.push(line)?;
    }
    Ok(lines)
}

/// Adds each form with another digit, or with a zero before a number.
fn push_numbers(alloc: Global, text: &[u8], forms: &mut Vec<Vec<u8>>) -> Result<(), AllocError> {
    let mut is_in_number = false;
    for place in 0..text.len() {
        let (front, back) = text.split_at(place);
        let is_digit = text[place].is_ascii_digit();
        if is_digit {
            push_digits(alloc, front, back, forms)?;
        }
        if is_digit && !is_in_number {
            forms.push(joined(alloc, front, b"0", back)?)?;
        }
        is_in_number = is_digit;
    }
    Ok(())
}

/// Adds each form with another digit at the begin of the back of a text.
fn push_digits(
    alloc: Global,
    front: &[u8],
    back: &[u8],
    forms: &mut Vec<Vec<u8>>,
) -> Result<(), AllocError> {
    let Some((own, later)) = back.split_first() else {
        return Ok(());
    };
    for digit in b"0123456789" {
        if digit != own {
            forms.push(joined(alloc, front, &[*digit], later)?)?;
        }
    }
    Ok(())
}

/// Three pieces, one behind the other.
pub fn joined(
    alloc: Global,
    front: &[u8],
    middle: &[u8],
    back: &[u8],
) -> Result<Vec<u8>, AllocError> {
    let mut out = Vec::from_slice(alloc, front)?;
    out.extend_from_slice(middle)?;
    out.extend_from_slice(back)?;
    Ok(out)
}

/// Adds each form with a line left out, twice, or in the place of the next one.
fn push_lines(alloc: Global, lines: &[&str], forms: &mut Vec<Vec<u8>>) -> Result<(), AllocError> {
    for place in 0..lines.len() {
        let (front, back) = lines.split_at(place);
        push_line_forms(alloc, front, back, forms)?;
    }
    Ok(())
}

/// Adds the forms with the first line of the back left out, twice, or in the place of the next one where that is another.
pub fn push_line_forms(
    alloc: Global,
    front: &[&str],
    back: &[&str],
    forms: &mut Vec<Vec<u8>>,
) -> Result<(), AllocError> {
    let Some((line, later)) = back.split_first() else {
        return Ok(());
    };
    forms.push(of_lines(alloc, front, &[], later)?)?;
    forms.push(of_lines(alloc, front, &[*line], back)?)?;
    if let Some((next, others)) = later.split_first() {
        if *next != *line {
            forms.push(of_lines(alloc, front, &[*next, *line], others)?)?;
        }
    }
    Ok(())
}

/// Three lists of lines, one behind the other, each line with its end.
fn of_lines(
    alloc: Global,
    front: &[&str],
    middle: &[&str],
    back: &[&str],
) -> Result<Vec<u8>, AllocError> {
    let mut out = Vec::new(alloc);
    add_lines(&mut out, front)?;
    add_lines(&mut out, middle)?;
    add_lines(&mut out, back)?;
    Ok(out)
}

/// Adds lines with their ends.
pub fn add_lines(out: &mut Vec<u8>, lines: &[&str]) -> Result<(), AllocError> {
    for line in lines {
        out.extend_from_slice(line.as_bytes())?;
        out.push(b'\n')?;
    }
    Ok(())
}
