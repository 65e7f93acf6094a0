//! The keys of texts of properties: each line is a text, of which its keys are told, each behind its offset.
use crate::marks::{push_marked, text_of};
use property_index::property_keys;
use std::alloc::{AllocError, Global};

/// Tells keys.
pub fn tell(alloc: Global, line: &str, out: &mut String) -> Result<(), AllocError> {
    let keys = property_keys(alloc, &text_of(alloc, line)?)?;
    for (key, at) in keys.iter() {
        write!(out, " {at} ")?;
        push_marked(out, key.as_str())?;
        out.push(';')?;
    }
    Ok(())
}
