//! Calls on documents that look first whether they may be made, and say whether they were.
use document_buf::{Doc, Docs};
use ide_text::{MAX_CHARS, SharedText, Text};
use std::alloc::{AllocError, Global};

/// Opens a document with this content where none is open.
pub fn open(docs: &mut Docs, alloc: Global, id: u32, content: Text) -> Result<bool, AllocError> {
    if id == 0 {
        return Ok(false);
    }
    docs.reserve(id, 0)?;
    let doc = Doc::open(alloc, &SharedText::new(alloc, content)?, 0)?;
    if docs.get(id).is_some() {
        return Ok(false);
    }
    docs.open_doc(id, doc);
    Ok(true)
}

/// Puts a piece in before an offset.
pub fn put(docs: &mut Docs, id: u32, at: u32, piece: &Text) -> Result<bool, AllocError> {
    if id == 0 {
        return Ok(false);
    }
    docs.reserve(id, piece.len())?;
    match docs.get(id) {
        Some(doc) if at <= doc.len() && doc.len() + piece.len() <= MAX_CHARS as u32 => {}
        _ => return Ok(false),
    }
    docs.insert(id, at, piece);
    Ok(true)
}

/// Takes out what stands from one offset up to another.
pub fn cut(docs: &mut Docs, id: u32, from: u32, to: u32) -> bool {
    match docs.get(id) {
        Some(doc) if from <= to && to <= doc.len() => {}
        _ => return false,
    }
    docs.erase(id, from, to);
    true
}

/// Commits the text.
pub fn commit(docs: &mut Docs, alloc: Global, id: u32) -> Result<bool, AllocError> {
    let text = match docs.get(id) {
        Some(doc) => SharedText::new(alloc, doc.text()?)?,
        None => return Ok(false),
    };
    docs.commit(id, text);
    Ok(true)
}

/// Notes that the file has the text.
pub fn save(docs: &mut Docs, id: u32) -> bool {
    let is_open = docs.get(id).is_some();
    if is_open {
        docs.mark_saved(id);
    }
    is_open
}

/// Gives the document another text.
pub fn replace(docs: &mut Docs, alloc: Global, id: u32, text: Text) -> Result<bool, AllocError> {
    let doc = Doc::open(alloc, &SharedText::new(alloc, text)?, 0)?;
    let is_open = docs.get(id).is_some();
    if is_open {
        docs.replace_text(id, doc);
    }
    Ok(is_open)
}

/// Closes the document.
pub fn close(docs: &mut Docs, id: u32) -> bool {
    let is_open = docs.get(id).is_some();
    if is_open {
        docs.close_doc(id);
    }
    is_open
}
