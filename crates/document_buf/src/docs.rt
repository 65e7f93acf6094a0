//! The documents of open files, by the ids of the files.
ghost use Rattle.std.specs.Prelude.{◌≡◌, ℕ, ◌≤◌, ◌<◌, ◌+◌, ◌-◌, Some, None, IsSome, IfSome, IfOk, OnOk, option_map, option_copied, length};
ghost use Rattle.ide_text.specs.Text.{max_chars};
ghost use Rattle.document_buf.specs.Document.{inserted, erased, committed, marked_saved, replaced};
ghost use Rattle.document_buf.specs.DocsView.{doc_at, document_of, room_of, open_of, HasPlace, KeepsRoom, KeepsRoomBut, Becomes, SameDocuments};

use crate::Doc;
use ide_text::{SharedText, Text};
use std::alloc::{AllocError, Global};
use std::marker::Model;

/// The documents that are open. A place that was made for an id stays, so that a document may be opened there again
/// without memory.
#[derive(Drop)]
pub struct Docs {
    docs: Vec<Option<Doc>>,
    open_docs: u32,
}

impl Model for Docs {
    ghost use Rattle.document_buf.specs.DocsView.{DocsView};

    ghost Value = { DocsView };

    ghost use Rattle.document_buf.specs.Places.{held_of, IsHeld};

    ghost view = { held_of };

    ghost invariant = { IsHeld };
}

impl Docs {
    /// No documents.
    pub fn new(alloc: Global) -> Docs
        ensures documents { (id : ℕ) → document_of result id ≡ None }
        ensures count { open_of result ≡ 0 }
    {
        Docs {
            docs: Vec::new(alloc),
            open_docs: 0,
        }
    }

    /// The document of a file, where it is open. Constant time.
    pub fn get(&self, id: u32) -> Option<&Doc>
        ensures { option_copied result ≡ doc_at self.now id }
    {
        match self.docs.get(id as usize) {
            Some(Some(doc)) => Some(doc),
            _ => None,
        }
    }

    /// How many documents are open. Constant time.
    pub fn open_count(&self) -> u32
        ensures { result ≡ open_of self.now }
    {
        self.open_docs
    }

    /// Makes a place for a file's document, and, where it is open, room for a number of characters more.
    pub fn reserve(&mut self, id: u32, count: u32) -> Result<(), AllocError>
        requires { 0 < id }
        ensures same { SameDocuments self.old self.new }
        ensures count { open_of self.new ≡ open_of self.old }
        ensures keeps { KeepsRoom self.old self.new }
        ensures place { OnOk result (HasPlace self.new id) }
        ensures room { OnOk result
            (IsSome (document_of self.old id) → count ≤ room_of self.new id) }
    {
        self.make_place(id)?;
        match &mut self.docs[id as usize] {
            Some(doc) => doc.reserve(count),
            None => Ok(()),
        }
    }

    /// Makes a place for a file's document.
    fn make_place(&mut self, id: u32) -> Result<(), AllocError>
        requires { 0 < id }
        ensures same { SameDocuments self.old self.new }
        ensures count { open_of self.new ≡ open_of self.old }
        ensures keeps { KeepsRoom self.old self.new }
        ensures place { OnOk result (HasPlace self.new id) }
    {
        for _ in self.docs.len()..id as usize + 1 {
            self.docs.push(None)?;
        }
        Ok(())
    }

    /// Opens a document of a file that has none. Constant time.
    pub fn open_doc(&mut self, id: u32, doc: Doc)
        requires place { HasPlace self.old id }
        requires closed { document_of self.old id ≡ None }
        ensures documents { Becomes self.old self.new id (Some doc.document) }
        ensures room { room_of self.new id ≡ doc.spare }
        ensures keeps { KeepsRoomBut self.old self.new id }
        ensures count { open_of self.new ≡ open_of self.old + 1 }
    {
        self.docs[id as usize] = Some(doc);
        self.open_docs += 1;
    }

    /// Puts a piece into the text of an open document, before an offset. It costs the piece and the way from the last
    /// edit.
    pub fn insert(&mut self, id: u32, at: u32, piece: &Text)
        requires is_open { IsSome (document_of self.old id) }
        requires inside { IfSome (document_of self.old id) (λ document. at ≤ length document.text) }
        requires fits { IfSome (document_of self.old id)
            (λ document. length document.text + length piece.now ≤ max_chars) }
        requires room { length piece.now ≤ room_of self.old id }
        ensures documents { Becomes self.old self.new id
            (option_map (inserted at piece.now) (document_of self.old id)) }
        ensures room { room_of self.new id + length piece.now ≡ room_of self.old id }
        ensures keeps { KeepsRoomBut self.old self.new id }
        ensures count { open_of self.new ≡ open_of self.old }
    {
        match &mut self.docs[id as usize] {
            Some(doc) => doc.insert(at, piece),
            None => unreachable!(),
        }
    }

    /// Takes the characters from one offset up to another out of the text of an open document. It costs the way from
    /// the last edit.
    pub fn erase(&mut self, id: u32, from: u32, to: u32)
        requires is_open { IsSome (document_of self.old id) }
        requires ordered { from ≤ to }
        requires inside { IfSome (document_of self.old id) (λ document. to ≤ length document.text) }
        ensures documents { Becomes self.old self.new id
            (option_map (erased from to) (document_of self.old id)) }
        ensures room { room_of self.new id ≡ room_of self.old id + (to - from) }
        ensures keeps { KeepsRoom self.old self.new }
        ensures count { open_of self.new ≡ open_of self.old }
    {
        match &mut self.docs[id as usize] {
            Some(doc) => doc.erase(from, to),
            None => unreachable!(),
        }
    }

    /// Takes the text of an open document, given with the document's own characters, as its committed text. Constant
    /// time.
    pub fn commit(&mut self, id: u32, text: SharedText)
        requires { option_map (λ document. document.text) (document_of self.old id) ≡ Some text }
        ensures documents { Becomes self.old self.new id
            (option_map committed (document_of self.old id)) }
        ensures keeps { KeepsRoom self.old self.new }
        ensures count { open_of self.new ≡ open_of self.old }
    {
        match &mut self.docs[id as usize] {
            Some(doc) => doc.commit(text),
            None => unreachable!(),
        }
    }

    /// Notes that the file has the text of its open document. Constant time.
    pub fn mark_saved(&mut self, id: u32)
        requires { IsSome (document_of self.old id) }
        ensures documents { Becomes self.old self.new id
            (option_map marked_saved (document_of self.old id)) }
        ensures keeps { KeepsRoom self.old self.new }
        ensures count { open_of self.new ≡ open_of self.old }
    {
        match &mut self.docs[id as usize] {
            Some(doc) => doc.mark_saved(),
            None => unreachable!(),
        }
    }

    /// Gives an open document the text and the buffer of another, as text that its file has; the committed text stays.
    /// Constant time.
    pub fn replace_text(&mut self, id: u32, other: Doc)
        requires { IsSome (document_of self.old id) }
        ensures documents { Becomes self.old self.new id
            (option_map (replaced other.document.text) (document_of self.old id)) }
        ensures room { room_of self.new id ≡ other.spare }
        ensures keeps { KeepsRoomBut self.old self.new id }
        ensures count { open_of self.new ≡ open_of self.old }
    {
        match &mut self.docs[id as usize] {
            Some(doc) => doc.replace_text(other),
            None => unreachable!(),
        }
    }

    /// Closes an open document. Its place stays.
    pub fn close_doc(&mut self, id: u32)
        requires { IsSome (document_of self.old id) }
        ensures documents { Becomes self.old self.new id None }
        ensures keeps { KeepsRoomBut self.old self.new id }
        ensures count { open_of self.new + 1 ≡ open_of self.old }
    {
        self.docs[id as usize] = None;
        self.open_docs -= 1;
    }

    /// The same documents once more. Linear in their texts and in the highest id that has a place.
    pub fn copy(&self) -> Result<Docs, AllocError>
        ensures same { IfOk result (λ copy. SameDocuments self.now copy) }
        ensures count { IfOk result (λ copy. open_of copy ≡ open_of self.now) }
    {
        let mut docs = Vec::with_capacity(*self.docs.allocator(), self.docs.len())?;
        for doc in &self.docs {
            docs.push(copy_of(doc)?)?;
        }
        Ok(Docs {
            docs,
            open_docs: self.open_docs,
        })
    }
}

/// The same document once more, or none.
fn copy_of(doc: &Option<Doc>) -> Result<Option<Doc>, AllocError>
    ensures { IfOk result
        (λ copy. option_map (λ held. held.document) copy
        ≡ option_map (λ held. held.document) doc.now) }
{
    Ok(match doc {
        Some(doc) => Some(doc.copy()?),
        None => None,
    })
}
