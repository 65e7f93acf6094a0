//! A document: the text that is edited, the text as last committed, and whether the file has its text.
ghost use Rattle.std.specs.Prelude.{◌≡◌, ◌≤◌, ◌+◌, ◌-◌, max, IfOk, OnOk, OnErr, bytes_eq, length};
ghost use Rattle.ide_text.specs.Text.{max_chars, IsText};
ghost use Rattle.document_buf.specs.Document.{opened, inserted, erased, committed as committed_now, marked_saved, replaced};

use crate::gap::GapBuffer;
use ide_text::laws::edited_texts_are_texts;
use ide_text::{MAX_CHARS, SharedText, Text};
use std::alloc::{AllocError, Global};
use std::marker::Model;

/// A document that is open, or ready to be opened. Seen by contracts as the document and the room of its buffer.
#[derive(Drop)]
pub struct Doc {
    /// Boxed, so that the place of an id without a document is small.
    state: Box<DocState>,
}

/// What a document is made of.
#[derive(Drop)]
struct DocState {
    buffer: GapBuffer,
    committed: SharedText,
    saved: bool,
    /// Off where the text is the committed one; the texts of an edited document may still be the same.
    edited: bool,
}

impl Model for Doc {
    ghost use Rattle.document_buf.specs.DocsView.{HeldDoc};

    ghost Value = { HeldDoc };

    ghost use Rattle.document_buf.specs.DocState.{doc_of, IsDoc};

    ghost view = { doc_of };

    ghost invariant = { IsDoc };
}

impl Doc {
    /// The document of a file with this content, with room for a number of characters more. Linear in both.
    pub fn open(alloc: Global, content: &SharedText, room: u32) -> Result<Doc, AllocError>
        ensures document { IfOk result (λ doc. doc.document ≡ opened content.now) }
        ensures room { IfOk result (λ doc. room ≤ doc.spare) }
    {
        let text = content.as_text();
        let mut buffer = GapBuffer::with_room(alloc, text.len() as usize + room as usize)?;
        buffer.push(text);
        let state = DocState {
            buffer,
            committed: content.share()?,
            saved: true,
            edited: false,
        };
        Ok(Doc {
            state: Box::new(alloc, state)?,
        })
    }

    /// The number of characters of the text.
    pub fn len(&self) -> u32
        ensures len { result ≡ length self.now.document.text }
        ensures text { IsText self.now.document.text }
    {
        self.state.buffer.len() as u32
    }

    /// How many characters more may be inserted without memory.
    pub fn spare(&self) -> usize
        ensures { result ≡ self.now.spare }
    {
        self.state.buffer.spare()
    }

    /// The text. Linear in it.
    pub fn text(&self) -> Result<Text, AllocError>
        ensures { IfOk result (λ text. text ≡ self.now.document.text) }
    {
        Text::joined(
            self.state.buffer.alloc(),
            self.state.buffer.front(),
            self.state.buffer.back(),
        )
    }

    /// The text as last committed.
    pub fn committed(&self) -> &SharedText
        ensures { result.now ≡ self.now.document.committed }
    {
        &self.state.committed
    }

    /// Whether the file has the text.
    pub fn saved(&self) -> bool
        ensures { result ≡ self.now.document.saved }
    {
        self.state.saved
    }

    /// Whether the text is the committed one. Constant time where nothing was edited since, or where the lengths
    /// differ; else linear.
    pub fn is_committed(&self) -> bool
        ensures { result ≡ bytes_eq self.now.document.text self.now.document.committed }
    {
        !self.state.edited || self.state.buffer.is_text(self.state.committed.as_text())
    }

    /// Puts a piece in before an offset, in the time of the piece and of the way from the last edit.
    pub(crate) fn insert(&mut self, at: u32, piece: &Text)
        requires inside { at ≤ length self.old.document.text }
        requires fits { length self.old.document.text + length piece.now ≤ max_chars }
        requires room { length piece.now ≤ self.old.spare }
        ensures document { self.new.document ≡ inserted at piece.now self.old.document }
        ensures spare { self.new.spare + length piece.now ≡ self.old.spare }
    {
        // A piece is a text, and so is what it makes of the text.
        let _ = piece.len();
        edited_texts_are_texts();
        let state = &mut *self.state;
        state.buffer.move_to(at as usize);
        state.buffer.push(piece);
        state.saved = false;
        state.edited = true;
    }

    /// Takes the characters from one offset up to another out, in the time of the way from the last edit.
    pub(crate) fn erase(&mut self, from: u32, to: u32)
        requires ordered { from ≤ to }
        requires inside { to ≤ length self.old.document.text }
        ensures document { self.new.document ≡ erased from to self.old.document }
        ensures spare { self.new.spare ≡ self.old.spare + (to - from) }
    {
        edited_texts_are_texts();
        let state = &mut *self.state;
        state.buffer.move_to(from as usize);
        state.buffer.erase((to - from) as usize);
        state.saved = false;
        state.edited = true;
    }

    /// Takes the text as the committed one.
    pub(crate) fn commit(&mut self, text: SharedText)
        requires { text ≡ self.old.document.text }
        ensures document { self.new.document ≡ committed_now self.old.document }
        ensures spare { self.new.spare ≡ self.old.spare }
    {
        self.state.committed = text;
        self.state.edited = false;
    }

    /// Notes that the file has the text.
    pub(crate) fn mark_saved(&mut self)
        ensures document { self.new.document ≡ marked_saved self.old.document }
        ensures spare { self.new.spare ≡ self.old.spare }
    {
        self.state.saved = true;
    }

    /// Takes the text and the buffer of another document, which the file has; the committed text stays.
    pub(crate) fn replace_text(&mut self, doc: Doc)
        ensures document { self.new.document ≡ replaced doc.document.text self.old.document }
        ensures spare { self.new.spare ≡ doc.spare }
    {
        let Doc { state } = doc;
        let DocState { buffer, .. } = Box::into_inner(state);
        self.state.buffer = buffer;
        self.state.saved = true;
        self.state.edited = true;
    }

    /// Makes room for a number of characters more. Where it has to be made, half the text's length is made at once, but
    /// never more than was asked for and than a text may still grow by.
    pub fn reserve(&mut self, count: u32) -> Result<(), AllocError>
        ensures document { self.new.document ≡ self.old.document }
        ensures ok { OnOk result (count ≤ self.new.spare) }
        ensures keeps { self.old.spare ≤ self.new.spare }
        ensures most { self.new.spare
            ≤ max (max self.old.spare count) (max_chars - length self.old.document.text) }
    {
        let count = count as usize;
        if self.state.buffer.spare() < count {
            let len = self.state.buffer.len();
            let wide = count.max((len / 2).min(MAX_CHARS - len));
            self.state.buffer = self.state.buffer.with_spare(wide)?;
        }
        Ok(())
    }

    /// The same document once more.
    pub(crate) fn copy(&self) -> Result<Doc, AllocError>
        ensures document { IfOk result (λ copy. copy.document ≡ self.now.document) }
    {
        let state = DocState {
            buffer: self.state.buffer.with_spare(0)?,
            committed: self.state.committed.share()?,
            saved: self.state.saved,
            edited: self.state.edited,
        };
        Ok(Doc {
            state: Box::new(self.state.buffer.alloc(), state)?,
        })
    }
}
