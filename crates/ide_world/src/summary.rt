//! What a document looks like, without its text.

/// The length of a document, and whether its file has its text.
#[derive(Clone, Copy, Drop)]
pub(crate) struct Summary {
    pub(crate) len: u32,
    pub(crate) saved: bool,
}
