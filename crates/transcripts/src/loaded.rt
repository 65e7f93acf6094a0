//! What the tree gives for a load.
use ide_text::SharedText;

/// What stands behind the path of a load, as a text.
#[derive(Drop)]
pub enum Loaded {
    /// Nothing was read: the line is no load, or its path is unlawful.
    Nothing,
    /// The text of the bytes.
    Text { text: SharedText },
    /// The bytes aren't UTF-8 from this one on.
    NotText { at: usize },
    /// The bytes have this many characters, line breaks repaired: more than a text may have.
    TooLong { count: usize },
}
