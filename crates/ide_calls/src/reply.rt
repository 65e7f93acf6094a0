//! What a question is answered.
use ide_text::Name;
use query_engine::Finding;

/// What a question is answered: what it found, or why it found nothing.
#[derive(Drop)]
pub enum Reply {
    /// What it found.
    Found(Finding),
    /// No live file has the path of an outline.
    NoSuchFile,
    /// Files are unready, and this one has the lowest id of them.
    NotReady { file: u32, path: Name },
}
