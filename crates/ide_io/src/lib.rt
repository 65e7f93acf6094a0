//! The outside world as three traits: a source of bytes, a tree of files and a sink of bytes.
//!
//! Each object counts its faults, and a call that answers `Failed` has raised that count. Objects
//! in memory tell the bytes that they hold, so that contracts speak of them; an adapter over std does so
//! where it is made to, and those over the system's streams and files tell none.
#![tactic(auto)]

mod bytes_sink;
mod bytes_source;
mod end_count;
mod failed;
mod failing;
mod fault_count;
mod fault_plan;
mod folder_tree;
pub mod laws;
mod memory_tree;
mod reader_source;
mod reading;
mod sink;
mod source;
mod tree;
mod writer_sink;
mod writing;

pub use crate::bytes_sink::BytesSink;
pub use crate::bytes_source::BytesSource;
pub use crate::end_count::EndCount;
pub use crate::failed::Failed;
pub use crate::failing::Failing;
pub use crate::fault_count::FaultCount;
pub use crate::fault_plan::FaultPlan;
pub use crate::folder_tree::FolderTree;
pub use crate::memory_tree::MemoryTree;
pub use crate::reader_source::{ReaderSource, StdinSource};
pub use crate::reading::{ReadAllError, read_all};
pub use crate::sink::Sink;
pub use crate::source::Source;
pub use crate::tree::{MAX_FILE_LEN, ReadFileError, Tree};
pub use crate::writer_sink::{StderrSink, StdoutSink, WriterSink};
pub use crate::writing::write_all;
