//! The state of a workspace, and how its users change it: files, documents and index data are kept in step with one another,
//! and changes are judged and made ready, then go in and can't fail.
#![tactic(auto)]

mod apply;
mod carrying;
mod data;
mod documents;
mod draft;
mod files;
mod group;
mod id_set;
mod index;
mod index_walks;
pub mod laws;
mod readers;
mod refusal;
mod room;
mod state;
mod step;
mod steps;
mod summary;
mod walk;

pub use data::{Job, Made};
pub use group::{
    GroupRefusal, Ready, empty, install, prepare, prepare_group, prepare_intake, reserve,
};
pub use index::{job, make, make_from};
pub use overlay_index::{KeyWalk, StubWalk, WordWalk};
pub use readers::{content, counts, mark, next_id, path, shown};
pub use state::State;
pub use step::{DocEdit, IndexEdit, RowEdit, Step};
pub use steps::Steps;
