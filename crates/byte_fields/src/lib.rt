//! Fields of bytes: what formats that are made of fields are read and written by.
#![tactic(auto)]

mod fault;
mod reading;
mod writing;

pub use fault::Fault;
pub use reading::{byte_of, characters_of, check, name_of, number_of};
pub use writing::{put_name, put_number};
