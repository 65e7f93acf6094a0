//! Stored index data: texts with the data that the indexes take from them, as bytes and read again.
#![tactic(auto)]

mod data_reading;
mod kind_code;
pub mod laws;
mod reading;
mod refusal;
mod row_reading;
mod spelled;
mod store;
mod store_reading;
mod stored;
mod text_reading;
mod versions;

pub use refusal::StoreRefusal;
pub use store::Store;
