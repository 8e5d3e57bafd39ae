//! What every command of the program stands on: the outside as two traits, the statuses, and the texts of words, of
//! identifier files and of listings.
#![tactic(auto)]

mod dir_store;
mod id_file;
mod listing;
mod mem_sink;
mod mem_store;
mod numbers;
mod output;
mod print;
mod row_text;
mod sink;
mod status;
mod store;

pub use dir_store::DirStore;
pub use id_file::{IdFileError, read_ids, write_ids};
pub use listing::print_listing;
pub use mem_sink::MemSink;
pub use mem_store::MemStore;
pub use numbers::decimal_number;
pub use output::Output;
pub use print::{PrintError, write_text};
pub use sink::{Sink, SinkError};
pub use status::Status;
pub use store::{Store, StoreError};
