//! Column files: a table's columns as blobs in one file, of which a reader loads only those that are asked.
#![tactic(auto)]

mod buffers;
mod column_file;
mod decoding;
mod error;
mod footer;
mod footer_writing;
mod loading;
mod mem_ranges;
mod ranges;
mod selection;
mod table_type;
mod writing;
mod written_columns;

pub use column_file::{ColumnFile, Columns};
pub use error::FileError;
pub use footer::ColumnRange;
pub use mem_ranges::MemRanges;
pub use ranges::{Ranges, RangesError};
pub use selection::Selection;
pub use writing::write_file;
