//! Tables of any size, drawn from a seed: the same seed and number of rows always make the same table. The table's form
//! is this project's own.
//!
//! Contracts see a table as a plain tree (`specs/Made`), whose buffers hold what `specs/Columns` defines by the draws
//! in `specs/Draws`.
#![tactic(auto)]

mod arrays;
mod columns;
mod draws;
mod error;
mod fields;
mod line;
mod table;

pub use error::GeneratorError;
pub use line::summary;
pub use table::{Table, generate};
