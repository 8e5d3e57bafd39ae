//! Rows of arrays as values, without the arrays: numbers and views read from bytes, values with their equality and
//! cells, scalars as rows and back, and the merge of a typed value over a variant.
//!
//! Contracts see a [`RowValue`] as the plain value of `vx_types`, as they see a scalar's.
#![tactic(auto)]

mod cells;
mod copies;
mod error;
mod lone_row;
mod merging;
mod named_variants;
mod numbers;
mod row;
mod row_ref;
mod row_scalars;
mod row_values;
mod same_scalars;
mod same_values;
mod views;

pub use cells::spent_row;
pub use copies::{copied_type, owned_bytes, owned_text};
pub use error::ArrayError;
pub use lone_row::{LoneRow, lone_value, spend};
pub use merging::merge_typed_scalar_as_variant;
pub use numbers::{decimal_at, is_filled, natural, number_at};
pub use row::RowValue;
pub use row_ref::RowRef;
pub use row_scalars::row_over;
pub use row_values::RowValues;
pub use views::viewed;
