//! Arrays as sound trees: a type, a length, an encoding's buffers, and child arrays.
//!
//! Contracts see an [`Array`] as the plain tree of `vx_array_tree`. All code of an encoding is in its file of
//! `encodings`. Each file of `array`, `body` and `slots`, and `control`, dispatches one question to the encodings.
#![tactic(auto)]

mod array;
mod body;
mod construction;
mod control;
mod encodings;
mod list;
mod new_buffers;
mod offsets;
mod parts;
mod place;
mod plain_offsets;
mod same;
mod slots;
mod texts;
mod validity;

pub use array::Array;
pub use body::Body;
pub use encodings::bool::{BoolArray, BoolData};
pub use encodings::decimal::{DecimalArray, DecimalData};
pub use encodings::dict::{DictArray, DictData};
pub use encodings::extension::ExtensionArray;
pub use encodings::fixed_size_list::FixedSizeListArray;
pub use encodings::foreign::{ForeignArray, ForeignArrayData, ForeignData, new_foreign_array};
pub use encodings::list_view::{ListViewArray, ListViewData};
pub use encodings::lists::ListArray;
pub use encodings::map::MapArray;
pub use encodings::null::NullArray;
pub use encodings::primitive::{PrimitiveArray, PrimitiveData};
pub use encodings::structs::StructArray;
pub use encodings::union::UnionArray;
pub use encodings::varbin::{VarBinArray, VarBinData};
pub use encodings::varbinview::{VarBinViewArray, VarBinViewData};
pub use encodings::variant::VariantArray;
pub use list::Arrays;
pub use validity::validity_all_invalid;
pub use vx_rows::{ArrayError, RowRef, RowValue, RowValues, merge_typed_scalar_as_variant};
