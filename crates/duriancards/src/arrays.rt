//! Arrays of each encoding, their parts and their rows.

pub use vx_arrays::{
    Array, ArrayError, Arrays, Body, BoolArray, BoolData, DecimalArray, DecimalData, DictArray,
    DictData, ExtensionArray, FixedSizeListArray, ForeignArray, ForeignArrayData, ForeignData,
    ListArray, ListViewArray, ListViewData, MapArray, NullArray, PrimitiveArray, PrimitiveData,
    RowRef, RowValue, RowValues, StructArray, UnionArray, VarBinArray, VarBinData, VarBinViewArray,
    VarBinViewData, VariantArray, merge_typed_scalar_as_variant, new_foreign_array,
    validity_all_invalid,
};
