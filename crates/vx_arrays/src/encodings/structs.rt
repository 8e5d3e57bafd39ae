//! Struct arrays.

ghost use Rattle.std.specs.Prelude.{◌≡◌, ◌<◌, ◌≤◌, ◌↔◌, Err, IfOk, IfErr, IsOkUnless, IsTrue, length};
ghost use Rattle.vx_trees.specs.Everywhere.{EverywhereBelow};
ghost use Rattle.vx_trees.specs.Rose.{node, roses_of};
ghost use Rattle.vx_trees.specs.Walks.{nodes_of};
ghost use Rattle.vx_types.specs.Seen.{typ, typs};
ghost use Rattle.vx_array_tree.specs.Body as B;
ghost use Rattle.vx_array_tree.specs.Encodings.Structs.{has_validity, rows as rows_of_structures, structure_valid, width_of};
ghost use Rattle.vx_array_tree.specs.Place.{place, places_at, validity_place};
ghost use Rattle.vx_types.specs.declared.nullability.Nullability.TheVariants.{Nullable};
ghost use Rattle.vx_array_tree.specs.Refused.{IsWellShaped};
ghost use Rattle.vx_array_tree.specs.Sound.{IsSound, IsSoundNode};
ghost use Rattle.vx_array_tree.specs.Tree.{array_place, places, rows_below, untold};
ghost use Rattle.vx_arrays.specs.Parts.{AreThere, parts_cells, parts_nodes, parts_value};
ghost use Rattle.vx_arrays.specs.Refused.{RefusesMaking, IsOkOrMemory};
ghost use Rattle.vx_arrays.specs.Structs.{AreStructParts, IsOfFields, after_validity, field_trees, struct_head, struct_tree};

use crate::array::Array;
use crate::body::Body;
use crate::construction::over_children;
use crate::list::Arrays;
use crate::parts::{RowParts, where_there};
use crate::place::stands_at;
use std::alloc::Global;
use vx_rows::ArrayError;
use vx_types::{DType, Nullability, StructFields};

/// Struct arrays, with an array for each field.
pub struct StructArray {}

impl StructArray {
    /// The identifier of the encoding.
    pub const ID: &'static str = "vortex.struct";

    // Whether a row is valid in a node of this type, length and children; None where that is not known.
    pub(crate) fn valid_at(
        dtype: &DType,
        len: usize,
        children: &[Array],
        index: usize,
    ) -> Option<bool>
        requires sound { IsSoundNode (untold (typ dtype.now) len B.struct) (roses_of children.now) }
        requires inside { index < len }
        ensures { let rows = rows_below (roses_of children.now) in
            result ≡ structure_valid (has_validity (typ dtype.now) (length rows)) rows index }
    {
        let _len = len;
        match children {
            [] => Some(true),
            [validity, fields @ ..] => {
                if fields.len() == width_of(dtype) {
                    validity.flag_at(index)
                } else {
                    Some(true)
                }
            }
        }
    }

    // The parts of a row of a node of this type, length and children.
    #[tactic(auto, using(crate::proofs::Fielded::fielded))]
    pub(crate) fn parts_at<'a>(
        dtype: &DType,
        len: usize,
        children: &'a [Array],
        index: usize,
    ) -> RowParts<'a>
        requires sound { IsSoundNode (untold (typ dtype.now) len B.struct) (roses_of children.now) }
        requires inside { index < len }
        ensures value { let rows = rows_of_structures (typ dtype.now) len (rows_below (roses_of children.now)) in
            parts_value result ≡ rows.row index }
        ensures cells { let rows = rows_of_structures (typ dtype.now) len (rows_below (roses_of children.now)) in
            parts_cells result ≡ rows.cells index }
        ensures there { AreThere result }
        ensures smaller { parts_nodes result ≤ nodes_of (roses_of children.now) }
    {
        let valid = StructArray::valid_at(dtype, len, children, index);
        let arrays = columns_of(dtype, children);
        where_there(valid, RowParts::Across { arrays, index })
    }

    /// The array of `len` structs of these fields, with one column of `len` rows for each field. Where some rows are
    /// null, `validity` says of each row whether it is valid.
    ///
    /// `BadShape` where there are more or fewer columns than fields, where a validity is given under a type that is not
    /// nullable, and where a column or the validity has another type or length. `ForeignControl` where a foreign node
    /// stands in the validity.
    pub fn try_new(
        _alloc: Global,
        fields: StructFields,
        nullability: Nullability,
        columns: Arrays,
        len: usize,
        validity: Option<Array>,
    ) -> Result<Array, ArrayError>
        ensures ok { IfOk result (λ a. a ≡ struct_tree fields nullability columns len validity) }
        ensures sound { IfOk result IsSound }
        ensures parts { IfOk result (λ _. AreStructParts fields nullability columns validity) }
        ensures unfit { (AreStructParts fields nullability columns validity → ⊥) → result ≡ Err ArrayError.BadShape }
        ensures err { AreStructParts fields nullability columns validity →
            IfErr result (λ e. RefusesMaking e (struct_tree fields nullability columns len validity)) }
        ensures complete { AreStructParts fields nullability columns validity →
            IsSound (struct_tree fields nullability columns len validity) → IsOkOrMemory result }
    {
        if !are_struct_parts(&fields, nullability, &columns, &validity) {
            return Err(ArrayError::BadShape);
        }
        match after_validity(validity, columns) {
            Ok(children) => over_columns(fields, nullability, len, children),
            Err(error) => Err(error),
        }
    }

    /// The array of `len` structs over the children of a node: a validity where there is one child more than fields, and
    /// then the columns.
    ///
    /// `BadShape` where there is another number of children, where a validity stands under a type that is not nullable,
    /// and where a child has another type or length. `ForeignControl` where a foreign node stands in the validity.
    pub fn of_children(
        fields: StructFields,
        nullability: Nullability,
        len: usize,
        children: Arrays,
    ) -> Result<Array, ArrayError>
        ensures ok { IfOk result (λ a. a ≡ node (struct_head fields nullability len) children) }
        ensures sound { IfOk result IsSound }
        ensures err { IfErr result (λ e. RefusesMaking e (node (struct_head fields nullability len) children)) }
        ensures complete { IsSound (node (struct_head fields nullability len) children) → IsOkOrMemory result }
    {
        over_columns(fields, nullability, len, children.into_vec())
    }
}

// Whether there is one column for each field, and a validity only under a nullable type.
fn are_struct_parts(
    fields: &StructFields,
    nullability: Nullability,
    columns: &Arrays,
    validity: &Option<Array>,
) -> bool
    ensures { IsTrue result ↔ AreStructParts fields.now nullability columns.now validity.now }
{
    if columns.len() != fields.fields().len() {
        return false;
    }
    match validity {
        Some(_) => nullability == Nullability::Nullable,
        None => true,
    }
}

// The array of `len` structs over these children.
fn over_columns(
    fields: StructFields,
    nullability: Nullability,
    len: usize,
    children: Vec<Array>,
) -> Result<Array, ArrayError>
    requires below { EverywhereBelow IsSoundNode (roses_of children.items) }
    ensures ok { IfOk result (λ a. a ≡ node (struct_head fields nullability len) (roses_of children.items)) }
    ensures sound { IfOk result IsSound }
    ensures err { IfErr result (λ e. RefusesMaking e (node (struct_head fields nullability len) (roses_of children.items))) }
    ensures complete { IsSound (node (struct_head fields nullability len) (roses_of children.items)) → IsOkOrMemory result }
{
    let shaped = are_shaped(&fields, nullability, len, children.as_slice());
    let dtype = DType::Struct(fields, nullability);
    over_children(dtype, len, Body::Struct, children, shaped, true)
}

// How many fields a struct type has.
pub(crate) fn width_of(dtype: &DType) -> usize
    requires { IsOfFields (typ dtype.now) }
    ensures { result ≡ width_of (typ dtype.now) }
{
    match dtype {
        DType::Struct(fields, _) => fields.fields().len(),
        _ => unreachable!(),
    }
}

// The arrays of the fields among the children of a struct node: all, but for a validity in front.
fn columns_of<'a>(dtype: &DType, children: &'a [Array]) -> &'a [Array]
    requires { IsOfFields (typ dtype.now) }
    ensures { roses_of result.now ≡ field_trees (typ dtype.now) (roses_of children.now) }
{
    match children {
        [] => children,
        [_, fields @ ..] => {
            if fields.len() == width_of(dtype) {
                fields
            } else {
                children
            }
        }
    }
}

// Whether arrays are the children of a struct node: the columns of the fields, after a validity only where rows may
// be null.
fn are_shaped(
    fields: &StructFields,
    nullability: Nullability,
    len: usize,
    children: &[Array],
) -> bool
    ensures { IsTrue result ↔ IsWellShaped (struct_head fields.now nullability len) (roses_of children.now) }
{
    let types = fields.fields().as_slice();
    if children.len() == types.len() {
        return are_columns(types, children, len);
    }
    match children {
        [validity, columns @ ..] => {
            is_front(nullability, validity, len) && are_columns(types, columns, len)
        }
        [] => false,
    }
}

// Whether an array may stand in front of the columns, as the validity of n rows.
fn is_front(nullability: Nullability, validity: &Array, len: usize) -> bool
    ensures { IsTrue result ↔ ((nullability ≡ Nullable) × (array_place validity.now ≡ validity_place len)) }
{
    match nullability {
        Nullability::NonNullable => false,
        Nullability::Nullable => stands_at(validity, &DType::Bool(Nullability::NonNullable), len),
    }
}

// Whether arrays are the columns of fields of these types, each of n rows.
pub(crate) fn are_columns(types: &[DType], columns: &[Array], len: usize) -> bool
    ensures { IsTrue result ↔ (places (roses_of columns.now) ≡ places_at (roses_of (typs types.now)) len) }
{
    if types.len() != columns.len() {
        return false;
    }
    for i in 0..types.len() {
        if !stands_at(&columns[i], &types[i], len) {
            return false;
        }
    }
    true
}

// The children of a struct node: a validity, if any, and then the columns.
fn after_validity(validity: Option<Array>, columns: Arrays) -> Result<Vec<Array>, ArrayError>
    ensures children { IfOk result (λ children. roses_of children.items ≡ after_validity validity columns) }
    ensures sound { IfOk result (λ children. EverywhereBelow IsSoundNode (roses_of children.items)) }
    ensures err { IsOkUnless result ArrayError.OutOfMemory }
{
    let mut children = columns;
    let put = match validity {
        None => Ok(()),
        Some(array) => children.put_first(array),
    };
    match put {
        Ok(()) => Ok(children.into_vec()),
        Err(error) => Err(error),
    }
}
