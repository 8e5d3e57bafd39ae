//! Arrays of lists of one size.

ghost use Rattle.std.specs.Prelude.{◌≡◌, ◌<◌, ◌≤◌, ◌*◌, ◌↔◌, IfOk, IfErr, IsOkUnless, IsTrue};
ghost use Rattle.vx_trees.specs.Everywhere.{EverywhereBelow};
ghost use Rattle.vx_trees.specs.Rose.{end, label, more, node, roses_of};
ghost use Rattle.vx_trees.specs.Walks.{nodes_of};
ghost use Rattle.vx_types.specs.Kind.{fixed_size_list};
ghost use Rattle.vx_types.specs.Seen.{typ};
ghost use Rattle.vx_array_tree.specs.Body as B;
ghost use Rattle.vx_array_tree.specs.Encodings.FixedSizeLists.{rows as rows_of_lists, size_of};
ghost use Rattle.vx_array_tree.specs.Refused.{IsWellShaped};
ghost use Rattle.vx_array_tree.specs.Rows.{rest, validity};
ghost use Rattle.vx_array_tree.specs.Sound.{IsSound, IsSoundNode};
ghost use Rattle.vx_array_tree.specs.Tree.{option_trees, rows_below, untold};
ghost use Rattle.vx_arrays.specs.FixedSizeLists.{IsOfSize, fixed_size_list_head, fixed_size_list_tree};
ghost use Rattle.vx_arrays.specs.Parts.{AreThere, parts_cells, parts_nodes, parts_value};
ghost use Rattle.vx_arrays.specs.Refused.{RefusesMaking, IsOkOrMemory};

use crate::array::Array;
use crate::body::Body;
use crate::construction::over_children;
use crate::parts::{RowParts, where_there};
use crate::validity::{is_validity, split_first, validity_at, with_validity};
use std::alloc::Global;
use vx_rows::ArrayError;
use vx_types::{DType, Nullability, TypeRef, or_memory};

/// Arrays of lists of one size, whose elements follow one another row by row.
pub struct FixedSizeListArray {}

impl FixedSizeListArray {
    /// The identifier of the encoding.
    pub const ID: &'static str = "vortex.fixed_size_list";

    // Whether a row is valid in a node of this type, length and children; None where that is not known.
    pub(crate) fn valid_at(
        dtype: &DType,
        len: usize,
        children: &[Array],
        index: usize,
    ) -> Option<bool>
        requires sound { IsSoundNode (untold (typ dtype.now) len B.fixed_size_list) (roses_of children.now) }
        requires inside { index < len }
        ensures { result ≡ validity (rest (rows_below (roses_of children.now))) index }
    {
        let _dtype = dtype;
        let (_, after) = split_first(children);
        validity_at(after, len, index)
    }

    // The parts of a row of a node of this type, length and children.
    #[tactic(auto, using(crate::proofs::Sized::sized_lists))]
    pub(crate) fn parts_at<'a>(
        dtype: &DType,
        len: usize,
        children: &'a [Array],
        index: usize,
    ) -> RowParts<'a>
        requires sound { IsSoundNode (untold (typ dtype.now) len B.fixed_size_list) (roses_of children.now) }
        requires inside { index < len }
        ensures value { let rows = rows_of_lists (typ dtype.now) len (rows_below (roses_of children.now)) in
            parts_value result ≡ rows.row index }
        ensures cells { let rows = rows_of_lists (typ dtype.now) len (rows_below (roses_of children.now)) in
            parts_cells result ≡ rows.cells index }
        ensures there { AreThere result }
        ensures smaller { parts_nodes result ≤ nodes_of (roses_of children.now) }
    {
        let size = size_of(dtype);
        let (elements, after) = split_first(children);
        let valid = validity_at(after, len, index);
        where_there(
            valid,
            RowParts::Run {
                array: elements,
                start: index * size,
                count: size,
            },
        )
    }

    /// The array of `len` lists of `size` elements each, over `len * size` elements; a null list has its elements
    /// too. `validity` says of each row whether it is valid.
    ///
    /// `ForeignControl` where the array would be sound but for a foreign node in the validity, and `BadShape` where
    /// the parts do not fit otherwise.
    pub fn try_new(
        alloc: Global,
        elements: Array,
        size: u32,
        nullability: Nullability,
        len: usize,
        validity: Option<Array>,
    ) -> Result<Array, ArrayError>
        ensures ok { IfOk result (λ a. a ≡ fixed_size_list_tree elements size nullability len validity) }
        ensures sound { IfOk result IsSound }
        ensures err { IfErr result (λ e. RefusesMaking e (fixed_size_list_tree elements size nullability len validity)) }
        ensures complete { IsSound (fixed_size_list_tree elements size nullability len validity) → IsOkOrMemory result }
    {
        let shaped = is_shaped(&elements, size, nullability, len, &validity);
        let dtype = list_type(alloc, elements.dtype(), size, nullability);
        let children = with_validity(alloc, elements, validity);
        match (dtype, children) {
            (Ok(dtype), Ok(children)) => {
                over_children(dtype, len, Body::FixedSizeList, children, shaped, true)
            }
            _ => Err(ArrayError::OutOfMemory),
        }
    }
}

// Whether parts have the shape that the encoding requires.
fn is_shaped(
    elements: &Array,
    size: u32,
    nullability: Nullability,
    len: usize,
    validity: &Option<Array>,
) -> bool
    ensures shaped { IsTrue result ↔ IsWellShaped (fixed_size_list_head (label elements.now).dtype size nullability len) (more elements.now (option_trees validity.now)) }
    ensures sound { IsTrue result → EverywhereBelow IsSoundNode (more elements.now (option_trees validity.now)) }
{
    if !is_product(len, size as usize, elements.len()) {
        return false;
    }
    is_validity(nullability, len, validity)
}

// Whether a `usize` is this product, which may pass `usize`.
fn is_product(len: usize, size: usize, count: usize) -> bool
    ensures { IsTrue result ↔ (count ≡ len * size) }
{
    match len.checked_mul(size) {
        Some(product) => product == count,
        None => false,
    }
}

// How many elements a row of a type has.
fn size_of(dtype: &DType) -> usize
    requires { IsOfSize (typ dtype.now) }
    ensures size { result ≡ size_of (typ dtype.now) }
{
    match dtype {
        DType::FixedSizeList(_, size, _) => *size as usize,
        _ => unreachable!(),
    }
}

// The type of lists of `size` elements of a type.
fn list_type(
    alloc: Global,
    element: &DType,
    size: u32,
    nullability: Nullability,
) -> Result<DType, ArrayError>
    ensures ok { IfOk result (λ d. typ d ≡ node (fixed_size_list size nullability) (more (typ element.now) end)) }
    ensures err { IsOkUnless result ArrayError.OutOfMemory }
{
    let element = or_memory(element.clone(alloc))?;
    let part = or_memory(TypeRef::new(alloc, element))?;
    Ok(DType::FixedSizeList(part, size, nullability))
}
