//! Arrays of lists, whose elements are split by offsets.

ghost use Rattle.std.specs.Prelude.{◌≡◌, ◌<◌, ◌≤◌, ◌↔◌, IfOk, IfErr, IsOkUnless, IsTrue, option_map};
ghost use Rattle.vx_trees.specs.Rose.{end, more, node, roses_of};
ghost use Rattle.vx_trees.specs.Walks.{nodes_of};
ghost use Rattle.vx_types.specs.Kind.{list};
ghost use Rattle.vx_types.specs.Seen.{typ};
ghost use Rattle.vx_array_tree.specs.Body as B;
ghost use Rattle.vx_array_tree.specs.Encodings.Lists.{Content, rows as rows_of_lists};
ghost use Rattle.vx_array_tree.specs.Refused.{IsWellShaped};
ghost use Rattle.vx_array_tree.specs.Rows.{rest, validity};
ghost use Rattle.vx_array_tree.specs.Sound.{IsSound, IsSoundNode};
ghost use Rattle.vx_array_tree.specs.Tree.{rows_below, untold};
ghost use Rattle.vx_arrays.specs.Lists.{element_of, list_tree};
ghost use Rattle.vx_arrays.specs.Parts.{AreThere, parts_cells, parts_nodes, parts_value};
ghost use Rattle.vx_arrays.specs.Refused.{RefusesMaking, IsOkOrMemory};

use crate::array::Array;
use crate::body::Body;
use crate::construction::over_children;
use crate::control::is_controlled;
use crate::list::Arrays;
use crate::offsets::{are_counted, are_offsets, offset_at};
use crate::parts::{RowParts, where_there};
use crate::place::is_of_type;
use crate::validity::{is_validity_after, listed, split_first, validity_at};
use std::alloc::Global;
use vx_rows::ArrayError;
use vx_types::{DType, Nullability, TypeRef, or_memory};

/// Arrays of lists, whose elements stand one row's after the other's, split by offsets.
pub struct ListArray {}

impl ListArray {
    /// The identifier of the encoding.
    pub const ID: &'static str = "vortex.list";

    // Whether a row is valid in a node of this type, length and children; None where that is not known.
    #[tactic(auto, using(crate::proofs::Listed::lists))]
    pub(crate) fn valid_at(
        dtype: &DType,
        len: usize,
        children: &[Array],
        index: usize,
    ) -> Option<bool>
        requires sound { IsSoundNode (untold (typ dtype.now) len B.list) (roses_of children.now) }
        requires inside { index < len }
        ensures { result ≡ validity (rest (rest (rows_below (roses_of children.now)))) index }
    {
        let _dtype = dtype;
        let (_, others) = split_first(children);
        let (_, after) = split_first(others);
        validity_at(after, len, index)
    }

    // The parts of a row of a node of this type, length and children.
    #[tactic(auto, using(crate::proofs::Listed::lists))]
    pub(crate) fn parts_at<'a>(
        dtype: &DType,
        len: usize,
        children: &'a [Array],
        index: usize,
    ) -> RowParts<'a>
        requires sound { IsSoundNode (untold (typ dtype.now) len B.list) (roses_of children.now) }
        requires inside { index < len }
        ensures value { let rows = rows_of_lists len (rows_below (roses_of children.now)) in
            parts_value result ≡ rows.row index }
        ensures cells { let rows = rows_of_lists len (rows_below (roses_of children.now)) in
            parts_cells result ≡ rows.cells index }
        ensures there { AreThere result }
        ensures smaller { parts_nodes result ≤ nodes_of (roses_of children.now) }
    {
        let valid = ListArray::valid_at(dtype, len, children, index);
        let (array, others) = split_first(children);
        let (offsets, _) = split_first(others);
        let total = array.len();
        let start = offset_at(offsets, len, total, index);
        let count = offset_at(offsets, len, total, index + 1) - start;
        where_there(
            valid,
            RowParts::Run {
                array,
                start,
                count,
            },
        )
    }

    /// The array of lists whose elements stand from an offset up to the next one: there is one row less than offsets.
    /// `validity` says of each row whether it is valid.
    ///
    /// `BadShape` where there are no offsets or they are not non-nullable integers, or where the validity is not
    /// allowed. `ForeignControl` where the offsets or the validity hold a foreign node. `BadContent` where an offset
    /// is below 0, below the one before or past the elements.
    pub fn try_new(
        alloc: Global,
        elements: Array,
        offsets: Array,
        nullability: Nullability,
        validity: Option<Array>,
    ) -> Result<Array, ArrayError>
        ensures ok { IfOk result (λ a. a ≡ list_tree elements offsets nullability validity) }
        ensures sound { IfOk result IsSound }
        ensures err { IfErr result (λ e. RefusesMaking e (list_tree elements offsets nullability validity)) }
        ensures complete { IsSound (list_tree elements offsets nullability validity) → IsOkOrMemory result }
    {
        let len = offsets.len().saturating_sub(1);
        let dtype = list_type(alloc, elements.dtype(), nullability);
        let children = listed(alloc, elements, offsets, validity);
        match (dtype, children) {
            (Ok(dtype), Ok(children)) => ListArray::of_children(dtype, len, children),
            _ => Err(ArrayError::OutOfMemory),
        }
    }

    /// The array of a node of this type and length over these children.
    ///
    /// Refused as by [`ListArray::try_new`], and as `BadShape` where the elements are of another type or there are not
    /// as many offsets as rows and one.
    pub fn of_children(dtype: DType, len: usize, children: Arrays) -> Result<Array, ArrayError>
        ensures ok { IfOk result (λ a. a ≡ node (untold (typ dtype) len B.list) children) }
        ensures sound { IfOk result IsSound }
        ensures err { IfErr result (λ e. RefusesMaking e (node (untold (typ dtype) len B.list) children)) }
        ensures complete { IsSound (node (untold (typ dtype) len B.list) children) → IsOkOrMemory result }
    {
        let shaped = is_shaped(&dtype, len, children.as_slice());
        let right = shaped
            && is_controlled(&dtype, len, &Body::List, children.as_slice())
            && has_content(&dtype, len, children.as_slice());
        over_children(dtype, len, Body::List, children.into_vec(), shaped, right)
    }
}

// The type of the elements, where a type is one of lists.
pub(crate) fn element_type(dtype: &DType) -> Option<&DType>
    ensures { option_map (λ d. typ d.now) result ≡ element_of (typ dtype.now) }
{
    match dtype {
        DType::List(element, _) => Some(element.get()),
        _ => None,
    }
}

// Whether arrays are the children of a list node: elements, an offset more than rows, and at most a validity.
#[tactic(auto, using(crate::proofs::Listed::shapes))]
fn is_shaped(dtype: &DType, len: usize, children: &[Array]) -> bool
    ensures { IsTrue result ↔ IsWellShaped (untold (typ dtype.now) len B.list) (roses_of children.now) }
{
    if children.len() < 2 {
        return false;
    }
    let (elements, others) = split_first(children);
    let (offsets, after) = split_first(others);
    are_parts(dtype, len, elements, offsets, after)
}

// The same of the elements, the offsets and what stands after them.
fn are_parts(dtype: &DType, len: usize, elements: &Array, offsets: &Array, after: &[Array]) -> bool
    ensures { IsTrue result ↔ IsWellShaped (untold (typ dtype.now) len B.list) (more elements.now (more offsets.now (roses_of after.now))) }
{
    let Some(kind) = element_type(dtype) else {
        return false;
    };
    if !is_of_type(elements, kind) {
        return false;
    }
    if !are_counted(offsets, len) {
        return false;
    }
    is_validity_after(dtype.nullability(), after, len)
}

// Whether the content of such children is right: the offsets are.
#[tactic(auto, using(crate::proofs::Listed::lists))]
fn has_content(dtype: &DType, len: usize, children: &[Array]) -> bool
    requires { IsWellShaped (untold (typ dtype.now) len B.list) (roses_of children.now) }
    ensures { IsTrue result ↔ Content len (rows_below (roses_of children.now)) }
{
    let _dtype = dtype;
    let (elements, others) = split_first(children);
    let (offsets, _) = split_first(others);
    are_offsets(offsets, len, elements.len())
}

// The type of lists of elements of a type.
pub(crate) fn list_type(
    alloc: Global,
    element: &DType,
    nullability: Nullability,
) -> Result<DType, ArrayError>
    ensures ok { IfOk result (λ d. typ d ≡ node (list nullability) (more (typ element.now) end)) }
    ensures err { IsOkUnless result ArrayError.OutOfMemory }
{
    let element = or_memory(element.clone(alloc))?;
    let part = or_memory(TypeRef::new(alloc, element))?;
    Ok(DType::List(part, nullability))
}
