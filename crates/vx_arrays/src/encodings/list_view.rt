//! Arrays of lists, each with an offset and a size of its own.

ghost use Rattle.std.specs.Prelude.{◌≡◌, ◌+◌, ◌^◌, ◌<◌, ◌≤◌, ◌↔◌, ℕ, [], Some, true, IfOk, IfErr, IsTrue};
ghost use Rattle.vx_trees.specs.Rose.{count, label, node, roses_of};
ghost use Rattle.vx_trees.specs.Walks.{nodes_of};
ghost use Rattle.vx_types.specs.Seen.{typ};
ghost use Rattle.vx_array_tree.specs.Body as B;
ghost use Rattle.vx_array_tree.specs.Encodings.ListViews.{Content, IsView, rows as rows_of_views};
ghost use Rattle.vx_array_tree.specs.Place.{before_validity};
ghost use Rattle.vx_array_tree.specs.Refused.{IsWellShaped};
ghost use Rattle.vx_array_tree.specs.Rows.{index_at, rest, validity, IsThere};
ghost use Rattle.vx_array_tree.specs.Sound.{IsSound, IsSoundNode};
ghost use Rattle.vx_array_tree.specs.Tree.{places, rows_below, rows_of, untold};
ghost use Rattle.vx_arrays.specs.Compared.{compared_body};
ghost use Rattle.vx_arrays.specs.ListViews.{list_view_tree, views_of, AreCounts, AreViewParts};
ghost use Rattle.vx_arrays.specs.Lists.{element_of};
ghost use Rattle.vx_arrays.specs.Parts.{AreThere, parts_cells, parts_nodes, parts_value};
ghost use Rattle.vx_arrays.specs.Refused.{RefusesMaking, IsOkOrMemory};

use crate::array::Array;
use crate::body::Body;
use crate::construction::over_children;
use crate::control::is_controlled;
use crate::encodings::lists::{element_type, list_type};
use crate::list::Arrays;
use crate::offsets::{index_at, is_of_offsets};
use crate::parts::{RowParts, where_there};
use crate::validity::{is_validity_after, listed_by_three, split_first, validity_at};
use std::alloc::Global;
use std::marker::Model;
use vx_rows::ArrayError;
use vx_types::{DType, Nullability};

/// What a list view node holds: whether its rows follow one another. That is kept as given, and never written.
#[derive(Drop)]
pub struct ListViewData {
    zero_copy: bool,
}

impl Model for ListViewData {
    ghost use Rattle.vx_array_tree.specs.Encodings.ListViews.{Data, data_code};

    ghost Value = { Data };

    ghost coded = { data_code };

    ghost view = { λ x. record { zero_copy = x.zero_copy } };
}

impl ListViewData {
    /// Whether the flag says that the rows follow one another. It is not checked.
    pub fn zero_copy(&self) -> bool
        ensures { result ≡ self.now.zero_copy }
    {
        self.zero_copy
    }

    // Whether the flags are equal.
    #[tactic(auto, using(crate::proofs::Bodies::ListViews::list_view_bodies))]
    pub(crate) fn array_eq(&self, other: &ListViewData) -> bool
        ensures { IsTrue result ↔ (compared_body (B.listview self.now) ≡ compared_body (B.listview other.now)) }
    {
        self.zero_copy == other.zero_copy
    }

    // A copy.
    pub(crate) fn again(&self) -> ListViewData
        ensures { result ≡ self.now }
    {
        ListViewData {
            zero_copy: self.zero_copy,
        }
    }

    // Whether a row is valid in a node of this type, length and children; None where that is not known.
    #[tactic(auto, using(crate::proofs::ListViewed::list_views))]
    pub(crate) fn valid_at(
        &self,
        dtype: &DType,
        len: usize,
        children: &[Array],
        index: usize,
    ) -> Option<bool>
        requires sound { IsSoundNode (untold (typ dtype.now) len (B.listview self.now)) (roses_of children.now) }
        requires inside { index < len }
        ensures { result ≡ validity (rest (rest (rest (rows_below (roses_of children.now))))) index }
    {
        let _dtype = dtype;
        let (_, others) = split_first(children);
        let (_, last) = split_first(others);
        let (_, after) = split_first(last);
        validity_at(after, len, index)
    }

    // The parts of a row of a node of this type, length and children.
    #[tactic(auto, using(crate::proofs::ListViewed::list_views))]
    pub(crate) fn parts_at<'a>(
        &self,
        dtype: &DType,
        len: usize,
        children: &'a [Array],
        index: usize,
    ) -> RowParts<'a>
        requires sound { IsSoundNode (untold (typ dtype.now) len (B.listview self.now)) (roses_of children.now) }
        requires inside { index < len }
        ensures value { let rows = rows_of_views len (rows_below (roses_of children.now)) in
            parts_value result ≡ rows.row index }
        ensures cells { let rows = rows_of_views len (rows_below (roses_of children.now)) in
            parts_cells result ≡ rows.cells index }
        ensures there { AreThere result }
        ensures smaller { parts_nodes result ≤ nodes_of (roses_of children.now) }
    {
        let valid = self.valid_at(dtype, len, children, index);
        let (array, others) = split_first(children);
        let (offsets, last) = split_first(others);
        let (sizes, _) = split_first(last);
        let (start, count) = view_at(valid, array, offsets, sizes, index);
        where_there(
            valid,
            RowParts::Run {
                array,
                start,
                count,
            },
        )
    }
}

/// Arrays of lists, each with an offset and a size of its own, so that they may stand in any order, overlap or leave
/// elements out.
pub struct ListViewArray {}

impl ListViewArray {
    /// The identifier of the encoding.
    pub const ID: &'static str = "vortex.listview";

    /// The array of lists, each of as many elements from its offset on as its size says: there are as many rows as
    /// offsets. `validity` says of each row whether it is valid. Whether the rows follow one another is kept as
    /// given.
    ///
    /// `BadShape` where the offsets or the sizes are not non-nullable integers, where their numbers differ, or where
    /// the validity is not allowed. `ForeignControl` where the offsets, the sizes or the validity hold a foreign
    /// node. `BadContent` where in a valid row the offset or the size is below 0, or the elements end past the last.
    pub fn try_new(
        alloc: Global,
        elements: Array,
        offsets: Array,
        sizes: Array,
        nullability: Nullability,
        validity: Option<Array>,
        zero_copy: bool,
    ) -> Result<Array, ArrayError>
        ensures ok { IfOk result (λ a. a ≡ list_view_tree elements offsets sizes nullability validity zero_copy) }
        ensures sound { IfOk result IsSound }
        ensures err { IfErr result (λ e. RefusesMaking e (list_view_tree elements offsets sizes nullability validity zero_copy)) }
        ensures complete { IsSound (list_view_tree elements offsets sizes nullability validity zero_copy) → IsOkOrMemory result }
    {
        let len = offsets.len();
        let dtype = list_type(alloc, elements.dtype(), nullability);
        let children = listed_by_three(alloc, elements, offsets, sizes, validity);
        match (dtype, children) {
            (Ok(dtype), Ok(children)) => {
                ListViewArray::of_children(dtype, len, zero_copy, children)
            }
            _ => Err(ArrayError::OutOfMemory),
        }
    }

    /// The array of a node of this type and length over these children, with this flag.
    ///
    /// Refused as by [`ListViewArray::try_new`], and as `BadShape` where the elements are of another type or there are not
    /// as many offsets as rows.
    pub fn of_children(
        dtype: DType,
        len: usize,
        zero_copy: bool,
        children: Arrays,
    ) -> Result<Array, ArrayError>
        ensures ok { IfOk result (λ a. a ≡ node (untold (typ dtype) len (views_of zero_copy)) children) }
        ensures sound { IfOk result IsSound }
        ensures err { IfErr result (λ e. RefusesMaking e (node (untold (typ dtype) len (views_of zero_copy)) children)) }
        ensures complete { IsSound (node (untold (typ dtype) len (views_of zero_copy)) children) → IsOkOrMemory result }
    {
        let shaped = is_shaped(zero_copy, &dtype, len, children.as_slice());
        let body = Body::ListView(ListViewData { zero_copy });
        let right = shaped
            && is_controlled(&dtype, len, &body, children.as_slice())
            && has_content(zero_copy, &dtype, len, children.as_slice());
        over_children(dtype, len, body, children.into_vec(), shaped, right)
    }
}

// Whether arrays are the children of a list view node: elements, offsets, sizes, and at most a validity.
#[tactic(auto, using(crate::proofs::ListViewed::shapes))]
fn is_shaped(zero_copy: bool, dtype: &DType, len: usize, children: &[Array]) -> bool
    ensures { IsTrue result ↔ IsWellShaped (untold (typ dtype.now) len (views_of zero_copy)) (roses_of children.now) }
{
    let _zero_copy = zero_copy;
    if children.len() < 3 {
        return false;
    }
    let (elements, others) = split_first(children);
    let (offsets, last) = split_first(others);
    let (sizes, after) = split_first(last);
    are_parts(dtype, len, elements, offsets, sizes, after)
}

// The same of the elements, the offsets, the sizes and what stands after them.
fn are_parts(
    dtype: &DType,
    len: usize,
    elements: &Array,
    offsets: &Array,
    sizes: &Array,
    after: &[Array],
) -> bool
    ensures { IsTrue result ↔ AreViewParts (typ dtype.now) len elements.now offsets.now sizes.now (roses_of after.now) }
{
    let element = is_element(dtype, elements);
    let counted = are_counts(offsets, len) && are_counts(sizes, len);
    element && counted && is_validity_after(dtype.nullability(), after, len)
}

// Whether an array is of the type of the elements that a type of lists has.
fn is_element(dtype: &DType, elements: &Array) -> bool
    ensures { IsTrue result ↔ (element_of (typ dtype.now) ≡ Some (label elements.now).dtype) }
{
    match element_type(dtype) {
        Some(kind) => *elements.dtype() == *kind,
        None => false,
    }
}

// Whether an array has an integer for each of n rows.
fn are_counts(array: &Array, len: usize) -> bool
    ensures { IsTrue result ↔ AreCounts len array.now }
{
    array.len() == len && is_of_offsets(array.dtype())
}

// Whether the content of such children is right: each valid row has its elements.
#[tactic(auto, using(crate::proofs::ListViewed::list_views))]
fn has_content(zero_copy: bool, dtype: &DType, len: usize, children: &[Array]) -> bool
    requires { IsWellShaped (untold (typ dtype.now) len (views_of zero_copy)) (roses_of children.now) }
    ensures { IsTrue result ↔ Content len (rows_below (roses_of children.now)) }
{
    let _dtype = dtype;
    let _zero_copy = zero_copy;
    let (elements, others) = split_first(children);
    let (offsets, last) = split_first(others);
    let (sizes, after) = split_first(last);
    are_views(elements, offsets, sizes, after, len)
}

// Whether each of n rows, where it is valid, has its elements.
#[tactic(auto, using(crate::proofs::ListViewed::loops))]
fn are_views(elements: &Array, offsets: &Array, sizes: &Array, after: &[Array], len: usize) -> bool
    requires offsets { (label offsets.now).len ≡ len }
    requires sizes { (label sizes.now).len ≡ len }
    requires planned { before_validity [] len (count (roses_of after.now)) ≡ Some (places (roses_of after.now)) }
    ensures { IsTrue result ↔ ((i : ℕ) → i < len → IsThere (validity (rows_below (roses_of after.now))) i → IsView (rows_of elements.now) (rows_of offsets.now) (rows_of sizes.now) i) }
{
    for i in 0..len {
        let valid = validity_at(after, len, i);
        if !is_right(valid, elements, offsets, sizes, i) {
            return false;
        }
    }
    true
}

// Whether a row has its elements, where it is valid.
fn is_right(
    valid: Option<bool>,
    elements: &Array,
    offsets: &Array,
    sizes: &Array,
    index: usize,
) -> bool
    requires offsets { index < (label offsets.now).len }
    requires sizes { index < (label sizes.now).len }
    ensures { IsTrue result ↔ (valid ≡ Some true → IsView (rows_of elements.now) (rows_of offsets.now) (rows_of sizes.now) index) }
{
    match valid {
        Some(true) => is_view(elements, offsets, sizes, index),
        _ => true,
    }
}

// Whether a row's offset and size are natural numbers, and its elements are there.
#[tactic(auto, using(crate::proofs::ListViewed::views))]
fn is_view(elements: &Array, offsets: &Array, sizes: &Array, index: usize) -> bool
    requires offsets { index < (label offsets.now).len }
    requires sizes { index < (label sizes.now).len }
    ensures { IsTrue result ↔ IsView (rows_of elements.now) (rows_of offsets.now) (rows_of sizes.now) index }
{
    let total = elements.len() as u64;
    match (index_at(offsets, index), index_at(sizes, index)) {
        (Some(offset), Some(size)) => match offset.checked_add(size) {
            Some(last) => last <= total,
            None => false,
        },
        _ => false,
    }
}

// Where the elements of a row begin and how many there are, where the row is valid; else nowhere and none.
#[tactic(auto, using(crate::proofs::ListViewed::views))]
fn view_at(
    valid: Option<bool>,
    elements: &Array,
    offsets: &Array,
    sizes: &Array,
    index: usize,
) -> (usize, usize)
    requires offsets { index < (label offsets.now).len }
    requires sizes { index < (label sizes.now).len }
    requires view { valid ≡ Some true → IsView (rows_of elements.now) (rows_of offsets.now) (rows_of sizes.now) index }
    ensures start { valid ≡ Some true → result.0 ≡ index_at (rows_of offsets.now) index }
    ensures count { valid ≡ Some true → result.1 ≡ index_at (rows_of sizes.now) index }
    ensures within { result.0 + result.1 ≤ (label elements.now).len }
    ensures counted { result.0 + result.1 < 2 ^ 64 }
{
    let _total = elements.len();
    match valid {
        Some(true) => {}
        _ => return (0, 0),
    }
    match (index_at(offsets, index), index_at(sizes, index)) {
        (Some(start), Some(count)) => (start as usize, count as usize),
        _ => unreachable!(),
    }
}
