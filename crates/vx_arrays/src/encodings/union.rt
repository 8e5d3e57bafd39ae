//! Union arrays, over the tags of their rows.

ghost use Rattle.std.specs.Prelude.{◌≡◌, ◌<◌, ◌≤◌, ◌↔◌, IfOk, IfErr, IfSome, IsOkUnless, IsTrue, option_map};
ghost use Rattle.vx_trees.specs.Everywhere.{EverywhereBelow};
ghost use Rattle.vx_trees.specs.Rose.{end, label, more, node, roses_of};
ghost use Rattle.vx_trees.specs.Walks.{nodes, nodes_of};
ghost use Rattle.vx_types.specs.Fits.{member};
ghost use Rattle.vx_types.specs.Seen.{typ};
ghost use Rattle.vx_array_tree.specs.Body as B;
ghost use Rattle.vx_array_tree.specs.Encodings.Unions.{Content, rows as rows_of_unions, tags_of};
ghost use Rattle.vx_array_tree.specs.Refused.{IsWellShaped};
ghost use Rattle.vx_array_tree.specs.Rows.{first, IsThere};
ghost use Rattle.vx_array_tree.specs.Sound.{IsSound, IsSoundNode};
ghost use Rattle.vx_array_tree.specs.Tree.{array_place, rows_below, rows_of, untold};
ghost use Rattle.vx_array_tree.specs.Place.{place};
ghost use Rattle.vx_types.specs.Kind.{primitive};
ghost use Rattle.vx_numbers.specs.declared.ptype.PType.TheVariants.{U8};
ghost use Rattle.vx_arrays.specs.Parts.{AreThere, parts_cells, parts_nodes, parts_value};
ghost use Rattle.vx_arrays.specs.Refused.{RefusesMaking, IsOkOrMemory};
ghost use Rattle.vx_arrays.specs.Unions.{IsTagged, union_head, union_tree};

use crate::array::Array;
use crate::body::Body;
use crate::construction::over_children;
use crate::control::is_controlled;
use crate::encodings::structs::are_columns;
use crate::list::Arrays;
use crate::parts::RowParts;
use crate::place::stands_at;
use crate::validity::split_first;
use std::alloc::Global;
use vx_rows::{ArrayError, LoneRow};
use vx_types::{DType, Nullability, PType, UnionVariants};

/// Union arrays, over the tags of their rows and an array for each member.
pub struct UnionArray {}

impl UnionArray {
    /// The identifier of the encoding.
    pub const ID: &'static str = "vortex.union";

    // The parts of a row of a node of this type, length and children.
    #[tactic(auto, using(crate::proofs::Tagged::tagged))]
    pub(crate) fn parts_at<'a>(
        dtype: &DType,
        len: usize,
        children: &'a [Array],
        index: usize,
    ) -> RowParts<'a>
        requires sound { IsSoundNode (untold (typ dtype.now) len B.union) (roses_of children.now) }
        requires inside { index < len }
        ensures value { let rows = rows_of_unions (typ dtype.now) len (rows_below (roses_of children.now)) in
            parts_value result ≡ rows.row index }
        ensures cells { let rows = rows_of_unions (typ dtype.now) len (rows_below (roses_of children.now)) in
            parts_cells result ≡ rows.cells index }
        ensures there { AreThere result }
        ensures smaller { parts_nodes result ≤ nodes_of (roses_of children.now) }
    {
        match tags_in(dtype, len, children).is_valid(index) {
            None => RowParts::Lone(LoneRow::Opaque),
            Some(false) => RowParts::Lone(LoneRow::Null),
            Some(true) => tagged_at(dtype, len, children, index),
        }
    }

    /// The array of unions over the tags of the rows and an array of the same length for each member: a row is that
    /// of the member which its tag names, and null where its tag is.
    ///
    /// `BadShape` where the tags are not of type U8, or where the arrays are not those of the members.
    /// `ForeignControl` where the tags hold a foreign node. `BadContent` where a tag that is not null names no
    /// member.
    pub fn try_new(
        _alloc: Global,
        variants: UnionVariants,
        type_ids: Array,
        children: Arrays,
    ) -> Result<Array, ArrayError>
        ensures ok { IfOk result (λ a. a ≡ union_tree variants type_ids children) }
        ensures sound { IfOk result IsSound }
        ensures err { IfErr result (λ e. RefusesMaking e (union_tree variants type_ids children)) }
        ensures complete { IsSound (union_tree variants type_ids children) → IsOkOrMemory result }
    {
        let len = type_ids.len();
        let dtype = DType::Union(variants, type_ids.dtype().nullability());
        match after_tags(type_ids, children) {
            Ok(children) => over_tags(dtype, len, children),
            Err(error) => Err(error),
        }
    }

    /// The array of a node of this type and length over these children.
    ///
    /// Refused as by [`UnionArray::try_new`], and as `BadShape` where the number of tags is not the length.
    pub fn of_children(dtype: DType, len: usize, children: Arrays) -> Result<Array, ArrayError>
        ensures ok { IfOk result (λ a. a ≡ node (untold (typ dtype) len B.union) children) }
        ensures sound { IfOk result IsSound }
        ensures err { IfErr result (λ e. RefusesMaking e (node (untold (typ dtype) len B.union) children)) }
        ensures complete { IsSound (node (untold (typ dtype) len B.union) children) → IsOkOrMemory result }
    {
        over_tags(dtype, len, children.into_vec())
    }
}

// The array of a node of this type and length over its tags and its members.
fn over_tags(dtype: DType, len: usize, children: Vec<Array>) -> Result<Array, ArrayError>
    requires below { EverywhereBelow IsSoundNode (roses_of children.items) }
    ensures ok { IfOk result (λ a. a ≡ node (untold (typ dtype) len B.union) (roses_of children.items)) }
    ensures sound { IfOk result IsSound }
    ensures err { IfErr result (λ e. RefusesMaking e (node (untold (typ dtype) len B.union) (roses_of children.items))) }
    ensures complete { IsSound (node (untold (typ dtype) len B.union) (roses_of children.items)) → IsOkOrMemory result }
{
    let shaped = is_shaped(&dtype, len, children.as_slice());
    let right = shaped
        && is_controlled(&dtype, len, &Body::Union, children.as_slice())
        && has_content(&dtype, len, children.as_slice());
    over_children(dtype, len, Body::Union, children, shaped, right)
}

// The children of a union node: the tags, and then the members.
fn after_tags(type_ids: Array, members: Arrays) -> Result<Vec<Array>, ArrayError>
    ensures children { IfOk result (λ children. roses_of children.items ≡ more type_ids members) }
    ensures sound { IfOk result (λ children. EverywhereBelow IsSoundNode (roses_of children.items)) }
    ensures err { IsOkUnless result ArrayError.OutOfMemory }
{
    let mut children = members;
    match children.put_first(type_ids) {
        Ok(()) => Ok(children.into_vec()),
        Err(error) => Err(error),
    }
}

// The tags among the children of a node of this type and length.
#[tactic(auto, using(crate::proofs::Tagged::tagged))]
pub(crate) fn tags_in<'a>(dtype: &DType, len: usize, children: &'a [Array]) -> &'a Array
    requires { IsSoundNode (untold (typ dtype.now) len B.union) (roses_of children.now) }
    ensures rows { rows_of result.now ≡ first (rows_below (roses_of children.now)) }
    ensures counted { (label result.now).len ≡ len }
    ensures smaller { nodes result.now ≤ nodes_of (roses_of children.now) }
{
    let _len = len;
    let _dtype = dtype;
    let (tags, _) = split_first(children);
    tags
}

// The parts of a valid row: its tag, and the row of the member that the tag names.
#[tactic(auto, using(crate::proofs::Tagged::tagged))]
fn tagged_at<'a>(dtype: &DType, len: usize, children: &'a [Array], index: usize) -> RowParts<'a>
    requires sound { IsSoundNode (untold (typ dtype.now) len B.union) (roses_of children.now) }
    requires inside { index < len }
    requires there { IsThere (first (rows_below (roses_of children.now))).valid index }
    ensures value { let rows = rows_of_unions (typ dtype.now) len (rows_below (roses_of children.now)) in
        parts_value result ≡ rows.row index }
    ensures cells { let rows = rows_of_unions (typ dtype.now) len (rows_below (roses_of children.now)) in
        parts_cells result ≡ rows.cells index }
    ensures there { AreThere result }
    ensures smaller { parts_nodes result ≤ nodes_of (roses_of children.now) }
{
    let _len = len;
    let (tags, members) = split_first(children);
    match tags.natural_at(index) {
        None => unreachable!(),
        Some(number) => match named(ids_of(dtype), members, number) {
            None => unreachable!(),
            Some((tag, array)) => RowParts::Tagged { tag, array, index },
        },
    }
}

// The tags of the members of a union type; none of any other type.
fn ids_of(dtype: &DType) -> &[u8]
    ensures { result.now ≡ tags_of (typ dtype.now) }
{
    match dtype {
        DType::Union(members, _) => members.type_ids().as_slice(),
        _ => &[],
    }
}

// The member whose tag is this number, with the tag.
#[tactic(auto, using(crate::proofs::Tagged::naming))]
fn named<'a>(ids: &[u8], members: &'a [Array], number: u64) -> Option<(u8, &'a Array)>
    ensures member { option_map (λ m. m.1.now) result ≡ member number ids.now (roses_of members.now) }
    ensures tag { IfSome result (λ m. m.0 ≡ number) }
{
    for i in 0..ids.len().min(members.len()) {
        if ids[i] as u64 == number {
            return Some((ids[i], &members[i]));
        }
    }
    None
}

// Whether arrays are the children of a union node: the tags, and then an array for each member.
fn is_shaped(dtype: &DType, len: usize, children: &[Array]) -> bool
    ensures { IsTrue result ↔ IsWellShaped (untold (typ dtype.now) len B.union) (roses_of children.now) }
{
    match dtype {
        DType::Union(members, nullability) => are_shaped(members, *nullability, len, children),
        _ => false,
    }
}

// The same of a union type of these members.
fn are_shaped(
    members: &UnionVariants,
    nullability: Nullability,
    len: usize,
    children: &[Array],
) -> bool
    ensures { IsTrue result ↔ IsWellShaped (union_head members.now nullability len) (roses_of children.now) }
{
    match children {
        [] => false,
        [tags, columns @ ..] => {
            are_tags(nullability, tags, len)
                && are_columns(members.variants().as_slice(), columns, len)
        }
    }
}

// Whether an array may be the tags of `len` rows, of the union's nullability.
fn are_tags(nullability: Nullability, tags: &Array, len: usize) -> bool
    ensures { IsTrue result ↔ (array_place tags.now ≡ place (node (primitive U8 nullability) end) len) }
{
    stands_at(tags, &DType::Primitive(PType::U8, nullability), len)
}

// Whether the content of such children is right: each tag that is not null names a member.
#[tactic(auto, using(crate::proofs::Tagged::contents))]
fn has_content(dtype: &DType, len: usize, children: &[Array]) -> bool
    requires { IsWellShaped (untold (typ dtype.now) len B.union) (roses_of children.now) }
    ensures { IsTrue result ↔ Content (typ dtype.now) len (rows_below (roses_of children.now)) }
{
    let (tags, members) = split_first(children);
    let ids = ids_of(dtype);
    for i in 0..len {
        if !is_tagged(ids, tags, members, i) {
            return false;
        }
    }
    true
}

// Whether a row's tag, where it is not null, names a member.
#[tactic(auto, using(crate::proofs::Tagged::naming))]
fn is_tagged(ids: &[u8], tags: &Array, members: &[Array], index: usize) -> bool
    requires inside { index < (label tags.now).len }
    ensures { IsTrue result ↔ IsTagged ids.now (rows_of tags.now) (roses_of members.now) index }
{
    match tags.is_valid(index) {
        None => true,
        Some(false) => true,
        Some(true) => {
            match tags.natural_at(index) {
                None => false,
                Some(number) => named(ids, members, number).is_some(),
            }
        }
    }
}
