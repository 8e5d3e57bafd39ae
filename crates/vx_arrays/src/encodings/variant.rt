//! Variant arrays, over a core and an optional typed child, the shredded one.

ghost use Rattle.std.specs.Prelude.{◌≡◌, ◌<◌, ◌≤◌, ◌↔◌, IfOk, IfErr, IsOkUnless, IsTrue};
ghost use Rattle.vx_trees.specs.Rose.{label, more, node, roses_of};
ghost use Rattle.vx_trees.specs.Walks.{nodes_of};
ghost use Rattle.vx_types.specs.Fits.{IsVariant};
ghost use Rattle.vx_types.specs.Seen.{typ};
ghost use Rattle.vx_types.specs.Typ.{IsType};
ghost use Rattle.vx_array_tree.specs.Body as B;
ghost use Rattle.vx_array_tree.specs.Encodings.Variants.{metadata_of, rows as rows_of_variants};
ghost use Rattle.vx_array_tree.specs.Place.{place};
ghost use Rattle.vx_array_tree.specs.Refused.{IsWellShaped};
ghost use Rattle.vx_array_tree.specs.Sound.{IsSound, IsSoundNode};
ghost use Rattle.vx_array_tree.specs.Tree.{array_place, option_trees, places, rows_below, untold};
ghost use Rattle.vx_arrays.specs.Parts.{AreThere, parts_cells, parts_nodes, parts_value};
ghost use Rattle.vx_arrays.specs.Refused.{RefusesMaking, IsOkOrMemory};
ghost use Rattle.vx_arrays.specs.Variants.{AreRows, IsOfVariants, variant_tree};

use crate::array::Array;
use crate::body::Body;
use crate::construction::over_children;
use crate::list::Arrays;
use crate::parts::RowParts;
use crate::place::stands_at;
use crate::validity::split_first;
use std::alloc::Global;
use vx_rows::{ArrayError, copied_type};
use vx_types::DType;

/// Variant arrays, over a core and an optional typed child.
pub struct VariantArray {}

impl VariantArray {
    /// The identifier of the encoding.
    pub const ID: &'static str = "vortex.variant";

    // The parts of a row of a node of this type, length and children.
    #[tactic(auto, using(crate::proofs::Shredded::shredded))]
    pub(crate) fn parts_at<'a>(
        dtype: &DType,
        len: usize,
        children: &'a [Array],
        index: usize,
    ) -> RowParts<'a>
        requires sound { IsSoundNode (untold (typ dtype.now) len B.variant) (roses_of children.now) }
        requires inside { index < len }
        ensures value { let ts = roses_of children.now in
            parts_value result ≡ (rows_of_variants len (metadata_of (places ts)) (rows_below ts)).row index }
        ensures cells { let ts = roses_of children.now in
            parts_cells result ≡ (rows_of_variants len (metadata_of (places ts)) (rows_below ts)).cells index }
        ensures there { AreThere result }
        ensures smaller { parts_nodes result ≤ nodes_of (roses_of children.now) }
    {
        let (core, after) = core_in(dtype, len, children);
        match after {
            [] => RowParts::At { array: core, index },
            [shredded, ..] => RowParts::Merged {
                core,
                shredded,
                index,
            },
        }
    }

    /// The array of the core's variants, over which a typed child of the same length may stand: a row is then the
    /// typed row merged over the core's, and the core's where the typed one is null.
    ///
    /// `BadShape` where the core's type is not Variant, or the typed child has another length.
    pub fn try_new(alloc: Global, core: Array, shredded: Option<Array>) -> Result<Array, ArrayError>
        ensures ok { IfOk result (λ a. a ≡ variant_tree core shredded) }
        ensures sound { IfOk result IsSound }
        ensures err { IfErr result (λ e. RefusesMaking e (variant_tree core shredded)) }
        ensures complete { IsSound (variant_tree core shredded) → IsOkOrMemory result }
    {
        let len = core.len();
        let dtype = copied_type(alloc, core.dtype());
        let children = with_shredded(alloc, core, shredded);
        match (dtype, children) {
            (Ok(dtype), Ok(children)) => VariantArray::of_children(dtype, len, children),
            _ => Err(ArrayError::OutOfMemory),
        }
    }

    /// The array of a node of this type and length over these children.
    ///
    /// `BadShape` where they are not a core of this length and of this type, which is Variant, and after it at most a
    /// typed child of this length.
    pub fn of_children(dtype: DType, len: usize, children: Arrays) -> Result<Array, ArrayError>
        ensures ok { IfOk result (λ a. a ≡ node (untold (typ dtype) len B.variant) children) }
        ensures sound { IfOk result IsSound }
        ensures err { IfErr result (λ e. RefusesMaking e (node (untold (typ dtype) len B.variant) children)) }
        ensures complete { IsSound (node (untold (typ dtype) len B.variant) children) → IsOkOrMemory result }
    {
        let shaped = is_shaped(&dtype, len, children.as_slice());
        over_children(dtype, len, Body::Variant, children.into_vec(), shaped, true)
    }
}

// The children of a variant node: the core, and after it the shredded child, if any.
fn with_shredded(alloc: Global, core: Array, shredded: Option<Array>) -> Result<Arrays, ArrayError>
    ensures children { IfOk result (λ children. children ≡ more core (option_trees shredded)) }
    ensures err { IsOkUnless result ArrayError.OutOfMemory }
{
    let mut children = Arrays::new(alloc);
    let first = children.push(core);
    let last = children.push_some(shredded);
    match (first, last) {
        (Ok(()), Ok(())) => Ok(children),
        _ => Err(ArrayError::OutOfMemory),
    }
}

// The core among the children of a node of this type and length, and what stands after it.
#[tactic(auto, using(crate::proofs::Shredded::parts))]
pub(crate) fn core_in<'a>(
    dtype: &DType,
    len: usize,
    children: &'a [Array],
) -> (&'a Array, &'a [Array])
    requires { IsSoundNode (untold (typ dtype.now) len B.variant) (roses_of children.now) }
    ensures split_first { more result.0.now (roses_of result.1.now) ≡ roses_of children.now }
    ensures core { (IsVariant (label result.0.now).dtype) × ((label result.0.now).len ≡ len) }
    ensures after { AreRows len (roses_of result.1.now) }
{
    let _dtype = dtype;
    let _len = len;
    split_first(children)
}

// Whether arrays are the children of a variant node: a core, and after it at most a shredded child.
#[tactic(auto, using(crate::proofs::Shredded::shapes))]
fn is_shaped(dtype: &DType, len: usize, children: &[Array]) -> bool
    ensures { IsTrue result ↔ IsWellShaped (untold (typ dtype.now) len B.variant) (roses_of children.now) }
{
    match children {
        [core] => is_core(dtype, core, len),
        [core, shredded] => is_core(dtype, core, len) && is_beside(shredded, len),
        _ => false,
    }
}

// Whether an array may be the core of n rows of a Variant type.
fn is_core(dtype: &DType, core: &Array, len: usize) -> bool
    ensures { IsTrue result ↔ (IsOfVariants (typ dtype.now) × (array_place core.now ≡ place (typ dtype.now) len)) }
{
    match dtype {
        DType::Variant(_) => stands_at(core, dtype, len),
        _ => false,
    }
}

// Whether a typed child has n rows.
fn is_beside(shredded: &Array, len: usize) -> bool
    ensures rows { IsTrue result ↔ ((label shredded.now).len ≡ len) }
    ensures typed { IsType (label shredded.now).dtype }
{
    let _ = shredded.dtype().is_within(1);
    shredded.len() == len
}
