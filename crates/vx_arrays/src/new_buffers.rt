//! Arrays with other buffers.

ghost use Rattle.std.specs.Prelude.{◌≡◌, [], Some, IfOk, IfErr, IsOkUnless, List, length};
ghost use Rattle.vx_buffer.specs.Buffer.{Buffer};
ghost use Rattle.vx_trees.specs.Everywhere.{EverywhereBelow};
ghost use Rattle.vx_trees.specs.Rose.{count, node, roses_of};
ghost use Rattle.vx_types.specs.Seen.{typ};
ghost use Rattle.vx_array_tree.specs.Place.{before_validity};
ghost use Rattle.vx_array_tree.specs.Sound.{IsSound, IsSoundNode};
ghost use Rattle.vx_array_tree.specs.Table.{bufferless};
ghost use Rattle.vx_array_tree.specs.Tree.{Tree, option_trees, places, untold};
ghost use Rattle.vx_arrays.specs.NewBuffers.{RefusesBuffers, rebuffered, with_buffers};
ghost use Rattle.vx_arrays.specs.Plain.{plain_body};
ghost use Rattle.vx_arrays.specs.Refused.{IsOkOrMemory};

use crate::array::Array;
use crate::body::Body;
use std::alloc::Global;
use vx_buffer::BufferHandles;
use vx_rows::{ArrayError, copied_type};
use vx_scalars::StatsSet;
use vx_types::DType;

impl Array {
    /// The array with these buffers at its root in place of its own, in their order, and the same type, length,
    /// children and statistics.
    ///
    /// `BadShape` where the encoding has another number of buffers, or where these do not hold the rows; `BadContent`
    /// where a content rule is broken. A foreign node takes any buffers.
    pub fn with_buffers(&self, alloc: Global, buffers: BufferHandles) -> Result<Array, ArrayError>
        ensures ok { IfOk result (λ a. with_buffers self.now buffers ≡ Some a) }
        ensures sound { IfOk result IsSound }
        ensures err { IfErr result (λ e. RefusesBuffers e self.now buffers) }
        ensures complete { (t : Tree) → with_buffers self.now buffers ≡ Some t → IsSound t → IsOkOrMemory result }
    {
        let stats = match self.statistics().clone(alloc) {
            Ok(stats) => stats,
            Err(_) => return Err(ArrayError::OutOfMemory),
        };
        let array = self.untold_with(alloc, buffers)?;
        Ok(array.told(stats))
    }
}

// A copy of the validity that a node of `len` rows has as its only child, if any.
pub(crate) fn copied_validity(
    alloc: Global,
    children: &[Array],
    len: usize,
) -> Result<Option<Array>, ArrayError>
    requires { before_validity [] len (count (roses_of children.now)) ≡ Some (places (roses_of children.now)) }
    ensures ok { IfOk result (λ validity. option_trees validity ≡ roses_of children.now) }
    ensures err { IsOkUnless result ArrayError.OutOfMemory }
{
    match children {
        [] => Ok(None),
        [array, ..] => Ok(Some(array.clone(alloc)?)),
    }
}

// A copy of the array of a node without buffers, without statistics; new buffers are refused.
pub(crate) fn without_buffers(
    alloc: Global,
    dtype: &DType,
    len: usize,
    body: Body,
    children: &[Array],
    buffers: BufferHandles,
) -> Result<Array, ArrayError>
    requires sound { IsSoundNode (untold (typ dtype.now) len (plain_body body)) (roses_of children.now) }
    requires below { EverywhereBelow IsSoundNode (roses_of children.now) }
    requires bufferless { (bs : List Buffer) → rebuffered (plain_body body) bs ≡ bufferless (plain_body body) bs }
    ensures ok { let t : Tree = node (untold (typ dtype.now) len (plain_body body)) (roses_of children.now) in
        IfOk result (λ a. with_buffers t buffers ≡ Some a) }
    ensures sound { IfOk result IsSound }
    ensures err { let t : Tree = node (untold (typ dtype.now) len (plain_body body)) (roses_of children.now) in
        IfErr result (λ e. RefusesBuffers e t buffers) }
    ensures complete { let t : Tree = node (untold (typ dtype.now) len (plain_body body)) (roses_of children.now) in
        (u : Tree) → with_buffers t buffers ≡ Some u → IsSound u → IsOkOrMemory result }
{
    if !buffers.is_empty() {
        drop(body);
        return Err(ArrayError::BadShape);
    }
    once_more(alloc, dtype, len, body, children)
}

// A copy of a node's array, without statistics, which the caller puts back.
pub(crate) fn once_more(
    alloc: Global,
    dtype: &DType,
    len: usize,
    body: Body,
    children: &[Array],
) -> Result<Array, ArrayError>
    requires sound { IsSoundNode (untold (typ dtype.now) len (plain_body body)) (roses_of children.now) }
    requires below { EverywhereBelow IsSoundNode (roses_of children.now) }
    ensures ok { IfOk result (λ a. a ≡ node (untold (typ dtype.now) len (plain_body body)) (roses_of children.now)) }
    ensures sound { IfOk result IsSound }
    ensures err { IsOkUnless result ArrayError.OutOfMemory }
{
    let dtype = copied_type(alloc, dtype);
    let children = copied_children(alloc, children);
    match (dtype, children) {
        (Ok(dtype), Ok(children)) => {
            let stats = StatsSet::new(alloc);
            Ok(Array::with_parts(dtype, len, stats, body, children))
        }
        _ => {
            drop(body);
            Err(ArrayError::OutOfMemory)
        }
    }
}

// Copies of a node's children.
fn copied_children(alloc: Global, children: &[Array]) -> Result<Vec<Array>, ArrayError>
    ensures ok { IfOk result (λ copies. copies.items ≡ children.now) }
    ensures err { IsOkUnless result ArrayError.OutOfMemory }
{
    let mut copies = Vec::new(alloc);
    for child in children {
        copies.push(child.clone(alloc)?)?;
    }
    Ok(copies)
}
