//! Null arrays.

ghost use Rattle.std.specs.Prelude.{◌≡◌, IfOk, IfErr, IsOkUnless, Some};
ghost use Rattle.vx_trees.specs.Rose.{node, roses_of};
ghost use Rattle.vx_types.specs.Seen.{typ};
ghost use Rattle.vx_array_tree.specs.Body as B;
ghost use Rattle.vx_array_tree.specs.Sound.{IsSound, IsSoundNode};
ghost use Rattle.vx_array_tree.specs.Tree.{Tree, untold};
ghost use Rattle.vx_arrays.specs.NewBuffers.{RefusesBuffers, with_buffers};
ghost use Rattle.vx_arrays.specs.Nulls.{null_tree};
ghost use Rattle.vx_arrays.specs.Refused.{IsOkOrMemory};

use crate::array::Array;
use crate::body::Body;
use std::alloc::Global;
use vx_buffer::BufferHandles;
use vx_rows::ArrayError;
use vx_types::DType;

/// Arrays in which each row is null.
pub struct NullArray {}

impl NullArray {
    /// The identifier of the encoding.
    pub const ID: &'static str = "vortex.null";

    /// The array of `len` nulls, of the type of nulls. It holds no buffers and has no children.
    pub fn new(alloc: Global, len: usize) -> Result<Array, ArrayError>
        ensures ok { IfOk result (λ a. a ≡ null_tree len) }
        ensures sound { IfOk result IsSound }
        ensures err { IsOkUnless result ArrayError.OutOfMemory }
    {
        Ok(Array::from_parts(DType::Null, len, Body::Null, Vec::new(alloc)))
    }

    // The array of a node of this type, length and children that holds these buffers in place of its own.
    pub(crate) fn with_buffers(
        alloc: Global,
        dtype: &DType,
        len: usize,
        children: &[Array],
        buffers: BufferHandles,
    ) -> Result<Array, ArrayError>
        requires { IsSoundNode (untold (typ dtype.now) len B.null) (roses_of children.now) }
        ensures ok { let t : Tree = node (untold (typ dtype.now) len B.null) (roses_of children.now) in
            IfOk result (λ a. with_buffers t buffers ≡ Some a) }
        ensures sound { IfOk result IsSound }
        ensures err { let t : Tree = node (untold (typ dtype.now) len B.null) (roses_of children.now) in
            IfErr result (λ e. RefusesBuffers e t buffers) }
        ensures complete { let t : Tree = node (untold (typ dtype.now) len B.null) (roses_of children.now) in
            (u : Tree) → with_buffers t buffers ≡ Some u → IsSound u → IsOkOrMemory result }
    {
        if !buffers.is_empty() {
            return Err(ArrayError::BadShape);
        }
        NullArray::new(alloc, len)
    }
}
