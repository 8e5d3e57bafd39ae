//! Nodes that nothing reads, kept unchanged.

ghost use Rattle.std.specs.Prelude.{IfOk, IfErr};
ghost use Rattle.vx_types.specs.Seen.{typ};
ghost use Rattle.vx_wire_tree.specs.Kept.{IsKeptAs};
ghost use Rattle.vx_serialized.specs.ReadingSteps.{RefusesKept};
ghost use Rattle.vx_serialized.specs.Serialized.{wire_in};

use crate::decoding::{head_of, own_buffers};
use crate::error::WireError;
use crate::serialized::node::SerializedNode;
use std::alloc::Global;
use vx_arrays::{Array, Arrays, new_foreign_array};
use vx_registry::ReadContext;
use vx_types::DType;

/// The foreign array of a node with those below it, each of this type and length: identifiers, metadata and buffers are
/// kept unchanged. Neither an encoding nor the session is asked, and no statistics are looked at: nothing is known of
/// what stands below such a node.
pub(crate) fn keep_node(
    alloc: Global,
    node: &SerializedNode<'_>,
    dtype: &DType,
    len: usize,
    ids: &ReadContext,
) -> Result<Array, WireError>
    ensures kept { IfOk result (IsKeptAs (wire_in ids.now node.now) (typ dtype.now) len) }
    ensures cause { IfErr result (λ e. RefusesKept e (wire_in ids.now node.now)) }
{
    let Some(id) = ids.resolve(node.encoding_id()) else {
        return Err(WireError::UnknownIndex);
    };
    let mut children = Arrays::new(alloc);
    for i in 0..node.nchildren() {
        let below = node.child(i);
        let child = keep_node(alloc, &below, dtype, len, ids)?;
        let Ok(()) = children.push(child) else {
            return Err(WireError::OutOfMemory);
        };
    }
    let buffers = own_buffers(alloc, node)?;
    let head = head_of(alloc, node, id, dtype, len)?;
    match new_foreign_array(
        alloc,
        head.serialized_id,
        head.dtype,
        len,
        head.metadata,
        buffers,
        children,
    ) {
        Ok(array) => Ok(array),
        Err(_) => Err(WireError::OutOfMemory),
    }
}
