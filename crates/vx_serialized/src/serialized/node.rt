//! The nodes of a serialized array, borrowed.

ghost use Rattle.std.specs.Prelude.{◌≡◌, ◌<◌, Some, None, length, slice_get, IfOk, IfSome, IfNone, OnErr, IsOkUnless};
ghost use Rattle.vx_trees.specs.Rose.{label, below, count};
ghost use Rattle.vx_flat.specs.Seen.{kinds_in, seen};
ghost use Rattle.vx_flat.specs.Value as value;
ghost use Rattle.vx_serialized.specs.ArraySchema.{stats_fields};
ghost use Rattle.vx_serialized.specs.StatNames.{names_in};
ghost use Rattle.vx_serialized.specs.Message.{node_of, descriptors_of, indices_of};
ghost use Rattle.vx_serialized.specs.Serialized.{IsChildOf, named_buffer, lengths_of};
ghost use Rattle.vx_serialized.specs.Stored.{IsNodeView};

use crate::error::WireError;
use crate::message::first_descriptor;
use crate::serialized::lengths::BufferLengths;
use crate::serialized::stat_names::names_of;
use std::alloc::Global;
use std::marker::Model;
use vx_buffer::{BufferHandle, BufferHandles};
use vx_flat::View;
use vx_types::Names;

/// A node of a serialized array, with the nodes below it: a place in the message, borrowed for as long as the array is.
/// Its accessors read the message in place; only the calls that return lists take memory. Contracts see its tree.
#[derive(Drop)]
pub struct SerializedNode<'a> {
    view: View<'a>,
    descriptors: &'a [u8],
    buffers: &'a BufferHandles,
}

impl<'a> Model for SerializedNode<'a> {
    ghost use Rattle.vx_serialized.specs.Serialized.{Serialized, serialized_code};

    ghost Value = { Serialized };

    ghost coded = { serialized_code };

    ghost use Rattle.vx_flat.specs.Seen.{seen};
    ghost use Rattle.vx_serialized.specs.Message.{node_of, descriptors_of};
    ghost use Rattle.vx_serialized.specs.Stored.{IsNodeView};

    ghost view = { λ n. record { root = node_of (seen n.view); descriptors = descriptors_of n.descriptors.now; buffers = n.buffers.now } };

    ghost invariant = { λ n. IsNodeView n.view };
}

impl<'a> SerializedNode<'a> {
    /// The node that a view shows, in a message with these descriptors, over these buffers.
    pub(crate) fn new(
        view: View<'a>,
        descriptors: &'a [u8],
        buffers: &'a BufferHandles,
    ) -> SerializedNode<'a>
        requires { IsNodeView view }
        ensures { result ≡ record { root = node_of (seen view.entry); descriptors = descriptors_of descriptors.now; buffers = buffers.now } }
    {
        SerializedNode {
            view,
            descriptors,
            buffers,
        }
    }

    /// The number of the node's encoding, in the list of identifiers that comes with the message.
    pub fn encoding_id(&self) -> u16
        ensures { result ≡ (label self.now.root).encoding }
    {
        self.view.number(0) as u16
    }

    /// The bytes of the node's metadata, borrowed from the message.
    pub fn metadata(&self) -> &'a [u8]
        ensures { result.now ≡ (label self.now.root).metadata }
    {
        match self.view.bytes(1) {
            Some(metadata) => metadata,
            None => &[],
        }
    }

    /// The number of the node's children.
    pub fn nchildren(&self) -> usize
        ensures { result ≡ count (below self.now.root) }
    {
        match self.view.vector(2) {
            Some(children) => children.len(),
            None => 0,
        }
    }

    /// The child at this index, which is below `nchildren`.
    pub fn child(&self, i: usize) -> SerializedNode<'a>
        requires { i < count (below self.now.root) }
        ensures { IsChildOf self.now i result }
    {
        match self.view.vector(2) {
            Some(children) => {
                SerializedNode::new(children.table(i), self.descriptors, self.buffers)
            }
            None => unreachable!(),
        }
    }

    // The bytes of the indices by which the node names its buffers.
    fn indices(&self) -> &'a [u8]
        ensures { indices_of result.now ≡ (label self.now.root).buffers }
    {
        match self.view.bytes(3) {
            Some(indices) => indices,
            None => &[],
        }
    }

    /// The number of buffers that the node names.
    pub fn nbuffers(&self) -> usize
        ensures { result ≡ length (label self.now.root).buffers }
    {
        self.indices().len() / 2
    }

    /// The number of the node's buffer at this index, in the list of all buffers. The index is below `nbuffers`.
    pub fn buffer_index(&self, i: usize) -> u16
        requires { i < length (label self.now.root).buffers }
        ensures { slice_get (label self.now.root).buffers i ≡ Some result }
    {
        let indices = self.indices();
        u16::from_le_bytes([indices[2 * i], indices[2 * i + 1]])
    }

    /// The node's buffer at this index, borrowed.
    ///
    /// # Errors
    /// `OutOfBounds`, exactly where the node names no buffer at this index, or one that is not there.
    pub fn buffer(&self, i: usize) -> Result<&'a BufferHandle, WireError>
        ensures ok { IfOk result (λ b. named_buffer self.now i ≡ Some b.now) }
        ensures error { IsOkUnless result WireError.OutOfBounds }
        ensures cause { OnErr result (named_buffer self.now i ≡ None) }
    {
        if i >= self.nbuffers() {
            return Err(WireError::OutOfBounds);
        }
        match self.buffers.get(self.buffer_index(i) as usize) {
            Some(buffer) => Ok(buffer),
            None => Err(WireError::OutOfBounds),
        }
    }

    /// The table of the node's statistics, if it has one.
    pub(crate) fn statistics(&self) -> Option<View<'a>>
        ensures fields { IfSome result (λ table. kinds_in table ≡ stats_fields) }
        ensures some { IfSome result (λ table. (label self.now.root).stats ≡ value.table (seen table)) }
        ensures none { IfNone result ((label self.now.root).stats ≡ value.absent) }
    {
        self.view.table(4)
    }

    /// The names of the statistics that the node's table has, in the order of the table's fields.
    ///
    /// # Errors
    /// `OutOfMemory` alone.
    pub fn stat_names(&self, alloc: Global) -> Result<Names, WireError>
        ensures ok { IfOk result (λ names. names ≡ names_in (label self.now.root).stats) }
        ensures err { IsOkUnless result WireError.OutOfMemory }
    {
        match self.statistics() {
            Some(table) => names_of(alloc, &table),
            None => Ok(Names::new(alloc)),
        }
    }

    /// The length in bytes of each of the message's buffers, as its descriptor says.
    ///
    /// # Errors
    /// `OutOfMemory` alone.
    pub fn buffer_lengths(&self, alloc: Global) -> Result<BufferLengths, WireError>
        ensures ok { IfOk result (λ ls. ls ≡ lengths_of self.now.descriptors) }
        ensures err { IsOkUnless result WireError.OutOfMemory }
    {
        lengths(alloc, self.descriptors)
    }
}

/// The lengths in descriptors.
fn lengths(alloc: Global, descriptors: &[u8]) -> Result<BufferLengths, WireError>
    ensures ok { IfOk result (λ ls. ls ≡ lengths_of (descriptors_of descriptors.now)) }
    ensures err { IsOkUnless result WireError.OutOfMemory }
{
    let mut lengths = BufferLengths::new(alloc);
    let mut left = descriptors;
    while let Some((descriptor, rest)) = first_descriptor(left) {
        lengths.push(descriptor.len as usize)?;
        left = rest;
    }
    Ok(lengths)
}
