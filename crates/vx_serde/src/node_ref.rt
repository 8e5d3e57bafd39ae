//! Nodes that are written, borrowed: arrays that are written unchanged, or nodes that were taken.

ghost use Rattle.std.specs.Prelude.{◌≡◌, ◌<◌, Some, length, get_or, slice_get, IfOk, IsOkUnless};
ghost use Rattle.vx_trees.specs.Rose.{label, below, roses_of};
ghost use Rattle.vx_scalars.specs.Stats.{FitStats};
ghost use Rattle.vx_array_tree.specs.Sound.{metadata_in};
ghost use Rattle.vx_array_tree.specs.Table.{buffers_of};
ghost use Rattle.vx_wire_tree.specs.Fields.{told};
ghost use Rattle.vx_encodings.specs.Messages.{message_bytes};
ghost use Rattle.vx_registry.specs.Serialization.{array_id};

use crate::taken::{TakenNode, own_metadata};
use std::alloc::Global;
use std::marker::Model;
use vx_arrays::Array;
use vx_buffer::BufferHandle;
use vx_registry::written_id;
use vx_scalars::StatsSet;
use vx_serialized::WireError;
use vx_types::{Blob, Id};

/// A node that is written, behind a reference: an array, which is written unchanged, or a node that was taken.
#[derive(Drop)]
enum Borrowed<'n, 'a> {
    Own(&'n Array),
    Taken(&'n TakenNode<'a>),
}

/// A node that is written, borrowed. An array that is written unchanged needs no copy of its nodes, so both kinds are
/// references. Contracts see the tree that is written.
#[derive(Drop)]
pub(crate) struct NodeRef<'n, 'a> {
    node: Borrowed<'n, 'a>,
}

impl<'n, 'a> Model for NodeRef<'n, 'a> {
    ghost use Rattle.vx_array_tree.specs.Tree.{Tree, tree_code};

    ghost Value = { Tree };

    ghost coded = { tree_code };

    ghost use Rattle.vx_serde.specs.Borrowed.{borrowed_tree};

    ghost view = { λ n. borrowed_tree n.node };
}

impl<'n, 'a> NodeRef<'n, 'a> {
    /// A node that was taken.
    pub(crate) fn taken(node: &'n TakenNode<'a>) -> NodeRef<'n, 'a>
        ensures { result ≡ node.now }
    {
        NodeRef {
            node: Borrowed::Taken(node),
        }
    }

    /// An array that is written unchanged.
    fn own(array: &'n Array) -> NodeRef<'n, 'a>
        ensures { result ≡ array.now }
    {
        NodeRef {
            node: Borrowed::Own(array),
        }
    }

    /// The identifier under which the node is written; `two` says whether primitives have two.
    pub(crate) fn written_id(&self, alloc: Global, two: bool) -> Result<Id, WireError>
        ensures ok { IfOk result (λ id. id ≡ array_id two self.now) }
        ensures err { IsOkUnless result WireError.OutOfMemory }
    {
        match &self.node {
            Borrowed::Own(array) => match written_id(alloc, array, two) {
                Ok(id) => Ok(id),
                Err(_) => Err(WireError::OutOfMemory),
            },
            Borrowed::Taken(node) => node.written_id(alloc, two),
        }
    }

    /// The bytes of the node's metadata.
    pub(crate) fn metadata(&self, alloc: Global) -> Result<Blob, WireError>
        ensures ok { IfOk result (λ bytes. bytes ≡ message_bytes (told (metadata_in (label self.now) (below self.now)))) }
        ensures err { IsOkUnless result WireError.OutOfMemory }
    {
        match &self.node {
            Borrowed::Own(array) => own_metadata(alloc, array),
            Borrowed::Taken(node) => node.metadata(alloc),
        }
    }

    /// The number of the node's own buffers.
    pub(crate) fn nbuffers(&self) -> usize
        ensures { result ≡ length (buffers_of (label self.now).body) }
    {
        match &self.node {
            Borrowed::Own(array) => array.nbuffers(),
            Borrowed::Taken(node) => node.nbuffers(),
        }
    }

    /// The node's own buffer at this index.
    pub(crate) fn buffer(&self, i: usize) -> &'n BufferHandle
        requires { i < length (buffers_of (label self.now).body) }
        ensures { slice_get (buffers_of (label self.now).body) i ≡ Some result.now }
    {
        match &self.node {
            Borrowed::Own(array) => array.buffer(i),
            Borrowed::Taken(node) => node.buffer(i),
        }
    }

    /// The node's statistics.
    pub(crate) fn statistics(&self) -> &'n StatsSet
        ensures stats { result.now ≡ (label self.now).stats }
        ensures fits { FitStats (label self.now).dtype (label self.now).stats }
    {
        match &self.node {
            Borrowed::Own(array) => array.statistics(),
            Borrowed::Taken(node) => node.statistics(),
        }
    }

    /// The nodes right below it.
    pub(crate) fn children(&self) -> NodeRefs<'n, 'a>
        ensures children { roses_of result ≡ below self.now }
    {
        match &self.node {
            Borrowed::Own(array) => NodeRefs::own(array.children()),
            Borrowed::Taken(node) => node.children(),
        }
    }
}

/// Nodes that are written, in one slice: arrays that are written unchanged, or nodes that were taken.
#[derive(Drop)]
enum BorrowedNodes<'n, 'a> {
    Own(&'n [Array]),
    Taken(&'n [TakenNode<'a>]),
}

/// Nodes that are written, in one slice, borrowed. Contracts see the trees that are written.
#[derive(Drop)]
pub(crate) struct NodeRefs<'n, 'a> {
    nodes: BorrowedNodes<'n, 'a>,
}

impl<'n, 'a> Model for NodeRefs<'n, 'a> {
    ghost use Rattle.std.specs.Prelude.{List};
    ghost use Rattle.std.specs.Coded.{coded_list};
    ghost use Rattle.vx_array_tree.specs.Tree.{Tree, tree_code};

    ghost Value = { List Tree };

    ghost coded = { coded_list tree_code };

    ghost use Rattle.vx_serde.specs.Borrowed.{borrowed_trees};

    ghost view = { λ n. borrowed_trees n.nodes };
}

impl<'n, 'a> NodeRefs<'n, 'a> {
    /// Nodes that were taken.
    pub(crate) fn taken(nodes: &'n [TakenNode<'a>]) -> NodeRefs<'n, 'a>
        ensures { result ≡ nodes.now }
    {
        NodeRefs {
            nodes: BorrowedNodes::Taken(nodes),
        }
    }

    /// Arrays that are written unchanged.
    pub(crate) fn own(arrays: &'n [Array]) -> NodeRefs<'n, 'a>
        ensures { result ≡ arrays.now }
    {
        NodeRefs {
            nodes: BorrowedNodes::Own(arrays),
        }
    }

    /// The number of nodes.
    pub(crate) fn len(&self) -> usize
        ensures { result ≡ length self.now }
    {
        match &self.nodes {
            BorrowedNodes::Own(arrays) => arrays.len(),
            BorrowedNodes::Taken(nodes) => nodes.len(),
        }
    }

    /// The node at this index.
    pub(crate) fn get(&self, i: usize) -> NodeRef<'n, 'a>
        requires { i < length self.now }
        ensures { result ≡ get_or self.now i result }
    {
        match &self.nodes {
            BorrowedNodes::Own(arrays) => NodeRef::own(item_at(arrays, i)),
            BorrowedNodes::Taken(nodes) => NodeRef::taken(item_at(nodes, i)),
        }
    }
}

/// The item of a slice at this index.
pub(crate) fn item_at<T>(items: &[T], i: usize) -> &T
    requires { i < length items.now }
    ensures { result.now ≡ get_or items.now i result.now }
{
    &items[i]
}
