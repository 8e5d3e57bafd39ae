//! The nodes of an array as blocks of a message: their encodings by given numbers, their buffers by numbers in
//! preorder.

ghost use Rattle.std.specs.Prelude.{◌≡◌, ◌+◌, ◌≤◌, ◌<◌, ◌^◌, length, get_or, IfOk, IfErr, OnOk, IsOkUnless};
ghost use Rattle.vx_trees.specs.Everywhere.{EverywhereBelow};
ghost use Rattle.vx_trees.specs.Rose.{label, below, roses_of};
ghost use Rattle.vx_trees.specs.Walks.{nodes, nodes_of, gathered_below};
ghost use Rattle.vx_flat.specs.Building.{AreWritten, Takes, RefusesPieces};
ghost use Rattle.vx_array_tree.specs.Sound.{metadata_in};
ghost use Rattle.vx_array_tree.specs.Table.{buffers_of};
ghost use Rattle.vx_wire_tree.specs.Fields.{told};
ghost use Rattle.vx_wire_tree.specs.ReadBack.{IsStorableNode, HasStorableStats};
ghost use Rattle.vx_wire_tree.specs.Session.{SessionMeaning};
ghost use Rattle.vx_wire_tree.specs.Wire.{buffers_in, buffers_at_node};
ghost use Rattle.vx_wire_tree.specs.Written.{wire, wires};
ghost use Rattle.vx_encodings.specs.Messages.{codec, message_bytes};
ghost use Rattle.vx_serde.specs.Blocks.{node_pieces, children_pieces};
ghost use Rattle.vx_serde.specs.MessageValue.{index_bytes};
ghost use Rattle.vx_serde.specs.Numbered.{numbers_from};

use crate::blocks::{TABLE, VECTOR, encoding_entry, write_elements, write_statistics};
use crate::node_ref::{NodeRef, NodeRefs};
use std::alloc::{AllocError, Global};
use vx_flat::{BlockVector, Builder, FlatError, LinkKind};
use vx_types::Blob;

/// The number of nodes, and the number of buffers, before the next ones in preorder.
#[derive(Drop)]
pub(crate) struct Passed {
    pub(crate) nodes: usize,
    pub(crate) buffers: usize,
}

/// The parts of a node's own blocks: the number of its encoding, its metadata, and the numbers of its buffers.
#[derive(Drop)]
struct NodeParts {
    encoding: u16,
    metadata: Blob,
    buffers: Vec<u8>,
}

/// The `count` numbers from `first` on, in two bytes each.
fn number_bytes(alloc: Global, first: usize, count: usize) -> Result<Vec<u8>, AllocError>
    requires { first + count ≤ 65535 }
    ensures { IfOk result (λ v. v.items ≡ index_bytes (numbers_from first count)) }
{
    let mut bytes = Vec::new(alloc);
    for i in 0..count {
        bytes.extend_from_slice(&((first + i) as u16).to_le_bytes())?;
    }
    Ok(bytes)
}

/// The parts of a root, which is then counted as passed. Whether its metadata fits its message was judged where the
/// nodes were taken, so the only refusal is `OutOfMemory`.
fn node_parts(
    alloc: Global,
    array: &NodeRef<'_, '_>,
    encodings: &[u16],
    passed: &mut Passed,
) -> Result<NodeParts, FlatError>
    requires known { passed.old.nodes < length encodings.now }
    requires few { passed.old.buffers + length (buffers_of (label array.now).body) ≤ 65535 }
    ensures encoding { IfOk result (λ p. p.encoding ≡ get_or encodings.now passed.old.nodes 0) }
    ensures metadata { IfOk result (λ p. p.metadata ≡ message_bytes (told (metadata_in (label array.now) (below array.now)))) }
    ensures numbers { IfOk result (λ p. p.buffers.items ≡ index_bytes (numbers_from passed.old.buffers (length (buffers_of (label array.now).body)))) }
    ensures nodes { OnOk result (passed.new.nodes ≡ passed.old.nodes + 1) }
    ensures buffers { OnOk result (passed.new.buffers ≡ passed.old.buffers + length (buffers_of (label array.now).body)) }
    ensures err { IsOkUnless result FlatError.OutOfMemory }
{
    let encoding = encodings[passed.nodes];
    let Ok(metadata) = array.metadata(alloc) else {
        return Err(FlatError::OutOfMemory);
    };
    let own = array.nbuffers();
    let buffers = number_bytes(alloc, passed.buffers, own)?;
    passed.nodes += 1;
    passed.buffers += own;
    Ok(NodeParts {
        encoding,
        metadata,
        buffers,
    })
}

/// Writes the blocks of an array's root, and of all nodes below it, and counts them as passed. The numbers of their
/// encodings stand in the list from the place of the nodes passed on, and their buffers are numbered from the number of
/// buffers passed on.
#[cycle(nodes)]
pub(crate) fn write_node(
    alloc: Global,
    array: &NodeRef<'_, '_>,
    encodings: &[u16],
    passed: &mut Passed,
    builder: &mut Builder,
) -> Result<(), FlatError>
    requires takes { Takes LinkKind.Table builder.old }
    requires known { passed.old.nodes + nodes array.now ≤ length encodings.now }
    requires few { (s : SessionMeaning) → passed.old.buffers + length (buffers_in (wire codec s array.now)) ≤ 65535 }
    requires counted { nodes array.now < 2 ^ 32 }
    ensures nodes { OnOk result (passed.new.nodes ≡ passed.old.nodes + nodes array.now) }
    ensures buffers { (s : SessionMeaning) → OnOk result (passed.new.buffers ≡ passed.old.buffers + length (buffers_in (wire codec s array.now))) }
    ensures written { (s : SessionMeaning) → OnOk result (AreWritten builder.old (node_pieces encodings.now passed.old.nodes passed.old.buffers (wire codec s array.now)) builder.new) }
    ensures storable { OnOk result (HasStorableStats codec array.now) }
    ensures stopped { (s : SessionMeaning) → IfErr result (λ e. RefusesPieces builder.old (node_pieces encodings.now passed.old.nodes passed.old.buffers (wire codec s array.now)) e builder.new) }
{
    let parts = node_parts(alloc, array, encodings, passed)?;
    let node = builder.table(&[
        encoding_entry(parts.encoding),
        VECTOR,
        VECTOR,
        VECTOR,
        TABLE,
    ])?;
    builder.link(node, 1);
    write_elements(1, parts.metadata.as_slice(), builder)?;
    builder.link(node, 2);
    write_nodes(alloc, &array.children(), encodings, passed, builder)?;
    builder.link(node, 3);
    write_elements(2, &parts.buffers, builder)?;
    builder.link(node, 4);
    write_statistics(alloc, array, builder)?;
    Ok(())
}

/// Writes the blocks of the nodes below a node, and of the vector that links to them.
#[cycle(nodes)]
fn write_nodes(
    alloc: Global,
    arrays: &NodeRefs<'_, '_>,
    encodings: &[u16],
    passed: &mut Passed,
    builder: &mut Builder,
) -> Result<(), FlatError>
    requires takes { Takes LinkKind.Vector builder.old }
    requires known { passed.old.nodes + nodes_of (roses_of arrays.now) ≤ length encodings.now }
    requires few { (s : SessionMeaning) → passed.old.buffers + length (gathered_below (λ h. buffers_at_node h) (wires codec s (roses_of arrays.now))) ≤ 65535 }
    requires counted { nodes_of (roses_of arrays.now) < 2 ^ 32 }
    ensures nodes { OnOk result (passed.new.nodes ≡ passed.old.nodes + nodes_of (roses_of arrays.now)) }
    ensures buffers { (s : SessionMeaning) → OnOk result (passed.new.buffers ≡ passed.old.buffers + length (gathered_below (λ h. buffers_at_node h) (wires codec s (roses_of arrays.now)))) }
    ensures written { (s : SessionMeaning) → OnOk result (AreWritten builder.old (children_pieces encodings.now passed.old.nodes passed.old.buffers (wires codec s (roses_of arrays.now))) builder.new) }
    ensures storable { OnOk result (EverywhereBelow (IsStorableNode codec) (roses_of arrays.now)) }
    ensures stopped { (s : SessionMeaning) → IfErr result (λ e. RefusesPieces builder.old (children_pieces encodings.now passed.old.nodes passed.old.buffers (wires codec s (roses_of arrays.now))) e builder.new) }
{
    let vector = builder.vector(BlockVector::Links {
        kind: LinkKind::Table,
        count: arrays.len() as u32,
    })?;
    for i in 0..arrays.len() {
        builder.link(vector, i);
        let node = arrays.get(i);
        write_node(alloc, &node, encodings, passed, builder)?;
    }
    Ok(())
}
