//! Decoding: from a serialized array to the array that its wire tree decodes to.

ghost use Rattle.std.specs.Prelude.{◌≡◌, List, ℕ, Some, None, IfOk, IfErr, OnOk, IsOkUnless, IsSome};
ghost use Rattle.vx_trees.specs.Rose.{label};
ghost use Rattle.vx_types.specs.Seen.{typ};
ghost use Rattle.vx_scalars.specs.Stats.{FitStats};
ghost use Rattle.vx_array_tree.specs.Tree.{Tree};
ghost use Rattle.vx_type_wire.specs.Borrowed.{borrowed_meaning};
ghost use Rattle.vx_type_wire.specs.Session.{ext_meaning};
ghost use Rattle.vx_wire_tree.specs.Session.{IsPaired};
ghost use Rattle.vx_wire_tree.specs.Steps.{IsToldBy};
ghost use Rattle.vx_wire_tree.specs.DecodesTo.{DecodesTo};
ghost use Rattle.vx_wire_tree.specs.Wire.{all_present};
ghost use Rattle.vx_scalar_wire.specs.StatsShown.{ShowsStatsIn};
ghost use Rattle.vx_encodings.specs.Messages.{codec};
ghost use Rattle.vx_registry.specs.Meaning.{reader_in, session_meaning};
ghost use Rattle.vx_serialized.specs.Causes.{RefusesWire};
ghost use Rattle.vx_serialized.specs.Decoding.{IsHeadOf, IsNodeOf, PlansBy};
ghost use Rattle.vx_serialized.specs.ReadingSteps.{RefusesNodeBuffers, RefusesStats, stats_refusal};
ghost use Rattle.vx_serialized.specs.Serialized.{wire_in};

use crate::error::WireError;
use crate::keeping::keep_node;
use crate::serialized::SerializedArray;
use crate::serialized::node::SerializedNode;
use crate::steps::{build_entry, plan_entry};
use std::alloc::Global;
use vx_arrays::{Array, Arrays};
use vx_buffer::BufferHandles;
use vx_encodings::{ArrayHead, ChildPlans, EncodingError};
use vx_registry::{ArrayPlugin, Entry, ReadContext, VortexSession};
use vx_scalar_wire::{ScalarWireError, StatsSetExt};
use vx_scalars::StatsSet;
use vx_type_wire::{ExtPlugin, Readers};
use vx_types::{Blob, DType, Id};

impl From<EncodingError> for WireError {
    ghost use Rattle.std.specs.Prelude.{◌≡◌};
    ghost use Rattle.vx_serialized.specs.ReadingSteps.{encoding_refusal};

    ghost from_gives = { λ e r. r ≡ encoding_refusal e };

    fn from(e: EncodingError) -> WireError {
        match e {
            EncodingError::OutOfMemory => WireError::OutOfMemory,
            EncodingError::BadMetadata => WireError::BadMetadata,
            EncodingError::BadShape => WireError::BadShape,
            EncodingError::BadContent => WireError::BadContent,
            EncodingError::ForeignControl => WireError::ForeignControl,
            EncodingError::WireLimit => WireError::WireLimit,
        }
    }
}

/// What is known of a node before its children: its head, with a copy of the identifier, the metadata and the type.
pub(crate) fn head_of(
    alloc: Global,
    node: &SerializedNode<'_>,
    id: &Id,
    dtype: &DType,
    len: usize,
) -> Result<ArrayHead, WireError>
    ensures id { IfOk result (λ h. h.serialized_id ≡ id.now) }
    ensures head { (ids : List (List ℕ)) → IfOk result (λ h. IsHeadOf h (wire_in ids node.now) (typ dtype.now) len) }
    ensures err { IsOkUnless result WireError.OutOfMemory }
{
    let Ok(serialized_id) = id.clone(alloc) else {
        return Err(WireError::OutOfMemory);
    };
    let Ok(metadata) = Blob::copy_from(alloc, node.metadata()) else {
        return Err(WireError::OutOfMemory);
    };
    let Ok(dtype) = dtype.clone(alloc) else {
        return Err(WireError::OutOfMemory);
    };
    Ok(ArrayHead {
        serialized_id,
        dtype,
        len,
        metadata,
        nbuffers: node.nbuffers(),
        nchildren: node.nchildren(),
    })
}

/// A node whose children are planned, and what reads it.
#[derive(Drop)]
struct PlannedNode {
    head: ArrayHead,
    children: ChildPlans,
}

/// The plan of a node's children, by the entry that reads the node.
fn plan_node(
    alloc: Global,
    node: &SerializedNode<'_>,
    id: &Id,
    entry: Entry,
    dtype: &DType,
    len: usize,
    session: &VortexSession,
    ext: &Readers,
) -> Result<PlannedNode, WireError>
    requires borrowed { borrowed_meaning (λ r. accepted r.now) ext.now ≡ ext_meaning (λ b. accepted (b.vtable, b.value)) session.now.ext }
    requires within { IsSome (reader_in (λ b. means (b.vtable, b.value)) session.now.arrays entry) }
    ensures read { let s = session_meaning (λ b. means (b.vtable, b.value)) (λ b. accepted (b.vtable, b.value)) session.now in
        (ids : List (List ℕ)) → (label (wire_in ids node.now)).id ≡ Some id.now → s.reader id.now ≡ reader_in (λ b. means (b.vtable, b.value)) session.now.arrays entry
        → IfOk result (λ p. IsNodeOf s (wire_in ids node.now) (typ dtype.now) len (reader_in (λ b. means (b.vtable, b.value)) session.now.arrays entry) p.head) }
    ensures planned { let s = session_meaning (λ b. means (b.vtable, b.value)) (λ b. accepted (b.vtable, b.value)) session.now in
        IfOk result (λ p. PlansBy s.ext (reader_in (λ b. means (b.vtable, b.value)) session.now.arrays entry) p.head p.children) }
    ensures cause { let s = session_meaning (λ b. means (b.vtable, b.value)) (λ b. accepted (b.vtable, b.value)) session.now in
        (ids : List (List ℕ)) → (label (wire_in ids node.now)).id ≡ Some id.now → s.reader id.now ≡ reader_in (λ b. means (b.vtable, b.value)) session.now.arrays entry
        → IfErr result (λ e. RefusesWire s e (wire_in ids node.now) (typ dtype.now) len) }
{
    let head = head_of(alloc, node, id, dtype, len)?;
    let children = plan_entry(alloc, entry, &head, session, ext)?;
    Ok(PlannedNode { head, children })
}

/// A node's buffers. `OutOfBounds` where one is missing.
pub(crate) fn own_buffers(
    alloc: Global,
    node: &SerializedNode<'_>,
) -> Result<BufferHandles, WireError>
    ensures ok { (ids : List (List ℕ)) → IfOk result (λ bs. (label (wire_in ids node.now)).buffers ≡ all_present bs) }
    ensures cause { (ids : List (List ℕ)) → IfErr result (λ e. RefusesNodeBuffers e (label (wire_in ids node.now)).buffers) }
{
    let mut own = BufferHandles::new(alloc);
    for i in 0..node.nbuffers() {
        match node.buffer(i) {
            Ok(buffer) => own.push(buffer.clone(alloc)?)?,
            Err(_) => return Err(WireError::OutOfBounds),
        }
    }
    Ok(own)
}

/// The statistics in a node's table, for arrays of a type.
fn statistics_in(
    alloc: Global,
    node: &SerializedNode<'_>,
    dtype: &DType,
) -> Result<StatsSet, WireError>
    ensures shown { IfOk result (λ set. ShowsStatsIn (typ dtype.now) (label node.now.root).stats set) }
    ensures fits { IfOk result (λ set. FitStats (typ dtype.now) set) }
    ensures cause { IfErr result (λ e. RefusesStats e (typ dtype.now) (label node.now.root).stats) }
{
    let Some(table) = node.statistics() else {
        return Ok(StatsSet::new(alloc));
    };
    match StatsSet::from_flatbuffer(alloc, &table, dtype) {
        Ok(stats) => Ok(stats),
        Err(e) => Err(as_wire_error(e)),
    }
}

/// Why a table of statistics is not read, as a refusal of a blob.
fn as_wire_error(error: ScalarWireError) -> WireError
    ensures { result ≡ stats_refusal error }
{
    match error {
        ScalarWireError::OutOfMemory => WireError::OutOfMemory,
        _ => WireError::BadStats,
    }
}

/// The array of a node's parts, with the statistics in the node's table.
fn tell(
    alloc: Global,
    node: &SerializedNode<'_>,
    dtype: &DType,
    mut array: Array,
) -> Result<Array, WireError>
    requires { (label array).dtype ≡ typ dtype.now }
    ensures told { IfOk result (IsToldBy codec (typ dtype.now) (label node.now.root).stats array) }
    ensures cause { IfErr result (λ e. RefusesStats e (typ dtype.now) (label node.now.root).stats) }
{
    let stats = statistics_in(alloc, node, dtype)?;
    match array.set_all(stats) {
        Ok(()) => Ok(array),
        Err(_) => unreachable!(),
    }
}

/// A node that nothing reads, of this identifier: kept unchanged, with all below it, where the session allows such
/// nodes, and else `UnknownEncoding`.
fn unread_node(
    alloc: Global,
    node: &SerializedNode<'_>,
    id: &Id,
    dtype: &DType,
    len: usize,
    ids: &ReadContext,
    session: &VortexSession,
) -> Result<Array, WireError>
    requires named { (label (wire_in ids.now node.now)).id ≡ Some id.now }
    requires unread { let s = session_meaning (λ b. means (b.vtable, b.value)) (λ b. accepted (b.vtable, b.value)) session.now in
        s.reader id.now ≡ None }
    ensures told { let s = session_meaning (λ b. means (b.vtable, b.value)) (λ b. accepted (b.vtable, b.value)) session.now in
        IfOk result (λ t. DecodesTo codec s (wire_in ids.now node.now) (typ dtype.now) len t) }
    ensures cause { let s = session_meaning (λ b. means (b.vtable, b.value)) (λ b. accepted (b.vtable, b.value)) session.now in
        IfErr result (λ e. RefusesWire s e (wire_in ids.now node.now) (typ dtype.now) len) }
{
    if !session.allows_unknown() {
        return Err(WireError::UnknownEncoding);
    }
    keep_node(alloc, node, dtype, len, ids)
}

/// The array of a node at a type and a length, with those below it. The function calls itself for the children: two
/// functions that call one another could not both take a session, which holds boxed readers.
fn decode_node(
    alloc: Global,
    node: &SerializedNode<'_>,
    dtype: &DType,
    len: usize,
    ids: &ReadContext,
    session: &VortexSession,
    ext: &Readers,
) -> Result<Array, WireError>
    requires borrowed { borrowed_meaning (λ r. accepted r.now) ext.now ≡ ext_meaning (λ b. accepted (b.vtable, b.value)) session.now.ext }
    ensures told { let s = session_meaning (λ b. means (b.vtable, b.value)) (λ b. accepted (b.vtable, b.value)) session.now in
        IfOk result (λ t. DecodesTo codec s (wire_in ids.now node.now) (typ dtype.now) len t) }
    ensures paired { let s = session_meaning (λ b. means (b.vtable, b.value)) (λ b. accepted (b.vtable, b.value)) session.now in
        OnOk result (IsPaired s) }
    ensures cause { let s = session_meaning (λ b. means (b.vtable, b.value)) (λ b. accepted (b.vtable, b.value)) session.now in
        IfErr result (λ e. RefusesWire s e (wire_in ids.now node.now) (typ dtype.now) len) }
{
    let Some(id) = ids.resolve(node.encoding_id()) else {
        return Err(WireError::UnknownIndex);
    };
    let Some(entry) = session.arrays.reader(id) else {
        return unread_node(alloc, node, id, dtype, len, ids, session);
    };
    let planned = plan_node(alloc, node, id, entry, dtype, len, session, ext)?;
    let mut children = Arrays::new(alloc);
    for i in 0..node.nchildren() {
        let Some(place) = planned.children.get(i) else {
            unreachable!();
        };
        let below = node.child(i);
        let child = decode_node(alloc, &below, &place.dtype, place.len, ids, session, ext)?;
        let Ok(()) = children.push(child) else {
            return Err(WireError::OutOfMemory);
        };
    }
    let buffers = own_buffers(alloc, node)?;
    let array = build_entry(alloc, entry, planned.head, buffers, children, session, ext)?;
    tell(alloc, node, dtype, array)
}

impl<'a> SerializedNode<'a> {
    /// The array that the node decodes to at this type and length, with the nodes below it.
    ///
    /// # Errors
    /// `UnknownIndex`, `UnknownEncoding`, `BadMetadata`, `BadShape`, `BadContent`, `ForeignControl` and `BadStats`
    /// where a node has that fault at the type and length that its parent plans for it. `OutOfBounds` where a node
    /// names a buffer that is not there. `PluginRefused` where the plugin that reads a node refuses its head or its
    /// parts. Where several have a cause, any of them may be answered. A node whose identifier nothing reads is
    /// `UnknownEncoding`, unless the session allows such nodes: then it is kept unchanged, with all below it.
    pub fn decode(
        &self,
        alloc: Global,
        dtype: &DType,
        len: usize,
        ids: &ReadContext,
        session: &VortexSession,
    ) -> Result<Array, WireError>
        // The array matches the node's wire tree and is of this type and length, and it is sound.
        ensures told { let s = session_meaning (λ b. means (b.vtable, b.value)) (λ b. accepted (b.vtable, b.value)) session.now in
            IfOk result (λ t. DecodesTo codec s (wire_in ids.now self.now) (typ dtype.now) len t) }
        // It is the only one; and where there is one, it is returned, or `OutOfMemory`.
        ensures one { let s = session_meaning (λ b. means (b.vtable, b.value)) (λ b. accepted (b.vtable, b.value)) session.now in
            (t : Tree) → DecodesTo codec s (wire_in ids.now self.now) (typ dtype.now) len t
            → IfOk result (λ u. u ≡ t) × IfErr result (λ e. e ≡ WireError.OutOfMemory) }
        ensures paired { let s = session_meaning (λ b. means (b.vtable, b.value)) (λ b. accepted (b.vtable, b.value)) session.now in
            OnOk result (IsPaired s) }
        // Each refusal has its cause.
        ensures cause { let s = session_meaning (λ b. means (b.vtable, b.value)) (λ b. accepted (b.vtable, b.value)) session.now in
            IfErr result (λ e. RefusesWire s e (wire_in ids.now self.now) (typ dtype.now) len) }
    {
        let ext = match session.ext.lend(alloc) {
            Ok(ext) => ext,
            Err(_) => return Err(WireError::OutOfMemory),
        };
        decode_node(alloc, self, dtype, len, ids, session, &ext)
    }
}

impl SerializedArray {
    /// The array that the root decodes to at this type and length, with the nodes below it.
    ///
    /// # Errors
    /// As of [`SerializedNode::decode`].
    pub fn decode(
        &self,
        alloc: Global,
        dtype: &DType,
        len: usize,
        ids: &ReadContext,
        session: &VortexSession,
    ) -> Result<Array, WireError>
        ensures told { let s = session_meaning (λ b. means (b.vtable, b.value)) (λ b. accepted (b.vtable, b.value)) session.now in
            IfOk result (λ t. DecodesTo codec s (wire_in ids.now self.now) (typ dtype.now) len t) }
        ensures one { let s = session_meaning (λ b. means (b.vtable, b.value)) (λ b. accepted (b.vtable, b.value)) session.now in
            (t : Tree) → DecodesTo codec s (wire_in ids.now self.now) (typ dtype.now) len t
            → IfOk result (λ u. u ≡ t) × IfErr result (λ e. e ≡ WireError.OutOfMemory) }
        ensures paired { let s = session_meaning (λ b. means (b.vtable, b.value)) (λ b. accepted (b.vtable, b.value)) session.now in
            OnOk result (IsPaired s) }
        ensures cause { let s = session_meaning (λ b. means (b.vtable, b.value)) (λ b. accepted (b.vtable, b.value)) session.now in
            IfErr result (λ e. RefusesWire s e (wire_in ids.now self.now) (typ dtype.now) len) }
    {
        self.root().decode(alloc, dtype, len, ids, session)
    }
}
