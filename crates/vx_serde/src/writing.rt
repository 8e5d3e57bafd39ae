//! Writing arrays as blobs.

ghost use Rattle.std.specs.Prelude.{◌≡◌, ◌+◌, ◌≤◌, ◌<◌, ◌-◌, ◌^◌, ◌++◌, [], ◌∷◌, Some, IsTrue, IsFalse, length, IfOk, IfErr, OnOk};
ghost use Rattle.std.specs.Int.{w32, to_le_bytes};
ghost use Rattle.vx_flat.specs.Building.{AreWritten, Takes, RefusesPieces};
ghost use Rattle.vx_flat.specs.IsOf.{IsOf};
ghost use Rattle.vx_flat.specs.Limits.{limits_to, KeepsLimits};
ghost use Rattle.vx_flat.specs.Pieces.{pieces};
ghost use Rattle.vx_flat.specs.Shows.{Shows};
ghost use Rattle.vx_flat.specs.Value.{Fields};
ghost use Rattle.vx_flat.specs.Weight as weigh;
ghost use Rattle.vx_trees.specs.Walks.{levels, nodes};
ghost use Rattle.vx_types.specs.Known.{ExtMeaning};
ghost use Rattle.vx_wire_tree.specs.Context.{grown_by};
ghost use Rattle.vx_wire_tree.specs.Limits.{AreDescribable, HasMessages};
ghost use Rattle.vx_wire_tree.specs.ReadBack.{HasStorableStats};
ghost use Rattle.vx_wire_tree.specs.Session.{SessionMeaning, IsShipped, IsPaired};
ghost use Rattle.vx_wire_tree.specs.Wire.{ids_in, buffers_in};
ghost use Rattle.vx_wire_tree.specs.Written.{writes_two, wire};
ghost use Rattle.vx_encodings.specs.Messages.{codec};
ghost use Rattle.vx_registry.specs.Meaning.{arrays_meaning};
ghost use Rattle.vx_serialized.specs.ArraySchema.{array_schema};
ghost use Rattle.vx_serde.specs.Blocks.{encodings_in, message_by, layout_by};
ghost use Rattle.vx_serde.specs.Causes.{RefusesArray, RefusesWriting};
ghost use Rattle.vx_serde.specs.KeptContext.{KeepsContext};
ghost use Rattle.vx_serde.specs.Limits.{most_levels as levels_by};
ghost use Rattle.vx_serde.specs.Placing.{data_end};
ghost use Rattle.vx_serde.specs.Serializing.{IsWrittenBlob, IsSerialized};
ghost use Rattle.vx_serde.specs.Taking.{as_written};
ghost use Rattle.vx_serde.specs.WritingSteps.{IsLaidOut, RefusesLayout, RefusesBytes, AreDescriptors};
ghost use Rattle.vx_serde.specs.WrittenBuffers.{unaligned, pad_buffers, data_buffers, greatest_exponent};

use crate::blocks::{TABLE, VECTOR, write_elements};
use crate::borrowed_buffers::BorrowedBuffers;
use crate::gathering::{Gathered, gather};
use crate::limits::{MAX_BUFFERS, MAX_NODES, are_describable, most_levels};
use crate::node_ref::NodeRef;
use crate::nodes::{Passed, write_node};
use crate::options::SerializeOptions;
use crate::placing::{LaidOut, describe, greatest_alignment, pad_at, push_data, push_pad};
use crate::taken::{Source, take};
use std::alloc::Global;
use vx_arrays::Array;
use vx_buffer::{BufferError, ByteBuffer, ByteBuffers};
use vx_flat::{Builder, FlatBuffer, FlatError, LinkKind, verify_uncounted_to};
use vx_registry::{ArrayContext, ArraySession};
use vx_serialized::{ArrayKind, WireError};

// The room to reserve for a node of one buffer in a message: a little more than its bytes.
const NODE_ROOM: usize = 80;

// The buffers of a blob beside its data buffers and their pads: the empty one, the message's pad, the message and its
// length.
const PARTS_BESIDE: usize = 4;

/// The buffers of a blob: the first is empty and has the greatest alignment.
fn blob_buffers(
    alloc: Global,
    options: &SerializeOptions,
    buffers: &BorrowedBuffers<'_>,
    padding: usize,
    message: Vec<u8>,
) -> Result<ByteBuffers, BufferError>
    requires describable { AreDescribable buffers.now }
    requires fits { data_end options.now options.now.offset buffers.now < 2 ^ 64 }
    requires short { length message.items < 2 ^ 31 }
    ensures { IfOk result (λ bs. bs ≡ record { bytes = []; exponent = greatest_exponent 3 buffers.now } ∷ (data_buffers options.now options.now.offset buffers.now
        ++ (pad_buffers padding ++ (unaligned message.items ∷ unaligned (to_le_bytes w32 (length message.items)) ∷ [])))) }
{
    let word = Vec::from_slice(alloc, &(message.len() as u32).to_le_bytes())?;
    let mut out = ByteBuffers::with_capacity(alloc, buffers.len().saturating_add(PARTS_BESIDE));
    out.push(ByteBuffer::empty().aligned(greatest_alignment(buffers)))?;
    push_data(alloc, options, buffers, &mut out)?;
    push_pad(alloc, padding, &mut out)?;
    out.push(ByteBuffer::from_vec(message)?)?;
    out.push(ByteBuffer::from_vec(word)?)?;
    Ok(out)
}

/// A message, where the limits on reading admit it, deep or not. It is verified once more, which takes no memory.
fn limited_message(message: FlatBuffer, deep: bool) -> Result<Vec<u8>, WireError>
    requires { (v : Fields) × Shows array_schema message v }
    ensures same { IfOk result (λ m. m.items ≡ message) }
    ensures within_limits { OnOk result (KeepsLimits (limits_to deep) (weigh.weight array_schema message)) }
    ensures refused { IfErr result (λ e. (e ≡ WireError.WireLimit) × (KeepsLimits (limits_to deep) (weigh.weight array_schema message) → ⊥)) }
{
    match verify_uncounted_to(message.as_slice(), &ArrayKind, deep) {
        Ok(_) => {}
        Err(FlatError::TableLimit) => return Err(WireError::WireLimit),
        Err(FlatError::OutOfMemory) => unreachable!(),
        Err(FlatError::BadTable) => unreachable!(),
        Err(FlatError::MessageTooLong) => unreachable!(),
    }
    Ok(message.into_vec())
}

/// Writes the blocks of a message: of its table, of an array's nodes, and of the bytes of descriptors.
fn write_blocks(
    alloc: Global,
    array: &NodeRef<'_, '_>,
    encodings: &[u16],
    descriptors: &[u8],
    builder: &mut Builder,
) -> Result<(), FlatError>
    requires takes { Takes LinkKind.Table builder.old }
    requires known { nodes array.now ≤ length encodings.now }
    requires few { (s : SessionMeaning) → length (buffers_in (wire codec s array.now)) ≤ 65535 }
    requires counted { nodes array.now < 2 ^ 32 }
    requires whole { AreDescriptors descriptors.now }
    ensures written { (s : SessionMeaning) → OnOk result (AreWritten builder.old (pieces array_schema (message_by encodings.now (wire codec s array.now) descriptors.now)) builder.new) }
    ensures storable { OnOk result (HasStorableStats codec array.now) }
    ensures stopped { (s : SessionMeaning) → IfErr result (λ e. RefusesPieces builder.old (pieces array_schema (message_by encodings.now (wire codec s array.now) descriptors.now)) e builder.new) }
{
    let root = builder.table(&[TABLE, VECTOR])?;
    builder.link(root, 0);
    let mut passed = Passed {
        nodes: 0,
        buffers: 0,
    };
    write_node(alloc, array, encodings, &mut passed, builder)?;
    builder.link(root, 1);
    write_elements(8, descriptors, builder)?;
    Ok(())
}

/// The message of an array, whose encodings have these numbers in preorder, and of the bytes of its descriptors; deep
/// or not.
fn write_message(
    alloc: Global,
    array: &NodeRef<'_, '_>,
    encodings: &[u16],
    descriptors: &[u8],
    deep: bool,
) -> Result<Vec<u8>, WireError>
    requires known { length encodings.now ≡ nodes array.now }
    requires few { (s : SessionMeaning) → length (buffers_in (wire codec s array.now)) ≤ 65535 }
    requires whole { AreDescriptors descriptors.now }
    requires of_kind { (s : SessionMeaning) → IsOf array_schema (message_by encodings.now (wire codec s array.now) descriptors.now) }
    ensures written { (s : SessionMeaning) → IfOk result (λ m. m.items ≡ layout_by encodings.now (wire codec s array.now) descriptors.now) }
    ensures storable { OnOk result (HasStorableStats codec array.now) }
    ensures short { IfOk result (λ m. length m.items < 2 ^ 31) }
    ensures within_limits { IfOk result (λ m. KeepsLimits (limits_to deep) (weigh.weight array_schema m.items)) }
    ensures refused { (s : SessionMeaning) → IfErr result (RefusesBytes (limits_to deep) (layout_by encodings.now (wire codec s array.now) descriptors.now)) }
{
    if encodings.len() > MAX_NODES {
        return Err(WireError::WireLimit);
    }
    let room = (encodings.len() * NODE_ROOM).saturating_add(descriptors.len());
    let mut builder = Builder::with_room(alloc, room);
    write_blocks(alloc, array, encodings, descriptors, &mut builder)?;
    let message = match builder.finish(alloc) {
        Ok(message) => message,
        Err(_) => unreachable!(),
    };
    limited_message(message, deep)
}

/// The buffers of an array's nodes and the numbers of their encodings in preorder, and the places of the buffers. Its
/// identifiers are taken into the context in preorder; `two` says whether primitives have two.
fn place<'a>(
    alloc: Global,
    array: &NodeRef<'a, '_>,
    two: bool,
    ctx: &mut ArrayContext,
    options: &SerializeOptions,
) -> Result<(Gathered<'a>, LaidOut), WireError>
    requires levels { levels array.now ≤ levels_by options.now }
    ensures buffers { (s : SessionMeaning) → IfOk result (λ p. p.0.buffers ≡ buffers_in (wire codec s array.now)) }
    ensures encodings { (s : SessionMeaning) → writes_two s ≡ two → IfOk result (λ p. p.0.encodings.items ≡ encodings_in ctx.new.ids (wire codec s array.now)) }
    ensures placed { (s : SessionMeaning) → IfOk result (λ p. IsLaidOut options.now (wire codec s array.now) p.1.descriptors.items p.1.end) }
    ensures grown { (s : SessionMeaning) → writes_two s ≡ two → OnOk result (grown_by (ids_in (wire codec s array.now)) ctx.old ≡ Some ctx.new) }
    ensures kept { (s : SessionMeaning) → writes_two s ≡ two → KeepsContext (ids_in (wire codec s array.now)) ctx.old ctx.new }
    ensures refused { (s : SessionMeaning) → writes_two s ≡ two → IfErr result (RefusesLayout s options.now array.now ctx.old) }
{
    let mut found = Gathered::new(alloc);
    gather(alloc, array, two, ctx, &mut found)?;
    if found.buffers.len() > MAX_BUFFERS || !are_describable(&found.buffers) {
        return Err(WireError::WireLimit);
    }
    let Some(placed) = describe(alloc, options, &found.buffers)? else {
        return Err(WireError::WireLimit);
    };
    Ok((found, placed))
}

/// Whether a blob ends within the positions of 64 bits, by the position where its data ends, the pad before its
/// message, and the message's length.
fn has_end(end: usize, padding: usize, message: usize) -> bool
    requires pad { padding < 2 ^ 16 }
    requires short { message < 2 ^ 31 }
    ensures within { IsTrue result → end + (padding + message + 4) < 2 ^ 64 }
    ensures late { IsFalse result → 2 ^ 64 ≤ end + (padding + message + 4) }
{
    end.checked_add(padding + message + 4).is_some()
}

/// Writes an array whose nodes were taken. The buffers, one after the other, are its blob.
fn write_taken(
    alloc: Global,
    array: &NodeRef<'_, '_>,
    two: bool,
    ctx: &mut ArrayContext,
    options: &SerializeOptions,
) -> Result<ByteBuffers, WireError>
    requires levels { levels array.now ≤ levels_by options.now }
    requires messages { HasMessages array.now }
    ensures made { (s : SessionMeaning) → writes_two s ≡ two → IfOk result (λ bs. IsWrittenBlob s array.now options.now ctx.old ctx.new bs) }
    ensures kept { (s : SessionMeaning) → writes_two s ≡ two → KeepsContext (ids_in (wire codec s array.now)) ctx.old ctx.new }
    ensures cause { (s : SessionMeaning) → writes_two s ≡ two → IfErr result (RefusesWriting s array.now ctx.old options.now) }
{
    let (found, placed) = place(alloc, array, two, ctx, options)?;
    let message = write_message(
        alloc,
        array,
        &found.encodings,
        &placed.descriptors,
        options.deep,
    )?;
    // The message holds the descriptors now, so the list of buffers can take their memory.
    drop(placed.descriptors);
    let padding = pad_at(options, 3, placed.end);
    if !has_end(placed.end, padding, message.len()) {
        return Err(WireError::WireLimit);
    }
    Ok(blob_buffers(alloc, options, &found.buffers, padding, message)?)
}

/// Writes an array. The buffers, one after the other, are its blob.
pub(crate) fn write_array(
    alloc: Global,
    array: &Array,
    arrays: &ArraySession,
    unknown: bool,
    ctx: &mut ArrayContext,
    options: &SerializeOptions,
) -> Result<ByteBuffers, WireError>
    ensures paired { (x : ExtMeaning) → OnOk result (IsPaired (arrays_meaning (λ b. means (b.vtable, b.value)) arrays.now x)) }
    ensures made { (x : ExtMeaning) → x.unknown ≡ unknown → IfOk result (λ bs. IsSerialized (arrays_meaning (λ b. means (b.vtable, b.value)) arrays.now x) array.now options.now ctx.old ctx.new bs) }
    ensures kept { (x : ExtMeaning) → x.unknown ≡ unknown → let s = arrays_meaning (λ b. means (b.vtable, b.value)) arrays.now x in
        KeepsContext (ids_in (wire codec s (as_written s options.now array.now))) ctx.old ctx.new }
    ensures own { (x : ExtMeaning) → x.unknown ≡ unknown → let s = arrays_meaning (λ b. means (b.vtable, b.value)) arrays.now x in
        IsShipped s → KeepsContext (ids_in (wire codec s array.now)) ctx.old ctx.new }
    ensures cause { (x : ExtMeaning) → x.unknown ≡ unknown → IfErr result (RefusesArray (arrays_meaning (λ b. means (b.vtable, b.value)) arrays.now x) array.now ctx.old options.now) }
{
    let two = match arrays.writes_two(alloc) {
        Ok(two) => two,
        Err(_) => return Err(WireError::OutOfMemory),
    };
    let room = most_levels(options);
    let node = take(alloc, Source::Borrowed(array), arrays, unknown, room)?;
    let root = NodeRef::taken(&node);
    write_taken(alloc, &root, two, ctx, options)
}
