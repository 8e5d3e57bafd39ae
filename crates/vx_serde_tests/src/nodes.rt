//! Blobs read node by node, and over buffers that are given.

use crate::blobs::{count_of, refusal, shipped, worked_blob, worked_ids};
use crate::files::{BLOB, BLOB_OF_SECOND};
use std::alloc::{AllocError, Global};
use std::collections::BTreeMap;
use vx_arrays::Array;
use vx_buffer::{BufferHandle, BufferHandles, ByteBuffer};
use vx_registry::{ArrayContext, ReadContext, VortexSession};
use vx_serde::{SerializedArray, SerializedNode, WireError};
use vx_types::{DType, Nullability, PType};

// Some bytes as a buffer.
fn buffer_of(alloc: Global, bytes: &[u8]) -> Result<ByteBuffer, WireError> {
    Ok(ByteBuffer::copy_from(alloc, bytes)?)
}

// The blob of 1, 2, 3, 4 with another byte at a place.
fn blob_with(alloc: Global, place: usize, byte: u8) -> Result<ByteBuffer, WireError> {
    let mut blob = Vec::from_slice(alloc, worked_blob())?;
    if let Some(old) = blob.get_mut(place) {
        *old = byte;
    }
    Ok(ByteBuffer::from_vec(blob)?)
}

/// The bytes of the worked blob's buffer.
pub(crate) fn numbers() -> &'static [u8] {
    &BLOB[..16]
}

/// The blob whose node names the second identifier.
pub(crate) fn second() -> &'static [u8] {
    &BLOB_OF_SECOND
}

// The first 20 bytes of the worked blob.
fn twenty() -> &'static [u8] {
    &BLOB[..20]
}

// The message of 1, 2, 3, 4.
fn message(alloc: Global) -> Result<ByteBuffer, WireError> {
    buffer_of(alloc, &BLOB[16..164])
}

// What a node decodes to, as 32-bit integers of this length.
fn decoded(
    alloc: Global,
    node: &SerializedNode<'_>,
    len: usize,
    ids: &ReadContext,
    session: &VortexSession,
) -> Result<Array, WireError> {
    let dtype = DType::Primitive(PType::I32, Nullability::NonNullable);
    node.decode(alloc, &dtype, len, ids, session)
}

// The same with the worked identifiers.
fn decoded_by(
    alloc: Global,
    node: &SerializedNode<'_>,
    len: usize,
    session: &VortexSession,
) -> Result<Array, WireError> {
    match worked_ids(alloc) {
        Ok(ids) => decoded(alloc, node, len, &ids, session),
        Err(_) => Err(WireError::OutOfMemory),
    }
}

// The number of rows that a node then decodes to, or its refusal.
fn rows_by(
    alloc: Global,
    node: &SerializedNode<'_>,
    len: usize,
    session: &VortexSession,
) -> Result<usize, WireError> {
    let array = decoded_by(alloc, node, len, session)?;
    Ok(array.len())
}

// The same with the shipped encodings.
fn rows(alloc: Global, node: &SerializedNode<'_>, len: usize) -> Result<usize, WireError> {
    let session = shipped(alloc)?;
    rows_by(alloc, node, len, &session)
}

// Whether this many rows are decoded, or this refusal is returned.
fn tells(
    alloc: Global,
    array: &SerializedArray,
    len: usize,
    told: Result<usize, WireError>,
) -> bool {
    rows(alloc, &array.root(), len) == told
}

// The length in the only descriptor.
fn length_of(alloc: Global, array: &SerializedArray) -> Result<Option<usize>, WireError> {
    let lengths = array.buffer_lengths(alloc)?;
    Ok(match lengths.as_slice() {
        [length] => Some(*length),
        _ => None,
    })
}

// Whether the first buffer has these bytes and this alignment.
fn is_buffer(array: &SerializedArray, bytes: &[u8], exponent: u8) -> bool {
    match array.buffer(0) {
        Ok(buffer) => {
            buffer.as_host().as_slice() == bytes && buffer.alignment().exponent() == exponent
        }
        Err(_) => false,
    }
}

// The refusal of a buffer, if it is refused.
fn unbuffered(array: &SerializedArray, index: usize) -> Option<WireError> {
    array.buffer(index).err()
}

// An array of a blob.
fn array_of(alloc: Global, blob: &[u8]) -> Result<SerializedArray, WireError> {
    let blob = buffer_of(alloc, blob)?;
    SerializedArray::try_from_buffer(alloc, blob)
}

// The same for the worked blob with another byte at a place.
fn array_with(alloc: Global, place: usize, byte: u8) -> Result<SerializedArray, WireError> {
    let blob = blob_with(alloc, place, byte)?;
    SerializedArray::try_from_buffer(alloc, blob)
}

// Whether an array has the parts of the worked one.
fn has_parts(array: &SerializedArray) -> bool {
    array.encoding_id() == 0
        && array.metadata().is_empty()
        && array.nchildren() == 0
        && array.nbuffers() == 1
        && array.buffer_index(0) == 0
}

// Whether a copy of the worked array has its parts.
fn are_copied(alloc: Global) -> Result<bool, WireError> {
    let array = array_of(alloc, worked_blob())?;
    let copy = array.clone(alloc)?;
    Ok(has_parts(&copy))
}

#[test]
fn the_parts_of_the_worked_blob(rt: HostRuntime) {
    assert!(rt; are_copied(rt.alloc()) == Ok(true));
}

#[test]
fn the_buffer_of_the_worked_blob(rt: HostRuntime) {
    let alloc = rt.alloc();
    match array_of(alloc, worked_blob()) {
        Ok(array) => {
            assert!(rt; is_buffer(&array, numbers(), 2));
            assert!(rt; unbuffered(&array, 1) == Some(WireError::OutOfBounds));
            assert!(rt; length_of(alloc, &array) == Ok(Some(16)));
            assert!(rt; tells(alloc, &array, 4, Ok(4)));
            assert!(rt; tells(alloc, &array, 5, Err(WireError::BadShape)));
        }
        Err(_) => assert!(rt; false),
    }
}

// The refusal of the worked blob with another byte at a place, if it is refused.
fn refused_with(alloc: Global, place: usize, byte: u8) -> Option<WireError> {
    array_with(alloc, place, byte).err()
}

#[test]
fn broken_descriptors(rt: HostRuntime) {
    let alloc = rt.alloc();
    assert!(rt; refused_with(alloc, 158, 40) == Some(WireError::BadAlignment));
    assert!(rt; refused_with(alloc, 159, 1) == Some(WireError::Compressed));
    assert!(rt; refused_with(alloc, 160, 17) == Some(WireError::OutOfBounds));
}

// Whether an array's one buffer is out of bounds.
fn is_out_of_bounds(alloc: Global, array: &SerializedArray) -> bool {
    array.nbuffers() == 1
        && unbuffered(array, 0) == Some(WireError::OutOfBounds)
        && tells(alloc, array, 4, Err(WireError::OutOfBounds))
}

// Whether an array names the second identifier, which does not exist.
fn is_second(alloc: Global, array: &SerializedArray) -> bool {
    array.encoding_id() == 1 && tells(alloc, array, 4, Err(WireError::UnknownIndex))
}

#[test]
fn broken_numbers(rt: HostRuntime) {
    let alloc = rt.alloc();
    match array_with(alloc, 108, 1) {
        Ok(array) => assert!(rt; is_out_of_bounds(alloc, &array)),
        Err(_) => assert!(rt; false),
    }
    match array_of(alloc, second()) {
        Ok(array) => assert!(rt; is_second(alloc, &array)),
        Err(_) => assert!(rt; false),
    }
}

// The array of the worked message, without buffers.
fn bare(alloc: Global) -> Result<SerializedArray, WireError> {
    let message = message(alloc)?;
    SerializedArray::from_array_tree(alloc, message)
}

#[test]
fn no_buffers(rt: HostRuntime) {
    let alloc = rt.alloc();
    match bare(alloc) {
        Ok(bare) => {
            assert!(rt; unbuffered(&bare, 0) == Some(WireError::OutOfBounds));
            assert!(rt; length_of(alloc, &bare) == Ok(Some(16)));
        }
        Err(_) => assert!(rt; false),
    }
}

// A list of one buffer, of the numbers.
fn one_buffer(alloc: Global) -> Result<BufferHandles, WireError> {
    let buffer = buffer_of(alloc, numbers())?;
    let mut buffers = BufferHandles::new(alloc);
    buffers.push(BufferHandle::new_host(buffer))?;
    Ok(buffers)
}

// The array of the worked message and of that list.
fn given(alloc: Global) -> Result<SerializedArray, WireError> {
    let message = message(alloc)?;
    let buffers = one_buffer(alloc)?;
    SerializedArray::from_flatbuffer_with_buffers(alloc, message, buffers)
}

#[test]
fn given_buffers(rt: HostRuntime) {
    let alloc = rt.alloc();
    match given(alloc) {
        Ok(given) => {
            assert!(rt; is_buffer(&given, numbers(), 0));
            assert!(rt; tells(alloc, &given, 4, Err(WireError::BadShape)));
        }
        Err(_) => assert!(rt; false),
    }
}

// The array of the worked message and of a segment of the numbers.
fn cut(alloc: Global) -> Result<SerializedArray, WireError> {
    let message = message(alloc)?;
    let numbers = BufferHandle::new_host(buffer_of(alloc, numbers())?);
    SerializedArray::from_flatbuffer_and_segment(alloc, message, numbers)
}

#[test]
fn a_segment(rt: HostRuntime) {
    let alloc = rt.alloc();
    match cut(alloc) {
        Ok(cut) => assert!(rt; tells(alloc, &cut, 4, Ok(4))),
        Err(_) => assert!(rt; false),
    }
}

// Twenty bytes in place of the first buffer.
fn overrides(alloc: Global) -> Result<BTreeMap<u32, ByteBuffer>, WireError> {
    let buffer = buffer_of(alloc, twenty())?;
    let mut overrides = BTreeMap::new(alloc);
    overrides.insert(0u32, buffer)?;
    Ok(overrides)
}

// The array of the worked message, of an empty segment and of these buffers.
fn overridden(
    alloc: Global,
    overrides: &BTreeMap<u32, ByteBuffer>,
) -> Result<SerializedArray, WireError> {
    let message = message(alloc)?;
    let segment = BufferHandle::new_host(ByteBuffer::empty());
    SerializedArray::from_flatbuffer_and_segment_with_overrides(alloc, message, segment, overrides)
}

// The same with those twenty bytes.
fn longer(alloc: Global) -> Result<SerializedArray, WireError> {
    let overrides = overrides(alloc)?;
    overridden(alloc, &overrides)
}

#[test]
fn an_override_of_another_length(rt: HostRuntime) {
    let alloc = rt.alloc();
    match longer(alloc) {
        Ok(array) => {
            assert!(rt; is_buffer(&array, twenty(), 2));
            assert!(rt; length_of(alloc, &array) == Ok(Some(16)));
            assert!(rt; tells(alloc, &array, 4, Err(WireError::BadShape)));
        }
        Err(_) => assert!(rt; false),
    }
}

// The front of a message of nodes in levels: the place of the root table; the field tables of the array, of a node with
// metadata and children, and of one with metadata alone; and the array's table, after which its root stands.
const FRONT: [u8; 40] = [
    32, 0, 0, 0, 8, 0, 8, 0, 4, 0, 0, 0, 10, 0, 12, 0, 0, 0, 4, 0, 8, 0, 8, 0, 8, 0, 0, 0, 4, 0, 0,
    0, 28, 0, 0, 0, 4, 0, 0, 0,
];

// Appends a node with metadata and two children that are both the next node: the way back to its field table, the
// places of the metadata and of the children, and these.
fn push_node(message: &mut Vec<u8>, level: u8) -> Result<(), AllocError> {
    let back = 28 + 32 * u32::from(level);
    message.extend_from_slice(&back.to_le_bytes())?;
    message.extend_from_slice(&[
        8, 0, 0, 0, 12, 0, 0, 0, 1, 0, 0, 0, level, 0, 0, 0, 2, 0, 0, 0, 8, 0, 0, 0, 4, 0, 0, 0,
    ])?;
    Ok(())
}

// Appends a node with metadata alone.
fn push_leaf(message: &mut Vec<u8>, level: u8) -> Result<(), AllocError> {
    let back = 18 + 32 * u32::from(level);
    message.extend_from_slice(&back.to_le_bytes())?;
    message.extend_from_slice(&[4, 0, 0, 0, 1, 0, 0, 0, level])?;
    Ok(())
}

// A message of nodes in levels up to this one, where both child offsets of a node point at the one node of the next
// level. The metadata of a node is its level.
fn levels(alloc: Global, last: u8) -> Result<Vec<u8>, AllocError> {
    let mut message = Vec::from_slice(alloc, &FRONT)?;
    for level in 0..last {
        push_node(&mut message, level)?;
    }
    push_leaf(&mut message, last)?;
    Ok(message)
}

// The array of 19 such levels.
fn nineteen(alloc: Global) -> Result<SerializedArray, WireError> {
    let message = levels(alloc, 18)?;
    let tree = ByteBuffer::from_vec(message)?;
    SerializedArray::from_array_tree(alloc, tree)
}

// Whether a node of this level has two children with the same metadata.
fn has_twins(node: &SerializedNode<'_>, level: u8) -> bool {
    node.metadata() == [level].as_slice()
        && node.nchildren() == 2
        && node.child(0).metadata() == node.child(1).metadata()
}

// Whether each node of the levels has, and the last one has no children.
fn are_twins(array: &SerializedArray, last: u8) -> bool {
    let mut node = array.root();
    for level in 0..last {
        if !has_twins(&node, level) || node.nchildren() == 0 {
            return false;
        }
        node = node.child(0);
    }
    node.nchildren() == 0
}

#[test]
fn one_node_stands_for_both_children(rt: HostRuntime) {
    match nineteen(rt.alloc()) {
        Ok(array) => assert!(rt; are_twins(&array, 18)),
        Err(_) => assert!(rt; false),
    }
}

// The blob of twenty such levels: 661 bytes and their number.
fn twenty_levels(alloc: Global) -> Result<Vec<u8>, AllocError> {
    let mut blob = levels(alloc, 19)?;
    blob.extend_from_slice(&[0x95, 0x02, 0, 0])?;
    Ok(blob)
}

// Whether a blob weighs too much, and nothing is added to the context.
fn weighs_too_much(alloc: Global, blob: &[u8]) -> bool {
    let mut ctx = ArrayContext::empty(alloc);
    blob.len() == 665
        && refusal(alloc, blob, &DType::Null, 0, &mut ctx) == Some(WireError::TableLimit)
        && count_of(alloc, &ctx) == Some(0)
}

#[test]
fn twenty_levels_weigh_too_much(rt: HostRuntime) {
    match twenty_levels(rt.alloc()) {
        Ok(blob) => assert!(rt; weighs_too_much(rt.alloc(), &blob)),
        Err(_) => assert!(rt; false),
    }
}

// The same blob, whose last node has metadata of two bytes, of which the message holds one.
fn ill_formed_leaf(alloc: Global) -> Result<Vec<u8>, AllocError> {
    let mut blob = twenty_levels(alloc)?;
    if let Some(byte) = blob.get_mut(656) {
        *byte = 2;
    }
    Ok(blob)
}

// Whether a blob shows no table, and nothing is added to the context.
fn is_no_table(alloc: Global, blob: &[u8]) -> bool {
    let mut ctx = ArrayContext::empty(alloc);
    refusal(alloc, blob, &DType::Null, 0, &mut ctx) == Some(WireError::BadTable)
        && count_of(alloc, &ctx) == Some(0)
}

#[test]
fn twenty_levels_over_an_ill_formed_leaf(rt: HostRuntime) {
    match ill_formed_leaf(rt.alloc()) {
        Ok(blob) => assert!(rt; is_no_table(rt.alloc(), &blob)),
        Err(_) => assert!(rt; false),
    }
}
