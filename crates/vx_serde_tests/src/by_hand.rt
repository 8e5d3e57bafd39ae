//! Messages made by hand: the segments that go with them, the statistics in them, and chains of nodes.

use crate::blobs::{are_joined, shipped, worked_blob};
use crate::files::{
    CHAIN_FRONT, CHAIN_LAST, CHAIN_LEVEL, FLAG_BLOB_OF_LEAST, NULL_BLOB, NULL_BLOB_OF_LEAST,
};
use std::alloc::{AllocError, Global};
use vx_buffer::{BufferHandle, ByteBuffer};
use vx_registry::{ArrayContext, ReadContext, VortexSession};
use vx_serde::{Recoded, SerializeOptions, SerializedArray, WireError, recode};
use vx_types::{DType, Id, Ids, Nullability, TypeError};

// A message up to its one descriptor: the place of the root table, the field table and the table of an array, an empty
// node as its root, and the number of descriptors.
const EMPTY_ROOT: [u8; 36] = [
    12, 0, 0, 0, 8, 0, 12, 0, 4, 0, 8, 0, 8, 0, 0, 0, 12, 0, 0, 0, 12, 0, 0, 0, 4, 0, 4, 0, 4, 0,
    0, 0, 1, 0, 0, 0,
];

// The message of an empty root and of four bytes that are aligned to 2^`exponent`.
fn message_of(alloc: Global, exponent: u8) -> Result<ByteBuffer, WireError> {
    let mut message = Vec::from_slice(alloc, &EMPTY_ROOT)?;
    message.extend_from_slice(&[0, 0, exponent, 0, 4, 0, 0, 0])?;
    Ok(ByteBuffer::from_vec(message)?)
}

// The refusal of such a message with a segment of these bytes, if it is refused.
fn unsegmented(
    alloc: Global,
    exponent: u8,
    segment: &[u8],
) -> Result<Option<WireError>, WireError> {
    let message = message_of(alloc, exponent)?;
    let segment = BufferHandle::new_host(ByteBuffer::copy_from(alloc, segment)?);
    Ok(SerializedArray::from_flatbuffer_and_segment(alloc, message, segment).err())
}

// The exponent of the descriptor, the segment, and the refusal.
const SEGMENTS: [(u8, &[u8], Option<WireError>); 6] = [
    (2, b"abcd", None),
    (2, b"abc", Some(WireError::OutOfBounds)),
    (16, b"abcd", None),
    (17, b"abcd", Some(WireError::BadAlignment)),
    (40, b"abcd", Some(WireError::BadAlignment)),
    (40, b"abc", Some(WireError::BadAlignment)),
];

#[test]
fn descriptors_are_judged_with_a_segment(rt: HostRuntime) {
    for (exponent, segment, refused) in &SEGMENTS {
        assert!(rt;
            unsegmented(rt.alloc(), *exponent, segment) == Ok(*refused),
            "{exponent} of {segment:?}"
        );
    }
}

// A blob as an array.
fn opened(alloc: Global, blob: &[u8]) -> Result<SerializedArray, WireError> {
    let blob = ByteBuffer::copy_from(alloc, blob)?;
    SerializedArray::try_from_buffer(alloc, blob)
}

// The number of statistics that an array names, and that its root does.
fn names_in(alloc: Global, blob: &[u8]) -> Result<(usize, usize), WireError> {
    let array = opened(alloc, blob)?;
    let names = array.stat_names(alloc)?;
    let of_root = array.root().stat_names(alloc)?;
    Ok((names.len(), of_root.len()))
}

#[test]
fn statistics_are_named_without_being_read(rt: HostRuntime) {
    let alloc = rt.alloc();
    assert!(rt; names_in(alloc, worked_blob()) == Ok((0, 0)));
    assert!(rt; names_in(alloc, &NULL_BLOB_OF_LEAST) == Ok((1, 1)));
    assert!(rt; names_in(alloc, &FLAG_BLOB_OF_LEAST) == Ok((1, 1)));
}

// One identifier.
fn alone(alloc: Global, id: &str) -> Result<ReadContext, TypeError> {
    let mut ids = Ids::new(alloc);
    ids.push(Id::new(alloc, id)?)?;
    Ok(ReadContext::new(ids))
}

// A blob recoded at a type and a length, by these identifiers.
fn recoded_by(
    alloc: Global,
    blob: &[u8],
    dtype: &DType,
    len: usize,
    ids: &ReadContext,
    session: &VortexSession,
) -> Result<Recoded, WireError> {
    let blob = ByteBuffer::copy_from(alloc, blob)?;
    let mut ctx = ArrayContext::empty(alloc);
    let options = SerializeOptions::default();
    recode(alloc, blob, dtype, len, ids, &mut ctx, session, &options)
}

// The same by one identifier, where nodes that nothing reads are kept.
fn recoded(
    alloc: Global,
    blob: &[u8],
    dtype: &DType,
    len: usize,
    id: &str,
) -> Result<Recoded, WireError> {
    let mut session = shipped(alloc)?;
    session.ext.allow_unknown();
    match alone(alloc, id) {
        Ok(ids) => recoded_by(alloc, blob, dtype, len, &ids, &session),
        Err(_) => Err(WireError::OutOfMemory),
    }
}

// Whether the nulls with a least value are read without it, and written as nulls.
fn is_skipped(alloc: Global) -> Result<bool, WireError> {
    let read = recoded(alloc, &NULL_BLOB_OF_LEAST, &DType::Null, 4, "vortex.null")?;
    let told = read.array.statistics().iter().count();
    Ok(told == 0 && are_joined(alloc, &read.buffers, &NULL_BLOB))
}

// The booleans whose least value has another message.
fn flags_of(alloc: Global, kind: u8, value: u8) -> Result<Vec<u8>, AllocError> {
    let mut blob = Vec::from_slice(alloc, &FLAG_BLOB_OF_LEAST[..87])?;
    blob.push(kind)?;
    blob.push(value)?;
    blob.extend_from_slice(&FLAG_BLOB_OF_LEAST[89..])?;
    Ok(blob)
}

// The number of statistics that are read with them.
fn told_of_flags(alloc: Global, kind: u8, value: u8) -> Result<usize, WireError> {
    let blob = flags_of(alloc, kind, value)?;
    let dtype = DType::Bool(Nullability::NonNullable);
    let read = recoded(alloc, blob.as_slice(), &dtype, 3, "vortex.bool")?;
    Ok(read.array.statistics().iter().count())
}

#[test]
fn statistics_are_read_where_the_type_has_them(rt: HostRuntime) {
    let alloc = rt.alloc();
    assert!(rt; is_skipped(alloc) == Ok(true));
    assert!(rt; told_of_flags(alloc, 0x10, 1) == Ok(1));
    assert!(rt; told_of_flags(alloc, 0x18, 2) == Err(WireError::BadStats));
}

// The blob of a chain of `levels` nodes, whose message has this length.
fn chain(alloc: Global, levels: usize, len: &[u8]) -> Result<Vec<u8>, AllocError> {
    let mut blob = Vec::from_slice(alloc, &CHAIN_FRONT)?;
    for _ in 1..levels {
        blob.extend_from_slice(&CHAIN_LEVEL)?;
    }
    blob.extend_from_slice(&CHAIN_LAST)?;
    blob.extend_from_slice(len)?;
    Ok(blob)
}

// The length of the array that a blob of foreign nodes decodes to, by this identifier.
fn decoded_by(
    alloc: Global,
    array: &SerializedArray,
    ids: &ReadContext,
) -> Result<usize, WireError> {
    let mut session = shipped(alloc)?;
    session.ext.allow_unknown();
    let read = array.decode(alloc, &DType::Null, 4, ids, &session)?;
    Ok(read.len())
}

// The same for a chain of them.
fn decoded(alloc: Global, levels: usize, len: &[u8]) -> Result<usize, WireError> {
    let blob = chain(alloc, levels, len)?;
    let array = opened(alloc, blob.as_slice())?;
    match alone(alloc, "x.y") {
        Ok(ids) => decoded_by(alloc, &array, &ids),
        Err(_) => Err(WireError::OutOfMemory),
    }
}

// The refusal of recoding a chain of them, if it is refused.
fn unwritten(alloc: Global, levels: usize, len: &[u8]) -> Result<Option<WireError>, AllocError> {
    let blob = chain(alloc, levels, len)?;
    Ok(recoded(alloc, blob.as_slice(), &DType::Null, 4, "x.y").err())
}

// The levels of a chain, the length of its message, the number of rows that it decodes to, and the refusal of recoding
// it: what is written has statistics, too.
const CHAINS: [(usize, [u8; 4], Result<usize, WireError>, Option<WireError>); 3] = [
    (62, [82, 6, 0, 0], Ok(4), None),
    (63, [108, 6, 0, 0], Ok(4), Some(WireError::WireLimit)),
    (
        64,
        [134, 6, 0, 0],
        Err(WireError::TableLimit),
        Some(WireError::TableLimit),
    ),
];

#[test]
fn chains_are_decoded_one_level_deeper_than_written(rt: HostRuntime) {
    for (levels, len, rows, refused) in &CHAINS {
        assert!(rt; decoded(rt.alloc(), *levels, len) == *rows, "{levels}");
        assert!(rt;
            unwritten(rt.alloc(), *levels, len) == Ok(*refused),
            "{levels}"
        );
    }
}
