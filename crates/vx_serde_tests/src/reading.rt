//! Blobs read in one call.

use crate::blobs::{are_joined, shipped, worked_blob, worked_id};
use std::alloc::Global;
use vx_arrays::Array;
use vx_buffer::ByteBuffer;
use vx_registry::{ArrayContext, ReadContext, VortexSession};
use vx_serde::{ArrayExt, BlobRefusal, SerializeOptions, WireError, read_blob};
use vx_types::{DType, Id, Ids, Nullability, PType, TypeError};

// One identifier, as those of a blob.
fn named(alloc: Global, text: &str) -> Result<ReadContext, TypeError> {
    let mut ids = Ids::new(alloc);
    ids.push(Id::new(alloc, text)?)?;
    Ok(ReadContext::new(ids))
}

// The array of four numbers that bytes are read as, with an identifier.
fn read_as(
    alloc: Global,
    bytes: &[u8],
    len: usize,
    text: &str,
    session: &VortexSession,
) -> Result<Array, WireError> {
    let Ok(ids) = named(alloc, text) else {
        return Err(WireError::OutOfMemory);
    };
    let blob = ByteBuffer::copy_from(alloc, bytes)?;
    let dtype = DType::Primitive(PType::I32, Nullability::NonNullable);
    read_blob(alloc, blob, &dtype, len, &ids, session, false)
}

// Whether an array is written as bytes, from an empty context.
fn is_written_as(
    alloc: Global,
    array: &Array,
    bytes: &[u8],
    session: &VortexSession,
) -> Result<bool, WireError> {
    let mut ctx = ArrayContext::empty(alloc);
    let buffers = array.serialize(alloc, &mut ctx, session, &SerializeOptions::default())?;
    Ok(are_joined(alloc, &buffers, bytes))
}

// Whether the worked blob is read as the four numbers that it is written for.
fn is_read(alloc: Global) -> Result<bool, WireError> {
    let session = shipped(alloc)?;
    let array = read_as(alloc, worked_blob(), 4, worked_id(), &session)?;
    let written = is_written_as(alloc, &array, worked_blob(), &session)?;
    Ok(written && array.len() == 4)
}

#[test]
fn the_worked_blob_is_read(rt: HostRuntime) {
    assert!(rt; is_read(rt.alloc()) == Ok(true));
}

// The refusal of bytes read so, if they are refused.
fn refused_as(alloc: Global, bytes: &[u8], len: usize, text: &str) -> Option<WireError> {
    match shipped(alloc) {
        Ok(session) => read_as(alloc, bytes, len, text, &session).err(),
        Err(e) => Some(e),
    }
}

// The same of the worked blob with another byte at a place.
fn refused_with(alloc: Global, place: usize, byte: u8) -> Option<WireError> {
    let Ok(mut bytes) = Vec::from_slice(alloc, worked_blob()) else {
        return Some(WireError::OutOfMemory);
    };
    if let Some(found) = bytes.get_mut(place) {
        *found = byte;
    }
    refused_as(alloc, &bytes, 4, worked_id())
}

#[test]
fn a_faulty_blob_is_refused(rt: HostRuntime) {
    let alloc = rt.alloc();
    let id = worked_id();
    assert!(rt; refused_as(alloc, &[1, 2, 3], 4, id) == Some(WireError::TooShort));
    assert!(rt; refused_as(alloc, &[0, 0, 0, 0], 4, id) == Some(WireError::BadTable));
    assert!(rt; refused_with(alloc, 158, 40) == Some(WireError::BadAlignment));
    assert!(rt; refused_with(alloc, 159, 1) == Some(WireError::Compressed));
    assert!(rt; refused_with(alloc, 160, 17) == Some(WireError::OutOfBounds));
}

#[test]
fn a_blob_is_refused_at_another_length_or_name(rt: HostRuntime) {
    let alloc = rt.alloc();
    let id = worked_id();
    assert!(rt; refused_as(alloc, worked_blob(), 5, id) == Some(WireError::BadShape));
    assert!(rt; refused_as(alloc, worked_blob(), 4, "none") == Some(WireError::UnknownEncoding));
}

// Each refusal but allocation failure, with its number.
const REFUSALS: [(BlobRefusal, u8); 19] = [
    (BlobRefusal::TooShort, 10),
    (BlobRefusal::BadTable, 11),
    (BlobRefusal::TableLimit, 12),
    (BlobRefusal::BadAlignment, 13),
    (BlobRefusal::Compressed, 14),
    (BlobRefusal::OutOfBounds, 15),
    (BlobRefusal::UnknownIndex, 16),
    (BlobRefusal::UnknownEncoding, 17),
    (BlobRefusal::BadMetadata, 18),
    (BlobRefusal::BadShape, 19),
    (BlobRefusal::BadContent, 20),
    (BlobRefusal::ForeignControl, 21),
    (BlobRefusal::BadStats, 22),
    (BlobRefusal::NotPermitted, 23),
    (BlobRefusal::WireLimit, 24),
    (BlobRefusal::NotRegistered, 25),
    (BlobRefusal::NotSerializable, 26),
    (BlobRefusal::UndeclaredId, 27),
    (BlobRefusal::PluginRefused, 28),
];

#[test]
fn refusals_without_allocation_failure(rt: HostRuntime) {
    assert!(rt; WireError::OutOfMemory.refusal() == None);
    for (refusal, number) in &REFUSALS {
        assert_eq!(rt; refusal.wire_error().number(), *number);
        assert!(rt; refusal.wire_error().refusal() == Some(*refusal));
    }
}
