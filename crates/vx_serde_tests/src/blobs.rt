//! Blobs of every kind of number, recoded.

use crate::files::{BLOB, IDS};
use std::alloc::{AllocError, Global};
use vx_arrays::Array;
use vx_buffer::{ByteBuffer, ByteBuffers};
use vx_registry::{ArrayContext, ArraySession, ReadContext, VortexSession};
use vx_serde::{Recoded, SerializeOptions, WireError, recode};
use vx_type_wire::ExtSession;
use vx_types::{DType, Id, Ids, Nullability, PType, TypeError};

/// The worked blob.
pub(crate) fn worked_blob() -> &'static [u8] {
    &BLOB
}

// The worked message and its length.
fn worked_end() -> &'static [u8] {
    &BLOB[16..]
}

// The same with another exponent and another length in the descriptor of its buffer.
fn end_of(alloc: Global, exponent: u8, size: u8) -> Result<Vec<u8>, AllocError> {
    let mut end = Vec::from_slice(alloc, worked_end())?;
    if let Some(byte) = end.get_mut(142) {
        *byte = exponent;
    }
    if let Some(byte) = end.get_mut(144) {
        *byte = size;
    }
    Ok(end)
}

// The blob of a buffer of `size` bytes, aligned to 2^`exponent`: that end after other bytes.
fn blob_of(alloc: Global, exponent: u8, size: u8) -> Result<Vec<u8>, AllocError> {
    let mut blob = Vec::new(alloc);
    for i in 0..size {
        blob.push(i)?;
    }
    blob.extend_from_slice(&end_of(alloc, exponent, size)?)?;
    Ok(blob)
}

/// The worked identifier.
pub(crate) fn worked_id() -> &'static str {
    IDS.trim_end()
}

// The worked identifiers.
pub(crate) fn worked_ids(alloc: Global) -> Result<ReadContext, TypeError> {
    let mut ids = Ids::new(alloc);
    ids.push(Id::new(alloc, worked_id())?)?;
    Ok(ReadContext::new(ids))
}

/// A session of the shipped encodings, without readers of extensions.
pub(crate) fn shipped(alloc: Global) -> Result<VortexSession, WireError> {
    match ArraySession::default(alloc) {
        Ok(arrays) => Ok(VortexSession::new(arrays, ExtSession::new(alloc))),
        Err(_) => Err(WireError::OutOfMemory),
    }
}

// The blob recoded at a type and a length, with these identifiers and this session.
fn recoded_by(
    alloc: Global,
    blob: ByteBuffer,
    dtype: &DType,
    len: usize,
    ids: &ReadContext,
    ctx: &mut ArrayContext,
    session: &VortexSession,
) -> Result<Recoded, WireError> {
    let options = SerializeOptions::default();
    recode(alloc, blob, dtype, len, ids, ctx, session, &options)
}

// The same with the worked identifiers.
fn recoded_under(
    alloc: Global,
    blob: &[u8],
    dtype: &DType,
    len: usize,
    ctx: &mut ArrayContext,
    session: &VortexSession,
) -> Result<Recoded, WireError> {
    let blob = ByteBuffer::copy_from(alloc, blob)?;
    match worked_ids(alloc) {
        Ok(ids) => recoded_by(alloc, blob, dtype, len, &ids, ctx, session),
        Err(_) => Err(WireError::OutOfMemory),
    }
}

// The blob recoded at a type and a length, with the worked identifiers and the shipped encodings.
pub(crate) fn recoded(
    alloc: Global,
    blob: &[u8],
    dtype: &DType,
    len: usize,
    ctx: &mut ArrayContext,
) -> Result<Recoded, WireError> {
    let session = shipped(alloc)?;
    recoded_under(alloc, blob, dtype, len, ctx, &session)
}

/// Whether buffers are these bytes, one after the other.
pub(crate) fn are_joined(alloc: Global, buffers: &ByteBuffers, bytes: &[u8]) -> bool {
    match buffers.join(alloc) {
        Ok(joined) => joined.as_slice() == bytes,
        Err(_) => false,
    }
}

// Whether an array is of this kind of numbers and length.
fn is_array_of(array: &Array, kind: PType, nullability: Nullability, len: usize) -> bool {
    match array.dtype() {
        DType::Primitive(k, n) => *k == kind && *n == nullability && array.len() == len,
        _ => false,
    }
}

// Whether a blob is read as numbers of a kind, and written as the same bytes.
fn is_written_again(
    alloc: Global,
    blob: &[u8],
    kind: PType,
    nullability: Nullability,
    len: usize,
    ctx: &mut ArrayContext,
) -> Result<bool, WireError> {
    let dtype = DType::Primitive(kind, nullability);
    let recoded = recoded(alloc, blob, &dtype, len, ctx)?;
    Ok(
        is_array_of(&recoded.array, kind, nullability, len)
            && are_joined(alloc, &recoded.buffers, blob),
    )
}

/// The number of identifiers in a context.
pub(crate) fn count_of(alloc: Global, ctx: &ArrayContext) -> Option<usize> {
    match ctx.to_ids(alloc) {
        Ok(ids) => Some(ids.len()),
        Err(_) => None,
    }
}

// The same from an empty context, which takes one identifier.
fn comes_again(
    alloc: Global,
    blob: &[u8],
    kind: PType,
    nullability: Nullability,
    len: usize,
) -> bool {
    let mut ctx = ArrayContext::empty(alloc);
    is_written_again(alloc, blob, kind, nullability, len, &mut ctx) == Ok(true)
        && count_of(alloc, &ctx) == Some(1)
}

// The same for numbers of a width of 2^`exponent` bytes, without nulls and with a nullable type.
fn come_again(
    alloc: Global,
    kind: PType,
    exponent: u8,
    width: u8,
    len: u8,
) -> Result<bool, AllocError> {
    let blob = blob_of(alloc, exponent, len.saturating_mul(width))?;
    let len = usize::from(len);
    Ok(
        comes_again(alloc, &blob, kind, Nullability::NonNullable, len)
            && comes_again(alloc, &blob, kind, Nullability::Nullable, len),
    )
}

const KINDS: [(PType, u8, u8); 11] = [
    (PType::U8, 0, 1),
    (PType::I8, 0, 1),
    (PType::U16, 1, 2),
    (PType::I16, 1, 2),
    (PType::F16, 1, 2),
    (PType::U32, 2, 4),
    (PType::I32, 2, 4),
    (PType::F32, 2, 4),
    (PType::U64, 3, 8),
    (PType::I64, 3, 8),
    (PType::F64, 3, 8),
];

#[test]
fn each_kind_of_number_is_written_again(rt: HostRuntime) {
    let alloc = rt.alloc();
    for (kind, exponent, width) in &KINDS {
        assert!(rt;
            come_again(alloc, *kind, *exponent, *width, 0) == Ok(true),
            "{kind:?}"
        );
        assert!(rt;
            come_again(alloc, *kind, *exponent, *width, 1) == Ok(true),
            "{kind:?}"
        );
        assert!(rt;
            come_again(alloc, *kind, *exponent, *width, 5) == Ok(true),
            "{kind:?}"
        );
    }
}

/// The refusal of a blob that is recoded from a context, if it is refused.
pub(crate) fn refusal(
    alloc: Global,
    blob: &[u8],
    dtype: &DType,
    len: usize,
    ctx: &mut ArrayContext,
) -> Option<WireError> {
    recoded(alloc, blob, dtype, len, ctx).err()
}

// Whether the blob of 1, 2, 3, 4 is refused at a type for its shape, with nothing added to the context.
fn is_no_type_of_integers(alloc: Global, dtype: DType) -> bool {
    let mut ctx = ArrayContext::empty(alloc);
    refusal(alloc, worked_blob(), &dtype, 4, &mut ctx) == Some(WireError::BadShape)
        && count_of(alloc, &ctx) == Some(0)
}

#[test]
fn other_types_are_refused(rt: HostRuntime) {
    let alloc = rt.alloc();
    let plain = Nullability::NonNullable;
    assert!(rt; is_no_type_of_integers(alloc, DType::Null));
    assert!(rt; is_no_type_of_integers(alloc, DType::Bool(plain)));
    assert!(rt; is_no_type_of_integers(alloc, DType::Utf8(plain)));
    assert!(rt; is_no_type_of_integers(alloc, DType::Primitive(PType::I64, plain)));
}
