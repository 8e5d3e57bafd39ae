//! Arrays of numbers and of texts, by their values.

use anyhow::Result;
use duriancards::arrays::{BoolArray, PrimitiveArray, VarBinArray};
use duriancards::prelude::{Alignment, Array, BufferHandle, ByteBuffer, DType, Nullability, PType};
use std::alloc::Global;

/// A buffer of these bytes, with an alignment in bytes.
fn buffer(alloc: Global, bytes: &[u8], alignment: usize) -> Result<BufferHandle> {
    let buffer = ByteBuffer::copy_from(alloc, bytes)?;
    let alignment = Alignment::new(alignment).unwrap_or(Alignment::none());
    Ok(BufferHandle::new_host(buffer.aligned(alignment)))
}

/// Unsigned numbers of one byte, none of them null.
pub fn small_numbers(alloc: Global, values: &[u8]) -> Result<Array> {
    let bytes = buffer(alloc, values, 1)?;
    let never = Nullability::NonNullable;
    Ok(PrimitiveArray::try_new(alloc, bytes, PType::U8, never, values.len(), None)?)
}

/// A validity of at most eight rows: one bit for each, the lowest first.
fn validity(alloc: Global, bits: u8, len: usize) -> Result<Array> {
    let bits = buffer(alloc, &[bits], 1)?;
    Ok(BoolArray::try_new(alloc, bits, 0, len, Nullability::NonNullable, None)?)
}

/// Signed numbers of four bytes; those whose bit is not set are null.
pub fn numbers_or_null(alloc: Global, values: &[i32], there: u8) -> Result<Array> {
    let mut bytes = Vec::new(alloc);
    for value in values {
        bytes.extend_from_slice(&value.to_le_bytes())?;
    }
    let bytes = buffer(alloc, bytes.as_slice(), 4)?;
    let validity = Some(validity(alloc, there, values.len())?);
    let nullable = Nullability::Nullable;
    Ok(PrimitiveArray::try_new(alloc, bytes, PType::I32, nullable, values.len(), validity)?)
}

/// Texts, none of them null: all bytes, and the offsets at which each text begins and the last ends.
pub fn texts(alloc: Global, bytes: &str, offsets: &[u8]) -> Result<Array> {
    let offsets = small_numbers(alloc, offsets)?;
    let bytes = buffer(alloc, bytes.as_bytes(), 1)?;
    Ok(VarBinArray::try_new(
        alloc,
        DType::Utf8(Nullability::NonNullable),
        offsets,
        bytes,
        None,
    )?)
}
