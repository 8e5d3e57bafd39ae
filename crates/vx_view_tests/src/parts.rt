//! Arrays of rows by views, made of their parts.

use std::alloc::Global;
use vx_array_tests::parts::{aligned_to, buffer_of, flags};
use vx_arrays::{Array, ArrayError, VarBinViewArray};
use vx_buffer::{Alignment, BufferHandle};
use vx_types::{DType, Nullability};

// What the rows are.
#[derive(Clone, Copy, Debug)]
pub(crate) enum Rows {
    Texts,
    TextsOrNull,
    Bytes,
    BytesOrNull,
    Nulls,
}

pub(crate) fn dtype_of(rows: Rows) -> DType {
    match rows {
        Rows::Texts => DType::Utf8(Nullability::NonNullable),
        Rows::TextsOrNull => DType::Utf8(Nullability::Nullable),
        Rows::Bytes => DType::Binary(Nullability::NonNullable),
        Rows::BytesOrNull => DType::Binary(Nullability::Nullable),
        Rows::Nulls => DType::Null,
    }
}

// Rows by views, with the bits of a validity of this many rows, where there are some.
fn made_by(
    alloc: Global,
    rows: Rows,
    len: usize,
    data: Vec<BufferHandle>,
    views: BufferHandle,
    bits: Option<u8>,
    count: usize,
) -> Result<Array, ArrayError> {
    match bits {
        None => VarBinViewArray::try_new(alloc, dtype_of(rows), len, data, views, None),
        Some(bits) => {
            let validity = flags(alloc, &[bits], 0, count)?;
            VarBinViewArray::try_new(alloc, dtype_of(rows), len, data, views, Some(validity))
        }
    }
}

// Buffers of these bytes, with no alignment.
fn data_of(alloc: Global, buffers: &[&[u8]]) -> Result<Vec<BufferHandle>, ArrayError> {
    let mut data = Vec::new(alloc);
    for bytes in buffers {
        data.push(buffer_of(alloc, bytes, Alignment::none())?)?;
    }
    Ok(data)
}

/// Rows by these views, aligned to 2^`exponent`, without data, with a validity of one row where there are bits for it.
pub(crate) fn made_of_views(
    alloc: Global,
    rows: Rows,
    len: usize,
    views: &[u8],
    exponent: u8,
    bits: Option<u8>,
) -> Result<Array, ArrayError> {
    let views = buffer_of(alloc, views, aligned_to(exponent))?;
    made_by(alloc, rows, len, Vec::new(alloc), views, bits, 1)
}

/// Rows by these views into buffers of these bytes, with a validity if bits are given.
pub(crate) fn made(
    alloc: Global,
    rows: Rows,
    len: usize,
    buffers: &[&[u8]],
    views: &[u8],
    bits: Option<u8>,
) -> Result<Array, ArrayError> {
    let views = buffer_of(alloc, views, aligned_to(4))?;
    let data = data_of(alloc, buffers)?;
    made_by(alloc, rows, len, data, views, bits, len)
}
