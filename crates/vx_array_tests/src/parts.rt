//! Parts of arrays that tests are made of, and what tests ask of arrays.

use std::alloc::Global;
use std::fmt::Display;
use vx_arrays::{Array, ArrayError, BoolArray, PrimitiveArray, RowValue};
use vx_buffer::{Alignment, BufferHandle, ByteBuffer};
use vx_types::{Nullability, PType};

/// An array, or why it is not made.
pub type Made = Result<Array, ArrayError>;

/// A validity, where it is made.
pub fn some(made: Made) -> Result<Option<Array>, ArrayError> {
    match made {
        Ok(array) => Ok(Some(array)),
        Err(e) => Err(e),
    }
}

/// The alignment of this exponent, or none.
pub fn aligned_to(exponent: u8) -> Alignment {
    match Alignment::from_exponent(exponent) {
        Some(alignment) => alignment,
        None => Alignment::none(),
    }
}

/// A buffer of these bytes and this alignment.
pub fn buffer_of(
    alloc: Global,
    bytes: &[u8],
    alignment: Alignment,
) -> Result<BufferHandle, ArrayError> {
    let buffer = ByteBuffer::copy_from(alloc, bytes)?;
    Ok(BufferHandle::new_host(buffer.aligned(alignment)))
}

// The alignment of the numbers of a kind.
fn alignment_of(kind: PType) -> Alignment {
    match Alignment::new(kind.byte_width()) {
        Some(alignment) => alignment,
        None => Alignment::none(),
    }
}

/// n numbers of a kind that are never null.
pub fn numbers(alloc: Global, bytes: &[u8], kind: PType, len: usize) -> Result<Array, ArrayError> {
    let values = buffer_of(alloc, bytes, alignment_of(kind))?;
    PrimitiveArray::try_new(alloc, values, kind, Nullability::NonNullable, len, None)
}

/// Flags that are never null.
pub fn flags(alloc: Global, bytes: &[u8], offset: usize, len: usize) -> Result<Array, ArrayError> {
    let bits = buffer_of(alloc, bytes, Alignment::none())?;
    BoolArray::try_new(alloc, bits, offset, len, Nullability::NonNullable, None)
}

// Whether a row is valid, if that is known and there is such a row.
fn is_there(array: &Array, index: usize) -> Option<bool> {
    if index >= array.len() {
        return None;
    }
    array.is_valid(index)
}

/// The value of a row, for a budget of n cells.
pub fn value_at(
    alloc: Global,
    array: &Array,
    index: usize,
    budget: u64,
) -> Result<RowValue, ArrayError> {
    if index >= array.len() {
        return Err(ArrayError::BadShape);
    }
    array.value_at(alloc, index, budget)
}

/// Whether a row of an array that was made is valid, if that is known, and its value, for a budget of n cells.
pub fn row_of(
    alloc: Global,
    made: Made,
    index: usize,
    budget: u64,
) -> (Option<bool>, Result<RowValue, ArrayError>) {
    match made {
        Ok(array) => {
            let there = is_there(&array, index);
            let value = value_at(alloc, &array, index, budget);
            drop(array);
            (there, value)
        }
        Err(e) => (None, Err(e)),
    }
}

/// Whether a row of an array that was made is valid or not, and has this value.
pub fn has_row(alloc: Global, made: Made, index: usize, there: bool, value: RowValue) -> bool {
    let (is_there, found) = row_of(alloc, made, index, 1);
    is_there == Some(there) && found == Ok(value)
}

/// A copy of an array that was made.
pub fn copy_of(alloc: Global, made: Made) -> Made {
    let array = made?;
    let copy = array.clone(alloc);
    drop(array);
    copy
}

/// Whether a value is printed as this text.
pub fn prints<T: Display>(alloc: Global, value: &T, text: &str) -> bool {
    match format!(in alloc; "{value}") {
        Ok(printed) => printed.as_str() == text,
        Err(_) => false,
    }
}
