//! Decimals of which one is null: written, and read again.

use crate::wire::{Change, blob_of, is_read_as, kept};
use std::alloc::Global;
use vx_arrays::{Array, ArrayError, DecimalArray};
use vx_buffer::{Alignment, BufferHandle, ByteBuffer};
use vx_serde::WireError;
use vx_test_arrays::parts::{Made, both, flags};
use vx_test_arrays::rows::begins_with;
use vx_types::{DecimalDType, DecimalType, Nullability};

// The integers 1234567, 0 and -9999999 of 32 bits each, and the validity of the first and the last.
const WRITTEN: [u8; 13] = [
    0x87, 0xd6, 0x12, 0, 0, 0, 0, 0, 0x81, 0x69, 0x67, 0xff, 0x05,
];

// Seven digits, of which three stand after the point.
fn seven_digits() -> Result<DecimalDType, ArrayError> {
    match DecimalDType::try_new(7, 3) {
        Ok(digits) => Ok(digits),
        Err(_) => Err(ArrayError::OutOfMemory),
    }
}

// The buffer of the integers.
fn integers(alloc: Global) -> Result<BufferHandle, ArrayError> {
    let alignment = match Alignment::new(4) {
        Some(alignment) => alignment,
        None => Alignment::none(),
    };
    let buffer = ByteBuffer::copy_from(alloc, &WRITTEN[..12])?;
    Ok(BufferHandle::new_host(buffer.aligned(alignment)))
}

// The decimals, of which the second is null.
fn decimals(alloc: Global) -> Made {
    let digits = seven_digits()?;
    let (values, validity) = both(integers(alloc), flags(alloc, 0b101, 3))?;
    DecimalArray::try_new(
        alloc,
        values,
        DecimalType::I32,
        digits,
        Nullability::Nullable,
        3,
        Some(validity),
    )
}

// Whether an array's blob begins with these bytes.
fn begins(alloc: Global, array: &Array, bytes: &[u8]) -> Result<bool, WireError> {
    let blob = blob_of(alloc, array)?;
    Ok(blob.as_slice().starts_with(bytes))
}

// Whether the rows that are read from it have these texts.
fn are_rows(alloc: Global, array: &Array, texts: &[&str]) -> Result<bool, WireError> {
    let read = kept(alloc, array, Change::Nothing)?;
    let same = begins_with(alloc, &read, texts);
    drop(read);
    Ok(same)
}

// Whether the decimals are written by their integers and their validity, and read as two decimals and a null.
fn are_written(alloc: Global) -> Result<bool, WireError> {
    match decimals(alloc) {
        Ok(array) => {
            let written = begins(alloc, &array, &WRITTEN);
            let read = are_rows(alloc, &array, &["decimal", "null", "decimal"]);
            drop(array);
            Ok(written? && read?)
        }
        Err(_) => Err(WireError::OutOfMemory),
    }
}

#[test]
fn decimals_are_read_again(rt: HostRuntime) {
    let alloc = rt.alloc();
    assert!(rt; are_written(alloc) == Ok(true));
    assert!(rt; is_read_as(alloc, decimals(alloc), decimals(alloc)));
}
