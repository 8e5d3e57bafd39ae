//! Tests of the names of slots and of buffers.

use crate::varbins::one_text;
use std::alloc::Global;
use vx_array_tests::parts::{Made, buffer_of, some};
use vx_arrays::{
    Array, ArrayError, BoolArray, DecimalArray, NullArray, PrimitiveArray, validity_all_invalid,
};
use vx_buffer::{Alignment, BufferHandle};
use vx_test_arrays::parts::both;
use vx_types::{DecimalDType, DecimalType, Nullability, PType};

const MAYBE: Nullability = Nullability::Nullable;

// Whether a node's slot of this number has this name.
fn is_slot(alloc: Global, array: &Array, index: usize, slot: &str) -> bool {
    if index >= array.nslots() {
        return false;
    }
    match array.slot_name(alloc, index) {
        Ok(name) => name.as_str() == slot,
        Err(_) => false,
    }
}

// Whether a node's one slot is that of a validity.
fn has_slot(alloc: Global, array: &Array) -> bool {
    array.nslots() == 1 && is_slot(alloc, array, 0, "validity")
}

// Whether a node's buffer has this name.
fn is_buffer(alloc: Global, array: &Array, buffer: &str) -> bool {
    match array.buffer_name(alloc, 0) {
        Ok(Some(name)) => name.as_str() == buffer,
        _ => false,
    }
}

// Whether a node's buffer of this number has no name.
fn is_none(alloc: Global, array: &Array, index: usize) -> bool {
    matches!(array.buffer_name(alloc, index), Ok(None))
}

// Whether a node's one slot is that of a validity, and its one buffer has this name.
fn is_named(alloc: Global, array: &Array, buffer: &str) -> bool {
    has_slot(alloc, array) && is_buffer(alloc, array, buffer) && is_none(alloc, array, 1)
}

// A buffer of one byte.
fn byte(alloc: Global) -> Result<BufferHandle, ArrayError> {
    buffer_of(alloc, &[1], Alignment::none())
}

fn flags(alloc: Global) -> Made {
    let bits = byte(alloc)?;
    BoolArray::try_new(alloc, bits, 0, 1, MAYBE, None)
}

fn numbers(alloc: Global) -> Made {
    let there = some(validity_all_invalid(alloc, 1));
    let (values, there) = both(byte(alloc), there)?;
    PrimitiveArray::try_new(alloc, values, PType::U8, MAYBE, 1, there)
}

// Decimals of one digit.
fn one_digit() -> Result<DecimalDType, ArrayError> {
    match DecimalDType::try_new(1, 0) {
        Ok(digits) => Ok(digits),
        Err(_) => Err(ArrayError::BadShape),
    }
}

fn decimals(alloc: Global) -> Made {
    let digits = one_digit()?;
    let values = byte(alloc)?;
    DecimalArray::try_new(alloc, values, DecimalType::I8, digits, MAYBE, 1, None)
}

// Whether an array, if it was made, has these names.
fn is_made(alloc: Global, made: Made, buffer: &str) -> bool {
    match made {
        Ok(array) => {
            let named = is_named(alloc, &array, buffer);
            drop(array);
            named
        }
        Err(_) => false,
    }
}

// Whether an array's slots are those of offsets and of a validity, and its one buffer is of bytes.
fn has_offsets(alloc: Global, array: &Array) -> bool {
    array.nslots() == 2
        && is_slot(alloc, array, 0, "offsets")
        && is_slot(alloc, array, 1, "validity")
        && is_buffer(alloc, array, "bytes")
        && is_none(alloc, array, 1)
}

// Whether texts by offsets have these.
fn are_texts_named(alloc: Global) -> Result<bool, ArrayError> {
    let array = one_text(alloc)?;
    let named = has_offsets(alloc, &array);
    drop(array);
    Ok(named)
}

// Whether an array has no slot and no buffer.
fn has_nothing(alloc: Global, array: &Array) -> bool {
    array.nslots() == 0 && is_none(alloc, array, 0)
}

// Whether nulls have no slot and no buffer.
fn is_bare(alloc: Global) -> Result<bool, ArrayError> {
    let array = NullArray::new(alloc, 1)?;
    let bare = has_nothing(alloc, &array);
    drop(array);
    Ok(bare)
}

#[test]
fn slots_and_buffers_have_names(rt: HostRuntime) {
    let alloc = rt.alloc();
    assert!(rt; is_made(alloc, flags(alloc), "bits"));
    assert!(rt; is_made(alloc, numbers(alloc), "values"));
    assert!(rt; is_made(alloc, decimals(alloc), "values"));
    assert!(rt; are_texts_named(alloc) == Ok(true));
    assert!(rt; is_bare(alloc) == Ok(true));
}
