//! Tests of arrays of numbers and of nulls: their rows, their parts and their refusals, with the texts.

use crate::parts::{Made, aligned_to, buffer_of, copy_of, has_row, numbers, prints, row_of};
use std::alloc::Global;
use vx_arrays::{Array, ArrayError, Arrays, Body, NullArray, PrimitiveArray, RowValue};
use vx_buffer::{Alignment, BufferHandle};
use vx_types::{DType, Nullability, PType, PValue};

const NUMBERS: [u8; 16] = [
    254, 255, 255, 255, 255, 255, 255, 255, 1, 2, 3, 4, 5, 6, 7, 8,
];

// Returns those bytes, so that no other proof unfolds the constant.
fn number_bytes() -> &'static [u8] {
    &NUMBERS
}

// Whether a row of n numbers of a kind has this value.
fn is_number(alloc: Global, kind: PType, len: usize, index: usize, value: PValue) -> bool {
    let made = numbers(alloc, number_bytes(), kind, len);
    has_row(alloc, made, index, true, RowValue::Primitive(value))
}

const NUMBER_ROWS: [(PType, usize, usize, PValue); 12] = [
    (PType::U8, 16, 0, PValue::U8(254)),
    (PType::I8, 16, 0, PValue::I8(-2)),
    (PType::U16, 8, 0, PValue::U16(0xfffe)),
    (PType::I16, 8, 0, PValue::I16(-2)),
    (PType::F16, 8, 0, PValue::F16(0xfffe)),
    (PType::U32, 4, 0, PValue::U32(0xffff_fffe)),
    (PType::I32, 4, 0, PValue::I32(-2)),
    (PType::F32, 4, 0, PValue::F32(0xffff_fffe)),
    (PType::U64, 2, 0, PValue::U64(0xffff_ffff_ffff_fffe)),
    (PType::I64, 2, 0, PValue::I64(-2)),
    (PType::F64, 2, 0, PValue::F64(0xffff_ffff_ffff_fffe)),
    (PType::U64, 2, 1, PValue::U64(0x0807_0605_0403_0201)),
];

#[test]
fn rows_are_numbers_lowest_byte_first(rt: HostRuntime) {
    for (kind, len, index, value) in &NUMBER_ROWS {
        let holds = is_number(rt.alloc(), *kind, *len, *index, *value);
        assert!(rt; holds, "{len} numbers");
    }
}

// The first of two numbers, for a budget of n cells.
fn first_for(alloc: Global, budget: u64) -> Result<RowValue, ArrayError> {
    let (_, value) = row_of(alloc, numbers(alloc, &[1, 2], PType::U8, 2), 0, budget);
    value
}

#[test]
fn a_number_takes_a_cell(rt: HostRuntime) {
    assert!(rt; first_for(rt.alloc(), 0) == Err(ArrayError::ValueTooLarge));
    assert!(rt; first_for(rt.alloc(), 1) == Ok(RowValue::Primitive(PValue::U8(1))));
}

const INTEGERS: [u8; 8] = [1, 0, 0, 0, 2, 0, 0, 0];

// Why n nullable integers are refused with a buffer and a validity, if they are.
fn refusal(
    alloc: Global,
    buffer: BufferHandle,
    len: usize,
    validity: Option<Array>,
) -> Option<ArrayError> {
    let maybe = Nullability::Nullable;
    PrimitiveArray::try_new(alloc, buffer, PType::I32, maybe, len, validity).err()
}

// The same of a buffer of this alignment, without a validity.
fn aligned_refusal(
    alloc: Global,
    alignment: Alignment,
    len: usize,
) -> Result<Option<ArrayError>, ArrayError> {
    let buffer = buffer_of(alloc, &INTEGERS, alignment)?;
    Ok(refusal(alloc, buffer, len, None))
}

// The same with numbers as the validity.
fn refusal_of_numbers(alloc: Global) -> Result<Option<ArrayError>, ArrayError> {
    let buffer = buffer_of(alloc, &INTEGERS, aligned_to(2))?;
    let validity = numbers(alloc, &[1, 1], PType::U8, 2)?;
    Ok(refusal(alloc, buffer, 2, Some(validity)))
}

#[test]
fn parts_that_do_not_fit_are_refused(rt: HostRuntime) {
    let alloc = rt.alloc();
    let unfit = Ok(Some(ArrayError::BadShape));
    assert!(rt; aligned_refusal(alloc, aligned_to(2), 2) == Ok(None));
    assert!(rt; aligned_refusal(alloc, aligned_to(2), 3) == unfit);
    assert!(rt; aligned_refusal(alloc, aligned_to(2), usize::MAX) == unfit);
    assert!(rt; aligned_refusal(alloc, Alignment::none(), 2) == unfit);
    assert!(rt; refusal_of_numbers(alloc) == unfit);
}

// Whether an array's encoding has this identifier.
fn has_id(array: &Array, id: &str) -> bool {
    array.encoding_id() == id
}

// How many children an array has.
fn children_of(array: &Array) -> usize {
    array.children().len()
}

// Whether an array has one buffer, of these bytes, or none.
fn has_buffer(array: &Array, bytes: Option<&[u8]>) -> bool {
    match bytes {
        Some(bytes) => array.nbuffers() == 1 && array.buffer(0).as_host().as_slice() == bytes,
        None => array.nbuffers() == 0,
    }
}

// Whether an array is a node of this encoding, of n rows and children.
fn has_parts(array: &Array, id: &str, len: usize, children: usize) -> bool {
    has_id(array, id) && array.len() == len && children_of(array) == children
}

/// Whether an array was made and is a node of this encoding, of n rows and children, and of one buffer of these
/// bytes, or of none.
pub(crate) fn is_node(
    made: Made,
    id: &str,
    len: usize,
    children: usize,
    bytes: Option<&[u8]>,
) -> bool {
    match made {
        Ok(array) => {
            let holds = has_parts(&array, id, len, children) && has_buffer(&array, bytes);
            drop(array);
            holds
        }
        Err(_) => false,
    }
}

// How many bytes the values of a primitive array have.
fn borrowed(array: &Array) -> usize {
    match array.body() {
        Body::Primitive(numbers) => numbers.values().len(),
        _ => 0,
    }
}

// Whether an array is a sound one of non-nullable integers.
fn are_integers(array: &Array) -> bool {
    matches!(
        array.dtype(),
        DType::Primitive(PType::I32, Nullability::NonNullable)
    ) && array.validate().is_ok()
}

// Whether an array was made, and is a sound one of non-nullable integers with n bytes of values.
fn is_of_integers(made: Made, bytes: usize) -> bool {
    match made {
        Ok(array) => {
            let holds = are_integers(&array) && borrowed(&array) == bytes;
            drop(array);
            holds
        }
        Err(_) => false,
    }
}

// A copy of n integers.
fn copied(alloc: Global, bytes: &[u8], len: usize) -> Made {
    copy_of(alloc, numbers(alloc, bytes, PType::I32, len))
}

// Whether a copy of integers has their parts.
fn are_copied(alloc: Global, bytes: &[u8], len: usize) -> bool {
    is_node(
        copied(alloc, bytes, len),
        "vortex.primitive",
        len,
        0,
        Some(bytes),
    ) && is_of_integers(copied(alloc, bytes, len), bytes.len())
}

// A list of one array.
fn list_of_one(alloc: Global) -> Result<Arrays, ArrayError> {
    let mut arrays = Arrays::new(alloc);
    arrays.push(numbers(alloc, &[1, 2], PType::U8, 2)?)?;
    Ok(arrays)
}

// How many arrays it has, borrowed and by value.
fn listed(alloc: Global) -> Result<(usize, usize), ArrayError> {
    let arrays = list_of_one(alloc)?;
    let count = arrays.len();
    Ok((count, arrays.into_vec().len()))
}

#[test]
fn parts_are_borrowed_and_cloned(rt: HostRuntime) {
    assert!(rt; are_copied(rt.alloc(), &INTEGERS, 2));
    assert!(rt; listed(rt.alloc()) == Ok((1, 1)));
}

// The most nulls.
fn nulls(alloc: Global) -> Made {
    NullArray::new(alloc, usize::MAX)
}

// Whether a row of the most nulls is null.
fn is_null(alloc: Global, index: usize) -> bool {
    has_row(alloc, nulls(alloc), index, false, RowValue::Null)
}

// Whether a copy of the most nulls is a node of as many.
fn are_nulls_copied(alloc: Global) -> bool {
    is_node(
        copy_of(alloc, nulls(alloc)),
        "vortex.null",
        usize::MAX,
        0,
        None,
    )
}

#[test]
fn each_row_of_nulls_is_null(rt: HostRuntime) {
    assert!(rt; is_null(rt.alloc(), 0));
    assert!(rt; is_null(rt.alloc(), usize::MAX - 1));
    assert!(rt; are_nulls_copied(rt.alloc()));
}

const TEXTS: [(ArrayError, &str); 6] = [
    (ArrayError::OutOfMemory, "out of memory"),
    (ArrayError::BadShape, "the parts fit no sound array"),
    (ArrayError::BadContent, "the content is broken"),
    (
        ArrayError::ForeignControl,
        "a foreign node says where rows are, or is the entries of a map",
    ),
    (ArrayError::ValueTooLarge, "the row takes too many cells"),
    (
        ArrayError::BadCast,
        "a merge that is null is of a type without nulls",
    ),
];

#[test]
fn texts_of_refusals(rt: HostRuntime) {
    for (error, text) in &TEXTS {
        assert!(rt; prints(rt.alloc(), error, text), "{text}");
    }
}
