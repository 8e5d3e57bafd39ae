//! Tests of flags, and of validities: which are made, what their rows are, and what is refused.

use crate::arrays::is_node;
use crate::parts::{Made, aligned_to, buffer_of, copy_of, flags, has_row, some};
use std::alloc::Global;
use vx_arrays::{
    Array, ArrayError, BoolArray, NullArray, PrimitiveArray, RowValue, validity_all_invalid,
};
use vx_buffer::Alignment;
use vx_test_arrays::parts::both;
use vx_types::{Nullability, PType, PValue};

// A validity or none, or why it is not made.
type Validity = Result<Option<Array>, ArrayError>;

// Flags with a validity.
fn flags_with(
    alloc: Global,
    bytes: &[u8],
    offset: usize,
    nullability: Nullability,
    validity: Validity,
) -> Made {
    let bits = buffer_of(alloc, bytes, Alignment::none());
    let (bits, validity) = both(bits, validity)?;
    BoolArray::try_new(alloc, bits, offset, 4, nullability, validity)
}

// The bits of the bytes 2c and 81, the lowest of each first.
const BITS: [bool; 16] = [
    false, false, true, true, false, true, false, false, true, false, false, false, false, false,
    false, true,
];

const BYTES: [u8; 2] = [0x2c, 0x81];

// n flags of these bytes.
fn flags_from(alloc: Global, offset: usize, len: usize) -> Made {
    flags(alloc, &BYTES, offset, len)
}

// Whether n flags of these bytes are a node.
fn is_made(alloc: Global, offset: usize, len: usize) -> bool {
    is_node(
        flags_from(alloc, offset, len),
        "vortex.bool",
        len,
        0,
        Some(&BYTES),
    )
}

// Whether the last of n flags is the last of n bits.
fn is_bit(alloc: Global, offset: usize, len: usize, bits: &[bool]) -> bool {
    match (bits.last(), len.checked_sub(1)) {
        (Some(bit), Some(last)) => {
            has_row(
                alloc,
                flags_from(alloc, offset, len),
                last,
                true,
                RowValue::Bool(*bit),
            )
        }
        _ => false,
    }
}

// Whether n flags after n bits are made, and the last is its bit.
fn is_last(alloc: Global, offset: usize, len: usize) -> bool {
    match BITS.get(..offset.saturating_add(len)) {
        Some(bits) => {
            is_made(alloc, offset, len) && (len == 0 || is_bit(alloc, offset, len, bits))
        }
        None => false,
    }
}

// Why n flags after n bits are refused, if they are.
fn flags_refusal(alloc: Global, offset: usize, len: usize) -> Option<ArrayError> {
    flags_from(alloc, offset, len).err()
}

// Whether after n bits each number of flags up to this one is made, and one more is not.
fn are_read_from(alloc: Global, offset: usize, most: u8) -> bool {
    for len in 0..=most {
        if !is_last(alloc, offset, usize::from(len)) {
            return false;
        }
    }
    flags_refusal(alloc, offset, usize::from(most) + 1) == Some(ArrayError::BadShape)
}

#[test]
fn flags_are_bits_from_an_offset(rt: HostRuntime) {
    for offset in 0..8u8 {
        assert!(rt;
            are_read_from(rt.alloc(), usize::from(offset), 16 - offset),
            "{offset}"
        );
    }
}

#[test]
fn flags_past_the_end_are_refused(rt: HostRuntime) {
    for (offset, len) in [(8, 0), (8, 1), (usize::MAX, usize::MAX), (0, usize::MAX)] {
        assert!(rt;
            flags_refusal(rt.alloc(), offset, len) == Some(ArrayError::BadShape),
            "{len}"
        );
    }
}

// The validity of four rows, of which the first and the third are valid.
fn validity(alloc: Global) -> Made {
    flags(alloc, &[5], 0, 4)
}

const FOUR: [u8; 16] = [1, 0, 0, 0, 2, 0, 0, 0, 3, 0, 0, 0, 4, 0, 0, 0];

// Four nullable numbers, with a validity.
fn numbers_with(alloc: Global, validity: Validity) -> Made {
    let values = buffer_of(alloc, &FOUR, aligned_to(2));
    let (values, validity) = both(values, validity)?;
    PrimitiveArray::try_new(
        alloc,
        values,
        PType::I32,
        Nullability::Nullable,
        4,
        validity,
    )
}

// Four nullable flags, with a validity.
fn nullable_flags(alloc: Global, byte: u8, validity: Validity) -> Made {
    flags_with(alloc, &[byte], 0, Nullability::Nullable, validity)
}

// Four flags, or numbers, of which the first and the third are valid.
fn with_validity(alloc: Global, numbers: bool) -> Made {
    let validity = some(validity(alloc));
    if numbers {
        numbers_with(alloc, validity)
    } else {
        nullable_flags(alloc, 1, validity)
    }
}

// Whether a row of four flags, or numbers, is null.
fn is_null(alloc: Global, numbers: bool, index: usize) -> bool {
    has_row(
        alloc,
        with_validity(alloc, numbers),
        index,
        false,
        RowValue::Null,
    )
}

// Whether a row of four flags, or numbers, is valid and has this value.
fn is_there(alloc: Global, numbers: bool, index: usize, value: RowValue) -> bool {
    has_row(alloc, with_validity(alloc, numbers), index, true, value)
}

#[test]
fn rows_are_null_where_the_validity_says_so(rt: HostRuntime) {
    let alloc = rt.alloc();
    assert!(rt; is_there(alloc, false, 0, RowValue::Bool(true)));
    assert!(rt; is_there(alloc, false, 2, RowValue::Bool(false)));
    assert!(rt; is_there(alloc, true, 0, RowValue::Primitive(PValue::I32(1))));
    assert!(rt; is_there(alloc, true, 2, RowValue::Primitive(PValue::I32(3))));
    for numbers in [false, true] {
        assert!(rt; is_null(alloc, numbers, 1) && is_null(alloc, numbers, 3));
    }
}

// What is given as the validity of four rows.
#[derive(Clone, Copy, Debug)]
enum Given {
    Flags,
    NoneThere,
    Shorter,
    Nullable,
    WithValidity,
    Nulls,
    Numbers,
}

fn validity_of(alloc: Global, given: Given) -> Made {
    match given {
        Given::Flags => validity(alloc),
        Given::NoneThere => validity_all_invalid(alloc, 4),
        Given::Shorter => flags(alloc, &[5], 0, 3),
        Given::Nullable => nullable_flags(alloc, 5, Ok(None)),
        Given::WithValidity => with_validity(alloc, false),
        Given::Nulls => NullArray::new(alloc, 4),
        Given::Numbers => numbers_with(alloc, Ok(None)),
    }
}

// Why four nullable flags are refused with it, if they are.
fn refusal_of_flags(alloc: Global, given: Given) -> Option<ArrayError> {
    nullable_flags(alloc, 1, some(validity_of(alloc, given))).err()
}

// Why four nullable numbers are refused with it, if they are.
fn refusal_of_numbers(alloc: Global, given: Given) -> Option<ArrayError> {
    numbers_with(alloc, some(validity_of(alloc, given))).err()
}

// Why four non-nullable flags are refused with it, if they are.
fn refusal_without_nulls(alloc: Global, given: Given) -> Option<ArrayError> {
    let validity = some(validity_of(alloc, given));
    flags_with(alloc, &[1], 0, Nullability::NonNullable, validity).err()
}

const UNFIT: Option<ArrayError> = Some(ArrayError::BadShape);

const GIVEN: [(Given, Option<ArrayError>); 7] = [
    (Given::Flags, None),
    (Given::NoneThere, None),
    (Given::Shorter, UNFIT),
    (Given::Nullable, UNFIT),
    (Given::WithValidity, UNFIT),
    (Given::Nulls, UNFIT),
    (Given::Numbers, UNFIT),
];

#[test]
fn a_validity_is_flags_that_are_never_null(rt: HostRuntime) {
    let alloc = rt.alloc();
    for (given, refusal) in &GIVEN {
        assert!(rt; refusal_of_flags(alloc, *given) == *refusal, "{given:?}");
        assert!(rt; refusal_of_numbers(alloc, *given) == *refusal, "{given:?}");
        assert!(rt; refusal_without_nulls(alloc, *given) == UNFIT, "{given:?}");
    }
}

// Whether the validity of n rows that are all null has these bytes, and its last row says so.
fn is_all_invalid(alloc: Global, len: usize, bytes: &[u8]) -> bool {
    let made = validity_all_invalid(alloc, len);
    let last = len.saturating_sub(1);
    has_row(alloc, made, last, true, RowValue::Bool(false))
        && is_node(
            validity_all_invalid(alloc, len),
            "vortex.bool",
            len,
            0,
            Some(bytes),
        )
}

#[test]
fn a_validity_may_say_that_no_row_is_there(rt: HostRuntime) {
    let alloc = rt.alloc();
    assert!(rt; is_all_invalid(alloc, 1, &[0]));
    assert!(rt; is_all_invalid(alloc, 8, &[0]));
    assert!(rt; is_all_invalid(alloc, 9, &[0, 0]));
}

// Four flags after two bits, with a validity.
fn behind_two_bits(alloc: Global) -> Made {
    flags_with(
        alloc,
        &[0x2c],
        2,
        Nullability::Nullable,
        some(validity(alloc)),
    )
}

#[test]
fn flags_are_borrowed_and_cloned(rt: HostRuntime) {
    let copy = copy_of(rt.alloc(), behind_two_bits(rt.alloc()));
    assert!(rt; is_node(copy, "vortex.bool", 4, 1, Some(&[0x2c])));
}
