//! Tests of decimals: the rows of each width, which arrays are made, and their nodes on the wire.

use crate::encodings::{buffers_of, head_of, is_built, plan_refusal};
use std::alloc::{AllocError, Global};
use vx_array_tests::parts::{Made, aligned_to, buffer_of, has_row};
use vx_arrays::{ArrayError, DecimalArray, RowValue};
use vx_buffer::{Alignment, BufferHandle};
use vx_encodings::{ArrayHead, DecimalMetadata, Encoding, EncodingError};
use vx_proto::{Message, ProtoError};
use vx_scalars::DecimalValue;
use vx_types::{DType, DecimalDType, DecimalType, Nullability};

// Appends an integer of a width, whose highest byte is `high` and whose other bytes are `low`.
fn push_edge(bytes: &mut Vec<u8>, width: usize, low: u8, high: u8) -> Result<(), AllocError> {
    for _ in 1..width {
        bytes.push(low)?;
    }
    bytes.push(high)?;
    Ok(())
}

// The least integer of a width, its greatest, and -1, each with its lowest byte first.
fn edges(alloc: Global, width: usize) -> Result<Vec<u8>, AllocError> {
    let mut bytes = Vec::new(alloc);
    push_edge(&mut bytes, width, 0, 0x80)?;
    push_edge(&mut bytes, width, 0xff, 0x7f)?;
    push_edge(&mut bytes, width, 0xff, 0xff)?;
    Ok(bytes)
}

// Decimals of ten digits.
fn ten_digits() -> Result<DecimalDType, ArrayError> {
    match DecimalDType::try_new(10, 2) {
        Ok(digits) => Ok(digits),
        Err(_) => Err(ArrayError::OutOfMemory),
    }
}

/// `len` decimals of ten digits, by integers of this width.
pub(crate) fn decimals(
    alloc: Global,
    bytes: &[u8],
    width: DecimalType,
    alignment: Alignment,
    len: usize,
) -> Made {
    let digits = ten_digits()?;
    let values = buffer_of(alloc, bytes, alignment)?;
    DecimalArray::try_new(
        alloc,
        values,
        width,
        digits,
        Nullability::NonNullable,
        len,
        None,
    )
}

// The three integers at the edges of a width.
fn edge_array(alloc: Global, width: DecimalType) -> Made {
    let bytes = edges(alloc, width.byte_width())?;
    decimals(alloc, bytes.as_slice(), width, aligned_to(4), 3)
}

const LEAST: [u8; 32] = [
    0, 0, 0, 0, 0, 0, 0, 0, 0, 0, 0, 0, 0, 0, 0, 0, 0, 0, 0, 0, 0, 0, 0, 0, 0, 0, 0, 0, 0, 0, 0,
    0x80,
];

const GREATEST: [u8; 32] = [
    255, 255, 255, 255, 255, 255, 255, 255, 255, 255, 255, 255, 255, 255, 255, 255, 255, 255, 255,
    255, 255, 255, 255, 255, 255, 255, 255, 255, 255, 255, 255, 0x7f,
];

// The least decimal of a width.
fn least(width: DecimalType) -> DecimalValue {
    match width {
        DecimalType::I8 => DecimalValue::I8(i8::MIN),
        DecimalType::I16 => DecimalValue::I16(i16::MIN),
        DecimalType::I32 => DecimalValue::I32(i32::MIN),
        DecimalType::I64 => DecimalValue::I64(i64::MIN),
        DecimalType::I128 => DecimalValue::I128(i128::MIN),
        DecimalType::I256 => DecimalValue::I256(LEAST),
    }
}

// The greatest decimal of a width.
fn greatest(width: DecimalType) -> DecimalValue {
    match width {
        DecimalType::I8 => DecimalValue::I8(i8::MAX),
        DecimalType::I16 => DecimalValue::I16(i16::MAX),
        DecimalType::I32 => DecimalValue::I32(i32::MAX),
        DecimalType::I64 => DecimalValue::I64(i64::MAX),
        DecimalType::I128 => DecimalValue::I128(i128::MAX),
        DecimalType::I256 => DecimalValue::I256(GREATEST),
    }
}

// The decimal -1 of a width.
fn minus_one(width: DecimalType) -> DecimalValue {
    match width {
        DecimalType::I8 => DecimalValue::I8(-1),
        DecimalType::I16 => DecimalValue::I16(-1),
        DecimalType::I32 => DecimalValue::I32(-1),
        DecimalType::I64 => DecimalValue::I64(-1),
        DecimalType::I128 => DecimalValue::I128(-1),
        DecimalType::I256 => DecimalValue::I256([0xff; 32]),
    }
}

// Whether a row of the integers at the edges of a width is this decimal.
fn is_edge(alloc: Global, width: DecimalType, index: usize, value: DecimalValue) -> bool {
    has_row(
        alloc,
        edge_array(alloc, width),
        index,
        true,
        RowValue::Decimal(value),
    )
}

// Whether the integers at the edges of a width are its rows.
fn are_edges(alloc: Global, width: DecimalType) -> bool {
    is_edge(alloc, width, 0, least(width))
        && is_edge(alloc, width, 1, greatest(width))
        && is_edge(alloc, width, 2, minus_one(width))
}

const WIDTHS: [DecimalType; 6] = [
    DecimalType::I8,
    DecimalType::I16,
    DecimalType::I32,
    DecimalType::I64,
    DecimalType::I128,
    DecimalType::I256,
];

#[test]
fn rows_are_integers_of_each_width(rt: HostRuntime) {
    for width in &WIDTHS {
        assert!(rt; are_edges(rt.alloc(), *width), "{width:?}");
    }
}

const SEVENS: [u8; 64] = [7; 64];

// These bytes, in a function so that no other proof reads them.
fn sevens() -> &'static [u8] {
    &SEVENS
}

// The refusal of `len` decimals of a width in 64 bytes, aligned to 2^`exponent`, if they are refused.
fn made_refusal(alloc: Global, width: DecimalType, exponent: u8, len: usize) -> Option<ArrayError> {
    decimals(alloc, sevens(), width, aligned_to(exponent), len).err()
}

const UNFIT: Option<ArrayError> = Some(ArrayError::BadShape);

const ALIGNED: [(DecimalType, u8, usize, Option<ArrayError>); 10] = [
    (DecimalType::I8, 0, 64, None),
    (DecimalType::I16, 0, 32, UNFIT),
    (DecimalType::I16, 1, 32, None),
    (DecimalType::I64, 2, 8, UNFIT),
    (DecimalType::I128, 3, 4, UNFIT),
    (DecimalType::I128, 4, 4, None),
    (DecimalType::I256, 3, 2, UNFIT),
    (DecimalType::I256, 4, 2, None),
    (DecimalType::I256, 4, 1, UNFIT),
    (DecimalType::I256, 4, usize::MAX, UNFIT),
];

#[test]
fn integers_are_aligned_to_at_most_16_bytes(rt: HostRuntime) {
    for (width, exponent, len, error) in &ALIGNED {
        let refused = made_refusal(rt.alloc(), *width, *exponent, *len);
        assert!(rt; refused == *error, "{width:?} at 2^{exponent}");
    }
}

// The bytes of a width's metadata.
fn width_bytes(alloc: Global, width: DecimalType) -> Result<vx_proto::Blob, ProtoError> {
    DecimalMetadata { values_type: width }.encode_to_vec(alloc)
}

// The width that is read from bytes.
fn width_of(alloc: Global, bytes: &[u8]) -> Result<DecimalType, ProtoError> {
    let read = DecimalMetadata::decode(alloc, bytes)?;
    Ok(read.values_type)
}

// Whether a width is written as these bytes, and read from them.
fn is_width(alloc: Global, width: DecimalType, bytes: &[u8]) -> bool {
    match width_bytes(alloc, width) {
        Ok(written) => written.as_slice() == bytes && width_of(alloc, bytes) == Ok(width),
        Err(_) => false,
    }
}

const CODES: [(DecimalType, &[u8]); 6] = [
    (DecimalType::I8, &[]),
    (DecimalType::I16, &[8, 1]),
    (DecimalType::I32, &[8, 2]),
    (DecimalType::I64, &[8, 3]),
    (DecimalType::I128, &[8, 4]),
    (DecimalType::I256, &[8, 5]),
];

#[test]
fn a_width_is_one_code(rt: HostRuntime) {
    let default = DecimalMetadata::default(rt.alloc());
    assert!(rt; default.values_type == DecimalType::I8);
    for (width, bytes) in &CODES {
        assert!(rt; is_width(rt.alloc(), *width, bytes), "{width:?}");
    }
}

// The head of a node of five decimals.
fn decimal_head(
    alloc: Global,
    metadata: &[u8],
    nchildren: usize,
) -> Result<ArrayHead, EncodingError> {
    match DecimalDType::try_new(10, 2) {
        Ok(digits) => {
            let dtype = DType::Decimal(digits, Nullability::Nullable);
            head_of(alloc, dtype, 5, metadata, nchildren)
        }
        Err(_) => Err(EncodingError::OutOfMemory),
    }
}

// The refusal of a plan of five decimals, if it is refused.
fn refusal(alloc: Global, metadata: &[u8], nchildren: usize) -> Option<EncodingError> {
    plan_refusal(
        alloc,
        Encoding::Decimal,
        decimal_head(alloc, metadata, nchildren),
    )
}

const HUNDREDS: [u8; 80] = [100; 80];

// These bytes, in a function so that no other proof reads them.
fn hundreds() -> &'static [u8] {
    &HUNDREDS
}

// Whether five decimals of 16 bytes each are planned and built, with their metadata kept.
fn are_built(alloc: Global, metadata: &[u8]) -> Result<bool, EncodingError> {
    let head = decimal_head(alloc, metadata, 0);
    let buffers = buffers_of(alloc, hundreds(), aligned_to(4), 1);
    is_built(alloc, Encoding::Decimal, head, buffers, metadata)
}

#[test]
fn nodes_of_decimals_keep_their_width(rt: HostRuntime) {
    let alloc = rt.alloc();
    let unfit = Err(EncodingError::BadShape);
    let unread = Err(EncodingError::BadMetadata);
    assert!(rt; are_built(alloc, &[8, 4]) == Ok(true));
    assert!(rt; are_built(alloc, &[8, 5]) == unfit);
    assert!(rt; are_built(alloc, &[]) == unfit);
    assert!(rt; are_built(alloc, &[8, 6]) == unread);
    assert!(rt; are_built(alloc, &[8]) == unread);
    assert!(rt; refusal(alloc, &[8, 4], 2) == Some(EncodingError::BadShape));
}
