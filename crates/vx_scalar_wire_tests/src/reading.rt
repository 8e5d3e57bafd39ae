//! Values out of messages, at types.

use std::alloc::{AllocError, Global};
use std::process::Abort;
use vx_proto::Message;
use vx_scalar_wire::{ScalarExt, ScalarValueExt, ScalarWireError, pb};
use vx_scalars::{DecimalValue, Scalar, ScalarValue};
use vx_type_wire::{ExtSession, TypeWireError};
use vx_types::{
    Blob, DType, DTypes, DecimalDType, ExtDType, Id, MapDType, Name, Names, Nullability, PType,
    PValue, StructFields, TypeError, TypeIds, TypeRef, UnionVariants,
};

const NO: Nullability = Nullability::NonNullable;

fn numbers(kind: PType) -> DType {
    DType::Primitive(kind, NO)
}

fn list_of(alloc: Global, element: DType) -> Result<DType, TypeError> {
    Ok(DType::List(TypeRef::new(alloc, element)?, NO))
}

// The names a and b.
fn two_names(alloc: Global) -> Result<Names, TypeError> {
    let mut names = Names::new(alloc);
    names.push(Name::new(alloc, "a")?)?;
    names.push(Name::new(alloc, "b")?)?;
    Ok(names)
}

// An I32 and a Utf8 that may be null.
fn two_types(alloc: Global) -> Result<DTypes, TypeError> {
    let mut types = DTypes::new(alloc);
    types.push(numbers(PType::I32))?;
    types.push(DType::Utf8(Nullability::Nullable))?;
    Ok(types)
}

fn fields(alloc: Global) -> Result<StructFields, TypeError> {
    let names = two_names(alloc)?;
    StructFields::try_new(names, two_types(alloc)?)
}

fn structure(alloc: Global) -> Result<DType, TypeError> {
    Ok(DType::Struct(fields(alloc)?, NO))
}

// Tag 5 over the first of two types, tag 7 over the second.
fn variants_of(alloc: Global, types: DTypes) -> Result<UnionVariants, TypeError> {
    let names = two_names(alloc)?;
    UnionVariants::try_new(names, types, TypeIds::copy_from(alloc, &[5, 7])?)
}

fn union(alloc: Global) -> Result<DType, TypeError> {
    let types = two_types(alloc)?;
    Ok(DType::Union(variants_of(alloc, types)?, NO))
}

fn map(alloc: Global) -> Result<DType, TypeError> {
    let map = MapDType::new(alloc, DType::Utf8(NO), numbers(PType::I32), false)?;
    Ok(DType::Map(map, NO))
}

fn extension_of(alloc: Global, id: Id, storage: DType) -> Result<ExtDType, TypeError> {
    let none = Blob::copy_from(alloc, &[])?;
    ExtDType::new(alloc, id, none, storage)
}

fn extension(alloc: Global, storage: DType) -> Result<DType, TypeError> {
    let id = Id::new(alloc, "x.y")?;
    Ok(DType::Extension(extension_of(alloc, id, storage)?))
}

// An extension stored as another.
fn two_extensions(alloc: Global) -> Result<DType, TypeError> {
    let inner = extension(alloc, numbers(PType::I32))?;
    extension(alloc, inner)
}

fn three_numbers(alloc: Global) -> Result<DType, TypeError> {
    Ok(DType::FixedSizeList(TypeRef::new(alloc, numbers(PType::I32))?, 3, NO))
}

fn decimal() -> Result<DType, TypeError> {
    Ok(DType::Decimal(DecimalDType::try_new(10, 2)?, NO))
}

// A type with parts, by number.
fn type_with_parts(alloc: Global, which: usize) -> Result<DType, TypeError> {
    match which {
        9 => decimal(),
        10 => list_of(alloc, numbers(PType::I32)),
        11 => structure(alloc),
        12 => union(alloc),
        13 => map(alloc),
        15 => two_extensions(alloc),
        _ => three_numbers(alloc),
    }
}

// A type, by number.
pub(crate) fn type_of(alloc: Global, which: usize) -> Result<DType, TypeError> {
    match which {
        0 => Ok(DType::Bool(NO)),
        1 => Ok(numbers(PType::I32)),
        2 => Ok(numbers(PType::I8)),
        3 => Ok(numbers(PType::U64)),
        4 => Ok(numbers(PType::F16)),
        5 => Ok(numbers(PType::F32)),
        6 => Ok(numbers(PType::F64)),
        7 => Ok(DType::Utf8(NO)),
        8 => Ok(DType::Binary(NO)),
        14 => Ok(DType::Variant(NO)),
        17 => Ok(numbers(PType::U32)),
        _ => type_with_parts(alloc, which),
    }
}

// How a value is read from these bytes at a type: as null, by its text, or refused.
#[derive(Clone, Copy, Debug, PartialEq, Eq)]
pub(crate) enum Answer {
    Null,
    Bool(bool),
    Number(PValue),
    Decimal(DecimalValue),
    Text,
    Bytes,
    Tuple(usize),
    Union(u8),
    Variant,
    Refused(ScalarWireError),
}

pub(crate) fn answer_of(value: Option<&ScalarValue>) -> Answer {
    match value {
        None => Answer::Null,
        Some(ScalarValue::Bool(truth)) => Answer::Bool(*truth),
        Some(ScalarValue::Primitive(number)) => Answer::Number(*number),
        Some(ScalarValue::Decimal(decimal)) => Answer::Decimal(*decimal),
        Some(ScalarValue::Utf8(_)) => Answer::Text,
        Some(ScalarValue::Binary(_)) => Answer::Bytes,
        Some(ScalarValue::Tuple(values)) => Answer::Tuple(values.len()),
        Some(ScalarValue::Union(tag, _)) => Answer::Union(*tag),
        Some(ScalarValue::Variant(_)) => Answer::Variant,
    }
}

// The value of these bytes at a type, without readers of extensions.
fn value_of(
    alloc: Global,
    bytes: &[u8],
    dtype: &DType,
) -> Result<Option<ScalarValue>, ScalarWireError> {
    let readers = ExtSession::new(alloc);
    ScalarValue::from_proto_bytes(alloc, bytes, dtype, &readers)
}

fn read_at(alloc: Global, bytes: &[u8], dtype: &DType) -> Answer {
    match value_of(alloc, bytes, dtype) {
        Ok(value) => answer_of(value.as_ref()),
        Err(error) => Answer::Refused(error),
    }
}

fn read(alloc: Global, bytes: &[u8], which: usize) -> Answer {
    match type_of(alloc, which) {
        Ok(dtype) => read_at(alloc, bytes, &dtype),
        Err(_) => Answer::Refused(ScalarWireError::OutOfMemory),
    }
}

// The bytes of a row are read as its answer, at the type of its number.
fn are_read(rt: &impl Abort, alloc: Global, rows: &[(&[u8], usize, Answer)]) {
    for (bytes, which, answer) in rows {
        assert!(rt;
            read(alloc, bytes, *which) == *answer,
            "{bytes:?} at {which}"
        );
    }
}

// Whether a part of a tuple, or the value under a union's tag, is this.
fn has_part(value: &Option<ScalarValue>, place: usize, part: Answer) -> bool {
    match value {
        Some(ScalarValue::Tuple(values)) => {
            let parts = values.as_slice();
            place < parts.len() && answer_of(parts[place].as_ref()) == part
        }
        Some(ScalarValue::Union(_, value)) => answer_of(value.get()) == part,
        _ => false,
    }
}

// Whether such a part is read from these bytes at a type.
fn is_part_at(alloc: Global, bytes: &[u8], dtype: &DType, place: usize, part: Answer) -> bool {
    match value_of(alloc, bytes, dtype) {
        Ok(value) => has_part(&value, place, part),
        Err(_) => false,
    }
}

fn is_part(alloc: Global, bytes: &[u8], which: usize, place: usize, part: Answer) -> bool {
    match type_of(alloc, which) {
        Ok(dtype) => is_part_at(alloc, bytes, &dtype, place, part),
        Err(_) => false,
    }
}

// Whether this text is read from these bytes.
fn is_text(alloc: Global, bytes: &[u8], text: &str) -> bool {
    let Ok(Some(value)) = value_of(alloc, bytes, &DType::Utf8(NO)) else {
        return false;
    };
    match &value {
        ScalarValue::Utf8(name) => name.as_str() == text,
        _ => false,
    }
}

const MISMATCH: Answer = Answer::Refused(ScalarWireError::KindMismatch);

const VALUES: [(&[u8], usize, Answer); 15] = [
    (&[0x10, 0x01], 0, Answer::Bool(true)),
    (&[0x18, 0x54], 1, Answer::Number(PValue::I32(42))),
    (&[0x20, 0x2a], 1, Answer::Number(PValue::I32(42))),
    (&[0x20, 0x2a], 17, Answer::Number(PValue::U32(42))),
    (&[0x18, 0x54], 15, Answer::Number(PValue::I32(42))),
    (&[0x18, 0xff, 0x01], 2, Answer::Number(PValue::I8(-128))),
    (&[0x18, 0x54], 3, Answer::Number(PValue::U64(42))),
    (&[0x50, 0xb8, 0x6d], 4, Answer::Number(PValue::F16(14008))),
    (&[0x20, 0xb8, 0x6d], 4, Answer::Number(PValue::F16(14008))),
    (&[0x2d, 1, 0, 0, 0], 5, Answer::Number(PValue::F32(1))),
    (
        &[0x31, 2, 0, 0, 0, 0, 0, 0, 0],
        6,
        Answer::Number(PValue::F64(2)),
    ),
    (&[0x3a, 0x02, 0x68, 0x69], 7, Answer::Text),
    (&[0x42, 0x02, 0x68, 0x69], 7, Answer::Text),
    (&[0x3a, 0x02, 0x68, 0x69], 8, Answer::Bytes),
    (&[0x42, 0x01, 0xff], 8, Answer::Bytes),
];

#[test]
fn values_are_read_at_types(rt: HostRuntime) {
    are_read(&rt, rt.alloc(), &VALUES);
    assert!(rt; is_text(rt.alloc(), &[0x3a, 0x02, 0x68, 0x69], "hi"));
}

#[test]
fn null_is_read_at_every_type(rt: HostRuntime) {
    for which in 0..18 {
        assert!(rt;
            read(rt.alloc(), &[0x08, 0x00], which) == Answer::Null,
            "at {which}"
        );
    }
}

const SEVEN: [u8; 32] = [
    7, 0, 0, 0, 0, 0, 0, 0, 0, 0, 0, 0, 0, 0, 0, 0, 0, 0, 0, 0, 0, 0, 0, 0, 0, 0, 0, 0, 0, 0, 0, 0,
];

const LONG: [u8; 34] = [
    0x42, 0x20, 7, 0, 0, 0, 0, 0, 0, 0, 0, 0, 0, 0, 0, 0, 0, 0, 0, 0, 0, 0, 0, 0, 0, 0, 0, 0, 0, 0,
    0, 0, 0, 0,
];

const DECIMALS: [(&[u8], usize, Answer); 6] = [
    (
        &[0x42, 0x01, 0xff],
        9,
        Answer::Decimal(DecimalValue::I8(-1)),
    ),
    (
        &[0x42, 0x02, 0xfe, 0xff],
        9,
        Answer::Decimal(DecimalValue::I16(-2)),
    ),
    (
        &[0x42, 0x04, 0x40, 0xe2, 0x01, 0x00],
        9,
        Answer::Decimal(DecimalValue::I32(123_456)),
    ),
    (
        &[0x42, 0x08, 5, 0, 0, 0, 0, 0, 0, 0],
        9,
        Answer::Decimal(DecimalValue::I64(5)),
    ),
    (
        &[0x42, 0x10, 6, 0, 0, 0, 0, 0, 0, 0, 0, 0, 0, 0, 0, 0, 0, 0],
        9,
        Answer::Decimal(DecimalValue::I128(6)),
    ),
    (&LONG, 9, Answer::Decimal(DecimalValue::I256(SEVEN))),
];

#[test]
fn decimals_are_read_by_each_width(rt: HostRuntime) {
    are_read(&rt, rt.alloc(), &DECIMALS);
}

const PARTS: [(&[u8], usize, Answer); 6] = [
    (
        &[0x4a, 0x08, 0x0a, 0x02, 0x18, 0x54, 0x0a, 0x02, 0x18, 0x56],
        10,
        Answer::Tuple(2),
    ),
    (
        &[0x4a, 0x08, 0x0a, 0x02, 0x18, 0x54, 0x0a, 0x02, 0x18, 0x56],
        16,
        Answer::Tuple(2),
    ),
    (
        &[0x4a, 0x08, 0x0a, 0x02, 0x18, 0x54, 0x0a, 0x02, 0x08, 0x00],
        11,
        Answer::Tuple(2),
    ),
    (
        &[
            0x4a, 0x0d, 0x0a, 0x0b, 0x4a, 0x09, 0x0a, 0x03, 0x3a, 0x01, 0x68, 0x0a, 0x02, 0x18,
            0x54,
        ],
        13,
        Answer::Tuple(1),
    ),
    (
        &[0x5a, 0x06, 0x08, 0x05, 0x12, 0x02, 0x18, 0x54],
        12,
        Answer::Union(5),
    ),
    (
        &[
            0x62, 0x0a, 0x0a, 0x04, 0x1a, 0x02, 0x08, 0x06, 0x12, 0x02, 0x18, 0x54,
        ],
        14,
        Answer::Variant,
    ),
];

#[test]
fn tuples_and_members_are_read(rt: HostRuntime) {
    are_read(&rt, rt.alloc(), &PARTS);
}

const TWO: &[u8] = &[0x4a, 0x08, 0x0a, 0x02, 0x18, 0x54, 0x0a, 0x02, 0x18, 0x56];

const ROW: &[u8] = &[0x4a, 0x08, 0x0a, 0x02, 0x18, 0x54, 0x0a, 0x02, 0x08, 0x00];

const TAGGED: &[u8] = &[0x5a, 0x06, 0x08, 0x05, 0x12, 0x02, 0x18, 0x54];

#[test]
fn parts_are_read(rt: HostRuntime) {
    let alloc = rt.alloc();
    let number = Answer::Number(PValue::I32(42));
    assert!(rt; is_part(alloc, TWO, 10, 0, number));
    assert!(rt; is_part(alloc, TWO, 10, 1, Answer::Number(PValue::I32(43))));
    assert!(rt; is_part(alloc, ROW, 11, 1, Answer::Null));
    assert!(rt; is_part(alloc, TAGGED, 12, 0, number));
}

const OTHERS: [(&[u8], usize, Answer); 14] = [
    (&[0x10, 0x01], 1, MISMATCH),
    (&[0x18, 0x54], 0, MISMATCH),
    (&[0x18, 0x54], 4, MISMATCH),
    (&[0x20, 0x2a], 5, MISMATCH),
    (&[0x20, 0x2a], 7, MISMATCH),
    (&[0x2d, 1, 0, 0, 0], 6, MISMATCH),
    (&[0x31, 2, 0, 0, 0, 0, 0, 0, 0], 5, MISMATCH),
    (&[0x50, 0x01], 1, MISMATCH),
    (&[0x50, 0x01], 5, MISMATCH),
    (&[0x3a, 0x02, 0x68, 0x69], 9, MISMATCH),
    (&[0x42, 0x01, 0xff], 0, MISMATCH),
    (
        &[0x4a, 0x08, 0x0a, 0x02, 0x18, 0x54, 0x0a, 0x02, 0x18, 0x56],
        12,
        MISMATCH,
    ),
    (
        &[0x5a, 0x06, 0x08, 0x05, 0x12, 0x02, 0x18, 0x54],
        1,
        MISMATCH,
    ),
    (&[0x62, 0x00], 1, MISMATCH),
];

#[test]
fn a_member_of_another_type_is_refused(rt: HostRuntime) {
    are_read(&rt, rt.alloc(), &OTHERS);
}

const RANGE: Answer = Answer::Refused(ScalarWireError::OutOfRange);

const MISSING: Answer = Answer::Refused(ScalarWireError::MissingKind);

const OUTSIDE: [(&[u8], usize, Answer); 9] = [
    (&[], 0, MISSING),
    (&[0x08, 0x01], 0, RANGE),
    (&[0x18, 0x01], 3, RANGE),
    (&[0x18, 0x80, 0x02], 2, RANGE),
    (&[0x20, 0x80, 0x01], 2, RANGE),
    (&[0x50, 0x80, 0x80, 0x04], 4, RANGE),
    (&[0x20, 0x80, 0x80, 0x04], 4, RANGE),
    (&[0x42, 0x03, 1, 2, 3], 9, RANGE),
    (
        &[0x42, 0x01, 0xff],
        7,
        Answer::Refused(ScalarWireError::BadScalar),
    ),
];

#[test]
fn a_value_out_of_its_type_is_refused(rt: HostRuntime) {
    are_read(&rt, rt.alloc(), &OUTSIDE);
}

const CHILD: Answer = Answer::Refused(ScalarWireError::BadChild);

const TUPLES: [(&[u8], usize, Answer); 8] = [
    (&[0x4a, 0x04, 0x0a, 0x02, 0x10, 0x01], 10, MISMATCH),
    (&[0x4a, 0x04, 0x0a, 0x02, 0x18, 0x54], 11, CHILD),
    (
        &[0x4a, 0x0c, 0x0a, 2, 8, 0, 0x0a, 2, 8, 0, 0x0a, 2, 8, 0],
        11,
        CHILD,
    ),
    (&[0x4a, 0x04, 0x0a, 0x02, 0x18, 0x54], 13, MISMATCH),
    (
        &[0x5a, 0x07, 0x08, 0x80, 0x02, 0x12, 0x02, 0x18, 0x54],
        12,
        RANGE,
    ),
    (&[0x5a, 0x06, 0x08, 0x06, 0x12, 0x02, 0x18, 0x54], 12, CHILD),
    (&[0x5a, 0x06, 0x08, 0x05, 0x12, 0x02, 0x08, 0x00], 12, CHILD),
    (&[0x5a, 0x02, 0x08, 0x05], 12, MISSING),
];

#[test]
fn bad_tuples_and_members_are_refused(rt: HostRuntime) {
    are_read(&rt, rt.alloc(), &TUPLES);
}

const VARIANTS: [(&[u8], usize, Answer); 4] = [
    (&[0x62, 0x04, 0x12, 0x02, 0x18, 0x54], 14, MISSING),
    (
        &[0x62, 0x06, 0x0a, 0x04, 0x1a, 0x02, 0x08, 0x06],
        14,
        MISSING,
    ),
    (
        &[
            0x62, 0x0a, 0x0a, 0x04, 0x1a, 0x02, 0x08, 0x06, 0x12, 0x02, 0x08, 0x00,
        ],
        14,
        Answer::Refused(ScalarWireError::BadScalar),
    ),
    (
        &[0x62, 0x06, 0x0a, 0x00, 0x12, 0x02, 0x08, 0x00],
        14,
        Answer::Refused(ScalarWireError::BadDType(TypeWireError::BadType)),
    ),
];

#[test]
fn bad_variants_are_refused(rt: HostRuntime) {
    are_read(&rt, rt.alloc(), &VARIANTS);
}

// Whether a null is refused at a type that is not nullable.
fn is_null_refused(alloc: Global, dtype: &DType) -> Result<bool, ScalarWireError> {
    let message = ScalarValue::to_proto(alloc, None)?;
    let readers = ExtSession::new(alloc);
    Ok(matches!(
        Scalar::from_proto_value(alloc, &message, dtype, &readers),
        Err(ScalarWireError::BadScalar)
    ))
}

#[test]
fn a_null_needs_a_nullable_type(rt: HostRuntime) {
    let alloc = rt.alloc();
    assert!(rt; is_null_refused(alloc, &numbers(PType::I32)) == Ok(true));
    assert!(rt; is_null_refused(alloc, &DType::Utf8(Nullability::Nullable)) == Ok(false));
}

/// The scalar of a message of these bytes.
pub(crate) fn scalar_of(alloc: Global, bytes: &[u8]) -> Result<Scalar, ScalarWireError> {
    let message = pb::Scalar::decode(alloc, bytes)?;
    let readers = ExtSession::new(alloc);
    Scalar::from_proto(alloc, &message, &readers)
}

// What it is.
fn scalar_answer(alloc: Global, bytes: &[u8]) -> Answer {
    match scalar_of(alloc, bytes) {
        Ok(scalar) => answer_of(scalar.value()),
        Err(error) => Answer::Refused(error),
    }
}

#[test]
fn a_scalar_is_read_at_its_type(rt: HostRuntime) {
    let alloc = rt.alloc();
    let number: &[u8] = &[0x0a, 0x04, 0x1a, 0x02, 0x08, 0x06, 0x12, 0x02, 0x18, 0x54];
    assert!(rt; scalar_answer(alloc, number) == Answer::Number(PValue::I32(42)));
    let null: &[u8] = &[0x0a, 0x04, 0x1a, 0x02, 0x08, 0x06, 0x12, 0x02, 0x08, 0x00];
    assert!(rt; scalar_answer(alloc, null) == Answer::Refused(ScalarWireError::BadScalar));
    let bare = scalar_answer(alloc, &[0x12, 0x02, 0x18, 0x54]);
    assert!(rt; bare == Answer::Refused(ScalarWireError::MissingKind));
}

// A list type of `count` levels of lists.
fn deep_type(alloc: Global, count: usize) -> Result<DType, TypeError> {
    let mut dtype = numbers(PType::I32);
    for _ in 0..count {
        dtype = list_of(alloc, dtype)?;
    }
    Ok(dtype)
}

// The length of a message of under 16,384 bytes.
fn push_length(bytes: &mut Vec<u8>, length: usize) -> Result<(), AllocError> {
    if length < 128 {
        bytes.push(length as u8)?;
    } else {
        bytes.push((length % 128) as u8 + 128)?;
        bytes.push((length / 128 % 128) as u8)?;
    }
    Ok(())
}

/// A message around another of under 16,384 bytes: its key, its length, and the other.
pub(crate) fn around(alloc: Global, key: u8, inner: &[u8]) -> Result<Vec<u8>, AllocError> {
    let mut bytes = Vec::from_slice(alloc, &[key])?;
    push_length(&mut bytes, inner.len())?;
    bytes.extend_from_slice(inner)?;
    Ok(bytes)
}

// A list around a list.
fn list_around(alloc: Global, inner: &[u8]) -> Result<Vec<u8>, AllocError> {
    let value = around(alloc, 0x0a, inner)?;
    around(alloc, 0x4a, &value)
}

// The bytes of `count` nested lists, the innermost with these elements.
fn deep_lists(alloc: Global, count: usize, inner: &[u8]) -> Result<Vec<u8>, AllocError> {
    let mut bytes = around(alloc, 0x4a, inner)?;
    for _ in 1..count {
        bytes = list_around(alloc, &bytes)?;
    }
    Ok(bytes)
}

// The value of these bytes at a type of `count` nested lists.
fn read_deep(alloc: Global, bytes: &[u8], count: usize) -> Answer {
    match deep_type(alloc, count) {
        Ok(dtype) => read_at(alloc, bytes, &dtype),
        Err(_) => Answer::Refused(ScalarWireError::OutOfMemory),
    }
}

fn read_lists(alloc: Global, count: usize, inner: &[u8]) -> Answer {
    match deep_lists(alloc, count, inner) {
        Ok(bytes) => read_deep(alloc, &bytes, count),
        Err(_) => Answer::Refused(ScalarWireError::OutOfMemory),
    }
}

// A variant of the type of these bytes around the value of those.
fn variant_around(alloc: Global, dtype: &[u8], inner: &[u8]) -> Result<Vec<u8>, AllocError> {
    let value = around(alloc, 0x12, inner)?;
    let mut bytes = Vec::from_slice(alloc, dtype)?;
    bytes.extend_from_slice(&value)?;
    around(alloc, 0x62, &bytes)
}

// The bytes of `count` nested variants, the innermost an I32 of these bytes.
fn deep_variants(alloc: Global, count: usize, inner: &[u8]) -> Result<Vec<u8>, AllocError> {
    let mut bytes = variant_around(alloc, &[0x0a, 0x04, 0x1a, 0x02, 0x08, 0x06], inner)?;
    for _ in 1..count {
        bytes = variant_around(alloc, &[0x0a, 0x02, 0x5a, 0x00], &bytes)?;
    }
    Ok(bytes)
}

fn read_variants(alloc: Global, count: usize, inner: &[u8]) -> Answer {
    match deep_variants(alloc, count, inner) {
        Ok(bytes) => read_at(alloc, &bytes, &DType::Variant(NO)),
        Err(_) => Answer::Refused(ScalarWireError::OutOfMemory),
    }
}

// A list nests two messages, and a value in it one more.
#[test]
fn a_hundred_messages_are_read_as_lists(rt: HostRuntime) {
    let alloc = rt.alloc();
    let deep = Answer::Refused(ScalarWireError::TooDeep);
    assert!(rt; read_lists(alloc, 50, &[]) == Answer::Tuple(1));
    assert!(rt; read_lists(alloc, 50, &[0x0a, 0x02, 0x08, 0x00]) == deep);
    assert!(rt; read_lists(alloc, 51, &[]) == deep);
}

// The type in 49 variants is the hundredth message; a value in a list there is one more.
#[test]
fn a_hundred_messages_are_read_as_variants(rt: HostRuntime) {
    let alloc = rt.alloc();
    let deep = Answer::Refused(ScalarWireError::TooDeep);
    assert!(rt; read_variants(alloc, 49, &[0x18, 0x54]) == Answer::Variant);
    assert!(rt; read_variants(alloc, 49, &[0x4a, 0x04, 0x0a, 0x02, 0x08, 0x00]) == deep);
    assert!(rt; read_variants(alloc, 50, &[0x18, 0x54]) == deep);
}
