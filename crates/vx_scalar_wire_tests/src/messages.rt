//! Values and the bytes of their messages.

use std::alloc::Global;
use vx_proto::Message;
use vx_scalar_wire::{ScalarExt, ScalarValueExt, ScalarWireError, canonical_nan_sum};
use vx_scalars::{DecimalValue, Scalar, ScalarValue, ValueRef, Values, VariantRef};
use vx_type_wire::{ExtSession, TypeWireError};
use vx_types::{Blob, DType, Name, Nullability, PType, PValue, TypeError};

fn number(value: i32) -> ScalarValue {
    ScalarValue::Primitive(PValue::I32(value))
}

/// The numbers 42 and 43.
pub(crate) fn two_numbers(alloc: Global) -> Result<Values, TypeError> {
    let mut values = Values::new(alloc);
    values.push(Some(number(42)))?;
    values.push(Some(number(43)))?;
    Ok(values)
}

/// The text `hi`.
pub(crate) fn text(alloc: Global) -> Result<ScalarValue, TypeError> {
    match Name::new(alloc, "hi") {
        Ok(text) => Ok(ScalarValue::Utf8(text)),
        Err(_) => Err(TypeError::OutOfMemory),
    }
}

/// One byte.
pub(crate) fn one_byte(alloc: Global) -> Result<ScalarValue, TypeError> {
    match Blob::copy_from(alloc, &[0xff]) {
        Ok(bytes) => Ok(ScalarValue::Binary(bytes)),
        Err(_) => Err(TypeError::OutOfMemory),
    }
}

// A value, by number; 0 is null.
fn value(alloc: Global, which: usize) -> Result<Option<ScalarValue>, TypeError> {
    match which {
        0 => Ok(None),
        1 => Ok(Some(ScalarValue::Bool(true))),
        2 => Ok(Some(number(42))),
        3 => Ok(Some(ScalarValue::Primitive(PValue::I8(-128)))),
        4 => Ok(Some(ScalarValue::Primitive(PValue::U32(42)))),
        5 => Ok(Some(ScalarValue::Primitive(PValue::F16(14008)))),
        6 => Ok(Some(text(alloc)?)),
        7 => Ok(Some(ScalarValue::Decimal(DecimalValue::I32(123_456)))),
        8 => Ok(Some(ScalarValue::Tuple(two_numbers(alloc)?))),
        _ => Ok(Some(ScalarValue::Union(5, ValueRef::new(alloc, Some(number(42)))?))),
    }
}

// Whether a value is written as these bytes.
fn is_written(alloc: Global, value: &Option<ScalarValue>, bytes: &[u8]) -> bool {
    match ScalarValue::to_proto_bytes(alloc, value.as_ref()) {
        Ok(written) => written.as_slice() == bytes,
        Err(_) => false,
    }
}

// Whether a value that is made first is written as these bytes.
fn is_made(alloc: Global, made: Result<Option<ScalarValue>, TypeError>, bytes: &[u8]) -> bool {
    match made {
        Ok(value) => is_written(alloc, &value, bytes),
        Err(_) => false,
    }
}

const VALUES: [(usize, &[u8]); 10] = [
    (0, &[0x08, 0x00]),
    (1, &[0x10, 0x01]),
    (2, &[0x18, 0x54]),
    (3, &[0x18, 0xff, 0x01]),
    (4, &[0x20, 0x2a]),
    (5, &[0x50, 0xb8, 0x6d]),
    (6, &[0x3a, 0x02, 0x68, 0x69]),
    (7, &[0x42, 0x04, 0x40, 0xe2, 0x01, 0x00]),
    (
        8,
        &[0x4a, 0x08, 0x0a, 0x02, 0x18, 0x54, 0x0a, 0x02, 0x18, 0x56],
    ),
    (9, &[0x5a, 0x06, 0x08, 0x05, 0x12, 0x02, 0x18, 0x54]),
];

#[test]
fn values_have_their_bytes(rt: HostRuntime) {
    let alloc = rt.alloc();
    for (which, bytes) in &VALUES {
        assert!(rt;
            is_made(alloc, value(alloc, *which), bytes),
            "value {which}"
        );
    }
}

// A float, bytes or a variant, by number.
fn other_value(alloc: Global, which: usize) -> Result<Option<ScalarValue>, TypeError> {
    match which {
        0 => Ok(Some(ScalarValue::Primitive(PValue::F32(1)))),
        1 => Ok(Some(ScalarValue::Primitive(PValue::F64(2)))),
        2 => Ok(Some(one_byte(alloc)?)),
        _ => variants(alloc, 1),
    }
}

const OTHERS: [(usize, &[u8]); 4] = [
    (0, &[0x2d, 1, 0, 0, 0]),
    (1, &[0x31, 2, 0, 0, 0, 0, 0, 0, 0]),
    (2, &[0x42, 0x01, 0xff]),
    (
        3,
        &[
            0x62, 0x0a, 0x0a, 0x04, 0x1a, 0x02, 0x08, 0x06, 0x12, 0x02, 0x18, 0x54,
        ],
    ),
];

#[test]
fn floats_bytes_and_variants_have_their_bytes(rt: HostRuntime) {
    let alloc = rt.alloc();
    for (which, bytes) in &OTHERS {
        assert!(rt;
            is_made(alloc, other_value(alloc, *which), bytes),
            "value {which}"
        );
    }
}

// A tuple around another value.
fn wrapped(alloc: Global, inner: Option<ScalarValue>) -> Result<Option<ScalarValue>, TypeError> {
    let mut values = Values::new(alloc);
    values.push(inner)?;
    Ok(Some(ScalarValue::Tuple(values)))
}

// `count` tuples, each in the next, around an innermost one.
fn nested(alloc: Global, count: usize, inner: Values) -> Result<Option<ScalarValue>, TypeError> {
    let mut value = Some(ScalarValue::Tuple(inner));
    for _ in 1..count {
        value = wrapped(alloc, value)?;
    }
    Ok(value)
}

// A tuple of a null.
fn one_null(alloc: Global) -> Result<Values, TypeError> {
    let mut values = Values::new(alloc);
    values.push(None)?;
    Ok(values)
}

// Whether a value is refused for its depth.
fn is_too_deep(alloc: Global, value: &Option<ScalarValue>) -> bool {
    matches!(
        ScalarValue::to_proto_bytes(alloc, value.as_ref()),
        Err(ScalarWireError::TooDeep)
    )
}

// Whether `count` tuples are refused for their depth.
fn are_too_deep(alloc: Global, count: usize, inner: Values) -> Result<bool, TypeError> {
    let value = nested(alloc, count, inner)?;
    Ok(is_too_deep(alloc, &value))
}

// The same around a null.
fn are_too_deep_round_null(alloc: Global, count: usize) -> Result<bool, TypeError> {
    let inner = one_null(alloc)?;
    are_too_deep(alloc, count, inner)
}

#[test]
fn a_hundred_messages_nest(rt: HostRuntime) {
    let alloc = rt.alloc();
    assert!(rt; are_too_deep(alloc, 50, Values::new(alloc)) == Ok(false));
    assert!(rt; are_too_deep_round_null(alloc, 50) == Ok(true));
    assert!(rt; are_too_deep(alloc, 51, Values::new(alloc)) == Ok(true));
}

// The refusal of the message of `count` nested tuples at a type of numbers.
fn refusal_of_tuples(alloc: Global, count: usize) -> Result<Option<ScalarWireError>, TypeError> {
    let value = nested(alloc, count, Values::new(alloc))?;
    let numbers = DType::Primitive(PType::I32, Nullability::NonNullable);
    Ok(read_again(alloc, value.as_ref(), &numbers).err())
}

// The value of a message that is made in memory, at a type.
fn read_again(
    alloc: Global,
    value: Option<&ScalarValue>,
    dtype: &DType,
) -> Result<Option<ScalarValue>, ScalarWireError> {
    let message = ScalarValue::to_proto(alloc, value)?;
    ScalarValue::from_proto(alloc, &message, dtype, &ExtSession::new(alloc))
}

// The depth of a message is tested before its members.
#[test]
fn a_hundred_messages_nest_in_memory(rt: HostRuntime) {
    let alloc = rt.alloc();
    let mismatch = Some(ScalarWireError::KindMismatch);
    assert!(rt; refusal_of_tuples(alloc, 50) == Ok(mismatch));
    assert!(rt; refusal_of_tuples(alloc, 51) == Ok(Some(ScalarWireError::TooDeep)));
}

/// A variant of a type and a value.
pub(crate) fn variant(
    alloc: Global,
    dtype: DType,
    value: Option<ScalarValue>,
) -> Result<Option<ScalarValue>, TypeError> {
    let scalar = Scalar::try_new(dtype, value)?;
    Ok(Some(ScalarValue::Variant(VariantRef::new(alloc, scalar)?)))
}

// `count` variants, each in the next, around the number 42.
fn variants(alloc: Global, count: usize) -> Result<Option<ScalarValue>, TypeError> {
    let numbers = DType::Primitive(PType::I32, Nullability::NonNullable);
    let mut value = variant(alloc, numbers, Some(number(42)))?;
    for _ in 1..count {
        value = variant(alloc, DType::Variant(Nullability::NonNullable), value)?;
    }
    Ok(value)
}

// Whether `count` variants are refused for their depth.
fn are_variants_too_deep(alloc: Global, count: usize) -> Result<bool, TypeError> {
    let value = variants(alloc, count)?;
    Ok(is_too_deep(alloc, &value))
}

#[test]
fn a_hundred_messages_nest_in_variants(rt: HostRuntime) {
    assert!(rt; are_variants_too_deep(rt.alloc(), 49) == Ok(false));
    assert!(rt; are_variants_too_deep(rt.alloc(), 50) == Ok(true));
}

// A scalar of the number 42.
fn scalar() -> Result<Scalar, TypeError> {
    let numbers = DType::Primitive(PType::I32, Nullability::NonNullable);
    Scalar::try_new(numbers, Some(number(42)))
}

/// Whether a scalar is written as these bytes.
pub(crate) fn is_scalar(
    alloc: Global,
    scalar: &Scalar,
    bytes: &[u8],
) -> Result<bool, ScalarWireError> {
    let message = scalar.to_proto(alloc)?;
    let written = message.encode_to_vec(alloc)?;
    Ok(written.as_slice() == bytes)
}

#[test]
fn a_scalar_has_its_type(rt: HostRuntime) {
    let bytes: &[u8] = &[0x0a, 0x04, 0x1a, 0x02, 0x08, 0x06, 0x12, 0x02, 0x18, 0x54];
    match scalar() {
        Ok(scalar) => assert!(rt; is_scalar(rt.alloc(), &scalar, bytes) == Ok(true)),
        Err(_) => assert!(rt; false),
    }
}

const SUMS: [(PValue, PValue); 6] = [
    (PValue::F16(0xfc01), PValue::F16(0x7e00)),
    (PValue::F16(0xfc00), PValue::F16(0xfc00)),
    (PValue::F32(0x7f80_0001), PValue::F32(0x7fc0_0000)),
    (
        PValue::F64(0xffff_ffff_ffff_ffff),
        PValue::F64(0x7ff8_0000_0000_0000),
    ),
    (
        PValue::F64(0x7ff0_0000_0000_0000),
        PValue::F64(0x7ff0_0000_0000_0000),
    ),
    (PValue::U64(u64::MAX), PValue::U64(u64::MAX)),
];

// Whether a sum's canonical form is this.
fn is_canonical(sum: PValue, canonical: PValue) -> bool {
    canonical_nan_sum(sum) == canonical
}

#[test]
fn sums_that_are_no_number_become_one(rt: HostRuntime) {
    for (sum, canonical) in &SUMS {
        assert!(rt; is_canonical(*sum, *canonical), "{sum:?}");
    }
}

// Whether a refusal has this text.
fn is_text(alloc: Global, error: ScalarWireError, text: &str) -> bool {
    match format!(in alloc; "{error}") {
        Ok(shown) => shown.as_str() == text,
        Err(_) => false,
    }
}

// Each refusal and its text. The text of a refused type has the type's refusal at its end.
const TEXTS: [(ScalarWireError, &str); 14] = [
    (ScalarWireError::OutOfMemory, "out of memory"),
    (
        ScalarWireError::BadMessage,
        "the bytes are no message of a scalar",
    ),
    (ScalarWireError::TooDeep, "over 100 messages nest"),
    (
        ScalarWireError::MissingKind,
        "the message has no value or no type",
    ),
    (
        ScalarWireError::KindMismatch,
        "the member is none of the type's",
    ),
    (
        ScalarWireError::OutOfRange,
        "a number is out of its field's or its type's range",
    ),
    (
        ScalarWireError::BadChild,
        "a child is missing, too many, or fits no member",
    ),
    (
        ScalarWireError::BadScalar,
        "the value does not fit its type, or is no text",
    ),
    (
        ScalarWireError::BadPrecision,
        "a statistic has an unknown precision",
    ),
    (
        ScalarWireError::BadDType(TypeWireError::BadType),
        "a type is refused: the table or message is no type's",
    ),
    (
        ScalarWireError::BadDType(TypeWireError::UnknownExtension),
        "a type is refused: an extension's identifier has no reader",
    ),
    (
        ScalarWireError::BadDType(TypeWireError::ExtensionRefused),
        "a type is refused: an extension's reader does not accept it",
    ),
    (
        ScalarWireError::BadDType(TypeWireError::WireLimit),
        "a type is refused: the type is too deep or too large to be written",
    ),
    (
        ScalarWireError::MessageTooLong,
        "the written message would be too long",
    ),
];

#[test]
fn texts_of_refusals(rt: HostRuntime) {
    for (error, text) in &TEXTS {
        assert!(rt; is_text(rt.alloc(), *error, text), "{text}");
    }
}
