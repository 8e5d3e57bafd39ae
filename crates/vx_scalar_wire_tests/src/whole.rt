//! Scalars as a whole, a type and a value: written, read, and written again.

use crate::messages::{is_scalar, two_numbers, variant};
use crate::reading::{Answer, answer_of, around, scalar_of};
use std::alloc::{AllocError, Global};
use std::process::Abort;
use vx_proto::Message;
use vx_scalar_wire::{ScalarExt, ScalarValueExt, ScalarWireError, pb};
use vx_scalars::{DecimalValue, Scalar, ScalarValue, ValueRef, Values};
use vx_type_wire::ExtSession;
use vx_types::{
    Blob, DType, DTypes, DecimalDType, MapDType, Name, Names, Nullability, PType, PValue,
    StructFields, TypeError, TypeIds, TypeRef, UnionVariants,
};

const PLAIN: Nullability = Nullability::NonNullable;

const NULLABLE: Nullability = Nullability::Nullable;

// A type.
#[derive(Clone, Copy, Debug)]
enum Of {
    Null,
    Bool,
    Number(PType),
    // Decimals of this precision and scale.
    Decimal(u8, i8),
    Utf8,
    Binary,
    // Lists of I32, nullable.
    List,
    // Maps from I32 to Utf8, nullable, with sorted keys.
    Map,
    Variant,
    // The tag 5 over I32, nullable, and 9 over Utf8.
    Union,
    // The tag 13 over a structure of I32 and of Utf8, nullable.
    Record,
}

fn list(alloc: Global, element: DType, n: Nullability) -> Result<DType, TypeError> {
    Ok(DType::List(TypeRef::new(alloc, element)?, n))
}

fn map(alloc: Global, n: Nullability) -> Result<DType, TypeError> {
    let numbers = DType::Primitive(PType::I32, PLAIN);
    Ok(DType::Map(
        MapDType::new(alloc, numbers, DType::Utf8(NULLABLE), true)?,
        n,
    ))
}

fn names(alloc: Global, texts: &[&str]) -> Result<Names, TypeError> {
    let mut names = Names::new(alloc);
    for text in texts {
        names.push(Name::new(alloc, text)?)?;
    }
    Ok(names)
}

// I32 and Utf8, each nullable or not.
fn two_types(alloc: Global, first: Nullability, second: Nullability) -> Result<DTypes, TypeError> {
    let mut types = DTypes::new(alloc);
    types.push(DType::Primitive(PType::I32, first))?;
    types.push(DType::Utf8(second))?;
    Ok(types)
}

fn members(alloc: Global) -> Result<UnionVariants, TypeError> {
    let names = names(alloc, &["int", "string"])?;
    let types = two_types(alloc, NULLABLE, PLAIN)?;
    UnionVariants::try_new(names, types, TypeIds::copy_from(alloc, &[5, 9])?)
}

fn fields(alloc: Global) -> Result<StructFields, TypeError> {
    let names = names(alloc, &["number", "label"])?;
    StructFields::try_new(names, two_types(alloc, PLAIN, NULLABLE)?)
}

fn records(alloc: Global) -> Result<UnionVariants, TypeError> {
    let names = names(alloc, &["record"])?;
    let mut types = DTypes::new(alloc);
    types.push(DType::Struct(fields(alloc)?, PLAIN))?;
    UnionVariants::try_new(names, types, TypeIds::copy_from(alloc, &[13])?)
}

fn type_of(alloc: Global, of: Of, n: Nullability) -> Result<DType, TypeError> {
    match of {
        Of::Null => Ok(DType::Null),
        Of::Bool => Ok(DType::Bool(n)),
        Of::Number(kind) => Ok(DType::Primitive(kind, n)),
        Of::Decimal(precision, scale) => {
            Ok(DType::Decimal(DecimalDType::try_new(precision, scale)?, n))
        }
        Of::Utf8 => Ok(DType::Utf8(n)),
        Of::Binary => Ok(DType::Binary(n)),
        Of::List => list(alloc, DType::Primitive(PType::I32, NULLABLE), n),
        Of::Map => map(alloc, n),
        Of::Variant => Ok(DType::Variant(n)),
        Of::Union => Ok(DType::Union(members(alloc)?, n)),
        Of::Record => Ok(DType::Union(records(alloc)?, n)),
    }
}

// A value.
#[derive(Clone, Copy, Debug)]
enum Told<'a> {
    Null,
    Bool(bool),
    Number(PValue),
    Decimal(DecimalValue),
    Utf8(&'a str),
    Binary(&'a [u8]),
    // The numbers 42 and 43.
    Numbers,
    // From 1 to `one`, and from 2 to a null.
    Entries,
    // A variant of the number 42, and of a null.
    Variant,
    NullVariant,
    // A variant of a list of variants, one of them of such a list.
    Nested,
    // The tag 5 of the number 42, and of a null.
    Member,
    NullMember,
    // The tag 13 of the number 42 and `answer`.
    Record,
}

fn number(value: i32) -> Option<ScalarValue> {
    Some(ScalarValue::Primitive(PValue::I32(value)))
}

fn text(alloc: Global, text: &str) -> Result<Option<ScalarValue>, TypeError> {
    Ok(Some(ScalarValue::Utf8(Name::new(alloc, text)?)))
}

fn bytes(alloc: Global, bytes: &[u8]) -> Result<Option<ScalarValue>, TypeError> {
    Ok(Some(ScalarValue::Binary(Blob::copy_from(alloc, bytes)?)))
}

// A tuple of two values.
fn pair(
    alloc: Global,
    first: Option<ScalarValue>,
    second: Option<ScalarValue>,
) -> Result<Option<ScalarValue>, TypeError> {
    let mut values = Values::new(alloc);
    values.push(first)?;
    values.push(second)?;
    Ok(Some(ScalarValue::Tuple(values)))
}

fn entries(alloc: Global) -> Result<Option<ScalarValue>, TypeError> {
    let first = pair(alloc, number(1), text(alloc, "one")?)?;
    let second = pair(alloc, number(2), None)?;
    pair(alloc, first, second)
}

// A variant of a list of variants.
fn list_in_variant(alloc: Global, values: Values) -> Result<Option<ScalarValue>, TypeError> {
    let dtype = list(alloc, DType::Variant(PLAIN), PLAIN)?;
    variant(alloc, dtype, Some(ScalarValue::Tuple(values)))
}

// A variant of a number.
fn number_in_variant(alloc: Global, number: PValue) -> Result<Option<ScalarValue>, TypeError> {
    let dtype = DType::Primitive(number.ptype(), PLAIN);
    variant(alloc, dtype, Some(ScalarValue::Primitive(number)))
}

// Variants of -7, 42 and a decimal.
fn numbers_in_variants(alloc: Global) -> Result<Values, TypeError> {
    let decimal = Some(ScalarValue::Decimal(DecimalValue::I128(123_456_789)));
    let digits = DType::Decimal(DecimalDType::try_new(18, 0)?, PLAIN);
    let mut values = Values::new(alloc);
    values.push(number_in_variant(alloc, PValue::I16(-7))?)?;
    values.push(number_in_variant(alloc, PValue::U32(42))?)?;
    values.push(variant(alloc, digits, decimal)?)?;
    Ok(values)
}

// Variants of true, of a list of those, of bytes and of a null.
fn variants(alloc: Global) -> Result<Values, TypeError> {
    let mut values = Values::new(alloc);
    values.push(variant(alloc, DType::Bool(PLAIN), Some(ScalarValue::Bool(true)))?)?;
    values.push(list_in_variant(alloc, numbers_in_variants(alloc)?)?)?;
    values.push(variant(alloc, DType::Binary(PLAIN), bytes(alloc, b"abc")?)?)?;
    values.push(variant(alloc, DType::Null, None)?)?;
    Ok(values)
}

fn tagged(
    alloc: Global,
    tag: u8,
    value: Option<ScalarValue>,
) -> Result<Option<ScalarValue>, TypeError> {
    Ok(Some(ScalarValue::Union(tag, ValueRef::new(alloc, value)?)))
}

fn value_of(alloc: Global, told: Told<'_>) -> Result<Option<ScalarValue>, TypeError> {
    match told {
        Told::Null => Ok(None),
        Told::Bool(flag) => Ok(Some(ScalarValue::Bool(flag))),
        Told::Number(number) => Ok(Some(ScalarValue::Primitive(number))),
        Told::Decimal(decimal) => Ok(Some(ScalarValue::Decimal(decimal))),
        Told::Utf8(it) => text(alloc, it),
        Told::Binary(it) => bytes(alloc, it),
        Told::Numbers => Ok(Some(ScalarValue::Tuple(two_numbers(alloc)?))),
        Told::Entries => entries(alloc),
        Told::Variant => number_in_variant(alloc, PValue::I32(42)),
        Told::NullVariant => variant(alloc, DType::Null, None),
        Told::Nested => list_in_variant(alloc, variants(alloc)?),
        Told::Member => tagged(alloc, 5, number(42)),
        Told::NullMember => tagged(alloc, 5, None),
        Told::Record => tagged(alloc, 13, pair(alloc, number(42), text(alloc, "answer")?)?),
    }
}

// The message of a scalar: that of its type, and that of its value.
fn message_of(alloc: Global, dtype: &[u8], value: &[u8]) -> Result<Vec<u8>, AllocError> {
    let mut message = around(alloc, 0x0a, dtype)?;
    message.extend_from_slice(&around(alloc, 0x12, value)?)?;
    Ok(message)
}

// Whether these bytes are read as a scalar of the same type and kind of value, which is written as them again. A value
// that fits its type has a message of its own, so it is the same value.
fn is_read(alloc: Global, scalar: &Scalar, bytes: &[u8]) -> Result<bool, ScalarWireError> {
    let read = scalar_of(alloc, bytes)?;
    let again = is_scalar(alloc, &read, bytes)?;
    Ok(
        again
            && *read.dtype() == *scalar.dtype()
            && answer_of(read.value()) == answer_of(scalar.value()),
    )
}

// Whether a scalar is written as these bytes, and read from them.
fn is_whole(alloc: Global, scalar: &Scalar, bytes: &[u8]) -> Result<bool, ScalarWireError> {
    Ok(is_scalar(alloc, scalar, bytes)? && is_read(alloc, scalar, bytes)?)
}

fn scalar(alloc: Global, of: Of, n: Nullability, told: Told<'_>) -> Result<Scalar, TypeError> {
    let value = value_of(alloc, told)?;
    Scalar::try_new(type_of(alloc, of, n)?, value)
}

// A type, whether it is nullable, the message of that type, and values of it, each with its own message.
type Row<'a> = (Of, Nullability, &'a [u8], &'a [(Told<'a>, &'a [u8])]);

// Whether one of a row's values is a scalar of the row's type, with both messages.
fn is_row(alloc: Global, row: &Row<'_>, told: &(Told<'_>, &[u8])) -> Result<bool, ScalarWireError> {
    let message = message_of(alloc, row.2, told.1)?;
    match scalar(alloc, row.0, row.1, told.0) {
        Ok(scalar) => is_whole(alloc, &scalar, &message),
        Err(_) => Ok(false),
    }
}

fn are_whole(rt: &impl Abort, alloc: Global, rows: &[Row<'_>]) {
    for row in rows {
        let of = row.0;
        for told in row.3 {
            assert!(rt; is_row(alloc, row, told) == Ok(true), "{told:?} of {of:?}");
        }
    }
}

// The least and the greatest number of each kind, and others. The floats of 16 bits are 0, 1, -1, 0.42, 96 divided by
// 2^24, pi, both infinities and a NaN; the last of 32 bits is e, and that of 64 bits pi.
const NUMBERS: [Row<'static>; 11] = [
    (
        Of::Number(PType::U8),
        NULLABLE,
        b"\x1a\x02\x10\x01",
        &[
            (Told::Number(PValue::U8(0)), b"\x20\x00"),
            (Told::Number(PValue::U8(u8::MAX)), b"\x20\xff\x01"),
        ],
    ),
    (
        Of::Number(PType::U16),
        NULLABLE,
        b"\x1a\x04\x08\x01\x10\x01",
        &[
            (Told::Number(PValue::U16(0)), b"\x20\x00"),
            (Told::Number(PValue::U16(u16::MAX)), b"\x20\xff\xff\x03"),
        ],
    ),
    (
        Of::Number(PType::U32),
        NULLABLE,
        b"\x1a\x04\x08\x02\x10\x01",
        &[
            (Told::Number(PValue::U32(0)), b"\x20\x00"),
            (
                Told::Number(PValue::U32(u32::MAX)),
                b"\x20\xff\xff\xff\xff\x0f",
            ),
        ],
    ),
    (
        Of::Number(PType::U64),
        NULLABLE,
        b"\x1a\x04\x08\x03\x10\x01",
        &[
            (Told::Number(PValue::U64(0)), b"\x20\x00"),
            (
                Told::Number(PValue::U64(u64::MAX)),
                b"\x20\xff\xff\xff\xff\xff\xff\xff\xff\xff\x01",
            ),
        ],
    ),
    (
        Of::Number(PType::I8),
        NULLABLE,
        b"\x1a\x04\x08\x04\x10\x01",
        &[
            (Told::Number(PValue::I8(i8::MIN)), b"\x18\xff\x01"),
            (Told::Number(PValue::I8(0)), b"\x18\x00"),
            (Told::Number(PValue::I8(i8::MAX)), b"\x18\xfe\x01"),
        ],
    ),
    (
        Of::Number(PType::I16),
        NULLABLE,
        b"\x1a\x04\x08\x05\x10\x01",
        &[
            (Told::Number(PValue::I16(i16::MIN)), b"\x18\xff\xff\x03"),
            (Told::Number(PValue::I16(i16::MAX)), b"\x18\xfe\xff\x03"),
        ],
    ),
    (
        Of::Number(PType::I32),
        NULLABLE,
        b"\x1a\x04\x08\x06\x10\x01",
        &[
            (
                Told::Number(PValue::I32(i32::MIN)),
                b"\x18\xff\xff\xff\xff\x0f",
            ),
            (Told::Number(PValue::I32(42)), b"\x18\x54"),
            (
                Told::Number(PValue::I32(i32::MAX)),
                b"\x18\xfe\xff\xff\xff\x0f",
            ),
        ],
    ),
    (
        Of::Number(PType::I64),
        NULLABLE,
        b"\x1a\x04\x08\x07\x10\x01",
        &[
            (
                Told::Number(PValue::I64(i64::MIN)),
                b"\x18\xff\xff\xff\xff\xff\xff\xff\xff\xff\x01",
            ),
            (
                Told::Number(PValue::I64(i64::MAX)),
                b"\x18\xfe\xff\xff\xff\xff\xff\xff\xff\xff\x01",
            ),
        ],
    ),
    (
        Of::Number(PType::F16),
        NULLABLE,
        b"\x1a\x04\x08\x08\x10\x01",
        &[
            (Told::Number(PValue::F16(0x0000)), b"\x50\x00"),
            (Told::Number(PValue::F16(0x3c00)), b"\x50\x80\x78"),
            (Told::Number(PValue::F16(0xbc00)), b"\x50\x80\xf8\x02"),
            (Told::Number(PValue::F16(0x36b8)), b"\x50\xb8\x6d"),
            (Told::Number(PValue::F16(0x0060)), b"\x50\x60"),
            (Told::Number(PValue::F16(0x4248)), b"\x50\xc8\x84\x01"),
            (Told::Number(PValue::F16(0x7c00)), b"\x50\x80\xf8\x01"),
            (Told::Number(PValue::F16(0xfc00)), b"\x50\x80\xf8\x03"),
            (Told::Number(PValue::F16(0x7e00)), b"\x50\x80\xfc\x01"),
        ],
    ),
    (
        Of::Number(PType::F32),
        NULLABLE,
        b"\x1a\x04\x08\x09\x10\x01",
        &[
            (
                Told::Number(PValue::F32(0xff7f_ffff)),
                b"\x2d\xff\xff\x7f\xff",
            ),
            (
                Told::Number(PValue::F32(0x7f7f_ffff)),
                b"\x2d\xff\xff\x7f\x7f",
            ),
            (
                Told::Number(PValue::F32(0x402d_f854)),
                b"\x2d\x54\xf8\x2d\x40",
            ),
        ],
    ),
    (
        Of::Number(PType::F64),
        NULLABLE,
        b"\x1a\x04\x08\x0a\x10\x01",
        &[
            (
                Told::Number(PValue::F64(0xffef_ffff_ffff_ffff)),
                b"\x31\xff\xff\xff\xff\xff\xff\xef\xff",
            ),
            (
                Told::Number(PValue::F64(0x7fef_ffff_ffff_ffff)),
                b"\x31\xff\xff\xff\xff\xff\xff\xef\x7f",
            ),
            (
                Told::Number(PValue::F64(0x4009_21fb_5444_2d18)),
                b"\x31\x18\x2d\x44\x54\xfb\x21\x09\x40",
            ),
        ],
    ),
];

#[test]
fn numbers_are_scalars(rt: HostRuntime) {
    are_whole(&rt, rt.alloc(), &NUMBERS);
}

const OTHERS: [Row<'static>; 16] = [
    (
        Of::Null,
        NULLABLE,
        b"\x0a\x00",
        &[(Told::Null, b"\x08\x00")],
    ),
    (
        Of::Bool,
        NULLABLE,
        b"\x12\x02\x08\x01",
        &[
            (Told::Null, b"\x08\x00"),
            (Told::Bool(true), b"\x10\x01"),
            (Told::Bool(false), b"\x10\x00"),
        ],
    ),
    (
        Of::Utf8,
        PLAIN,
        b"\x2a\x00",
        &[(Told::Utf8("hello"), b"\x3a\x05hello")],
    ),
    (
        Of::Utf8,
        NULLABLE,
        b"\x2a\x02\x08\x01",
        &[
            (Told::Utf8("hello"), b"\x3a\x05hello"),
            (Told::Utf8("test"), b"\x3a\x04test"),
        ],
    ),
    (
        Of::Binary,
        PLAIN,
        b"\x32\x00",
        &[(Told::Binary(b"hello"), b"\x42\x05hello")],
    ),
    (
        Of::Binary,
        NULLABLE,
        b"\x32\x02\x08\x01",
        &[
            (Told::Binary(&[1, 2, 3]), b"\x42\x03\x01\x02\x03"),
            (
                Told::Binary(&[1, 2, 3, 4, 5]),
                b"\x42\x05\x01\x02\x03\x04\x05",
            ),
        ],
    ),
    (
        Of::Decimal(10, 2),
        PLAIN,
        b"\x22\x04\x08\x0a\x10\x02",
        &[(
            Told::Decimal(DecimalValue::I32(123_456)),
            b"\x42\x04\x40\xe2\x01\x00",
        )],
    ),
    (
        Of::Decimal(10, 2),
        NULLABLE,
        b"\x22\x06\x08\x0a\x10\x02\x18\x01",
        &[(Told::Null, b"\x08\x00")],
    ),
    (
        Of::Decimal(38, 6),
        NULLABLE,
        b"\x22\x06\x08\x26\x10\x06\x18\x01",
        &[(
            Told::Decimal(DecimalValue::I128(99_999_999_999_999_999_999)),
            b"\x42\x10\xff\xff\x0f\x63\x2d\x5e\xc7\x6b\x05\x00\x00\x00\x00\x00\x00\x00",
        )],
    ),
    (
        Of::Decimal(76, 0),
        PLAIN,
        b"\x22\x02\x08\x4c",
        &[(
            Told::Decimal(DecimalValue::I256([0xff; 32])),
            &[
                0x42, 0x20, 0xff, 0xff, 0xff, 0xff, 0xff, 0xff, 0xff, 0xff, 0xff, 0xff, 0xff, 0xff,
                0xff, 0xff, 0xff, 0xff, 0xff, 0xff, 0xff, 0xff, 0xff, 0xff, 0xff, 0xff, 0xff, 0xff,
                0xff, 0xff, 0xff, 0xff, 0xff, 0xff,
            ],
        )],
    ),
    (
        Of::List,
        NULLABLE,
        b"\x42\x0a\x0a\x06\x1a\x04\x08\x06\x10\x01\x10\x01",
        &[(Told::Numbers, b"\x4a\x08\x0a\x02\x18\x54\x0a\x02\x18\x56")],
    ),
    (
        Of::Map,
        NULLABLE,
        b"\x6a\x10\x0a\x04\x1a\x02\x08\x06\x12\x04\x2a\x02\x08\x01\x18\x01\x20\x01",
        &[
            (Told::Null, b"\x08\x00"),
            (
                Told::Entries,
                &[
                    0x4a, 0x1b, 0x0a, 0x0d, 0x4a, 0x0b, 0x0a, 0x02, 0x18, 0x02, 0x0a, 0x05, 0x3a,
                    0x03, 0x6f, 0x6e, 0x65, 0x0a, 0x0a, 0x4a, 0x08, 0x0a, 0x02, 0x18, 0x04, 0x0a,
                    0x02, 0x08, 0x00,
                ],
            ),
        ],
    ),
    (
        Of::Variant,
        PLAIN,
        b"\x5a\x00",
        &[
            (
                Told::Variant,
                b"\x62\x0a\x0a\x04\x1a\x02\x08\x06\x12\x02\x18\x54",
            ),
            (
                Told::Nested,
                &[
                    0x62, 0x7d, 0x0a, 0x06, 0x42, 0x04, 0x0a, 0x02, 0x5a, 0x00, 0x12, 0x73, 0x4a,
                    0x71, 0x0a, 0x0a, 0x62, 0x08, 0x0a, 0x02, 0x12, 0x00, 0x12, 0x02, 0x10, 0x01,
                    0x0a, 0x48, 0x62, 0x46, 0x0a, 0x06, 0x42, 0x04, 0x0a, 0x02, 0x5a, 0x00, 0x12,
                    0x3c, 0x4a, 0x3a, 0x0a, 0x0c, 0x62, 0x0a, 0x0a, 0x04, 0x1a, 0x02, 0x08, 0x05,
                    0x12, 0x02, 0x18, 0x0d, 0x0a, 0x0c, 0x62, 0x0a, 0x0a, 0x04, 0x1a, 0x02, 0x08,
                    0x02, 0x12, 0x02, 0x20, 0x2a, 0x0a, 0x1c, 0x62, 0x1a, 0x0a, 0x04, 0x22, 0x02,
                    0x08, 0x12, 0x12, 0x12, 0x42, 0x10, 0x15, 0xcd, 0x5b, 0x07, 0x00, 0x00, 0x00,
                    0x00, 0x00, 0x00, 0x00, 0x00, 0x00, 0x00, 0x00, 0x00, 0x0a, 0x0d, 0x62, 0x0b,
                    0x0a, 0x02, 0x32, 0x00, 0x12, 0x05, 0x42, 0x03, 0x61, 0x62, 0x63, 0x0a, 0x0a,
                    0x62, 0x08, 0x0a, 0x02, 0x0a, 0x00, 0x12, 0x02, 0x08, 0x00,
                ],
            ),
        ],
    ),
    (
        Of::Variant,
        NULLABLE,
        b"\x5a\x02\x08\x01",
        &[
            (Told::Null, b"\x08\x00"),
            (
                Told::NullVariant,
                b"\x62\x08\x0a\x02\x0a\x00\x12\x02\x08\x00",
            ),
        ],
    ),
    (
        Of::Union,
        NULLABLE,
        &[
            0x62, 0x1f, 0x0a, 0x03, 0x69, 0x6e, 0x74, 0x0a, 0x06, 0x73, 0x74, 0x72, 0x69, 0x6e,
            0x67, 0x12, 0x06, 0x1a, 0x04, 0x08, 0x06, 0x10, 0x01, 0x12, 0x02, 0x2a, 0x00, 0x1a,
            0x02, 0x05, 0x09, 0x20, 0x01,
        ],
        &[
            (Told::Null, b"\x08\x00"),
            (Told::NullMember, b"\x5a\x06\x08\x05\x12\x02\x08\x00"),
            (Told::Member, b"\x5a\x06\x08\x05\x12\x02\x18\x54"),
        ],
    ),
    (
        Of::Record,
        PLAIN,
        &[
            0x62, 0x2a, 0x0a, 0x06, 0x72, 0x65, 0x63, 0x6f, 0x72, 0x64, 0x12, 0x1d, 0x3a, 0x1b,
            0x0a, 0x06, 0x6e, 0x75, 0x6d, 0x62, 0x65, 0x72, 0x0a, 0x05, 0x6c, 0x61, 0x62, 0x65,
            0x6c, 0x12, 0x04, 0x1a, 0x02, 0x08, 0x06, 0x12, 0x04, 0x2a, 0x02, 0x08, 0x01, 0x1a,
            0x01, 0x0d,
        ],
        &[(
            Told::Record,
            &[
                0x5a, 0x14, 0x08, 0x0d, 0x12, 0x10, 0x4a, 0x0e, 0x0a, 0x02, 0x18, 0x54, 0x0a, 0x08,
                0x3a, 0x06, 0x61, 0x6e, 0x73, 0x77, 0x65, 0x72,
            ],
        )],
    ),
];

#[test]
fn values_of_every_kind_are_scalars(rt: HostRuntime) {
    are_whole(&rt, rt.alloc(), &OTHERS);
}

// What a value's message of these bytes is at a nullable type of numbers.
fn cast(alloc: Global, bytes: &[u8], kind: PType) -> Result<Answer, ScalarWireError> {
    let message = pb::ScalarValue::decode(alloc, bytes)?;
    let dtype = DType::Primitive(kind, NULLABLE);
    let scalar = Scalar::from_proto_value(alloc, &message, &dtype, &ExtSession::new(alloc))?;
    Ok(answer_of(scalar.value()))
}

const RANGE: Result<PValue, ScalarWireError> = Err(ScalarWireError::OutOfRange);

// int64 at unsigned kinds, uint64 at signed ones, and the bits of a float as uint64.
const CASTS: [(&[u8], PType, Result<PValue, ScalarWireError>); 16] = [
    (b"\x18\x00", PType::U64, Ok(PValue::U64(0))),
    (
        b"\x18\xfe\xff\xff\xff\xff\xff\xff\xff\xff\x01",
        PType::U64,
        Ok(PValue::U64(9_223_372_036_854_775_807)),
    ),
    (b"\x18\xfe\x03", PType::U8, Ok(PValue::U8(255))),
    (b"\x18\xfe\xff\x07", PType::U16, Ok(PValue::U16(65_535))),
    (
        b"\x18\xfe\xff\xff\xff\x1f",
        PType::U32,
        Ok(PValue::U32(4_294_967_295)),
    ),
    (b"\x18\x80\x04", PType::U8, RANGE),
    (b"\x18\x01", PType::U64, RANGE),
    (b"\x20\x00", PType::I64, Ok(PValue::I64(0))),
    (
        b"\x20\xff\xff\xff\xff\xff\xff\xff\xff\x7f",
        PType::I64,
        Ok(PValue::I64(i64::MAX)),
    ),
    (b"\x20\x7f", PType::I8, Ok(PValue::I8(127))),
    (b"\x20\xff\xff\x01", PType::I16, Ok(PValue::I16(32_767))),
    (
        b"\x20\xff\xff\xff\xff\x07",
        PType::I32,
        Ok(PValue::I32(i32::MAX)),
    ),
    (b"\x20\x80\x01", PType::I8, RANGE),
    (
        b"\x20\x80\x80\x80\x80\x80\x80\x80\x80\x80\x01",
        PType::I64,
        RANGE,
    ),
    (b"\x20\xb8\x6d", PType::U64, Ok(PValue::U64(14_008))),
    (b"\x20\xb8\x6d", PType::F16, Ok(PValue::F16(14_008))),
];

#[test]
fn integers_of_the_other_sign_are_read(rt: HostRuntime) {
    for (bytes, kind, told) in &CASTS {
        let told = match told {
            Ok(number) => Ok(Answer::Number(*number)),
            Err(error) => Err(*error),
        };
        assert!(rt;
            cast(rt.alloc(), bytes, *kind) == told,
            "{bytes:?} at {kind:?}"
        );
    }
}

// Why a union's value is refused, if it is.
fn refusal(alloc: Global, bytes: &[u8]) -> Result<Option<ScalarWireError>, TypeError> {
    let dtype = type_of(alloc, Of::Union, PLAIN)?;
    let readers = ExtSession::new(alloc);
    Ok(ScalarValue::from_proto_bytes(alloc, bytes, &dtype, &readers).err())
}

// The tag 5 of the text `wrong`.
const WRONG: &[u8] = b"\x5a\x0b\x08\x05\x12\x07\x3a\x05wrong";

#[test]
fn a_child_of_another_kind_is_refused(rt: HostRuntime) {
    let mismatch = Ok(Some(ScalarWireError::KindMismatch));
    assert!(rt; refusal(rt.alloc(), WRONG) == mismatch);
}
