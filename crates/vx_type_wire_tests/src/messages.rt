//! Tagged messages of each kind of type, and the refusals.

use crate::tables::readers_of;
use std::alloc::Global;
use vx_proto::{Message, ProtoError};
use vx_type_wire::{DTypeExt, ExtSession, TypeWireError, pb};
use vx_types::{
    Blob, DType, DTypes, DecimalDType, ExtDType, Id, MapDType, Name, Names, Nullability, PType,
    StructFields, TypeError, TypeIds, TypeRef, UnionVariants,
};

const PLAIN: Nullability = Nullability::NonNullable;

const NULLABLE: Nullability = Nullability::Nullable;

fn i32s() -> DType {
    DType::Primitive(PType::I32, PLAIN)
}

// Whether the type is written as these bytes.
fn is_written(alloc: Global, dtype: &DType, bytes: &[u8]) -> bool {
    match dtype.to_proto_bytes(alloc) {
        Ok(written) => written.as_slice() == bytes,
        Err(_) => false,
    }
}

// What bytes are read as, where extensions are allowed.
fn read(alloc: Global, bytes: &[u8]) -> Result<DType, TypeWireError> {
    let mut readers = ExtSession::new(alloc);
    readers.allow_unknown();
    DType::from_proto_bytes(alloc, bytes, &readers)
}

// Whether these bytes are then read as the type.
fn is_read(alloc: Global, dtype: &DType, bytes: &[u8]) -> bool {
    match read(alloc, bytes) {
        Ok(read) => read == *dtype,
        Err(_) => false,
    }
}

// Whether a type that is made first is written as these bytes, and they are read as it.
fn is_worked(alloc: Global, dtype: Result<DType, TypeError>, bytes: &[u8]) -> bool {
    match dtype {
        Ok(dtype) => is_written(alloc, &dtype, bytes) && is_read(alloc, &dtype, bytes),
        Err(_) => false,
    }
}

// The refusal of bytes, where no extension is known.
fn refusal(alloc: Global, bytes: &[u8]) -> Option<TypeWireError> {
    DType::from_proto_bytes(alloc, bytes, &ExtSession::new(alloc)).err()
}

fn decimal(n: Nullability) -> Result<DType, TypeError> {
    Ok(DType::Decimal(DecimalDType::try_new(5, -2)?, n))
}

#[test]
fn kinds_of_numbers(rt: HostRuntime) {
    let alloc = rt.alloc();
    let u8s = Ok(DType::Primitive(PType::U8, PLAIN));
    assert!(rt; is_worked(alloc, u8s, b"\x1a\x00"));
    assert!(rt; is_worked(alloc, Ok(i32s()), b"\x1a\x02\x08\x06"));
    let maybe = Ok(DType::Primitive(PType::I32, NULLABLE));
    assert!(rt; is_worked(alloc, maybe, b"\x1a\x04\x08\x06\x10\x01"));
    let f64s = Ok(DType::Primitive(PType::F64, NULLABLE));
    assert!(rt; is_worked(alloc, f64s, b"\x1a\x04\x08\x0a\x10\x01"));
}

#[test]
fn decimals(rt: HostRuntime) {
    let alloc = rt.alloc();
    let bytes = b"\x22\x0d\x08\x05\x10\xfe\xff\xff\xff\xff\xff\xff\xff\xff\x01";
    assert!(rt; is_worked(alloc, decimal(PLAIN), bytes));
    let bytes = b"\x22\x0f\x08\x05\x10\xfe\xff\xff\xff\xff\xff\xff\xff\xff\x01\x18\x01";
    assert!(rt; is_worked(alloc, decimal(NULLABLE), bytes));
}

#[test]
fn kinds_with_a_flag_alone(rt: HostRuntime) {
    let alloc = rt.alloc();
    assert!(rt; is_worked(alloc, Ok(DType::Null), b"\x0a\x00"));
    assert!(rt; is_worked(alloc, Ok(DType::Bool(PLAIN)), b"\x12\x00"));
    assert!(rt; is_worked(alloc, Ok(DType::Bool(NULLABLE)), b"\x12\x02\x08\x01"));
    assert!(rt; is_worked(alloc, Ok(DType::Utf8(PLAIN)), b"\x2a\x00"));
    assert!(rt; is_worked(alloc, Ok(DType::Utf8(NULLABLE)), b"\x2a\x02\x08\x01"));
}

#[test]
fn further_kinds_with_a_flag_alone(rt: HostRuntime) {
    let alloc = rt.alloc();
    assert!(rt; is_worked(alloc, Ok(DType::Binary(PLAIN)), b"\x32\x00"));
    assert!(rt; is_worked(alloc, Ok(DType::Binary(NULLABLE)), b"\x32\x02\x08\x01"));
    assert!(rt; is_worked(alloc, Ok(DType::Variant(PLAIN)), b"\x5a\x00"));
    assert!(rt; is_worked(alloc, Ok(DType::Variant(NULLABLE)), b"\x5a\x02\x08\x01"));
}

fn list(alloc: Global, element: DType, n: Nullability) -> Result<DType, TypeError> {
    Ok(DType::List(TypeRef::new(alloc, element)?, n))
}

fn fixed_size_list(alloc: Global, n: Nullability) -> Result<DType, TypeError> {
    Ok(DType::FixedSizeList(TypeRef::new(alloc, i32s())?, 300, n))
}

fn map(alloc: Global, n: Nullability) -> Result<DType, TypeError> {
    let map = MapDType::new(alloc, DType::Utf8(PLAIN), i32s(), true)?;
    Ok(DType::Map(map, n))
}

fn extension_of(alloc: Global, id: Id, metadata: &[u8]) -> Result<ExtDType, TypeError> {
    let metadata = Blob::copy_from(alloc, metadata)?;
    ExtDType::new(alloc, id, metadata, DType::Null)
}

fn extension(alloc: Global, id: &str, metadata: &[u8]) -> Result<DType, TypeError> {
    let id = Id::new(alloc, id)?;
    Ok(DType::Extension(extension_of(alloc, id, metadata)?))
}

// The first of the names `a`, `b` and `c`.
fn names(alloc: Global, texts: &[&str]) -> Result<Names, TypeError> {
    let mut names = Names::new(alloc);
    for text in texts {
        names.push(Name::new(alloc, text)?)?;
    }
    Ok(names)
}

// I32 and this type.
fn two_types(alloc: Global, second: DType) -> Result<DTypes, TypeError> {
    let mut types = DTypes::new(alloc);
    types.push(i32s())?;
    types.push(second)?;
    Ok(types)
}

fn fields(alloc: Global) -> Result<StructFields, TypeError> {
    let names = names(alloc, &["a", "b"])?;
    StructFields::try_new(names, two_types(alloc, DType::Bool(PLAIN))?)
}

fn structure(alloc: Global, n: Nullability) -> Result<DType, TypeError> {
    Ok(DType::Struct(fields(alloc)?, n))
}

// I32, texts and truths.
fn three_types(alloc: Global) -> Result<DTypes, TypeError> {
    let mut types = two_types(alloc, DType::Utf8(PLAIN))?;
    types.push(DType::Bool(PLAIN))?;
    Ok(types)
}

// The tags 0, 5 and 255 over three types.
fn variants_of(alloc: Global, names: Names) -> Result<UnionVariants, TypeError> {
    let types = three_types(alloc)?;
    UnionVariants::try_new(names, types, TypeIds::copy_from(alloc, &[0, 5, 255])?)
}

fn union(alloc: Global, n: Nullability) -> Result<DType, TypeError> {
    let names = names(alloc, &["a", "b", "c"])?;
    Ok(DType::Union(variants_of(alloc, names)?, n))
}

#[test]
fn lists(rt: HostRuntime) {
    let alloc = rt.alloc();
    let short = DType::Primitive(PType::U16, PLAIN);
    let bytes = b"\x42\x08\x0a\x04\x1a\x02\x08\x01\x10\x01";
    assert!(rt; is_worked(alloc, list(alloc, short, NULLABLE), bytes));
    let bytes = b"\x42\x06\x0a\x04\x1a\x02\x08\x06";
    assert!(rt; is_worked(alloc, list(alloc, i32s(), PLAIN), bytes));
    let bytes = b"\x52\x09\x0a\x04\x1a\x02\x08\x06\x10\xac\x02";
    assert!(rt; is_worked(alloc, fixed_size_list(alloc, PLAIN), bytes));
    let bytes = b"\x52\x0b\x0a\x04\x1a\x02\x08\x06\x10\xac\x02\x18\x01";
    assert!(rt; is_worked(alloc, fixed_size_list(alloc, NULLABLE), bytes));
}

#[test]
fn maps_and_extensions(rt: HostRuntime) {
    let alloc = rt.alloc();
    let bytes = b"\x6a\x0c\x0a\x02\x2a\x00\x12\x04\x1a\x02\x08\x06\x18\x01";
    assert!(rt; is_worked(alloc, map(alloc, PLAIN), bytes));
    let bytes = b"\x6a\x0e\x0a\x02\x2a\x00\x12\x04\x1a\x02\x08\x06\x18\x01\x20\x01";
    assert!(rt; is_worked(alloc, map(alloc, NULLABLE), bytes));
    let bytes = b"\x4a\x0a\x0a\x01x\x12\x02\x0a\x00\x1a\x01\xaa";
    assert!(rt; is_worked(alloc, extension(alloc, "x", b"\xaa"), bytes));
    let bytes = b"\x4a\x04\x12\x02\x0a\x00";
    assert!(rt; is_worked(alloc, extension(alloc, "", b""), bytes));
}

#[test]
fn kinds_with_names(rt: HostRuntime) {
    let alloc = rt.alloc();
    let bytes = b"\x3a\x10\x0a\x01a\x0a\x01b\x12\x04\x1a\x02\x08\x06\x12\x02\x12\x00";
    assert!(rt; is_worked(alloc, structure(alloc, PLAIN), bytes));
    let bytes = b"\x3a\x12\x0a\x01a\x0a\x01b\x12\x04\x1a\x02\x08\x06\x12\x02\x12\x00\x18\x01";
    assert!(rt; is_worked(alloc, structure(alloc, NULLABLE), bytes));
    let bytes =
        b"\x62\x1c\x0a\x01a\x0a\x01b\x0a\x01c\x12\x04\x1a\x02\x08\x06\x12\x02\x2a\x00\x12\x02\x12\x00\x1a\x03\x00\x05\xff";
    assert!(rt; is_worked(alloc, union(alloc, PLAIN), bytes));
    let bytes =
        b"\x62\x1e\x0a\x01a\x0a\x01b\x0a\x01c\x12\x04\x1a\x02\x08\x06\x12\x02\x2a\x00\x12\x02\x12\x00\x1a\x03\x00\x05\xff\x20\x01";
    assert!(rt; is_worked(alloc, union(alloc, NULLABLE), bytes));
}

// Bytes that are a message and no type.
const NO_TYPES: [&[u8]; 11] = [
    // No member, and no element.
    b"",
    b"\x42\x00",
    // No digit, 77 digits, a scale past a byte.
    b"\x22\x00",
    b"\x22\x02\x08\x4d",
    b"\x22\x05\x08\x05\x10\x80\x01",
    // A code and a size out of range.
    b"\x1a\x02\x08\x0b",
    b"\x52\x0a\x0a\x02\x0a\x00\x10\x80\x80\x80\x80\x10",
    // A name without a type, and a type without a name.
    b"\x3a\x03\x0a\x01a",
    b"\x3a\x04\x12\x02\x0a\x00",
    // A tag too few, and a tag twice.
    b"\x62\x07\x0a\x01a\x12\x02\x0a\x00",
    b"\x62\x12\x0a\x01a\x0a\x01b\x12\x02\x0a\x00\x12\x02\x0a\x00\x1a\x02\x05\x05",
];

#[test]
fn bytes_that_are_no_types(rt: HostRuntime) {
    for bytes in &NO_TYPES {
        assert!(rt;
            refusal(rt.alloc(), bytes) == Some(TypeWireError::BadType),
            "{bytes:?}"
        );
    }
}

// Bytes that are no message: a member twice, two members, a name that is no text, a number that the length cuts.
const NO_MESSAGES: [&[u8]; 4] = [
    b"\x0a\x00\x0a\x00",
    b"\x0a\x00\x12\x00",
    b"\x3a\x03\x0a\x01\xff",
    b"\x1a\x02\x08\x86\x80\x80\x00",
];

#[test]
fn bytes_that_are_no_messages(rt: HostRuntime) {
    for bytes in &NO_MESSAGES {
        assert!(rt;
            refusal(rt.alloc(), bytes) == Some(TypeWireError::BadMessage),
            "{bytes:?}"
        );
    }
    // An extension that nothing reads.
    let bytes = b"\x4a\x04\x12\x02\x0a\x00";
    assert!(rt; refusal(rt.alloc(), bytes) == Some(TypeWireError::UnknownExtension));
}

// Whether the copy of a message value is written as these bytes.
fn is_copied(alloc: Global, message: &pb::DType, bytes: &[u8]) -> Result<bool, TypeWireError> {
    let copy = message.clone(alloc)?;
    let written = copy.encode_to_vec(alloc)?;
    Ok(written.as_slice() == bytes)
}

// Whether a message value is the type I32.
fn is_i32(alloc: Global, message: &pb::DType) -> bool {
    match DType::from_proto(alloc, message, &ExtSession::new(alloc)) {
        Ok(dtype) => matches!(
            &dtype,
            DType::Primitive(PType::I32, Nullability::NonNullable)
        ),
        Err(_) => false,
    }
}

// Whether a message value of these bytes is the type I32, and so is its copy, written as the others.
fn is_i32_message(alloc: Global, bytes: &[u8], written: &[u8]) -> Result<bool, TypeWireError> {
    let message = pb::DType::decode(alloc, bytes)?;
    Ok(is_i32(alloc, &message) && is_copied(alloc, &message, written)?)
}

#[test]
fn messages_as_values(rt: HostRuntime) {
    let alloc = rt.alloc();
    let decoded = pb::DType::decode(alloc, b"\x1a\x02\x08\x0b");
    assert!(rt; matches!(decoded, Err(ProtoError::OutOfRange)));
    // A longer spelling of the same number.
    let same = is_i32_message(alloc, b"\x1a\x05\x08\x86\x80\x80\x00", b"\x1a\x02\x08\x06");
    assert!(rt; same == Ok(true));
    assert!(rt; i32s().to_proto(alloc).is_ok());
}

// Why an empty message value is no type.
fn refusal_of_nothing(alloc: Global) -> Option<TypeWireError> {
    DType::from_proto(alloc, &pb::DType::default(alloc), &ExtSession::new(alloc)).err()
}

#[test]
fn empty_messages(rt: HostRuntime) {
    assert!(rt; refusal_of_nothing(rt.alloc()) == Some(TypeWireError::BadType));
}

const EXTENSION: &[u8] = b"\x4a\x0a\x0a\x01x\x12\x02\x0a\x00\x1a\x01\xaa";

// Why the extension is refused under these readers, if it is.
fn judgement(alloc: Global, rows: &[(&str, bool)]) -> Result<Option<TypeWireError>, TypeWireError> {
    let readers = readers_of(alloc, rows)?;
    Ok(DType::from_proto_bytes(alloc, EXTENSION, &readers).err())
}

#[test]
fn extensions_by_their_readers(rt: HostRuntime) {
    let alloc = rt.alloc();
    let refused = Ok(Some(TypeWireError::ExtensionRefused));
    assert!(rt; judgement(alloc, &[("x", false)]) == refused);
    assert!(rt; judgement(alloc, &[("x", false), ("x", true)]) == Ok(None));
}

// A list type of this number of levels.
fn nested(alloc: Global, levels: u32) -> Result<DType, TypeError> {
    let mut dtype = DType::Null;
    for _ in 1..levels {
        dtype = list(alloc, dtype, PLAIN)?;
    }
    Ok(dtype)
}

// Whether a type is written, and read again as itself.
fn comes_back(alloc: Global, dtype: &DType) -> Result<bool, TypeWireError> {
    let bytes = dtype.to_proto_bytes(alloc)?;
    Ok(is_read(alloc, dtype, bytes.as_slice()))
}

// The same of a list type of this number of levels.
fn lists_come_back(alloc: Global, levels: u32) -> Result<bool, TypeWireError> {
    let dtype = nested(alloc, levels)?;
    comes_back(alloc, &dtype)
}

#[test]
fn deepest_types(rt: HostRuntime) {
    assert!(rt; lists_come_back(rt.alloc(), 50) == Ok(true));
    assert!(rt; lists_come_back(rt.alloc(), 51) == Err(TypeWireError::WireLimit));
}
