//! Tables of each kind of number, and of maps and unions in one another.

use crate::tables::read;
use std::alloc::{AllocError, Global};
use vx_type_wire::{DTypeExt, TypeWireError};
use vx_types::{
    DType, DTypes, MapDType, Name, Names, Nullability, PType, StructFields, TypeError, TypeIds,
    UnionVariants,
};

const PLAIN: Nullability = Nullability::NonNullable;

const NULLABLE: Nullability = Nullability::Nullable;

// Whether a type is written as this message, and read from it.
fn is_table(alloc: Global, dtype: &DType, message: &[u8]) -> Result<bool, TypeWireError> {
    let written = dtype.write_flatbuffer_bytes(alloc)?;
    let read = read(alloc, message)?;
    Ok(written.as_slice() == message && read == *dtype)
}

// The message of a type of numbers up to the field table of its member.
const FRONT: [u8; 32] = [
    16, 0, 0, 0, 0, 0, 0, 0, 8, 0, 12, 0, 4, 0, 8, 0, 8, 0, 0, 0, 3, 0, 0, 0, 16, 0, 0, 0, 0, 0, 0,
    0,
];

// Each kind of number, and the field table and the table of its member: the code 0 is left out.
const KINDS: [(PType, &[u8]); 11] = [
    (PType::U8, &[8, 0, 4, 0, 0, 0, 0, 0, 8, 0, 0, 0]),
    (PType::U16, &[8, 0, 5, 0, 4, 0, 0, 0, 8, 0, 0, 0, 1]),
    (PType::U32, &[8, 0, 5, 0, 4, 0, 0, 0, 8, 0, 0, 0, 2]),
    (PType::U64, &[8, 0, 5, 0, 4, 0, 0, 0, 8, 0, 0, 0, 3]),
    (PType::I8, &[8, 0, 5, 0, 4, 0, 0, 0, 8, 0, 0, 0, 4]),
    (PType::I16, &[8, 0, 5, 0, 4, 0, 0, 0, 8, 0, 0, 0, 5]),
    (PType::I32, &[8, 0, 5, 0, 4, 0, 0, 0, 8, 0, 0, 0, 6]),
    (PType::I64, &[8, 0, 5, 0, 4, 0, 0, 0, 8, 0, 0, 0, 7]),
    (PType::F16, &[8, 0, 5, 0, 4, 0, 0, 0, 8, 0, 0, 0, 8]),
    (PType::F32, &[8, 0, 5, 0, 4, 0, 0, 0, 8, 0, 0, 0, 9]),
    (PType::F64, &[8, 0, 5, 0, 4, 0, 0, 0, 8, 0, 0, 0, 10]),
];

// A message of such a member.
fn message_of(alloc: Global, member: &[u8]) -> Result<Vec<u8>, AllocError> {
    let mut message = Vec::from_slice(alloc, &FRONT)?;
    message.extend_from_slice(member)?;
    Ok(message)
}

// Whether a kind of number has this member, never null.
fn is_kind(alloc: Global, kind: PType, member: &[u8]) -> Result<bool, TypeWireError> {
    let message = message_of(alloc, member)?;
    is_table(alloc, &DType::Primitive(kind, PLAIN), message.as_slice())
}

#[test]
fn each_kind_of_number_has_its_table(rt: HostRuntime) {
    for (kind, member) in &KINDS {
        assert!(rt; is_kind(rt.alloc(), *kind, member) == Ok(true), "{kind:?}");
    }
}

fn names(alloc: Global, texts: &[&str]) -> Result<Names, TypeError> {
    let mut names = Names::new(alloc);
    for text in texts {
        names.push(Name::new(alloc, text)?)?;
    }
    Ok(names)
}

fn two(alloc: Global, first: DType, second: DType) -> Result<DTypes, TypeError> {
    let mut types = DTypes::new(alloc);
    types.push(first)?;
    types.push(second)?;
    Ok(types)
}

fn numbers(kind: PType) -> DType {
    DType::Primitive(kind, PLAIN)
}

// A map from texts to numbers, whose keys are not sorted.
fn unsorted(alloc: Global) -> Result<DType, TypeError> {
    let map = MapDType::new(alloc, DType::Utf8(PLAIN), numbers(PType::I32), false)?;
    Ok(DType::Map(map, PLAIN))
}

// A map to texts, whose keys are maps: theirs are sorted, its own are not.
fn keyed_by_maps(alloc: Global) -> Result<DType, TypeError> {
    let key = MapDType::new(alloc, numbers(PType::I32), DType::Utf8(NULLABLE), true)?;
    let key = DType::Map(key, PLAIN);
    let map = MapDType::new(alloc, key, DType::Utf8(NULLABLE), false)?;
    Ok(DType::Map(map, NULLABLE))
}

// A structure of that map.
fn with_map(alloc: Global) -> Result<DType, TypeError> {
    let mut types = DTypes::new(alloc);
    types.push(keyed_by_maps(alloc)?)?;
    let names = names(alloc, &["map"])?;
    Ok(DType::Struct(StructFields::try_new(names, types)?, PLAIN))
}

// The tags 0 and 1 over two types.
fn union_of(alloc: Global, texts: &[&str], types: DTypes) -> Result<UnionVariants, TypeError> {
    let names = names(alloc, texts)?;
    UnionVariants::try_new(names, types, TypeIds::copy_from(alloc, &[0, 1])?)
}

// A structure of a number, and of a union of numbers and texts.
fn with_union(alloc: Global) -> Result<DType, TypeError> {
    let members = two(alloc, numbers(PType::I32), DType::Utf8(PLAIN))?;
    let inner = DType::Union(union_of(alloc, &["int", "str"], members)?, PLAIN);
    let types = two(alloc, numbers(PType::I64), inner)?;
    let names = names(alloc, &["id", "inner"])?;
    Ok(DType::Struct(StructFields::try_new(names, types)?, PLAIN))
}

// A union of texts and of that structure.
fn nested_union(alloc: Global) -> Result<DType, TypeError> {
    let members = two(alloc, DType::Utf8(PLAIN), with_union(alloc)?)?;
    Ok(DType::Union(union_of(alloc, &["plain", "nested"], members)?, NULLABLE))
}

const UNSORTED: [u8; 125] = [
    16, 0, 0, 0, 0, 0, 0, 0, 8, 0, 12, 0, 4, 0, 8, 0, 8, 0, 0, 0, 13, 0, 0, 0, 24, 0, 0, 0, 0, 0,
    0, 0, 12, 0, 12, 0, 4, 0, 8, 0, 0, 0, 0, 0, 0, 0, 0, 0, 16, 0, 0, 0, 12, 0, 0, 0, 40, 0, 0, 0,
    0, 0, 0, 0, 56, 0, 0, 0, 5, 0, 0, 0, 16, 0, 0, 0, 0, 0, 0, 0, 6, 0, 4, 0, 0, 0, 0, 0, 8, 0, 0,
    0, 0, 0, 0, 0, 88, 0, 0, 0, 3, 0, 0, 0, 16, 0, 0, 0, 0, 0, 0, 0, 8, 0, 5, 0, 4, 0, 0, 0, 8, 0,
    0, 0, 6,
];

const WITH_MAP: [u8; 269] = [
    16, 0, 0, 0, 0, 0, 0, 0, 8, 0, 12, 0, 4, 0, 8, 0, 8, 0, 0, 0, 7, 0, 0, 0, 24, 0, 0, 0, 0, 0, 0,
    0, 10, 0, 12, 0, 4, 0, 8, 0, 0, 0, 0, 0, 0, 0, 0, 0, 16, 0, 0, 0, 12, 0, 0, 0, 24, 0, 0, 0, 0,
    0, 0, 0, 1, 0, 0, 0, 4, 0, 0, 0, 3, 0, 0, 0, 109, 97, 112, 0, 1, 0, 0, 0, 4, 0, 0, 0, 80, 0, 0,
    0, 13, 0, 0, 0, 24, 0, 0, 0, 0, 0, 0, 0, 12, 0, 13, 0, 4, 0, 8, 0, 0, 0, 12, 0, 0, 0, 0, 0, 16,
    0, 0, 0, 12, 0, 0, 0, 120, 0, 0, 0, 1, 0, 0, 0, 128, 0, 0, 0, 13, 0, 0, 0, 24, 0, 0, 0, 0, 0,
    0, 0, 12, 0, 13, 0, 4, 0, 8, 0, 12, 0, 0, 0, 0, 0, 0, 0, 16, 0, 0, 0, 12, 0, 0, 0, 40, 0, 0, 0,
    1, 0, 0, 0, 176, 0, 0, 0, 3, 0, 0, 0, 16, 0, 0, 0, 0, 0, 0, 0, 8, 0, 5, 0, 4, 0, 0, 0, 8, 0, 0,
    0, 6, 0, 0, 0, 208, 0, 0, 0, 5, 0, 0, 0, 16, 0, 0, 0, 0, 0, 0, 0, 6, 0, 5, 0, 4, 0, 0, 0, 8, 0,
    0, 0, 1, 0, 0, 0, 240, 0, 0, 0, 5, 0, 0, 0, 8, 0, 0, 0, 0, 0, 0, 0, 32, 0, 0, 0, 1,
];

const NESTED_UNION: [u8; 462] = [
    16, 0, 0, 0, 0, 0, 0, 0, 8, 0, 12, 0, 4, 0, 8, 0, 8, 0, 0, 0, 12, 0, 0, 0, 24, 0, 0, 0, 0, 0,
    0, 0, 12, 0, 17, 0, 4, 0, 8, 0, 12, 0, 16, 0, 0, 0, 0, 0, 16, 0, 0, 0, 20, 0, 0, 0, 64, 0, 0,
    0, 140, 1, 0, 0, 1, 0, 0, 0, 0, 0, 0, 0, 2, 0, 0, 0, 12, 0, 0, 0, 24, 0, 0, 0, 0, 0, 0, 0, 5,
    0, 0, 0, 112, 108, 97, 105, 110, 0, 0, 0, 0, 0, 0, 0, 6, 0, 0, 0, 110, 101, 115, 116, 101, 100,
    0, 0, 0, 0, 0, 0, 2, 0, 0, 0, 12, 0, 0, 0, 40, 0, 0, 0, 0, 0, 0, 0, 128, 0, 0, 0, 5, 0, 0, 0,
    16, 0, 0, 0, 0, 0, 0, 0, 6, 0, 4, 0, 0, 0, 0, 0, 8, 0, 0, 0, 0, 0, 0, 0, 160, 0, 0, 0, 7, 0, 0,
    0, 24, 0, 0, 0, 0, 0, 0, 0, 10, 0, 12, 0, 4, 0, 8, 0, 0, 0, 0, 0, 0, 0, 0, 0, 16, 0, 0, 0, 12,
    0, 0, 0, 48, 0, 0, 0, 0, 0, 0, 0, 2, 0, 0, 0, 12, 0, 0, 0, 16, 0, 0, 0, 0, 0, 0, 0, 2, 0, 0, 0,
    105, 100, 0, 0, 5, 0, 0, 0, 105, 110, 110, 101, 114, 0, 0, 0, 0, 0, 0, 0, 2, 0, 0, 0, 12, 0, 0,
    0, 40, 0, 0, 0, 0, 0, 0, 0, 8, 1, 0, 0, 3, 0, 0, 0, 16, 0, 0, 0, 0, 0, 0, 0, 8, 0, 5, 0, 4, 0,
    0, 0, 8, 0, 0, 0, 7, 0, 0, 0, 40, 1, 0, 0, 12, 0, 0, 0, 24, 0, 0, 0, 0, 0, 0, 0, 12, 0, 16, 0,
    4, 0, 8, 0, 12, 0, 0, 0, 0, 0, 0, 0, 16, 0, 0, 0, 12, 0, 0, 0, 40, 0, 0, 0, 100, 0, 0, 0, 2, 0,
    0, 0, 12, 0, 0, 0, 16, 0, 0, 0, 0, 0, 0, 0, 3, 0, 0, 0, 105, 110, 116, 0, 3, 0, 0, 0, 115, 116,
    114, 0, 2, 0, 0, 0, 12, 0, 0, 0, 32, 0, 0, 0, 0, 0, 0, 0, 136, 1, 0, 0, 3, 0, 0, 0, 8, 0, 0, 0,
    0, 0, 0, 0, 128, 0, 0, 0, 6, 0, 0, 0, 160, 1, 0, 0, 5, 0, 0, 0, 8, 0, 0, 0, 0, 0, 0, 0, 32, 1,
    0, 0, 0, 0, 0, 0, 2, 0, 0, 0, 0, 1, 0, 0, 2, 0, 0, 0, 0, 1,
];

// Whether a type that is made first is written as this message, and read from it.
fn is_made(alloc: Global, dtype: Result<DType, TypeError>, message: &[u8]) -> bool {
    match dtype {
        Ok(dtype) => is_table(alloc, &dtype, message) == Ok(true),
        Err(_) => false,
    }
}

#[test]
fn maps_and_unions_have_their_tables(rt: HostRuntime) {
    let alloc = rt.alloc();
    assert!(rt; is_made(alloc, unsorted(alloc), &UNSORTED));
    assert!(rt; is_made(alloc, with_map(alloc), &WITH_MAP));
    assert!(rt; is_made(alloc, nested_union(alloc), &NESTED_UNION));
}
