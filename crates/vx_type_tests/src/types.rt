//! Types of each kind, and the errors on their parts.

use std::alloc::Global;
use vx_types::{
    Blob, DType, DTypes, DecimalDType, DecimalType, ExtDType, Id, Ids, MapDType, Name, Names,
    Nullability, PType, StructFields, TypeError, TypeIds, TypeRef, UnionVariants,
};

fn two_names(alloc: Global) -> Result<Names, TypeError> {
    let mut names = Names::new(alloc);
    names.push(Name::new(alloc, "a")?)?;
    names.push(Name::new(alloc, "b")?)?;
    Ok(names)
}

fn numbers(alloc: Global, count: usize) -> Result<DTypes, TypeError> {
    let mut types = DTypes::new(alloc);
    for _ in 0..count {
        types.push(DType::Primitive(PType::U8, Nullability::Nullable))?;
    }
    Ok(types)
}

fn extension(alloc: Global, metadata: u8, n: Nullability) -> Result<DType, TypeError> {
    let id = Id::new(alloc, "x.day")?;
    let metadata = Blob::copy_from(alloc, &[metadata])?;
    let ext = ExtDType::new(alloc, id, metadata, DType::Primitive(PType::I32, n))?;
    Ok(DType::Extension(ext))
}

fn structure(alloc: Global, n: Nullability) -> Result<DType, TypeError> {
    let names = two_names(alloc)?;
    let fields = StructFields::try_new(names, numbers(alloc, 2)?)?;
    Ok(DType::Struct(fields, n))
}

fn members(alloc: Global) -> Result<UnionVariants, TypeError> {
    let names = two_names(alloc)?;
    let types = numbers(alloc, 2)?;
    UnionVariants::try_new(names, types, TypeIds::copy_from(alloc, &[7, 255])?)
}

fn map(alloc: Global) -> Result<MapDType, TypeError> {
    let key = DType::Utf8(Nullability::NonNullable);
    MapDType::new(alloc, key, DType::Binary(Nullability::Nullable), true)
}

// A type of each kind but `Null`, by number from 0.
fn sample(alloc: Global, which: usize, n: Nullability) -> Result<DType, TypeError> {
    match which {
        0 => Ok(DType::Bool(n)),
        1 => Ok(DType::Primitive(PType::F64, n)),
        2 => Ok(DType::Decimal(DecimalDType::try_new(10, -2)?, n)),
        3 => Ok(DType::Utf8(n)),
        4 => Ok(DType::Binary(n)),
        5 => Ok(DType::List(TypeRef::new(alloc, DType::Null)?, n)),
        6 => Ok(DType::FixedSizeList(TypeRef::new(alloc, DType::Null)?, 3, n)),
        7 => structure(alloc, n),
        8 => Ok(DType::Union(members(alloc)?, n)),
        9 => Ok(DType::Map(map(alloc)?, n)),
        10 => Ok(DType::Variant(n)),
        _ => extension(alloc, 9, n),
    }
}

// Whether this is the type of this number and nullability.
fn is_sample(
    alloc: Global,
    dtype: &DType,
    which: usize,
    n: Nullability,
) -> Result<bool, TypeError> {
    let wanted = sample(alloc, which, n)?;
    Ok(*dtype == wanted)
}

// Whether a copy of a type is the same type.
fn is_copy(alloc: Global, dtype: &DType) -> Result<bool, TypeError> {
    let copy = dtype.clone(alloc)?;
    Ok(copy == *dtype)
}

// The same for the type of this number.
fn is_copied(alloc: Global, which: usize) -> Result<bool, TypeError> {
    let plain = sample(alloc, which, Nullability::NonNullable)?;
    is_copy(alloc, &plain)
}

// The type of this number made nullable.
fn made_nullable(alloc: Global, which: usize) -> Result<DType, TypeError> {
    let plain = sample(alloc, which, Nullability::NonNullable)?;
    plain.with_nullability(alloc, Nullability::Nullable)
}

// Whether the type of this number, made nullable, equals the one of this nullability.
fn is_made_nullable(alloc: Global, which: usize, n: Nullability) -> Result<bool, TypeError> {
    let made = made_nullable(alloc, which)?;
    is_sample(alloc, &made, which, n)
}

// The nullability of the type of this number.
fn nullability(alloc: Global, which: usize, n: Nullability) -> Result<Nullability, TypeError> {
    let dtype = sample(alloc, which, n)?;
    Ok(dtype.nullability())
}

#[test]
fn each_kind_is_copied(rt: HostRuntime) {
    for which in 0..12 {
        assert!(rt; is_copied(rt.alloc(), which) == Ok(true), "at {which}");
    }
}

#[test]
fn each_kind_is_made_nullable(rt: HostRuntime) {
    let alloc = rt.alloc();
    let (never, maybe) = (Nullability::NonNullable, Nullability::Nullable);
    for which in 0..12 {
        assert!(rt;
            is_made_nullable(alloc, which, maybe) == Ok(true),
            "at {which}"
        );
        assert!(rt;
            is_made_nullable(alloc, which, never) == Ok(false),
            "at {which}"
        );
    }
}

#[test]
fn each_kind_has_its_nullability(rt: HostRuntime) {
    let alloc = rt.alloc();
    let (never, maybe) = (Nullability::NonNullable, Nullability::Nullable);
    for which in 0..12 {
        assert!(rt; nullability(alloc, which, never) == Ok(never), "at {which}");
        assert!(rt; nullability(alloc, which, maybe) == Ok(maybe), "at {which}");
    }
}

// Whether a width of decimals has this code and this width in bytes, and is found by its code.
fn is_numbered(kind: DecimalType, code: u8, width: usize) -> bool {
    kind.code() == code
        && kind.byte_width() == width
        && kind.is_int()
        && DecimalType::from_code(code) == Some(kind)
}

const WIDTHS: [(DecimalType, u8, usize); 6] = [
    (DecimalType::I8, 0, 1),
    (DecimalType::I16, 1, 2),
    (DecimalType::I32, 2, 4),
    (DecimalType::I64, 3, 8),
    (DecimalType::I128, 4, 16),
    (DecimalType::I256, 5, 32),
];

#[test]
fn widths_of_decimals_have_codes(rt: HostRuntime) {
    for (kind, code, width) in &WIDTHS {
        assert!(rt; is_numbered(*kind, *code, *width), "code {code}");
    }
    assert!(rt; DecimalType::from_code(6).is_none());
}

// Whether a decimal type keeps this precision, or the error.
fn decimal(precision: u8) -> Result<bool, TypeError> {
    let decimal = DecimalDType::try_new(precision, -3)?;
    Ok(decimal.precision() == precision && decimal.scale() == -3)
}

#[test]
fn decimals_have_1_to_76_digits(rt: HostRuntime) {
    let refused = Err(TypeError::BadDecimal);
    assert!(rt; decimal(0) == refused);
    assert!(rt; decimal(1) == Ok(true));
    assert!(rt; decimal(76) == Ok(true));
    assert!(rt; decimal(77) == refused);
    assert!(rt; decimal(255) == refused);
}

// The error of a union of two names, `count` types and these tags.
fn union_refusal(alloc: Global, count: usize, tags: &[u8]) -> Result<TypeError, TypeError> {
    let words = two_names(alloc)?;
    let types = numbers(alloc, count)?;
    let ids = TypeIds::copy_from(alloc, tags)?;
    match UnionVariants::try_new(words, types, ids) {
        Ok(_) => Err(TypeError::OutOfMemory),
        Err(e) => Ok(e),
    }
}

// The error of a structure of two names and `count` types.
fn structure_refusal(alloc: Global, count: usize) -> Result<TypeError, TypeError> {
    let words = two_names(alloc)?;
    match StructFields::try_new(words, numbers(alloc, count)?) {
        Ok(_) => Err(TypeError::OutOfMemory),
        Err(e) => Ok(e),
    }
}

#[test]
fn parts_that_do_not_fit_are_refused(rt: HostRuntime) {
    let alloc = rt.alloc();
    let count = Ok(TypeError::FieldCount);
    assert!(rt; union_refusal(alloc, 2, &[5, 5]) == Ok(TypeError::DuplicateTag));
    assert!(rt; union_refusal(alloc, 2, &[5]) == count);
    assert!(rt; union_refusal(alloc, 1, &[5, 6]) == count);
    assert!(rt; structure_refusal(alloc, 1) == count);
    assert!(rt; structure_refusal(alloc, 3) == count);
}

// The member of the sample union that has this tag.
fn member(alloc: Global, tag: u8) -> Result<Option<usize>, TypeError> {
    Ok(members(alloc)?.tag_to_child_index(tag))
}

#[test]
fn tags_name_members(rt: HostRuntime) {
    let alloc = rt.alloc();
    assert!(rt; member(alloc, 7) == Ok(Some(0)));
    assert!(rt; member(alloc, 255) == Ok(Some(1)));
    assert!(rt; member(alloc, 5) == Ok(None));
}

// The type of an entry with fields of these two names.
fn entry(alloc: Global, key: &str, value: &str) -> Result<DType, TypeError> {
    let mut words = Names::new(alloc);
    words.push(Name::new(alloc, key)?)?;
    words.push(Name::new(alloc, value)?)?;
    let fields = StructFields::try_new(words, entry_types(alloc)?)?;
    Ok(DType::Struct(fields, Nullability::NonNullable))
}

// The types of an entry's fields.
fn entry_types(alloc: Global) -> Result<DTypes, TypeError> {
    let mut types = DTypes::new(alloc);
    types.push(DType::Utf8(Nullability::NonNullable))?;
    types.push(DType::Binary(Nullability::Nullable))?;
    Ok(types)
}

// The type of a map's entries.
fn entries(alloc: Global) -> Result<DType, TypeError> {
    let map = map(alloc)?;
    map.entries_dtype(alloc)
}

// Whether a type is that of entries with fields of these two names.
fn is_entry(alloc: Global, dtype: &DType, key: &str, value: &str) -> Result<bool, TypeError> {
    let wanted = entry(alloc, key, value)?;
    Ok(*dtype == wanted)
}

// Whether the type of the sample map's entries has fields of these two names.
fn are_entries(alloc: Global, key: &str, value: &str) -> Result<bool, TypeError> {
    let entries = entries(alloc)?;
    is_entry(alloc, &entries, key, value)
}

#[test]
fn entries_have_a_key_and_a_value(rt: HostRuntime) {
    let alloc = rt.alloc();
    assert!(rt; are_entries(alloc, "key", "value") == Ok(true));
    assert!(rt; are_entries(alloc, "value", "key") == Ok(false));
}

// Whether a type is the extension with this byte of metadata.
fn is_extension(alloc: Global, dtype: &DType, metadata: u8) -> Result<bool, TypeError> {
    let wanted = extension(alloc, metadata, Nullability::Nullable)?;
    Ok(*dtype == wanted)
}

// Whether the extensions with these bytes of metadata are equal.
fn are_equal(alloc: Global, a: u8, b: u8) -> Result<bool, TypeError> {
    let one = extension(alloc, a, Nullability::Nullable)?;
    is_extension(alloc, &one, b)
}

#[test]
fn metadata_tell_extensions_apart(rt: HostRuntime) {
    let alloc = rt.alloc();
    assert!(rt; are_equal(alloc, 1, 1) == Ok(true));
    assert!(rt; are_equal(alloc, 1, 2) == Ok(false));
}

// Whether a list of structures is within a limit of levels.
fn is_within(alloc: Global, limit: u32) -> Result<bool, TypeError> {
    let deep = structure(alloc, Nullability::Nullable)?;
    let list = DType::List(TypeRef::new(alloc, deep)?, Nullability::Nullable);
    Ok(list.is_within(limit))
}

#[test]
fn levels_are_counted_to_a_limit(rt: HostRuntime) {
    let alloc = rt.alloc();
    assert!(rt; is_within(alloc, 0) == Ok(false));
    assert!(rt; is_within(alloc, 1) == Ok(false));
    assert!(rt; is_within(alloc, 2) == Ok(false));
    assert!(rt; is_within(alloc, 3) == Ok(true));
    assert!(rt; is_within(alloc, u32::MAX) == Ok(true));
}

// Whether an error has this text.
fn is_text(alloc: Global, error: TypeError, text: &str) -> bool {
    match format!(in alloc; "{error}") {
        Ok(printed) => printed.as_str() == text,
        Err(_) => false,
    }
}

const TEXTS: [(TypeError, &str); 5] = [
    (TypeError::OutOfMemory, "out of memory"),
    (
        TypeError::BadDecimal,
        "a decimal's precision is not 1 to 76",
    ),
    (
        TypeError::FieldCount,
        "the numbers of names, types and tags differ",
    ),
    (TypeError::DuplicateTag, "a union's tag stands twice"),
    (TypeError::BadScalar, "the value does not fit the type"),
];

#[test]
fn texts_of_refusals(rt: HostRuntime) {
    for (error, text) in &TEXTS {
        assert!(rt; is_text(rt.alloc(), *error, text), "{text}");
    }
}

// The identifiers `a`, `b` and `a`, of which the first `len` are kept.
fn first_ids(alloc: Global, len: usize) -> Result<Ids, TypeError> {
    let mut ids = Ids::new(alloc);
    for text in ["a", "b", "a"] {
        ids.push(Id::new(alloc, text)?)?;
    }
    ids.truncate(len);
    Ok(ids)
}

// Whether as many are kept, and the last of them is this one.
fn ends_in(alloc: Global, len: usize, count: usize, last: Option<&str>) -> Result<bool, TypeError> {
    let ids = first_ids(alloc, len)?;
    let is_last = ids.as_slice().last().map(|id| id.as_str()) == last;
    let kept = ids.len() == count;
    drop(ids);
    Ok(kept && is_last)
}

#[test]
fn identifiers_are_truncated(rt: HostRuntime) {
    assert!(rt; ends_in(rt.alloc(), 2, 2, Some("b")) == Ok(true));
    assert!(rt; ends_in(rt.alloc(), 0, 0, None) == Ok(true));
    assert!(rt; ends_in(rt.alloc(), 5, 3, Some("a")) == Ok(true));
}
