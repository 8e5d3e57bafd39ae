//! Texts, bytes, identifiers and kinds of numbers: published codes, and copies.

use std::alloc::Global;
use std::collections::HashMap;
use vx_types::{Blob, DType, Id, Ids, Name, Nullability, PType, PValue, TypeError};

// Whether a kind of numbers has this code and width, is an integer or not, and is found by its code.
fn is_numbered(kind: PType, code: u8, width: usize, is_int: bool) -> bool {
    kind.code() == code
        && kind.byte_width() == width
        && kind.is_int() == is_int
        && PType::from_code(code) == Some(kind)
}

const KINDS: [(PType, u8, usize, bool); 11] = [
    (PType::U8, 0, 1, true),
    (PType::U16, 1, 2, true),
    (PType::U32, 2, 4, true),
    (PType::U64, 3, 8, true),
    (PType::I8, 4, 1, true),
    (PType::I16, 5, 2, true),
    (PType::I32, 6, 4, true),
    (PType::I64, 7, 8, true),
    (PType::F16, 8, 2, false),
    (PType::F32, 9, 4, false),
    (PType::F64, 10, 8, false),
];

#[test]
fn numbers_have_widths_and_codes(rt: HostRuntime) {
    for (kind, code, width, is_int) in &KINDS {
        assert!(rt; is_numbered(*kind, *code, *width, *is_int), "code {code}");
    }
    assert!(rt; PType::from_code(11).is_none());
    assert!(rt; PType::from_code(255).is_none());
    assert!(rt; PValue::F16(0x8000).ptype() == PType::F16);
}

// The nullability of `Null` after a change to non-nullable.
fn nulls_nullability(alloc: Global) -> Result<Nullability, TypeError> {
    let null = DType::Null.with_nullability(alloc, Nullability::NonNullable)?;
    Ok(null.nullability())
}

#[test]
fn the_type_of_nulls_stays_nullable(rt: HostRuntime) {
    assert!(rt; nulls_nullability(rt.alloc()) == Ok(Nullability::Nullable));
}

// Whether a copy of a name has its text.
fn name_is_copied(alloc: Global, text: &str) -> Result<bool, TypeError> {
    let name = Name::new(alloc, text)?;
    let copy = name.clone(alloc)?;
    Ok(copy.as_str() == text)
}

// Whether a copy of bytes has them.
fn bytes_are_copied(alloc: Global, bytes: &[u8]) -> Result<bool, TypeError> {
    let blob = Blob::copy_from(alloc, bytes)?;
    let copy = blob.clone(alloc)?;
    Ok(copy == blob && copy.as_slice() == bytes && copy.len() == bytes.len())
}

// Whether bytes come back out unchanged.
fn are_handed_over(alloc: Global) -> Result<bool, TypeError> {
    let bytes = Blob::copy_from(alloc, &[7])?.into_vec();
    let blob = Blob::new(bytes);
    Ok(!blob.is_empty() && blob.as_slice() == [7].as_slice())
}

#[test]
fn texts_and_bytes_are_kept(rt: HostRuntime) {
    let alloc = rt.alloc();
    assert!(rt; name_is_copied(alloc, "naïve") == Ok(true));
    assert!(rt; bytes_are_copied(alloc, &[1, 0, 255]) == Ok(true));
    assert!(rt; are_handed_over(alloc) == Ok(true));
}

// A list of two identifiers.
fn two_ids(alloc: Global) -> Result<Ids, TypeError> {
    let mut ids = Ids::new(alloc);
    ids.push(Id::new(alloc, "vortex.null")?)?;
    ids.push(Id::new(alloc, "vortex.primitive")?)?;
    Ok(ids)
}

// Whether the list has this identifier at an index, or none.
fn is_at(ids: &Ids, place: usize, text: Option<&str>) -> bool {
    match (ids.get(place), text) {
        (Some(id), Some(text)) => id.as_str() == text,
        (None, None) => true,
        _ => false,
    }
}

// Whether the two identifiers are at their indices.
fn are_in_order(alloc: Global) -> Result<bool, TypeError> {
    let ids = two_ids(alloc)?;
    Ok(ids.len() == 2 && is_at(&ids, 1, Some("vortex.primitive")) && is_at(&ids, 2, None))
}

#[test]
fn identifiers_stand_in_order(rt: HostRuntime) {
    assert!(rt; Ids::new(rt.alloc()).is_empty());
    assert!(rt; are_in_order(rt.alloc()) == Ok(true));
}

// The index of each identifier, by the identifier.
fn places(alloc: Global, ids: &Ids) -> Result<HashMap<Id, usize>, TypeError> {
    let mut places = HashMap::new(alloc);
    for (place, id) in ids.as_slice().iter().enumerate() {
        places.insert(id.clone(alloc)?, place)?;
    }
    Ok(places)
}

// The indices of the two.
fn two_places(alloc: Global) -> Result<HashMap<Id, usize>, TypeError> {
    let ids = two_ids(alloc)?;
    places(alloc, &ids)
}

// The index of an identifier among them.
fn place(alloc: Global, text: &str) -> Result<Option<usize>, TypeError> {
    let id = Id::new(alloc, text)?;
    Ok(two_places(alloc)?.get(&id).copied())
}

#[test]
fn identifiers_are_keys(rt: HostRuntime) {
    let alloc = rt.alloc();
    assert!(rt; place(alloc, "vortex.primitive") == Ok(Some(1)));
    assert!(rt; place(alloc, "vortex.bool") == Ok(None));
}
