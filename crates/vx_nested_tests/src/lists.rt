//! Tests of lists by offsets.

use std::alloc::Global;
use vx_arrays::{ArrayError, ListArray};
use vx_test_arrays::parts::{Made, There, both, bytes, lists, numbers, texts, two};
use vx_test_arrays::rows::{has_rows, has_slots, takes};
use vx_types::{DType, Nullability, PType, TypeRef};

// Three numbers.
fn elements(alloc: Global) -> Made {
    bytes(alloc, &[1, 2, 3])
}

// Lists of those, by offsets of a byte.
fn parted(alloc: Global, offsets: &[u8], there: There) -> Made {
    lists(alloc, elements(alloc), bytes(alloc, offsets), there)
}

// Offsets of lists, which of these are valid, and the lists.
const ROWS: [(&[u8], There, &[&str]); 5] = [
    (&[0, 2, 2, 3], There::Always, &["[1, 2]", "[]", "[3]"]),
    (&[0, 2, 2, 3], There::All, &["[1, 2]", "[]", "[3]"]),
    (
        &[0, 2, 2, 3],
        There::Bits(0b101),
        &["[1, 2]", "null", "[3]"],
    ),
    (&[1, 2], There::Always, &["[2]"]),
    (&[0], There::Always, &[]),
];

#[test]
fn elements_stand_from_an_offset_up_to_the_next(rt: HostRuntime) {
    let alloc = rt.alloc();
    for (offsets, there, texts) in &ROWS {
        let lists = parted(alloc, offsets, *there);
        assert!(rt; has_rows(alloc, lists, texts), "{offsets:?}");
    }
}

#[test]
fn elements_are_of_any_type(rt: HostRuntime) {
    let alloc = rt.alloc();
    let inner = parted(alloc, &[0, 2, 2, 3], There::Always);
    let outer = lists(alloc, inner, bytes(alloc, &[0, 1, 3]), There::Always);
    assert!(rt; has_rows(alloc, outer, &["[[1, 2]]", "[[], [3]]"]));
    let letters = texts(alloc, b"abc", There::Bits(0b011));
    let parted = lists(alloc, letters, bytes(alloc, &[0, 2, 2, 3]), There::Always);
    assert!(rt; has_rows(alloc, parted, &["[a, b]", "[]", "[null]"]));
}

// The offsets 0, 2 and 3 of each kind of integers.
const KINDS: [(PType, &[u8]); 8] = [
    (PType::U8, b"\0\x02\x03"),
    (PType::I8, b"\0\x02\x03"),
    (PType::U16, b"\0\0\x02\0\x03\0"),
    (PType::I16, b"\0\0\x02\0\x03\0"),
    (PType::U32, b"\0\0\0\0\x02\0\0\0\x03\0\0\0"),
    (PType::I32, b"\0\0\0\0\x02\0\0\0\x03\0\0\0"),
    (
        PType::U64,
        b"\0\0\0\0\0\0\0\0\x02\0\0\0\0\0\0\0\x03\0\0\0\0\0\0\0",
    ),
    (
        PType::I64,
        b"\0\0\0\0\0\0\0\0\x02\0\0\0\0\0\0\0\x03\0\0\0\0\0\0\0",
    ),
];

// Lists of three numbers, by offsets of a kind.
fn parted_by(alloc: Global, kind: PType, offsets: &[u8], there: There) -> Made {
    let offsets = numbers(alloc, kind, offsets, there);
    lists(alloc, elements(alloc), offsets, There::Always)
}

#[test]
fn offsets_are_of_each_kind_of_integers(rt: HostRuntime) {
    let alloc = rt.alloc();
    for (kind, bytes) in &KINDS {
        let lists = parted_by(alloc, *kind, bytes, There::Always);
        assert!(rt; has_rows(alloc, lists, &["[1, 2]", "[3]"]), "{kind:?}");
    }
}

const BROKEN: Option<ArrayError> = Some(ArrayError::BadContent);

const UNFIT: Option<ArrayError> = Some(ArrayError::BadShape);

// Offsets, which rows are valid, and why lists of three elements are not made of them.
const REFUSED: [(&[u8], There, Option<ArrayError>); 6] = [
    (&[0, 2, 1, 3], There::Always, BROKEN),
    (&[0, 2, 1, 3], There::Bits(0), BROKEN),
    (&[0, 4], There::Always, BROKEN),
    (&[0, 4], There::Bits(0), BROKEN),
    (&[], There::Always, UNFIT),
    (&[0, 3], There::Unasked(1), UNFIT),
];

#[test]
fn offsets_never_fall_nor_pass_the_elements(rt: HostRuntime) {
    let alloc = rt.alloc();
    for (offsets, there, error) in &REFUSED {
        let refused = parted(alloc, offsets, *there).err();
        assert!(rt; refused == *error, "{offsets:?} {there:?}");
    }
}

// Offsets of a kind, whether they may be null, and why lists of three elements are not made of them.
const MISFITS: [(PType, &[u8], There, Option<ArrayError>); 4] = [
    (PType::I8, b"\xff\x01", There::Always, BROKEN),
    (
        PType::U64,
        b"\xff\xff\xff\xff\xff\xff\xff\xff",
        There::Always,
        BROKEN,
    ),
    (PType::U8, b"\0\x03", There::All, UNFIT),
    (PType::F32, b"\0\0\0\0\0\0\0\0", There::Always, UNFIT),
];

#[test]
fn offsets_are_integers_that_are_never_null(rt: HostRuntime) {
    let alloc = rt.alloc();
    for (kind, bytes, there, error) in &MISFITS {
        let refused = parted_by(alloc, *kind, bytes, *there).err();
        assert!(rt; refused == *error, "{kind:?}");
    }
}

#[test]
fn a_row_takes_its_elements_cells_and_one(rt: HostRuntime) {
    let alloc = rt.alloc();
    let row = parted(alloc, &[0, 2, 2, 3], There::Always);
    assert!(rt; takes(alloc, row, 3));
    let slots = parted(alloc, &[0, 3], There::Always);
    assert!(rt; has_slots(alloc, slots, &["elements", "offsets", "validity"]));
}

// The type of lists of bytes.
fn list_type(alloc: Global) -> Result<DType, ArrayError> {
    let element = DType::Primitive(PType::U8, Nullability::NonNullable);
    match TypeRef::new(alloc, element) {
        Ok(element) => Ok(DType::List(element, Nullability::NonNullable)),
        Err(_) => Err(ArrayError::OutOfMemory),
    }
}

// A node of `len` lists over three elements and four offsets.
fn node_of(alloc: Global, len: usize) -> Made {
    let children = two(alloc, elements(alloc), bytes(alloc, &[0, 2, 2, 3]));
    let (dtype, children) = both(list_type(alloc), children)?;
    ListArray::of_children(dtype, len, children)
}

#[test]
fn there_is_an_offset_more_than_lists(rt: HostRuntime) {
    for (len, error) in [(2, UNFIT), (3, None), (4, UNFIT), (usize::MAX, UNFIT)] {
        assert!(rt; node_of(rt.alloc(), len).err() == error, "{len}");
    }
}
