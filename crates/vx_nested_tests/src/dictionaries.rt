//! Tests of dictionaries.

use std::alloc::Global;
use vx_arrays::ArrayError;
use vx_test_arrays::parts::{
    Made, There, bytes, dicts, extensions, fixed, flags, nulls, numbers, texts,
};
use vx_test_arrays::rows::{has_rows, has_slots, takes};
use vx_types::PType;

// Three non-nullable texts.
fn values(alloc: Global) -> Made {
    texts(alloc, b"abc", There::Always)
}

// The same, of which the last is null.
fn some_values(alloc: Global) -> Made {
    texts(alloc, b"abc", There::Bits(0b011))
}

// The codes 0, 2, null and 1.
fn codes(alloc: Global) -> Made {
    numbers(alloc, PType::U8, &[0, 2, 0, 1], There::Bits(0b1011))
}

// The texts by those codes.
fn letters(alloc: Global) -> Made {
    dicts(alloc, codes(alloc), values(alloc))
}

// The texts by codes of a kind.
fn named(alloc: Global, kind: PType, codes: &[u8], there: There) -> Made {
    dicts(alloc, numbers(alloc, kind, codes, there), values(alloc))
}

#[test]
fn codes_name_values(rt: HostRuntime) {
    let alloc = rt.alloc();
    assert!(rt; has_rows(alloc, letters(alloc), &["a", "c", "null", "b"]));
    let none = dicts(alloc, bytes(alloc, &[]), values(alloc));
    assert!(rt; has_rows(alloc, none, &[]));
}

#[test]
fn values_may_be_null(rt: HostRuntime) {
    let alloc = rt.alloc();
    let some = dicts(alloc, codes(alloc), some_values(alloc));
    assert!(rt; has_rows(alloc, some, &["a", "null", "null", "b"]));
    let last = dicts(alloc, bytes(alloc, &[2, 1]), some_values(alloc));
    assert!(rt; has_rows(alloc, last, &["null", "b"]));
}

#[test]
fn dictionaries_stand_in_one_another(rt: HostRuntime) {
    let alloc = rt.alloc();
    let over = dicts(alloc, bytes(alloc, &[3, 2, 1, 0]), letters(alloc));
    assert!(rt; has_rows(alloc, over, &["b", "null", "c", "a"]));
    let under = dicts(alloc, bytes(alloc, &[3, 2, 1, 0]), codes(alloc));
    let twice = dicts(alloc, under, values(alloc));
    assert!(rt; has_rows(alloc, twice, &["b", "null", "c", "a"]));
}

// Two lists of two numbers.
fn pairs(alloc: Global) -> Made {
    fixed(alloc, bytes(alloc, &[3, 2, 1, 0]), 2, 2, There::Always)
}

#[test]
fn values_are_of_any_type(rt: HostRuntime) {
    let alloc = rt.alloc();
    let lists = dicts(alloc, bytes(alloc, &[1, 0]), pairs(alloc));
    assert!(rt; has_rows(alloc, lists, &["[1, 0]", "[3, 2]"]));
    let stored = extensions(alloc, values(alloc), values(alloc));
    let extended = dicts(alloc, codes(alloc), stored);
    assert!(rt; has_rows(alloc, extended, &["a", "c", "null", "b"]));
}

#[test]
fn a_code_may_be_as_large_as_there_are_values(rt: HostRuntime) {
    let alloc = rt.alloc();
    let last = b"\xfe\xff\xff\xff\xff\xff\xff\xff";
    let code = numbers(alloc, PType::U64, last, There::Always);
    let null = dicts(alloc, code, nulls(alloc, usize::MAX));
    assert!(rt; has_rows(alloc, null, &["null"]));
}

// The codes 2 and 0 of each kind of integers.
const KINDS: [(PType, &[u8]); 8] = [
    (PType::U8, b"\x02\0"),
    (PType::I8, b"\x02\0"),
    (PType::U16, b"\x02\0\0\0"),
    (PType::I16, b"\x02\0\0\0"),
    (PType::U32, b"\x02\0\0\0\0\0\0\0"),
    (PType::I32, b"\x02\0\0\0\0\0\0\0"),
    (PType::U64, b"\x02\0\0\0\0\0\0\0\0\0\0\0\0\0\0\0"),
    (PType::I64, b"\x02\0\0\0\0\0\0\0\0\0\0\0\0\0\0\0"),
];

#[test]
fn codes_are_of_each_kind_of_integers(rt: HostRuntime) {
    let alloc = rt.alloc();
    for (kind, bytes) in &KINDS {
        let letters = named(alloc, *kind, bytes, There::Always);
        assert!(rt; has_rows(alloc, letters, &["c", "a"]), "{kind:?}");
    }
}

const BROKEN: Option<ArrayError> = Some(ArrayError::BadContent);

// Codes that are past the three values.
const BAD_CODES: [(PType, &[u8]); 8] = [
    (PType::U8, b"\x03"),
    (PType::U8, b"\xff"),
    (PType::I8, b"\xff"),
    (PType::I16, b"\0\x80"),
    (PType::I32, b"\xff\xff\xff\xff"),
    (PType::I64, b"\0\0\0\0\0\0\0\x80"),
    (PType::U32, b"\0\0\0\x01"),
    (PType::U64, b"\0\0\0\0\x01\0\0\0"),
];

#[test]
fn codes_are_judged_where_they_are_there(rt: HostRuntime) {
    let alloc = rt.alloc();
    for (kind, bytes) in &BAD_CODES {
        let always = named(alloc, *kind, bytes, There::Always).err();
        assert!(rt; always == BROKEN, "{bytes:?}");
        let there = named(alloc, *kind, bytes, There::Bits(1)).err();
        assert!(rt; there == BROKEN, "{bytes:?}");
        let null = named(alloc, *kind, bytes, There::Bits(0));
        assert!(rt; has_rows(alloc, null, &["null"]), "{bytes:?}");
    }
}

const UNFIT: Option<ArrayError> = Some(ArrayError::BadShape);

// Kinds of numbers that are no integers, and the bytes of one.
const FLOATS: [(PType, &[u8]); 3] = [
    (PType::F16, b"\0\0"),
    (PType::F32, b"\0\0\0\0"),
    (PType::F64, b"\0\0\0\0\0\0\0\0"),
];

#[test]
fn codes_are_integers(rt: HostRuntime) {
    let alloc = rt.alloc();
    for (kind, bytes) in &FLOATS {
        let named = named(alloc, *kind, bytes, There::Always).err();
        assert!(rt; named == UNFIT, "{kind:?}");
    }
    assert!(rt; dicts(alloc, flags(alloc, 0, 1), values(alloc)).err() == UNFIT);
    assert!(rt; dicts(alloc, values(alloc), values(alloc)).err() == UNFIT);
}

#[test]
fn a_row_takes_its_values_cells(rt: HostRuntime) {
    let alloc = rt.alloc();
    assert!(rt; takes(alloc, letters(alloc), 2));
    let picked = dicts(alloc, bytes(alloc, &[1]), pairs(alloc));
    assert!(rt; takes(alloc, picked, 3));
    assert!(rt; has_slots(alloc, letters(alloc), &["codes", "values"]));
}
