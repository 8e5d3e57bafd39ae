//! Tests of fixed-size lists.

use std::alloc::Global;
use vx_arrays::ArrayError;
use vx_test_arrays::parts::{Made, There, bytes, fixed, nulls};
use vx_test_arrays::rows::{has_rows, has_slots, row_refusal, takes};

// `len` lists of `size` of these numbers each.
fn sized(alloc: Global, numbers: &[u8], size: u32, len: usize, there: There) -> Made {
    fixed(alloc, bytes(alloc, numbers), size, len, there)
}

// Three lists of two numbers.
fn pairs(alloc: Global) -> Made {
    sized(alloc, &[1, 2, 3, 4, 5, 6], 2, 3, There::Always)
}

// How many of six numbers a list has, how many lists there are, which are valid, and the lists.
const ROWS: [(u32, usize, There, &[&str]); 3] = [
    (2, 3, There::Always, &["[1, 2]", "[3, 4]", "[5, 6]"]),
    (3, 2, There::All, &["[1, 2, 3]", "[4, 5, 6]"]),
    (3, 2, There::Bits(0b10), &["null", "[4, 5, 6]"]),
];

#[test]
fn elements_stand_one_row_after_the_other(rt: HostRuntime) {
    let alloc = rt.alloc();
    for (size, len, there, texts) in &ROWS {
        let lists = sized(alloc, &[1, 2, 3, 4, 5, 6], *size, *len, *there);
        assert!(rt; has_rows(alloc, lists, texts), "{texts:?}");
    }
}

#[test]
fn there_may_be_no_elements(rt: HostRuntime) {
    let alloc = rt.alloc();
    let empty = sized(alloc, &[], 0, 5, There::Always);
    assert!(rt; has_rows(alloc, empty, &["[]", "[]", "[]", "[]", "[]"]));
    let none = sized(alloc, &[], 3, 0, There::Always);
    assert!(rt; has_rows(alloc, none, &[]));
    let all = fixed(alloc, pairs(alloc), 3, 1, There::Always);
    assert!(rt; has_rows(alloc, all, &["[[1, 2], [3, 4], [5, 6]]"]));
}

const UNFIT: Option<ArrayError> = Some(ArrayError::BadShape);

// How many elements there are, how many a row has, how many rows there are, and why such lists are refused, if they
// are.
const SIZES: [(usize, u32, usize, Option<ArrayError>); 9] = [
    (6, 3, 2, None),
    (7, 3, 2, UNFIT),
    (5, 3, 2, UNFIT),
    (0, 0, usize::MAX, None),
    (1, 0, 5, UNFIT),
    (0, u32::MAX, usize::MAX, UNFIT),
    (0, 2, 1 << 63, UNFIT),
    (usize::MAX, 1, usize::MAX, None),
    (usize::MAX, u32::MAX, (1 << 32) + 1, None),
];

#[test]
fn there_are_as_many_elements_as_all_lists_have(rt: HostRuntime) {
    let alloc = rt.alloc();
    for (elements, size, len, error) in &SIZES {
        let lists = fixed(alloc, nulls(alloc, *elements), *size, *len, There::Always);
        assert!(rt; lists.err() == *error, "{size} {len}");
    }
}

#[test]
fn a_validity_stands_where_rows_may_be_null(rt: HostRuntime) {
    let alloc = rt.alloc();
    let unasked = sized(alloc, &[1, 2, 3, 4], 2, 2, There::Unasked(3));
    assert!(rt; unasked.err() == UNFIT);
    assert!(rt; has_slots(alloc, pairs(alloc), &["elements", "validity"]));
}

#[test]
fn a_row_takes_its_elements_cells_and_one(rt: HostRuntime) {
    let alloc = rt.alloc();
    assert!(rt; takes(alloc, pairs(alloc), 3));
    let all = fixed(alloc, pairs(alloc), 3, 1, There::Always);
    assert!(rt; takes(alloc, all, 10));
    let many = nulls(alloc, usize::MAX);
    let large = fixed(alloc, many, u32::MAX, (1 << 32) + 1, There::Always);
    let refused = row_refusal(alloc, large, 10_000);
    assert!(rt; refused == Some(ArrayError::ValueTooLarge));
}
