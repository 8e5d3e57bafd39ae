//! Tests of lists with an offset and a size of their own.

use std::alloc::Global;
use vx_arrays::{Array, ArrayError, ListViewArray};
use vx_test_arrays::parts::{AllMade, Made, There, and, both, bytes, nulls, numbers, two, views};
use vx_test_arrays::rows::{begins_with, has_rows, has_slots, row_refusal, takes};
use vx_types::{DType, Nullability, PType, TypeRef};

// Three numbers.
fn elements(alloc: Global) -> Made {
    bytes(alloc, &[1, 2, 3])
}

// Views of those, with offsets and sizes of a byte.
fn viewed(alloc: Global, offsets: &[u8], sizes: &[u8], there: There) -> Made {
    let offsets = bytes(alloc, offsets);
    views(alloc, elements(alloc), offsets, bytes(alloc, sizes), there)
}

// Offsets and sizes, which rows are valid, and the lists.
const ROWS: [(&[u8], &[u8], There, &[&str]); 5] = [
    (&[1, 0], &[2, 1], There::Always, &["[2, 3]", "[1]"]),
    (&[1, 0], &[2, 1], There::All, &["[2, 3]", "[1]"]),
    (&[1, 0], &[2, 1], There::Bits(0b10), &["null", "[1]"]),
    (
        &[0, 1, 3],
        &[3, 2, 0],
        There::Always,
        &["[1, 2, 3]", "[2, 3]", "[]"],
    ),
    (&[], &[], There::Always, &[]),
];

#[test]
fn elements_stand_from_an_offset_on(rt: HostRuntime) {
    let alloc = rt.alloc();
    for (offsets, sizes, there, texts) in &ROWS {
        let views = viewed(alloc, offsets, sizes, *there);
        assert!(rt; has_rows(alloc, views, texts), "{offsets:?} {sizes:?}");
    }
}

// Views of the numbers above: the second and the third, and the first.
fn pair(alloc: Global) -> Made {
    viewed(alloc, &[1, 0], &[2, 1], There::Always)
}

// The greatest number of eight bytes.
fn greatest(alloc: Global) -> Made {
    let last = b"\xff\xff\xff\xff\xff\xff\xff\xff";
    numbers(alloc, PType::U64, last, There::Always)
}

#[test]
fn elements_are_of_any_type(rt: HostRuntime) {
    let alloc = rt.alloc();
    let one = bytes(alloc, &[1]);
    let outer = views(alloc, pair(alloc), one, bytes(alloc, &[1]), There::Always);
    assert!(rt; has_rows(alloc, outer, &["[[1]]"]));
    let many = nulls(alloc, usize::MAX);
    let last = views(
        alloc,
        many,
        greatest(alloc),
        bytes(alloc, &[0]),
        There::Always,
    );
    assert!(rt; has_rows(alloc, last, &["[]"]));
}

const BROKEN: Option<ArrayError> = Some(ArrayError::BadContent);

const UNFIT: Option<ArrayError> = Some(ArrayError::BadShape);

// A view with an offset and a size of these kinds, which is valid where the bit is set.
fn one_view(alloc: Global, offset: (PType, &[u8]), size: (PType, &[u8]), bits: u8) -> Made {
    let offsets = numbers(alloc, offset.0, offset.1, There::Always);
    let sizes = numbers(alloc, size.0, size.1, There::Always);
    views(alloc, elements(alloc), offsets, sizes, There::Bits(bits))
}

const LAST: &[u8] = b"\xff\xff\xff\xff\xff\xff\xff\xff";

// The offset and the size of a view that is refused where its row is valid.
const BAD_VIEWS: [((PType, &[u8]), (PType, &[u8])); 6] = [
    ((PType::U8, &[3]), (PType::U8, &[1])),
    ((PType::U8, &[4]), (PType::U8, &[0])),
    ((PType::I8, &[255]), (PType::U8, &[1])),
    ((PType::U8, &[1]), (PType::I8, &[255])),
    ((PType::U64, LAST), (PType::U8, &[1])),
    ((PType::U64, LAST), (PType::U64, LAST)),
];

#[test]
fn views_are_judged_where_rows_are_there(rt: HostRuntime) {
    let alloc = rt.alloc();
    for (offset, size) in &BAD_VIEWS {
        let there = one_view(alloc, *offset, *size, 1).err();
        assert!(rt; there == BROKEN, "{offset:?} {size:?}");
        let null = one_view(alloc, *offset, *size, 0);
        assert!(rt; has_rows(alloc, null, &["null"]), "{offset:?} {size:?}");
    }
}

// Offsets and sizes of which no views are made.
const MISFITS: [(&[u8], &[u8], There); 3] = [
    (&[1, 0], &[1], There::Always),
    (&[1], &[2, 1], There::Always),
    (&[1, 0], &[2, 1], There::Unasked(3)),
];

#[test]
fn there_is_an_offset_and_a_size_for_each_row(rt: HostRuntime) {
    let alloc = rt.alloc();
    for (offsets, sizes, there) in &MISFITS {
        let refused = viewed(alloc, offsets, sizes, *there).err();
        assert!(rt; refused == UNFIT, "{offsets:?} {sizes:?}");
    }
}

#[test]
fn both_are_integers_that_are_never_null(rt: HostRuntime) {
    let alloc = rt.alloc();
    let floats = numbers(alloc, PType::F16, &[0, 0], There::Always);
    let floating = views(
        alloc,
        elements(alloc),
        bytes(alloc, &[0]),
        floats,
        There::Always,
    );
    assert!(rt; floating.err() == UNFIT);
    let some = numbers(alloc, PType::U8, &[0], There::All);
    let nullable = views(
        alloc,
        elements(alloc),
        some,
        bytes(alloc, &[0]),
        There::Always,
    );
    assert!(rt; nullable.err() == UNFIT);
}

#[test]
fn a_row_takes_its_elements_cells_and_one(rt: HostRuntime) {
    let alloc = rt.alloc();
    assert!(rt; takes(alloc, pair(alloc), 3));
    let slots = ["elements", "offsets", "sizes", "validity"];
    assert!(rt; has_slots(alloc, pair(alloc), &slots));
}

// 64 numbers of this byte.
fn repeated(alloc: Global, byte: u8) -> Made {
    bytes(alloc, &[byte; 64])
}

// 64 lists, each of all the rows of the level below.
fn above(alloc: Global, level: Made) -> Made {
    let (offsets, sizes) = (repeated(alloc, 0), repeated(alloc, 64));
    views(alloc, level, offsets, sizes, There::Always)
}

// `count` such levels.
fn levels(alloc: Global, count: usize) -> Made {
    let mut level = repeated(alloc, 64);
    for _ in 0..count {
        level = above(alloc, level);
    }
    level
}

#[test]
fn a_row_of_too_many_cells_is_refused_at_once(rt: HostRuntime) {
    let alloc = rt.alloc();
    assert!(rt; takes(alloc, levels(alloc, 2), 1 + 64 * 65));
    let refused = row_refusal(alloc, levels(alloc, 12), 10_000);
    assert!(rt; refused == Some(ArrayError::ValueTooLarge));
}

// The type of lists of bytes.
fn list_type(alloc: Global) -> Result<DType, ArrayError> {
    let element = DType::Primitive(PType::U8, Nullability::NonNullable);
    match TypeRef::new(alloc, element) {
        Ok(element) => Ok(DType::List(element, Nullability::NonNullable)),
        Err(_) => Err(ArrayError::OutOfMemory),
    }
}

// A node of `len` views over these children, with this flag.
fn node_over(alloc: Global, len: usize, flag: bool, children: AllMade) -> Made {
    let (dtype, children) = both(list_type(alloc), children)?;
    ListViewArray::of_children(dtype, len, flag, children)
}

// The elements and the offsets of the views above.
fn halves(alloc: Global) -> AllMade {
    two(alloc, elements(alloc), bytes(alloc, &[1, 0]))
}

// A node of the views above, with this flag.
fn flagged(alloc: Global, flag: bool) -> Made {
    let children = and(halves(alloc), bytes(alloc, &[2, 1]));
    node_over(alloc, 2, flag, children)
}

// Whether the first of two arrays has the rows of the views above, and whether the two are equal.
fn are_views_of(alloc: Global, first: &Array, second: &Array) -> (bool, bool) {
    let rows = begins_with(alloc, first, &["[2, 3]", "[1]"]);
    (rows, first.array_eq(second))
}

// The same, if both were made.
fn are_views(alloc: Global, first: Made, second: Made) -> Option<(bool, bool)> {
    match both(first, second) {
        Ok((first, second)) => {
            let told = are_views_of(alloc, &first, &second);
            drop(second);
            drop(first);
            Some(told)
        }
        Err(_) => None,
    }
}

#[test]
fn the_flag_is_kept_as_it_is_told(rt: HostRuntime) {
    let alloc = rt.alloc();
    let told = are_views(alloc, flagged(alloc, true), flagged(alloc, false));
    assert!(rt; told == Some((true, false)));
}

// The array of the views above of its parts, with this flag.
fn of_parts(alloc: Global, flag: bool) -> Made {
    let parts = both(elements(alloc), bytes(alloc, &[1, 0]));
    let ((elements, offsets), sizes) = both(parts, bytes(alloc, &[2, 1]))?;
    let never = Nullability::NonNullable;
    ListViewArray::try_new(alloc, elements, offsets, sizes, never, None, flag)
}

#[test]
fn parts_make_the_node_over_them(rt: HostRuntime) {
    let alloc = rt.alloc();
    for flag in [true, false] {
        let told = are_views(alloc, of_parts(alloc, flag), flagged(alloc, flag));
        assert!(rt; told == Some((true, true)), "{flag}");
    }
}

#[test]
fn there_are_as_many_as_rows(rt: HostRuntime) {
    let alloc = rt.alloc();
    for len in [1, 2, usize::MAX] {
        assert!(rt;
            node_over(alloc, len, false, halves(alloc)).err() == UNFIT,
            "{len}"
        );
    }
}
