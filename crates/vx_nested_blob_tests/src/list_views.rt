//! List views and maps in blobs, and their nodes.

use crate::steps::{has_metadata, unplanned};
use crate::wire::{Change, is_read_as, refusal};
use std::alloc::Global;
use vx_arrays::ListViewArray;
use vx_encodings::{Encoding, EncodingError};
use vx_serde::WireError;
use vx_test_arrays::parts::{
    AllMade, Made, There, both, bytes, extensions, fixed, lists, maps, nulls, numbers, structs,
    texts, two, views,
};
use vx_types::{Nullability, PType};

// Arrays of two rows.
#[derive(Clone, Copy)]
enum Views {
    // Lists of numbers.
    All,
    // The same, of which the first is null.
    Some,
    // The same with offsets and sizes of two bytes.
    Wide,
    // Lists of entries, of which the first is null.
    Entries,
    // Maps, of which the first is null.
    Maps,
    // Lists of maps.
    MapViews,
    // One list of no nulls, after as many as can be counted.
    NullViews,
    // Extensions that are stored as those entries.
    Stored,
    // Extensions that are stored as lists of entries that are split by offsets.
    StoredLists,
}

// Three numbers of four bytes.
fn elements(alloc: Global) -> Made {
    let bytes = b"\x01\0\0\0\x02\0\0\0\x03\0\0\0";
    numbers(alloc, PType::I32, bytes, There::Always)
}

// Two lists: the second and the third of these rows, and the first.
fn viewed(alloc: Global, elements: Made, there: There) -> Made {
    views(
        alloc,
        elements,
        bytes(alloc, &[1, 0]),
        bytes(alloc, &[2, 1]),
        there,
    )
}

// The same of numbers, with offsets and sizes of two bytes.
fn wide(alloc: Global) -> Made {
    let offsets = numbers(alloc, PType::I16, &[1, 0, 0, 0], There::Always);
    let sizes = numbers(alloc, PType::U16, &[2, 0, 1, 0], There::Always);
    views(alloc, elements(alloc), offsets, sizes, There::Always)
}

// Three keys.
fn keys(alloc: Global) -> Made {
    bytes(alloc, &[1, 2, 3])
}

// Three values, of which the second is null.
fn values(alloc: Global) -> Made {
    texts(alloc, b"abc", There::Bits(0b101))
}

// The keys and the values.
fn columns(alloc: Global) -> AllMade {
    two(alloc, keys(alloc), values(alloc))
}

// Three entries.
fn entries(alloc: Global) -> Made {
    structs(
        alloc,
        &["key", "value"],
        columns(alloc),
        columns(alloc),
        3,
        There::Always,
    )
}

// Two lists of entries, of which the first is null.
fn entry_views(alloc: Global) -> Made {
    viewed(alloc, entries(alloc), There::Bits(0b10))
}

// The same, split by offsets.
fn entry_lists(alloc: Global) -> Made {
    lists(
        alloc,
        entries(alloc),
        bytes(alloc, &[0, 1, 3]),
        There::Bits(0b10),
    )
}

// Two maps, of which the first is null.
pub(crate) fn mapped(alloc: Global) -> Made {
    maps(alloc, keys(alloc), values(alloc), entry_views(alloc))
}

// Two lists of maps.
fn map_views(alloc: Global) -> Made {
    let offsets = bytes(alloc, &[1, 0]);
    views(
        alloc,
        mapped(alloc),
        offsets,
        bytes(alloc, &[1, 2]),
        There::All,
    )
}

// One list of no nulls, after as many as can be counted.
fn null_views(alloc: Global) -> Made {
    let last = b"\xff\xff\xff\xff\xff\xff\xff\xff";
    let offsets = numbers(alloc, PType::U64, last, There::Always);
    let nulls = nulls(alloc, usize::MAX);
    views(alloc, nulls, offsets, bytes(alloc, &[0]), There::Always)
}

// An array.
fn made(alloc: Global, which: Views) -> Made {
    match which {
        Views::All => viewed(alloc, elements(alloc), There::Always),
        Views::Some => viewed(alloc, elements(alloc), There::Bits(0b10)),
        Views::Wide => wide(alloc),
        Views::Entries => entry_views(alloc),
        Views::Maps => mapped(alloc),
        Views::MapViews => map_views(alloc),
        Views::NullViews => null_views(alloc),
        Views::Stored => extensions(alloc, entry_views(alloc), entry_views(alloc)),
        Views::StoredLists => extensions(alloc, entry_lists(alloc), entry_lists(alloc)),
    }
}

const KEPT: [Views; 7] = [
    Views::All,
    Views::Some,
    Views::Wide,
    Views::Entries,
    Views::Maps,
    Views::MapViews,
    Views::NullViews,
];

#[test]
fn list_views_and_maps_are_read_again(rt: HostRuntime) {
    let alloc = rt.alloc();
    for (i, which) in KEPT.iter().enumerate() {
        let same = is_read_as(alloc, made(alloc, *which), made(alloc, *which));
        assert!(rt; same, "{i}");
    }
}

// The key 1.
fn one_key(alloc: Global) -> Made {
    numbers(alloc, PType::I32, &[1, 0, 0, 0], There::Always)
}

// The key 1 and the value a.
fn one_column(alloc: Global) -> AllMade {
    two(alloc, one_key(alloc), texts(alloc, b"a", There::Always))
}

// A list of one entry.
fn one_entry(alloc: Global) -> Made {
    let (types, columns) = (one_column(alloc), one_column(alloc));
    let entry = structs(alloc, &["key", "value"], types, columns, 1, There::Always);
    let offsets = bytes(alloc, &[0]);
    views(alloc, entry, offsets, bytes(alloc, &[1]), There::Always)
}

// A map from 1 to a.
fn one_map(alloc: Global) -> Made {
    let values = texts(alloc, b"a", There::Always);
    maps(alloc, one_key(alloc), values, one_entry(alloc))
}

#[test]
fn a_map_is_read_again(rt: HostRuntime) {
    let alloc = rt.alloc();
    assert!(rt; is_read_as(alloc, one_map(alloc), one_map(alloc)));
}

// The views of numbers, with this flag that they stand one after the other.
fn flagged(alloc: Global, flag: bool) -> Made {
    let parts = both(elements(alloc), bytes(alloc, &[1, 0]));
    let ((elements, offsets), sizes) = both(parts, bytes(alloc, &[2, 1]))?;
    let never = Nullability::NonNullable;
    ListViewArray::try_new(alloc, elements, offsets, sizes, never, None, flag)
}

#[test]
fn the_flag_is_not_written(rt: HostRuntime) {
    let alloc = rt.alloc();
    assert!(rt; is_read_as(alloc, flagged(alloc, true), flagged(alloc, false)));
    assert!(rt; !is_read_as(alloc, flagged(alloc, true), flagged(alloc, true)));
}

const BROKEN: Option<WireError> = Some(WireError::BadContent);

const UNFIT: Option<WireError> = Some(WireError::BadShape);

const NO_MESSAGE: Option<WireError> = Some(WireError::BadMetadata);

const WIDE: &[u8] = &[8, 3, 16, 5, 24, 1];

// An array, bytes of its blob, others in their place, and why it is not read then, if it is not.
const CHANGES: [(Views, &[u8], &[u8], Option<WireError>); 12] = [
    (Views::All, &[1, 0, 2, 1], &[3, 0, 1, 1], BROKEN),
    (Views::All, &[1, 0, 2, 1], &[1, 2, 2, 1], None),
    (Views::Some, &[1, 0, 2, 1], &[3, 0, 1, 1], None),
    (Views::Some, &[1, 0, 2, 1], &[1, 3, 2, 1], BROKEN),
    (
        Views::Wide,
        &[1, 0, 0, 0, 2, 0, 1, 0],
        &[1, 0, 0, 128, 2, 0, 1, 0],
        BROKEN,
    ),
    (Views::Wide, WIDE, &[8, 3, 16, 1, 24, 5], None),
    (Views::Wide, WIDE, &[8, 3, 16, 5, 24, 6], UNFIT),
    (Views::Wide, WIDE, &[8, 4, 16, 5, 24, 1], UNFIT),
    (Views::Wide, WIDE, &[8, 3, 16, 5, 24, 9], NO_MESSAGE),
    (Views::Wide, WIDE, &[8, 3, 16, 8, 24, 1], NO_MESSAGE),
    (Views::Wide, WIDE, &[8, 3, 16, 5, 26, 1], NO_MESSAGE),
    (Views::Maps, b"abc", b"a\xffc", None),
];

#[test]
fn views_and_their_metadata_are_judged(rt: HostRuntime) {
    let alloc = rt.alloc();
    for (which, old, new, error) in &CHANGES {
        let array = made(alloc, *which);
        let change = Change::Bytes(old, new);
        let refused = refusal(alloc, array, made(alloc, *which), 2, change);
        assert!(rt; refused == *error, "{new:?}");
    }
}

// The last offset and no elements, and the same offset and one element.
const LAST: &[u8] = b"\xff\xff\xff\xff\xff\xff\xff\xff\0";

const PAST: &[u8] = b"\xff\xff\xff\xff\xff\xff\xff\xff\x01";

#[test]
fn a_view_that_passes_all_numbers_is_refused(rt: HostRuntime) {
    let alloc = rt.alloc();
    let change = Change::Bytes(LAST, PAST);
    let refused = refusal(alloc, null_views(alloc), null_views(alloc), 1, change);
    assert!(rt; refused == BROKEN);
}

// Why entries in an extension are not read as those of maps, if they are not.
fn unmapped(alloc: Global, which: Views) -> Option<WireError> {
    let change = Change::Id("vortex.ext", "vortex.map");
    refusal(alloc, made(alloc, which), mapped(alloc), 2, change)
}

#[test]
fn entries_are_list_views(rt: HostRuntime) {
    assert!(rt; unmapped(rt.alloc(), Views::Stored) == None);
    assert!(rt; unmapped(rt.alloc(), Views::StoredLists) == UNFIT);
}

// Two lists of two lists of numbers.
fn twos(alloc: Global) -> Made {
    fixed(alloc, made(alloc, Views::All), 2, 1, There::Always)
}

// No lists.
fn empty(alloc: Global) -> Made {
    let offsets = bytes(alloc, &[]);
    views(
        alloc,
        bytes(alloc, &[]),
        offsets,
        bytes(alloc, &[]),
        There::All,
    )
}

#[test]
fn metadata_is_what_the_encoding_keeps(rt: HostRuntime) {
    let alloc = rt.alloc();
    assert!(rt; has_metadata(alloc, made(alloc, Views::All), &[8, 3]));
    assert!(rt; has_metadata(alloc, made(alloc, Views::Wide), WIDE));
    assert!(rt; has_metadata(alloc, made(alloc, Views::Maps), &[]));
    assert!(rt; has_metadata(alloc, empty(alloc), &[]));
    assert!(rt; is_read_as(alloc, twos(alloc), twos(alloc)));
}

// Arrays, and as how many rows they are of no shape.
const LENGTHS: [(Views, usize); 7] = [
    (Views::All, 1),
    (Views::All, 3),
    (Views::All, usize::MAX),
    (Views::Wide, usize::MAX),
    (Views::Maps, 3),
    (Views::Maps, usize::MAX),
    (Views::NullViews, usize::MAX),
];

#[test]
fn there_is_an_offset_and_a_size_for_each_row(rt: HostRuntime) {
    let alloc = rt.alloc();
    for (which, len) in &LENGTHS {
        let array = made(alloc, *which);
        let refused = refusal(alloc, array, made(alloc, *which), *len, Change::Nothing);
        assert!(rt; refused == UNFIT, "{len}");
    }
}

const NO_SHAPE: Option<EncodingError> = Some(EncodingError::BadShape);

const NO_BYTES: Option<EncodingError> = Some(EncodingError::BadMetadata);

// Types, metadata, how many children there are, and why such nodes of two list views are not planned, if they are not.
const VIEWED: [(Views, &[u8], usize, Option<EncodingError>); 8] = [
    (Views::Some, &[8, 3], 3, None),
    (Views::Some, &[8, 3], 4, None),
    (Views::Some, &[8, 3], 2, NO_SHAPE),
    (Views::Some, &[8, 3], 5, NO_SHAPE),
    (Views::Maps, &[8, 3], 3, NO_SHAPE),
    (Views::Some, &[16, 9], 3, NO_BYTES),
    (Views::Some, &[24, 10], 3, NO_BYTES),
    (Views::Some, &[24], 9, NO_BYTES),
];

#[test]
fn list_views_are_planned_by_their_metadata(rt: HostRuntime) {
    let alloc = rt.alloc();
    for (i, (kind, metadata, nchildren, error)) in VIEWED.iter().enumerate() {
        let kind = made(alloc, *kind);
        let refused = unplanned(alloc, Encoding::ListView, kind, 2, metadata, *nchildren);
        assert!(rt; refused == *error, "{i}");
    }
}

// How many maps there are, metadata, how many children there are, and why such nodes are not planned, if they are not.
const MAPPED: [(usize, &[u8], usize, Option<EncodingError>); 5] = [
    (2, &[], 1, None),
    (usize::MAX, &[], 1, None),
    (2, &[], 0, NO_SHAPE),
    (2, &[], 2, NO_SHAPE),
    (2, &[0], 1, NO_BYTES),
];

#[test]
fn maps_are_planned_without_metadata(rt: HostRuntime) {
    let alloc = rt.alloc();
    for (i, (len, metadata, nchildren, error)) in MAPPED.iter().enumerate() {
        let kind = mapped(alloc);
        let refused = unplanned(alloc, Encoding::Map, kind, *len, metadata, *nchildren);
        assert!(rt; refused == *error, "{i}");
    }
}
