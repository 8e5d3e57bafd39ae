//! Nodes of nested arrays: which are planned, and the metadata that is written.

use crate::arrays::{Nested, made};
use crate::steps::{has_metadata, unplanned};
use vx_encodings::{Encoding, EncodingError};
use vx_test_arrays::parts::{There, bytes, lists};

// Arrays, and their metadata.
const METADATA: [(Nested, &[u8]); 6] = [
    (Nested::Lists, &[8, 3, 16, 6]),
    (Nested::ListLists, &[8, 3]),
    (Nested::Threes, &[]),
    (Nested::Pairs, &[]),
    (Nested::Extended, &[]),
    (Nested::Unions, &[]),
];

#[test]
fn metadata_is_what_the_encoding_keeps(rt: HostRuntime) {
    let alloc = rt.alloc();
    for (i, (which, bytes)) in METADATA.iter().enumerate() {
        assert!(rt; has_metadata(alloc, made(alloc, *which), bytes), "{i}");
    }
    let none = lists(
        alloc,
        bytes(alloc, &[]),
        bytes(alloc, &[0, 0]),
        There::Always,
    );
    assert!(rt; has_metadata(alloc, none, &[]));
    let many = lists(
        alloc,
        bytes(alloc, &[0; 130]),
        bytes(alloc, &[0]),
        There::Always,
    );
    assert!(rt; has_metadata(alloc, many, &[8, 130, 1]));
}

const UNFIT: Option<EncodingError> = Some(EncodingError::BadShape);

const NO_MESSAGE: Option<EncodingError> = Some(EncodingError::BadMetadata);

// Types of arrays, how many lists there are, metadata, how many children there are, and why lists are not planned, if they are
// not.
const LISTS: [(Nested, usize, &[u8], usize, Option<EncodingError>); 10] = [
    (Nested::ListsOrNull, 3, &[8, 3, 16, 6], 2, None),
    (Nested::ListsOrNull, 3, &[8, 3, 16, 6], 3, None),
    (Nested::ListsOrNull, 3, &[], 2, None),
    (Nested::ListsOrNull, 3, &[8, 3, 16, 6], 1, UNFIT),
    (Nested::ListsOrNull, 3, &[8, 3, 16, 6], 4, UNFIT),
    (Nested::ListsOrNull, usize::MAX, &[8, 3, 16, 6], 2, UNFIT),
    (Nested::Threes, 3, &[8, 3, 16, 6], 2, UNFIT),
    (Nested::ListsOrNull, 3, &[8, 3, 16, 9], 2, NO_MESSAGE),
    (Nested::ListsOrNull, 3, &[8, 3, 16], 2, NO_MESSAGE),
    (Nested::ListsOrNull, usize::MAX, &[16, 10], 9, NO_MESSAGE),
];

#[test]
fn lists_are_planned_by_their_metadata(rt: HostRuntime) {
    let alloc = rt.alloc();
    for (i, (kind, len, metadata, nchildren, error)) in LISTS.iter().enumerate() {
        let kind = made(alloc, *kind);
        let refused = unplanned(alloc, Encoding::List, kind, *len, metadata, *nchildren);
        assert!(rt; refused == *error, "{i}");
    }
}

// Encodings, types of arrays, how many children there are, and why nodes of seven rows without metadata are not planned, if
// they are not.
const PLANS: [(Encoding, Nested, usize, Option<EncodingError>); 20] = [
    (Encoding::FixedSizeList, Nested::SomeThrees, 1, None),
    (Encoding::FixedSizeList, Nested::SomeThrees, 2, None),
    (Encoding::FixedSizeList, Nested::SomeThrees, 0, UNFIT),
    (Encoding::FixedSizeList, Nested::SomeThrees, 3, UNFIT),
    (Encoding::FixedSizeList, Nested::Lists, 1, UNFIT),
    (Encoding::Struct, Nested::Empty, 0, None),
    (Encoding::Struct, Nested::SomePairs, 2, None),
    (Encoding::Struct, Nested::SomePairs, 3, None),
    (Encoding::Struct, Nested::SomePairs, 1, UNFIT),
    (Encoding::Struct, Nested::SomePairs, 0, UNFIT),
    (Encoding::Struct, Nested::SomePairs, 4, UNFIT),
    (Encoding::Struct, Nested::OneField, 0, UNFIT),
    (Encoding::Struct, Nested::Unions, 2, UNFIT),
    (Encoding::Extension, Nested::Stored, 1, None),
    (Encoding::Extension, Nested::Stored, 0, UNFIT),
    (Encoding::Extension, Nested::Stored, 2, UNFIT),
    (Encoding::Union, Nested::Unions, 3, None),
    (Encoding::Union, Nested::Unions, 2, UNFIT),
    (Encoding::Union, Nested::Unions, 4, UNFIT),
    (Encoding::Union, Nested::Pairs, 3, UNFIT),
];

#[test]
fn plans_have_the_children_of_the_encoding(rt: HostRuntime) {
    let alloc = rt.alloc();
    for (i, (encoding, kind, nchildren, error)) in PLANS.iter().enumerate() {
        let kind = made(alloc, *kind);
        let refused = unplanned(alloc, *encoding, kind, 7, &[], *nchildren);
        assert!(rt; refused == *error, "{i}");
    }
}

// Encodings, types of arrays, and how many children there are.
const WITHOUT: [(Encoding, Nested, usize); 4] = [
    (Encoding::FixedSizeList, Nested::Threes, 1),
    (Encoding::Struct, Nested::Pairs, 2),
    (Encoding::Extension, Nested::Stored, 1),
    (Encoding::Union, Nested::Unions, 3),
];

#[test]
fn there_is_no_metadata_but_that_of_lists(rt: HostRuntime) {
    let alloc = rt.alloc();
    for (i, (encoding, kind, nchildren)) in WITHOUT.iter().enumerate() {
        let kind = made(alloc, *kind);
        let refused = unplanned(alloc, *encoding, kind, 2, &[0], *nchildren);
        assert!(rt; refused == NO_MESSAGE, "{i}");
    }
}
