//! Nested arrays in blobs: written and read again at their own type and length, or refused at others.

use crate::arrays::{Nested, made};
use crate::wire::{Change, is_read_as, refusal};
use std::alloc::Global;
use vx_serde::WireError;

const KEPT: [Nested; 20] = [
    Nested::Pairs,
    Nested::SomePairs,
    Nested::Empty,
    Nested::OneField,
    Nested::Lists,
    Nested::ListsOrNull,
    Nested::SomeLists,
    Nested::PairLists,
    Nested::ListLists,
    Nested::NullList,
    Nested::Threes,
    Nested::SomeThrees,
    Nested::NoBytes,
    Nested::NullLists,
    Nested::Extended,
    Nested::ExtendedTwice,
    Nested::Unions,
    Nested::SomeUnions,
    Nested::Crossed,
    Nested::All,
];

#[test]
fn nested_arrays_are_read_again(rt: HostRuntime) {
    let alloc = rt.alloc();
    for (i, which) in KEPT.iter().enumerate() {
        let same = is_read_as(alloc, made(alloc, *which), made(alloc, *which));
        assert!(rt; same, "{i}");
    }
}

// The refusal of reading an array at the type of another and a length, if it is refused.
fn refused(alloc: Global, which: Nested, kind: Nested, len: usize) -> Option<WireError> {
    let array = made(alloc, which);
    refusal(alloc, array, made(alloc, kind), len, Change::Nothing)
}

// Arrays, the type that they are read at, and the number of rows, which together are refused for their shape.
const UNFIT: [(Nested, Nested, usize); 30] = [
    (Nested::Lists, Nested::Lists, 2),
    (Nested::Lists, Nested::Lists, 4),
    (Nested::Lists, Nested::Lists, usize::MAX),
    (Nested::Lists, Nested::PairLists, 3),
    (Nested::Lists, Nested::Threes, 3),
    (Nested::SomeLists, Nested::Lists, 3),
    (Nested::NullList, Nested::NullList, usize::MAX),
    (Nested::Threes, Nested::Threes, 3),
    (Nested::Threes, Nested::Threes, usize::MAX),
    (Nested::Seven, Nested::Threes, 2),
    (Nested::NullLists, Nested::NullLists, (1 << 32) + 2),
    (Nested::SomeThrees, Nested::Threes, 2),
    (Nested::Threes, Nested::Lists, 2),
    (Nested::Pairs, Nested::Pairs, 2),
    (Nested::Pairs, Nested::Pairs, usize::MAX),
    (Nested::Pairs, Nested::OneField, 3),
    (Nested::OneField, Nested::Pairs, 3),
    (Nested::Empty, Nested::OneField, 3),
    (Nested::SomePairs, Nested::OneFieldOrNull, 3),
    (Nested::OneFieldOrNull, Nested::SomePairs, 3),
    (Nested::SomePairs, Nested::Pairs, 3),
    (Nested::Pairs, Nested::Unions, 3),
    (Nested::Extended, Nested::Threes, 2),
    (Nested::Extended, Nested::ExtendedOrNull, 3),
    (Nested::Extended, Nested::Stored, 2),
    (Nested::Extended, Nested::Extended, usize::MAX),
    (Nested::Unions, Nested::Unions, 2),
    (Nested::Unions, Nested::Unions, usize::MAX),
    (Nested::Unions, Nested::Pairs, 3),
    (Nested::SomeUnions, Nested::Unions, 3),
];

#[test]
fn nested_arrays_are_of_their_type_and_length(rt: HostRuntime) {
    let alloc = rt.alloc();
    for (i, (which, kind, len)) in UNFIT.iter().enumerate() {
        let refused = refused(alloc, *which, *kind, *len);
        assert!(rt; refused == Some(WireError::BadShape), "{i}");
    }
}

// Arrays, types that only let more rows be null or give their tags to other members, and the number of rows that are
// read.
const FIT: [(Nested, Nested, usize); 7] = [
    (Nested::Threes, Nested::SomeThrees, 2),
    (Nested::Pairs, Nested::SomePairs, 3),
    (Nested::NoBytes, Nested::NoBytes, usize::MAX),
    (Nested::Empty, Nested::Empty, usize::MAX),
    (Nested::Extended, Nested::ExtendedOrNull, 2),
    (Nested::Lists, Nested::ListsOrNull, 3),
    (Nested::Unions, Nested::Crossed, 3),
];

#[test]
fn arrays_are_read_at_types_that_fit(rt: HostRuntime) {
    let alloc = rt.alloc();
    for (i, (which, kind, len)) in FIT.iter().enumerate() {
        assert!(rt; refused(alloc, *which, *kind, *len) == None, "{i}");
    }
}
