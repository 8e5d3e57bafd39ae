//! Blobs of nested arrays whose content or metadata is broken.

use crate::arrays::{Nested, made};
use crate::wire::{Change, refusal};
use std::alloc::Global;
use vx_serde::WireError;
use vx_test_arrays::parts::{AllMade, Made, There, and, flags, lists, numbers, texts, two, unions};
use vx_types::PType;

// The offsets 0, 2, 2 and 3 of four bytes.
const ENDS: [u8; 16] = [0, 0, 0, 0, 2, 0, 0, 0, 2, 0, 0, 0, 3, 0, 0, 0];

// Three lists of numbers of two bytes.
fn listed(alloc: Global, there: There) -> Made {
    let words = numbers(alloc, PType::U16, &[4, 1, 5, 1, 6, 1], There::Always);
    let offsets = numbers(alloc, PType::I32, &ENDS, There::Always);
    lists(alloc, words, offsets, there)
}

// Why the lists are not read with other bytes in place of some, if they are not.
fn unlisted(alloc: Global, there: There, old: &[u8], new: &[u8]) -> Option<WireError> {
    let lists = listed(alloc, there);
    refusal(
        alloc,
        lists,
        listed(alloc, there),
        3,
        Change::Bytes(old, new),
    )
}

const BROKEN: Option<WireError> = Some(WireError::BadContent);

const UNFIT: Option<WireError> = Some(WireError::BadShape);

const NO_MESSAGE: Option<WireError> = Some(WireError::BadMetadata);

// Offsets in place of those, and why the lists are not read then, if they are not.
const OFFSETS: [([u8; 16], Option<WireError>); 6] = [
    ([0, 0, 0, 0, 2, 0, 0, 0, 1, 0, 0, 0, 3, 0, 0, 0], BROKEN),
    (
        [255, 255, 255, 255, 2, 0, 0, 0, 2, 0, 0, 0, 3, 0, 0, 0],
        BROKEN,
    ),
    ([0, 0, 0, 0, 2, 0, 0, 0, 2, 0, 0, 0, 4, 0, 0, 0], BROKEN),
    ([0, 0, 0, 0, 2, 0, 0, 0, 2, 0, 0, 0, 3, 0, 0, 128], BROKEN),
    ([1, 0, 0, 0, 1, 0, 0, 0, 2, 0, 0, 0, 2, 0, 0, 0], None),
    ([3, 0, 0, 0, 3, 0, 0, 0, 3, 0, 0, 0, 3, 0, 0, 0], None),
];

#[test]
fn offsets_are_judged(rt: HostRuntime) {
    let alloc = rt.alloc();
    for (new, error) in &OFFSETS {
        let refused = unlisted(alloc, There::Always, &ENDS, new);
        assert!(rt; refused == *error, "{new:?}");
        let null = unlisted(alloc, There::Bits(0), &ENDS, new);
        assert!(rt; null == *error, "{new:?}");
    }
}

// Metadata in place of that of the lists, and why these are not read then.
const METADATA: [([u8; 4], Option<WireError>); 9] = [
    ([8, 3, 16, 2], None),
    ([8, 3, 16, 5], UNFIT),
    ([8, 3, 16, 7], UNFIT),
    ([8, 4, 16, 6], UNFIT),
    ([8, 3, 16, 8], NO_MESSAGE),
    ([8, 3, 16, 9], NO_MESSAGE),
    ([8, 3, 16, 11], NO_MESSAGE),
    ([10, 3, 16, 6], NO_MESSAGE),
    ([24, 3, 16, 6], UNFIT),
];

#[test]
fn metadata_is_judged(rt: HostRuntime) {
    let alloc = rt.alloc();
    for (new, error) in &METADATA {
        let refused = unlisted(alloc, There::Always, &[8, 3, 16, 6], new);
        assert!(rt; refused == *error, "{new:?}");
    }
}

// Three numbers, three texts and three flags.
fn members(alloc: Global) -> AllMade {
    let counts = b"\x01\0\0\0\x02\0\0\0\x03\0\0\0";
    let counts = numbers(alloc, PType::I32, counts, There::Always);
    let two = two(alloc, counts, texts(alloc, b"xyz", There::Always));
    and(two, flags(alloc, 0b100, 3))
}

// Unions of those, of which the second is null.
fn united(alloc: Global) -> Made {
    let tags = numbers(alloc, PType::U8, &[0, 5, 255], There::Bits(0b101));
    unions(alloc, &[0, 5, 255], members(alloc), tags, members(alloc))
}

// Bytes of the unions' blob, others in their place, and why the unions are not read then, if they are not.
const UNIONS: [(&[u8], &[u8], Option<WireError>); 5] = [
    (&[0, 5, 255], &[0, 5, 7], BROKEN),
    (&[0, 5, 255], &[1, 5, 255], BROKEN),
    (&[0, 5, 255], &[255, 7, 0], None),
    (b"xyz", b"x\xffz", BROKEN),
    (b"xyz", b"zyx", None),
];

#[test]
fn tags_and_members_are_judged(rt: HostRuntime) {
    let alloc = rt.alloc();
    for (old, new, error) in &UNIONS {
        let change = Change::Bytes(old, new);
        let refused = refusal(alloc, united(alloc), united(alloc), 3, change);
        assert!(rt; refused == *error, "{new:?}");
    }
}

// Arrays of three rows, the name of an encoding, another in its place, the type of an array, and why they are not read at it
// then.
const NAMES: [(Nested, &str, &str, Nested, Option<WireError>); 5] = [
    (
        Nested::Stored,
        "vortex.ext",
        "vortex.struct",
        Nested::OneField,
        None,
    ),
    (
        Nested::OneField,
        "vortex.struct",
        "vortex.ext",
        Nested::Stored,
        None,
    ),
    (
        Nested::Stored,
        "vortex.ext",
        "vortex.struct",
        Nested::Pairs,
        UNFIT,
    ),
    (
        Nested::Pairs,
        "vortex.struct",
        "vortex.union",
        Nested::Pairs,
        UNFIT,
    ),
    (
        Nested::Pairs,
        "vortex.varbin",
        "vortex.of_later",
        Nested::Pairs,
        Some(WireError::UnknownEncoding),
    ),
];

#[test]
fn nodes_are_read_by_their_encodings(rt: HostRuntime) {
    let alloc = rt.alloc();
    for (which, old, new, kind, error) in &NAMES {
        let array = made(alloc, *which);
        let refused = refusal(alloc, array, made(alloc, *kind), 3, Change::Id(old, new));
        assert!(rt; refused == *error, "{old} {new}");
    }
}
