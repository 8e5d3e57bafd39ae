//! Dictionaries in blobs, and their nodes.

use crate::steps::{has_metadata, unplanned, unwritten};
use crate::wire::{Change, is_read_as, refusal};
use std::alloc::Global;
use vx_encodings::{Encoding, EncodingError};
use vx_serde::WireError;
use vx_test_arrays::parts::{Made, There, bytes, dicts, extensions, fixed, nulls, numbers, texts};
use vx_types::PType;

// Dictionaries of four rows over the texts x, y and z.
#[derive(Clone, Copy)]
enum Letters {
    // By the codes 0, 2, null and 1.
    Some,
    // The same over values of a type that lets them be null.
    SomeOrNull,
    // The same over values of which the last is null.
    SomeOfSome,
    // By the codes 0, 2, 0 and 1, which are never null.
    All,
    // The same by codes of two bytes.
    Wide,
    // The first over extensions that are stored as such texts.
    Extended,
    // The same over texts of a type that lets them be null.
    ExtendedOrNull,
    // By those codes over the first of these.
    Twice,
    // The same over the second.
    TwiceOrNull,
    // By codes that are a dictionary: those of the first, the last first.
    Turned,
    // The same over values of a type that lets them be null.
    TurnedOrNull,
}

// The codes 0, 2, null and 1.
fn some_codes(alloc: Global) -> Made {
    numbers(alloc, PType::U8, &[0, 2, 0, 1], There::Bits(0b1011))
}

// The codes 0, 2, 0 and 1.
fn codes(alloc: Global) -> Made {
    bytes(alloc, &[0, 2, 0, 1])
}

// The same codes, of two bytes each.
fn wide_codes(alloc: Global) -> Made {
    numbers(alloc, PType::I16, &[0, 0, 2, 0, 0, 0, 1, 0], There::Always)
}

// Three texts.
fn values(alloc: Global, there: There) -> Made {
    texts(alloc, b"xyz", there)
}

// The texts of the codes of which one is null.
fn some(alloc: Global, there: There) -> Made {
    dicts(alloc, some_codes(alloc), values(alloc, there))
}

// The extensions of those codes.
fn extended(alloc: Global, there: There) -> Made {
    let values = extensions(alloc, values(alloc, there), values(alloc, there));
    dicts(alloc, some_codes(alloc), values)
}

// The texts of the codes of which one is null, the last first.
fn turned(alloc: Global, there: There) -> Made {
    let codes = dicts(alloc, bytes(alloc, &[3, 2, 1, 0]), some_codes(alloc));
    dicts(alloc, codes, values(alloc, there))
}

// A dictionary.
fn made(alloc: Global, which: Letters) -> Made {
    match which {
        Letters::Some => some(alloc, There::Always),
        Letters::SomeOrNull => some(alloc, There::All),
        Letters::SomeOfSome => some(alloc, There::Bits(0b011)),
        Letters::All => dicts(alloc, codes(alloc), values(alloc, There::Always)),
        Letters::Wide => dicts(alloc, wide_codes(alloc), values(alloc, There::Always)),
        Letters::Extended => extended(alloc, There::Always),
        Letters::ExtendedOrNull => extended(alloc, There::All),
        Letters::Twice => dicts(alloc, codes(alloc), some(alloc, There::Always)),
        Letters::TwiceOrNull => dicts(alloc, codes(alloc), some(alloc, There::All)),
        Letters::Turned => turned(alloc, There::Always),
        Letters::TurnedOrNull => turned(alloc, There::All),
    }
}

// Dictionaries, and as which they are read again.
const READ: [(Letters, Letters); 9] = [
    (Letters::Some, Letters::SomeOrNull),
    (Letters::SomeOrNull, Letters::SomeOrNull),
    (Letters::SomeOfSome, Letters::SomeOfSome),
    (Letters::All, Letters::All),
    (Letters::Wide, Letters::Wide),
    (Letters::Extended, Letters::ExtendedOrNull),
    (Letters::Twice, Letters::TwiceOrNull),
    (Letters::TwiceOrNull, Letters::TwiceOrNull),
    (Letters::Turned, Letters::TurnedOrNull),
];

#[test]
fn values_are_nullable_as_the_rows_are(rt: HostRuntime) {
    let alloc = rt.alloc();
    for (i, (which, other)) in READ.iter().enumerate() {
        let same = is_read_as(alloc, made(alloc, *which), made(alloc, *other));
        assert!(rt; same, "{i}");
    }
}

// Two lists, the second first.
fn pairs(alloc: Global) -> Made {
    let lists = fixed(alloc, bytes(alloc, &[1, 2, 3, 4]), 2, 2, There::Always);
    dicts(alloc, bytes(alloc, &[1, 0]), lists)
}

// Extensions that are stored as a dictionary.
fn stored(alloc: Global, storage: Letters) -> Made {
    extensions(alloc, made(alloc, Letters::Some), made(alloc, storage))
}

#[test]
fn dictionaries_stand_beside_others(rt: HostRuntime) {
    let alloc = rt.alloc();
    assert!(rt; is_read_as(alloc, pairs(alloc), pairs(alloc)));
    let read = stored(alloc, Letters::SomeOrNull);
    assert!(rt; is_read_as(alloc, stored(alloc, Letters::Some), read));
}

// Two texts by codes of a kind.
fn named(alloc: Global, kind: PType, codes: &[u8], there: There) -> Made {
    let codes = numbers(alloc, kind, codes, there);
    dicts(alloc, codes, values(alloc, There::Always))
}

// Kinds of integers, the codes 2 and 0 of each, two codes of which the first is past the values, and the metadata.
const KINDS: [(PType, &[u8], &[u8], &[u8]); 8] = [
    (PType::U8, b"\x02\0", b"\x03\0", &[8, 3, 24, 0, 32, 0]),
    (
        PType::I8,
        b"\x02\0",
        b"\xff\0",
        &[8, 3, 16, 4, 24, 0, 32, 0],
    ),
    (
        PType::U16,
        b"\x02\0\0\0",
        b"\x03\0\0\0",
        &[8, 3, 16, 1, 24, 0, 32, 0],
    ),
    (
        PType::I16,
        b"\x02\0\0\0",
        b"\0\x80\0\0",
        &[8, 3, 16, 5, 24, 0, 32, 0],
    ),
    (
        PType::U32,
        b"\x02\0\0\0\0\0\0\0",
        b"\0\0\0\x01\0\0\0\0",
        &[8, 3, 16, 2, 24, 0, 32, 0],
    ),
    (
        PType::I32,
        b"\x02\0\0\0\0\0\0\0",
        b"\xff\xff\xff\xff\0\0\0\0",
        &[8, 3, 16, 6, 24, 0, 32, 0],
    ),
    (
        PType::U64,
        b"\x02\0\0\0\0\0\0\0\0\0\0\0\0\0\0\0",
        b"\0\0\0\0\x01\0\0\0\0\0\0\0\0\0\0\0",
        &[8, 3, 16, 3, 24, 0, 32, 0],
    ),
    (
        PType::I64,
        b"\x02\0\0\0\0\0\0\0\0\0\0\0\0\0\0\0",
        b"\0\0\0\0\0\0\0\x80\0\0\0\0\0\0\0\0",
        &[8, 3, 16, 7, 24, 0, 32, 0],
    ),
];

#[test]
fn codes_are_of_each_kind_of_integers(rt: HostRuntime) {
    let alloc = rt.alloc();
    for (kind, codes, _, metadata) in &KINDS {
        let twice = named(alloc, *kind, codes, There::Always);
        let same = is_read_as(alloc, named(alloc, *kind, codes, There::Always), twice);
        assert!(rt; same, "{kind:?}");
        let named = named(alloc, *kind, codes, There::Always);
        assert!(rt; has_metadata(alloc, named, metadata), "{kind:?}");
    }
}

// The refusal of a dictionary of two codes of a kind with others in their place, if it is refused.
fn unnamed(alloc: Global, kind: PType, old: &[u8], new: &[u8], there: There) -> Option<WireError> {
    let array = named(alloc, kind, old, there);
    let again = named(alloc, kind, old, there);
    refusal(alloc, array, again, 2, Change::Bytes(old, new))
}

#[test]
fn codes_are_judged_where_rows_are_there(rt: HostRuntime) {
    let alloc = rt.alloc();
    for (kind, codes, others, _) in &KINDS {
        let always = unnamed(alloc, *kind, codes, others, There::Always);
        assert!(rt; always == BROKEN, "{kind:?}");
        let there = unnamed(alloc, *kind, codes, others, There::Bits(0b01));
        assert!(rt; there == BROKEN, "{kind:?}");
        let null = unnamed(alloc, *kind, codes, others, There::Bits(0b10));
        assert!(rt; null == None, "{kind:?}");
    }
}

const BROKEN: Option<WireError> = Some(WireError::BadContent);

const UNFIT: Option<WireError> = Some(WireError::BadShape);

const NO_MESSAGE: Option<WireError> = Some(WireError::BadMetadata);

// The metadata of codes that may be null, and of such as are never null, of one byte and of two.
const SOME: &[u8] = &[8, 3, 24, 1, 32, 0];

const ALL: &[u8] = &[8, 3, 24, 0, 32, 0];

const WIDE: &[u8] = &[8, 3, 16, 5, 24, 0, 32, 0];

// A dictionary, bytes of its blob, others in their place, and why it is not read then, if it is not.
const CHANGES: [(Letters, &[u8], &[u8], Option<WireError>); 17] = [
    (Letters::Some, &[0, 2, 0, 1], &[0, 3, 0, 1], BROKEN),
    (Letters::Some, &[0, 2, 0, 1], &[0, 255, 0, 1], BROKEN),
    (Letters::Some, &[0, 2, 0, 1], &[0, 2, 255, 1], None),
    (
        Letters::Wide,
        &[0, 0, 2, 0, 0, 0],
        &[2, 0, 2, 0, 2, 0],
        None,
    ),
    (Letters::Some, SOME, &[8, 3, 24, 1, 32, 1], None),
    (Letters::Some, SOME, &[8, 3, 24, 1, 24, 1], None),
    (Letters::Some, SOME, &[8, 3, 32, 0, 32, 0], None),
    (Letters::All, ALL, &[8, 3, 32, 0, 32, 0], None),
    (Letters::All, ALL, &[8, 3, 24, 1, 32, 0], UNFIT),
    (Letters::Some, SOME, &[8, 2, 24, 1, 32, 0], UNFIT),
    (Letters::Some, SOME, &[8, 3, 24, 0, 32, 0], UNFIT),
    (Letters::Some, SOME, &[8, 3, 24, 1, 16, 9], NO_MESSAGE),
    (Letters::Some, SOME, &[8, 3, 24, 1, 34, 0], NO_MESSAGE),
    (Letters::Wide, WIDE, &[8, 3, 16, 1, 24, 0, 32, 0], None),
    (Letters::Wide, WIDE, &[8, 3, 16, 5, 24, 1, 32, 0], UNFIT),
    (Letters::Wide, WIDE, &[8, 3, 16, 6, 24, 0, 32, 0], UNFIT),
    (
        Letters::Wide,
        WIDE,
        &[8, 3, 16, 8, 24, 0, 32, 0],
        NO_MESSAGE,
    ),
];

#[test]
fn codes_and_their_metadata_are_judged(rt: HostRuntime) {
    let alloc = rt.alloc();
    for (which, old, new, error) in &CHANGES {
        let array = made(alloc, *which);
        let change = Change::Bytes(old, new);
        let refused = refusal(alloc, array, made(alloc, *which), 4, change);
        assert!(rt; refused == *error, "{new:?}");
    }
}

// Dictionaries, and their metadata.
const WRITTEN: [(Letters, &[u8]); 3] = [
    (Letters::Some, SOME),
    (Letters::All, ALL),
    (Letters::Wide, WIDE),
];

#[test]
fn both_flags_are_always_written(rt: HostRuntime) {
    let alloc = rt.alloc();
    for (which, bytes) in &WRITTEN {
        assert!(rt;
            has_metadata(alloc, made(alloc, *which), bytes),
            "{bytes:?}"
        );
    }
    let empty = dicts(alloc, bytes(alloc, &[]), bytes(alloc, &[]));
    assert!(rt; has_metadata(alloc, empty, &[24, 0, 32, 0]));
}

// One row over `count` nulls.
fn over_nulls(alloc: Global, count: usize) -> Made {
    dicts(alloc, bytes(alloc, &[0]), nulls(alloc, count))
}

// The greatest number of values of a dictionary that is written.
const MOST: usize = (1 << 32) - 1;

#[test]
fn so_many_values_are_written(rt: HostRuntime) {
    let alloc = rt.alloc();
    let most = over_nulls(alloc, MOST);
    assert!(rt; has_metadata(alloc, most, &[8, 255, 255, 255, 255, 15, 24, 0, 32, 0]));
    assert!(rt; is_read_as(alloc, over_nulls(alloc, MOST), over_nulls(alloc, MOST)));
}

#[test]
fn more_values_are_not_written(rt: HostRuntime) {
    let alloc = rt.alloc();
    let more = over_nulls(alloc, MOST + 1);
    assert!(rt; unwritten(alloc, more) == Some(EncodingError::WireLimit));
    let more = over_nulls(alloc, MOST + 1);
    let again = over_nulls(alloc, MOST + 1);
    let refused = refusal(alloc, more, again, 1, Change::Nothing);
    assert!(rt; refused == Some(WireError::WireLimit));
}

// Dictionaries of four rows, and other numbers of rows, which are refused for their shape.
const LENGTHS: [(Letters, usize); 5] = [
    (Letters::Some, 3),
    (Letters::Some, 5),
    (Letters::Some, usize::MAX),
    (Letters::Wide, usize::MAX),
    (Letters::Twice, usize::MAX),
];

#[test]
fn there_is_a_code_for_each_row(rt: HostRuntime) {
    let alloc = rt.alloc();
    for (which, len) in &LENGTHS {
        let array = made(alloc, *which);
        let refused = refusal(alloc, array, made(alloc, *which), *len, Change::Nothing);
        assert!(rt; refused == UNFIT, "{len}");
    }
}

const NO_SHAPE: Option<EncodingError> = Some(EncodingError::BadShape);

const NO_BYTES: Option<EncodingError> = Some(EncodingError::BadMetadata);

// Types, metadata, how many children there are, and why such nodes of four rows are not planned, if they are not.
const PLANS: [(Letters, &[u8], usize, Option<EncodingError>); 9] = [
    (Letters::Some, &[8, 3, 24, 1, 32, 0], 2, None),
    (Letters::Some, &[8, 3], 2, None),
    (Letters::All, &[8, 3], 2, None),
    (Letters::All, &[8, 3, 24, 0], 2, None),
    (Letters::Some, &[8, 3], 1, NO_SHAPE),
    (Letters::Some, &[8, 3], 3, NO_SHAPE),
    (Letters::Some, &[8, 3, 16, 9], 2, NO_BYTES),
    (Letters::Some, &[8, 128, 128, 128, 128, 16], 2, NO_BYTES),
    (Letters::Some, &[8, 3, 24], 2, NO_BYTES),
];

#[test]
fn plans_have_codes_and_values(rt: HostRuntime) {
    let alloc = rt.alloc();
    for (i, (which, metadata, nchildren, error)) in PLANS.iter().enumerate() {
        let kind = made(alloc, *which);
        let refused = unplanned(alloc, Encoding::Dict, kind, 4, metadata, *nchildren);
        assert!(rt; refused == *error, "{i}");
    }
}
