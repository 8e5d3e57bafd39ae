//! Variants in blobs and their nodes: the type of the typed child is metadata.

use crate::steps::{has_metadata, unplanned};
use crate::wire::{Change, kept, unwritten_array};
use std::alloc::Global;
use vx_arrays::Array;
use vx_encodings::{Encoding, EncodingError};
use vx_serde::WireError;
use vx_test_arrays::parts::{
    Made, There, bytes, extensions, fixed, numbers, shredded, texts, unknown_variants,
};
use vx_types::PType;

// The numbers 1 and 2, of which the first is there.
fn counts(alloc: Global) -> Made {
    numbers(
        alloc,
        PType::I32,
        &[1, 0, 0, 0, 2, 0, 0, 0],
        There::Bits(0b01),
    )
}

// Two variants of which nothing is known, and a typed child over them, where one is given.
fn over(alloc: Global, typed: Option<Made>) -> Made {
    shredded(alloc, unknown_variants(alloc, 2), typed)
}

// A number in lists of one element each, with `levels` levels of types in all.
fn deep(alloc: Global, levels: usize) -> Made {
    let mut array = bytes(alloc, &[7]);
    for _ in 1..levels {
        array = fixed(alloc, array, 1, 1, There::Always);
    }
    array
}

// One variant under a typed child of `levels` levels.
fn over_deep(alloc: Global, levels: usize) -> Made {
    shredded(alloc, unknown_variants(alloc, 1), Some(deep(alloc, levels)))
}

// An extension over two variants.
fn over_extension(alloc: Global) -> Made {
    over(alloc, Some(extensions(alloc, counts(alloc), counts(alloc))))
}

#[test]
fn metadata_is_the_type_of_the_typed_child(rt: HostRuntime) {
    let alloc = rt.alloc();
    assert!(rt; has_metadata(alloc, over(alloc, None), &[]));
    let numbers = [0x0a, 0x06, 0x1a, 0x04, 0x08, 0x06, 0x10, 0x01];
    assert!(rt; has_metadata(alloc, over(alloc, Some(counts(alloc))), &numbers));
    let letters = texts(alloc, b"ab", There::Always);
    assert!(rt; has_metadata(alloc, over(alloc, Some(letters)), &[0x0a, 0x02, 0x2a, 0x00]));
}

const UNFIT: Option<EncodingError> = Some(EncodingError::BadShape);

const NO_MESSAGE: Option<EncodingError> = Some(EncodingError::BadMetadata);

// Metadata, how many children there are, and why variants are not planned, if they are not: a type twice, a list without an
// element, a decimal of no digit, and an extension that nothing reads are none.
const PLANS: [(&[u8], usize, Option<EncodingError>); 12] = [
    (&[], 1, None),
    (&[], 0, UNFIT),
    (&[], 2, UNFIT),
    (&[0x0a, 0x02, 0x2a, 0x00], 2, None),
    (&[0x0a, 0x02, 0x2a, 0x00], 1, UNFIT),
    (&[0x0a, 0x02, 0x2a, 0x00], 3, UNFIT),
    (&[0x0a, 0x00], 2, NO_MESSAGE),
    (&[0x0a, 0x02, 0x2a], 2, NO_MESSAGE),
    (
        &[0x0a, 0x02, 0x2a, 0x00, 0x0a, 0x02, 0x2a, 0x00],
        2,
        NO_MESSAGE,
    ),
    (&[0x0a, 0x02, 0x42, 0x00], 2, NO_MESSAGE),
    (&[0x0a, 0x02, 0x22, 0x00], 2, NO_MESSAGE),
    (
        &[
            0x0a, 0x09, 0x4a, 0x07, 0x0a, 0x01, 0x78, 0x12, 0x02, 0x2a, 0x00,
        ],
        2,
        NO_MESSAGE,
    ),
];

#[test]
fn variants_are_planned_by_their_metadata(rt: HostRuntime) {
    let alloc = rt.alloc();
    for (i, (metadata, nchildren, error)) in PLANS.iter().enumerate() {
        let kind = unknown_variants(alloc, 2);
        let refused = unplanned(alloc, Encoding::Variant, kind, 2, metadata, *nchildren);
        assert!(rt; refused == *error, "{i}");
    }
    let flags = unplanned(alloc, Encoding::Variant, counts(alloc), 2, &[], 1);
    assert!(rt; flags == UNFIT);
}

// Whether an array is read again where nodes that nothing reads are kept.
fn is_read_again(alloc: Global, array: &Array) -> bool {
    match kept(alloc, array, Change::Nothing) {
        Ok(read) => {
            let same = read.array_eq(array);
            drop(read);
            same
        }
        Err(_) => false,
    }
}

// The same, and it is not written where they are not allowed.
fn is_kept(alloc: Global, array: &Array) -> bool {
    let unwritten = unwritten_array(alloc, array);
    is_read_again(alloc, array) && unwritten == Some(WireError::NotRegistered)
}

// The same, if it was made.
fn comes_again(alloc: Global, array: Made) -> bool {
    match array {
        Ok(array) => {
            let kept = is_kept(alloc, &array);
            drop(array);
            kept
        }
        Err(_) => false,
    }
}

#[test]
fn variants_are_read_again(rt: HostRuntime) {
    let alloc = rt.alloc();
    assert!(rt; comes_again(alloc, over(alloc, None)));
    assert!(rt; comes_again(alloc, over(alloc, Some(counts(alloc)))));
    assert!(rt; comes_again(alloc, over(alloc, Some(over(alloc, Some(counts(alloc)))))));
    assert!(rt; comes_again(alloc, over_extension(alloc)));
    assert!(rt; comes_again(alloc, over_deep(alloc, 49)));
}

// Why an array is not written and read again, if it is not.
fn refusal(alloc: Global, array: Made, change: Change<'_>) -> Option<WireError> {
    match array {
        Ok(array) => {
            let refused = kept(alloc, &array, change).err();
            drop(array);
            refused
        }
        Err(_) => Some(WireError::OutOfMemory),
    }
}

#[test]
fn a_typed_child_has_few_levels(rt: HostRuntime) {
    let alloc = rt.alloc();
    let refused = refusal(alloc, over_deep(alloc, 50), Change::Nothing);
    assert!(rt; refused == Some(WireError::WireLimit));
    assert!(rt; refusal(alloc, deep(alloc, 50), Change::Nothing) == None);
}
