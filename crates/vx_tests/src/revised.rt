//! The program, run on integers under both identifiers of primitives.

use crate::integers::{LISTING, files};
use crate::program::{Files, WORDS, prints, refuses, saves, saves_the_same, store_of};
use std::alloc::Global;
use vx_serde_tests::files::{BLOB, IDS, TYPE};
use vxcat_store::{MemStore, StoreError};

const SECOND: &str = "vortex.primitive.v2\n";

// The blob of 0 to 7: the numbers, the message and its length.
const EIGHT: [u8; 184] = [
    0, 0, 0, 0, 1, 0, 0, 0, 2, 0, 0, 0, 3, 0, 0, 0, 4, 0, 0, 0, 5, 0, 0, 0, 6, 0, 0, 0, 7, 0, 0, 0,
    16, 0, 0, 0, 0, 0, 0, 0, 8, 0, 12, 0, 4, 0, 8, 0, 8, 0, 0, 0, 28, 0, 0, 0, 112, 0, 0, 0, 0, 0,
    0, 0, 14, 0, 20, 0, 0, 0, 4, 0, 8, 0, 12, 0, 16, 0, 0, 0, 16, 0, 0, 0, 20, 0, 0, 0, 24, 0, 0,
    0, 28, 0, 0, 0, 64, 0, 0, 0, 0, 0, 0, 0, 0, 0, 0, 0, 0, 0, 0, 0, 0, 0, 0, 0, 0, 0, 0, 0, 1, 0,
    0, 0, 0, 0, 0, 0, 26, 0, 4, 0, 0, 0, 0, 0, 0, 0, 0, 0, 0, 0, 0, 0, 0, 0, 0, 0, 0, 0, 0, 0, 0,
    0, 0, 0, 0, 0, 0, 0, 32, 0, 0, 0, 0, 0, 0, 0, 1, 0, 0, 0, 0, 0, 2, 0, 32, 0, 0, 0, 148, 0, 0,
    0,
];

const EIGHT_LISTED: &str =
    "vortex.primitive len=8 buffers=[32]\n0: 0\n1: 1\n2: 2\n3: 3\n4: 4\n5: 5\n6: 6\n7: 7\n";

// Eight rows, with the option and without.
const REVISED: [&str; 8] = ["recode", "t", "b", "8", "i", "o", "j", "--rev2"];

const PLAIN: [&str; 7] = ["recode", "t", "b", "8", "i", "o", "j"];

// Four rows, with the option.
const REVISED_FOUR: [&str; 8] = ["recode", "t", "b", "4", "i", "o", "j", "--rev2"];

// Eight rows, where only the identifiers of a file are allowed.
const ALLOWING: [&str; 10] = [
    "recode", "t", "b", "8", "i", "o", "j", "--allow", "f", "--rev2",
];

// The blob of eight numbers under an identifier.
fn eight(ids: &str) -> Files<'_> {
    Files {
        dtype: &TYPE,
        blob: &EIGHT,
        ids,
    }
}

#[test]
fn eight_rows_have_the_second_identifier(rt: HostRuntime) {
    assert!(rt; saves_the_same(rt.alloc(), &REVISED, &eight(SECOND), EIGHT_LISTED));
    assert!(rt; saves_the_same(rt.alloc(), &PLAIN, &eight(IDS), EIGHT_LISTED));
    assert!(rt; refuses(rt.alloc(), &REVISED, &eight(IDS), 19));
    assert!(rt; refuses(rt.alloc(), &PLAIN, &eight(SECOND), 17));
}

#[test]
fn four_rows_are_read_under_both_and_written_under_the_old(rt: HostRuntime) {
    let saved = (BLOB.as_slice(), IDS);
    for ids in [IDS, SECOND] {
        assert!(rt;
            saves(rt.alloc(), &REVISED_FOUR, &files(ids), saved, LISTING),
            "{ids}"
        );
    }
    assert!(rt; refuses(rt.alloc(), &WORDS, &files(SECOND), 17));
}

// The files of eight numbers, and one of allowed identifiers.
fn store_that_allows(alloc: Global, allowed: &str) -> Result<MemStore, StoreError> {
    let mut store = store_of(alloc, &eight(SECOND))?;
    store.insert(alloc, "f", allowed.as_bytes())?;
    Ok(store)
}

// Whether the program ends with this status where these identifiers are allowed, and prints this.
fn ends_allowing(alloc: Global, allowed: &str, status: u8, text: &str) -> bool {
    match store_that_allows(alloc, allowed) {
        Ok(mut store) => prints(alloc, &ALLOWING, &mut store, status, text),
        Err(_) => false,
    }
}

#[test]
fn the_second_identifier_has_to_be_allowed(rt: HostRuntime) {
    assert!(rt; ends_allowing(rt.alloc(), IDS, 23, ""));
    assert!(rt; ends_allowing(rt.alloc(), SECOND, 0, EIGHT_LISTED));
}
