//! The program, run on decimals.

use crate::program::{Files, WORDS, refuses, saves_the_same};
use std::alloc::Global;

/// The type of decimals of ten digits, two of them after the point, not nullable.
const TYPE: [u8; 54] = [
    16, 0, 0, 0, 0, 0, 0, 0, 8, 0, 12, 0, 4, 0, 8, 0, 8, 0, 0, 0, 4, 0, 0, 0, 24, 0, 0, 0, 0, 0, 0,
    0, 10, 0, 6, 0, 4, 0, 5, 0, 0, 0, 0, 0, 0, 0, 0, 0, 16, 0, 0, 0, 10, 2,
];

/// The blob of 1 to 5 as such decimals, by integers of 128 bits.
const BLOB: [u8; 232] = [
    100, 0, 0, 0, 0, 0, 0, 0, 0, 0, 0, 0, 0, 0, 0, 0, 200, 0, 0, 0, 0, 0, 0, 0, 0, 0, 0, 0, 0, 0,
    0, 0, 44, 1, 0, 0, 0, 0, 0, 0, 0, 0, 0, 0, 0, 0, 0, 0, 144, 1, 0, 0, 0, 0, 0, 0, 0, 0, 0, 0, 0,
    0, 0, 0, 244, 1, 0, 0, 0, 0, 0, 0, 0, 0, 0, 0, 0, 0, 0, 0, 16, 0, 0, 0, 0, 0, 0, 0, 8, 0, 12,
    0, 4, 0, 8, 0, 8, 0, 0, 0, 28, 0, 0, 0, 112, 0, 0, 0, 0, 0, 0, 0, 14, 0, 20, 0, 0, 0, 4, 0, 8,
    0, 12, 0, 16, 0, 0, 0, 16, 0, 0, 0, 20, 0, 0, 0, 24, 0, 0, 0, 28, 0, 0, 0, 64, 0, 0, 0, 0, 0,
    0, 0, 2, 0, 0, 0, 8, 4, 0, 0, 0, 0, 0, 0, 0, 0, 0, 0, 1, 0, 0, 0, 0, 0, 0, 0, 26, 0, 4, 0, 0,
    0, 0, 0, 0, 0, 0, 0, 0, 0, 0, 0, 0, 0, 0, 0, 0, 0, 0, 0, 0, 0, 0, 0, 0, 0, 0, 0, 32, 0, 0, 0,
    0, 0, 0, 0, 1, 0, 0, 0, 0, 0, 4, 0, 80, 0, 0, 0, 148, 0, 0, 0,
];

/// The blob of the decimal of the integer -1, of 256 bits.
const WIDE_BLOB: [u8; 184] = [
    255, 255, 255, 255, 255, 255, 255, 255, 255, 255, 255, 255, 255, 255, 255, 255, 255, 255, 255,
    255, 255, 255, 255, 255, 255, 255, 255, 255, 255, 255, 255, 255, 16, 0, 0, 0, 0, 0, 0, 0, 8, 0,
    12, 0, 4, 0, 8, 0, 8, 0, 0, 0, 28, 0, 0, 0, 112, 0, 0, 0, 0, 0, 0, 0, 14, 0, 20, 0, 0, 0, 4, 0,
    8, 0, 12, 0, 16, 0, 0, 0, 16, 0, 0, 0, 20, 0, 0, 0, 24, 0, 0, 0, 28, 0, 0, 0, 64, 0, 0, 0, 0,
    0, 0, 0, 2, 0, 0, 0, 8, 5, 0, 0, 0, 0, 0, 0, 0, 0, 0, 0, 1, 0, 0, 0, 0, 0, 0, 0, 26, 0, 4, 0,
    0, 0, 0, 0, 0, 0, 0, 0, 0, 0, 0, 0, 0, 0, 0, 0, 0, 0, 0, 0, 0, 0, 0, 0, 0, 0, 0, 0, 32, 0, 0,
    0, 0, 0, 0, 0, 1, 0, 0, 0, 0, 0, 4, 0, 32, 0, 0, 0, 148, 0, 0, 0,
];

const IDS: &str = "vortex.decimal\n";

const FIVE_ROWS: [&str; 7] = ["recode", "t", "b", "5", "i", "o", "j"];

const ONE_ROW: [&str; 7] = ["recode", "t", "b", "1", "i", "o", "j"];

const LISTING: &str = "vortex.decimal len=5 buffers=[80]\n0: 100\n1: 200\n2: 300\n3: 400\n4: 500\n";

const WIDE_LISTING: &str =
    "vortex.decimal len=1 buffers=[32]\n0: 0xffffffffffffffffffffffffffffffffffffffffffffffffffffffffffffffff\n";

// A blob of decimals.
fn files(blob: &[u8]) -> Files<'_> {
    Files {
        dtype: &TYPE,
        blob,
        ids: IDS,
    }
}

// Whether the blob is written again by these words, with this listing.
fn is_listed(alloc: Global, blob: &[u8], words: &[&str], text: &str) -> bool {
    saves_the_same(alloc, words, &files(blob), text)
}

#[test]
fn decimals_are_listed_by_their_integers(rt: HostRuntime) {
    assert!(rt; is_listed(rt.alloc(), &BLOB, &FIVE_ROWS, LISTING));
    assert!(rt; is_listed(rt.alloc(), &WIDE_BLOB, &ONE_ROW, WIDE_LISTING));
}

#[test]
fn decimals_are_as_many_as_rows(rt: HostRuntime) {
    assert!(rt; refuses(rt.alloc(), &WORDS, &files(&BLOB), 19));
}
