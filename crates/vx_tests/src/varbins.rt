//! The program, run on texts and bytes by offsets.

use crate::program::{Files, ends, refuses_changed, saves_the_same, store_of, with_bytes};
use std::alloc::{AllocError, Global};
use vxcat_store::{MemSink, MemStore, StoreError};

/// The type of texts, not nullable.
const TYPE: [u8; 44] = [
    16, 0, 0, 0, 0, 0, 0, 0, 8, 0, 12, 0, 4, 0, 8, 0, 8, 0, 0, 0, 5, 0, 0, 0, 16, 0, 0, 0, 0, 0, 0,
    0, 6, 0, 4, 0, 0, 0, 0, 0, 8, 0, 0, 0,
];

/// The type of bytes, not nullable.
const BYTES_TYPE: [u8; 44] = [
    16, 0, 0, 0, 0, 0, 0, 0, 8, 0, 12, 0, 4, 0, 8, 0, 8, 0, 0, 0, 6, 0, 0, 0, 16, 0, 0, 0, 0, 0, 0,
    0, 6, 0, 4, 0, 0, 0, 0, 0, 8, 0, 0, 0,
];

/// The blob of `ab`, the empty text and `c`, by offsets of 32 bits: the texts, the offsets and the message.
const BLOB: [u8; 251] = [
    97, 98, 99, 0, 0, 0, 0, 2, 0, 0, 0, 2, 0, 0, 0, 3, 0, 0, 0, 16, 0, 0, 0, 0, 0, 0, 0, 8, 0, 12,
    0, 4, 0, 8, 0, 8, 0, 0, 0, 28, 0, 0, 0, 184, 0, 0, 0, 0, 0, 0, 0, 14, 0, 20, 0, 0, 0, 4, 0, 8,
    0, 12, 0, 16, 0, 0, 0, 16, 0, 0, 0, 20, 0, 0, 0, 24, 0, 0, 0, 132, 0, 0, 0, 136, 0, 0, 0, 0, 0,
    0, 0, 2, 0, 0, 0, 8, 6, 0, 0, 1, 0, 0, 0, 20, 0, 0, 0, 14, 0, 24, 0, 4, 0, 8, 0, 12, 0, 16, 0,
    20, 0, 0, 0, 16, 0, 0, 0, 1, 0, 0, 0, 16, 0, 0, 0, 20, 0, 0, 0, 24, 0, 0, 0, 60, 0, 0, 0, 0, 0,
    0, 0, 0, 0, 0, 0, 0, 0, 0, 0, 0, 0, 0, 0, 1, 0, 0, 0, 1, 0, 0, 0, 26, 0, 4, 0, 0, 0, 0, 0, 0,
    0, 0, 0, 0, 0, 0, 0, 0, 0, 0, 0, 0, 0, 0, 0, 0, 0, 0, 0, 0, 0, 0, 0, 32, 0, 0, 0, 0, 0, 0, 0,
    1, 0, 0, 0, 0, 0, 0, 0, 48, 0, 0, 0, 0, 0, 0, 0, 2, 0, 0, 0, 0, 0, 0, 0, 3, 0, 0, 0, 0, 0, 2,
    0, 16, 0, 0, 0, 228, 0, 0, 0,
];

/// The message, with its length, of one row of 10,000 bytes by offsets of 16 bits.
const LARGE_MESSAGE: [u8; 232] = [
    16, 0, 0, 0, 0, 0, 0, 0, 8, 0, 12, 0, 4, 0, 8, 0, 8, 0, 0, 0, 28, 0, 0, 0, 184, 0, 0, 0, 0, 0,
    0, 0, 14, 0, 20, 0, 0, 0, 4, 0, 8, 0, 12, 0, 16, 0, 0, 0, 16, 0, 0, 0, 20, 0, 0, 0, 24, 0, 0,
    0, 132, 0, 0, 0, 136, 0, 0, 0, 0, 0, 0, 0, 2, 0, 0, 0, 8, 1, 0, 0, 1, 0, 0, 0, 20, 0, 0, 0, 14,
    0, 24, 0, 4, 0, 8, 0, 12, 0, 16, 0, 20, 0, 0, 0, 16, 0, 0, 0, 1, 0, 0, 0, 16, 0, 0, 0, 20, 0,
    0, 0, 24, 0, 0, 0, 60, 0, 0, 0, 0, 0, 0, 0, 0, 0, 0, 0, 0, 0, 0, 0, 0, 0, 0, 0, 1, 0, 0, 0, 1,
    0, 0, 0, 26, 0, 4, 0, 0, 0, 0, 0, 0, 0, 0, 0, 0, 0, 0, 0, 0, 0, 0, 0, 0, 0, 0, 0, 0, 0, 0, 0,
    0, 0, 0, 0, 32, 0, 0, 0, 0, 0, 0, 0, 1, 0, 0, 0, 0, 0, 0, 0, 48, 0, 0, 0, 0, 0, 0, 0, 2, 0, 0,
    0, 0, 0, 0, 0, 16, 39, 0, 0, 0, 0, 1, 0, 4, 0, 0, 0, 228, 0, 0, 0,
];

const IDS: &str = "vortex.varbin\nvortex.primitive\n";

const LISTING: &str =
    "vortex.varbin len=3 buffers=[3]\n  vortex.primitive len=4 buffers=[16]\n0: x6162\n1: x\n2: x63\n";

const THREE_ROWS: [&str; 7] = ["recode", "t", "b", "3", "i", "o", "j"];

const ONE_ROW: [&str; 7] = ["recode", "t", "b", "1", "i", "o", "j"];

// The blob of three texts.
fn texts() -> Files<'static> {
    Files {
        dtype: &TYPE,
        blob: &BLOB,
        ids: IDS,
    }
}

#[test]
fn texts_are_listed_by_their_bytes(rt: HostRuntime) {
    assert!(rt; saves_the_same(rt.alloc(), &THREE_ROWS, &texts(), LISTING));
}

// Parts of the blob, another byte there, and the status.
const PARTS: [(&str, (usize, u8), u8); 6] = [
    ("a text", (1, 0xff), 20),
    ("an offset below 0", (10, 0x80), 20),
    ("an offset that falls", (11, 1), 20),
    ("an offset past the bytes", (15, 4), 20),
    ("a kind of floats", (96, 9), 18),
    ("another kind", (96, 7), 19),
];

#[test]
fn content_is_judged(rt: HostRuntime) {
    for (part, change, status) in &PARTS {
        let changes = [*change];
        assert!(rt;
            refuses_changed(rt.alloc(), &THREE_ROWS, &texts(), &changes, *status),
            "{part}"
        );
    }
}

// The row of `len` bytes, and its two offsets of 16 bits.
fn large_row(alloc: Global, len: u16) -> Result<Vec<u8>, AllocError> {
    let mut row = vec![in alloc; 0xab; len as usize]?;
    row.extend_from_slice(&[0, 0])?;
    row.extend_from_slice(len.to_le_bytes().as_slice())?;
    Ok(row)
}

// The blob of one row of `len` bytes.
fn large_blob(alloc: Global, len: u16) -> Result<Vec<u8>, AllocError> {
    let mut blob = large_row(alloc, len)?;
    let message = large_message(alloc, len)?;
    blob.extend_from_slice(message.as_slice())?;
    Ok(blob)
}

// The message of that blob.
fn large_message(alloc: Global, len: u16) -> Result<Vec<u8>, AllocError> {
    let low = (len % 256) as u8;
    let high = (len / 256) as u8;
    with_bytes(alloc, &LARGE_MESSAGE, &[(216, low), (217, high)])
}

// A store of the blob of one row of `len` bytes.
fn store_of_large(alloc: Global, len: u16) -> Result<MemStore, StoreError> {
    let blob = large_blob(alloc, len)?;
    let files = Files {
        dtype: &BYTES_TYPE,
        blob: blob.as_slice(),
        ids: IDS,
    };
    store_of(alloc, &files)
}

// Whether `count` bytes are printed over a store, the last of them for a row that is large.
fn prints_so_many(alloc: Global, store: &mut MemStore, count: usize, large: bool) -> bool {
    let mut out = MemSink::new(alloc);
    ends(alloc, &ONE_ROW, store, &mut out, 0)
        && out.text().len() == count
        && out.text().ends_with(b"\n0: (large)\n") == large
}

// The same for one row of `len` bytes.
fn prints_row(alloc: Global, len: u16, count: usize, large: bool) -> bool {
    match store_of_large(alloc, len) {
        Ok(mut store) => prints_so_many(alloc, &mut store, count, large),
        Err(_) => false,
    }
}

#[test]
fn a_row_of_10000_bytes_is_large(rt: HostRuntime) {
    let nodes = "vortex.varbin len=1 buffers=[9999]\n  vortex.primitive len=2 buffers=[4]\n".len();
    let row = "0: x\n".len() + 2 * 9_999;
    assert!(rt; prints_row(rt.alloc(), 9_999, nodes + row, false));
    assert!(rt; prints_row(rt.alloc(), 10_000, nodes + 1 + "0: (large)\n".len(), true));
}
