//! The program, run on texts by views.

use crate::program::{Files, refuses_changed, saves_the_same, with_bytes};
use std::alloc::Global;

/// The type of texts, nullable.
const TYPE: [u8; 45] = [
    16, 0, 0, 0, 0, 0, 0, 0, 8, 0, 12, 0, 4, 0, 8, 0, 8, 0, 0, 0, 5, 0, 0, 0, 16, 0, 0, 0, 0, 0, 0,
    0, 6, 0, 5, 0, 4, 0, 0, 0, 8, 0, 0, 0, 1,
];

/// The blob of `hello`, null, `world`, null and a text of 36 bytes: the long text, the views, the bits of the validity and
/// the message.
const BLOB: [u8; 357] = [
    97, 32, 109, 111, 100, 101, 114, 97, 116, 101, 108, 121, 32, 108, 111, 110, 103, 32, 115, 116,
    114, 105, 110, 103, 32, 102, 111, 114, 32, 116, 101, 115, 116, 105, 110, 103, 5, 0, 0, 0, 104,
    101, 108, 108, 111, 0, 0, 0, 0, 0, 0, 0, 0, 0, 0, 0, 0, 0, 0, 0, 0, 0, 0, 0, 0, 0, 0, 0, 5, 0,
    0, 0, 119, 111, 114, 108, 100, 0, 0, 0, 0, 0, 0, 0, 0, 0, 0, 0, 0, 0, 0, 0, 0, 0, 0, 0, 0, 0,
    0, 0, 36, 0, 0, 0, 97, 32, 109, 111, 0, 0, 0, 0, 0, 0, 0, 0, 21, 16, 0, 0, 0, 0, 0, 0, 0, 8, 0,
    12, 0, 4, 0, 8, 0, 8, 0, 0, 0, 28, 0, 0, 0, 184, 0, 0, 0, 0, 0, 0, 0, 14, 0, 20, 0, 0, 0, 4, 0,
    8, 0, 12, 0, 16, 0, 0, 0, 16, 0, 0, 0, 20, 0, 0, 0, 24, 0, 0, 0, 132, 0, 0, 0, 136, 0, 0, 0, 0,
    0, 0, 0, 0, 0, 0, 0, 0, 0, 0, 0, 1, 0, 0, 0, 20, 0, 0, 0, 14, 0, 24, 0, 4, 0, 8, 0, 12, 0, 16,
    0, 20, 0, 0, 0, 16, 0, 0, 0, 1, 0, 0, 0, 16, 0, 0, 0, 20, 0, 0, 0, 24, 0, 0, 0, 60, 0, 0, 0, 0,
    0, 0, 0, 0, 0, 0, 0, 0, 0, 0, 0, 0, 0, 0, 0, 1, 0, 0, 0, 2, 0, 0, 0, 26, 0, 4, 0, 0, 0, 0, 0,
    0, 0, 0, 0, 0, 0, 0, 0, 0, 0, 0, 0, 0, 0, 0, 0, 0, 0, 0, 0, 0, 0, 0, 0, 32, 0, 0, 0, 0, 0, 0,
    0, 2, 0, 0, 0, 0, 0, 1, 0, 48, 0, 0, 0, 0, 0, 0, 0, 3, 0, 0, 0, 0, 0, 0, 0, 36, 0, 0, 0, 0, 0,
    4, 0, 80, 0, 0, 0, 0, 0, 0, 0, 1, 0, 0, 0, 236, 0, 0, 0,
];

const IDS: &str = "vortex.varbinview\nvortex.bool\n";

const LISTING: &str =
    "vortex.varbinview len=5 buffers=[36, 80]\n  vortex.bool len=5 buffers=[1]\n0: x68656c6c6f\n1: null\n2: x776f726c64\n3: null\n4: x61206d6f6465726174656c79206c6f6e6720737472696e6720666f722074657374696e67\n";

const FIVE_ROWS: [&str; 7] = ["recode", "t", "b", "5", "i", "o", "j"];

// A blob of texts by views.
fn texts(blob: &[u8]) -> Files<'_> {
    Files {
        dtype: &TYPE,
        blob,
        ids: IDS,
    }
}

// Whether a blob is written again unchanged, and listed as the worked texts.
fn is_listed(alloc: Global, blob: &[u8]) -> bool {
    saves_the_same(alloc, &FIVE_ROWS, &texts(blob), LISTING)
}

#[test]
fn views_are_listed_by_their_bytes(rt: HostRuntime) {
    assert!(rt; is_listed(rt.alloc(), &BLOB));
}

// Places in the views of null rows, where nothing is looked at, and other bytes there.
const UNTOLD: [(usize, u8); 3] = [(52, 36), (84, 255), (63, 1)];

// Whether the blob with another byte is listed as the worked texts.
fn is_listed_with(alloc: Global, change: (usize, u8)) -> bool {
    match with_bytes(alloc, &BLOB, &[change]) {
        Ok(blob) => is_listed(alloc, &blob),
        Err(_) => false,
    }
}

#[test]
fn views_of_null_rows_tell_nothing(rt: HostRuntime) {
    for change in &UNTOLD {
        assert!(rt; is_listed_with(rt.alloc(), *change), "{change:?}");
    }
}

// Parts of the blob, another byte there, and the status.
const PARTS: [(&str, (usize, u8), u8); 7] = [
    ("a text in a view", (40, 0xff), 20),
    ("a text in the buffer", (10, 0xff), 20),
    ("a size", (100, 37), 20),
    ("a prefix", (104, 0x62), 20),
    ("a buffer's number", (108, 1), 20),
    ("an offset", (112, 1), 20),
    ("the alignment of the views", (339, 3), 19),
];

#[test]
fn views_are_judged(rt: HostRuntime) {
    for (part, change, status) in &PARTS {
        let changes = [*change];
        assert!(rt;
            refuses_changed(rt.alloc(), &FIVE_ROWS, &texts(&BLOB), &changes, *status),
            "{part}"
        );
    }
}
