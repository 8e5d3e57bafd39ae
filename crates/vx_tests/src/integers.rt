//! The program, run on the worked integers and nulls.

use crate::program::{
    Files, WORDS, prints, refuses, refuses_changed, saves, saves_the_same, store_of, with_bytes,
};
use std::alloc::Global;
use vx_serde_tests::files::{
    BLOB, BLOB_OF_ANOTHER, BLOB_OF_SECOND, EXTENSION_TYPE, IDS, NULL_BLOB, NULL_IDS, NULL_TYPE,
    PADDED_BLOB, TYPE, UTF8_TYPE,
};
use vxcat_store::MemStore;

/// The listing of 1, 2, 3, 4.
pub const LISTING: &str = "vortex.primitive len=4 buffers=[16]\n0: 1\n1: 2\n2: 3\n3: 4\n";

const FIRST_ROW: &str = "vortex.primitive len=4 buffers=[16]\n0: 1\n";

/// The worked blob with other identifiers.
pub fn files(ids: &str) -> Files<'_> {
    of_type(&TYPE, ids)
}

// The same at another type.
fn of_type<'a>(dtype: &'a [u8], ids: &'a str) -> Files<'a> {
    Files {
        dtype,
        blob: &BLOB,
        ids,
    }
}

// A blob of integers.
fn integers<'a>(blob: &'a [u8], ids: &'a str) -> Files<'a> {
    Files {
        dtype: &TYPE,
        blob,
        ids,
    }
}

// A blob at the type of nulls, under their identifier.
fn nulls(blob: &[u8]) -> Files<'_> {
    Files {
        dtype: &NULL_TYPE,
        blob,
        ids: NULL_IDS,
    }
}

// Whether a blob of 1, 2, 3, 4 under these identifiers is written as the worked one, and listed.
fn is_written_again(alloc: Global, blob: &[u8], ids: &str) -> bool {
    saves(alloc, &WORDS, &integers(blob, ids), (&BLOB, IDS), LISTING)
}

#[test]
fn integers_are_written_again(rt: HostRuntime) {
    assert!(rt; is_written_again(rt.alloc(), &BLOB, IDS));
    assert!(rt; is_written_again(rt.alloc(), &BLOB_OF_ANOTHER, IDS));
    assert!(rt; is_written_again(rt.alloc(), &BLOB_OF_SECOND, "a\nvortex.primitive"));
}

const PADDED: [&str; 11] = [
    "recode", "t", "b", "4", "i", "o", "j", "--rows", "1", "--pad", "3",
];

// The words that read again what was padded.
const AGAIN: [&str; 7] = ["recode", "t", "o", "4", "i", "p", "q"];

const LAST_PAD: [&str; 9] = [
    "recode",
    "t",
    "b",
    "4",
    "i",
    "o",
    "j",
    "--pad",
    "18446744073709551615",
];

// Whether a pad of one byte, the numbers at position 4, a pad of four, and the message, whose descriptor has the first
// pad, are read again, and written without pads.
fn is_padded(alloc: Global, store: &mut MemStore) -> bool {
    prints(alloc, &PADDED, store, 0, FIRST_ROW)
        && store.get("o") == Some(PADDED_BLOB.as_slice())
        && prints(alloc, &AGAIN, store, 0, LISTING)
        && store.get("p") == Some(BLOB.as_slice())
}

#[test]
fn pads_count_from_the_offset(rt: HostRuntime) {
    match store_of(rt.alloc(), &files(IDS)) {
        Ok(mut store) => assert!(rt; is_padded(rt.alloc(), &mut store)),
        Err(_) => assert!(rt; false),
    }
    assert!(rt; refuses(rt.alloc(), &LAST_PAD, &files(IDS), 24));
}

const PAD_ONE: [&str; 9] = ["recode", "t", "b", "4", "i", "o", "j", "--pad", "1"];

// Whether the numbers begin at position 65,536 of the blob that is saved.
fn begins_there(alloc: Global, store: &mut MemStore) -> bool {
    prints(alloc, &PAD_ONE, store, 0, LISTING)
        && match store.get("o") {
            Some(made) => { made.len() == 65_703 && made.get(65_535..65_551) == Some(&BLOB[..16]) }
            None => false,
        }
}

// The worked files, where the blob has the exponent 16.
fn store_of_exponent(alloc: Global) -> Result<MemStore, vxcat_store::StoreError> {
    let blob = with_bytes(alloc, &BLOB, &[(158, 16)])?;
    store_of(alloc, &integers(blob.as_slice(), IDS))
}

#[test]
fn the_greatest_pad_is_written(rt: HostRuntime) {
    match store_of_exponent(rt.alloc()) {
        Ok(mut store) => assert!(rt; begins_there(rt.alloc(), &mut store)),
        Err(_) => assert!(rt; false),
    }
}

// Words that are no command.
const NO_COMMANDS: [&[&str]; 12] = [
    &[],
    &["recode", "t", "b", "4", "i", "o"],
    &["decode", "t", "b", "4", "i", "o", "j"],
    &["recode", "t", "b", "04", "i", "o", "j"],
    &["recode", "t", "b", "+4", "i", "o", "j"],
    &["recode", "t", "b", "18446744073709551616", "i", "o", "j"],
    &["recode", "t", "b", "4", "i", "o", "o"],
    &["recode", "t", "b", "4", "i", "o", "j", "--pad"],
    &[
        "recode", "t", "b", "4", "i", "o", "j", "--allow", "i", "--allow", "i",
    ],
    &[
        "recode",
        "t",
        "b",
        "4",
        "i",
        "o",
        "j",
        "--unknown",
        "--unknown",
    ],
    &[
        "recode", "t", "b", "4", "i", "o", "j", "--deep", "--rows", "1", "--deep",
    ],
    &[
        "recode", "t", "b", "4", "i", "o", "j", "--rev2", "--rows", "1", "--rev2",
    ],
];

#[test]
fn words_are_judged(rt: HostRuntime) {
    for words in &NO_COMMANDS {
        assert!(rt; refuses(rt.alloc(), words, &files(IDS), 2), "{words:?}");
    }
}

// Types and identifiers, and the status of the worked blob under them.
const JUDGED: [(&[u8], &str, u8); 6] = [
    (&[16, 0, 0], IDS, 6),
    (&EXTENSION_TYPE, IDS, 6),
    (&TYPE, "a\n\nb", 7),
    (&TYPE, "", 16),
    (&TYPE, "vortex.bool", 19),
    (&UTF8_TYPE, IDS, 19),
];

#[test]
fn types_and_identifiers_are_judged(rt: HostRuntime) {
    for (dtype, ids, status) in &JUDGED {
        assert!(rt;
            refuses(rt.alloc(), &WORDS, &of_type(dtype, ids), *status),
            "{ids}"
        );
    }
    assert!(rt; refuses(rt.alloc(), &WORDS, &files("x.y"), 17));
}

const SHORT: [(&[u8], u8); 3] = [(&[], 10), (&[1, 0, 0], 10), (&[0, 0, 0, 0], 11)];

#[test]
fn short_blobs_are_refused(rt: HostRuntime) {
    for (blob, status) in &SHORT {
        assert!(rt;
            refuses(rt.alloc(), &WORDS, &integers(blob, IDS), *status),
            "{status}"
        );
    }
    assert!(rt; refuses(rt.alloc(), &WORDS, &integers(&BLOB[1..], IDS), 15));
}

const LONGER: [&str; 7] = ["recode", "t", "b", "5", "i", "o", "j"];

// Parts of the worked blob, other bytes there, and the status.
const PARTS: [(&str, &[(usize, u8)], u8); 13] = [
    ("exponent of 17", &[(158, 17)], 13),
    ("compression", &[(159, 1)], 14),
    ("padding", &[(156, 1)], 15),
    ("buffer index", &[(108, 1)], 15),
    ("exponent of 1", &[(158, 1)], 19),
    ("length", &[(160, 12)], 19),
    ("message of 149 bytes", &[(164, 149)], 11),
    ("message of 164 bytes", &[(164, 164)], 11),
    ("message of 165 bytes", &[(164, 165)], 10),
    ("metadata that are descriptors", &[(68, 0x54)], 18),
    ("children in a length word of 0", &[(72, 0x20)], 11),
    (
        "root past all bytes",
        &[(16, 255), (17, 255), (18, 255), (19, 255)],
        11,
    ),
    (
        "buffer past all bytes",
        &[
            (156, 255),
            (157, 255),
            (160, 255),
            (161, 255),
            (162, 255),
            (163, 255),
        ],
        15,
    ),
];

#[test]
fn parts_of_the_blob_are_judged(rt: HostRuntime) {
    for (part, changes, status) in &PARTS {
        assert!(rt;
            refuses_changed(rt.alloc(), &WORDS, &files(IDS), changes, *status),
            "{part}"
        );
    }
    assert!(rt; refuses(rt.alloc(), &LONGER, &files(IDS), 19));
}

#[test]
fn an_index_names_a_line(rt: HostRuntime) {
    let files = integers(&BLOB_OF_SECOND, "a\nvortex.primitive");
    assert!(rt; refuses_changed(rt.alloc(), &WORDS, &files, &[(68, 9)], 16));
}

const NULL_WORDS: [&str; 9] = ["recode", "t", "b", "0", "i", "o", "j", "--rows", "1"];

const MANY_NULLS: [&str; 9] = [
    "recode",
    "t",
    "b",
    "18446744073709551615",
    "i",
    "o",
    "j",
    "--rows",
    "1",
];

// Whether the blob of nulls is written again by these words, with this listing.
fn are_nulls(alloc: Global, words: &[&str], text: &str) -> bool {
    saves_the_same(alloc, words, &nulls(&NULL_BLOB), text)
}

#[test]
fn nulls_are_written_again(rt: HostRuntime) {
    assert!(rt; are_nulls(rt.alloc(), &NULL_WORDS, "vortex.null len=0 buffers=[]\n"));
    assert!(rt;
        are_nulls(
            rt.alloc(),
            &MANY_NULLS,
            "vortex.null len=18446744073709551615 buffers=[]\n0: null\n"
        )
    );
}

#[test]
fn nulls_hold_nothing(rt: HostRuntime) {
    let with_metadata = [(72, 1)];
    assert!(rt; refuses_changed(rt.alloc(), &WORDS, &nulls(&NULL_BLOB), &with_metadata, 18));
    // Under the identifier of nulls the blob of numbers is a node of nulls with a buffer.
    assert!(rt; refuses(rt.alloc(), &WORDS, &nulls(&BLOB), 19));
    assert!(rt; refuses(rt.alloc(), &WORDS, &integers(&NULL_BLOB, NULL_IDS), 19));
}
