//! Hostile blobs, recoded from a context that has an identifier: the results, and what is left of the context.

use crate::asked::{Asked, INTEGERS, Kind, number_leaving};
use crate::levels::levels_over_none;
use crate::samples::{blob_of_codes, blob_of_no_text, blob_of_one_there, changed};
use std::alloc::{AllocError, Global};
use vx_serde::WireError;
use vx_serde_tests::files::{BLOB, BLOB_OF_SECOND};

// Parts of the worked blob, other bytes there, and the result.
const PARTS: [(&str, &[(usize, u8)], u8); 14] = [
    ("message of 149 bytes", &[(164, 149)], 11),
    ("message of 164 bytes", &[(164, 164)], 11),
    ("message of 165 bytes", &[(164, 165)], 10),
    ("message of most bytes", &[(167, 255)], 10),
    ("metadata that are descriptors", &[(68, 0x54)], 18),
    ("children in a length word of 0", &[(72, 0x20)], 11),
    (
        "root past all bytes",
        &[(16, 255), (17, 255), (18, 255), (19, 255)],
        11,
    ),
    (
        "buffer past all bytes",
        &[
            (156, 255),
            (157, 255),
            (160, 255),
            (161, 255),
            (162, 255),
            (163, 255),
        ],
        15,
    ),
    ("exponent of 17", &[(158, 17)], 13),
    ("compression", &[(159, 1)], 14),
    ("index of a buffer", &[(108, 1)], 15),
    ("exponent of 1", &[(158, 1)], 19),
    ("length", &[(160, 12)], 19),
    ("least value of no bytes", &[(116, 4)], 22),
];

// The result for the worked blob with other bytes at some places, which leaves the context unchanged.
fn number_of_part(alloc: Global, changes: &[(usize, u8)]) -> u8 {
    match changed(alloc, &BLOB, changes) {
        Ok(blob) => number_leaving(alloc, blob.as_slice(), &INTEGERS, &["a"]),
        Err(_) => 1,
    }
}

#[test]
fn hostile_parts_leave_the_context(rt: HostRuntime) {
    for (part, changes, number) in &PARTS {
        assert!(rt; number_of_part(rt.alloc(), changes) == *number, "{part}");
    }
}

// Blobs.
#[derive(Clone, Copy, Debug)]
enum Sample {
    // The numbers 1, 2, 3, 4.
    Integers,
    // The same, whose node names the second identifier.
    OfSecond,
    // A row of bytes that are not UTF-8.
    NoText,
    // A number over a validity.
    OneThere,
    // A code over a null.
    Codes,
    // This many levels of nodes that hold the next one twice, over a node that is ill-formed, and the length of their
    // message.
    OverNone(usize, u32),
}

// A blob.
fn blob_of(alloc: Global, sample: Sample) -> Result<Vec<u8>, WireError> {
    match sample {
        Sample::Integers => Ok(Vec::from_slice(alloc, &BLOB)?),
        Sample::OfSecond => Ok(Vec::from_slice(alloc, &BLOB_OF_SECOND)?),
        Sample::NoText => blob_of_no_text(alloc),
        Sample::OneThere => blob_of_one_there(alloc),
        Sample::Codes => blob_of_codes(alloc),
        Sample::OverNone(count, len) => Ok(levels_over_none(alloc, count, len)?),
    }
}

// Numbers under an identifier that nothing reads.
const UNREAD: Asked<'static> = Asked {
    ids: &["x.y"],
    ..INTEGERS
};

// One row more than there is.
const ONE_MORE: Asked<'static> = Asked { len: 5, ..INTEGERS };

// The last position.
const LAST: Asked<'static> = Asked {
    offset: usize::MAX,
    ..INTEGERS
};

// Rows by offsets.
const TEXTS: Asked<'static> = Asked {
    kind: Kind::Texts,
    len: 1,
    ids: &["vortex.varbin", "vortex.primitive"],
    unknown: false,
    offset: 0,
};

// A validity that nothing reads, where that is allowed.
const UNREAD_VALIDITY: Asked<'static> = Asked {
    kind: Kind::SomeBytes,
    len: 1,
    ids: &["vortex.primitive", "x.y"],
    unknown: true,
    offset: 0,
};

// As many codes as can be counted, which nothing reads, where that is allowed.
const UNREAD_CODES: Asked<'static> = Asked {
    kind: Kind::Null,
    len: usize::MAX,
    ids: &["vortex.dict", "x.y", "vortex.null"],
    unknown: true,
    offset: 0,
};

// Nodes that nothing reads, where that is allowed.
const KEPT: Asked<'static> = Asked {
    kind: Kind::Null,
    len: 0,
    ids: &["x.y"],
    unknown: true,
    offset: 0,
};

// A blob, what is asked of it, the result, and what is left of the context.
const ROWS: [(Sample, Asked<'static>, u8, &[&str]); 8] = [
    (Sample::Integers, INTEGERS, 0, &["a", "vortex.primitive"]),
    (Sample::OfSecond, INTEGERS, 16, &["a"]),
    (Sample::Integers, UNREAD, 17, &["a"]),
    (Sample::Integers, ONE_MORE, 19, &["a"]),
    (Sample::NoText, TEXTS, 20, &["a"]),
    (Sample::OneThere, UNREAD_VALIDITY, 21, &["a"]),
    (Sample::Codes, UNREAD_CODES, 21, &["a"]),
    (Sample::Integers, LAST, 24, &["a", "vortex.primitive"]),
];

// The result for a blob, where it leaves this of the context.
fn number_of(alloc: Global, sample: Sample, asked: &Asked<'_>, left: &[&str]) -> u8 {
    match blob_of(alloc, sample) {
        Ok(blob) => number_leaving(alloc, blob.as_slice(), asked, left),
        Err(_) => 1,
    }
}

#[test]
fn hostile_blobs_leave_the_context(rt: HostRuntime) {
    for (sample, asked, number, left) in &ROWS {
        let found = number_of(rt.alloc(), *sample, asked, left);
        assert!(rt; found == *number, "{sample:?} {number}");
    }
}

// There are two causes, and either may be answered.
#[test]
fn twenty_levels_over_none_are_refused(rt: HostRuntime) {
    let number = number_of(rt.alloc(), Sample::OverNone(20, 602), &KEPT, &["a"]);
    assert!(rt; number == 11 || number == 12);
}

#[test]
fn each_front_of_the_blob_is_refused(rt: HostRuntime) {
    for len in 0..BLOB.len() {
        let number = number_leaving(rt.alloc(), &BLOB[..len], &INTEGERS, &["a"]);
        assert!(rt; number == 10 || number == 11, "of {len} bytes");
    }
}

// The worked blob whose message is cut after `len` bytes.
fn cut(alloc: Global, len: u8) -> Result<Vec<u8>, AllocError> {
    let mut blob = Vec::from_slice(alloc, &BLOB[..16])?;
    blob.extend_from_slice(&BLOB[16..164][..usize::from(len).min(148)])?;
    blob.extend_from_slice(&[len, 0, 0, 0])?;
    Ok(blob)
}

// The result for it, which leaves the context unchanged.
fn number_of_cut(alloc: Global, len: u8) -> u8 {
    match cut(alloc, len) {
        Ok(blob) => number_leaving(alloc, blob.as_slice(), &INTEGERS, &["a"]),
        Err(_) => 1,
    }
}

#[test]
fn each_front_of_the_message_is_no_table(rt: HostRuntime) {
    for len in 0..148 {
        assert!(rt; number_of_cut(rt.alloc(), len) == 11, "of {len} bytes");
    }
}
