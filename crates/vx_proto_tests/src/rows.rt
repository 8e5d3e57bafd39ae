use crate::samples::{Aggregates, Dictionaries, Expressions, Kinds, Nests, Scalars, Trees, Types};
use std::alloc::Global;
use std::process::Abort;
use std::test::Fail;
use vx_proto::{Blob, Message, MessageKind, PlainMessage, ProtoError};

/// Reads the bytes as a message of the kind, and writes what was read.
fn again<K: MessageKind>(alloc: Global, bytes: &[u8]) -> Result<Blob, ProtoError> {
    PlainMessage::<K>::decode(alloc, bytes)?.encode_to_vec(alloc)
}

/// Each row is read, and written as the bytes beside it.
fn written<K: MessageKind>(rt: &impl Abort, alloc: Global, rows: &[(&[u8], &[u8])]) {
    for (bytes, wanted) in rows {
        let found = again::<K>(alloc, bytes);
        assert!(rt;
            matches!(&found, Ok(out) if out.as_slice() == *wanted),
            "{bytes:?}"
        );
    }
}

/// Each row is read and written as itself.
fn kept<K: MessageKind>(rt: &impl Abort, alloc: Global, rows: &[&[u8]]) {
    for bytes in rows {
        let found = again::<K>(alloc, bytes);
        assert!(rt;
            matches!(&found, Ok(out) if out.as_slice() == *bytes),
            "{bytes:?}"
        );
    }
}

/// Each row is refused with this refusal.
fn refused<K: MessageKind>(rt: &impl Abort, alloc: Global, error: ProtoError, rows: &[&[u8]]) {
    for bytes in rows {
        let found = again::<K>(alloc, bytes);
        assert!(rt; matches!(&found, Err(e) if *e == error), "{bytes:?}");
    }
}

#[test]
fn kinds(rt: HostRuntime) {
    // Each kind at its least and at its greatest number.
    kept::<Kinds>(
        &rt,
        rt.alloc(),
        &[
            b"",
            b"\x08\x00",
            b"\x08\xff\xff\xff\xff\x0f",
            b"\x10\x00",
            b"\x10\xff\xff\xff\xff\xff\xff\xff\xff\xff\x01",
            b"\x18\x00",
            b"\x18\xff\xff\xff\xff\x07",
            b"\x18\xff\xff\xff\xff\xff\xff\xff\xff\xff\x01",
            b"\x18\x80\x80\x80\x80\xf8\xff\xff\xff\xff\x01",
            b"\x20\x00",
            b"\x20\x01",
            b"\x28\x00",
            b"\x28\x0a",
            b"\x35\x00\x00\x00\x00",
            b"\x35\xff\xff\xff\xff",
            b"\x39\x00\x00\x00\x00\x00\x00\x00\x00",
            b"\x39\xff\xff\xff\xff\xff\xff\xff\xff",
            b"\x42\x00",
            b"\x42\x05\xc3\xa9\xe2\x82\xac",
            b"\x4a\x00",
            b"\x4a\x02\xff\x80",
            b"\x50\x01",
            b"\x50\xff\xff\xff\xff\xff\xff\xff\xff\xff\x01",
        ],
    );
    // The first number past each range.
    refused::<Kinds>(
        &rt,
        rt.alloc(),
        ProtoError::OutOfRange,
        &[
            b"\x08\x80\x80\x80\x80\x10",
            b"\x18\x80\x80\x80\x80\x08",
            b"\x18\xff\xff\xff\xff\xf7\xff\xff\xff\xff\x01",
            b"\x28\x0b",
            b"\x08\x80\x80\x80\x80\x10\x08\x01",
        ],
    );
    // A flag other than 0 is true; of two numbers, texts and bytes the last wins; fields are written by number.
    written::<Kinds>(
        &rt,
        rt.alloc(),
        &[
            (b"\x20\x02", b"\x20\x01"),
            (b"\x20\xff\xff\xff\xff\xff\xff\xff\xff\xff\x01", b"\x20\x01"),
            (b"\x08\x01\x08\x02", b"\x08\x02"),
            (b"\x42\x01a\x42\x00", b"\x42\x00"),
            (b"\x4a\x01a\x4a\x02bc", b"\x4a\x02bc"),
            (b"\x10\x07\x08\x05", b"\x08\x05\x10\x07"),
        ],
    );
}

#[test]
fn varints(rt: HostRuntime) {
    // One number in two to ten bytes, and a key in two.
    written::<Kinds>(
        &rt,
        rt.alloc(),
        &[
            (b"\x08\x81\x00", b"\x08\x01"),
            (b"\x08\x81\x80\x00", b"\x08\x01"),
            (b"\x08\x81\x80\x80\x00", b"\x08\x01"),
            (b"\x08\x81\x80\x80\x80\x00", b"\x08\x01"),
            (b"\x08\x81\x80\x80\x80\x80\x00", b"\x08\x01"),
            (b"\x08\x81\x80\x80\x80\x80\x80\x00", b"\x08\x01"),
            (b"\x08\x81\x80\x80\x80\x80\x80\x80\x00", b"\x08\x01"),
            (b"\x08\x81\x80\x80\x80\x80\x80\x80\x80\x00", b"\x08\x01"),
            (b"\x08\x81\x80\x80\x80\x80\x80\x80\x80\x80\x00", b"\x08\x01"),
            (b"\x88\x00\x01", b"\x08\x01"),
        ],
    );
    // Eleven bytes; 2^64; a key of 2^32; field number 0; a number, a part and a text cut short.
    refused::<Kinds>(
        &rt,
        rt.alloc(),
        ProtoError::BadMessage,
        &[
            b"\x08\x81\x80\x80\x80\x80\x80\x80\x80\x80\x80\x00",
            b"\x10\x80\x80\x80\x80\x80\x80\x80\x80\x80\x02",
            b"\x80\x80\x80\x80\x10\x00",
            b"\x00\x00",
            b"\x07\x00",
            b"\x08",
            b"\x08\x80",
            b"\x35\x00\x00\x00",
            b"\x39\x00\x00\x00\x00\x00\x00\x00",
            b"\x4a",
            b"\x4a\x02\x00",
            b"\x4a\xff\xff\xff\xff\xff\xff\xff\xff\xff\x01",
        ],
    );
}

#[test]
fn fields_by_wire_type(rt: HostRuntime) {
    // Unknown fields of each wire type, and one of the greatest number, are skipped whole.
    written::<Kinds>(
        &rt,
        rt.alloc(),
        &[
            (b"\xa0\x06\x05\x08\x01", b"\x08\x01"),
            (
                b"\xa1\x06\x08\x09\x0a\x0b\x0c\x0d\x0e\x0f\x08\x01",
                b"\x08\x01",
            ),
            (b"\xa2\x06\x02\x08\x02\x08\x01", b"\x08\x01"),
            (b"\xa5\x06\x08\x09\x0a\x0b\x08\x01", b"\x08\x01"),
            (b"\xf8\xff\xff\xff\x0f\x00", b""),
        ],
    );
    // Wire types that do not exist; a known field with another wire type; a text that is not UTF-8.
    refused::<Kinds>(
        &rt,
        rt.alloc(),
        ProtoError::BadMessage,
        &[
            b"\xa3\x06",
            b"\xa4\x06",
            b"\xa6\x06\x00",
            b"\xa7\x06\x00",
            b"\x0d\x00\x00\x00\x00",
            b"\x12\x00",
            b"\x19\x00\x00\x00\x00\x00\x00\x00\x00",
            b"\x30\x00",
            b"\x38\x00",
            b"\x40\x00",
            b"\x48\x00",
            b"\x42\x01\xff",
            b"\x42\x02\xc0\x80",
            b"\x42\x01\xff\x42\x01a",
        ],
    );
}

#[test]
fn types(rt: HostRuntime) {
    kept::<Types>(
        &rt,
        rt.alloc(),
        &[
            b"\x0a\x00",
            b"\x1a\x00",
            b"\x1a\x02\x08\x06",
            b"\x1a\x04\x08\x06\x10\x01",
            b"\x42\x08\x0a\x04\x1a\x02\x08\x01\x10\x01",
        ],
    );
    // A longer spelling of a number is read where the message's length has room for it.
    written::<Types>(
        &rt,
        rt.alloc(),
        &[(b"\x1a\x05\x08\x86\x80\x80\x00", b"\x1a\x02\x08\x06")],
    );
    // A message twice, and two members of a oneof; a member that is no message; a number that the message's length
    // cuts; a fault inside.
    refused::<Types>(
        &rt,
        rt.alloc(),
        ProtoError::BadMessage,
        &[
            b"\x0a\x00\x0a\x00",
            b"\x0a\x00\x1a\x00",
            b"\x08\x00",
            b"\x1a\x02\x08\x86\x80\x80\x00",
            b"\x42\x04\x0a\x00\x0a\x00",
        ],
    );
    refused::<Types>(
        &rt,
        rt.alloc(),
        ProtoError::OutOfRange,
        &[b"\x1a\x02\x08\x0b", b"\x42\x06\x0a\x04\x1a\x02\x08\x0b"],
    );
}

#[test]
fn scalars(rt: HostRuntime) {
    kept::<Scalars>(
        &rt,
        rt.alloc(),
        &[
            b"\x08\x00",
            b"\x10\x01",
            b"\x18\x54",
            b"\x18\xff\x01",
            b"\x20\x2a",
            b"\x31\x00\x00\x00\x00\x00\x00\xf8\x7f",
            b"\x31\x00\x00\x00\x00\x00\x00\x08\x40",
            b"\x50\xb8\x6d",
            b"\x3a\x02hi",
            b"\x42\x04\x40\xe2\x01\x00",
            b"\x4a\x08\x0a\x02\x18\x54\x0a\x02\x18\x56",
            b"\x5a\x06\x08\x05\x12\x02\x18\x54",
        ],
    );
    refused::<Scalars>(&rt, rt.alloc(), ProtoError::OutOfRange, &[b"\x08\x01"]);
}

#[test]
fn dictionaries(rt: HostRuntime) {
    kept::<Dictionaries>(
        &rt,
        rt.alloc(),
        &[
            b"\x08\x03\x18\x01\x20\x00",
            b"\x08\x03",
            b"\x08\x03\x10\x09",
            b"\x08\x03\x10\x06",
        ],
    );
}

#[test]
fn functions(rt: HostRuntime) {
    kept::<Expressions>(
        &rt,
        rt.alloc(),
        &[
            b"\x0a\x1dvortex.test.foreign_scalar_fn\x12\x0f\x0a\x0bvortex.root\x1a\x00\x1a\x04\x01\x02\x03\x04",
        ],
    );
    kept::<Aggregates>(
        &rt,
        rt.alloc(),
        &[b"\x0a\x1dvortex.test.foreign_aggregate\x12\x03\x07\x08\x09"],
    );
}

#[test]
fn trees(rt: HostRuntime) {
    kept::<Trees>(
        &rt,
        rt.alloc(),
        &[
            b"",
            b"\x0a\x02hi",
            b"\x10\x07\x1a\x00\x1a\x04\x0a\x02hi\x1a\x06\x1a\x04\x10\x80\x80\x01",
        ],
    );
    refused::<Trees>(
        &rt,
        rt.alloc(),
        ProtoError::BadMessage,
        &[b"\x0a\x02hi\x10\x07", b"\x1a\x03\x0a\x01\xff"],
    );
}

/// `count` messages, each the one field of the one before, whose key is this byte.
pub fn nested(alloc: Global, key: u8, count: u32) -> Result<Vec<u8>, Fail> {
    let mut bytes = Vec::new(alloc);
    for _ in 1..count {
        let mut outer = Vec::new(alloc);
        outer.push(key)?;
        let len = bytes.len();
        if len < 128 {
            outer.push(len as u8)?;
        } else {
            outer.push((len % 128) as u8 | 0x80)?;
            outer.push((len / 128 % 128) as u8)?;
        }
        outer.extend_from_slice(&bytes)?;
        bytes = outer;
    }
    Ok(bytes)
}

#[test]
fn nesting(rt: HostRuntime) -> Result<(), Fail> {
    let bytes = nested(rt.alloc(), 0x0a, 100)?;
    kept::<Nests>(&rt, rt.alloc(), &[&bytes]);
    let bytes = nested(rt.alloc(), 0x0a, 101)?;
    refused::<Nests>(&rt, rt.alloc(), ProtoError::TooDeep, &[&bytes]);
    Ok(())
}

#[test]
fn defaults(rt: HostRuntime) -> Result<(), Fail> {
    let message = PlainMessage::<Dictionaries>::default(rt.alloc());
    assert!(rt; message.slots().is_none());
    assert_eq!(rt;
        message.clone(rt.alloc())?.encode_to_vec(rt.alloc())?.len(),
        0
    );
    Ok(())
}
