//! Hostile tagged messages: lists in one another, and bytes that are no message.

use std::alloc::{AllocError, Global};
use vx_proto::{Message, ProtoError};
use vx_scalar_wire::pb;

// A message of under 16,384 bytes as a field: its key, its length, and it.
fn around(alloc: Global, key: u8, inner: &[u8]) -> Result<Vec<u8>, AllocError> {
    let mut bytes = Vec::from_slice(alloc, &[key])?;
    let len = inner.len();
    if len < 128 {
        bytes.push((len % 128) as u8)?;
    } else {
        bytes.push((len % 128) as u8 | 0x80)?;
        bytes.push((len / 128 % 128) as u8)?;
    }
    bytes.extend_from_slice(inner)?;
    Ok(bytes)
}

// This many lists in one another, the innermost empty. A list nests two messages: a value, and a list of values.
fn lists(alloc: Global, count: usize) -> Result<Vec<u8>, AllocError> {
    let mut bytes = around(alloc, 0x4a, &[])?;
    for _ in 1..count {
        let value = around(alloc, 0x0a, bytes.as_slice())?;
        bytes = around(alloc, 0x4a, value.as_slice())?;
    }
    Ok(bytes)
}

// Whether bytes are read as the message of a value, and written again unchanged; or their refusal.
fn is_read(alloc: Global, bytes: &[u8]) -> Result<bool, ProtoError> {
    let message = pb::ScalarValue::decode(alloc, bytes)?;
    let written = message.encode_to_vec(alloc)?;
    Ok(written.as_slice() == bytes)
}

// The same for this many lists.
fn are_lists(alloc: Global, count: usize) -> Result<bool, ProtoError> {
    let bytes = lists(alloc, count)?;
    is_read(alloc, bytes.as_slice())
}

#[test]
fn fifty_lists_are_a_hundred_messages(rt: HostRuntime) {
    assert!(rt; are_lists(rt.alloc(), 50) == Ok(true));
    assert!(rt; are_lists(rt.alloc(), 51) == Err(ProtoError::TooDeep));
    assert!(rt; are_lists(rt.alloc(), 1000) == Err(ProtoError::TooDeep));
}

// What is wrong with a message, and the message.
const BROKEN: [(&str, &[u8]); 9] = [
    (
        "a number in eleven bytes",
        b"\x18\x81\x80\x80\x80\x80\x80\x80\x80\x80\x80\x00",
    ),
    (
        "a key in eleven bytes",
        b"\x98\x80\x80\x80\x80\x80\x80\x80\x80\x80\x00\x01",
    ),
    ("the key 0", b"\x00\x00"),
    ("a group", b"\x1b"),
    ("a group of an unknown field", b"\xa3\x06"),
    ("a text past the end", b"\x3a\x02a"),
    (
        "a text of most bytes",
        b"\x3a\xff\xff\xff\xff\xff\xff\xff\xff\xff\x01",
    ),
    ("a list past the end", b"\x4a\x02\x0a"),
    ("a value in a list past its end", b"\x4a\x02\x0a\x01"),
];

#[test]
fn broken_messages_are_refused(rt: HostRuntime) {
    for (what, bytes) in &BROKEN {
        assert!(rt;
            is_read(rt.alloc(), bytes) == Err(ProtoError::BadMessage),
            "{what}"
        );
    }
}
