//! The program, run on files of expressions.

use crate::program::{ends, holds, prints, store_of_one};
use std::alloc::{AllocError, Global};
use vxcat_store::{MemSink, MemStore, StoreError};

// A call of a foreign function on the root, with the metadata 1, 2, 3, 4.
const FOREIGN: &[u8] =
    b"\x0a\x1dvortex.test.foreign_scalar_fn\x12\x0f\x0a\x0bvortex.root\x1a\x00\x1a\x04\x01\x02\x03\x04";

// The same by another writer: the metadata comes first, and the root has none.
const FOREIGN_OF_ANOTHER: &[u8] =
    b"\x1a\x04\x01\x02\x03\x04\x12\x0d\x0a\x0bvortex.root\x0a\x1dvortex.test.foreign_scalar_fn";

// The same, where the root has a root as its child.
const ROOT_WITH_CHILD: &[u8] =
    b"\x0a\x1dvortex.test.foreign_scalar_fn\x12\x1c\x0a\x0bvortex.root\x12\x0d\x0a\x0bvortex.root\x1a\x04\x01\x02\x03\x04";

const LINES: &str = "vortex.test.foreign_scalar_fn(root)
0a1d766f727465782e746573742e666f726569676e5f7363616c61725f666e120f0a0b766f727465782e726f6f741a001a0401020304
";

const WORDS: [&str; 2] = ["expr", "f"];

// The call of `x` on the expression whose bytes these are, fewer than 16,384.
fn called(alloc: Global, bytes: &[u8]) -> Result<Vec<u8>, AllocError> {
    let mut call = Vec::from_slice(alloc, b"\x0a\x01x\x12")?;
    call.push((bytes.len() % 128) as u8 + 128)?;
    call.push((bytes.len() / 128 % 128) as u8)?;
    call.extend_from_slice(bytes)?;
    Ok(call)
}

// `calls` calls, one in the other, the innermost without children.
fn nested(alloc: Global, calls: u32) -> Result<Vec<u8>, AllocError> {
    let mut bytes = Vec::from_slice(alloc, b"\x0a\x01x")?;
    for _ in 1..calls {
        bytes = called(alloc, bytes.as_slice())?;
    }
    Ok(bytes)
}

// A store of such calls.
fn store_of_calls(alloc: Global, calls: u32) -> Result<MemStore, StoreError> {
    let bytes = nested(alloc, calls)?;
    store_of_one(alloc, bytes.as_slice())
}

// Whether the program ends with this status on an expression.
fn ends_so(alloc: Global, store: &mut MemStore, status: u8) -> bool {
    let mut out = MemSink::new(alloc);
    ends(alloc, &WORDS, store, &mut out, status)
}

// The same for `calls` calls.
fn calls_end(alloc: Global, calls: u32, status: u8) -> bool {
    match store_of_calls(alloc, calls) {
        Ok(mut store) => ends_so(alloc, &mut store, status),
        Err(_) => false,
    }
}

#[test]
fn a_hundred_calls_are_read(rt: HostRuntime) {
    assert!(rt; calls_end(rt.alloc(), 100, 0));
    assert!(rt; calls_end(rt.alloc(), 101, 8));
}

const ROOT: &[u8] = b"\x0a\x0bvortex.root\x1a\x01\x07";

// Expressions, the status, and what is printed.
const ROWS: [(&str, &[u8], u8, &str); 5] = [
    ("foreign", FOREIGN, 0, LINES),
    ("another writer", FOREIGN_OF_ANOTHER, 0, LINES),
    ("root", ROOT, 0, "root\n0a0b766f727465782e726f6f741a00\n"),
    ("root with a child", ROOT_WITH_CHILD, 8, ""),
    ("cut", b"\x0a\x1dvortex.test.foreig", 8, ""),
];

// Whether the program prints this for an expression, and leaves its file unchanged.
fn is_printed(alloc: Global, bytes: &[u8], status: u8, text: &str) -> bool {
    match store_of_one(alloc, bytes) {
        Ok(mut store) => {
            prints(alloc, &WORDS, &mut store, status, text) && holds(&store, "f", bytes)
        }
        Err(_) => false,
    }
}

#[test]
fn expressions_are_written_again(rt: HostRuntime) {
    for (part, bytes, status, text) in &ROWS {
        assert!(rt; is_printed(rt.alloc(), bytes, *status, text), "{part}");
    }
}

// Words, and the status.
const JUDGED: [(&[&str], u8); 3] = [
    (&["expr"], 2),
    (&["expr", "f", "f"], 2),
    (&["expr", "g"], 3),
];

// Whether the program prints nothing on these words, and ends with this status.
fn prints_nothing(alloc: Global, words: &[&str], status: u8) -> bool {
    match store_of_one(alloc, FOREIGN) {
        Ok(mut store) => prints(alloc, words, &mut store, status, ""),
        Err(_) => false,
    }
}

#[test]
fn words_of_expr_are_judged(rt: HostRuntime) {
    for (words, status) in &JUDGED {
        assert!(rt; prints_nothing(rt.alloc(), words, *status), "{words:?}");
    }
}

// Whether the program ends with a fault of the store, whose first call fails.
fn fails_to_load(alloc: Global) -> Result<bool, StoreError> {
    let mut store = store_of_one(alloc, FOREIGN)?;
    store.fail_call(1)?;
    Ok(prints(alloc, &WORDS, &mut store, 3, ""))
}

// Whether a write that fails in the middle leaves a prefix.
fn is_cut(alloc: Global, store: &mut MemStore) -> bool {
    let mut out = MemSink::failing(alloc, 4).taking(7);
    ends(alloc, &WORDS, store, &mut out, 5) && out.text() == b"vortex.test.foreign_s".as_slice()
}

#[test]
fn faults_of_expr_have_their_status(rt: HostRuntime) {
    assert!(rt; fails_to_load(rt.alloc()) == Ok(true));
    match store_of_one(rt.alloc(), FOREIGN) {
        Ok(mut store) => assert!(rt; is_cut(rt.alloc(), &mut store)),
        Err(_) => assert!(rt; false),
    }
}
