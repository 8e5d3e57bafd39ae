//! Arrays with nodes that nothing reads, where such nodes are kept.

use crate::arrays::{Nested, made};
use crate::list_views::mapped;
use crate::recoding::has_ids;
use crate::wire::{Change, blob_of, kept, recoded_kept, unwritten_array};
use std::alloc::Global;
use vx_arrays::Array;
use vx_buffer::ByteBuffer;
use vx_registry::ArrayContext;
use vx_serde::{Recoded, WireError};
use vx_test_arrays::parts::Made;
use vx_test_arrays::rows::begins_with;

// The name that replaces an encoding's.
const NEW: &str = "x.new";

// The refusal of an array once that name replaces an encoding's, if it is refused.
fn refusal(alloc: Global, array: Made, name: &str) -> Option<WireError> {
    match array {
        Ok(array) => {
            let refused = kept(alloc, &array, Change::Id(name, NEW)).err();
            drop(array);
            refused
        }
        Err(_) => Some(WireError::OutOfMemory),
    }
}

const CONTROL: Option<WireError> = Some(WireError::ForeignControl);

// Arrays, the encoding that nothing reads, and their refusal then: roots, fields, elements, members and storage are
// kept; validities, offsets and tags are refused.
const NAMES: [(Nested, &str, Option<WireError>); 11] = [
    (Nested::Pairs, "vortex.struct", None),
    (Nested::Pairs, "vortex.varbin", None),
    (Nested::Pairs, "vortex.bool", CONTROL),
    (Nested::SomePairs, "vortex.bool", CONTROL),
    (Nested::Lists, "vortex.list", None),
    (Nested::Lists, "vortex.varbin", None),
    (Nested::Lists, "vortex.primitive", CONTROL),
    (Nested::Threes, "vortex.primitive", None),
    (Nested::Unions, "vortex.varbin", None),
    (Nested::Unions, "vortex.primitive", CONTROL),
    (Nested::Stored, "vortex.primitive", None),
];

#[test]
fn a_node_is_kept_unless_it_says_where_rows_are(rt: HostRuntime) {
    let alloc = rt.alloc();
    for (which, name, error) in &NAMES {
        let refused = refusal(alloc, made(alloc, *which), name);
        assert!(rt; refused == *error, "{name}");
    }
}

#[test]
fn entries_of_maps_are_not_kept(rt: HostRuntime) {
    let alloc = rt.alloc();
    assert!(rt; refusal(alloc, mapped(alloc), "vortex.listview") == CONTROL);
    assert!(rt; refusal(alloc, mapped(alloc), "vortex.struct") == None);
    assert_eq!(rt; WireError::ForeignControl.number(), 21);
}

// What is read of an array with that name in place of an encoding's.
fn read(alloc: Global, array: Made, name: &str) -> Result<Array, WireError> {
    match array {
        Ok(array) => {
            let read = kept(alloc, &array, Change::Id(name, NEW));
            drop(array);
            read
        }
        Err(_) => Err(WireError::OutOfMemory),
    }
}

// Whether what is read has these rows, and is refused on writing where such nodes are not allowed.
fn is_unknown(alloc: Global, read: Result<Array, WireError>, texts: &[&str]) -> bool {
    match read {
        Ok(array) => {
            let has = begins_with(alloc, &array, texts);
            let unwritten = unwritten_array(alloc, &array);
            drop(array);
            has && unwritten == Some(WireError::NotRegistered)
        }
        Err(_) => false,
    }
}

#[test]
fn nothing_is_known_of_rows_that_are_kept(rt: HostRuntime) {
    let alloc = rt.alloc();
    let pairs = read(alloc, made(alloc, Nested::SomePairs), "vortex.varbin");
    assert!(rt; is_unknown(alloc, pairs, &["[1, ?]", "null", "[3, ?]"]));
    let lists = read(alloc, made(alloc, Nested::Lists), "vortex.varbin");
    assert!(rt; is_unknown(alloc, lists, &["[?, ?]", "[]", "[?]"]));
}

// Whether what was recoded is this blob.
fn is_blob(alloc: Global, recoded: &Recoded, blob: &ByteBuffer) -> bool {
    match recoded.buffers.join(alloc) {
        Ok(bytes) => {
            let same = bytes.as_slice() == blob.as_slice();
            drop(bytes);
            same
        }
        Err(_) => false,
    }
}

// Whether an array of this name for an encoding is recoded as this blob; a context takes the identifiers.
fn is_recoded(
    alloc: Global,
    array: &Array,
    name: &str,
    blob: &ByteBuffer,
    ctx: &mut ArrayContext,
) -> bool {
    match recoded_kept(alloc, array, Change::Id(name, NEW), ctx) {
        Ok(recoded) => {
            let same = is_blob(alloc, &recoded, blob);
            drop(recoded);
            same
        }
        Err(_) => false,
    }
}

// Whether it is recoded as its own blob.
fn is_same(alloc: Global, array: &Array, name: &str, ctx: &mut ArrayContext) -> bool {
    match blob_of(alloc, array) {
        Ok(blob) => {
            let same = is_recoded(alloc, array, name, &blob, ctx);
            drop(blob);
            same
        }
        Err(_) => false,
    }
}

// Whether it is, by these identifiers.
fn is_same_by(alloc: Global, array: &Array, name: &str, ids: &[&str]) -> bool {
    let mut ctx = ArrayContext::empty(alloc);
    let same = is_same(alloc, array, name, &mut ctx) && has_ids(alloc, &ctx, ids);
    drop(ctx);
    same
}

// The same, if it was made.
fn comes_by(alloc: Global, array: Made, name: &str, ids: &[&str]) -> bool {
    match array {
        Ok(array) => {
            let same = is_same_by(alloc, &array, name, ids);
            drop(array);
            same
        }
        Err(_) => false,
    }
}

// Arrays, the encoding that nothing reads, and the identifiers by which the same bytes are written again.
const IDS: [(Nested, &str, &[&str]); 3] = [
    (
        Nested::Pairs,
        "vortex.struct",
        &[NEW, "vortex.primitive", "vortex.varbin", "vortex.bool"],
    ),
    (
        Nested::Pairs,
        "vortex.varbin",
        &["vortex.struct", "vortex.primitive", NEW, "vortex.bool"],
    ),
    (
        Nested::Threes,
        "vortex.primitive",
        &["vortex.fixed_size_list", NEW],
    ),
];

#[test]
fn what_is_kept_is_written_as_it_stood(rt: HostRuntime) {
    let alloc = rt.alloc();
    for (which, name, ids) in &IDS {
        assert!(rt; comes_by(alloc, made(alloc, *which), name, ids), "{name}");
    }
}
