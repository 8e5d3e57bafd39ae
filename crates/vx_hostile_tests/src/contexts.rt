//! Writing that is refused after an identifier was taken: a context has its old identifiers, and then those of the
//! tree.

use crate::asked::{Asked, Kind, number};
use crate::samples::{blob_of_one_there, has_ids, limited, one_there, session_of};
use std::alloc::Global;
use vx_arrays::Array;
use vx_flat::Builder;
use vx_registry::{ArrayContext, VortexSession};
use vx_serde::{ArrayExt, ArrayNodeFlatBuffer, SerializeOptions, WireError};

// A number over a validity, under the identifiers by which they are written.
const ONE_THERE: Asked<'static> = Asked {
    kind: Kind::SomeBytes,
    len: 1,
    ids: &["vortex.primitive", "vortex.bool"],
    unknown: false,
    offset: 0,
};

// The ways of writing.
#[derive(Clone, Copy, Debug)]
enum Way {
    // As a blob at a position.
    Blob(usize),
    // As a node in a message of the caller.
    Node,
    // As the blob that was read.
    Again,
}

// The number of the result of writing an array as a blob.
fn number_of_blob(
    alloc: Global,
    array: &Array,
    ctx: &mut ArrayContext,
    session: &VortexSession,
    offset: usize,
) -> u8 {
    let options = SerializeOptions {
        offset,
        include_padding: true,
        deep: false,
    };
    match array.serialize(alloc, ctx, session, &options).err() {
        None => 0,
        Some(error) => error.number(),
    }
}

// The same for writing it as a node.
fn write_node(
    alloc: Global,
    array: &Array,
    ctx: &mut ArrayContext,
    session: &VortexSession,
) -> Result<(), WireError> {
    let mut builder = Builder::new(alloc);
    let mut node = ArrayNodeFlatBuffer::try_new(alloc, ctx, session, array)?;
    node.try_write_flatbuffer(alloc, &mut builder)
}

// The same for a way that needs the array.
fn number_of_array(
    alloc: Global,
    array: &Array,
    way: Way,
    ctx: &mut ArrayContext,
    session: &VortexSession,
) -> u8 {
    match way {
        Way::Blob(offset) => number_of_blob(alloc, array, ctx, session, offset),
        Way::Node | Way::Again => match write_node(alloc, array, ctx, session) {
            Ok(()) => 0,
            Err(error) => error.number(),
        },
    }
}

// The same for a number over a validity, with the shipped encodings.
fn number_of_one_there(alloc: Global, way: Way, ctx: &mut ArrayContext) -> u8 {
    let Ok(array) = one_there(alloc) else {
        return 1;
    };
    match session_of(alloc, false) {
        Ok(session) => number_of_array(alloc, &array, way, ctx, &session),
        Err(_) => 1,
    }
}

// The same for its blob.
fn number_again(alloc: Global, ctx: &mut ArrayContext) -> u8 {
    match blob_of_one_there(alloc) {
        Ok(blob) => number(alloc, blob.as_slice(), &ONE_THERE, ctx),
        Err(_) => 1,
    }
}

// The same for any way.
fn number_by(alloc: Global, way: Way, ctx: &mut ArrayContext) -> u8 {
    match way {
        Way::Again => number_again(alloc, ctx),
        Way::Blob(_) | Way::Node => number_of_one_there(alloc, way, ctx),
    }
}

// The number of the result where a context that begins with `a` allows these identifiers, or 1 where others than those
// are left in it.
fn number_leaving(alloc: Global, way: Way, allowed: &[&str], left: &[&str]) -> u8 {
    let Ok(mut ctx) = limited(alloc, &["a"], allowed) else {
        return 1;
    };
    let number = number_by(alloc, way, &mut ctx);
    if has_ids(alloc, &ctx, left) {
        number
    } else {
        1
    }
}

const BOTH: [&str; 2] = ["vortex.bool", "vortex.primitive"];

// A way of writing, what is allowed, the result, and what is left of the context.
const ROWS: [(Way, &[&str], u8, &[&str]); 9] = [
    (Way::Blob(0), &["x.y"], 23, &["a"]),
    (Way::Blob(0), &["vortex.bool"], 23, &["a"]),
    (
        Way::Blob(0),
        &["vortex.primitive"],
        23,
        &["a", "vortex.primitive"],
    ),
    (
        Way::Blob(usize::MAX),
        &BOTH,
        24,
        &["a", "vortex.primitive", "vortex.bool"],
    ),
    (Way::Node, &["vortex.bool"], 23, &["a"]),
    (
        Way::Node,
        &["vortex.primitive"],
        23,
        &["a", "vortex.primitive"],
    ),
    (
        Way::Again,
        &["vortex.primitive"],
        23,
        &["a", "vortex.primitive"],
    ),
    (Way::Again, &["vortex.bool"], 23, &["a"]),
    (
        Way::Again,
        &BOTH,
        0,
        &["a", "vortex.primitive", "vortex.bool"],
    ),
];

#[test]
fn what_came_before_a_refusal_stays_in_order(rt: HostRuntime) {
    for (way, allowed, number, left) in &ROWS {
        let found = number_leaving(rt.alloc(), *way, allowed, left);
        assert!(rt; found == *number, "{way:?} {allowed:?}");
    }
}
