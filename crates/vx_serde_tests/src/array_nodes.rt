//! Nodes of arrays in messages that are built block by block.

use crate::blobs::{count_of, shipped};
use std::alloc::Global;
use vx_arrays::{Array, NullArray};
use vx_flat::{BlockField, BlockVector, Builder, FlatBuffer, LinkKind};
use vx_registry::{ArrayContext, ArraySession, VortexSession};
use vx_serde::{ArrayExt, ArrayNodeFlatBuffer, SerializeOptions, WireError};
use vx_type_wire::ExtSession;

// The message of a node without buffers, built block by block.
fn built(alloc: Global, node: &mut ArrayNodeFlatBuffer<'_>) -> Result<FlatBuffer, WireError> {
    let mut builder = Builder::new(alloc);
    let root = builder.table(&[
        BlockField::Link(LinkKind::Table),
        BlockField::Link(LinkKind::Vector),
    ])?;
    builder.link(root, 0);
    node.try_write_flatbuffer(alloc, &mut builder)?;
    builder.link(root, 1);
    builder.vector(BlockVector::Numbers {
        width: 8,
        bytes: &[],
    })?;
    Ok(builder.finish(alloc)?)
}

// The message of an array without buffers, whose identifiers are taken into a context.
fn message_of(
    alloc: Global,
    array: &Array,
    ctx: &mut ArrayContext,
    session: &VortexSession,
) -> Result<FlatBuffer, WireError> {
    let mut node = ArrayNodeFlatBuffer::try_new(alloc, ctx, session, array)?;
    built(alloc, &mut node)
}

// Whether that message has these bytes, and the context this many identifiers.
fn is_message(
    alloc: Global,
    array: &Array,
    session: &VortexSession,
    bytes: &[u8],
    count: usize,
) -> bool {
    let mut ctx = ArrayContext::empty(alloc);
    match message_of(alloc, array, &mut ctx, session) {
        Ok(message) => message.as_slice() == bytes && count_of(alloc, &ctx) == Some(count),
        Err(_) => false,
    }
}

// Whether that message is the one of the array's blob, of one identifier.
fn is_of_the_blob(
    alloc: Global,
    array: &Array,
    session: &VortexSession,
) -> Result<bool, WireError> {
    let mut ctx = ArrayContext::empty(alloc);
    let options = SerializeOptions::default();
    let buffers = array.serialize(alloc, &mut ctx, session, &options)?;
    let same = match buffers.get(1) {
        Some(message) => is_message(alloc, array, session, message.as_slice(), 1),
        None => false,
    };
    Ok(same && count_of(alloc, &ctx) == Some(1))
}

// The same for three nulls.
fn are_nulls_of_the_blob(alloc: Global, session: &VortexSession) -> bool {
    match NullArray::new(alloc, 3) {
        Ok(array) => is_of_the_blob(alloc, &array, session) == Ok(true),
        Err(_) => false,
    }
}

#[test]
fn a_node_is_built(rt: HostRuntime) {
    match shipped(rt.alloc()) {
        Ok(session) => assert!(rt; are_nulls_of_the_blob(rt.alloc(), &session)),
        Err(_) => assert!(rt; false),
    }
}

// Whether an array's node is refused as it has no writer, and no identifier is taken.
fn is_refused(alloc: Global, array: &Array, session: &VortexSession) -> bool {
    let mut ctx = ArrayContext::empty(alloc);
    let error = match ArrayNodeFlatBuffer::try_new(alloc, &mut ctx, session, array) {
        Ok(_) => None,
        Err(e) => Some(e),
    };
    error == Some(WireError::NotRegistered) && count_of(alloc, &ctx) == Some(0)
}

// The same for three nulls.
fn are_nulls_refused(alloc: Global, session: &VortexSession) -> bool {
    match NullArray::new(alloc, 3) {
        Ok(array) => is_refused(alloc, &array, session),
        Err(_) => false,
    }
}

#[test]
fn a_node_is_not_built(rt: HostRuntime) {
    let alloc = rt.alloc();
    let session = VortexSession::new(ArraySession::empty(alloc), ExtSession::new(alloc));
    assert!(rt; are_nulls_refused(alloc, &session));
}
