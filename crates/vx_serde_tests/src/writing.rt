//! Arrays written as blobs, and why they are refused.

use crate::blobs::{are_joined, shipped, worked_blob, worked_id};
use crate::files::PADDED_BLOB;
use crate::nodes::{numbers, second};
use std::alloc::Global;
use vx_arrays::{Array, ArrayError, PrimitiveArray};
use vx_buffer::{Alignment, BufferHandle, ByteBuffer, ByteBuffers};
use vx_registry::{ArrayContext, ArraySession, RegistryError, VortexSession};
use vx_serde::{ArrayExt, SerializeOptions, WireError};
use vx_type_wire::ExtSession;
use vx_types::{Id, Ids, Nullability, PType, TypeError};

// The alignment of the numbers.
fn alignment() -> Alignment {
    match Alignment::new(4) {
        Some(alignment) => alignment,
        None => Alignment::none(),
    }
}

// The numbers 1, 2, 3 and 4.
fn four(alloc: Global) -> Result<Array, ArrayError> {
    let buffer = ByteBuffer::copy_from(alloc, numbers())?.aligned(alignment());
    let values = BufferHandle::new_host(buffer);
    PrimitiveArray::try_new(alloc, values, PType::I32, Nullability::NonNullable, 4, None)
}

// A list of identifiers.
fn ids_of(alloc: Global, texts: &[&str]) -> Result<Ids, TypeError> {
    let mut ids = Ids::new(alloc);
    for text in texts {
        ids.push(Id::new(alloc, text)?)?;
    }
    Ok(ids)
}

// Whether these are the identifiers, in this order.
fn are_ids(ids: &Ids, texts: &[&str]) -> bool {
    if ids.len() != texts.len() {
        return false;
    }
    for (id, text) in ids.as_slice().iter().zip(texts) {
        if id.as_str() != *text {
            return false;
        }
    }
    true
}

// Whether a context has these identifiers, in this order, and no other.
fn has_ids(alloc: Global, ctx: &ArrayContext, texts: &[&str]) -> bool {
    match ctx.to_ids(alloc) {
        Ok(ids) => are_ids(&ids, texts),
        Err(_) => false,
    }
}

// The options of a blob that is padded for this position.
fn padded(offset: usize) -> SerializeOptions {
    SerializeOptions {
        offset,
        include_padding: true,
        deep: false,
    }
}

// The worked blob, padded for position 3.
fn padded_blob() -> &'static [u8] {
    &PADDED_BLOB
}

// The four numbers as the buffers of a blob.
fn written_by(
    alloc: Global,
    options: &SerializeOptions,
    ctx: &mut ArrayContext,
    session: &VortexSession,
) -> Result<ByteBuffers, WireError> {
    match four(alloc) {
        Ok(array) => array.serialize(alloc, ctx, session, options),
        Err(_) => Err(WireError::OutOfMemory),
    }
}

// The same with the shipped encodings.
fn written(
    alloc: Global,
    options: &SerializeOptions,
    ctx: &mut ArrayContext,
) -> Result<ByteBuffers, WireError> {
    let session = shipped(alloc)?;
    written_by(alloc, options, ctx, &session)
}

// Whether a buffer is empty and aligned to 8.
fn is_first(buffer: &ByteBuffer) -> bool {
    buffer.is_empty() && buffer.alignment().exponent() == 3
}

// Whether buffers are a blob: a first one that is empty and aligned to 8, and together these bytes.
fn are_blob(alloc: Global, buffers: &ByteBuffers, blob: &[u8]) -> bool {
    match buffers.get(0) {
        Some(first) => is_first(first) && are_joined(alloc, buffers, blob),
        None => false,
    }
}

// Whether the four numbers are written as a blob.
fn is_written(
    alloc: Global,
    options: &SerializeOptions,
    ctx: &mut ArrayContext,
    blob: &[u8],
) -> bool {
    match written(alloc, options, ctx) {
        Ok(buffers) => are_blob(alloc, &buffers, blob),
        Err(_) => false,
    }
}

// A context that begins with these identifiers.
fn begun(alloc: Global, texts: &[&str]) -> Result<ArrayContext, RegistryError> {
    match ids_of(alloc, texts) {
        Ok(ids) => ArrayContext::new(alloc, &ids),
        Err(_) => Err(RegistryError::OutOfMemory),
    }
}

// Whether the four numbers are written as a blob from a context with these identifiers, which becomes one with those.
fn are_written(
    alloc: Global,
    options: &SerializeOptions,
    before: &[&str],
    blob: &[u8],
    after: &[&str],
) -> Result<bool, RegistryError> {
    let mut ctx = begun(alloc, before)?;
    let same = is_written(alloc, options, &mut ctx, blob);
    Ok(same && has_ids(alloc, &ctx, after))
}

// The same without padding.
fn are_plainly_written(alloc: Global, before: &[&str], blob: &[u8], after: &[&str]) -> bool {
    are_written(alloc, &SerializeOptions::default(), before, blob, after) == Ok(true)
}

#[test]
fn an_array_is_written(rt: HostRuntime) {
    let alloc = rt.alloc();
    let id = worked_id();
    assert!(rt; are_plainly_written(alloc, &[], worked_blob(), &[id]));
    assert!(rt; are_plainly_written(alloc, &[id], worked_blob(), &[id]));
    assert!(rt; are_plainly_written(alloc, &["a"], second(), &["a", id]));
    assert!(rt; are_written(alloc, &padded(3), &[], padded_blob(), &[id]) == Ok(true));
}

// A context that allows these identifiers.
fn limited(alloc: Global, texts: &[&str]) -> Result<ArrayContext, RegistryError> {
    match ids_of(alloc, texts) {
        Ok(ids) => ArrayContext::empty(alloc).with_allowed_ids(alloc, &ids),
        Err(_) => Err(RegistryError::OutOfMemory),
    }
}

// Whether the four numbers are refused with this refusal, and a context that allows some identifiers has taken these.
fn are_refused(
    alloc: Global,
    session: &VortexSession,
    allowed: &[&str],
    taken: &[&str],
    options: &SerializeOptions,
    error: WireError,
) -> Result<bool, RegistryError> {
    let mut ctx = limited(alloc, allowed)?;
    let refused = written_by(alloc, options, &mut ctx, session).err();
    Ok(refused == Some(error) && has_ids(alloc, &ctx, taken))
}

// Whether the shipped encodings refuse to write what the context does not allow, or at a place past any end.
fn is_limited(alloc: Global, session: &VortexSession) -> bool {
    let plain = SerializeOptions::default();
    let end = padded(usize::MAX);
    let barred = WireError::NotPermitted;
    let id = worked_id();
    are_refused(alloc, session, &["vortex.bool"], &[], &plain, barred) == Ok(true)
        && are_refused(alloc, session, &[id], &[id], &end, WireError::WireLimit) == Ok(true)
}

// Whether the empty session refuses to write what the context allows.
fn is_unwritten(alloc: Global) -> bool {
    let session = VortexSession::new(ArraySession::empty(alloc), ExtSession::new(alloc));
    let plain = SerializeOptions::default();
    let missing = WireError::NotRegistered;
    are_refused(alloc, &session, &[worked_id()], &[], &plain, missing) == Ok(true)
}

#[test]
fn an_array_is_not_written(rt: HostRuntime) {
    match shipped(rt.alloc()) {
        Ok(session) => assert!(rt; is_limited(rt.alloc(), &session)),
        Err(_) => assert!(rt; false),
    }
    assert!(rt; is_unwritten(rt.alloc()));
    assert_eq!(rt; WireError::NotRegistered.number(), 25);
}
