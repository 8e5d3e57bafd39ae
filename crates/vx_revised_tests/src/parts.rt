//! The parts of the tests of two identifiers.

use std::alloc::Global;
use vx_arrays::{Array, PrimitiveArray};
use vx_buffer::{Alignment, BufferHandle, ByteBuffer};
use vx_encodings::Encoding;
use vx_registry::{ArrayContext, ArraySession, PluginEntry, ReadContext, VortexSession};
use vx_serde::{ArrayExt, SerializeOptions, WireError};
use vx_type_wire::ExtSession;
use vx_types::{DType, Id, Ids, Nullability, PType};

/// Both identifiers.
pub(crate) const OLD: &'static str = "vortex.primitive";

pub(crate) const SECOND: &'static str = "vortex.primitive.v2";

/// What is registered in a session.
#[derive(Clone, Copy)]
pub(crate) enum Registered {
    /// The shipped encodings: primitives have one identifier.
    Shipped,
    /// The shipped encodings, and then primitives under two identifiers.
    Revised,
    /// The same, and then primitives under one again.
    RevisedThenShipped,
    /// Primitives under two identifiers, and nothing else.
    RevisedAlone,
}

/// Allocation failure, for any refusal.
pub(crate) fn lacking<T: Drop, E: Drop>(made: Result<T, E>) -> Result<T, WireError> {
    match made {
        Ok(value) => Ok(value),
        Err(_) => Err(WireError::OutOfMemory),
    }
}

// The entries of a session.
fn arrays_of(alloc: Global, registered: Registered) -> Result<ArraySession, WireError> {
    match registered {
        Registered::Shipped => lacking(ArraySession::default(alloc)),
        Registered::Revised => lacking(ArraySession::revised(alloc)),
        Registered::RevisedThenShipped => {
            let mut arrays = lacking(ArraySession::revised(alloc))?;
            lacking(arrays.register(PluginEntry::Shipped(Encoding::Primitive)))?;
            Ok(arrays)
        }
        Registered::RevisedAlone => {
            let mut arrays = ArraySession::empty(alloc);
            lacking(arrays.register(PluginEntry::Revised))?;
            Ok(arrays)
        }
    }
}

/// A session in which these are registered, without readers of extensions.
pub(crate) fn session_of(
    alloc: Global,
    registered: Registered,
) -> Result<VortexSession, WireError> {
    let arrays = arrays_of(alloc, registered)?;
    Ok(VortexSession::new(arrays, ExtSession::new(alloc)))
}

/// The numbers from 0 up to `count`.
pub(crate) fn numbers(alloc: Global, count: u32) -> Result<Array, WireError> {
    let mut bytes = Vec::new(alloc);
    for i in 0..count {
        bytes.extend_from_slice(&i.to_le_bytes())?;
    }
    let Some(alignment) = Alignment::new(4) else {
        return Err(WireError::BadShape);
    };
    let buffer = lacking(ByteBuffer::copy_from(alloc, &bytes))?;
    let values = BufferHandle::new_host(buffer.aligned(alignment));
    let never = Nullability::NonNullable;
    lacking(PrimitiveArray::try_new(alloc, values, PType::I32, never, count as usize, None))
}

/// The type of the numbers.
pub(crate) fn number_type() -> DType {
    DType::Primitive(PType::I32, Nullability::NonNullable)
}

/// A list of one identifier.
pub(crate) fn ids_of(alloc: Global, text: &str) -> Result<Ids, WireError> {
    let mut ids = Ids::new(alloc);
    let id = lacking(Id::new(alloc, text))?;
    lacking(ids.push(id))?;
    Ok(ids)
}

/// The identifiers of a blob that names this one alone.
pub(crate) fn read_context(alloc: Global, text: &str) -> Result<ReadContext, WireError> {
    Ok(ReadContext::new(ids_of(alloc, text)?))
}

/// Whether a context has this identifier, and no other.
pub(crate) fn has_id(alloc: Global, ctx: &ArrayContext, text: &str) -> Result<bool, WireError> {
    let ids = lacking(ctx.to_ids(alloc))?;
    if ids.len() != 1 {
        return Ok(false);
    }
    match ids.get(0) {
        Some(id) => Ok(id.as_str() == text),
        None => Ok(false),
    }
}

// The blob of an array.
fn written(alloc: Global, array: &Array, session: &VortexSession) -> Result<ByteBuffer, WireError> {
    let mut ctx = ArrayContext::empty(alloc);
    let buffers = array.serialize(alloc, &mut ctx, session, &SerializeOptions::default())?;
    lacking(buffers.join(alloc))
}

/// The blob of `count` numbers, whose node names its encoding by 0.
pub(crate) fn blob_of(alloc: Global, count: u32) -> Result<ByteBuffer, WireError> {
    let array = numbers(alloc, count)?;
    let session = session_of(alloc, Registered::Shipped)?;
    written(alloc, &array, &session)
}
