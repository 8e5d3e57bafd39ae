//! The sessions, contexts and blobs of the tests.

use std::alloc::{AllocError, Global};
use vx_arrays::{Array, ArrayError, VarBinArray};
use vx_buffer::{BufferHandle, ByteBuffer};
use vx_registry::{ArrayContext, ArraySession, RegistryError, VortexSession};
use vx_serde::{ArrayExt, SerializeOptions, WireError};
use vx_test_arrays::parts::{Made, There, both, bytes, dicts, nulls, numbers};
use vx_type_wire::ExtSession;
use vx_types::{DType, Id, Ids, Nullability, PType, TypeError};

// A session of the shipped encodings, without readers of extensions.
fn shipped(alloc: Global) -> Result<VortexSession, WireError> {
    match ArraySession::default(alloc) {
        Ok(arrays) => Ok(VortexSession::new(arrays, ExtSession::new(alloc))),
        Err(_) => Err(WireError::OutOfMemory),
    }
}

// The same, in which nodes that nothing reads are kept.
fn keeping(alloc: Global) -> Result<VortexSession, WireError> {
    let mut session = shipped(alloc)?;
    session.ext.allow_unknown();
    Ok(session)
}

/// A session of the shipped encodings, without readers of extensions; what is unknown may be allowed.
pub fn session_of(alloc: Global, unknown: bool) -> Result<VortexSession, WireError> {
    if unknown {
        keeping(alloc)
    } else {
        shipped(alloc)
    }
}

/// A list of identifiers.
pub fn ids_of(alloc: Global, texts: &[&str]) -> Result<Ids, TypeError> {
    let mut ids = Ids::new(alloc);
    for text in texts {
        ids.push(Id::new(alloc, text)?)?;
    }
    Ok(ids)
}

/// A context that begins with these identifiers, and allows all.
pub fn begun(alloc: Global, texts: &[&str]) -> Result<ArrayContext, RegistryError> {
    match ids_of(alloc, texts) {
        Ok(ids) => ArrayContext::new(alloc, &ids),
        Err(_) => Err(RegistryError::OutOfMemory),
    }
}

/// The same, which allows these identifiers alone.
pub fn limited(
    alloc: Global,
    texts: &[&str],
    allowed: &[&str],
) -> Result<ArrayContext, RegistryError> {
    match ids_of(alloc, allowed) {
        Ok(ids) => begun(alloc, texts)?.with_allowed_ids(alloc, &ids),
        Err(_) => Err(RegistryError::OutOfMemory),
    }
}

// Whether these are the identifiers, in this order.
fn are_ids(ids: &Ids, texts: &[&str]) -> bool {
    if ids.len() != texts.len() {
        return false;
    }
    for (id, text) in ids.as_slice().iter().zip(texts) {
        if id.as_str() != *text {
            return false;
        }
    }
    true
}

/// Whether a context has these identifiers, in this order, and no other.
pub fn has_ids(alloc: Global, ctx: &ArrayContext, texts: &[&str]) -> bool {
    match ctx.to_ids(alloc) {
        Ok(ids) => are_ids(&ids, texts),
        Err(_) => false,
    }
}

/// A byte of the value 1, not null: numbers over a validity, two nodes.
pub fn one_there(alloc: Global) -> Made {
    numbers(alloc, PType::U8, &[1], There::Bits(1))
}

// A byte that is not UTF-8.
fn no_letter(alloc: Global) -> Result<BufferHandle, ArrayError> {
    let buffer = ByteBuffer::copy_from(alloc, &[255])?;
    Ok(BufferHandle::new_host(buffer))
}

// One row of that byte.
fn no_text(alloc: Global) -> Made {
    let (offsets, bytes) = both(bytes(alloc, &[0, 1]), no_letter(alloc))?;
    let dtype = DType::Binary(Nullability::NonNullable);
    VarBinArray::try_new(alloc, dtype, offsets, bytes, None)
}

// The bytes of an array's blob.
fn blob_by(
    alloc: Global,
    array: &Array,
    session: &VortexSession,
    ctx: &mut ArrayContext,
) -> Result<Vec<u8>, WireError> {
    let buffers = array.serialize(alloc, ctx, session, &SerializeOptions::default())?;
    Ok(Vec::from_slice(alloc, buffers.join(alloc)?.as_slice())?)
}

// The same with the shipped encodings.
fn blob_of(alloc: Global, array: &Array) -> Result<Vec<u8>, WireError> {
    let session = session_of(alloc, false)?;
    let mut ctx = ArrayContext::empty(alloc);
    let blob = blob_by(alloc, array, &session, &mut ctx);
    drop(ctx);
    drop(session);
    blob
}

// The same for an array, if it was made.
fn blob_of_made(alloc: Global, array: Made) -> Result<Vec<u8>, WireError> {
    match array {
        Ok(array) => blob_of(alloc, &array),
        Err(_) => Err(WireError::OutOfMemory),
    }
}

/// The blob of bytes that are not UTF-8, in one row.
pub fn blob_of_no_text(alloc: Global) -> Result<Vec<u8>, WireError> {
    blob_of_made(alloc, no_text(alloc))
}

/// The blob of a dictionary: a code of a byte and a null that it names.
pub fn blob_of_codes(alloc: Global) -> Result<Vec<u8>, WireError> {
    blob_of_made(alloc, dicts(alloc, bytes(alloc, &[0]), nulls(alloc, 1)))
}

/// The blob of a number over a validity.
pub fn blob_of_one_there(alloc: Global) -> Result<Vec<u8>, WireError> {
    blob_of_made(alloc, one_there(alloc))
}

/// Bytes with others at some places.
pub fn changed(
    alloc: Global,
    bytes: &[u8],
    changes: &[(usize, u8)],
) -> Result<Vec<u8>, AllocError> {
    let mut changed = Vec::from_slice(alloc, bytes)?;
    for (place, byte) in changes {
        if let Some(old) = changed.get_mut(*place) {
            *old = *byte;
        }
    }
    Ok(changed)
}
