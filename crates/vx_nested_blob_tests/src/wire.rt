//! Arrays written, and read again at a type and a length.

use std::alloc::{AllocError, Global};
use vx_arrays::{Array, ArrayError};
use vx_buffer::ByteBuffer;
use vx_registry::{ArrayContext, ArraySession, ReadContext, VortexSession};
use vx_serde::{
    ArrayExt, ArrayNodeFlatBuffer, Recoded, SerializeOptions, SerializedArray, WireError, recode,
};
use vx_test_arrays::parts::{Made, both};
use vx_type_wire::ExtSession;
use vx_types::{DType, Id, Ids, TypeError};

/// A change of what was written, before it is read.
#[derive(Clone, Copy)]
pub(crate) enum Change<'a> {
    /// Nothing.
    Nothing,
    /// The first occurrence of bytes in the blob, replaced by as many others.
    Bytes(&'a [u8], &'a [u8]),
    /// An identifier, replaced by another one.
    Id(&'a str, &'a str),
}

// A session of the shipped encodings, without readers of extensions.
fn shipped(alloc: Global) -> Result<VortexSession, WireError> {
    match ArraySession::default(alloc) {
        Ok(arrays) => Ok(VortexSession::new(arrays, ExtSession::new(alloc))),
        Err(_) => Err(WireError::OutOfMemory),
    }
}

// The same, and nodes that nothing reads are kept.
fn keeping(alloc: Global) -> Result<VortexSession, WireError> {
    let mut session = shipped(alloc)?;
    session.ext.allow_unknown();
    Ok(session)
}

// The bytes of an array's blob, by these options.
fn blob_by(
    alloc: Global,
    array: &Array,
    session: &VortexSession,
    ctx: &mut ArrayContext,
    options: &SerializeOptions,
) -> Result<ByteBuffer, WireError> {
    let buffers = array.serialize(alloc, ctx, session, options)?;
    let blob = buffers.join(alloc);
    drop(buffers);
    Ok(blob?)
}

// The place of the first occurrence of bytes in others.
fn find(bytes: &[u8], part: &[u8]) -> Option<usize> {
    for i in 0..bytes.len() {
        if bytes[i..].starts_with(part) {
            return Some(i);
        }
    }
    None
}

// Puts bytes at a place.
fn put(bytes: &mut Vec<u8>, place: usize, new: &[u8]) {
    for i in 0..new.len() {
        if let Some(byte) = bytes.get_mut(place.saturating_add(i)) {
            *byte = new[i];
        }
    }
}

// Bytes with the first occurrence of some replaced by others.
fn replaced(alloc: Global, bytes: &[u8], old: &[u8], new: &[u8]) -> Result<Vec<u8>, AllocError> {
    let mut changed = Vec::from_slice(alloc, bytes)?;
    if let Some(place) = find(bytes, old) {
        put(&mut changed, place, new);
    }
    Ok(changed)
}

// A blob with the first occurrence of some bytes replaced by others.
fn patched(
    alloc: Global,
    blob: ByteBuffer,
    old: &[u8],
    new: &[u8],
) -> Result<ByteBuffer, WireError> {
    let bytes = replaced(alloc, blob.as_slice(), old, new);
    drop(blob);
    Ok(ByteBuffer::from_vec(bytes?)?)
}

// A blob once it is changed.
fn changed(
    alloc: Global,
    blob: Result<ByteBuffer, WireError>,
    change: Change<'_>,
) -> Result<ByteBuffer, WireError> {
    match change {
        Change::Bytes(old, new) => patched(alloc, blob?, old, new),
        _ => blob,
    }
}

// A text, or another one in place of this one.
fn name_of<'a>(text: &'a str, change: Change<'a>) -> &'a str {
    match change {
        Change::Id(old, new) => { if text == old { new } else { text } }
        _ => text,
    }
}

// Appends identifiers, once they are changed.
fn push_renamed(
    alloc: Global,
    ids: &[Id],
    change: Change<'_>,
    named: &mut Ids,
) -> Result<(), TypeError> {
    for id in ids {
        named.push(Id::new(alloc, name_of(id.as_str(), change))?)?;
    }
    Ok(())
}

// Identifiers once they are changed, for a reader.
fn renamed(alloc: Global, ids: &Ids, change: Change<'_>) -> Result<ReadContext, WireError> {
    let mut named = Ids::new(alloc);
    match push_renamed(alloc, ids.as_slice(), change, &mut named) {
        Ok(()) => Ok(ReadContext::new(named)),
        Err(_) => {
            drop(named);
            Err(WireError::OutOfMemory)
        }
    }
}

// The identifiers by which what was written is read.
fn read_ids(
    alloc: Global,
    ctx: &ArrayContext,
    change: Change<'_>,
) -> Result<ReadContext, WireError> {
    match ctx.to_ids(alloc) {
        Ok(ids) => {
            let named = renamed(alloc, &ids, change);
            drop(ids);
            named
        }
        Err(_) => Err(WireError::OutOfMemory),
    }
}

// An array's blob by these options, and the identifiers by which it is read, once both are changed.
fn written(
    alloc: Global,
    array: &Array,
    change: Change<'_>,
    session: &VortexSession,
    options: &SerializeOptions,
) -> Result<(ByteBuffer, ReadContext), WireError> {
    let mut ctx = ArrayContext::empty(alloc);
    let blob = blob_by(alloc, array, session, &mut ctx, options);
    let ids = read_ids(alloc, &ctx, change);
    drop(ctx);
    both(changed(alloc, blob, change), ids)
}

// The array that a blob holds at a type and length.
fn decoded(
    alloc: Global,
    blob: ByteBuffer,
    dtype: &DType,
    len: usize,
    ids: &ReadContext,
    session: &VortexSession,
) -> Result<Array, WireError> {
    let serialized = SerializedArray::try_from_buffer(alloc, blob)?;
    let array = serialized.decode(alloc, dtype, len, ids, session);
    drop(serialized);
    array
}

// An array written, and read at a type and length once it is changed, with this session.
fn read_under(
    alloc: Global,
    array: &Array,
    dtype: &DType,
    len: usize,
    change: Change<'_>,
    session: &VortexSession,
) -> Result<Array, WireError> {
    let options = SerializeOptions::default();
    let (blob, ids) = written(alloc, array, change, session, &options)?;
    let read = decoded(alloc, blob, dtype, len, &ids, session);
    drop(ids);
    read
}

// The same with the shipped encodings.
fn read(
    alloc: Global,
    array: &Array,
    dtype: &DType,
    len: usize,
    change: Change<'_>,
) -> Result<Array, WireError> {
    let session = shipped(alloc)?;
    let read = read_under(alloc, array, dtype, len, change, &session);
    drop(session);
    read
}

/// An array written, and read at its own type and length once it is changed, where nodes that nothing reads are kept.
pub(crate) fn kept(alloc: Global, array: &Array, change: Change<'_>) -> Result<Array, WireError> {
    let session = keeping(alloc)?;
    let read = read_under(alloc, array, array.dtype(), array.len(), change, &session);
    drop(session);
    read
}

/// Why an array is not written under the shipped encodings, if it is not.
pub(crate) fn unwritten_array(alloc: Global, array: &Array) -> Option<WireError> {
    blob_of(alloc, array).err()
}

// A blob recoded at the type and length of an array, by these identifiers, encodings and options.
fn recoded_by(
    alloc: Global,
    blob: ByteBuffer,
    array: &Array,
    ids: &ReadContext,
    ctx: &mut ArrayContext,
    session: &VortexSession,
    options: &SerializeOptions,
) -> Result<Recoded, WireError> {
    let (dtype, len) = (array.dtype(), array.len());
    recode(alloc, blob, dtype, len, ids, ctx, session, options)
}

// An array written, and what was written recoded at its type and length once it is changed, with this session and
// options.
fn recoded_under(
    alloc: Global,
    array: &Array,
    change: Change<'_>,
    ctx: &mut ArrayContext,
    session: &VortexSession,
    options: &SerializeOptions,
) -> Result<Recoded, WireError> {
    let (blob, ids) = written(alloc, array, change, session, options)?;
    let recoded = recoded_by(alloc, blob, array, &ids, ctx, session, options);
    drop(ids);
    recoded
}

/// An array written, and what was written recoded under the shipped encodings and by these options; a context takes the
/// identifiers.
pub(crate) fn recoded_with(
    alloc: Global,
    array: &Array,
    ctx: &mut ArrayContext,
    options: &SerializeOptions,
) -> Result<Recoded, WireError> {
    let session = shipped(alloc)?;
    let recoded = recoded_under(alloc, array, Change::Nothing, ctx, &session, options);
    drop(session);
    recoded
}

/// The same without pads, where no deep tree is asked for.
pub(crate) fn recoded(
    alloc: Global,
    array: &Array,
    ctx: &mut ArrayContext,
) -> Result<Recoded, WireError> {
    recoded_with(alloc, array, ctx, &SerializeOptions::default())
}

/// The same once identifiers are changed, where nodes that nothing reads are kept.
pub(crate) fn recoded_kept(
    alloc: Global,
    array: &Array,
    change: Change<'_>,
    ctx: &mut ArrayContext,
) -> Result<Recoded, WireError> {
    let session = keeping(alloc)?;
    let options = SerializeOptions::default();
    let recoded = recoded_under(alloc, array, change, ctx, &session, &options);
    drop(session);
    recoded
}

/// The blob of an array under the shipped encodings and by these options.
pub(crate) fn blob_with(
    alloc: Global,
    array: &Array,
    options: &SerializeOptions,
) -> Result<ByteBuffer, WireError> {
    let session = shipped(alloc)?;
    let mut ctx = ArrayContext::empty(alloc);
    let blob = blob_by(alloc, array, &session, &mut ctx, options);
    drop(ctx);
    drop(session);
    blob
}

/// The same without pads, where no deep tree is asked for.
pub(crate) fn blob_of(alloc: Global, array: &Array) -> Result<ByteBuffer, WireError> {
    blob_with(alloc, array, &SerializeOptions::default())
}

/// Why an array is no node of a message that a caller builds, if it is none.
pub(crate) fn unbuilt(alloc: Global, array: &Array) -> Result<Option<WireError>, WireError> {
    let session = shipped(alloc)?;
    let mut ctx = ArrayContext::empty(alloc);
    let refused = ArrayNodeFlatBuffer::try_new(alloc, &mut ctx, &session, array).err();
    drop(ctx);
    drop(session);
    Ok(refused)
}

// An array written, and read at the type and length of another one.
fn read_as(alloc: Global, array: &Array, other: &Array) -> Result<Array, WireError> {
    read(alloc, array, other.dtype(), other.len(), Change::Nothing)
}

// Whether an array is read again as another one.
fn comes_as(alloc: Global, array: &Array, other: &Array) -> bool {
    match read_as(alloc, array, other) {
        Ok(read) => {
            let same = read.array_eq(other);
            drop(read);
            same
        }
        Err(_) => false,
    }
}

/// Whether an array is read again as another one, if both were made.
pub(crate) fn is_read_as(alloc: Global, array: Made, other: Made) -> bool {
    match both(array, other) {
        Ok((array, other)) => {
            let same = comes_as(alloc, &array, &other);
            drop(other);
            drop(array);
            same
        }
        Err(_) => false,
    }
}

/// Why an array is not read at the type of another and a length once it is changed, if it is not.
pub(crate) fn refusal(
    alloc: Global,
    array: Made,
    kind: Made,
    len: usize,
    change: Change<'_>,
) -> Option<WireError> {
    match both(array, kind) {
        Ok((array, kind)) => {
            let refused = read(alloc, &array, kind.dtype(), len, change).err();
            drop(kind);
            drop(array);
            refused
        }
        Err(_) => Some(WireError::OutOfMemory),
    }
}
