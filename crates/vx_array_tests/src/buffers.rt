//! Tests of slices, alignments and lists of buffers, and of the texts of errors.

use crate::parts::{aligned_to, prints};
use std::alloc::Global;
use std::hash::{FoldHasher, Hasher};
use vx_buffer::{Alignment, BufferError, BufferHandle, BufferHandles, ByteBuffer, ByteBuffers};

// The exponent of an alignment of n bytes, if there is one.
fn exponent_of(bytes: usize) -> Option<u8> {
    match Alignment::new(bytes) {
        Some(alignment) => Some(alignment.exponent()),
        None => None,
    }
}

#[test]
fn alignments_are_powers_of_two(rt: HostRuntime) {
    for (bytes, exponent) in [
        (1, Some(0)),
        (2, Some(1)),
        (3, None),
        (0, None),
        (4096, Some(12)),
        (1usize << 63, Some(63)),
    ] {
        assert!(rt; exponent_of(bytes) == exponent, "at {bytes}");
    }
    assert!(rt; Alignment::from_exponent(64).is_none());
}

#[test]
fn alignments_are_compared(rt: HostRuntime) {
    let word = aligned_to(2);
    assert!(rt; word.as_usize() == 4);
    assert!(rt; word.is_aligned_to(Alignment::none()));
    assert!(rt; !Alignment::none().is_aligned_to(word));
}

// The last three of four bytes, aligned to 4.
fn part(alloc: Global) -> Result<ByteBuffer, BufferError> {
    let buffer = ByteBuffer::copy_from(alloc, &[1, 2, 3, 4])?.aligned(aligned_to(2));
    buffer.slice(alloc, 1..4)
}

// Whether a buffer has these bytes and this alignment.
fn is_buffer(buffer: &ByteBuffer, bytes: &[u8], exponent: u8) -> bool {
    buffer.as_slice() == bytes
        && buffer.len() == bytes.len()
        && buffer.alignment().exponent() == exponent
}

// Whether a slice of a buffer keeps its alignment.
fn is_kept(alloc: Global) -> Result<bool, BufferError> {
    let part = part(alloc)?;
    Ok(is_buffer(&part, &[2, 3, 4], 2))
}

// A buffer of a vector.
fn owned(alloc: Global) -> Result<ByteBuffer, BufferError> {
    let bytes = Vec::from_slice(alloc, &[2, 3, 4])?;
    ByteBuffer::from_vec(bytes)
}

// Whether it is aligned to nothing.
fn is_unaligned(alloc: Global) -> Result<bool, BufferError> {
    let owned = owned(alloc)?;
    Ok(is_buffer(&owned, &[2, 3, 4], 0))
}

// A copy of the slice.
fn copied_part(alloc: Global) -> Result<BufferHandle, BufferError> {
    let part = part(alloc)?;
    Ok(BufferHandle::new_host(part.clone(alloc)?))
}

// Whether a buffer equals that copy.
fn is_equal(alloc: Global, handle: &BufferHandle) -> Result<bool, BufferError> {
    let other = copied_part(alloc)?;
    Ok(handle.array_eq(&other))
}

// Whether equal bytes are equal buffers, however aligned.
fn are_equal(alloc: Global) -> Result<bool, BufferError> {
    let handle = BufferHandle::new_host(owned(alloc)?);
    is_equal(alloc, &handle)
}

// A list of one buffer.
fn list_of_one(alloc: Global) -> Result<ByteBuffers, BufferError> {
    let part = part(alloc)?;
    let mut buffers = ByteBuffers::new(alloc);
    buffers.push(part)?;
    Ok(buffers)
}

// How many a copy of it has.
fn copied_count(alloc: Global) -> Result<usize, BufferError> {
    let buffers = list_of_one(alloc)?;
    let copy = buffers.clone(alloc)?;
    Ok(copy.len())
}

#[test]
fn buffers_keep_their_alignment(rt: HostRuntime) {
    let alloc = rt.alloc();
    assert!(rt; is_kept(alloc) == Ok(true));
    assert!(rt; is_unaligned(alloc) == Ok(true));
    assert!(rt; are_equal(alloc) == Ok(true));
    assert!(rt; ByteBuffer::empty().is_empty());
    assert!(rt; copied_count(alloc) == Ok(1));
}

// Four words, each of four bytes.
const WORDS: [u8; 16] = [1, 0, 0, 0, 2, 0, 0, 0, 3, 0, 0, 0, 4, 0, 0, 0];

// A buffer of bytes.
fn handle(alloc: Global, bytes: &[u8]) -> Result<BufferHandle, BufferError> {
    Ok(BufferHandle::new_host(ByteBuffer::copy_from(alloc, bytes)?))
}

// Whether a slice by bytes has those.
fn is_sliced_by_bytes(alloc: Global) -> Result<bool, BufferError> {
    let bytes = BufferHandle::new_host(ByteBuffer::copy_from(alloc, &[1, 2, 3, 4])?);
    let part = bytes.slice(alloc, 1..4)?;
    Ok(part.as_host().as_slice() == [2, 3, 4].as_slice())
}

// The last three words.
fn three_words(alloc: Global) -> Result<BufferHandle, BufferError> {
    let words = BufferHandle::new_host(ByteBuffer::copy_from(alloc, &WORDS)?);
    words.slice_typed(alloc, 4, 1..4)
}

// Whether a slice by words has those, copied.
fn is_sliced_by_words(alloc: Global) -> Result<bool, BufferError> {
    let part = three_words(alloc)?;
    let host = part.to_host_sync(alloc)?;
    Ok(host.as_slice() == [2, 0, 0, 0, 3, 0, 0, 0, 4, 0, 0, 0].as_slice())
}

// How many bytes a copy of a buffer has, where one can be had.
fn copied_len(alloc: Global) -> Result<usize, BufferError> {
    let words = handle(alloc, &WORDS)?;
    let copy = words.try_to_host_sync(alloc)?;
    Ok(copy.len())
}

// A list of one buffer.
fn handles(alloc: Global) -> Result<BufferHandles, BufferError> {
    let mut handles = BufferHandles::new(alloc);
    handles.push(handle(alloc, &WORDS)?)?;
    Ok(handles)
}

// How many buffers a copy of it has.
fn listed(alloc: Global) -> Result<usize, BufferError> {
    let handles = handles(alloc)?;
    let copy = handles.clone(alloc)?;
    Ok(copy.into_vec().len())
}

fn hash_of(handle: &BufferHandle) -> u64 {
    let mut state = FoldHasher::default();
    handle.array_hash(&mut state);
    state.finish()
}

// Whether a buffer's hash is that of its copy at this alignment.
fn is_hashed_alike(alloc: Global, alignment: Alignment) -> Result<bool, BufferError> {
    let bytes = handle(alloc, &[1, 2])?;
    let aligned = bytes.clone(alloc)?.ensure_aligned(alignment);
    Ok(aligned.is_aligned_to(alignment) && hash_of(&bytes) == hash_of(&aligned))
}

#[test]
fn handles_are_sliced_by_bytes_and_by_values(rt: HostRuntime) {
    let alloc = rt.alloc();
    assert!(rt; is_sliced_by_bytes(alloc) == Ok(true));
    assert!(rt; is_sliced_by_words(alloc) == Ok(true));
    assert!(rt; copied_len(alloc) == Ok(16));
    assert!(rt; listed(alloc) == Ok(1));
    assert!(rt; is_hashed_alike(alloc, aligned_to(3)) == Ok(true));
}

#[test]
fn errors_are_printed(rt: HostRuntime) {
    assert!(rt; prints(rt.alloc(), &BufferError::OutOfMemory, "out of memory"));
}
