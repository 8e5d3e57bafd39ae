//! The buffers that arrays hold.

ghost use Rattle.std.specs.Prelude.{◌≡◌, ◌≤◌, ◌<◌, ◌*◌, ◌^◌, ◌↔◌, [], length, slice_range, fold, IfOk, IsTrue, true, false, IsSomeAnd};
ghost use Rattle.std.specs.Hash as fed;
ghost use Rattle.vx_buffer.specs.Buffer.{IsAligned};

use crate::align::Alignment;
use crate::byte_buffer::ByteBuffer;
use crate::error::BufferError;
use std::alloc::Global;
use std::hash::{Hash, Hasher};
use std::marker::Model;
use std::ops::Range;

/// A buffer of an array, always in the memory of the host.
///
/// A device's memory is outside this project, so the calls that ask for the place of the bytes have one
/// answer each, and the calls that move them to the host hand over what is there.
#[derive(Drop)]
pub struct BufferHandle {
    buffer: ByteBuffer,
}

impl Model for BufferHandle {
    ghost use Rattle.vx_buffer.specs.Buffer.{Buffer};

    ghost Value = { Buffer };

    ghost view = { λ h. h.buffer };
}

impl BufferHandle {
    /// The handle of a buffer in host memory. No byte is copied.
    pub fn new_host(buffer: ByteBuffer) -> BufferHandle
        ensures { result ≡ buffer }
    {
        BufferHandle { buffer }
    }

    /// Always true.
    pub fn is_on_host(&self) -> bool
        ensures { result ≡ true }
    {
        true
    }

    /// Always false.
    pub fn is_on_device(&self) -> bool
        ensures { result ≡ false }
    {
        false
    }

    /// The length in bytes.
    pub fn len(&self) -> usize
        ensures { result ≡ length self.now.bytes }
    {
        self.buffer.len()
    }

    /// Whether there is no byte.
    pub fn is_empty(&self) -> bool
        ensures { IsTrue result ↔ (self.now.bytes ≡ []) }
    {
        self.buffer.is_empty()
    }

    /// The alignment that the buffer was given.
    pub fn alignment(&self) -> Alignment
        ensures { result ≡ self.now.exponent }
    {
        self.buffer.alignment()
    }

    /// Whether the buffer's alignment is at least this one.
    pub fn is_aligned_to(&self, alignment: Alignment) -> bool
        ensures { IsTrue result ↔ (alignment ≤ self.now.exponent) }
    {
        self.buffer.alignment().is_aligned_to(alignment)
    }

    /// The same bytes with this alignment. Nothing is moved or copied.
    pub fn ensure_aligned(self, alignment: Alignment) -> BufferHandle
        ensures bytes { result.bytes ≡ self.bytes }
        ensures exponent { result.exponent ≡ alignment }
    {
        BufferHandle {
            buffer: self.buffer.aligned(alignment),
        }
    }

    /// The bytes at `range`, with the buffer's alignment. No byte is copied. The only refusal is
    /// `OutOfMemory`, where the count of owners is full.
    pub fn slice(&self, alloc: Global, range: Range<usize>) -> Result<BufferHandle, BufferError>
        requires in_order { range.start ≤ range.end }
        requires inside { range.end ≤ length self.now.bytes }
        requires aligned { IsAligned range.start self.now.exponent }
        ensures bytes { IfOk result (λ h. h.bytes ≡ slice_range self.now.bytes range.start range.end) }
        ensures exponent { IfOk result (λ h. h.exponent ≡ self.now.exponent) }
    {
        Ok(BufferHandle {
            buffer: self.buffer.slice(alloc, range)?,
        })
    }

    /// The values at `range`, each of `width` bytes, with the buffer's alignment. No byte is copied. The
    /// only refusal is `OutOfMemory`, where the count of owners is full.
    pub fn slice_typed(
        &self,
        alloc: Global,
        width: usize,
        range: Range<usize>,
    ) -> Result<BufferHandle, BufferError>
        requires in_order { range.start ≤ range.end }
        requires fits { range.end * width < 2 ^ 64 }
        requires inside { range.end * width ≤ length self.now.bytes }
        requires aligned { IsAligned (range.start * width) self.now.exponent }
        ensures bytes { IfOk result (λ h. h.bytes ≡ slice_range self.now.bytes (range.start * width) (range.end * width)) }
        ensures exponent { IfOk result (λ h. h.exponent ≡ self.now.exponent) }
    {
        self.slice(alloc, range.start * width..range.end * width)
    }

    /// The buffer, borrowed.
    pub fn as_host(&self) -> &ByteBuffer
        ensures { result.now ≡ self.now }
    {
        &self.buffer
    }

    /// The buffer, borrowed: always `Some`.
    pub fn as_host_opt(&self) -> Option<&ByteBuffer>
        ensures { IsSomeAnd result (λ b. b.now ≡ self.now) }
    {
        Some(&self.buffer)
    }

    /// The buffer, moved out.
    pub fn unwrap_host(self) -> ByteBuffer
        ensures { result ≡ self }
    {
        self.buffer
    }

    /// The buffer, moved out. There is nothing to wait for.
    pub fn into_host_sync(self) -> ByteBuffer
        ensures { result ≡ self }
    {
        self.buffer
    }

    /// The buffer, moved out. There is nothing to wait for, and nothing to refuse.
    pub fn try_into_host_sync(self) -> ByteBuffer
        ensures { result ≡ self }
    {
        self.buffer
    }

    /// A clone of the buffer. No byte is copied; `OutOfMemory` where the count of owners is full.
    pub fn to_host_sync(&self, alloc: Global) -> Result<ByteBuffer, BufferError>
        ensures { IfOk result (λ b. b ≡ self.now) }
    {
        self.buffer.clone(alloc)
    }

    /// A clone of the buffer. No byte is copied; `OutOfMemory` where the count of owners is full.
    pub fn try_to_host_sync(&self, alloc: Global) -> Result<ByteBuffer, BufferError>
        ensures { IfOk result (λ b. b ≡ self.now) }
    {
        self.buffer.clone(alloc)
    }

    /// Another handle of the same bytes. None is copied; `OutOfMemory` where the count of owners is full.
    pub fn clone(&self, alloc: Global) -> Result<BufferHandle, BufferError>
        ensures { IfOk result (λ h. h ≡ self.now) }
    {
        Ok(BufferHandle {
            buffer: self.buffer.clone(alloc)?,
        })
    }

    /// Whether the bytes are equal. Alignments are not compared.
    pub fn array_eq(&self, other: &BufferHandle) -> bool
        ensures { IsTrue result ↔ (self.now.bytes ≡ other.now.bytes) }
    {
        self.buffer.as_slice() == other.buffer.as_slice()
    }

    /// Feeds the bytes to a hash, and not the alignment, as `array_eq` does not compare it.
    pub fn array_hash<H: Hasher>(&self, state: &mut H)
        ensures { state.new ≡ fold H.write state.old (fed.slice fed.u8 self.now.bytes) }
    {
        self.buffer.as_slice().hash(state);
    }
}
