//! Shared bytes with an alignment.

ghost use Rattle.std.specs.Prelude.{◌≡◌, ◌≤◌, ◌↔◌, [], length, slice_range, IfOk, IsTrue};

use crate::align::Alignment;
use crate::error::BufferError;
use bytes::Bytes;
use std::alloc::Global;
use std::marker::Model;
use std::ops::Range;

/// Bytes with an alignment, shared by its clones and slices.
///
/// The alignment is a number beside the bytes. No call moves bytes so that their address has it; a
/// writer of blobs uses it to place them in a file.
#[derive(Drop)]
pub struct ByteBuffer {
    bytes: Bytes,
    alignment: Alignment,
}

impl Model for ByteBuffer {
    ghost use Rattle.vx_buffer.specs.Buffer.{Buffer};

    ghost Value = { Buffer };

    ghost view = { λ b. record { bytes = b.bytes; exponent = b.alignment } };
}

impl ByteBuffer {
    /// A buffer of no bytes, with no alignment. It takes no memory.
    pub fn empty() -> ByteBuffer
        ensures bytes { result.bytes ≡ [] }
        ensures exponent { result.exponent ≡ 0 }
    {
        ByteBuffer {
            bytes: Bytes::new(),
            alignment: Alignment::none(),
        }
    }

    /// A copy of these bytes, with no alignment. The only refusal is `OutOfMemory`.
    pub fn copy_from(alloc: Global, bytes: &[u8]) -> Result<ByteBuffer, BufferError>
        ensures bytes { IfOk result (λ b. b.bytes ≡ bytes.now) }
        ensures exponent { IfOk result (λ b. b.exponent ≡ 0) }
    {
        Ok(ByteBuffer {
            bytes: Bytes::copy_from_slice(alloc, bytes)?,
            alignment: Alignment::none(),
        })
    }

    /// A buffer of these bytes, with no alignment. No byte is copied; `OutOfMemory` where the count of
    /// owners cannot be allocated.
    pub fn from_vec(bytes: Vec<u8>) -> Result<ByteBuffer, BufferError>
        ensures bytes { IfOk result (λ b. b.bytes ≡ bytes.items) }
        ensures exponent { IfOk result (λ b. b.exponent ≡ 0) }
    {
        Ok(ByteBuffer {
            bytes: Bytes::from_vec(bytes)?,
            alignment: Alignment::none(),
        })
    }

    /// The length in bytes.
    pub fn len(&self) -> usize
        ensures { result ≡ length self.now.bytes }
    {
        self.bytes.len()
    }

    /// Whether there is no byte.
    pub fn is_empty(&self) -> bool
        ensures { IsTrue result ↔ (self.now.bytes ≡ []) }
    {
        self.bytes.is_empty()
    }

    /// The bytes, borrowed.
    pub fn as_slice(&self) -> &[u8]
        ensures { result.now ≡ self.now.bytes }
    {
        self.bytes.as_slice()
    }

    /// The alignment that the buffer was given.
    pub fn alignment(&self) -> Alignment
        ensures { result ≡ self.now.exponent }
    {
        self.alignment
    }

    /// The same bytes with this alignment. Nothing is moved or copied.
    pub fn aligned(self, alignment: Alignment) -> ByteBuffer
        ensures bytes { result.bytes ≡ self.bytes }
        ensures exponent { result.exponent ≡ alignment }
    {
        ByteBuffer {
            bytes: self.bytes,
            alignment,
        }
    }

    /// The bytes at `range`, with the buffer's alignment. No byte is copied. The only refusal is
    /// `OutOfMemory`, where the count of owners is full.
    pub fn slice(&self, _alloc: Global, range: Range<usize>) -> Result<ByteBuffer, BufferError>
        requires in_order { range.start ≤ range.end }
        requires inside { range.end ≤ length self.now.bytes }
        ensures bytes { IfOk result (λ b. b.bytes ≡ slice_range self.now.bytes range.start range.end) }
        ensures exponent { IfOk result (λ b. b.exponent ≡ self.now.exponent) }
    {
        let bytes = self.bytes.slice(range.start..range.end)?;
        let alignment = self.alignment;
        Ok(ByteBuffer { bytes, alignment })
    }

    /// Another owner of the same bytes. None is copied; `OutOfMemory` where the count of owners is full.
    pub fn clone(&self, _alloc: Global) -> Result<ByteBuffer, BufferError>
        ensures { IfOk result (λ b. b ≡ self.now) }
    {
        Ok(ByteBuffer {
            bytes: self.bytes.clone()?,
            alignment: self.alignment,
        })
    }
}
