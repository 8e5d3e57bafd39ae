//! Lists of buffers.

ghost use Rattle.std.specs.Prelude.{◌≡◌, ◌↔◌, [], ◌∷◌, ◌++◌, length, slice_get, IfNone, IfOk, IfSome, IsTrue, OnOk, OnErr};
ghost use Rattle.std.specs.Option.{option_copied};
ghost use Rattle.vx_buffer.specs.Joined.{joined};

use crate::byte_buffer::ByteBuffer;
use crate::error::BufferError;
use crate::handle::BufferHandle;
use std::alloc::Global;
use std::marker::Model;

/// A list of byte buffers.
#[derive(Drop)]
pub struct ByteBuffers {
    items: Vec<ByteBuffer>,
}

impl Model for ByteBuffers {
    ghost use Rattle.std.specs.Prelude.{List};
    ghost use Rattle.vx_buffer.specs.Buffer.{Buffer};

    ghost Value = { List Buffer };

    ghost view = { λ b. b.items.items };
}

impl ByteBuffers {
    /// The empty list. It takes no memory.
    pub fn new(alloc: Global) -> ByteBuffers
        ensures { result ≡ [] }
    {
        ByteBuffers {
            items: Vec::new(alloc),
        }
    }

    /// The empty list, with memory for this many buffers where that can be allocated. A failure here
    /// is no refusal: `push` allocates what is missing.
    pub fn with_capacity(alloc: Global, capacity: usize) -> ByteBuffers
        ensures { result ≡ [] }
    {
        match Vec::with_capacity(alloc, capacity) {
            Ok(items) => ByteBuffers { items },
            Err(_) => ByteBuffers::new(alloc),
        }
    }

    /// Appends a buffer. `OutOfMemory` where allocation fails: the list stays as it was, and the buffer is dropped.
    pub fn push(&mut self, buffer: ByteBuffer) -> Result<(), BufferError>
        ensures ok { OnOk result (self.new ≡ self.old ++ buffer ∷ []) }
        ensures err { OnErr result (self.new ≡ self.old) }
    {
        self.items.push(buffer)?;
        Ok(())
    }

    /// How many buffers there are.
    pub fn len(&self) -> usize
        ensures { result ≡ length self.now }
    {
        self.items.len()
    }

    /// Whether there is no buffer.
    pub fn is_empty(&self) -> bool
        ensures { IsTrue result ↔ (self.now ≡ []) }
    {
        self.items.is_empty()
    }

    /// The buffer at this index: `None` exactly past the end.
    pub fn get(&self, index: usize) -> Option<&ByteBuffer>
        ensures { option_copied result ≡ slice_get self.now index }
    {
        self.items.get(index)
    }

    /// The buffers in their order, borrowed.
    pub fn as_slice(&self) -> &[ByteBuffer]
        ensures { result.now ≡ self.now }
    {
        self.items.as_slice()
    }

    /// The buffers in their order, moved out.
    pub fn into_vec(self) -> Vec<ByteBuffer>
        ensures { result.items ≡ self }
    {
        self.items
    }

    /// The bytes of the buffers, one after the other, copied into one buffer with no alignment. The only
    /// refusal is `OutOfMemory`, which also answers a total length over `usize`.
    pub fn join(&self, alloc: Global) -> Result<ByteBuffer, BufferError>
        ensures { IfOk result (λ b. b ≡ record { bytes = joined self.now; exponent = 0 }) }
    {
        let mut bytes = Vec::with_capacity(alloc, total_len(self.as_slice()))?;
        for buffer in self.as_slice() {
            bytes.extend_from_slice(buffer.as_slice())?;
        }
        ByteBuffer::from_vec(bytes)
    }

    /// A list of the same buffers. No buffer's bytes are copied; `OutOfMemory` where allocation fails or a count of
    /// owners is full.
    pub fn clone(&self, alloc: Global) -> Result<ByteBuffers, BufferError>
        ensures { IfOk result (λ b. b ≡ self.now) }
    {
        let mut items = Vec::new(alloc);
        for buffer in self.as_slice() {
            items.push(buffer.clone(alloc)?)?;
        }
        Ok(ByteBuffers { items })
    }
}

// The length of all buffers in bytes, or the greatest `usize` where it is larger: no allocation has that size.
fn total_len(buffers: &[ByteBuffer]) -> usize {
    let mut total: usize = 0;
    for buffer in buffers {
        total = total.saturating_add(buffer.len());
    }
    total
}

/// A list of buffer handles.
#[derive(Drop)]
pub struct BufferHandles {
    items: Vec<BufferHandle>,
}

impl Model for BufferHandles {
    ghost use Rattle.std.specs.Prelude.{List};
    ghost use Rattle.vx_buffer.specs.Buffer.{Buffer};

    ghost Value = { List Buffer };

    ghost view = { λ b. b.items.items };
}

impl BufferHandles {
    /// The empty list. It takes no memory.
    pub fn new(alloc: Global) -> BufferHandles
        ensures { result ≡ [] }
    {
        BufferHandles {
            items: Vec::new(alloc),
        }
    }

    /// Appends a handle. `OutOfMemory` where allocation fails: the list stays as it was, and the handle is dropped.
    pub fn push(&mut self, buffer: BufferHandle) -> Result<(), BufferError>
        ensures ok { OnOk result (self.new ≡ self.old ++ buffer ∷ []) }
        ensures err { OnErr result (self.new ≡ self.old) }
    {
        self.items.push(buffer)?;
        Ok(())
    }

    /// How many buffers there are.
    pub fn len(&self) -> usize
        ensures { result ≡ length self.now }
    {
        self.items.len()
    }

    /// Whether there is no buffer.
    pub fn is_empty(&self) -> bool
        ensures { IsTrue result ↔ (self.now ≡ []) }
    {
        self.items.is_empty()
    }

    /// The handle at this index: `None` exactly past the end.
    pub fn get(&self, index: usize) -> Option<&BufferHandle>
        ensures { option_copied result ≡ slice_get self.now index }
    {
        self.items.get(index)
    }

    /// The handles in their order, borrowed.
    pub fn as_slice(&self) -> &[BufferHandle]
        ensures { result.now ≡ self.now }
    {
        self.items.as_slice()
    }

    /// The only handle, moved out: `None` exactly where there is none or more than one.
    pub fn only_buffer(self) -> Option<BufferHandle>
        ensures one { IfSome result (λ b. self ≡ b ∷ []) }
        ensures none { IfNone result (length self ≡ 1 → ⊥) }
    {
        let mut items = self.items;
        if items.len() != 1 {
            return None;
        }
        items.pop()
    }

    /// The handles in their order, moved out.
    pub fn into_vec(self) -> Vec<BufferHandle>
        ensures { result.items ≡ self }
    {
        self.items
    }

    /// A list of the same buffers. No buffer's bytes are copied; `OutOfMemory` where allocation fails or a count of
    /// owners is full.
    pub fn clone(&self, alloc: Global) -> Result<BufferHandles, BufferError>
        ensures { IfOk result (λ b. b ≡ self.now) }
    {
        let mut items = Vec::new(alloc);
        for buffer in self.as_slice() {
            items.push(buffer.clone(alloc)?)?;
        }
        Ok(BufferHandles { items })
    }
}
