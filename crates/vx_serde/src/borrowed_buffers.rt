//! Buffers that arrays hold, borrowed.

ghost use Rattle.std.specs.Prelude.{◌≡◌, ◌<◌, ◌∷◌, ◌++◌, [], length, get_or, OnOk};

use std::alloc::Global;
use std::marker::Model;
use vx_buffer::{BufferError, BufferHandle};

/// Buffers that arrays hold, in order, borrowed. Contracts see the list of the buffers.
#[derive(Drop)]
pub(crate) struct BorrowedBuffers<'a> {
    items: Vec<&'a BufferHandle>,
}

impl<'a> Model for BorrowedBuffers<'a> {
    ghost use Rattle.std.specs.Prelude.{List, map};
    ghost use Rattle.vx_buffer.specs.Buffer.{Buffer};

    ghost Value = { List Buffer };

    ghost view = { λ b. map (λ h. h.now) b.items.items };
}

impl<'a> BorrowedBuffers<'a> {
    /// The empty list, which takes no memory.
    pub(crate) fn new(alloc: Global) -> BorrowedBuffers<'a>
        ensures { result ≡ [] }
    {
        BorrowedBuffers {
            items: Vec::new(alloc),
        }
    }

    /// Appends a buffer.
    pub(crate) fn push(&mut self, buffer: &'a BufferHandle) -> Result<(), BufferError>
        ensures { OnOk result (self.new ≡ self.old ++ buffer.now ∷ []) }
    {
        self.items.push(buffer)?;
        Ok(())
    }

    /// The number of buffers.
    pub(crate) fn len(&self) -> usize
        ensures { result ≡ length self.now }
    {
        self.items.len()
    }

    /// The buffer at this index.
    pub(crate) fn get(&self, index: usize) -> &'a BufferHandle
        requires { index < length self.now }
        ensures { result.now ≡ get_or self.now index result.now }
    {
        self.items[index]
    }
}
