//! Lists of lengths.

ghost use Rattle.std.specs.Prelude.{◌≡◌, [], ◌∷◌, ◌++◌, length, OnOk, OnErr};

use std::alloc::{AllocError, Global};
use std::marker::Model;

/// The lengths of buffers in bytes. Contracts see their list.
#[derive(Drop)]
pub struct BufferLengths {
    items: Vec<usize>,
}

impl Model for BufferLengths {
    ghost use Rattle.std.specs.Prelude.{List, ℕ};

    ghost Value = { List ℕ };

    ghost view = { λ l. l.items.items };
}

impl BufferLengths {
    /// The empty list. It takes no memory.
    pub(crate) fn new(alloc: Global) -> BufferLengths
        ensures { result ≡ [] }
    {
        BufferLengths {
            items: Vec::new(alloc),
        }
    }

    /// Appends a length.
    pub(crate) fn push(&mut self, length: usize) -> Result<(), AllocError>
        ensures ok { OnOk result (self.new ≡ self.old ++ length ∷ []) }
        ensures err { OnErr result (self.new ≡ self.old) }
    {
        self.items.push(length)?;
        Ok(())
    }

    /// The lengths in their order, borrowed.
    pub fn as_slice(&self) -> &[usize]
        ensures { result.now ≡ self.now }
    {
        self.items.as_slice()
    }
}
