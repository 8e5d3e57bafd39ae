//! Lists of identifiers.

ghost use Rattle.std.specs.Prelude.{◌≡◌, ◌==◌, [], ◌∷◌, ◌++◌, OnOk, OnErr, IsOkUnless};
ghost use Rattle.std.specs.Prelude.{length, slice_get, option_copied, take};

use crate::error::TypeError;
use crate::id::Id;
use std::alloc::Global;
use std::marker::Model;

/// A list of identifiers, in order, repetitions allowed. Contracts see the list of
/// their UTF-8 bytes.
#[derive(Drop)]
pub struct Ids {
    items: Vec<Id>,
}

impl Model for Ids {
    ghost use Rattle.std.specs.Prelude.{List, ℕ};

    ghost Value = { List (List ℕ) };

    ghost view = { λ a. a.items.items };
}

impl Ids {
    /// An empty list; identifiers that are pushed are allocated by `alloc`.
    pub fn new(alloc: Global) -> Ids
        ensures { result ≡ [] }
    {
        Ids {
            items: Vec::new(alloc),
        }
    }

    /// The number of identifiers.
    pub fn len(&self) -> usize
        ensures { result ≡ length self.now }
    {
        self.items.len()
    }

    /// Whether the list is empty.
    pub fn is_empty(&self) -> bool
        ensures { result ≡ (length self.now == 0) }
    {
        self.items.is_empty()
    }

    /// The identifier at this index; `None` past the end.
    pub fn get(&self, index: usize) -> Option<&Id>
        ensures { option_copied result ≡ slice_get self.now index }
    {
        self.items.as_slice().get(index)
    }

    /// All identifiers, in order.
    pub fn as_slice(&self) -> &[Id]
        ensures { result.now ≡ self.now }
    {
        self.items.as_slice()
    }

    /// Appends an identifier. On `OutOfMemory` the list is unchanged, and the
    /// identifier is dropped.
    pub fn push(&mut self, id: Id) -> Result<(), TypeError>
        ensures ok { OnOk result (self.new ≡ self.old ++ id ∷ []) }
        ensures unchanged { OnErr result (self.new ≡ self.old) }
        ensures err { IsOkUnless result TypeError.OutOfMemory }
    {
        self.items.push(id)?;
        Ok(())
    }
    /// Keeps the first `len` identifiers and drops the others. A list of no more than `len` stays as it is. It takes no
    /// memory.
    pub fn truncate(&mut self, len: usize)
        ensures { self.new ≡ take len self.old }
    {
        self.items.truncate(len);
    }
}
