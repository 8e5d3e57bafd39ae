ghost use Rattle.std.specs.Prelude.{◌≡◌, [], ◌∷◌, ◌++◌, OnOk, OnErr, IsOkUnless, length, slice_get, option_copied, take};

use crate::error::RegistryError;
use std::marker::Model;
use vx_types::{Id, Ids, or_memory};

/// The identifiers that a blob's nodes name by number. Contracts see their list.
#[derive(Drop)]
pub struct ReadContext {
    ids: Ids,
}

impl Model for ReadContext {
    ghost use Rattle.std.specs.Prelude.{List, ℕ};

    ghost Value = { List (List ℕ) };

    ghost view = { λ c. c.ids };
}

impl ReadContext {
    /// These identifiers, numbered from 0. One that occurs more than once is kept, since nodes count in the list as it
    /// comes.
    pub fn new(ids: Ids) -> ReadContext
        ensures { result ≡ ids }
    {
        ReadContext { ids }
    }

    /// The identifier of this number: `None` exactly where `index` is past the end.
    pub fn resolve(&self, index: u16) -> Option<&Id>
        ensures { option_copied result ≡ slice_get self.now index }
    {
        self.ids.get(index as usize)
    }
    /// The number of identifiers.
    pub fn len(&self) -> usize
        ensures { result ≡ length self.now }
    {
        self.ids.len()
    }

    /// Appends an identifier, also one that the list has, since a reader numbers identifiers as they come. On
    /// `OutOfMemory`, the only refusal, the list is unchanged, and the identifier is dropped.
    pub fn push(&mut self, id: Id) -> Result<(), RegistryError>
        ensures ok { OnOk result (self.new ≡ self.old ++ id ∷ []) }
        ensures unchanged { OnErr result (self.new ≡ self.old) }
        ensures err { IsOkUnless result RegistryError.OutOfMemory }
    {
        Ok(or_memory(self.ids.push(id))?)
    }

    /// Keeps the identifiers numbered below `len` and drops the others. Where there are no more than `len`, nothing
    /// changes. It takes no memory, so a reader that refuses what it was given can go back to the identifiers that it
    /// had.
    pub fn truncate(&mut self, len: usize)
        ensures { self.new ≡ take len self.old }
    {
        self.ids.truncate(len);
    }
}
