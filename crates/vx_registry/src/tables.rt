//! The tables of a session.

ghost use Rattle.std.specs.Prelude.{◌≡◌, ◌≤◌, [], length, bytes_eq, OnOk, OnErr, IfOk, IsOkUnless};
ghost use Rattle.std.specs.Map.{lookup};
ghost use Rattle.indexmap.specs.IndexMap.{spare};
ghost use Rattle.vx_wire_tree.specs.Revised.{revised_id};
ghost use Rattle.vx_registry.specs.Session.{registered, with_plugin, with_revised, put_all, ArePaired};

use crate::error::RegistryError;
use crate::named::named;
use indexmap::IndexMap;
use std::alloc::Global;
use std::marker::Model;
use vx_encodings::{Encoding, revised_id};
use vx_types::{Id, Ids};

/// An entry of the tables: a shipped encoding, primitives under two identifiers, or the number of a plugin.
#[derive(Clone, Copy, Debug, PartialEq, Eq)]
pub enum Entry {
    /// A shipped encoding.
    Shipped(Encoding),
    /// Primitives under two identifiers.
    Revised,
    /// The plugin that was registered with this number, counted from 0.
    Boxed(usize),
}

/// What reads which identifier, and what writes the arrays of which.
#[derive(Drop)]
pub struct Tables {
    readers: IndexMap<Id, Entry>,
    writers: IndexMap<Id, Entry>,
    alloc: Global,
}

impl Model for Tables {
    ghost use Rattle.vx_registry.specs.Session.{Registry, ArePaired};

    ghost Value = { Registry };

    ghost view = { λ s. record { readers = s.readers.entries; writers = s.writers.entries } };

    ghost invariant = { λ s. ArePaired (record { readers = s.readers.entries; writers = s.writers.entries }) };
}

impl Tables {
    /// Tables without entries. They take no memory.
    pub(crate) fn new(alloc: Global) -> Tables
        ensures readers { result.readers ≡ [] }
        ensures writers { result.writers ≡ [] }
    {
        Tables {
            readers: IndexMap::new(alloc),
            writers: IndexMap::new(alloc),
            alloc,
        }
    }

    /// Makes the encoding what reads its own identifier, and what writes its arrays.
    pub(crate) fn set(&mut self, encoding: Encoding) -> Result<(), RegistryError>
        ensures registered { OnOk result (self.new ≡ registered encoding self.old) }
        ensures unchanged { OnErr result (self.new ≡ self.old) }
        ensures err { IsOkUnless result RegistryError.OutOfMemory }
    {
        let read = named(self.alloc, encoding.id())?;
        let written = named(self.alloc, encoding.id())?;
        self.readers.reserve(1)?;
        self.writers.reserve(1)?;
        let Ok(_) = self.readers.insert(read, Entry::Shipped(encoding)) else {
            unreachable!();
        };
        let Ok(_) = self.writers.insert(written, Entry::Shipped(encoding)) else {
            unreachable!();
        };
        Ok(())
    }

    /// Makes primitives under two identifiers what reads both, and what writes primitives. The two are those of no rows
    /// and of the greatest number of rows.
    pub(crate) fn set_revised(&mut self) -> Result<(), RegistryError>
        ensures registered { OnOk result (self.new ≡ with_revised self.old) }
        ensures unchanged { OnErr result (self.new ≡ self.old) }
        ensures err { IsOkUnless result RegistryError.OutOfMemory }
    {
        let written = revised(self.alloc, 0)?;
        let first = revised(self.alloc, 0)?;
        let second = revised(self.alloc, usize::MAX)?;
        self.readers.reserve(2)?;
        self.writers.reserve(1)?;
        let Ok(_) = self.readers.insert(first, Entry::Revised) else {
            unreachable!();
        };
        let Ok(_) = self.readers.insert(second, Entry::Revised) else {
            unreachable!();
        };
        let Ok(_) = self.writers.insert(written, Entry::Revised) else {
            unreachable!();
        };
        Ok(())
    }

    /// Makes the plugin of a number what reads these identifiers, and what writes the arrays of one.
    pub(crate) fn set_boxed(
        &mut self,
        number: usize,
        id: &Id,
        ids: &Ids,
    ) -> Result<(), RegistryError>
        ensures registered { OnOk result (self.new ≡ with_plugin number id.now ids.now self.old) }
        ensures unchanged { OnErr result (self.new ≡ self.old) }
        ensures err { IsOkUnless result RegistryError.OutOfMemory }
    {
        let written = named(self.alloc, id.as_str())?;
        let read = copies(self.alloc, ids)?;
        self.readers.reserve(read.len())?;
        self.writers.reserve(1)?;
        put_all(&mut self.readers, Entry::Boxed(number), read);
        let Ok(_) = self.writers.insert(written, Entry::Boxed(number)) else {
            unreachable!();
        };
        Ok(())
    }

    /// The entries by the identifiers that they read, in the order of registration.
    pub(crate) fn readers(&self) -> &IndexMap<Id, Entry>
        ensures { result.now.entries ≡ self.now.readers }
    {
        &self.readers
    }

    /// What reads this identifier.
    pub(crate) fn reader(&self, id: &Id) -> Option<Entry>
        ensures found { result ≡ lookup (bytes_eq id.now) self.now.readers }
        ensures paired { ArePaired self.now }
    {
        self.readers.get(id).copied()
    }

    /// What writes the arrays of this identifier.
    pub(crate) fn writer(&self, id: &Id) -> Option<Entry>
        ensures found { result ≡ lookup (bytes_eq id.now) self.now.writers }
        ensures paired { ArePaired self.now }
    {
        self.writers.get(id).copied()
    }
}

// The identifier of primitives with this number of rows, where they have two.
pub(crate) fn revised(alloc: Global, len: usize) -> Result<Id, RegistryError>
    ensures ok { IfOk result (λ id. id ≡ revised_id len) }
    ensures err { IsOkUnless result RegistryError.OutOfMemory }
{
    match revised_id(alloc, len) {
        Ok(id) => Ok(id),
        Err(_) => Err(RegistryError::OutOfMemory),
    }
}

// Copies of the identifiers, in a list.
fn copies(alloc: Global, ids: &Ids) -> Result<Vec<Id>, RegistryError>
    ensures ids { IfOk result (λ v. v.items ≡ ids.now) }
    ensures err { IsOkUnless result RegistryError.OutOfMemory }
{
    let mut copies = Vec::new(alloc);
    for id in ids.as_slice() {
        copies.push(named(alloc, id.as_str())?)?;
    }
    Ok(copies)
}

// Puts an entry under each of these identifiers. There is room for them, so this cannot fail half-way.
fn put_all(table: &mut IndexMap<Id, Entry>, entry: Entry, ids: Vec<Id>)
    requires { length ids.items ≤ spare table.old }
    ensures { table.new.entries ≡ put_all entry ids.items table.old.entries }
{
    for id in ids {
        let Ok(_) = table.insert(id, entry) else {
            unreachable!();
        };
    }
}
