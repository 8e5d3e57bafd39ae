ghost use Rattle.std.specs.Prelude.{◌≡◌, ◌≤◌, ◌<◌, [], ◌∷◌, ◌++◌, true, false, None, Some, IfOk, IfNone, IfSome, OnErr, OnOk, IsOkUnless, option_map, option_copied, slice_get, length};
ghost use Rattle.vx_wire_tree.specs.Context.{interned, is_allowed, is_among, index_of, truncated, with_ids};

use crate::error::RegistryError;
use crate::named::named;
use indexmap::IndexSet;
use std::alloc::Global;
use std::marker::Model;
use vx_types::{Id, Ids, or_memory};

/// The identifiers that the nodes of a written blob name by number, each once, in the order of their first use.
#[derive(Drop)]
pub struct ArrayContext {
    ids: IndexSet<Id>,
    allowed: Option<IndexSet<Id>>,
    alloc: Global,
}

impl Model for ArrayContext {
    ghost use Rattle.std.specs.Prelude.{option_map};
    ghost use Rattle.vx_wire_tree.specs.Context.{Context};

    ghost Value = { Context };

    ghost view = { λ c. record { ids = c.ids.keys; allowed = option_map (λ s. s.keys) c.allowed } };
}

impl ArrayContext {
    /// A context without identifiers, in which all are allowed. It takes no memory.
    pub fn empty(alloc: Global) -> ArrayContext
        ensures ids { result.ids ≡ [] }
        ensures allowed { result.allowed ≡ None }
    {
        ArrayContext {
            ids: IndexSet::new(alloc),
            allowed: None,
            alloc,
        }
    }

    /// A context of these identifiers, each once: one that occurs again is dropped, so later ones have smaller numbers
    /// than in `ids`. All are allowed. The only refusal is `OutOfMemory`.
    pub fn new(alloc: Global, ids: &Ids) -> Result<ArrayContext, RegistryError>
        ensures ids { IfOk result (λ c. c.ids ≡ with_ids [] ids.now) }
        ensures allowed { IfOk result (λ c. c.allowed ≡ None) }
        ensures err { IsOkUnless result RegistryError.OutOfMemory }
    {
        Ok(ArrayContext {
            ids: set_of(alloc, ids)?,
            allowed: None,
            alloc,
        })
    }

    /// The context with the identifiers that it has, in which only those of `ids` are allowed from now on, also of
    /// those that it has already. The only refusal is `OutOfMemory`.
    pub fn with_allowed_ids(self, alloc: Global, ids: &Ids) -> Result<ArrayContext, RegistryError>
        ensures ids { IfOk result (λ c. c.ids ≡ self.ids) }
        ensures allowed { IfOk result (λ c. c.allowed ≡ Some (with_ids [] ids.now)) }
        ensures err { IsOkUnless result RegistryError.OutOfMemory }
    {
        let allowed = set_of(alloc, ids)?;
        Ok(ArrayContext {
            ids: self.ids,
            allowed: Some(allowed),
            alloc: self.alloc,
        })
    }

    /// The number of an identifier, which is appended if it is new. `None` exactly where it is not allowed, or where
    /// its place is not below 65,536, as nodes name identifiers by a u16. The context is unchanged then, and where
    /// allocation fails.
    pub fn intern(&mut self, id: &Id) -> Result<Option<u16>, RegistryError>
        ensures interned { IfOk result (λ place. IfSome place (λ _. interned id.now self.old ≡ Some self.new)) }
        ensures place { IfOk result (λ place. IfSome place (λ i. index_of id.now self.new.ids ≡ i)) }
        ensures refused { IfOk result (λ place. IfNone place (interned id.now self.old ≡ None)) }
        ensures none { IfOk result (λ place. IfNone place (self.new ≡ self.old)) }
        ensures unchanged { OnErr result (self.new ≡ self.old) }
        ensures err { IsOkUnless result RegistryError.OutOfMemory }
    {
        if !is_allowed(&self.allowed, id) {
            return Ok(None);
        }
        match self.ids.get_index_of(id) {
            Some(index) => Ok(place(index)),
            None => self.append(id),
        }
    }

    /// The number of identifiers.
    pub fn len(&self) -> usize
        ensures { result ≡ length self.now.ids }
    {
        self.ids.len()
    }

    /// The identifier of this number: `None` exactly where `index` is past the end.
    pub fn get(&self, index: usize) -> Option<&Id>
        ensures { option_copied result ≡ slice_get self.now.ids index }
    {
        self.ids.get_index(index)
    }

    /// Keeps the identifiers numbered below `len` and drops the others; which are allowed stays. Where there are no
    /// more than `len`, nothing changes. It takes no memory, so a writer whose array is refused can go back to the
    /// context that it had.
    pub fn truncate(&mut self, len: usize)
        ensures { self.new ≡ truncated len self.old }
    {
        self.ids.truncate(len);
    }

    // Appends a new identifier.
    fn append(&mut self, id: &Id) -> Result<Option<u16>, RegistryError>
        requires allowed { is_allowed self.old.allowed id.now ≡ true }
        requires new { is_among id.now self.old.ids ≡ false }
        ensures interned { IfOk result (λ place. IfSome place (λ _. interned id.now self.old ≡ Some self.new)) }
        ensures place { IfOk result (λ place. IfSome place (λ i. index_of id.now self.new.ids ≡ i)) }
        ensures refused { IfOk result (λ place. IfNone place (interned id.now self.old ≡ None)) }
        ensures none { IfOk result (λ place. IfNone place (self.new ≡ self.old)) }
        ensures unchanged { OnErr result (self.new ≡ self.old) }
        ensures err { IsOkUnless result RegistryError.OutOfMemory }
    {
        let last = match place(self.ids.len()) {
            Some(last) => last,
            None => return Ok(None),
        };
        let id = named(self.alloc, id.as_str())?;
        self.ids.insert(id)?;
        Ok(Some(last))
    }

    /// The identifiers, each at its number. The only refusal is `OutOfMemory`.
    pub fn to_ids(&self, alloc: Global) -> Result<Ids, RegistryError>
        ensures ids { IfOk result (λ ids. ids ≡ self.now.ids) }
        ensures err { IsOkUnless result RegistryError.OutOfMemory }
    {
        let mut ids = Ids::new(alloc);
        for id in self.ids.iter() {
            push_copy(alloc, id, &mut ids)?;
        }
        Ok(ids)
    }
}

// Identifiers as a set: each once, in the order of their first occurrences.
fn set_of(alloc: Global, ids: &Ids) -> Result<IndexSet<Id>, RegistryError>
    ensures ids { IfOk result (λ set. set.keys ≡ with_ids [] ids.now) }
    ensures err { IsOkUnless result RegistryError.OutOfMemory }
{
    let mut set = IndexSet::new(alloc);
    for id in ids.as_slice() {
        set.insert(named(alloc, id.as_str())?)?;
    }
    Ok(set)
}

// Whether an identifier is among the allowed ones, where they are limited.
fn is_allowed(allowed: &Option<IndexSet<Id>>, id: &Id) -> bool
    ensures { result ≡ is_allowed (option_map (λ s. s.keys) allowed.now) id.now }
{
    match allowed {
        None => true,
        Some(allowed) => allowed.contains(id),
    }
}

// Appends a copy of an identifier.
fn push_copy(alloc: Global, id: &Id, ids: &mut Ids) -> Result<(), RegistryError>
    ensures ok { OnOk result (ids.new ≡ ids.old ++ id.now ∷ []) }
    ensures err { IsOkUnless result RegistryError.OutOfMemory }
{
    let id = named(alloc, id.as_str())?;
    Ok(or_memory(ids.push(id))?)
}

// A place as the number by which a node can name it.
fn place(index: usize) -> Option<u16>
    ensures some { IfSome result (λ place. place ≡ index) }
    ensures small { IfSome result (λ _. index < 65536) }
    ensures none { IfNone result (65536 ≤ index) }
{
    u16::try_from(index).ok()
}
