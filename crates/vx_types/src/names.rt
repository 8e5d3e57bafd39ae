//! Lists of names.

ghost use Rattle.std.specs.Prelude.{◌≡◌, ◌==◌, ◌↔◌, [], ◌∷◌, ◌++◌, IfOk, OnOk, OnErr, IsOkUnless, IsTrue};
ghost use Rattle.std.specs.Prelude.{length, slice_get, option_copied};
ghost use Rattle.vx_types.specs.Content.{AreTexts};
ghost use Rattle.vx_types.specs.HeldNames.{names_held};

use crate::error::TypeError;
use crate::name::Name;
use std::alloc::Global;
use std::marker::Model;

/// A list of names, in order, as of a structure's fields. Contracts see the list
/// of their UTF-8 bytes.
///
/// The list is boxed, and an empty one allocates nothing: this keeps a type small,
/// and most types have no names.
#[derive(Debug, Drop)]
pub struct Names {
    held: HeldNames,
    alloc: Global,
}

/// No names, or a boxed list of them.
#[derive(Debug, Drop)]
enum HeldNames {
    Nothing,
    Names(Box<Vec<Name>>),
}

impl Model for Names {
    ghost use Rattle.std.specs.Prelude.{List, ℕ};
    ghost use Rattle.vx_types.specs.Content.{AreTexts};
    ghost use Rattle.vx_types.specs.HeldNames.{names_held};

    ghost Value = { List (List ℕ) };

    ghost view = { λ a. names_held a.held };

    ghost invariant = { λ a. AreTexts (names_held a.held) };
}

impl Names {
    /// An empty list; names that are pushed are allocated by `alloc`.
    pub fn new(alloc: Global) -> Names
        ensures { result ≡ [] }
    {
        Names {
            held: HeldNames::Nothing,
            alloc,
        }
    }

    /// An empty list with memory for `capacity` names, or with none where the allocation
    /// fails. That is no refusal, since `push` allocates what is missing.
    pub fn with_capacity(alloc: Global, capacity: usize) -> Names
        ensures { result ≡ [] }
    {
        match none(alloc, capacity) {
            Ok(names) => Names {
                held: HeldNames::Names(names),
                alloc,
            },
            Err(_) => Names::new(alloc),
        }
    }

    /// The number of names.
    pub fn len(&self) -> usize
        ensures len { result ≡ length self.now }
        ensures texts { AreTexts self.now }
    {
        // Reads the names, so that the proof has their invariants.
        let _ = &self.held;
        self.as_slice().len()
    }

    /// Whether the list is empty.
    pub fn is_empty(&self) -> bool
        ensures { result ≡ (length self.now == 0) }
    {
        self.as_slice().is_empty()
    }

    /// The name at this index; `None` past the end.
    pub fn get(&self, index: usize) -> Option<&Name>
        ensures { option_copied result ≡ slice_get self.now index }
    {
        self.as_slice().get(index)
    }

    /// All names, in order.
    pub fn as_slice(&self) -> &[Name]
        ensures { result.now ≡ self.now }
    {
        match &self.held {
            HeldNames::Names(names) => names.as_slice(),
            HeldNames::Nothing => &[],
        }
    }

    /// Appends a name. On `OutOfMemory` the list is unchanged, and the name is dropped.
    pub fn push(&mut self, name: Name) -> Result<(), TypeError>
        ensures ok { OnOk result (self.new ≡ self.old ++ name ∷ []) }
        ensures unchanged { OnErr result (self.new ≡ self.old) }
        ensures err { IsOkUnless result TypeError.OutOfMemory }
    {
        // Reads the name's field, so that the proof has its invariant.
        let _ = &name.text;
        push_name(&mut self.held, self.alloc, name)?;
        Ok(())
    }

    /// An equal list.
    pub fn clone(&self, alloc: Global) -> Result<Names, TypeError>
        ensures ok { IfOk result (λ names. names ≡ self.now) }
        ensures err { IsOkUnless result TypeError.OutOfMemory }
    {
        match &self.held {
            HeldNames::Names(names) => {
                let copies = copy_all(names.as_slice(), alloc)?;
                let held = Box::new(alloc, copies)?;
                Ok(Names {
                    held: HeldNames::Names(held),
                    alloc,
                })
            }
            HeldNames::Nothing => Ok(Names::new(alloc)),
        }
    }
}

// Appends a name; on `OutOfMemory` nothing changes.
fn push_name(held: &mut HeldNames, alloc: Global, name: Name) -> Result<(), TypeError>
    ensures ok { OnOk result (names_held held.new ≡ names_held held.old ++ name ∷ []) }
    ensures unchanged { OnErr result (names_held held.new ≡ names_held held.old) }
    ensures err { IsOkUnless result TypeError.OutOfMemory }
{
    match held {
        HeldNames::Nothing => {
            *held = HeldNames::Names(first(alloc, name)?);
            Ok(())
        }
        HeldNames::Names(names) => {
            names.push(name)?;
            Ok(())
        }
    }
}

// A boxed list without names, with memory for `capacity` of them.
fn none(alloc: Global, capacity: usize) -> Result<Box<Vec<Name>>, TypeError>
    ensures ok { IfOk result (λ b. b.value.items ≡ []) }
    ensures err { IsOkUnless result TypeError.OutOfMemory }
{
    let names = Vec::with_capacity(alloc, capacity)?;
    Ok(Box::new(alloc, names)?)
}

// A boxed list of one name.
fn first(alloc: Global, name: Name) -> Result<Box<Vec<Name>>, TypeError>
    ensures ok { IfOk result (λ b. b.value.items ≡ name ∷ []) }
    ensures err { IsOkUnless result TypeError.OutOfMemory }
{
    let mut names = Vec::with_capacity(alloc, 1)?;
    names.push(name)?;
    Ok(Box::new(alloc, names)?)
}

// Copies of the names.
fn copy_all(names: &[Name], alloc: Global) -> Result<Vec<Name>, TypeError>
    ensures ok { IfOk result (λ copies. copies.items ≡ names.now) }
    ensures err { IsOkUnless result TypeError.OutOfMemory }
{
    let mut copies = Vec::with_capacity(alloc, names.len())?;
    for name in names {
        copies.push(name.clone(alloc)?)?;
    }
    Ok(copies)
}

// Whether two names are the same text, stated as equality of their bytes.
fn is_same_name(a: &Name, b: &Name) -> bool
    ensures { IsTrue result ↔ (a.now ≡ b.now) }
{
    a.as_str() == b.as_str()
}

// Whether two lists have the same names in the same order.
pub(crate) fn are_same_names(a: &Names, b: &Names) -> bool
    ensures { IsTrue result ↔ (a.now ≡ b.now) }
{
    if a.len() != b.len() {
        return false;
    }
    let xs = a.as_slice();
    let ys = b.as_slice();
    for i in 0..xs.len() {
        if !is_same_name(&xs[i], &ys[i]) {
            return false;
        }
    }
    true
}
