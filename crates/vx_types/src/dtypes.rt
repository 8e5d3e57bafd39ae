//! Lists of types.

ghost use Rattle.std.specs.Prelude.{◌≡◌, ◌==◌, ◌-◌, ◌^◌, [], ◌∷◌, ◌++◌, OnOk, OnErr, IfOk, IsOkUnless};
ghost use Rattle.std.specs.Prelude.{length, min, slice_get, option_map, option_copied};
ghost use Rattle.vx_trees.specs.Rose.{roses_of};
ghost use Rattle.vx_trees.specs.Walks.{levels_below};
ghost use Rattle.vx_types.specs.Seen.{typ, typs};
ghost use Rattle.vx_types.specs.Typ.{AreTypes};

use crate::copy::copy_all;
use crate::dtype::DType;
use crate::error::TypeError;
use crate::type_list::TypeList;
use std::alloc::Global;
use std::marker::Model;

/// A list of types, in order, as of a structure's fields. Contracts see the list
/// of their trees.
///
/// The list is boxed, and an empty one allocates nothing: this keeps a type small,
/// and most types hold no others.
#[cycle(dtype)]
#[derive(Debug, Drop)]
pub struct DTypes {
    held: HeldTypes,
    alloc: Global,
}

/// No types, or a boxed list of them.
#[cycle(dtype)]
#[derive(Debug, Drop)]
enum HeldTypes {
    Nothing,
    Types(Box<TypeList>),
}

impl Model for DTypes {
    ghost use Rattle.std.specs.Prelude.{List};
    ghost use Rattle.std.specs.Coded.{coded_list};
    ghost use Rattle.vx_types.specs.Typ.{Typ, typ_code};
    ghost use Rattle.vx_types.specs.Parts.{types_size};

    ghost Value = { List Typ };

    ghost coded = { coded_list typ_code };

    ghost use Rattle.vx_types.specs.HeldTypes.{types_held};

    ghost view = { λ a. types_held a.held };

    ghost size = { types_size };

    ghost use Rattle.vx_types.specs.Measures.{held_le-size};

    ghost size_decreases = { λ a h. held_le-size a.held };
}

impl DTypes {
    /// An empty list; types that are pushed are allocated by `alloc`.
    pub fn new(alloc: Global) -> DTypes
        ensures { result ≡ [] }
    {
        DTypes {
            held: HeldTypes::Nothing,
            alloc,
        }
    }

    /// An empty list with memory for `capacity` types, or with none where the allocation
    /// fails. That is no refusal, since `push` allocates what is missing.
    pub fn with_capacity(alloc: Global, capacity: usize) -> DTypes
        ensures { result ≡ [] }
    {
        match none(alloc, capacity) {
            Ok(types) => DTypes {
                held: HeldTypes::Types(types),
                alloc,
            },
            Err(_) => DTypes::new(alloc),
        }
    }

    /// The number of types.
    pub fn len(&self) -> usize
        ensures len { result ≡ length self.now }
        ensures types { AreTypes self.now }
    {
        match &self.held {
            HeldTypes::Nothing => 0,
            HeldTypes::Types(types) => types.len(),
        }
    }

    /// Whether the list is empty.
    pub fn is_empty(&self) -> bool
        ensures { result ≡ (length self.now == 0) }
    {
        self.len() == 0
    }

    /// The type at this index; `None` past the end.
    pub fn get(&self, index: usize) -> Option<&DType>
        ensures { option_map typ (option_copied result) ≡ slice_get self.now index }
    {
        self.as_slice().get(index)
    }

    /// All types, in order.
    pub fn as_slice(&self) -> &[DType]
        ensures { typs result.now ≡ self.now }
    {
        match &self.held {
            HeldTypes::Nothing => &[],
            HeldTypes::Types(types) => types.as_slice(),
        }
    }

    /// Appends a type. On `OutOfMemory` the list is unchanged, and the type is dropped.
    pub fn push(&mut self, dtype: DType) -> Result<(), TypeError>
        ensures ok { OnOk result (self.new ≡ self.old ++ typ dtype ∷ []) }
        ensures unchanged { OnErr result (self.new ≡ self.old) }
        ensures err { IsOkUnless result TypeError.OutOfMemory }
    {
        match &mut self.held {
            HeldTypes::Nothing => {
                self.held = HeldTypes::Types(first(self.alloc, dtype)?);
                Ok(())
            }
            HeldTypes::Types(types) => types.push(dtype),
        }
    }

    /// An equal list.
    #[cycle(copy)]
    pub fn clone(&self, alloc: Global) -> Result<DTypes, TypeError>
        ensures ok { IfOk result (λ types. types ≡ self.now) }
        ensures err { IsOkUnless result TypeError.OutOfMemory }
    {
        match &self.held {
            HeldTypes::Nothing => Ok(DTypes::new(alloc)),
            HeldTypes::Types(types) => {
                let copies = copy_all(types.as_slice(), alloc)?;
                let types = Box::new(alloc, types.of_copies(copies))?;
                Ok(DTypes {
                    held: HeldTypes::Types(types),
                    alloc,
                })
            }
        }
    }

    // The number of levels of the deepest type, capped at the largest `u64`.
    pub(crate) fn levels(&self) -> u64
        ensures levels { result ≡ min (levels_below (roses_of self.now)) (2 ^ 64 - 1) }
        ensures types { AreTypes self.now }
    {
        match &self.held {
            HeldTypes::Nothing => 0,
            HeldTypes::Types(types) => types.levels(),
        }
    }
}

// A boxed list without types, with memory for `capacity` of them.
fn none(alloc: Global, capacity: usize) -> Result<Box<TypeList>, TypeError>
    ensures ok { IfOk result (λ b. b.value ≡ []) }
    ensures err { IsOkUnless result TypeError.OutOfMemory }
{
    let types = TypeList::with_capacity(alloc, capacity)?;
    Ok(Box::new(alloc, types)?)
}

// A boxed list of this type alone.
fn first(alloc: Global, dtype: DType) -> Result<Box<TypeList>, TypeError>
    ensures ok { IfOk result (λ b. b.value ≡ typ dtype ∷ []) }
    ensures err { IsOkUnless result TypeError.OutOfMemory }
{
    let mut types = TypeList::with_capacity(alloc, 1)?;
    types.push(dtype)?;
    Ok(Box::new(alloc, types)?)
}
