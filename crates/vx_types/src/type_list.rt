//! The boxed part of a list of types.

ghost use Rattle.std.specs.Prelude.{◌≡◌, ◌-◌, ◌^◌, [], ◌∷◌, ◌++◌, OnOk, OnErr, IfOk, IsOkUnless, length, min};
ghost use Rattle.vx_trees.specs.Rose.{roses_of};
ghost use Rattle.vx_trees.specs.Walks.{levels_below};
ghost use Rattle.vx_types.specs.Seen.{typ, typs};
ghost use Rattle.vx_types.specs.Typ.{AreTypes};

use crate::dtype::DType;
use crate::error::TypeError;
use crate::levels::deeper;
use std::alloc::Global;
use std::marker::Model;

/// Types in order, and the number of levels of the deepest, capped at the largest
/// `u64`. Contracts see the list of their trees.
///
/// The levels are kept, so that whoever asks for them goes into no type again: a type
/// may be deeper than the stack.
#[cycle(dtype)]
#[derive(Debug, Drop)]
pub(crate) struct TypeList {
    items: Vec<DType>,
    depth: u64,
}

impl Model for TypeList {
    ghost use Rattle.std.specs.Prelude.{◌≡◌, ◌-◌, ◌^◌, List, min};
    ghost use Rattle.std.specs.Coded.{coded_list};
    ghost use Rattle.std.proofs.Common.{arith};
    ghost use Rattle.vx_trees.specs.Rose.{roses_of};
    ghost use Rattle.vx_trees.specs.Walks.{levels_below};
    ghost use Rattle.vx_types.specs.Typ.{Typ, typ_code, AreTypes};
    ghost use Rattle.vx_types.specs.Parts.{slice_size};

    ghost Value = { List Typ };

    ghost coded = { coded_list typ_code };

    ghost use Rattle.vx_types.specs.Seen.{typs};

    ghost view = { λ a. typs a.items.items };

    ghost invariant = { λ a. AreTypes (typs a.items.items)
        × (a.depth ≡ min (levels_below (roses_of (typs a.items.items))) (2 ^ 64 - 1)) };

    ghost size = { slice_size };

    ghost use Rattle.vx_types.specs.Measures.{most_le-size};

    ghost size_decreases = { λ a h. Prim.omega (arith, most_le-size a.items.items) };
}

impl TypeList {
    /// An empty list with memory for `capacity` types.
    pub(crate) fn with_capacity(alloc: Global, capacity: usize) -> Result<TypeList, TypeError>
        ensures ok { IfOk result (λ types. types ≡ []) }
        ensures err { IsOkUnless result TypeError.OutOfMemory }
    {
        let items = Vec::with_capacity(alloc, capacity)?;
        Ok(TypeList { items, depth: 0 })
    }

    /// The number of types.
    pub(crate) fn len(&self) -> usize
        ensures len { result ≡ length self.now }
        ensures types { AreTypes self.now }
    {
        self.items.len()
    }

    /// All types, in order.
    pub(crate) fn as_slice(&self) -> &[DType]
        ensures { typs result.now ≡ self.now }
    {
        self.items.as_slice()
    }

    /// Appends a type. On `OutOfMemory` the list is unchanged, and the type is dropped.
    pub(crate) fn push(&mut self, dtype: DType) -> Result<(), TypeError>
        ensures ok { OnOk result (self.new ≡ self.old ++ typ dtype ∷ []) }
        ensures unchanged { OnErr result (self.new ≡ self.old) }
        ensures err { IsOkUnless result TypeError.OutOfMemory }
    {
        // Asked before the type is moved, and stored only once it is in the list.
        let depth = deeper(self.depth, dtype.levels());
        self.items.push(dtype)?;
        self.depth = depth;
        Ok(())
    }

    /// The same list, of copies of its types. It takes over the levels, which copies share
    /// with their originals.
    pub(crate) fn of_copies(&self, items: Vec<DType>) -> TypeList
        requires { typs items.items ≡ self.now }
        ensures { result ≡ self.now }
    {
        let depth = self.depth;
        TypeList { items, depth }
    }

    // The number of levels of the deepest type, capped at the largest `u64`.
    pub(crate) fn levels(&self) -> u64
        ensures levels { result ≡ min (levels_below (roses_of self.now)) (2 ^ 64 - 1) }
        ensures types { AreTypes self.now }
    {
        self.depth
    }
}
