//! A type within a type.

ghost use Rattle.std.specs.Prelude.{◌≡◌, ◌-◌, ◌^◌, min, IfOk, IsOkUnless};
ghost use Rattle.vx_trees.specs.Walks.{levels};
ghost use Rattle.vx_types.specs.Seen.{typ};
ghost use Rattle.vx_types.specs.Typ.{IsType};

use crate::dtype::DType;
use crate::error::TypeError;
use std::alloc::Global;
use std::marker::Model;
use std::ops::Deref;

/// A type within another, as of a list's elements, boxed, and its number of levels,
/// capped at the largest `u64`. Contracts see its tree.
///
/// The levels are kept, so that whoever asks for them does not go into the type again.
#[cycle(dtype)]
#[derive(Debug, Drop)]
pub struct TypeRef {
    dtype: Box<DType>,
    depth: u64,
}

impl Model for TypeRef {
    ghost use Rattle.std.specs.Prelude.{◌≡◌, ◌-◌, ◌^◌, min};
    ghost use Rattle.std.proofs.Common.{arith};
    ghost use Rattle.vx_trees.specs.Walks.{levels};
    ghost use Rattle.vx_types.specs.Typ.{Typ, typ_code, IsType};
    ghost use Rattle.vx_types.specs.Parts.{ref_size};

    ghost Value = { Typ };

    ghost coded = { typ_code };

    ghost use Rattle.vx_types.specs.Seen.{typ};

    ghost view = { λ a. typ a.dtype.value };

    ghost invariant = { λ a. IsType (typ a.dtype.value) × (a.depth ≡ min (levels (typ a.dtype.value)) (2 ^ 64 - 1)) };

    ghost size = { ref_size };

    ghost use Rattle.vx_types.specs.Measures.{deep_le-size};

    ghost size_decreases = { λ a h. Prim.omega (arith, deep_le-size a.dtype.value) };
}

impl TypeRef {
    /// This type, boxed.
    pub fn new(alloc: Global, dtype: DType) -> Result<TypeRef, TypeError>
        ensures ok { IfOk result (λ part. part ≡ typ dtype) }
        ensures err { IsOkUnless result TypeError.OutOfMemory }
    {
        let depth = dtype.levels();
        let dtype = Box::new(alloc, dtype)?;
        Ok(TypeRef { dtype, depth })
    }

    /// The type.
    pub fn get(&self) -> &DType
        ensures same { typ result.now ≡ self.now }
        ensures is_type { IsType self.now }
    {
        &self.dtype
    }

    // The number of levels, capped at the largest `u64`.
    pub(crate) fn levels(&self) -> u64
        ensures levels { result ≡ min (levels self.now) (2 ^ 64 - 1) }
        ensures is_type { IsType self.now }
    {
        self.depth
    }

    /// An equal type.
    #[cycle(copy)]
    pub fn clone(&self, alloc: Global) -> Result<TypeRef, TypeError>
        ensures ok { IfOk result (λ part. part ≡ self.now) }
        ensures err { IsOkUnless result TypeError.OutOfMemory }
    {
        TypeRef::new(alloc, self.get().clone(alloc)?)
    }
}

impl Deref for TypeRef {
    ghost use Rattle.vx_types.specs.Seen.{typ};

    type Target = DType;

    ghost deref_gives = { λ part dtype. typ dtype ≡ part };

    fn deref(&self) -> &DType {
        self.get()
    }
}
