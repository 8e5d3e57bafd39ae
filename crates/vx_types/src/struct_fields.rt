//! The fields of a structure.

ghost use Rattle.std.specs.Prelude.{◌≡◌, ◌≢◌, ◌-◌, ◌^◌, IfOk, IfErr, IsOkUnless, length, min};
ghost use Rattle.vx_trees.specs.Rose.{roses_of};
ghost use Rattle.vx_trees.specs.Walks.{levels_below};
ghost use Rattle.vx_types.specs.Typ.{AreTypes, IsStructure};

use crate::dtypes::DTypes;
use crate::error::TypeError;
use crate::names::Names;
use std::alloc::Global;
use std::marker::Model;

/// The names of a structure's fields, and as many types in the same order.
#[cycle(dtype)]
#[derive(Debug, Drop)]
pub struct StructFields {
    names: Names,
    types: DTypes,
}

impl Model for StructFields {
    ghost use Rattle.std.specs.Prelude.{length};
    ghost use Rattle.std.proofs.Common.{arith};
    ghost use Rattle.vx_types.specs.Parts.{Fields, fields_code, fields_size};
    ghost use Rattle.vx_types.specs.Typ.{IsStructure};

    ghost Value = { Fields };

    ghost coded = { fields_code };

    ghost view = { λ a. record { names = a.names; types = a.types } };

    ghost invariant = { λ a. IsStructure a.names (length a.types) };

    ghost size = { fields_size };

    ghost size_decreases = { λ a h. Prim.omega arith };
}

impl StructFields {
    /// Fields of these names and types. `FieldCount` exactly where the lists differ
    /// in length.
    pub fn try_new(names: Names, types: DTypes) -> Result<StructFields, TypeError>
        ensures ok { IfOk result (λ fields. fields ≡ record { names = names; types = types }) }
        ensures fit { IfOk result (λ _. length names ≡ length types) }
        ensures err { IfErr result (λ e. (e ≡ TypeError.FieldCount) × (length names ≢ length types)) }
    {
        if names.len() != types.len() {
            return Err(TypeError::FieldCount);
        }
        Ok(StructFields { names, types })
    }

    /// The names, in the fields' order.
    pub fn names(&self) -> &Names
        ensures { result.now ≡ self.now.names }
    {
        &self.names
    }

    /// The types, in the fields' order.
    pub fn fields(&self) -> &DTypes
        ensures { result.now ≡ self.now.types }
    {
        &self.types
    }

    /// Equal fields.
    #[cycle(copy)]
    pub fn clone(&self, alloc: Global) -> Result<StructFields, TypeError>
        ensures ok { IfOk result (λ fields. fields ≡ self.now) }
        ensures err { IsOkUnless result TypeError.OutOfMemory }
    {
        let names = self.names.clone(alloc)?;
        let types = self.types.clone(alloc)?;
        Ok(StructFields { names, types })
    }

    // The number of levels of the deepest of the types, capped at the largest `u64`.
    pub(crate) fn levels(&self) -> u64
        ensures levels { result ≡ min (levels_below (roses_of self.now.types)) (2 ^ 64 - 1) }
        ensures structure { IsStructure self.now.names (length self.now.types) }
        ensures types { AreTypes self.now.types }
    {
        self.types.levels()
    }
}
