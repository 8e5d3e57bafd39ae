//! The types of a map.

ghost use Rattle.std.specs.Prelude.{◌≡◌, ◌-◌, ◌^◌, IfOk, IsOkUnless, max, min};
ghost use Rattle.vx_trees.specs.Walks.{levels};
ghost use Rattle.vx_types.specs.Seen.{typ};
ghost use Rattle.vx_types.specs.Typ.{IsType};
ghost use Rattle.vx_types.specs.Words.{entries};

use crate::dtype::DType;
use crate::dtypes::DTypes;
use crate::error::TypeError;
use crate::levels::deeper;
use crate::name::Name;
use crate::names::Names;
use crate::nullability::Nullability;
use crate::struct_fields::StructFields;
use crate::type_ref::TypeRef;
use std::alloc::Global;
use std::marker::Model;

/// The types of a map's keys and values, and whether its keys are sorted.
#[cycle(dtype)]
#[derive(Debug, Drop)]
pub struct MapDType {
    key: TypeRef,
    value: TypeRef,
    keys_sorted: bool,
}

impl Model for MapDType {
    ghost use Rattle.std.proofs.Common.{arith};
    ghost use Rattle.vx_types.specs.Parts.{Entries, entries_code, entries_size};

    ghost Value = { Entries };

    ghost coded = { entries_code };

    ghost view = { λ a. record { key = a.key; value = a.value; keys_sorted = a.keys_sorted } };

    ghost size = { entries_size };

    ghost size_decreases = { λ a h. Prim.omega arith };
}

impl MapDType {
    /// A map from keys of one type to values of another.
    pub fn new(
        alloc: Global,
        key: DType,
        value: DType,
        keys_sorted: bool,
    ) -> Result<MapDType, TypeError>
        ensures ok { IfOk result (λ map. map ≡ record { key = typ key; value = typ value; keys_sorted = keys_sorted }) }
        ensures err { IsOkUnless result TypeError.OutOfMemory }
    {
        let key = TypeRef::new(alloc, key)?;
        let value = TypeRef::new(alloc, value)?;
        Ok(MapDType {
            key,
            value,
            keys_sorted,
        })
    }

    /// The type of the keys.
    pub fn key_dtype(&self) -> &DType
        ensures { typ result.now ≡ self.now.key }
    {
        self.key.get()
    }

    /// The type of the values.
    pub fn value_dtype(&self) -> &DType
        ensures { typ result.now ≡ self.now.value }
    {
        self.value.get()
    }

    /// Whether each row's keys are sorted.
    pub fn keys_sorted(&self) -> bool
        ensures { result ≡ self.now.keys_sorted }
    {
        self.keys_sorted
    }

    /// An equal map.
    #[cycle(copy)]
    pub fn clone(&self, alloc: Global) -> Result<MapDType, TypeError>
        ensures ok { IfOk result (λ map. map ≡ self.now) }
        ensures err { IsOkUnless result TypeError.OutOfMemory }
    {
        let key = self.key.clone(alloc)?;
        let value = self.value.clone(alloc)?;
        let keys_sorted = self.keys_sorted;
        Ok(MapDType {
            key,
            value,
            keys_sorted,
        })
    }

    /// The type of an entry: a structure of the fields `key` and `value`, not
    /// nullable: the validity of a map is that of its rows alone.
    pub fn entries_dtype(&self, alloc: Global) -> Result<DType, TypeError>
        ensures ok { IfOk result (λ d. typ d ≡ entries self.now) }
        ensures err { IsOkUnless result TypeError.OutOfMemory }
    {
        let mut names = Names::new(alloc);
        names.push(Name::new(alloc, "key")?)?;
        names.push(Name::new(alloc, "value")?)?;
        let mut types = DTypes::new(alloc);
        types.push(self.key_dtype().clone(alloc)?)?;
        types.push(self.value_dtype().clone(alloc)?)?;
        let fields = StructFields::try_new(names, types)?;
        Ok(DType::Struct(fields, Nullability::NonNullable))
    }

    // The number of levels of the deeper of the two types, capped at the largest `u64`.
    pub(crate) fn levels(&self) -> u64
        ensures levels { result ≡ min (max (levels self.now.key) (levels self.now.value)) (2 ^ 64 - 1) }
        ensures key { IsType self.now.key }
        ensures value { IsType self.now.value }
    {
        deeper(self.key.levels(), self.value.levels())
    }
}
