//! A struct of variants while its fields are gathered.

ghost use Rattle.std.specs.Prelude.{◌≡◌, ◌∷◌, ◌++◌, [], List, IfOk, OnOk, IsOkUnless};
ghost use Rattle.vx_trees.specs.Rose.{node};
ghost use Rattle.vx_types.specs.Fits.{Fits};
ghost use Rattle.vx_types.specs.Kind.{structure};
ghost use Rattle.vx_types.specs.Value.{tuple, variant_of};
ghost use Rattle.vx_types.specs.declared.nullability.Nullability.TheVariants.{NonNullable};
ghost use Rattle.vx_array_tree.specs.Merge.{Named, names_of, types_of, values_of};
ghost use Rattle.vx_rows.specs.Merging.{AreNamed};

use crate::error::ArrayError;
use crate::merging::{as_variant, scalar_of};
use std::alloc::Global;
use vx_scalars::{Scalar, ScalarValue, Values};
use vx_types::{DType, DTypes, Name, Names, Nullability, StructFields, or_memory};

// Names, types and values of the same number, in one order.
#[derive(Drop)]
pub(crate) struct NamedVariants {
    names: Names,
    types: DTypes,
    values: Values,
}

impl NamedVariants {
    // No field.
    pub(crate) fn new(alloc: Global) -> NamedVariants
        ensures { AreNamed result [] }
    {
        NamedVariants {
            names: Names::new(alloc),
            types: DTypes::new(alloc),
            values: Values::new(alloc),
        }
    }

    // One more field at the end: a variant of a scalar under a name.
    pub(crate) fn push(
        &mut self,
        alloc: Global,
        name: &Name,
        scalar: Scalar,
    ) -> Result<(), ArrayError>
        ensures ok { (fs : List Named) → AreNamed self.old fs → OnOk result (AreNamed self.new (fs ++ (name.now, variant_of scalar.dtype scalar.value) ∷ [])) }
        ensures err { IsOkUnless result ArrayError.OutOfMemory }
    {
        let name = copied_name(alloc, name)?;
        let value = as_variant(alloc, scalar)?;
        let named = self.names.push(name);
        let typed = self.types.push(DType::Variant(Nullability::NonNullable));
        let valued = self.values.push(Some(value));
        match (named, typed, valued) {
            (Ok(()), Ok(()), Ok(())) => Ok(()),
            _ => Err(ArrayError::OutOfMemory),
        }
    }

    // The struct of these fields.
    pub(crate) fn into_scalar(self) -> Scalar
        requires { (fs : List Named) × AreNamed self fs × Fits (node tuple (values_of fs)) (node (structure (names_of fs) NonNullable) (types_of fs)) }
        ensures { (fs : List Named) → AreNamed self fs → result ≡ record { dtype = node (structure (names_of fs) NonNullable) (types_of fs); value = node tuple (values_of fs) } }
    {
        match StructFields::try_new(self.names, self.types) {
            Ok(fields) => {
                let dtype = DType::Struct(fields, Nullability::NonNullable);
                scalar_of(dtype, Some(ScalarValue::Tuple(self.values)))
            }
            Err(_) => unreachable!(),
        }
    }
}

// A copy of a name.
fn copied_name(alloc: Global, name: &Name) -> Result<Name, ArrayError>
    ensures ok { IfOk result (λ copy. copy ≡ name.now) }
    ensures err { IsOkUnless result ArrayError.OutOfMemory }
{
    Ok(or_memory(name.clone(alloc))?)
}
