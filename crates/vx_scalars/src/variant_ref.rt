//! A scalar within a value.

ghost use Rattle.std.specs.Prelude.{◌≡◌, IfOk, IsOkUnless};

use crate::scalar::Scalar;
use std::alloc::Global;
use std::marker::Model;
use vx_types::TypeError;

/// The scalar of a variant, boxed. Contracts see its type and the tree of its value.
#[cycle(scalar)]
#[derive(Debug, Drop)]
pub struct VariantRef {
    scalar: Box<Scalar>,
}

impl Model for VariantRef {
    ghost use Rattle.std.proofs.Common.{arith};
    ghost use Rattle.vx_scalars.specs.Told.{Typed, typed_code};
    ghost use Rattle.vx_scalars.specs.Measures.{variant_size};

    ghost Value = { Typed };

    ghost coded = { typed_code };

    ghost view = { λ a. a.scalar.value };

    ghost size = { variant_size };

    ghost size_decreases = { λ a h. Prim.omega arith };
}

impl VariantRef {
    /// This scalar, boxed.
    pub fn new(alloc: Global, scalar: Scalar) -> Result<VariantRef, TypeError>
        ensures ok { IfOk result (λ variant. variant ≡ scalar) }
        ensures err { IsOkUnless result TypeError.OutOfMemory }
    {
        let scalar = Box::new(alloc, scalar)?;
        Ok(VariantRef { scalar })
    }

    /// The scalar.
    pub fn get(&self) -> &Scalar
        ensures { result.now ≡ self.now }
    {
        &self.scalar
    }

    /// An equal scalar.
    #[cycle(copy)]
    pub fn clone(&self, alloc: Global) -> Result<VariantRef, TypeError>
        ensures ok { IfOk result (λ variant. variant ≡ self.now) }
        ensures err { IsOkUnless result TypeError.OutOfMemory }
    {
        VariantRef::new(alloc, self.get().clone(alloc)?)
    }
}
