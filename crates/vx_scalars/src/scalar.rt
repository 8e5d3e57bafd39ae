//! Scalars.

ghost use Rattle.std.specs.Prelude.{◌≡◌, ◌↔◌, IsTrue, IfOk, IfErr, IsOkUnless, option_copied};
ghost use Rattle.vx_trees.specs.Rose.{end, more};
ghost use Rattle.vx_types.specs.Fits.{Fits, FitBy, IsVariant};
ghost use Rattle.vx_types.specs.Seen.{typ};
ghost use Rattle.vx_types.specs.Value.{is_null};
ghost use Rattle.vx_scalars.specs.Seen.{seen};

use crate::copy::copied;
use crate::fits::fits;
use crate::value::ScalarValue;
use std::alloc::Global;
use std::marker::Model;
use vx_types::{DType, TypeError};

/// A value with a type that it fits. Contracts see both as trees.
#[cycle(scalar)]
#[derive(Debug)]
pub struct Scalar {
    dtype: DType,
    value: Option<ScalarValue>,
}

// By hand, so that code that drops a scalar calls this and does not repeat the drops
// of its parts.
impl Drop for Scalar {
    #[cycle(dropping)]
    fn drop(self) {
        let Scalar { dtype: _, value: _ } = self;
    }
}

impl Model for Scalar {
    ghost use Rattle.std.proofs.Common.{arith};
    ghost use Rattle.vx_scalars.specs.Told.{Typed, typed_code};
    ghost use Rattle.vx_types.specs.Seen.{typ};
    ghost use Rattle.vx_scalars.specs.Measures.{typed_size};

    ghost Value = { Typed };

    ghost coded = { typed_code };

    ghost use Rattle.vx_scalars.specs.Seen.{seen};

    ghost view = { λ a. record { dtype = typ a.dtype; value = seen a.value } };

    ghost use Rattle.vx_types.specs.Fits.{Fits};

    ghost invariant = { λ a. Fits (seen a.value) (typ a.dtype) };

    ghost size = { typed_size };

    ghost use Rattle.vx_scalars.specs.Decreasing.{scalar_le-size};

    ghost size_decreases = { λ a h. Prim.omega (arith, scalar_le-size a.value) };
}

impl Scalar {
    /// The scalar of this type and value; `None` is a null. `BadScalar` exactly where
    /// the value does not fit the type, as `validate` says.
    pub fn try_new(dtype: DType, value: Option<ScalarValue>) -> Result<Scalar, TypeError>
        ensures ok { IfOk result (λ scalar. scalar ≡ record { dtype = typ dtype; value = seen value }) }
        ensures fits { IfOk result (λ _. Fits (seen value) (typ dtype)) }
        ensures err { IfErr result (λ e. (e ≡ TypeError.BadScalar) × (Fits (seen value) (typ dtype) → ⊥)) }
    {
        Scalar::validate(&dtype, value.as_ref())?;
        Ok(Scalar { dtype, value })
    }

    /// Whether the value fits the type, at every level. A null fits a nullable type; a
    /// number has the kind of the type; a fixed-size list has its size, and a structure
    /// one value for each field; each entry of a map is a tuple of a key and a value;
    /// the tag of a union is one of the type, and the value fits that member. A decimal
    /// of any width fits a decimal type, and what fits its storage fits an extension.
    /// `BadScalar` exactly where the value does not fit.
    pub fn validate(dtype: &DType, value: Option<&ScalarValue>) -> Result<(), TypeError>
        ensures ok { IfOk result (λ _. Fits (seen (option_copied value.entry)) (typ dtype.now)) }
        ensures err { IfErr result (λ e. (e ≡ TypeError.BadScalar)
            × (Fits (seen (option_copied value.entry)) (typ dtype.now) → ⊥)) }
    {
        if fits(value, dtype) {
            return Ok(());
        }
        Err(TypeError::BadScalar)
    }

    /// The type.
    pub fn dtype(&self) -> &DType
        ensures { typ result.now ≡ self.now.dtype }
    {
        &self.dtype
    }

    /// The value; `None` is a null.
    pub fn value(&self) -> Option<&ScalarValue>
        ensures value { seen (option_copied result) ≡ self.now.value }
        ensures fits { Fits self.now.value self.now.dtype }
    {
        self.value.as_ref()
    }

    /// Whether the value is null.
    pub fn is_null(&self) -> bool
        ensures { result ≡ is_null self.now.value }
    {
        self.value.is_none()
    }

    /// The type and the value, without a copy.
    pub fn into_parts(self) -> (DType, Option<ScalarValue>)
        ensures dtype { typ result.0 ≡ self.dtype }
        ensures value { seen result.1 ≡ self.value }
    {
        let Scalar { dtype, value } = self;
        (dtype, value)
    }

    /// An equal scalar.
    #[cycle(copy)]
    pub fn clone(&self, alloc: Global) -> Result<Scalar, TypeError>
        ensures ok { IfOk result (λ scalar. scalar ≡ self.now) }
        ensures err { IsOkUnless result TypeError.OutOfMemory }
    {
        let dtype = self.dtype.clone(alloc)?;
        let value = copied(self.value(), alloc)?;
        Ok(Scalar { dtype, value })
    }

    // Whether a variant of the scalar fits a type that is no extension. The scalar
    // fits its own type, so it does for every type of variants.
    pub(crate) fn fits_variant(&self, dtype: &DType) -> bool
        ensures { IsTrue result ↔ (IsVariant (typ dtype.now)
            × FitBy (more self.now.value end) (more self.now.dtype end)) }
    {
        matches!((&self.value, dtype), (_, DType::Variant(_)))
    }
}
