//! A value within a value.

ghost use Rattle.std.specs.Prelude.{◌≡◌, IfOk, IsOkUnless, option_copied};
ghost use Rattle.vx_scalars.specs.Seen.{seen};

use crate::value::ScalarValue;
use std::alloc::Global;
use std::marker::Model;
use vx_types::TypeError;

/// The value of a union's member, boxed, or null. Contracts see its tree.
#[cycle(scalar)]
#[derive(Debug, Drop)]
pub struct ValueRef {
    value: Option<Box<ScalarValue>>,
}

impl Model for ValueRef {
    ghost use Rattle.std.proofs.Common.{arith};
    ghost use Rattle.vx_types.specs.Value.{Value as Tree, value_code};
    ghost use Rattle.vx_scalars.specs.Measures.{ref_size};

    ghost Value = { Tree };

    ghost coded = { value_code };

    ghost use Rattle.vx_scalars.specs.Seen.{boxed_value};

    ghost view = { λ a. boxed_value a.value };

    ghost size = { ref_size };

    ghost use Rattle.vx_scalars.specs.Decreasing.{place_le-size};

    ghost size_decreases = { λ a h. Prim.omega (arith, place_le-size a.value) };
}

impl ValueRef {
    /// This value, boxed; `None` is a null, which allocates nothing.
    pub fn new(alloc: Global, value: Option<ScalarValue>) -> Result<ValueRef, TypeError>
        ensures ok { IfOk result (λ place. place ≡ seen value) }
        ensures err { IsOkUnless result TypeError.OutOfMemory }
    {
        match value {
            None => Ok(ValueRef { value: None }),
            Some(value) => {
                let value = Box::new(alloc, value)?;
                Ok(ValueRef { value: Some(value) })
            }
        }
    }

    /// The value; `None` is a null.
    pub fn get(&self) -> Option<&ScalarValue>
        ensures { seen (option_copied result) ≡ self.now }
    {
        match &self.value {
            Some(value) => Some(value),
            None => None,
        }
    }

    /// An equal value.
    #[cycle(copy)]
    pub fn clone(&self, alloc: Global) -> Result<ValueRef, TypeError>
        ensures ok { IfOk result (λ place. place ≡ self.now) }
        ensures err { IsOkUnless result TypeError.OutOfMemory }
    {
        match self.get() {
            None => Ok(ValueRef { value: None }),
            Some(value) => ValueRef::new(alloc, Some(value.clone(alloc)?)),
        }
    }
}
