//! A row's value within another.

ghost use Rattle.std.specs.Prelude.{◌≡◌, IfOk, IsOkUnless};
ghost use Rattle.vx_rows.specs.Plain.{plain_value};

use crate::error::ArrayError;
use crate::row::RowValue;
use std::alloc::Global;
use std::marker::Model;

/// The row of a union's member. Contracts see its tree.
#[cycle(row)]
#[derive(Debug, Drop)]
pub struct RowRef {
    value: Box<RowValue>,
}

impl Model for RowRef {
    ghost use Rattle.std.proofs.Common.{arith};
    ghost use Rattle.vx_types.specs.Value.{Value as Tree, value_code};
    ghost use Rattle.vx_scalars.specs.Measures.{ref_size};

    ghost Value = { Tree };

    ghost coded = { value_code };

    ghost use Rattle.vx_rows.specs.Plain.{plain_value};

    ghost view = { λ a. plain_value a.value.value };

    ghost size = { ref_size };

    ghost use Rattle.vx_rows.specs.Decreasing.{deep_le-size};

    ghost size_decreases = { λ a h. Prim.omega (arith, deep_le-size a.value.value) };
}

impl RowRef {
    /// Puts the value in a box.
    pub fn new(alloc: Global, value: RowValue) -> Result<RowRef, ArrayError>
        ensures ok { IfOk result (λ part. part ≡ plain_value value) }
        ensures err { IsOkUnless result ArrayError.OutOfMemory }
    {
        let value = Box::new(alloc, value)?;
        Ok(RowRef { value })
    }

    /// The value.
    pub fn get(&self) -> &RowValue
        ensures { plain_value result.now ≡ self.now }
    {
        &self.value
    }
}
