//! Lists of rows' values.

ghost use Rattle.std.specs.Prelude.{◌≡◌, ◌==◌, [], ◌∷◌, ◌++◌, OnOk, OnErr, IsOkUnless, length};
ghost use Rattle.vx_rows.specs.Plain.{plain_value, plain_values};

use crate::error::ArrayError;
use crate::row::RowValue;
use std::alloc::Global;
use std::marker::Model;

/// The values of which a row is made, in their order. Contracts see the list of their trees.
#[cycle(row)]
#[derive(Debug, Drop)]
pub struct RowValues {
    items: Vec<RowValue>,
}

impl Model for RowValues {
    ghost use Rattle.std.specs.Prelude.{List};
    ghost use Rattle.std.specs.Coded.{coded_list};
    ghost use Rattle.std.proofs.Common.{arith};
    ghost use Rattle.vx_types.specs.Value.{Value as Tree, value_code};
    ghost use Rattle.vx_scalars.specs.Measures.{values_size};

    ghost Value = { List Tree };

    ghost coded = { coded_list value_code };

    ghost use Rattle.vx_rows.specs.Plain.{plain_values};

    ghost view = { λ a. plain_values a.items.items };

    ghost size = { values_size };

    ghost use Rattle.vx_rows.specs.Decreasing.{most_le-size};

    ghost size_decreases = { λ a h. Prim.omega (arith, most_le-size a.items.items) };
}

impl RowValues {
    /// The empty list. It takes no memory.
    pub fn new(alloc: Global) -> RowValues
        ensures { result ≡ [] }
    {
        RowValues {
            items: Vec::new(alloc),
        }
    }

    /// How many values there are.
    #[tactic(auto, using(crate::proofs::SameRows::same_rows))]
    pub fn len(&self) -> usize
        ensures { result ≡ length self.now }
    {
        self.items.len()
    }

    /// Whether there is no value.
    #[tactic(auto, using(crate::proofs::SameRows::same_rows))]
    pub fn is_empty(&self) -> bool
        ensures { result ≡ (length self.now == 0) }
    {
        self.items.is_empty()
    }

    /// All values, in order.
    pub fn as_slice(&self) -> &[RowValue]
        ensures { plain_values result.now ≡ self.now }
    {
        self.items.as_slice()
    }

    /// Appends a value. On allocation failure the list stays as it was, and the value is dropped.
    pub fn push(&mut self, value: RowValue) -> Result<(), ArrayError>
        ensures ok { OnOk result (self.new ≡ self.old ++ plain_value value ∷ []) }
        ensures unchanged { OnErr result (self.new ≡ self.old) }
        ensures err { IsOkUnless result ArrayError.OutOfMemory }
    {
        self.items.push(value)?;
        Ok(())
    }
}
