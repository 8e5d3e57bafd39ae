//! The values of rows.

use crate::error::ArrayError;
use crate::row_ref::RowRef;
use crate::row_values::RowValues;
use crate::same_values::is_same;
use std::alloc::Global;
use vx_scalars::{DecimalValue, Scalar};
use vx_types::{Blob, Name, PValue};

/// The value of a row.
#[cycle(row)]
#[derive(Debug)]
pub enum RowValue {
    /// The row is null.
    Null,
    /// The row is opaque.
    Opaque,
    /// A flag.
    Bool(bool),
    /// A number, floats as their bits.
    Primitive(PValue),
    /// A decimal, by its unscaled integer.
    Decimal(DecimalValue),
    /// A text.
    Utf8(Name),
    /// Bytes.
    Binary(Blob),
    /// A row of lists or of structs: the rows of its elements, or of its fields.
    Tuple(RowValues),
    /// A row of unions: its tag, and the row of the member that this names.
    Union(u8, RowRef),
    /// A row of variants: a value with a type of its own.
    Variant(Scalar),
}

// Drops a row's value by one call: where values are dropped implicitly, proofs then do not go through their parts.
impl Drop for RowValue {
    #[cycle(dropping)]
    fn drop(self) {
        match self {
            RowValue::Null => {}
            RowValue::Opaque => {}
            RowValue::Bool(_) => {}
            RowValue::Primitive(_) => {}
            RowValue::Decimal(_) => {}
            RowValue::Utf8(_) => {}
            RowValue::Binary(_) => {}
            RowValue::Tuple(_) => {}
            RowValue::Union(_, _) => {}
            RowValue::Variant(_) => {}
        }
    }
}

impl PartialEq for RowValue {
    ghost use Rattle.vx_trees.specs.Same.{same};
    ghost use Rattle.vx_trees.proofs.Sameness.{same-partial_equivalence};
    ghost use Rattle.std.specs.Cmp.{on_per};
    ghost use Rattle.vx_types.specs.Value.{value_code};
    ghost use Rattle.vx_rows.specs.Plain.{plain_value};

    ghost eq = { λ a b. same value_code (plain_value a) (plain_value b) };

    ghost laws = { on_per plain_value (same-partial_equivalence value_code) };

    #[tactic(auto, using(vx_trees::proofs::Sameness::sameness))]
    fn eq(&self, other: &RowValue) -> bool {
        is_same(self, other)
    }
}

impl Eq for RowValue {
    ghost use Rattle.vx_trees.proofs.Sameness.{same-equivalence};
    ghost use Rattle.std.specs.Cmp.{on_equiv};
    ghost use Rattle.vx_types.specs.Value.{value_code};
    ghost use Rattle.vx_rows.specs.Plain.{plain_value};

    ghost laws = { on_equiv plain_value (same-equivalence value_code) };
}
