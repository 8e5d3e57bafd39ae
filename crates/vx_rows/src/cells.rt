//! The cells of rows of variants.

ghost use Rattle.std.specs.Prelude.{◌≡◌, ◌+◌, IfOk, IfErr, OnOk, option_copied};
ghost use Rattle.vx_trees.specs.Rose.{roses_of};
ghost use Rattle.vx_types.specs.Value.{value_cells, values_cells};
ghost use Rattle.vx_scalars.specs.Seen.{all_seen, seen};
ghost use Rattle.vx_rows.specs.Plain.{plain_value};
ghost use Rattle.vx_rows.specs.Refused.{RefusesCells};
ghost use Rattle.vx_rows.specs.RowScalars.{IsVariantRow};

use crate::error::ArrayError;
use crate::lone_row::spend;
use crate::row::RowValue;
use vx_scalars::ScalarValue;

// Spends the cells of a row of variants.
#[tactic(auto, using(crate::proofs::LawsOfCells::spending))]
fn spend_row(row: &RowValue, budget: &mut u64) -> Result<(), ArrayError>
    requires { IsVariantRow (plain_value row.now) }
    ensures spent { OnOk result (budget.old ≡ value_cells (plain_value row.now) + budget.new) }
    ensures err { IfErr result (λ e. RefusesCells e (value_cells (plain_value row.now)) budget.old) }
{
    match row {
        RowValue::Null | RowValue::Opaque => spend(0, budget),
        RowValue::Variant(scalar) => {
            spend(0, budget)?;
            spend_value(scalar.value(), budget)
        }
        _ => unreachable!(),
    }
}

/// A row of variants, once its cells are spent. They are spent after the row is made, as only a merge tells what it
/// holds.
pub fn spent_row(row: RowValue, budget: &mut u64) -> Result<RowValue, ArrayError>
    requires { IsVariantRow (plain_value row) }
    ensures row { IfOk result (λ kept. plain_value kept ≡ plain_value row) }
    ensures spent { OnOk result (budget.old ≡ value_cells (plain_value row) + budget.new) }
    ensures err { IfErr result (λ e. RefusesCells e (value_cells (plain_value row)) budget.old) }
{
    match spend_row(&row, budget) {
        Ok(()) => Ok(row),
        Err(error) => {
            drop(row);
            Err(error)
        }
    }
}

// Spends the cells of a scalar's value.
#[cycle(cells)]
#[tactic(auto, using(vx_scalars::proofs::LawsOfLists::decreasing, crate::proofs::Scalared::value_spends, crate::proofs::LawsOfCells::spending))]
fn spend_value(value: Option<&ScalarValue>, budget: &mut u64) -> Result<(), ArrayError>
    ensures spent { OnOk result (budget.old ≡ value_cells (seen (option_copied value.entry)) + budget.new) }
    ensures err { IfErr result (λ e. RefusesCells e (value_cells (seen (option_copied value.entry))) budget.old) }
{
    let Some(value) = value else {
        return spend(0, budget);
    };
    match value {
        ScalarValue::Bool(_) | ScalarValue::Primitive(_) | ScalarValue::Decimal(_) => {
            spend(0, budget)
        }
        ScalarValue::Utf8(text) => spend(text.as_str().len(), budget),
        ScalarValue::Binary(bytes) => spend(bytes.as_slice().len(), budget),
        ScalarValue::Tuple(values) => {
            spend(0, budget)?;
            spend_values(values.as_slice(), budget)
        }
        ScalarValue::Union(_, member) => {
            spend(0, budget)?;
            spend_value(member.get(), budget)
        }
        ScalarValue::Variant(scalar) => {
            spend(0, budget)?;
            spend_value(scalar.get().value(), budget)
        }
    }
}

// Spends the cells of several.
#[cycle(cells)]
#[tactic(auto, using(vx_scalars::proofs::LawsOfLists::decreasing, crate::proofs::Scalared::value_spends, crate::proofs::LawsOfCells::spending))]
fn spend_values(values: &[Option<ScalarValue>], budget: &mut u64) -> Result<(), ArrayError>
    ensures spent { OnOk result (budget.old ≡ values_cells (roses_of (all_seen values.now)) + budget.new) }
    ensures err { IfErr result (λ e. RefusesCells e (values_cells (roses_of (all_seen values.now))) budget.old) }
{
    for value in values {
        spend_value(value.as_ref(), budget)?;
    }
    Ok(())
}
