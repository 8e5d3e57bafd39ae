//! Rows without nested rows, before they are built, and the cells that they take.

ghost use Rattle.std.specs.Prelude.{suc, ◌≡◌, ◌+◌, IfOk, IfErr, OnOk, IsOkUnless};
ghost use Rattle.vx_types.specs.Value.{lone, mark_cells, value_cells};
ghost use Rattle.vx_rows.specs.Lone.{lone_mark};
ghost use Rattle.vx_rows.specs.Plain.{plain_value};
ghost use Rattle.vx_rows.specs.Refused.{RefusesCells};

use crate::copies::{owned_bytes, owned_text};
use crate::error::ArrayError;
use crate::row::RowValue;
use std::alloc::Global;
use vx_scalars::DecimalValue;
use vx_types::PValue;

/// A row without nested rows. Texts and bytes are borrowed, so that their cells are spent before they are copied.
#[derive(Clone, Copy)]
pub enum LoneRow<'a> {
    /// The row is null.
    Null,
    /// The row is opaque.
    Opaque,
    /// A flag.
    Bool(bool),
    /// A number, floats as their bits.
    Primitive(PValue),
    /// A decimal, by its unscaled integer.
    Decimal(DecimalValue),
    /// A text.
    Utf8(&'a str),
    /// Bytes.
    Binary(&'a [u8]),
}

/// Spends the cells of a value of n bytes: one, and one for each byte. A value without bytes has a cell too, so that a
/// budget bounds the work also where rows hold nothing.
pub fn spend(bytes: usize, budget: &mut u64) -> Result<(), ArrayError>
    ensures spent { OnOk result (budget.old ≡ suc bytes + budget.new) }
    ensures err { IfErr result (λ e. RefusesCells e (suc bytes) budget.old) }
{
    if bytes as u64 >= *budget {
        return Err(ArrayError::ValueTooLarge);
    }
    *budget -= bytes as u64 + 1;
    Ok(())
}

// How many bytes a row has.
fn bytes_in(row: &LoneRow<'_>) -> usize
    ensures { result ≡ mark_cells (lone_mark row.now) }
{
    match row {
        LoneRow::Null => 0,
        LoneRow::Opaque => 0,
        LoneRow::Bool(_) => 0,
        LoneRow::Primitive(_) => 0,
        LoneRow::Decimal(_) => 0,
        LoneRow::Utf8(text) => text.len(),
        LoneRow::Binary(bytes) => bytes.len(),
    }
}

// The row's value, owned.
fn owned(alloc: Global, row: LoneRow<'_>) -> Result<RowValue, ArrayError>
    ensures ok { IfOk result (λ value. plain_value value ≡ lone (lone_mark row.entry)) }
    ensures err { IsOkUnless result ArrayError.OutOfMemory }
{
    match row {
        LoneRow::Null => Ok(RowValue::Null),
        LoneRow::Opaque => Ok(RowValue::Opaque),
        LoneRow::Bool(flag) => Ok(RowValue::Bool(flag)),
        LoneRow::Primitive(number) => Ok(RowValue::Primitive(number)),
        LoneRow::Decimal(decimal) => Ok(RowValue::Decimal(decimal)),
        LoneRow::Utf8(text) => Ok(RowValue::Utf8(owned_text(alloc, text)?)),
        LoneRow::Binary(bytes) => Ok(RowValue::Binary(owned_bytes(alloc, bytes)?)),
    }
}

/// The value of a row without nested rows, if the budget has cells for it. They are spent before anything is
/// allocated, so that a refused row costs nothing.
pub fn lone_value(alloc: Global, row: LoneRow<'_>, budget: &mut u64) -> Result<RowValue, ArrayError>
    ensures row { IfOk result (λ value. plain_value value ≡ lone (lone_mark row.entry)) }
    ensures spent { OnOk result (budget.old ≡ value_cells (lone (lone_mark row.entry)) + budget.new) }
    ensures err { IfErr result (λ e. RefusesCells e (value_cells (lone (lone_mark row.entry))) budget.old) }
{
    spend(bytes_in(&row), budget)?;
    owned(alloc, row)
}
