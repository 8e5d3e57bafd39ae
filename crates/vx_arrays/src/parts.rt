//! The parts of a row before it is built, and how it is built from them.
//!
//! Each encoding gives the parts of its rows without allocating. The one recursion over the arrays below a node is
//! here: it builds rows from their parts, and spends cells before it allocates for them.

ghost use Rattle.std.specs.Prelude.{ℕ, false, ◌≡◌, ◌+◌, ◌^◌, ◌<◌, ◌≤◌, IfOk, IfErr, OnOk};
ghost use Rattle.vx_trees.specs.Rose.{label, roses_of};
ghost use Rattle.vx_types.specs.Fits.{Fits, IsVariant};
ghost use Rattle.vx_types.specs.Seen.{typ};
ghost use Rattle.vx_types.specs.Value.{Value, has_opaque, value_cells};
ghost use Rattle.vx_array_tree.specs.Encodings.Variants.{row_over};
ghost use Rattle.vx_array_tree.specs.Rows.{cells_at, cells_from, cells_where, values_at, values_from, where_valid};
ghost use Rattle.vx_array_tree.specs.Tree.{rows_below, rows_of};
ghost use Rattle.vx_arrays.specs.Parts.{AreThere, HaveRow, parts_cells, parts_nodes, parts_value};
ghost use Rattle.vx_rows.specs.Plain.{plain_value};
ghost use Rattle.vx_rows.specs.Refused.{RefusesCells};
ghost use Rattle.vx_rows.specs.RowScalars.{IsVariantRow};
ghost use Rattle.vx_arrays.specs.Variants.{merged_cells, merged_row};

use crate::array::Array;
use std::alloc::Global;
use vx_rows::{
    ArrayError, LoneRow, RowRef, RowValue, RowValues, lone_value, row_over, spend, spent_row,
};
use vx_scalars::DecimalValue;
use vx_types::{DType, PValue};

// The parts of a row.
#[derive(Clone, Copy)]
pub(crate) enum RowParts<'a> {
    // No other rows.
    Lone(LoneRow<'a>),
    // A row of another array.
    At {
        array: &'a Array,
        index: usize,
    },
    // A tuple of n rows of an array, from a start on.
    Run {
        array: &'a Array,
        start: usize,
        count: usize,
    },
    // A tuple of each array's row at an index.
    Across {
        arrays: &'a [Array],
        index: usize,
    },
    // A union of this tag and the row of another array.
    Tagged {
        tag: u8,
        array: &'a Array,
        index: usize,
    },
    // The variant of a typed array's row over a core's.
    Merged {
        core: &'a Array,
        shredded: &'a Array,
        index: usize,
    },
}

// The parts of a row by its validity: a row that is not valid is null, and one of unknown validity is opaque. Validity is
// judged first, because what a row that is not valid refers to is never looked at.
pub(crate) fn where_there<'a>(valid: Option<bool>, parts: RowParts<'a>) -> RowParts<'a>
    requires { AreThere parts }
    ensures value { (f : ℕ → Value) (i : ℕ) → parts_value parts.entry ≡ f i → parts_value result ≡ where_valid valid f i }
    ensures cells { (f : ℕ → ℕ) (i : ℕ) → parts_cells parts.entry ≡ f i → parts_cells result ≡ cells_where valid f i }
    ensures there { AreThere result }
    ensures smaller { parts_nodes result ≤ parts_nodes parts.entry }
{
    match valid {
        None => RowParts::Lone(LoneRow::Opaque),
        Some(false) => RowParts::Lone(LoneRow::Null),
        Some(true) => parts,
    }
}

// The value of a row of these parts, if the budget has cells for it.
#[cycle(rows)]
#[tactic(auto, using(crate::proofs::Counted::counted))]
pub(crate) fn built(
    alloc: Global,
    parts: RowParts<'_>,
    budget: &mut u64,
) -> Result<RowValue, ArrayError>
    requires there { AreThere parts }
    ensures row { IfOk result (λ value. plain_value value ≡ parts_value parts.entry) }
    ensures spent { OnOk result (budget.old ≡ parts_cells parts.entry + budget.new) }
    ensures err { IfErr result (λ e. RefusesCells e (parts_cells parts.entry) budget.old) }
{
    match parts {
        RowParts::Lone(row) => lone_value(alloc, row, budget),
        RowParts::At { array, index } => array.row_within(alloc, index, budget),
        RowParts::Run {
            array,
            start,
            count,
        } => {
            spend(0, budget)?;
            let values = run_values(alloc, array, start, count, budget)?;
            Ok(RowValue::Tuple(values))
        }
        RowParts::Across { arrays, index } => {
            spend(0, budget)?;
            let values = across_values(alloc, arrays, index, budget)?;
            Ok(RowValue::Tuple(values))
        }
        RowParts::Tagged { tag, array, index } => {
            spend(0, budget)?;
            let value = array.row_within(alloc, index, budget)?;
            Ok(RowValue::Union(tag, RowRef::new(alloc, value)?))
        }
        RowParts::Merged {
            core,
            shredded,
            index,
        } => merged_value(alloc, core, shredded, index, budget),
    }
}

// The value of a typed array's row over a core's, if the budget has cells for the greatest of it and these two rows.
#[cycle(rows)]
#[tactic(auto, using(crate::proofs::Counted::counted))]
fn merged_value(
    alloc: Global,
    core: &Array,
    shredded: &Array,
    index: usize,
    budget: &mut u64,
) -> Result<RowValue, ArrayError>
    requires core { index < (label core.now).len }
    requires shredded { index < (label shredded.now).len }
    requires variants { IsVariant (label core.now).dtype }
    ensures row { IfOk result (λ value. plain_value value ≡ merged_row core.now shredded.now index) }
    ensures spent { OnOk result (budget.old ≡ merged_cells core.now shredded.now index + budget.new) }
    ensures err { IfErr result (λ e. RefusesCells e (merged_cells core.now shredded.now index) budget.old) }
{
    let _rows = core.len();
    let dtype = shredded.dtype();
    let mut core_left = *budget;
    let mut shredded_left = *budget;
    let over = shredded.row_within(alloc, index, &mut shredded_left)?;
    match core.row_within(alloc, index, &mut core_left) {
        Ok(under) => {
            let row = spent_over(alloc, dtype, over, under, budget);
            *budget = core_left.min(shredded_left).min(*budget);
            row
        }
        Err(error) => {
            drop(over);
            Err(error)
        }
    }
}

// A row of a type over a core's row, if the budget has cells for it.
fn spent_over(
    alloc: Global,
    dtype: &DType,
    typed: RowValue,
    core: RowValue,
    budget: &mut u64,
) -> Result<RowValue, ArrayError>
    requires fits { has_opaque (plain_value typed) ≡ false → Fits (plain_value typed) (typ dtype.now) }
    requires core { IsVariantRow (plain_value core) }
    ensures row { IfOk result (λ row. plain_value row ≡ row_over (typ dtype.now) (plain_value typed) (plain_value core)) }
    ensures spent { OnOk result (budget.old ≡ value_cells (row_over (typ dtype.now) (plain_value typed) (plain_value core)) + budget.new) }
    ensures err { IfErr result (λ e. RefusesCells e (value_cells (row_over (typ dtype.now) (plain_value typed) (plain_value core))) budget.old) }
{
    let row = row_over(alloc, dtype, typed, core)?;
    spent_row(row, budget)
}

// The values of n rows of an array, from a start on, if the budget has cells for all of them.
#[cycle(rows)]
fn run_values(
    alloc: Global,
    array: &Array,
    start: usize,
    count: usize,
    budget: &mut u64,
) -> Result<RowValues, ArrayError>
    requires inside { start + count ≤ (label array.now).len }
    requires counted { start + count < 2 ^ 64 }
    ensures values { IfOk result (λ values. roses_of values ≡ values_from (rows_of array.now) start count) }
    ensures spent { OnOk result (budget.old ≡ cells_from (rows_of array.now) start count + budget.new) }
    ensures err { IfErr result (λ e. RefusesCells e (cells_from (rows_of array.now) start count) budget.old) }
{
    let mut values = RowValues::new(alloc);
    for i in 0..count {
        let value = array.row_within(alloc, start + i, budget)?;
        values.push(value)?;
    }
    Ok(values)
}

// The values of each array's row at an index, if the budget has cells for all of them.
#[cycle(rows)]
fn across_values(
    alloc: Global,
    arrays: &[Array],
    index: usize,
    budget: &mut u64,
) -> Result<RowValues, ArrayError>
    requires inside { HaveRow index (roses_of arrays.now) }
    ensures values { IfOk result (λ values. roses_of values ≡ values_at (rows_below (roses_of arrays.now)) index) }
    ensures spent { OnOk result (budget.old ≡ cells_at (rows_below (roses_of arrays.now)) index + budget.new) }
    ensures err { IfErr result (λ e. RefusesCells e (cells_at (rows_below (roses_of arrays.now)) index) budget.old) }
{
    let mut values = RowValues::new(alloc);
    for i in 0..arrays.len() {
        let value = arrays[i].row_within(alloc, index, budget)?;
        values.push(value)?;
    }
    Ok(values)
}
