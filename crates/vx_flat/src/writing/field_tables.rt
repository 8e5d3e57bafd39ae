//! The field table (vtable) of a table.

ghost use Rattle.std.specs.Prelude.{◌≡◌, ◌+◌, ◌*◌, ◌++◌, [], ◌≤◌, ◌^◌, ℕ, true, length, OnOk, IfOk};
ghost use Rattle.vx_flat.specs.Layout as lay;
ghost use Rattle.vx_flat.specs.Linking as to;
ghost use Rattle.vx_flat.specs.FieldTables as form;
ghost use Rattle.vx_flat.specs.CellForm as cell_form;

use crate::builder::entries::cell_at;
use crate::builder::piece::BlockField;
use crate::schema::Width;
use crate::writing::block::Cell;
use crate::writing::numbers::{align, push_number, push_zeros};
use crate::writing::{push_bytes, push_cell};
use std::alloc::AllocError;

/// The distance of a cell from its table, where the cells before it end at `end`; 0 for a gap.
fn distance(cell: Cell, end: usize) -> usize
    requires { end ≤ 2 ^ 63 }
    ensures { result ≡ cell_form.distance cell end }
{
    match cell {
        Cell::Gap => 0,
        Cell::Inline(width, _) => align(width, end),
        Cell::Link(_) => align(Width::Four, end),
        Cell::Null => align(Width::Four, end),
    }
}

/// Where the cells up to this one end, counted from their table.
pub fn end_after(cell: Cell, end: usize) -> usize
    requires { end ≤ 2 ^ 63 }
    ensures value { result ≡ cell_form.end_after cell end }
    ensures near { result ≤ end + 15 }
{
    match cell {
        Cell::Gap => end,
        Cell::Inline(width, _) => align(width, end) + width.bytes(),
        Cell::Link(_) => align(Width::Four, end) + 4,
        Cell::Null => align(Width::Four, end) + 4,
    }
}

/// Appends the distances of a table's entries from it, and the table's bytes after its first four,
/// with unset links. Returns the table's size, FlatBuffers' inline size.
pub fn push_parts(
    entries: &[BlockField],
    distances: &mut Vec<u8>,
    own: &mut Vec<u8>,
) -> Result<usize, AllocError>
    requires few { length entries.now ≤ 1000 }
    ensures end { IfOk result (λ n. n ≡ form.inline_end 4 (to.cells_of entries.now [])) }
    ensures near { IfOk result (λ n. n ≤ 4 + 15 * length entries.now) }
    ensures distances { OnOk result (distances.new.items
        ≡ distances.old.items ++ form.entry_bytes (form.distances 4 (to.cells_of entries.now []))) }
    ensures own { OnOk result (own.new.items
        ≡ own.old.items ++ lay.cells_bytes [] 0 4 (to.cells_of entries.now [])) }
{
    let mut end: usize = 4;
    // Absent entries have the distance 0. Runs of them are appended at once.
    let mut absent: usize = 0;
    for entry in entries {
        if is_absent(*entry) {
            absent += 1;
        } else {
            let cell = cell_at(*entry, 0);
            push_zeros(distances, 2 * absent)?;
            push_number(distances, 2, distance(cell, end) as u64)?;
            push_cell(end, cell, own)?;
            end = end_after(cell, end);
            absent = 0;
        }
    }
    push_zeros(distances, 2 * absent)?;
    Ok(end)
}

/// Whether an entry is absent.
fn is_absent(entry: BlockField) -> bool
    ensures { (n : ℕ) → result ≡ true → to.cell_at entry n ≡ Cell.Gap }
{
    match entry {
        BlockField::Absent => true,
        _ => false,
    }
}

/// Appends the field table of `count` entries, of a table whose size is `end`.
pub fn push_field_table(
    count: usize,
    end: usize,
    distances: &[u8],
    out: &mut Vec<u8>,
) -> Result<(), AllocError>
    requires { count ≤ 1000 }
    ensures { OnOk result (out.new.items ≡ out.old.items
        ++ (form.le_bytes 2 (4 + 2 * count) ++ (form.le_bytes 2 end ++ distances.now))) }
{
    push_number(out, 2, (4 + 2 * count) as u64)?;
    push_number(out, 2, end as u64)?;
    push_bytes(distances, out)
}
