//! Composes a block before it is appended to the message.

ghost use Rattle.std.specs.Prelude.{◌≡◌, ◌+◌, ◌-◌, ◌*◌, ◌++◌, ◌≤◌, ◌<◌, ◌^◌, List, [], length, true, ◌&&◌, None, OnOk};
ghost use Rattle.vx_flat.specs.Building.{entry_slots, element_slots};
ghost use Rattle.vx_flat.specs.BuilderView.{begun, front};
ghost use Rattle.vx_flat.specs.FieldTables as form;
ghost use Rattle.vx_flat.specs.Layout as lay;
ghost use Rattle.vx_flat.specs.Linking as to;
ghost use Rattle.vx_flat.specs.Blocks.{Cell, table_block, elements_block, links_block, text_block};
ghost use Rattle.vx_flat.specs.BlockOffsets as place;

use crate::builder::entries::cell_at;
use crate::builder::piece::{BlockField, LinkKind};
use crate::builder::slot::Slot;
use crate::schema::Width;
use crate::writing::block::BlockOffsets;
use crate::writing::field_tables::end_after;
use crate::writing::numbers::{align, push_number, push_zeros};
use crate::writing::{element_count, push_bytes, push_own};
use std::alloc::AllocError;

/// Where the next block starts: at the next multiple of 8, after the root offset.
pub fn next_start(bytes: &[u8]) -> usize
    requires { length bytes.now ≤ 2 ^ 31 }
    ensures value { result ≡ form.align 8 (length (begun bytes.now)) }
    ensures past { length (begun bytes.now) ≤ result }
    ensures near { result ≤ length (begun bytes.now) + 7 }
{
    if bytes.is_empty() {
        return 8;
    }
    align(Width::Eight, bytes.len())
}

/// Appends the padding before a block that starts at `start`.
pub fn push_front(bytes: &[u8], start: usize, out: &mut Vec<u8>) -> Result<(), AllocError>
    ensures { OnOk result (out.new.items
        ≡ out.old.items ++ (front bytes.now ++ form.zeros (start - length (begun bytes.now)))) }
{
    if bytes.is_empty() {
        push_zeros(out, 8)?;
        return push_zeros(out, start.saturating_sub(8));
    }
    push_zeros(out, start.saturating_sub(bytes.len()))
}

/// The place of a table's block that starts at `start`. The table has `count` entries and the size
/// `end`; `known` is the place of an equal field table.
pub fn table_offsets(start: usize, count: usize, end: usize, known: Option<usize>) -> BlockOffsets
    requires small { start ≤ 2 ^ 32 }
    requires few { count ≤ 1000 }
    requires near { end ≤ 4 + 15 * count }
    ensures value { (cs : List Cell) → length cs ≡ count → form.inline_end 4 cs ≡ end
        → result ≡ place.table_offsets start cs known }
    ensures own { result.is_own ≡ true → known ≡ None }
    ensures past { start ≤ result.target }
    ensures before { result.target ≤ result.end }
{
    match known {
        Some(fields) => BlockOffsets {
            start,
            target: start,
            end: start + end,
            fields,
            is_own: false,
        },
        None => {
            let target = start + align(Width::Eight, 4 + 2 * count);
            BlockOffsets {
                start,
                target,
                end: target + end,
                fields: start,
                is_own: true,
            }
        }
    }
}

/// Whether later tables may share the field table of a block.
pub fn is_shared(shares: bool, offsets: BlockOffsets) -> bool
    ensures value { result ≡ (shares && offsets.is_own) }
    ensures own { result ≡ true → offsets.is_own ≡ true }
{
    if shares { offsets.is_own } else { false }
}

/// Appends a table of `count` entries, given its field table and its bytes after the first four.
pub fn push_table(
    offsets: BlockOffsets,
    count: usize,
    fields: &[u8],
    own: &[u8],
    out: &mut Vec<u8>,
) -> Result<(), AllocError>
    requires { count ≤ 1000 }
    ensures table { (cs : List Cell) → length cs ≡ count → fields.now ≡ form.field_table_bytes cs
        → own.now ≡ lay.cells_bytes [] 0 4 cs
        → OnOk result (out.new.items ≡ out.old.items ++ lay.block_bytes [] offsets (table_block cs)) }
    ensures some { OnOk result (length out.old.items + 4 ≤ length out.new.items) }
{
    push_own(offsets.is_own, count, fields, out)?;
    push_number(out, 4, offsets.target.saturating_sub(offsets.fields) as u64)?;
    push_bytes(own, out)
}

/// Appends a vector of numbers or structs of `size` bytes each.
pub fn push_elements(
    offsets: BlockOffsets,
    size: usize,
    bytes: &[u8],
    out: &mut Vec<u8>,
) -> Result<(), AllocError>
    ensures { OnOk result (out.new.items
        ≡ out.old.items ++ lay.block_bytes [] offsets (elements_block size bytes.now)) }
{
    push_number(out, 4, element_count(size, bytes.len()) as u64)?;
    push_bytes(bytes, out)
}

/// Appends a vector of unset links.
pub fn push_links(offsets: BlockOffsets, count: u32, out: &mut Vec<u8>) -> Result<(), AllocError>
    ensures { OnOk result (out.new.items
        ≡ out.old.items ++ lay.block_bytes [] offsets (links_block (to.firsts count []))) }
{
    push_number(out, 4, count as u64)?;
    push_zeros(out, 4 * count as usize)?;
    Ok(())
}

/// Appends a string.
pub fn push_text(offsets: BlockOffsets, text: &[u8], out: &mut Vec<u8>) -> Result<(), AllocError>
    ensures { OnOk result (out.new.items
        ≡ out.old.items ++ lay.block_bytes [] offsets (text_block text.now)) }
{
    push_number(out, 4, text.len() as u64)?;
    push_bytes(text, out)?;
    push_zeros(out, 1)
}

/// Appends the links of a table's entries.
pub fn push_entry_slots(
    entries: &[BlockField],
    block: u32,
    target: usize,
    slots: &mut Vec<Slot>,
) -> Result<(), AllocError>
    requires few { length entries.now ≤ 1000 }
    requires short { target < 2 ^ 33 }
    ensures { OnOk result
        (slots.new.items ≡ slots.old.items ++ entry_slots block target 0 4 entries.now) }
{
    let mut end: usize = 4;
    let mut index: u32 = 0;
    for entry in entries {
        let cell = cell_at(*entry, 0);
        if let BlockField::Link(kind) = *entry {
            let place = target + align(Width::Four, end);
            slots.push(Slot {
                block,
                index,
                kind,
                place,
            })?;
        }
        end = end_after(cell, end);
        index += 1;
    }
    Ok(())
}

/// Appends the links of a vector of links, the first of which lies at `place`.
pub fn push_element_slots(
    kind: LinkKind,
    count: u32,
    block: u32,
    place: usize,
    slots: &mut Vec<Slot>,
) -> Result<(), AllocError>
    requires { place < 2 ^ 33 }
    ensures { OnOk result
        (slots.new.items ≡ slots.old.items ++ element_slots block kind place 0 count) }
{
    for index in 0..count {
        slots.push(Slot {
            block,
            index,
            kind,
            place: place + 4 * index as usize,
        })?;
    }
    Ok(())
}
