//! Whether a message shows a value within the limits. It allocates nothing, and is decided before
//! anything is read.

ghost use Rattle.std.specs.Prelude.{◌≡◌, ℕ, ◌+◌, ◌*◌, ◌^◌, ◌<◌, ◌≤◌, true, length};
ghost use Rattle.std.specs.Prelude.{OnOk, None, if◌then◌else◌};
ghost use Rattle.vx_flat.specs.Schema.{table_of as table_of_tag, members_of};
ghost use Rattle.vx_flat.specs.Places.{is_inline, are_inline, inline_size, place_of as placed};
ghost use Rattle.vx_flat.specs.Counting.{Verifies};
ghost use Rattle.vx_flat.specs.Weight as weigh;
ghost use Rattle.vx_flat.specs.Reading as read;
ghost use Rattle.vx_flat.specs.declared.schema.FieldKind.TheVariants as kinds;

use crate::error::FlatError;
use crate::reading::budget::Budget;
use crate::reading::places::{
    FieldTable, are_inline as inline, count_at, elements_at, field_table, fits, is_union_inline,
    place_of, tag_at, target_at, text_at,
};
use crate::schema::{FieldKind, TableKind, struct_size, tag_table};
use crate::steps::Steps;
use std::sync::ledger::Ledger;

/// Verifies and counts the string at a place.
fn verify_text(message: &[u8], place: usize, budget: &mut Budget) -> Result<(), FlatError>
    ensures verifies { (levels : ℕ) → Verifies result (read.text_shown message.now place)
        budget.old levels (weigh.text_weight message.now place) budget.new }
    ensures tables { OnOk result (budget.new.tables ≡ budget.old.tables) }
{
    let Some(text) = text_at(message, place) else {
        return Err(FlatError::BadTable);
    };
    budget.add_bytes(5 + text.len() as u64)
}

/// Verifies and counts the elements of the vector at a place, of `size` bytes each.
fn verify_elements(
    message: &[u8],
    place: usize,
    size: usize,
    budget: &mut Budget,
) -> Result<(), FlatError>
    requires { size ≤ 8000 }
    ensures verifies { (levels : ℕ) → Verifies result (read.elements_shown message.now place size)
        budget.old levels (weigh.elements_weight message.now place size) budget.new }
    ensures tables { OnOk result (budget.new.tables ≡ budget.old.tables) }
{
    let Some(bytes) = elements_at(message, place, size) else {
        return Err(FlatError::BadTable);
    };
    budget.add_bytes(4 + bytes.len() as u64)
}

/// Verifies and counts the strings of the `n` offsets at a place.
fn verify_each_text(
    message: &[u8],
    place: usize,
    n: u32,
    budget: &mut Budget,
) -> Result<(), FlatError>
    requires { place + 4 * n ≤ length message.now }
    ensures verifies { (levels : ℕ) → Verifies result
        (read.each_shown (λ q. read.text_shown message.now q) message.now place n)
        budget.old levels
        (weigh.each_weight (λ q. weigh.text_weight message.now q) message.now place n)
        budget.new }
    ensures tables { OnOk result (budget.new.tables ≡ budget.old.tables) }
{
    let mut at = place;
    for _ in 0..n {
        verify_text(message, target_at(message, at), budget)?;
        at += 4;
    }
    Ok(())
}

/// Verifies and counts the strings of the vector at a place.
fn verify_texts(message: &[u8], place: usize, budget: &mut Budget) -> Result<(), FlatError>
    ensures verifies { (levels : ℕ) → Verifies result
        (read.vector_shown (λ q. read.text_shown message.now q) message.now place)
        budget.old levels
        (weigh.vector_weight (λ q. weigh.text_weight message.now q) message.now place)
        budget.new }
    ensures tables { OnOk result (budget.new.tables ≡ budget.old.tables) }
{
    let Some(n) = count_at(message, place) else {
        return Err(FlatError::BadTable);
    };
    budget.add_bytes(4 + 4 * n as u64)?;
    verify_each_text(message, place + 4, n, budget)
}

/// Verifies and counts the tables of the `n` offsets at a place.
#[cycle(verifying)]
fn verify_each_table<K: TableKind, L: Ledger>(
    message: &[u8],
    kind: &K,
    place: usize,
    n: u32,
    table: u16,
    levels: u32,
    budget: &mut Budget,
    steps: &mut Steps<L>,
) -> Result<(), FlatError>
    requires { place + 4 * n ≤ length message.now }
    ensures verifies { Verifies result
        (read.each_shown (λ q. read.table_shown K.schema message.now q table) message.now place n)
        budget.old levels
        (weigh.each_weight (λ q. weigh.table_weight K.schema message.now q table)
        message.now place n)
        budget.new }
    ensures exact { OnOk result (steps.new + budget.new.tables ≡ steps.old + budget.old.tables) }
    ensures bound { steps.new ≤ steps.old + budget.old.tables + 1 }
{
    let mut at = place;
    for _ in 0..n {
        let target = target_at(message, at);
        verify_table(message, kind, target, table, levels, budget, steps)?;
        at += 4;
    }
    Ok(())
}

/// Verifies and counts the tables of the vector at a place.
#[cycle(verifying)]
fn verify_tables<K: TableKind, L: Ledger>(
    message: &[u8],
    kind: &K,
    place: usize,
    table: u16,
    levels: u32,
    budget: &mut Budget,
    steps: &mut Steps<L>,
) -> Result<(), FlatError>
    ensures verifies { Verifies result
        (read.vector_shown (λ q. read.table_shown K.schema message.now q table) message.now place)
        budget.old levels
        (weigh.vector_weight (λ q. weigh.table_weight K.schema message.now q table)
        message.now place)
        budget.new }
    ensures exact { OnOk result (steps.new + budget.new.tables ≡ steps.old + budget.old.tables) }
    ensures bound { steps.new ≤ steps.old + budget.old.tables + 1 }
{
    let Some(n) = count_at(message, place) else {
        return Err(FlatError::BadTable);
    };
    budget.add_bytes(4 + 4 * n as u64)?;
    verify_each_table(message, kind, place + 4, n, table, levels, budget, steps)
}

/// Verifies and counts the member of a union, if the schema has the tag.
#[cycle(verifying)]
fn verify_member<K: TableKind, L: Ledger>(
    message: &[u8],
    kind: &K,
    union: u16,
    tag: u8,
    target: usize,
    levels: u32,
    budget: &mut Budget,
    steps: &mut Steps<L>,
) -> Result<(), FlatError>
    ensures verifies { Verifies result
        (read.member_shown (λ q T. read.table_shown K.schema message.now q T) target tag
        (table_of_tag (members_of K.schema union) tag))
        budget.old levels
        (weigh.member_weight (λ q T. weigh.table_weight K.schema message.now q T) target
        (table_of_tag (members_of K.schema union) tag))
        budget.new }
    ensures exact { OnOk result (steps.new + budget.new.tables ≡ steps.old + budget.old.tables) }
    ensures bound { steps.new ≤ steps.old + budget.old.tables + 1 }
{
    match tag_table(kind, union, tag) {
        Some(table) => verify_table(message, kind, target, table, levels, budget, steps),
        None => Ok(()),
    }
}

/// Verifies and counts what a present field that is not a union points to.
#[cycle(verifying)]
fn verify_present<K: TableKind, L: Ledger>(
    message: &[u8],
    kind: &K,
    field: FieldKind,
    place: usize,
    levels: u32,
    budget: &mut Budget,
    steps: &mut Steps<L>,
) -> Result<(), FlatError>
    requires { place + inline_size field ≤ length message.now }
    ensures verifies { Verifies result
        (read.present_shown K.schema (λ q T. read.table_shown K.schema message.now q T)
        message.now field place)
        budget.old levels
        (weigh.present_weight K.schema (λ q T. weigh.table_weight K.schema message.now q T)
        message.now field place)
        budget.new }
    ensures exact { OnOk result (steps.new + budget.new.tables ≡ steps.old + budget.old.tables) }
    ensures bound { steps.new ≤ steps.old + budget.old.tables + 1 }
{
    match field {
        FieldKind::Vector(width) => {
            let target = target_at(message, place);
            verify_elements(message, target, width.bytes(), budget)
        }
        FieldKind::Structs(number) => {
            let target = target_at(message, place);
            verify_elements(message, target, struct_size(kind, number), budget)
        }
        FieldKind::Text => verify_text(message, target_at(message, place), budget),
        FieldKind::Texts => verify_texts(message, target_at(message, place), budget),
        FieldKind::Table(table) => {
            let target = target_at(message, place);
            verify_table(message, kind, target, table, levels, budget, steps)
        }
        FieldKind::Tables(table) => {
            let target = target_at(message, place);
            verify_tables(message, kind, target, table, levels, budget, steps)
        }
        _ => Ok(()),
    }
}

/// Verifies the inline part of a union, and verifies and counts its member.
#[cycle(verifying)]
#[inline(never)]
fn verify_union<K: TableKind, L: Ledger>(
    message: &[u8],
    kind: &K,
    union: u16,
    here: Option<usize>,
    next: Option<usize>,
    levels: u32,
    budget: &mut Budget,
    steps: &mut Steps<L>,
) -> Result<(), FlatError>
    ensures verifies { Verifies result
        (if is_inline message.now (kinds.Union union) here next
        then read.union_shown K.schema (λ q T. read.table_shown K.schema message.now q T)
        message.now union here next else None)
        budget.old levels
        (if is_inline message.now (kinds.Union union) here next
        then weigh.union_weight K.schema (λ q T. weigh.table_weight K.schema message.now q T)
        message.now union here next else weigh.nothing)
        budget.new }
    ensures exact { OnOk result (steps.new + budget.new.tables ≡ steps.old + budget.old.tables) }
    ensures bound { steps.new ≤ steps.old + budget.old.tables + 1 }
{
    if !is_union_inline(message, here, next) {
        return Err(FlatError::BadTable);
    }
    let Some(next) = next else {
        return Ok(());
    };
    let tag = tag_at(message, here);
    verify_member(
        message,
        kind,
        union,
        tag,
        target_at(message, next),
        levels,
        budget,
        steps,
    )
}

/// Verifies the inline part of a field, and verifies and counts what it points to. A union has the
/// next entry too.
#[cycle(verifying)]
#[inline(always)]
fn verify_field<K: TableKind, L: Ledger>(
    message: &[u8],
    kind: &K,
    field: FieldKind,
    place: usize,
    fields: FieldTable,
    entry: usize,
    levels: u32,
    budget: &mut Budget,
    steps: &mut Steps<L>,
) -> Result<(), FlatError>
    requires lies { fields.place + fields.len ≤ length message.now }
    requires here { place < length message.now }
    requires few { entry + 1 < 2 ^ 62 }
    ensures verifies { Verifies result
        (if is_inline message.now field (placed message.now place fields entry)
        (placed message.now place fields (entry + 1))
        then read.field_shown K.schema (λ q T. read.table_shown K.schema message.now q T)
        message.now field (placed message.now place fields entry)
        (placed message.now place fields (entry + 1)) else None)
        budget.old levels
        (if is_inline message.now field (placed message.now place fields entry)
        (placed message.now place fields (entry + 1))
        then weigh.field_weight K.schema (λ q T. weigh.table_weight K.schema message.now q T)
        message.now field (placed message.now place fields entry)
        (placed message.now place fields (entry + 1)) else weigh.nothing)
        budget.new }
    ensures exact { OnOk result (steps.new + budget.new.tables ≡ steps.old + budget.old.tables) }
    ensures bound { steps.new ≤ steps.old + budget.old.tables + 1 }
{
    if let FieldKind::Union(union) = field {
        let here = place_of(message, place, fields, entry);
        let next = place_of(message, place, fields, entry + 1);
        return verify_union(message, kind, union, here, next, levels, budget, steps);
    }
    let Some(here) = place_of(message, place, fields, entry) else {
        return Ok(());
    };
    if !fits(message, here, field.inline_size()) {
        return Err(FlatError::BadTable);
    }
    verify_present(message, kind, field, here, levels, budget, steps)
}

/// Why a table is refused, if `error` was found in one of its fields. A table whose inline part is
/// ill-formed weighs nothing, so a limit may be reported only where the other fields are well-formed.
#[cold]
fn refusal(
    message: &[u8],
    place: usize,
    fields: FieldTable,
    kinds: &[FieldKind],
    error: FlatError,
) -> FlatError
    requires lies { fields.place + fields.len ≤ length message.now }
    requires here { place < length message.now }
    ensures { result
        ≡ (if are_inline message.now place fields kinds.now 0 then error else FlatError.BadTable) }
{
    if inline(message, place, fields, kinds) {
        error
    } else {
        FlatError::BadTable
    }
}

/// Verifies the inline parts of a table's fields, and verifies and counts what they point to.
#[cycle(verifying)]
fn verify_fields<K: TableKind, L: Ledger>(
    message: &[u8],
    kind: &K,
    place: usize,
    fields: FieldTable,
    kinds: &[FieldKind],
    levels: u32,
    budget: &mut Budget,
    steps: &mut Steps<L>,
) -> Result<(), FlatError>
    requires lies { fields.place + fields.len ≤ length message.now }
    requires here { place < length message.now }
    ensures verifies { Verifies result
        (if are_inline message.now place fields kinds.now 0
        then read.fields_shown K.schema (λ q T. read.table_shown K.schema message.now q T)
        message.now place fields kinds.now 0 else None)
        budget.old levels
        (if are_inline message.now place fields kinds.now 0
        then weigh.fields_weight K.schema (λ q T. weigh.table_weight K.schema message.now q T)
        message.now place fields kinds.now 0 else weigh.nothing)
        budget.new }
    ensures exact { OnOk result (steps.new + budget.new.tables ≡ steps.old + budget.old.tables) }
    ensures bound { steps.new ≤ steps.old + budget.old.tables + 1 }
{
    let mut entry: usize = 0;
    for field in kinds {
        if let Err(error) = verify_field(
            message, kind, *field, place, fields, entry, levels, budget, steps,
        ) {
            return Err(refusal(message, place, fields, kinds, error));
        }
        entry += field.slots();
    }
    Ok(())
}

/// Verifies and counts the table at a place. At most `levels` tables may nest, this one counted.
#[cycle(verifying)]
pub fn verify_table<K: TableKind, L: Ledger>(
    message: &[u8],
    kind: &K,
    place: usize,
    table: u16,
    levels: u32,
    budget: &mut Budget,
    steps: &mut Steps<L>,
) -> Result<(), FlatError>
    ensures verifies { Verifies result (read.table_shown K.schema message.now place table)
        budget.old levels (weigh.table_weight K.schema message.now place table) budget.new }
    ensures exact { OnOk result (steps.new + budget.new.tables ≡ steps.old + budget.old.tables) }
    ensures bound { steps.new ≤ steps.old + budget.old.tables + 1 }
{
    steps.tick();
    let kinds = kind.fields(table);
    let Some(fields) = field_table(message, place) else {
        return Err(FlatError::BadTable);
    };
    if levels == 0 {
        return Err(refusal(message, place, fields, kinds, FlatError::TableLimit));
    }
    if let Err(error) = budget.add_table(levels - 1) {
        return Err(refusal(message, place, fields, kinds, error));
    }
    verify_fields(
        message,
        kind,
        place,
        fields,
        kinds,
        levels - 1,
        budget,
        steps,
    )
}
