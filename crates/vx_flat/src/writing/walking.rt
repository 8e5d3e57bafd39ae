//! Writes a value with a builder, depth first.

ghost use Rattle.std.specs.Prelude.{◌≡◌, ◌+◌, ◌^◌, ◌++◌, ◌∷◌, [], ◌≤◌, ℕ, length, map, string_bytes, false, Some, OnOk, IfOk, IfErr};
ghost use Rattle.vx_flat.specs.Schema as kinds;
ghost use Rattle.vx_flat.specs.KindParts as parts;
ghost use Rattle.vx_flat.specs.Value as plain;
ghost use Rattle.vx_flat.specs.View.{view, views, row_views};
ghost use Rattle.vx_flat.specs.IsOf.{AreOf, IsOfKind, AreRowsOf};
ghost use Rattle.vx_flat.specs.Pieces as piece;
ghost use Rattle.vx_flat.specs.Building.{with_rest, with_pieces};
ghost use Rattle.vx_flat.specs.Walking.{link_kind, IsCut};
ghost use Rattle.vx_flat.specs.declared.builder.piece.LinkKind.TheVariants as link;

use crate::builder::Builder;
use crate::builder::piece::{BlockField, LinkKind};
use crate::error::FlatError;
use crate::schema::{FieldKind, TableKind, Width, struct_size, tag_table};
use crate::value::FieldValue;
use std::alloc::{AllocError, Global};

/// The size of an element of a vector of numbers or structs.
fn element_size<K: TableKind>(kind: &K, field: FieldKind) -> usize
    ensures { result ≡ parts.element_size K.schema field }
{
    match field {
        FieldKind::Vector(width) => width.bytes(),
        FieldKind::Structs(number) => struct_size(kind, number),
        _ => 1,
    }
}

/// The index of a field's table, or of the table of its vector.
fn table_number(field: FieldKind) -> u16
    ensures { result ≡ parts.table_number field }
{
    match field {
        FieldKind::Table(table) => table,
        FieldKind::Tables(table) => table,
        _ => 0,
    }
}

/// The index of a field's union.
fn union_number(field: FieldKind) -> u16
    ensures { result ≡ parts.union_number field }
{
    match field {
        FieldKind::Union(union) => union,
        _ => 0,
    }
}

/// Whether a field is a union.
fn is_union(field: FieldKind) -> bool
    ensures { result ≡ parts.is_union field }
{
    match field {
        FieldKind::Union(_) => true,
        _ => false,
    }
}

/// The table of a union's member.
fn member_table<K: TableKind>(kind: &K, union: u16, tag: u8) -> u16
    ensures { (T : ℕ) → kinds.table_of (kinds.members_of K.schema union) tag ≡ Some T
        → result ≡ T }
{
    tag_table(kind, union, tag).unwrap_or(0)
}

/// What a field's offset points to.
fn link_kind(field: FieldKind) -> LinkKind
    ensures { result ≡ link_kind field }
{
    match field {
        FieldKind::Text => LinkKind::Text,
        FieldKind::Table(_) => LinkKind::Table,
        _ => LinkKind::Vector,
    }
}

/// The entry of a number of a width.
fn number_of(width: Width, value: u64) -> BlockField
    ensures { result ≡ BlockField.Number (kinds.width width) value }
{
    let width = match width {
        Width::One => 1,
        Width::Two => 2,
        Width::Four => 4,
        Width::Eight => 8,
    };
    BlockField::Number { width, bits: value }
}

/// The entry of a number that has a default: absent if it equals the default.
fn default_entry(width: Width, value: u64) -> BlockField
    ensures { result ≡ piece.default_entry (kinds.width width) value }
{
    if value == 0 {
        return BlockField::Absent;
    }
    number_of(width, value)
}

/// The entry of a number or flag.
fn number_entry(field: FieldKind, value: u64) -> BlockField
    ensures { piece.field_entries field (plain.number value) ≡ result ∷ [] }
{
    match field {
        FieldKind::Number(width) => default_entry(width, value),
        FieldKind::Flag => default_entry(Width::One, value),
        FieldKind::OptNumber(width) => number_of(width, value),
        FieldKind::OptFlag => number_of(Width::One, value),
        _ => BlockField::Link(link_kind(field)),
    }
}

/// Appends an entry.
fn push_one(entries: &mut Vec<BlockField>, entry: BlockField) -> Result<(), AllocError>
    ensures { OnOk result (entries.new.items ≡ entries.old.items ++ (entry ∷ [])) }
{
    entries.push(entry)?;
    Ok(())
}

/// Appends two entries.
fn push_two(
    entries: &mut Vec<BlockField>,
    first: BlockField,
    second: BlockField,
) -> Result<(), AllocError>
    ensures { OnOk result (entries.new.items ≡ entries.old.items ++ (first ∷ second ∷ [])) }
{
    entries.push(first)?;
    entries.push(second)?;
    Ok(())
}

/// Appends the entries of a field.
fn push_entries<K: TableKind>(
    field: FieldKind,
    value: &FieldValue,
    entries: &mut Vec<BlockField>,
) -> Result<(), AllocError>
    requires { IsOfKind K.schema field (view value.now) }
    ensures { OnOk result (entries.new.items
        ≡ entries.old.items ++ piece.field_entries field (view value.now)) }
{
    match value {
        FieldValue::Absent => {
            if is_union(field) {
                return push_two(entries, BlockField::Absent, BlockField::Absent);
            }
            push_one(entries, BlockField::Absent)
        }
        FieldValue::Number(number) => push_one(entries, number_entry(field, *number)),
        FieldValue::Member(tag, _) => push_two(
            entries,
            number_of(Width::One, *tag as u64),
            BlockField::Link(LinkKind::Table),
        ),
        FieldValue::Unknown(tag) => push_two(
            entries,
            number_of(Width::One, *tag as u64),
            BlockField::UnknownMember,
        ),
        FieldValue::Elements(_) => push_one(entries, BlockField::Link(LinkKind::Vector)),
        FieldValue::Text(_) => push_one(entries, BlockField::Link(LinkKind::Text)),
        FieldValue::Texts(_) => push_one(entries, BlockField::Link(LinkKind::Vector)),
        FieldValue::Table(_) => push_one(entries, BlockField::Link(LinkKind::Table)),
        FieldValue::Tables(_) => push_one(entries, BlockField::Link(LinkKind::Vector)),
    }
}

/// Appends the entries of a table to an empty list.
fn push_all<K: TableKind>(
    kinds: &[FieldKind],
    values: &[FieldValue],
    entries: &mut Vec<BlockField>,
) -> Result<(), AllocError>
    requires of_kinds { AreOf K.schema kinds.now (views values.now) }
    requires none { entries.old.items ≡ [] }
    ensures { OnOk result (entries.new.items ≡ piece.entries kinds.now (views values.now)) }
{
    for i in 0..values.len() {
        let value = &values[i];
        push_entries::<K>(kinds[i], value, entries)?;
    }
    Ok(())
}

/// Writes the block of a vector of numbers or structs for the next link.
fn write_elements(size: usize, bytes: &[u8], builder: &mut Builder) -> Result<(), FlatError>
    requires { builder.old.failed ≡ false }
    ensures written { OnOk result
        (builder.new ≡ with_rest builder.old (piece.elements_piece size bytes.now ∷ [])) }
    ensures cut { IfErr result
        (λ e. IsCut (with_rest builder.old (piece.elements_piece size bytes.now ∷ [])) e) }
{
    builder.go_on();
    builder.elements(size, bytes)
}

/// Writes the block of a string for the next link.
fn write_text(text: &str, builder: &mut Builder) -> Result<(), FlatError>
    requires { builder.old.failed ≡ false }
    ensures written { OnOk result
        (builder.new ≡ with_rest builder.old (piece.text_piece text.now ∷ [])) }
    ensures cut { IfErr result
        (λ e. IsCut (with_rest builder.old (piece.text_piece text.now ∷ [])) e) }
{
    builder.go_on();
    builder.put_text(text)
}

/// Writes the block of a vector of `count` links of a kind for the next link.
fn write_links(kind: LinkKind, count: usize, builder: &mut Builder) -> Result<(), FlatError>
    requires works { builder.old.failed ≡ false }
    requires few { count ≤ 2 ^ 61 }
    ensures written { OnOk result
        (builder.new ≡ with_rest builder.old (piece.links_piece kind count ∷ [])) }
    ensures cut { IfErr result
        (λ e. IsCut (with_rest builder.old (piece.links_piece kind count ∷ [])) e) }
{
    builder.go_on();
    builder.links(kind, count)
}

/// Writes the blocks of a vector of strings for the next link.
fn write_texts(texts: &[String], builder: &mut Builder) -> Result<(), FlatError>
    requires { builder.old.failed ≡ false }
    ensures written { OnOk result (builder.new ≡ with_rest builder.old
        (piece.links_piece link.Text (length texts.now)
        ∷ map piece.text_piece (map string_bytes texts.now))) }
    ensures cut { IfErr result (λ e. IsCut (with_rest builder.old
        (piece.links_piece link.Text (length texts.now)
        ∷ map piece.text_piece (map string_bytes texts.now))) e) }
{
    write_links(LinkKind::Text, texts.len(), builder)?;
    for text in texts {
        write_text(text.as_str(), builder)?;
    }
    Ok(())
}

/// Writes the blocks below a field for the next links.
#[cycle(blocks)]
fn write_below<K: TableKind>(
    alloc: Global,
    kind: &K,
    field: FieldKind,
    value: &FieldValue,
    builder: &mut Builder,
) -> Result<(), FlatError>
    requires of_kind { IsOfKind K.schema field (view value.now) }
    requires works { builder.old.failed ≡ false }
    ensures written { OnOk result (builder.new
        ≡ with_rest builder.old (piece.field_pieces K.schema field (view value.now))) }
    ensures cut { IfErr result
        (λ e. IsCut (with_rest builder.old (piece.field_pieces K.schema field (view value.now))) e) }
{
    match value {
        FieldValue::Elements(bytes) => write_elements(element_size(kind, field), bytes, builder),
        FieldValue::Text(text) => write_text(text.as_str(), builder),
        FieldValue::Texts(texts) => write_texts(texts, builder),
        FieldValue::Table(values) => {
            builder.go_on();
            write_table(alloc, kind, table_number(field), values, builder)
        }
        FieldValue::Tables(rows) => write_rows(alloc, kind, table_number(field), rows, builder),
        FieldValue::Member(tag, values) => {
            builder.go_on();
            let table = member_table(kind, union_number(field), *tag);
            write_table(alloc, kind, table, values, builder)
        }
        FieldValue::Absent => Ok(()),
        FieldValue::Number(_) => Ok(()),
        FieldValue::Unknown(_) => Ok(()),
    }
}

/// Writes the blocks below a table's fields for the next links.
#[cycle(blocks)]
fn write_fields<K: TableKind>(
    alloc: Global,
    kind: &K,
    kinds: &[FieldKind],
    values: &[FieldValue],
    builder: &mut Builder,
) -> Result<(), FlatError>
    requires of_kinds { AreOf K.schema kinds.now (views values.now) }
    requires works { builder.old.failed ≡ false }
    ensures written { OnOk result (builder.new
        ≡ with_rest builder.old (piece.fields_pieces K.schema kinds.now (views values.now))) }
    ensures cut { IfErr result (λ e. IsCut
        (with_rest builder.old (piece.fields_pieces K.schema kinds.now (views values.now))) e) }
{
    for i in 0..values.len() {
        let value = &values[i];
        write_below(alloc, kind, kinds[i], value, builder)?;
    }
    Ok(())
}

/// Writes the blocks of a vector of tables for the next link.
#[cycle(blocks)]
fn write_rows<K: TableKind>(
    alloc: Global,
    kind: &K,
    table: u16,
    rows: &[Vec<FieldValue>],
    builder: &mut Builder,
) -> Result<(), FlatError>
    requires of_kinds { AreRowsOf K.schema table (row_views rows.now) }
    requires works { builder.old.failed ≡ false }
    ensures written { OnOk result (builder.new ≡ with_rest builder.old
        (piece.links_piece link.Table (length rows.now)
        ∷ piece.rows_pieces K.schema table (row_views rows.now))) }
    ensures cut { IfErr result (λ e. IsCut (with_rest builder.old
        (piece.links_piece link.Table (length rows.now)
        ∷ piece.rows_pieces K.schema table (row_views rows.now))) e) }
{
    write_links(LinkKind::Table, rows.len(), builder)?;
    for i in 0..rows.len() {
        builder.go_on();
        write_table(alloc, kind, table, &rows[i], builder)?;
    }
    Ok(())
}

/// Writes the block of a table, and the blocks below it.
#[cycle(blocks)]
pub fn write_table<K: TableKind>(
    alloc: Global,
    kind: &K,
    table: u16,
    values: &[FieldValue],
    builder: &mut Builder,
) -> Result<(), FlatError>
    requires of_kinds { AreOf K.schema (kinds.fields_of K.schema table) (views values.now) }
    requires works { builder.old.failed ≡ false }
    ensures written { OnOk result (builder.new ≡ with_pieces builder.old
        (piece.table_pieces K.schema (kinds.fields_of K.schema table) (views values.now))) }
    ensures cut { IfErr result (λ e. IsCut (with_pieces builder.old
        (piece.table_pieces K.schema (kinds.fields_of K.schema table) (views values.now))) e) }
{
    let kinds = kind.fields(table);
    let mut entries = builder.take_entries();
    push_all::<K>(kinds, values, &mut entries)?;
    builder.put_table(&entries)?;
    builder.give_back(entries);
    write_fields(alloc, kind, kinds, values, builder)
}
