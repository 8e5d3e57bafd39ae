//! The decoder: the fields of a message, each put into its slot, and what each slot keeps.

ghost use Rattle.std.specs.Prelude.{◌≡◌, ◌<◌, length, map, replicate, [], ◌∷◌, ◌++◌, IfSome, IfOk, OnOk, Ok};
ghost use Rattle.std.specs.Str.{is_utf8};
ghost use Rattle.vx_proto.specs.Wire.{cut};
ghost use Rattle.vx_proto.specs.WireView.{part_view};
ghost use Rattle.vx_proto.specs.Schema.{members_of, list_at, kind_in, slot_view, list_view, schema_view};
ghost use Rattle.vx_proto.specs.Value.{view, value_view, entries_view};
ghost use Rattle.vx_proto.specs.Reads.{default_in, last_of};
ghost use Rattle.vx_proto.specs.Reading.{Gives, varint_in, octets_in, first_slot, limited, limited_signed, typed_scalar, typed, gather_all, kept_of, finished, decoded};

use crate::element::{Element, Entries, Entry, copied, flag};
use crate::error::ProtoError;
use crate::schema::{Kind, Member, ScalarKind, Schema, Slot};
use crate::wire::{Part, field_of};
use std::alloc::{AllocError, Global};

/// The kind of the member of this field number.
fn member_kind(members: &[Member], number: u32) -> Option<Kind>
    ensures { result ≡ kind_in members.now number }
{
    for member in members {
        if member.number == number {
            return Some(member.kind);
        }
    }
    None
}

/// The kind that a slot has under this field number.
pub fn kind_of(slot: &Slot, number: u32) -> Option<Kind>
    ensures { result ≡ kind_in (members_of (slot_view slot.now)) number }
{
    match slot {
        Slot::Plain(n, kind) | Slot::Optional(n, kind) => {
            if *n == number {
                Some(Kind::Scalar(*kind))
            } else {
                None
            }
        }
        Slot::OneOf(members) => member_kind(members, number),
        Slot::Repeated(n, kind) => { if *n == number { Some(*kind) } else { None } }
    }
}

/// The slot of this field number, and its kind.
fn slot_of(list: &[Slot], number: u32) -> Option<(usize, Kind)>
    ensures place { result ≡ first_slot (map slot_view list.now) number }
    ensures bound { IfSome result (λ x. x.0 < length list.now) }
{
    for (i, slot) in list.iter().enumerate() {
        if let Some(kind) = kind_of(slot, number) {
            return Some((i, kind));
        }
    }
    None
}

/// The number in a field: `BadMessage` for another wire type.
fn varint_of(part: Part<'_>) -> Result<u64, ProtoError>
    ensures { Gives (λ n. n) result (varint_in (part_view part.entry)) }
{
    match part {
        Part::Varint(n) => Ok(n),
        _ => Err(ProtoError::BadMessage),
    }
}

/// The bytes in a field: `BadMessage` for another wire type.
fn octets_of(part: Part<'_>) -> Result<&[u8], ProtoError>
    ensures { Gives (λ s. s.now) result (octets_in (part_view part.entry)) }
{
    match part {
        Part::Len(s) => Ok(s),
        _ => Err(ProtoError::BadMessage),
    }
}

fn empty_slots(alloc: Global, count: usize) -> Result<Vec<Entries>, ProtoError>
    ensures { Gives (λ v. value_view v.items) result (Ok (replicate count [])) }
{
    let mut slots = Vec::with_capacity(alloc, count)?;
    for _ in 0..count {
        slots.push(Vec::new(alloc))?;
    }
    Ok(slots)
}

/// The default of a kind: 0, or no bytes. It takes no memory.
fn default_of(alloc: Global, kind: ScalarKind) -> Element
    ensures { view result ≡ default_in kind }
{
    match kind {
        ScalarKind::String | ScalarKind::Bytes => Element::Octets(Vec::new(alloc)),
        _ => Element::Number(0),
    }
}

/// Drops all entries but the last, as a slot of one member keeps the last occurrence.
fn keep_last(entries: &mut Entries) -> Result<(), AllocError>
    ensures { OnOk result (entries_view entries.new.items ≡ last_of [] (entries_view entries.old.items)) }
{
    if entries.len() < 2 {
        return Ok(());
    }
    let Some(last) = entries.pop() else {
        return Ok(());
    };
    entries.clear();
    entries.push(last)?;
    Ok(())
}

/// Leaves in a slot what it keeps of the occurrences of its members. `BadMessage` where a oneof occurs twice.
#[tactic(auto, unfolding(crate::specs::Reading::kept_of))]
fn keep(alloc: Global, slot: &Slot, entries: &mut Entries) -> Result<(), ProtoError>
    ensures { Gives (λ _. entries_view entries.new.items) result (kept_of (slot_view slot.now) (entries_view entries.old.items)) }
{
    match slot {
        Slot::Plain(number, kind) => {
            if entries.is_empty() {
                push_entry(entries, (*number, default_of(alloc, *kind)))?;
                return Ok(());
            }
            keep_last(entries)?;
            Ok(())
        }
        Slot::Optional(_, _) => {
            keep_last(entries)?;
            Ok(())
        }
        Slot::OneOf(_) => {
            if entries.len() > 1 {
                return Err(ProtoError::BadMessage);
            }
            Ok(())
        }
        Slot::Repeated(_, _) => Ok(()),
    }
}

/// The slots, each with what it keeps.
fn finish(alloc: Global, list: &[Slot], mut slots: Vec<Entries>) -> Result<Vec<Entries>, ProtoError>
    requires { length slots.items ≡ length list.now }
    ensures { Gives (λ v. value_view v.items) result (finished (list_view list.now) (value_view slots.items)) }
{
    for i in 0..list.len() {
        keep(alloc, &list[i], &mut slots[i])?;
    }
    Ok(slots)
}

/// The number, which is to be below a limit: `OutOfRange` else.
fn limited_number(n: u64, limit: u64) -> Result<Element, ProtoError>
    ensures { Gives view result (limited limit n) }
{
    if n >= limit {
        return Err(ProtoError::OutOfRange);
    }
    Ok(Element::Number(n))
}

/// The number, which is to be the 64-bit two's complement of an int32: `OutOfRange` else.
fn signed_number(n: u64) -> Result<Element, ProtoError>
    ensures { Gives view result (limited_signed n) }
{
    if n < 1 << 31 || n >= 0xffff_ffff_8000_0000 {
        return Ok(Element::Number(n));
    }
    Err(ProtoError::OutOfRange)
}

/// What a part shows at a scalar kind.
fn scalar_of(alloc: Global, kind: ScalarKind, part: Part<'_>) -> Result<Element, ProtoError>
    ensures { Gives view result (typed_scalar kind (part_view part.entry)) }
{
    match kind {
        ScalarKind::Uint32 => limited_number(varint_of(part)?, 1 << 32),
        ScalarKind::Uint64 | ScalarKind::Sint64 => Ok(Element::Number(varint_of(part)?)),
        ScalarKind::Int32 => signed_number(varint_of(part)?),
        ScalarKind::Flag => Ok(flag(varint_of(part)? != 0)),
        ScalarKind::Enum(codes) => limited_number(varint_of(part)?, codes as u64),
        ScalarKind::Fixed32 => match part {
            Part::I32(n) => Ok(Element::Number(n as u64)),
            _ => Err(ProtoError::BadMessage),
        },
        ScalarKind::Fixed64 => match part {
            Part::I64(n) => Ok(Element::Number(n)),
            _ => Err(ProtoError::BadMessage),
        },
        ScalarKind::String => {
            let s = octets_of(part)?;
            if !is_text(s) {
                return Err(ProtoError::BadMessage);
            }
            copied(alloc, s)
        }
        ScalarKind::Bytes => copied(alloc, octets_of(part)?),
    }
}

/// What a part shows at a kind. At most `left` messages may nest in it.
#[cycle(reading)]
#[tactic(auto, unfolding(crate::specs::Reading::typed))]
fn element_of(
    alloc: Global,
    schema: Schema,
    left: u8,
    kind: Kind,
    part: Part<'_>,
) -> Result<Element, ProtoError>
    ensures { Gives view result (typed (decoded (schema_view schema) left) kind (part_view part.entry)) }
{
    match kind {
        Kind::Scalar(kind) => scalar_of(alloc, kind, part),
        Kind::Message(place) => {
            let s = octets_of(part)?;
            let slots = message_of(alloc, schema, left, place, s)?;
            Ok(Element::Message(slots))
        }
    }
}

fn is_text(bytes: &[u8]) -> bool
    ensures { result ≡ is_utf8 bytes.now }
{
    simdutf8::basic::from_utf8(bytes).is_ok()
}

/// Appends an entry. Most slots have one, so the first append allocates room for one alone.
fn push_entry(entries: &mut Entries, entry: Entry) -> Result<(), AllocError>
    ensures { OnOk result (entries.new.items ≡ entries.old.items ++ entry ∷ []) }
{
    if entries.is_empty() {
        entries.reserve_exact(1)?;
    }
    entries.push(entry)?;
    Ok(())
}

/// What the fields show, each in its slot, before it is decided what a slot keeps: every occurrence is judged.
#[cycle(reading)]
fn gather(
    alloc: Global,
    schema: Schema,
    left: u8,
    list: &[Slot],
    bytes: &[u8],
) -> Result<Vec<Entries>, ProtoError>
    ensures value { Gives (λ v. value_view v.items) result (gather_all (decoded (schema_view schema) left) (list_view list.now) (cut bytes.now) (replicate (length list.now) [])) }
    ensures length { IfOk result (λ v. length v.items ≡ length list.now) }
{
    let mut slots = empty_slots(alloc, list.len())?;
    let mut rest = bytes;
    while !rest.is_empty() {
        let Some((field, after)) = field_of(rest) else {
            return Err(ProtoError::BadMessage);
        };
        if let Some((place, kind)) = slot_of(list, field.number) {
            let element = element_of(alloc, schema, left, kind, field.part)?;
            push_entry(&mut slots[place], (field.number, element))?;
        }
        rest = after;
    }
    Ok(slots)
}

/// The plain value of the message at this place of the schema. At most `left` messages may nest, itself counted.
#[cycle(reading)]
#[tactic(auto, unfolding(crate::specs::Reading::decoded))]
pub fn message_of(
    alloc: Global,
    schema: Schema,
    left: u8,
    place: u32,
    bytes: &[u8],
) -> Result<Vec<Entries>, ProtoError>
    ensures { Gives (λ v. value_view v.items) result (decoded (schema_view schema) left place bytes.now) }
{
    if left == 0 {
        return Err(ProtoError::TooDeep);
    }
    let list = list_of(schema, place);
    let slots = gather(alloc, schema, left - 1, list, bytes)?;
    finish(alloc, list, slots)
}

/// The slots of the message at this place of the schema; none past the last message.
pub fn list_of(schema: Schema, place: u32) -> &'static [Slot]
    ensures { list_view result.now ≡ list_at (schema_view schema) place }
{
    match schema.messages.get(place as usize) {
        Some(list) => list,
        None => &[],
    }
}
