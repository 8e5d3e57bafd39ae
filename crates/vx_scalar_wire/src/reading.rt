//! Values read from plain values of messages.

pub mod leaves;
pub mod numbers;

ghost use Rattle.std.specs.Prelude.{◌≡◌, ◌+◌, ◌*◌, IfOk, IfErr, Ok, Some, None, MatchOption, [], ◌∷◌};
ghost use Rattle.std.specs.Fn.{FnReturnsAt};
ghost use Rattle.vx_trees.specs.Rose.{roses_of};
ghost use Rattle.vx_proto.specs.Form.{HasForm};
ghost use Rattle.vx_proto.specs.Value.{Value, view, value_view, message as a_message, slots_of};
ghost use Rattle.vx_type_wire.specs.Known.{ExtMeaning};
ghost use Rattle.vx_type_wire.specs.TypeMessage.{RefusesReadingType, type_lists};
ghost use Rattle.vx_types.specs.Fits.{member};
ghost use Rattle.vx_types.specs.Seen.{typ};
ghost use Rattle.vx_scalars.specs.Seen.{value_of, seen};
ghost use Rattle.vx_scalar_wire.specs.Answers.{GivesEach, GivesParts, GivesRow, GivesScalar, GivesValue, RefusesScalarType, ReadsTypes, lone_member};
ghost use Rattle.vx_scalar_wire.specs.Reading.{ReadsValue, ReadsScalar};
ghost use Rattle.vx_scalar_wire.specs.Refusing.{RefusesReadingValue, RefusesReadingScalar};
ghost use Rattle.vx_scalar_wire.specs.ScalarMessage.{scalar_lists};

use crate::error::ScalarWireError;
use crate::reading::leaves::octets_value;
use crate::reading::numbers::number_value;
use std::alloc::Global;
use vx_proto::{
    Element, Entries, Entry, PlainMessage, copied_slots, entries_at, message_at, number_at,
};
use vx_scalars::{Scalar, ScalarValue, ValueRef, Values, VariantRef, bare_dtype};
use vx_type_wire::{TypeWireError, pb};
use vx_types::{DType, StructFields, UnionVariants, or_memory};

// The limit of levels of a value in a message. Each level nests two messages, of which a message has 100 at most.
const MOST_LEVELS: u8 = 50;

/// The value whose message has this plain value, at a type; `None` is a null. Only a variant's message has a type, which
/// `types` reads: so the caller decides which extensions are known.
pub fn read_value<F: Fn(&pb::DType) -> Result<DType, TypeWireError>>(
    alloc: Global,
    slots: &[Entries],
    dtype: &DType,
    types: &F,
) -> Result<Option<ScalarValue>, ScalarWireError>
    requires call { F.IsAlwaysCallable types.now }
    requires form { HasForm scalar_lists 15 (value_view slots.now) }
    ensures read { (s : ExtMeaning) → ReadsTypes (λ t r. FnReturnsAt F.Fn types.now t r) s
        → IfOk result (λ x. ReadsValue s (seen x) (typ dtype.now) (value_view slots.now)) }
    ensures cause { (s : ExtMeaning) → ReadsTypes (λ t r. FnReturnsAt F.Fn types.now t r) s
        → IfErr result (λ e. RefusesReadingValue e s 100 (typ dtype.now) (value_view slots.now)) }
{
    value_in(alloc, slots, dtype, types, MOST_LEVELS)
}

/// The scalar whose message has this plain value.
pub fn read_scalar<F: Fn(&pb::DType) -> Result<DType, TypeWireError>>(
    alloc: Global,
    slots: &[Entries],
    types: &F,
) -> Result<Scalar, ScalarWireError>
    requires call { F.IsAlwaysCallable types.now }
    requires form { HasForm scalar_lists 14 (value_view slots.now) }
    ensures read { (s : ExtMeaning) → ReadsTypes (λ t r. FnReturnsAt F.Fn types.now t r) s
        → IfOk result (λ x. ReadsScalar s x (value_view slots.now)) }
    ensures cause { (s : ExtMeaning) → ReadsTypes (λ t r. FnReturnsAt F.Fn types.now t r) s
        → IfErr result (λ e. RefusesReadingScalar e s 100 (value_view slots.now)) }
{
    scalar_in(alloc, slots, types, MOST_LEVELS)
}

// The value whose message has this plain value, at a type, of at most `left` levels;
// `None` is a null.
#[cycle(reading)]
fn value_in<F: Fn(&pb::DType) -> Result<DType, TypeWireError>>(
    alloc: Global,
    slots: &[Entries],
    dtype: &DType,
    types: &F,
    left: u8,
) -> Result<Option<ScalarValue>, ScalarWireError>
    requires call { F.IsAlwaysCallable types.now }
    requires form { HasForm scalar_lists 15 (value_view slots.now) }
    ensures read { (s : ExtMeaning) → ReadsTypes (λ t r. FnReturnsAt F.Fn types.now t r) s
        → GivesValue seen result s (2 * left) (typ dtype.now) (value_view slots.now) }
{
    if left == 0 {
        return Err(ScalarWireError::TooDeep);
    }
    let Some(entry) = member_in(slots) else {
        return Err(ScalarWireError::MissingKind);
    };
    match &entry.1 {
        Element::Number(value) => number_value(entry.0, *value, dtype),
        Element::Octets(bytes) => octets_value(alloc, entry.0, bytes, dtype),
        Element::Message(parts) => message_value(alloc, entry.0, parts, dtype, types, left - 1),
    }
}

// The member in the oneof of a value's message, if any.
fn member_in(slots: &[Entries]) -> Option<&Entry>
    requires { HasForm scalar_lists 15 (value_view slots.now) }
    ensures { MatchOption result (value_view slots.now ≡ [] ∷ []) (λ x. value_view slots.now ≡ lone_member x.now.0 (view x.now.1)) }
{
    match entries_at(slots, 0) {
        [entry, ..] => Some(entry),
        [] => None,
    }
}

// The value of a member that holds a message: a list, a union's value or a variant.
#[cycle(reading)]
fn message_value<F: Fn(&pb::DType) -> Result<DType, TypeWireError>>(
    alloc: Global,
    number: u32,
    slots: &[Entries],
    dtype: &DType,
    types: &F,
    left: u8,
) -> Result<Option<ScalarValue>, ScalarWireError>
    requires call { F.IsAlwaysCallable types.now }
    requires form { HasForm scalar_lists 15 (lone_member number (a_message (slots_of (value_view slots.now)))) }
    ensures read { (s : ExtMeaning) → ReadsTypes (λ t r. FnReturnsAt F.Fn types.now t r) s
        → GivesValue seen result s (2 * left + 2) (typ dtype.now) (lone_member number (a_message (slots_of (value_view slots.now)))) }
{
    match number {
        9 => Ok(Some(list_value(alloc, slots, dtype, types, left)?)),
        11 => Ok(Some(union_value(alloc, slots, dtype, types, left)?)),
        12 => Ok(Some(variant_value(alloc, slots, dtype, types, left)?)),
        _ => Err(ScalarWireError::MissingKind),
    }
}

// A list at its type.
#[cycle(reading)]
fn list_value<F: Fn(&pb::DType) -> Result<DType, TypeWireError>>(
    alloc: Global,
    slots: &[Entries],
    dtype: &DType,
    types: &F,
    left: u8,
) -> Result<ScalarValue, ScalarWireError>
    requires call { F.IsAlwaysCallable types.now }
    requires form { HasForm scalar_lists 16 (value_view slots.now) }
    ensures read { (s : ExtMeaning) → ReadsTypes (λ t r. FnReturnsAt F.Fn types.now t r) s
        → GivesValue value_of result s (2 * left + 2) (typ dtype.now) (lone_member 9 (a_message (slots_of (value_view slots.now)))) }
{
    let values = parts_of(alloc, slots, bare_dtype(dtype), types, left)?;
    Ok(ScalarValue::Tuple(values))
}

// The parts of a list at a type that is no extension: its elements, a map's entries,
// or one value for each field of a structure.
#[cycle(reading)]
fn parts_of<F: Fn(&pb::DType) -> Result<DType, TypeWireError>>(
    alloc: Global,
    slots: &[Entries],
    dtype: &DType,
    types: &F,
    left: u8,
) -> Result<Values, ScalarWireError>
    requires call { F.IsAlwaysCallable types.now }
    requires form { HasForm scalar_lists 16 (value_view slots.now) }
    ensures read { (s : ExtMeaning) → ReadsTypes (λ t r. FnReturnsAt F.Fn types.now t r) s
        → GivesParts result s (2 * left + 2) (typ dtype.now) (value_view slots.now) }
{
    match dtype {
        DType::List(element, _) => each_value(alloc, slots, element.get(), types, left),
        DType::FixedSizeList(element, _, _) => each_value(alloc, slots, element.get(), types, left),
        DType::Map(map, _) => {
            let entries = or_memory(map.entries_dtype(alloc))?;
            each_value(alloc, slots, &entries, types, left)
        }
        DType::Struct(fields, _) => field_values(alloc, slots, fields, types, left),
        _ => Err(ScalarWireError::KindMismatch),
    }
}

// The values of a list's message, each at one type.
#[cycle(reading)]
fn each_value<F: Fn(&pb::DType) -> Result<DType, TypeWireError>>(
    alloc: Global,
    slots: &[Entries],
    dtype: &DType,
    types: &F,
    left: u8,
) -> Result<Values, ScalarWireError>
    requires call { F.IsAlwaysCallable types.now }
    requires form { HasForm scalar_lists 16 (value_view slots.now) }
    ensures read { (s : ExtMeaning) → ReadsTypes (λ t r. FnReturnsAt F.Fn types.now t r) s
        → GivesEach result s (2 * left + 2) (typ dtype.now) (value_view slots.now) }
{
    let members = entries_at(slots, 0);
    let mut values = Values::new(alloc);
    for i in 0..members.len() {
        let Some(message) = members[i].1.as_message() else {
            return Err(ScalarWireError::MissingKind);
        };
        values.push(value_in(alloc, message, dtype, types, left)?)?;
    }
    Ok(values)
}

// The values of a list's message, each at the type of its field.
#[cycle(reading)]
fn field_values<F: Fn(&pb::DType) -> Result<DType, TypeWireError>>(
    alloc: Global,
    slots: &[Entries],
    fields: &StructFields,
    types: &F,
    left: u8,
) -> Result<Values, ScalarWireError>
    requires call { F.IsAlwaysCallable types.now }
    requires form { HasForm scalar_lists 16 (value_view slots.now) }
    ensures read { (s : ExtMeaning) → ReadsTypes (λ t r. FnReturnsAt F.Fn types.now t r) s
        → GivesRow result s (2 * left + 2) (roses_of fields.now.types) (value_view slots.now) }
{
    let members = entries_at(slots, 0);
    let dtypes = fields.fields().as_slice();
    if members.len() != dtypes.len() {
        return Err(ScalarWireError::BadChild);
    }
    let mut values = Values::new(alloc);
    for i in 0..members.len() {
        let Some(message) = members[i].1.as_message() else {
            return Err(ScalarWireError::MissingKind);
        };
        values.push(value_in(alloc, message, &dtypes[i], types, left)?)?;
    }
    Ok(values)
}

// A union's value: its tag, and the value of the member that has it.
#[cycle(reading)]
fn union_value<F: Fn(&pb::DType) -> Result<DType, TypeWireError>>(
    alloc: Global,
    slots: &[Entries],
    dtype: &DType,
    types: &F,
    left: u8,
) -> Result<ScalarValue, ScalarWireError>
    requires call { F.IsAlwaysCallable types.now }
    requires form { HasForm scalar_lists 17 (value_view slots.now) }
    ensures read { (s : ExtMeaning) → ReadsTypes (λ t r. FnReturnsAt F.Fn types.now t r) s
        → GivesValue value_of result s (2 * left + 2) (typ dtype.now) (lone_member 11 (a_message (slots_of (value_view slots.now)))) }
{
    let DType::Union(variants, _) = bare_dtype(dtype) else {
        return Err(ScalarWireError::KindMismatch);
    };
    let Some(number) = number_at(slots, 0) else {
        return Err(ScalarWireError::MissingKind);
    };
    if number > 255 {
        return Err(ScalarWireError::OutOfRange);
    }
    let Some(message) = message_at(slots, 1) else {
        return Err(ScalarWireError::MissingKind);
    };
    let tag = number as u8;
    let dtype = member_type(variants, tag)?;
    let value = value_in(alloc, message, dtype, types, left)?;
    match Scalar::validate(dtype, value.as_ref()) {
        Ok(()) => Ok(ScalarValue::Union(tag, ValueRef::new(alloc, value)?)),
        Err(_) => Err(ScalarWireError::BadChild),
    }
}

// The type of the member that has a tag.
fn member_type(variants: &UnionVariants, tag: u8) -> Result<&DType, ScalarWireError>
    ensures found { IfOk result (λ d. member tag variants.now.ids (roses_of variants.now.types) ≡ Some (typ d.now)) }
    ensures none { IfErr result (λ e. (e ≡ ScalarWireError.BadChild) × (member tag variants.now.ids (roses_of variants.now.types) ≡ None)) }
{
    match variants.tag_to_child_index(tag) {
        Some(index) => Ok(&variants.variants().as_slice()[index]),
        None => Err(ScalarWireError::BadChild),
    }
}

// A variant: a scalar of a type of its own.
#[cycle(reading)]
fn variant_value<F: Fn(&pb::DType) -> Result<DType, TypeWireError>>(
    alloc: Global,
    slots: &[Entries],
    dtype: &DType,
    types: &F,
    left: u8,
) -> Result<ScalarValue, ScalarWireError>
    requires call { F.IsAlwaysCallable types.now }
    requires form { HasForm scalar_lists 14 (value_view slots.now) }
    ensures read { (s : ExtMeaning) → ReadsTypes (λ t r. FnReturnsAt F.Fn types.now t r) s
        → GivesValue value_of result s (2 * left + 2) (typ dtype.now) (lone_member 12 (a_message (slots_of (value_view slots.now)))) }
{
    let DType::Variant(_) = bare_dtype(dtype) else {
        return Err(ScalarWireError::KindMismatch);
    };
    let scalar = scalar_in(alloc, slots, types, left)?;
    Ok(ScalarValue::Variant(VariantRef::new(alloc, scalar)?))
}

// The scalar whose message has this plain value, its value of at most `left` levels.
#[cycle(reading)]
fn scalar_in<F: Fn(&pb::DType) -> Result<DType, TypeWireError>>(
    alloc: Global,
    slots: &[Entries],
    types: &F,
    left: u8,
) -> Result<Scalar, ScalarWireError>
    requires call { F.IsAlwaysCallable types.now }
    requires form { HasForm scalar_lists 14 (value_view slots.now) }
    ensures read { (s : ExtMeaning) → ReadsTypes (λ t r. FnReturnsAt F.Fn types.now t r) s
        → GivesScalar result s (2 * left) (value_view slots.now) }
{
    let Some(type_slots) = message_at(slots, 0) else {
        return Err(ScalarWireError::MissingKind);
    };
    let Some(value_slots) = message_at(slots, 1) else {
        return Err(ScalarWireError::MissingKind);
    };
    let dtype = type_in(alloc, type_slots, types)?;
    let value = value_in(alloc, value_slots, &dtype, types, left)?;
    match Scalar::try_new(dtype, value) {
        Ok(scalar) => Ok(scalar),
        Err(_) => Err(ScalarWireError::BadScalar),
    }
}

// The type whose message has this plain value.
fn type_in<F: Fn(&pb::DType) -> Result<DType, TypeWireError>>(
    alloc: Global,
    slots: &[Entries],
    types: &F,
) -> Result<DType, ScalarWireError>
    requires call { F.IsAlwaysCallable types.now }
    requires form { HasForm type_lists 0 (value_view slots.now) }
    ensures read { IfOk result (λ d. FnReturnsAt F.Fn types.now (value_view slots.now) (Ok d)) }
    ensures cause { (s : ExtMeaning) → ReadsTypes (λ t r. FnReturnsAt F.Fn types.now t r) s → IfErr result (λ e. RefusesScalarType e s (value_view slots.now)) }
{
    let message = PlainMessage::new(copied_slots(alloc, slots)?);
    match types(&message) {
        Ok(dtype) => Ok(dtype),
        Err(error) => Err(type_refusal(error)),
    }
}

// The refusal of a scalar whose type is refused with this error.
fn type_refusal(error: TypeWireError) -> ScalarWireError
    ensures { (s : ExtMeaning) (t : Value) → RefusesReadingType error s t → RefusesScalarType result s t }
{
    match error {
        TypeWireError::OutOfMemory => ScalarWireError::OutOfMemory,
        refusal => ScalarWireError::BadDType(refusal),
    }
}
