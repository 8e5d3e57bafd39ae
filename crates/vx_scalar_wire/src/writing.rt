//! Plain values of scalars.

ghost use Rattle.std.specs.Prelude.{◌≡◌, ◌≤◌, ◌<◌, ◌^◌, IfOk, OnOk, IsOkUnless, option_copied};
ghost use Rattle.vx_trees.specs.Rose.{roses_of};
ghost use Rattle.vx_trees.specs.Walks.{levels};
ghost use Rattle.vx_proto.specs.Value.{value_view, entries_view};
ghost use Rattle.vx_proto.specs.Value.{one_number, one_octets, one_message};
ghost use Rattle.vx_type_wire.specs.TypeMessage.{type_message, most_levels};
ghost use Rattle.vx_trees.specs.Bytes.{AreBytes};
ghost use Rattle.vx_types.specs.Seen.{typ};
ghost use Rattle.vx_types.specs.Typ.{IsType};
ghost use Rattle.vx_types.specs.Well.{IsInRange, IsDecimalInRange, IsWell, AreWell};
ghost use Rattle.vx_scalars.specs.Decimals.{decimal_of};
ghost use Rattle.vx_scalars.specs.Seen.{seen, all_seen};
ghost use Rattle.vx_scalar_wire.specs.ScalarMessage as message;
ghost use Rattle.vx_scalar_wire.specs.Shallow.{IsShallow, AreShallow, IsShallowScalar};
ghost use Rattle.vx_scalar_wire.specs.Typed.{IsTyped};
ghost use Rattle.vx_scalar_wire.specs.Writing.{Writes};

use crate::error::ScalarWireError;
use std::alloc::Global;
use vx_proto::{Element, Entries, Message, ProtoError, copied, flag, one, zigzag};
use vx_scalars::{DecimalValue, Scalar, ScalarValue};
use vx_type_wire::{DTypeExt, TypeWireError};
use vx_types::{DType, PValue};

// The slot of a number.
fn number_slot(alloc: Global, number: u32, value: u64) -> Result<Entries, ProtoError>
    ensures same { IfOk result (λ es. entries_view es.items ≡ one_number number value) }
    ensures err { IsOkUnless result ProtoError.OutOfMemory }
{
    one(alloc, number, Element::Number(value))
}

// The slot of a text or of bytes.
fn octets_slot(alloc: Global, number: u32, bytes: &[u8]) -> Result<Entries, ProtoError>
    ensures same { IfOk result (λ es. entries_view es.items ≡ one_octets number bytes.now) }
    ensures bytes { AreBytes bytes.now }
    ensures err { IsOkUnless result ProtoError.OutOfMemory }
{
    let element = copied(alloc, bytes)?;
    one(alloc, number, element)
}

// The member of a number.
fn numeral_slot(alloc: Global, numeral: PValue) -> Result<Entries, ProtoError>
    ensures same { IfOk result (λ es. entries_view es.items ≡ message.number_member numeral) }
    ensures range { OnOk result (IsInRange numeral) }
    ensures err { IsOkUnless result ProtoError.OutOfMemory }
{
    match numeral {
        PValue::U8(n) => number_slot(alloc, 4, n as u64),
        PValue::U16(n) => number_slot(alloc, 4, n as u64),
        PValue::U32(n) => number_slot(alloc, 4, n as u64),
        PValue::U64(n) => number_slot(alloc, 4, n),
        PValue::I8(n) => number_slot(alloc, 3, zigzag(n as i64)),
        PValue::I16(n) => number_slot(alloc, 3, zigzag(n as i64)),
        PValue::I32(n) => number_slot(alloc, 3, zigzag(n as i64)),
        PValue::I64(n) => number_slot(alloc, 3, zigzag(n)),
        PValue::F16(bits) => number_slot(alloc, 10, bits as u64),
        PValue::F32(bits) => number_slot(alloc, 5, bits as u64),
        PValue::F64(bits) => number_slot(alloc, 6, bits),
    }
}

// The member of a decimal.
fn decimal_slot(alloc: Global, decimal: &DecimalValue) -> Result<Entries, ProtoError>
    ensures same { IfOk result (λ es. entries_view es.items ≡ one_octets 8 (message.decimal_bytes (decimal_of decimal.now))) }
    ensures range { OnOk result (IsDecimalInRange (decimal_of decimal.now)) }
    ensures err { IsOkUnless result ProtoError.OutOfMemory }
{
    match decimal {
        DecimalValue::I8(n) => octets_slot(alloc, 8, &n.to_le_bytes()),
        DecimalValue::I16(n) => octets_slot(alloc, 8, &n.to_le_bytes()),
        DecimalValue::I32(n) => octets_slot(alloc, 8, &n.to_le_bytes()),
        DecimalValue::I64(n) => octets_slot(alloc, 8, &n.to_le_bytes()),
        DecimalValue::I128(n) => octets_slot(alloc, 8, &n.to_le_bytes()),
        DecimalValue::I256(bytes) => octets_slot(alloc, 8, bytes),
    }
}

// The plain value of a type's message.
fn type_slots(alloc: Global, dtype: &DType) -> Result<Vec<Entries>, ScalarWireError>
    ensures writes { Writes (λ v. value_view v.items) result (levels (typ dtype.now) ≤ most_levels) (type_message (typ dtype.now)) }
    ensures is_type { IsType (typ dtype.now) }
{
    match dtype.to_proto(alloc) {
        Ok(message) => Ok(message.to_value(alloc)?),
        Err(TypeWireError::WireLimit) => Err(ScalarWireError::BadDType(TypeWireError::WireLimit)),
        Err(_) => Err(ScalarWireError::OutOfMemory),
    }
}

/// The plain value of a value's message.
#[cycle(writing)]
pub fn value_slots(
    alloc: Global,
    value: Option<&ScalarValue>,
) -> Result<Vec<Entries>, ScalarWireError>
    ensures writes { Writes (λ v. value_view v.items) result (IsShallow (seen (option_copied value.entry))) (message.value_message (seen (option_copied value.entry))) }
    ensures well { OnOk result (IsWell (seen (option_copied value.entry))) }
{
    let member = member_slot(alloc, value)?;
    Ok(vec![in alloc; member]?)
}

// The member of a value in the oneof.
#[cycle(writing)]
fn member_slot(alloc: Global, value: Option<&ScalarValue>) -> Result<Entries, ScalarWireError>
    ensures writes { Writes (λ es. entries_view es.items) result (IsShallow (seen (option_copied value.entry))) (message.member_below (seen (option_copied value.entry))) }
    ensures well { OnOk result (IsWell (seen (option_copied value.entry))) }
{
    let Some(value) = value else {
        return Ok(number_slot(alloc, 1, 0)?);
    };
    match value {
        ScalarValue::Bool(truth) => Ok(one(alloc, 2, flag(*truth))?),
        ScalarValue::Primitive(number) => Ok(numeral_slot(alloc, *number)?),
        ScalarValue::Decimal(decimal) => Ok(decimal_slot(alloc, decimal)?),
        ScalarValue::Utf8(text) => Ok(octets_slot(alloc, 7, text.as_str().as_bytes())?),
        ScalarValue::Binary(bytes) => Ok(octets_slot(alloc, 8, bytes.as_slice())?),
        ScalarValue::Tuple(values) => {
            let slots = list_slots(alloc, values.as_slice())?;
            Ok(message_slot(alloc, 9, slots)?)
        }
        ScalarValue::Union(tag, value) => {
            let slots = union_slots(alloc, *tag, value.get())?;
            Ok(message_slot(alloc, 11, slots)?)
        }
        ScalarValue::Variant(scalar) => {
            let slots = scalar_slots(alloc, scalar.get())?;
            Ok(message_slot(alloc, 12, slots)?)
        }
    }
}

// The slot of a message.
fn message_slot(alloc: Global, number: u32, slots: Vec<Entries>) -> Result<Entries, ProtoError>
    ensures same { IfOk result (λ es. entries_view es.items ≡ one_message number (value_view slots.items)) }
    ensures err { IsOkUnless result ProtoError.OutOfMemory }
{
    one(alloc, number, Element::Message(slots))
}

// The plain value of a list's message.
#[cycle(writing)]
fn list_slots(
    alloc: Global,
    values: &[Option<ScalarValue>],
) -> Result<Vec<Entries>, ScalarWireError>
    ensures writes { Writes (λ v. value_view v.items) result (AreShallow (roses_of (all_seen values.now))) (message.list_message (roses_of (all_seen values.now))) }
    ensures well { OnOk result (AreWell (roses_of (all_seen values.now))) }
{
    let mut entries = Vec::new(alloc);
    for value in values {
        let slots = match value_slots(alloc, value.as_ref()) {
            Ok(slots) => slots,
            Err(error) => return Err(error),
        };
        entries.push((1, Element::Message(slots)))?;
    }
    Ok(vec![in alloc; entries]?)
}

// The plain value of the message of a union's value.
#[cycle(writing)]
fn union_slots(
    alloc: Global,
    tag: u8,
    value: Option<&ScalarValue>,
) -> Result<Vec<Entries>, ScalarWireError>
    ensures writes { Writes (λ v. value_view v.items) result (IsShallow (seen (option_copied value.entry))) (message.union_message tag (seen (option_copied value.entry))) }
    ensures well { OnOk result ((tag < 2 ^ 8) × IsWell (seen (option_copied value.entry))) }
{
    let tag = number_slot(alloc, 1, tag as u64)?;
    let slots = value_slots(alloc, value)?;
    let value = message_slot(alloc, 2, slots)?;
    Ok(vec![in alloc; tag, value]?)
}

/// The plain value of a scalar's message.
#[cycle(writing)]
pub fn scalar_slots(alloc: Global, scalar: &Scalar) -> Result<Vec<Entries>, ScalarWireError>
    ensures writes { Writes (λ v. value_view v.items) result (IsShallowScalar scalar.now) (message.scalar_message scalar.now) }
    ensures well { OnOk result (IsTyped scalar.now) }
{
    let slots = type_slots(alloc, scalar.dtype())?;
    let dtype = message_slot(alloc, 1, slots)?;
    let slots = value_slots(alloc, scalar.value())?;
    let value = message_slot(alloc, 2, slots)?;
    Ok(vec![in alloc; dtype, value]?)
}
