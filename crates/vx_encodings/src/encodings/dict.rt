//! Nodes of dictionaries: the number of values, the kind of the codes and two flags as metadata, no buffers, and as
//! children the codes and the values.

ghost use Rattle.std.specs.Prelude.{◌≡◌, ◌∷◌, [], ◌≤◌, ◌-◌, ◌^◌, Some, IfOk, IfErr, IsOkUnless, IsTrue, IsFalse, option_map, refl};
ghost use Rattle.std.proofs.Common.{arith, ap};
ghost use Rattle.vx_trees.specs.Rose.{roses_of};
ghost use Rattle.vx_types.specs.Known.{ExtMeaning};
ghost use Rattle.vx_types.specs.Seen.{typ};
ghost use Rattle.vx_types.specs.Words.{nullability};
ghost use Rattle.vx_proto.specs.Parts.{entries_in, number_in};
ghost use Rattle.vx_proto.specs.Value.{entries_view, value_view};
ghost use Rattle.vx_proto.proofs.LawsOfParts.{slot_with};
ghost use Rattle.vx_array_tree.specs.Encodings.Dicts.{metadata_of};
ghost use Rattle.vx_array_tree.specs.Metadata as M;
ghost use Rattle.vx_array_tree.specs.Place.{exactly, first_place, place, ptype_of, second_place};
ghost use Rattle.vx_array_tree.specs.Sound.{IsSound};
ghost use Rattle.vx_array_tree.specs.Tree.{places};
ghost use Rattle.vx_wire_tree.specs.Fields.{codes_nullability, told};
ghost use Rattle.vx_encodings.specs.DictMessage.{dict_schema, dict_value, flag_content, flag_of, same_dict};
ghost use Rattle.vx_encodings.specs.Messages.{message_bytes};
ghost use Rattle.vx_encodings.specs.Steps.{IsPlanned, RefusesPlanning, IsBuilt, RefusesBuilding};
ghost use Rattle.vx_plans.specs.Plans.{RefusesPlaces};
ghost use Rattle.vx_encodings.specs.declared.encoding.Encoding.TheVariants.{Dict};

use crate::error::of_constructor;
use crate::messages::{read_message, write_message};
use std::alloc::Global;
use vx_arrays::{Array, Arrays, DictArray, DictData};
use vx_buffer::BufferHandles;
use vx_plans::{ArrayHead, ChildPlan, ChildPlans, EncodingError, plan_of};
use vx_proto::{
    Element, Entries, Message, ProtoError, ScalarKind, Schema, Slot, flag, number_at, one, u8_at,
    u32_at,
};
use vx_types::{Blob, DType, Nullability, PType};

/// The metadata of dictionaries.
#[derive(Debug, Drop)]
pub struct DictMetadata {
    /// The number of values.
    pub values_len: u32,
    /// The kind of the codes.
    pub codes_ptype: PType,
    /// Whether codes may be null. Where it is absent, they may exactly where rows of the type may.
    pub is_nullable_codes: Option<bool>,
    /// Whether each value has a code. Where it is absent, nothing is promised.
    pub all_values_referenced: Option<bool>,
}

const SCHEMA: Schema = Schema {
    messages: &[&[
        Slot::Plain(1, ScalarKind::Uint32),
        Slot::Plain(2, ScalarKind::Enum(11)),
        Slot::Optional(3, ScalarKind::Flag),
        Slot::Optional(4, ScalarKind::Flag),
    ]],
};

impl Message for DictMetadata {
    ghost schema = { dict_schema };

    ghost place = { 0 };

    ghost value = { λ m. dict_value (record { values_len = m.values_len; codes_ptype = m.codes_ptype; is_nullable_codes = m.is_nullable_codes; all_values_referenced = m.all_values_referenced }) };

    fn lists() -> Schema {
        SCHEMA
    }

    fn schema_place() -> u32 {
        0
    }

    fn default(_alloc: Global) -> DictMetadata {
        DictMetadata {
            values_len: 0,
            codes_ptype: PType::U8,
            is_nullable_codes: None,
            all_values_referenced: None,
        }
    }

    fn from_value(_alloc: Global, slots: Vec<Entries>) -> Result<DictMetadata, ProtoError> {
        let values_len = u32_at(&slots, 0);
        let is_nullable_codes = option_at(&slots, 2);
        let all_values_referenced = option_at(&slots, 3);
        match PType::from_code(u8_at(&slots, 1)) {
            Some(codes_ptype) => Ok(DictMetadata {
                values_len,
                codes_ptype,
                is_nullable_codes,
                all_values_referenced,
            }),
            None => unreachable!(),
        }
    }

    fn to_value(&self, alloc: Global) -> Result<Vec<Entries>, ProtoError> {
        let count = one(alloc, 1, Element::Number(self.values_len as u64))?;
        let kind = one(alloc, 2, Element::Number(self.codes_ptype.code() as u64))?;
        let nullable = option_slot(alloc, 3, self.is_nullable_codes)?;
        let referenced = option_slot(alloc, 4, self.all_values_referenced)?;
        Ok(vec![in alloc; count, kind, nullable, referenced]?)
    }

    ghost lawful = { refl };

    ghost placed = { Prim.omega arith };

    ghost determined = { λ m n p q e. ap (λ f. record { values_len = f.values_len; codes_ptype = f.codes_ptype; is_nullable_codes = f.is_nullable_codes; all_values_referenced = f.all_values_referenced }) (same_dict (record { values_len = m.values_len; codes_ptype = m.codes_ptype; is_nullable_codes = m.is_nullable_codes; all_values_referenced = m.all_values_referenced }) (record { values_len = n.values_len; codes_ptype = n.codes_ptype; is_nullable_codes = n.is_nullable_codes; all_values_referenced = n.all_values_referenced }) e) };
}

// The flag that a slot holds, if it has one.
fn option_at(slots: &[Entries], slot: usize) -> Option<bool>
    ensures { result ≡ option_map flag_of (number_in (entries_in (value_view slots.now) slot)) }
{
    match number_at(slots, slot) {
        Some(number) => Some(number > 0),
        None => None,
    }
}

// The slot of a flag, or an empty slot.
fn option_slot(alloc: Global, number: u32, told: Option<bool>) -> Result<Entries, ProtoError>
    ensures same { IfOk result (λ entries. entries_view entries.items ≡ slot_with flag_content number told) }
    ensures err { IsOkUnless result ProtoError.OutOfMemory }
{
    match told {
        Some(value) => one(alloc, number, flag(value)),
        None => Ok(Vec::new(alloc)),
    }
}

// Whether codes may be null: as the flag says, or else as rows of the type may.
fn nullability_of(dtype: &DType, told: Option<bool>) -> Nullability
    ensures { result ≡ codes_nullability (typ dtype.now) told }
{
    match told {
        Some(true) => Nullability::Nullable,
        Some(false) => Nullability::NonNullable,
        None => dtype.nullability(),
    }
}

// The plan of a dictionary's children: codes and values.
#[tactic(auto, using(crate::proofs::DictSteps::dict_steps))]
pub(crate) fn plan(alloc: Global, head: &ArrayHead) -> Result<ChildPlans, EncodingError>
    ensures plan { (x : ExtMeaning) → IfOk result (λ plans. IsPlanned x Dict head.now plans) }
    ensures err { (x : ExtMeaning) → IfErr result (λ e. RefusesPlanning e x Dict head.now) }
{
    let metadata: DictMetadata = read_message(alloc, head.metadata.as_slice())?;
    if !metadata.codes_ptype.is_int() {
        return Err(EncodingError::BadMetadata);
    }
    let nullability = nullability_of(&head.dtype, metadata.is_nullable_codes);
    let codes = DType::Primitive(metadata.codes_ptype, nullability);
    plan_pair(
        alloc,
        codes,
        &head.dtype,
        head.len,
        metadata.values_len as usize,
        head.nchildren,
    )
}

// The plan of codes and values, for a node of exactly two children. The values have the dictionary's own type.
#[tactic(auto, using(crate::proofs::DictSteps::pair_steps))]
fn plan_pair(
    alloc: Global,
    codes: DType,
    values: &DType,
    len: usize,
    values_len: usize,
    count: usize,
) -> Result<ChildPlans, EncodingError>
    ensures plan { IfOk result (λ plans. exactly (place (typ codes) len ∷ place (typ values.now) values_len ∷ []) count ≡ Some plans) }
    ensures err { IfErr result (λ e. RefusesPlaces e (exactly (place (typ codes) len ∷ place (typ values.now) values_len ∷ []) count)) }
{
    if count != 2 {
        return Err(EncodingError::BadShape);
    }
    let values = plan_of(alloc, values, values_len)?;
    let mut plans = ChildPlans::new(alloc);
    plans.push(ChildPlan { dtype: codes, len })?;
    plans.push(values)?;
    Ok(plans)
}

// The dictionary of these parts.
#[tactic(auto, using(crate::proofs::DictSteps::dict_steps))]
pub(crate) fn build(
    alloc: Global,
    head: ArrayHead,
    buffers: BufferHandles,
    children: Arrays,
) -> Result<Array, EncodingError>
    requires { (x : ExtMeaning) × IsPlanned x Dict head (places children) }
    ensures parts { (x : ExtMeaning) → IfOk result (λ t. IsBuilt x Dict head buffers children t) }
    ensures sound { IfOk result IsSound }
    ensures err { (x : ExtMeaning) → IfErr result (λ e. RefusesBuilding e x Dict head buffers children) }
{
    let metadata: DictMetadata = read_message(alloc, head.metadata.as_slice())?;
    if !buffers.is_empty() {
        return Err(EncodingError::BadShape);
    }
    // Absent, the flag promises nothing.
    let flag = metadata.all_values_referenced.unwrap_or(false);
    match DictArray::of_children(alloc, head.dtype, head.len, children, flag) {
        Ok(array) => Ok(array),
        Err(e) => Err(of_constructor(e)),
    }
}

// The metadata of a dictionary over these children, as it is written. Children that no node has give some metadata, so
// the call needs no condition on them.
#[tactic(auto, using(crate::proofs::DictWritten::dict_written))]
pub(crate) fn metadata(
    alloc: Global,
    dictionary: &DictData,
    children: &[Array],
) -> Result<Blob, EncodingError>
    requires { (second_place (places (roses_of children.now))).len ≤ 2 ^ 32 - 1 }
    ensures ok { IfOk result (λ bytes. bytes ≡ message_bytes (told (M.dict (metadata_of dictionary.now (places (roses_of children.now)))))) }
    ensures err { IsOkUnless result EncodingError.OutOfMemory }
{
    let values_len = count_of(children);
    let (codes_ptype, nullability) = kind_of(children);
    write_message(
        alloc,
        DictMetadata {
            values_len: values_len as u32,
            codes_ptype,
            is_nullable_codes: Some(nullability == Nullability::Nullable),
            all_values_referenced: Some(dictionary.all_values_referenced()),
        },
    )
}

// Whether the number of values fits the message, which counts them in 32 bits.
pub(crate) fn has_message(children: &[Array]) -> bool
    ensures fits { IsTrue result → (second_place (places (roses_of children.now))).len ≤ 2 ^ 32 - 1 }
    ensures over { IsFalse result → (second_place (places (roses_of children.now))).len ≤ 2 ^ 32 - 1 → ⊥ }
{
    count_of(children) <= u32::MAX as usize
}

// The number of values.
fn count_of(children: &[Array]) -> usize
    ensures { result ≡ (second_place (places (roses_of children.now))).len }
{
    match children {
        [] => 0,
        [_] => 0,
        [_, values, ..] => values.len(),
    }
}

// The kind of the codes, and whether they may be null.
fn kind_of(children: &[Array]) -> (PType, Nullability)
    ensures kind { result.0 ≡ ptype_of (first_place (places (roses_of children.now))).dtype }
    ensures null { result.1 ≡ nullability (first_place (places (roses_of children.now))).dtype }
{
    match children {
        [codes, ..] => match codes.dtype() {
            DType::Primitive(kind, nullability) => (*kind, *nullability),
            dtype => (PType::U8, dtype.nullability()),
        },
        [] => (PType::U8, Nullability::NonNullable),
    }
}
