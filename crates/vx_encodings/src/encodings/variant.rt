//! Nodes of variants: the type of the shredded child as metadata, where there is one; no buffers, and as children the
//! core and that child.

ghost use Rattle.std.specs.Prelude.{◌≡◌, ◌∷◌, [], Some, IfOk, IfErr, IsOkUnless, IsTrue, IsFalse, option_map, refl};
ghost use Rattle.std.proofs.Common.{arith, ap};
ghost use Rattle.vx_trees.specs.Rose.{roses_of};
ghost use Rattle.vx_types.specs.Known.{ExtMeaning};
ghost use Rattle.vx_types.specs.Seen.{typ};
ghost use Rattle.vx_type_wire.specs.Known.{IsRead};
ghost use Rattle.vx_type_wire.specs.Session.{ext_meaning};
ghost use Rattle.vx_type_wire.specs.TypeMessage.{IsMessageOf, type_message};
ghost use Rattle.vx_array_tree.specs.Encodings.Variants.{IsFair, metadata_of};
ghost use Rattle.vx_array_tree.specs.Metadata as M;
ghost use Rattle.vx_array_tree.specs.Place.{exactly};
ghost use Rattle.vx_array_tree.specs.Sound.{IsSound};
ghost use Rattle.vx_array_tree.specs.Tree.{places};
ghost use Rattle.vx_wire_tree.specs.Fields.{FitsMessage, told};
ghost use Rattle.vx_encodings.specs.Messages.{message_bytes};
ghost use Rattle.vx_plans.specs.Plans.{planned_place, RefusesPlaces};
ghost use Rattle.vx_encodings.specs.Steps.{IsPlanned, RefusesPlanning, IsBuilt, RefusesBuilding};
ghost use Rattle.vx_encodings.specs.VariantMessage.{IsShredded, RefusesShredded, RefusesShreddedType, child_places, variant_schema, variant_value, variant_parts};
ghost use Rattle.vx_encodings.specs.declared.encoding.Encoding.TheVariants.{Variant};

use crate::error::{of_constructor, of_message};
use crate::messages::write_message;
use std::alloc::Global;
use vx_arrays::{Array, Arrays, VariantArray};
use vx_buffer::BufferHandles;
use vx_plans::{ArrayHead, ChildPlan, ChildPlans, EncodingError, plan_of, plan_only};
use vx_proto::{
    Element, Entries, Kind, Member, Message, PlainMessage, ProtoError, Schema, Slot, one,
    take_message,
};
use vx_type_wire::slots::{
    DECIMAL, EXTENSION, FIXED_SIZE_LIST, LIST, MAP, NULL, NULLABLE, PRIMITIVE, STRUCT, TYPE, UNION,
};
use vx_type_wire::{DTypeExt, ExtSession, TypeWireError, pb};
use vx_types::{Blob, DType};

/// The metadata of variants.
#[derive(Debug, Drop)]
pub struct VariantMetadata {
    /// The type of the shredded child, where there is one.
    pub shredded_dtype: Option<pb::DType>,
}

const SCHEMA: Schema = Schema {
    messages: &[
        TYPE,
        NULL,
        NULLABLE,
        PRIMITIVE,
        DECIMAL,
        NULLABLE,
        NULLABLE,
        STRUCT,
        LIST,
        EXTENSION,
        FIXED_SIZE_LIST,
        NULLABLE,
        UNION,
        MAP,
        &[Slot::OneOf(&[Member {
            number: 1,
            kind: Kind::Message(0),
        }])],
    ],
};

impl Message for VariantMetadata {
    ghost schema = { variant_schema };

    ghost place = { 14 };

    ghost value = { λ m. variant_value m.shredded_dtype };

    fn lists() -> Schema {
        SCHEMA
    }

    fn schema_place() -> u32 {
        14
    }

    fn default(_alloc: Global) -> VariantMetadata {
        VariantMetadata {
            shredded_dtype: None,
        }
    }

    fn from_value(_alloc: Global, slots: Vec<Entries>) -> Result<VariantMetadata, ProtoError> {
        match take_message(slots, 0) {
            Some(inner) => Ok(VariantMetadata {
                shredded_dtype: Some(PlainMessage::new(inner)),
            }),
            None => Ok(VariantMetadata {
                shredded_dtype: None,
            }),
        }
    }

    fn to_value(&self, alloc: Global) -> Result<Vec<Entries>, ProtoError> {
        match &self.shredded_dtype {
            Some(dtype) => {
                let inner = dtype.to_value(alloc)?;
                let entries = one(alloc, 1, Element::Message(inner))?;
                Ok(vec![in alloc; entries]?)
            }
            None => Ok(vec![in alloc; Vec::new(alloc)]?),
        }
    }

    ghost lawful = { refl };

    ghost placed = { Prim.omega arith };

    ghost determined = { λ m n p q e. ap (λ x. record { shredded_dtype = x.0 }) (variant_parts.same (m.shredded_dtype, tt) (n.shredded_dtype, tt) e) };
}

// The type of the shredded child in metadata, where it has one.
#[tactic(auto, using(crate::proofs::VariantFields::shredded_types))]
fn shredded_type(
    alloc: Global,
    bytes: &[u8],
    readers: &ExtSession,
) -> Result<Option<DType>, EncodingError>
    ensures ok { let x = ext_meaning (λ b. accepted (b.vtable, b.value)) readers.now in
        IfOk result (λ d. IsShredded x bytes.now (option_map typ d)) }
    ensures err { let x = ext_meaning (λ b. accepted (b.vtable, b.value)) readers.now in
        IfErr result (λ e. RefusesShredded e x bytes.now) }
{
    let metadata = match VariantMetadata::decode(alloc, bytes) {
        Ok(metadata) => metadata,
        Err(e) => return Err(of_message(e)),
    };
    match metadata.shredded_dtype {
        None => Ok(None),
        Some(message) => {
            let dtype = known_type(alloc, &message, readers)?;
            Ok(Some(dtype))
        }
    }
}

// The type that a message shows, if the readers know it.
fn known_type(
    alloc: Global,
    message: &pb::DType,
    readers: &ExtSession,
) -> Result<DType, EncodingError>
    ensures ok { let x = ext_meaning (λ b. accepted (b.vtable, b.value)) readers.now in
        IfOk result (λ d. IsRead (IsMessageOf message.now) x (typ d)) }
    ensures err { let x = ext_meaning (λ b. accepted (b.vtable, b.value)) readers.now in
        IfErr result (λ e. RefusesShreddedType e x message.now) }
{
    match DType::from_proto(alloc, message, readers) {
        Ok(dtype) => Ok(dtype),
        Err(TypeWireError::OutOfMemory) => Err(EncodingError::OutOfMemory),
        Err(_) => Err(EncodingError::BadMetadata),
    }
}

// The plan of a variant node's children: the core, and after it the shredded child, where the metadata has its type.
#[tactic(auto, using(crate::proofs::VariantSteps::variant_steps))]
pub(crate) fn plan(
    alloc: Global,
    head: &ArrayHead,
    readers: &ExtSession,
) -> Result<ChildPlans, EncodingError>
    ensures plan { let x = ext_meaning (λ b. accepted (b.vtable, b.value)) readers.now in
        IfOk result (λ plans. IsPlanned x Variant head.now plans) }
    ensures err { let x = ext_meaning (λ b. accepted (b.vtable, b.value)) readers.now in
        IfErr result (λ e. RefusesPlanning e x Variant head.now) }
{
    let shredded = shredded_type(alloc, head.metadata.as_slice(), readers)?;
    match head.dtype {
        DType::Variant(_) => {}
        _ => return Err(EncodingError::BadShape),
    }
    plan_children(alloc, &head.dtype, shredded, head.len, head.nchildren)
}

// The plan of the core and of the shredded child, where there is one, each of `len` rows. `BadShape` for another number
// of children.
fn plan_children(
    alloc: Global,
    core: &DType,
    shredded: Option<DType>,
    len: usize,
    count: usize,
) -> Result<ChildPlans, EncodingError>
    ensures plan { IfOk result (λ plans. exactly (child_places (typ core.now) (option_map typ shredded) len) count ≡ Some plans) }
    ensures err { IfErr result (λ e. RefusesPlaces e (exactly (child_places (typ core.now) (option_map typ shredded) len) count)) }
{
    let first = plan_of(alloc, core, len)?;
    match shredded {
        None => plan_only(alloc, first, count),
        Some(dtype) => plan_both(alloc, first, ChildPlan { dtype, len }, count),
    }
}

// The plan of two children, for a node of exactly two.
#[tactic(auto, using(crate::proofs::DictSteps::pair_steps))]
fn plan_both(
    alloc: Global,
    first: ChildPlan,
    second: ChildPlan,
    count: usize,
) -> Result<ChildPlans, EncodingError>
    ensures plan { IfOk result (λ plans. exactly (planned_place first ∷ planned_place second ∷ []) count ≡ Some plans) }
    ensures err { IfErr result (λ e. RefusesPlaces e (exactly (planned_place first ∷ planned_place second ∷ []) count)) }
{
    if count != 2 {
        return Err(EncodingError::BadShape);
    }
    let mut plans = ChildPlans::new(alloc);
    plans.push(first)?;
    plans.push(second)?;
    Ok(plans)
}

// The node of variants of these parts.
#[tactic(auto, using(crate::proofs::VariantSteps::variant_steps))]
pub(crate) fn build(
    head: ArrayHead,
    buffers: BufferHandles,
    children: Arrays,
) -> Result<Array, EncodingError>
    requires { (x : ExtMeaning) × IsPlanned x Variant head (places children) }
    ensures parts { (x : ExtMeaning) → IsPlanned x Variant head (places children) → IfOk result (λ t. IsBuilt x Variant head buffers children t) }
    ensures sound { IfOk result IsSound }
    ensures err { (x : ExtMeaning) → IsPlanned x Variant head (places children) → IfErr result (λ e. RefusesBuilding e x Variant head buffers children) }
{
    if !buffers.is_empty() {
        return Err(EncodingError::BadShape);
    }
    match VariantArray::of_children(head.dtype, head.len, children) {
        Ok(array) => Ok(array),
        Err(e) => Err(of_constructor(e)),
    }
}

// The type of a node's second child, where there is one.
#[tactic(auto, using(crate::proofs::VariantFields::lone_untold))]
fn shredded_of(children: &[Array]) -> Option<&DType>
    ensures { option_map (λ d. typ d.now) result ≡ metadata_of (places (roses_of children.now)) }
{
    match children {
        [_, shredded, ..] => Some(shredded.dtype()),
        _ => None,
    }
}

// The message of the shredded child's type, where there is one.
fn shredded_message(alloc: Global, children: &[Array]) -> Result<Option<pb::DType>, EncodingError>
    requires { FitsMessage (M.variant (metadata_of (places (roses_of children.now)))) }
    ensures ok { IfOk result (λ m. m ≡ option_map type_message (metadata_of (places (roses_of children.now)))) }
    ensures is_type { IfOk result (λ m. IsFair (metadata_of (places (roses_of children.now)))) }
    ensures err { IsOkUnless result EncodingError.OutOfMemory }
{
    match shredded_of(children) {
        None => Ok(None),
        Some(dtype) => match dtype.to_proto(alloc) {
            Ok(message) => Ok(Some(message)),
            Err(TypeWireError::OutOfMemory) => Err(EncodingError::OutOfMemory),
            Err(_) => unreachable!(),
        },
    }
}

// The metadata of a node of variants over these children, as it is written.
#[tactic(auto, using(crate::proofs::VariantFields::variant_written))]
pub(crate) fn metadata(alloc: Global, children: &[Array]) -> Result<Blob, EncodingError>
    requires { FitsMessage (M.variant (metadata_of (places (roses_of children.now)))) }
    ensures ok { IfOk result (λ bytes. bytes ≡ message_bytes (told (M.variant (metadata_of (places (roses_of children.now)))))) }
    ensures err { IsOkUnless result EncodingError.OutOfMemory }
{
    let shredded_dtype = shredded_message(alloc, children)?;
    write_message(alloc, VariantMetadata { shredded_dtype })
}

// Whether the type of the shredded child fits the message, in which a type has at most 49 levels.
pub(crate) fn has_message(children: &[Array]) -> bool
    ensures fits { IsTrue result → FitsMessage (M.variant (metadata_of (places (roses_of children.now)))) }
    ensures over { IsFalse result → FitsMessage (M.variant (metadata_of (places (roses_of children.now)))) → ⊥ }
{
    match shredded_of(children) {
        None => true,
        Some(dtype) => dtype.is_within(49),
    }
}
