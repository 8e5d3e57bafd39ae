//! Nodes of lists: the number of elements and the kind of the offsets as metadata, no buffers, and as children the
//! elements, the offsets and an optional validity.

ghost use Rattle.std.specs.Prelude.{suc, ◌≡◌, ◌∷◌, [], ◌<◌, ◌^◌, Some, IfOk, IfErr, IsOkUnless, IsTrue, IsFalse, refl};
ghost use Rattle.std.proofs.Common.{arith};
ghost use Rattle.vx_trees.specs.Rose.{roses_of};
ghost use Rattle.vx_types.specs.Known.{ExtMeaning};
ghost use Rattle.vx_types.specs.Seen.{typ};
ghost use Rattle.vx_array_tree.specs.Encodings.Lists.{metadata_of};
ghost use Rattle.vx_array_tree.specs.Place.{before_validity, first_place, is_len, numbers, place, when};
ghost use Rattle.vx_array_tree.specs.Sound.{IsSound};
ghost use Rattle.vx_array_tree.specs.Tree.{places};
ghost use Rattle.vx_encodings.specs.ListMessage.{list_schema, list_value, list_bytes, same_count, same_kinds};
ghost use Rattle.vx_encodings.specs.Steps.{IsPlanned, RefusesPlanning, IsBuilt, RefusesBuilding};
ghost use Rattle.vx_plans.specs.Plans.{RefusesPlaces};
ghost use Rattle.vx_encodings.specs.declared.encoding.Encoding.TheVariants.{List};

use crate::error::of_constructor;
use crate::messages::{kind_at, read_message, write_message};
use std::alloc::Global;
use vx_arrays::{Array, Arrays, ListArray};
use vx_buffer::BufferHandles;
use vx_plans::{ArrayHead, ChildPlan, ChildPlans, EncodingError, plan_after_all, plan_of};
use vx_proto::{Element, Entries, Message, ProtoError, ScalarKind, Schema, Slot, one, u64_at};
use vx_types::{Blob, DType, Nullability, PType};

/// The metadata of lists.
#[derive(Debug, Drop)]
pub struct ListMetadata {
    /// The number of elements.
    pub elements_len: u64,
    /// The kind of the offsets.
    pub offset_ptype: PType,
}

const SCHEMA: Schema = Schema {
    messages: &[&[
        Slot::Plain(1, ScalarKind::Uint64),
        Slot::Plain(2, ScalarKind::Enum(11)),
    ]],
};

impl Message for ListMetadata {
    ghost schema = { list_schema };

    ghost place = { 0 };

    ghost value = { λ m. list_value m.elements_len m.offset_ptype };

    fn lists() -> Schema {
        SCHEMA
    }

    fn schema_place() -> u32 {
        0
    }

    fn default(_alloc: Global) -> ListMetadata {
        ListMetadata {
            elements_len: 0,
            offset_ptype: PType::U8,
        }
    }

    fn from_value(_alloc: Global, slots: Vec<Entries>) -> Result<ListMetadata, ProtoError> {
        let elements_len = u64_at(&slots, 0);
        let offset_ptype = kind_at(&slots, 1);
        Ok(ListMetadata {
            elements_len,
            offset_ptype,
        })
    }

    fn to_value(&self, alloc: Global) -> Result<Vec<Entries>, ProtoError> {
        let elements_len = self.elements_len;
        let code = self.offset_ptype.code();
        let count = one(alloc, 1, Element::Number(elements_len))?;
        let kind = one(alloc, 2, Element::Number(code as u64))?;
        Ok(vec![in alloc; count, kind]?)
    }

    ghost lawful = { refl };

    ghost placed = { Prim.omega arith };

    ghost determined = { λ m n p q e. λ i. record { elements_len = same_count m.elements_len n.elements_len m.offset_ptype n.offset_ptype e i; offset_ptype = same_kinds m.elements_len n.elements_len m.offset_ptype n.offset_ptype e i } };
}

// The plan of a list node's children: elements, one offset more than rows, and at most a validity.
#[tactic(auto, using(crate::proofs::ListSteps::list_steps))]
pub(crate) fn plan(alloc: Global, head: &ArrayHead) -> Result<ChildPlans, EncodingError>
    ensures plan { (x : ExtMeaning) → IfOk result (λ plans. IsPlanned x List head.now plans) }
    ensures err { (x : ExtMeaning) → IfErr result (λ e. RefusesPlanning e x List head.now) }
{
    let metadata: ListMetadata = read_message(alloc, head.metadata.as_slice())?;
    if !metadata.offset_ptype.is_int() {
        return Err(EncodingError::BadMetadata);
    }
    match &head.dtype {
        DType::List(element, _) => {
            plan_parts(alloc, element.get(), metadata, head.len, head.nchildren)
        }
        _ => Err(EncodingError::BadShape),
    }
}

// The plan of the elements, the offsets of `len` rows, and a validity after them where `count` asks for one.
fn plan_parts(
    alloc: Global,
    element: &DType,
    metadata: ListMetadata,
    len: usize,
    count: usize,
) -> Result<ChildPlans, EncodingError>
    ensures plan { IfOk result (λ plans. when (is_len (suc len)) (before_validity (place (typ element.now) metadata.elements_len ∷ place (numbers metadata.offset_ptype) (suc len) ∷ []) len count) ≡ Some plans) }
    ensures err { IfErr result (λ e. RefusesPlaces e (when (is_len (suc len)) (before_validity (place (typ element.now) metadata.elements_len ∷ place (numbers metadata.offset_ptype) (suc len) ∷ []) len count))) }
{
    let Some(offsets) = len.checked_add(1) else {
        return Err(EncodingError::BadShape);
    };
    let mut front = ChildPlans::new(alloc);
    front.push(plan_of(alloc, element, metadata.elements_len as usize)?)?;
    front.push(ChildPlan {
        dtype: DType::Primitive(metadata.offset_ptype, Nullability::NonNullable),
        len: offsets,
    })?;
    plan_after_all(front, len, count)
}

// The node of lists of these parts.
#[tactic(auto, using(crate::proofs::ListSteps::list_steps))]
pub(crate) fn build(
    head: ArrayHead,
    buffers: BufferHandles,
    children: Arrays,
) -> Result<Array, EncodingError>
    requires { (x : ExtMeaning) × IsPlanned x List head (places children) }
    ensures parts { (x : ExtMeaning) → IfOk result (λ t. IsBuilt x List head buffers children t) }
    ensures sound { IfOk result IsSound }
    ensures err { (x : ExtMeaning) → IfErr result (λ e. RefusesBuilding e x List head buffers children) }
{
    if !buffers.is_empty() {
        return Err(EncodingError::BadShape);
    }
    match ListArray::of_children(head.dtype, head.len, children) {
        Ok(array) => Ok(array),
        Err(e) => Err(of_constructor(e)),
    }
}

// The metadata of a node over these children, as it is written. Children that no node has give some metadata, so the
// call needs no condition on them.
pub(crate) fn metadata(alloc: Global, children: &[Array]) -> Result<Blob, EncodingError>
    ensures ok { let v = metadata_of (places (roses_of children.now)) in IfOk result (λ bytes. bytes ≡ list_bytes v.elements_len v.offset_ptype) }
    ensures err { IsOkUnless result EncodingError.OutOfMemory }
{
    let elements_len = count_of(children);
    let offset_ptype = kind_of(children);
    write_message(
        alloc,
        ListMetadata {
            elements_len,
            offset_ptype,
        },
    )
}

// Whether the number of elements fits the message: always, since arrays are counted in 64 bits.
pub(crate) fn has_message(children: &[Array]) -> bool
    ensures fits { IsTrue result → (first_place (places (roses_of children.now))).len < 2 ^ 64 }
    ensures over { IsFalse result → (first_place (places (roses_of children.now))).len < 2 ^ 64 → ⊥ }
{
    let _count = count_of(children);
    true
}

// The number of elements.
pub(crate) fn count_of(children: &[Array]) -> u64
    ensures { result ≡ (metadata_of (places (roses_of children.now))).elements_len }
{
    match children {
        [] => 0,
        [elements, ..] => elements.len() as u64,
    }
}

// The kind of the offsets.
pub(crate) fn kind_of(children: &[Array]) -> PType
    ensures { result ≡ (metadata_of (places (roses_of children.now))).offset_ptype }
{
    match children {
        [] => PType::U8,
        [_] => PType::U8,
        [_, offsets, ..] => {
            match offsets.dtype() {
                DType::Primitive(kind, _) => *kind,
                _ => PType::U8,
            }
        }
    }
}
