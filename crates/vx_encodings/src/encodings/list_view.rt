//! Nodes of list views: the number of elements and the kinds of the offsets and of the sizes as metadata, no buffers,
//! and as children the elements, the offsets, the sizes and an optional validity.

ghost use Rattle.std.specs.Prelude.{◌≡◌, ◌∷◌, ◌↔◌, [], Some, IfOk, IfErr, IsOkUnless, IsTrue, false, refl};
ghost use Rattle.std.proofs.Common.{arith};
ghost use Rattle.vx_trees.specs.Rose.{roses_of};
ghost use Rattle.vx_types.specs.Known.{ExtMeaning};
ghost use Rattle.vx_types.specs.Seen.{typ};
ghost use Rattle.vx_array_tree.specs.Encodings.ListViews.{IsFair, metadata_of};
ghost use Rattle.vx_array_tree.specs.Place.{before_validity, numbers, place};
ghost use Rattle.vx_array_tree.specs.Sound.{IsSound};
ghost use Rattle.vx_array_tree.specs.Tree.{places};
ghost use Rattle.vx_encodings.specs.ListViewMessage.{kept_views, view_schema, view_value, view_bytes, same_views};
ghost use Rattle.vx_plans.specs.Plans.{planned_place, RefusesPlaces};
ghost use Rattle.vx_encodings.specs.Steps.{IsPlanned, RefusesPlanning, IsBuilt, RefusesBuilding};
ghost use Rattle.vx_encodings.specs.declared.encoding.Encoding.TheVariants.{ListView};

use crate::encodings::lists::{count_of, kind_of};
use crate::error::of_constructor;
use crate::messages::{kind_at, read_message, write_message};
use std::alloc::Global;
use vx_arrays::{Array, Arrays, ListViewArray};
use vx_buffer::BufferHandles;
use vx_plans::{ArrayHead, ChildPlan, ChildPlans, EncodingError, plan_after_all, plan_of};
use vx_proto::{Element, Entries, Message, ProtoError, ScalarKind, Schema, Slot, one, u64_at};
use vx_types::{Blob, DType, Nullability, PType};

/// The metadata of list views.
#[derive(Debug, Drop)]
pub struct ListViewMetadata {
    /// The number of elements.
    pub elements_len: u64,
    /// The kind of the offsets.
    pub offset_ptype: PType,
    /// The kind of the sizes.
    pub size_ptype: PType,
}

const SCHEMA: Schema = Schema {
    messages: &[&[
        Slot::Plain(1, ScalarKind::Uint64),
        Slot::Plain(2, ScalarKind::Enum(11)),
        Slot::Plain(3, ScalarKind::Enum(11)),
    ]],
};

impl Message for ListViewMetadata {
    ghost schema = { view_schema };

    ghost place = { 0 };

    ghost value = { λ m. view_value (kept_views m.elements_len m.offset_ptype m.size_ptype) };

    fn lists() -> Schema {
        SCHEMA
    }

    fn schema_place() -> u32 {
        0
    }

    fn default(_alloc: Global) -> ListViewMetadata {
        ListViewMetadata {
            elements_len: 0,
            offset_ptype: PType::U8,
            size_ptype: PType::U8,
        }
    }

    fn from_value(_alloc: Global, slots: Vec<Entries>) -> Result<ListViewMetadata, ProtoError> {
        let elements_len = u64_at(&slots, 0);
        let offset_ptype = kind_at(&slots, 1);
        let size_ptype = kind_at(&slots, 2);
        Ok(ListViewMetadata {
            elements_len,
            offset_ptype,
            size_ptype,
        })
    }

    fn to_value(&self, alloc: Global) -> Result<Vec<Entries>, ProtoError> {
        let elements_len = self.elements_len;
        let offset_code = self.offset_ptype.code();
        let size_code = self.size_ptype.code();
        let count = one(alloc, 1, Element::Number(elements_len))?;
        let offset = one(alloc, 2, Element::Number(offset_code as u64))?;
        let size = one(alloc, 3, Element::Number(size_code as u64))?;
        Ok(vec![in alloc; count, offset, size]?)
    }

    ghost lawful = { refl };

    ghost placed = { Prim.omega arith };

    ghost determined = { λ m n p q e. let s = same_views (kept_views m.elements_len m.offset_ptype m.size_ptype) (kept_views n.elements_len n.offset_ptype n.size_ptype) e in λ i. record { elements_len = (s i).elements_len; offset_ptype = (s i).offset_ptype; size_ptype = (s i).size_ptype } };
}

// The plan of a list view node's children: elements, an offset and a size for each row, and at most a validity.
#[tactic(auto, using(crate::proofs::ListViewSteps::list_view_steps))]
pub(crate) fn plan(alloc: Global, head: &ArrayHead) -> Result<ChildPlans, EncodingError>
    ensures plan { (x : ExtMeaning) → IfOk result (λ plans. IsPlanned x ListView head.now plans) }
    ensures err { (x : ExtMeaning) → IfErr result (λ e. RefusesPlanning e x ListView head.now) }
{
    let metadata: ListViewMetadata = read_message(alloc, head.metadata.as_slice())?;
    if !is_fair(&metadata) {
        return Err(EncodingError::BadMetadata);
    }
    match &head.dtype {
        DType::List(element, _) => {
            plan_parts(alloc, element.get(), metadata, head.len, head.nchildren)
        }
        _ => Err(EncodingError::BadShape),
    }
}

// Whether the offsets and the sizes are of integer kinds.
fn is_fair(metadata: &ListViewMetadata) -> bool
    ensures { IsTrue result ↔ IsFair (kept_views metadata.now.elements_len metadata.now.offset_ptype metadata.now.size_ptype) }
{
    metadata.offset_ptype.is_int() && metadata.size_ptype.is_int()
}

// The plan of the elements, the offsets and the sizes of `len` rows, and of a validity after them where `count` asks
// for one.
fn plan_parts(
    alloc: Global,
    element: &DType,
    metadata: ListViewMetadata,
    len: usize,
    count: usize,
) -> Result<ChildPlans, EncodingError>
    ensures plan { IfOk result (λ plans. before_validity (place (typ element.now) metadata.elements_len ∷ place (numbers metadata.offset_ptype) len ∷ place (numbers metadata.size_ptype) len ∷ []) len count ≡ Some plans) }
    ensures err { IfErr result (λ e. RefusesPlaces e (before_validity (place (typ element.now) metadata.elements_len ∷ place (numbers metadata.offset_ptype) len ∷ place (numbers metadata.size_ptype) len ∷ []) len count)) }
{
    let mut front = ChildPlans::new(alloc);
    front.push(plan_of(alloc, element, metadata.elements_len as usize)?)?;
    front.push(numbers_of(metadata.offset_ptype, len))?;
    front.push(numbers_of(metadata.size_ptype, len))?;
    plan_after_all(front, len, count)
}

// The plan of `len` numbers of a kind, none of them null.
fn numbers_of(kind: PType, len: usize) -> ChildPlan
    ensures { planned_place result ≡ place (numbers kind) len }
{
    ChildPlan {
        dtype: DType::Primitive(kind, Nullability::NonNullable),
        len,
    }
}

// The node of list views of these parts. It never carries the promise that its rows stand one after the other, which no
// wire node can make.
#[tactic(auto, using(crate::proofs::ListViewSteps::list_view_steps))]
pub(crate) fn build(
    head: ArrayHead,
    buffers: BufferHandles,
    children: Arrays,
) -> Result<Array, EncodingError>
    requires { (x : ExtMeaning) × IsPlanned x ListView head (places children) }
    ensures parts { (x : ExtMeaning) → IfOk result (λ t. IsBuilt x ListView head buffers children t) }
    ensures sound { IfOk result IsSound }
    ensures err { (x : ExtMeaning) → IfErr result (λ e. RefusesBuilding e x ListView head buffers children) }
{
    if !buffers.is_empty() {
        return Err(EncodingError::BadShape);
    }
    match ListViewArray::of_children(head.dtype, head.len, false, children) {
        Ok(array) => Ok(array),
        Err(e) => Err(of_constructor(e)),
    }
}

// The metadata of a node over these children, as it is written. Children that no node has give some metadata, so the
// call needs no condition on them.
pub(crate) fn metadata(alloc: Global, children: &[Array]) -> Result<Blob, EncodingError>
    ensures ok { IfOk result (λ bytes. bytes ≡ view_bytes (metadata_of (places (roses_of children.now)))) }
    ensures err { IsOkUnless result EncodingError.OutOfMemory }
{
    let elements_len = count_of(children);
    let offset_ptype = kind_of(children);
    let size_ptype = kind_of_sizes(children);
    write_message(
        alloc,
        ListViewMetadata {
            elements_len,
            offset_ptype,
            size_ptype,
        },
    )
}

// The kind of the sizes.
fn kind_of_sizes(children: &[Array]) -> PType
    ensures { result ≡ (metadata_of (places (roses_of children.now))).size_ptype }
{
    match children {
        [] => PType::U8,
        [_, others @ ..] => kind_of(others),
    }
}
