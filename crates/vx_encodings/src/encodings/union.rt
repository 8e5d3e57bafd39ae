//! Nodes of unions: no metadata, no buffers, and as children the tags and then each member.

ghost use Rattle.std.specs.Prelude.{◌≡◌, ◌∷◌, Some, IfOk, IfErr};
ghost use Rattle.vx_trees.specs.Rose.{end, node, roses_of};
ghost use Rattle.vx_types.specs.Kind.{primitive};
ghost use Rattle.vx_types.specs.Known.{ExtMeaning};
ghost use Rattle.vx_types.specs.Seen.{typs};
ghost use Rattle.vx_numbers.specs.declared.ptype.PType.TheVariants.{U8};
ghost use Rattle.vx_array_tree.specs.Place.{exactly, place, places_at};
ghost use Rattle.vx_array_tree.specs.Sound.{IsSound};
ghost use Rattle.vx_array_tree.specs.Tree.{places};
ghost use Rattle.vx_plans.specs.Plans.{planned_place, RefusesPlaces};
ghost use Rattle.vx_encodings.specs.Steps.{IsPlanned, RefusesPlanning, IsBuilt, RefusesBuilding};
ghost use Rattle.vx_encodings.specs.declared.encoding.Encoding.TheVariants.{Union};

use crate::empty_metadata::read_empty;
use crate::encodings::structs::with_fields;
use crate::error::of_constructor;
use std::alloc::Global;
use vx_arrays::{Array, Arrays, UnionArray};
use vx_buffer::BufferHandles;
use vx_plans::{ArrayHead, ChildPlan, ChildPlans, EncodingError};
use vx_types::{DType, Nullability, PType};

// The plan of a union node's children: the tags, and then a child for each member.
#[tactic(auto, using(crate::proofs::UnionSteps::union_steps))]
pub(crate) fn plan(alloc: Global, head: &ArrayHead) -> Result<ChildPlans, EncodingError>
    ensures plan { (x : ExtMeaning) → IfOk result (λ plans. IsPlanned x Union head.now plans) }
    ensures err { (x : ExtMeaning) → IfErr result (λ e. RefusesPlanning e x Union head.now) }
{
    read_empty(head.metadata.as_slice())?;
    match &head.dtype {
        DType::Union(members, nullability) => {
            let types = members.variants().as_slice();
            plan_members(alloc, types, *nullability, head.len, head.nchildren)
        }
        _ => Err(EncodingError::BadShape),
    }
}

// The plan of the tags and of a child for each type. `BadShape` where `count` is not one more than the types.
#[tactic(auto, using(crate::proofs::UnionSteps::member_steps))]
fn plan_members(
    alloc: Global,
    types: &[DType],
    nullability: Nullability,
    len: usize,
    count: usize,
) -> Result<ChildPlans, EncodingError>
    ensures plan { IfOk result (λ plans. exactly (place (node (primitive U8 nullability) end) len ∷ places_at (roses_of (typs types.now)) len) count ≡ Some plans) }
    ensures err { IfErr result (λ e. RefusesPlaces e (exactly (place (node (primitive U8 nullability) end) len ∷ places_at (roses_of (typs types.now)) len) count)) }
{
    if count != types.len() + 1 {
        return Err(EncodingError::BadShape);
    }
    let mut plans = ChildPlans::new(alloc);
    plans.push(tags_of(nullability, len))?;
    with_fields(alloc, plans, types, len)
}

// The plan of the tags of `len` rows.
fn tags_of(nullability: Nullability, len: usize) -> ChildPlan
    ensures { planned_place result ≡ place (node (primitive U8 nullability) end) len }
{
    ChildPlan {
        dtype: DType::Primitive(PType::U8, nullability),
        len,
    }
}

// The node of unions of these parts.
#[tactic(auto, using(crate::proofs::UnionSteps::union_steps))]
pub(crate) fn build(
    head: ArrayHead,
    buffers: BufferHandles,
    children: Arrays,
) -> Result<Array, EncodingError>
    requires { (x : ExtMeaning) × IsPlanned x Union head (places children) }
    ensures parts { (x : ExtMeaning) → IfOk result (λ t. IsBuilt x Union head buffers children t) }
    ensures sound { IfOk result IsSound }
    ensures err { (x : ExtMeaning) → IfErr result (λ e. RefusesBuilding e x Union head buffers children) }
{
    if !buffers.is_empty() {
        return Err(EncodingError::BadShape);
    }
    match UnionArray::of_children(head.dtype, head.len, children) {
        Ok(array) => Ok(array),
        Err(e) => Err(of_constructor(e)),
    }
}
