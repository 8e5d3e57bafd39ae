//! Nodes of structures: no metadata, no buffers, and as children an optional validity and then each field.

ghost use Rattle.std.specs.Prelude.{◌≡◌, ◌++◌, Some, IfOk, IfErr, IsOkUnless};
ghost use Rattle.vx_trees.specs.Rose.{roses_of};
ghost use Rattle.vx_types.specs.Known.{ExtMeaning};
ghost use Rattle.vx_types.specs.Seen.{typs};
ghost use Rattle.vx_array_tree.specs.Place.{after_validity as after, places_at};
ghost use Rattle.vx_array_tree.specs.Sound.{IsSound};
ghost use Rattle.vx_array_tree.specs.Tree.{places};
ghost use Rattle.vx_encodings.specs.Steps.{IsPlanned, RefusesPlanning, IsBuilt, RefusesBuilding};
ghost use Rattle.vx_plans.specs.Plans.{RefusesPlaces};
ghost use Rattle.vx_encodings.specs.declared.encoding.Encoding.TheVariants.{Struct};

use crate::empty_metadata::read_empty;
use crate::error::of_constructor;
use std::alloc::Global;
use vx_arrays::{Array, Arrays, StructArray};
use vx_buffer::BufferHandles;
use vx_plans::{ArrayHead, ChildPlans, EncodingError, plan_of, validity_of};
use vx_types::DType;

// The plan of a structure node's children: at most a validity, and then a child for each field.
#[tactic(auto, using(crate::proofs::StructSteps::struct_steps))]
pub(crate) fn plan(alloc: Global, head: &ArrayHead) -> Result<ChildPlans, EncodingError>
    ensures plan { (x : ExtMeaning) → IfOk result (λ plans. IsPlanned x Struct head.now plans) }
    ensures err { (x : ExtMeaning) → IfErr result (λ e. RefusesPlanning e x Struct head.now) }
{
    read_empty(head.metadata.as_slice())?;
    match &head.dtype {
        DType::Struct(fields, _) => {
            plan_fields(alloc, fields.fields().as_slice(), head.len, head.nchildren)
        }
        _ => Err(EncodingError::BadShape),
    }
}

// The plan of a child for each type, after a validity where `count` asks for one.
#[tactic(auto, using(crate::proofs::StructSteps::struct_steps))]
fn plan_fields(
    alloc: Global,
    types: &[DType],
    len: usize,
    count: usize,
) -> Result<ChildPlans, EncodingError>
    ensures plan { IfOk result (λ plans. after (places_at (roses_of (typs types.now)) len) len count ≡ Some plans) }
    ensures err { IfErr result (λ e. RefusesPlaces e (after (places_at (roses_of (typs types.now)) len) len count)) }
{
    let mut plans = ChildPlans::new(alloc);
    match count.checked_sub(types.len()) {
        Some(0) => with_fields(alloc, plans, types, len),
        Some(1) => {
            plans.push(validity_of(len))?;
            with_fields(alloc, plans, types, len)
        }
        _ => Err(EncodingError::BadShape),
    }
}

// These plans, and then one for each type.
pub(crate) fn with_fields(
    alloc: Global,
    front: ChildPlans,
    types: &[DType],
    len: usize,
) -> Result<ChildPlans, EncodingError>
    ensures plans { IfOk result (λ plans. plans ≡ front ++ places_at (roses_of (typs types.now)) len) }
    ensures err { IsOkUnless result EncodingError.OutOfMemory }
{
    let mut plans = front;
    for dtype in types {
        plans.push(plan_of(alloc, dtype, len)?)?;
    }
    Ok(plans)
}

// The node of structures of these parts.
#[tactic(auto, using(crate::proofs::StructSteps::struct_steps))]
pub(crate) fn build(
    head: ArrayHead,
    buffers: BufferHandles,
    children: Arrays,
) -> Result<Array, EncodingError>
    requires { (x : ExtMeaning) × IsPlanned x Struct head (places children) }
    ensures parts { (x : ExtMeaning) → IfOk result (λ t. IsBuilt x Struct head buffers children t) }
    ensures sound { IfOk result IsSound }
    ensures err { (x : ExtMeaning) → IfErr result (λ e. RefusesBuilding e x Struct head buffers children) }
{
    if !buffers.is_empty() {
        return Err(EncodingError::BadShape);
    }
    let (fields, nullability) = match head.dtype.into_struct() {
        Some(parts) => parts,
        None => unreachable!(),
    };
    match StructArray::of_children(fields, nullability, head.len, children) {
        Ok(array) => Ok(array),
        Err(e) => Err(of_constructor(e)),
    }
}
