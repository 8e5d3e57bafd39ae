//! Nodes of numbers: no metadata, the numbers in one buffer, and an optional validity child.

ghost use Rattle.std.specs.Prelude.{IfOk, IfErr};
ghost use Rattle.vx_types.specs.Known.{ExtMeaning};
ghost use Rattle.vx_array_tree.specs.Sound.{IsSound};
ghost use Rattle.vx_array_tree.specs.Tree.{places};
ghost use Rattle.vx_encodings.specs.Steps.{IsPlanned, RefusesPlanning, IsBuilt, RefusesBuilding};
ghost use Rattle.vx_encodings.specs.declared.encoding.Encoding.TheVariants.{Primitive};

use crate::empty_metadata::read_empty;
use crate::error::of_constructor;
use crate::validity::only_validity;
use std::alloc::Global;
use vx_arrays::{Array, Arrays, PrimitiveArray};
use vx_buffer::BufferHandles;
use vx_plans::{ArrayHead, ChildPlans, EncodingError, plan_validity};
use vx_types::DType;

// The plan of a number node's children: at most a validity.
#[tactic(auto, using(crate::proofs::PrimitiveSteps::primitive_steps))]
pub(crate) fn plan(alloc: Global, head: &ArrayHead) -> Result<ChildPlans, EncodingError>
    ensures plan { (x : ExtMeaning) → IfOk result (λ plans. IsPlanned x Primitive head.now plans) }
    ensures err { (x : ExtMeaning) → IfErr result (λ e. RefusesPlanning e x Primitive head.now) }
{
    read_empty(head.metadata.as_slice())?;
    match head.dtype {
        DType::Primitive(_, _) => {}
        _ => return Err(EncodingError::BadShape),
    }
    plan_validity(alloc, head.len, head.nchildren)
}

// The node of numbers of these parts.
#[tactic(auto, using(crate::proofs::PrimitiveSteps::primitive_steps))]
pub(crate) fn build(
    alloc: Global,
    head: ArrayHead,
    buffers: BufferHandles,
    children: Arrays,
) -> Result<Array, EncodingError>
    requires { (x : ExtMeaning) × IsPlanned x Primitive head (places children) }
    ensures parts { (x : ExtMeaning) → IfOk result (λ t. IsBuilt x Primitive head buffers children t) }
    ensures sound { IfOk result IsSound }
    ensures err { (x : ExtMeaning) → IfErr result (λ e. RefusesBuilding e x Primitive head buffers children) }
{
    let (ptype, nullability) = match &head.dtype {
        DType::Primitive(ptype, nullability) => (*ptype, *nullability),
        _ => unreachable!(),
    };
    let values = match buffers.only_buffer() {
        Some(values) => values,
        None => return Err(EncodingError::BadShape),
    };
    let validity = only_validity(children.into_vec());
    match PrimitiveArray::try_new(alloc, values, ptype, nullability, head.len, validity) {
        Ok(array) => Ok(array),
        Err(e) => Err(of_constructor(e)),
    }
}
