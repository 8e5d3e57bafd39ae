//! Nodes of nulls: no metadata, no buffers, no children.

ghost use Rattle.std.specs.Prelude.{IfOk, IfErr};
ghost use Rattle.vx_types.specs.Known.{ExtMeaning};
ghost use Rattle.vx_array_tree.specs.Sound.{IsSound};
ghost use Rattle.vx_array_tree.specs.Tree.{places};
ghost use Rattle.vx_encodings.specs.Steps.{IsPlanned, RefusesPlanning, IsBuilt, RefusesBuilding};
ghost use Rattle.vx_encodings.specs.declared.encoding.Encoding.TheVariants.{Null};

use crate::empty_metadata::read_empty;
use crate::error::of_constructor;
use std::alloc::Global;
use vx_arrays::{Array, Arrays, NullArray};
use vx_buffer::BufferHandles;
use vx_plans::{ArrayHead, ChildPlans, EncodingError};
use vx_types::DType;

// The plan of a null node's children: none.
#[tactic(auto, using(crate::proofs::NullSteps::null_steps))]
pub(crate) fn plan(alloc: Global, head: &ArrayHead) -> Result<ChildPlans, EncodingError>
    ensures plan { (x : ExtMeaning) → IfOk result (λ plans. IsPlanned x Null head.now plans) }
    ensures err { (x : ExtMeaning) → IfErr result (λ e. RefusesPlanning e x Null head.now) }
{
    read_empty(head.metadata.as_slice())?;
    match head.dtype {
        DType::Null => {}
        _ => return Err(EncodingError::BadShape),
    }
    if head.nchildren != 0 {
        return Err(EncodingError::BadShape);
    }
    Ok(ChildPlans::new(alloc))
}

// The node of nulls of these parts.
#[tactic(auto, using(crate::proofs::NullSteps::null_steps))]
pub(crate) fn build(
    alloc: Global,
    head: ArrayHead,
    buffers: BufferHandles,
    children: Arrays,
) -> Result<Array, EncodingError>
    requires { (x : ExtMeaning) × IsPlanned x Null head (places children) }
    ensures parts { (x : ExtMeaning) → IfOk result (λ t. IsBuilt x Null head buffers children t) }
    ensures sound { IfOk result IsSound }
    ensures err { (x : ExtMeaning) → IfErr result (λ e. RefusesBuilding e x Null head buffers children) }
{
    if !buffers.is_empty() {
        return Err(EncodingError::BadShape);
    }
    match NullArray::new(alloc, head.len) {
        Ok(array) => Ok(array),
        Err(e) => Err(of_constructor(e)),
    }
}
