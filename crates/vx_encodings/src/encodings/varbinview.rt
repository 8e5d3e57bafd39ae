//! Nodes of texts and of bytes by views: no metadata, the views in the last of the buffers, and an optional validity
//! child.

ghost use Rattle.std.specs.Prelude.{IfOk, IfErr};
ghost use Rattle.vx_types.specs.Known.{ExtMeaning};
ghost use Rattle.vx_array_tree.specs.Sound.{IsSound};
ghost use Rattle.vx_array_tree.specs.Tree.{places};
ghost use Rattle.vx_encodings.specs.Steps.{IsPlanned, RefusesPlanning, IsBuilt, RefusesBuilding};
ghost use Rattle.vx_encodings.specs.declared.encoding.Encoding.TheVariants.{VarBinView};

use crate::empty_metadata::read_empty;
use crate::encodings::varbin::is_of_bytes;
use crate::error::of_constructor;
use crate::validity::only_validity;
use std::alloc::Global;
use vx_arrays::{Array, Arrays, VarBinViewArray};
use vx_buffer::BufferHandles;
use vx_plans::{ArrayHead, ChildPlans, EncodingError, plan_validity};

// The plan of the children of a node of texts or bytes by views: at most a validity.
#[tactic(auto, using(crate::proofs::VarBinViewSteps::varbinview_steps))]
pub(crate) fn plan(alloc: Global, head: &ArrayHead) -> Result<ChildPlans, EncodingError>
    ensures plan { (x : ExtMeaning) → IfOk result (λ plans. IsPlanned x VarBinView head.now plans) }
    ensures err { (x : ExtMeaning) → IfErr result (λ e. RefusesPlanning e x VarBinView head.now) }
{
    read_empty(head.metadata.as_slice())?;
    if !is_of_bytes(&head.dtype) {
        return Err(EncodingError::BadShape);
    }
    plan_validity(alloc, head.len, head.nchildren)
}

// The node of texts or bytes by views of these parts.
#[tactic(auto, using(crate::proofs::VarBinViewSteps::varbinview_steps))]
pub(crate) fn build(
    alloc: Global,
    head: ArrayHead,
    buffers: BufferHandles,
    children: Arrays,
) -> Result<Array, EncodingError>
    requires { (x : ExtMeaning) × IsPlanned x VarBinView head (places children) }
    ensures parts { (x : ExtMeaning) → IfOk result (λ t. IsBuilt x VarBinView head buffers children t) }
    ensures sound { IfOk result IsSound }
    ensures err { (x : ExtMeaning) → IfErr result (λ e. RefusesBuilding e x VarBinView head buffers children) }
{
    let mut front = buffers.into_vec();
    let views = match front.pop() {
        Some(views) => views,
        None => return Err(EncodingError::BadShape),
    };
    let validity = only_validity(children.into_vec());
    match VarBinViewArray::try_new(alloc, head.dtype, head.len, front, views, validity) {
        Ok(array) => Ok(array),
        Err(e) => Err(of_constructor(e)),
    }
}
