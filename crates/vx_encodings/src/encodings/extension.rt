//! Nodes of extensions: no metadata, no buffers, and the storage as the only child.

ghost use Rattle.std.specs.Prelude.{◌≡◌, ◌∷◌, [], Some, IfOk, IfErr};
ghost use Rattle.vx_types.specs.Known.{ExtMeaning};
ghost use Rattle.vx_types.specs.Seen.{typ};
ghost use Rattle.vx_array_tree.specs.Place.{exactly, place};
ghost use Rattle.vx_array_tree.specs.Sound.{IsSound};
ghost use Rattle.vx_array_tree.specs.Tree.{places};
ghost use Rattle.vx_encodings.specs.Steps.{IsPlanned, RefusesPlanning, IsBuilt, RefusesBuilding};
ghost use Rattle.vx_plans.specs.Plans.{RefusesPlaces};
ghost use Rattle.vx_encodings.specs.declared.encoding.Encoding.TheVariants.{Extension};

use crate::empty_metadata::read_empty;
use crate::error::of_constructor;
use std::alloc::Global;
use vx_arrays::{Array, Arrays, ExtensionArray};
use vx_buffer::BufferHandles;
use vx_plans::{ArrayHead, ChildPlans, EncodingError, plan_of, plan_only};
use vx_types::DType;

// The plan of an extension node's child: its storage.
#[tactic(auto, using(crate::proofs::ExtensionSteps::extension_steps))]
pub(crate) fn plan(alloc: Global, head: &ArrayHead) -> Result<ChildPlans, EncodingError>
    ensures plan { (x : ExtMeaning) → IfOk result (λ plans. IsPlanned x Extension head.now plans) }
    ensures err { (x : ExtMeaning) → IfErr result (λ e. RefusesPlanning e x Extension head.now) }
{
    read_empty(head.metadata.as_slice())?;
    match &head.dtype {
        DType::Extension(ext) => {
            plan_storage(alloc, ext.storage_dtype(), head.len, head.nchildren)
        }
        _ => Err(EncodingError::BadShape),
    }
}

// The plan of `len` rows of a type, for a node of exactly one child.
fn plan_storage(
    alloc: Global,
    storage: &DType,
    len: usize,
    count: usize,
) -> Result<ChildPlans, EncodingError>
    ensures plan { IfOk result (λ plans. exactly (place (typ storage.now) len ∷ []) count ≡ Some plans) }
    ensures err { IfErr result (λ e. RefusesPlaces e (exactly (place (typ storage.now) len ∷ []) count)) }
{
    let plan = plan_of(alloc, storage, len)?;
    plan_only(alloc, plan, count)
}

// The node of an extension of these parts.
#[tactic(auto, using(crate::proofs::ExtensionSteps::extension_steps))]
pub(crate) fn build(
    head: ArrayHead,
    buffers: BufferHandles,
    children: Arrays,
) -> Result<Array, EncodingError>
    requires { (x : ExtMeaning) × IsPlanned x Extension head (places children) }
    ensures parts { (x : ExtMeaning) → IfOk result (λ t. IsBuilt x Extension head buffers children t) }
    ensures sound { IfOk result IsSound }
    ensures err { (x : ExtMeaning) → IfErr result (λ e. RefusesBuilding e x Extension head buffers children) }
{
    if !buffers.is_empty() {
        return Err(EncodingError::BadShape);
    }
    match ExtensionArray::of_children(head.dtype, head.len, children) {
        Ok(array) => Ok(array),
        Err(e) => Err(of_constructor(e)),
    }
}
