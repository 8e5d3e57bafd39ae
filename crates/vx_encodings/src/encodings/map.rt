//! Nodes of maps: no metadata, no buffers, and the entries as the only child.

ghost use Rattle.std.specs.Prelude.{◌≡◌, ◌∷◌, [], Some, IfOk, IfErr, IsOkUnless};
ghost use Rattle.vx_trees.specs.Rose.{end, more, node};
ghost use Rattle.vx_types.specs.Kind.{list};
ghost use Rattle.vx_types.specs.Known.{ExtMeaning};
ghost use Rattle.vx_types.specs.Seen.{typ};
ghost use Rattle.vx_types.specs.Words.{entries};
ghost use Rattle.vx_array_tree.specs.Place.{exactly, place};
ghost use Rattle.vx_array_tree.specs.Sound.{IsSound};
ghost use Rattle.vx_array_tree.specs.Tree.{places};
ghost use Rattle.vx_encodings.specs.Steps.{IsPlanned, RefusesPlanning, IsBuilt, RefusesBuilding};
ghost use Rattle.vx_plans.specs.Plans.{RefusesPlaces};
ghost use Rattle.vx_encodings.specs.declared.encoding.Encoding.TheVariants.{Map};

use crate::empty_metadata::read_empty;
use crate::error::of_constructor;
use std::alloc::Global;
use vx_arrays::{Array, Arrays, MapArray};
use vx_buffer::BufferHandles;
use vx_plans::{ArrayHead, ChildPlan, ChildPlans, EncodingError, plan_only};
use vx_types::{DType, MapDType, Nullability, TypeRef, or_memory};

// The plan of a map node's child: lists of entries, which are null where the maps are.
#[tactic(auto, using(crate::proofs::MapSteps::map_steps))]
pub(crate) fn plan(alloc: Global, head: &ArrayHead) -> Result<ChildPlans, EncodingError>
    ensures plan { (x : ExtMeaning) → IfOk result (λ plans. IsPlanned x Map head.now plans) }
    ensures err { (x : ExtMeaning) → IfErr result (λ e. RefusesPlanning e x Map head.now) }
{
    read_empty(head.metadata.as_slice())?;
    match &head.dtype {
        DType::Map(map, nullability) => {
            plan_entries(alloc, map, *nullability, head.len, head.nchildren)
        }
        _ => Err(EncodingError::BadShape),
    }
}

// The plan of the entries of `len` maps, for a node of exactly one child.
fn plan_entries(
    alloc: Global,
    map: &MapDType,
    nullability: Nullability,
    len: usize,
    count: usize,
) -> Result<ChildPlans, EncodingError>
    ensures plan { IfOk result (λ plans. exactly (place (node (list nullability) (more (entries map.now) end)) len ∷ []) count ≡ Some plans) }
    ensures err { IfErr result (λ e. RefusesPlaces e (exactly (place (node (list nullability) (more (entries map.now) end)) len ∷ []) count)) }
{
    let dtype = lists_of_entries(alloc, map, nullability)?;
    plan_only(alloc, ChildPlan { dtype, len }, count)
}

// The type of the lists of a map's entries.
fn lists_of_entries(
    alloc: Global,
    map: &MapDType,
    nullability: Nullability,
) -> Result<DType, EncodingError>
    ensures ok { IfOk result (λ d. typ d ≡ node (list nullability) (more (entries map.now) end)) }
    ensures err { IsOkUnless result EncodingError.OutOfMemory }
{
    let entry = or_memory(map.entries_dtype(alloc))?;
    let element = or_memory(TypeRef::new(alloc, entry))?;
    Ok(DType::List(element, nullability))
}

// The node of maps of these parts.
#[tactic(auto, using(crate::proofs::MapSteps::map_steps))]
pub(crate) fn build(
    head: ArrayHead,
    buffers: BufferHandles,
    children: Arrays,
) -> Result<Array, EncodingError>
    requires { (x : ExtMeaning) × IsPlanned x Map head (places children) }
    ensures parts { (x : ExtMeaning) → IfOk result (λ t. IsBuilt x Map head buffers children t) }
    ensures sound { IfOk result IsSound }
    ensures err { (x : ExtMeaning) → IfErr result (λ e. RefusesBuilding e x Map head buffers children) }
{
    if !buffers.is_empty() {
        return Err(EncodingError::BadShape);
    }
    match MapArray::of_children(head.dtype, head.len, children) {
        Ok(array) => Ok(array),
        Err(e) => Err(of_constructor(e)),
    }
}
