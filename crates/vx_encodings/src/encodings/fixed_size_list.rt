//! Nodes of fixed-size lists: no metadata, no buffers, and as children the elements and an optional validity.

ghost use Rattle.std.specs.Prelude.{◌≡◌, ◌*◌, ◌∷◌, [], Some, IfOk, IfErr};
ghost use Rattle.vx_types.specs.Known.{ExtMeaning};
ghost use Rattle.vx_types.specs.Seen.{typ};
ghost use Rattle.vx_array_tree.specs.Place.{before_validity, is_len, place, when};
ghost use Rattle.vx_array_tree.specs.Sound.{IsSound};
ghost use Rattle.vx_array_tree.specs.Tree.{places};
ghost use Rattle.vx_encodings.specs.Steps.{IsPlanned, RefusesPlanning, IsBuilt, RefusesBuilding};
ghost use Rattle.vx_plans.specs.Plans.{RefusesPlaces};
ghost use Rattle.vx_encodings.specs.declared.encoding.Encoding.TheVariants.{FixedSizeList};

use crate::empty_metadata::read_empty;
use crate::error::of_constructor;
use crate::validity::first_and_validity;
use std::alloc::Global;
use vx_arrays::{Array, Arrays, FixedSizeListArray};
use vx_buffer::BufferHandles;
use vx_plans::{ArrayHead, ChildPlans, EncodingError, plan_after, plan_of};
use vx_types::DType;

// The plan of a fixed-size list node's children: the size times as many elements as rows, and at most a validity.
#[tactic(auto, using(crate::proofs::FixedSizeListSteps::fixed_size_list_steps))]
pub(crate) fn plan(alloc: Global, head: &ArrayHead) -> Result<ChildPlans, EncodingError>
    ensures plan { (x : ExtMeaning) → IfOk result (λ plans. IsPlanned x FixedSizeList head.now plans) }
    ensures err { (x : ExtMeaning) → IfErr result (λ e. RefusesPlanning e x FixedSizeList head.now) }
{
    read_empty(head.metadata.as_slice())?;
    match &head.dtype {
        DType::FixedSizeList(element, size, _) => {
            plan_elements(alloc, element.get(), *size, head.len, head.nchildren)
        }
        _ => Err(EncodingError::BadShape),
    }
}

// The plan of the elements, and of a validity after them where `count` asks for one. `BadShape` where the number of
// elements is not below 2^64.
fn plan_elements(
    alloc: Global,
    element: &DType,
    size: u32,
    len: usize,
    count: usize,
) -> Result<ChildPlans, EncodingError>
    ensures plan { IfOk result (λ plans. when (is_len (len * size)) (before_validity (place (typ element.now) (len * size) ∷ []) len count) ≡ Some plans) }
    ensures err { IfErr result (λ e. RefusesPlaces e (when (is_len (len * size)) (before_validity (place (typ element.now) (len * size) ∷ []) len count))) }
{
    match len.checked_mul(size as usize) {
        None => Err(EncodingError::BadShape),
        Some(elements) => {
            let first = plan_of(alloc, element, elements)?;
            plan_after(alloc, first, len, count)
        }
    }
}

// The node of fixed-size lists of these parts.
#[tactic(auto, using(crate::proofs::FixedSizeListSteps::fixed_size_list_steps))]
pub(crate) fn build(
    alloc: Global,
    head: ArrayHead,
    buffers: BufferHandles,
    children: Arrays,
) -> Result<Array, EncodingError>
    requires { (x : ExtMeaning) × IsPlanned x FixedSizeList head (places children) }
    ensures parts { (x : ExtMeaning) → IfOk result (λ t. IsBuilt x FixedSizeList head buffers children t) }
    ensures sound { IfOk result IsSound }
    ensures err { (x : ExtMeaning) → IfErr result (λ e. RefusesBuilding e x FixedSizeList head buffers children) }
{
    if !buffers.is_empty() {
        return Err(EncodingError::BadShape);
    }
    let (size, nullability) = match &head.dtype {
        DType::FixedSizeList(_, size, nullability) => (*size, *nullability),
        _ => unreachable!(),
    };
    let (elements, validity) = first_and_validity(children.into_vec());
    match FixedSizeListArray::try_new(alloc, elements, size, nullability, head.len, validity) {
        Ok(array) => Ok(array),
        Err(e) => Err(of_constructor(e)),
    }
}
