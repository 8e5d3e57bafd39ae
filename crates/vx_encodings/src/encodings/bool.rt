//! Nodes of booleans: the offset of the first row's bit as metadata, the bits in one buffer, and an optional validity
//! child.

ghost use Rattle.std.specs.Prelude.{◌≡◌, IfOk, IfErr, IsOkUnless, refl};
ghost use Rattle.std.proofs.Common.{arith, ap};
ghost use Rattle.vx_types.specs.Known.{ExtMeaning};
ghost use Rattle.vx_array_tree.specs.Sound.{IsSound};
ghost use Rattle.vx_array_tree.specs.Tree.{places};
ghost use Rattle.vx_encodings.specs.BoolMessage.{bool_schema, bool_value, bool_bytes};
ghost use Rattle.vx_encodings.specs.NumberMessage.{same_value};
ghost use Rattle.vx_encodings.specs.Steps.{IsPlanned, RefusesPlanning, IsBuilt, RefusesBuilding};
ghost use Rattle.vx_encodings.specs.declared.encoding.Encoding.TheVariants.{Bool};

use crate::error::of_constructor;
use crate::messages::{read_message, write_message};
use crate::validity::only_validity;
use std::alloc::Global;
use vx_arrays::{Array, Arrays, BoolArray, BoolData};
use vx_buffer::BufferHandles;
use vx_plans::{ArrayHead, ChildPlans, EncodingError, plan_validity};
use vx_proto::{Element, Entries, Message, ProtoError, ScalarKind, Schema, Slot, one, u32_at};
use vx_types::{Blob, DType};

/// The metadata of booleans.
#[derive(Debug, Drop)]
pub struct BoolMetadata {
    /// The number of bits before the first row's, below 8.
    pub offset: u32,
}

const SCHEMA: Schema = Schema {
    messages: &[&[Slot::Plain(1, ScalarKind::Uint32)]],
};

impl Message for BoolMetadata {
    ghost schema = { bool_schema };

    ghost place = { 0 };

    ghost value = { λ m. bool_value m.offset };

    fn lists() -> Schema {
        SCHEMA
    }

    fn schema_place() -> u32 {
        0
    }

    fn default(_alloc: Global) -> BoolMetadata {
        BoolMetadata { offset: 0 }
    }

    fn from_value(_alloc: Global, slots: Vec<Entries>) -> Result<BoolMetadata, ProtoError> {
        let offset = u32_at(&slots, 0);
        Ok(BoolMetadata { offset })
    }

    fn to_value(&self, alloc: Global) -> Result<Vec<Entries>, ProtoError> {
        let offset = one(alloc, 1, Element::Number(self.offset as u64))?;
        Ok(vec![in alloc; offset]?)
    }

    ghost lawful = { refl };

    ghost placed = { Prim.omega arith };

    ghost determined = { λ m n p q e. ap (λ o. record { offset = o }) (same_value m.offset n.offset e) };
}

// The plan of a boolean node's children: at most a validity.
#[tactic(auto, using(crate::proofs::BoolSteps::bool_steps))]
pub(crate) fn plan(alloc: Global, head: &ArrayHead) -> Result<ChildPlans, EncodingError>
    ensures plan { (x : ExtMeaning) → IfOk result (λ plans. IsPlanned x Bool head.now plans) }
    ensures err { (x : ExtMeaning) → IfErr result (λ e. RefusesPlanning e x Bool head.now) }
{
    let metadata: BoolMetadata = read_message(alloc, head.metadata.as_slice())?;
    if metadata.offset >= 8 {
        return Err(EncodingError::BadMetadata);
    }
    match head.dtype {
        DType::Bool(_) => {}
        _ => return Err(EncodingError::BadShape),
    }
    plan_validity(alloc, head.len, head.nchildren)
}

// The boolean node of these parts.
#[tactic(auto, using(crate::proofs::BoolSteps::bool_steps))]
pub(crate) fn build(
    alloc: Global,
    head: ArrayHead,
    buffers: BufferHandles,
    children: Arrays,
) -> Result<Array, EncodingError>
    requires { (x : ExtMeaning) × IsPlanned x Bool head (places children) }
    ensures parts { (x : ExtMeaning) → IfOk result (λ t. IsBuilt x Bool head buffers children t) }
    ensures sound { IfOk result IsSound }
    ensures err { (x : ExtMeaning) → IfErr result (λ e. RefusesBuilding e x Bool head buffers children) }
{
    let metadata: BoolMetadata = read_message(alloc, head.metadata.as_slice())?;
    let nullability = match &head.dtype {
        DType::Bool(nullability) => *nullability,
        _ => unreachable!(),
    };
    let bits = match buffers.only_buffer() {
        Some(bits) => bits,
        None => return Err(EncodingError::BadShape),
    };
    let validity = only_validity(children.into_vec());
    let offset = metadata.offset as usize;
    match BoolArray::try_new(alloc, bits, offset, head.len, nullability, validity) {
        Ok(array) => Ok(array),
        Err(e) => Err(of_constructor(e)),
    }
}

// The metadata of a boolean node, as it is written.
pub(crate) fn metadata(alloc: Global, flags: &BoolData) -> Result<Blob, EncodingError>
    ensures ok { IfOk result (λ bytes. bytes ≡ bool_bytes flags.now.offset) }
    ensures err { IsOkUnless result EncodingError.OutOfMemory }
{
    let offset = flags.offset() as u32;
    write_message(alloc, BoolMetadata { offset })
}
