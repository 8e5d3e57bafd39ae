//! Nodes of texts and of bytes by offsets: the kind of the offsets as metadata, the bytes in one buffer, and as
//! children the offsets and an optional validity.

ghost use Rattle.std.specs.Prelude.{◌≡◌, ◌↔◌, IfOk, IfErr, IsOkUnless, IsTrue, refl};
ghost use Rattle.std.proofs.Common.{arith, ap};
ghost use Rattle.vx_trees.specs.Rose.{roses_of};
ghost use Rattle.vx_types.specs.Known.{ExtMeaning};
ghost use Rattle.vx_types.specs.Seen.{typ};
ghost use Rattle.vx_array_tree.specs.Encodings.VarBins.{metadata_of};
ghost use Rattle.vx_array_tree.specs.Sound.{IsSound};
ghost use Rattle.vx_array_tree.specs.Tree.{places};
ghost use Rattle.vx_arrays.specs.VarBins.{IsOfBytes};
ghost use Rattle.vx_encodings.specs.Steps.{IsPlanned, RefusesPlanning, IsBuilt, RefusesBuilding};
ghost use Rattle.vx_encodings.specs.VarBinMessage.{varbin_schema, varbin_value, varbin_bytes, same_kind};
ghost use Rattle.vx_encodings.specs.declared.encoding.Encoding.TheVariants.{VarBin};

use crate::error::of_constructor;
use crate::messages::{read_message, write_message};
use crate::validity::first_and_validity;
use std::alloc::Global;
use vx_arrays::{Array, Arrays, VarBinArray};
use vx_buffer::BufferHandles;
use vx_plans::{ArrayHead, ChildPlan, ChildPlans, EncodingError, plan_after};
use vx_proto::{Element, Entries, Message, ProtoError, ScalarKind, Schema, Slot, one, u8_at};
use vx_types::{Blob, DType, Nullability, PType};

/// The metadata of texts and of bytes by offsets.
#[derive(Debug, Drop)]
pub struct VarBinMetadata {
    /// The kind of the offsets.
    pub offsets_ptype: PType,
}

const SCHEMA: Schema = Schema {
    messages: &[&[Slot::Plain(1, ScalarKind::Enum(11))]],
};

impl Message for VarBinMetadata {
    ghost schema = { varbin_schema };

    ghost place = { 0 };

    ghost value = { λ m. varbin_value m.offsets_ptype };

    fn lists() -> Schema {
        SCHEMA
    }

    fn schema_place() -> u32 {
        0
    }

    fn default(_alloc: Global) -> VarBinMetadata {
        VarBinMetadata {
            offsets_ptype: PType::U8,
        }
    }

    fn from_value(_alloc: Global, slots: Vec<Entries>) -> Result<VarBinMetadata, ProtoError> {
        let code = u8_at(&slots, 0);
        match PType::from_code(code) {
            Some(offsets_ptype) => Ok(VarBinMetadata { offsets_ptype }),
            None => unreachable!(),
        }
    }

    fn to_value(&self, alloc: Global) -> Result<Vec<Entries>, ProtoError> {
        let code = self.offsets_ptype.code();
        let kind = one(alloc, 1, Element::Number(code as u64))?;
        Ok(vec![in alloc; kind]?)
    }

    ghost lawful = { refl };

    ghost placed = { Prim.omega arith };

    ghost determined = { λ m n p q e. ap (λ k. record { offsets_ptype = k }) (same_kind m.offsets_ptype n.offsets_ptype e) };
}

// The plan of the children of a node of texts or bytes: one offset more than rows, and at most a validity.
#[tactic(auto, using(crate::proofs::VarBinSteps::varbin_steps))]
pub(crate) fn plan(alloc: Global, head: &ArrayHead) -> Result<ChildPlans, EncodingError>
    ensures plan { (x : ExtMeaning) → IfOk result (λ plans. IsPlanned x VarBin head.now plans) }
    ensures err { (x : ExtMeaning) → IfErr result (λ e. RefusesPlanning e x VarBin head.now) }
{
    let metadata: VarBinMetadata = read_message(alloc, head.metadata.as_slice())?;
    if !metadata.offsets_ptype.is_int() {
        return Err(EncodingError::BadMetadata);
    }
    if !is_of_bytes(&head.dtype) {
        return Err(EncodingError::BadShape);
    }
    // There is one offset more than rows, so the greatest length has no offsets.
    match head.len.checked_add(1) {
        None => Err(EncodingError::BadShape),
        Some(count) => {
            let offsets = ChildPlan {
                dtype: DType::Primitive(metadata.offsets_ptype, Nullability::NonNullable),
                len: count,
            };
            plan_after(alloc, offsets, head.len, head.nchildren)
        }
    }
}

// Whether a type is one of texts or of bytes.
pub(crate) fn is_of_bytes(dtype: &DType) -> bool
    ensures { IsTrue result ↔ IsOfBytes (typ dtype.now) }
{
    match dtype {
        DType::Utf8(_) => true,
        DType::Binary(_) => true,
        _ => false,
    }
}

// The node of texts or bytes of these parts.
#[tactic(auto, using(crate::proofs::VarBinSteps::varbin_steps))]
pub(crate) fn build(
    alloc: Global,
    head: ArrayHead,
    buffers: BufferHandles,
    children: Arrays,
) -> Result<Array, EncodingError>
    requires { (x : ExtMeaning) × IsPlanned x VarBin head (places children) }
    ensures parts { (x : ExtMeaning) → IfOk result (λ t. IsBuilt x VarBin head buffers children t) }
    ensures sound { IfOk result IsSound }
    ensures err { (x : ExtMeaning) → IfErr result (λ e. RefusesBuilding e x VarBin head buffers children) }
{
    let bytes = match buffers.only_buffer() {
        Some(bytes) => bytes,
        None => return Err(EncodingError::BadShape),
    };
    let (offsets, validity) = first_and_validity(children.into_vec());
    match VarBinArray::try_new(alloc, head.dtype, offsets, bytes, validity) {
        Ok(array) => Ok(array),
        Err(e) => Err(of_constructor(e)),
    }
}

// The metadata of a node over these children, as it is written: the kind of its offsets. Children that no node has give
// some metadata, so the call needs no condition on them.
pub(crate) fn metadata(alloc: Global, children: &[Array]) -> Result<Blob, EncodingError>
    ensures ok { IfOk result (λ bytes. bytes ≡ varbin_bytes (metadata_of (places (roses_of children.now)))) }
    ensures err { IsOkUnless result EncodingError.OutOfMemory }
{
    let offsets_ptype = offsets_kind(children);
    write_message(alloc, VarBinMetadata { offsets_ptype })
}

// The kind of the offsets, or some kind where there are none.
fn offsets_kind(children: &[Array]) -> PType
    ensures { result ≡ metadata_of (places (roses_of children.now)) }
{
    match children {
        [] => PType::U8,
        [offsets, ..] => {
            match offsets.dtype() {
                DType::Primitive(kind, _) => *kind,
                _ => PType::U8,
            }
        }
    }
}
