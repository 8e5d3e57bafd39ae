//! Nodes of decimals: the width of their integers as metadata, the integers in one buffer, and an optional validity
//! child.

ghost use Rattle.std.specs.Prelude.{◌≡◌, IfOk, IfErr, IsOkUnless, refl};
ghost use Rattle.std.proofs.Common.{arith, ap};
ghost use Rattle.vx_types.specs.Known.{ExtMeaning};
ghost use Rattle.vx_array_tree.specs.Sound.{IsSound};
ghost use Rattle.vx_array_tree.specs.Tree.{places};
ghost use Rattle.vx_encodings.specs.DecimalMessage.{decimal_schema, decimal_value, decimal_bytes, same_width};
ghost use Rattle.vx_encodings.specs.Steps.{IsPlanned, RefusesPlanning, IsBuilt, RefusesBuilding};
ghost use Rattle.vx_encodings.specs.declared.encoding.Encoding.TheVariants.{Decimal};

use crate::error::of_constructor;
use crate::messages::{read_message, write_message};
use crate::validity::only_validity;
use std::alloc::Global;
use vx_arrays::{Array, Arrays, DecimalArray, DecimalData};
use vx_buffer::BufferHandles;
use vx_plans::{ArrayHead, ChildPlans, EncodingError, plan_validity};
use vx_proto::{Element, Entries, Message, ProtoError, ScalarKind, Schema, Slot, one, u8_at};
use vx_types::{Blob, DType, DecimalDType, DecimalType};

/// The metadata of decimals.
#[derive(Debug, Drop)]
pub struct DecimalMetadata {
    /// The width of each unscaled integer.
    pub values_type: DecimalType,
}

const SCHEMA: Schema = Schema {
    messages: &[&[Slot::Plain(1, ScalarKind::Enum(6))]],
};

impl Message for DecimalMetadata {
    ghost schema = { decimal_schema };

    ghost place = { 0 };

    ghost value = { λ m. decimal_value m.values_type };

    fn lists() -> Schema {
        SCHEMA
    }

    fn schema_place() -> u32 {
        0
    }

    fn default(_alloc: Global) -> DecimalMetadata {
        DecimalMetadata {
            values_type: DecimalType::I8,
        }
    }

    fn from_value(_alloc: Global, slots: Vec<Entries>) -> Result<DecimalMetadata, ProtoError> {
        let code = u8_at(&slots, 0);
        match DecimalType::from_code(code) {
            Some(values_type) => Ok(DecimalMetadata { values_type }),
            None => unreachable!(),
        }
    }

    fn to_value(&self, alloc: Global) -> Result<Vec<Entries>, ProtoError> {
        let code = self.values_type.code();
        let width = one(alloc, 1, Element::Number(code as u64))?;
        Ok(vec![in alloc; width]?)
    }

    ghost lawful = { refl };

    ghost placed = { Prim.omega arith };

    ghost determined = { λ m n p q e. ap (λ w. record { values_type = w }) (same_width m.values_type n.values_type e) };
}

// The plan of a decimal node's children: at most a validity.
#[tactic(auto, using(crate::proofs::DecimalSteps::decimal_steps))]
pub(crate) fn plan(alloc: Global, head: &ArrayHead) -> Result<ChildPlans, EncodingError>
    ensures plan { (x : ExtMeaning) → IfOk result (λ plans. IsPlanned x Decimal head.now plans) }
    ensures err { (x : ExtMeaning) → IfErr result (λ e. RefusesPlanning e x Decimal head.now) }
{
    // Read for its refusals alone: the plan does not depend on the width, but metadata is judged before the shape.
    let _metadata: DecimalMetadata = read_message(alloc, head.metadata.as_slice())?;
    match head.dtype {
        DType::Decimal(_, _) => {}
        _ => return Err(EncodingError::BadShape),
    }
    plan_validity(alloc, head.len, head.nchildren)
}

// A copy of the digits, made anew: their constructor says that they fit.
fn same_digits(digits: &DecimalDType) -> DecimalDType
    ensures { result ≡ digits.now }
{
    match DecimalDType::try_new(digits.precision(), digits.scale()) {
        Ok(same) => same,
        Err(_) => unreachable!(),
    }
}

// The node of decimals of these parts.
#[tactic(auto, using(crate::proofs::DecimalSteps::decimal_steps))]
pub(crate) fn build(
    alloc: Global,
    head: ArrayHead,
    buffers: BufferHandles,
    children: Arrays,
) -> Result<Array, EncodingError>
    requires { (x : ExtMeaning) × IsPlanned x Decimal head (places children) }
    ensures parts { (x : ExtMeaning) → IfOk result (λ t. IsBuilt x Decimal head buffers children t) }
    ensures sound { IfOk result IsSound }
    ensures err { (x : ExtMeaning) → IfErr result (λ e. RefusesBuilding e x Decimal head buffers children) }
{
    let metadata: DecimalMetadata = read_message(alloc, head.metadata.as_slice())?;
    match &head.dtype {
        DType::Decimal(digits, nullability) => {
            let values = match buffers.only_buffer() {
                Some(values) => values,
                None => return Err(EncodingError::BadShape),
            };
            let validity = only_validity(children.into_vec());
            match DecimalArray::try_new(
                alloc,
                values,
                metadata.values_type,
                same_digits(digits),
                *nullability,
                head.len,
                validity,
            ) {
                Ok(array) => Ok(array),
                Err(e) => Err(of_constructor(e)),
            }
        }
        _ => unreachable!(),
    }
}

// The metadata of a node of decimals, as it is written.
pub(crate) fn metadata(alloc: Global, decimals: &DecimalData) -> Result<Blob, EncodingError>
    ensures ok { IfOk result (λ bytes. bytes ≡ decimal_bytes decimals.now.values_type) }
    ensures err { IsOkUnless result EncodingError.OutOfMemory }
{
    let values_type = decimals.values_type();
    write_message(alloc, DecimalMetadata { values_type })
}
