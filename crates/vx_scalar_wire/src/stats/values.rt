//! The values of a set of statistics as bytes.

ghost use Rattle.std.specs.Prelude.{◌≡◌, IfOk, IfErr, OnOk};
ghost use Rattle.vx_scalars.specs.Places.{borrowed};
ghost use Rattle.vx_scalars.specs.Stats.{told as told_of};
ghost use Rattle.vx_scalar_wire.specs.StatsBlocks.{stored_field};
ghost use Rattle.vx_scalars.specs.WrittenStats.{written_sum};
ghost use Rattle.vx_scalar_wire.specs.StatsTable.{IsStorable, value_field};
ghost use Rattle.vx_scalar_wire.specs.StatsUnwritten.{IsWritableTold, RefusesWritingTold};

use crate::error::ScalarWireError;
use crate::messages::ScalarValueExt;
use crate::nans::canonical_nan_sum;
use std::alloc::Global;
use vx_scalars::{Precision, ScalarValue};
use vx_types::Blob;

/// The bytes of a statistic's value, exact or a bound.
pub fn value_bytes(
    alloc: Global,
    told: Precision<&ScalarValue>,
) -> Result<Option<Blob>, ScalarWireError>
    ensures written { IfOk result (λ b. stored_field b ≡ value_field (told_of (borrowed told.entry))) }
    ensures writable { OnOk result (IsWritableTold (told_of (borrowed told.entry))) }
    ensures storable { OnOk result (IsStorable (told_of (borrowed told.entry))) }
    ensures cause { IfErr result (λ e. RefusesWritingTold e (told_of (borrowed told.entry))) }
{
    match told {
        Precision::Exact(value) | Precision::Inexact(value) => {
            let bytes = ScalarValue::to_proto_bytes(alloc, Some(value))?;
            let _count = bytes.len();
            Ok(Some(bytes))
        }
        Precision::Absent => Ok(None),
    }
}

/// The bytes of an exact sum. A NaN becomes the canonical one of its width.
pub fn sum_bytes(
    alloc: Global,
    told: Precision<&ScalarValue>,
) -> Result<Option<Blob>, ScalarWireError>
    ensures written { IfOk result (λ b. stored_field b ≡ value_field (written_sum (told_of (borrowed told.entry)))) }
    ensures writable { OnOk result (IsWritableTold (written_sum (told_of (borrowed told.entry)))) }
    ensures storable { OnOk result (IsStorable (written_sum (told_of (borrowed told.entry)))) }
    ensures cause { IfErr result (λ e. RefusesWritingTold e (written_sum (told_of (borrowed told.entry)))) }
{
    let Precision::Exact(value) = told else {
        return Ok(None);
    };
    match value {
        ScalarValue::Primitive(number) => {
            let sum = ScalarValue::Primitive(canonical_nan_sum(*number));
            value_bytes(alloc, Precision::Exact(&sum))
        }
        _ => value_bytes(alloc, Precision::Exact(value)),
    }
}
