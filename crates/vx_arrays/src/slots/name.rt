//! The name of a slot, by encoding.

ghost use Rattle.std.specs.Prelude.{◌≡◌, ◌<◌, length, slice_get, Some};
ghost use Rattle.vx_types.specs.Seen.{typ};
ghost use Rattle.vx_arrays.specs.Plain.{plain_body};
ghost use Rattle.vx_arrays.specs.Slots.{native_slots};

use crate::body::Body;
use crate::slots::member_of;
use vx_types::DType;

// The name of the slot of a node of this type, where its encoding is known.
pub(crate) fn slot_of<'a>(dtype: &'a DType, body: &Body, index: usize) -> &'a str
    requires { index < length (native_slots (typ dtype.now) (plain_body body.now)) }
    ensures { slice_get (native_slots (typ dtype.now) (plain_body body.now)) index ≡ Some result.now }
{
    match body {
        Body::Null | Body::Foreign(_) => unreachable!(),
        Body::Bool(_) | Body::Primitive(_) | Body::Decimal(_) | Body::VarBinView(_) => "validity",
        Body::Ext => "storage",
        Body::List => match index {
            0 => "elements",
            1 => "offsets",
            _ => "validity",
        },
        Body::Dict(_) => { if index == 0 { "codes" } else { "values" } }
        Body::Variant => {
            if index == 0 {
                "core_storage"
            } else {
                "shredded"
            }
        }
        Body::ListView(_) => match index {
            0 => "elements",
            1 => "offsets",
            2 => "sizes",
            _ => "validity",
        },
        Body::Map => "entries",
        Body::VarBin(_) => { if index == 0 { "offsets" } else { "validity" } }
        Body::FixedSizeList => { if index == 0 { "elements" } else { "validity" } }
        Body::Struct => {
            if index == 0 {
                "validity"
            } else {
                member_of(dtype, index - 1)
            }
        }
        Body::Union => {
            if index == 0 {
                "type_ids"
            } else {
                member_of(dtype, index - 1)
            }
        }
    }
}
