//! How many slots a node has, by encoding.

ghost use Rattle.std.specs.Prelude.{◌≡◌, length};
ghost use Rattle.vx_types.specs.Seen.{typ};
ghost use Rattle.vx_arrays.specs.Plain.{plain_body};
ghost use Rattle.vx_arrays.specs.Slots.{slot_names};

use crate::body::Body;
use crate::slots::members_of;
use vx_types::DType;

// How many slots a node of this type and number of children has.
pub(crate) fn slots_of(dtype: &DType, body: &Body, count: usize) -> usize
    ensures { result ≡ length (slot_names (typ dtype.now) (plain_body body.now) count) }
{
    match body {
        Body::Foreign(_) => count,
        Body::Null => 0,
        Body::Bool(_) | Body::Primitive(_) | Body::Decimal(_) | Body::VarBinView(_) => 1,
        Body::Ext => 1,
        Body::List => 3,
        Body::ListView(_) => 4,
        Body::Map => 1,
        Body::VarBin(_) | Body::FixedSizeList => 2,
        Body::Dict(_) | Body::Variant => 2,
        Body::Struct | Body::Union => match members_of(dtype) {
            Some(names) => names.as_slice().len() + 1,
            None => 1,
        },
    }
}
