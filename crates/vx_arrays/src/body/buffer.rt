//! The buffers of each encoding.

ghost use Rattle.std.specs.Prelude.{◌≡◌, ◌<◌, length, slice_get, Some};
ghost use Rattle.vx_array_tree.specs.Table.{buffers_of};
ghost use Rattle.vx_arrays.specs.Plain.{plain_body};

use crate::body::Body;
use vx_buffer::BufferHandle;

impl Body {
    /// The buffer at an index.
    pub fn buffer(&self, index: usize) -> &BufferHandle
        requires { index < length (buffers_of (plain_body self.now)) }
        ensures { slice_get (buffers_of (plain_body self.now)) index ≡ Some result.now }
    {
        match self {
            Body::Null | Body::FixedSizeList | Body::Struct | Body::Ext | Body::List => {
                unreachable!()
            }
            Body::ListView(_) | Body::Map | Body::Union | Body::Dict(_) => unreachable!(),
            Body::Variant => unreachable!(),
            Body::Primitive(numbers) => numbers.values(),
            Body::Bool(flags) => flags.bits(),
            Body::Decimal(decimals) => decimals.values(),
            Body::VarBin(parts) => parts.bytes(),
            Body::VarBinView(views) => views.buffer(index),
            Body::Foreign(foreign) => &foreign.buffers()[index],
        }
    }
}
