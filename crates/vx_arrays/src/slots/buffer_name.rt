//! The name of a buffer, by encoding.

ghost use Rattle.std.specs.Prelude.{◌≡◌, ◌∷◌, [], slice_get, IfOk, IsOkUnless};
ghost use Rattle.vx_trees.specs.Rose.{label};
ghost use Rattle.vx_arrays.specs.Slots.{buffer_names};

use crate::array::Array;
use crate::body::Body;
use crate::slots::numbered;
use std::alloc::Global;
use vx_rows::{ArrayError, owned_text};
use vx_types::Name;

impl Array {
    /// The name of the root's buffer at an index; `None` exactly past the last.
    pub fn buffer_name(&self, alloc: Global, index: usize) -> Result<Option<Name>, ArrayError>
        ensures ok { IfOk result (λ name. name ≡ slice_get (buffer_names (label self.now).body) index) }
        ensures err { IsOkUnless result ArrayError.OutOfMemory }
    {
        match self.body() {
            Body::Null | Body::FixedSizeList | Body::Struct | Body::Ext | Body::List => Ok(None),
            Body::ListView(_) | Body::Map | Body::Union | Body::Dict(_) => Ok(None),
            Body::Variant => Ok(None),
            Body::Bool(_) => only_name(alloc, "bits", index),
            Body::Primitive(_) | Body::Decimal(_) => only_name(alloc, "values", index),
            Body::VarBin(_) => only_name(alloc, "bytes", index),
            Body::VarBinView(views) => views.buffer_name(alloc, index),
            Body::Foreign(foreign) => {
                if index < foreign.buffers().len() {
                    Ok(Some(numbered(alloc, "buffer", index)?))
                } else {
                    Ok(None)
                }
            }
        }
    }
}

// The name of the buffer at an index in a node that has one buffer.
fn only_name(alloc: Global, name: &'static str, index: usize) -> Result<Option<Name>, ArrayError>
    ensures ok { IfOk result (λ told. told ≡ slice_get (name.now ∷ []) index) }
    ensures err { IsOkUnless result ArrayError.OutOfMemory }
{
    if index > 0 {
        return Ok(None);
    }
    Ok(Some(owned_text(alloc, name)?))
}
