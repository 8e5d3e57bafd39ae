//! The bytes of a node's metadata, asked of each encoding.

ghost use Rattle.std.specs.Prelude.{◌≡◌, IfOk, IsOkUnless};
ghost use Rattle.vx_trees.specs.Rose.{label, below};
ghost use Rattle.vx_array_tree.specs.Sound.{metadata_in};
ghost use Rattle.vx_wire_tree.specs.Fields.{told};
ghost use Rattle.vx_wire_tree.specs.Limits.{HasMessage};
ghost use Rattle.vx_encodings.specs.Messages.{message_bytes};

use crate::empty_metadata::write_empty;
use crate::encodings;
use std::alloc::Global;
use vx_arrays::{Array, Body, ForeignData};
use vx_plans::EncodingError;
use vx_types::{Blob, or_memory};

// The bytes of metadata that fits its message.
#[tactic(auto, using(crate::proofs::Kept::kept, crate::proofs::DictWritten::values_counted, crate::proofs::VariantFields::typed_fit))]
pub(crate) fn metadata_by(alloc: Global, array: &Array) -> Result<Blob, EncodingError>
    requires { HasMessage (label array.now) (below array.now) }
    ensures ok { IfOk result (λ bytes. bytes ≡ message_bytes (told (metadata_in (label array.now) (below array.now)))) }
    ensures err { IsOkUnless result EncodingError.OutOfMemory }
{
    match array.body() {
        Body::Null => Ok(write_empty(alloc)),
        Body::Bool(flags) => encodings::bool::metadata(alloc, flags),
        Body::Primitive(_) => Ok(write_empty(alloc)),
        Body::Decimal(decimals) => encodings::decimal::metadata(alloc, decimals),
        Body::VarBin(_) => encodings::varbin::metadata(alloc, array.children()),
        Body::VarBinView(_) => Ok(write_empty(alloc)),
        Body::Dict(data) => encodings::dict::metadata(alloc, data, array.children()),
        Body::FixedSizeList => Ok(write_empty(alloc)),
        Body::Struct => Ok(write_empty(alloc)),
        Body::Ext => Ok(write_empty(alloc)),
        Body::List => encodings::lists::metadata(alloc, array.children()),
        Body::ListView(_) => encodings::list_view::metadata(alloc, array.children()),
        Body::Map => Ok(write_empty(alloc)),
        Body::Union => Ok(write_empty(alloc)),
        Body::Variant => encodings::variant::metadata(alloc, array.children()),
        Body::Foreign(kept) => kept_bytes(alloc, kept),
    }
}

// A copy of the bytes that a foreign node keeps as metadata.
fn kept_bytes(alloc: Global, kept: &ForeignData) -> Result<Blob, EncodingError>
    ensures ok { IfOk result (λ bytes. bytes ≡ kept.now.metadata) }
    ensures err { IsOkUnless result EncodingError.OutOfMemory }
{
    Ok(or_memory(kept.metadata().clone(alloc))?)
}
