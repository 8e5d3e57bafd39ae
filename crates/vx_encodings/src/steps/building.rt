//! Building a node of its parts, asked of each encoding.

ghost use Rattle.std.specs.Prelude.{IfOk, IfErr};
ghost use Rattle.vx_type_wire.specs.Session.{ext_meaning};
ghost use Rattle.vx_array_tree.specs.Sound.{IsSound};
ghost use Rattle.vx_array_tree.specs.Tree.{places};
ghost use Rattle.vx_encodings.specs.Steps.{IsPlanned, IsBuilt, RefusesBuilding};

use crate::encoding::Encoding;
use crate::encodings;
use std::alloc::Global;
use vx_arrays::{Array, Arrays};
use vx_buffer::BufferHandles;
use vx_plans::{ArrayHead, EncodingError};
use vx_type_wire::ExtSession;

// The node that the encoding's file builds.
pub(crate) fn build_by(
    alloc: Global,
    encoding: Encoding,
    head: ArrayHead,
    buffers: BufferHandles,
    children: Arrays,
    _readers: &ExtSession,
) -> Result<Array, EncodingError>
    requires { let x = ext_meaning (λ b. accepted (b.vtable, b.value)) _readers.now in
        IsPlanned x encoding head (places children) }
    ensures parts { let x = ext_meaning (λ b. accepted (b.vtable, b.value)) _readers.now in
        IfOk result (λ t. IsBuilt x encoding head buffers children t) }
    ensures sound { IfOk result IsSound }
    ensures err { let x = ext_meaning (λ b. accepted (b.vtable, b.value)) _readers.now in
        IfErr result (λ e. RefusesBuilding e x encoding head buffers children) }
{
    match encoding {
        Encoding::Null => encodings::null::build(alloc, head, buffers, children),
        Encoding::Bool => encodings::bool::build(alloc, head, buffers, children),
        Encoding::Primitive => encodings::primitive::build(alloc, head, buffers, children),
        Encoding::Decimal => encodings::decimal::build(alloc, head, buffers, children),
        Encoding::VarBin => encodings::varbin::build(alloc, head, buffers, children),
        Encoding::VarBinView => encodings::varbinview::build(alloc, head, buffers, children),
        Encoding::Dict => encodings::dict::build(alloc, head, buffers, children),
        Encoding::FixedSizeList => encodings::fixed_size_list::build(
            alloc, head, buffers, children,
        ),
        Encoding::Struct => encodings::structs::build(head, buffers, children),
        Encoding::Extension => encodings::extension::build(head, buffers, children),
        Encoding::List => encodings::lists::build(head, buffers, children),
        Encoding::ListView => encodings::list_view::build(head, buffers, children),
        Encoding::Map => encodings::map::build(head, buffers, children),
        Encoding::Union => encodings::union::build(head, buffers, children),
        Encoding::Variant => encodings::variant::build(head, buffers, children),
    }
}
