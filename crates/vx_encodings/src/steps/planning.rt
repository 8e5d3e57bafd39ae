//! The plan of a node's children, asked of each encoding.

ghost use Rattle.std.specs.Prelude.{IfOk, IfErr};
ghost use Rattle.vx_type_wire.specs.Session.{ext_meaning};
ghost use Rattle.vx_encodings.specs.Steps.{IsPlanned, RefusesPlanning};

use crate::encoding::Encoding;
use crate::encodings;
use std::alloc::Global;
use vx_plans::{ArrayHead, ChildPlans, EncodingError};
use vx_type_wire::ExtSession;

// The plan that the encoding's file makes.
pub(crate) fn plan_by(
    alloc: Global,
    encoding: Encoding,
    head: &ArrayHead,
    readers: &ExtSession,
) -> Result<ChildPlans, EncodingError>
    ensures plan { let x = ext_meaning (λ b. accepted (b.vtable, b.value)) readers.now in
        IfOk result (λ plans. IsPlanned x encoding head.now plans) }
    ensures err { let x = ext_meaning (λ b. accepted (b.vtable, b.value)) readers.now in
        IfErr result (λ e. RefusesPlanning e x encoding head.now) }
{
    match encoding {
        Encoding::Null => encodings::null::plan(alloc, head),
        Encoding::Bool => encodings::bool::plan(alloc, head),
        Encoding::Primitive => encodings::primitive::plan(alloc, head),
        Encoding::Decimal => encodings::decimal::plan(alloc, head),
        Encoding::VarBin => encodings::varbin::plan(alloc, head),
        Encoding::VarBinView => encodings::varbinview::plan(alloc, head),
        Encoding::Dict => encodings::dict::plan(alloc, head),
        Encoding::FixedSizeList => encodings::fixed_size_list::plan(alloc, head),
        Encoding::Struct => encodings::structs::plan(alloc, head),
        Encoding::Extension => encodings::extension::plan(alloc, head),
        Encoding::List => encodings::lists::plan(alloc, head),
        Encoding::ListView => encodings::list_view::plan(alloc, head),
        Encoding::Map => encodings::map::plan(alloc, head),
        Encoding::Union => encodings::union::plan(alloc, head),
        Encoding::Variant => encodings::variant::plan(alloc, head, readers),
    }
}
