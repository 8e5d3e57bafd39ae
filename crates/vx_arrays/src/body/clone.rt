//! Copies of what a node of each encoding holds.

ghost use Rattle.std.specs.Prelude.{◌≡◌, IfOk, IsOkUnless};

use crate::body::Body;
use std::alloc::Global;
use vx_rows::ArrayError;

impl Body {
    // A copy that shares the buffers' bytes.
    pub(crate) fn clone(&self, alloc: Global) -> Result<Body, ArrayError>
        ensures ok { IfOk result (λ body. body ≡ self.now) }
        ensures err { IsOkUnless result ArrayError.OutOfMemory }
    {
        match self {
            Body::Null => Ok(Body::Null),
            Body::Primitive(numbers) => Ok(Body::Primitive(numbers.clone(alloc)?)),
            Body::Bool(flags) => Ok(Body::Bool(flags.clone(alloc)?)),
            Body::Decimal(decimals) => Ok(Body::Decimal(decimals.clone(alloc)?)),
            Body::VarBin(parts) => Ok(Body::VarBin(parts.clone(alloc)?)),
            Body::VarBinView(views) => Ok(Body::VarBinView(views.clone(alloc)?)),
            Body::FixedSizeList => Ok(Body::FixedSizeList),
            Body::Struct => Ok(Body::Struct),
            Body::Ext => Ok(Body::Ext),
            Body::List => Ok(Body::List),
            Body::Union => Ok(Body::Union),
            Body::Dict(flag) => Ok(Body::Dict(flag.clone())),
            Body::ListView(views) => Ok(Body::ListView(views.again())),
            Body::Map => Ok(Body::Map),
            Body::Variant => Ok(Body::Variant),
            Body::Foreign(foreign) => Ok(Body::Foreign(foreign.clone(alloc)?)),
        }
    }
}
