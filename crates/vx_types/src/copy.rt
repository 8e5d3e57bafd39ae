//! Copies of the parts of types.

ghost use Rattle.std.specs.Prelude.{◌≡◌, IfOk, IsOkUnless};

use crate::dtype::DType;
use crate::error::TypeError;
use std::alloc::Global;

// Copies of the types.
#[cycle(copy)]
#[tactic(auto, using(crate::proofs::Lists::decreasing))]
pub(crate) fn copy_all(types: &[DType], alloc: Global) -> Result<Vec<DType>, TypeError>
    ensures ok { IfOk result (λ copies. copies.items ≡ types.now) }
    ensures err { IsOkUnless result TypeError.OutOfMemory }
{
    let mut copies = Vec::with_capacity(alloc, types.len())?;
    for dtype in types {
        copies.push(dtype.clone(alloc)?)?;
    }
    Ok(copies)
}
