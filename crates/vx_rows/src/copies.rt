//! Copies that fail by allocation failure alone, as an `ArrayError`. Each is a call of its own, so that its clause names
//! the one error, which a `?` at the caller would leave open.

ghost use Rattle.std.specs.Prelude.{◌≡◌, IfOk, IsOkUnless};

use crate::error::ArrayError;
use std::alloc::Global;
use vx_types::{Blob, DType, Name, or_memory};

/// An owned text.
pub fn owned_text(alloc: Global, text: &str) -> Result<Name, ArrayError>
    ensures ok { IfOk result (λ name. name ≡ text.now) }
    ensures err { IsOkUnless result ArrayError.OutOfMemory }
{
    Ok(or_memory(Name::new(alloc, text))?)
}

/// Owned bytes.
pub fn owned_bytes(alloc: Global, bytes: &[u8]) -> Result<Blob, ArrayError>
    ensures ok { IfOk result (λ blob. blob ≡ bytes.now) }
    ensures err { IsOkUnless result ArrayError.OutOfMemory }
{
    Ok(or_memory(Blob::copy_from(alloc, bytes))?)
}

/// A copy of a type.
pub fn copied_type(alloc: Global, dtype: &DType) -> Result<DType, ArrayError>
    ensures ok { IfOk result (λ copy. copy ≡ dtype.now) }
    ensures err { IsOkUnless result ArrayError.OutOfMemory }
{
    Ok(or_memory(dtype.clone(alloc))?)
}
