//! Identifiers made of texts.

ghost use Rattle.std.specs.Prelude.{◌≡◌, IfOk, IsOkUnless};

use crate::error::RegistryError;
use std::alloc::Global;
use vx_types::{Id, or_memory};

/// The identifier of this text. The only refusal is `OutOfMemory`.
pub(crate) fn named(alloc: Global, text: &str) -> Result<Id, RegistryError>
    ensures ok { IfOk result (λ id. id ≡ text.now) }
    ensures err { IsOkUnless result RegistryError.OutOfMemory }
{
    Ok(or_memory(Id::new(alloc, text))?)
}
