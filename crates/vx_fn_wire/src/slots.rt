//! Slots of the messages of functions.

ghost use Rattle.std.specs.Prelude.{◌≡◌, IfOk, IsOkUnless};
ghost use Rattle.vx_proto.specs.Value.{entries_view};
ghost use Rattle.vx_proto.specs.Value.{one_octets};

use std::alloc::Global;
use vx_proto::{Entries, ProtoError, copied, one};

/// The slot of a text or of bytes, which are copied. The only refusal is `OutOfMemory`.
pub fn octets_slot(alloc: Global, number: u32, bytes: &[u8]) -> Result<Entries, ProtoError>
    ensures same { IfOk result (λ es. entries_view es.items ≡ one_octets number bytes.now) }
    ensures err { IsOkUnless result ProtoError.OutOfMemory }
{
    let element = copied(alloc, bytes)?;
    one(alloc, number, element)
}
