//! Metadata that is a tagged message.

ghost use Rattle.std.specs.Prelude.{◌≡◌, ◌≤◌, Some, IfOk, IfErr, IsOkUnless};
ghost use Rattle.vx_numbers.specs.Numbers.{code_of};
ghost use Rattle.vx_numbers.specs.declared.ptype.PType.{PType};
ghost use Rattle.vx_proto.specs.Parts.{number_in, entries_in};
ghost use Rattle.vx_proto.specs.Reads.{Reads};
ghost use Rattle.vx_proto.specs.Value.{value_view};
ghost use Rattle.vx_proto.specs.Written.{written, nested};
ghost use Rattle.vx_encodings.specs.Steps.{RefusesMetadata};

use crate::error::of_message;
use std::alloc::Global;
use vx_plans::EncodingError;
use vx_proto::{DeserializeMetadata, Entries, Message, ProstMetadata, SerializeMetadata, u8_at};
use vx_types::{Blob, PType};

// Reads metadata as the message that the bytes show.
#[tactic(auto, using(crate::proofs::Unread::unread))]
pub(crate) fn read_message<M: Message>(alloc: Global, bytes: &[u8]) -> Result<M, EncodingError>
    ensures read { IfOk result (λ m. Reads M.schema M.place bytes.now (M.value m)) }
    ensures err { IfErr result (λ e. RefusesMetadata e M.schema M.place bytes.now) }
{
    match ProstMetadata::<M>::deserialize(alloc, bytes) {
        Ok(message) => Ok(message),
        Err(e) => Err(of_message(e)),
    }
}

// Metadata that is a message, as it is written.
pub(crate) fn write_message<M: Message>(alloc: Global, message: M) -> Result<Blob, EncodingError>
    requires { nested (M.value message) ≤ 100 }
    ensures ok { IfOk result (λ bytes. bytes ≡ written M.schema M.place (M.value message)) }
    ensures err { IsOkUnless result EncodingError.OutOfMemory }
{
    match ProstMetadata(message).serialize(alloc) {
        Ok(bytes) => Ok(Blob::new(bytes.into_vec())),
        Err(_) => Err(EncodingError::OutOfMemory),
    }
}

// The kind of numbers whose code a slot holds.
pub(crate) fn kind_at(slots: &[Entries], slot: usize) -> PType
    requires { (p : PType) × (number_in (entries_in (value_view slots.now) slot) ≡ Some (code_of p)) }
    ensures { number_in (entries_in (value_view slots.now) slot) ≡ Some (code_of result) }
{
    match PType::from_code(u8_at(slots, slot)) {
        Some(kind) => kind,
        None => unreachable!(),
    }
}
