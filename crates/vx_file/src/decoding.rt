//! Decoding the blob of a column.

ghost use Rattle.std.specs.Prelude.{◌≡◌, false, IfOk, IfErr, MatchResult};
ghost use Rattle.vx_flat.specs.Limits.{limits_to};
ghost use Rattle.vx_types.specs.Seen.{typ};
ghost use Rattle.vx_array_tree.specs.Tree.{Tree};
ghost use Rattle.vx_wire_tree.specs.Session.{IsShipped};
ghost use Rattle.vx_registry.specs.Meaning.{session_meaning};
ghost use Rattle.vx_serialized.specs.Carried.{RefusesBlob};
ghost use Rattle.vx_file.specs.Spells.{SpellsColumn};

use std::alloc::Global;
use vx_arrays::Array;
use vx_buffer::ByteBuffer;
use vx_registry::{ReadContext, VortexSession};
use vx_serde::{WireError, read_blob};
use vx_types::{Blob, DType};

/// The array of this type and so many rows that a blob spells.
///
/// # Errors
/// As `read_blob`, without deep trees.
pub(crate) fn decode_blob(
    alloc: Global,
    blob: Blob,
    dtype: &DType,
    rows: u64,
    ids: &ReadContext,
    session: &VortexSession,
) -> Result<Array, WireError>
    ensures spelled { let s = session_meaning (λ b. means (b.vtable, b.value)) (λ b. accepted (b.vtable, b.value)) session.now in
        IfOk result (SpellsColumn blob ids.now (typ dtype.now) rows s) }
    ensures cause { let s = session_meaning (λ b. means (b.vtable, b.value)) (λ b. accepted (b.vtable, b.value)) session.now in
        IfErr result (λ e. RefusesBlob (limits_to false) s e blob ids.now (typ dtype.now) rows) }
    // With shipped encodings alone, the array that the blob spells is answered, or an allocation fails.
    ensures complete { let s = session_meaning (λ b. means (b.vtable, b.value)) (λ b. accepted (b.vtable, b.value)) session.now in
        IsShipped s → (t : Tree) → SpellsColumn blob ids.now (typ dtype.now) rows s t → MatchResult result (λ u. u ≡ t) (λ e. e ≡ WireError.OutOfMemory) }
{
    let buffer = match ByteBuffer::from_vec(blob.into_vec()) {
        Ok(buffer) => buffer,
        Err(_) => return Err(WireError::OutOfMemory),
    };
    match read_blob(alloc, buffer, dtype, rows as usize, ids, session, false) {
        Ok(array) => Ok(array),
        Err(e) => Err(e),
    }
}
