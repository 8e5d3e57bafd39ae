//! Reading a blob.

ghost use Rattle.std.specs.Prelude.{◌≡◌, IfOk, IfErr, OnOk};
ghost use Rattle.vx_flat.specs.Limits.{limits_to};
ghost use Rattle.vx_types.specs.Seen.{typ};
ghost use Rattle.vx_array_tree.specs.Tree.{Tree};
ghost use Rattle.vx_wire_tree.specs.Session.{IsPaired};
ghost use Rattle.vx_registry.specs.Meaning.{session_meaning};
ghost use Rattle.vx_serialized.specs.Carried.{IsWithinLimits, RefusesBlob};
ghost use Rattle.vx_serde.specs.Spells.{Spells};

use std::alloc::Global;
use vx_arrays::Array;
use vx_buffer::ByteBuffer;
use vx_registry::{ReadContext, VortexSession};
use vx_serialized::{SerializedArray, WireError};
use vx_types::DType;

/// Reads the array of this type and length that a blob spells.
///
/// The nodes of the blob are numbered in `read_ids`. `deep` allows 128 tables to nest in its message instead of 64. The
/// array's buffers are slices of the blob: no byte of them is copied.
///
/// # Errors
/// `TooShort`, `BadTable`, `TableLimit`, `BadAlignment`, `Compressed` and `OutOfBounds` where the blob has that fault;
/// `OutOfBounds` also where a node names a buffer that is not there. `UnknownIndex`, `UnknownEncoding`, `BadMetadata`,
/// `BadShape`, `BadContent`, `ForeignControl`, `BadStats` and `PluginRefused` where a node has that fault. Where several
/// have a cause, any of them may be answered.
pub fn read_blob(
    alloc: Global,
    blob: ByteBuffer,
    dtype: &DType,
    len: usize,
    read_ids: &ReadContext,
    session: &VortexSession,
    deep: bool,
) -> Result<Array, WireError>
    // The blob spells the array, whatever encodings and plugins read it,
    ensures spelled { let s = session_meaning (λ b. means (b.vtable, b.value)) (λ b. accepted (b.vtable, b.value)) session.now in
        IfOk result (Spells blob.bytes read_ids.now (typ dtype.now) len s) }
    // and keeps the limits on reading.
    ensures within_limits { OnOk result (IsWithinLimits (limits_to deep) blob.bytes) }
    // It spells no other array,
    ensures the_one { let s = session_meaning (λ b. means (b.vtable, b.value)) (λ b. accepted (b.vtable, b.value)) session.now in
        let IsSpelled = Spells blob.bytes read_ids.now (typ dtype.now) len s in
        IfOk result (λ t. (other : Tree) → IsSpelled other → other ≡ t) }
    // and where it spells one within the limits, that is read, unless allocation fails.
    ensures complete { let s = session_meaning (λ b. means (b.vtable, b.value)) (λ b. accepted (b.vtable, b.value)) session.now in
        let IsSpelled = Spells blob.bytes read_ids.now (typ dtype.now) len s in
        IsWithinLimits (limits_to deep) blob.bytes → (t : Tree) → IsSpelled t
        → IfOk result (λ u. u ≡ t) × IfErr result (λ e. e ≡ WireError.OutOfMemory) }
    // The session pairs each identifier with a writer, so that what is read can be written.
    ensures paired { let s = session_meaning (λ b. means (b.vtable, b.value)) (λ b. accepted (b.vtable, b.value)) session.now in
        OnOk result (IsPaired s) }
    // Each refusal has its cause.
    ensures cause { let s = session_meaning (λ b. means (b.vtable, b.value)) (λ b. accepted (b.vtable, b.value)) session.now in
        IfErr result (λ e.
        RefusesBlob (limits_to deep) s e blob.bytes read_ids.now (typ dtype.now) len) }
{
    let serialized = SerializedArray::try_from_buffer_to(alloc, blob, deep)?;
    serialized.decode(alloc, dtype, len, read_ids, session)
}
