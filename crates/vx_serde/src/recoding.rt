//! Reading a blob and writing its array again.

ghost use Rattle.std.specs.Prelude.{◌≡◌, IfOk, IfErr};
ghost use Rattle.vx_wire_tree.specs.Session.{IsShipped};
ghost use Rattle.vx_registry.specs.Meaning.{session_meaning};
ghost use Rattle.vx_serde.specs.Request.{CanRecode, request};
ghost use Rattle.vx_serde.specs.Recoding.{IsFaithful, IsRecoded, LeavesContext, product};
ghost use Rattle.vx_serde.specs.Causes.{Refuses};
ghost use Rattle.vx_serialized.specs.Errors.{IsOfReading};

use crate::options::SerializeOptions;
use crate::reading::read_blob;
use crate::serializing::ArrayExt;
use std::alloc::Global;
use vx_arrays::Array;
use vx_buffer::{ByteBuffer, ByteBuffers};
use vx_registry::{ArrayContext, ReadContext, VortexSession};
use vx_serialized::WireError;
use vx_types::DType;

/// An array that was read from a blob, and the blob that is written for it.
#[derive(Drop)]
pub struct Recoded {
    /// The array.
    pub array: Array,
    /// The buffers of its blob: written one after the other, they are the blob. The first is empty and has the greatest
    /// alignment of the array's buffers, at least 8 bytes, so that a writer knows how the blob is to be placed before
    /// any byte. The others have no alignment. They are each pad that is not empty, each data buffer, the message and
    /// its length.
    pub buffers: ByteBuffers,
}

/// Reads the array of this type and length that a blob spells, and writes it again.
///
/// The nodes of the blob that is read are numbered in `read_ids`, those of the new one in `ctx`, which grows at its end
/// by the identifiers of the array.
///
/// # Errors
/// Each refusal has its cause in what is asked. Where several have one, any of them may be answered.
pub fn recode(
    alloc: Global,
    blob: ByteBuffer,
    dtype: &DType,
    len: usize,
    read_ids: &ReadContext,
    ctx: &mut ArrayContext,
    session: &VortexSession,
    options: &SerializeOptions,
) -> Result<Recoded, WireError>
    // What is made is the array's blob and the grown context, within the limits and aligned.
    ensures made { let s = session_meaning (λ b. means (b.vtable, b.value)) (λ b. accepted (b.vtable, b.value)) session.now in
        let asked = request blob dtype.now len read_ids.now ctx.old s options.now in
        IfOk result (λ r. IsRecoded asked (product r ctx.new)) }
    // With shipped encodings alone, the array is the one that the blob spells, the new blob spells it again, and what
    // can be done is done, unless allocation fails.
    ensures shipped { let s = session_meaning (λ b. means (b.vtable, b.value)) (λ b. accepted (b.vtable, b.value)) session.now in
        let asked = request blob dtype.now len read_ids.now ctx.old s options.now in
        IsShipped asked.session → IfOk result (λ r. IsFaithful asked (product r ctx.new))
        × (CanRecode asked → IfErr result (λ e. e ≡ WireError.OutOfMemory)) }
    // Whatever the result, the context keeps what it had, and only identifiers of the spelled array come to it.
    ensures left { let s = session_meaning (λ b. means (b.vtable, b.value)) (λ b. accepted (b.vtable, b.value)) session.now in
        let asked = request blob dtype.now len read_ids.now ctx.old s options.now in
        LeavesContext asked ctx.new }
    // A refusal of what is read leaves the context as it was.
    ensures unread { IfErr result (λ e. IsOfReading e → ctx.new ≡ ctx.old) }
    // Each refusal has its cause.
    ensures cause { let s = session_meaning (λ b. means (b.vtable, b.value)) (λ b. accepted (b.vtable, b.value)) session.now in
        let asked = request blob dtype.now len read_ids.now ctx.old s options.now in
        IfErr result (Refuses asked) }
{
    let array = read_blob(alloc, blob, dtype, len, read_ids, session, options.deep)?;
    let buffers = array.serialize(alloc, ctx, session, options)?;
    Ok(Recoded { array, buffers })
}
