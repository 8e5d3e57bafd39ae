//! Writing an array as a blob.

ghost use Rattle.std.specs.Prelude.{◌≡◌, IfOk, IfErr};
ghost use Rattle.vx_wire_tree.specs.ReadBack.{IsWritten};
ghost use Rattle.vx_wire_tree.specs.Session.{IsShipped};
ghost use Rattle.vx_wire_tree.specs.Wire.{ids_in};
ghost use Rattle.vx_wire_tree.specs.Written.{wire};
ghost use Rattle.vx_encodings.specs.Messages.{codec};
ghost use Rattle.vx_registry.specs.Meaning.{session_meaning};
ghost use Rattle.vx_serde.specs.Causes.{RefusesArray, RefusesWriting};
ghost use Rattle.vx_serde.specs.KeptContext.{KeepsContext};
ghost use Rattle.vx_serde.specs.Serializing.{IsSerialized, ReturnsWhole, IsSpelledAgain, IsReadAgain, IsSpelledBack};
ghost use Rattle.vx_serde.specs.Taking.{as_written};

use crate::options::SerializeOptions;
use crate::writing::write_array;
use std::alloc::Global;
use vx_arrays::Array;
use vx_buffer::ByteBuffers;
use vx_registry::{ArrayContext, VortexSession};
use vx_serialized::WireError;

/// Writing an array as a blob.
pub trait ArrayExt {
    /// Writes the array. The buffers, one after the other, are its blob. The first of them is empty and only has the
    /// alignment that the blob needs.
    fn serialize(
        &self,
        alloc: Global,
        ctx: &mut ArrayContext,
        session: &VortexSession,
        options: &SerializeOptions,
    ) -> Result<ByteBuffers, WireError>;
}

impl ArrayExt for Array {
    /// Writes the array. The buffers, one after the other, are its blob. The first is empty and has the greatest
    /// alignment of the array's buffers, at least 8 bytes, so that a writer knows how the blob is to be placed before
    /// any byte. The others have no alignment. They are each pad that is not empty, each data buffer, the message and
    /// its length. The nodes are numbered in `ctx`, which grows at its end by the identifiers of the array.
    ///
    /// # Errors
    /// `NotPermitted` where the context does not take an identifier, `WireLimit` where the array passes a limit on
    /// writing, and `NotRegistered` where nothing writes the arrays of a node's encoding, or a node is foreign and the
    /// session does not allow such nodes; `NotSerializable`, `UndeclaredId` and `PluginRefused` where the plugin that
    /// writes a node has no form for it, names an identifier that it does not declare, or refuses it. After each of
    /// them the context keeps what it had, and may have taken identifiers of the array as it is written.
    fn serialize(
        &self,
        alloc: Global,
        ctx: &mut ArrayContext,
        session: &VortexSession,
        options: &SerializeOptions,
    ) -> Result<ByteBuffers, WireError>
        ensures made { let s = session_meaning (λ b. means (b.vtable, b.value)) (λ b. accepted (b.vtable, b.value)) session.now in IfOk result (λ buffers. IsSerialized s self.now options.now ctx.old ctx.new buffers) }
        // What is written of an array that returns is read again as that array and as no other, whatever encodings and
        // plugins wrote.
        ensures returned { let s = session_meaning (λ b. means (b.vtable, b.value)) (λ b. accepted (b.vtable, b.value)) session.now in
            IfOk result (λ buffers. ReturnsWhole s options.now self.now → IsSpelledAgain s self.now ctx.new buffers) }
        // With shipped encodings alone, what is written of an array spells what is read back of it.
        ensures read_back { let s = session_meaning (λ b. means (b.vtable, b.value)) (λ b. accepted (b.vtable, b.value)) session.now in
            IsShipped s → IfOk result (λ buffers. IsReadAgain s self.now → IsSpelledBack s self.now ctx.new buffers) }
        // With shipped encodings alone, the array is written as it stands.
        ensures unchanged { let s = session_meaning (λ b. means (b.vtable, b.value)) (λ b. accepted (b.vtable, b.value)) session.now in
            IsShipped s → IfOk result (λ _. as_written s options.now self.now ≡ self.now) }
        ensures left { let s = session_meaning (λ b. means (b.vtable, b.value)) (λ b. accepted (b.vtable, b.value)) session.now in KeepsContext (ids_in (wire codec s (as_written s options.now self.now))) ctx.old ctx.new }
        // With shipped encodings alone, these are identifiers of the array itself.
        ensures own { let s = session_meaning (λ b. means (b.vtable, b.value)) (λ b. accepted (b.vtable, b.value)) session.now in IsShipped s → KeepsContext (ids_in (wire codec s self.now)) ctx.old ctx.new }
        ensures cause { let s = session_meaning (λ b. means (b.vtable, b.value)) (λ b. accepted (b.vtable, b.value)) session.now in IfErr result (RefusesArray s self.now ctx.old options.now) }
        // With shipped encodings alone, where each node has a writer, the array itself has no blob.
        ensures cause_own { let s = session_meaning (λ b. means (b.vtable, b.value)) (λ b. accepted (b.vtable, b.value)) session.now in
            IsShipped s → IsWritten s self.now → IfErr result (RefusesWriting s self.now ctx.old options.now) }
    {
        let unknown = session.allows_unknown();
        write_array(alloc, self, &session.arrays, unknown, ctx, options)
    }
}
