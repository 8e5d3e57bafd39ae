//! The parts of an array's root, as they are written and as they are read.

ghost use Rattle.std.specs.Prelude.{ℕ, ◌≡◌, true, false, if◌then◌else◌, IfOk, IfErr, OnOk, IsOkUnless};
ghost use Rattle.vx_trees.specs.Rose.{label, below, roses_of};
ghost use Rattle.vx_types.specs.Seen.{typ};
ghost use Rattle.vx_array_tree.specs.Table.{own_id, buffers_of};
ghost use Rattle.vx_wire_tree.specs.Limits.{HasMessage};
ghost use Rattle.vx_wire_tree.specs.Revised.{revised_id as rows_id};
ghost use Rattle.vx_wire_tree.specs.Written.{body_id};
ghost use Rattle.vx_registry.specs.Serialization.{HasPartsOf, RefusesPartsOf, array_id};

use crate::error::RegistryError;
use crate::named::named;
use crate::tables::revised;
use std::alloc::Global;
use vx_arrays::{Array, Arrays, Body};
use vx_buffer::BufferHandles;
use vx_encodings::{EncodingError, metadata};
use vx_types::{Blob, DType, Id};

/// An array's root as it is written: the identifier of its node, the bytes of its metadata, its buffers and the arrays
/// below it.
#[derive(Drop)]
pub struct ArraySerialization {
    /// The identifier of the node.
    pub serialized_id: Id,
    /// The bytes of the metadata: its message, or for a plugin any bytes.
    pub metadata: Blob,
    /// The root's own buffers, in order.
    pub buffers: BufferHandles,
    /// The arrays below the root, in the order in which they are written.
    pub children: Arrays,
}

impl ArraySerialization {
    /// A root of these parts.
    pub fn new(
        serialized_id: Id,
        metadata: Blob,
        buffers: BufferHandles,
        children: Arrays,
    ) -> ArraySerialization
        ensures id { result.serialized_id ≡ serialized_id }
        ensures metadata { result.metadata ≡ metadata }
        ensures buffers { result.buffers ≡ buffers }
        ensures children { result.children ≡ children }
    {
        ArraySerialization {
            serialized_id,
            metadata,
            buffers,
            children,
        }
    }

    /// The parts of an array, under the identifier of its encoding; those of a foreign node as it keeps them. No
    /// buffer's bytes are copied. `WireLimit` exactly where the root's metadata does not fit its message, `OutOfMemory`
    /// where allocation fails.
    pub fn from_array(alloc: Global, array: &Array) -> Result<ArraySerialization, RegistryError>
        ensures parts { IfOk result (HasPartsOf false array.now) }
        ensures fits { OnOk result (HasMessage (label array.now) (below array.now)) }
        ensures err { IfErr result (λ e. RefusesPartsOf e array.now) }
    {
        ArraySerialization::written_as(alloc, array, false)
    }

    // The same under the identifier with which the array is written; `two` says whether primitives have two.
    pub(crate) fn written_as(
        alloc: Global,
        array: &Array,
        two: bool,
    ) -> Result<ArraySerialization, RegistryError>
        ensures parts { IfOk result (HasPartsOf two array.now) }
        ensures fits { OnOk result (HasMessage (label array.now) (below array.now)) }
        ensures err { IfErr result (λ e. RefusesPartsOf e array.now) }
    {
        let serialized_id = written_id(alloc, array, two)?;
        let metadata = match metadata(alloc, array) {
            Ok(metadata) => metadata,
            Err(EncodingError::WireLimit) => return Err(RegistryError::WireLimit),
            Err(_) => return Err(RegistryError::OutOfMemory),
        };
        let buffers = own_buffers(alloc, array)?;
        let children = copies(alloc, array.children())?;
        Ok(ArraySerialization::new(serialized_id, metadata, buffers, children))
    }

    /// A copy of the parts. No buffer's bytes are copied. The only refusal is `OutOfMemory`.
    pub fn clone(&self, alloc: Global) -> Result<ArraySerialization, RegistryError>
        ensures id { IfOk result (λ s. s.serialized_id ≡ self.now.serialized_id) }
        ensures metadata { IfOk result (λ s. s.metadata ≡ self.now.metadata) }
        ensures buffers { IfOk result (λ s. s.buffers ≡ self.now.buffers) }
        ensures children { IfOk result (λ s. s.children ≡ self.now.children) }
        ensures err { IsOkUnless result RegistryError.OutOfMemory }
    {
        let serialized_id = named(alloc, self.serialized_id.as_str())?;
        let metadata = match self.metadata.clone(alloc) {
            Ok(metadata) => metadata,
            Err(_) => return Err(RegistryError::OutOfMemory),
        };
        let buffers = match self.buffers.clone(alloc) {
            Ok(buffers) => buffers,
            Err(_) => return Err(RegistryError::OutOfMemory),
        };
        let children = copies(alloc, self.children.as_slice())?;
        Ok(ArraySerialization::new(serialized_id, metadata, buffers, children))
    }
}

/// The identifier under which an array's root is written; `two` says whether primitives have two. The only refusal is
/// `OutOfMemory`.
pub fn written_id(alloc: Global, array: &Array, two: bool) -> Result<Id, RegistryError>
    ensures ok { IfOk result (λ id. id ≡ array_id two array.now) }
    ensures err { IsOkUnless result RegistryError.OutOfMemory }
{
    if two && is_primitive(array) {
        return revised(alloc, array.len());
    }
    named(alloc, array.encoding_id())
}

// Whether an array's root is of primitives.
fn is_primitive(array: &Array) -> bool
    ensures { (n : ℕ) → body_id true (label array.now).body n ≡ (if result then rows_id n else own_id (label array.now).body) }
{
    match array.body() {
        Body::Primitive(_) => true,
        _ => false,
    }
}

/// The parts that a node is built of: its identifier, the type and the length at which it stands, the bytes of its
/// metadata, its buffers and the arrays of its children.
#[derive(Drop)]
pub struct ArrayDeserialization {
    /// The identifier of the node.
    pub serialized_id: Id,
    /// The logical type that the array is to have.
    pub dtype: DType,
    /// The number of rows that the array is to have.
    pub len: usize,
    /// The bytes of the metadata.
    pub metadata: Blob,
    /// The node's own buffers, in order.
    pub buffers: BufferHandles,
    /// The arrays of the node's children, in their order.
    pub children: Arrays,
}

impl ArrayDeserialization {
    /// A node of these parts.
    pub fn new(
        serialized_id: Id,
        dtype: DType,
        len: usize,
        metadata: Blob,
        buffers: BufferHandles,
        children: Arrays,
    ) -> ArrayDeserialization
        ensures id { result.serialized_id ≡ serialized_id }
        ensures dtype { typ result.dtype ≡ typ dtype }
        ensures len { result.len ≡ len }
        ensures metadata { result.metadata ≡ metadata }
        ensures buffers { result.buffers ≡ buffers }
        ensures children { result.children ≡ children }
    {
        ArrayDeserialization {
            serialized_id,
            dtype,
            len,
            metadata,
            buffers,
            children,
        }
    }
}

// The buffers of an array's root.
fn own_buffers(alloc: Global, array: &Array) -> Result<BufferHandles, RegistryError>
    ensures ok { IfOk result (λ bs. bs ≡ buffers_of (label array.now).body) }
    ensures err { IsOkUnless result RegistryError.OutOfMemory }
{
    let mut buffers = BufferHandles::new(alloc);
    for i in 0..array.nbuffers() {
        let buffer = match array.buffer(i).clone(alloc) {
            Ok(buffer) => buffer,
            Err(_) => return Err(RegistryError::OutOfMemory),
        };
        match buffers.push(buffer) {
            Ok(()) => {}
            Err(_) => return Err(RegistryError::OutOfMemory),
        }
    }
    Ok(buffers)
}

// Clones of the arrays.
fn copies(alloc: Global, arrays: &[Array]) -> Result<Arrays, RegistryError>
    ensures ok { IfOk result (λ ts. ts ≡ roses_of arrays.now) }
    ensures err { IsOkUnless result RegistryError.OutOfMemory }
{
    let mut copies = Arrays::new(alloc);
    for array in arrays {
        let copy = match array.clone(alloc) {
            Ok(copy) => copy,
            Err(_) => return Err(RegistryError::OutOfMemory),
        };
        match copies.push(copy) {
            Ok(()) => {}
            Err(_) => return Err(RegistryError::OutOfMemory),
        }
    }
    Ok(copies)
}
