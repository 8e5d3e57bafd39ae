//! Foreign arrays: nodes of unregistered identifiers, kept as they are.

ghost use Rattle.std.specs.Prelude.{◌≡◌, ◌↔◌, IfOk, IfErr, IsOkUnless, IsTrue, Some};
ghost use Rattle.vx_trees.specs.Everywhere.{EverywhereBelow};
ghost use Rattle.vx_trees.specs.Rose.{node, roses_of};
ghost use Rattle.vx_types.specs.Seen.{typ};
ghost use Rattle.vx_array_tree.specs.Body as B;
ghost use Rattle.vx_array_tree.specs.Encodings.Foreigns.{body_of, metadata_of};
ghost use Rattle.vx_array_tree.specs.Sound.{IsSound, IsSoundNode};
ghost use Rattle.vx_array_tree.specs.Tree.{Tree, untold};
ghost use Rattle.vx_arrays.specs.Compared.{compared_body};
ghost use Rattle.vx_arrays.specs.Foreigns.{foreign_text, foreign_tree};
ghost use Rattle.vx_arrays.specs.NewBuffers.{RefusesBuffers, with_buffers};
ghost use Rattle.vx_arrays.specs.Refused.{IsOkOrMemory};

use crate::array::Array;
use crate::body::Body;
use crate::encodings::varbinview::are_same;
use crate::list::Arrays;
use crate::new_buffers::once_more;
use std::alloc::Global;
use std::fmt;
use std::marker::Model;
use vx_buffer::{BufferHandle, BufferHandles};
use vx_rows::{ArrayError, owned_bytes};
use vx_types::{Blob, DType, Id, or_memory};

/// An unregistered encoding: its identifier.
#[derive(Debug, Drop)]
pub struct ForeignArray {
    id: Id,
}

impl ForeignArray {
    /// The encoding of this identifier.
    pub fn new(id: Id) -> ForeignArray
        ensures { result ≡ record { id = id } }
    {
        ForeignArray { id }
    }

    /// The identifier.
    pub fn id(&self) -> &Id
        ensures { result.now ≡ self.now.id }
    {
        &self.id
    }

    /// A copy.
    pub fn clone(&self, alloc: Global) -> Result<ForeignArray, ArrayError>
        ensures ok { IfOk result (λ array. array ≡ self.now) }
        ensures err { IsOkUnless result ArrayError.OutOfMemory }
    {
        let id = or_memory(self.id.clone(alloc))?;
        Ok(ForeignArray { id })
    }
}

/// What a foreign node keeps beside its identifier: the bytes of its metadata, whatever they mean, and its buffers.
#[derive(Drop)]
pub struct ForeignArrayData {
    metadata: Blob,
    buffers: BufferHandles,
}

impl ForeignArrayData {
    /// This metadata and these buffers.
    pub fn new(metadata: Blob, buffers: BufferHandles) -> ForeignArrayData
        ensures { result ≡ record { metadata = metadata; buffers = buffers } }
    {
        ForeignArrayData { metadata, buffers }
    }

    /// The bytes of the metadata.
    pub fn metadata(&self) -> &Blob
        ensures { result.now ≡ self.now.metadata }
    {
        &self.metadata
    }

    /// The buffers in their order.
    pub fn buffers(&self) -> &[BufferHandle]
        ensures { result.now ≡ self.now.buffers }
    {
        self.buffers.as_slice()
    }

    /// A copy that shares the buffers' bytes.
    pub fn clone(&self, alloc: Global) -> Result<ForeignArrayData, ArrayError>
        ensures ok { IfOk result (λ kept. kept ≡ self.now) }
        ensures err { IsOkUnless result ArrayError.OutOfMemory }
    {
        let buffers = self.buffers.clone(alloc)?;
        self.with_buffers(alloc, buffers)
    }

    // A copy of the metadata, with these buffers.
    fn with_buffers(
        &self,
        alloc: Global,
        buffers: BufferHandles,
    ) -> Result<ForeignArrayData, ArrayError>
        ensures ok { IfOk result (λ kept. kept ≡ record { metadata = self.now.metadata; buffers = buffers }) }
        ensures err { IsOkUnless result ArrayError.OutOfMemory }
    {
        let metadata = owned_bytes(alloc, self.metadata.as_slice())?;
        Ok(ForeignArrayData { metadata, buffers })
    }
}

impl fmt::Display for ForeignArrayData {
    ghost output = { λ kept. Some (foreign_text kept.metadata) };

    fn fmt<W: fmt::Write>(&self, f: &mut fmt::Formatter<W>) -> fmt::Result {
        let len = self.metadata.len();
        write!(f, "ForeignArrayData({len}B)")
    }
}

/// What a foreign node holds: its identifier, and what it keeps beside that.
#[derive(Drop)]
pub struct ForeignData {
    array: ForeignArray,
    kept: ForeignArrayData,
}

impl Model for ForeignData {
    ghost use Rattle.vx_array_tree.specs.Encodings.Foreigns.{Data, data_code};

    ghost Value = { Data };

    ghost coded = { data_code };

    ghost view = { λ x. record { id = x.array.id; metadata = x.kept.metadata; buffers = x.kept.buffers } };
}

impl ForeignData {
    /// The identifier.
    pub fn id(&self) -> &Id
        ensures { result.now ≡ self.now.id }
    {
        &self.array.id
    }

    /// The bytes of the metadata.
    pub fn metadata(&self) -> &Blob
        ensures { result.now ≡ self.now.metadata }
    {
        &self.kept.metadata
    }

    /// The buffers in their order.
    pub fn buffers(&self) -> &[BufferHandle]
        ensures { result.now ≡ self.now.buffers }
    {
        self.kept.buffers.as_slice()
    }

    // Whether the identifiers, the bytes of the metadata and the buffers are equal, whatever the alignments.
    #[tactic(auto, using(crate::proofs::Bodies::Foreigns::foreign_bodies))]
    pub(crate) fn array_eq(&self, other: &ForeignData) -> bool
        ensures { IsTrue result ↔ (compared_body (B.foreign self.now) ≡ compared_body (B.foreign other.now)) }
    {
        self.id().as_str() == other.id().as_str()
            && self.metadata().as_slice() == other.metadata().as_slice()
            && are_same(self.buffers(), other.buffers())
    }

    // A copy that shares the buffers' bytes.
    pub(crate) fn clone(&self, alloc: Global) -> Result<ForeignData, ArrayError>
        ensures ok { IfOk result (λ foreign. foreign ≡ self.now) }
        ensures err { IsOkUnless result ArrayError.OutOfMemory }
    {
        let array = self.array.clone(alloc)?;
        let kept = self.kept.clone(alloc)?;
        Ok(ForeignData { array, kept })
    }

    // The same node with these buffers in place of its own.
    fn rebuffered(&self, alloc: Global, buffers: BufferHandles) -> Result<ForeignData, ArrayError>
        ensures ok { IfOk result (λ foreign. foreign ≡ body_of (metadata_of self.now) buffers) }
        ensures err { IsOkUnless result ArrayError.OutOfMemory }
    {
        let kept = self.kept.with_buffers(alloc, buffers)?;
        let array = self.array.clone(alloc)?;
        Ok(ForeignData { array, kept })
    }

    // The array of a node of this type, length and children that holds these buffers in place of its own.
    pub(crate) fn with_buffers(
        &self,
        alloc: Global,
        dtype: &DType,
        len: usize,
        children: &[Array],
        buffers: BufferHandles,
    ) -> Result<Array, ArrayError>
        requires sound { IsSoundNode (untold (typ dtype.now) len (B.foreign self.now)) (roses_of children.now) }
        requires below { EverywhereBelow IsSoundNode (roses_of children.now) }
        ensures ok { let t : Tree = node (untold (typ dtype.now) len (B.foreign self.now)) (roses_of children.now) in
            IfOk result (λ a. with_buffers t buffers ≡ Some a) }
        ensures sound { IfOk result IsSound }
        ensures err { let t : Tree = node (untold (typ dtype.now) len (B.foreign self.now)) (roses_of children.now) in
            IfErr result (λ e. RefusesBuffers e t buffers) }
        ensures complete { let t : Tree = node (untold (typ dtype.now) len (B.foreign self.now)) (roses_of children.now) in
            (u : Tree) → with_buffers t buffers ≡ Some u → IsSound u → IsOkOrMemory result }
    {
        let foreign = self.rebuffered(alloc, buffers)?;
        once_more(alloc, dtype, len, Body::Foreign(foreign), children)
    }
}

/// The array of `len` opaque rows: a foreign node of this identifier that keeps its metadata and buffers unread, over
/// any children.
pub fn new_foreign_array(
    _alloc: Global,
    id: Id,
    dtype: DType,
    len: usize,
    metadata: Blob,
    buffers: BufferHandles,
    children: Arrays,
) -> Result<Array, ArrayError>
    ensures ok { IfOk result (λ a. a ≡ foreign_tree id (typ dtype) len metadata buffers children) }
    ensures sound { IfOk result IsSound }
    ensures err { IsOkUnless result ArrayError.OutOfMemory }
{
    let array = ForeignArray::new(id);
    let kept = ForeignArrayData::new(metadata, buffers);
    let body = Body::Foreign(ForeignData { array, kept });
    Ok(Array::from_parts(dtype, len, body, children.into_vec()))
}
