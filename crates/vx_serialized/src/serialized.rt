//! Serialized arrays: a message that was verified, with the buffers that its nodes name.

ghost use Rattle.std.specs.Prelude.{◌≡◌, ◌<◌, Some, None, [], length, slice_get, IfOk, IfErr, OnOk, OnErr, IsOkUnless};
ghost use Rattle.vx_trees.specs.Rose.{label, below, count};
ghost use Rattle.vx_flat.specs.Limits.{limits, limits_to, KeepsLimits};
ghost use Rattle.vx_flat.specs.Seen.{seen, IsViewOf};
ghost use Rattle.vx_flat.specs.Shows.{Shows};
ghost use Rattle.vx_flat.specs.Weight.{weight};
ghost use Rattle.vx_serialized.specs.ArraySchema.{array_schema};
ghost use Rattle.vx_serialized.specs.Blob.{AreClean, buffers_at};
ghost use Rattle.vx_serialized.specs.Message.{descriptors_of, message_of};
ghost use Rattle.vx_serialized.specs.Opening.{RefusesOpening};
ghost use Rattle.vx_serialized.specs.Overrides.{overrides_in, no_override, buffers_with, AreCleanWith};
ghost use Rattle.vx_serialized.specs.Serialized.{IsChildOf, named_buffer, lengths_of};
ghost use Rattle.vx_serialized.specs.StatNames.{names_in};
ghost use Rattle.vx_serialized.specs.Stored.{IsMessageOf, IsBlobOf, RefusesMessage, RefusesSegment, IsStored, array_at, stored};

mod blob;
mod buffers;
pub(crate) mod lengths;
pub(crate) mod node;
pub(crate) mod stat_names;

use crate::array_kind::ArrayKind;
use crate::error::WireError;
use crate::serialized::blob::split_blob;
use crate::serialized::buffers::take_buffers;
use crate::serialized::lengths::BufferLengths;
use crate::serialized::node::SerializedNode;
use std::alloc::Global;
use std::collections::BTreeMap;
use std::marker::Model;
use vx_buffer::{BufferHandle, BufferHandles, ByteBuffer};
use vx_flat::{FlatError, View, Weight, verify_uncounted_to, view_at};
use vx_types::Names;

/// An array as a blob holds it: its message, verified once, and the buffers that the message's nodes name. It owns the
/// message, and nodes borrow from it. Contracts see the tree of its nodes, the message's descriptors, and the buffers.
#[derive(Drop)]
pub struct SerializedArray {
    message: ByteBuffer,
    place: usize,
    weight: Weight,
    buffers: BufferHandles,
}

impl Model for SerializedArray {
    ghost use Rattle.vx_serialized.specs.Serialized.{Serialized, serialized_code};

    ghost Value = { Serialized };

    ghost coded = { serialized_code };

    ghost use Rattle.vx_serialized.specs.Stored.{IsStored, stored};

    ghost view = { λ a. stored a.message.bytes a.place a.buffers };

    ghost invariant = { λ a. IsStored a.message.bytes a.place };
}

/// Why a message is not read, as a refusal of a blob.
impl From<FlatError> for WireError {
    ghost use Rattle.std.specs.Prelude.{◌≡◌};
    ghost use Rattle.vx_serialized.specs.ReadingSteps.{message_refusal};

    ghost from_gives = { λ e r. r ≡ message_refusal e };

    fn from(e: FlatError) -> WireError {
        match e {
            FlatError::OutOfMemory => WireError::OutOfMemory,
            FlatError::BadTable => WireError::BadTable,
            FlatError::TableLimit => WireError::TableLimit,
            FlatError::MessageTooLong => WireError::WireLimit,
        }
    }
}

/// The bytes of a message's descriptors.
fn descriptors_in<'a>(view: &View<'a>) -> &'a [u8]
    requires { IsViewOf array_schema 0 view.now }
    ensures { descriptors_of result.now ≡ (message_of (seen view.now)).descriptors }
{
    match view.bytes(1) {
        Some(descriptors) => descriptors,
        None => &[],
    }
}

/// What verifying a message gives: the place of its array value, its weight, and the bytes of its descriptors.
#[derive(Drop)]
struct Verified<'a> {
    place: usize,
    weight: Weight,
    descriptors: &'a [u8],
}

/// Verifies that a message shows an array value with a root. `deep` allows 128 tables to nest instead of 64.
fn verify_message(message: &[u8], deep: bool) -> Result<Verified<'_>, WireError>
    ensures stored { IfOk result (λ v. IsStored message.now v.place) }
    ensures shows { IfOk result (λ v. Shows array_schema message.now (array_at message.now v.place)) }
    ensures descriptors { IfOk result (λ v. descriptors_of v.descriptors.now ≡ (message_of (array_at message.now v.place)).descriptors) }
    ensures within_limits { OnOk result (KeepsLimits (limits_to deep) (weight array_schema message.now)) }
    ensures cause { IfErr result (λ e. RefusesMessage (limits_to deep) e message.now) }
{
    let view = match verify_uncounted_to(message, &ArrayKind, deep) {
        Ok(view) => view,
        Err(e) => return Err(WireError::from(e)),
    };
    match view.table(0) {
        Some(_) => Ok(Verified {
            place: view.place(),
            weight: view.weight(),
            descriptors: descriptors_in(&view),
        }),
        None => Err(WireError::BadTable),
    }
}

impl SerializedArray {
    /// The array of a message, without buffers.
    ///
    /// # Errors
    /// `BadTable` where the message shows no array value with a root, `TableLimit` where it passes a limit on reading.
    /// Descriptors are not judged.
    pub fn from_array_tree(alloc: Global, tree: ByteBuffer) -> Result<SerializedArray, WireError>
        ensures message { IfOk result (IsMessageOf limits tree.bytes) }
        ensures buffers { IfOk result (λ a. a.buffers ≡ []) }
        ensures cause { IfErr result (λ e. RefusesMessage limits e tree.bytes) }
    {
        SerializedArray::from_flatbuffer_with_buffers(alloc, tree, BufferHandles::new(alloc))
    }

    /// The array of a message, with these buffers. Nodes name them by their index here, and not by a descriptor. The
    /// message and the buffers are moved in, so no memory is taken.
    ///
    /// # Errors
    /// `BadTable` where the message shows no array value with a root, `TableLimit` where it passes a limit on reading.
    /// Descriptors are not judged.
    pub fn from_flatbuffer_with_buffers(
        _alloc: Global,
        tree: ByteBuffer,
        buffers: BufferHandles,
    ) -> Result<SerializedArray, WireError>
        ensures message { IfOk result (IsMessageOf limits tree.bytes) }
        ensures buffers { IfOk result (λ a. a.buffers ≡ buffers) }
        ensures cause { IfErr result (λ e. RefusesMessage limits e tree.bytes) }
    {
        let verified = verify_message(tree.as_slice(), false)?;
        let place = verified.place;
        let weight = verified.weight;
        Ok(SerializedArray {
            message: tree,
            place,
            weight,
            buffers,
        })
    }

    /// The array of a message, with the buffers that its descriptors describe in a segment. Each buffer is a slice of
    /// it; no byte is copied.
    ///
    /// # Errors
    /// Those of [`SerializedArray::from_flatbuffer_with_buffers`]; `BadAlignment` where a descriptor's exponent is over
    /// 16, `Compressed` where it has a compression, `OutOfBounds` where its range ends past the segment.
    pub fn from_flatbuffer_and_segment(
        alloc: Global,
        tree: ByteBuffer,
        segment: BufferHandle,
    ) -> Result<SerializedArray, WireError>
        ensures message { IfOk result (IsMessageOf limits tree.bytes) }
        ensures buffers { IfOk result (λ a. a.buffers ≡ buffers_at segment.bytes 0 a.descriptors) }
        ensures clean { IfOk result (λ a. AreClean segment.bytes a.descriptors) }
        ensures cause { IfErr result (λ e. RefusesSegment limits e no_override segment.bytes tree.bytes) }
    {
        SerializedArray::over_segment(alloc, tree, segment, false)
    }

    /// [`SerializedArray::from_flatbuffer_and_segment`], where trees may be deep or not.
    fn over_segment(
        alloc: Global,
        tree: ByteBuffer,
        segment: BufferHandle,
        deep: bool,
    ) -> Result<SerializedArray, WireError>
        ensures message { IfOk result (IsMessageOf (limits_to deep) tree.bytes) }
        ensures buffers { IfOk result (λ a. a.buffers ≡ buffers_at segment.bytes 0 a.descriptors) }
        ensures clean { IfOk result (λ a. AreClean segment.bytes a.descriptors) }
        ensures cause { IfErr result (λ e. RefusesSegment (limits_to deep) e no_override segment.bytes tree.bytes) }
    {
        let overrides = BTreeMap::new(alloc);
        SerializedArray::over_segment_with(alloc, tree, segment, &overrides, deep)
    }

    /// [`SerializedArray::from_flatbuffer_and_segment_with_overrides`], where trees may be deep or not.
    fn over_segment_with(
        alloc: Global,
        tree: ByteBuffer,
        segment: BufferHandle,
        overrides: &BTreeMap<u32, ByteBuffer>,
        deep: bool,
    ) -> Result<SerializedArray, WireError>
        ensures message { IfOk result (IsMessageOf (limits_to deep) tree.bytes) }
        ensures buffers { IfOk result (λ a. a.buffers ≡ buffers_with (overrides_in overrides.now) segment.bytes 0 0 a.descriptors) }
        ensures clean { IfOk result (λ a. AreCleanWith (overrides_in overrides.now) (length segment.bytes) 0 0 a.descriptors) }
        ensures cause { IfErr result (λ e. RefusesSegment (limits_to deep) e (overrides_in overrides.now) segment.bytes tree.bytes) }
    {
        let verified = verify_message(tree.as_slice(), deep)?;
        let buffers = take_buffers(alloc, &segment, verified.descriptors, overrides)?;
        let place = verified.place;
        let weight = verified.weight;
        Ok(SerializedArray {
            message: tree,
            place,
            weight,
            buffers,
        })
    }

    /// The array of a message, with the buffers that its descriptors describe in a segment, or that are given here by
    /// the number of a descriptor. A given buffer takes the descriptor's alignment, and neither its length nor the
    /// descriptor's range is judged. The next buffer starts after that range all the same.
    ///
    /// # Errors
    /// Those of [`SerializedArray::from_flatbuffer_and_segment`], `OutOfBounds` only where no buffer is given.
    pub fn from_flatbuffer_and_segment_with_overrides(
        alloc: Global,
        tree: ByteBuffer,
        segment: BufferHandle,
        overrides: &BTreeMap<u32, ByteBuffer>,
    ) -> Result<SerializedArray, WireError>
        ensures message { IfOk result (IsMessageOf limits tree.bytes) }
        ensures buffers { IfOk result (λ a. a.buffers ≡ buffers_with (overrides_in overrides.now) segment.bytes 0 0 a.descriptors) }
        ensures clean { IfOk result (λ a. AreCleanWith (overrides_in overrides.now) (length segment.bytes) 0 0 a.descriptors) }
        ensures cause { IfErr result (λ e. RefusesSegment limits e (overrides_in overrides.now) segment.bytes tree.bytes) }
    {
        SerializedArray::over_segment_with(alloc, tree, segment, overrides, false)
    }

    /// The array of a blob. Its last four bytes are the length of its message, which stands before them; all before the
    /// message is the segment, in which the descriptors describe the buffers. No byte is copied.
    ///
    /// # Errors
    /// `TooShort` where the blob has under four bytes, or fewer before the last four than these say; else those of
    /// [`SerializedArray::from_flatbuffer_and_segment`].
    pub fn try_from_buffer(alloc: Global, blob: ByteBuffer) -> Result<SerializedArray, WireError>
        ensures opened { IfOk result (IsBlobOf limits blob.bytes) }
        ensures cause { IfErr result (λ e. RefusesOpening limits e blob.bytes) }
    {
        SerializedArray::try_from_buffer_to(alloc, blob, false)
    }

    /// [`SerializedArray::try_from_buffer`], where `deep` allows 128 tables to nest in the message instead of 64.
    ///
    /// # Errors
    /// Those of [`SerializedArray::try_from_buffer`].
    pub fn try_from_buffer_to(
        alloc: Global,
        blob: ByteBuffer,
        deep: bool,
    ) -> Result<SerializedArray, WireError>
        ensures opened { IfOk result (IsBlobOf (limits_to deep) blob.bytes) }
        ensures cause { IfErr result (λ e. RefusesOpening (limits_to deep) e blob.bytes) }
    {
        let Some((segment, message)) = split_blob(blob.as_slice()) else {
            return Err(WireError::TooShort);
        };
        let start = segment.len();
        let end = start + message.len();
        let segment = blob.slice(alloc, 0..start)?;
        let message = blob.slice(alloc, start..end)?;
        SerializedArray::over_segment(alloc, message, BufferHandle::new_host(segment), deep)
    }

    /// A clone of the array. No byte of its message or its buffers is copied.
    ///
    /// # Errors
    /// `OutOfMemory` alone.
    pub fn clone(&self, alloc: Global) -> Result<SerializedArray, WireError>
        ensures ok { IfOk result (λ a. a ≡ self.now) }
        ensures err { IsOkUnless result WireError.OutOfMemory }
    {
        let message = self.message.clone(alloc)?;
        let buffers = self.buffers.clone(alloc)?;
        Ok(SerializedArray {
            message,
            place: self.place,
            weight: self.weight,
            buffers,
        })
    }
}

impl SerializedArray {
    /// The array's root, borrowed.
    pub fn root(&self) -> SerializedNode<'_>
        ensures { result ≡ self.now }
    {
        let message = self.message.as_slice();
        let view = view_at(message, &ArrayKind, self.place, self.weight);
        match view.table(0) {
            Some(root) => SerializedNode::new(root, descriptors_in(&view), &self.buffers),
            None => unreachable!(),
        }
    }

    /// The number of the root's encoding, in the list of identifiers that comes with the message.
    pub fn encoding_id(&self) -> u16
        ensures { result ≡ (label self.now.root).encoding }
    {
        self.root().encoding_id()
    }

    /// The bytes of the root's metadata, borrowed from the message.
    pub fn metadata(&self) -> &[u8]
        ensures { result.now ≡ (label self.now.root).metadata }
    {
        self.root().metadata()
    }

    /// The number of the root's children.
    pub fn nchildren(&self) -> usize
        ensures { result ≡ count (below self.now.root) }
    {
        self.root().nchildren()
    }

    /// The root's child at this index, borrowed. The index is below `nchildren`.
    pub fn child(&self, i: usize) -> SerializedNode<'_>
        requires { i < count (below self.now.root) }
        ensures { IsChildOf self.now i result }
    {
        self.root().child(i)
    }

    /// The number of buffers that the root names.
    pub fn nbuffers(&self) -> usize
        ensures { result ≡ length (label self.now.root).buffers }
    {
        self.root().nbuffers()
    }

    /// The number of the root's buffer at this index, in the list of all buffers. The index is below `nbuffers`.
    pub fn buffer_index(&self, i: usize) -> u16
        requires { i < length (label self.now.root).buffers }
        ensures { slice_get (label self.now.root).buffers i ≡ Some result }
    {
        self.root().buffer_index(i)
    }

    /// The root's buffer at this index, borrowed.
    ///
    /// # Errors
    /// `OutOfBounds`, exactly where the root names no buffer at this index, or one that is not there.
    pub fn buffer(&self, i: usize) -> Result<&BufferHandle, WireError>
        ensures ok { IfOk result (λ b. named_buffer self.now i ≡ Some b.now) }
        ensures error { IsOkUnless result WireError.OutOfBounds }
        ensures cause { OnErr result (named_buffer self.now i ≡ None) }
    {
        self.root().buffer(i)
    }

    /// The names of the statistics that the root's table has, in the order of the table's fields.
    ///
    /// # Errors
    /// `OutOfMemory` alone.
    pub fn stat_names(&self, alloc: Global) -> Result<Names, WireError>
        ensures ok { IfOk result (λ names. names ≡ names_in (label self.now.root).stats) }
        ensures err { IsOkUnless result WireError.OutOfMemory }
    {
        self.root().stat_names(alloc)
    }

    /// The length in bytes of each of the message's buffers, as its descriptor says.
    ///
    /// # Errors
    /// `OutOfMemory` alone.
    pub fn buffer_lengths(&self, alloc: Global) -> Result<BufferLengths, WireError>
        ensures ok { IfOk result (λ ls. ls ≡ lengths_of self.now.descriptors) }
        ensures err { IsOkUnless result WireError.OutOfMemory }
    {
        self.root().buffer_lengths(alloc)
    }
}
