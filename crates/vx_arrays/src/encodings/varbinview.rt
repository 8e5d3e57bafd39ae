//! Arrays of texts or of bytes by views.

ghost use Rattle.std.specs.Prelude.{◌≡◌, ◌<◌, ◌≤◌, ◌↔◌, ◌++◌, ◌∷◌, ◌*◌, ◌+◌, [], codes, slice_get, Some, IfOk, IfErr, IsOkUnless, IsTrue, length, option_map, map};
ghost use Rattle.vx_trees.specs.Everywhere.{EverywhereBelow};
ghost use Rattle.vx_trees.specs.Rose.{count, node, roses_of};
ghost use Rattle.vx_types.specs.Seen.{typ};
ghost use Rattle.vx_types.specs.Value.{lone};
ghost use Rattle.vx_array_tree.specs.Body as B;
ghost use Rattle.vx_array_tree.specs.Encodings.VarBinViews.{Content, bytes_at, buffers_of, rows as rows_of_views};
ghost use Rattle.vx_array_tree.specs.Place.{before_validity};
ghost use Rattle.vx_array_tree.specs.Refused.{IsWellShaped};
ghost use Rattle.vx_array_tree.specs.Rows.{IsThere, validity as valid_by};
ghost use Rattle.vx_array_tree.specs.Sound.{IsSound, IsSoundNode};
ghost use Rattle.vx_array_tree.specs.Tree.{Tree, option_trees, places, rows_below, untold};
ghost use Rattle.vx_arrays.specs.Compared.{bare, compared_body};
ghost use Rattle.vx_arrays.specs.NewBuffers.{RefusesBuffers, with_buffers};
ghost use Rattle.vx_rows.specs.Lone.{lone_mark};
ghost use Rattle.vx_arrays.specs.Refused.{RefusesMaking, IsOkOrMemory};
ghost use Rattle.vx_arrays.specs.Slots.{numbered};
ghost use Rattle.vx_arrays.specs.VarBinViews.{IsRight, varbinview_head, varbinview_tree};

use crate::array::Array;
use crate::body::Body;
use crate::construction::over_children;
use crate::new_buffers::copied_validity;
use crate::texts::{is_content, is_of_bytes, lone_part};
use crate::validity::{is_validity, only_validity, option_validity_at, validity_at};
use std::alloc::Global;
use std::marker::Model;
use vx_buffer::{BufferHandle, BufferHandles};
use vx_rows::{ArrayError, LoneRow, copied_type, owned_text, viewed};
use vx_types::{DType, Name};

/// What a node of texts or bytes by views holds: the data buffers, to which views refer by index, and a view for each
/// row.
#[derive(Drop)]
pub struct VarBinViewData {
    buffers: Vec<BufferHandle>,
    views: BufferHandle,
}

impl Model for VarBinViewData {
    ghost use Rattle.vx_array_tree.specs.Encodings.VarBinViews.{Data, data_code};

    ghost Value = { Data };

    ghost coded = { data_code };

    ghost view = { λ x. record { buffers = x.buffers.items; views = x.views } };
}

impl VarBinViewData {
    /// The data buffers, in their order.
    pub fn buffers(&self) -> &[BufferHandle]
        ensures { result.now ≡ self.now.buffers }
    {
        self.buffers.as_slice()
    }

    /// The buffer of the views.
    pub fn views(&self) -> &BufferHandle
        ensures { result.now ≡ self.now.views }
    {
        &self.views
    }

    // How many buffers there are.
    pub(crate) fn nbuffers(&self) -> usize
        ensures { result ≡ length (buffers_of self.now) }
    {
        self.buffers.as_slice().len() + 1
    }

    // The buffer at an index; the views are the last.
    pub(crate) fn buffer(&self, index: usize) -> &BufferHandle
        requires { index < length (buffers_of self.now) }
        ensures { slice_get (buffers_of self.now) index ≡ Some result.now }
    {
        match self.buffers.as_slice().get(index) {
            Some(buffer) => buffer,
            None => &self.views,
        }
    }

    // The name of the buffer at an index, if any.
    pub(crate) fn buffer_name(
        &self,
        alloc: Global,
        index: usize,
    ) -> Result<Option<Name>, ArrayError>
        ensures ok { IfOk result (λ name. name ≡ slice_get (numbered 0 self.now.buffers ++ codes "views" ∷ []) index) }
        ensures err { IsOkUnless result ArrayError.OutOfMemory }
    {
        let buffers = self.buffers.as_slice();
        let count = buffers.len();
        if index > count {
            return Ok(None);
        }
        if index == count {
            return Ok(Some(owned_text(alloc, "views")?));
        }
        let text = format!(in alloc; "buffer_{index}")?;
        Ok(Some(owned_text(alloc, text.as_str())?))
    }

    // Whether the views and the data buffers are equal, whatever the alignments.
    #[tactic(auto, using(crate::proofs::Bodies::VarBinViews::varbinview_bodies))]
    pub(crate) fn array_eq(&self, other: &VarBinViewData) -> bool
        ensures { IsTrue result ↔ (compared_body (B.varbinview self.now) ≡ compared_body (B.varbinview other.now)) }
    {
        self.views.array_eq(&other.views)
            && are_same(self.buffers.as_slice(), other.buffers.as_slice())
    }

    // A copy that shares the buffers' bytes.
    pub(crate) fn clone(&self, alloc: Global) -> Result<VarBinViewData, ArrayError>
        ensures ok { IfOk result (λ views. views ≡ self.now) }
        ensures err { IsOkUnless result ArrayError.OutOfMemory }
    {
        Ok(VarBinViewData {
            buffers: clones(alloc, self.buffers.as_slice())?,
            views: self.views.clone(alloc)?,
        })
    }

    // The bytes of a row, if its view is right.
    fn bytes_at(&self, index: usize) -> Option<&[u8]>
        requires { 16 * index + 16 ≤ length self.now.views.bytes }
        ensures { option_map (λ b. b.now) result ≡ bytes_at self.now index }
    {
        let views = self.views.as_host().as_slice();
        viewed(self.buffers.as_slice(), &views[16 * index..16 * index + 16])
    }

    // Whether a valid row's view gives bytes that fit the type.
    fn is_right_at(&self, dtype: &DType, len: usize, validity: &Option<Array>, index: usize) -> bool
        requires filled { length self.now.views.bytes ≡ 16 * len }
        requires planned { before_validity [] len (count (option_trees validity.now)) ≡ Some (places (option_trees validity.now)) }
        requires inside { index < len }
        ensures { IsTrue result ↔ (IsThere (valid_by (rows_below (option_trees validity.now))) index → IsRight (typ dtype.now) self.now index) }
    {
        match option_validity_at(validity, len, index) {
            Some(true) => {
                match self.bytes_at(index) {
                    Some(bytes) => is_content(dtype, bytes),
                    None => false,
                }
            }
            Some(false) => true,
            None => true,
        }
    }

    // Whether the content of parts of the right shape is right.
    fn has_content(&self, dtype: &DType, len: usize, validity: &Option<Array>) -> bool
        requires { IsWellShaped (varbinview_head (typ dtype.now) len self.now) (option_trees validity.now) }
        ensures { IsTrue result ↔ Content (typ dtype.now) len self.now (rows_below (option_trees validity.now)) }
    {
        for i in 0..len {
            if !self.is_right_at(dtype, len, validity, i) {
                return false;
            }
        }
        true
    }

    // Whether parts have the shape that the encoding requires.
    fn is_shaped(&self, dtype: &DType, len: usize, validity: &Option<Array>) -> bool
        ensures shaped { IsTrue result ↔ IsWellShaped (varbinview_head (typ dtype.now) len self.now) (option_trees validity.now) }
        ensures sound { IsTrue result → EverywhereBelow IsSoundNode (option_trees validity.now) }
    {
        if !is_of_bytes(dtype) {
            return false;
        }
        let bytes = self.views.len();
        if bytes / 16 != len || bytes % 16 != 0 {
            return false;
        }
        if self.views.alignment().as_usize() < 16 {
            return false;
        }
        is_validity(dtype.nullability(), len, validity)
    }

    // A row in a node of this type, length and children.
    pub(crate) fn row_at<'a>(
        &'a self,
        dtype: &DType,
        len: usize,
        children: &[Array],
        index: usize,
    ) -> LoneRow<'a>
        requires sound { IsSoundNode (untold (typ dtype.now) len (B.varbinview self.now)) (roses_of children.now) }
        requires inside { index < len }
        ensures { let rows = rows_of_views (typ dtype.now) len self.now (rows_below (roses_of children.now)) in
            lone (lone_mark result) ≡ rows.row index }
    {
        match validity_at(children, len, index) {
            None => LoneRow::Opaque,
            Some(false) => LoneRow::Null,
            Some(true) => {
                match self.bytes_at(index) {
                    Some(bytes) => lone_part(dtype, bytes),
                    None => unreachable!(),
                }
            }
        }
    }

    // The array of a node of this type, length and children that holds these buffers in place of its own.
    pub(crate) fn with_buffers(
        &self,
        alloc: Global,
        dtype: &DType,
        len: usize,
        children: &[Array],
        buffers: BufferHandles,
    ) -> Result<Array, ArrayError>
        requires { IsSoundNode (untold (typ dtype.now) len (B.varbinview self.now)) (roses_of children.now) }
        ensures ok { let t : Tree = node (untold (typ dtype.now) len (B.varbinview self.now)) (roses_of children.now) in
            IfOk result (λ a. with_buffers t buffers ≡ Some a) }
        ensures sound { IfOk result IsSound }
        ensures err { let t : Tree = node (untold (typ dtype.now) len (B.varbinview self.now)) (roses_of children.now) in
            IfErr result (λ e. RefusesBuffers e t buffers) }
        ensures complete { let t : Tree = node (untold (typ dtype.now) len (B.varbinview self.now)) (roses_of children.now) in
            (u : Tree) → with_buffers t buffers ≡ Some u → IsSound u → IsOkOrMemory result }
    {
        let mut front = buffers.into_vec();
        let Some(views) = front.pop() else {
            return Err(ArrayError::BadShape);
        };
        let dtype = copied_type(alloc, dtype)?;
        let validity = copied_validity(alloc, children, len)?;
        VarBinViewArray::try_new(alloc, dtype, len, front, views, validity)
    }
}

// Whether the buffers have the same number and the same bytes.
#[tactic(auto, using(crate::proofs::Comparing::alike))]
pub(crate) fn are_same(buffers: &[BufferHandle], others: &[BufferHandle]) -> bool
    ensures { IsTrue result ↔ (map bare buffers.now ≡ map bare others.now) }
{
    if buffers.len() != others.len() {
        return false;
    }
    for i in 0..buffers.len() {
        if !buffers[i].array_eq(&others[i]) {
            return false;
        }
    }
    true
}

// Copies of the buffers, in their order, that share the bytes.
fn clones(alloc: Global, buffers: &[BufferHandle]) -> Result<Vec<BufferHandle>, ArrayError>
    ensures ok { IfOk result (λ copies. copies.items ≡ buffers.now) }
    ensures err { IsOkUnless result ArrayError.OutOfMemory }
{
    let mut copies = Vec::new(alloc);
    for buffer in buffers {
        copies.push(buffer.clone(alloc)?)?;
    }
    Ok(copies)
}

/// Arrays of texts or bytes by views of 16 bytes each: a row of at most 12 bytes is inline in its view, and a longer
/// one in a data buffer to which the view refers.
pub struct VarBinViewArray {}

impl VarBinViewArray {
    /// The identifier of the encoding.
    pub const ID: &'static str = "vortex.varbinview";

    /// The array of `len` texts or bytes, by its type, each given by a view of 16 bytes. A view is the size as a u32,
    /// then up to 12 bytes inline; of more bytes, the first four as a prefix, the index of a data buffer and the
    /// offset in it, each a u32. `validity` says of each row whether it is valid.
    ///
    /// `BadShape` where the type is neither Utf8 nor Binary, where the views are not `len` or not aligned to 16
    /// bytes, or where the validity is not allowed. `ForeignControl` where the validity holds a foreign node.
    /// `BadContent` where the view of a valid row refers to a buffer or bytes that do not exist, where these do not
    /// begin with its prefix, or where a valid row of type Utf8 is not UTF-8.
    pub fn try_new(
        alloc: Global,
        dtype: DType,
        len: usize,
        buffers: Vec<BufferHandle>,
        views: BufferHandle,
        validity: Option<Array>,
    ) -> Result<Array, ArrayError>
        ensures ok { IfOk result (λ a. a ≡ varbinview_tree (typ dtype) len buffers.items views validity) }
        ensures sound { IfOk result IsSound }
        ensures err { IfErr result (λ e. RefusesMaking e (varbinview_tree (typ dtype) len buffers.items views validity)) }
        ensures complete { IsSound (varbinview_tree (typ dtype) len buffers.items views validity) → IsOkOrMemory result }
    {
        let body = VarBinViewData { buffers, views };
        let shaped = body.is_shaped(&dtype, len, &validity);
        let right = shaped && body.has_content(&dtype, len, &validity);
        match only_validity(alloc, validity) {
            Ok(children) => {
                over_children(dtype, len, Body::VarBinView(body), children, shaped, right)
            }
            Err(error) => Err(error),
        }
    }
}
