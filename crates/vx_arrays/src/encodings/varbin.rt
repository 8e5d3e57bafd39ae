//! Arrays of texts or of bytes by offsets.

ghost use Rattle.std.specs.Prelude.{suc, ◌^◌, ◌-◌, ◌≡◌, ◌<◌, ◌↔◌, ◌∷◌, IfOk, IfErr, IsOkUnless, IsTrue, Some};
ghost use Rattle.vx_trees.specs.Everywhere.{EverywhereBelow};
ghost use Rattle.vx_trees.specs.Rose.{label, more, node, roses_of};
ghost use Rattle.vx_buffer.specs.Buffer.{Buffer};
ghost use Rattle.vx_types.specs.Seen.{typ};
ghost use Rattle.vx_types.specs.Value.{lone};
ghost use Rattle.vx_array_tree.specs.Body as B;
ghost use Rattle.vx_array_tree.specs.Encodings.VarBins.{Content, rows as rows_of_parts};
ghost use Rattle.vx_array_tree.specs.Refused.{IsWellShaped};
ghost use Rattle.vx_array_tree.specs.Rows.{rest, validity};
ghost use Rattle.vx_array_tree.specs.Sound.{IsControlled, IsSound, IsSoundNode};
ghost use Rattle.vx_array_tree.specs.Tree.{Tree, option_trees, rows_below, rows_of, untold};
ghost use Rattle.vx_arrays.specs.Compared.{compared_body};
ghost use Rattle.vx_arrays.specs.NewBuffers.{RefusesBuffers, with_buffers};
ghost use Rattle.vx_rows.specs.Lone.{lone_mark};
ghost use Rattle.vx_arrays.specs.Refused.{RefusesMaking, IsOkOrMemory};
ghost use Rattle.vx_arrays.specs.VarBins.{varbin_head, varbin_tree};

use crate::array::Array;
use crate::body::Body;
use crate::construction::over_children;
use crate::new_buffers::copied_validity;
use crate::offsets::{are_offsets, is_of_offsets};
use crate::texts::{are_texts, is_of_bytes, lone_part, part_at};
use crate::validity::{is_validity, validity_at, with_validity};
use std::alloc::Global;
use std::marker::Model;
use vx_buffer::{BufferHandle, BufferHandles};
use vx_rows::{ArrayError, LoneRow, copied_type};
use vx_types::{DType, Nullability};

/// What a node of texts or of bytes holds: the bytes of all rows, one after the other.
#[derive(Drop)]
pub struct VarBinData {
    bytes: BufferHandle,
}

impl Model for VarBinData {
    ghost use Rattle.vx_array_tree.specs.Encodings.VarBins.{Data, data_code};

    ghost Value = { Data };

    ghost coded = { data_code };

    ghost view = { λ x. record { bytes = x.bytes } };
}

impl VarBinData {
    /// The buffer of the bytes.
    pub fn bytes(&self) -> &BufferHandle
        ensures { result.now ≡ self.now.bytes }
    {
        &self.bytes
    }

    // Whether the bytes are equal, whatever the alignments.
    #[tactic(auto, using(crate::proofs::Bodies::VarBins::varbin_bodies))]
    pub(crate) fn array_eq(&self, other: &VarBinData) -> bool
        ensures { IsTrue result ↔ (compared_body (B.varbin self.now) ≡ compared_body (B.varbin other.now)) }
    {
        self.bytes.array_eq(&other.bytes)
    }

    // A copy that shares the bytes.
    pub(crate) fn clone(&self, alloc: Global) -> Result<VarBinData, ArrayError>
        ensures ok { IfOk result (λ parts. parts ≡ self.now) }
        ensures err { IsOkUnless result ArrayError.OutOfMemory }
    {
        Ok(VarBinData {
            bytes: self.bytes.clone(alloc)?,
        })
    }

    // Whether a row is valid in a node of this type, length and children; None where that is not known.
    pub(crate) fn valid_at(
        &self,
        dtype: &DType,
        len: usize,
        children: &[Array],
        index: usize,
    ) -> Option<bool>
        requires sound { IsSoundNode (untold (typ dtype.now) len (B.varbin self.now)) (roses_of children.now) }
        requires inside { index < len }
        ensures { result ≡ validity (rest (rows_below (roses_of children.now))) index }
    {
        let _bytes = &self.bytes;
        let _dtype = dtype;
        match children {
            [_, after @ ..] => validity_at(after, len, index),
            [] => unreachable!(),
        }
    }

    // A row in a node of this type, length and children.
    pub(crate) fn row_at<'a>(
        &'a self,
        dtype: &DType,
        len: usize,
        children: &[Array],
        index: usize,
    ) -> LoneRow<'a>
        requires sound { IsSoundNode (untold (typ dtype.now) len (B.varbin self.now)) (roses_of children.now) }
        requires inside { index < len }
        ensures { let rows = rows_of_parts (typ dtype.now) len self.now (rows_below (roses_of children.now)) in
            lone (lone_mark result) ≡ rows.row index }
    {
        match children {
            [offsets, after @ ..] => match validity_at(after, len, index) {
                None => LoneRow::Opaque,
                Some(false) => LoneRow::Null,
                Some(true) => {
                    let bytes = self.bytes.as_host().as_slice();
                    let part = part_at(bytes, offsets, len, index);
                    lone_part(dtype, part)
                }
            },
            [] => unreachable!(),
        }
    }

    // The array of a node of this type, length and children that holds these buffers in place of its own.
    pub(crate) fn with_buffers(
        &self,
        alloc: Global,
        dtype: &DType,
        len: usize,
        children: &[Array],
        buffers: BufferHandles,
    ) -> Result<Array, ArrayError>
        requires { IsSoundNode (untold (typ dtype.now) len (B.varbin self.now)) (roses_of children.now) }
        ensures ok { let t : Tree = node (untold (typ dtype.now) len (B.varbin self.now)) (roses_of children.now) in
            IfOk result (λ a. with_buffers t buffers ≡ Some a) }
        ensures sound { IfOk result IsSound }
        ensures err { let t : Tree = node (untold (typ dtype.now) len (B.varbin self.now)) (roses_of children.now) in
            IfErr result (λ e. RefusesBuffers e t buffers) }
        ensures complete { let t : Tree = node (untold (typ dtype.now) len (B.varbin self.now)) (roses_of children.now) in
            (u : Tree) → with_buffers t buffers ≡ Some u → IsSound u → IsOkOrMemory result }
    {
        let Some(bytes) = buffers.only_buffer() else {
            return Err(ArrayError::BadShape);
        };
        match children {
            [offsets, after @ ..] => {
                let dtype = copied_type(alloc, dtype)?;
                let offsets = offsets.clone(alloc)?;
                let validity = copied_validity(alloc, after, len)?;
                VarBinArray::try_new(alloc, dtype, offsets, bytes, validity)
            }
            [] => unreachable!(),
        }
    }
}

/// Arrays of texts or of bytes, one after the other in a buffer, split by offsets.
pub struct VarBinArray {}

impl VarBinArray {
    /// The identifier of the encoding.
    pub const ID: &'static str = "vortex.varbin";

    /// The array of texts or bytes, by its type: a row is the bytes of the buffer from its offset up to the next one,
    /// so there is one row fewer than offsets. `validity` says of each row whether it is valid.
    ///
    /// `BadShape` where the type is neither Utf8 nor Binary, where there are no offsets or they are not non-nullable
    /// integers, or where the validity is not allowed. `ForeignControl` where the offsets or the validity hold a
    /// foreign node. `BadContent` where an offset is below 0, below the one before or past the bytes, or where a
    /// valid row of type Utf8 is not UTF-8.
    pub fn try_new(
        alloc: Global,
        dtype: DType,
        offsets: Array,
        bytes: BufferHandle,
        validity: Option<Array>,
    ) -> Result<Array, ArrayError>
        ensures ok { IfOk result (λ a. a ≡ varbin_tree (typ dtype) offsets bytes validity) }
        ensures sound { IfOk result IsSound }
        ensures err { IfErr result (λ e. RefusesMaking e (varbin_tree (typ dtype) offsets bytes validity)) }
        ensures complete { IsSound (varbin_tree (typ dtype) offsets bytes validity) → IsOkOrMemory result }
    {
        let len = offsets.len().saturating_sub(1);
        let shaped = are_parts(&dtype, len, &offsets, &validity);
        let right = shaped && is_right(&dtype, len, &offsets, &bytes, &validity);
        let body = Body::VarBin(VarBinData { bytes });
        match with_validity(alloc, offsets, validity) {
            Ok(children) => over_children(dtype, len, body, children, shaped, right),
            Err(error) => Err(error),
        }
    }
}

// Whether parts have the shape that the encoding requires, with one row fewer than offsets. No offsets are no right
// shape.
fn are_parts(dtype: &DType, len: usize, offsets: &Array, validity: &Option<Array>) -> bool
    requires { len ≡ (label offsets.now).len - 1 }
    ensures shaped { (b : Buffer) → IsTrue result ↔ IsWellShaped (varbin_head (typ dtype.now) len b) (more offsets.now (option_trees validity.now)) }
    ensures sound { IsTrue result → EverywhereBelow IsSoundNode (more offsets.now (option_trees validity.now)) }
{
    if offsets.len() == 0 {
        return false;
    }
    is_shaped(dtype, len, offsets, validity)
}

// Whether parts have the shape that the encoding requires.
fn is_shaped(dtype: &DType, len: usize, offsets: &Array, validity: &Option<Array>) -> bool
    requires counted { (label offsets.now).len ≡ suc len }
    requires few { suc len < 2 ^ 64 }
    ensures shaped { (b : Buffer) → IsTrue result ↔ IsWellShaped (varbin_head (typ dtype.now) len b) (more offsets.now (option_trees validity.now)) }
    ensures sound { IsTrue result → EverywhereBelow IsSoundNode (more offsets.now (option_trees validity.now)) }
{
    if !is_of_offsets(offsets.dtype()) {
        return false;
    }
    if !is_of_bytes(dtype) {
        return false;
    }
    is_validity(dtype.nullability(), len, validity)
}

// Whether the content of parts of the right shape is right. It is not looked at where the offsets hold a foreign
// node, since nothing bounds the number of rows of such a node.
fn is_right(
    dtype: &DType,
    len: usize,
    offsets: &Array,
    bytes: &BufferHandle,
    validity: &Option<Array>,
) -> bool
    requires { IsWellShaped (varbin_head (typ dtype.now) len bytes.now) (more offsets.now (option_trees validity.now)) }
    ensures { IsControlled (varbin_head (typ dtype.now) len bytes.now) (more offsets.now (option_trees validity.now)) →
        IsTrue result ↔ Content (typ dtype.now) len (record { bytes = bytes.now }) (rows_of offsets.now ∷ rows_below (option_trees validity.now)) }
{
    offsets.has_no_foreign() && has_content(dtype, len, offsets, bytes, validity)
}

// Whether the content of parts of the right shape is right: the offsets are, and so are the texts.
fn has_content(
    dtype: &DType,
    len: usize,
    offsets: &Array,
    bytes: &BufferHandle,
    validity: &Option<Array>,
) -> bool
    requires { IsWellShaped (varbin_head (typ dtype.now) len bytes.now) (more offsets.now (option_trees validity.now)) }
    ensures { IsTrue result ↔ Content (typ dtype.now) len (record { bytes = bytes.now }) (rows_of offsets.now ∷ rows_below (option_trees validity.now)) }
{
    let bytes = bytes.as_host().as_slice();
    if !are_offsets(offsets, len, bytes.len()) {
        return false;
    }
    match dtype {
        DType::Utf8(_) => are_texts(bytes, offsets, validity, len),
        DType::Binary(_) => true,
        _ => unreachable!(),
    }
}
