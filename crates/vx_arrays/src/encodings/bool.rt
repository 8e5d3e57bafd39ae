//! Boolean arrays.

ghost use Rattle.std.specs.Prelude.{◌≡◌, ◌<◌, ◌↔◌, IfOk, IfErr, IsOkUnless, IsTrue, ◌+◌, ◌*◌, length, Some};
ghost use Rattle.vx_trees.specs.Everywhere.{EverywhereBelow};
ghost use Rattle.vx_trees.specs.Rose.{label, node, roses_of};
ghost use Rattle.vx_types.specs.Seen.{typ};
ghost use Rattle.vx_types.specs.Value.{lone};
ghost use Rattle.vx_array_tree.specs.Body as B;
ghost use Rattle.vx_array_tree.specs.Encodings.Bools.{bit_at, rows as rows_of_flags};
ghost use Rattle.vx_array_tree.specs.Sound.{IsSound, IsSoundNode};
ghost use Rattle.vx_array_tree.specs.Tree.{Tree, option_trees, rows_below, untold};
ghost use Rattle.vx_array_tree.specs.Refused.{IsWellShaped};
ghost use Rattle.vx_arrays.specs.Bools.{bool_tree};
ghost use Rattle.vx_arrays.specs.Compared.{compared_body};
ghost use Rattle.vx_arrays.specs.NewBuffers.{RefusesBuffers, with_buffers};
ghost use Rattle.vx_rows.specs.Lone.{lone_mark};
ghost use Rattle.vx_arrays.specs.Refused.{RefusesMaking, IsOkOrMemory};

use crate::array::Array;
use crate::body::Body;
use crate::new_buffers::copied_validity;
use crate::validity::{is_validity, over_validity, validity_at};
use std::alloc::Global;
use std::marker::Model;
use vx_buffer::{BufferHandle, BufferHandles};
use vx_rows::{ArrayError, LoneRow};
use vx_types::{DType, Nullability};

/// What a Boolean node holds: bits, and the offset of the first row's.
#[derive(Drop)]
pub struct BoolData {
    bits: BufferHandle,
    offset: usize,
}

impl Model for BoolData {
    ghost use Rattle.vx_array_tree.specs.Encodings.Bools.{Data, data_code};

    ghost Value = { Data };

    ghost coded = { data_code };

    ghost use Rattle.std.specs.Prelude.{◌<◌};

    ghost view = { λ x. record { bits = x.bits; offset = x.offset } };

    ghost invariant = { λ x. x.offset < 8 };
}

impl BoolData {
    /// The buffer of the bits.
    pub fn bits(&self) -> &BufferHandle
        ensures { result.now ≡ self.now.bits }
    {
        &self.bits
    }

    /// The bit offset of the first row.
    pub fn offset(&self) -> usize
        ensures offset { result ≡ self.now.offset }
        ensures below { result < 8 }
    {
        self.offset
    }

    // Whether the bits and the offsets are equal, whatever the alignments.
    #[tactic(auto, using(crate::proofs::Bodies::Bools::bool_bodies))]
    pub(crate) fn array_eq(&self, other: &BoolData) -> bool
        ensures { IsTrue result ↔ (compared_body (B.bool self.now) ≡ compared_body (B.bool other.now)) }
    {
        self.offset == other.offset && self.bits.array_eq(&other.bits)
    }

    // A copy that shares the bits.
    pub(crate) fn clone(&self, alloc: Global) -> Result<BoolData, ArrayError>
        ensures ok { IfOk result (λ flags. flags ≡ self.now) }
        ensures err { IsOkUnless result ArrayError.OutOfMemory }
    {
        Ok(BoolData {
            bits: self.bits.clone(alloc)?,
            offset: self.offset,
        })
    }

    // The bit of a row, the lowest of a byte first.
    pub(crate) fn bit(&self, index: usize) -> bool
        requires { self.now.offset + index < 8 * length self.now.bits.bytes }
        ensures { result ≡ bit_at self.now.bits.bytes (self.now.offset + index) }
    {
        let place = self.offset as u128 + index as u128;
        let byte = self.bits.as_host().as_slice()[(place / 8) as usize];
        (byte >> ((place % 8) as u32)) % 2 == 1
    }

    // A row in a node of this type, length and children.
    pub(crate) fn row_at(
        &self,
        dtype: &DType,
        len: usize,
        children: &[Array],
        index: usize,
    ) -> LoneRow<'static>
        requires sound { IsSoundNode (untold (typ dtype.now) len (B.bool self.now)) (roses_of children.now) }
        requires inside { index < len }
        ensures { let rows = rows_of_flags len self.now (rows_below (roses_of children.now)) in
            lone (lone_mark result) ≡ rows.row index }
    {
        match dtype {
            DType::Bool(_) => {}
            _ => unreachable!(),
        }
        match validity_at(children, len, index) {
            None => LoneRow::Opaque,
            Some(false) => LoneRow::Null,
            Some(true) => {
                let flag = self.bit(index);
                LoneRow::Bool(flag)
            }
        }
    }

    // The array of a node of this type, length and children that holds these buffers in place of its own.
    pub(crate) fn with_buffers(
        &self,
        alloc: Global,
        dtype: &DType,
        len: usize,
        children: &[Array],
        buffers: BufferHandles,
    ) -> Result<Array, ArrayError>
        requires { IsSoundNode (untold (typ dtype.now) len (B.bool self.now)) (roses_of children.now) }
        ensures ok { let t : Tree = node (untold (typ dtype.now) len (B.bool self.now)) (roses_of children.now) in
            IfOk result (λ a. with_buffers t buffers ≡ Some a) }
        ensures sound { IfOk result IsSound }
        ensures err { let t : Tree = node (untold (typ dtype.now) len (B.bool self.now)) (roses_of children.now) in
            IfErr result (λ e. RefusesBuffers e t buffers) }
        ensures complete { let t : Tree = node (untold (typ dtype.now) len (B.bool self.now)) (roses_of children.now) in
            (u : Tree) → with_buffers t buffers ≡ Some u → IsSound u → IsOkOrMemory result }
    {
        let Some(bits) = buffers.only_buffer() else {
            return Err(ArrayError::BadShape);
        };
        match dtype {
            DType::Bool(nullability) => {
                let validity = copied_validity(alloc, children, len)?;
                BoolArray::try_new(alloc, bits, self.offset, len, *nullability, validity)
            }
            _ => unreachable!(),
        }
    }
}

/// Boolean arrays, a bit for each row.
pub struct BoolArray {}

impl BoolArray {
    /// The identifier of the encoding.
    pub const ID: &'static str = "vortex.bool";

    /// The array of `len` Booleans, one bit each from bit `offset` of the buffer on, the lowest bit of a byte first.
    /// `validity` says of each row whether it is valid.
    ///
    /// `ForeignControl` where the array would be sound but for a foreign node in the validity, and `BadShape` where
    /// the parts do not fit otherwise.
    pub fn try_new(
        alloc: Global,
        bits: BufferHandle,
        offset: usize,
        len: usize,
        nullability: Nullability,
        validity: Option<Array>,
    ) -> Result<Array, ArrayError>
        ensures ok { IfOk result (λ a. a ≡ bool_tree bits offset len nullability validity) }
        ensures sound { IfOk result IsSound }
        ensures err { IfErr result (λ e. RefusesMaking e (bool_tree bits offset len nullability validity)) }
        ensures complete { IsSound (bool_tree bits offset len nullability validity) → IsOkOrMemory result }
    {
        if offset >= 8 {
            return Err(ArrayError::BadShape);
        }
        let shaped = is_shaped(&bits, offset, len, nullability, &validity);
        let dtype = DType::Bool(nullability);
        let body = Body::Bool(BoolData { bits, offset });
        over_validity(alloc, dtype, len, body, validity, shaped)
    }
}

// Whether parts with a bit offset below 8 have the shape that the encoding requires.
fn is_shaped(
    bits: &BufferHandle,
    offset: usize,
    len: usize,
    nullability: Nullability,
    validity: &Option<Array>,
) -> bool
    requires fair { offset < 8 }
    ensures shaped { IsTrue result ↔ IsWellShaped (label (bool_tree bits.now offset len nullability validity.now)) (option_trees validity.now) }
    ensures sound { IsTrue result → EverywhereBelow IsSoundNode (option_trees validity.now) }
{
    offset as u128 + len as u128 <= 8 * (bits.len() as u128)
        && is_validity(nullability, len, validity)
}
