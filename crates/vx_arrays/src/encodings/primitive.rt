//! Primitive arrays.

ghost use Rattle.std.specs.Prelude.{◌≡◌, ◌<◌, ◌↔◌, IfOk, IfErr, IsOkUnless, IsTrue, Some};
ghost use Rattle.vx_trees.specs.Everywhere.{EverywhereBelow};
ghost use Rattle.vx_trees.specs.Rose.{label, node, roses_of};
ghost use Rattle.vx_types.specs.Seen.{typ};
ghost use Rattle.vx_types.specs.Value.{lone, natural};
ghost use Rattle.vx_array_tree.specs.Encodings.Primitives.{rows as rows_of_numbers};
ghost use Rattle.vx_array_tree.specs.Body as B;
ghost use Rattle.vx_array_tree.specs.Refused.{IsWellShaped};
ghost use Rattle.vx_array_tree.specs.Sound.{IsSound, IsSoundNode};
ghost use Rattle.vx_array_tree.specs.Tree.{Tree, option_trees, rows_below, untold};
ghost use Rattle.vx_arrays.specs.Compared.{compared_body};
ghost use Rattle.vx_arrays.specs.NewBuffers.{RefusesBuffers, with_buffers};
ghost use Rattle.vx_rows.specs.Lone.{lone_mark};
ghost use Rattle.vx_arrays.specs.Primitives.{primitive_tree};
ghost use Rattle.vx_arrays.specs.Refused.{RefusesMaking, IsOkOrMemory};

use crate::array::Array;
use crate::body::Body;
use crate::new_buffers::copied_validity;
use crate::validity::{is_validity, over_validity, validity_at};
use std::alloc::Global;
use std::marker::Model;
use vx_buffer::{BufferHandle, BufferHandles};
use vx_rows::{ArrayError, LoneRow, is_filled, natural, number_at};
use vx_types::{DType, Nullability, PType};

/// What a primitive node holds: the numbers, one after the other, little-endian. Their kind is that of the node's
/// type.
#[derive(Drop)]
pub struct PrimitiveData {
    values: BufferHandle,
}

impl Model for PrimitiveData {
    ghost use Rattle.vx_array_tree.specs.Encodings.Primitives.{Data, data_code};

    ghost Value = { Data };

    ghost coded = { data_code };

    ghost view = { λ x. record { values = x.values } };
}

impl PrimitiveData {
    /// The buffer of the numbers.
    pub fn values(&self) -> &BufferHandle
        ensures { result.now ≡ self.now.values }
    {
        &self.values
    }

    // Whether the numbers are equal, whatever the alignments.
    #[tactic(auto, using(crate::proofs::Bodies::Primitives::primitive_bodies))]
    pub(crate) fn array_eq(&self, other: &PrimitiveData) -> bool
        ensures { IsTrue result ↔ (compared_body (B.primitive self.now) ≡ compared_body (B.primitive other.now)) }
    {
        self.values.array_eq(&other.values)
    }

    // A copy that shares the bytes.
    pub(crate) fn clone(&self, alloc: Global) -> Result<PrimitiveData, ArrayError>
        ensures ok { IfOk result (λ numbers. numbers ≡ self.now) }
        ensures err { IsOkUnless result ArrayError.OutOfMemory }
    {
        Ok(PrimitiveData {
            values: self.values.clone(alloc)?,
        })
    }

    // A row in a node of this type, length and children.
    pub(crate) fn row_at(
        &self,
        dtype: &DType,
        len: usize,
        children: &[Array],
        index: usize,
    ) -> LoneRow<'static>
        requires sound { IsSoundNode (untold (typ dtype.now) len (B.primitive self.now)) (roses_of children.now) }
        requires inside { index < len }
        ensures { let rows = rows_of_numbers (typ dtype.now) len self.now (rows_below (roses_of children.now)) in
            lone (lone_mark result) ≡ rows.row index }
    {
        let kind = match dtype {
            DType::Primitive(kind, _) => *kind,
            _ => unreachable!(),
        };
        match validity_at(children, len, index) {
            None => LoneRow::Opaque,
            Some(false) => LoneRow::Null,
            Some(true) => {
                let width = kind.byte_width();
                let rest = &self.values.as_host().as_slice()[width * index..];
                LoneRow::Primitive(number_at(kind, rest))
            }
        }
    }

    // A row as a natural number in a node of this type, length and children.
    #[cycle(naturals)]
    pub(crate) fn natural_at(
        &self,
        dtype: &DType,
        len: usize,
        children: &[Array],
        index: usize,
    ) -> Option<u64>
        requires sound { IsSoundNode (untold (typ dtype.now) len (B.primitive self.now)) (roses_of children.now) }
        requires inside { index < len }
        ensures { let rows = rows_of_numbers (typ dtype.now) len self.now (rows_below (roses_of children.now)) in
            result ≡ natural (rows.row index) }
    {
        let kind = match dtype {
            DType::Primitive(kind, _) => *kind,
            _ => unreachable!(),
        };
        match validity_at(children, len, index) {
            None => None,
            Some(false) => None,
            Some(true) => {
                let width = kind.byte_width();
                let rest = &self.values.as_host().as_slice()[width * index..];
                natural(number_at(kind, rest))
            }
        }
    }

    // The array of a node of this type, length and children that holds these buffers in place of its own.
    pub(crate) fn with_buffers(
        &self,
        alloc: Global,
        dtype: &DType,
        len: usize,
        children: &[Array],
        buffers: BufferHandles,
    ) -> Result<Array, ArrayError>
        requires { IsSoundNode (untold (typ dtype.now) len (B.primitive self.now)) (roses_of children.now) }
        ensures ok { let t : Tree = node (untold (typ dtype.now) len (B.primitive self.now)) (roses_of children.now) in
            IfOk result (λ a. with_buffers t buffers ≡ Some a) }
        ensures sound { IfOk result IsSound }
        ensures err { let t : Tree = node (untold (typ dtype.now) len (B.primitive self.now)) (roses_of children.now) in
            IfErr result (λ e. RefusesBuffers e t buffers) }
        ensures complete { let t : Tree = node (untold (typ dtype.now) len (B.primitive self.now)) (roses_of children.now) in
            (u : Tree) → with_buffers t buffers ≡ Some u → IsSound u → IsOkOrMemory result }
    {
        let Some(values) = buffers.only_buffer() else {
            return Err(ArrayError::BadShape);
        };
        match dtype {
            DType::Primitive(kind, nullability) => {
                let validity = copied_validity(alloc, children, len)?;
                PrimitiveArray::try_new(alloc, values, *kind, *nullability, len, validity)
            }
            _ => unreachable!(),
        }
    }
}

/// Primitive arrays, whose values stand one after the other in a buffer.
pub struct PrimitiveArray {}

impl PrimitiveArray {
    /// The identifier of the encoding.
    pub const ID: &'static str = "vortex.primitive";

    /// The array of the `len` little-endian numbers in the buffer, which is aligned to their width. `validity` says
    /// of each row whether it is valid.
    ///
    /// `ForeignControl` where the array would be sound but for a foreign node in the validity, and `BadShape` where
    /// the parts do not fit otherwise.
    pub fn try_new(
        alloc: Global,
        buffer: BufferHandle,
        ptype: PType,
        nullability: Nullability,
        len: usize,
        validity: Option<Array>,
    ) -> Result<Array, ArrayError>
        ensures ok { IfOk result (λ a. a ≡ primitive_tree ptype nullability len buffer validity) }
        ensures sound { IfOk result IsSound }
        ensures err { IfErr result (λ e. RefusesMaking e (primitive_tree ptype nullability len buffer validity)) }
        ensures complete { IsSound (primitive_tree ptype nullability len buffer validity) → IsOkOrMemory result }
    {
        let shaped = is_shaped(&buffer, ptype, nullability, len, &validity);
        let dtype = DType::Primitive(ptype, nullability);
        let body = Body::Primitive(PrimitiveData { values: buffer });
        over_validity(alloc, dtype, len, body, validity, shaped)
    }
}

// Whether parts have the shape that the encoding requires.
fn is_shaped(
    buffer: &BufferHandle,
    ptype: PType,
    nullability: Nullability,
    len: usize,
    validity: &Option<Array>,
) -> bool
    ensures shaped { IsTrue result ↔ IsWellShaped (label (primitive_tree ptype nullability len buffer.now validity.now)) (option_trees validity.now) }
    ensures sound { IsTrue result → EverywhereBelow IsSoundNode (option_trees validity.now) }
{
    let width = ptype.byte_width();
    is_filled(buffer, len, width, width) && is_validity(nullability, len, validity)
}
