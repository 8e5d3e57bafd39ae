//! Arrays of decimals.

ghost use Rattle.std.specs.Prelude.{◌≡◌, ◌<◌, ◌↔◌, IfOk, IfErr, IsOkUnless, IsTrue, Some};
ghost use Rattle.vx_trees.specs.Everywhere.{EverywhereBelow};
ghost use Rattle.vx_trees.specs.Rose.{label, node, roses_of};
ghost use Rattle.vx_types.specs.Seen.{typ};
ghost use Rattle.vx_types.specs.Value.{lone};
ghost use Rattle.vx_array_tree.specs.Body as B;
ghost use Rattle.vx_array_tree.specs.Encodings.Decimals.{rows as rows_of_decimals};
ghost use Rattle.vx_array_tree.specs.Refused.{IsWellShaped};
ghost use Rattle.vx_array_tree.specs.Sound.{IsSound, IsSoundNode};
ghost use Rattle.vx_array_tree.specs.Tree.{Tree, option_trees, rows_below, untold};
ghost use Rattle.vx_arrays.specs.Compared.{compared_body};
ghost use Rattle.vx_arrays.specs.Decimals.{decimal_tree};
ghost use Rattle.vx_arrays.specs.NewBuffers.{RefusesBuffers, with_buffers};
ghost use Rattle.vx_rows.specs.Lone.{lone_mark};
ghost use Rattle.vx_arrays.specs.Refused.{RefusesMaking, IsOkOrMemory};

use crate::array::Array;
use crate::body::Body;
use crate::new_buffers::copied_validity;
use crate::validity::{is_validity, over_validity, validity_at};
use std::alloc::Global;
use std::marker::Model;
use vx_buffer::{BufferHandle, BufferHandles};
use vx_rows::{ArrayError, LoneRow, decimal_at, is_filled};
use vx_types::{DType, DecimalDType, DecimalType, Nullability};

/// What a decimal node holds: the unscaled integers, one after the other, each little-endian, and the width of each.
#[derive(Drop)]
pub struct DecimalData {
    values: BufferHandle,
    values_type: DecimalType,
}

impl Model for DecimalData {
    ghost use Rattle.vx_array_tree.specs.Encodings.Decimals.{Data, data_code};

    ghost Value = { Data };

    ghost coded = { data_code };

    ghost view = { λ x. record { values = x.values; values_type = x.values_type } };
}

impl DecimalData {
    /// The buffer of the integers.
    pub fn values(&self) -> &BufferHandle
        ensures { result.now ≡ self.now.values }
    {
        &self.values
    }

    /// The width of each integer.
    pub fn values_type(&self) -> DecimalType
        ensures { result ≡ self.now.values_type }
    {
        self.values_type
    }

    // Whether the integers and their widths are equal, whatever the alignments.
    #[tactic(auto, using(crate::proofs::Bodies::Decimals::decimal_bodies))]
    pub(crate) fn array_eq(&self, other: &DecimalData) -> bool
        ensures { IsTrue result ↔ (compared_body (B.decimal self.now) ≡ compared_body (B.decimal other.now)) }
    {
        self.values_type == other.values_type && self.values.array_eq(&other.values)
    }

    // The same integers again. No byte is copied.
    pub(crate) fn clone(&self, alloc: Global) -> Result<DecimalData, ArrayError>
        ensures ok { IfOk result (λ decimals. decimals ≡ self.now) }
        ensures err { IsOkUnless result ArrayError.OutOfMemory }
    {
        Ok(DecimalData {
            values: self.values.clone(alloc)?,
            values_type: self.values_type,
        })
    }

    // A row in a node of this type, length and children.
    pub(crate) fn row_at(
        &self,
        dtype: &DType,
        len: usize,
        children: &[Array],
        index: usize,
    ) -> LoneRow<'static>
        requires sound { IsSoundNode (untold (typ dtype.now) len (B.decimal self.now)) (roses_of children.now) }
        requires inside { index < len }
        ensures { let rows = rows_of_decimals len self.now (rows_below (roses_of children.now)) in
            lone (lone_mark result) ≡ rows.row index }
    {
        match dtype {
            DType::Decimal(_, _) => {}
            _ => unreachable!(),
        }
        match validity_at(children, len, index) {
            None => LoneRow::Opaque,
            Some(false) => LoneRow::Null,
            Some(true) => {
                let width = self.values_type.byte_width();
                let rest = &self.values.as_host().as_slice()[width * index..];
                LoneRow::Decimal(decimal_at(self.values_type, rest))
            }
        }
    }

    // The array of a node of this type, length and children that holds these buffers in place of its own.
    pub(crate) fn with_buffers(
        &self,
        alloc: Global,
        dtype: &DType,
        len: usize,
        children: &[Array],
        buffers: BufferHandles,
    ) -> Result<Array, ArrayError>
        requires { IsSoundNode (untold (typ dtype.now) len (B.decimal self.now)) (roses_of children.now) }
        ensures ok { let t : Tree = node (untold (typ dtype.now) len (B.decimal self.now)) (roses_of children.now) in
            IfOk result (λ a. with_buffers t buffers ≡ Some a) }
        ensures sound { IfOk result IsSound }
        ensures err { let t : Tree = node (untold (typ dtype.now) len (B.decimal self.now)) (roses_of children.now) in
            IfErr result (λ e. RefusesBuffers e t buffers) }
        ensures complete { let t : Tree = node (untold (typ dtype.now) len (B.decimal self.now)) (roses_of children.now) in
            (u : Tree) → with_buffers t buffers ≡ Some u → IsSound u → IsOkOrMemory result }
    {
        let Some(values) = buffers.only_buffer() else {
            return Err(ArrayError::BadShape);
        };
        let width = self.values_type;
        match dtype {
            DType::Decimal(digits, nullability) => {
                let validity = copied_validity(alloc, children, len)?;
                DecimalArray::try_new(alloc, values, width, *digits, *nullability, len, validity)
            }
            _ => unreachable!(),
        }
    }
}

/// Arrays of decimals, by their unscaled integers, one after the other in a buffer.
pub struct DecimalArray {}

impl DecimalArray {
    /// The identifier of the encoding.
    pub const ID: &'static str = "vortex.decimal";

    /// The array of `len` decimals whose unscaled integers the buffer holds, each of the width `values_type`,
    /// little-endian and aligned to that width or, where it is wider, to 16 bytes. The width may exceed that of the
    /// digits, and the integers are not checked against the digits. `validity` says of each row whether it is valid.
    ///
    /// `ForeignControl` where the array would be sound but for a foreign node in the validity, and `BadShape` where
    /// the parts do not fit otherwise.
    pub fn try_new(
        alloc: Global,
        buffer: BufferHandle,
        values_type: DecimalType,
        decimal: DecimalDType,
        nullability: Nullability,
        len: usize,
        validity: Option<Array>,
    ) -> Result<Array, ArrayError>
        ensures ok { IfOk result (λ a. a ≡ decimal_tree buffer values_type decimal nullability len validity) }
        ensures sound { IfOk result IsSound }
        ensures err { IfErr result (λ e. RefusesMaking e (decimal_tree buffer values_type decimal nullability len validity)) }
        ensures complete { IsSound (decimal_tree buffer values_type decimal nullability len validity) → IsOkOrMemory result }
    {
        let shaped = is_shaped(&buffer, values_type, decimal, nullability, len, &validity);
        let dtype = DType::Decimal(decimal, nullability);
        let body = Body::Decimal(DecimalData {
            values: buffer,
            values_type,
        });
        over_validity(alloc, dtype, len, body, validity, shaped)
    }
}

// Whether parts have the shape that the encoding requires.
fn is_shaped(
    buffer: &BufferHandle,
    values_type: DecimalType,
    decimal: DecimalDType,
    nullability: Nullability,
    len: usize,
    validity: &Option<Array>,
) -> bool
    ensures shaped { IsTrue result ↔ IsWellShaped (label (decimal_tree buffer.now values_type decimal nullability len validity.now)) (option_trees validity.now) }
    ensures sound { IsTrue result → EverywhereBelow IsSoundNode (option_trees validity.now) }
{
    let width = values_type.byte_width();
    is_filled(buffer, len, width, width.min(16)) && is_validity(nullability, len, validity)
}
