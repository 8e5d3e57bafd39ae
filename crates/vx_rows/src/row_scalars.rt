//! Rows' values as scalars' and back, and rows of variants under a typed child.

ghost use Rattle.std.specs.Prelude.{◌≡◌, Some, IfOk, IfSome, IsOkUnless, false, option_copied, option_map};
ghost use Rattle.vx_trees.specs.Rose.{roses_of};
ghost use Rattle.vx_types.specs.Fits.{Fits};
ghost use Rattle.vx_types.specs.Seen.{typ};
ghost use Rattle.vx_types.specs.Value.{has_opaque, have_opaque};
ghost use Rattle.vx_scalars.specs.Seen.{all_seen, seen, value_of};
ghost use Rattle.vx_array_tree.specs.Encodings.Variants.{merged_over, row_over};
ghost use Rattle.vx_array_tree.specs.Merge.{fallback_structure};
ghost use Rattle.vx_rows.specs.Merging.{IsStructured, raw_of};
ghost use Rattle.vx_rows.specs.Plain.{plain_value, plain_values};
ghost use Rattle.vx_rows.specs.RowScalars.{IsVariantRow, hides, laid_or};

use crate::copies::{owned_bytes, owned_text};
use crate::error::ArrayError;
use crate::merging::{Structure, as_variant, copied_scalar, merged_over, structure_within};
use crate::row::RowValue;
use crate::row_ref::RowRef;
use crate::row_values::RowValues;
use std::alloc::Global;
use vx_scalars::{Scalar, ScalarValue, ValueRef, Values};
use vx_types::DType;

// Whether a row holds something opaque.
#[cycle(opaque)]
#[tactic(auto, using(crate::proofs::SameRows::same_rows, crate::proofs::Scalared::opaque_rows))]
pub(crate) fn has_opaque(row: &RowValue) -> bool
    ensures { result ≡ has_opaque (plain_value row.now) }
{
    match row {
        RowValue::Opaque => true,
        RowValue::Tuple(rows) => have_opaque(rows.as_slice()),
        RowValue::Union(_, row) => has_opaque(row.get()),
        RowValue::Variant(scalar) => is_never_opaque(scalar),
        _ => false,
    }
}

// Whether one of these rows holds something opaque.
#[cycle(opaque)]
#[tactic(auto, using(crate::proofs::SameRows::same_rows, crate::proofs::Scalared::opaque_rows))]
fn have_opaque(rows: &[RowValue]) -> bool
    ensures { result ≡ have_opaque (roses_of (plain_values rows.now)) }
{
    for i in 0..rows.len() {
        if has_opaque(&rows[i]) {
            return true;
        }
    }
    false
}

// Whether a scalar holds something opaque: never. The value is asked for its clause, from which this follows.
#[tactic(auto, using(crate::proofs::Merged::plains))]
fn is_never_opaque(scalar: &Scalar) -> bool
    ensures none { result ≡ false }
    ensures same { result ≡ has_opaque scalar.now.value }
{
    let _ = scalar.value();
    false
}

// A row's value as a scalar's; `None` is a null.
#[cycle(scalars)]
#[tactic(auto, using(crate::proofs::SameRows::same_rows, crate::proofs::Scalared::row_values))]
pub(crate) fn scalar_value(alloc: Global, row: &RowValue) -> Result<Option<ScalarValue>, ArrayError>
    requires { has_opaque (plain_value row.now) ≡ false }
    ensures ok { IfOk result (λ value. seen value ≡ plain_value row.now) }
    ensures err { IsOkUnless result ArrayError.OutOfMemory }
{
    match row {
        RowValue::Null => Ok(None),
        RowValue::Opaque => unreachable!(),
        RowValue::Bool(flag) => Ok(Some(ScalarValue::Bool(*flag))),
        RowValue::Primitive(number) => Ok(Some(ScalarValue::Primitive(*number))),
        RowValue::Decimal(decimal) => Ok(Some(ScalarValue::Decimal(*decimal))),
        RowValue::Utf8(text) => Ok(Some(ScalarValue::Utf8(owned_text(alloc, text.as_str())?))),
        RowValue::Binary(bytes) => {
            let bytes = owned_bytes(alloc, bytes.as_slice())?;
            Ok(Some(ScalarValue::Binary(bytes)))
        }
        RowValue::Tuple(rows) => {
            let values = scalar_values(alloc, rows.as_slice())?;
            Ok(Some(ScalarValue::Tuple(values)))
        }
        RowValue::Union(tag, row) => {
            let value = scalar_value(alloc, row.get())?;
            Ok(Some(ScalarValue::Union(*tag, member_of(alloc, value)?)))
        }
        RowValue::Variant(scalar) => {
            let scalar = copied_scalar(alloc, scalar)?;
            Ok(Some(as_variant(alloc, scalar)?))
        }
    }
}

// The values of rows as a scalar's.
#[cycle(scalars)]
#[tactic(auto, using(crate::proofs::SameRows::same_rows, crate::proofs::Scalared::row_values))]
fn scalar_values(alloc: Global, rows: &[RowValue]) -> Result<Values, ArrayError>
    requires { have_opaque (roses_of (plain_values rows.now)) ≡ false }
    ensures ok { IfOk result (λ values. values ≡ plain_values rows.now) }
    ensures err { IsOkUnless result ArrayError.OutOfMemory }
{
    let mut values = Values::new(alloc);
    for i in 0..rows.len() {
        let value = scalar_value(alloc, &rows[i])?;
        match values.push(value) {
            Ok(()) => {}
            Err(_) => return Err(ArrayError::OutOfMemory),
        }
    }
    Ok(values)
}

// The value of a union's member.
fn member_of(alloc: Global, value: Option<ScalarValue>) -> Result<ValueRef, ArrayError>
    ensures ok { IfOk result (λ member. member ≡ seen value) }
    ensures err { IsOkUnless result ArrayError.OutOfMemory }
{
    match ValueRef::new(alloc, value) {
        Ok(member) => Ok(member),
        Err(_) => Err(ArrayError::OutOfMemory),
    }
}

impl RowValue {
    /// A scalar's value as a row's; `None` is a null.
    ///
    /// # Errors
    ///
    /// `OutOfMemory`.
    pub fn of_value(alloc: Global, value: Option<&ScalarValue>) -> Result<RowValue, ArrayError>
        ensures ok { IfOk result (λ row. plain_value row ≡ seen (option_copied value.entry)) }
        ensures err { IsOkUnless result ArrayError.OutOfMemory }
    {
        row_of_value(alloc, value)
    }
}

// A scalar's value as a row's; `None` is a null.
#[cycle(rows_of_scalars)]
#[tactic(auto, using(vx_scalars::proofs::LawsOfLists::decreasing, crate::proofs::Scalared::value_rows))]
fn row_of_value(alloc: Global, value: Option<&ScalarValue>) -> Result<RowValue, ArrayError>
    ensures ok { IfOk result (λ row. plain_value row ≡ seen (option_copied value.entry)) }
    ensures err { IsOkUnless result ArrayError.OutOfMemory }
{
    let Some(value) = value else {
        return Ok(RowValue::Null);
    };
    match value {
        ScalarValue::Bool(flag) => Ok(RowValue::Bool(*flag)),
        ScalarValue::Primitive(number) => Ok(RowValue::Primitive(*number)),
        ScalarValue::Decimal(decimal) => Ok(RowValue::Decimal(*decimal)),
        ScalarValue::Utf8(text) => Ok(RowValue::Utf8(owned_text(alloc, text.as_str())?)),
        ScalarValue::Binary(bytes) => {
            let bytes = owned_bytes(alloc, bytes.as_slice())?;
            Ok(RowValue::Binary(bytes))
        }
        ScalarValue::Tuple(values) => {
            let rows = rows_of_values(alloc, values.as_slice())?;
            Ok(RowValue::Tuple(rows))
        }
        ScalarValue::Union(tag, member) => {
            let row = row_of_value(alloc, member.get())?;
            Ok(RowValue::Union(*tag, RowRef::new(alloc, row)?))
        }
        ScalarValue::Variant(scalar) => {
            let scalar = copied_scalar(alloc, scalar.get())?;
            Ok(RowValue::Variant(scalar))
        }
    }
}

// Scalars' values as rows'.
#[cycle(rows_of_scalars)]
#[tactic(auto, using(vx_scalars::proofs::LawsOfLists::decreasing, crate::proofs::Scalared::value_rows))]
fn rows_of_values(alloc: Global, values: &[Option<ScalarValue>]) -> Result<RowValues, ArrayError>
    ensures ok { IfOk result (λ rows. rows ≡ all_seen values.now) }
    ensures err { IsOkUnless result ArrayError.OutOfMemory }
{
    let mut rows = RowValues::new(alloc);
    for value in values {
        let row = row_of_value(alloc, value.as_ref())?;
        rows.push(row)?;
    }
    Ok(rows)
}

/// A typed row over a core's: the core's where it is null, opaque where it holds something opaque, and else the two
/// merged. Whether it is opaque is judged first, as a scalar cannot say so.
pub fn row_over(
    alloc: Global,
    dtype: &DType,
    typed: RowValue,
    core: RowValue,
) -> Result<RowValue, ArrayError>
    requires fits { has_opaque (plain_value typed) ≡ false → Fits (plain_value typed) (typ dtype.now) }
    requires core { IsVariantRow (plain_value core) }
    ensures ok { IfOk result (λ row. plain_value row ≡ row_over (typ dtype.now) (plain_value typed) (plain_value core)) }
    ensures variant { IfOk result (λ row. IsVariantRow (plain_value row)) }
    ensures err { IsOkUnless result ArrayError.OutOfMemory }
{
    let laid = laid_over(alloc, dtype, &typed, &core);
    drop(typed);
    match laid {
        Ok(None) => Ok(core),
        Ok(Some(row)) => {
            drop(core);
            Ok(row)
        }
        Err(error) => {
            drop(core);
            Err(error)
        }
    }
}

// A typed row over a core's; None where it is null, which leaves the core's.
#[tactic(auto, using(crate::proofs::Scalared::rows_over))]
fn laid_over(
    alloc: Global,
    dtype: &DType,
    typed: &RowValue,
    core: &RowValue,
) -> Result<Option<RowValue>, ArrayError>
    requires fits { has_opaque (plain_value typed.now) ≡ false → Fits (plain_value typed.now) (typ dtype.now) }
    ensures ok { IfOk result (λ row. laid_or row (plain_value core.now) ≡ row_over (typ dtype.now) (plain_value typed.now) (plain_value core.now)) }
    ensures variant { IfOk result (λ row. IfSome row (λ r. IsVariantRow (plain_value r))) }
    ensures err { IsOkUnless result ArrayError.OutOfMemory }
{
    if has_opaque(typed) {
        return Ok(Some(RowValue::Opaque));
    }
    match scalar_value(alloc, typed)? {
        None => Ok(None),
        Some(value) => {
            let row = value_over(alloc, dtype, &value, core);
            drop(value);
            Ok(Some(row?))
        }
    }
}

// A value that is not null over a core's row. A struct over an opaque row is opaque.
#[tactic(auto, using(crate::proofs::Scalared::values_over))]
fn value_over(
    alloc: Global,
    dtype: &DType,
    value: &ScalarValue,
    core: &RowValue,
) -> Result<RowValue, ArrayError>
    requires { Fits (value_of value.now) (typ dtype.now) }
    ensures ok { IfOk result (λ row. plain_value row ≡ merged_over (typ dtype.now) (value_of value.now) (plain_value core.now)) }
    ensures variant { IfOk result (λ row. IsVariantRow (plain_value row)) }
    ensures err { IsOkUnless result ArrayError.OutOfMemory }
{
    if is_hidden(dtype, core) {
        return Ok(RowValue::Opaque);
    }
    let scalar = merged_over(alloc, dtype, value, core_structure(core))?;
    Ok(RowValue::Variant(scalar))
}

// The struct that a core's row holds, if any.
fn core_structure(core: &RowValue) -> Option<Structure<'_>>
    ensures found { option_map raw_of result ≡ fallback_structure (Some (plain_value core.now)) }
    ensures sound { IfSome result (λ s. IsStructured (raw_of s)) }
{
    match core {
        RowValue::Variant(scalar) => structure_within(scalar),
        _ => None,
    }
}

// Whether a core's row hides a typed value: whether it is opaque, and the value a struct.
fn is_hidden(dtype: &DType, core: &RowValue) -> bool
    ensures { result ≡ hides (typ dtype.now) (plain_value core.now) }
{
    match core {
        RowValue::Opaque => matches!(dtype, DType::Struct(_, _)),
        _ => false,
    }
}
