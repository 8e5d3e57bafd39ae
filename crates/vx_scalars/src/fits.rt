//! Whether values fit types.

ghost use Rattle.std.specs.Prelude.{◌≡◌, ◌↔◌, IsTrue, option_copied};
ghost use Rattle.vx_trees.specs.Rose.{end, more, count, roses_of};
ghost use Rattle.vx_types.specs.Fits.{Fits, FitParts, FitsMember, EachFits, FitBy, bare};
ghost use Rattle.vx_types.specs.Seen.{typ, typs};
ghost use Rattle.vx_types.specs.Words.{entries};
ghost use Rattle.vx_scalars.specs.Seen.{seen, all_seen};

use crate::value::ScalarValue;
use crate::value_ref::ValueRef;
use crate::values::Values;
use vx_types::{DType, MapDType, Nullability};

/// The storage type of an extension, through extensions of extensions; any other type
/// is itself.
pub fn bare_dtype(dtype: &DType) -> &DType
    ensures { typ result.now ≡ bare (typ dtype.now) }
{
    match dtype {
        DType::Extension(ext) => bare_dtype(ext.storage_dtype()),
        _ => dtype,
    }
}

// Whether a value fits a type; `None` is a null.
#[cycle(fits)]
#[tactic(auto, using(crate::proofs::LawsOfLists::decreasing))]
pub(crate) fn fits(value: Option<&ScalarValue>, dtype: &DType) -> bool
    ensures { IsTrue result ↔ Fits (seen (option_copied value.entry)) (typ dtype.now) }
{
    let Some(value) = value else {
        return dtype.nullability() == Nullability::Nullable;
    };
    let dtype = bare_dtype(dtype);
    match value {
        ScalarValue::Bool(_) => matches!(dtype, DType::Bool(_)),
        ScalarValue::Primitive(number) => match dtype {
            DType::Primitive(kind, _) => number.ptype() == *kind,
            _ => false,
        },
        ScalarValue::Decimal(_) => matches!(dtype, DType::Decimal(_, _)),
        ScalarValue::Utf8(_) => matches!(dtype, DType::Utf8(_)),
        ScalarValue::Binary(_) => matches!(dtype, DType::Binary(_)),
        ScalarValue::Tuple(values) => fit_parts(values, dtype),
        ScalarValue::Union(tag, value) => fits_member(*tag, value, dtype),
        ScalarValue::Variant(scalar) => scalar.get().fits_variant(dtype),
    }
}

// Whether the parts of a tuple fit a type that is no extension.
#[cycle(fits)]
#[tactic(auto, using(crate::proofs::LawsOfLists::decreasing))]
fn fit_parts(values: &Values, dtype: &DType) -> bool
    ensures { IsTrue result ↔ FitParts (count (roses_of values.now)) (λ e. EachFits (roses_of values.now) e)
        (λ ts. FitBy (roses_of values.now) ts) (typ dtype.now) }
{
    match dtype {
        DType::List(element, _) => each_fits(values.as_slice(), element.get()),
        DType::FixedSizeList(element, size, _) => {
            values.len() == *size as usize && each_fits(values.as_slice(), element.get())
        }
        DType::Struct(fields, _) => fit_by(values.as_slice(), fields.fields().as_slice()),
        DType::Map(map, _) => each_is_entry(values.as_slice(), map),
        _ => false,
    }
}

// Whether each of the values fits a type.
#[cycle(fits)]
#[tactic(auto, using(crate::proofs::LawsOfLists::decreasing))]
fn each_fits(values: &[Option<ScalarValue>], dtype: &DType) -> bool
    ensures { IsTrue result ↔ EachFits (roses_of (all_seen values.now)) (typ dtype.now) }
{
    for value in values {
        if !fits(value.as_ref(), dtype) {
            return false;
        }
    }
    true
}

// Whether there are as many values as types, and each fits the type at its index.
#[cycle(fits)]
#[tactic(auto, using(crate::proofs::LawsOfLists::decreasing))]
fn fit_by(values: &[Option<ScalarValue>], dtypes: &[DType]) -> bool
    ensures { IsTrue result ↔ FitBy (roses_of (all_seen values.now)) (roses_of (typs dtypes.now)) }
{
    if values.len() != dtypes.len() {
        return false;
    }
    for i in 0..values.len() {
        if !fits(values[i].as_ref(), &dtypes[i]) {
            return false;
        }
    }
    true
}

// Whether each of the values is an entry of a map.
#[cycle(fits)]
#[tactic(auto, using(crate::proofs::LawsOfLists::decreasing))]
fn each_is_entry(values: &[Option<ScalarValue>], map: &MapDType) -> bool
    ensures { IsTrue result ↔ EachFits (roses_of (all_seen values.now)) (entries map.now) }
{
    for value in values {
        if !is_entry(value.as_ref(), map) {
            return false;
        }
    }
    true
}

// Whether a value is an entry of a map: a tuple of a key and a value.
#[cycle(fits)]
#[tactic(auto, using(crate::proofs::LawsOfLists::decreasing))]
fn is_entry(value: Option<&ScalarValue>, map: &MapDType) -> bool
    ensures { IsTrue result ↔ Fits (seen (option_copied value.entry)) (entries map.now) }
{
    match value {
        Some(ScalarValue::Tuple(parts)) => {
            let parts = parts.as_slice();
            if parts.len() != 2 {
                return false;
            }
            fits(parts[0].as_ref(), map.key_dtype()) && fits(parts[1].as_ref(), map.value_dtype())
        }
        _ => false,
    }
}

// Whether the value under a tag fits the member that the tag names.
#[cycle(fits)]
#[tactic(auto, using(crate::proofs::LawsOfLists::decreasing))]
fn fits_member(tag: u8, value: &ValueRef, dtype: &DType) -> bool
    ensures { IsTrue result ↔ FitsMember tag (λ ts. FitBy (more value.now end) ts) (typ dtype.now) }
{
    match dtype {
        DType::Union(variants, _) => match variants.tag_to_child_index(tag) {
            Some(index) => fits(value.get(), &variants.variants().as_slice()[index]),
            None => false,
        },
        _ => false,
    }
}
