//! The variant of a typed value that stands over another variant, which keeps what the typed one leaves out.

ghost use Rattle.std.specs.Prelude.{◌≡◌, ◌≤◌, ◌<◌, ◌++◌, List, [], Some, IfOk, IfErr, OnOk, IfSome, IsOkUnless, option_copied, option_map};
ghost use Rattle.vx_trees.specs.Rose.{node, end, more, roses_of};
ghost use Rattle.vx_trees.specs.Walks.{nodes, nodes_of};
ghost use Rattle.vx_types.specs.Fits.{EachFits, Fits, IsVariant};
ghost use Rattle.vx_types.specs.Kind.{list, variant};
ghost use Rattle.vx_types.specs.Seen.{typ};
ghost use Rattle.vx_types.specs.Value.{tuple, variant_of};
ghost use Rattle.vx_types.specs.declared.nullability.Nullability.TheVariants.{NonNullable, Nullable};
ghost use Rattle.vx_scalars.specs.Seen.{seen, value_of};
ghost use Rattle.vx_array_tree.specs.Merge.{Named, each_wrapped, kept, merge, merged, raw_field, raw_structure, structure_at, structure_in, variants, wrapped};
ghost use Rattle.vx_rows.specs.Merging.{AreNamed, IsStructured, RefusesMerge, fallback_of, fallback_value, given_at, left_over, listed, merged_structures, not_null, other_at, raw_of};

use crate::copies::copied_type;
use crate::error::ArrayError;
use crate::named_variants::NamedVariants;
use std::alloc::Global;
use vx_scalars::{Scalar, ScalarValue, Values, VariantRef};
use vx_types::{DType, Name, Nullability, StructFields, TypeRef, or_memory};

// A struct that is not null: its fields, and their values in the same order.
#[derive(Clone, Copy)]
pub(crate) struct Structure<'a> {
    fields: &'a StructFields,
    values: &'a Values,
}

// The struct that a value of a type is.
fn structure_of<'a>(dtype: &'a DType, value: &'a ScalarValue) -> Option<Structure<'a>>
    requires { Fits (value_of value.now) (typ dtype.now) }
    ensures found { option_map raw_of result ≡ structure_in (typ dtype.now) (value_of value.now) }
    ensures sound { IfSome result (λ s. IsStructured (raw_of s)) }
    ensures smaller { IfSome result (λ s. nodes_of (raw_of s).values < nodes (value_of value.now)) }
{
    // Asked for its clause, that the type is well formed.
    let _ = dtype.is_within(1);
    match (dtype, value) {
        (DType::Struct(fields, _), ScalarValue::Tuple(values)) => Some(Structure {
            fields,
            values,
        }),
        _ => None,
    }
}

// The struct that a scalar is.
pub(crate) fn structure_within(scalar: &Scalar) -> Option<Structure<'_>>
    ensures found { option_map raw_of result ≡ structure_in scalar.now.dtype scalar.now.value }
    ensures sound { IfSome result (λ s. IsStructured (raw_of s)) }
{
    match scalar.value() {
        Some(value) => structure_of(scalar.dtype(), value),
        None => None,
    }
}

// The struct that a value of a type is, itself or inside a variant. The type decides, not the value: an extension
// over Variant is no variant here.
fn raw_structure<'a>(dtype: &'a DType, value: &'a ScalarValue) -> Option<Structure<'a>>
    requires { Fits (value_of value.now) (typ dtype.now) }
    ensures found { option_map raw_of result ≡ raw_structure (typ dtype.now) (value_of value.now) }
    ensures sound { IfSome result (λ s. IsStructured (raw_of s)) }
{
    match (dtype, value) {
        (DType::Variant(_), ScalarValue::Variant(scalar)) => structure_within(scalar.get()),
        _ => structure_of(dtype, value),
    }
}

// The type and the value of the first field of a name, if it exists and is not null.
fn field_in<'a>(structure: Structure<'a>, name: &Name) -> Option<(&'a DType, &'a ScalarValue)>
    requires { IsStructured (raw_of structure) }
    ensures found { let r = raw_of structure.entry in
        option_map (λ f. (typ f.0.now, value_of f.1.now)) result ≡ not_null (raw_field name.now r.names r.types r.values) }
    ensures fits { IfSome result (λ f. Fits (value_of f.1.now) (typ f.0.now)) }
    ensures smaller { IfSome result (λ f. nodes (value_of f.1.now) ≤ nodes_of (raw_of structure.entry).values) }
{
    let names = structure.fields.names().as_slice();
    let types = structure.fields.fields().as_slice();
    let values = structure.values.as_slice();
    for i in 0..names.len().min(types.len()).min(values.len()) {
        if *name == names[i] {
            return match &values[i] {
                Some(value) => Some((&types[i], value)),
                None => None,
            };
        }
    }
    None
}

// The struct in the first field of a name.
fn structure_at<'a>(structure: Structure<'a>, name: &Name) -> Option<Structure<'a>>
    requires { IsStructured (raw_of structure) }
    ensures found { option_map raw_of result ≡ structure_at name.now (raw_of structure.entry) }
    ensures sound { IfSome result (λ s. IsStructured (raw_of s)) }
{
    match field_in(structure, name) {
        Some((dtype, value)) => raw_structure(dtype, value),
        None => None,
    }
}

// A value that fits a type, or a null, as a scalar of the type.
pub(crate) fn scalar_of(dtype: DType, value: Option<ScalarValue>) -> Scalar
    requires { Fits (seen value) (typ dtype) }
    ensures { result ≡ record { dtype = typ dtype; value = seen value } }
{
    match Scalar::try_new(dtype, value) {
        Ok(scalar) => scalar,
        Err(_) => unreachable!(),
    }
}

// A scalar as a value of type Variant.
pub(crate) fn as_variant(alloc: Global, scalar: Scalar) -> Result<ScalarValue, ArrayError>
    ensures ok { IfOk result (λ value. value_of value ≡ variant_of scalar.dtype scalar.value) }
    ensures err { IsOkUnless result ArrayError.OutOfMemory }
{
    match VariantRef::new(alloc, scalar) {
        Ok(variant) => Ok(ScalarValue::Variant(variant)),
        Err(_) => Err(ArrayError::OutOfMemory),
    }
}

// A copy of a value that may be null.
fn copied_value(
    alloc: Global,
    value: Option<&ScalarValue>,
) -> Result<Option<ScalarValue>, ArrayError>
    ensures ok { IfOk result (λ copy. seen copy ≡ seen (option_copied value.entry)) }
    ensures err { IsOkUnless result ArrayError.OutOfMemory }
{
    match value {
        None => Ok(None),
        Some(value) => match value.clone(alloc) {
            Ok(copy) => Ok(Some(copy)),
            Err(_) => Err(ArrayError::OutOfMemory),
        },
    }
}

// A copy of a scalar.
pub(crate) fn copied_scalar(alloc: Global, scalar: &Scalar) -> Result<Scalar, ArrayError>
    ensures ok { IfOk result (λ copy. copy ≡ scalar.now) }
    ensures err { IsOkUnless result ArrayError.OutOfMemory }
{
    match scalar.clone(alloc) {
        Ok(copy) => Ok(copy),
        Err(_) => Err(ArrayError::OutOfMemory),
    }
}

// The scalar that a value holds as a variant: its own for a variant that is not null, else the value itself.
fn wrapped(alloc: Global, dtype: &DType, value: Option<&ScalarValue>) -> Result<Scalar, ArrayError>
    requires { Fits (seen (option_copied value)) (typ dtype.now) }
    ensures ok { IfOk result (λ s. wrapped (typ dtype.now) (seen (option_copied value.entry)) ≡ variant_of s.dtype s.value) }
    ensures err { IsOkUnless result ArrayError.OutOfMemory }
{
    match (dtype, value) {
        (DType::Variant(_), Some(ScalarValue::Variant(scalar))) => {
            copied_scalar(alloc, scalar.get())
        }
        _ => {
            let dtype = copied_type(alloc, dtype)?;
            let value = copied_value(alloc, value)?;
            Ok(scalar_of(dtype, value))
        }
    }
}

// Each of the values as one of type Variant.
fn all_wrapped(alloc: Global, element: &DType, values: &Values) -> Result<Values, ArrayError>
    requires { EachFits (roses_of values.now) (typ element.now) }
    ensures ok { IfOk result (λ all. roses_of all ≡ each_wrapped (typ element.now) (roses_of values.now)) }
    ensures err { IsOkUnless result ArrayError.OutOfMemory }
{
    let mut all = Values::new(alloc);
    for value in values.as_slice() {
        let scalar = wrapped(alloc, element, value.as_ref())?;
        let value = as_variant(alloc, scalar)?;
        match all.push(Some(value)) {
            Ok(()) => {}
            Err(_) => return Err(ArrayError::OutOfMemory),
        }
    }
    Ok(all)
}

// The type of lists of variants.
fn lists_of_variants(alloc: Global) -> Result<DType, ArrayError>
    ensures ok { IfOk result (λ d. typ d ≡ node (list NonNullable) (more variants end)) }
    ensures err { IsOkUnless result ArrayError.OutOfMemory }
{
    let element = or_memory(TypeRef::new(alloc, DType::Variant(Nullability::NonNullable)))?;
    Ok(DType::List(element, Nullability::NonNullable))
}

// A list as one of variants.
fn list_of_variants(alloc: Global, element: &DType, values: &Values) -> Result<Scalar, ArrayError>
    requires { EachFits (roses_of values.now) (typ element.now) }
    ensures ok { let all = each_wrapped (typ element.now) (roses_of values.now) in
        IfOk result (λ s. s ≡ record { dtype = node (list NonNullable) (more variants end); value = node tuple all }) }
    ensures err { IsOkUnless result ArrayError.OutOfMemory }
{
    let all = all_wrapped(alloc, element, values)?;
    let dtype = lists_of_variants(alloc)?;
    Ok(scalar_of(dtype, Some(ScalarValue::Tuple(all))))
}

// A value that is not null over a raw struct, as the scalar of a variant: a struct is merged with it, any other value
// is wrapped.
#[cycle(merging)]
fn merged(
    alloc: Global,
    dtype: &DType,
    value: &ScalarValue,
    raw: Option<Structure<'_>>,
) -> Result<Scalar, ArrayError>
    requires fits { Fits (value_of value.now) (typ dtype.now) }
    requires raw { IfSome raw (λ s. IsStructured (raw_of s)) }
    ensures ok { IfOk result (λ s. merged (value_of value.now) (typ dtype.now) (option_map raw_of raw.entry) ≡ Some (variant_of s.dtype s.value)) }
    ensures err { IsOkUnless result ArrayError.OutOfMemory }
{
    match (structure_of(dtype, value), raw) {
        (Some(typed), Some(raw)) => joined(alloc, typed, raw),
        _ => wrapped(alloc, dtype, Some(value)),
    }
}

// A struct merged over a raw one: first its own fields, each merged with the raw field of the same name, then the raw
// fields whose names it does not give.
#[cycle(merging)]
fn joined(alloc: Global, typed: Structure<'_>, raw: Structure<'_>) -> Result<Scalar, ArrayError>
    requires typed { IsStructured (raw_of typed) }
    requires raw { IsStructured (raw_of raw) }
    ensures ok { IfOk result (λ s. merged_structures (raw_of typed.entry) (raw_of raw.entry) ≡ variant_of s.dtype s.value) }
    ensures err { IsOkUnless result ArrayError.OutOfMemory }
{
    let mut fields = NamedVariants::new(alloc);
    push_given(alloc, typed, raw, &mut fields)?;
    push_others(alloc, typed, raw, &mut fields)?;
    Ok(fields.into_scalar())
}

// Appends the typed fields that are not null, each merged with the raw field of the same name.
#[cycle(merging)]
fn push_given(
    alloc: Global,
    typed: Structure<'_>,
    raw: Structure<'_>,
    fields: &mut NamedVariants,
) -> Result<(), ArrayError>
    requires typed { IsStructured (raw_of typed) }
    requires raw { IsStructured (raw_of raw) }
    requires none { AreNamed fields.old [] }
    ensures ok { let t = raw_of typed.entry in
        OnOk result (AreNamed fields.new (listed (given_at t (raw_of raw.entry)) t.names)) }
    ensures err { IsOkUnless result ArrayError.OutOfMemory }
{
    for name in typed.fields.names().as_slice() {
        match field_in(typed, name) {
            Some((dtype, value)) => {
                let scalar = merged(alloc, dtype, value, structure_at(raw, name))?;
                fields.push(alloc, name, scalar)?;
            }
            None => {}
        }
    }
    Ok(())
}

// Appends the field of a name, if it exists and is not null.
fn push_field(
    alloc: Global,
    structure: Structure<'_>,
    name: &Name,
    fields: &mut NamedVariants,
) -> Result<(), ArrayError>
    requires { IsStructured (raw_of structure) }
    ensures ok { let r = raw_of structure.entry in
        (fs : List Named) → AreNamed fields.old fs → OnOk result (AreNamed fields.new (fs ++ kept name.now (left_over None (not_null (raw_field name.now r.names r.types r.values))))) }
    ensures err { IsOkUnless result ArrayError.OutOfMemory }
{
    match field_in(structure, name) {
        Some((dtype, value)) => {
            let scalar = wrapped(alloc, dtype, Some(value))?;
            fields.push(alloc, name, scalar)
        }
        None => Ok(()),
    }
}

// Appends the raw fields that are not null and whose names the typed struct does not give.
fn push_others(
    alloc: Global,
    typed: Structure<'_>,
    raw: Structure<'_>,
    fields: &mut NamedVariants,
) -> Result<(), ArrayError>
    requires typed { IsStructured (raw_of typed) }
    requires raw { IsStructured (raw_of raw) }
    ensures ok { let r = raw_of raw.entry in
        (fs : List Named) → AreNamed fields.old fs → OnOk result (AreNamed fields.new (fs ++ listed (other_at (raw_of typed.entry) r) r.names)) }
    ensures err { IsOkUnless result ArrayError.OutOfMemory }
{
    for name in raw.fields.names().as_slice() {
        match field_in(typed, name) {
            Some(_) => {}
            None => push_field(alloc, raw, name, fields)?,
        }
    }
    Ok(())
}

// A typed value that is not null over the struct of a fallback, as the scalar of a variant.
pub(crate) fn merged_over(
    alloc: Global,
    dtype: &DType,
    value: &ScalarValue,
    raw: Option<Structure<'_>>,
) -> Result<Scalar, ArrayError>
    requires fits { Fits (value_of value.now) (typ dtype.now) }
    requires raw { IfSome raw (λ s. IsStructured (raw_of s)) }
    ensures ok { IfOk result (λ s. merge (typ dtype.now) (value_of value.now) (fallback_of (option_map raw_of raw.entry)) ≡ variant_of s.dtype s.value) }
    ensures err { IsOkUnless result ArrayError.OutOfMemory }
{
    match (dtype, value) {
        (
            DType::List(element, _) | DType::FixedSizeList(element, _, _),
            ScalarValue::Tuple(values),
        ) => list_of_variants(alloc, element.get(), values),
        _ => merged(alloc, dtype, value, raw),
    }
}

// The struct that a variant holds, if any.
fn fallback_structure(value: Option<&ScalarValue>) -> Option<Structure<'_>>
    ensures found { option_map raw_of result ≡ raw_structure variants (seen (option_copied value.entry)) }
    ensures sound { IfSome result (λ s. IsStructured (raw_of s)) }
{
    match value {
        Some(ScalarValue::Variant(scalar)) => structure_within(scalar.get()),
        _ => None,
    }
}

// A value that may be null as one of a type.
fn cast(alloc: Global, value: Option<ScalarValue>, dtype: &DType) -> Result<Scalar, ArrayError>
    requires { IsVariant (typ dtype.now) × Fits (seen value) (node (variant Nullable) end) }
    ensures ok { IfOk result (λ s. s ≡ record { dtype = typ dtype.now; value = seen value }) }
    ensures err { IfErr result (λ e. RefusesMerge e (typ dtype.now) (seen value)) }
    ensures cast { RefusesMerge ArrayError.BadCast (typ dtype.now) (seen value) → IfOk result (λ _. ⊥) }
{
    if value.is_none() && dtype.nullability() == Nullability::NonNullable {
        return Err(ArrayError::BadCast);
    }
    let dtype = copied_type(alloc, dtype)?;
    Ok(scalar_of(dtype, value))
}

/// Merges a typed scalar over an optional fallback of type Variant. The result has the type `dtype`, which is Variant
/// too. The rules are those of `vortex-array`, but for null list elements, which this project wraps.
///
/// A null leaves the fallback, or null where there is none. A list is a variant of a list of variants, each of its
/// elements wrapped, but for a variant that is not null. A variant is itself. A struct over a fallback that holds one
/// is a variant of the two merged: of the typed fields that are not null, in their order, and then of those of the
/// fallback's whose names these do not give; a field that is a struct in both is merged in turn. Any other value is a
/// variant of itself.
///
/// `BadCast` exactly where what is merged is null, and `dtype` has no null.
pub fn merge_typed_scalar_as_variant(
    alloc: Global,
    typed: &Scalar,
    fallback: Option<&Scalar>,
    dtype: &DType,
) -> Result<Scalar, ArrayError>
    requires dtype { IsVariant (typ dtype.now) }
    requires fallback { IfSome (option_copied fallback) (λ s. IsVariant s.dtype) }
    ensures ok { let v = merge typed.now.dtype typed.now.value (fallback_value (option_copied fallback.entry)) in
        IfOk result (λ s. s ≡ record { dtype = typ dtype.now; value = v }) }
    ensures err { let v = merge typed.now.dtype typed.now.value (fallback_value (option_copied fallback.entry)) in
        IfErr result (λ e. RefusesMerge e (typ dtype.now) v) }
    ensures cast { let v = merge typed.now.dtype typed.now.value (fallback_value (option_copied fallback.entry)) in
        RefusesMerge ArrayError.BadCast (typ dtype.now) v → IfOk result (λ _. ⊥) }
{
    let under = match fallback {
        Some(scalar) => scalar.value(),
        None => None,
    };
    let value = match typed.value() {
        Some(value) => {
            let scalar = merged_over(alloc, typed.dtype(), value, fallback_structure(under))?;
            Some(as_variant(alloc, scalar)?)
        }
        None => copied_value(alloc, under)?,
    };
    cast(alloc, value, dtype)
}
