//! The scalars that are merged.

use std::alloc::Global;
use vx_scalars::{Scalar, ScalarValue, Values, VariantRef};
use vx_test_arrays::parts::both;
use vx_types::{
    Blob, DType, DTypes, ExtDType, Id, Name, Names, Nullability, PType, PValue, StructFields,
    TypeError, TypeRef,
};

const NEVER: Nullability = Nullability::NonNullable;

/// Rows may be null.
pub(crate) const MAYBE: Nullability = Nullability::Nullable;

/// A scalar, or why it is not made.
pub(crate) type Made = Result<Scalar, TypeError>;

/// A number of 32 bits.
pub(crate) fn small(number: i32) -> Made {
    let value = ScalarValue::Primitive(PValue::I32(number));
    Scalar::try_new(DType::Primitive(PType::I32, NEVER), Some(value))
}

/// A number of 64 bits.
pub(crate) fn wide(number: i64) -> Made {
    let value = ScalarValue::Primitive(PValue::I64(number));
    Scalar::try_new(DType::Primitive(PType::I64, NEVER), Some(value))
}

/// A flag.
pub(crate) fn flag(flag: bool) -> Made {
    Scalar::try_new(DType::Bool(NEVER), Some(ScalarValue::Bool(flag)))
}

/// The null of a text type.
pub(crate) fn no_text() -> Made {
    Scalar::try_new(DType::Utf8(MAYBE), None)
}

/// The null of a variant type.
pub(crate) fn no_variant() -> Made {
    Scalar::try_new(DType::Variant(MAYBE), None)
}

// A scalar as a variant, of this nullability.
fn wrapped(alloc: Global, scalar: Scalar, nullability: Nullability) -> Made {
    let value = ScalarValue::Variant(VariantRef::new(alloc, scalar)?);
    Scalar::try_new(DType::Variant(nullability), Some(value))
}

/// A scalar as a variant.
pub(crate) fn variant(alloc: Global, scalar: Made) -> Made {
    match scalar {
        Ok(scalar) => wrapped(alloc, scalar, NEVER),
        Err(e) => Err(e),
    }
}

/// The same, of a type that lets rows be null.
pub(crate) fn maybe(alloc: Global, scalar: Made) -> Made {
    match scalar {
        Ok(scalar) => wrapped(alloc, scalar, MAYBE),
        Err(e) => Err(e),
    }
}

// The extension over a storage type.
fn extension_over(alloc: Global, storage: DType) -> Result<ExtDType, TypeError> {
    let id = Id::new(alloc, "test.ext")?;
    let metadata = Blob::copy_from(alloc, &[1])?;
    ExtDType::new(alloc, id, metadata, storage)
}

// A value of that extension.
fn extended_by(alloc: Global, storage: DType, value: Option<ScalarValue>) -> Made {
    match extension_over(alloc, storage) {
        Ok(ext) => Scalar::try_new(DType::Extension(ext), value),
        Err(_) => {
            drop(value);
            Err(TypeError::OutOfMemory)
        }
    }
}

/// The same value at an extension over the scalar's type.
pub(crate) fn extended(alloc: Global, scalar: Made) -> Made {
    match scalar {
        Ok(scalar) => {
            let (dtype, value) = scalar.into_parts();
            extended_by(alloc, dtype, value)
        }
        Err(e) => Err(e),
    }
}

/// Names, types and values, in one order.
#[derive(Drop)]
pub(crate) struct Parts {
    names: Names,
    types: DTypes,
    values: Values,
}

/// Parts, or why one of them is not made.
pub(crate) type Fields = Result<Parts, TypeError>;

/// No parts.
pub(crate) fn none(alloc: Global) -> Fields {
    Ok(Parts {
        names: Names::new(alloc),
        types: DTypes::new(alloc),
        values: Values::new(alloc),
    })
}

// One part more.
fn put(mut parts: Parts, name: Name, scalar: Scalar) -> Fields {
    let (dtype, value) = scalar.into_parts();
    let named = parts.names.push(name);
    let typed = parts.types.push(dtype);
    let valued = parts.values.push(value);
    match (named, typed, valued) {
        (Ok(()), Ok(()), Ok(())) => Ok(parts),
        _ => {
            drop(parts);
            Err(TypeError::OutOfMemory)
        }
    }
}

// A name.
fn name_of(alloc: Global, name: &str) -> Result<Name, TypeError> {
    match Name::new(alloc, name) {
        Ok(name) => Ok(name),
        Err(_) => Err(TypeError::OutOfMemory),
    }
}

/// One part more, under a name.
pub(crate) fn with(alloc: Global, fields: Fields, name: &str, scalar: Made) -> Fields {
    match both(both(fields, scalar), name_of(alloc, name)) {
        Ok(((parts, scalar), name)) => put(parts, name, scalar),
        Err(e) => Err(e),
    }
}

// A tuple of these values, or a null.
fn tuple(values: Values, there: bool) -> Option<ScalarValue> {
    if there {
        Some(ScalarValue::Tuple(values))
    } else {
        drop(values);
        None
    }
}

// The struct of parts, or the null of its type.
fn structure_of(parts: Parts, there: bool) -> Made {
    let fields = StructFields::try_new(parts.names, parts.types);
    let value = tuple(parts.values, there);
    match fields {
        Ok(fields) => Scalar::try_new(DType::Struct(fields, MAYBE), value),
        Err(_) => {
            drop(value);
            Err(TypeError::BadScalar)
        }
    }
}

/// A struct of these fields.
pub(crate) fn structure(fields: Fields) -> Made {
    match fields {
        Ok(parts) => structure_of(parts, true),
        Err(e) => Err(e),
    }
}

/// The null of a struct type with these fields.
pub(crate) fn no_structure(fields: Fields) -> Made {
    match fields {
        Ok(parts) => structure_of(parts, false),
        Err(e) => Err(e),
    }
}

// A type as that of elements.
fn element_of(alloc: Global, dtype: &DType) -> Result<TypeRef, TypeError> {
    TypeRef::new(alloc, dtype.clone(alloc)?)
}

// The type of these elements: that of the first.
fn element(alloc: Global, types: &DTypes) -> Result<TypeRef, TypeError> {
    match types.as_slice() {
        [first, ..] => match element_of(alloc, first) {
            Ok(part) => Ok(part),
            Err(_) => Err(TypeError::OutOfMemory),
        },
        [] => Err(TypeError::BadScalar),
    }
}

// The type of the elements, and their values.
fn elements(alloc: Global, parts: Parts) -> Result<(TypeRef, Values), TypeError> {
    let part = element(alloc, &parts.types);
    drop(parts.types);
    drop(parts.names);
    both(part, Ok(parts.values))
}

/// A list of these values, whose names do not matter, of the type of the first.
pub(crate) fn list(alloc: Global, fields: Fields) -> Made {
    let (part, values) = elements(alloc, fields?)?;
    Scalar::try_new(DType::List(part, MAYBE), Some(ScalarValue::Tuple(values)))
}

/// The same, of a type of fixed-size lists of `size` elements.
pub(crate) fn fixed_list(alloc: Global, fields: Fields, size: u32) -> Made {
    let (part, values) = elements(alloc, fields?)?;
    let dtype = DType::FixedSizeList(part, size, MAYBE);
    Scalar::try_new(dtype, Some(ScalarValue::Tuple(values)))
}
