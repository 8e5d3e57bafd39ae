//! Values that fit a type and values that do not, by number.

use std::alloc::Global;
use std::test::Fail;
use vx_scalars::{DecimalValue, Scalar, ScalarValue, ValueRef, Values, VariantRef};
use vx_types::{
    Blob, DType, DTypes, DecimalDType, ExtDType, Id, MapDType, Name, Names, Nullability, PType,
    PValue, StructFields, TypeError, TypeIds, TypeRef, UnionVariants,
};

const PLAIN: Nullability = Nullability::NonNullable;

fn number(value: i32) -> ScalarValue {
    ScalarValue::Primitive(PValue::I32(value))
}

fn i32_type() -> DType {
    DType::Primitive(PType::I32, PLAIN)
}

fn text(alloc: Global, text: &str) -> Result<ScalarValue, TypeError> {
    Ok(ScalarValue::Utf8(Name::new(alloc, text)?))
}

// `count` times the number 7.
fn sevens(alloc: Global, count: usize) -> Result<Values, TypeError> {
    let mut values = Values::new(alloc);
    for _ in 0..count {
        values.push(Some(number(7)))?;
    }
    Ok(values)
}

// A tuple of one tuple of `count` numbers.
fn nested(alloc: Global, count: usize) -> Result<ScalarValue, TypeError> {
    let mut values = Values::new(alloc);
    values.push(Some(ScalarValue::Tuple(sevens(alloc, count)?)))?;
    Ok(ScalarValue::Tuple(values))
}

fn names(alloc: Global) -> Result<Names, TypeError> {
    let mut names = Names::new(alloc);
    names.push(Name::new(alloc, "a")?)?;
    names.push(Name::new(alloc, "b")?)?;
    Ok(names)
}

fn two_types(alloc: Global) -> Result<DTypes, TypeError> {
    let mut types = DTypes::new(alloc);
    types.push(i32_type())?;
    types.push(i32_type())?;
    Ok(types)
}

fn structure(alloc: Global) -> Result<DType, TypeError> {
    let fields = StructFields::try_new(names(alloc)?, two_types(alloc)?)?;
    Ok(DType::Struct(fields, PLAIN))
}

fn union(alloc: Global) -> Result<DType, TypeError> {
    let ids = TypeIds::copy_from(alloc, &[5, 9])?;
    let members = UnionVariants::try_new(names(alloc)?, two_types(alloc)?, ids)?;
    Ok(DType::Union(members, PLAIN))
}

fn extension(alloc: Global) -> Result<DType, TypeError> {
    let id = Id::new(alloc, "x.day")?;
    let ext = ExtDType::new(alloc, id, Blob::copy_from(alloc, &[])?, i32_type())?;
    Ok(DType::Extension(ext))
}

// A type, by number.
fn dtype(alloc: Global, which: usize) -> Result<DType, TypeError> {
    match which {
        0 => Ok(DType::Bool(PLAIN)),
        1 => Ok(i32_type()),
        2 => Ok(DType::Primitive(PType::U32, Nullability::Nullable)),
        3 => Ok(DType::Decimal(DecimalDType::try_new(5, 2)?, PLAIN)),
        4 => Ok(DType::Utf8(PLAIN)),
        5 => Ok(DType::List(TypeRef::new(alloc, i32_type())?, PLAIN)),
        6 => Ok(DType::FixedSizeList(TypeRef::new(alloc, i32_type())?, 2, PLAIN)),
        7 => structure(alloc),
        8 => union(alloc),
        9 => Ok(DType::Map(MapDType::new(alloc, i32_type(), i32_type(), false)?, PLAIN)),
        10 => Ok(DType::Variant(PLAIN)),
        _ => extension(alloc),
    }
}

// A value, by number; 0 is null.
fn value(alloc: Global, which: usize) -> Result<Option<ScalarValue>, TypeError> {
    match which {
        0 => Ok(None),
        1 => Ok(Some(ScalarValue::Bool(true))),
        2 => Ok(Some(number(-7))),
        3 => Ok(Some(ScalarValue::Decimal(DecimalValue::I256([0; 32])))),
        4 => Ok(Some(text(alloc, "hi")?)),
        5 => Ok(Some(ScalarValue::Tuple(sevens(alloc, 2)?))),
        6 => Ok(Some(ScalarValue::Tuple(sevens(alloc, 3)?))),
        7 => Ok(Some(nested(alloc, 2)?)),
        8 => Ok(Some(nested(alloc, 1)?)),
        9 => Ok(Some(ScalarValue::Union(9, ValueRef::new(alloc, Some(number(1)))?))),
        10 => Ok(Some(ScalarValue::Union(6, ValueRef::new(alloc, Some(number(1)))?))),
        11 => Ok(Some(ScalarValue::Union(9, ValueRef::new(alloc, None)?))),
        _ => {
            let scalar = Scalar::try_new(i32_type(), Some(number(1)))?;
            Ok(Some(ScalarValue::Variant(VariantRef::new(alloc, scalar)?)))
        }
    }
}

// Whether the value fits the type.
fn is_fit(dtype: &DType, value: &Option<ScalarValue>) -> bool {
    Scalar::validate(dtype, value.as_ref()).is_ok()
}

// Whether the value of this number fits the type.
fn fits_type(alloc: Global, dtype: &DType, which: usize) -> Result<bool, TypeError> {
    match value(alloc, which) {
        Ok(value) => Ok(is_fit(dtype, &value)),
        Err(error) => Err(error),
    }
}

// Whether a value fits a type, both by number.
fn fits(alloc: Global, of: usize, which: usize) -> Result<bool, TypeError> {
    let dtype = dtype(alloc, of)?;
    fits_type(alloc, &dtype, which)
}

// Whether the value of this number is copied; false for the null.
fn is_copied(alloc: Global, which: usize) -> Result<bool, TypeError> {
    match value(alloc, which) {
        Ok(Some(value)) => Ok(value.clone(alloc).is_ok()),
        Ok(None) => Ok(false),
        Err(error) => Err(error),
    }
}

// A scalar and its copy.
fn scalar(alloc: Global, value: Option<ScalarValue>) -> Result<Scalar, TypeError> {
    let numbers = DType::Primitive(PType::I32, Nullability::Nullable);
    let scalar = Scalar::try_new(numbers, value)?;
    scalar.clone(alloc)
}

#[test]
fn copies_are_made(rt: HostRuntime) -> Result<(), Fail> {
    let alloc = rt.alloc();
    for which in 1..13 {
        assert!(rt; is_copied(alloc, which)?, "value {which}");
    }
    assert!(rt; scalar(alloc, None)?.is_null());
    assert!(rt; !scalar(alloc, Some(number(4)))?.is_null());
    Ok(())
}

#[test]
fn values_fit_their_types_alone(rt: HostRuntime) -> Result<(), Fail> {
    let alloc = rt.alloc();
    for (of, which) in [
        (0, 1),
        (1, 2),
        (2, 0),
        (3, 3),
        (4, 4),
        (5, 5),
        (5, 6),
        (6, 5),
        (7, 5),
        (8, 9),
        (9, 7),
        (10, 12),
        (11, 2),
    ] {
        assert!(rt; fits(alloc, of, which)?, "value {which} at type {of}");
    }
    for (of, which) in [
        (0, 0),
        (1, 0),
        (2, 2),
        (4, 3),
        (5, 4),
        (5, 7),
        (6, 6),
        (7, 6),
        (8, 10),
        (8, 11),
        (9, 5),
        (9, 8),
        (10, 2),
        (11, 1),
    ] {
        assert!(rt; !fits(alloc, of, which)?, "value {which} at type {of}");
    }
    Ok(())
}
