//! Sets of statistics, and the types of statistics.

use std::alloc::Global;
use std::test::Fail;
use vx_scalars::{
    DType, DecimalDType, Nullability, PType, PValue, Precision, ScalarValue, Stat, StatsSet,
    TypeError,
};

fn count(value: u64) -> ScalarValue {
    ScalarValue::Primitive(PValue::U64(value))
}

// An exact least value, a bound on the greatest, and a count that was set and removed.
fn sample(alloc: Global) -> Result<StatsSet, TypeError> {
    let mut set = StatsSet::new(alloc);
    set.set(Stat::NullCount, Precision::Exact(count(3)))?;
    set.set(Stat::Min, Precision::Exact(count(5)))?;
    set.set(Stat::Min, Precision::Exact(count(1)))?;
    set.set(Stat::Max, Precision::Inexact(count(9)))?;
    set.set(Stat::NullCount, Precision::Absent)?;
    set.set(Stat::Sum, Precision::Absent)?;
    Ok(set)
}

// The number of a statistic, and whether it is exact.
fn told(set: &StatsSet, stat: Stat) -> Option<(u64, bool)> {
    match set.get(stat) {
        Precision::Exact(ScalarValue::Primitive(PValue::U64(n))) => Some((*n, true)),
        Precision::Inexact(ScalarValue::Primitive(PValue::U64(n))) => Some((*n, false)),
        _ => None,
    }
}

#[test]
fn a_set_keeps_the_last_that_was_told(rt: HostRuntime) -> Result<(), Fail> {
    let set = sample(rt.alloc())?.clone(rt.alloc())?;
    for stat in Stat::all() {
        let wanted = match stat {
            Stat::Min => Some((1, true)),
            Stat::Max => Some((9, false)),
            _ => None,
        };
        assert!(rt; told(&set, stat) == wanted);
    }
    assert_eq!(rt; set.iter().count(), 2);
    Ok(())
}

// Whether the type was found and is the wanted one.
fn is_type(found: &Option<DType>, wanted: &DType) -> bool {
    match found {
        Some(found) => *found == *wanted,
        None => false,
    }
}

// Whether a statistic of arrays of a type has this type.
fn has_type(alloc: Global, stat: Stat, dtype: &DType, wanted: &DType) -> Result<bool, TypeError> {
    match stat.dtype(alloc, dtype) {
        Ok(found) => Ok(is_type(&found, wanted)),
        Err(error) => Err(error),
    }
}

// Whether a statistic of numbers of one kind is of numbers of another.
fn has_kind(
    alloc: Global,
    stat: Stat,
    kind: PType,
    wanted: PType,
    n: Nullability,
) -> Result<bool, TypeError> {
    let dtype = DType::Primitive(kind, Nullability::NonNullable);
    let wanted = DType::Primitive(wanted, n);
    has_type(alloc, stat, &dtype, &wanted)
}

// Whether the sum of decimals of one precision has another.
fn has_digits(alloc: Global, precision: u8, wanted: u8) -> Result<bool, Fail> {
    let dtype = DType::Decimal(
        DecimalDType::try_new(precision, 2)?,
        Nullability::NonNullable,
    );
    let wanted = DType::Decimal(DecimalDType::try_new(wanted, 2)?, Nullability::Nullable);
    Ok(has_type(alloc, Stat::Sum, &dtype, &wanted)?)
}

// Whether arrays of variants have the statistic.
fn variants_have(alloc: Global, stat: Stat) -> Result<bool, TypeError> {
    let dtype = DType::Variant(Nullability::NonNullable);
    match stat.dtype(alloc, &dtype) {
        Ok(found) => Ok(found.is_some()),
        Err(error) => Err(error),
    }
}

#[test]
fn statistics_have_types(rt: HostRuntime) -> Result<(), Fail> {
    let alloc = rt.alloc();
    let plain = Nullability::NonNullable;
    let nullable = Nullability::Nullable;
    assert!(rt; has_kind(alloc, Stat::Min, PType::I16, PType::I16, plain)?);
    assert!(rt; has_kind(alloc, Stat::Sum, PType::I16, PType::I64, nullable)?);
    assert!(rt; has_kind(alloc, Stat::Sum, PType::F16, PType::F64, nullable)?);
    assert!(rt; has_kind(alloc, Stat::NullCount, PType::F16, PType::U64, plain)?);
    assert!(rt; has_digits(alloc, 10, 20)?);
    assert!(rt; has_digits(alloc, 70, 76)?);
    assert!(rt; !variants_have(alloc, Stat::Max)?);
    assert!(rt; variants_have(alloc, Stat::IsConstant)?);
    Ok(())
}

#[test]
fn a_set_fits_a_type(rt: HostRuntime) -> Result<(), Fail> {
    let set = sample(rt.alloc())?;
    let numbers = DType::Primitive(PType::U64, Nullability::NonNullable);
    let others = DType::Primitive(PType::U32, Nullability::NonNullable);
    let variants = DType::Variant(Nullability::Nullable);
    assert!(rt; set.validate(&numbers) == Ok(()));
    assert!(rt; set.validate(&others) == Err(TypeError::BadScalar));
    assert!(rt; set.validate(&variants) == Err(TypeError::BadScalar));
    assert!(rt; StatsSet::new(rt.alloc()).validate(&variants) == Ok(()));
    Ok(())
}
