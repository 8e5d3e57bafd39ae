//! Tests of the statistics of arrays.

use std::alloc::Global;
use vx_array_tests::parts::{Made, copy_of, numbers};
use vx_arrays::{Array, ArrayError};
use vx_scalars::{Precision, ScalarValue, Stat, StatsSet};
use vx_types::{PType, PValue, TypeError};

// A set of one exact statistic, which is a number.
fn set_of(alloc: Global, stat: Stat, number: PValue) -> Result<StatsSet, TypeError> {
    let mut set = StatsSet::new(alloc);
    set.set(stat, Precision::Exact(ScalarValue::Primitive(number)))?;
    Ok(set)
}

// Gives an array the set of one exact statistic.
fn tell(alloc: Global, array: &mut Array, stat: Stat, number: PValue) -> Result<(), TypeError> {
    let set = set_of(alloc, stat, number)?;
    array.set_all(set)
}

// The number of an exact statistic.
fn told(array: &Array, stat: Stat) -> Option<PValue> {
    match array.statistics().get(stat) {
        Precision::Exact(ScalarValue::Primitive(number)) => Some(*number),
        _ => None,
    }
}

/// An array, if it was made, once it was given a number of one of its statistics with this result.
pub(crate) fn answered(
    alloc: Global,
    made: Made,
    stat: Stat,
    number: PValue,
    answer: Result<(), TypeError>,
) -> Made {
    let mut array = made?;
    if tell(alloc, &mut array, stat, number) == answer {
        return Ok(array);
    }
    drop(array);
    Err(ArrayError::BadContent)
}

/// The number of an exact statistic of an array, if that was made.
pub(crate) fn told_of(made: Made, stat: Stat) -> Result<Option<PValue>, ArrayError> {
    let array = made?;
    let number = told(&array, stat);
    drop(array);
    Ok(number)
}

// Two numbers of a byte each.
fn pair(alloc: Global) -> Made {
    numbers(alloc, &[1, 2], PType::U8, 2)
}

// A statistic of the two, once they were given a number of it with this result.
fn told_after(
    alloc: Global,
    stat: Stat,
    number: PValue,
    answer: Result<(), TypeError>,
) -> Result<Option<PValue>, ArrayError> {
    told_of(answered(alloc, pair(alloc), stat, number, answer), stat)
}

// Statistics, each with a number of its type, and one of another type.
const NUMBERS: [(Stat, PValue, PValue); 5] = [
    (Stat::Min, PValue::U8(1), PValue::U16(1)),
    (Stat::Max, PValue::U8(2), PValue::I8(2)),
    (Stat::Sum, PValue::U64(3), PValue::U8(3)),
    (Stat::NullCount, PValue::U64(0), PValue::I64(0)),
    (
        Stat::UncompressedSizeInBytes,
        PValue::U64(2),
        PValue::F64(2),
    ),
];

#[test]
fn a_statistic_is_of_its_type(rt: HostRuntime) {
    let alloc = rt.alloc();
    for (stat, number, other) in &NUMBERS {
        let told = told_after(alloc, *stat, *number, Ok(()));
        assert!(rt; told == Ok(Some(*number)));
        let refused = told_after(alloc, *stat, *other, Err(TypeError::BadScalar));
        assert!(rt; refused == Ok(None));
    }
}

// Two numbers with a least value, after another least value was refused.
fn least_told(alloc: Global) -> Made {
    let told = answered(alloc, pair(alloc), Stat::Min, PValue::U8(1), Ok(()));
    let refused = Err(TypeError::BadScalar);
    answered(alloc, told, Stat::Min, PValue::U16(0), refused)
}

// The same, once another set was given.
fn least_replaced(alloc: Global) -> Made {
    answered(alloc, least_told(alloc), Stat::Max, PValue::U8(2), Ok(()))
}

// The number of statistics of an array.
fn told_count(array: &Array) -> usize {
    array.statistics().iter().count()
}

// Whether an array, if it was made, has no statistics.
fn is_untold(made: Made) -> bool {
    match made {
        Ok(array) => {
            let count = told_count(&array);
            drop(array);
            count == 0
        }
        Err(_) => false,
    }
}

#[test]
fn statistics_are_kept_and_replaced(rt: HostRuntime) {
    let alloc = rt.alloc();
    let least = Ok(Some(PValue::U8(1)));
    assert!(rt; told_of(least_told(alloc), Stat::Min) == least);
    assert!(rt; told_of(copy_of(alloc, least_told(alloc)), Stat::Min) == least);
    assert!(rt; is_untold(pair(alloc)));
    assert!(rt; told_of(least_replaced(alloc), Stat::Min) == Ok(None));
}
