//! Statistics and the bytes of their tables.

use crate::messages::{one_byte, text};
use crate::reading::{Answer, answer_of, type_of};
use std::alloc::Global;
use std::process::Abort;
use vx_flat::{BlockField, Builder, FlatBuffer, FlatError, verify_uncounted};
use vx_scalar_wire::{ScalarWireError, StatsKind, StatsSetExt};
use vx_scalars::{DecimalValue, Precision, ScalarValue, Stat, StatsSet};
use vx_types::{DType, PValue, TypeError};

fn number(value: i32) -> ScalarValue {
    ScalarValue::Primitive(PValue::I32(value))
}

fn count(value: u64) -> ScalarValue {
    ScalarValue::Primitive(PValue::U64(value))
}

// A least value of 1, and this of another statistic.
fn with_least(
    alloc: Global,
    stat: Stat,
    told: Precision<ScalarValue>,
) -> Result<StatsSet, TypeError> {
    let mut set = StatsSet::new(alloc);
    set.set(Stat::Min, Precision::Exact(number(1)))?;
    set.set(stat, told)?;
    Ok(set)
}

// A least value of 1 and no nulls, both exact.
fn worked_set(alloc: Global) -> Result<StatsSet, TypeError> {
    with_least(alloc, Stat::NullCount, Precision::Exact(count(0)))
}

// Its message.
const WORKED: [u8; 70] = [
    0x28, 0, 0, 0, 0, 0, 0, 0, 0x1a, 0, 0x18, 0, 0x04, 0, 0x08, 0, 0, 0, 0, 0, 0, 0, 0, 0, 0, 0, 0,
    0, 0x10, 0, 0, 0, 0, 0, 0, 0, 0, 0, 0, 0, 0x20, 0, 0, 0, 0x14, 0, 0, 0, 0x01, 0, 0, 0, 0, 0, 0,
    0, 0, 0, 0, 0, 0, 0, 0, 0, 0x02, 0, 0, 0, 0x18, 0x02,
];

// The worked message, and as it is with another byte at a place.
fn worked() -> &'static [u8] {
    &WORKED
}

fn with_byte(alloc: Global, place: usize, byte: u8) -> Result<Vec<u8>, ScalarWireError> {
    let mut bytes = Vec::from_slice(alloc, worked())?;
    if let Some(old) = bytes.get_mut(place) {
        *old = byte;
    }
    Ok(bytes)
}

// The message of a set.
fn message_of(alloc: Global, set: &StatsSet) -> Result<FlatBuffer, ScalarWireError> {
    let mut builder = Builder::new(alloc);
    set.write_flatbuffer(alloc, &mut builder)?;
    match builder.finish(alloc) {
        Ok(message) => Ok(message),
        Err(_) => Err(ScalarWireError::MessageTooLong),
    }
}

// Whether a set is written as these bytes.
fn is_written(alloc: Global, set: &StatsSet, bytes: &[u8]) -> bool {
    match message_of(alloc, set) {
        Ok(message) => message.as_slice() == bytes,
        Err(_) => false,
    }
}

#[test]
fn a_set_has_its_table(rt: HostRuntime) {
    match worked_set(rt.alloc()) {
        Ok(set) => assert!(rt; is_written(rt.alloc(), &set, worked())),
        Err(_) => assert!(rt; false),
    }
}

// The set that a message shows, of arrays of a type.
fn set_of(alloc: Global, message: &[u8], dtype: &DType) -> Result<StatsSet, ScalarWireError> {
    match verify_uncounted(message, &StatsKind) {
        Ok(view) => StatsSet::from_flatbuffer(alloc, &view, dtype),
        Err(_) => Err(ScalarWireError::BadMessage),
    }
}

// Whether this is told exactly, or as a bound.
fn is_value(told: Precision<&ScalarValue>, exact: bool, value: Answer) -> bool {
    match told {
        Precision::Exact(found) => exact && answer_of(Some(found)) == value,
        Precision::Inexact(found) => !exact && answer_of(Some(found)) == value,
        Precision::Absent => false,
    }
}

// Whether a message tells this of a statistic, exactly or as a bound.
fn is_told(
    alloc: Global,
    message: &[u8],
    stat: Stat,
    dtype: &DType,
    exact: bool,
    value: Answer,
) -> Result<bool, ScalarWireError> {
    let set = set_of(alloc, message, dtype)?;
    Ok(is_value(set.get(stat), exact, value))
}

// Whether a message tells nothing of a statistic.
fn is_untold(
    alloc: Global,
    message: &[u8],
    stat: Stat,
    dtype: &DType,
) -> Result<bool, ScalarWireError> {
    let set = set_of(alloc, message, dtype)?;
    Ok(matches!(set.get(stat), Precision::Absent))
}

const ONE: Answer = Answer::Number(PValue::I32(1));

#[test]
fn a_table_shows_what_stands(rt: HostRuntime) {
    let alloc = rt.alloc();
    let none = Answer::Number(PValue::U64(0));
    assert!(rt; is_told_at(alloc, worked(), Stat::Min, 1, true, ONE) == Ok(true));
    assert!(rt; is_told_at(alloc, worked(), Stat::NullCount, 1, true, none) == Ok(true));
}

#[test]
fn a_table_shows_nothing_else(rt: HostRuntime) {
    let alloc = rt.alloc();
    assert!(rt; is_untold_at(alloc, worked(), Stat::Max, 1) == Ok(true));
    assert!(rt; is_untold_at(alloc, worked(), Stat::IsSorted, 1) == Ok(true));
}

// Whether the worked message with another precision tells that the least value is 1 at best.
fn is_bound(alloc: Global, precision: u8) -> Result<bool, ScalarWireError> {
    let message = with_byte(alloc, 48, precision)?;
    is_told_at(alloc, &message, Stat::Min, 1, false, ONE)
}

// The precision is the byte at 48.
#[test]
fn a_value_is_told_by_its_precision(rt: HostRuntime) {
    assert!(rt; is_bound(rt.alloc(), 0) == Ok(true));
    assert!(rt; is_bound(rt.alloc(), 1) == Ok(false));
    assert!(rt; is_bound(rt.alloc(), 2) == Err(ScalarWireError::BadPrecision));
}

// Whether nulls have no least value, so that its bytes, the last two, are not read.
fn is_unread(alloc: Global) -> Result<bool, ScalarWireError> {
    let message = with_byte(alloc, 68, 0xff)?;
    is_untold(alloc, &message, Stat::Min, &DType::Null)
}

#[test]
fn a_value_is_read_at_its_type(rt: HostRuntime) {
    assert!(rt; is_unread(rt.alloc()) == Ok(true));
    let mismatch = Err(ScalarWireError::KindMismatch);
    assert!(rt; is_untold_at(rt.alloc(), worked(), Stat::Min, 0) == mismatch);
}

// A least value of 1, and a bound on the sum.
fn with_bound(alloc: Global) -> Result<StatsSet, TypeError> {
    let bound = ScalarValue::Primitive(PValue::I64(3));
    with_least(alloc, Stat::Sum, Precision::Inexact(bound))
}

// Its message.
fn bound_message(alloc: Global) -> Result<FlatBuffer, ScalarWireError> {
    match with_bound(alloc) {
        Ok(set) => message_of(alloc, &set),
        Err(_) => Err(ScalarWireError::OutOfMemory),
    }
}

// Whether it tells that the least value is 1.
fn has_least(alloc: Global) -> Result<bool, ScalarWireError> {
    let message = bound_message(alloc)?;
    is_told_at(alloc, message.as_slice(), Stat::Min, 1, true, ONE)
}

// Whether it tells nothing of the sum.
fn is_without_sum(alloc: Global) -> Result<bool, ScalarWireError> {
    let message = bound_message(alloc)?;
    is_untold_at(alloc, message.as_slice(), Stat::Sum, 1)
}

#[test]
fn a_bound_on_a_sum_is_not_written(rt: HostRuntime) {
    assert!(rt; has_least(rt.alloc()) == Ok(true));
    assert!(rt; is_without_sum(rt.alloc()) == Ok(true));
}

// A value by how it is read; a text is `hi`, and bytes are one.
fn value_of(alloc: Global, answer: Answer) -> Result<ScalarValue, TypeError> {
    match answer {
        Answer::Bool(flag) => Ok(ScalarValue::Bool(flag)),
        Answer::Number(number) => Ok(ScalarValue::Primitive(number)),
        Answer::Decimal(decimal) => Ok(ScalarValue::Decimal(decimal)),
        Answer::Text => text(alloc),
        _ => one_byte(alloc),
    }
}

// The same, exact or as a bound.
fn precision_of(
    alloc: Global,
    exact: bool,
    value: Answer,
) -> Result<Precision<ScalarValue>, TypeError> {
    let value = value_of(alloc, value)?;
    Ok(if exact {
        Precision::Exact(value)
    } else {
        Precision::Inexact(value)
    })
}

// A set of one statistic.
fn set_with(alloc: Global, stat: Stat, exact: bool, value: Answer) -> Result<StatsSet, TypeError> {
    let told = precision_of(alloc, exact, value)?;
    let mut set = StatsSet::new(alloc);
    set.set(stat, told)?;
    Ok(set)
}

// Its message.
fn message_with(
    alloc: Global,
    stat: Stat,
    exact: bool,
    value: Answer,
) -> Result<FlatBuffer, ScalarWireError> {
    match set_with(alloc, stat, exact, value) {
        Ok(set) => message_of(alloc, &set),
        Err(_) => Err(ScalarWireError::OutOfMemory),
    }
}

// Whether a message tells this of a statistic of arrays of the type of this number.
fn is_told_at(
    alloc: Global,
    message: &[u8],
    stat: Stat,
    which: usize,
    exact: bool,
    value: Answer,
) -> Result<bool, ScalarWireError> {
    match type_of(alloc, which) {
        Ok(dtype) => is_told(alloc, message, stat, &dtype, exact, value),
        Err(_) => Err(ScalarWireError::OutOfMemory),
    }
}

// Whether a message tells nothing of a statistic of arrays of the type of this number.
fn is_untold_at(
    alloc: Global,
    message: &[u8],
    stat: Stat,
    which: usize,
) -> Result<bool, ScalarWireError> {
    match type_of(alloc, which) {
        Ok(dtype) => is_untold(alloc, message, stat, &dtype),
        Err(_) => Err(ScalarWireError::OutOfMemory),
    }
}

// Whether a statistic is told again as it was told.
fn is_kept(
    alloc: Global,
    stat: Stat,
    which: usize,
    exact: bool,
    value: Answer,
) -> Result<bool, ScalarWireError> {
    let message = message_with(alloc, stat, exact, value)?;
    is_told_at(alloc, message.as_slice(), stat, which, exact, value)
}

// Whether nothing is told again of a statistic.
fn is_dropped(
    alloc: Global,
    stat: Stat,
    which: usize,
    exact: bool,
    value: Answer,
) -> Result<bool, ScalarWireError> {
    let message = message_with(alloc, stat, exact, value)?;
    is_untold_at(alloc, message.as_slice(), stat, which)
}

// Each row's statistic is told again as it was told, of arrays of the type of its number.
fn are_kept(rt: &impl Abort, alloc: Global, rows: &[(Stat, usize, bool, Answer)]) {
    for (stat, which, exact, value) in rows {
        let kept = is_kept(alloc, *stat, *which, *exact, *value);
        assert!(rt; kept == Ok(true), "{stat:?} at {which}");
    }
}

const FLAG: Answer = Answer::Bool(true);

const DECIMAL: Answer = Answer::Decimal(DecimalValue::I32(123_456));

const THREE: Answer = Answer::Number(PValue::U64(3));

const MINUS_THREE: Answer = Answer::Number(PValue::I64(-3));

const FLOAT: Answer = Answer::Number(PValue::F64(0x4008_0000_0000_0000));

const LEAST: [(Stat, usize, bool, Answer); 9] = [
    (Stat::Min, 0, true, FLAG),
    (Stat::Min, 1, true, ONE),
    (Stat::Min, 3, true, THREE),
    (Stat::Min, 6, true, FLOAT),
    (Stat::Min, 7, true, Answer::Text),
    (Stat::Min, 8, true, Answer::Bytes),
    (Stat::Min, 9, true, DECIMAL),
    // An extension has what its storage has.
    (Stat::Min, 15, true, ONE),
    (Stat::Min, 7, false, Answer::Text),
];

#[test]
fn least_values_are_kept(rt: HostRuntime) {
    are_kept(&rt, rt.alloc(), &LEAST);
}

const GREATEST: [(Stat, usize, bool, Answer); 9] = [
    (Stat::Max, 0, true, FLAG),
    (Stat::Max, 1, true, ONE),
    (Stat::Max, 3, true, THREE),
    (Stat::Max, 6, true, FLOAT),
    (Stat::Max, 7, true, Answer::Text),
    (Stat::Max, 8, true, Answer::Bytes),
    (Stat::Max, 9, true, DECIMAL),
    (Stat::Max, 15, true, ONE),
    (Stat::Max, 8, false, Answer::Bytes),
];

#[test]
fn greatest_values_are_kept(rt: HostRuntime) {
    are_kept(&rt, rt.alloc(), &GREATEST);
}

const NEGATIVE_INFINITY: Answer = Answer::Number(PValue::F64(0xfff0_0000_0000_0000));

const SUMS: [(Stat, usize, bool, Answer); 9] = [
    // Truths and unsigned integers have unsigned sums.
    (Stat::Sum, 0, true, THREE),
    (Stat::Sum, 3, true, THREE),
    (Stat::Sum, 17, true, THREE),
    (Stat::Sum, 1, true, MINUS_THREE),
    (Stat::Sum, 2, true, MINUS_THREE),
    (Stat::Sum, 4, true, FLOAT),
    (Stat::Sum, 6, true, FLOAT),
    (Stat::Sum, 6, true, NEGATIVE_INFINITY),
    (Stat::Sum, 9, true, DECIMAL),
];

#[test]
fn sums_are_kept(rt: HostRuntime) {
    are_kept(&rt, rt.alloc(), &SUMS);
}

const FLAGS_AND_COUNTS: [(Stat, usize, bool, Answer); 12] = [
    (Stat::IsSorted, 1, true, FLAG),
    (Stat::IsStrictSorted, 1, true, FLAG),
    (Stat::IsConstant, 1, true, FLAG),
    (Stat::NullCount, 6, true, THREE),
    (Stat::UncompressedSizeInBytes, 6, true, THREE),
    (Stat::NaNCount, 6, true, THREE),
    // Lists and variants have them as well.
    (Stat::IsSorted, 10, true, FLAG),
    (Stat::IsStrictSorted, 14, true, FLAG),
    (Stat::IsConstant, 10, true, FLAG),
    (Stat::NullCount, 14, true, THREE),
    (Stat::UncompressedSizeInBytes, 10, true, THREE),
    (Stat::NaNCount, 14, true, THREE),
];

#[test]
fn flags_and_counts_are_kept(rt: HostRuntime) {
    are_kept(&rt, rt.alloc(), &FLAGS_AND_COUNTS);
}

// What is told, and is not told again: lists and extensions without the statistic, bounds on what is written only
// where it is exact, and flags and counts of other values.
const UNWRITTEN: [(Stat, usize, bool, Answer); 11] = [
    (Stat::Min, 10, true, ONE),
    (Stat::Max, 14, true, ONE),
    (Stat::Sum, 7, true, THREE),
    (Stat::Sum, 15, true, MINUS_THREE),
    (Stat::Sum, 6, false, Answer::Number(PValue::F64(0))),
    (Stat::IsSorted, 1, false, Answer::Bool(true)),
    (Stat::NaNCount, 6, false, Answer::Number(PValue::U64(3))),
    (Stat::IsStrictSorted, 1, true, THREE),
    (Stat::IsConstant, 1, true, ONE),
    (Stat::NullCount, 1, true, ONE),
    (Stat::UncompressedSizeInBytes, 1, true, FLAG),
];

#[test]
fn bounds_and_other_values_are_not_told_again(rt: HostRuntime) {
    for (stat, which, exact, value) in &UNWRITTEN {
        let dropped = is_dropped(rt.alloc(), *stat, *which, *exact, *value);
        assert!(rt; dropped == Ok(true), "{stat:?} at {which}");
    }
}

// The message of a sum of floats.
fn sum_message(alloc: Global, bits: u64) -> Result<FlatBuffer, ScalarWireError> {
    message_with(alloc, Stat::Sum, true, Answer::Number(PValue::F64(bits)))
}

// Whether a sum is told again as the one that is no number.
fn becomes_one(alloc: Global, bits: u64) -> Result<bool, ScalarWireError> {
    let message = sum_message(alloc, bits)?;
    let nan = Answer::Number(PValue::F64(0x7ff8_0000_0000_0000));
    is_told_at(alloc, message.as_slice(), Stat::Sum, 6, true, nan)
}

#[test]
fn sums_that_are_no_number_become_one(rt: HostRuntime) {
    assert!(rt; becomes_one(rt.alloc(), 0xfff8_0000_0000_0000) == Ok(true));
    assert!(rt; becomes_one(rt.alloc(), 0x7ff8_0000_dead_beef) == Ok(true));
}

// The message of two precisions of 2 without values beside them.
fn lone_precisions(alloc: Global) -> Result<FlatBuffer, FlatError> {
    let none = BlockField::Absent;
    let two = BlockField::Number { width: 1, bits: 2 };
    let mut builder = Builder::new(alloc);
    builder.table(&[
        none, two, none, two, none, none, none, none, none, none, none,
    ])?;
    builder.finish(alloc)
}

// Whether it tells nothing of the least value.
fn is_nothing(alloc: Global) -> Result<bool, ScalarWireError> {
    match lone_precisions(alloc) {
        Ok(message) => is_untold_at(alloc, message.as_slice(), Stat::Min, 1),
        Err(_) => Err(ScalarWireError::OutOfMemory),
    }
}

#[test]
fn a_precision_without_a_value_is_not_looked_at(rt: HostRuntime) {
    assert!(rt; is_nothing(rt.alloc()) == Ok(true));
}
