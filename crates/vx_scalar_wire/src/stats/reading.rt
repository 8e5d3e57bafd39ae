//! Statistics read from a view of their table.

ghost use Rattle.std.specs.Prelude.{◌≡◌, IfOk, IfErr, MatchOption, Some};
ghost use Rattle.vx_flat.specs.Parts.{IsBytes, IsNumber, IsOptional};
ghost use Rattle.vx_flat.specs.Seen.{kind_in, kinds_in, part_in, seen};
ghost use Rattle.vx_flat.specs.Value.{elements};
ghost use Rattle.vx_scalars.specs.Seen.{value_of};
ghost use Rattle.vx_scalars.specs.StatTypes.{stat_type};
ghost use Rattle.vx_scalars.specs.Stats.{Told, told};
ghost use Rattle.vx_types.specs.Seen.{typ};
ghost use Rattle.vx_scalar_wire.specs.StatsSchema.{stats_fields};
ghost use Rattle.vx_scalar_wire.specs.StatsShown.{HoldsStat, TellsNothing, IsToldField, ShowsBound, ShowsSum, ShowsFlag, ShowsCount, ShowsStat};
ghost use Rattle.vx_scalar_wire.specs.StatsUnread.{RefusesStatBytes, RefusesStatField, RefusesBound, RefusesStat};

use crate::error::ScalarWireError;
use crate::messages::ScalarValueExt;
use std::alloc::Global;
use vx_flat::View;
use vx_scalars::{Precision, Scalar, ScalarValue, Stat};
use vx_type_wire::ExtSession;
use vx_types::{DType, PValue};

/// The value of a statistic in a table, for arrays of a type.
pub fn read_stat(
    alloc: Global,
    view: &View<'_>,
    stat: Stat,
    dtype: &DType,
) -> Result<Precision<ScalarValue>, ScalarWireError>
    requires { kinds_in view.now ≡ stats_fields }
    ensures read { IfOk result (λ x. ShowsStat stat (typ dtype.now) (seen view.now) (told x)) }
    ensures cause { IfErr result (λ e. RefusesStat e stat (typ dtype.now) (seen view.now)) }
    ensures complete { (x : Told) → ShowsStat stat (typ dtype.now) (seen view.now) x → IfErr result (λ e. e ≡ ScalarWireError.OutOfMemory) }
{
    match stat {
        Stat::Min => read_bound(alloc, view, 0, 1, stat, dtype),
        Stat::Max => read_bound(alloc, view, 2, 3, stat, dtype),
        Stat::Sum => read_sum(alloc, view, 4, dtype),
        Stat::IsSorted => Ok(flag_in(view, 5)),
        Stat::IsStrictSorted => Ok(flag_in(view, 6)),
        Stat::IsConstant => Ok(flag_in(view, 7)),
        Stat::NullCount => Ok(count_in(view, 8)),
        Stat::UncompressedSizeInBytes => Ok(count_in(view, 9)),
        Stat::NaNCount => Ok(count_in(view, 10)),
    }
}

// A least or greatest value, with its precision beside it.
fn read_bound(
    alloc: Global,
    view: &View<'_>,
    field: usize,
    precision: usize,
    stat: Stat,
    dtype: &DType,
) -> Result<Precision<ScalarValue>, ScalarWireError>
    requires bytes { IsBytes (kind_in view.now field) }
    requires number { IsNumber (kind_in view.now precision) }
    ensures read { IfOk result (λ x. ShowsBound (stat_type stat (typ dtype.now)) (part_in view.now field) (part_in view.now precision) (told x)) }
    ensures cause { IfErr result (λ e. RefusesBound e (stat_type stat (typ dtype.now)) (part_in view.now field) (part_in view.now precision)) }
    ensures complete { (x : Told) → ShowsBound (stat_type stat (typ dtype.now)) (part_in view.now field) (part_in view.now precision) x → IfErr result (λ e. e ≡ ScalarWireError.OutOfMemory) }
{
    let Some(value) = value_in(alloc, view, field, stat, dtype)? else {
        return Ok(Precision::Absent);
    };
    match view.number(precision) {
        0 => Ok(Precision::Inexact(value)),
        1 => Ok(Precision::Exact(value)),
        _ => Err(ScalarWireError::BadPrecision),
    }
}

// A sum, which is exact.
fn read_sum(
    alloc: Global,
    view: &View<'_>,
    field: usize,
    dtype: &DType,
) -> Result<Precision<ScalarValue>, ScalarWireError>
    requires { IsBytes (kind_in view.now field) }
    ensures read { IfOk result (λ x. ShowsSum (stat_type Stat.Sum (typ dtype.now)) (part_in view.now field) (told x)) }
    ensures cause { IfErr result (λ e. RefusesStatField e (stat_type Stat.Sum (typ dtype.now)) (part_in view.now field)) }
    ensures complete { (x : Told) → ShowsSum (stat_type Stat.Sum (typ dtype.now)) (part_in view.now field) x → IfErr result (λ e. e ≡ ScalarWireError.OutOfMemory) }
{
    match value_in(alloc, view, field, Stat::Sum, dtype)? {
        Some(value) => Ok(Precision::Exact(value)),
        None => Ok(Precision::Absent),
    }
}

// The value in a field of bytes, at the type of a statistic of arrays of a type.
fn value_in(
    alloc: Global,
    view: &View<'_>,
    field: usize,
    stat: Stat,
    dtype: &DType,
) -> Result<Option<ScalarValue>, ScalarWireError>
    requires { IsBytes (kind_in view.now field) }
    ensures read { IfOk result (λ x. MatchOption x (TellsNothing (stat_type stat (typ dtype.now)) (part_in view.now field))
        (λ v. HoldsStat (stat_type stat (typ dtype.now)) (part_in view.now field) (value_of v))) }
    ensures cause { IfErr result (λ e. RefusesStatField e (stat_type stat (typ dtype.now)) (part_in view.now field)) }
    ensures complete { IsToldField (stat_type stat (typ dtype.now)) (part_in view.now field) → IfErr result (λ e. e ≡ ScalarWireError.OutOfMemory) }
{
    let Some(own) = stat.dtype(alloc, dtype)? else {
        return Ok(None);
    };
    match view.bytes(field) {
        Some(bytes) => value_of_type(alloc, bytes, &own),
        None => Ok(None),
    }
}

// The value whose message these bytes are, where it is not null. It fits the type.
fn value_of_type(
    alloc: Global,
    bytes: &[u8],
    dtype: &DType,
) -> Result<Option<ScalarValue>, ScalarWireError>
    ensures read { IfOk result (λ x. MatchOption x (TellsNothing (Some (typ dtype.now)) (elements bytes.now))
        (λ v. HoldsStat (Some (typ dtype.now)) (elements bytes.now) (value_of v))) }
    ensures cause { IfErr result (λ e. RefusesStatBytes e (typ dtype.now) bytes.now) }
    ensures complete { IsToldField (Some (typ dtype.now)) (elements bytes.now) → IfErr result (λ e. e ≡ ScalarWireError.OutOfMemory) }
{
    let readers = ExtSession::new(alloc);
    let Some(value) = ScalarValue::from_proto_bytes(alloc, bytes, dtype, &readers)? else {
        return Ok(None);
    };
    Scalar::validate(dtype, Some(&value))?;
    Ok(Some(value))
}

// A flag, which is exact.
fn flag_in(view: &View<'_>, field: usize) -> Precision<ScalarValue>
    requires { IsOptional (kind_in view.now field) }
    ensures { ShowsFlag (part_in view.now field) (told result) }
{
    match view.opt_number(field) {
        Some(number) => Precision::Exact(ScalarValue::Bool(number != 0)),
        None => Precision::Absent,
    }
}

// A count, which is exact.
fn count_in(view: &View<'_>, field: usize) -> Precision<ScalarValue>
    requires { IsOptional (kind_in view.now field) }
    ensures { ShowsCount (part_in view.now field) (told result) }
{
    match view.opt_number(field) {
        Some(number) => Precision::Exact(ScalarValue::Primitive(PValue::U64(number))),
        None => Precision::Absent,
    }
}
