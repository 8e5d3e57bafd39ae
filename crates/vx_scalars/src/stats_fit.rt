//! Whether statistics have the types that they have for a type of arrays.

ghost use Rattle.std.specs.Prelude.{◌≡◌, ◌↔◌, IfOk, IfErr, IsTrue};
ghost use Rattle.vx_types.specs.Seen.{typ};
ghost use Rattle.vx_scalars.specs.Seen.{value_of};
ghost use Rattle.vx_scalars.specs.StatTypes.{stat_type, ordered};
ghost use Rattle.vx_scalars.specs.Stats.{told_at, IsOfType, FitsTold, FitStats};

use crate::fits::{bare_dtype, fits};
use crate::precision::Precision;
use crate::stat::{Stat, sum_dtype};
use crate::stats_set::StatsSet;
use crate::value::ScalarValue;
use vx_types::{DType, Nullability, PType, TypeError};

impl StatsSet {
    /// Whether each statistic of the set is a value of the type that it has for arrays of
    /// this type, and not null. `BadScalar` exactly where one is not.
    pub fn validate(&self, dtype: &DType) -> Result<(), TypeError>
        ensures ok { IfOk result (λ _. FitStats (typ dtype.now) self.now) }
        ensures err { IfErr result (λ e. (e ≡ TypeError.BadScalar) × (FitStats (typ dtype.now) self.now → ⊥)) }
    {
        if bounds_fit(self, dtype) && flags_fit(self, dtype) && counts_fit(self, dtype) {
            return Ok(());
        }
        Err(TypeError::BadScalar)
    }
}

// Whether the least and the greatest value and the sum have their types.
fn bounds_fit(stats: &StatsSet, dtype: &DType) -> bool
    ensures { IsTrue result ↔ (FitsTold (stat_type Stat.Min (typ dtype.now)) stats.now.least
        × FitsTold (stat_type Stat.Max (typ dtype.now)) stats.now.greatest
        × FitsTold (stat_type Stat.Sum (typ dtype.now)) stats.now.total) }
{
    is_fit(stats, Stat::Min, dtype)
        && is_fit(stats, Stat::Max, dtype)
        && is_fit(stats, Stat::Sum, dtype)
}

// Whether the flags have their type.
fn flags_fit(stats: &StatsSet, dtype: &DType) -> bool
    ensures { IsTrue result ↔ (FitsTold (stat_type Stat.IsSorted (typ dtype.now)) stats.now.is_sorted
        × FitsTold (stat_type Stat.IsStrictSorted (typ dtype.now)) stats.now.is_strict_sorted
        × FitsTold (stat_type Stat.IsConstant (typ dtype.now)) stats.now.is_constant) }
{
    is_fit(stats, Stat::IsSorted, dtype)
        && is_fit(stats, Stat::IsStrictSorted, dtype)
        && is_fit(stats, Stat::IsConstant, dtype)
}

// Whether the counts have their type.
fn counts_fit(stats: &StatsSet, dtype: &DType) -> bool
    ensures { IsTrue result ↔ (FitsTold (stat_type Stat.NullCount (typ dtype.now)) stats.now.null_count
        × FitsTold (stat_type Stat.UncompressedSizeInBytes (typ dtype.now)) stats.now.uncompressed_size
        × FitsTold (stat_type Stat.NaNCount (typ dtype.now)) stats.now.nan_count) }
{
    is_fit(stats, Stat::NullCount, dtype)
        && is_fit(stats, Stat::UncompressedSizeInBytes, dtype)
        && is_fit(stats, Stat::NaNCount, dtype)
}

// Whether a statistic is absent or has its type.
fn is_fit(stats: &StatsSet, stat: Stat, dtype: &DType) -> bool
    ensures { IsTrue result ↔ FitsTold (stat_type stat (typ dtype.now)) (told_at stats.now stat) }
{
    match stats.get(stat) {
        Precision::Exact(value) | Precision::Inexact(value) => is_of_type(stat, value, dtype),
        Precision::Absent => true,
    }
}

// Whether a value has the type of a statistic.
fn is_of_type(stat: Stat, value: &ScalarValue, dtype: &DType) -> bool
    ensures { IsTrue result ↔ IsOfType (stat_type stat (typ dtype.now)) (value_of value.now) }
{
    match stat {
        Stat::Min | Stat::Max => is_bound(value, bare_dtype(dtype)),
        Stat::Sum => match sum_dtype(dtype) {
            Some(sum) => fits(Some(value), &sum),
            None => false,
        },
        Stat::IsSorted | Stat::IsStrictSorted | Stat::IsConstant => {
            fits(Some(value), &DType::Bool(Nullability::NonNullable))
        }
        Stat::NullCount | Stat::UncompressedSizeInBytes | Stat::NaNCount => {
            fits(
                Some(value),
                &DType::Primitive(PType::U64, Nullability::NonNullable),
            )
        }
    }
}

// Whether a value may be the least or the greatest of rows of a type.
fn is_bound(value: &ScalarValue, dtype: &DType) -> bool
    ensures { IsTrue result ↔ IsOfType (ordered (typ dtype.now)) (value_of value.now) }
{
    match dtype {
        DType::Bool(_)
        | DType::Primitive(_, _)
        | DType::Decimal(_, _)
        | DType::Utf8(_)
        | DType::Binary(_) => fits(Some(value), dtype),
        _ => false,
    }
}
