//! The nine statistics.

ghost use Rattle.std.specs.Prelude.{◌≡◌, IfOk, IsOkUnless, option_map, min, ◌≤◌, ◌+◌};
ghost use Rattle.vx_types.specs.Seen.{typ};
ghost use Rattle.vx_scalars.specs.StatTypes.{all_stats, stat_index, stat_type, ordered, sum_kind, sum_type};

use crate::fits::bare_dtype;
use std::alloc::Global;
use vx_types::{DType, DecimalDType, Nullability, PType, TypeError};

/// A statistic of an array's rows.
#[derive(Clone, Copy, Debug, PartialEq, Eq)]
pub enum Stat {
    /// The least value.
    Min,
    /// The greatest value.
    Max,
    /// The sum of the values.
    Sum,
    /// Whether no value is less than the one before it.
    IsSorted,
    /// Whether each value is greater than the one before it.
    IsStrictSorted,
    /// Whether all rows are equal.
    IsConstant,
    /// The number of null rows.
    NullCount,
    /// The size of the uncompressed array in bytes.
    UncompressedSizeInBytes,
    /// The number of NaN values.
    NaNCount,
}

impl Stat {
    /// The nine statistics, in the order of their declaration.
    pub fn all() -> [Stat; 9]
        ensures { result ≡ all_stats }
    {
        [
            Stat::Min,
            Stat::Max,
            Stat::Sum,
            Stat::IsSorted,
            Stat::IsStrictSorted,
            Stat::IsConstant,
            Stat::NullCount,
            Stat::UncompressedSizeInBytes,
            Stat::NaNCount,
        ]
    }

    /// The type of this statistic of arrays of a type (this project's rules); `None`
    /// where such arrays do not have it.
    ///
    /// `Min` and `Max` have the array's type, of an extension that of its storage:
    /// flags, numbers, decimals, texts and bytes alone. `Sum` is nullable: of numbers
    /// the widest kind of the same sort, of flags `U64`, of decimals ten digits more,
    /// at most 76. The flags are `Bool` and the counts `U64`, neither nullable.
    pub fn dtype(&self, alloc: Global, dtype: &DType) -> Result<Option<DType>, TypeError>
        ensures ok { IfOk result (λ d. option_map typ d ≡ stat_type self.now (typ dtype.now)) }
        ensures err { IsOkUnless result TypeError.OutOfMemory }
    {
        match self {
            Stat::Min | Stat::Max => ordered_dtype(alloc, bare_dtype(dtype)),
            Stat::Sum => Ok(sum_dtype(dtype)),
            Stat::IsSorted | Stat::IsStrictSorted | Stat::IsConstant => {
                Ok(Some(DType::Bool(Nullability::NonNullable)))
            }
            Stat::NullCount | Stat::UncompressedSizeInBytes | Stat::NaNCount => {
                Ok(Some(DType::Primitive(PType::U64, Nullability::NonNullable)))
            }
        }
    }

    // The index of this statistic in `all`.
    pub(crate) fn index(self) -> u8
        ensures { result ≡ stat_index self }
    {
        match self {
            Stat::Min => 0,
            Stat::Max => 1,
            Stat::Sum => 2,
            Stat::IsSorted => 3,
            Stat::IsStrictSorted => 4,
            Stat::IsConstant => 5,
            Stat::NullCount => 6,
            Stat::UncompressedSizeInBytes => 7,
            Stat::NaNCount => 8,
        }
    }
}

// The type, where its rows have a least and a greatest value.
fn ordered_dtype(alloc: Global, dtype: &DType) -> Result<Option<DType>, TypeError>
    ensures ok { IfOk result (λ d. option_map typ d ≡ ordered (typ dtype.now)) }
    ensures err { IsOkUnless result TypeError.OutOfMemory }
{
    match dtype {
        DType::Bool(_)
        | DType::Primitive(_, _)
        | DType::Decimal(_, _)
        | DType::Utf8(_)
        | DType::Binary(_) => Ok(Some(dtype.clone(alloc)?)),
        _ => Ok(None),
    }
}

// The type of the sum of rows of a type; `None` where they have no sum.
pub(crate) fn sum_dtype(dtype: &DType) -> Option<DType>
    ensures { option_map typ result ≡ sum_type (typ dtype.now) }
{
    match dtype {
        DType::Bool(_) => Some(DType::Primitive(PType::U64, Nullability::Nullable)),
        DType::Primitive(kind, _) => {
            Some(DType::Primitive(kind_of_sum(*kind), Nullability::Nullable))
        }
        DType::Decimal(digits, _) => {
            match DecimalDType::try_new(wider(digits.precision()), digits.scale()) {
                Ok(sum) => Some(DType::Decimal(sum, Nullability::Nullable)),
                Err(_) => unreachable!(),
            }
        }
        _ => None,
    }
}

// A precision of ten digits more, at most 76.
fn wider(precision: u8) -> u8
    requires { precision ≤ 76 }
    ensures { result ≡ min 76 (precision + 10) }
{
    if precision > 66 { 76 } else { precision + 10 }
}

// The widest kind of the same sort: unsigned, signed or float.
fn kind_of_sum(kind: PType) -> PType
    ensures { result ≡ sum_kind kind }
{
    match kind {
        PType::U8 | PType::U16 | PType::U32 | PType::U64 => PType::U64,
        PType::I8 | PType::I16 | PType::I32 | PType::I64 => PType::I64,
        PType::F16 | PType::F32 | PType::F64 => PType::F64,
    }
}
