//! The entries of a table of statistics.

ghost use Rattle.std.specs.Prelude.{◌≡◌};
ghost use Rattle.vx_flat.specs.Pieces.{default_entry};
ghost use Rattle.vx_scalars.specs.Places.{borrowed};
ghost use Rattle.vx_scalars.specs.Stats.{told as told_of};
ghost use Rattle.vx_scalar_wire.specs.StatsBlocks.{vector_entry, flag_entry, count_entry, table_entries, stored_field};
ghost use Rattle.vx_scalar_wire.specs.StatsTable.{precision_of, IsStorableCount};

use vx_flat::{BlockField, LinkKind};
use vx_scalars::{Precision, ScalarValue, Stat, StatsSet};
use vx_types::{Blob, PValue};

/// The values of a set that are written as bytes.
#[derive(Drop)]
pub struct Stored {
    /// The least value.
    pub least: Option<Blob>,
    /// The greatest value.
    pub greatest: Option<Blob>,
    /// The sum.
    pub sum: Option<Blob>,
}

/// The entries of the table of a set. `stored` has its values as bytes.
pub fn entries_of(stats: &StatsSet, stored: &Stored) -> [BlockField; 11]
    ensures entries { result ≡ table_entries stats.now stored.now }
    ensures null_count { IsStorableCount stats.now.null_count }
    ensures uncompressed_size { IsStorableCount stats.now.uncompressed_size }
    ensures nan_count { IsStorableCount stats.now.nan_count }
{
    [
        vector_entry_of(&stored.least),
        precision_entry(stats.get(Stat::Min)),
        vector_entry_of(&stored.greatest),
        precision_entry(stats.get(Stat::Max)),
        vector_entry_of(&stored.sum),
        flag_entry_of(stats.get(Stat::IsSorted)),
        flag_entry_of(stats.get(Stat::IsStrictSorted)),
        flag_entry_of(stats.get(Stat::IsConstant)),
        count_entry_of(stats.get(Stat::NullCount)),
        count_entry_of(stats.get(Stat::UncompressedSizeInBytes)),
        count_entry_of(stats.get(Stat::NaNCount)),
    ]
}

// The entry of optional bytes.
fn vector_entry_of(bytes: &Option<Blob>) -> BlockField
    ensures { result ≡ vector_entry (stored_field bytes.now) }
{
    match bytes {
        Some(_) => BlockField::Link(LinkKind::Vector),
        None => BlockField::Absent,
    }
}

// The entry of a precision, which is left out where it is 0.
fn precision_entry(told: Precision<&ScalarValue>) -> BlockField
    ensures { result ≡ default_entry 1 (precision_of (told_of (borrowed told.entry))) }
{
    match told {
        Precision::Exact(_) => BlockField::Number { width: 1, bits: 1 },
        _ => BlockField::Absent,
    }
}

// The entry of an exact flag.
fn flag_entry_of(told: Precision<&ScalarValue>) -> BlockField
    ensures { result ≡ flag_entry (told_of (borrowed told.entry)) }
{
    let Precision::Exact(value) = told else {
        return BlockField::Absent;
    };
    match value {
        ScalarValue::Bool(flag) => BlockField::Number {
            width: 1,
            bits: *flag as u64,
        },
        _ => BlockField::Absent,
    }
}

// The entry of an exact count.
fn count_entry_of(told: Precision<&ScalarValue>) -> BlockField
    ensures entry { result ≡ count_entry (told_of (borrowed told.entry)) }
    ensures storable { IsStorableCount (told_of (borrowed told.entry)) }
{
    let Precision::Exact(counted) = told else {
        return BlockField::Absent;
    };
    match counted {
        ScalarValue::Primitive(PValue::U64(count)) => BlockField::Number {
            width: 8,
            bits: *count,
        },
        _ => BlockField::Absent,
    }
}
