//! The names of the statistics that a table has.

ghost use Rattle.std.specs.Prelude.{◌≡◌, ◌++◌, ◌∷◌, [], IfOk, OnOk, IsOkUnless};
ghost use Rattle.vx_flat.specs.Seen.{kinds_in, seen};
ghost use Rattle.vx_scalar_wire.specs.StatsSchema.{stats_fields};
ghost use Rattle.vx_serialized.specs.StatNames.{stat_name, is_standing, names_standing};
ghost use Rattle.vx_scalars.specs.StatTypes.{all_stats};

use crate::error::WireError;
use std::alloc::Global;
use vx_flat::View;
use vx_scalars::Stat;
use vx_types::{Name, Names, or_memory};

/// The names of the statistics that a table has, in the order of its fields.
pub(crate) fn names_of(alloc: Global, table: &View<'_>) -> Result<Names, WireError>
    requires { kinds_in table.now ≡ stats_fields }
    ensures ok { IfOk result (λ names. names ≡ names_standing (seen table.now) all_stats) }
    ensures err { IsOkUnless result WireError.OutOfMemory }
{
    let mut names = Names::new(alloc);
    let stats = Stat::all();
    for stat in &stats {
        push_name(alloc, table, *stat, &mut names)?;
    }
    Ok(names)
}

/// Whether a table has a statistic.
fn stands(table: &View<'_>, stat: Stat) -> bool
    requires { kinds_in table.now ≡ stats_fields }
    ensures { result ≡ is_standing (seen table.now) stat }
{
    match stat {
        Stat::Min => table.bytes(0).is_some(),
        Stat::Max => table.bytes(2).is_some(),
        Stat::Sum => table.bytes(4).is_some(),
        Stat::IsSorted => table.opt_number(5).is_some(),
        Stat::IsStrictSorted => table.opt_number(6).is_some(),
        Stat::IsConstant => table.opt_number(7).is_some(),
        Stat::NullCount => table.opt_number(8).is_some(),
        Stat::UncompressedSizeInBytes => table.opt_number(9).is_some(),
        Stat::NaNCount => table.opt_number(10).is_some(),
    }
}

/// Appends the name of a statistic, where a table has it.
fn push_name(
    alloc: Global,
    table: &View<'_>,
    stat: Stat,
    names: &mut Names,
) -> Result<(), WireError>
    requires { kinds_in table.now ≡ stats_fields }
    ensures ok { OnOk result (names.new ≡ names.old ++ names_standing (seen table.now) (stat ∷ [])) }
    ensures err { IsOkUnless result WireError.OutOfMemory }
{
    if !stands(table, stat) {
        return Ok(());
    }
    let name = or_memory(Name::new(alloc, name_of(stat)))?;
    Ok(or_memory(names.push(name))?)
}

/// The name of a statistic's field.
fn name_of(stat: Stat) -> &'static str
    ensures { result.now ≡ stat_name stat }
{
    match stat {
        Stat::Min => "min",
        Stat::Max => "max",
        Stat::Sum => "sum",
        Stat::IsSorted => "is_sorted",
        Stat::IsStrictSorted => "is_strict_sorted",
        Stat::IsConstant => "is_constant",
        Stat::NullCount => "null_count",
        Stat::UncompressedSizeInBytes => "uncompressed_size_in_bytes",
        Stat::NaNCount => "nan_count",
    }
}
