//! Statistics read from tables and written as tables.

ghost use Rattle.std.specs.Prelude.{◌≡◌, ◌<◌, ◌^◌, true, false, length, IfOk, IfErr, IsOk, OnOk, OnErr, MatchResult};
ghost use Rattle.vx_flat.specs.Building.{Takes, Written, Keeps, IsTooLong};
ghost use Rattle.vx_flat.specs.Seen.{kinds_in, seen};
ghost use Rattle.vx_scalars.specs.Stats.{Stats, FitStats};
ghost use Rattle.vx_types.specs.Seen.{typ};
ghost use Rattle.vx_scalar_wire.specs.StatsSchema.{stats_fields, stats_schema};
ghost use Rattle.vx_scalar_wire.specs.StatsShown.{ShowsStats};
ghost use Rattle.vx_scalar_wire.specs.StatsTable.{AreStorable, stats_table, stats_pieces};
ghost use Rattle.vx_scalar_wire.specs.StatsUnread.{RefusesReadingStats};
ghost use Rattle.vx_scalar_wire.specs.StatsUnwritten.{AreWritable, RefusesWritingStats};

mod entries;
mod reading;
mod values;
mod writing;

use crate::error::{ScalarWireError, of_builder};
use crate::stats::entries::Stored;
use crate::stats::reading::read_stat;
use crate::stats::values::{sum_bytes, value_bytes};
use crate::stats::writing::write_table;
use std::alloc::Global;
use vx_flat::{Builder, LinkKind, View};
use vx_scalars::{Stat, StatsSet};
use vx_types::DType;

/// The table of statistics, read and written.
pub trait StatsSetExt: Sized {
    /// The statistics that a table shows, of arrays of a type.
    fn from_flatbuffer(
        alloc: Global,
        view: &View<'_>,
        dtype: &DType,
    ) -> Result<Self, ScalarWireError>
        requires { kinds_in view.now ≡ stats_fields };

    /// Writes the blocks of the table of the statistics.
    fn write_flatbuffer(&self, alloc: Global, builder: &mut Builder) -> Result<(), ScalarWireError>
        requires { Takes LinkKind.Table builder.old };
}

impl StatsSetExt for StatsSet {
    /// The statistics that a table shows, of arrays of a type: each at its own type, of
    /// which a field without one, and a null, are skipped. `BadScalar` where a value does
    /// not fit the statistic's type, `BadPrecision` where a value has a precision over 1
    /// beside it, and any refusal of a value's bytes at that type.
    fn from_flatbuffer(
        alloc: Global,
        view: &View<'_>,
        dtype: &DType,
    ) -> Result<StatsSet, ScalarWireError>
        requires { kinds_in view.now ≡ stats_fields }
        ensures read { IfOk result (λ set. ShowsStats (typ dtype.now) (seen view.now) set) }
        ensures fits { IfOk result (λ set. FitStats (typ dtype.now) set) }
        ensures cause { IfErr result (λ e. RefusesReadingStats e (typ dtype.now) (seen view.now)) }
        ensures complete { (t : Stats) → ShowsStats (typ dtype.now) (seen view.now) t
            → MatchResult result (λ set. set ≡ t) (λ e. e ≡ ScalarWireError.OutOfMemory) }
    {
        let mut set = StatsSet::new(alloc);
        let stats = Stat::all();
        for stat in &stats {
            let told = read_stat(alloc, view, *stat, dtype)?;
            set.set(*stat, told)?;
        }
        Ok(set)
    }

    /// Writes the blocks of the table of the statistics after those that the builder has:
    /// the least and the greatest value, exact or not, with their precisions, and what else
    /// is exact, of which a sum that is no number becomes one NaN, a flag is written where it
    /// holds one, and a count where it holds a `U64`. `TooDeep` where over 100 messages nest in
    /// a value that is written, `BadDType` where a type in it is too deep, and
    /// `MessageTooLong` where the message would be too long or was before. After a refusal
    /// the builder keeps the blocks that it has, and those of the statistics that were
    /// written so far.
    fn write_flatbuffer(&self, alloc: Global, builder: &mut Builder) -> Result<(), ScalarWireError>
        requires { Takes LinkKind.Table builder.old }
        ensures written { OnOk result (Written stats_schema stats_fields (stats_table self.now) builder.old builder.new) }
        ensures fits { IsOk result → length builder.new.bytes < 2 ^ 31 }
        ensures works { IsOk result → builder.old.failed ≡ false }
        ensures writable { OnOk result (AreWritable self.now) }
        ensures storable { OnOk result (AreStorable self.now) }
        ensures kept { OnErr result (Keeps builder.old (stats_pieces self.now) builder.new) }
        ensures cause { IfErr result (λ e. RefusesWritingStats e self.now builder.old) }
        ensures failed { IfErr result (λ e. e ≡ ScalarWireError.MessageTooLong → builder.new.failed ≡ true) }
        ensures limit { IsTooLong builder.old (stats_pieces self.now) → IsOk result → ⊥ }
    {
        let stored = Stored {
            least: value_bytes(alloc, self.get(Stat::Min))?,
            greatest: value_bytes(alloc, self.get(Stat::Max))?,
            sum: sum_bytes(alloc, self.get(Stat::Sum))?,
        };
        match write_table(self, &stored, builder) {
            Ok(()) => Ok(()),
            Err(error) => Err(of_builder(error)),
        }
    }
}
