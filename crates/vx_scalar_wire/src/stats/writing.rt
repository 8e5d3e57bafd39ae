//! The blocks of a table of statistics.

ghost use Rattle.std.specs.Prelude.{◌≡◌, ◌<◌, ◌^◌, ◌++◌, ◌∷◌, false, List, length, OnOk, IfErr, IsOk};
ghost use Rattle.vx_flat.specs.Building.{Built, IsPartWay, Link, Takes, Written, RefusesPieces};
ghost use Rattle.vx_flat.specs.Pieces.{Piece};
ghost use Rattle.vx_scalar_wire.specs.StatsBlocks.{IsStoredOf, IsAtLink, vector_pieces, vector_links};
ghost use Rattle.vx_scalar_wire.specs.StatsSchema.{stats_fields, stats_schema};
ghost use Rattle.vx_scalar_wire.specs.StatsTable.{IsStorableCount, stats_table, stats_pieces};

use crate::stats::entries::{Stored, entries_of};
use vx_flat::{BlockVector, Builder, FlatError, LinkKind};
use vx_scalars::StatsSet;
use vx_types::Blob;

/// Writes the blocks of the table of a set. `stored` has its values as bytes.
pub fn write_table(
    stats: &StatsSet,
    stored: &Stored,
    builder: &mut Builder,
) -> Result<(), FlatError>
    requires takes { Takes LinkKind.Table builder.old }
    requires stored { IsStoredOf stats.now stored.now }
    ensures null_count { IsStorableCount stats.now.null_count }
    ensures uncompressed_size { IsStorableCount stats.now.uncompressed_size }
    ensures nan_count { IsStorableCount stats.now.nan_count }
    ensures written { OnOk result (Written stats_schema stats_fields (stats_table stats.now) builder.old builder.new) }
    ensures fits { IsOk result → length builder.new.bytes < 2 ^ 31 }
    ensures works { IsOk result → builder.old.failed ≡ false }
    ensures stopped { IfErr result (λ e. RefusesPieces builder.old (stats_pieces stats.now) e builder.new) }
{
    let table = builder.table(&entries_of(stats, stored))?;
    write_bytes(&stored.least, table, 0, builder)?;
    write_bytes(&stored.greatest, table, 2, builder)?;
    write_bytes(&stored.sum, table, 4, builder)?;
    Ok(())
}

// Writes the vector of optional bytes. The link to it is the next unlinked one.
#[tactic(auto, using(crate::proofs::Chains::vector_steps))]
fn write_bytes(
    bytes: &Option<Blob>,
    table: u32,
    index: usize,
    builder: &mut Builder,
) -> Result<(), FlatError>
    requires { IsAtLink table index bytes.now builder.old }
    ensures written { OnOk result ((b : Built) (p : Piece) (ls : List Link) (ps : List Piece) → IsPartWay b p (vector_links table index bytes.now ++ ls) ps builder.old
        → IsPartWay b p ls (ps ++ vector_pieces bytes.now) builder.new) }
    ensures fits { IsOk result → length builder.old.bytes < 2 ^ 31 → length builder.new.bytes < 2 ^ 31 }
    ensures stopped { IfErr result (λ e. (b : Built) (p : Piece) (ls : List Link) (ps rest : List Piece) → IsPartWay b p (vector_links table index bytes.now ++ ls) ps builder.old
        → RefusesPieces b ((p ∷ ps) ++ (vector_pieces bytes.now ++ rest)) e builder.new) }
{
    let Some(bytes) = bytes else {
        return Ok(());
    };
    builder.link(table, index);
    builder.vector(BlockVector::Numbers {
        width: 1,
        bytes: bytes.as_slice(),
    })?;
    Ok(())
}
