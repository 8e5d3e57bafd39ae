//! Blocks of a message that a node's block links to.

ghost use Rattle.std.specs.Prelude.{◌≡◌, ◌%◌, ◌<◌, ◌∷◌, [], true, length, OnOk, IfErr};
ghost use Rattle.vx_flat.specs.Building.{AreWritten, Takes, RefusesPieces};
ghost use Rattle.vx_flat.specs.Pieces.{elements_piece, default_entry, is_width};
ghost use Rattle.vx_trees.specs.Rose.{label};
ghost use Rattle.vx_scalar_wire.specs.StatsTable.{AreStorable, stats_pieces};
ghost use Rattle.vx_serde.specs.WritingSteps.{builder_refusal};

use crate::node_ref::NodeRef;
use std::alloc::Global;
use vx_flat::{BlockField, BlockVector, Builder, FlatError, LinkKind};
use vx_scalar_wire::{ScalarWireError, StatsSetExt};

/// The entry of a field that is a table.
pub(crate) const TABLE: BlockField = BlockField::Link(LinkKind::Table);

/// The entry of a field that is a vector.
pub(crate) const VECTOR: BlockField = BlockField::Link(LinkKind::Vector);

/// The entry of the number of a node's encoding, which is absent where it is 0, the default of tables.
pub(crate) fn encoding_entry(number: u16) -> BlockField
    ensures { result ≡ default_entry 2 number }
{
    if number == 0 {
        return BlockField::Absent;
    }
    BlockField::Number {
        width: 2,
        bits: number as u64,
    }
}

/// Writes a vector of numbers or structs of `width` bytes each.
pub(crate) fn write_elements(
    width: u8,
    bytes: &[u8],
    builder: &mut Builder,
) -> Result<(), FlatError>
    requires width { is_width width ≡ true }
    requires whole { length bytes.now % width ≡ 0 }
    requires takes { Takes LinkKind.Vector builder.old }
    ensures written { OnOk result (AreWritten builder.old (elements_piece width bytes.now ∷ []) builder.new) }
    ensures stopped { IfErr result (λ e. RefusesPieces builder.old (elements_piece width bytes.now ∷ []) e builder.new) }
{
    builder.vector(BlockVector::Numbers { width, bytes })?;
    Ok(())
}

/// Writes the blocks of the table of an array's statistics.
pub(crate) fn write_statistics(
    alloc: Global,
    array: &NodeRef<'_, '_>,
    builder: &mut Builder,
) -> Result<(), FlatError>
    requires takes { Takes LinkKind.Table builder.old }
    ensures written { OnOk result (AreWritten builder.old (stats_pieces (label array.now).stats) builder.new) }
    ensures storable { OnOk result (AreStorable (label array.now).stats) }
    ensures stopped { IfErr result (λ e. RefusesPieces builder.old (stats_pieces (label array.now).stats) e builder.new) }
{
    match array.statistics().write_flatbuffer(alloc, builder) {
        Ok(()) => Ok(()),
        Err(e) => Err(as_flat_error(e)),
    }
}

/// The refusal of a set of statistics that fit, as its builder's. Besides allocation failure, only a message that would
/// be too long is refused.
fn as_flat_error(error: ScalarWireError) -> FlatError
    ensures { result ≡ builder_refusal error }
{
    match error {
        ScalarWireError::OutOfMemory => FlatError::OutOfMemory,
        _ => FlatError::MessageTooLong,
    }
}
