//! The kind of messages that show statistics.

use vx_flat::{FieldKind, SchemaLists, TableKind, Width};

/// Messages of one table of statistics.
#[derive(Clone, Copy, Debug)]
pub struct StatsKind;

static STATISTICS: SchemaLists = SchemaLists {
    root: 0,
    tables: &[
        // min, min_precision, max, max_precision, sum, is_sorted, is_strict_sorted,
        // is_constant, null_count, uncompressed_size_in_bytes, nan_count.
        &[
            FieldKind::Vector(Width::One),
            FieldKind::Number(Width::One),
            FieldKind::Vector(Width::One),
            FieldKind::Number(Width::One),
            FieldKind::Vector(Width::One),
            FieldKind::OptFlag,
            FieldKind::OptFlag,
            FieldKind::OptFlag,
            FieldKind::OptNumber(Width::Eight),
            FieldKind::OptNumber(Width::Eight),
            FieldKind::OptNumber(Width::Eight),
        ],
    ],
    unions: &[],
    structs: &[],
};

impl TableKind for StatsKind {
    ghost use Rattle.vx_scalar_wire.specs.StatsSchema.{stats_schema, stats_schema_lawful};

    ghost schema = { stats_schema };

    ghost lawful = { stats_schema_lawful };

    fn lists(&self) -> &'static SchemaLists {
        &STATISTICS
    }
}
