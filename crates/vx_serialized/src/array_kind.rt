//! The schema of array messages.

use vx_flat::{FieldKind, SchemaLists, TableKind, Width};

/// The kind of array messages: a root node and the descriptors of buffers. The tables and their fields are this
/// project's own.
#[derive(Clone, Copy, Debug)]
pub struct ArrayKind;

static ARRAYS: SchemaLists = SchemaLists {
    root: 0,
    tables: &[
        // An array: root, buffers.
        &[FieldKind::Table(1), FieldKind::Structs(0)],
        // A node: encoding, metadata, children, buffers, statistics.
        &[
            FieldKind::Number(Width::Two),
            FieldKind::Vector(Width::One),
            FieldKind::Tables(1),
            FieldKind::Vector(Width::Two),
            FieldKind::Table(2),
        ],
        // Statistics.
        &[
            FieldKind::Vector(Width::One),
            FieldKind::Number(Width::One),
            FieldKind::Vector(Width::One),
            FieldKind::Number(Width::One),
            FieldKind::Vector(Width::One),
            FieldKind::OptFlag,
            FieldKind::OptFlag,
            FieldKind::OptFlag,
            FieldKind::OptNumber(Width::Eight),
            FieldKind::OptNumber(Width::Eight),
            FieldKind::OptNumber(Width::Eight),
        ],
    ],
    unions: &[],
    // A buffer's descriptor: padding, alignment exponent, compression, length.
    structs: &[&[Width::Two, Width::One, Width::One, Width::Four]],
};

impl TableKind for ArrayKind {
    ghost use Rattle.std.specs.Prelude.{refl};
    ghost use Rattle.vx_serialized.specs.ArraySchema.{array_schema};

    ghost schema = { array_schema };

    ghost lawful = { refl };

    fn lists(&self) -> &'static SchemaLists {
        &ARRAYS
    }
}
