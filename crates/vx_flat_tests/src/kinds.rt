//! The kinds of messages that the tests read and write.

use vx_flat::{FieldKind, Member, SchemaLists, TableKind, Width};

static ARRAY: SchemaLists = SchemaLists {
    root: 0,
    tables: &[
        &[FieldKind::Table(1), FieldKind::Structs(0)],
        &[
            FieldKind::Number(Width::Two),
            FieldKind::Vector(Width::One),
            FieldKind::Tables(1),
            FieldKind::Vector(Width::Two),
            FieldKind::Table(2),
        ],
        &[
            FieldKind::Vector(Width::One),
            FieldKind::Number(Width::One),
            FieldKind::Vector(Width::One),
            FieldKind::Number(Width::One),
            FieldKind::Vector(Width::One),
            FieldKind::OptFlag,
            FieldKind::OptFlag,
            FieldKind::OptFlag,
            FieldKind::OptNumber(Width::Eight),
            FieldKind::OptNumber(Width::Eight),
            FieldKind::OptNumber(Width::Eight),
        ],
    ],
    unions: &[],
    structs: &[&[Width::Two, Width::One, Width::One, Width::Four]],
};

/// The messages of arrays.
pub struct ArrayKind;

impl TableKind for ArrayKind {
    ghost use Rattle.std.specs.Prelude.{refl};
    ghost use Rattle.vx_flat_tests.specs.Worked.{array_schema};

    ghost schema = { array_schema };

    ghost lawful = { refl };

    fn lists(&self) -> &'static SchemaLists {
        &ARRAY
    }
}

static TYPE: SchemaLists = SchemaLists {
    root: 0,
    tables: &[
        &[FieldKind::Union(0)],
        &[FieldKind::Number(Width::One), FieldKind::Flag],
    ],
    unions: &[&[Member { tag: 3, table: 1 }]],
    structs: &[],
};

/// The messages of types, with one of the members alone: a primitive, as member 3.
#[derive(Drop)]
pub struct TypeKind;

impl TableKind for TypeKind {
    ghost use Rattle.std.specs.Prelude.{refl};
    ghost use Rattle.vx_flat_tests.specs.Worked.{primitive_schema};

    ghost schema = { primitive_schema };

    ghost lawful = { refl };

    fn lists(&self) -> &'static SchemaLists {
        &TYPE
    }
}

static EVERY: SchemaLists = SchemaLists {
    root: 0,
    tables: &[
        &[
            FieldKind::Number(Width::One),
            FieldKind::Number(Width::Two),
            FieldKind::Number(Width::Four),
            FieldKind::Number(Width::Eight),
            FieldKind::OptNumber(Width::Two),
            FieldKind::OptNumber(Width::Four),
            FieldKind::Flag,
            FieldKind::Flag,
            FieldKind::OptFlag,
            FieldKind::OptFlag,
            FieldKind::Vector(Width::Two),
            FieldKind::Structs(0),
            FieldKind::Text,
            FieldKind::Texts,
            FieldKind::Table(1),
            FieldKind::Tables(1),
            FieldKind::Union(0),
            FieldKind::Union(0),
            FieldKind::Union(0),
        ],
        &[FieldKind::Number(Width::One)],
        &[FieldKind::Text],
    ],
    unions: &[&[Member { tag: 1, table: 1 }, Member { tag: 2, table: 2 }]],
    structs: &[&[Width::Two, Width::One]],
};

/// A kind with a field of every kind.
pub struct EveryKind;

impl TableKind for EveryKind {
    ghost use Rattle.std.specs.Prelude.{refl};
    ghost use Rattle.vx_flat_tests.specs.Worked.{every_schema};

    ghost schema = { every_schema };

    ghost lawful = { refl };

    fn lists(&self) -> &'static SchemaLists {
        &EVERY
    }
}

static PAIR: SchemaLists = SchemaLists {
    root: 0,
    tables: &[&[FieldKind::Table(0), FieldKind::Table(0)]],
    unions: &[],
    structs: &[],
};

/// A table with two fields of its own kind.
pub struct PairKind;

impl TableKind for PairKind {
    ghost use Rattle.std.specs.Prelude.{refl};
    ghost use Rattle.vx_flat_tests.specs.Worked.{pair_schema};

    ghost schema = { pair_schema };

    ghost lawful = { refl };

    fn lists(&self) -> &'static SchemaLists {
        &PAIR
    }
}
