//! The schema of the messages of scalars.

ghost use Rattle.std.proofs.Common.{arith};
ghost use Rattle.vx_scalar_wire.specs.ScalarMessage.{scalar_lists, scalar_lists_lawful};

use vx_proto::{Kind, Member, MessageKind, ScalarKind, Schema, Slot};
use vx_type_wire::slots::{
    DECIMAL, EXTENSION, FIXED_SIZE_LIST, LIST, MAP, NULL, NULLABLE, PRIMITIVE, STRUCT, TYPE, UNION,
};

/// dtype, value.
const SCALAR: &[Slot] = &[
    Slot::OneOf(&[Member {
        number: 1,
        kind: Kind::Message(0),
    }]),
    Slot::OneOf(&[Member {
        number: 2,
        kind: Kind::Message(15),
    }]),
];

/// null, bool, int64, uint64, f32, f64, string, bytes, list, f16, union, variant.
const VALUE: &[Slot] = &[Slot::OneOf(&[
    Member {
        number: 1,
        kind: Kind::Scalar(ScalarKind::Enum(1)),
    },
    Member {
        number: 2,
        kind: Kind::Scalar(ScalarKind::Flag),
    },
    Member {
        number: 3,
        kind: Kind::Scalar(ScalarKind::Sint64),
    },
    Member {
        number: 4,
        kind: Kind::Scalar(ScalarKind::Uint64),
    },
    Member {
        number: 5,
        kind: Kind::Scalar(ScalarKind::Fixed32),
    },
    Member {
        number: 6,
        kind: Kind::Scalar(ScalarKind::Fixed64),
    },
    Member {
        number: 7,
        kind: Kind::Scalar(ScalarKind::String),
    },
    Member {
        number: 8,
        kind: Kind::Scalar(ScalarKind::Bytes),
    },
    Member {
        number: 9,
        kind: Kind::Message(16),
    },
    Member {
        number: 10,
        kind: Kind::Scalar(ScalarKind::Uint64),
    },
    Member {
        number: 11,
        kind: Kind::Message(17),
    },
    Member {
        number: 12,
        kind: Kind::Message(14),
    },
])];

/// values.
const LIST_VALUE: &[Slot] = &[Slot::Repeated(1, Kind::Message(15))];

/// type_id, value.
const UNION_VALUE: &[Slot] = &[
    Slot::Plain(1, ScalarKind::Uint32),
    Slot::OneOf(&[Member {
        number: 2,
        kind: Kind::Message(15),
    }]),
];

const SCHEMA: Schema = Schema {
    messages: &[
        TYPE,
        NULL,
        NULLABLE,
        PRIMITIVE,
        DECIMAL,
        NULLABLE,
        NULLABLE,
        STRUCT,
        LIST,
        EXTENSION,
        FIXED_SIZE_LIST,
        NULLABLE,
        UNION,
        MAP,
        SCALAR,
        VALUE,
        LIST_VALUE,
        UNION_VALUE,
    ],
};

/// The kind of the messages of scalars.
#[derive(Clone, Copy, Debug)]
pub struct ScalarMessage;

impl MessageKind for ScalarMessage {
    ghost schema = { scalar_lists };

    ghost place = { 14 };

    fn lists() -> Schema {
        SCHEMA
    }

    fn schema_place() -> u32 {
        14
    }

    ghost lawful = { scalar_lists_lawful };

    ghost placed = { Prim.omega arith };
}

/// The kind of the messages of values.
#[derive(Clone, Copy, Debug)]
pub struct ScalarValueMessage;

impl MessageKind for ScalarValueMessage {
    ghost schema = { scalar_lists };

    ghost place = { 15 };

    fn lists() -> Schema {
        SCHEMA
    }

    fn schema_place() -> u32 {
        15
    }

    ghost lawful = { scalar_lists_lawful };

    ghost placed = { Prim.omega arith };
}

/// The kind of the messages of tuples.
#[derive(Clone, Copy, Debug)]
pub struct ListValueMessage;

impl MessageKind for ListValueMessage {
    ghost schema = { scalar_lists };

    ghost place = { 16 };

    fn lists() -> Schema {
        SCHEMA
    }

    fn schema_place() -> u32 {
        16
    }

    ghost lawful = { scalar_lists_lawful };

    ghost placed = { Prim.omega arith };
}

/// The kind of the messages of unions' values.
#[derive(Clone, Copy, Debug)]
pub struct UnionValueMessage;

impl MessageKind for UnionValueMessage {
    ghost schema = { scalar_lists };

    ghost place = { 17 };

    fn lists() -> Schema {
        SCHEMA
    }

    fn schema_place() -> u32 {
        17
    }

    ghost lawful = { scalar_lists_lawful };

    ghost placed = { Prim.omega arith };
}
