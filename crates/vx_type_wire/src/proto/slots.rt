//! The schema of the messages of types.

ghost use Rattle.std.proofs.Common.{arith};
ghost use Rattle.vx_type_wire.specs.TypeMessage.{type_lists, type_lists_lawful};

use vx_proto::{Kind, Member, MessageKind, ScalarKind, Schema, Slot};

/// The kind of the messages of types.
#[derive(Clone, Copy, Debug)]
pub struct TypeMessage;

/// The message of a type: a oneof of the members by their tags.
pub const TYPE: &[Slot] = &[Slot::OneOf(&[
    Member {
        number: 1,
        kind: Kind::Message(1),
    },
    Member {
        number: 2,
        kind: Kind::Message(2),
    },
    Member {
        number: 3,
        kind: Kind::Message(3),
    },
    Member {
        number: 4,
        kind: Kind::Message(4),
    },
    Member {
        number: 5,
        kind: Kind::Message(5),
    },
    Member {
        number: 6,
        kind: Kind::Message(6),
    },
    Member {
        number: 7,
        kind: Kind::Message(7),
    },
    Member {
        number: 8,
        kind: Kind::Message(8),
    },
    Member {
        number: 9,
        kind: Kind::Message(9),
    },
    Member {
        number: 10,
        kind: Kind::Message(10),
    },
    Member {
        number: 11,
        kind: Kind::Message(11),
    },
    Member {
        number: 12,
        kind: Kind::Message(12),
    },
    Member {
        number: 13,
        kind: Kind::Message(13),
    },
])];

/// No part.
pub const NULL: &[Slot] = &[];

/// Bool, Utf8, Binary and Variant: nullable.
pub const NULLABLE: &[Slot] = &[Slot::Plain(1, ScalarKind::Flag)];

/// ptype, nullable.
pub const PRIMITIVE: &[Slot] = &[
    Slot::Plain(1, ScalarKind::Enum(11)),
    Slot::Plain(2, ScalarKind::Flag),
];

/// precision, scale, nullable.
pub const DECIMAL: &[Slot] = &[
    Slot::Plain(1, ScalarKind::Uint32),
    Slot::Plain(2, ScalarKind::Int32),
    Slot::Plain(3, ScalarKind::Flag),
];

/// names, dtypes, nullable.
pub const STRUCT: &[Slot] = &[
    Slot::Repeated(1, Kind::Scalar(ScalarKind::String)),
    Slot::Repeated(2, Kind::Message(0)),
    Slot::Plain(3, ScalarKind::Flag),
];

/// element_type, nullable.
pub const LIST: &[Slot] = &[
    Slot::OneOf(&[Member {
        number: 1,
        kind: Kind::Message(0),
    }]),
    Slot::Plain(2, ScalarKind::Flag),
];

/// id, storage_dtype, metadata.
pub const EXTENSION: &[Slot] = &[
    Slot::Plain(1, ScalarKind::String),
    Slot::OneOf(&[Member {
        number: 2,
        kind: Kind::Message(0),
    }]),
    Slot::Plain(3, ScalarKind::Bytes),
];

/// element_type, size, nullable.
pub const FIXED_SIZE_LIST: &[Slot] = &[
    Slot::OneOf(&[Member {
        number: 1,
        kind: Kind::Message(0),
    }]),
    Slot::Plain(2, ScalarKind::Uint32),
    Slot::Plain(3, ScalarKind::Flag),
];

/// names, dtypes, type_ids, nullable.
pub const UNION: &[Slot] = &[
    Slot::Repeated(1, Kind::Scalar(ScalarKind::String)),
    Slot::Repeated(2, Kind::Message(0)),
    Slot::Plain(3, ScalarKind::Bytes),
    Slot::Plain(4, ScalarKind::Flag),
];

/// key_type, value_type, keys_sorted, nullable.
pub const MAP: &[Slot] = &[
    Slot::OneOf(&[Member {
        number: 1,
        kind: Kind::Message(0),
    }]),
    Slot::OneOf(&[Member {
        number: 2,
        kind: Kind::Message(0),
    }]),
    Slot::Plain(3, ScalarKind::Flag),
    Slot::Plain(4, ScalarKind::Flag),
];

const SCHEMA: Schema = Schema {
    messages: &[
        TYPE,
        NULL,
        NULLABLE,
        PRIMITIVE,
        DECIMAL,
        NULLABLE,
        NULLABLE,
        STRUCT,
        LIST,
        EXTENSION,
        FIXED_SIZE_LIST,
        NULLABLE,
        UNION,
        MAP,
    ],
};

impl MessageKind for TypeMessage {
    ghost schema = { type_lists };

    ghost place = { 0 };

    fn lists() -> Schema {
        SCHEMA
    }

    fn schema_place() -> u32 {
        0
    }

    ghost lawful = { type_lists_lawful };

    ghost placed = { Prim.omega arith };
}
