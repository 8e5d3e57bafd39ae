//! Plain messages over some schemas.

ghost use Rattle.std.specs.Prelude.{refl};
ghost use Rattle.std.proofs.Common.{arith};
ghost use Rattle.vx_proto_tests.specs.Samples.{kinds, types, scalars, dictionaries, expressions, aggregates, trees, nests};

use vx_proto::{Kind, Member, MessageKind, ScalarKind, Schema, Slot};

/// The slots of a tree's message.
pub const TREE: &[Slot] = &[
    Slot::OneOf(&[
        Member {
            number: 1,
            kind: Kind::Scalar(ScalarKind::String),
        },
        Member {
            number: 2,
            kind: Kind::Scalar(ScalarKind::Uint64),
        },
    ]),
    Slot::Repeated(3, Kind::Message(0)),
];

const KINDS: Schema = Schema {
    messages: &[&[
        Slot::Optional(1, ScalarKind::Uint32),
        Slot::Optional(2, ScalarKind::Uint64),
        Slot::Optional(3, ScalarKind::Int32),
        Slot::Optional(4, ScalarKind::Flag),
        Slot::Optional(5, ScalarKind::Enum(11)),
        Slot::Optional(6, ScalarKind::Fixed32),
        Slot::Optional(7, ScalarKind::Fixed64),
        Slot::Optional(8, ScalarKind::String),
        Slot::Optional(9, ScalarKind::Bytes),
        Slot::Optional(10, ScalarKind::Sint64),
    ]],
};

/// A field of each kind, each optional: a field that is there is written at its default, too.
#[derive(Debug)]
pub struct Kinds;

impl MessageKind for Kinds {
    ghost schema = { kinds };

    ghost place = { 0 };

    fn lists() -> Schema {
        KINDS
    }

    fn schema_place() -> u32 {
        0
    }

    ghost lawful = { refl };

    ghost placed = { Prim.omega arith };
}

const TYPES: Schema = Schema {
    messages: &[
        &[Slot::OneOf(&[
            Member {
                number: 1,
                kind: Kind::Message(1),
            },
            Member {
                number: 3,
                kind: Kind::Message(2),
            },
            Member {
                number: 8,
                kind: Kind::Message(3),
            },
        ])],
        &[],
        &[
            Slot::Plain(1, ScalarKind::Enum(11)),
            Slot::Plain(2, ScalarKind::Flag),
        ],
        &[
            Slot::OneOf(&[Member {
                number: 1,
                kind: Kind::Message(0),
            }]),
            Slot::Plain(2, ScalarKind::Flag),
        ],
    ],
};

/// A type with three of its members: null, primitive and list.
#[derive(Debug)]
pub struct Types;

impl MessageKind for Types {
    ghost schema = { types };

    ghost place = { 0 };

    fn lists() -> Schema {
        TYPES
    }

    fn schema_place() -> u32 {
        0
    }

    ghost lawful = { refl };

    ghost placed = { Prim.omega arith };
}

const SCALARS: Schema = Schema {
    messages: &[
        &[Slot::OneOf(&[
            Member {
                number: 1,
                kind: Kind::Scalar(ScalarKind::Enum(1)),
            },
            Member {
                number: 2,
                kind: Kind::Scalar(ScalarKind::Flag),
            },
            Member {
                number: 3,
                kind: Kind::Scalar(ScalarKind::Sint64),
            },
            Member {
                number: 4,
                kind: Kind::Scalar(ScalarKind::Uint64),
            },
            Member {
                number: 5,
                kind: Kind::Scalar(ScalarKind::Fixed32),
            },
            Member {
                number: 6,
                kind: Kind::Scalar(ScalarKind::Fixed64),
            },
            Member {
                number: 7,
                kind: Kind::Scalar(ScalarKind::String),
            },
            Member {
                number: 8,
                kind: Kind::Scalar(ScalarKind::Bytes),
            },
            Member {
                number: 9,
                kind: Kind::Message(1),
            },
            Member {
                number: 10,
                kind: Kind::Scalar(ScalarKind::Uint64),
            },
            Member {
                number: 11,
                kind: Kind::Message(2),
            },
        ])],
        &[Slot::Repeated(1, Kind::Message(0))],
        &[
            Slot::Plain(1, ScalarKind::Uint32),
            Slot::OneOf(&[Member {
                number: 2,
                kind: Kind::Message(0),
            }]),
        ],
    ],
};

/// A scalar value, its lists and its unions.
#[derive(Debug)]
pub struct Scalars;

impl MessageKind for Scalars {
    ghost schema = { scalars };

    ghost place = { 0 };

    fn lists() -> Schema {
        SCALARS
    }

    fn schema_place() -> u32 {
        0
    }

    ghost lawful = { refl };

    ghost placed = { Prim.omega arith };
}

const DICTIONARIES: Schema = Schema {
    messages: &[&[
        Slot::Plain(1, ScalarKind::Uint32),
        Slot::Plain(2, ScalarKind::Enum(11)),
        Slot::Optional(3, ScalarKind::Flag),
        Slot::Optional(4, ScalarKind::Flag),
    ]],
};

/// The metadata of a dictionary, which begins like that of a list.
#[derive(Debug)]
pub struct Dictionaries;

impl MessageKind for Dictionaries {
    ghost schema = { dictionaries };

    ghost place = { 0 };

    fn lists() -> Schema {
        DICTIONARIES
    }

    fn schema_place() -> u32 {
        0
    }

    ghost lawful = { refl };

    ghost placed = { Prim.omega arith };
}

const EXPRESSIONS: Schema = Schema {
    messages: &[&[
        Slot::Plain(1, ScalarKind::String),
        Slot::Repeated(2, Kind::Message(0)),
        Slot::Optional(3, ScalarKind::Bytes),
    ]],
};

/// An expression: an identifier, children, and optional metadata.
#[derive(Debug)]
pub struct Expressions;

impl MessageKind for Expressions {
    ghost schema = { expressions };

    ghost place = { 0 };

    fn lists() -> Schema {
        EXPRESSIONS
    }

    fn schema_place() -> u32 {
        0
    }

    ghost lawful = { refl };

    ghost placed = { Prim.omega arith };
}

const AGGREGATES: Schema = Schema {
    messages: &[&[
        Slot::Plain(1, ScalarKind::String),
        Slot::Optional(2, ScalarKind::Bytes),
    ]],
};

/// A function over many values: an identifier, and optional metadata.
#[derive(Debug)]
pub struct Aggregates;

impl MessageKind for Aggregates {
    ghost schema = { aggregates };

    ghost place = { 0 };

    fn lists() -> Schema {
        AGGREGATES
    }

    fn schema_place() -> u32 {
        0
    }

    ghost lawful = { refl };

    ghost placed = { Prim.omega arith };
}

const TREES: Schema = Schema { messages: &[TREE] };

/// A tree: a oneof of a text and a number, and the trees below.
#[derive(Debug)]
pub struct Trees;

impl MessageKind for Trees {
    ghost schema = { trees };

    ghost place = { 0 };

    fn lists() -> Schema {
        TREES
    }

    fn schema_place() -> u32 {
        0
    }

    ghost lawful = { refl };

    ghost placed = { Prim.omega arith };
}

const NESTS: Schema = Schema {
    messages: &[&[Slot::OneOf(&[Member {
        number: 1,
        kind: Kind::Message(0),
    }])]],
};

/// A message that may hold one of its own kind.
#[derive(Debug)]
pub struct Nests;

impl MessageKind for Nests {
    ghost schema = { nests };

    ghost place = { 0 };

    fn lists() -> Schema {
        NESTS
    }

    fn schema_place() -> u32 {
        0
    }

    ghost lawful = { refl };

    ghost placed = { Prim.omega arith };
}
