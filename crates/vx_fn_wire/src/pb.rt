//! The messages of expressions and of aggregate functions.

ghost use Rattle.std.specs.Prelude.{refl};
ghost use Rattle.std.proofs.Common.{arith};
ghost use Rattle.vx_fn_wire.specs.Schema.{expr_lists, aggregate_lists};

use vx_proto::{Kind, MessageKind, PlainMessage, ScalarKind, Schema, Slot};

const EXPR: Schema = Schema {
    messages: &[&[
        Slot::Plain(1, ScalarKind::String),
        Slot::Repeated(2, Kind::Message(0)),
        Slot::Optional(3, ScalarKind::Bytes),
    ]],
};

const AGGREGATE_FN: Schema = Schema {
    messages: &[&[
        Slot::Plain(1, ScalarKind::String),
        Slot::Optional(2, ScalarKind::Bytes),
    ]],
};

/// The kind of the messages of expressions.
#[derive(Clone, Copy, Debug)]
pub struct ExprMessage;

impl MessageKind for ExprMessage {
    ghost schema = { expr_lists };

    ghost place = { 0 };

    fn lists() -> Schema {
        EXPR
    }

    fn schema_place() -> u32 {
        0
    }

    ghost lawful = { refl };

    ghost placed = { Prim.omega arith };
}

/// The message of an expression: id (a text, 1), children (expressions, 2), metadata (bytes, 3, which
/// may be absent). Contracts see its plain value.
pub type Expr = PlainMessage<ExprMessage>;

/// The kind of the messages of aggregate functions.
#[derive(Clone, Copy, Debug)]
pub struct AggregateFnMessage;

impl MessageKind for AggregateFnMessage {
    ghost schema = { aggregate_lists };

    ghost place = { 0 };

    fn lists() -> Schema {
        AGGREGATE_FN
    }

    fn schema_place() -> u32 {
        0
    }

    ghost lawful = { refl };

    ghost placed = { Prim.omega arith };
}

/// The message of an aggregate function: id (a text, 1), metadata (bytes, 2, which may be absent).
/// Contracts see its plain value.
pub type AggregateFn = PlainMessage<AggregateFnMessage>;
