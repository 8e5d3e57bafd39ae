//! The messages of scalars, each seen by contracts as its plain value.

use crate::kinds::{ListValueMessage, ScalarMessage, ScalarValueMessage, UnionValueMessage};
use vx_proto::PlainMessage;

/// The message of a scalar: its type and its value.
pub type Scalar = PlainMessage<ScalarMessage>;

/// The message of a value, or of a null: a oneof of twelve members.
pub type ScalarValue = PlainMessage<ScalarValueMessage>;

/// The message of a tuple: its values.
pub type ListValue = PlainMessage<ListValueMessage>;

/// The message of a union's value: its tag and the value of the member.
pub type UnionValue = PlainMessage<UnionValueMessage>;
