//! Metadata with a message in it, as metadata with a type in it has: the messages of the nested type come first in its
//! schema, and its own after them.

ghost use Rattle.std.specs.Prelude.{refl};
ghost use Rattle.std.proofs.Common.{arith, ap};
ghost use Rattle.vx_proto_tests.specs.TreeMetadata.{tree_metadata_lists, tree_metadata_value, tree_metadata_parts};

use crate::samples::{TREE, Trees};
use std::alloc::Global;
use vx_proto::{
    Element, Entries, Kind, Member, Message, PlainMessage, ProtoError, Schema, Slot, one,
    take_message,
};

/// Metadata with an optional tree.
#[derive(Debug, Drop)]
pub struct TreeMetadata {
    /// The tree.
    pub tree: Option<PlainMessage<Trees>>,
}

const SCHEMA: Schema = Schema {
    messages: &[
        TREE,
        &[Slot::OneOf(&[Member {
            number: 1,
            kind: Kind::Message(0),
        }])],
    ],
};

impl Message for TreeMetadata {
    ghost schema = { tree_metadata_lists };

    ghost place = { 1 };

    ghost value = { λ m. tree_metadata_value m.tree };

    fn lists() -> Schema {
        SCHEMA
    }

    fn schema_place() -> u32 {
        1
    }

    fn default(_alloc: Global) -> TreeMetadata {
        TreeMetadata { tree: None }
    }

    fn from_value(_alloc: Global, slots: Vec<Entries>) -> Result<TreeMetadata, ProtoError> {
        match take_message(slots, 0) {
            Some(inner) => Ok(TreeMetadata {
                tree: Some(PlainMessage::new(inner)),
            }),
            None => Ok(TreeMetadata { tree: None }),
        }
    }

    fn to_value(&self, alloc: Global) -> Result<Vec<Entries>, ProtoError> {
        match &self.tree {
            Some(tree) => {
                let inner = tree.to_value(alloc)?;
                let entries = one(alloc, 1, Element::Message(inner))?;
                Ok(vec![in alloc; entries]?)
            }
            None => Ok(vec![in alloc; Vec::new(alloc)]?),
        }
    }

    ghost lawful = { refl };

    ghost placed = { Prim.omega arith };

    ghost determined = { λ m n p q e. ap (λ x. record { tree = x.0 }) (tree_metadata_parts.same (m.tree, tt) (n.tree, tt) e) };
}
