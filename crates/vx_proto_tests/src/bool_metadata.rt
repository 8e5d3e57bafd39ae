//! Metadata of one field.

ghost use Rattle.std.specs.Prelude.{refl};
ghost use Rattle.std.proofs.Common.{arith, ap};
ghost use Rattle.vx_proto_tests.specs.BoolMetadata.{bool_lists, bool_value, bool_parts};

use std::alloc::Global;
use vx_proto::{Element, Entries, Message, ProtoError, ScalarKind, Schema, Slot, one, u32_at};

/// The metadata of a bool array: the bit at which its first row lies.
#[derive(Debug, Drop)]
pub struct BoolMetadata {
    /// The bit.
    pub offset: u32,
}

const SCHEMA: Schema = Schema {
    messages: &[&[Slot::Plain(1, ScalarKind::Uint32)]],
};

impl Message for BoolMetadata {
    ghost schema = { bool_lists };

    ghost place = { 0 };

    ghost value = { λ m. bool_value m.offset };

    fn lists() -> Schema {
        SCHEMA
    }

    fn schema_place() -> u32 {
        0
    }

    fn default(_alloc: Global) -> BoolMetadata {
        BoolMetadata { offset: 0 }
    }

    fn from_value(_alloc: Global, slots: Vec<Entries>) -> Result<BoolMetadata, ProtoError> {
        let offset = u32_at(&slots, 0);
        Ok(BoolMetadata { offset })
    }

    fn to_value(&self, alloc: Global) -> Result<Vec<Entries>, ProtoError> {
        let offset = one(alloc, 1, Element::Number(self.offset as u64))?;
        Ok(vec![in alloc; offset]?)
    }

    ghost lawful = { refl };

    ghost placed = { Prim.omega arith };

    ghost determined = { λ m n p q e. ap (λ x. record { offset = x.0 }) (bool_parts.same (m.offset, tt) (n.offset, tt) e) };
}
