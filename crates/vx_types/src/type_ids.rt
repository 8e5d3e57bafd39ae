//! The tags of a union.

ghost use Rattle.std.specs.Prelude.{◌≡◌, ◌==◌, IfOk, IsOkUnless, length};
ghost use Rattle.vx_trees.specs.Bytes.{AreBytes};

use crate::error::TypeError;
use std::alloc::Global;
use std::marker::Model;

/// The tags of a union's members, in the members' order. Contracts see their
/// list. It is boxed to keep a type small.
#[derive(Debug, Drop)]
pub struct TypeIds {
    ids: Box<Vec<u8>>,
}

impl Model for TypeIds {
    ghost use Rattle.std.specs.Prelude.{List, ℕ};
    ghost use Rattle.vx_trees.specs.Bytes.{AreBytes};

    ghost Value = { List ℕ };

    ghost view = { λ a. a.ids.value.items };

    ghost invariant = { λ a. AreBytes a.ids.value.items };
}

impl TypeIds {
    /// A copy of these tags.
    #[tactic(auto, using(vx_trees::proofs::LawsOfBytes::bytes_from_index))]
    pub fn copy_from(alloc: Global, ids: &[u8]) -> Result<TypeIds, TypeError>
        ensures ok { IfOk result (λ copy. copy ≡ ids.now) }
        ensures err { IsOkUnless result TypeError.OutOfMemory }
    {
        let copy = Vec::from_slice(alloc, ids)?;
        let ids = Box::new(alloc, copy)?;
        Ok(TypeIds { ids })
    }

    /// The tags.
    pub fn as_slice(&self) -> &[u8]
        ensures { result.now ≡ self.now }
    {
        self.ids.as_slice()
    }

    /// The number of tags.
    pub fn len(&self) -> usize
        ensures len { result ≡ length self.now }
        ensures bytes { AreBytes self.now }
    {
        self.ids.len()
    }

    /// Whether the list is empty.
    pub fn is_empty(&self) -> bool
        ensures { result ≡ (length self.now == 0) }
    {
        self.ids.is_empty()
    }

    /// Equal tags.
    pub fn clone(&self, alloc: Global) -> Result<TypeIds, TypeError>
        ensures ok { IfOk result (λ ids. ids ≡ self.now) }
        ensures err { IsOkUnless result TypeError.OutOfMemory }
    {
        TypeIds::copy_from(alloc, self.as_slice())
    }
}
