//! Owned bytes.

ghost use Rattle.std.specs.Prelude.{◌≡◌, ◌==◌, IfOk, IsOkUnless, bytes_eq, length};
ghost use Rattle.vx_trees.specs.Bytes.{AreBytes};
ghost use Rattle.std.specs.Cmp.{partial_equiv_from_equiv};
ghost use Rattle.std.specs.Cmp.Lexicographic.{nat_list_eq_equiv};

use crate::error::TypeError;
use std::alloc::Global;
use std::marker::Model;

/// Owned bytes, as of metadata or a binary scalar. Contracts see their list.
#[derive(Debug, Drop)]
pub struct Blob {
    pub(crate) bytes: Vec<u8>,
}

impl Model for Blob {
    ghost use Rattle.std.specs.Prelude.{List, ℕ};
    ghost use Rattle.vx_trees.specs.Bytes.{AreBytes};

    ghost Value = { List ℕ };

    ghost view = { λ a. a.bytes.items };

    ghost invariant = { λ a. AreBytes a.bytes.items };
}

impl Blob {
    /// These bytes.
    pub fn new(bytes: Vec<u8>) -> Blob
        ensures { result ≡ bytes.items }
    {
        Blob { bytes }
    }

    /// A copy of these bytes.
    #[tactic(auto, using(vx_trees::proofs::LawsOfBytes::bytes_from_index))]
    pub fn copy_from(alloc: Global, bytes: &[u8]) -> Result<Blob, TypeError>
        ensures ok { IfOk result (λ blob. blob ≡ bytes.now) }
        ensures err { IsOkUnless result TypeError.OutOfMemory }
    {
        let copy = Vec::from_slice(alloc, bytes)?;
        Ok(Blob { bytes: copy })
    }

    /// The bytes.
    pub fn as_slice(&self) -> &[u8]
        ensures { result.now ≡ self.now }
    {
        self.bytes.as_slice()
    }

    /// The number of bytes.
    pub fn len(&self) -> usize
        ensures len { result ≡ length self.now }
        ensures bytes { AreBytes self.now }
    {
        self.bytes.len()
    }

    /// Whether there are no bytes.
    pub fn is_empty(&self) -> bool
        ensures { result ≡ (length self.now == 0) }
    {
        self.bytes.is_empty()
    }

    /// The bytes, without a copy.
    pub fn into_vec(self) -> Vec<u8>
        ensures { result.items ≡ self }
    {
        self.bytes
    }

    /// Equal bytes.
    pub fn clone(&self, alloc: Global) -> Result<Blob, TypeError>
        ensures ok { IfOk result (λ blob. blob ≡ self.now) }
        ensures err { IsOkUnless result TypeError.OutOfMemory }
    {
        Blob::copy_from(alloc, self.as_slice())
    }
}

impl PartialEq for Blob {
    ghost eq = { λ a b. bytes_eq a b };

    ghost laws = { partial_equiv_from_equiv nat_list_eq_equiv };

    fn eq(&self, other: &Blob) -> bool {
        self.as_slice() == other.as_slice()
    }
}

impl Eq for Blob {
    ghost laws = { nat_list_eq_equiv };
}
