//! Identifiers.

ghost use Rattle.std.specs.Prelude.{◌≡◌, IfOk, IsOkUnless, bytes_eq, string_bytes};
ghost use Rattle.vx_types.specs.Content.{IsText};
ghost use Rattle.std.proofs.Common.{rules};
ghost use Rattle.std.specs.Hash as fed;
ghost use Rattle.std.specs.Cmp.{partial_equiv_from_equiv};
ghost use Rattle.std.specs.Cmp.Lexicographic.{nat_list_eq_equiv};
ghost use Rattle.std.specs.Cmp.Rules.{hashing};

use crate::error::TypeError;
use std::alloc::Global;
use std::hash::{Hash, Hasher};
use std::marker::Model;

/// An identifier, as of an encoding or an extension. Contracts see its UTF-8 bytes.
#[derive(Debug, Drop)]
pub struct Id {
    pub(crate) text: String,
}

impl Model for Id {
    ghost use Rattle.std.specs.Prelude.{List, ℕ, string_bytes};

    ghost Value = { List ℕ };

    ghost view = { λ a. string_bytes a.text };
}

impl Id {
    /// A copy of the text.
    pub fn new(alloc: Global, text: &str) -> Result<Id, TypeError>
        ensures ok { IfOk result (λ id. id ≡ text.now) }
        ensures err { IsOkUnless result TypeError.OutOfMemory }
    {
        let text = String::from_str(alloc, text)?;
        Ok(Id { text })
    }

    /// The text.
    pub fn as_str(&self) -> &str
        ensures same { result.now ≡ self.now }
        ensures text { IsText self.now }
    {
        self.text.as_str()
    }

    /// An equal identifier.
    pub fn clone(&self, alloc: Global) -> Result<Id, TypeError>
        ensures ok { IfOk result (λ id. id ≡ self.now) }
        ensures err { IsOkUnless result TypeError.OutOfMemory }
    {
        Id::new(alloc, self.as_str())
    }
}

impl PartialEq for Id {
    ghost eq = { λ a b. bytes_eq a b };

    ghost laws = { partial_equiv_from_equiv nat_list_eq_equiv };

    fn eq(&self, other: &Id) -> bool {
        self.as_str() == other.as_str()
    }
}

impl Eq for Id {
    ghost laws = { nat_list_eq_equiv };
}

impl Hash for Id {
    ghost hash_input = { λ id. fed.str id };

    ghost respects_eq = { Prim.search (hashing, rules) };

    fn hash<H: Hasher>(&self, state: &mut H) {
        self.as_str().hash(state);
    }
}
