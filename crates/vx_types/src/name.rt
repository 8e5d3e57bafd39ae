//! Names.

ghost use Rattle.std.specs.Prelude.{◌≡◌, IfOk, IsOkUnless, bytes_eq, string_bytes};
ghost use Rattle.vx_types.specs.Content.{IsText};
ghost use Rattle.std.specs.Cmp.{partial_equiv_from_equiv};
ghost use Rattle.std.specs.Cmp.Lexicographic.{nat_list_eq_equiv};

use crate::error::TypeError;
use std::alloc::Global;
use std::marker::Model;

/// A text, as of a field or a string scalar. Contracts see its UTF-8 bytes.
#[derive(Debug, Drop)]
pub struct Name {
    pub(crate) text: String,
}

impl Model for Name {
    ghost use Rattle.std.specs.Prelude.{List, ℕ, string_bytes};

    ghost Value = { List ℕ };

    ghost view = { λ a. string_bytes a.text };
}

impl Name {
    /// A copy of the text.
    pub fn new(alloc: Global, text: &str) -> Result<Name, TypeError>
        ensures ok { IfOk result (λ name. name ≡ text.now) }
        ensures err { IsOkUnless result TypeError.OutOfMemory }
    {
        let text = String::from_str(alloc, text)?;
        Ok(Name { text })
    }

    /// The text.
    pub fn as_str(&self) -> &str
        ensures same { result.now ≡ self.now }
        ensures text { IsText self.now }
    {
        self.text.as_str()
    }

    /// An equal name.
    pub fn clone(&self, alloc: Global) -> Result<Name, TypeError>
        ensures ok { IfOk result (λ name. name ≡ self.now) }
        ensures err { IsOkUnless result TypeError.OutOfMemory }
    {
        Name::new(alloc, self.as_str())
    }
}

impl PartialEq for Name {
    ghost eq = { λ a b. bytes_eq a b };

    ghost laws = { partial_equiv_from_equiv nat_list_eq_equiv };

    fn eq(&self, other: &Name) -> bool {
        self.as_str() == other.as_str()
    }
}

impl Eq for Name {
    ghost laws = { nat_list_eq_equiv };
}
