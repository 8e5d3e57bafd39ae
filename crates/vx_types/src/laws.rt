//! Laws of types, for the contracts of other crates.

ghost use Rattle.std.specs.Prelude.{◌≡◌, ◌↔◌, IsTrue};
ghost use Rattle.vx_trees.specs.Same.{same};
ghost use Rattle.vx_types.specs.declared.dtype.DType.{DType};
ghost use Rattle.vx_types.specs.Seen.{typ};
ghost use Rattle.vx_types.specs.Typ.{Typ, typ_code};

pub use vx_numbers::laws::{code_is_of_one_decimal_type, code_is_of_one_kind};

/// Types of the same tree are the same type.
pub fn same_tree_is_same_type()
    ensures { (a b : DType) → typ a ≡ typ b → a ≡ b }
{}

/// The test of `==` on types, which its contract states by the codes of trees, is equality
/// of the trees.
pub fn equal_types_are_one_tree()
    ensures { (a b : Typ) → IsTrue (same typ_code a b) ↔ (a ≡ b) }
{}
