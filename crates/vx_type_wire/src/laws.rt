//! Laws about the tables of types, for proofs in other crates.

ghost use Rattle.std.specs.Prelude.{◌≡◌, List, ℕ};
ghost use Rattle.vx_types.specs.Typ.{Typ, IsType};
ghost use Rattle.vx_type_wire.specs.declared.error.TypeWireError.{TypeWireError};
ghost use Rattle.vx_type_wire.specs.Known.{ExtMeaning, IsKnown, IsNotKnown};
ghost use Rattle.vx_type_wire.specs.Shown.{ShowsType};
ghost use Rattle.vx_type_wire.specs.TypeTable.{type_table};

/// A table is of at most one type, and a message shows at most one type.
pub fn one_type()
    ensures table { (t u : Typ) → IsType t → IsType u → type_table t ≡ type_table u → t ≡ u }
    ensures message { (m : List ℕ) (t u : Typ) → ShowsType m t → ShowsType m u → t ≡ u }
{}

/// A type is not both known and not known under a session.
pub fn known_or_not()
    ensures { (e : TypeWireError) (s : ExtMeaning) (t : Typ) → IsNotKnown e s t → IsKnown s t → ⊥ }
{}
