//! The laws of this crate's definitions. The functions have empty bodies: a caller learns a law from the clause of its
//! function.

ghost use Rattle.std.specs.Prelude.{ℕ, List, ◌++◌};
ghost use Rattle.vx_flat.specs.declared.limits.Limits.{Limits};
ghost use Rattle.vx_wire_tree.specs.Wire.{Wire, IsWhole};
ghost use Rattle.vx_serialized.specs.Blob.{Carries};
ghost use Rattle.vx_serialized.specs.Carried.{IsWithinLimits};
ghost use Rattle.vx_serialized.specs.Serialized.{Serialized};
ghost use Rattle.vx_serialized.specs.Stored.{IsBlobOf};

/// A blob that was opened keeps the limits on reading.
pub fn reader_limits()
    ensures { (most : Limits) (blob : List ℕ) (a : Serialized) → IsBlobOf most blob a → IsWithinLimits most blob }
{}

/// A blob carries the same wire tree where more identifiers come after those that it is read with, if no part of the
/// tree is missing.
pub fn carried_longer()
    ensures { (blob : List ℕ) (ids others : List (List ℕ)) (w : Wire) → IsWhole w → Carries blob ids w → Carries blob (ids ++ others) w }
{}
