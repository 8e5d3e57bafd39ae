//! What the definitions say of the worked message of a type.

ghost use Rattle.std.specs.Prelude.{◌≡◌, Bool};
ghost use Rattle.vx_flat.specs.Layout.{layout};
ghost use Rattle.vx_flat_tests.specs.Worked.{type_message};
ghost use Rattle.vx_type_wire.specs.Schema.{type_schema};
ghost use Rattle.vx_type_wire.specs.Shown.{ShowsType};
ghost use Rattle.vx_type_wire.specs.TypeTable.{type_table, integers};

/// The worked message of 45 bytes is the layout of the table of I32, not
/// nullable, in both forms, and shows that type.
pub fn worked_integers()
    ensures laid_out { (sharing : Bool) → layout sharing type_schema (type_table integers) ≡ type_message }
    ensures shown { ShowsType type_message integers }
{}
