//! The values, layouts and weights of worked messages.

ghost use Rattle.std.specs.Prelude.{◌≡◌, Bool, true, false, IsTrue, length};
ghost use Rattle.vx_flat.specs.Schema.{is_lawful};
ghost use Rattle.vx_flat.specs.Shows.{Shows};
ghost use Rattle.vx_flat.specs.Layout.{layout};
ghost use Rattle.vx_flat.specs.Weight.{weight};
ghost use Rattle.vx_flat_tests.specs.Worked.{array_schema, array_value, array_message, type_schema};
ghost use Rattle.vx_flat_tests.specs.Worked.{type_value, type_message, nodes_value, nodes_message};

/// The worked message of an array, of 148 bytes, is the layout of its value in both forms, and
/// shows it. It has 3 tables, nested 3, and weighs 218 bytes.
pub fn worked_array()
    ensures lawful { IsTrue (is_lawful array_schema) }
    ensures laid_out { (sharing : Bool) → layout sharing array_schema array_value ≡ array_message }
    ensures shown { Shows array_schema array_message array_value }
    ensures weighs { weight array_schema array_message
        ≡ record { nested = 3; tables = 3; bytes = 218 } }
{}

/// The worked message of a type, of 45 bytes, is the layout of its value in both forms, and shows
/// it.
pub fn worked_type()
    ensures lawful { IsTrue (is_lawful type_schema) }
    ensures laid_out { (sharing : Bool) → layout sharing type_schema type_value ≡ type_message }
    ensures shown { Shows type_schema type_message type_value }
{}

/// The message of two nodes has 212 bytes in the form that shares equal field tables, and 260 in
/// the plain one.
pub fn worked_nodes()
    ensures shared { layout true array_schema nodes_value ≡ nodes_message }
    ensures length { length nodes_message ≡ 212 }
    ensures plain { length (layout false array_schema nodes_value) ≡ 260 }
{}
