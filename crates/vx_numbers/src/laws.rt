//! Laws of the codes, for the contracts of other crates.

ghost use Rattle.std.specs.Prelude.{◌≡◌};
ghost use Rattle.vx_numbers.specs.declared.decimal_type.DecimalType.{DecimalType};
ghost use Rattle.vx_numbers.specs.declared.ptype.PType.{PType};
ghost use Rattle.vx_numbers.specs.Decimals.{decimal_code_of};
ghost use Rattle.vx_numbers.specs.Numbers.{code_of};

/// No two widths of decimals share a code.
pub fn code_is_of_one_decimal_type()
    ensures { (a b : DecimalType) → decimal_code_of a ≡ decimal_code_of b → a ≡ b }
{}

/// No two kinds of numbers share a code.
pub fn code_is_of_one_kind()
    ensures { (a b : PType) → code_of a ≡ code_of b → a ≡ b }
{}
