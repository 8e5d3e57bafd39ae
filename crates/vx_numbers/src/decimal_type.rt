//! The widths of the integers that hold decimals.

ghost use Rattle.std.specs.Prelude.{◌≡◌, ◌≤◌, IfSome, IsTrue, Some};
ghost use Rattle.vx_numbers.specs.declared.decimal_type.DecimalType.{DecimalType};
ghost use Rattle.vx_numbers.specs.Decimals.{decimal_width_of, decimal_code_of};

/// The width of the integers that hold the values of a decimal.
#[derive(Clone, Copy, Debug, PartialEq, Eq)]
pub enum DecimalType {
    I8,
    I16,
    I32,
    I64,
    I128,
    I256,
}

impl DecimalType {
    /// How many bytes an integer of this width takes: 1, 2, 4, 8, 16 or 32.
    pub fn byte_width(&self) -> usize
        ensures width { result ≡ decimal_width_of self.now }
        ensures some { 1 ≤ result }
        ensures few { result ≤ 32 }
    {
        match *self {
            DecimalType::I8 => 1,
            DecimalType::I16 => 2,
            DecimalType::I32 => 4,
            DecimalType::I64 => 8,
            DecimalType::I128 => 16,
            DecimalType::I256 => 32,
        }
    }

    /// Whether a decimal of this width is held as an integer: true of each width,
    /// 256 bits included.
    pub fn is_int(&self) -> bool
        ensures { IsTrue result }
    {
        match *self {
            DecimalType::I8
            | DecimalType::I16
            | DecimalType::I32
            | DecimalType::I64
            | DecimalType::I128
            | DecimalType::I256 => true,
        }
    }

    /// The code of this width in messages, 0 to 5 (this project's numbering).
    pub fn code(&self) -> u8
        ensures code { result ≡ decimal_code_of self.now }
        ensures range { result ≤ 5 }
    {
        match *self {
            DecimalType::I8 => 0,
            DecimalType::I16 => 1,
            DecimalType::I32 => 2,
            DecimalType::I64 => 3,
            DecimalType::I128 => 4,
            DecimalType::I256 => 5,
        }
    }

    /// The width with this code; `None` above 5.
    pub fn from_code(code: u8) -> Option<DecimalType>
        ensures coded { IfSome result (λ width. decimal_code_of width ≡ code) }
        ensures each { (width : DecimalType) → decimal_code_of width ≡ code → result ≡ Some width }
    {
        match code {
            0 => Some(DecimalType::I8),
            1 => Some(DecimalType::I16),
            2 => Some(DecimalType::I32),
            3 => Some(DecimalType::I64),
            4 => Some(DecimalType::I128),
            5 => Some(DecimalType::I256),
            _ => None,
        }
    }
}
