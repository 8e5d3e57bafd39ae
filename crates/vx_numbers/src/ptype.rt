//! The kinds of numbers.

ghost use Rattle.std.specs.Prelude.{◌≡◌, ◌≤◌, IfSome, Some};
ghost use Rattle.vx_numbers.specs.declared.ptype.PType.{PType};
ghost use Rattle.vx_numbers.specs.Numbers.{width_of, is_integer, code_of};

/// A kind of number: an integer with or without sign, or a float, and its bits.
#[derive(Clone, Copy, Debug, PartialEq, Eq)]
pub enum PType {
    U8,
    U16,
    U32,
    U64,
    I8,
    I16,
    I32,
    I64,
    F16,
    F32,
    F64,
}

impl PType {
    /// How many bytes a number of this kind takes: 1, 2, 4 or 8.
    pub fn byte_width(&self) -> usize
        ensures width { result ≡ width_of self.now }
        ensures some { 1 ≤ result }
        ensures few { result ≤ 8 }
    {
        match *self {
            PType::U8 | PType::I8 => 1,
            PType::U16 | PType::I16 | PType::F16 => 2,
            PType::U32 | PType::I32 | PType::F32 => 4,
            PType::U64 | PType::I64 | PType::F64 => 8,
        }
    }

    /// Whether the kind is an integer, with or without sign.
    pub fn is_int(&self) -> bool
        ensures { result ≡ is_integer self.now }
    {
        match *self {
            PType::F16 | PType::F32 | PType::F64 => false,
            PType::U8
            | PType::U16
            | PType::U32
            | PType::U64
            | PType::I8
            | PType::I16
            | PType::I32
            | PType::I64 => true,
        }
    }

    /// The code of this kind in messages, 0 to 10 (this project's numbering).
    pub fn code(&self) -> u8
        ensures code { result ≡ code_of self.now }
        ensures range { result ≤ 10 }
    {
        match *self {
            PType::U8 => 0,
            PType::U16 => 1,
            PType::U32 => 2,
            PType::U64 => 3,
            PType::I8 => 4,
            PType::I16 => 5,
            PType::I32 => 6,
            PType::I64 => 7,
            PType::F16 => 8,
            PType::F32 => 9,
            PType::F64 => 10,
        }
    }

    /// The kind with this code; `None` above 10.
    pub fn from_code(code: u8) -> Option<PType>
        ensures coded { IfSome result (λ kind. code_of kind ≡ code) }
        ensures each { (kind : PType) → code_of kind ≡ code → result ≡ Some kind }
    {
        match code {
            0 => Some(PType::U8),
            1 => Some(PType::U16),
            2 => Some(PType::U32),
            3 => Some(PType::U64),
            4 => Some(PType::I8),
            5 => Some(PType::I16),
            6 => Some(PType::I32),
            7 => Some(PType::I64),
            8 => Some(PType::F16),
            9 => Some(PType::F32),
            10 => Some(PType::F64),
            _ => None,
        }
    }
}
