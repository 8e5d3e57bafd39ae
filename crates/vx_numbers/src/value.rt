//! Single numbers.

ghost use Rattle.std.specs.Prelude.{◌≡◌};
ghost use Rattle.vx_numbers.specs.Numbers.{kind_of};

use crate::ptype::PType;

/// A number of one of the eleven kinds. Floats are bit patterns: two zeros of
/// different sign differ, and a NaN equals itself if its bits are the same.
#[derive(Clone, Copy, Debug, PartialEq, Eq)]
pub enum PValue {
    U8(u8),
    U16(u16),
    U32(u32),
    U64(u64),
    I8(i8),
    I16(i16),
    I32(i32),
    I64(i64),
    /// The 16 bits of a half-precision float.
    F16(u16),
    /// The 32 bits of a single-precision float.
    F32(u32),
    /// The 64 bits of a double-precision float.
    F64(u64),
}

impl PValue {
    /// The kind of the number.
    pub fn ptype(&self) -> PType
        ensures { result ≡ kind_of self.now }
    {
        match self {
            PValue::U8(_) => PType::U8,
            PValue::U16(_) => PType::U16,
            PValue::U32(_) => PType::U32,
            PValue::U64(_) => PType::U64,
            PValue::I8(_) => PType::I8,
            PValue::I16(_) => PType::I16,
            PValue::I32(_) => PType::I32,
            PValue::I64(_) => PType::I64,
            PValue::F16(_) => PType::F16,
            PValue::F32(_) => PType::F32,
            PValue::F64(_) => PType::F64,
        }
    }
}
