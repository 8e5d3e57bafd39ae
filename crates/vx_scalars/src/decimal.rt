//! The integers of decimals.

/// The unscaled integer of a decimal, in one of six widths. `I256` is its 32 bytes
/// in two's complement, the lowest first.
#[derive(Clone, Copy, Debug, PartialEq, Eq)]
pub enum DecimalValue {
    I8(i8),
    I16(i16),
    I32(i32),
    I64(i64),
    I128(i128),
    I256([u8; 32]),
}
