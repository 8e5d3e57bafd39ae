//! Numbers out of the bytes of a buffer.

ghost use Rattle.std.specs.Prelude.{◌≡◌, ◌≤◌, ◌↔◌, ◌*◌, ◌^◌, IsTrue, length};
ghost use Rattle.vx_numbers.specs.Decimals.{decimal_width_of};
ghost use Rattle.vx_numbers.specs.Numbers.{width_of};
ghost use Rattle.vx_types.specs.Value.{natural_int, natural_number};
ghost use Rattle.vx_array_tree.specs.Bytes.{number_at, decimal_value};
ghost use Rattle.vx_scalars.specs.Decimals.{decimal_of};

use bytes::Buf;
use vx_buffer::BufferHandle;
use vx_scalars::DecimalValue;
use vx_types::{DecimalType, PType, PValue};

/// Whether a buffer has exactly the bytes of `count` elements of a width, and at least this alignment.
pub fn is_filled(buffer: &BufferHandle, len: usize, width: usize, alignment: usize) -> bool
    ensures { IsTrue result ↔ ((length buffer.now.bytes ≡ width * len) × (alignment ≤ 2 ^ buffer.now.exponent)) }
{
    let held = buffer.len();
    match len.checked_mul(width) {
        Some(bytes) => bytes == held && alignment <= buffer.alignment().as_usize(),
        None => false,
    }
}

/// The number of this kind at the start of the bytes, little-endian.
pub fn number_at(kind: PType, bytes: &[u8]) -> PValue
    requires { width_of kind ≤ length bytes.now }
    ensures { result ≡ number_at kind bytes.now }
{
    let mut rest = bytes;
    match kind {
        PType::U8 => PValue::U8(rest.get_u8()),
        PType::U16 => PValue::U16(rest.get_u16_le()),
        PType::U32 => PValue::U32(rest.get_u32_le()),
        PType::U64 => PValue::U64(rest.get_u64_le()),
        PType::I8 => PValue::I8(rest.get_i8()),
        PType::I16 => PValue::I16(rest.get_i16_le()),
        PType::I32 => PValue::I32(rest.get_i32_le()),
        PType::I64 => PValue::I64(rest.get_i64_le()),
        PType::F16 => PValue::F16(rest.get_u16_le()),
        PType::F32 => PValue::F32(rest.get_u32_le()),
        PType::F64 => PValue::F64(rest.get_u64_le()),
    }
}

/// A number as a natural number; None where it is negative or a float.
pub fn natural(number: PValue) -> Option<u64>
    ensures { result ≡ natural_number number }
{
    match number {
        PValue::U8(n) => Some(n as u64),
        PValue::U16(n) => Some(n as u64),
        PValue::U32(n) => Some(n as u64),
        PValue::U64(n) => Some(n),
        PValue::I8(n) => natural_int(n as i64),
        PValue::I16(n) => natural_int(n as i64),
        PValue::I32(n) => natural_int(n as i64),
        PValue::I64(n) => natural_int(n),
        PValue::F16(_) | PValue::F32(_) | PValue::F64(_) => None,
    }
}

fn natural_int(n: i64) -> Option<u64>
    ensures { result ≡ natural_int n }
{
    if n < 0 { None } else { Some(n as u64) }
}

/// The decimal of this width at the start of the bytes, little-endian.
pub fn decimal_at(width: DecimalType, bytes: &[u8]) -> DecimalValue
    requires { decimal_width_of width ≤ length bytes.now }
    ensures { decimal_of result ≡ decimal_value width bytes.now }
{
    let mut rest = bytes;
    match width {
        DecimalType::I8 => DecimalValue::I8(rest.get_i8()),
        DecimalType::I16 => DecimalValue::I16(rest.get_i16_le()),
        DecimalType::I32 => DecimalValue::I32(rest.get_i32_le()),
        DecimalType::I64 => DecimalValue::I64(rest.get_i64_le()),
        DecimalType::I128 => DecimalValue::I128(rest.get_i128_le()),
        DecimalType::I256 => DecimalValue::I256(*rest.first_chunk::<32>().unwrap()),
    }
}
