//! Values read from the octets of a member.

ghost use Rattle.std.specs.Prelude.{◌≡◌, ◌≤◌, ◌⊎◌, ℕ, [], ◌∷◌, false, length, take, IfOk, IfErr};
ghost use Rattle.vx_proto.specs.Value.{octets as some_octets};
ghost use Rattle.vx_type_wire.specs.Known.{ExtMeaning};
ghost use Rattle.vx_types.specs.Content.{IsText};
ghost use Rattle.vx_types.specs.Seen.{typ};
ghost use Rattle.vx_types.specs.Value as V;
ghost use Rattle.vx_types.specs.Well.{IsDecimalInRange};
ghost use Rattle.vx_scalars.specs.Decimals.{decimal_of as decimal_view};
ghost use Rattle.vx_scalars.specs.Seen.{value_of, seen};
ghost use Rattle.vx_proto.specs.Form.{HasForm};
ghost use Rattle.vx_scalar_wire.specs.Answers.{GivesValue, lone_member};
ghost use Rattle.vx_scalar_wire.specs.Refusing.{is_one_of};
ghost use Rattle.vx_scalar_wire.specs.ScalarMessage.{decimal_bytes, scalar_lists};

use crate::error::ScalarWireError;
use std::alloc::Global;
use vx_scalars::{DecimalValue, ScalarValue, bare_dtype};
use vx_types::{Blob, DType, Name, or_memory};

/// The value of a string or of bytes at a type: a text where they are UTF-8, bytes, or
/// a decimal, whose width is their length.
pub fn octets_value(
    alloc: Global,
    number: u32,
    bytes: &[u8],
    dtype: &DType,
) -> Result<Option<ScalarValue>, ScalarWireError>
    requires { HasForm scalar_lists 15 (lone_member number (some_octets bytes.now)) }
    ensures read { (s : ExtMeaning) (most : ℕ) → GivesValue seen result s most (typ dtype.now) (lone_member number (some_octets bytes.now)) }
{
    match bare_dtype(dtype) {
        DType::Utf8(_) => match text_of(alloc, bytes) {
            Ok(text) => Ok(Some(text)),
            Err(error) => Err(error),
        },
        DType::Binary(_) => {
            let copy = or_memory(Blob::copy_from(alloc, bytes))?;
            Ok(Some(ScalarValue::Binary(copy)))
        }
        DType::Decimal(_, _) => match number {
            8 => Ok(Some(ScalarValue::Decimal(decimal_of(bytes)?))),
            _ => Err(ScalarWireError::KindMismatch),
        },
        _ => Err(ScalarWireError::KindMismatch),
    }
}

// Bytes as a text, where they are UTF-8.
fn text_of(alloc: Global, bytes: &[u8]) -> Result<ScalarValue, ScalarWireError>
    ensures same { IfOk result (λ x. value_of x ≡ V.lone (V.utf8 bytes.now)) }
    ensures is_text { IfOk result (λ _. IsText bytes.now) }
    ensures cause { IfErr result (λ e. (e ≡ ScalarWireError.OutOfMemory) ⊎ ((e ≡ ScalarWireError.BadScalar) × (IsText bytes.now → ⊥))) }
{
    match std::str::from_utf8(bytes) {
        Ok(text) => Ok(ScalarValue::Utf8(or_memory(Name::new(alloc, text))?)),
        Err(_) => Err(ScalarWireError::BadScalar),
    }
}

// Little-endian bytes as a decimal's integer.
fn decimal_of(bytes: &[u8]) -> Result<DecimalValue, ScalarWireError>
    ensures same { IfOk result (λ x. decimal_bytes (decimal_view x) ≡ bytes.now) }
    ensures fits { IfOk result (λ x. IsDecimalInRange (decimal_view x)) }
    ensures cause { IfErr result (λ e. (e ≡ ScalarWireError.OutOfRange) × (is_one_of (length bytes.now) (1 ∷ 2 ∷ 4 ∷ 8 ∷ 16 ∷ 32 ∷ []) ≡ false)) }
{
    let decimal = match bytes.len() {
        1 => DecimalValue::I8(bytes[0].cast_signed()),
        2 => DecimalValue::I16(i16::from_le_bytes(first(bytes))),
        4 => DecimalValue::I32(i32::from_le_bytes(first(bytes))),
        8 => DecimalValue::I64(i64::from_le_bytes(first(bytes))),
        16 => DecimalValue::I128(i128::from_le_bytes(first(bytes))),
        32 => DecimalValue::I256(first(bytes)),
        _ => return Err(ScalarWireError::OutOfRange),
    };
    Ok(decimal)
}

// The first `N` bytes.
fn first<const N: usize>(bytes: &[u8]) -> [u8; N]
    requires { N ≤ length bytes.now }
    ensures { result ≡ take N bytes.now }
{
    let mut front = [0; N];
    front.copy_from_slice(&bytes[..N]);
    front
}
