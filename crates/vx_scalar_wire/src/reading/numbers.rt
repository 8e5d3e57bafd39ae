//! Values read from the number of a member.

ghost use Rattle.std.specs.Prelude.{◌≡◌, ◌<◌, ℕ, IfOk, IfErr, Some};
ghost use Rattle.vx_types.specs.Fits.{IsOf, bare};
ghost use Rattle.vx_numbers.specs.Numbers.{kind_of};
ghost use Rattle.vx_types.specs.Well.{IsInRange};
ghost use Rattle.vx_numbers.specs.declared.ptype.PType.{PType};
ghost use Rattle.vx_numbers.specs.declared.value.PValue.{PValue};
ghost use Rattle.vx_types.specs.Value as V;
ghost use Rattle.vx_proto.specs.Signed.{zigzag};
ghost use Rattle.vx_proto.specs.Value.{number as a_number};
ghost use Rattle.vx_type_wire.specs.Known.{ExtMeaning};
ghost use Rattle.vx_types.specs.Seen.{typ};
ghost use Rattle.vx_scalars.specs.Seen.{value_of, seen};
ghost use Rattle.vx_proto.specs.Form.{HasForm};
ghost use Rattle.vx_scalar_wire.specs.Refusing.{IsNoInteger, integer_of};
ghost use Rattle.vx_scalar_wire.specs.ScalarMessage.{scalar_lists};
ghost use Rattle.vx_scalar_wire.specs.Answers.{GivesValue, lone_member};

use crate::error::ScalarWireError;
use vx_proto::unzigzag;
use vx_scalars::{ScalarValue, bare_dtype};
use vx_types::{DType, PType, PValue};

/// The value of a member's number at a type: null, a flag, an integer, or a float by
/// its bits.
pub fn number_value(
    number: u32,
    value: u64,
    dtype: &DType,
) -> Result<Option<ScalarValue>, ScalarWireError>
    requires { HasForm scalar_lists 15 (lone_member number (a_number value)) }
    ensures read { (s : ExtMeaning) (most : ℕ) → GivesValue seen result s most (typ dtype.now) (lone_member number (a_number value)) }
{
    match number {
        1 => Ok(None),
        2 => Ok(Some(flag_value(value, dtype)?)),
        3 => Ok(Some(ScalarValue::Primitive(signed(unzigzag(value), dtype)?))),
        4 => Ok(Some(ScalarValue::Primitive(unsigned(value, dtype)?))),
        5 => Ok(Some(ScalarValue::Primitive(single(value, dtype)?))),
        6 => Ok(Some(ScalarValue::Primitive(double(value, dtype)?))),
        10 => Ok(Some(ScalarValue::Primitive(half(value, dtype)?))),
        _ => Err(ScalarWireError::MissingKind),
    }
}

// A flag.
#[tactic(auto, using(crate::proofs::Leaves::flag_read))]
fn flag_value(value: u64, dtype: &DType) -> Result<ScalarValue, ScalarWireError>
    requires { value < 2 }
    ensures { (s : ExtMeaning) (most : ℕ) → GivesValue value_of result s most (typ dtype.now) (lone_member 2 (a_number value)) }
{
    match bare_dtype(dtype) {
        DType::Bool(_) => Ok(ScalarValue::Bool(value != 0)),
        _ => Err(ScalarWireError::KindMismatch),
    }
}

// The primitive type of a type.
#[tactic(auto, using(crate::proofs::Leaves::not_numbers))]
fn kind_at(dtype: &DType) -> Result<PType, ScalarWireError>
    ensures ok { IfOk result (λ p. IsOf p (bare (typ dtype.now))) }
    ensures err { IfErr result (λ e. (e ≡ ScalarWireError.KindMismatch) × ((p : PType) → IsOf p (bare (typ dtype.now)) → ⊥)) }
{
    match bare_dtype(dtype) {
        DType::Primitive(kind, _) => Ok(*kind),
        _ => Err(ScalarWireError::KindMismatch),
    }
}

// A number from a signed integer.
fn signed(value: i64, dtype: &DType) -> Result<PValue, ScalarWireError>
    ensures { (s : ExtMeaning) (most : ℕ) → GivesValue (λ n. V.lone (V.number n)) result s most (typ dtype.now) (lone_member 3 (a_number (zigzag value))) }
{
    match kind_at(dtype) {
        Ok(kind) => integer(i128::from(value), kind),
        Err(error) => Err(error),
    }
}

// A number from an unsigned integer, which may be the bits of an F16.
fn unsigned(value: u64, dtype: &DType) -> Result<PValue, ScalarWireError>
    ensures { (s : ExtMeaning) (most : ℕ) → GivesValue (λ n. V.lone (V.number n)) result s most (typ dtype.now) (lone_member 4 (a_number value)) }
{
    match kind_at(dtype) {
        Ok(kind) => match kind {
            PType::F16 => half_of(value),
            _ => integer(i128::from(value), kind),
        },
        Err(error) => Err(error),
    }
}

// A float of 16 bits.
fn half(value: u64, dtype: &DType) -> Result<PValue, ScalarWireError>
    ensures { (s : ExtMeaning) (most : ℕ) → GivesValue (λ n. V.lone (V.number n)) result s most (typ dtype.now) (lone_member 10 (a_number value)) }
{
    match kind_at(dtype) {
        Ok(kind) => match kind {
            PType::F16 => half_of(value),
            _ => Err(ScalarWireError::KindMismatch),
        },
        Err(error) => Err(error),
    }
}

// The F16 with these bits, `OutOfRange` where there are more than 16.
fn half_of(value: u64) -> Result<PValue, ScalarWireError>
    ensures same { IfOk result (λ n. n ≡ PValue.F16 value) }
    ensures fits { IfOk result (λ n. IsInRange n) }
    ensures none { IfErr result (λ e. (e ≡ ScalarWireError.OutOfRange) × (IsInRange (PValue.F16 value) → ⊥)) }
{
    if value > 0xffff {
        return Err(ScalarWireError::OutOfRange);
    }
    Ok(PValue::F16(value as u16))
}

// A float of 32 bits.
fn single(value: u64, dtype: &DType) -> Result<PValue, ScalarWireError>
    ensures { (s : ExtMeaning) (most : ℕ) → GivesValue (λ n. V.lone (V.number n)) result s most (typ dtype.now) (lone_member 5 (a_number value)) }
{
    match kind_at(dtype) {
        Ok(kind) => match kind {
            PType::F32 => single_of(value),
            _ => Err(ScalarWireError::KindMismatch),
        },
        Err(error) => Err(error),
    }
}

// The F32 with these bits, `OutOfRange` where there are more than 32.
fn single_of(value: u64) -> Result<PValue, ScalarWireError>
    ensures same { IfOk result (λ n. n ≡ PValue.F32 value) }
    ensures fits { IfOk result (λ n. IsInRange n) }
    ensures none { IfErr result (λ e. (e ≡ ScalarWireError.OutOfRange) × (IsInRange (PValue.F32 value) → ⊥)) }
{
    if value > 0xffff_ffff {
        return Err(ScalarWireError::OutOfRange);
    }
    Ok(PValue::F32(value as u32))
}

// A float of 64 bits.
fn double(value: u64, dtype: &DType) -> Result<PValue, ScalarWireError>
    ensures { (s : ExtMeaning) (most : ℕ) → GivesValue (λ n. V.lone (V.number n)) result s most (typ dtype.now) (lone_member 6 (a_number value)) }
{
    match kind_at(dtype) {
        Ok(kind) => match kind {
            PType::F64 => Ok(PValue::F64(value)),
            _ => Err(ScalarWireError::KindMismatch),
        },
        Err(error) => Err(error),
    }
}

// An integer as a number of a primitive type.
#[tactic(auto, using(crate::proofs::Leaves::integers))]
fn integer(value: i128, kind: PType) -> Result<PValue, ScalarWireError>
    ensures kind { IfOk result (λ n. kind_of n ≡ kind) }
    ensures same { IfOk result (λ n. integer_of n ≡ Some value) }
    ensures fits { IfOk result (λ n. IsInRange n) }
    ensures none { IfErr result (λ e. IsNoInteger e kind value) }
{
    match kind {
        PType::U8 if 0 <= value && value < 1 << 8 => Ok(PValue::U8(value as u8)),
        PType::U16 if 0 <= value && value < 1 << 16 => Ok(PValue::U16(value as u16)),
        PType::U32 if 0 <= value && value < 1 << 32 => Ok(PValue::U32(value as u32)),
        PType::U64 if 0 <= value && value < 1 << 64 => Ok(PValue::U64(value as u64)),
        PType::I8 if -(1 << 7) <= value && value < 1 << 7 => Ok(PValue::I8(value as i8)),
        PType::I16 if -(1 << 15) <= value && value < 1 << 15 => Ok(PValue::I16(value as i16)),
        PType::I32 if -(1 << 31) <= value && value < 1 << 31 => Ok(PValue::I32(value as i32)),
        PType::I64 if -(1 << 63) <= value && value < 1 << 63 => Ok(PValue::I64(value as i64)),
        PType::F16 | PType::F32 | PType::F64 => Err(ScalarWireError::KindMismatch),
        _ => Err(ScalarWireError::OutOfRange),
    }
}
