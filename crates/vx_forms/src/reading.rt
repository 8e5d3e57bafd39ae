//! Values at the front of bytes, each with the bytes after it.

ghost use Rattle.std.specs.Prelude.{◌≡◌, IfOk, IfErr};
ghost use Rattle.vx_forms.specs.Form.{whole};
ghost use Rattle.vx_forms.specs.Numbers.{front_bytes, uint8, uint32, uint64, count};
ghost use Rattle.vx_forms.specs.Octets.{octets, text};
ghost use Rattle.vx_forms.specs.Prefixed.{constant};
ghost use Rattle.vx_forms.specs.Refused.{refusal};

use crate::error::ReadError;
use simdutf8::basic::from_utf8;

/// The first `n` bytes.
pub fn take_front(bytes: &[u8], n: usize) -> Result<(&[u8], &[u8]), ReadError>
    ensures whole { IfOk result (λ p. front_bytes n bytes.now ≡ whole p.0.now p.1.now) }
    ensures refused { IfErr result (λ e. front_bytes n bytes.now ≡ refusal e) }
{
    if bytes.len() < n {
        return Err(ReadError::Short);
    }
    Ok(bytes.split_at(n))
}

/// A number in one byte.
pub fn take_u8(bytes: &[u8]) -> Result<(u8, &[u8]), ReadError>
    ensures whole { IfOk result (λ p. uint8.read bytes.now ≡ whole p.0 p.1.now) }
    ensures refused { IfErr result (λ e. uint8.read bytes.now ≡ refusal e) }
{
    match bytes {
        [] => Err(ReadError::Short),
        [byte, rest @ ..] => Ok((*byte, rest)),
    }
}

/// A number in four bytes, lowest byte first.
pub fn take_u32(bytes: &[u8]) -> Result<(u32, &[u8]), ReadError>
    ensures whole { IfOk result (λ p. uint32.read bytes.now ≡ whole p.0 p.1.now) }
    ensures refused { IfErr result (λ e. uint32.read bytes.now ≡ refusal e) }
{
    let (word, rest) = take_front(bytes, 4)?;
    Ok((
        u32::from_le_bytes([word[0], word[1], word[2], word[3]]),
        rest,
    ))
}

/// A number in eight bytes, lowest byte first.
pub fn take_u64(bytes: &[u8]) -> Result<(u64, &[u8]), ReadError>
    ensures whole { IfOk result (λ p. uint64.read bytes.now ≡ whole p.0 p.1.now) }
    ensures refused { IfErr result (λ e. uint64.read bytes.now ≡ refusal e) }
{
    let (word, rest) = take_front(bytes, 8)?;
    let number = u64::from_le_bytes([
        word[0], word[1], word[2], word[3], word[4], word[5], word[6], word[7],
    ]);
    Ok((number, rest))
}

/// A count in four bytes, which is wrong where it is not from `low` to `high`.
pub fn take_count(bytes: &[u8], low: u32, high: u32) -> Result<(u32, &[u8]), ReadError>
    ensures whole { IfOk result (λ p. (count low high).read bytes.now ≡ whole p.0 p.1.now) }
    ensures refused { IfErr result (λ e. (count low high).read bytes.now ≡ refusal e) }
{
    let (n, rest) = take_u32(bytes)?;
    if n < low || n > high {
        return Err(ReadError::Wrong);
    }
    Ok((n, rest))
}

/// Bytes after their length in four bytes, from `low` to `high` bytes.
pub fn take_octets(bytes: &[u8], low: u32, high: u32) -> Result<(&[u8], &[u8]), ReadError>
    ensures whole { IfOk result (λ p. (octets low high).read bytes.now ≡ whole p.0.now p.1.now) }
    ensures refused { IfErr result (λ e. (octets low high).read bytes.now ≡ refusal e) }
{
    let (len, rest) = take_count(bytes, low, high)?;
    take_front(rest, len as usize)
}

/// A text in UTF-8 after its length in four bytes, from `low` to `high` bytes.
pub fn take_text(bytes: &[u8], low: u32, high: u32) -> Result<(&str, &[u8]), ReadError>
    ensures whole { IfOk result (λ p. (text low high).read bytes.now ≡ whole p.0.now p.1.now) }
    ensures refused { IfErr result (λ e. (text low high).read bytes.now ≡ refusal e) }
{
    let (octets, rest) = take_octets(bytes, low, high)?;
    match from_utf8(octets) {
        Ok(text) => Ok((text, rest)),
        Err(_) => Err(ReadError::Wrong),
    }
}

/// The bytes after these constant ones.
pub fn take_constant<'a>(bytes: &'a [u8], word: &[u8]) -> Result<&'a [u8], ReadError>
    ensures whole { IfOk result (λ rest. (constant word.now).read bytes.now ≡ whole tt rest.now) }
    ensures refused { IfErr result (λ e. (constant word.now).read bytes.now ≡ refusal e) }
{
    let (front, rest) = take_front(bytes, word.len())?;
    if front != word {
        return Err(ReadError::Wrong);
    }
    Ok(rest)
}
