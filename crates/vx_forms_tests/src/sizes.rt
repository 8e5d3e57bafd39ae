//! A reader of a format that is made of forms, by a loop over the values of a list.

ghost use Rattle.std.specs.Prelude.{◌≡◌, IfOk, IfErr};
ghost use Rattle.vx_forms.specs.Form.{whole};
ghost use Rattle.vx_forms.specs.Refused.{refusal};
ghost use Rattle.vx_forms_tests.specs.Sizes.{numbers, sizes};

use std::alloc::{AllocError, Global};
use vx_forms::{ReadError, take_constant, take_count, take_u64};

/// Sizes after a word and their count, and the bytes after them.
pub type SizesRead<'a> = Result<(Vec<u64>, &'a [u8]), ReadError>;

/// Sizes at the front of bytes.
pub fn take_sizes(alloc: Global, bytes: &[u8]) -> Result<SizesRead<'_>, AllocError>
    ensures whole { IfOk result (λ r. IfOk r (λ p. sizes.read bytes.now ≡ whole p.0.items p.1.now)) }
    ensures refused { IfOk result (λ r. IfErr r (λ e. sizes.read bytes.now ≡ refusal e)) }
{
    match take_constant(bytes, b"SIZE") {
        Ok(rest) => take_numbers(alloc, rest),
        Err(e) => Ok(Err(e)),
    }
}

fn take_numbers(alloc: Global, bytes: &[u8]) -> Result<SizesRead<'_>, AllocError>
    ensures whole { IfOk result (λ r. IfOk r (λ p. numbers.read bytes.now ≡ whole p.0.items p.1.now)) }
    ensures refused { IfOk result (λ r. IfErr r (λ e. numbers.read bytes.now ≡ refusal e)) }
{
    let (count, after) = match take_count(bytes, 0, 1000) {
        Ok(found) => found,
        Err(e) => return Ok(Err(e)),
    };
    let mut values = Vec::new(alloc);
    let mut rest = after;
    for _ in 0..count {
        match take_u64(rest) {
            Ok((value, after)) => {
                values.push(value)?;
                rest = after;
            }
            Err(e) => return Ok(Err(e)),
        }
    }
    Ok(Ok((values, rest)))
}
