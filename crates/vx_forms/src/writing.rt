//! Values at the end of bytes.
//!
//! After an error the bytes are as they were before the call.

ghost use Rattle.std.specs.Prelude.{◌≡◌, ◌<◌, ◌^◌, ◌++◌, length, OnOk, OnErr};
ghost use Rattle.vx_forms.specs.Numbers.{uint8, uint32, uint64};
ghost use Rattle.vx_forms.specs.Octets.{octets_written};

use std::alloc::AllocError;

/// Appends a number in one byte.
pub fn push_u8(out: &mut Vec<u8>, n: u8) -> Result<(), AllocError>
    ensures written { OnOk result (out.new.items ≡ out.old.items ++ uint8.write n) }
    ensures unchanged { OnErr result (out.new.items ≡ out.old.items) }
{
    out.extend_from_slice(&[n])
}

/// Appends a number in four bytes, lowest byte first.
pub fn push_u32(out: &mut Vec<u8>, n: u32) -> Result<(), AllocError>
    ensures written { OnOk result (out.new.items ≡ out.old.items ++ uint32.write n) }
    ensures unchanged { OnErr result (out.new.items ≡ out.old.items) }
{
    out.extend_from_slice(&n.to_le_bytes())
}

/// Appends a number in eight bytes, lowest byte first.
pub fn push_u64(out: &mut Vec<u8>, n: u64) -> Result<(), AllocError>
    ensures written { OnOk result (out.new.items ≡ out.old.items ++ uint64.write n) }
    ensures unchanged { OnErr result (out.new.items ≡ out.old.items) }
{
    out.extend_from_slice(&n.to_le_bytes())
}

/// Appends bytes after their length.
pub fn push_octets(out: &mut Vec<u8>, part: &[u8]) -> Result<(), AllocError>
    requires { length part.now < 2 ^ 32 }
    ensures written { OnOk result (out.new.items ≡ out.old.items ++ octets_written part.now) }
    ensures unchanged { OnErr result (out.new.items ≡ out.old.items) }
{
    let start = out.len();
    push_u32(out, part.len() as u32)?;
    match out.extend_from_slice(part) {
        Ok(()) => Ok(()),
        Err(e) => {
            out.truncate(start);
            Err(e)
        }
    }
}

/// Appends a text after its length in bytes.
pub fn push_text(out: &mut Vec<u8>, text: &str) -> Result<(), AllocError>
    requires { length text.now < 2 ^ 32 }
    ensures written { OnOk result (out.new.items ≡ out.old.items ++ octets_written text.now) }
    ensures unchanged { OnErr result (out.new.items ≡ out.old.items) }
{
    push_octets(out, text.as_bytes())
}
