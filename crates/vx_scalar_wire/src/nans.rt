//! Sums that are NaN.

ghost use Rattle.std.specs.Prelude.{◌≡◌};
ghost use Rattle.vx_scalars.specs.Nans.{nan_canonical};

use vx_types::PValue;

/// The canonical form of a sum, which is what is written: each NaN becomes the one with the
/// bits 7e00, 7fc00000 or 7ff8000000000000 of its width, and any other number stays.
pub fn canonical_nan_sum(sum: PValue) -> PValue
    ensures { result ≡ nan_canonical sum }
{
    match sum {
        PValue::F16(bits) if bits % (1 << 15) > 0x7c00 => PValue::F16(0x7e00),
        PValue::F32(bits) if bits % (1 << 31) > 0x7f80_0000 => PValue::F32(0x7fc0_0000),
        PValue::F64(bits) if bits % (1 << 63) > 0x7ff0_0000_0000_0000 => {
            PValue::F64(0x7ff8_0000_0000_0000)
        }
        _ => sum,
    }
}
