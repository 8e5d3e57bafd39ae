//! The types of decimals.

ghost use Rattle.std.specs.Prelude.{◌≡◌, ◌<◌, ◌⊎◌, IfOk, IfErr};
ghost use Rattle.vx_types.specs.Content.{IsDecimal};

use crate::error::TypeError;
use std::marker::Model;

/// The precision of a decimal, its number of digits, 1 to 76, and its scale, the
/// number of digits after the point. A negative scale is that many zeros before
/// the point.
#[derive(Clone, Copy, Debug, PartialEq, Eq)]
pub struct DecimalDType {
    pub(crate) precision: u8,
    pub(crate) scale: i8,
}

impl Model for DecimalDType {
    ghost use Rattle.std.specs.Prelude.{◌≤◌};
    ghost use Rattle.vx_types.specs.Digits.{Digits};

    ghost Value = { Digits };

    ghost view = { λ a. record { precision = a.precision; scale = a.scale } };

    ghost invariant = { λ a. (1 ≤ a.precision) × (a.precision ≤ 76) };

    ghost inverse = { λ d. record { precision = d.precision; scale = d.scale } };
}

impl DecimalDType {
    /// The type of decimals of this precision and scale. `BadDecimal` exactly where
    /// the precision is 0 or over 76.
    pub fn try_new(precision: u8, scale: i8) -> Result<DecimalDType, TypeError>
        ensures ok { IfOk result (λ d. d ≡ record { precision = precision; scale = scale }) }
        ensures fit { IfOk result (λ _. IsDecimal precision scale) }
        ensures err { IfErr result (λ e. (e ≡ TypeError.BadDecimal) × ((precision ≡ 0) ⊎ (76 < precision))) }
    {
        if precision == 0 {
            return Err(TypeError::BadDecimal);
        }
        if precision > 76 {
            return Err(TypeError::BadDecimal);
        }
        Ok(DecimalDType { precision, scale })
    }

    /// The number of digits, 1 to 76.
    pub fn precision(&self) -> u8
        ensures same { result ≡ self.now.precision }
        ensures decimal { IsDecimal self.now.precision self.now.scale }
    {
        // Reads the other field too, so that the proof has the whole invariant.
        let _scale = self.scale;
        self.precision
    }

    /// The number of digits after the point; negative for zeros before it.
    pub fn scale(&self) -> i8
        ensures { result ≡ self.now.scale }
    {
        self.scale
    }
}
