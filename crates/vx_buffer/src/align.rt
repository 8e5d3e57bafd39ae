//! Alignments of buffers.

ghost use Rattle.std.specs.Prelude.{◌≡◌, ◌≤◌, ◌↔◌, ◌^◌, IfSome, IfNone, IsTrue};
ghost use Rattle.std.specs.Int.{IsPowerOfTwo};

use std::marker::Model;

/// A power of two of at most 2^63 bytes, that the start of a buffer is a multiple of.
///
/// Contracts see its exponent, from 0 to 63: the blob format stores alignments as exponents.
#[derive(Clone, Copy, Debug, Drop, PartialEq, Eq)]
pub struct Alignment {
    exponent: u8,
}

impl Model for Alignment {
    ghost use Rattle.std.specs.Prelude.{ℕ, ◌≤◌};

    ghost Value = { ℕ };

    ghost view = { λ a. a.exponent };

    ghost invariant = { λ a. a.exponent ≤ 63 };

    ghost inverse = { λ n. record { exponent = n } };
}

impl Alignment {
    /// The alignment of this many bytes: `None` exactly where that is no power of two.
    pub fn new(bytes: usize) -> Option<Alignment>
        ensures power { IfSome result (λ a. bytes ≡ 2 ^ a) }
        ensures none { IfNone result (IsPowerOfTwo bytes → ⊥) }
    {
        for exponent in 0..64u8 {
            if bytes == 1usize << exponent {
                return Some(Alignment { exponent });
            }
        }
        None
    }

    /// The alignment of 2^`exponent` bytes: `None` exactly where `exponent` is over 63.
    pub fn from_exponent(exponent: u8) -> Option<Alignment>
        ensures value { IfSome result (λ a. a ≡ exponent) }
        ensures none { IfNone result (exponent ≤ 63 → ⊥) }
    {
        if exponent > 63 {
            return None;
        }
        Some(Alignment { exponent })
    }

    /// No alignment: one byte, exponent 0.
    pub fn none() -> Alignment
        ensures { result ≡ 0 }
    {
        Alignment { exponent: 0 }
    }

    /// The exponent of the power of two, from 0 to 63.
    pub fn exponent(self) -> u8
        ensures value { result ≡ self }
        ensures bound { result ≤ 63 }
    {
        self.exponent
    }

    /// The alignment in bytes.
    pub fn as_usize(self) -> usize
        ensures { result ≡ 2 ^ self }
    {
        1usize << self.exponent
    }

    /// Whether every place with this alignment has the alignment `other` too.
    pub fn is_aligned_to(self, other: Alignment) -> bool
        ensures { IsTrue result ↔ (other ≤ self) }
    {
        self.exponent >= other.exponent
    }
}
