//! Depths of types.
//!
//! They are capped at the largest `u64`, so that counting them cannot overflow; limits are far below.

ghost use Rattle.std.specs.Prelude.{◌≡◌, max};

// The larger of two counts of levels.
pub(crate) fn deeper(a: u64, b: u64) -> u64
    ensures { result ≡ max a b }
{
    if a < b { b } else { a }
}
