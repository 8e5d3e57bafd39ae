//! Numbers as words of the command line.

ghost use Rattle.std.specs.Prelude.{◌≡◌, ◌≢◌, ◌<◌, ◌^◌, ◌↔◌, ℕ, decimal, length, slice_index, IsTrue, IfSome, IfNone};
ghost use Rattle.std.specs.Char.{is_ascii_digit};
ghost use Rattle.std.specs.List.{list_all};

/// The number of a word: decimal digits without a sign and without leading zeros, below 2^64; `None` for other words.
pub fn decimal_number(word: &str) -> Option<u64>
    ensures spelled { IfSome result (λ n. word.now ≡ decimal n) }
    ensures none { IfNone result ((n : ℕ) → n < 2 ^ 64 → word.now ≢ decimal n) }
{
    let digits = word.as_bytes();
    if !are_digits(digits) {
        return None;
    }
    if has_leading_zero(digits) {
        return None;
    }
    word.parse::<u64>().ok()
}

fn are_digits(bytes: &[u8]) -> bool
    ensures { result ≡ list_all is_ascii_digit bytes.now }
{
    bytes.iter().all(|b| b.is_ascii_digit())
}

fn has_leading_zero(bytes: &[u8]) -> bool
    ensures { IsTrue result ↔ ((slice_index bytes.now 0 ≡ 48) × (1 < length bytes.now)) }
{
    bytes.len() > 1 && bytes[0] == b'0'
}
