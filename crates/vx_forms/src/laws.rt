//! The laws of the forms whose readers and writers stand here. A caller of these functions learns
//! the laws; the laws of the combinators are in `proofs`.

ghost use Rattle.std.specs.Prelude.{◌≡◌, ℕ, List};
ghost use Rattle.vx_forms.specs.Form.{IsLawful, IsCanonical};
ghost use Rattle.vx_forms.specs.Frame.{IsFile};
ghost use Rattle.vx_forms.specs.Numbers.{uint8, uint32, uint64, count};
ghost use Rattle.vx_forms.specs.Octets.{octets, text};
ghost use Rattle.vx_forms.specs.Prefixed.{constant};

/// What is written is read back, nothing else is read, and what is wrong stays wrong.
pub fn forms_are_lawful()
    ensures uint8 { IsLawful uint8 }
    ensures uint32 { IsLawful uint32 }
    ensures uint64 { IsLawful uint64 }
    ensures count { (low high : ℕ) → IsLawful (count low high) }
    ensures octets { (low high : ℕ) → IsLawful (octets low high) }
    ensures text { (low high : ℕ) → IsLawful (text low high) }
    ensures constant { (word : List ℕ) → IsLawful (constant word) }
{}

/// No value has two encodings.
pub fn forms_are_canonical()
    ensures uint8 { IsCanonical uint8 }
    ensures uint32 { IsCanonical uint32 }
    ensures uint64 { IsCanonical uint64 }
    ensures count { (low high : ℕ) → IsCanonical (count low high) }
    ensures octets { (low high : ℕ) → IsCanonical (octets low high) }
    ensures text { (low high : ℕ) → IsCanonical (text low high) }
    ensures constant { (word : List ℕ) → IsCanonical (constant word) }
{}
