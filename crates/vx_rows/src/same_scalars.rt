//! Equality of scalars, with a clause that states it on plain values.

ghost use Rattle.std.specs.Prelude.{◌≡◌, ◌↔◌, IsTrue, option_copied};
ghost use Rattle.vx_scalars.specs.Seen.{all_seen, seen, value_of};

use vx_scalars::{Scalar, ScalarValue};

// Whether two scalars are the same value of the same type.
#[cycle(same_scalars)]
#[tactic(auto, using(vx_scalars::proofs::LawsOfLists::decreasing, crate::proofs::Scalared::same_values))]
pub(crate) fn is_same_scalar(a: &Scalar, b: &Scalar) -> bool
    ensures { IsTrue result ↔ (a.now ≡ b.now) }
{
    *a.dtype() == *b.dtype() && is_same_value(a.value(), b.value())
}

// Whether two values, or nulls, are the same.
#[cycle(same_scalars)]
#[tactic(auto, using(vx_scalars::proofs::LawsOfLists::decreasing, crate::proofs::Scalared::same_values))]
fn is_same_value(a: Option<&ScalarValue>, b: Option<&ScalarValue>) -> bool
    ensures { IsTrue result ↔ (seen (option_copied a.entry) ≡ seen (option_copied b.entry)) }
{
    match (a, b) {
        (None, None) => true,
        (Some(x), Some(y)) => is_same_present(x, y),
        _ => false,
    }
}

// Whether two values that are not null are the same.
#[cycle(same_scalars)]
#[tactic(auto, using(vx_scalars::proofs::LawsOfLists::decreasing, crate::proofs::Scalared::same_values))]
fn is_same_present(a: &ScalarValue, b: &ScalarValue) -> bool
    ensures { IsTrue result ↔ (value_of a.now ≡ value_of b.now) }
{
    match (a, b) {
        (ScalarValue::Bool(x), ScalarValue::Bool(y)) => *x == *y,
        (ScalarValue::Primitive(x), ScalarValue::Primitive(y)) => *x == *y,
        (ScalarValue::Decimal(x), ScalarValue::Decimal(y)) => *x == *y,
        (ScalarValue::Utf8(x), ScalarValue::Utf8(y)) => *x == *y,
        (ScalarValue::Binary(x), ScalarValue::Binary(y)) => *x == *y,
        (ScalarValue::Tuple(x), ScalarValue::Tuple(y)) => {
            are_same_values(x.as_slice(), y.as_slice())
        }
        (ScalarValue::Union(m, x), ScalarValue::Union(n, y)) => {
            *m == *n && is_same_value(x.get(), y.get())
        }
        (ScalarValue::Variant(x), ScalarValue::Variant(y)) => is_same_scalar(x.get(), y.get()),
        _ => false,
    }
}

// Whether two lists have the same values in the same order.
#[cycle(same_scalars)]
#[tactic(auto, using(vx_scalars::proofs::LawsOfLists::decreasing, crate::proofs::Scalared::same_values))]
fn are_same_values(a: &[Option<ScalarValue>], b: &[Option<ScalarValue>]) -> bool
    ensures { IsTrue result ↔ (all_seen a.now ≡ all_seen b.now) }
{
    if a.len() != b.len() {
        return false;
    }
    for i in 0..a.len() {
        if !is_same_value(a[i].as_ref(), b[i].as_ref()) {
            return false;
        }
    }
    true
}
