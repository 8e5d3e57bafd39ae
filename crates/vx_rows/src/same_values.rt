//! Equality of rows' values, with a clause that states it on plain trees.

ghost use Rattle.std.specs.Prelude.{◌≡◌, ◌↔◌, IsTrue};
ghost use Rattle.vx_rows.specs.Plain.{plain_value, plain_values};

use crate::row::RowValue;
use crate::same_scalars::is_same_scalar;

// Whether two values are the same tree.
#[cycle(same)]
#[tactic(auto, using(crate::proofs::SameRows::same_rows))]
pub(crate) fn is_same(a: &RowValue, b: &RowValue) -> bool
    ensures { IsTrue result ↔ (plain_value a.now ≡ plain_value b.now) }
{
    match (a, b) {
        (RowValue::Null, RowValue::Null) => true,
        (RowValue::Opaque, RowValue::Opaque) => true,
        (RowValue::Bool(x), RowValue::Bool(y)) => *x == *y,
        (RowValue::Primitive(x), RowValue::Primitive(y)) => *x == *y,
        (RowValue::Decimal(x), RowValue::Decimal(y)) => *x == *y,
        (RowValue::Utf8(x), RowValue::Utf8(y)) => *x == *y,
        (RowValue::Binary(x), RowValue::Binary(y)) => *x == *y,
        (RowValue::Tuple(x), RowValue::Tuple(y)) => are_same(x.as_slice(), y.as_slice()),
        (RowValue::Union(m, x), RowValue::Union(n, y)) => *m == *n && is_same(x.get(), y.get()),
        (RowValue::Variant(x), RowValue::Variant(y)) => is_same_scalar(x, y),
        _ => false,
    }
}

// Whether two lists have the same values in the same order.
#[cycle(same)]
#[tactic(auto, using(crate::proofs::SameRows::same_rows))]
fn are_same(a: &[RowValue], b: &[RowValue]) -> bool
    ensures { IsTrue result ↔ (plain_values a.now ≡ plain_values b.now) }
{
    if a.len() != b.len() {
        return false;
    }
    for i in 0..a.len() {
        if !is_same(&a[i], &b[i]) {
            return false;
        }
    }
    true
}
