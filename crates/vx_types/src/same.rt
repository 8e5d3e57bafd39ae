//! Equality of types, stated as equality of their trees.

ghost use Rattle.std.specs.Prelude.{◌≡◌, ◌↔◌, IsTrue};
ghost use Rattle.vx_types.specs.Seen.{typ, typs};

use crate::dtype::DType;
use crate::names::are_same_names;
use crate::struct_fields::StructFields;
use crate::union_variants::UnionVariants;

// Whether two types have the same tree.
#[cycle(same)]
#[tactic(auto, using(crate::proofs::Lists::decreasing))]
pub(crate) fn is_same(a: &DType, b: &DType) -> bool
    ensures { IsTrue result ↔ (typ a.now ≡ typ b.now) }
{
    match (a, b) {
        (DType::Null, DType::Null) => true,
        (DType::Bool(m), DType::Bool(n)) => *m == *n,
        (DType::Primitive(p, m), DType::Primitive(q, n)) => *p == *q && *m == *n,
        (DType::Decimal(d, m), DType::Decimal(e, n)) => *d == *e && *m == *n,
        (DType::Utf8(m), DType::Utf8(n)) => *m == *n,
        (DType::Binary(m), DType::Binary(n)) => *m == *n,
        (DType::List(t, m), DType::List(u, n)) => *m == *n && is_same(t.get(), u.get()),
        (DType::FixedSizeList(t, k, m), DType::FixedSizeList(u, l, n)) => {
            *k == *l && *m == *n && is_same(t.get(), u.get())
        }
        (DType::Struct(f, m), DType::Struct(g, n)) => *m == *n && are_same_fields(f, g),
        (DType::Union(v, m), DType::Union(w, n)) => *m == *n && are_same_members(v, w),
        (DType::Map(s, m), DType::Map(t, n)) => {
            *m == *n
                && s.keys_sorted() == t.keys_sorted()
                && is_same(s.key_dtype(), t.key_dtype())
                && is_same(s.value_dtype(), t.value_dtype())
        }
        (DType::Variant(m), DType::Variant(n)) => *m == *n,
        (DType::Extension(x), DType::Extension(y)) => {
            *x.id() == *y.id()
                && *x.metadata() == *y.metadata()
                && is_same(x.storage_dtype(), y.storage_dtype())
        }
        _ => false,
    }
}

// Whether two lists have the same types in the same order.
#[cycle(same)]
#[tactic(auto, using(crate::proofs::Lists::decreasing))]
fn are_same(a: &[DType], b: &[DType]) -> bool
    ensures { IsTrue result ↔ (typs a.now ≡ typs b.now) }
{
    if a.len() != b.len() {
        return false;
    }
    for i in 0..a.len() {
        if !is_same(&a[i], &b[i]) {
            return false;
        }
    }
    true
}

// Whether two structures have the same fields.
#[cycle(same)]
#[tactic(auto, using(crate::proofs::Lists::decreasing))]
fn are_same_fields(a: &StructFields, b: &StructFields) -> bool
    ensures { IsTrue result ↔ (a.now.names ≡ b.now.names) × (a.now.types ≡ b.now.types) }
{
    are_same_names(a.names(), b.names()) && are_same(a.fields().as_slice(), b.fields().as_slice())
}

// Whether two unions have the same members.
#[cycle(same)]
#[tactic(auto, using(crate::proofs::Lists::decreasing))]
fn are_same_members(a: &UnionVariants, b: &UnionVariants) -> bool
    ensures { IsTrue result ↔ (a.now.names ≡ b.now.names) × (a.now.types ≡ b.now.types) × (a.now.ids ≡ b.now.ids) }
{
    are_same_names(a.names(), b.names())
        && a.type_ids().as_slice() == b.type_ids().as_slice()
        && are_same(a.variants().as_slice(), b.variants().as_slice())
}
