//! Merges of typed scalars over fallbacks.

ghost use Rattle.std.specs.Prelude.{IsTrue};
ghost use Rattle.vx_types.specs.Fits.{IsVariant};

use crate::scalars::{
    Fields, MAYBE, Made, extended, fixed_list, flag, list, maybe, no_structure, no_text,
    no_variant, none, small, structure, variant, wide, with,
};
use crate::texts::is_text;
use std::alloc::Global;
use vx_arrays::{ArrayError, merge_typed_scalar_as_variant};
use vx_scalars::Scalar;
use vx_test_arrays::parts::both;
use vx_types::{DType, Nullability, TypeError};

// Whether a scalar may be a fallback.
fn is_variant(scalar: &Scalar) -> bool
    ensures { IsTrue result → IsVariant scalar.now.dtype }
{
    matches!(scalar.dtype(), DType::Variant(_))
}

// A typed scalar over a fallback that may stand, as a variant that may be null or not.
fn merged(
    alloc: Global,
    typed: &Scalar,
    fallback: Option<&Scalar>,
    nullability: Nullability,
) -> Result<Scalar, ArrayError> {
    let dtype = DType::Variant(nullability);
    match fallback {
        Some(scalar) => {
            if !is_variant(scalar) {
                return Err(ArrayError::BadShape);
            }
            merge_typed_scalar_as_variant(alloc, typed, fallback, &dtype)
        }
        None => merge_typed_scalar_as_variant(alloc, typed, None, &dtype),
    }
}

// What is merged, or that it is not: tests ask for the text of the one and the refusal of the other.
fn scalar_in(merged: Result<Scalar, ArrayError>) -> Made {
    match merged {
        Ok(scalar) => Ok(scalar),
        Err(_) => Err(TypeError::BadScalar),
    }
}

// A typed scalar over a fallback.
fn over(alloc: Global, typed: Made, fallback: Made) -> Made {
    match both(typed, fallback) {
        Ok(pair) => {
            let scalar = merged(alloc, &pair.0, Some(&pair.1), MAYBE);
            drop(pair);
            scalar_in(scalar)
        }
        Err(e) => Err(e),
    }
}

// A typed scalar without a fallback.
fn alone(alloc: Global, typed: Made) -> Made {
    match typed {
        Ok(typed) => {
            let scalar = merged(alloc, &typed, None, MAYBE);
            drop(typed);
            scalar_in(scalar)
        }
        Err(e) => Err(e),
    }
}

// Why a typed scalar is not merged to a variant that is not null, if it is not.
fn refused(alloc: Global, typed: &Scalar, fallback: Option<&Scalar>) -> Option<ArrayError> {
    merged(alloc, typed, fallback, Nullability::NonNullable).err()
}

// The same for one, if it was made, without a fallback.
fn refusal_alone(alloc: Global, typed: Made) -> Option<ArrayError> {
    match typed {
        Ok(typed) => {
            let error = refused(alloc, &typed, None);
            drop(typed);
            error
        }
        Err(_) => Some(ArrayError::OutOfMemory),
    }
}

// The same over a fallback.
fn refusal(alloc: Global, typed: Made, fallback: Made) -> Option<ArrayError> {
    match both(typed, fallback) {
        Ok(pair) => {
            let error = refused(alloc, &pair.0, Some(&pair.1));
            drop(pair);
            error
        }
        Err(_) => Some(ArrayError::OutOfMemory),
    }
}

// a = 1, b = null.
fn typed(alloc: Global) -> Fields {
    with(
        alloc,
        with(alloc, none(alloc), "a", small(1)),
        "b",
        no_text(),
    )
}

// b = a variant of true, c = 7.
fn raw(alloc: Global) -> Fields {
    with(
        alloc,
        with(alloc, none(alloc), "b", variant(alloc, flag(true))),
        "c",
        wide(7),
    )
}

#[test]
fn a_structure_is_merged_with_the_fallback(rt: HostRuntime) {
    let alloc = rt.alloc();
    let fallback = variant(alloc, structure(raw(alloc)));
    let scalar = over(alloc, structure(typed(alloc)), fallback);
    assert!(rt; is_text(alloc, scalar, "v({a: v(1), b: v(true), c: v(7w)})"));
    let again = maybe(alloc, structure(raw(alloc)));
    let scalar = over(alloc, structure(raw(alloc)), again);
    assert!(rt; is_text(alloc, scalar, "v({b: v(true), c: v(7w)})"));
}

// Fallbacks that hold no struct: the typed struct is itself.
#[test]
fn a_structure_over_none_is_itself(rt: HostRuntime) {
    let alloc = rt.alloc();
    let text = "v({a: 1, b: null})";
    assert!(rt; is_text(alloc, alone(alloc, structure(typed(alloc))), text));
    assert!(rt;
        is_text(
            alloc,
            over(alloc, structure(typed(alloc)), no_variant()),
            text
        )
    );
    let number = variant(alloc, small(3));
    assert!(rt; is_text(alloc, over(alloc, structure(typed(alloc)), number), text));
    let null = variant(alloc, no_structure(raw(alloc)));
    assert!(rt; is_text(alloc, over(alloc, structure(typed(alloc)), null), text));
    let twice = variant(alloc, variant(alloc, structure(raw(alloc))));
    assert!(rt; is_text(alloc, over(alloc, structure(typed(alloc)), twice), text));
}

#[test]
fn a_null_leaves_the_fallback(rt: HostRuntime) {
    let alloc = rt.alloc();
    assert!(rt; is_text(alloc, alone(alloc, no_text()), "null"));
    assert!(rt; is_text(alloc, over(alloc, no_text(), no_variant()), "null"));
    assert!(rt;
        is_text(
            alloc,
            over(alloc, no_text(), variant(alloc, small(3))),
            "v(3)"
        )
    );
    let null = no_structure(typed(alloc));
    let fallback = variant(alloc, structure(raw(alloc)));
    assert!(rt; is_text(alloc, over(alloc, null, fallback), "v({b: v(true), c: 7w})"));
}

#[test]
fn a_null_is_of_no_type_without_nulls(rt: HostRuntime) {
    let alloc = rt.alloc();
    let cast = Some(ArrayError::BadCast);
    assert!(rt; refusal_alone(alloc, no_text()) == cast);
    assert!(rt; refusal(alloc, no_text(), no_variant()) == cast);
    assert!(rt; refusal_alone(alloc, no_variant()) == cast);
    assert!(rt; refusal(alloc, no_text(), maybe(alloc, small(3))) == None);
    assert!(rt; refusal_alone(alloc, maybe(alloc, small(3))) == None);
    assert!(rt; refusal_alone(alloc, maybe(alloc, no_text())) == None);
}

// Other values are variants of themselves, and variants are what they are.
#[test]
fn a_value_is_wrapped_once(rt: HostRuntime) {
    let alloc = rt.alloc();
    let raw = variant(alloc, structure(raw(alloc)));
    assert!(rt; is_text(alloc, over(alloc, small(1), raw), "v(1)"));
    assert!(rt; is_text(alloc, alone(alloc, variant(alloc, small(1))), "v(1)"));
    assert!(rt; is_text(alloc, alone(alloc, maybe(alloc, wide(1))), "v(1w)"));
    let twice = variant(alloc, variant(alloc, small(1)));
    assert!(rt; is_text(alloc, alone(alloc, twice), "v(v(1))"));
    assert!(rt; is_text(alloc, alone(alloc, variant(alloc, no_text())), "v(null)"));
}

// Two elements.
fn two(alloc: Global, first: Made, second: Made) -> Fields {
    with(alloc, with(alloc, none(alloc), "", first), "", second)
}

#[test]
fn the_elements_of_lists_are_wrapped(rt: HostRuntime) {
    let alloc = rt.alloc();
    let numbers = list(alloc, two(alloc, small(1), small(2)));
    assert!(rt; is_text(alloc, alone(alloc, numbers), "v([v(1), v(2)])"));
    let fallback = variant(alloc, structure(raw(alloc)));
    let nulls = fixed_list(alloc, two(alloc, no_text(), no_text()), 2);
    assert!(rt; is_text(alloc, over(alloc, nulls, fallback), "v([v(null), v(null)])"));
    let variants = two(alloc, maybe(alloc, small(1)), no_variant());
    let variants = list(alloc, variants);
    assert!(rt; is_text(alloc, alone(alloc, variants), "v([v(1), v(null)])"));
    let lists = list(alloc, two(alloc, small(1), small(2)));
    let lists = list(alloc, with(alloc, none(alloc), "", lists));
    assert!(rt; is_text(alloc, alone(alloc, lists), "v([v([1, 2])])"));
}

// A struct that has another under the name s, beside a number.
fn within(alloc: Global, inner: Made, number: i32) -> Made {
    structure(with(
        alloc,
        with(alloc, none(alloc), "s", inner),
        "n",
        small(number),
    ))
}

#[test]
fn structures_in_structures_are_merged_in_turn(rt: HostRuntime) {
    let alloc = rt.alloc();
    let text = "v({s: v({a: v(1), b: v(true), c: v(7w)}), n: v(1)})";
    let fallback = variant(alloc, within(alloc, structure(raw(alloc)), 2));
    let inner = within(alloc, structure(typed(alloc)), 1);
    assert!(rt; is_text(alloc, over(alloc, inner, fallback), text));
    let held = variant(alloc, structure(raw(alloc)));
    let fallback = variant(alloc, within(alloc, held, 2));
    let inner = within(alloc, structure(typed(alloc)), 1);
    assert!(rt; is_text(alloc, over(alloc, inner, fallback), text));
}

// Where one of the two is no struct, or null, the typed one stands, and where that is null the raw one.
#[test]
fn structures_over_others_are_themselves(rt: HostRuntime) {
    let alloc = rt.alloc();
    let own = "v({s: v({a: 1, b: null}), n: v(1)})";
    let null = no_structure(raw(alloc));
    let fallback = variant(alloc, within(alloc, null, 2));
    let inner = within(alloc, structure(typed(alloc)), 1);
    assert!(rt; is_text(alloc, over(alloc, inner, fallback), own));
    let fallback = variant(alloc, within(alloc, small(5), 2));
    let inner = within(alloc, structure(typed(alloc)), 1);
    assert!(rt; is_text(alloc, over(alloc, inner, fallback), own));
    let fallback = variant(alloc, within(alloc, structure(raw(alloc)), 2));
    let inner = within(alloc, no_structure(typed(alloc)), 1);
    let text = "v({n: v(1), s: v({b: v(true), c: 7w})})";
    assert!(rt; is_text(alloc, over(alloc, inner, fallback), text));
    let fallback = variant(alloc, within(alloc, structure(raw(alloc)), 2));
    let inner = within(alloc, small(4), 1);
    assert!(rt; is_text(alloc, over(alloc, inner, fallback), "v({s: v(4), n: v(1)})"));
}

// The fallback's field is looked into by its type: an extension over Variant is no variant, so the typed struct
// stands alone, and a field that is left over is wrapped once more.
#[test]
fn an_extension_over_variant_is_no_variant(rt: HostRuntime) {
    let alloc = rt.alloc();
    let held = extended(alloc, variant(alloc, structure(raw(alloc))));
    let fallback = variant(alloc, within(alloc, held, 2));
    let inner = within(alloc, structure(typed(alloc)), 1);
    let text = "v({s: v({a: 1, b: null}), n: v(1)})";
    assert!(rt; is_text(alloc, over(alloc, inner, fallback), text));
    let held = extended(alloc, variant(alloc, small(5)));
    let fallback = variant(alloc, within(alloc, held, 2));
    let inner = within(alloc, no_structure(typed(alloc)), 1);
    assert!(rt;
        is_text(
            alloc,
            over(alloc, inner, fallback),
            "v({n: v(1), s: v(v(5))})"
        )
    );
}

// Three fields, of which two have one name.
fn repeated(alloc: Global, first: Made, second: Made, third: Made) -> Made {
    let one = with(alloc, none(alloc), "a", first);
    structure(with(alloc, with(alloc, one, "a", second), "b", third))
}

// A variant of a struct without fields.
fn empty(alloc: Global) -> Made {
    variant(alloc, structure(none(alloc)))
}

// A name that stands twice is written twice, each time with the first field's value; where that is null it is left to
// the raw struct.
#[test]
fn a_name_reads_its_first_field(rt: HostRuntime) {
    let alloc = rt.alloc();
    let typed = repeated(alloc, small(1), small(2), small(3));
    let text = "v({a: v(1), a: v(1), b: v(3)})";
    assert!(rt; is_text(alloc, over(alloc, typed, empty(alloc)), text));
    let raw = variant(alloc, repeated(alloc, small(1), small(2), small(3)));
    assert!(rt; is_text(alloc, over(alloc, structure(none(alloc)), raw), text));
    let typed = repeated(alloc, no_text(), small(2), small(3));
    let raw = variant(alloc, repeated(alloc, wide(5), wide(6), wide(7)));
    assert!(rt;
        is_text(
            alloc,
            over(alloc, typed, raw),
            "v({b: v(3), a: v(5w), a: v(5w)})"
        )
    );
    let typed = repeated(alloc, no_text(), small(2), small(3));
    assert!(rt; is_text(alloc, over(alloc, typed, empty(alloc)), "v({b: v(3)})"));
}
