//! Arrays of variants: which are made, their rows, and the cells that these take.

use std::alloc::Global;
use vx_arrays::{Array, ArrayError, RowValue};
use vx_test_arrays::parts::{
    Made, There, and, bytes, extensions, fixed, numbers, one, shredded, structs, texts, two,
    unknown_variants,
};
use vx_test_arrays::rows::{begins_with, has_rows, has_slots, takes};
use vx_types::PType;

// The numbers 1 and 2, of which the bits say which are valid.
fn counts(alloc: Global, there: There) -> Made {
    numbers(alloc, PType::I32, &[1, 0, 0, 0, 2, 0, 0, 0], there)
}

// Whether a value is opaque.
fn is_unknown(value: &RowValue) -> bool {
    matches!(value, RowValue::Opaque)
}

// Whether a row's value is opaque.
fn is_hidden(alloc: Global, array: &Array, index: usize) -> bool {
    if index >= array.len() {
        return false;
    }
    match array.value_at(alloc, index, 1_000) {
        Ok(value) => {
            let unknown = is_unknown(&value);
            drop(value);
            unknown
        }
        Err(_) => false,
    }
}

// Whether a row's value is opaque, and whether it is valid as `there` says.
fn is_opaque(alloc: Global, array: &Array, index: usize, there: Option<bool>) -> bool {
    if index >= array.len() {
        return false;
    }
    is_hidden(alloc, array, index) && array.is_valid(index) == there
}

// Whether the first row of an array has a text, and the second is opaque, and of unknown validity.
fn begins_known(alloc: Global, array: Made, text: &str) -> bool {
    match array {
        Ok(array) => {
            let known = begins_with(alloc, &array, &[text]) && is_opaque(alloc, &array, 1, None);
            drop(array);
            known
        }
        Err(_) => false,
    }
}

// Whether the two rows of an array are opaque, and there as `there` says.
fn both_opaque(alloc: Global, array: &Array, there: Option<bool>) -> bool {
    array.len() == 2 && is_opaque(alloc, array, 0, there) && is_opaque(alloc, array, 1, there)
}

// The same for an array, if it was made.
fn are_opaque(alloc: Global, array: Made, there: Option<bool>) -> bool {
    match array {
        Ok(array) => {
            let opaque = both_opaque(alloc, &array, there);
            drop(array);
            opaque
        }
        Err(_) => false,
    }
}

#[test]
fn a_typed_row_stands_over_the_core(rt: HostRuntime) {
    let alloc = rt.alloc();
    assert!(rt;
        are_opaque(
            alloc,
            shredded(alloc, unknown_variants(alloc, 2), None),
            None
        )
    );
    let first = shredded(
        alloc,
        unknown_variants(alloc, 2),
        Some(counts(alloc, There::Bits(0b01))),
    );
    assert!(rt; begins_known(alloc, first, "v(1)"));
    let all = shredded(
        alloc,
        unknown_variants(alloc, 2),
        Some(counts(alloc, There::Always)),
    );
    assert!(rt; has_rows(alloc, all, &["v(1)", "v(2)"]));
    let none = shredded(
        alloc,
        unknown_variants(alloc, 2),
        Some(counts(alloc, There::Bits(0))),
    );
    assert!(rt; are_opaque(alloc, none, None));
}

// Variants of the texts a and b.
fn letters(alloc: Global) -> Made {
    shredded(
        alloc,
        unknown_variants(alloc, 2),
        Some(texts(alloc, b"ab", There::Always)),
    )
}

#[test]
fn a_null_leaves_the_cores_row(rt: HostRuntime) {
    let alloc = rt.alloc();
    let first = shredded(
        alloc,
        letters(alloc),
        Some(counts(alloc, There::Bits(0b01))),
    );
    assert!(rt; has_rows(alloc, first, &["v(1)", "v(b)"]));
    let variants = shredded(alloc, letters(alloc), Some(letters(alloc)));
    assert!(rt; has_rows(alloc, variants, &["v(a)", "v(b)"]));
}

// Two structs of a number.
fn pairs(alloc: Global, column: Made) -> Made {
    let types = one(alloc, counts(alloc, There::Always));
    structs(alloc, &["a"], types, one(alloc, column), 2, There::Always)
}

// Two structs of opaque variants.
fn unknown_pairs(alloc: Global) -> Made {
    let types = one(alloc, unknown_variants(alloc, 2));
    structs(
        alloc,
        &["a"],
        types,
        one(alloc, unknown_variants(alloc, 2)),
        2,
        There::Always,
    )
}

// A struct may have more fields in an opaque core, and an opaque part hides what is merged. The rows are valid: the
// typed ones are.
#[test]
fn what_is_opaque_hides_the_row(rt: HostRuntime) {
    let alloc = rt.alloc();
    let there = Some(true);
    let over = shredded(
        alloc,
        unknown_variants(alloc, 2),
        Some(pairs(alloc, counts(alloc, There::Always))),
    );
    assert!(rt; are_opaque(alloc, over, there));
    let over = shredded(alloc, letters(alloc), Some(unknown_pairs(alloc)));
    assert!(rt; are_opaque(alloc, over, there));
    let over = shredded(
        alloc,
        letters(alloc),
        Some(pairs(alloc, counts(alloc, There::Always))),
    );
    assert!(rt; has_rows(alloc, over, &["v([1])", "v([2])"]));
}

// Two variants of a struct of a number.
fn held(alloc: Global) -> Made {
    let pairs = pairs(alloc, counts(alloc, There::Always));
    shredded(alloc, letters(alloc), Some(pairs))
}

// The same, at an extension over Variant.
fn extended(alloc: Global) -> Made {
    extensions(alloc, unknown_variants(alloc, 0), held(alloc))
}

// Two structs whose field `s` is this column, of the type of the first array.
fn named(alloc: Global, kind: Made, column: Made) -> Made {
    let types = one(alloc, kind);
    structs(alloc, &["s"], types, one(alloc, column), 2, There::Always)
}

// Structs of a struct of a number over variants of these structs.
fn over_structures(alloc: Global, structures: Made) -> Made {
    let core = shredded(alloc, letters(alloc), Some(structures));
    let kind = pairs(alloc, counts(alloc, There::Always));
    let column = pairs(alloc, counts(alloc, There::Always));
    shredded(alloc, core, Some(named(alloc, kind, column)))
}

// A field of the core's row is merged where its type is Variant. An extension over Variant is no variant, so the
// typed struct stands alone.
#[test]
fn a_field_of_the_core_is_merged_by_its_type(rt: HostRuntime) {
    let alloc = rt.alloc();
    let variants = named(alloc, held(alloc), held(alloc));
    let merged = over_structures(alloc, variants);
    assert!(rt; has_rows(alloc, merged, &["v([v([v(1)])])", "v([v([v(2)])])"]));
    let extensions = named(alloc, extended(alloc), extended(alloc));
    let alone = over_structures(alloc, extensions);
    assert!(rt; has_rows(alloc, alone, &["v([v([1])])", "v([v([2])])"]));
}

// A list of the numbers 1 and 2.
fn list(alloc: Global) -> Made {
    fixed(alloc, bytes(alloc, &[1, 2]), 2, 1, There::Always)
}

// A variant of a text of nine letters, and one of the letter a.
fn long_text(alloc: Global) -> Made {
    let text = fixed(
        alloc,
        texts(alloc, b"abcdefghi", There::Always),
        9,
        1,
        There::Always,
    );
    shredded(alloc, unknown_variants(alloc, 1), Some(text))
}

// A row counts the greatest of its own cells, the core's and the typed row's: wrapped elements count, and so does what
// is hidden.
#[test]
fn a_row_takes_the_greatest_of_three(rt: HostRuntime) {
    let alloc = rt.alloc();
    let wrapped = shredded(alloc, unknown_variants(alloc, 1), Some(list(alloc)));
    assert!(rt; takes(alloc, wrapped, 6));
    let number = numbers(alloc, PType::U8, &[7], There::Always);
    let hidden = shredded(alloc, long_text(alloc), Some(number));
    assert!(rt; takes(alloc, hidden, 29));
    let plain = shredded(
        alloc,
        unknown_variants(alloc, 1),
        Some(numbers(alloc, PType::U8, &[7], There::Always)),
    );
    assert!(rt; takes(alloc, plain, 2));
    assert!(rt;
        takes(
            alloc,
            shredded(alloc, unknown_variants(alloc, 1), Some(unknown_one(alloc))),
            3
        )
    );
}

// One struct of an opaque variant and a number.
fn unknown_one(alloc: Global) -> Made {
    let types = and(one(alloc, unknown_variants(alloc, 1)), bytes(alloc, &[]));
    structs(
        alloc,
        &["a", "b"],
        types,
        two(alloc, unknown_variants(alloc, 1), bytes(alloc, &[3])),
        1,
        There::Always,
    )
}

// Why variants are refused, if they are.
fn refusal(alloc: Global, core: Made, over: Option<Made>) -> Option<ArrayError> {
    shredded(alloc, core, over).err()
}

#[test]
fn variants_have_a_core_of_their_type(rt: HostRuntime) {
    let alloc = rt.alloc();
    let unfit = Some(ArrayError::BadShape);
    assert!(rt; refusal(alloc, counts(alloc, There::Always), None) == unfit);
    let three = bytes(alloc, &[1, 2, 3]);
    assert!(rt; refusal(alloc, unknown_variants(alloc, 2), Some(three)) == unfit);
    assert!(rt; refusal(alloc, unknown_variants(alloc, 2), Some(bytes(alloc, &[]))) == unfit);
    assert!(rt; refusal(alloc, unknown_variants(alloc, 0), Some(bytes(alloc, &[]))) == None);
}

#[test]
fn the_slots_of_variants_have_names(rt: HostRuntime) {
    let alloc = rt.alloc();
    let slots = ["core_storage", "shredded"];
    assert!(rt; has_slots(alloc, letters(alloc), &slots));
    assert!(rt;
        has_slots(
            alloc,
            shredded(alloc, unknown_variants(alloc, 2), None),
            &slots
        )
    );
}
