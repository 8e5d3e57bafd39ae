//! Tests of structs.

use std::alloc::Global;
use vx_arrays::ArrayError;
use vx_test_arrays::parts::{
    AllMade, Made, There, and, bytes, flags, none, nulls, one, structs, texts, two,
};
use vx_test_arrays::rows::{has_rows, has_slots, takes};

// Three numbers.
fn numbers(alloc: Global) -> Made {
    bytes(alloc, &[1, 2, 3])
}

// Three texts, of which the last is null.
fn letters(alloc: Global) -> Made {
    texts(alloc, b"abc", There::Bits(0b011))
}

// The numbers and the texts.
fn columns(alloc: Global) -> AllMade {
    two(alloc, numbers(alloc), letters(alloc))
}

// This many structs of a number and a text, by these columns.
fn pairs_of(alloc: Global, columns: AllMade, len: usize, there: There) -> Made {
    let types = two(alloc, numbers(alloc), letters(alloc));
    structs(alloc, &["a", "b"], types, columns, len, there)
}

// Three structs of a number and a text.
fn pairs(alloc: Global, there: There) -> Made {
    pairs_of(alloc, columns(alloc), 3, there)
}

// This many structs without fields.
fn empty(alloc: Global, len: usize, there: There) -> Made {
    structs(alloc, &[], none(alloc), none(alloc), len, there)
}

// Structs of one field.
fn boxed(alloc: Global, kind: Made, column: Made, len: usize) -> Made {
    structs(
        alloc,
        &["c"],
        one(alloc, kind),
        one(alloc, column),
        len,
        There::Always,
    )
}

#[test]
fn a_row_has_a_row_of_each_column(rt: HostRuntime) {
    let alloc = rt.alloc();
    let always = pairs(alloc, There::Always);
    assert!(rt; has_rows(alloc, always, &["[1, a]", "[2, b]", "[3, null]"]));
    let all = pairs(alloc, There::All);
    assert!(rt; has_rows(alloc, all, &["[1, a]", "[2, b]", "[3, null]"]));
    let some = pairs(alloc, There::Bits(0b101));
    assert!(rt; has_rows(alloc, some, &["[1, a]", "null", "[3, null]"]));
}

#[test]
fn there_may_be_no_columns(rt: HostRuntime) {
    let alloc = rt.alloc();
    let always = empty(alloc, 3, There::Always);
    assert!(rt; has_rows(alloc, always, &["[]", "[]", "[]"]));
    let some = empty(alloc, 3, There::Bits(0b010));
    assert!(rt; has_rows(alloc, some, &["null", "[]", "null"]));
}

#[test]
fn structures_stand_in_one_another(rt: HostRuntime) {
    let alloc = rt.alloc();
    let column = pairs(alloc, There::Always);
    let boxed = boxed(alloc, pairs(alloc, There::Always), column, 3);
    assert!(rt; has_rows(alloc, boxed, &["[[1, a]]", "[[2, b]]", "[[3, null]]"]));
}

const UNFIT: Option<ArrayError> = Some(ArrayError::BadShape);

// How many structs of three rows of columns there are, which are valid, and why they are refused, if they are.
const COUNTS: [(usize, There, Option<ArrayError>); 5] = [
    (3, There::Always, None),
    (2, There::Always, UNFIT),
    (4, There::Always, UNFIT),
    (usize::MAX, There::Always, UNFIT),
    (3, There::Unasked(7), UNFIT),
];

#[test]
fn there_are_as_many_as_rows_of_columns(rt: HostRuntime) {
    let alloc = rt.alloc();
    for (len, there, error) in &COUNTS {
        let pairs = pairs_of(alloc, columns(alloc), *len, *there);
        assert!(rt; pairs.err() == *error, "{len} {there:?}");
    }
}

#[test]
fn there_is_a_column_for_each_field(rt: HostRuntime) {
    let alloc = rt.alloc();
    for there in [There::Always, There::Bits(7)] {
        let few = pairs_of(alloc, one(alloc, numbers(alloc)), 3, there);
        assert!(rt; few.err() == UNFIT, "{there:?}");
        let three = and(columns(alloc), letters(alloc));
        let many = pairs_of(alloc, three, 3, there);
        assert!(rt; many.err() == UNFIT, "{there:?}");
    }
}

// Three flags, none of them null.
fn three_flags(alloc: Global) -> Made {
    flags(alloc, 0b101, 3)
}

// Three structs of a flag and a text, by these columns.
fn flagged(alloc: Global, columns: AllMade, there: There) -> Made {
    let types = two(alloc, three_flags(alloc), letters(alloc));
    structs(alloc, &["a", "b"], types, columns, 3, there)
}

// A validity looks like a column of flags: neither is taken for the other.
#[test]
fn a_validity_is_no_column(rt: HostRuntime) {
    let alloc = rt.alloc();
    for there in [There::Bits(7), There::Unasked(7)] {
        let few = flagged(alloc, one(alloc, letters(alloc)), there);
        assert!(rt; few.err() == UNFIT, "{there:?}");
    }
    for there in [There::Always, There::All] {
        let three = and(
            two(alloc, three_flags(alloc), three_flags(alloc)),
            letters(alloc),
        );
        assert!(rt; flagged(alloc, three, there).err() == UNFIT, "{there:?}");
    }
    let whole = flagged(
        alloc,
        two(alloc, three_flags(alloc), letters(alloc)),
        There::Bits(7),
    );
    assert!(rt; whole.err() == None);
}

#[test]
fn columns_are_those_of_the_fields(rt: HostRuntime) {
    let alloc = rt.alloc();
    let crossed = two(alloc, letters(alloc), numbers(alloc));
    assert!(rt; pairs_of(alloc, crossed, 3, There::Always).err() == UNFIT);
    let short = two(alloc, bytes(alloc, &[1, 2]), letters(alloc));
    assert!(rt; pairs_of(alloc, short, 3, There::Always).err() == UNFIT);
}

#[test]
fn there_may_be_as_many_as_can_be_counted(rt: HostRuntime) {
    let alloc = rt.alloc();
    assert!(rt; empty(alloc, usize::MAX, There::Always).err() == None);
    let many = nulls(alloc, usize::MAX);
    let full = boxed(alloc, nulls(alloc, 0), many, usize::MAX);
    assert!(rt; takes(alloc, full, 2));
}

#[test]
fn a_row_takes_its_fields_cells_and_one(rt: HostRuntime) {
    let alloc = rt.alloc();
    assert!(rt; takes(alloc, pairs(alloc, There::Always), 4));
    let slots = pairs(alloc, There::Always);
    assert!(rt; has_slots(alloc, slots, &["validity", "a", "b"]));
}
