//! Tests of unions.

use std::alloc::Global;
use vx_arrays::ArrayError;
use vx_test_arrays::parts::{AllMade, Made, There, and, bytes, flags, numbers, texts, two, unions};
use vx_test_arrays::rows::{has_rows, has_slots, takes};
use vx_types::PType;

// Four numbers.
fn counts(alloc: Global) -> Made {
    bytes(alloc, &[1, 2, 3, 4])
}

// Four texts, of which the last is null.
fn letters(alloc: Global) -> Made {
    texts(alloc, b"abcd", There::Bits(0b0111))
}

// Numbers, texts and flags.
fn members(alloc: Global) -> AllMade {
    let two = two(alloc, counts(alloc), letters(alloc));
    and(two, flags(alloc, 0b0100, 4))
}

// Unions of a number under the tag 0, a text under 5 and a flag under 255.
fn united(alloc: Global, tags: Made, rows: AllMade) -> Made {
    unions(alloc, &[0, 5, 255], members(alloc), tags, rows)
}

// The same by the tags of the rows, which may be null.
fn tagged(alloc: Global, tags: &[u8], there: There) -> Made {
    let tags = numbers(alloc, PType::U8, tags, there);
    united(alloc, tags, members(alloc))
}

// The tags of rows, whose bits say which are valid, and the rows of numbers, texts and flags that they name.
const ROWS: [(&[u8], There, &[&str]); 5] = [
    (
        &[0, 5, 255, 0],
        There::Always,
        &["#0(1)", "#5(b)", "#255(true)", "#0(4)"],
    ),
    (
        &[255, 255, 0, 5],
        There::All,
        &["#255(false)", "#255(false)", "#0(3)", "#5(null)"],
    ),
    (
        &[5, 0, 0, 255],
        There::Bits(0b1101),
        &["#5(a)", "null", "#0(3)", "#255(false)"],
    ),
    (
        &[7, 0, 7, 1],
        There::Bits(0b0010),
        &["null", "#0(2)", "null", "null"],
    ),
    (
        &[1, 2, 3, 4],
        There::Bits(0),
        &["null", "null", "null", "null"],
    ),
];

#[test]
fn a_tag_names_the_member(rt: HostRuntime) {
    let alloc = rt.alloc();
    for (tags, there, texts) in &ROWS {
        let unions = tagged(alloc, tags, *there);
        assert!(rt; has_rows(alloc, unions, texts), "{tags:?}");
    }
}

const BROKEN: Option<ArrayError> = Some(ArrayError::BadContent);

const UNFIT: Option<ArrayError> = Some(ArrayError::BadShape);

// Tags of which no unions of four rows are made, and why.
const BAD_TAGS: [(&[u8], There, Option<ArrayError>); 6] = [
    (&[0, 0, 0, 7], There::Always, BROKEN),
    (&[1, 0, 0, 0], There::All, BROKEN),
    (&[0, 7, 0, 0], There::Bits(0b0010), BROKEN),
    (&[254, 254, 254, 254], There::Bits(0b1000), BROKEN),
    (&[0, 0, 0], There::Always, UNFIT),
    (&[0, 0, 0, 0, 0], There::Always, UNFIT),
];

#[test]
fn a_tag_of_no_member_is_refused(rt: HostRuntime) {
    let alloc = rt.alloc();
    for (tags, there, error) in &BAD_TAGS {
        let refused = tagged(alloc, tags, *there).err();
        assert!(rt; refused == *error, "{tags:?}");
    }
}

#[test]
fn tags_are_bytes_without_a_sign(rt: HostRuntime) {
    let alloc = rt.alloc();
    let signed = numbers(alloc, PType::I8, &[0, 0, 0, 0], There::Always);
    assert!(rt; united(alloc, signed, members(alloc)).err() == UNFIT);
    let wide = numbers(alloc, PType::U16, &[0, 0, 0, 0, 0, 0, 0, 0], There::Always);
    assert!(rt; united(alloc, wide, members(alloc)).err() == UNFIT);
    assert!(rt; united(alloc, letters(alloc), members(alloc)).err() == UNFIT);
}

// The tags of four rows.
fn tags(alloc: Global) -> Made {
    bytes(alloc, &[0, 5, 255, 0])
}

#[test]
fn there_is_a_member_for_each_type(rt: HostRuntime) {
    let alloc = rt.alloc();
    let few = two(alloc, counts(alloc), letters(alloc));
    assert!(rt; united(alloc, tags(alloc), few).err() == UNFIT);
    let many = and(members(alloc), flags(alloc, 0, 4));
    assert!(rt; united(alloc, tags(alloc), many).err() == UNFIT);
}

#[test]
fn members_are_of_their_types_and_as_long_as_the_tags(rt: HostRuntime) {
    let alloc = rt.alloc();
    let crossed = and(
        two(alloc, letters(alloc), counts(alloc)),
        flags(alloc, 0, 4),
    );
    assert!(rt; united(alloc, tags(alloc), crossed).err() == UNFIT);
    let short = and(
        two(alloc, counts(alloc), letters(alloc)),
        flags(alloc, 0, 3),
    );
    assert!(rt; united(alloc, tags(alloc), short).err() == UNFIT);
}

#[test]
fn a_row_takes_its_members_cells_and_one(rt: HostRuntime) {
    let alloc = rt.alloc();
    let unions = tagged(alloc, &[5, 0, 0, 0], There::Always);
    assert!(rt; takes(alloc, unions, 3));
    let slots = tagged(alloc, &[5, 0, 0, 0], There::Always);
    assert!(rt; has_slots(alloc, slots, &["type_ids", "a", "b", "c"]));
}
