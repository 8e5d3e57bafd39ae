//! Which views are valid, and which rows are made of them.

use crate::parts::{Rows, made, made_of_views};
use std::alloc::Global;
use vx_arrays::ArrayError;

const BROKEN: Option<ArrayError> = Some(ArrayError::BadContent);

const UNFIT: Option<ArrayError> = Some(ArrayError::BadShape);

// The refusal of one row by a view into two buffers, if it is refused.
fn refusal(
    alloc: Global,
    rows: Rows,
    data: &[u8],
    view: &[u8],
    bits: Option<u8>,
) -> Option<ArrayError> {
    made(alloc, rows, 1, &[data, b"x"], view, bits).err()
}

// The bytes of the first buffer of the views that are judged.
fn letters() -> &'static [u8] {
    b"..abcdefghijklm"
}

// Views, each with its refusal over a buffer of those letters and one of a byte.
const VIEWS: [(&[u8], Option<ArrayError>); 11] = [
    (b"\x0c\0\0\0abcdefghijkl", None),
    (b"\0\0\0\0abcdefghijkl", None),
    (b"\x0d\0\0\0abcd\0\0\0\0\x02\0\0\0", None),
    (b"\x0d\0\0\0abce\0\0\0\0\x02\0\0\0", BROKEN),
    (b"\x0d\0\0\0bbcd\0\0\0\0\x02\0\0\0", BROKEN),
    (b"\x0e\0\0\0abcd\0\0\0\0\x02\0\0\0", BROKEN),
    (b"\x0d\0\0\0bcde\0\0\0\0\x03\0\0\0", BROKEN),
    (b"\x0d\0\0\0abcd\x01\0\0\0\x02\0\0\0", BROKEN),
    (b"\x0d\0\0\0abcd\x02\0\0\0\x02\0\0\0", BROKEN),
    (b"\xff\xff\xff\xffabcd\0\0\0\0\x02\0\0\0", BROKEN),
    (b"\xff\xff\xff\xffabcd\0\0\0\0\xff\xff\xff\xff", BROKEN),
];

#[test]
fn views_are_judged_where_rows_are_there(rt: HostRuntime) {
    let alloc = rt.alloc();
    for (view, error) in &VIEWS {
        let bytes = refusal(alloc, Rows::Bytes, letters(), view, None);
        assert!(rt; bytes == *error, "{view:?}");
        let there = refusal(alloc, Rows::TextsOrNull, letters(), view, Some(1));
        assert!(rt; there == *error, "{view:?}");
        let null = refusal(alloc, Rows::BytesOrNull, letters(), view, Some(0));
        assert!(rt; null == None, "{view:?}");
    }
}

// The bytes of a first buffer whose last character has two bytes.
fn accented() -> &'static [u8] {
    b"abcdefghijkl\xc3\xa4"
}

const ONE: &[u8] = b"\x01\0\0\0\xc3\xa4\0\0\0\0\0\0\0\0\0\0";

// Rows of one view over those bytes, and their refusal.
const TEXTS: [(Rows, &[u8], Option<u8>, Option<ArrayError>); 6] = [
    (
        Rows::Texts,
        b"\x02\0\0\0\xc3\xa4\0\0\0\0\0\0\0\0\0\0",
        None,
        None,
    ),
    (Rows::Texts, ONE, None, BROKEN),
    (Rows::Bytes, ONE, None, None),
    (Rows::TextsOrNull, ONE, Some(0), None),
    (Rows::Texts, b"\x0e\0\0\0abcd\0\0\0\0\0\0\0\0", None, None),
    (Rows::Texts, b"\x0d\0\0\0abcd\0\0\0\0\0\0\0\0", None, BROKEN),
];

#[test]
fn texts_end_where_a_character_does(rt: HostRuntime) {
    for (rows, view, bits, error) in &TEXTS {
        let refused = refusal(rt.alloc(), *rows, accented(), view, *bits);
        assert!(rt; refused == *error, "{view:?} {bits:?}");
    }
}

// The refusal of rows by empty views in this many bytes, if they are refused.
fn misfit(
    alloc: Global,
    rows: Rows,
    len: usize,
    bytes: usize,
    exponent: u8,
    bits: Option<u8>,
) -> Result<Option<ArrayError>, ArrayError> {
    let zeros = vec![in alloc; 0; bytes]?;
    Ok(made_of_views(alloc, rows, len, zeros.as_slice(), exponent, bits).err())
}

// Rows, their number, the bytes and the alignment of their views, and their refusal.
const FITS: [(Rows, usize, usize, u8, Option<u8>, Option<ArrayError>); 10] = [
    (Rows::Bytes, 2, 32, 4, None, None),
    (Rows::Texts, 0, 0, 5, None, None),
    (Rows::TextsOrNull, 1, 16, 4, Some(1), None),
    (Rows::Texts, 2, 31, 4, None, UNFIT),
    (Rows::Texts, 2, 48, 4, None, UNFIT),
    (Rows::Texts, 1 << 60, 0, 4, None, UNFIT),
    (Rows::Texts, 2, 32, 3, None, UNFIT),
    (Rows::Texts, 1, 16, 4, Some(1), UNFIT),
    (Rows::TextsOrNull, 2, 32, 4, Some(1), UNFIT),
    (Rows::Nulls, 2, 32, 4, None, UNFIT),
];

#[test]
fn there_is_an_aligned_view_for_each_row(rt: HostRuntime) {
    for (rows, len, bytes, exponent, bits, error) in &FITS {
        let found = misfit(rt.alloc(), *rows, *len, *bytes, *exponent, *bits);
        assert!(rt; found == Ok(*error), "{len} {bytes} {exponent} {bits:?}");
    }
}
