//! The rows of views, the cells that one takes, and the names of buffers and slots.

use crate::parts::{Rows, made};
use std::alloc::Global;
use vx_arrays::{Array, ArrayError, RowValue};

// Thirty-six bytes.
fn long() -> &'static [u8] {
    b"a moderately long string for testing"
}

// The views of hello, null, world, null and that long text.
const VIEWS: [u8; 80] = *b"\x05\0\0\0hello\0\0\0\0\0\0\0\
    \x24\0\0\0a mo\0\0\0\0\0\0\0\0\
    \x05\0\0\0world\0\0\0\0\0\0\0\
    \0\0\0\0\0\0\0\0\0\0\0\0\0\0\0\0\
    \x24\0\0\0a mo\0\0\0\0\0\0\0\0";

// Puts a byte at a place, where there is such a place.
fn put(bytes: &mut Vec<u8>, place: usize, byte: u8) {
    if let Some(old) = bytes.get_mut(place) {
        *old = byte;
    }
}

// The same with a first letter of its own in the prefix of a null row, and in that of the last.
fn views(alloc: Global, null: u8, last: u8) -> Result<Vec<u8>, ArrayError> {
    let mut views = Vec::from_slice(alloc, &VIEWS)?;
    put(&mut views, 20, null);
    put(&mut views, 68, last);
    Ok(views)
}

// The texts of these views.
fn worked(alloc: Global, null: u8, last: u8) -> Result<Array, ArrayError> {
    let views = views(alloc, null, last)?;
    made(
        alloc,
        Rows::TextsOrNull,
        5,
        &[long()],
        views.as_slice(),
        Some(0b10101),
    )
}

// The value of a row, with a budget of this many cells.
fn value_at(
    alloc: Global,
    array: &Array,
    index: usize,
    budget: u64,
) -> Result<RowValue, ArrayError> {
    if index >= array.len() {
        return Err(ArrayError::BadShape);
    }
    array.value_at(alloc, index, budget)
}

// Whether a value is a text of these bytes, or null where there are none.
fn is_text(value: &RowValue, row: Option<&[u8]>) -> bool {
    match value {
        RowValue::Utf8(text) => Some(text.as_str().as_bytes()) == row,
        RowValue::Null => row.is_none(),
        _ => false,
    }
}

// Whether a row is valid or not.
fn is_there(array: &Array, index: usize, there: bool) -> bool {
    if index >= array.len() {
        return false;
    }
    array.is_valid(index) == Some(there)
}

// Whether a row is these bytes, or null where there are none.
fn is_row(alloc: Global, array: &Array, index: usize, row: Option<&[u8]>) -> bool {
    match value_at(alloc, array, index, 37) {
        Ok(value) => is_text(&value, row) && is_there(array, index, row.is_some()),
        Err(_) => false,
    }
}

// The same for a copy of the array.
fn is_row_copied(
    alloc: Global,
    array: &Array,
    index: usize,
    row: Option<&[u8]>,
) -> Result<bool, ArrayError> {
    let copy = array.clone(alloc)?;
    Ok(is_row(alloc, &copy, index, row))
}

// The same for a copy of the worked texts.
fn is_worked(alloc: Global, index: usize, row: Option<&[u8]>) -> Result<bool, ArrayError> {
    let array = worked(alloc, b'a', b'a')?;
    is_row_copied(alloc, &array, index, row)
}

const ROWS: [(usize, Option<&[u8]>); 4] = [
    (0, Some(b"hello")),
    (1, None),
    (2, Some(b"world")),
    (3, None),
];

#[test]
fn rows_are_told_by_their_views(rt: HostRuntime) {
    for (index, row) in &ROWS {
        assert!(rt; is_worked(rt.alloc(), *index, *row) == Ok(true), "{index}");
    }
    assert!(rt; is_worked(rt.alloc(), 4, Some(long())) == Ok(true));
}

// Why the worked texts, or the last of them for this many cells, are refused, if they are.
fn worked_refusal(alloc: Global, null: u8, last: u8, budget: u64) -> Option<ArrayError> {
    match worked(alloc, null, last) {
        Ok(array) => value_at(alloc, &array, 4, budget).err(),
        Err(e) => Some(e),
    }
}

#[test]
fn a_wrong_prefix_is_refused_where_its_row_is_there(rt: HostRuntime) {
    let alloc = rt.alloc();
    assert!(rt; worked_refusal(alloc, b'a', b'a', 37) == None);
    assert!(rt; worked_refusal(alloc, b'b', b'a', 37) == None);
    assert!(rt; worked_refusal(alloc, b'a', b'b', 37) == Some(ArrayError::BadContent));
    assert!(rt; worked_refusal(alloc, b'a', b'a', 36) == Some(ArrayError::ValueTooLarge));
}

// One row of this many bytes of 7.
fn one_row(alloc: Global, len: u16) -> Result<Array, ArrayError> {
    let data = vec![in alloc; 7; len as usize]?;
    let low = (len % 256) as u8;
    let high = (len / 256) as u8;
    let view = [low, high, 0, 0, 7, 7, 7, 7, 0, 0, 0, 0, 0, 0, 0, 0];
    made(alloc, Rows::Bytes, 1, &[data.as_slice()], &view, None)
}

// Why it is not given for this many cells, if it is not.
fn row_refusal(alloc: Global, len: u16, budget: u64) -> Result<Option<ArrayError>, ArrayError> {
    let array = one_row(alloc, len)?;
    Ok(value_at(alloc, &array, 0, budget).err())
}

const TOO_LARGE: Option<ArrayError> = Some(ArrayError::ValueTooLarge);

const CELLS: [(u16, u64, Option<ArrayError>); 6] = [
    (0, 0, TOO_LARGE),
    (0, 1, None),
    (12, 13, None),
    (9_999, 10_000, None),
    (10_000, 10_000, TOO_LARGE),
    (10_000, 10_001, None),
];

#[test]
fn a_row_takes_a_cell_for_each_byte_and_one(rt: HostRuntime) {
    for (len, budget, error) in &CELLS {
        let refused = row_refusal(rt.alloc(), *len, *budget);
        assert!(rt; refused == Ok(*error), "{len} {budget}");
    }
}

// Whether one of two buffers begins with this byte.
fn begins(array: &Array, index: usize, first: u8) -> bool {
    if index >= array.nbuffers() {
        return false;
    }
    array.nbuffers() == 2 && array.buffer(index).as_host().as_slice().first() == Some(&first)
}

// Whether a buffer has this name, or none.
fn is_named(alloc: Global, array: &Array, index: usize, name: Option<&str>) -> bool {
    match array.buffer_name(alloc, index) {
        Ok(Some(found)) => Some(found.as_str()) == name,
        Ok(None) => name.is_none(),
        Err(_) => false,
    }
}

// Whether an array has one slot, of this name.
fn is_slot(alloc: Global, array: &Array, slot: &str) -> bool {
    if array.nslots() != 1 {
        return false;
    }
    match array.slot_name(alloc, 0) {
        Ok(name) => name.as_str() == slot,
        Err(_) => false,
    }
}

// Whether the views of an array stand after its one buffer of data.
fn has_views_last(alloc: Global, array: &Array) -> bool {
    begins(array, 0, b'a')
        && is_named(alloc, array, 0, Some("buffer_0"))
        && begins(array, 1, 5)
        && is_named(alloc, array, 1, Some("views"))
        && is_named(alloc, array, 2, None)
}

#[test]
fn buffers_have_numbers_and_views_stand_last(rt: HostRuntime) {
    match worked(rt.alloc(), b'a', b'a') {
        Ok(texts) => {
            assert!(rt; has_views_last(rt.alloc(), &texts));
            assert!(rt; is_slot(rt.alloc(), &texts, "validity"));
        }
        Err(_) => assert!(rt; false),
    }
}
