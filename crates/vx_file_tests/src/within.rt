//! Files inside larger ones.

use crate::bytes::WORKED;
use crate::reading::{Texts, Unknown, have_texts, ranges_of, selection_of, session_of, written};
use crate::tables::Table;
use std::alloc::Global;
use vx_file::{ColumnFile, Columns, FileError, MemRanges, Ranges, Selection};
use vx_registry::VortexSession;

// The columns of the file that is these bytes of a larger one. Other bytes than there are would be a fault of the test.
fn selected_within(
    alloc: Global,
    ranges: &mut MemRanges,
    start: u64,
    len: u64,
    selection: &Selection,
    session: &VortexSession,
) -> Result<Columns, FileError> {
    let size = ranges.size();
    if len > size || start > size - len {
        return Err(FileError::StoreFault);
    }
    let file = ColumnFile::load_within(alloc, ranges, start, len, &session.ext)?;
    file.select_within(alloc, ranges, start, selection, session)
}

// The same by the numbers of the columns.
fn picked_within(
    alloc: Global,
    ranges: &mut MemRanges,
    start: u64,
    len: u64,
    asked: &[u32],
) -> Result<Columns, FileError> {
    let selection = selection_of(alloc, asked)?;
    let session = session_of(alloc, Unknown::Refused)?;
    selected_within(alloc, ranges, start, len, &selection, &session)
}

// The worked file between three bytes and the file of two columns.
fn larger(alloc: Global) -> Result<Vec<u8>, FileError> {
    let second = written(alloc, Table::Two, Unknown::Refused)?;
    let mut bytes = Vec::from_slice(alloc, b"VXC")?;
    bytes.extend_from_slice(&WORKED)?;
    bytes.extend_from_slice(second.as_slice())?;
    Ok(bytes)
}

// The refusal of a part of those bytes, if it is refused.
fn refused(alloc: Global, start: u64, len: u64) -> Option<FileError> {
    match larger(alloc) {
        Ok(bytes) => match ranges_of(alloc, bytes.as_slice()) {
            Ok(mut ranges) => picked_within(alloc, &mut ranges, start, len, &[]).err(),
            Err(e) => Some(e),
        },
        Err(e) => Some(e),
    }
}

const NO_FILE: Option<FileError> = Some(FileError::NotAFile);

// A part of the bytes by its start and its length, and why it is no file, if it is none.
const PARTS: [(u64, u64, Option<FileError>); 8] = [
    (3, 357, None),
    (2, 357, NO_FILE),
    (4, 357, NO_FILE),
    (3, 356, NO_FILE),
    (3, 358, NO_FILE),
    (3, 11, NO_FILE),
    (3, 0, NO_FILE),
    (0, 360, NO_FILE),
];

#[test]
fn a_part_is_judged_alone(rt: HostRuntime) {
    for (start, len, error) in &PARTS {
        assert!(rt;
            refused(rt.alloc(), *start, *len) == *error,
            "{len} at {start}"
        );
    }
}

// The length of the file that starts there.
fn len_from(ranges: &MemRanges, start: u64) -> u64 {
    match start {
        3 => 357,
        _ => ranges.size().saturating_sub(start),
    }
}

// Whether the columns of a file that starts there have these rows, and all of its bytes were taken.
fn takes_all(
    alloc: Global,
    ranges: &mut MemRanges,
    start: u64,
    asked: &[u32],
    texts: Texts<'_>,
) -> Result<bool, FileError> {
    let len = len_from(ranges, start);
    let columns = picked_within(alloc, ranges, start, len, asked)?;
    Ok(have_texts(alloc, &columns, texts) && ranges.taken() == len as u128)
}

// The same of those bytes.
fn reads_all(alloc: Global, start: u64, asked: &[u32], texts: Texts<'_>) -> bool {
    match larger(alloc) {
        Ok(bytes) => match ranges_of(alloc, bytes.as_slice()) {
            Ok(mut ranges) => takes_all(alloc, &mut ranges, start, asked, texts) == Ok(true),
            Err(_) => false,
        },
        Err(_) => false,
    }
}

const ONES: &[&str] = &["1", "2", "3", "4"];

const FIVES: &[&str] = &["5", "6", "7", "8"];

// Where a file starts, all of its columns in some order, and their rows.
const FILES: [(u64, &[u32], Texts<'_>); 2] = [(3, &[0], &[ONES]), (360, &[1, 0], &[FIVES, ONES])];

#[test]
fn all_columns_take_the_whole_part(rt: HostRuntime) {
    for (start, asked, texts) in &FILES {
        assert!(rt; reads_all(rt.alloc(), *start, asked, texts), "{start}");
    }
}
