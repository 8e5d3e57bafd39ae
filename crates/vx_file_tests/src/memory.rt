//! Calls in which an allocation may fail: each test holds whichever fails.

use crate::bytes::WORKED;
use crate::reading::{Unknown, picked, ranges_of, written};
use crate::tables::Table;
use std::alloc::Global;
use vx_file::{Columns, FileError};

#[test]
fn a_table_is_written_or_wants_memory(rt: HostRuntime) {
    match written(rt.alloc(), Table::One, Unknown::Refused) {
        Ok(file) => assert!(rt; file.as_slice() == WORKED.as_slice()),
        Err(e) => assert!(rt; e == FileError::OutOfMemory, "{e}"),
    }
}

// How many rows the first column has.
fn rows_of(columns: &Columns) -> Option<usize> {
    Some(columns.as_slice().first()?.len())
}

// How many rows are read of the column that is asked twice, and how many bytes are taken.
fn rows_read(alloc: Global) -> Result<(Option<usize>, u128), FileError> {
    let mut ranges = ranges_of(alloc, &WORKED)?;
    let columns = picked(alloc, &mut ranges, &[0, 0], Unknown::Refused)?;
    Ok((rows_of(&columns), ranges.taken()))
}

#[test]
fn columns_are_read_or_want_memory(rt: HostRuntime) {
    let read = rows_read(rt.alloc());
    assert!(rt;
        read == Ok((Some(4), 529)) || read == Err(FileError::OutOfMemory),
        "{read:?}"
    );
}
