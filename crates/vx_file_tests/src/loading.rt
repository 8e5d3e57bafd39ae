//! Files that are made by their parts: which are loaded.

use crate::bytes::BLOB_OF_LAST;
use crate::parts::{ONE, Parts, blob, file_of};
use crate::reading::{Unknown, have_texts, ranges_of, read, session_of, unloaded};
use crate::tables::Table;
use std::alloc::Global;
use vx_file::{ColumnFile, FileError, MemRanges};
use vx_type_wire::ExtSession;

// Why a file of such parts, with the worked blob, is not loaded, if it is not.
fn refused(alloc: Global, parts: &Parts<'_>, unknown: Unknown) -> Option<FileError> {
    match file_of(alloc, blob(), parts) {
        Ok(file) => unloaded(alloc, file.as_slice(), unknown),
        Err(e) => Some(e),
    }
}

const NO_FILE: Option<FileError> = Some(FileError::NotAFile);

const BAD_TYPE: Option<FileError> = Some(FileError::BadType);

// The ranges of columns, and why a file of them is not loaded, if it is not. The footer begins at 176.
const RANGES: [((u64, u64), Option<FileError>); 13] = [
    ((4, 172), None),
    ((5, 171), None),
    ((4, 173), NO_FILE),
    ((5, 172), NO_FILE),
    ((3, 172), NO_FILE),
    ((0, 0), NO_FILE),
    ((4, 0), None),
    ((176, 0), None),
    ((177, 0), NO_FILE),
    ((176, 1), NO_FILE),
    ((4, u64::MAX), NO_FILE),
    ((u64::MAX, 2), NO_FILE),
    ((u64::MAX, u64::MAX), NO_FILE),
];

#[test]
fn ranges_lie_before_the_footer(rt: HostRuntime) {
    for (range, error) in &RANGES {
        let parts = Parts {
            ranges: &[*range],
            ..ONE
        };
        assert!(rt;
            refused(rt.alloc(), &parts, Unknown::Refused) == *error,
            "{range:?}"
        );
    }
}

// Ranges, an array of the type, what the session takes, and why a file of them is not loaded, if it is not.
const TYPES: [(&[(u64, u64)], Table, Unknown, Option<FileError>); 11] = [
    (&[], Table::Empty, Unknown::Refused, None),
    (&[], Table::One, Unknown::Refused, BAD_TYPE),
    (&[(4, 172)], Table::Empty, Unknown::Refused, BAD_TYPE),
    (&[(4, 172)], Table::Two, Unknown::Refused, BAD_TYPE),
    (&[(4, 172), (4, 172)], Table::Two, Unknown::Refused, None),
    (&[(4, 172)], Table::OneOrNull, Unknown::Refused, BAD_TYPE),
    (&[(4, 172)], Table::Numbers, Unknown::Refused, BAD_TYPE),
    (&[(4, 172)], Table::Extended, Unknown::Refused, BAD_TYPE),
    (&[(4, 172)], Table::Extended, Unknown::Kept, None),
    (&[(4, 172)], Table::Stored, Unknown::Refused, BAD_TYPE),
    (&[(4, 172)], Table::Stored, Unknown::Kept, BAD_TYPE),
];

#[test]
fn types_are_those_of_tables(rt: HostRuntime) {
    for (ranges, kind, unknown, error) in &TYPES {
        let parts = Parts {
            ranges,
            kind: *kind,
            ..ONE
        };
        assert!(rt;
            refused(rt.alloc(), &parts, *unknown) == *error,
            "{ranges:?} {kind:?}"
        );
    }
}

// How many identifiers a file has, and how many bytes loading it takes.
fn loaded_by(
    alloc: Global,
    ranges: &mut MemRanges,
    readers: &ExtSession,
) -> Result<(usize, u128), FileError> {
    let file = ColumnFile::load(alloc, ranges, readers)?;
    Ok((file.ids().len(), ranges.taken()))
}

// A file of 65,536 identifiers, of which the last reads the column.
fn many(alloc: Global) -> Result<Vec<u8>, FileError> {
    let parts = Parts {
        ranges: &[(4, 168)],
        empty_ids: 65_535,
        ..ONE
    };
    file_of(alloc, &BLOB_OF_LAST, &parts)
}

// The same of that file.
fn loaded(alloc: Global) -> Result<(usize, u128), FileError> {
    let file = many(alloc)?;
    let mut ranges = ranges_of(alloc, file.as_slice())?;
    let session = session_of(alloc, Unknown::Refused)?;
    loaded_by(alloc, &mut ranges, &session.ext)
}

// Whether its column is read.
fn reads_by_last(alloc: Global) -> Result<bool, FileError> {
    let file = many(alloc)?;
    let columns = read(alloc, file.as_slice(), &[0], Unknown::Refused)?;
    Ok(have_texts(alloc, &columns, &[&["1", "2", "3", "4"]]))
}

#[test]
fn identifiers_are_as_many_as_blobs_can_name(rt: HostRuntime) {
    let footer = 173 + 4 * 65_535;
    assert!(rt; loaded(rt.alloc()) == Ok((65_536, 12 + footer)));
    assert!(rt; reads_by_last(rt.alloc()) == Ok(true));
}
