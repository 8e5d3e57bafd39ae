//! Columns that are selected of files that are made by their parts or changed: their rows, and why they are refused.

use crate::parts::{ONE, Parts, blob, file_of};
use crate::reading::{Texts, Unknown, have_texts, is_read, picked, ranges_of, read, written};
use crate::tables::Table;
use std::alloc::{AllocError, Global};
use vx_file::FileError;
use vx_serde::BlobRefusal;

// A column, that column again, a part of its bytes, and no bytes at both ends.
const FIVE: Parts<'static> = Parts {
    ranges: &[(4, 172), (4, 172), (8, 168), (4, 0), (176, 0)],
    kind: Table::Five,
    ..ONE
};

const ONES: &[&str] = &["1", "2", "3", "4"];

const TWOS: &[&str] = &["2", "3", "4", "0"];

// Which columns are asked, their rows, and how many bytes selecting them takes.
const SELECTED: [(&[u32], Texts<'_>, u128); 4] = [
    (&[1, 0], &[ONES, ONES], 344),
    (&[2], &[TWOS], 168),
    (&[2, 0, 2], &[TWOS, ONES, TWOS], 508),
    (&[], &[], 0),
];

// Whether columns have these rows, and as many bytes were taken beside those of loading.
fn takes(alloc: Global, asked: &[u32], texts: Texts<'_>, taken: u128) -> Result<bool, FileError> {
    let file = file_of(alloc, blob(), &FIVE)?;
    let loading = file.len().saturating_sub(176 - 4) as u128;
    let mut ranges = ranges_of(alloc, file.as_slice())?;
    let columns = picked(alloc, &mut ranges, asked, Unknown::Refused)?;
    Ok(have_texts(alloc, &columns, texts) && ranges.taken().checked_sub(loading) == Some(taken))
}

#[test]
fn ranges_may_repeat_and_overlap(rt: HostRuntime) {
    for (asked, texts, taken) in &SELECTED {
        assert!(rt;
            takes(rt.alloc(), asked, texts, *taken) == Ok(true),
            "{asked:?}"
        );
    }
}

// Why columns of a file of such parts, with the worked blob, are not selected, if they are not.
fn unselected(alloc: Global, parts: &Parts<'_>, asked: &[u32]) -> Option<FileError> {
    match file_of(alloc, blob(), parts) {
        Ok(file) => read(alloc, file.as_slice(), asked, Unknown::Refused).err(),
        Err(e) => Some(e),
    }
}

// Which columns are asked of that file, and why they are not selected.
const REFUSED: [(&[u32], FileError); 4] = [
    (&[3], FileError::BadColumn(3, BlobRefusal::TooShort)),
    (&[4], FileError::BadColumn(4, BlobRefusal::TooShort)),
    (&[0, 4, 1], FileError::BadColumn(4, BlobRefusal::TooShort)),
    (&[5], FileError::NoColumn(5)),
];

#[test]
fn columns_are_there_and_have_blobs(rt: HostRuntime) {
    for (asked, error) in &REFUSED {
        assert!(rt;
            unselected(rt.alloc(), &FIVE, asked) == Some(*error),
            "{asked:?}"
        );
    }
}

// The number of rows, the identifiers, an array of the type, and why the column is not read then, if it is not.
const JUDGED: [(u64, &[&str], Table, Option<BlobRefusal>); 9] = [
    (4, &["vortex.primitive", ""], Table::One, None),
    (
        3,
        &["vortex.primitive"],
        Table::One,
        Some(BlobRefusal::BadShape),
    ),
    (
        u64::MAX,
        &["vortex.primitive"],
        Table::One,
        Some(BlobRefusal::BadShape),
    ),
    (
        4,
        &["vortex.primitive"],
        Table::Bytes,
        Some(BlobRefusal::BadShape),
    ),
    (4, &["vortex.null"], Table::One, Some(BlobRefusal::BadShape)),
    (
        4,
        &["", "vortex.primitive"],
        Table::One,
        Some(BlobRefusal::UnknownEncoding),
    ),
    (
        4,
        &["vortex.primitiv"],
        Table::One,
        Some(BlobRefusal::UnknownEncoding),
    ),
    (4, &[], Table::One, Some(BlobRefusal::UnknownIndex)),
    (4, &["vortex.bool"], Table::One, Some(BlobRefusal::BadShape)),
];

// The same as a refusal of the file.
fn of_column(refusal: &Option<BlobRefusal>) -> Option<FileError> {
    match refusal {
        Some(refusal) => Some(FileError::BadColumn(0, *refusal)),
        None => None,
    }
}

#[test]
fn a_column_is_of_its_type_and_of_the_rows(rt: HostRuntime) {
    for (rows, ids, kind, refusal) in &JUDGED {
        let parts = Parts {
            rows: *rows,
            ids,
            kind: *kind,
            ..ONE
        };
        assert!(rt;
            unselected(rt.alloc(), &parts, &[0]) == of_column(refusal),
            "{parts:?}"
        );
    }
}

// Bytes with four zero bytes at a place.
fn zeroed(alloc: Global, bytes: &[u8], place: usize) -> Result<Vec<u8>, AllocError> {
    let mut changed = Vec::from_slice(alloc, bytes)?;
    for i in 0..4 {
        if let Some(byte) = changed.get_mut(place.saturating_add(i)) {
            *byte = 0;
        }
    }
    Ok(changed)
}

// The file of two columns, with the length word of the first one's blob zeroed.
fn broken(alloc: Global) -> Result<Vec<u8>, FileError> {
    let file = written(alloc, Table::Two, Unknown::Refused)?;
    Ok(zeroed(alloc, file.as_slice(), 172)?)
}

const BROKEN: FileError = FileError::BadColumn(0, BlobRefusal::BadTable);

// Which columns of it are asked, and their rows, or why they are not selected.
const BESIDE: [(&[u32], Result<Texts<'_>, FileError>); 4] = [
    (&[1], Ok(&[&["5", "6", "7", "8"]])),
    (&[0], Err(BROKEN)),
    (&[1, 0], Err(BROKEN)),
    (&[], Ok(&[])),
];

// Whether columns of it have these rows, or are refused so.
fn answers(alloc: Global, asked: &[u32], want: &Result<Texts<'_>, FileError>) -> bool {
    match broken(alloc) {
        Ok(file) => is_read(alloc, file.as_slice(), asked, Unknown::Refused, want),
        Err(_) => false,
    }
}

#[test]
fn a_broken_column_leaves_the_others(rt: HostRuntime) {
    for (asked, want) in &BESIDE {
        assert!(rt; answers(rt.alloc(), asked, want), "{asked:?}");
    }
}
