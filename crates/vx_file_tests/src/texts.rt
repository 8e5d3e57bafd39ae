//! The texts of the refusals of files and of ranges.

use std::alloc::Global;
use vx_file::{FileError, RangesError};
use vx_serde::BlobRefusal;

// Whether a refusal has this text.
fn is_text(alloc: Global, error: FileError, text: &str) -> bool {
    match format!(in alloc; "{error}") {
        Ok(printed) => printed.as_str() == text,
        Err(_) => false,
    }
}

const TEXTS: [(FileError, &str); 9] = [
    (FileError::OutOfMemory, "out of memory"),
    (FileError::StoreFault, "the file could not be read"),
    (FileError::NotAFile, "the bytes are no column file"),
    (
        FileError::BadType,
        "the type is none of tables of so many columns",
    ),
    (FileError::NoColumn(7), "there is no column 7"),
    (
        FileError::BadColumn(7, BlobRefusal::BadTable),
        "the blob of column 7 is refused: BadTable",
    ),
    (FileError::NotAStruct, "the array is no table"),
    (
        FileError::TooLong,
        "a count or a length passes four bytes, or the type is too large to be written",
    ),
    (
        FileError::Wire(BlobRefusal::NotRegistered),
        "a column is not written: NotRegistered",
    ),
];

#[test]
fn texts_of_refusals(rt: HostRuntime) {
    for (error, text) in &TEXTS {
        assert!(rt; is_text(rt.alloc(), *error, text), "{text}");
    }
}

// Whether a refusal of a range has this text.
fn is_text_of_ranges(alloc: Global, error: RangesError, text: &str) -> bool {
    match format!(in alloc; "{error}") {
        Ok(printed) => printed.as_str() == text,
        Err(_) => false,
    }
}

#[test]
fn texts_of_refused_ranges(rt: HostRuntime) {
    let alloc = rt.alloc();
    assert!(rt; is_text_of_ranges(alloc, RangesError::OutOfMemory, "out of memory"));
    assert!(rt; is_text_of_ranges(alloc, RangesError::Failed, "the file could not be read"));
}
