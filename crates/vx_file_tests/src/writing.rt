//! Tables that are written and read again, and arrays that are not written.

use crate::reading::{Texts, Unknown, is_read, written};
use crate::tables::Table;
use std::alloc::Global;
use vx_file::FileError;
use vx_serde::BlobRefusal;

const NO_TABLE: FileError = FileError::NotAStruct;

// Arrays, what the session takes, and why they are not written.
const UNWRITTEN: [(Table, Unknown, FileError); 9] = [
    (Table::OneOrNull, Unknown::Refused, NO_TABLE),
    (Table::SomeOne, Unknown::Refused, NO_TABLE),
    (Table::Numbers, Unknown::Refused, NO_TABLE),
    (Table::Stored, Unknown::Kept, NO_TABLE),
    (Table::Coded, Unknown::Refused, NO_TABLE),
    (Table::Deep(32), Unknown::Refused, FileError::TooLong),
    (Table::Deep(62), Unknown::Refused, FileError::TooLong),
    (
        Table::Deep(63),
        Unknown::Refused,
        FileError::Wire(BlobRefusal::WireLimit),
    ),
    (
        Table::Foreign,
        Unknown::Refused,
        FileError::Wire(BlobRefusal::NotRegistered),
    ),
];

#[test]
fn each_refusal_of_writing(rt: HostRuntime) {
    for (table, unknown, error) in &UNWRITTEN {
        let refused = written(rt.alloc(), *table, *unknown).err();
        assert!(rt; refused == Some(*error), "{table:?}");
    }
}

const ONES: &[&str] = &["1", "2", "3", "4"];

const FIVES: &[&str] = &["5", "6", "7", "8"];

const LETTERS: &[&str] = &["a", "b", "null"];

const COUNTS: &[&str] = &["7", "8", "9"];

const LISTS: &[&str] = &["[a, b]", "[]", "[null]"];

const DEEP: &[&str] = &["[[[[[[[[[[[[[[[[[[[[[[[[[[[[[[7]]]]]]]]]]]]]]]]]]]]]]]]]]]]]]"];

// Tables, what the session that writes them takes, what the one that reads them takes, which columns are asked, and their rows
// or why they are refused.
const WRITTEN: [(
    Table,
    Unknown,
    Unknown,
    &[u32],
    Result<Texts<'_>, FileError>,
); 9] = [
    (
        Table::Two,
        Unknown::Refused,
        Unknown::Refused,
        &[1, 0],
        Ok(&[FIVES, ONES]),
    ),
    (
        Table::Mixed,
        Unknown::Refused,
        Unknown::Refused,
        &[2, 0, 1],
        Ok(&[LISTS, LETTERS, COUNTS]),
    ),
    (
        Table::Empty,
        Unknown::Refused,
        Unknown::Refused,
        &[],
        Ok(&[]),
    ),
    (
        Table::Empty,
        Unknown::Refused,
        Unknown::Refused,
        &[0],
        Err(FileError::NoColumn(0)),
    ),
    (
        Table::Extended,
        Unknown::Refused,
        Unknown::Kept,
        &[0],
        Ok(&[COUNTS]),
    ),
    (
        Table::Extended,
        Unknown::Refused,
        Unknown::Refused,
        &[0],
        Err(FileError::BadType),
    ),
    (
        Table::Foreign,
        Unknown::Kept,
        Unknown::Kept,
        &[0],
        Ok(&[&[]]),
    ),
    (
        Table::Foreign,
        Unknown::Kept,
        Unknown::Refused,
        &[0],
        Err(FileError::BadColumn(0, BlobRefusal::UnknownEncoding)),
    ),
    (
        Table::Deep(31),
        Unknown::Refused,
        Unknown::Refused,
        &[0],
        Ok(&[DEEP]),
    ),
];

// Whether a table that is written is read so.
fn comes_again(
    alloc: Global,
    table: Table,
    writing: Unknown,
    reading: Unknown,
    asked: &[u32],
    want: &Result<Texts<'_>, FileError>,
) -> bool {
    match written(alloc, table, writing) {
        Ok(file) => is_read(alloc, file.as_slice(), asked, reading, want),
        Err(_) => false,
    }
}

#[test]
fn tables_are_read_again(rt: HostRuntime) {
    for (table, writing, reading, asked, want) in &WRITTEN {
        assert!(rt;
            comes_again(rt.alloc(), *table, *writing, *reading, asked, want),
            "{table:?} {asked:?}"
        );
    }
}
