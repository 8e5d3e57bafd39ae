//! The worked file: written, loaded and selected from.

use crate::bytes::WORKED;
use crate::parts::{ONE, Parts, blob, file_of};
use crate::reading::{Texts, Unknown, have_texts, picked, ranges_of, read, session_of, written};
use crate::tables::Table;
use std::alloc::{AllocError, Global};
use vx_file::{ColumnFile, ColumnRange, FileError, MemRanges};
use vx_type_wire::ExtSession;
use vx_types::{DType, Nullability, PType};

// Whether a table is written as these bytes.
fn is_written(alloc: Global, table: Table, bytes: &[u8]) -> Result<bool, FileError> {
    let file = written(alloc, table, Unknown::Refused)?;
    Ok(file.as_slice() == bytes)
}

// The statistics of the table's own node are not written.
#[test]
fn the_worked_table_is_written_so(rt: HostRuntime) {
    assert!(rt; is_written(rt.alloc(), Table::One, &WORKED) == Ok(true));
    assert!(rt; is_written(rt.alloc(), Table::Told, &WORKED) == Ok(true));
}

// The blobs of two columns: the second one needs no pad, where it stands.
fn two_blobs(alloc: Global) -> Result<Vec<u8>, AllocError> {
    let mut blobs = Vec::from_slice(alloc, blob())?;
    blobs.extend_from_slice(b"\x05\0\0\0\x06\0\0\0\x07\0\0\0\x08\0\0\0")?;
    blobs.extend_from_slice(&WORKED[24..176])?;
    Ok(blobs)
}

// The file of two columns.
const TWO: Parts<'static> = Parts {
    ranges: &[(4, 172), (176, 168)],
    kind: Table::Two,
    ..ONE
};

// Whether the table of two columns is written as that file.
fn are_two_written(alloc: Global) -> Result<bool, FileError> {
    let blobs = two_blobs(alloc)?;
    let file = file_of(alloc, blobs.as_slice(), &TWO)?;
    is_written(alloc, Table::Two, file.as_slice())
}

#[test]
fn each_column_is_written_as_at_its_place(rt: HostRuntime) {
    assert!(rt; are_two_written(rt.alloc()) == Ok(true));
}

// Whether a type is that of a structure of one signed number of four bytes, not null.
fn is_type_of_ones(dtype: &DType) -> bool {
    match dtype {
        DType::Struct(fields, Nullability::NonNullable) => {
            fields.fields().len() == 1
                && fields.fields().get(0)
                    == Some(&DType::Primitive(PType::I32, Nullability::NonNullable))
        }
        _ => false,
    }
}

// Whether a file has one column, at this range.
fn has_one_column(file: &ColumnFile, start: u64, len: u64) -> bool {
    if file.ncolumns() != 1 {
        return false;
    }
    file.column_range(0) == ColumnRange { start, len }
}

// Whether a file is told of as the worked one.
fn is_worked(file: &ColumnFile) -> bool {
    file.rows() == 4
        && file.ids().len() == 1
        && is_type_of_ones(file.dtype())
        && has_one_column(file, 4, 172)
}

// Whether the worked file is loaded, by this many bytes.
fn is_loaded(
    alloc: Global,
    ranges: &mut MemRanges,
    readers: &ExtSession,
    taken: u128,
) -> Result<bool, FileError> {
    let file = ColumnFile::load(alloc, ranges, readers)?;
    Ok(is_worked(&file) && ranges.taken() == taken)
}

// The same from its bytes.
fn loads_worked(alloc: Global, taken: u128) -> Result<bool, FileError> {
    let mut ranges = ranges_of(alloc, &WORKED)?;
    let session = session_of(alloc, Unknown::Refused)?;
    is_loaded(alloc, &mut ranges, &session.ext, taken)
}

#[test]
fn loading_takes_the_ends_and_the_footer(rt: HostRuntime) {
    assert!(rt; loads_worked(rt.alloc(), 12 + 173) == Ok(true));
}

const ONES: &[&str] = &["1", "2", "3", "4"];

// Which columns are asked, their rows, and how many bytes are taken beside those of loading.
const SELECTED: [(&[u32], Texts<'_>, u128); 3] = [
    (&[0], &[ONES], 172),
    (&[0, 0], &[ONES, ONES], 344),
    (&[], &[], 0),
];

// Whether columns have these rows, and as many bytes were taken in all.
fn takes(alloc: Global, asked: &[u32], texts: Texts<'_>, taken: u128) -> Result<bool, FileError> {
    let mut ranges = ranges_of(alloc, &WORKED)?;
    let columns = picked(alloc, &mut ranges, asked, Unknown::Refused)?;
    Ok(have_texts(alloc, &columns, texts) && ranges.taken() == taken)
}

#[test]
fn selecting_takes_the_ranges_asked(rt: HostRuntime) {
    for (asked, texts, taken) in &SELECTED {
        assert!(rt;
            takes(rt.alloc(), asked, texts, 185 + *taken) == Ok(true),
            "{asked:?}"
        );
    }
}

// How many arrays are handed out, where a column is asked so often, and whether there is one.
fn handed_out(alloc: Global, asked: &[u32]) -> Result<(usize, bool), FileError> {
    let columns = read(alloc, &WORKED, asked, Unknown::Refused)?;
    let some = !columns.is_empty();
    Ok((columns.into_vec().len(), some))
}

#[test]
fn columns_are_handed_out(rt: HostRuntime) {
    assert!(rt; handed_out(rt.alloc(), &[0, 0]) == Ok((2, true)));
    assert!(rt; handed_out(rt.alloc(), &[]) == Ok((0, false)));
}

// Columns that are asked, of which one is not there.
const ABSENT: [(&[u32], u32); 3] = [(&[1], 1), (&[0, 1], 1), (&[u32::MAX], u32::MAX)];

#[test]
fn a_column_may_not_be_there(rt: HostRuntime) {
    for (asked, column) in &ABSENT {
        let refused = read(rt.alloc(), &WORKED, asked, Unknown::Refused).err();
        assert!(rt; refused == Some(FileError::NoColumn(*column)), "{asked:?}");
    }
}
