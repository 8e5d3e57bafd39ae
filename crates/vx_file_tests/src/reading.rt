//! Files written, loaded, and selected from.

use crate::tables::{Table, made};
use std::alloc::{AllocError, Global};
use vx_arrays::{Array, ArrayError};
use vx_file::{
    ColumnFile, Columns, FileError, MemRanges, Ranges, RangesError, Selection, write_file,
};
use vx_registry::{ArraySession, VortexSession};
use vx_test_arrays::parts::Made;
use vx_test_arrays::rows::begins_with;
use vx_type_wire::ExtSession;
use vx_types::Blob;

/// Which nodes and extensions a session takes, beside those of the shipped encodings.
#[derive(Clone, Copy, Debug, PartialEq, Eq)]
pub(crate) enum Unknown {
    /// None.
    Refused,
    /// All.
    Kept,
}

// A session of the shipped encodings, without readers of extensions.
fn shipped(alloc: Global) -> Result<VortexSession, FileError> {
    match ArraySession::default(alloc) {
        Ok(arrays) => Ok(VortexSession::new(arrays, ExtSession::new(alloc))),
        Err(_) => Err(FileError::OutOfMemory),
    }
}

// The same, in which nodes that nothing reads are kept.
fn keeping(alloc: Global) -> Result<VortexSession, FileError> {
    let mut session = shipped(alloc)?;
    session.ext.allow_unknown();
    Ok(session)
}

/// A session of the shipped encodings, without readers of extensions.
pub(crate) fn session_of(alloc: Global, unknown: Unknown) -> Result<VortexSession, FileError> {
    match unknown {
        Unknown::Refused => shipped(alloc),
        Unknown::Kept => keeping(alloc),
    }
}

// An array, if it was made.
fn array_of(table: Made) -> Result<Array, FileError> {
    match table {
        Ok(array) => Ok(array),
        Err(ArrayError::OutOfMemory) => Err(FileError::OutOfMemory),
        Err(_) => Err(FileError::BadType),
    }
}

/// The file of an array, under a session.
pub(crate) fn written_under(
    alloc: Global,
    table: Made,
    session: &VortexSession,
) -> Result<Blob, FileError> {
    let array = array_of(table)?;
    write_file(alloc, &array, session)
}

/// The file of an array.
pub(crate) fn written(alloc: Global, table: Table, unknown: Unknown) -> Result<Blob, FileError> {
    let session = session_of(alloc, unknown)?;
    written_under(alloc, made(alloc, table), &session)
}

/// Bytes as a file.
pub(crate) fn ranges_of(alloc: Global, bytes: &[u8]) -> Result<MemRanges, FileError> {
    match Blob::copy_from(alloc, bytes) {
        Ok(blob) => Ok(MemRanges::new(alloc, blob)),
        Err(_) => Err(FileError::OutOfMemory),
    }
}

/// The same, of which one load fails.
pub(crate) fn failing(alloc: Global, bytes: &[u8], call: u64) -> Result<MemRanges, FileError> {
    let mut ranges = ranges_of(alloc, bytes)?;
    match ranges.fail_call(call) {
        Ok(()) => Ok(ranges),
        Err(RangesError::OutOfMemory) => Err(FileError::OutOfMemory),
        Err(RangesError::Failed) => Err(FileError::StoreFault),
    }
}

/// These columns, in this order.
pub(crate) fn selection_of(alloc: Global, asked: &[u32]) -> Result<Selection, AllocError> {
    let mut selection = Selection::new(alloc);
    for column in asked {
        selection.push(*column)?;
    }
    Ok(selection)
}

/// The columns of a file that is loaded.
pub(crate) fn selected<R: Ranges>(
    alloc: Global,
    ranges: &mut R,
    selection: &Selection,
    session: &VortexSession,
) -> Result<Columns, FileError> {
    let file = ColumnFile::load(alloc, ranges, &session.ext)?;
    file.select(alloc, ranges, selection, session)
}

/// The same, by their numbers.
pub(crate) fn picked(
    alloc: Global,
    ranges: &mut MemRanges,
    asked: &[u32],
    unknown: Unknown,
) -> Result<Columns, FileError> {
    let selection = selection_of(alloc, asked)?;
    let session = session_of(alloc, unknown)?;
    selected(alloc, ranges, &selection, &session)
}

/// Columns of a file by its bytes.
pub(crate) fn read(
    alloc: Global,
    bytes: &[u8],
    asked: &[u32],
    unknown: Unknown,
) -> Result<Columns, FileError> {
    let mut ranges = ranges_of(alloc, bytes)?;
    picked(alloc, &mut ranges, asked, unknown)
}

/// Why a file is not loaded, if it is not.
pub(crate) fn unloaded(alloc: Global, bytes: &[u8], unknown: Unknown) -> Option<FileError> {
    read(alloc, bytes, &[], unknown).err()
}

/// The texts of the rows of columns.
pub(crate) type Texts<'a> = &'a [&'a [&'a str]];

// Whether these are the rows of a column.
fn has_texts(alloc: Global, column: &Array, texts: &[&str]) -> bool {
    column.len() == texts.len() && begins_with(alloc, column, texts)
}

/// Whether these are the rows of columns.
pub(crate) fn have_texts(alloc: Global, columns: &Columns, texts: Texts<'_>) -> bool {
    if columns.len() != texts.len() {
        return false;
    }
    for (column, texts) in columns.as_slice().iter().zip(texts) {
        if !has_texts(alloc, column, texts) {
            return false;
        }
    }
    true
}

/// Whether columns of a file by its bytes have these rows, or are refused so.
pub(crate) fn is_read(
    alloc: Global,
    bytes: &[u8],
    asked: &[u32],
    unknown: Unknown,
    want: &Result<Texts<'_>, FileError>,
) -> bool {
    match read(alloc, bytes, asked, unknown) {
        Ok(columns) => match want {
            Ok(texts) => have_texts(alloc, &columns, texts),
            Err(_) => false,
        },
        Err(e) => *want == Err(e),
    }
}
