//! Files that are made by their parts.

use crate::bytes::WORKED;
use crate::tables::{Table, made};
use std::alloc::{AllocError, Global};
use vx_file::FileError;
use vx_test_arrays::parts::Made;
use vx_type_wire::DTypeExt;
use vx_types::DType;

/// What a footer tells.
#[derive(Clone, Copy, Debug)]
pub(crate) struct Parts<'a> {
    pub(crate) rows: u64,
    pub(crate) ranges: &'a [(u64, u64)],
    pub(crate) ids: &'a [&'a str],
    /// How many empty identifiers come before those.
    pub(crate) empty_ids: usize,
    /// An array of the type.
    pub(crate) kind: Table,
}

/// The parts of the worked file.
pub(crate) const ONE: Parts<'static> = Parts {
    rows: 4,
    ranges: &[(4, 172)],
    ids: &["vortex.primitive"],
    empty_ids: 0,
    kind: Table::One,
};

/// The blob of the worked file.
pub(crate) fn blob() -> &'static [u8] {
    &WORKED[4..176]
}

// Appends the four lower bytes of a number.
fn push_count(out: &mut Vec<u8>, count: usize) -> Result<(), AllocError> {
    out.extend_from_slice(&count.to_le_bytes()[..4])
}

// Appends ranges after their count.
fn push_ranges(out: &mut Vec<u8>, ranges: &[(u64, u64)]) -> Result<(), AllocError> {
    push_count(out, ranges.len())?;
    for (start, len) in ranges {
        out.extend_from_slice(&start.to_le_bytes())?;
        out.extend_from_slice(&len.to_le_bytes())?;
    }
    Ok(())
}

// Appends as many empty identifiers, and these, after their count.
fn push_ids(out: &mut Vec<u8>, empty: usize, ids: &[&str]) -> Result<(), AllocError> {
    push_count(out, empty.saturating_add(ids.len()))?;
    for _ in 0..empty {
        push_count(out, 0)?;
    }
    for id in ids {
        push_count(out, id.len())?;
        out.extend_from_slice(id.as_bytes())?;
    }
    Ok(())
}

// Appends a footer.
fn push_footer(out: &mut Vec<u8>, parts: &Parts<'_>, message: &[u8]) -> Result<(), AllocError> {
    out.extend_from_slice(&parts.rows.to_le_bytes())?;
    push_ranges(out, parts.ranges)?;
    push_ids(out, parts.empty_ids, parts.ids)?;
    push_count(out, message.len())?;
    out.extend_from_slice(message)
}

// A file of these bytes behind its first word, and of a footer with this message.
fn framed(
    alloc: Global,
    body: &[u8],
    parts: &Parts<'_>,
    message: &[u8],
) -> Result<Vec<u8>, AllocError> {
    let mut out = Vec::from_slice(alloc, b"VXCF")?;
    out.extend_from_slice(body)?;
    let start = out.len();
    push_footer(&mut out, parts, message)?;
    let footer = out.len().saturating_sub(start);
    push_count(&mut out, footer)?;
    out.extend_from_slice(b"VXCF")?;
    Ok(out)
}

// The same by the type.
fn of_type(
    alloc: Global,
    body: &[u8],
    parts: &Parts<'_>,
    dtype: &DType,
) -> Result<Vec<u8>, FileError> {
    match dtype.write_flatbuffer_bytes(alloc) {
        Ok(message) => Ok(framed(alloc, body, parts, message.as_slice())?),
        Err(_) => Err(FileError::OutOfMemory),
    }
}

// The same by an array of the type.
fn of_kind(
    alloc: Global,
    body: &[u8],
    parts: &Parts<'_>,
    kind: Made,
) -> Result<Vec<u8>, FileError> {
    match kind {
        Ok(kind) => of_type(alloc, body, parts, kind.dtype()),
        Err(_) => Err(FileError::OutOfMemory),
    }
}

/// A file of these bytes behind its first word, and of a footer that tells this.
pub(crate) fn file_of(alloc: Global, body: &[u8], parts: &Parts<'_>) -> Result<Vec<u8>, FileError> {
    of_kind(alloc, body, parts, made(alloc, parts.kind))
}
