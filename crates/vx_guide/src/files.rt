//! The table as a column file: it is written, and two of its columns are loaded.

use anyhow::Result;
use duriancards::file::{ColumnFile, Columns, MemRanges, Selection, write_file};
use duriancards::prelude::{Array, VortexSession};
use std::alloc::Global;

// The third column of a file, and the first.
fn lines_and_people(
    alloc: Global,
    ranges: &mut MemRanges,
    session: &VortexSession,
) -> Result<Columns> {
    let mut asked = Selection::new(alloc);
    asked.push(2)?;
    asked.push(0)?;
    let file = ColumnFile::load(alloc, ranges, &session.ext)?;
    Ok(file.select(alloc, ranges, &asked, session)?)
}

// Prints the encoding of each column and its number of rows.
fn print_columns(rt: &impl Print, columns: &Columns) -> Result<()> {
    for column in columns.as_slice() {
        let (id, len) = (column.encoding_id(), column.len());
        rt.println(format_args!("{id}: {len} rows"))?;
    }
    Ok(())
}

/// Writes a table as a column file, and prints two of its columns and how many bytes were loaded for them.
pub fn tell_file(
    rt: &impl Print,
    alloc: Global,
    table: &Array,
    session: &VortexSession,
) -> Result<()> {
    let bytes = write_file(alloc, table, session)?;
    let size = bytes.len();
    let mut ranges = MemRanges::new(alloc, bytes);
    let columns = lines_and_people(alloc, &mut ranges, session)?;
    print_columns(rt, &columns)?;
    rt.println(format_args!("{} of {size} bytes loaded", ranges.taken()))?;
    Ok(())
}
