//! Column files: tables written, loaded, and selected from by columns.

pub use vx_file::{
    ColumnFile, ColumnRange, Columns, FileError, MemRanges, Ranges, RangesError, Selection,
    write_file,
};
