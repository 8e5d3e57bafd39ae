//! The tables that are written.

use std::alloc::Global;
use vx_arrays::{Array, ArrayError};
use vx_scalars::{Precision, ScalarValue, Stat, StatsSet};
use vx_test_arrays::parts::{
    AllMade, Made, There, and, bytes, dicts, extensions, lists, none, numbers, one, structs, texts,
    two, unknown_bytes,
};
use vx_types::{PType, PValue, TypeError};

/// Tables, and arrays that are none.
#[derive(Clone, Copy, Debug)]
pub(crate) enum Table {
    /// Four rows of a number of four bytes: 1 to 4.
    One,
    /// The same, whose own statistics tell that no row is null.
    Told,
    /// The same, of a type that lets rows be null.
    OneOrNull,
    /// The same, of which the second row is null.
    SomeOne,
    /// Four rows of two such numbers: 1 to 4, and 5 to 8.
    Two,
    /// Four rows of five of the first of these.
    Five,
    /// Four rows of a number of one byte.
    Bytes,
    /// Three rows without a column.
    Empty,
    /// Three rows of a text, of which the last is null, a number of one byte, and a list of texts.
    Mixed,
    /// Three rows of an extension that is stored as a number.
    Extended,
    /// No row, of a number of an encoding that nothing reads.
    Foreign,
    /// A row of a number in lists: the column has this many levels.
    Deep(usize),
    /// Numbers, no table.
    Numbers,
    /// Extensions that are stored as the first table, no table.
    Stored,
    /// Codes of the rows of the first table, no table.
    Coded,
}

/// A table, or an array that is none.
pub(crate) fn made(alloc: Global, table: Table) -> Made {
    match table {
        Table::One => ones(alloc, There::Always),
        Table::Told => told(alloc, made_of_ones(alloc)),
        Table::OneOrNull => ones(alloc, There::All),
        Table::SomeOne => ones(alloc, There::Bits(0b1101)),
        Table::Two => table_of(alloc, pair(alloc), pair(alloc), 4),
        Table::Five => table_of(alloc, five(alloc), five(alloc), 4),
        Table::Bytes => one_column(alloc, four(alloc), four(alloc), 4),
        Table::Empty => table_of(alloc, none(alloc), none(alloc), 3),
        Table::Mixed => table_of(alloc, mixed(alloc), mixed(alloc), 3),
        Table::Extended => one_column(alloc, extended(alloc), extended(alloc), 3),
        Table::Foreign => one_column(alloc, bytes(alloc, &[]), unknown_bytes(alloc, 0), 0),
        Table::Deep(levels) => one_column(alloc, deep(alloc, levels), deep(alloc, levels), 1),
        Table::Numbers => first(alloc),
        Table::Stored => extensions(alloc, made_of_ones(alloc), made_of_ones(alloc)),
        Table::Coded => dicts(alloc, bytes(alloc, &[3, 0]), made_of_ones(alloc)),
    }
}

// The numbers 1 to 4.
fn first(alloc: Global) -> Made {
    let bytes = b"\x01\0\0\0\x02\0\0\0\x03\0\0\0\x04\0\0\0";
    numbers(alloc, PType::I32, bytes, There::Always)
}

// The numbers 5 to 8.
fn second(alloc: Global) -> Made {
    let bytes = b"\x05\0\0\0\x06\0\0\0\x07\0\0\0\x08\0\0\0";
    numbers(alloc, PType::I32, bytes, There::Always)
}

// Both.
fn pair(alloc: Global) -> AllMade {
    two(alloc, first(alloc), second(alloc))
}

// The first of them, five times.
fn five(alloc: Global) -> AllMade {
    let mut columns = none(alloc);
    for _ in 0..5 {
        columns = and(columns, first(alloc));
    }
    columns
}

// Four numbers of one byte.
fn four(alloc: Global) -> Made {
    bytes(alloc, &[1, 2, 3, 4])
}

// How many arrays there are, if they were made.
fn count_of(arrays: &AllMade) -> usize {
    match arrays {
        Ok(arrays) => arrays.len(),
        Err(_) => 0,
    }
}

// A table whose rows are not null, of at most five columns, named by letters: arrays of their types, and the columns.
fn table_of(alloc: Global, types: AllMade, columns: AllMade, len: usize) -> Made {
    let letters = ["a", "b", "c", "d", "e"];
    let names = &letters[..count_of(&types).min(5)];
    structs(alloc, names, types, columns, len, There::Always)
}

// The same of one column.
fn one_column(alloc: Global, kind: Made, column: Made, len: usize) -> Made {
    table_of(alloc, one(alloc, kind), one(alloc, column), len)
}

// Four rows of the first numbers.
fn ones(alloc: Global, there: There) -> Made {
    let types = one(alloc, first(alloc));
    structs(alloc, &["a"], types, one(alloc, first(alloc)), 4, there)
}

// A count of no nulls.
fn no_nulls(alloc: Global) -> Result<StatsSet, TypeError> {
    let mut stats = StatsSet::new(alloc);
    let count = ScalarValue::Primitive(PValue::U64(0));
    stats.set(Stat::NullCount, Precision::Exact(count))?;
    Ok(stats)
}

// An array with that count in its statistics.
fn counted(alloc: Global, array: &mut Array) -> Result<(), TypeError> {
    array.set_all(no_nulls(alloc)?)
}

// The same, if it was made.
fn told(alloc: Global, made: Made) -> Made {
    let mut array = made?;
    match counted(alloc, &mut array) {
        Ok(()) => Ok(array),
        Err(_) => Err(ArrayError::OutOfMemory),
    }
}

// The first table.
fn made_of_ones(alloc: Global) -> Made {
    ones(alloc, There::Always)
}

// Three texts, of which the last is null.
fn letters(alloc: Global) -> Made {
    texts(alloc, b"abc", There::Bits(0b011))
}

// Texts, numbers, and lists of texts.
fn mixed(alloc: Global) -> AllMade {
    let lists = lists(
        alloc,
        letters(alloc),
        bytes(alloc, &[0, 2, 2, 3]),
        There::Always,
    );
    and(two(alloc, letters(alloc), bytes(alloc, &[7, 8, 9])), lists)
}

// Three extensions.
fn extended(alloc: Global) -> Made {
    let kind = bytes(alloc, &[0]);
    extensions(alloc, kind, bytes(alloc, &[7, 8, 9]))
}

// A list of one value.
fn listed(alloc: Global, value: Made) -> Made {
    lists(alloc, value, bytes(alloc, &[0, 1]), There::Always)
}

// A number in lists, of this many levels.
fn deep(alloc: Global, levels: usize) -> Made {
    let mut value = bytes(alloc, &[7]);
    for _ in 1..levels {
        value = listed(alloc, value);
    }
    value
}
