//! Tables of few rows, compared with what another program drew.

use std::alloc::Global;
use vx_arrays::RowValue;
use vx_generator::{GeneratorError, Table, generate};
use vx_types::PValue;

// The table of a seed, of at most a million rows.
fn table(alloc: Global, seed: u64, rows: usize) -> Option<Table> {
    if rows > 1000000 {
        return None;
    }
    generate(alloc, seed, rows).ok()
}

// The value of one of its rows.
fn row_of(alloc: Global, table: &Table, index: usize) -> Option<RowValue> {
    if index >= table.array.len() {
        return None;
    }
    table.array.value_at(alloc, index, 1000).ok()
}

// Whether a value is this number, or null where there is none.
fn is_number(value: &RowValue, number: Option<i64>) -> bool {
    match (value, number) {
        (RowValue::Primitive(found), Some(number)) => *found == PValue::I64(number),
        (RowValue::Null, None) => true,
        _ => false,
    }
}

// Whether values are these numbers.
fn are_elements(values: &[RowValue], elements: &[u16]) -> bool {
    if values.len() != elements.len() {
        return false;
    }
    for i in 0..elements.len() {
        match &values[i] {
            RowValue::Primitive(found) => {
                if *found != PValue::U16(elements[i]) {
                    return false;
                }
            }
            _ => return false,
        }
    }
    true
}

// Whether a row holds this number, this text and this list.
fn holds(row: &RowValue, number: Option<i64>, name: &str, elements: &[u16]) -> bool {
    match row {
        RowValue::Tuple(fields) => match fields.as_slice() {
            [found, RowValue::Utf8(text), RowValue::Tuple(list)] => {
                is_number(found, number)
                    && text.as_str() == name
                    && are_elements(list.as_slice(), elements)
            }
            _ => false,
        },
        _ => false,
    }
}

// Whether a row of a table holds this number, this text and this list.
fn row_holds(
    alloc: Global,
    table: &Table,
    index: usize,
    number: Option<i64>,
    name: &str,
    elements: &[u16],
) -> bool {
    match row_of(alloc, table, index) {
        Some(row) => {
            let told = holds(&row, number, name, elements);
            drop(row);
            told
        }
        None => false,
    }
}

// The same for a row of the table of a seed.
fn tells(
    alloc: Global,
    source: (u64, usize, usize),
    number: Option<i64>,
    name: &str,
    elements: &[u16],
) -> bool {
    let (seed, rows, index) = source;
    match table(alloc, seed, rows) {
        Some(table) => {
            let told = row_holds(alloc, &table, index, number, name, elements);
            drop(table);
            told
        }
        None => false,
    }
}

#[test]
fn the_first_row_of_the_seed_0(rt: HostRuntime) {
    let alloc = rt.alloc();
    let name = "a long name of a tree";
    assert!(rt; tells(alloc, (0, 1, 0), Some(-905790017), name, &[3444]));
}

#[test]
fn rows_follow_one_another(rt: HostRuntime) {
    let alloc = rt.alloc();
    let few = [63072, 38736, 46865];
    assert!(rt; tells(alloc, (7, 20, 19), Some(-872854090), "cedar", &few));
    assert!(rt; tells(alloc, (7, 1000, 999), Some(902589327), "birch", &[2881]));
}

#[test]
fn a_number_may_be_null(rt: HostRuntime) {
    let alloc = rt.alloc();
    let few = [39090, 60560, 64858];
    assert!(rt; tells(alloc, (u64::MAX, 3, 2), None, "cedar", &few));
}

// A seed, the number of rows of its table, and the total length of the table's buffers.
const SIZES: [(u64, usize, u64); 5] = [
    (0, 1, 121),
    (7, 0, 105),
    (7, 20, 418),
    (7, 1000, 16254),
    (u64::MAX, 3, 155),
];

// The number of a table's rows, and the total length of its buffers.
fn sizes_of(table: &Table) -> (usize, u64) {
    (table.array.len(), table.data_len)
}

// The same for the table of a seed.
fn sizes(alloc: Global, seed: u64, rows: usize) -> Option<(usize, u64)> {
    match table(alloc, seed, rows) {
        Some(table) => {
            let sizes = sizes_of(&table);
            drop(table);
            Some(sizes)
        }
        None => None,
    }
}

#[test]
fn the_bytes_of_the_buffers_are_counted(rt: HostRuntime) {
    let alloc = rt.alloc();
    for (seed, rows, size) in &SIZES {
        let found = sizes(alloc, *seed, *rows);
        assert!(rt; found == Some((*rows, *size)), "{seed} {rows}");
    }
}

// Whether a table is equal to that of another seed.
fn is_of(alloc: Global, table: &Table, seed: u64) -> Option<bool> {
    match hundred(alloc, seed) {
        Some(other) => {
            let same = table.array.array_eq(&other.array);
            drop(other);
            Some(same)
        }
        None => None,
    }
}

// The table of 100 rows of a seed.
fn hundred(alloc: Global, seed: u64) -> Option<Table> {
    table(alloc, seed, 100)
}

// Whether the tables of two seeds are equal.
fn are_equal(alloc: Global, one: u64, other: u64) -> Option<bool> {
    match hundred(alloc, one) {
        Some(table) => {
            let same = is_of(alloc, &table, other);
            drop(table);
            same
        }
        None => None,
    }
}

#[test]
fn a_seed_tells_one_table(rt: HostRuntime) {
    let alloc = rt.alloc();
    assert!(rt; are_equal(alloc, 7, 7) == Some(true));
    assert!(rt; are_equal(alloc, 7, 8) == Some(false));
}

// Whether a refusal has this text.
fn is_text(alloc: Global, error: GeneratorError, text: &str) -> bool {
    match format!(in alloc; "{error}") {
        Ok(printed) => printed.as_str() == text,
        Err(_) => false,
    }
}

#[test]
fn the_text_of_the_refusal(rt: HostRuntime) {
    assert!(rt; is_text(rt.alloc(), GeneratorError::OutOfMemory, "out of memory"));
}
