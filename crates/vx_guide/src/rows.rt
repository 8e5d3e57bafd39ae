//! Rows of the table as lines of text.

use anyhow::Result;
use duriancards::arrays::RowValues;
use duriancards::dtype::PValue;
use duriancards::prelude::{Array, RowValue};
use std::alloc::{AllocError, Global};

// The budget of a row: the most values that it may take, the values in its values counted too.
const BUDGET: u64 = 100;

// A number.
fn number(alloc: Global, value: PValue) -> Result<String, AllocError> {
    match value {
        PValue::I32(number) => format!(in alloc; "{number}"),
        PValue::U8(number) => format!(in alloc; "{number}"),
        other => format!(in alloc; "{other:?}"),
    }
}

// A value that has no parts of its own.
fn plain(alloc: Global, value: &RowValue) -> Result<String, AllocError> {
    match value {
        RowValue::Null => format!(in alloc; "null"),
        RowValue::Primitive(value) => number(alloc, *value),
        RowValue::Utf8(text) => format!(in alloc; "{}", text.as_str()),
        other => format!(in alloc; "{other:?}"),
    }
}

// The elements of a list, in brackets.
fn list(alloc: Global, elements: &RowValues) -> Result<String, AllocError> {
    let mut text = format!(in alloc; "[")?;
    for element in elements.as_slice() {
        let element = plain(alloc, element)?;
        write!(text, " {}", element.as_str())?;
    }
    text.push_str(" ]")?;
    Ok(text)
}

// A field of a row.
fn field(alloc: Global, value: &RowValue) -> Result<String, AllocError> {
    match value {
        RowValue::Tuple(elements) => list(alloc, elements),
        other => plain(alloc, other),
    }
}

// A row: its fields, one after the other.
fn row(alloc: Global, value: &RowValue) -> Result<String, AllocError> {
    let RowValue::Tuple(fields) = value else {
        return plain(alloc, value);
    };
    let mut text = String::new(alloc);
    for value in fields.as_slice() {
        let value = field(alloc, value)?;
        write!(text, " {}", value.as_str())?;
    }
    Ok(text)
}

/// Prints each row of an array.
pub fn print_rows(rt: &impl Print, alloc: Global, array: &Array) -> Result<()> {
    for i in 0..array.len() {
        let value = array.value_at(alloc, i, BUDGET)?;
        let text = row(alloc, &value)?;
        rt.println(format_args!("{i}:{}", text.as_str()))?;
    }
    Ok(())
}
