//! What tests ask of arrays: the texts of their rows, the cells that these take, and why an array is refused.

ghost use Rattle.std.specs.Prelude.{◌≡◌, IfOk};
ghost use Rattle.vx_rows.specs.Plain.{plain_value};

use crate::parts::Made;
use std::alloc::{AllocError, Global};
use vx_arrays::{Array, ArrayError, RowValue};
use vx_scalars::Scalar;
use vx_types::PValue;

// The text of a value: a text is its own, lists, structs and maps are `[a, b]`, a union is `#5(a)`, and a variant
// `v(a)`.
#[cycle(text)]
fn text_of(alloc: Global, value: &RowValue) -> Result<String, AllocError> {
    match value {
        RowValue::Null => String::from_str(alloc, "null"),
        RowValue::Opaque => String::from_str(alloc, "?"),
        RowValue::Bool(flag) => format!(in alloc; "{flag}"),
        RowValue::Primitive(number) => number_text(alloc, number),
        RowValue::Decimal(_) => String::from_str(alloc, "decimal"),
        RowValue::Utf8(text) => String::from_str(alloc, text.as_str()),
        RowValue::Binary(_) => String::from_str(alloc, "bytes"),
        RowValue::Tuple(values) => {
            let texts = texts_of(alloc, values.as_slice())?;
            format!(in alloc; "[{texts}]")
        }
        RowValue::Union(tag, row) => {
            let text = text_of(alloc, row.get())?;
            format!(in alloc; "#{tag}({text})")
        }
        RowValue::Variant(scalar) => variant_text(alloc, scalar),
    }
}

// The text of a variant.
#[cycle(text)]
fn variant_text(alloc: Global, scalar: &Scalar) -> Result<String, AllocError> {
    let value = value_of(alloc, scalar)?;
    let text = text_of(alloc, &value);
    drop(value);
    let text = text?;
    format!(in alloc; "v({text})")
}

// A scalar's value as a row's.
fn value_of(alloc: Global, scalar: &Scalar) -> Result<RowValue, AllocError>
    ensures { IfOk result (λ value. plain_value value ≡ scalar.now.value) }
{
    match RowValue::of_value(alloc, scalar.value()) {
        Ok(value) => Ok(value),
        Err(_) => Err(AllocError),
    }
}

// The texts of values, with a comma and a space between them.
#[cycle(text)]
fn texts_of(alloc: Global, values: &[RowValue]) -> Result<String, AllocError> {
    let mut texts = String::new(alloc);
    for i in 0..values.len() {
        let text = text_of(alloc, &values[i])?;
        texts.push_str(if i == 0 { "" } else { ", " })?;
        texts.push_str(text.as_str())?;
    }
    Ok(texts)
}

// The text of a number: a float's is that of its bits.
fn number_text(alloc: Global, number: &PValue) -> Result<String, AllocError> {
    match *number {
        PValue::U8(n) => format!(in alloc; "{n}"),
        PValue::U16(n) | PValue::F16(n) => format!(in alloc; "{n}"),
        PValue::U32(n) | PValue::F32(n) => format!(in alloc; "{n}"),
        PValue::U64(n) | PValue::F64(n) => format!(in alloc; "{n}"),
        PValue::I8(n) => format!(in alloc; "{n}"),
        PValue::I16(n) => format!(in alloc; "{n}"),
        PValue::I32(n) => format!(in alloc; "{n}"),
        PValue::I64(n) => format!(in alloc; "{n}"),
    }
}

// The value of a row, with a budget of this many cells.
fn value_at(
    alloc: Global,
    array: &Array,
    index: usize,
    budget: u64,
) -> Result<RowValue, ArrayError> {
    if index >= array.len() {
        return Err(ArrayError::BadShape);
    }
    array.value_at(alloc, index, budget)
}

// Whether a value has this text.
fn has_text(alloc: Global, value: &RowValue, text: &str) -> bool {
    match text_of(alloc, value) {
        Ok(found) => found.as_str() == text,
        Err(_) => false,
    }
}

// Whether a row is valid or not.
fn is_there(array: &Array, index: usize, there: bool) -> bool {
    if index >= array.len() {
        return false;
    }
    array.is_valid(index) == Some(there)
}

// Whether a row has this text, and is valid unless that is null.
fn is_row(alloc: Global, array: &Array, index: usize, text: &str) -> bool {
    match value_at(alloc, array, index, 1_000) {
        Ok(value) => {
            let found = has_text(alloc, &value, text);
            drop(value);
            found && is_there(array, index, text != "null")
        }
        Err(_) => false,
    }
}

/// Whether the first rows of an array have these texts.
pub fn begins_with(alloc: Global, array: &Array, texts: &[&str]) -> bool {
    for i in 0..texts.len() {
        if !is_row(alloc, array, i, texts[i]) {
            return false;
        }
    }
    true
}

/// Whether the rows of an array, if it was made, have these texts.
pub fn has_rows(alloc: Global, array: Made, texts: &[&str]) -> bool {
    match array {
        Ok(array) => array.len() == texts.len() && begins_with(alloc, &array, texts),
        Err(_) => false,
    }
}

// The refusal of the first row of an array with a budget of cells, if it is refused.
fn refusal_at(alloc: Global, array: &Array, budget: u64) -> Option<ArrayError> {
    value_at(alloc, array, 0, budget).err()
}

/// The refusal of the first row of an array with a budget of cells, if it is refused.
pub fn row_refusal(alloc: Global, array: Made, budget: u64) -> Option<ArrayError> {
    match array {
        Ok(array) => refusal_at(alloc, &array, budget),
        Err(e) => Some(e),
    }
}

// Whether the first row of an array takes exactly this many cells.
fn first_takes(alloc: Global, array: &Array, cells: u64) -> bool {
    refusal_at(alloc, array, cells) == None
        && refusal_at(alloc, array, cells.saturating_sub(1)) == Some(ArrayError::ValueTooLarge)
}

/// Whether the first row of an array, if it was made, takes exactly this many cells.
pub fn takes(alloc: Global, array: Made, cells: u64) -> bool {
    match array {
        Ok(array) => first_takes(alloc, &array, cells),
        Err(_) => false,
    }
}

// Whether a node's slot at this index has this name.
fn is_slot(alloc: Global, array: &Array, index: usize, name: &str) -> bool {
    if index >= array.nslots() {
        return false;
    }
    match array.slot_name(alloc, index) {
        Ok(found) => found.as_str() == name,
        Err(_) => false,
    }
}

// Whether a node's slots have these names.
fn are_slots(alloc: Global, array: &Array, names: &[&str]) -> bool {
    for i in 0..names.len() {
        if !is_slot(alloc, array, i, names[i]) {
            return false;
        }
    }
    array.nslots() == names.len()
}

/// Whether the slots of an array, if it was made, have these names.
pub fn has_slots(alloc: Global, array: Made, names: &[&str]) -> bool {
    match array {
        Ok(array) => are_slots(alloc, &array, names),
        Err(_) => false,
    }
}
