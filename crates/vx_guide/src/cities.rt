//! A table of three cities: thousands of people, where that is known, the country, and the lines of its underground.

use crate::columns::{numbers_or_null, small_numbers, texts};
use anyhow::Result;
use duriancards::arrays::{DictArray, ListArray, StructArray};
use duriancards::dtype::{DTypes, Name, Names, StructFields};
use duriancards::prelude::{Array, Arrays, Nullability};
use std::alloc::Global;

// The population of the second city is not known: it is null.
fn people(alloc: Global) -> Result<Array> {
    numbers_or_null(alloc, &[3769, 0, 1897], 0b101)
}

// A dictionary: the rows name their country by its place among two texts.
fn countries(alloc: Global) -> Result<Array> {
    let codes = small_numbers(alloc, &[0, 1, 0])?;
    Ok(DictArray::try_new(alloc, codes, texts(alloc, "DEFR", &[0, 2, 4])?, true)?)
}

// The lines of all cities one after the other, and the offsets: where the lines of each city begin, and where the last
// end.
fn lines(alloc: Global) -> Result<Array> {
    let elements = small_numbers(alloc, &[1, 2, 7])?;
    let offsets = small_numbers(alloc, &[0, 2, 2, 3])?;
    Ok(ListArray::try_new(alloc, elements, offsets, Nullability::NonNullable, None)?)
}

fn columns(alloc: Global) -> Result<Arrays> {
    let mut columns = Arrays::new(alloc);
    columns.push(people(alloc)?)?;
    columns.push(countries(alloc)?)?;
    columns.push(lines(alloc)?)?;
    Ok(columns)
}

fn names(alloc: Global) -> Result<Names> {
    let mut names = Names::new(alloc);
    for name in ["people", "country", "lines"] {
        names.push(Name::new(alloc, name)?)?;
    }
    Ok(names)
}

// The type of each column.
fn types(alloc: Global, columns: &Arrays) -> Result<DTypes> {
    let mut types = DTypes::new(alloc);
    for column in columns.as_slice() {
        types.push(column.dtype().clone(alloc)?)?;
    }
    Ok(types)
}

/// The table: structures of three fields.
pub fn cities(alloc: Global) -> Result<Array> {
    let columns = columns(alloc)?;
    let fields = StructFields::try_new(names(alloc)?, types(alloc, &columns)?)?;
    Ok(StructArray::try_new(alloc, fields, Nullability::NonNullable, columns, 3, None)?)
}
