//! The texts of scalars: `1` for a number of 32 bits, `7w` for one of 64, `v(a)` for a variant, `{a: 1, b: 2}` for a
//! struct, `[a, b]` for a list, and `null`.

use crate::scalars::Made;
use std::alloc::{AllocError, Global};
use vx_scalars::{Scalar, ScalarValue, bare_dtype};
use vx_types::{DType, Name, PValue};

// A text between two others.
fn between(alloc: Global, before: &str, text: &str, after: &str) -> Result<String, AllocError> {
    format!(in alloc; "{before}{text}{after}")
}

// Appends a text, after a comma and a space if it is not the first, and after its name if it has one.
fn push(texts: &mut String, name: Option<&Name>, text: &str) -> Result<(), AllocError> {
    if !texts.is_empty() {
        texts.push_str(", ")?;
    }
    if let Some(name) = name {
        texts.push_str(name.as_str())?;
        texts.push_str(": ")?;
    }
    texts.push_str(text)
}

// The text of a value of a type.
#[cycle(text)]
#[tactic(auto, using(vx_scalars::proofs::LawsOfLists::decreasing))]
fn text_of(
    alloc: Global,
    value: Option<&ScalarValue>,
    dtype: &DType,
) -> Result<String, AllocError> {
    let Some(value) = value else {
        return String::from_str(alloc, "null");
    };
    match value {
        ScalarValue::Bool(flag) => format!(in alloc; "{flag}"),
        ScalarValue::Primitive(PValue::I32(n)) => format!(in alloc; "{n}"),
        ScalarValue::Primitive(PValue::I64(n)) => format!(in alloc; "{n}w"),
        ScalarValue::Tuple(values) => tuple_text(alloc, values.as_slice(), dtype),
        ScalarValue::Variant(scalar) => {
            let inner = scalar.get();
            let text = text_of(alloc, inner.value(), inner.dtype())?;
            between(alloc, "v(", text.as_str(), ")")
        }
        _ => String::from_str(alloc, "other"),
    }
}

// The text of a tuple, by its type.
#[cycle(text)]
#[tactic(auto, using(vx_scalars::proofs::LawsOfLists::decreasing))]
fn tuple_text(
    alloc: Global,
    values: &[Option<ScalarValue>],
    dtype: &DType,
) -> Result<String, AllocError> {
    match bare_dtype(dtype) {
        DType::Struct(fields, _) => {
            let types = fields.fields().as_slice();
            let texts = field_texts(alloc, values, types, fields.names().as_slice())?;
            between(alloc, "{", texts.as_str(), "}")
        }
        DType::List(element, _) | DType::FixedSizeList(element, _, _) => {
            let texts = element_texts(alloc, values, element.get())?;
            between(alloc, "[", texts.as_str(), "]")
        }
        _ => String::from_str(alloc, "other"),
    }
}

// The texts of fields, each after its name, with a comma and a space between them.
#[cycle(text)]
#[tactic(auto, using(vx_scalars::proofs::LawsOfLists::decreasing))]
fn field_texts(
    alloc: Global,
    values: &[Option<ScalarValue>],
    types: &[DType],
    names: &[Name],
) -> Result<String, AllocError> {
    let mut texts = String::new(alloc);
    for i in 0..values.len().min(types.len()).min(names.len()) {
        let text = text_of(alloc, values[i].as_ref(), &types[i])?;
        push(&mut texts, Some(&names[i]), text.as_str())?;
    }
    Ok(texts)
}

// The texts of elements, with a comma and a space between them.
#[cycle(text)]
#[tactic(auto, using(vx_scalars::proofs::LawsOfLists::decreasing))]
fn element_texts(
    alloc: Global,
    values: &[Option<ScalarValue>],
    dtype: &DType,
) -> Result<String, AllocError> {
    let mut texts = String::new(alloc);
    for i in 0..values.len() {
        let text = text_of(alloc, values[i].as_ref(), dtype)?;
        push(&mut texts, None, text.as_str())?;
    }
    Ok(texts)
}

// Whether a scalar has this text.
fn has_text(alloc: Global, scalar: &Scalar, text: &str) -> bool {
    match text_of(alloc, scalar.value(), scalar.dtype()) {
        Ok(found) => found.as_str() == text,
        Err(_) => false,
    }
}

/// Whether a scalar, if it was made, has this text.
pub(crate) fn is_text(alloc: Global, scalar: Made, text: &str) -> bool {
    match scalar {
        Ok(scalar) => {
            let found = has_text(alloc, &scalar, text);
            drop(scalar);
            found
        }
        Err(_) => false,
    }
}
