//! The text of a row's value.

ghost use Rattle.std.specs.Prelude.{◌≡◌, ◌++◌, IfOk, OnOk, option_map, string_bytes, if◌then◌else◌};
ghost use Rattle.vx_trees.specs.Rose.{end, more, node, roses_of};
ghost use Rattle.vx_types.specs.Fits.{bare, member};
ghost use Rattle.vx_types.specs.Seen.{typ, typs};
ghost use Rattle.vx_types.specs.Value.{tuple, union, variant_of};
ghost use Rattle.vx_rows.specs.Plain.{plain_value, plain_values};
ghost use Rattle.vx_scalars.specs.Decimals.{decimal_of};
ghost use Rattle.vxcat_store.specs.RowText.{bytes_text, decimal_text, each_text, entry_text, entry_texts, further_text, hex_text, member_under, number_text, parted, texts_by, value_text};

use std::alloc::{AllocError, Global};
use vx_arrays::RowValue;
use vx_scalars::{DecimalValue, Scalar, bare_dtype};
use vx_types::{DType, MapDType, PValue};

/// The text of a row's value, for a row of this type: `null`, `true`, `false`, an integer in decimal, a float's bits as
/// `0x` and hex digits, a decimal's unscaled integer, a text or bytes as hex digits after an `x`, or `?` where nothing
/// is known of the row; and for values with values in them `[a, b]` for lists, `{a, b}` for structures, `{k=>v, k=>v}`
/// for maps, `#5(a)` for unions and `v(a)` for variants. The texts are this project's own.
///
/// # Errors
/// Allocation failure.
#[cycle(text)]
pub fn row_text(alloc: Global, value: &RowValue, dtype: &DType) -> Result<String, AllocError>
    ensures { IfOk result (λ text. string_bytes text ≡ value_text (plain_value value.now) (typ dtype.now)) }
{
    match value {
        RowValue::Null => String::from_str(alloc, "null"),
        RowValue::Opaque => String::from_str(alloc, "?"),
        RowValue::Bool(true) => String::from_str(alloc, "true"),
        RowValue::Bool(false) => String::from_str(alloc, "false"),
        RowValue::Primitive(number) => number_text(alloc, number),
        RowValue::Decimal(decimal) => decimal_text(alloc, decimal),
        RowValue::Utf8(text) => bytes_text(alloc, text.as_str().as_bytes()),
        RowValue::Binary(bytes) => bytes_text(alloc, bytes.as_slice()),
        RowValue::Tuple(values) => tuple_text(alloc, values.as_slice(), dtype),
        RowValue::Union(tag, row) => union_text(alloc, *tag, row.get(), dtype),
        RowValue::Variant(scalar) => variant_text(alloc, scalar),
    }
}

// The text of a tuple, by its type.
#[cycle(text)]
fn tuple_text(alloc: Global, values: &[RowValue], dtype: &DType) -> Result<String, AllocError>
    ensures { IfOk result (λ text. string_bytes text ≡ value_text (node tuple (roses_of (plain_values values.now))) (typ dtype.now)) }
{
    match bare_dtype(dtype) {
        DType::List(element, _) | DType::FixedSizeList(element, _, _) => {
            let texts = texts_of_one(alloc, values, element.get())?;
            format!(in alloc; "[{texts}]")
        }
        DType::Struct(fields, _) => {
            let texts = texts_by(alloc, values, fields.fields().as_slice())?;
            format!(in alloc; "{{{texts}}}")
        }
        DType::Map(map, _) => {
            let texts = entry_texts(alloc, values, map)?;
            format!(in alloc; "{{{texts}}}")
        }
        _ => String::from_str(alloc, "?"),
    }
}

// The text of a union, by its type: its tag, and the text of the row of the member with this tag.
#[cycle(text)]
fn union_text(alloc: Global, tag: u8, row: &RowValue, dtype: &DType) -> Result<String, AllocError>
    ensures { IfOk result (λ text. string_bytes text ≡ value_text (node (union tag) (more (plain_value row.now) end)) (typ dtype.now)) }
{
    match member_type(tag, dtype) {
        Some(member) => {
            let text = row_text(alloc, row, member)?;
            format!(in alloc; "#{tag}({text})")
        }
        None => format!(in alloc; "#{tag}()"),
    }
}

// The text of a variant: that of its value, by the type of the value.
#[cycle(text)]
fn variant_text(alloc: Global, scalar: &Scalar) -> Result<String, AllocError>
    ensures { IfOk result (λ text. string_bytes text ≡ value_text (variant_of scalar.now.dtype scalar.now.value) scalar.now.dtype) }
{
    let value = value_of(alloc, scalar)?;
    let text = text_of(alloc, value, scalar.dtype())?;
    format!(in alloc; "v({text})")
}

// The text of a row's value, which is dropped.
#[cycle(text)]
fn text_of(alloc: Global, value: RowValue, dtype: &DType) -> Result<String, AllocError>
    ensures { IfOk result (λ text. string_bytes text ≡ value_text (plain_value value) (typ dtype.now)) }
{
    let text = row_text(alloc, &value, dtype);
    drop(value);
    text
}

// A scalar's value as a row's.
fn value_of(alloc: Global, scalar: &Scalar) -> Result<RowValue, AllocError>
    ensures { IfOk result (λ value. plain_value value ≡ scalar.now.value) }
{
    match RowValue::of_value(alloc, scalar.value()) {
        Ok(value) => Ok(value),
        Err(_) => Err(AllocError),
    }
}

// The type of the member with a tag, of a type that is stored as unions.
fn member_type(tag: u8, dtype: &DType) -> Option<&DType>
    ensures { option_map (λ d. typ d.now) result ≡ member_under tag (bare (typ dtype.now)) }
{
    match bare_dtype(dtype) {
        DType::Union(members, _) => {
            named(
                tag,
                members.type_ids().as_slice(),
                members.variants().as_slice(),
            )
        }
        _ => None,
    }
}

// The type beside a tag, among types that stand beside tags.
#[tactic(auto, using(crate::proofs::UnionTexts::naming))]
fn named<'a>(tag: u8, ids: &[u8], dtypes: &'a [DType]) -> Option<&'a DType>
    ensures { option_map (λ d. typ d.now) result ≡ member tag ids.now (roses_of (typs dtypes.now)) }
{
    for i in 0..ids.len().min(dtypes.len()) {
        if ids[i] == tag {
            return Some(&dtypes[i]);
        }
    }
    None
}

// Appends a text, after a comma and a space unless it is the first.
fn add_text(texts: &mut String, text: &str, first: bool) -> Result<(), AllocError>
    ensures { OnOk result (string_bytes texts.new ≡ string_bytes texts.old ++ (if first then text.now else further_text text.now)) }
{
    if first {
        return texts.push_str(text);
    }
    texts.push_str(", ")?;
    texts.push_str(text)
}

// The texts of values of one type, with a comma and a space between them.
#[cycle(text)]
fn texts_of_one(alloc: Global, values: &[RowValue], dtype: &DType) -> Result<String, AllocError>
    ensures { IfOk result (λ texts. string_bytes texts ≡ parted (each_text (roses_of (plain_values values.now)) (typ dtype.now))) }
{
    let mut texts = String::new(alloc);
    for i in 0..values.len() {
        let text = row_text(alloc, &values[i], dtype)?;
        add_text(&mut texts, text.as_str(), i == 0)?;
    }
    Ok(texts)
}

// The texts of values, each by its type, with a comma and a space between them.
#[cycle(text)]
fn texts_by(alloc: Global, values: &[RowValue], dtypes: &[DType]) -> Result<String, AllocError>
    ensures { IfOk result (λ texts. string_bytes texts ≡ parted (texts_by (roses_of (plain_values values.now)) (roses_of (typs dtypes.now)))) }
{
    let mut texts = String::new(alloc);
    for i in 0..values.len().min(dtypes.len()) {
        let text = row_text(alloc, &values[i], &dtypes[i])?;
        add_text(&mut texts, text.as_str(), i == 0)?;
    }
    Ok(texts)
}

// The texts of a map's entries, with a comma and a space between them.
#[cycle(text)]
fn entry_texts(alloc: Global, values: &[RowValue], map: &MapDType) -> Result<String, AllocError>
    ensures { IfOk result (λ texts. string_bytes texts ≡ parted (entry_texts (roses_of (plain_values values.now)) map.now.key map.now.value)) }
{
    let mut texts = String::new(alloc);
    for i in 0..values.len() {
        let text = entry_text(alloc, &values[i], map)?;
        add_text(&mut texts, text.as_str(), i == 0)?;
    }
    Ok(texts)
}

// The text of an entry: its key's and its value's. An entry of which nothing is known is `?`.
#[cycle(text)]
fn entry_text(alloc: Global, value: &RowValue, map: &MapDType) -> Result<String, AllocError>
    ensures { IfOk result (λ text. string_bytes text ≡ entry_text (plain_value value.now) map.now.key map.now.value) }
{
    match value {
        RowValue::Tuple(parts) => {
            let parts = parts.as_slice();
            if parts.len() != 2 {
                return String::from_str(alloc, "?");
            }
            let key = row_text(alloc, &parts[0], map.key_dtype())?;
            let value = row_text(alloc, &parts[1], map.value_dtype())?;
            format!(in alloc; "{key}=>{value}")
        }
        _ => String::from_str(alloc, "?"),
    }
}

fn number_text(alloc: Global, number: &PValue) -> Result<String, AllocError>
    ensures { IfOk result (λ text. string_bytes text ≡ number_text number.now) }
{
    match *number {
        PValue::U8(n) => format!(in alloc; "{n}"),
        PValue::U16(n) => format!(in alloc; "{n}"),
        PValue::U32(n) => format!(in alloc; "{n}"),
        PValue::U64(n) => format!(in alloc; "{n}"),
        PValue::I8(n) => format!(in alloc; "{n}"),
        PValue::I16(n) => format!(in alloc; "{n}"),
        PValue::I32(n) => format!(in alloc; "{n}"),
        PValue::I64(n) => format!(in alloc; "{n}"),
        PValue::F16(bits) => hex_text(alloc, bits.to_be_bytes().as_slice()),
        PValue::F32(bits) => hex_text(alloc, bits.to_be_bytes().as_slice()),
        PValue::F64(bits) => hex_text(alloc, bits.to_be_bytes().as_slice()),
    }
}

// A decimal's unscaled integer in decimal; of the widest kind its bytes as hex digits, from the highest.
fn decimal_text(alloc: Global, decimal: &DecimalValue) -> Result<String, AllocError>
    ensures { IfOk result (λ text. string_bytes text ≡ decimal_text (decimal_of decimal.now)) }
{
    match *decimal {
        DecimalValue::I8(n) => format!(in alloc; "{n}"),
        DecimalValue::I16(n) => format!(in alloc; "{n}"),
        DecimalValue::I32(n) => format!(in alloc; "{n}"),
        DecimalValue::I64(n) => format!(in alloc; "{n}"),
        DecimalValue::I128(n) => format!(in alloc; "{n}"),
        DecimalValue::I256(bytes) => {
            let mut highest_first = bytes;
            highest_first.as_mut_slice().reverse();
            hex_text(alloc, highest_first.as_slice())
        }
    }
}

// A text's bytes, or bytes, as hex digits after an `x`.
fn bytes_text(alloc: Global, bytes: &[u8]) -> Result<String, AllocError>
    ensures { IfOk result (λ text. string_bytes text ≡ bytes_text bytes.now) }
{
    let digits = hex::encode(alloc, bytes)?;
    format!(in alloc; "x{digits}")
}

// Bytes as hex digits after `0x`.
fn hex_text(alloc: Global, bytes: &[u8]) -> Result<String, AllocError>
    ensures { IfOk result (λ text. string_bytes text ≡ hex_text bytes.now) }
{
    let digits = hex::encode(alloc, bytes)?;
    format!(in alloc; "0x{digits}")
}
