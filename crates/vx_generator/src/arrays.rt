//! The arrays of a generated table.

ghost use Rattle.std.specs.Prelude.{◌≡◌, ◌+◌, ◌<◌, ◌≤◌, IfOk, None, Some};
ghost use Rattle.vx_trees.specs.Rose.{node};
ghost use Rattle.vx_array_tree.specs.Body as B;
ghost use Rattle.vx_array_tree.specs.Tree.{untold};
ghost use Rattle.vx_array_tree.specs.Sound.{IsSound};
ghost use Rattle.vx_arrays.specs.Primitives.{primitive_tree};
ghost use Rattle.vx_arrays.specs.Refused.{IsOkOrMemory};
ghost use Rattle.vx_types.specs.declared.nullability.Nullability.TheVariants.{NonNullable};
ghost use Rattle.vx_generator.specs.Made.{buffer, flags_tree, lists_tree, made_type, names_tree, numbers_tree, table_tree, texts_tree};

use crate::columns::Columns;
use crate::fields::fields_of;
use std::alloc::Global;
use vx_arrays::{
    Array, ArrayError, Arrays, BoolArray, DictArray, ListArray, PrimitiveArray, StructArray,
    VarBinViewArray,
};
use vx_buffer::{Alignment, BufferHandle, ByteBuffer};
use vx_types::{DType, Nullability, PType, TypeError};

// The one text that is too long to stand in its view.
const LONG_TEXT: &[u8; 21] = b"a long name of a tree";

// The views of the five texts.
const VIEWS: &[u8; 80] =
    b"\x03\0\0\0ash\0\0\0\0\0\0\0\0\0\x05\0\0\0birch\0\0\0\0\0\0\0\x05\0\0\0cedar\0\0\0\0\0\0\0\x03\0\0\0oak\0\0\0\0\0\0\0\0\0\x15\0\0\0a lo\0\0\0\0\0\0\0\0";

/// The table of these columns, with `rows` rows.
pub(crate) fn table_of(alloc: Global, columns: Columns, rows: usize) -> Result<Array, ArrayError>
    requires few { rows ≤ 1000000 }
    requires sound { IsSound (table_tree columns rows) }
    ensures ok { IfOk result (λ a. a ≡ table_tree columns rows) }
    ensures err { IsOkOrMemory result }
{
    let mut fields = Arrays::new(alloc);
    fields.push(numbers_of(alloc, columns.numbers, columns.validity, rows)?)?;
    fields.push(names_of(alloc, columns.codes, rows)?)?;
    let count = columns.count as usize;
    fields.push(lists_of(alloc, columns.elements, count, columns.offsets, rows)?)?;
    over_fields(alloc, fields, rows)
}

// The table over its fields.
fn over_fields(alloc: Global, fields: Arrays, rows: usize) -> Result<Array, ArrayError>
    requires { IsSound (node (untold made_type rows B.struct) fields) }
    ensures ok { IfOk result (λ a. a ≡ node (untold made_type rows B.struct) fields) }
    ensures err { IsOkOrMemory result }
{
    match fields_of(alloc) {
        Ok(names) => StructArray::of_children(names, Nullability::NonNullable, rows, fields),
        Err(TypeError::OutOfMemory) => Err(ArrayError::OutOfMemory),
        Err(_) => unreachable!(),
    }
}

// Numbers of a kind, none of them null.
fn plain_numbers(
    alloc: Global,
    kind: PType,
    bytes: Vec<u8>,
    exponent: u8,
    len: usize,
) -> Result<Array, ArrayError>
    requires aligned { exponent ≤ 63 }
    requires sound { IsSound (primitive_tree kind NonNullable len (buffer bytes.items exponent) None) }
    ensures ok { IfOk result (λ a. a ≡ primitive_tree kind NonNullable len (buffer bytes.items exponent) None) }
    ensures err { IsOkOrMemory result }
{
    let values = buffer_of(bytes, exponent)?;
    PrimitiveArray::try_new(alloc, values, kind, Nullability::NonNullable, len, None)
}

// A buffer of these bytes, with the alignment 2^`exponent`.
fn buffer_of(bytes: Vec<u8>, exponent: u8) -> Result<BufferHandle, ArrayError>
    requires { exponent ≤ 63 }
    ensures ok { IfOk result (λ b. b ≡ buffer bytes.items exponent) }
    ensures err { IsOkOrMemory result }
{
    let bytes = ByteBuffer::from_vec(bytes)?;
    match Alignment::from_exponent(exponent) {
        Some(alignment) => Ok(BufferHandle::new_host(bytes.aligned(alignment))),
        None => unreachable!(),
    }
}

// The column of numbers, and a validity that says which of them are there.
fn numbers_of(
    alloc: Global,
    bytes: Vec<u8>,
    bits: Vec<u8>,
    rows: usize,
) -> Result<Array, ArrayError>
    requires { IsSound (numbers_tree bytes.items bits.items rows) }
    ensures ok { IfOk result (λ a. a ≡ numbers_tree bytes.items bits.items rows) }
    ensures err { IsOkOrMemory result }
{
    let flags = flags_of(alloc, bits, rows)?;
    let values = buffer_of(bytes, 3)?;
    PrimitiveArray::try_new(
        alloc,
        values,
        PType::I64,
        Nullability::Nullable,
        rows,
        Some(flags),
    )
}

// One bit for each row.
fn flags_of(alloc: Global, bits: Vec<u8>, rows: usize) -> Result<Array, ArrayError>
    requires { IsSound (flags_tree bits.items rows) }
    ensures ok { IfOk result (λ a. a ≡ flags_tree bits.items rows) }
    ensures err { IsOkOrMemory result }
{
    let bits = buffer_of(bits, 0)?;
    BoolArray::try_new(alloc, bits, 0, rows, Nullability::NonNullable, None)
}

// The column of texts, by their codes.
fn names_of(alloc: Global, codes: Vec<u8>, rows: usize) -> Result<Array, ArrayError>
    requires { IsSound (names_tree codes.items rows) }
    ensures ok { IfOk result (λ a. a ≡ names_tree codes.items rows) }
    ensures err { IsOkOrMemory result }
{
    let codes = plain_numbers(alloc, PType::U8, codes, 0, rows)?;
    let texts = texts_of(alloc)?;
    DictArray::try_new(alloc, codes, texts, false)
}

// The five texts.
fn texts_of(alloc: Global) -> Result<Array, ArrayError>
    ensures ok { IfOk result (λ a. a ≡ texts_tree) }
    ensures err { IsOkOrMemory result }
{
    let text = buffer_of(Vec::from_slice(alloc, LONG_TEXT)?, 0)?;
    let views = buffer_of(Vec::from_slice(alloc, VIEWS)?, 4)?;
    let buffers = vec![in alloc; text]?;
    let dtype = DType::Utf8(Nullability::NonNullable);
    VarBinViewArray::try_new(alloc, dtype, 5, buffers, views, None)
}

// The column of lists, by their elements and the offsets that split them.
fn lists_of(
    alloc: Global,
    elements: Vec<u8>,
    count: usize,
    offsets: Vec<u8>,
    rows: usize,
) -> Result<Array, ArrayError>
    requires few { rows ≤ 1000000 }
    requires sound { IsSound (lists_tree elements.items count offsets.items rows) }
    ensures ok { IfOk result (λ a. a ≡ lists_tree elements.items count offsets.items rows) }
    ensures err { IsOkOrMemory result }
{
    let elements = plain_numbers(alloc, PType::U16, elements, 1, count)?;
    let offsets = plain_numbers(alloc, PType::U32, offsets, 2, rows + 1)?;
    ListArray::try_new(alloc, elements, offsets, Nullability::NonNullable, None)
}
