//! Tests of texts and bytes by offsets: their rows, which arrays are made, the cells that a row takes, and their nodes
//! on the wire.

use crate::encodings::{head_of, plan_refusal};
use std::alloc::Global;
use vx_array_tests::parts::{Made, buffer_of, flags, numbers, row_of, some, value_at};
use vx_arrays::{Array, ArrayError, RowValue, VarBinArray};
use vx_buffer::Alignment;
use vx_encodings::{Encoding, EncodingError, VarBinMetadata, metadata};
use vx_proto::{Message, ProtoError};
use vx_test_arrays::parts::both;
use vx_types::{DType, Nullability, PType};

// What the rows are.
#[derive(Clone, Copy, Debug)]
enum Rows {
    Texts,
    TextsOrNull,
    Bytes,
    BytesOrNull,
    Nulls,
}

fn dtype_of(rows: Rows) -> DType {
    match rows {
        Rows::Texts => DType::Utf8(Nullability::NonNullable),
        Rows::TextsOrNull => DType::Utf8(Nullability::Nullable),
        Rows::Bytes => DType::Binary(Nullability::NonNullable),
        Rows::BytesOrNull => DType::Binary(Nullability::Nullable),
        Rows::Nulls => DType::Null,
    }
}

// Rows of these offsets, bytes and validity.
fn made_with(
    alloc: Global,
    rows: Rows,
    offsets: Made,
    bytes: &[u8],
    validity: Result<Option<Array>, ArrayError>,
) -> Made {
    let bytes = buffer_of(alloc, bytes, Alignment::none());
    let ((offsets, bytes), validity) = both(both(offsets, bytes), validity)?;
    VarBinArray::try_new(alloc, dtype_of(rows), offsets, bytes, validity)
}

// Rows of as many offsets of a kind as these bytes hold.
fn made(alloc: Global, rows: Rows, kind: PType, offsets: &[u8], bytes: &[u8]) -> Made {
    let offsets = numbers(alloc, offsets, kind, offsets.len() / kind.byte_width());
    made_with(alloc, rows, offsets, bytes, Ok(None))
}

// Whether a value is a text or bytes, of these bytes.
fn is_of(value: &RowValue, bytes: &[u8]) -> bool {
    match value {
        RowValue::Utf8(text) => text.as_str().as_bytes() == bytes,
        RowValue::Binary(row) => row.as_slice() == bytes,
        _ => false,
    }
}

// Whether a row has these bytes.
fn is_row(alloc: Global, array: &Array, index: usize, bytes: &[u8]) -> bool {
    match value_at(alloc, array, index, 10) {
        Ok(value) => is_of(&value, bytes),
        Err(_) => false,
    }
}

// Whether the rows are two letters, nothing and one letter.
fn are_parted(alloc: Global, array: &Array) -> bool {
    array.len() == 3
        && is_row(alloc, array, 0, b"ab")
        && is_row(alloc, array, 1, b"")
        && is_row(alloc, array, 2, b"c")
}

const ENDS: [u8; 16] = [0, 0, 0, 0, 2, 0, 0, 0, 2, 0, 0, 0, 3, 0, 0, 0];

// Whether three letters are split into such rows.
fn are_rows(alloc: Global, rows: Rows) -> Result<bool, ArrayError> {
    let array = made(alloc, rows, PType::I32, &ENDS, b"abc")?;
    let parted = are_parted(alloc, &array);
    drop(array);
    Ok(parted)
}

#[test]
fn rows_are_parted_by_offsets(rt: HostRuntime) {
    assert!(rt; are_rows(rt.alloc(), Rows::Texts) == Ok(true));
    assert!(rt; are_rows(rt.alloc(), Rows::Bytes) == Ok(true));
}

// The refusal of three bytes by offsets of a kind, if they are refused.
fn refusal(alloc: Global, kind: PType, offsets: &[u8]) -> Option<ArrayError> {
    made(alloc, Rows::Bytes, kind, offsets, b"abc").err()
}

const BROKEN: Option<ArrayError> = Some(ArrayError::BadContent);

const UNFIT: Option<ArrayError> = Some(ArrayError::BadShape);

const OFFSETS: [(PType, &[u8], Option<ArrayError>); 15] = [
    (PType::U8, &[0, 2, 3], None),
    (PType::I8, &[0, 2, 3], None),
    (PType::U16, &[0, 0, 2, 0, 3, 0], None),
    (PType::I16, &[1, 0, 2, 0, 2, 0], None),
    (PType::U32, &[0, 0, 0, 0, 3, 0, 0, 0], None),
    (PType::U64, &[3, 0, 0, 0, 0, 0, 0, 0], None),
    (PType::I64, &[0, 0, 0, 0, 0, 0, 0, 0], None),
    (PType::U8, &[0, 2, 4], BROKEN),
    (PType::U8, &[2, 1, 3], BROKEN),
    (PType::U8, &[0, 3, 2], BROKEN),
    (PType::I8, &[0xff, 2, 3], BROKEN),
    (PType::I16, &[0, 0, 0, 0x80], BROKEN),
    (
        PType::U64,
        &[255, 255, 255, 255, 255, 255, 255, 255],
        BROKEN,
    ),
    (PType::U8, &[], UNFIT),
    (PType::F16, &[0, 0, 0, 0], UNFIT),
];

#[test]
fn offsets_never_fall_and_end_within_the_bytes(rt: HostRuntime) {
    for (kind, offsets, error) in &OFFSETS {
        assert!(rt;
            refusal(rt.alloc(), *kind, offsets) == *error,
            "{kind:?} {offsets:?}"
        );
    }
}

// The validity of two rows with these bits, if there are any.
fn validity(alloc: Global, bits: Option<u8>) -> Result<Option<Array>, ArrayError> {
    match bits {
        None => Ok(None),
        Some(bits) => some(flags(alloc, &[bits], 0, 2)),
    }
}

// Two rows of a byte each, with a validity if there are bits for it.
fn two_rows(alloc: Global, rows: Rows, bytes: &[u8], bits: Option<u8>) -> Made {
    let offsets = numbers(alloc, &[0, 1, 2], PType::U8, 3);
    made_with(alloc, rows, offsets, bytes, validity(alloc, bits))
}

// The refusal of these rows, if they are refused.
fn content_refusal(
    alloc: Global,
    rows: Rows,
    bytes: &[u8],
    bits: Option<u8>,
) -> Option<ArrayError> {
    two_rows(alloc, rows, bytes, bits).err()
}

const CONTENT: [(Rows, &[u8], Option<u8>, Option<ArrayError>); 8] = [
    (Rows::TextsOrNull, b"a\xff", None, BROKEN),
    (Rows::TextsOrNull, b"a\xff", Some(1), None),
    (Rows::TextsOrNull, b"a\xff", Some(2), BROKEN),
    (Rows::TextsOrNull, b"\xc3\xa4", Some(3), BROKEN),
    (Rows::TextsOrNull, b"\xc3\xa4", Some(0), None),
    (Rows::BytesOrNull, b"a\xff", Some(3), None),
    (Rows::Texts, b"ab", Some(3), UNFIT),
    (Rows::Nulls, b"ab", None, UNFIT),
];

#[test]
fn texts_are_judged_where_rows_are_there(rt: HostRuntime) {
    for (rows, bytes, bits, error) in &CONTENT {
        assert!(rt;
            content_refusal(rt.alloc(), *rows, bytes, *bits) == *error,
            "{rows:?} {bits:?}"
        );
    }
}

// One row of `len` bytes.
fn one_row(alloc: Global, len: u16) -> Result<Array, ArrayError> {
    let bytes = vec![in alloc; 7; len as usize]?;
    let ends = [0, 0, (len % 256) as u8, (len / 256) as u8];
    made(alloc, Rows::Bytes, PType::U16, &ends, bytes.as_slice())
}

// The refusal of this row with a budget of cells, if it is refused.
fn row_refusal(alloc: Global, len: u16, budget: u64) -> Option<ArrayError> {
    let (_, value) = row_of(alloc, one_row(alloc, len), 0, budget);
    value.err()
}

const TOO_LARGE: Option<ArrayError> = Some(ArrayError::ValueTooLarge);

const CELLS: [(u16, u64, Option<ArrayError>); 5] = [
    (0, 0, TOO_LARGE),
    (0, 1, None),
    (9_999, 10_000, None),
    (10_000, 10_000, TOO_LARGE),
    (10_000, 10_001, None),
];

#[test]
fn a_row_takes_a_cell_for_each_byte_and_one(rt: HostRuntime) {
    for (len, budget, error) in &CELLS {
        let refused = row_refusal(rt.alloc(), *len, *budget);
        assert!(rt; refused == *error, "{len} {budget}");
    }
}

// The bytes of the metadata of a kind of offsets.
fn kind_bytes(alloc: Global, kind: PType) -> Result<vx_proto::Blob, ProtoError> {
    VarBinMetadata {
        offsets_ptype: kind,
    }
    .encode_to_vec(alloc)
}

// The kind that is read from bytes.
fn kind_of(alloc: Global, bytes: &[u8]) -> Result<PType, ProtoError> {
    let read = VarBinMetadata::decode(alloc, bytes)?;
    Ok(read.offsets_ptype)
}

// Whether a kind is written as these bytes, and read from them.
fn is_kind(alloc: Global, kind: PType, bytes: &[u8]) -> bool {
    match kind_bytes(alloc, kind) {
        Ok(written) => written.as_slice() == bytes && kind_of(alloc, bytes) == Ok(kind),
        Err(_) => false,
    }
}

const KINDS: [(PType, &[u8]); 4] = [
    (PType::U8, &[]),
    (PType::U16, &[8, 1]),
    (PType::I32, &[8, 6]),
    (PType::F64, &[8, 10]),
];

#[test]
fn a_kind_of_offsets_is_one_code(rt: HostRuntime) {
    let default = VarBinMetadata::default(rt.alloc());
    assert!(rt; default.offsets_ptype == PType::U8);
    for (kind, bytes) in &KINDS {
        assert!(rt; is_kind(rt.alloc(), *kind, bytes), "{kind:?}");
    }
}

// The refusal of the plan of two texts with this metadata and number of children, if it is refused.
fn texts_refusal(alloc: Global, metadata: &[u8], nchildren: usize) -> Option<EncodingError> {
    let head = head_of(alloc, dtype_of(Rows::Texts), 2, metadata, nchildren);
    plan_refusal(alloc, Encoding::VarBin, head)
}

const UNREAD: Option<EncodingError> = Some(EncodingError::BadMetadata);

const PLANS: [(&[u8], usize, Option<EncodingError>); 7] = [
    (&[], 1, None),
    (&[8, 7], 2, None),
    (&[], 0, Some(EncodingError::BadShape)),
    (&[], 3, Some(EncodingError::BadShape)),
    (&[8, 9], 1, UNREAD),
    (&[8, 11], 1, UNREAD),
    (&[8], 1, UNREAD),
];

#[test]
fn plans_have_offsets_and_at_most_a_validity(rt: HostRuntime) {
    for (metadata, nchildren, error) in &PLANS {
        let refused = texts_refusal(rt.alloc(), metadata, *nchildren);
        assert!(rt; refused == *error, "{metadata:?} {nchildren}");
    }
}

/// One text that may be null, by offsets of 16 bits.
pub(crate) fn one_text(alloc: Global) -> Result<Array, ArrayError> {
    made(alloc, Rows::TextsOrNull, PType::I16, &[0, 0, 1, 0], b"a")
}

// Whether an array's metadata has these bytes.
fn has_metadata(alloc: Global, array: &Array, bytes: &[u8]) -> bool {
    match metadata(alloc, array) {
        Ok(written) => written.as_slice() == bytes,
        Err(_) => false,
    }
}

// Whether the metadata of one text has these bytes.
fn is_kept(alloc: Global, bytes: &[u8]) -> Result<bool, ArrayError> {
    let array = one_text(alloc)?;
    let kept = has_metadata(alloc, &array, bytes);
    drop(array);
    Ok(kept)
}

#[test]
fn nodes_keep_the_kind_of_their_offsets(rt: HostRuntime) {
    assert!(rt; is_kept(rt.alloc(), &[8, 5]) == Ok(true));
}
