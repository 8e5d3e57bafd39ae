//! Tests of foreign arrays: what they keep, what is known of their rows, and where they may not stand.

use crate::parts::{Made, aligned_to, buffer_of, flags, numbers, row_of, some};
use std::alloc::Global;
use vx_arrays::{
    Array, ArrayError, Arrays, Body, BoolArray, DictArray, ForeignArray, ForeignArrayData,
    PrimitiveArray, RowValue, new_foreign_array,
};
use vx_buffer::{Alignment, BufferHandle, BufferHandles};
use vx_test_arrays::parts::both;
use vx_types::{Blob, DType, Id, Nullability, PType};

// Of which type rows are.
#[derive(Clone, Copy)]
enum Rows {
    /// Numbers of a byte.
    Numbers,
    /// Flags.
    Flags,
}

// That type.
fn dtype_of(rows: Rows) -> DType {
    match rows {
        Rows::Numbers => DType::Primitive(PType::U8, Nullability::NonNullable),
        Rows::Flags => DType::Bool(Nullability::NonNullable),
    }
}

// An unregistered identifier, and bytes of metadata.
fn named(alloc: Global, metadata: &[u8]) -> Result<(Id, Blob), ArrayError> {
    match both(Id::new(alloc, "x.new"), Blob::copy_from(alloc, metadata)) {
        Ok(parts) => Ok(parts),
        Err(_) => Err(ArrayError::OutOfMemory),
    }
}

// A buffer of three bytes, of this alignment exponent.
fn one_buffer(alloc: Global, exponent: u8) -> Result<BufferHandles, ArrayError> {
    let buffer = buffer_of(alloc, b"abc", aligned_to(exponent))?;
    let mut buffers = BufferHandles::new(alloc);
    match buffers.push(buffer) {
        Ok(()) => Ok(buffers),
        Err(_) => Err(ArrayError::OutOfMemory),
    }
}

// n opaque rows, with this metadata and a buffer of this exponent.
fn unknown(alloc: Global, rows: Rows, len: usize, metadata: &[u8], exponent: u8) -> Made {
    match both(named(alloc, metadata), one_buffer(alloc, exponent)) {
        Ok(((id, metadata), buffers)) => {
            let children = Arrays::new(alloc);
            new_foreign_array(alloc, id, dtype_of(rows), len, metadata, buffers, children)
        }
        Err(e) => Err(e),
    }
}

#[test]
fn nothing_is_known_of_rows(rt: HostRuntime) {
    let alloc = rt.alloc();
    let made = unknown(alloc, Rows::Numbers, 3, &[7], 0);
    assert!(rt; row_of(alloc, made, 2, 1) == (None, Ok(RowValue::Opaque)));
    let made = unknown(alloc, Rows::Numbers, 3, &[7], 0);
    assert!(rt; row_of(alloc, made, 2, 0) == (None, Err(ArrayError::ValueTooLarge)));
}

// Whether an array has an identifier of its own, and keeps these bytes as its metadata and one buffer.
fn keeps(array: &Array, metadata: &[u8]) -> bool {
    match array.body() {
        Body::Foreign(kept) => {
            array.is_foreign()
                && array.encoding_id() == "x.new"
                && array.nbuffers() == 1
                && kept.metadata().as_slice() == metadata
        }
        _ => false,
    }
}

// Whether an array was made and does.
fn is_kept(made: Made, metadata: &[u8]) -> Result<bool, ArrayError> {
    let array = made?;
    let kept = keeps(&array, metadata);
    drop(array);
    Ok(kept)
}

#[test]
fn parts_are_kept(rt: HostRuntime) {
    let made = unknown(rt.alloc(), Rows::Flags, 3, &[7, 0, 9], 6);
    assert!(rt; is_kept(made, &[7, 0, 9]) == Ok(true));
}

// The encoding `x.y`.
fn encoding(alloc: Global) -> Result<ForeignArray, ArrayError> {
    match Id::new(alloc, "x.y") {
        Ok(id) => Ok(ForeignArray::new(id)),
        Err(_) => Err(ArrayError::OutOfMemory),
    }
}

// Whether an encoding and its clone have that identifier.
fn is_encoding_cloned(alloc: Global) -> Result<bool, ArrayError> {
    let array = encoding(alloc)?;
    let copy = array.clone(alloc)?;
    Ok(array.id().as_str() == "x.y" && copy.id().as_str() == "x.y")
}

// Bytes of metadata.
fn metadata_of(alloc: Global, bytes: &[u8]) -> Result<Blob, ArrayError> {
    match Blob::copy_from(alloc, bytes) {
        Ok(metadata) => Ok(metadata),
        Err(_) => Err(ArrayError::OutOfMemory),
    }
}

// The metadata `aa` and a buffer of three bytes that is aligned to 16.
fn data(alloc: Global) -> Result<ForeignArrayData, ArrayError> {
    let (metadata, buffers) = both(metadata_of(alloc, &[0xaa]), one_buffer(alloc, 4))?;
    Ok(ForeignArrayData::new(metadata, buffers))
}

// Whether these are that one buffer.
fn is_that_buffer(buffers: &[BufferHandle]) -> bool {
    match buffers {
        [buffer] => buffer.as_host().as_slice() == b"abc".as_slice()
            && buffer.alignment().exponent() == 4,
        _ => false,
    }
}

// Whether that metadata and that buffer are kept.
fn keeps_data(kept: &ForeignArrayData) -> bool {
    kept.metadata().as_slice() == [0xaa].as_slice() && is_that_buffer(kept.buffers())
}

// Whether data that was made is kept so.
fn is_data_kept(made: Result<ForeignArrayData, ArrayError>) -> bool {
    match made {
        Ok(kept) => {
            let holds = keeps_data(&kept);
            drop(kept);
            holds
        }
        Err(_) => false,
    }
}

// A clone of data that was made.
fn data_clone(
    alloc: Global,
    made: Result<ForeignArrayData, ArrayError>,
) -> Result<ForeignArrayData, ArrayError> {
    match made {
        Ok(kept) => {
            let copy = kept.clone(alloc);
            drop(kept);
            copy
        }
        Err(e) => Err(e),
    }
}

#[test]
fn clones_have_the_fields_of_their_source(rt: HostRuntime) {
    let alloc = rt.alloc();
    assert!(rt; is_encoding_cloned(alloc) == Ok(true));
    assert!(rt; is_data_kept(data(alloc)));
    assert!(rt; is_data_kept(data_clone(alloc, data(alloc))));
}

// Whether two arrays that were made are equal.
fn are_equal(one: Made, other: Made) -> Result<bool, ArrayError> {
    let (one, other) = both(one, other)?;
    let equal = one.array_eq(&other);
    drop(one);
    drop(other);
    Ok(equal)
}

// Whether three opaque numbers are equal to others of these parts.
fn is_equal(
    alloc: Global,
    rows: Rows,
    len: usize,
    metadata: &[u8],
    exponent: u8,
) -> Result<bool, ArrayError> {
    let other = unknown(alloc, rows, len, metadata, exponent);
    are_equal(unknown(alloc, Rows::Numbers, 3, &[7], 0), other)
}

#[test]
fn what_is_kept_is_compared_but_for_alignments(rt: HostRuntime) {
    let alloc = rt.alloc();
    assert!(rt; is_equal(alloc, Rows::Numbers, 3, &[7], 4) == Ok(true));
    assert!(rt; is_equal(alloc, Rows::Numbers, 3, &[8], 0) == Ok(false));
    assert!(rt; is_equal(alloc, Rows::Numbers, 2, &[7], 0) == Ok(false));
    assert!(rt; is_equal(alloc, Rows::Flags, 3, &[7], 0) == Ok(false));
    let known = numbers(alloc, b"abc", PType::U8, 3);
    assert!(rt; are_equal(unknown(alloc, Rows::Numbers, 3, &[7], 0), known) == Ok(false));
}

// Three flags with a validity.
fn flags_with(alloc: Global, validity: Made) -> Made {
    let bits = buffer_of(alloc, &[5], Alignment::none());
    let (bits, validity) = both(bits, some(validity))?;
    BoolArray::try_new(alloc, bits, 0, 3, Nullability::Nullable, validity)
}

// Three numbers with a validity.
fn numbers_with(alloc: Global, validity: Made) -> Made {
    let bytes = buffer_of(alloc, b"abc", Alignment::none());
    let (bytes, validity) = both(bytes, some(validity))?;
    PrimitiveArray::try_new(alloc, bytes, PType::U8, Nullability::Nullable, 3, validity)
}

const CONTROL: Option<ArrayError> = Some(ArrayError::ForeignControl);

#[test]
fn what_says_where_rows_are_is_known(rt: HostRuntime) {
    let alloc = rt.alloc();
    let unknown_flags = unknown(alloc, Rows::Flags, 3, &[], 0);
    assert!(rt; flags_with(alloc, unknown_flags).err() == CONTROL);
    let unknown_flags = unknown(alloc, Rows::Flags, 3, &[], 0);
    assert!(rt; numbers_with(alloc, unknown_flags).err() == CONTROL);
    let known_flags = flags(alloc, &[5], 0, 3);
    assert!(rt; numbers_with(alloc, known_flags).err() == None);
    let few_flags = unknown(alloc, Rows::Flags, 2, &[], 0);
    assert!(rt; flags_with(alloc, few_flags).err() == Some(ArrayError::BadShape));
}

// A dictionary of codes and values.
fn dictionary(alloc: Global, codes: Made, values: Made) -> Made {
    let (codes, values) = both(codes, values)?;
    DictArray::try_new(alloc, codes, values, false)
}

// Why it is refused, if it is.
fn refusal(alloc: Global, codes: Made, values: Made) -> Option<ArrayError> {
    dictionary(alloc, codes, values).err()
}

#[test]
fn values_of_dictionaries_may_be_unknown(rt: HostRuntime) {
    let alloc = rt.alloc();
    let codes = numbers(alloc, &[0, 2], PType::U8, 2);
    assert!(rt; refusal(alloc, codes, unknown(alloc, Rows::Numbers, 3, &[], 0)) == None);
    let codes = numbers(alloc, &[0, 3], PType::U8, 2);
    let past = refusal(alloc, codes, unknown(alloc, Rows::Numbers, 3, &[], 0));
    assert!(rt; past == Some(ArrayError::BadContent));
    let values = numbers(alloc, b"abc", PType::U8, 3);
    assert!(rt; refusal(alloc, unknown(alloc, Rows::Numbers, 2, &[], 0), values) == CONTROL);
}
