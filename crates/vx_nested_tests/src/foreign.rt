//! Tests of foreign nodes that would are control children: they are refused before a row is asked for, since nothing
//! bounds how many rows they have.

use std::alloc::Global;
use vx_arrays::{ArrayError, VarBinArray};
use vx_buffer::{BufferHandle, ByteBuffer};
use vx_test_arrays::parts::{
    Made, There, both, bytes, dicts, lists, nulls, one, unions, unknown_bytes, views,
};
use vx_types::{DType, Nullability};

// The greatest number of opaque rows.
fn unknown(alloc: Global) -> Made {
    unknown_bytes(alloc, usize::MAX)
}

// Dictionaries by those codes.
fn coded(alloc: Global) -> Made {
    dicts(alloc, unknown(alloc), bytes(alloc, &[7]))
}

// Unions by those tags.
fn tagged(alloc: Global) -> Made {
    let types = one(alloc, nulls(alloc, 0));
    let members = one(alloc, nulls(alloc, usize::MAX));
    unions(alloc, &[0], types, unknown(alloc), members)
}

// Lists by those offsets, one after the other.
fn parted(alloc: Global) -> Made {
    lists(alloc, bytes(alloc, &[7]), unknown(alloc), There::Always)
}

// Lists by those offsets and sizes.
fn viewed(alloc: Global) -> Made {
    let (offsets, sizes) = (unknown(alloc), unknown(alloc));
    views(alloc, bytes(alloc, &[7]), offsets, sizes, There::Always)
}

// Three letters.
fn letters(alloc: Global) -> Result<BufferHandle, ArrayError> {
    let buffer = ByteBuffer::copy_from(alloc, b"abc")?;
    Ok(BufferHandle::new_host(buffer))
}

// Texts by those offsets.
fn spelled(alloc: Global) -> Made {
    let (offsets, letters) = both(unknown(alloc), letters(alloc))?;
    let dtype = DType::Utf8(Nullability::NonNullable);
    VarBinArray::try_new(alloc, dtype, offsets, letters, None)
}

const CONTROL: Option<ArrayError> = Some(ArrayError::ForeignControl);

#[test]
fn what_says_where_rows_are_is_known_before_rows_are_judged(rt: HostRuntime) {
    let alloc = rt.alloc();
    assert!(rt; coded(alloc).err() == CONTROL);
    assert!(rt; tagged(alloc).err() == CONTROL);
    assert!(rt; parted(alloc).err() == CONTROL);
    assert!(rt; viewed(alloc).err() == CONTROL);
    assert!(rt; spelled(alloc).err() == CONTROL);
}

// Codes that are a dictionary themselves, by opaque codes.
#[test]
fn that_is_so_however_deep_they_stand(rt: HostRuntime) {
    let alloc = rt.alloc();
    let values = dicts(alloc, bytes(alloc, &[0]), unknown(alloc));
    let over = dicts(alloc, values, bytes(alloc, &[7]));
    assert!(rt; over.err() == CONTROL);
}
