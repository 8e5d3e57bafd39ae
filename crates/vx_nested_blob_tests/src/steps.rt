//! The steps of one node: its plan, and the metadata that is written.

use std::alloc::Global;
use vx_arrays::Array;
use vx_encodings::{ArrayHead, Encoding, EncodingError, metadata, plan};
use vx_test_arrays::parts::{Made, both};
use vx_type_wire::ExtSession;
use vx_types::{Blob, DType, Id, TypeError};

// The bytes of metadata that an array's node has.
fn written(alloc: Global, array: &Array) -> Result<Blob, EncodingError> {
    metadata(alloc, array)
}

// Whether an array has this metadata.
fn has_bytes(alloc: Global, array: &Array, bytes: &[u8]) -> bool {
    match written(alloc, array) {
        Ok(blob) => blob.as_slice() == bytes,
        Err(_) => false,
    }
}

/// Whether an array, if it was made, has this metadata.
pub(crate) fn has_metadata(alloc: Global, array: Made, bytes: &[u8]) -> bool {
    match array {
        Ok(array) => {
            let has = has_bytes(alloc, &array, bytes);
            drop(array);
            has
        }
        Err(_) => false,
    }
}

/// Why the metadata of an array, if it was made, is not written, if it is not.
pub(crate) fn unwritten(alloc: Global, array: Made) -> Option<EncodingError> {
    match array {
        Ok(array) => {
            let refused = written(alloc, &array).err();
            drop(array);
            refused
        }
        Err(_) => Some(EncodingError::OutOfMemory),
    }
}

// The head of a node without buffers.
fn head_of(
    alloc: Global,
    dtype: &DType,
    len: usize,
    metadata: &[u8],
    nchildren: usize,
) -> Result<ArrayHead, TypeError> {
    let parts = both(dtype.clone(alloc), Blob::copy_from(alloc, metadata));
    let (serialized_id, (dtype, metadata)) = both(Id::new(alloc, "test"), parts)?;
    Ok(ArrayHead {
        serialized_id,
        dtype,
        len,
        metadata,
        nbuffers: 0,
        nchildren,
    })
}

// Why a node of this head is not planned, if it is not.
fn head_refusal(
    alloc: Global,
    encoding: Encoding,
    head: Result<ArrayHead, TypeError>,
) -> Option<EncodingError> {
    match head {
        Ok(head) => {
            let readers = ExtSession::new(alloc);
            let refused = plan(alloc, encoding, &head, &readers).err();
            drop(readers);
            drop(head);
            refused
        }
        Err(_) => Some(EncodingError::OutOfMemory),
    }
}

/// Why a node of the type of an array is not planned, if it is not.
pub(crate) fn unplanned(
    alloc: Global,
    encoding: Encoding,
    kind: Made,
    len: usize,
    metadata: &[u8],
    nchildren: usize,
) -> Option<EncodingError> {
    match kind {
        Ok(array) => {
            let head = head_of(alloc, array.dtype(), len, metadata, nchildren);
            drop(array);
            head_refusal(alloc, encoding, head)
        }
        Err(_) => Some(EncodingError::OutOfMemory),
    }
}
