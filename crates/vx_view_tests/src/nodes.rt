//! Nodes of rows by views: which are planned, and built.

use crate::parts::{Rows, dtype_of};
use std::alloc::Global;
use vx_array_tests::parts::{aligned_to, buffer_of};
use vx_arrays::{Array, Arrays};
use vx_buffer::BufferHandles;
use vx_encodings::{ArrayHead, Encoding, EncodingError, build, metadata, plan};
use vx_type_wire::ExtSession;
use vx_types::{Blob, DType, Id};

// The head of a node of one row and one buffer.
fn head_with(dtype: DType, id: Id, metadata: Blob, nchildren: usize) -> ArrayHead {
    ArrayHead {
        serialized_id: id,
        dtype,
        len: 1,
        metadata,
        nbuffers: 1,
        nchildren,
    }
}

// The same by its parts.
fn head_of(
    alloc: Global,
    rows: Rows,
    metadata: &[u8],
    nchildren: usize,
) -> Result<ArrayHead, EncodingError> {
    let Ok(id) = Id::new(alloc, "vortex.varbinview") else {
        return Err(EncodingError::OutOfMemory);
    };
    match Blob::copy_from(alloc, metadata) {
        Ok(metadata) => Ok(head_with(dtype_of(rows), id, metadata, nchildren)),
        Err(_) => Err(EncodingError::OutOfMemory),
    }
}

// The refusal of a node's plan, if it is refused.
fn plan_refusal(alloc: Global, head: &ArrayHead) -> Option<EncodingError> {
    let readers = ExtSession::new(alloc);
    plan(alloc, Encoding::VarBinView, head, &readers).err()
}

// The refusal of the plan of one row of this metadata and number of children, if it is refused.
fn refusal(
    alloc: Global,
    rows: Rows,
    metadata: &[u8],
    nchildren: usize,
) -> Result<Option<EncodingError>, EncodingError> {
    let head = head_of(alloc, rows, metadata, nchildren)?;
    Ok(plan_refusal(alloc, &head))
}

const UNFIT: Option<EncodingError> = Some(EncodingError::BadShape);

const PLANS: [(Rows, &[u8], usize, Option<EncodingError>); 5] = [
    (Rows::TextsOrNull, &[], 0, None),
    (Rows::BytesOrNull, &[], 1, None),
    (Rows::TextsOrNull, &[], 2, UNFIT),
    (Rows::TextsOrNull, &[8], 0, Some(EncodingError::BadMetadata)),
    (Rows::Nulls, &[], 0, UNFIT),
];

#[test]
fn plans_have_at_most_a_validity(rt: HostRuntime) {
    for (rows, metadata, nchildren, error) in &PLANS {
        let refused = refusal(rt.alloc(), *rows, metadata, *nchildren);
        assert!(rt; refused == Ok(*error), "{metadata:?} {nchildren}");
    }
}

// A list of buffers of these bytes, aligned as views are.
fn aligned(alloc: Global, buffers: &[&[u8]]) -> Result<BufferHandles, EncodingError> {
    let mut handles = BufferHandles::new(alloc);
    for bytes in buffers {
        let Ok(handle) = buffer_of(alloc, bytes, aligned_to(4)) else {
            return Err(EncodingError::OutOfMemory);
        };
        let Ok(()) = handles.push(handle) else {
            return Err(EncodingError::OutOfMemory);
        };
    }
    Ok(handles)
}

// A node without children, which is planned without any.
fn build_planned(
    alloc: Global,
    head: ArrayHead,
    buffers: BufferHandles,
) -> Result<Array, EncodingError> {
    let readers = ExtSession::new(alloc);
    let plans = plan(alloc, Encoding::VarBinView, &head, &readers)?;
    if plans.len() != 0 {
        return Err(EncodingError::BadShape);
    }
    build(
        alloc,
        Encoding::VarBinView,
        head,
        buffers,
        Arrays::new(alloc),
        &readers,
    )
}

// The metadata of such a node, once it is built.
fn built_metadata(
    alloc: Global,
    head: ArrayHead,
    buffers: BufferHandles,
) -> Result<Blob, EncodingError> {
    let array = build_planned(alloc, head, buffers)?;
    metadata(alloc, &array)
}

// Whether one text is built of these buffers, without metadata.
fn is_built(alloc: Global, buffers: &[&[u8]]) -> Result<bool, EncodingError> {
    let handles = aligned(alloc, buffers)?;
    let head = head_of(alloc, Rows::Texts, &[], 0)?;
    let bytes = built_metadata(alloc, head, handles)?;
    Ok(bytes.is_empty())
}

// The view of 13 letters, these letters, and the view of twelve.
fn long() -> &'static [u8] {
    b"\x0d\0\0\0abcd\0\0\0\0\0\0\0\0"
}

fn letters() -> &'static [u8] {
    b"abcdefghijklm"
}

fn short() -> &'static [u8] {
    b"\x0c\0\0\0abcdefghijkl"
}

#[test]
fn nodes_are_built_with_the_views_last(rt: HostRuntime) {
    let alloc = rt.alloc();
    assert!(rt; is_built(alloc, &[letters(), long()]) == Ok(true));
    assert!(rt; is_built(alloc, &[short()]) == Ok(true));
    assert!(rt; is_built(alloc, &[short(), letters()]) == Err(EncodingError::BadShape));
    assert!(rt; is_built(alloc, &[short(), long()]) == Err(EncodingError::BadContent));
    assert!(rt; is_built(alloc, &[]) == Err(EncodingError::BadShape));
}
