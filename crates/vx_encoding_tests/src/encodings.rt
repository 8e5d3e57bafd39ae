//! Tests of one level: planned, built and written; and of the texts of errors.

use std::alloc::Global;
use vx_array_tests::parts::{aligned_to, buffer_of, prints};
use vx_arrays::{Array, Arrays};
use vx_buffer::{Alignment, BufferHandles};
use vx_encodings::{
    ArrayHead, BoolMetadata, ChildPlan, ChildPlans, Encoding, EncodingError, build, has_message,
    metadata, plan,
};
use vx_proto::{Message, ProtoError};
use vx_test_arrays::parts::both;
use vx_type_wire::ExtSession;
use vx_types::{Blob, DType, Id, Nullability, PType, TypeError};

fn numbers() -> DType {
    DType::Primitive(PType::I32, Nullability::NonNullable)
}

// The head of a node of one buffer.
fn head_with(dtype: DType, len: usize, id: Id, metadata: Blob, nchildren: usize) -> ArrayHead {
    ArrayHead {
        serialized_id: id,
        dtype,
        len,
        metadata,
        nbuffers: 1,
        nchildren,
    }
}

// An identifier, and metadata of these bytes.
fn label_of(alloc: Global, metadata: &[u8]) -> Result<(Id, Blob), TypeError> {
    let id = Id::new(alloc, "vortex.primitive")?;
    let metadata = Blob::copy_from(alloc, metadata)?;
    Ok((id, metadata))
}

/// The head of a node, or why it is not made.
pub(crate) type Head = Result<ArrayHead, EncodingError>;

/// The head of a node of one buffer, by its parts.
pub(crate) fn head_of(
    alloc: Global,
    dtype: DType,
    len: usize,
    metadata: &[u8],
    nchildren: usize,
) -> Head {
    match label_of(alloc, metadata) {
        Ok((id, metadata)) => Ok(head_with(dtype, len, id, metadata, nchildren)),
        Err(_) => {
            drop(dtype);
            Err(EncodingError::OutOfMemory)
        }
    }
}

// The children that are planned for a node, without readers of extensions.
fn plans_of(alloc: Global, encoding: Encoding, head: Head) -> Result<ChildPlans, EncodingError> {
    let head = head?;
    let readers = ExtSession::new(alloc);
    let plans = plan(alloc, encoding, &head, &readers);
    drop(readers);
    drop(head);
    plans
}

/// The refusal of a node's plan, if it is refused.
pub(crate) fn plan_refusal(alloc: Global, encoding: Encoding, head: Head) -> Option<EncodingError> {
    plans_of(alloc, encoding, head).err()
}

// Whether a child is planned as the validity of four rows.
fn is_validity(child: &ChildPlan) -> bool {
    child.len == 4 && matches!(&child.dtype, DType::Bool(Nullability::NonNullable))
}

// Whether a validity of four rows is planned as the one child.
fn is_planned(plans: &ChildPlans) -> bool {
    match plans.get(0) {
        Some(child) => plans.len() == 1 && is_validity(child),
        None => false,
    }
}

// Whether the one child that is planned for numbers is a validity.
fn is_validity_planned(alloc: Global) -> Result<bool, EncodingError> {
    let numbers = DType::Primitive(PType::I32, Nullability::Nullable);
    let head = head_of(alloc, numbers, 4, &[], 1);
    let plans = plans_of(alloc, Encoding::Primitive, head)?;
    let planned = is_planned(&plans);
    drop(plans);
    Ok(planned)
}

#[test]
fn plans_have_at_most_a_validity(rt: HostRuntime) {
    assert!(rt; is_validity_planned(rt.alloc()) == Ok(true));
}

// The refusal of the plan of a node of four rows, of this type, metadata and children, if it is refused.
fn refusal(
    alloc: Global,
    encoding: Encoding,
    dtype: DType,
    metadata: &[u8],
    nchildren: usize,
) -> Option<EncodingError> {
    plan_refusal(
        alloc,
        encoding,
        head_of(alloc, dtype, 4, metadata, nchildren),
    )
}

// The same for numbers.
fn refusal_of_numbers(alloc: Global, dtype: DType, metadata: &[u8]) -> Option<EncodingError> {
    refusal(alloc, Encoding::Primitive, dtype, metadata, 0)
}

#[test]
fn plans_of_numbers_are_refused(rt: HostRuntime) {
    let alloc = rt.alloc();
    let unfit = Some(EncodingError::BadShape);
    assert!(rt; refusal_of_numbers(alloc, DType::Null, &[]) == unfit);
    assert!(rt; refusal_of_numbers(alloc, DType::Bool(Nullability::Nullable), &[]) == unfit);
    let with_metadata = refusal_of_numbers(alloc, numbers(), &[8]);
    assert!(rt; with_metadata == Some(EncodingError::BadMetadata));
}

// A node without children, planned without any and then built.
fn build_planned(
    alloc: Global,
    encoding: Encoding,
    head: ArrayHead,
    buffers: BufferHandles,
    readers: &ExtSession,
) -> Result<Array, EncodingError> {
    let refused = match plan(alloc, encoding, &head, readers) {
        Ok(plans) => {
            let count = plans.len();
            drop(plans);
            if count == 0 {
                return build(alloc, encoding, head, buffers, Arrays::new(alloc), readers);
            }
            EncodingError::BadShape
        }
        Err(e) => e,
    };
    drop(head);
    drop(buffers);
    Err(refused)
}

// The same, without readers of extensions, if its parts were made.
fn built(
    alloc: Global,
    encoding: Encoding,
    head: Head,
    buffers: Result<BufferHandles, EncodingError>,
) -> Result<Array, EncodingError> {
    let (head, buffers) = both(head, buffers)?;
    let readers = ExtSession::new(alloc);
    let array = build_planned(alloc, encoding, head, buffers, &readers);
    drop(readers);
    array
}

// An array's metadata, which has to fit its message.
fn fitting_metadata(alloc: Global, array: &Array) -> Result<Blob, EncodingError> {
    if has_message(array) {
        metadata(alloc, array)
    } else {
        Err(EncodingError::BadMetadata)
    }
}

// The same for an array, if it was built.
fn metadata_of(alloc: Global, built: Result<Array, EncodingError>) -> Result<Blob, EncodingError> {
    let array = built?;
    let bytes = fitting_metadata(alloc, &array);
    drop(array);
    bytes
}

/// Whether a node without children is built, of this metadata.
pub(crate) fn is_built(
    alloc: Global,
    encoding: Encoding,
    head: Head,
    buffers: Result<BufferHandles, EncodingError>,
    metadata: &[u8],
) -> Result<bool, EncodingError> {
    let bytes = metadata_of(alloc, built(alloc, encoding, head, buffers))?;
    Ok(bytes.as_slice() == metadata)
}

/// `count` buffers of these bytes.
pub(crate) fn buffers_of(
    alloc: Global,
    bytes: &[u8],
    alignment: Alignment,
    count: usize,
) -> Result<BufferHandles, EncodingError> {
    let mut buffers = BufferHandles::new(alloc);
    for _ in 0..count {
        let Ok(buffer) = buffer_of(alloc, bytes, alignment) else {
            return Err(EncodingError::OutOfMemory);
        };
        let Ok(()) = buffers.push(buffer) else {
            return Err(EncodingError::OutOfMemory);
        };
    }
    Ok(buffers)
}

// Whether `len` integers are built in eight bytes of this alignment.
fn are_numbers_built(
    alloc: Global,
    len: usize,
    alignment: Alignment,
) -> Result<bool, EncodingError> {
    let buffers = buffers_of(alloc, &[1, 0, 0, 0, 2, 0, 0, 0], alignment, 1);
    let head = head_of(alloc, numbers(), len, &[], 0);
    is_built(alloc, Encoding::Primitive, head, buffers, &[])
}

#[test]
fn a_node_is_built_of_its_parts(rt: HostRuntime) {
    let alloc = rt.alloc();
    let unfit = Err(EncodingError::BadShape);
    assert!(rt; are_numbers_built(alloc, 2, aligned_to(2)) == Ok(true));
    assert!(rt; are_numbers_built(alloc, 3, aligned_to(2)) == unfit);
    assert!(rt; are_numbers_built(alloc, 2, Alignment::none()) == unfit);
}

// The bytes of a copy of an offset's metadata.
fn offset_bytes(alloc: Global, offset: u32) -> Result<vx_proto::Blob, ProtoError> {
    let copy = BoolMetadata { offset }.clone(alloc)?;
    copy.encode_to_vec(alloc)
}

// The offset that is read from bytes.
fn offset_of(alloc: Global, bytes: &[u8]) -> Result<u32, ProtoError> {
    let read = BoolMetadata::decode(alloc, bytes)?;
    Ok(read.offset)
}

// Whether a copy of an offset is written as these bytes, and read from them.
fn is_offset(alloc: Global, offset: u32, bytes: &[u8]) -> bool {
    match offset_bytes(alloc, offset) {
        Ok(written) => written.as_slice() == bytes && offset_of(alloc, bytes) == Ok(offset),
        Err(_) => false,
    }
}

#[test]
fn an_offset_is_one_number(rt: HostRuntime) {
    let alloc = rt.alloc();
    assert!(rt; BoolMetadata::default(alloc).offset == 0);
    assert!(rt; is_offset(alloc, 0, &[]));
    assert!(rt; is_offset(alloc, 5, &[8, 5]));
    assert!(rt; is_offset(alloc, 8, &[8, 8]));
}

// The refusal of the plan of four booleans with this metadata and number of children, if it is refused.
fn flags_refusal(alloc: Global, metadata: &[u8], nchildren: usize) -> Option<EncodingError> {
    let flags = DType::Bool(Nullability::Nullable);
    refusal(alloc, Encoding::Bool, flags, metadata, nchildren)
}

const BAD: Option<EncodingError> = Some(EncodingError::BadMetadata);

const FLAGS: [(&[u8], usize, Option<EncodingError>); 8] = [
    (&[], 0, None),
    (&[8, 7], 1, None),
    (&[8, 9, 8, 7], 1, None),
    (&[16, 9], 0, None),
    (&[8, 8], 0, BAD),
    (&[8], 0, BAD),
    (&[10, 0], 0, BAD),
    (&[], 2, Some(EncodingError::BadShape)),
];

#[test]
fn plans_of_flags_are_refused(rt: HostRuntime) {
    for (metadata, nchildren, error) in &FLAGS {
        let refused = flags_refusal(rt.alloc(), metadata, *nchildren);
        assert!(rt; refused == *error, "{metadata:?}");
    }
}

// Whether `len` booleans of one byte are built, with this metadata.
fn are_flags_built(alloc: Global, metadata: &[u8], len: usize) -> Result<bool, EncodingError> {
    let buffers = buffers_of(alloc, &[0x2c], Alignment::none(), 1);
    let flags = DType::Bool(Nullability::NonNullable);
    let head = head_of(alloc, flags, len, metadata, 0);
    is_built(alloc, Encoding::Bool, head, buffers, metadata)
}

#[test]
fn flags_are_built_of_an_offset_and_bits(rt: HostRuntime) {
    let alloc = rt.alloc();
    let unfit = Err(EncodingError::BadShape);
    assert!(rt; are_flags_built(alloc, &[], 8) == Ok(true));
    assert!(rt; are_flags_built(alloc, &[], 9) == unfit);
    assert!(rt; are_flags_built(alloc, &[8, 5], 3) == Ok(true));
    assert!(rt; are_flags_built(alloc, &[8, 5], 4) == unfit);
}

// Whether nulls are built with this type, metadata, children and number of buffers, and written without metadata.
fn are_nulls_built(
    alloc: Global,
    dtype: DType,
    metadata: &[u8],
    nchildren: usize,
    buffers: usize,
) -> Result<bool, EncodingError> {
    let buffers = buffers_of(alloc, &[], Alignment::none(), buffers);
    let head = head_of(alloc, dtype, usize::MAX, metadata, nchildren);
    is_built(alloc, Encoding::Null, head, buffers, &[])
}

#[test]
fn nulls_are_built_of_nothing(rt: HostRuntime) {
    let alloc = rt.alloc();
    let unfit = Err(EncodingError::BadShape);
    assert!(rt; are_nulls_built(alloc, DType::Null, &[], 0, 0) == Ok(true));
    let with_metadata = are_nulls_built(alloc, DType::Null, &[0], 0, 0);
    assert!(rt; with_metadata == Err(EncodingError::BadMetadata));
    assert!(rt; are_nulls_built(alloc, DType::Null, &[], 1, 0) == unfit);
    assert!(rt; are_nulls_built(alloc, DType::Null, &[], 0, 1) == unfit);
    let truths = DType::Bool(Nullability::Nullable);
    assert!(rt; are_nulls_built(alloc, truths, &[], 0, 0) == unfit);
}

const TEXTS: [(EncodingError, &str); 6] = [
    (EncodingError::OutOfMemory, "out of memory"),
    (
        EncodingError::BadMetadata,
        "the metadata is none of the encoding's",
    ),
    (EncodingError::BadShape, "the parts do not fit the encoding"),
    (EncodingError::BadContent, "the content is broken"),
    (
        EncodingError::ForeignControl,
        "a foreign node says where rows are, or is the entries of a map",
    ),
    (
        EncodingError::WireLimit,
        "the metadata does not fit its message",
    ),
];

#[test]
fn texts_of_refusals(rt: HostRuntime) {
    for (error, text) in &TEXTS {
        assert!(rt; prints(rt.alloc(), error, text), "{text}");
    }
}
