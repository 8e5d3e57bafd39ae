//! Blobs of numbers under either identifier, read and written again.

use crate::parts::{
    OLD, Registered, SECOND, blob_of, has_id, ids_of, lacking, number_type, numbers, read_context,
    session_of,
};
use std::alloc::Global;
use vx_arrays::Array;
use vx_buffer::ByteBuffers;
use vx_registry::ArrayContext;
use vx_serde::{Recoded, SerializeOptions, WireError, recode};

// What is read from a blob of `count` numbers under an identifier, and what is written of it in a context.
fn recoding_of(
    alloc: Global,
    registered: Registered,
    count: u32,
    text: &str,
    ctx: &mut ArrayContext,
) -> Result<Recoded, WireError> {
    let blob = blob_of(alloc, count)?;
    let ids = read_context(alloc, text)?;
    let session = session_of(alloc, registered)?;
    let options = SerializeOptions::default();
    recode(
        alloc,
        blob,
        &number_type(),
        count as usize,
        &ids,
        ctx,
        &session,
        &options,
    )
}

// Whether these are the numbers, of the one encoding.
fn are_numbers(alloc: Global, array: &Array, count: u32) -> Result<bool, WireError> {
    let own = numbers(alloc, count)?;
    Ok(array.array_eq(&own) && array.encoding_id() == OLD)
}

// Whether these are the bytes of their blob.
fn are_bytes(alloc: Global, buffers: &ByteBuffers, count: u32) -> Result<bool, WireError> {
    let bytes = lacking(buffers.join(alloc))?;
    let own = blob_of(alloc, count)?;
    Ok(bytes.as_slice() == own.as_slice())
}

// Whether both hold.
fn is_well(alloc: Global, made: &Recoded, count: u32) -> Result<bool, WireError> {
    let same = are_numbers(alloc, &made.array, count)?;
    let kept = are_bytes(alloc, &made.buffers, count)?;
    Ok(same && kept)
}

// A blob of `count` numbers under an identifier, recoded in a context: whether the numbers are read, of the one
// encoding, and the same bytes are written, and under which of the two identifiers.
fn recoded_in(
    alloc: Global,
    registered: Registered,
    count: u32,
    text: &str,
    mut ctx: ArrayContext,
) -> Result<(bool, bool), WireError> {
    let made = recoding_of(alloc, registered, count, text, &mut ctx)?;
    let well = is_well(alloc, &made, count);
    drop(made);
    let second = has_id(alloc, &ctx, SECOND)?;
    let old = has_id(alloc, &ctx, OLD)?;
    Ok((well? && (second || old), second))
}

// The same in a context that allows all: whether both hold, and whether the second identifier is written.
fn recoded(
    alloc: Global,
    registered: Registered,
    count: u32,
    text: &str,
) -> Result<(bool, bool), WireError> {
    recoded_in(alloc, registered, count, text, ArrayContext::empty(alloc))
}

#[test]
fn rows_are_read_under_what_holds_them_and_written_by_their_length(rt: HostRuntime) {
    let rows = [
        (Registered::Shipped, 4, OLD, false),
        (Registered::Shipped, 5, OLD, false),
        (Registered::Revised, 0, OLD, false),
        (Registered::Revised, 4, OLD, false),
        (Registered::Revised, 4, SECOND, false),
        (Registered::Revised, 5, SECOND, true),
        (Registered::Revised, 8, SECOND, true),
        (Registered::RevisedAlone, 4, OLD, false),
        (Registered::RevisedAlone, 4, SECOND, false),
        (Registered::RevisedAlone, 5, SECOND, true),
        (Registered::RevisedThenShipped, 4, OLD, false),
        (Registered::RevisedThenShipped, 5, OLD, false),
        (Registered::RevisedThenShipped, 8, OLD, false),
        (Registered::RevisedThenShipped, 4, SECOND, false),
        (Registered::RevisedThenShipped, 5, SECOND, false),
    ];
    for (registered, count, text, second) in rows {
        assert!(rt; recoded(rt.alloc(), registered, count, text) == Ok((true, second)));
    }
}

// Why they are not recoded.
fn refused(
    alloc: Global,
    registered: Registered,
    count: u32,
    text: &str,
) -> Result<WireError, WireError> {
    match recoded(alloc, registered, count, text) {
        Ok(_) => Err(WireError::BadContent),
        Err(e) => Ok(e),
    }
}

#[test]
fn rows_are_refused_under_what_does_not_hold_them(rt: HostRuntime) {
    let rows = [
        (Registered::Revised, 5, OLD, WireError::BadShape),
        (Registered::Revised, 8, OLD, WireError::BadShape),
        (Registered::RevisedAlone, 5, OLD, WireError::BadShape),
        (Registered::Shipped, 4, SECOND, WireError::UnknownEncoding),
        (Registered::Shipped, 5, SECOND, WireError::UnknownEncoding),
        (Registered::Shipped, 8, SECOND, WireError::UnknownEncoding),
    ];
    for (registered, count, text, error) in rows {
        assert!(rt; refused(rt.alloc(), registered, count, text) == Ok(error));
    }
    assert!(rt; WireError::BadShape.number() == 19);
    assert!(rt; WireError::UnknownEncoding.number() == 17);
}

// Why eight numbers under the second identifier are not written where only the old one is allowed.
fn not_permitted(alloc: Global) -> Result<WireError, WireError> {
    let allowed = ids_of(alloc, OLD)?;
    let ctx = lacking(ArrayContext::empty(alloc).with_allowed_ids(alloc, &allowed))?;
    match recoded_in(alloc, Registered::Revised, 8, SECOND, ctx) {
        Ok(_) => Err(WireError::BadContent),
        Err(e) => Ok(e),
    }
}

#[test]
fn the_second_identifier_has_to_be_allowed(rt: HostRuntime) {
    assert!(rt; not_permitted(rt.alloc()) == Ok(WireError::NotPermitted));
    assert!(rt; WireError::NotPermitted.number() == 23);
}
