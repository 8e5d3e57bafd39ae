use crate::odd::Oddity;
use crate::parts::{
    ASKING, NEW, OLD, allowing, allowing_unknown, asked_days, asking, days, has_ids, number_type,
    numbers, odd, read, replaced, shipped, versioned, written,
};
use std::alloc::Global;
use vx_arrays::Array;
use vx_buffer::ByteBuffer;
use vx_registry::{ArrayContext, VortexSession};
use vx_serde::WireError;
use vx_test_arrays::parts::both;

// Numbers for the tests, named by how many there are.
const TWO: [i32; 2] = [1, 2];

const THREE: [i32; 3] = [1, 2, 3];

const FOUR: [i32; 4] = [1, 2, 3, 4];

const EIGHT: [i32; 8] = [0, 1, 2, 3, 4, 5, 6, 7];

// Whether a result is Ok.
fn is_made<T: Drop>(made: Result<T, WireError>) -> bool {
    match made {
        Ok(_) => true,
        Err(_) => false,
    }
}

// The refusal of a result.
fn refusal<T: Drop>(made: Result<T, WireError>) -> Result<WireError, WireError> {
    match made {
        Ok(_) => Err(WireError::BadShape),
        Err(e) => Ok(e),
    }
}

// The blob of an array, if these identifiers are taken into a context and no other.
fn blob_as(
    alloc: Global,
    array: &Array,
    ctx: &mut ArrayContext,
    texts: &[&str],
    session: &VortexSession,
) -> Result<ByteBuffer, WireError> {
    let blob = written(alloc, array, ctx, session);
    if has_ids(alloc, ctx, texts) {
        blob
    } else {
        drop(blob);
        Err(WireError::BadContent)
    }
}

// The numbers that a blob is read as, with an identifier.
fn read_numbers(
    alloc: Global,
    blob: ByteBuffer,
    count: usize,
    text: &str,
    session: &VortexSession,
) -> Result<Array, WireError> {
    let dtype = number_type();
    let array = read(alloc, blob, &dtype, count, &[text], session);
    drop(dtype);
    array
}

// Whether a blob is read as these numbers, with an identifier.
fn is_read_as(
    alloc: Global,
    blob: ByteBuffer,
    array: &Array,
    text: &str,
    session: &VortexSession,
) -> Result<bool, WireError> {
    let again = read_numbers(alloc, blob, array.len(), text, session)?;
    let same = array.array_eq(&again);
    drop(again);
    Ok(same)
}

// Whether numbers are written under this identifier alone, and read again as themselves with it.
fn returns_by(
    alloc: Global,
    array: &Array,
    text: &str,
    session: &VortexSession,
) -> Result<bool, WireError> {
    let mut ctx = allowing(alloc, &[OLD, NEW])?;
    let blob = blob_as(alloc, array, &mut ctx, &[text], session);
    drop(ctx);
    is_read_as(alloc, blob?, array, text, session)
}

// The same with the plugin of both identifiers.
fn returns(alloc: Global, values: &[i32], text: &str) -> Result<bool, WireError> {
    let (array, session) = both(numbers(alloc, values), versioned(alloc))?;
    let told = returns_by(alloc, &array, text, &session);
    drop(session);
    drop(array);
    told
}

#[test]
fn numbers_are_written_under_the_identifier_of_their_length(rt: HostRuntime) {
    assert!(rt; returns(rt.alloc(), &[], OLD) == Ok(true));
    assert!(rt; returns(rt.alloc(), &FOUR, OLD) == Ok(true));
    assert!(rt; returns(rt.alloc(), &[1, 2, 3, 4, 5], NEW) == Ok(true));
    assert!(rt; returns(rt.alloc(), &EIGHT, NEW) == Ok(true));
}

// The refusal of writing an array, where nothing is taken into a context.
fn unwritten_in(
    alloc: Global,
    array: &Array,
    ctx: &mut ArrayContext,
    session: &VortexSession,
) -> Result<WireError, WireError> {
    let error = refusal(written(alloc, array, ctx, session));
    if has_ids(alloc, ctx, &[]) {
        error
    } else {
        Err(WireError::BadContent)
    }
}

// The same for an array where these identifiers are allowed.
fn unwritten_among(
    alloc: Global,
    array: &Array,
    texts: &[&str],
    session: &VortexSession,
) -> Result<WireError, WireError> {
    let mut ctx = allowing(alloc, texts)?;
    let error = unwritten_in(alloc, array, &mut ctx, session);
    drop(ctx);
    error
}

// The same for eight numbers, with the plugin of both identifiers.
fn not_permitted(alloc: Global, texts: &[&str]) -> Result<WireError, WireError> {
    let (array, session) = both(numbers(alloc, &EIGHT), versioned(alloc))?;
    let error = unwritten_among(alloc, &array, texts, &session);
    drop(session);
    drop(array);
    error
}

#[test]
fn a_new_identifier_has_to_be_allowed(rt: HostRuntime) {
    assert!(rt; not_permitted(rt.alloc(), &[OLD]) == Ok(WireError::NotPermitted));
    assert!(rt; not_permitted(rt.alloc(), &[]) == Ok(WireError::NotPermitted));
}

// The refusal of reading the blob of eight numbers with a session of the shipped encodings and this identifier.
fn unread_shipped(alloc: Global, text: &str) -> Result<WireError, WireError> {
    let (blob, session) = both(versioned_blob(alloc, &EIGHT), shipped(alloc))?;
    let error = refusal(read_numbers(alloc, blob, 8, text, &session));
    drop(session);
    error
}

// The same with the session of the plugin.
fn unread_plugged(alloc: Global, text: &str) -> Result<WireError, WireError> {
    let (blob, session) = both(versioned_blob(alloc, &EIGHT), versioned(alloc))?;
    let error = refusal(read_numbers(alloc, blob, 8, text, &session));
    drop(session);
    error
}

#[test]
fn an_identifier_is_read_by_what_declares_it(rt: HostRuntime) {
    assert!(rt; unread_shipped(rt.alloc(), NEW) == Ok(WireError::UnknownEncoding));
    assert!(rt; unread_plugged(rt.alloc(), OLD) == Ok(WireError::PluginRefused));
}

#[test]
fn refusals_of_plugins_have_numbers_of_their_own(rt: HostRuntime) {
    let rows = [
        (WireError::NotSerializable, 26),
        (WireError::UndeclaredId, 27),
        (WireError::PluginRefused, 28),
    ];
    for (error, number) in rows {
        assert!(rt; error.number() == number);
    }
}

// The refusal of writing an array with a session, where nothing is taken into the context.
fn unwritten_by(
    alloc: Global,
    array: &Array,
    session: &VortexSession,
) -> Result<WireError, WireError> {
    let mut ctx = ArrayContext::empty(alloc);
    let error = unwritten_in(alloc, array, &mut ctx, session);
    drop(ctx);
    error
}

// The refusal of writing numbers with an odd plugin.
fn unwritten(alloc: Global, does: Oddity) -> Result<WireError, WireError> {
    let (array, session) = both(numbers(alloc, &TWO), odd(alloc, does))?;
    let error = unwritten_by(alloc, &array, &session);
    drop(session);
    drop(array);
    error
}

#[test]
fn odd_plugins_write_nothing(rt: HostRuntime) {
    let rows = [
        (Oddity::Formless, WireError::NotSerializable),
        (Oddity::Undeclared, WireError::UndeclaredId),
        (Oddity::Unwilling, WireError::PluginRefused),
        (Oddity::Endless, WireError::WireLimit),
    ];
    for (does, error) in rows {
        assert!(rt; unwritten(rt.alloc(), does) == Ok(error));
    }
}

// The blob of numbers, written where both identifiers are allowed.
fn blob_of(
    alloc: Global,
    values: &[i32],
    session: &VortexSession,
) -> Result<ByteBuffer, WireError> {
    let (array, mut ctx) = both(numbers(alloc, values), allowing(alloc, &[OLD, NEW]))?;
    let blob = written(alloc, &array, &mut ctx, session);
    drop(ctx);
    drop(array);
    blob
}

// The same with the plugin of both identifiers.
fn versioned_blob(alloc: Global, values: &[i32]) -> Result<ByteBuffer, WireError> {
    let session = versioned(alloc)?;
    let blob = blob_of(alloc, values, &session);
    drop(session);
    blob
}

// Whether two numbers are written rightly by a session in which the plugin without a form was registered last or first.
fn are_written_by(alloc: Global, last: bool, session: &VortexSession) -> bool {
    let blob = blob_of(alloc, &TWO, session);
    if last {
        refusal(blob) == Ok(WireError::NotSerializable)
    } else {
        is_made(blob)
    }
}

// Whether the blobs of two numbers and of eight are read, and two numbers are written, rightly by such a session.
fn are_read_and_written_by(
    alloc: Global,
    two: ByteBuffer,
    eight: ByteBuffer,
    last: bool,
    session: &VortexSession,
) -> bool {
    let written = are_written_by(alloc, last, session);
    let old = is_made(read_numbers(alloc, two, 2, OLD, session));
    // An identifier that the later plugin does not declare is still the earlier one's.
    let new = is_made(read_numbers(alloc, eight, 8, NEW, session));
    written && old != last && new
}

// The same with a session of both plugins.
fn replaced_by(alloc: Global, last: bool) -> Result<bool, WireError> {
    let blobs = both(versioned_blob(alloc, &TWO), versioned_blob(alloc, &EIGHT));
    let ((two, eight), session) = both(blobs, replaced(alloc, last))?;
    let told = are_read_and_written_by(alloc, two, eight, last, &session);
    drop(session);
    Ok(told)
}

#[test]
fn a_later_plugin_takes_the_place_of_an_earlier_one(rt: HostRuntime) {
    assert!(rt; replaced_by(rt.alloc(), true) == Ok(true));
    assert!(rt; replaced_by(rt.alloc(), false) == Ok(true));
}

// The identifiers of days below a node that the asking plugin reads.
const ASKED: [&str; 3] = [ASKING, "vortex.ext", OLD];

// The blob of three such days by a session, if those identifiers are taken.
fn asked_blob_by(alloc: Global, session: &VortexSession) -> Result<ByteBuffer, WireError> {
    let array = asked_days(alloc, &THREE)?;
    let mut ctx = ArrayContext::empty(alloc);
    let blob = blob_as(alloc, &array, &mut ctx, &ASKED, session);
    drop(ctx);
    drop(array);
    blob
}

// The same with a session that allows what nothing is registered for.
fn asked_blob(alloc: Global) -> Result<ByteBuffer, WireError> {
    let session = allowing_unknown(alloc)?;
    let blob = asked_blob_by(alloc, &session);
    drop(session);
    blob
}

// Whether three days are read from a blob.
fn are_days(
    alloc: Global,
    days: &Array,
    blob: ByteBuffer,
    session: &VortexSession,
) -> Result<bool, WireError> {
    let found = read(alloc, blob, days.dtype(), 3, &ASKED, session)?;
    let same = days.array_eq(&found);
    drop(found);
    Ok(same)
}

// Whether they are with a session whose reader of days accepts them or not.
fn reads_days(alloc: Global, accepts: bool) -> Result<bool, WireError> {
    let parts = both(days(alloc, &THREE), asked_blob(alloc));
    let ((days, blob), session) = both(parts, asking(alloc, accepts))?;
    let told = are_days(alloc, &days, blob, &session);
    drop(session);
    drop(days);
    told
}

#[test]
fn a_plugin_asks_the_readers_of_extensions(rt: HostRuntime) {
    assert!(rt; reads_days(rt.alloc(), true) == Ok(true));
    assert!(rt; reads_days(rt.alloc(), false) == Err(WireError::PluginRefused));
}
