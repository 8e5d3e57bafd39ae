//! Tests of what sessions register, of an array's parts as they are written, and of contexts that begin with
//! identifiers or limit them.

use crate::parts::numbers;
use std::alloc::{AllocFailed, Global};
use vx_arrays::{Array, ArrayError, Arrays};
use vx_buffer::BufferHandles;
use vx_encodings::Encoding;
use vx_registry::{
    ArrayContext, ArrayDeserialization, ArraySerialization, ArraySession, Entry, PluginEntry,
    ReadContext, RegistryError, VortexSession,
};
use vx_type_wire::ExtSession;
use vx_types::{Blob, DType, Id, Ids, PType, TypeError};

// A list of identifiers.
fn list_of(alloc: Global, texts: &[&str]) -> Result<Ids, TypeError> {
    let mut ids = Ids::new(alloc);
    for text in texts {
        ids.push(Id::new(alloc, text)?)?;
    }
    Ok(ids)
}

// Whether these are the identifiers, in this order.
fn are_ids(ids: &Ids, texts: &[&str]) -> bool {
    if ids.len() != texts.len() {
        return false;
    }
    for (id, text) in ids.as_slice().iter().zip(texts) {
        if id.as_str() != *text {
            return false;
        }
    }
    true
}

// A context that begins with `a`, `a` and `b`.
fn begun(alloc: Global) -> Result<ArrayContext, RegistryError> {
    match list_of(alloc, &["a", "a", "b"]) {
        Ok(ids) => ArrayContext::new(alloc, &ids),
        Err(_) => Err(RegistryError::OutOfMemory),
    }
}

// Whether these are a context's identifiers, in this order.
fn has_ids(alloc: Global, context: &ArrayContext, texts: &[&str]) -> bool {
    match context.to_ids(alloc) {
        Ok(ids) => are_ids(&ids, texts),
        Err(_) => false,
    }
}

// Whether these are its identifiers, in this order.
fn is_begun(alloc: Global, texts: &[&str]) -> Result<bool, RegistryError> {
    let context = begun(alloc)?;
    let begun = has_ids(alloc, &context, texts);
    drop(context);
    Ok(begun)
}

#[test]
fn a_context_begins_with_each_identifier_once(rt: HostRuntime) {
    assert!(rt; is_begun(rt.alloc(), &["a", "b"]) == Ok(true));
}

// That context, where only `a` is allowed.
fn limited(alloc: Global) -> Result<ArrayContext, RegistryError> {
    match list_of(alloc, &["a"]) {
        Ok(allowed) => begun(alloc)?.with_allowed_ids(alloc, &allowed),
        Err(_) => Err(RegistryError::OutOfMemory),
    }
}

// The number of an identifier in a context.
fn place_in(
    alloc: Global,
    context: &mut ArrayContext,
    text: &str,
) -> Result<Option<u16>, RegistryError> {
    match Id::new(alloc, text) {
        Ok(id) => context.intern(&id),
        Err(_) => Err(RegistryError::OutOfMemory),
    }
}

// Whether an identifier has this number in the limited context, and nothing comes into it.
fn is_limited(alloc: Global, text: &str, place: Option<u16>) -> Result<bool, RegistryError> {
    let mut context = limited(alloc)?;
    let found = place_in(alloc, &mut context, text);
    let kept = has_ids(alloc, &context, &["a", "b"]);
    drop(context);
    Ok(kept && found == Ok(place))
}

#[test]
fn only_allowed_identifiers_come(rt: HostRuntime) {
    assert!(rt; is_limited(rt.alloc(), "a", Some(0)) == Ok(true));
    assert!(rt; is_limited(rt.alloc(), "b", None) == Ok(true));
    assert!(rt; is_limited(rt.alloc(), "c", None) == Ok(true));
}

// Whether that context, with `c` in it and then truncated to `len` identifiers, has these.
fn is_cut(alloc: Global, len: usize, texts: &[&str]) -> Result<bool, RegistryError> {
    let mut context = begun(alloc)?;
    let place = place_in(alloc, &mut context, "c");
    let grown = context.len() == 3 && context.get(2).map(|id| id.as_str()) == Some("c");
    context.truncate(len);
    let cut = context.len() == texts.len() && has_ids(alloc, &context, texts);
    drop(context);
    Ok(place == Ok(Some(2)) && grown && cut)
}

#[test]
fn a_context_is_truncated_to_what_it_was(rt: HostRuntime) {
    assert!(rt; is_cut(rt.alloc(), 2, &["a", "b"]) == Ok(true));
    assert!(rt; is_cut(rt.alloc(), 0, &[]) == Ok(true));
    assert!(rt; is_cut(rt.alloc(), 9, &["a", "b", "c"]) == Ok(true));
}

// The numbers that `b` and `a` get in the limited context without identifiers.
fn places_in_a_cut_one(alloc: Global) -> Result<(Option<u16>, Option<u16>), RegistryError> {
    let mut context = limited(alloc)?;
    context.truncate(0);
    let b = place_in(alloc, &mut context, "b");
    let a = place_in(alloc, &mut context, "a");
    drop(context);
    Ok((b?, a?))
}

#[test]
fn a_truncated_context_allows_what_it_did(rt: HostRuntime) {
    assert!(rt; places_in_a_cut_one(rt.alloc()) == Ok((None, Some(0))));
}

// The identifiers `a` and `b` of a reader.
fn reader(alloc: Global) -> Result<ReadContext, RegistryError> {
    match list_of(alloc, &["a", "b"]) {
        Ok(ids) => Ok(ReadContext::new(ids)),
        Err(_) => Err(RegistryError::OutOfMemory),
    }
}

// Whether the identifier of a number is this one.
fn resolves(read: &ReadContext, index: u16, text: Option<&str>) -> bool {
    read.resolve(index).map(|id| id.as_str()) == text
}

// Whether a reader's identifiers grow by one at the end, and are as they were once they are truncated.
fn grows_and_goes_back(alloc: Global) -> Result<bool, RegistryError> {
    let mut read = reader(alloc)?;
    let pushed = match Id::new(alloc, "b") {
        Ok(id) => read.push(id),
        Err(_) => Err(RegistryError::OutOfMemory),
    };
    let grown = read.len() == 3 && resolves(&read, 2, Some("b"));
    read.truncate(2);
    let kept = read.len() == 2 && resolves(&read, 1, Some("b")) && resolves(&read, 2, None);
    drop(read);
    Ok(pushed == Ok(()) && grown && kept)
}

#[test]
fn a_reader_goes_back_to_the_identifiers_that_it_had(rt: HostRuntime) {
    assert!(rt; grows_and_goes_back(rt.alloc()) == Ok(true));
}

// Registers numbers, twice.
fn register_numbers(session: &mut ArraySession) -> Result<(), AllocFailed<PluginEntry>> {
    session.register(PluginEntry::Shipped(Encoding::Primitive))?;
    session.register(PluginEntry::Shipped(Encoding::Primitive))
}

// Whether a session reads and writes an identifier by this encoding, or by none.
fn is_entry(alloc: Global, session: &ArraySession, text: &str, encoding: Option<Encoding>) -> bool {
    let entry = encoding.map(Entry::Shipped);
    match Id::new(alloc, text) {
        Ok(id) => session.reader(&id) == entry && session.writer(&id) == entry,
        Err(_) => false,
    }
}

// Whether a session registers numbers alone.
fn is_of_numbers(alloc: Global, session: &ArraySession) -> bool {
    session.registry().len() == 1
        && is_entry(
            alloc,
            session,
            "vortex.primitive",
            Some(Encoding::Primitive),
        )
        && is_entry(alloc, session, "vortex.null", None)
}

// Whether a session that numbers are registered in twice registers numbers alone.
fn are_registered_once(alloc: Global) -> bool {
    let mut session = ArraySession::empty(alloc);
    let registered = register_numbers(&mut session).is_ok();
    let alone = is_of_numbers(alloc, &session);
    drop(session);
    registered && alone
}

#[test]
fn an_entry_takes_the_place_of_the_one_before(rt: HostRuntime) {
    assert!(rt; are_registered_once(rt.alloc()));
}

const BYTES: [u8; 16] = [1, 0, 0, 0, 2, 0, 0, 0, 3, 0, 0, 0, 4, 0, 0, 0];

// The numbers 1, 2, 3 and 4.
fn four(alloc: Global) -> Result<Array, ArrayError> {
    numbers(alloc, &BYTES, PType::I32, 4)
}

// Whether parts are those of the four numbers.
fn are_fours(parts: &ArraySerialization) -> bool {
    let Some(buffer) = parts.buffers.get(0) else {
        return false;
    };
    parts.serialized_id.as_str() == "vortex.primitive"
        && parts.metadata.is_empty()
        && parts.buffers.len() == 1
        && buffer.as_host().as_slice() == BYTES.as_slice()
        && parts.children.len() == 0
}

// The parts of an array, or why they are not made.
type Parts = Result<ArraySerialization, RegistryError>;

// The parts of the four numbers.
fn parts_of_fours(alloc: Global) -> Parts {
    match four(alloc) {
        Ok(array) => {
            let parts = ArraySerialization::from_array(alloc, &array);
            drop(array);
            parts
        }
        Err(_) => Err(RegistryError::OutOfMemory),
    }
}

// A copy of parts that were made.
fn copied_parts(alloc: Global, parts: Parts) -> Parts {
    let parts = parts?;
    let copy = parts.clone(alloc);
    drop(parts);
    copy
}

// Whether parts that were made are those of the four numbers.
fn have_fours(parts: Parts) -> Result<bool, RegistryError> {
    let parts = parts?;
    let fours = are_fours(&parts);
    drop(parts);
    Ok(fours)
}

#[test]
fn parts_are_the_arrays(rt: HostRuntime) {
    let alloc = rt.alloc();
    assert!(rt; have_fours(parts_of_fours(alloc)) == Ok(true));
    assert!(rt; have_fours(copied_parts(alloc, parts_of_fours(alloc))) == Ok(true));
}

// The parts of an array as these encodings write it.
fn written(
    alloc: Global,
    arrays: ArraySession,
    array: &Array,
) -> Result<Option<ArraySerialization>, RegistryError> {
    let session = VortexSession::new(arrays, ExtSession::new(alloc));
    let parts = session.array_serialize(alloc, array);
    drop(session);
    parts
}

// The same of the four numbers.
fn written_fours(
    alloc: Global,
    arrays: ArraySession,
) -> Result<Option<ArraySerialization>, RegistryError> {
    match four(alloc) {
        Ok(array) => {
            let parts = written(alloc, arrays, &array);
            drop(array);
            parts
        }
        Err(_) => {
            drop(arrays);
            Err(RegistryError::OutOfMemory)
        }
    }
}

// Whether the four numbers are written by these encodings, as their parts.
fn fours_are_written(alloc: Global, arrays: ArraySession) -> Result<bool, RegistryError> {
    match written_fours(alloc, arrays)? {
        Some(parts) => have_fours(Ok(parts)),
        None => Ok(false),
    }
}

// The same by the encodings that are shipped.
fn are_shipped(alloc: Global) -> Result<bool, RegistryError> {
    let arrays = ArraySession::default(alloc)?;
    fours_are_written(alloc, arrays)
}

#[test]
fn what_is_registered_is_written(rt: HostRuntime) {
    let alloc = rt.alloc();
    assert!(rt; are_shipped(alloc) == Ok(true));
    let refused = fours_are_written(alloc, ArraySession::empty(alloc));
    assert!(rt; refused == Err(RegistryError::NotRegistered));
}

// What three nulls are built of.
fn parts_of_nulls(alloc: Global) -> Result<ArrayDeserialization, TypeError> {
    let id = Id::new(alloc, "vortex.null")?;
    let metadata = Blob::copy_from(alloc, &[])?;
    let buffers = BufferHandles::new(alloc);
    Ok(ArrayDeserialization::new(id, DType::Null, 3, metadata, buffers, Arrays::new(alloc)))
}

// Whether that is passed on.
fn are_handed_on(alloc: Global) -> Result<bool, TypeError> {
    let parts = parts_of_nulls(alloc)?;
    let handed_on = parts.serialized_id.as_str() == "vortex.null" && parts.len == 3;
    drop(parts);
    Ok(handed_on)
}

#[test]
fn what_is_built_of_is_handed_on(rt: HostRuntime) {
    assert!(rt; are_handed_on(rt.alloc()) == Ok(true));
}

// Whether a session allows unknown identifiers, at first and once that is set.
fn allows_unknown(alloc: Global) -> (bool, bool) {
    let mut session = VortexSession::new(ArraySession::empty(alloc), ExtSession::new(alloc));
    let first = session.allows_unknown();
    session.allow_unknown();
    let then = session.allows_unknown();
    drop(session);
    (first, then)
}

#[test]
fn nothing_unknown_is_allowed_at_first(rt: HostRuntime) {
    assert!(rt; allows_unknown(rt.alloc()) == (false, true));
}
