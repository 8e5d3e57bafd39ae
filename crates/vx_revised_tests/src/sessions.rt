//! What sessions hold, and which identifier holds which rows.

use crate::parts::{OLD, Registered, SECOND, lacking, numbers, session_of};
use std::alloc::Global;
use vx_arrays::Array;
use vx_encodings::{Encoding, revised_holds, revised_id};
use vx_registry::{Entry, VortexSession};
use vx_serde::WireError;
use vx_types::Id;

// Whether nodes of an identifier hold `len` rows.
fn holds(alloc: Global, text: &str, len: usize) -> Result<bool, WireError> {
    let id = lacking(Id::new(alloc, text))?;
    Ok(revised_holds(&id, len))
}

// Whether `len` rows are written under this identifier.
fn is_id(alloc: Global, len: usize, text: &str) -> Result<bool, WireError> {
    let id = lacking(revised_id(alloc, len))?;
    Ok(id.as_str() == text)
}

#[test]
fn the_old_identifier_holds_at_most_four_rows(rt: HostRuntime) {
    let rows = [
        (OLD, 0, true),
        (OLD, 4, true),
        (OLD, 5, false),
        (SECOND, 0, true),
        (SECOND, 4, true),
        (SECOND, 5, true),
        ("vortex.bool", 5, true),
    ];
    for (text, len, expected) in rows {
        assert!(rt; holds(rt.alloc(), text, len) == Ok(expected));
    }
    assert!(rt; is_id(rt.alloc(), 4, OLD) == Ok(true));
    assert!(rt; is_id(rt.alloc(), 5, SECOND) == Ok(true));
}

// What reads an identifier in a session.
fn reader(alloc: Global, registered: Registered, text: &str) -> Result<Option<Entry>, WireError> {
    let session = session_of(alloc, registered)?;
    let id = lacking(Id::new(alloc, text))?;
    Ok(session.arrays.reader(&id))
}

#[test]
fn both_identifiers_are_registered_by_one_entry(rt: HostRuntime) {
    let shipped = Some(Entry::Shipped(Encoding::Primitive));
    let rows = [
        (Registered::Shipped, OLD, shipped),
        (Registered::Shipped, SECOND, None),
        (Registered::Revised, OLD, Some(Entry::Revised)),
        (Registered::Revised, SECOND, Some(Entry::Revised)),
        (Registered::RevisedAlone, SECOND, Some(Entry::Revised)),
        (Registered::RevisedThenShipped, OLD, shipped),
        (Registered::RevisedThenShipped, SECOND, Some(Entry::Revised)),
    ];
    for (registered, text, entry) in rows {
        assert!(rt; reader(rt.alloc(), registered, text) == Ok(entry));
    }
}

// Whether a root is serialized under this identifier.
fn is_serialized(
    alloc: Global,
    array: &Array,
    session: &VortexSession,
    text: &str,
) -> Result<bool, WireError> {
    match session.array_serialize(alloc, array) {
        Ok(Some(parts)) => Ok(parts.serialized_id.as_str() == text && array.encoding_id() == OLD),
        Ok(None) => Ok(false),
        Err(_) => Err(WireError::OutOfMemory),
    }
}

// The same for the root of `count` numbers.
fn serialized(
    alloc: Global,
    registered: Registered,
    count: u32,
    text: &str,
) -> Result<bool, WireError> {
    let array = numbers(alloc, count)?;
    let session = session_of(alloc, registered)?;
    is_serialized(alloc, &array, &session, text)
}

#[test]
fn a_root_is_serialized_under_the_identifier_of_its_length(rt: HostRuntime) {
    let rows = [
        (Registered::Shipped, 4, OLD),
        (Registered::Shipped, 5, OLD),
        (Registered::Revised, 4, OLD),
        (Registered::Revised, 5, SECOND),
        (Registered::RevisedThenShipped, 5, OLD),
    ];
    for (registered, count, text) in rows {
        assert!(rt; serialized(rt.alloc(), registered, count, text) == Ok(true));
    }
}
