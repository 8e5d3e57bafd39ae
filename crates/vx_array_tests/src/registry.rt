//! Tests of numbered identifiers, of what sessions read and write, and of the texts of refusals.

use crate::parts::prints;
use std::alloc::Global;
use vx_encodings::Encoding;
use vx_registry::{
    ArrayContext, ArraySession, Entry, PluginError, ReadContext, RegistryError, VortexSession,
};
use vx_type_wire::ExtSession;
use vx_types::{Id, Ids, TypeError};

// The number of an identifier in a context that it may come into.
fn interned(alloc: Global, ctx: &mut ArrayContext, text: &str) -> Option<u16> {
    let Ok(id) = Id::new(alloc, text) else {
        return None;
    };
    match ctx.intern(&id) {
        Ok(place) => place,
        Err(_) => None,
    }
}

// Whether identifiers that come into a context get these numbers.
fn are_numbered(alloc: Global, ctx: &mut ArrayContext, rows: &[(&str, u16)]) -> bool {
    for (text, place) in rows {
        if interned(alloc, ctx, text) != Some(*place) {
            return false;
        }
    }
    true
}

// The identifiers of a context that these came into, where each is numbered by its place.
fn numbered(alloc: Global, rows: &[(&str, u16)]) -> Result<Ids, RegistryError> {
    let mut ctx = ArrayContext::empty(alloc);
    let ids = if are_numbered(alloc, &mut ctx, rows) {
        ctx.to_ids(alloc)
    } else {
        Err(RegistryError::NotRegistered)
    };
    drop(ctx);
    ids
}

// Whether an identifier has this number.
fn is_resolved(read: &ReadContext, index: u16, text: Option<&str>) -> bool {
    read.resolve(index).map(|id| id.as_str()) == text
}

const ROWS: [(&str, u16); 4] = [
    ("vortex.primitive", 0),
    ("vortex.bool", 1),
    ("vortex.primitive", 0),
    ("x.y", 2),
];

// What is read by the identifiers of a context that these came into.
fn read_context(alloc: Global) -> Result<ReadContext, RegistryError> {
    let ids = numbered(alloc, &ROWS)?;
    Ok(ReadContext::new(ids))
}

// Whether an identifier has this number there.
fn is_numbered(alloc: Global, index: u16, text: Option<&str>) -> Result<bool, RegistryError> {
    let read = read_context(alloc)?;
    let resolved = is_resolved(&read, index, text);
    drop(read);
    Ok(resolved)
}

#[test]
fn identifiers_are_numbered_once(rt: HostRuntime) {
    let alloc = rt.alloc();
    assert!(rt; is_numbered(alloc, 0, Some("vortex.primitive")) == Ok(true));
    assert!(rt; is_numbered(alloc, 2, Some("x.y")) == Ok(true));
    assert!(rt; is_numbered(alloc, 3, None) == Ok(true));
}

// An identifier that stands twice.
fn twice(alloc: Global, text: &str) -> Result<Ids, TypeError> {
    let mut ids = Ids::new(alloc);
    for _ in 0..2 {
        ids.push(Id::new(alloc, text)?)?;
    }
    Ok(ids)
}

// Whether the second of two equal identifiers is found.
fn is_kept(alloc: Global, text: &str) -> Result<bool, TypeError> {
    let read = ReadContext::new(twice(alloc, text)?);
    let kept = is_resolved(&read, 1, Some(text));
    drop(read);
    Ok(kept)
}

#[test]
fn repeats_are_kept_on_reading(rt: HostRuntime) {
    assert!(rt; is_kept(rt.alloc(), "a") == Ok(true));
}

// Whether an identifier is read and written by this encoding, or by none.
fn is_entry(
    alloc: Global,
    arrays: &ArraySession,
    text: &str,
    encoding: Option<Encoding>,
) -> Result<bool, TypeError> {
    let id = Id::new(alloc, text)?;
    let entry = encoding.map(Entry::Shipped);
    Ok(arrays.reader(&id) == entry && arrays.writer(&id) == entry)
}

// The shipped session.
fn shipped(alloc: Global) -> Result<VortexSession, RegistryError> {
    let arrays = ArraySession::default(alloc)?;
    Ok(VortexSession::new(arrays, ExtSession::new(alloc)))
}

// Whether the empty session neither reads nor writes an identifier.
fn is_unread(alloc: Global, text: &str) -> bool {
    let arrays = ArraySession::empty(alloc);
    let entry = is_entry(alloc, &arrays, text, None);
    drop(arrays);
    entry == Ok(true)
}

const ENTRIES: [(&str, Option<Encoding>); 13] = [
    ("vortex.null", Some(Encoding::Null)),
    ("vortex.primitive", Some(Encoding::Primitive)),
    ("vortex.bool", Some(Encoding::Bool)),
    ("vortex.decimal", Some(Encoding::Decimal)),
    ("vortex.struct", Some(Encoding::Struct)),
    ("vortex.ext", Some(Encoding::Extension)),
    ("vortex.list", Some(Encoding::List)),
    ("vortex.listview", Some(Encoding::ListView)),
    ("vortex.map", Some(Encoding::Map)),
    ("vortex.union", Some(Encoding::Union)),
    ("vortex.dict", Some(Encoding::Dict)),
    ("vortex.variant", Some(Encoding::Variant)),
    ("", None),
];

// How many of the rows a session reads and writes so.
fn entries(alloc: Global, arrays: &ArraySession) -> u8 {
    let mut count: u8 = 0;
    for (text, encoding) in &ENTRIES {
        if is_entry(alloc, arrays, text, *encoding) == Ok(true) {
            count = count.saturating_add(1);
        }
    }
    count
}

// How many of the rows the shipped session reads and writes so.
fn shipped_entries(alloc: Global) -> Result<u8, RegistryError> {
    let session = shipped(alloc)?;
    let count = entries(alloc, &session.arrays);
    drop(session);
    Ok(count)
}

#[test]
fn the_shipped_session_reads_and_writes_its_encodings(rt: HostRuntime) {
    assert!(rt; shipped_entries(rt.alloc()) == Ok(13));
}

#[test]
fn the_empty_session_reads_and_writes_nothing(rt: HostRuntime) {
    for (text, _) in &ENTRIES {
        assert!(rt; is_unread(rt.alloc(), text), "{text}");
    }
}

const TEXTS: [(RegistryError, &str); 5] = [
    (RegistryError::OutOfMemory, "out of memory"),
    (
        RegistryError::NotRegistered,
        "nothing writes the arrays of this encoding",
    ),
    (
        RegistryError::UndeclaredId,
        "a plugin names an identifier that it does not declare",
    ),
    (RegistryError::PluginRefused, "a plugin refuses the array"),
    (
        RegistryError::WireLimit,
        "the metadata does not fit its message",
    ),
];

const PLUGIN_TEXTS: [(PluginError, &str); 2] = [
    (PluginError::OutOfMemory, "out of memory"),
    (PluginError::Refused, "the plugin refuses"),
];

#[test]
fn texts_of_refusals(rt: HostRuntime) {
    for (error, text) in &TEXTS {
        assert!(rt; prints(rt.alloc(), error, text), "{text}");
    }
}

#[test]
fn texts_of_refusals_of_plugins(rt: HostRuntime) {
    for (error, text) in &PLUGIN_TEXTS {
        assert!(rt; prints(rt.alloc(), error, text), "{text}");
    }
}
