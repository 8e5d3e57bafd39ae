//! Calls in which an allocation may fail: each test holds whichever fails, and what stands afterwards is what stood
//! before, or what the call was to leave.

use crate::asked::{Asked, Kind, number};
use crate::program::{COMMANDS, Command, FILES, are_same_at, are_same_but, status_of, store_of};
use crate::samples::{begun, blob_of_one_there, ids_of, one_there, session_of};
use std::alloc::Global;
use vx_arrays::Array;
use vx_encodings::Encoding;
use vx_registry::{ArrayContext, ArraySession, Entry, PluginEntry, RegistryError, VortexSession};
use vx_serde::{ArrayExt, SerializeOptions, WireError};
use vx_types::{Id, TypeError};
use vxcat_store::{MemSink, MemStore, StoreError};

// Whether the program over a store ends well or with allocation failure, and leaves what its status says. A write of
// the output whose memory cannot be allocated is a fault.
fn ends_well(
    alloc: Global,
    command: &Command<'_>,
    before: &MemStore,
    done: &MemStore,
    store: &mut MemStore,
) -> bool {
    let mut out = MemSink::new(alloc);
    let status = status_of(alloc, command.words, store, &mut out);
    let text = command.text.as_bytes();
    let printed = match status {
        0 => out.text() == text,
        1 | 5 => text.starts_with(out.text()),
        _ => false,
    };
    printed
        && are_same_but(store, before, command.saves)
        && (status == 1 || are_same_at(store, done, command.saves))
}

// The same over the files of the tests; the outputs are those of an earlier run, which may have failed to allocate.
fn ends_so(alloc: Global, command: &Command<'_>) -> Result<bool, StoreError> {
    let before = store_of(alloc, &FILES)?;
    let mut done = store_of(alloc, &FILES)?;
    let mut store = store_of(alloc, &FILES)?;
    let mut out = MemSink::new(alloc);
    if status_of(alloc, command.words, &mut done, &mut out) == 1 {
        return Err(StoreError::OutOfMemory);
    }
    Ok(ends_well(alloc, command, &before, &done, &mut store))
}

#[test]
fn each_command_ends_well_or_wants_memory(rt: HostRuntime) {
    for command in &COMMANDS {
        assert!(rt; ends_so(rt.alloc(), command) != Ok(false), "{command:?}");
    }
}

// Whether a session reads and writes an identifier by this entry, or by none.
fn is_entry(session: &ArraySession, id: &Id, entry: Option<Entry>) -> bool {
    session.reader(id) == entry && session.writer(id) == entry
}

// Whether booleans are registered beside numbers, or handed back, and numbers are found as before.
fn is_whole(session: &mut ArraySession, flags: &Id, numbers: &Id) -> bool {
    let whole = match session.register(PluginEntry::Shipped(Encoding::Bool)) {
        Ok(()) => is_entry(session, flags, Some(Entry::Shipped(Encoding::Bool))),
        Err(refused) => {
            matches!(refused.value, PluginEntry::Shipped(Encoding::Bool))
                && is_entry(session, flags, None)
                && session.registry().len() == 1
        }
    };
    whole && is_entry(session, numbers, Some(Entry::Shipped(Encoding::Primitive)))
}

// The same for a session of numbers alone.
fn registers(alloc: Global) -> Result<bool, TypeError> {
    let flags = Id::new(alloc, "vortex.bool")?;
    let numbers = Id::new(alloc, "vortex.primitive")?;
    let mut session = ArraySession::empty(alloc);
    if session
        .register(PluginEntry::Shipped(Encoding::Primitive))
        .is_err()
    {
        return Ok(session.registry().len() == 0 && is_entry(&session, &numbers, None));
    }
    let whole = is_whole(&mut session, &flags, &numbers);
    drop(session);
    Ok(whole)
}

#[test]
fn an_entry_is_registered_whole_or_handed_back(rt: HostRuntime) {
    assert!(rt; registers(rt.alloc()) != Ok(false));
}

// The number of a context's identifiers, if they are these or the first of them, in this order.
fn count_of(alloc: Global, ctx: &ArrayContext, texts: &[&str]) -> Result<usize, RegistryError> {
    let ids = ctx.to_ids(alloc)?;
    for (id, text) in ids.as_slice().iter().zip(texts) {
        if id.as_str() != *text {
            return Ok(0);
        }
    }
    Ok(if ids.len() <= texts.len() {
        ids.len()
    } else {
        0
    })
}

// Whether an identifier is appended to a context, or nothing is.
fn comes(alloc: Global, ctx: &mut ArrayContext, id: &Id) -> Result<bool, RegistryError> {
    let place = ctx.intern(id);
    let count = count_of(alloc, ctx, &["a", "b"])?;
    Ok(match place {
        Ok(place) => place == Some(1) && count == 2,
        Err(_) => count == 1,
    })
}

// The same for the second identifier.
fn interns(alloc: Global) -> Result<bool, RegistryError> {
    let Ok(id) = Id::new(alloc, "b") else {
        return Err(RegistryError::OutOfMemory);
    };
    let mut ctx = begun(alloc, &["a"])?;
    let comes = comes(alloc, &mut ctx, &id);
    drop(ctx);
    comes
}

#[test]
fn an_identifier_comes_whole_or_not_at_all(rt: HostRuntime) {
    assert!(rt; interns(rt.alloc()) != Ok(false));
}

// The identifiers of a number over a validity, after one.
const GROWN: [&str; 3] = ["a", "vortex.primitive", "vortex.bool"];

// Whether a context has all identifiers, or, where allocation failed, some first of them.
fn is_left(alloc: Global, ctx: &ArrayContext, number: u8) -> Result<bool, RegistryError> {
    let count = count_of(alloc, ctx, &GROWN)?;
    Ok(match number {
        0 => count == 3,
        1 => count > 0,
        _ => false,
    })
}

// The number of the result of writing an array.
fn number_of(alloc: Global, array: &Array, ctx: &mut ArrayContext, session: &VortexSession) -> u8 {
    let options = SerializeOptions::default();
    match array.serialize(alloc, ctx, session, &options).err() {
        None => 0,
        Some(error) => error.number(),
    }
}

// The same for a number over a validity, with the shipped encodings.
fn number_written(alloc: Global, ctx: &mut ArrayContext) -> u8 {
    let Ok(array) = one_there(alloc) else {
        return 1;
    };
    match session_of(alloc, false) {
        Ok(session) => number_of(alloc, &array, ctx, &session),
        Err(_) => 1,
    }
}

// A number over a validity, under the identifiers by which they are written.
const ONE_THERE: Asked<'static> = Asked {
    kind: Kind::SomeBytes,
    len: 1,
    ids: &["vortex.primitive", "vortex.bool"],
    unknown: false,
    offset: 0,
};

// The number of the result of writing its blob again.
fn number_again(alloc: Global, ctx: &mut ArrayContext) -> u8 {
    match blob_of_one_there(alloc) {
        Ok(blob) => number(alloc, blob.as_slice(), &ONE_THERE, ctx),
        Err(_) => 1,
    }
}

// Whether a context that begins with `a` has its identifiers in order once an array is written, or its blob again.
fn writes(alloc: Global, again: bool) -> Result<bool, RegistryError> {
    let mut ctx = begun(alloc, &["a"])?;
    let number = if again {
        number_again(alloc, &mut ctx)
    } else {
        number_written(alloc, &mut ctx)
    };
    let left = is_left(alloc, &ctx, number);
    drop(ctx);
    left
}

#[test]
fn a_context_grows_at_its_end(rt: HostRuntime) {
    assert!(rt; writes(rt.alloc(), false) != Ok(false));
    assert!(rt; writes(rt.alloc(), true) != Ok(false));
}
