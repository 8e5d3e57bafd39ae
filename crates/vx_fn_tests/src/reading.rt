//! Aggregate functions out of messages, under sessions.

use crate::echo::{Echo, Zoned};
use crate::samples::id_of;
use std::alloc::Global;
use vx_fn_wire::{
    AggregateFn, AggregateFnPlugin, AggregateFnSession, FnSession, FnWireError, ScalarFnSession, pb,
};
use vx_proto::{Blob, Message};
use vx_types::{DType, Id};

const FOREIGN: &[u8] = b"\x0a\x1dvortex.test.foreign_aggregate\x12\x03\x07\x08\x09";

// A session that knows nothing.
fn session(alloc: Global, unknown: bool) -> FnSession {
    FnSession {
        scalars: ScalarFnSession::new(alloc),
        aggregates: AggregateFnSession::new(alloc),
        unknown,
    }
}

// The plugin of `x.f`, which makes functions of the identifier `gives`.
fn echo(alloc: Global, gives: Option<Id>) -> Result<Box<Echo>, FnWireError> {
    let id = id_of(alloc, "x.f")?;
    Ok(Box::new(alloc, Echo { id, gives })?)
}

// The same, for an identifier of this text.
fn echo_of(alloc: Global, text: &str) -> Result<Box<Echo>, FnWireError> {
    let id = id_of(alloc, text)?;
    echo(alloc, Some(id))
}

// A session of this plugin alone.
fn aggregates(alloc: Global, plugin: Box<Echo>) -> Result<AggregateFnSession, FnWireError> {
    let mut aggregates = AggregateFnSession::new(alloc);
    aggregates.register(plugin)?;
    Ok(aggregates)
}

// A session that knows `x.f`, whose plugin makes functions of the identifier `gives`, if it is not empty.
fn echoing(alloc: Global, gives: &str) -> Result<FnSession, FnWireError> {
    let plugin = if gives.is_empty() {
        echo(alloc, None)?
    } else {
        echo_of(alloc, gives)?
    };
    Ok(FnSession {
        scalars: ScalarFnSession::new(alloc),
        aggregates: aggregates(alloc, plugin)?,
        unknown: false,
    })
}

// The function that bytes are read as.
fn read(alloc: Global, bytes: &[u8], session: &FnSession) -> Result<AggregateFn, FnWireError> {
    let message = pb::AggregateFn::decode(alloc, bytes)?;
    AggregateFn::from_proto(alloc, &message, session)
}

// The bytes of a function's message.
fn written(alloc: Global, function: &AggregateFn) -> Result<Blob, FnWireError> {
    let message = function.serialize_proto(alloc)?;
    Ok(message.encode_to_vec(alloc)?)
}

// Whether a function is written as these bytes.
fn is_written(alloc: Global, function: &AggregateFn, bytes: &[u8]) -> bool {
    match written(alloc, function) {
        Ok(written) => written.as_slice() == bytes,
        Err(_) => false,
    }
}

// Whether the function that bytes are read as is written as the bytes `expected`, or the refusal of the bytes.
fn again(
    alloc: Global,
    bytes: &[u8],
    session: &FnSession,
    expected: &[u8],
) -> Result<bool, FnWireError> {
    let function = read(alloc, bytes, session)?;
    Ok(is_written(alloc, &function, expected))
}

#[test]
fn unregistered(rt: HostRuntime) {
    let alloc = rt.alloc();
    let open = session(alloc, true);
    assert!(rt; again(alloc, FOREIGN, &open, FOREIGN) == Ok(true));
    let refused = again(alloc, FOREIGN, &session(alloc, false), FOREIGN);
    assert!(rt; refused == Err(FnWireError::UnknownId));
    let refused = again(alloc, b"\x0a\xff", &open, FOREIGN);
    assert!(rt; refused == Err(FnWireError::BadMessage));
}

// The same under a session that knows `x.f`, whose plugin makes functions of the identifier `gives`.
fn echoed(alloc: Global, gives: &str, bytes: &[u8], expected: &[u8]) -> Result<bool, FnWireError> {
    let session = echoing(alloc, gives)?;
    again(alloc, bytes, &session, expected)
}

#[test]
fn registered(rt: HostRuntime) {
    let alloc = rt.alloc();
    let bytes = b"\x0a\x03x.f\x12\x01\x05";
    assert!(rt; echoed(alloc, "x.f", bytes, bytes) == Ok(true));
    let empty = b"\x0a\x03x.f\x12\x00";
    assert!(rt; echoed(alloc, "x.f", b"\x0a\x03x.f", empty) == Ok(true));
}

#[test]
fn refused(rt: HostRuntime) {
    let alloc = rt.alloc();
    let other = echoed(alloc, "x.f", b"\x0a\x03x.g", b"");
    assert!(rt; other == Err(FnWireError::UnknownId));
    let other = echoed(alloc, "x.g", b"\x0a\x03x.f", b"");
    assert!(rt; other == Err(FnWireError::IdMismatch));
    let none = echoed(alloc, "", b"\x0a\x03x.f", b"");
    assert!(rt; none == Err(FnWireError::PluginRefused));
}

// The plugin of this identifier that tells zones apart by its own function.
fn zoned(alloc: Global, text: &str) -> Result<Box<Zoned>, FnWireError> {
    let id = id_of(alloc, text)?;
    Ok(Box::new(alloc, Zoned { id })?)
}

// The functions of `x.f`, which tells no zones apart, and then of `x.g` and of this one, which do.
fn zoning(alloc: Global, last: &str) -> Result<AggregateFnSession, FnWireError> {
    let plugin = echo(alloc, None)?;
    let mut functions = aggregates(alloc, plugin)?;
    functions.register(zoned(alloc, "x.g")?)?;
    functions.register(zoned(alloc, last)?)?;
    Ok(functions)
}

// The identifier of a function for zones; nothing where there is none.
fn text_of(zones: &Option<AggregateFn>) -> &str {
    match zones {
        Some(function) => function.id.as_str(),
        None => "",
    }
}

// Whether the plugin at an identifier gives this function for zones, or none.
fn tells(alloc: Global, functions: &AggregateFnSession, at: &Id, zones: &str) -> bool {
    let Some(plugin) = functions.registry().get(at) else {
        return false;
    };
    match plugin.zone_stat_default(alloc, &DType::Null) {
        Ok(given) => text_of(&given) == zones,
        Err(_) => false,
    }
}

// The same with the functions of which this one was registered last.
fn zones_at(alloc: Global, last: &str, at: &str, zones: &str) -> Result<bool, FnWireError> {
    let functions = zoning(alloc, last)?;
    let id = id_of(alloc, at)?;
    Ok(tells(alloc, &functions, &id, zones))
}

// What was registered last, where a plugin is looked up, its function for zones, and whether that is right.
const ZONES: [(&str, &str, &str, bool); 5] = [
    ("x.h", "x.f", "", true),
    ("x.h", "x.g", "x.g", true),
    ("x.f", "x.f", "x.f", true),
    ("x.f", "x.g", "x.g", true),
    ("x.f", "x.h", "", false),
];

#[test]
fn zones(rt: HostRuntime) {
    for (last, at, zones, stands) in &ZONES {
        let told = zones_at(rt.alloc(), last, at, zones);
        assert!(rt; told == Ok(*stands), "{last} {at}");
    }
}
