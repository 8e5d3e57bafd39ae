//! Expressions out of messages, under sessions.

use crate::pairing::Pairing;
use crate::samples::{deep, id_of, prints};
use std::alloc::Global;
use vx_fn_wire::{
    AggregateFnSession, ExprSerializeProtoExt, Expression, FnSession, FnWireError, ScalarFnSession,
    deserialize_expr_proto, pb,
};
use vx_proto::Message;
use vx_types::Blob;

const ROOT: &[u8] = b"\x0a\x0bvortex.root\x1a\x00";

const FOREIGN: &[u8] =
    b"\x0a\x1dvortex.test.foreign_scalar_fn\x12\x0f\x0a\x0bvortex.root\x1a\x00\x1a\x04\x01\x02\x03\x04";

// The pairing `x.g`.
fn pairing(alloc: Global) -> Result<Box<Pairing>, FnWireError> {
    let id = id_of(alloc, "x.g")?;
    Ok(Box::new(alloc, Pairing { id })?)
}

// A session of functions of rows that knows this pairing alone.
fn scalars(alloc: Global) -> Result<ScalarFnSession, FnWireError> {
    let plugin = pairing(alloc)?;
    let mut scalars = ScalarFnSession::new(alloc);
    scalars.register(plugin)?;
    Ok(scalars)
}

// A session that knows the pairing.
fn session(alloc: Global, unknown: bool) -> Result<FnSession, FnWireError> {
    Ok(FnSession {
        scalars: scalars(alloc)?,
        aggregates: AggregateFnSession::new(alloc),
        unknown,
    })
}

// Whether an expression is written as these bytes.
fn is_written(alloc: Global, expression: &Expression, bytes: &[u8]) -> bool {
    match expression.to_proto_bytes(alloc) {
        Ok(written) => written.as_slice() == bytes,
        Err(_) => false,
    }
}

// Whether bytes are read as an expression of this text, which is written as the bytes `again`.
fn is_read(alloc: Global, bytes: &[u8], text: &str, again: &[u8], session: &FnSession) -> bool {
    match Expression::from_proto_bytes(alloc, bytes, session) {
        Ok(expression) => {
            prints(alloc, &expression, text) && is_written(alloc, &expression, again)
        }
        Err(_) => false,
    }
}

// The same under a session that allows unknown functions.
fn is_row(alloc: Global, bytes: &[u8], text: &str, again: &[u8]) -> bool {
    match session(alloc, true) {
        Ok(session) => is_read(alloc, bytes, text, again, &session),
        Err(_) => false,
    }
}

#[test]
fn read(rt: HostRuntime) {
    let alloc = rt.alloc();
    assert!(rt; is_row(alloc, ROOT, "root", ROOT));
    // A root without metadata, and one whose metadata is ignored.
    assert!(rt; is_row(alloc, b"\x0a\x0bvortex.root", "root", ROOT));
    assert!(rt; is_row(alloc, b"\x0a\x0bvortex.root\x1a\x01\x05", "root", ROOT));
    assert!(rt;
        is_row(
            alloc,
            FOREIGN,
            "vortex.test.foreign_scalar_fn(root)",
            FOREIGN
        )
    );
}

#[test]
fn read_calls(rt: HostRuntime) {
    let alloc = rt.alloc();
    // Absent metadata is empty, and so is an absent identifier, which is not written.
    assert!(rt; is_row(alloc, b"", "()", b"\x1a\x00"));
    // Children keep their order, and the plugin gives its function.
    let bytes = b"\x0a\x03x.g\x12\x03\x0a\x01a\x12\x03\x0a\x01b\x1a\x01\x05";
    let again = b"\x0a\x03x.g\x12\x05\x0a\x01a\x1a\x00\x12\x05\x0a\x01b\x1a\x00\x1a\x01\x05";
    assert!(rt; is_row(alloc, bytes, "x.g(a(), b())", again));
}

// The refusal of bytes under such a session.
fn refusal(alloc: Global, bytes: &[u8], unknown: bool) -> Option<FnWireError> {
    match session(alloc, unknown) {
        Ok(session) => Expression::from_proto_bytes(alloc, bytes, &session).err(),
        Err(_) => None,
    }
}

#[test]
fn refused_messages(rt: HostRuntime) {
    let alloc = rt.alloc();
    let children = Some(FnWireError::RootWithChildren);
    assert!(rt; refusal(alloc, b"\x0a\xff", true) == Some(FnWireError::BadMessage));
    // A root with a child, and a call of one.
    let bytes = b"\x0a\x0bvortex.root\x12\x0d\x0a\x0bvortex.root";
    assert!(rt; refusal(alloc, bytes, true) == children);
    let bytes =
        b"\x0a\x1dvortex.test.foreign_scalar_fn\x12\x1c\x0a\x0bvortex.root\x12\x0d\x0a\x0bvortex.root\x1a\x04\x01\x02\x03\x04";
    assert!(rt; refusal(alloc, bytes, true) == children);
}

#[test]
fn refused_functions(rt: HostRuntime) {
    let alloc = rt.alloc();
    // The plugin's function has two children, and the plugin refuses empty metadata.
    let bytes = b"\x0a\x03x.g\x12\x0d\x0a\x0bvortex.root\x1a\x01\x05";
    assert!(rt; refusal(alloc, bytes, false) == Some(FnWireError::ArityMismatch));
    assert!(rt; refusal(alloc, b"\x0a\x03x.g", true) == Some(FnWireError::PluginRefused));
    assert!(rt; refusal(alloc, FOREIGN, false) == Some(FnWireError::UnknownId));
}

// The bytes of the call of `x` on the expression whose bytes these are, of under 16,384.
fn called(alloc: Global, bytes: &[u8]) -> Result<Vec<u8>, FnWireError> {
    let len = bytes.len();
    let low = (len % 128) as u8 + 128;
    let high = (len / 128 % 128) as u8;
    let mut call = Vec::from_slice(alloc, &[0x0a, 0x01, 0x78, 0x12, low, high])?;
    call.extend_from_slice(bytes)?;
    Ok(call)
}

// Whether the call of `x` on the expression of these bytes is too deep.
fn is_too_deep_called(alloc: Global, bytes: &[u8]) -> bool {
    match called(alloc, bytes) {
        Ok(deeper) => refusal(alloc, &deeper, true) == Some(FnWireError::TooDeep),
        Err(_) => false,
    }
}

// The bytes of an expression of 100 levels.
fn deepest(alloc: Global) -> Result<Blob, FnWireError> {
    let expression = deep(alloc, 100)?;
    expression.to_proto_bytes(alloc)
}

// Whether bytes are read as an expression that is written as the same bytes.
fn come_back(alloc: Global, bytes: &[u8], session: &FnSession) -> bool {
    match Expression::from_proto_bytes(alloc, bytes, session) {
        Ok(expression) => is_written(alloc, &expression, bytes),
        Err(_) => false,
    }
}

// Whether the bytes of 100 levels come back under a session, and the call of `x` on them is too deep.
fn is_deepest(alloc: Global, session: &FnSession) -> bool {
    match deepest(alloc) {
        Ok(bytes) => {
            come_back(alloc, bytes.as_slice(), session)
                && is_too_deep_called(alloc, bytes.as_slice())
        }
        Err(_) => false,
    }
}

#[test]
fn levels(rt: HostRuntime) {
    let alloc = rt.alloc();
    match session(alloc, true) {
        Ok(session) => assert!(rt; is_deepest(alloc, &session)),
        Err(_) => assert!(rt; false),
    }
}

// The expression of a message of these bytes.
fn of_message(alloc: Global, bytes: &[u8], session: &FnSession) -> Result<Expression, FnWireError> {
    let message = pb::Expr::decode(alloc, bytes)?;
    Expression::from_proto(alloc, &message, session)
}

// What an expression is read as once it is written as a message.
fn again(
    alloc: Global,
    expression: &Expression,
    session: &FnSession,
) -> Result<Expression, FnWireError> {
    let message = expression.serialize_proto(alloc)?;
    deserialize_expr_proto(alloc, &message, session)
}

// Whether that is written as these bytes.
fn is_again(alloc: Global, read: &Expression, bytes: &[u8], session: &FnSession) -> bool {
    match again(alloc, read, session) {
        Ok(expression) => is_written(alloc, &expression, bytes),
        Err(_) => false,
    }
}

// Whether a message's bytes come back through messages.
fn come_back_as_messages(alloc: Global, bytes: &[u8], session: &FnSession) -> bool {
    match of_message(alloc, bytes, session) {
        Ok(read) => is_again(alloc, &read, bytes, session),
        Err(_) => false,
    }
}

#[test]
fn messages(rt: HostRuntime) {
    let alloc = rt.alloc();
    match session(alloc, true) {
        Ok(session) => assert!(rt; come_back_as_messages(alloc, FOREIGN, &session)),
        Err(_) => assert!(rt; false),
    }
}
