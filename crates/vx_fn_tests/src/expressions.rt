//! Expressions: their texts, and the messages by which they are written.

use crate::samples::{call, deep, named, or_memory, over, prints};
use std::alloc::Global;
use vx_fn_wire::{Expression, Expressions, FnWireError, pb};
use vx_proto::Message;
use vx_types::Blob;

// The root, and a foreign call of the root.
fn two(alloc: Global) -> Result<Expressions, FnWireError> {
    let mut children = Expressions::new(alloc);
    children.push(Expression::Root)?;
    children.push(over(alloc, Expression::Root)?)?;
    Ok(children)
}

// The call of a function on these two, with these options.
fn pair(alloc: Global, options: Option<Blob>) -> Result<Expression, FnWireError> {
    let function = named(alloc, options)?;
    call(function, two(alloc)?)
}

// The call of a function with options of one byte.
fn pair_with_options(alloc: Global) -> Result<Expression, FnWireError> {
    let options = or_memory(Blob::copy_from(alloc, b"\x05"))?;
    pair(alloc, Some(options))
}

// Whether the expression has this text, if it was made.
fn has_text(alloc: Global, made: Result<Expression, FnWireError>, text: &str) -> bool {
    match made {
        Ok(expression) => prints(alloc, &expression, text),
        Err(_) => false,
    }
}

#[test]
fn texts(rt: HostRuntime) {
    let alloc = rt.alloc();
    assert!(rt; has_text(alloc, Ok(Expression::Root), "root"));
    let expression = over(alloc, Expression::Root);
    assert!(rt; has_text(alloc, expression, "vortex.test.foreign_scalar_fn(root)"));
    let expected = "x.f(root, vortex.test.foreign_scalar_fn(root))";
    assert!(rt; has_text(alloc, pair(alloc, None), expected));
}

// Whether bytes are read as a message that is written as the same bytes.
fn come_back(alloc: Global, bytes: &[u8]) -> Result<bool, FnWireError> {
    let read = pb::Expr::decode(alloc, bytes)?;
    let again = read.encode_to_vec(alloc)?;
    Ok(again.as_slice() == bytes)
}

// Whether the expression is written as these bytes.
fn has_bytes(alloc: Global, expression: &Expression, bytes: &[u8]) -> bool {
    match expression.to_proto_bytes(alloc) {
        Ok(written) => written.as_slice() == bytes,
        Err(_) => false,
    }
}

// Whether the expression, if it was made, is written as these bytes, which are the message that they are read as.
fn is_written(alloc: Global, made: Result<Expression, FnWireError>, bytes: &[u8]) -> bool {
    match made {
        Ok(expression) => {
            has_bytes(alloc, &expression, bytes) && matches!(come_back(alloc, bytes), Ok(true))
        }
        Err(_) => false,
    }
}

const ROOT: &[u8] = b"\x0a\x0bvortex.root\x1a\x00";

const FOREIGN: &[u8] =
    b"\x0a\x1dvortex.test.foreign_scalar_fn\x12\x0f\x0a\x0bvortex.root\x1a\x00\x1a\x04\x01\x02\x03\x04";

const BOTH: &[u8] =
    b"\x0a\x03x.f\x12\x0f\x0a\x0bvortex.root\x1a\x00\x12\x36\x0a\x1dvortex.test.foreign_scalar_fn\x12\x0f\x0a\x0bvortex.root\x1a\x00\x1a\x04\x01\x02\x03\x04\x1a\x01\x05";

#[test]
fn messages(rt: HostRuntime) {
    let alloc = rt.alloc();
    assert!(rt; is_written(alloc, Ok(Expression::Root), ROOT));
    assert!(rt; is_written(alloc, over(alloc, Expression::Root), FOREIGN));
    assert!(rt; is_written(alloc, pair_with_options(alloc), BOTH));
}

// Whether an expression can be written, and the refusal if it is not.
fn refusal(alloc: Global, expression: &Expression) -> (bool, Option<FnWireError>) {
    (
        expression.is_serializable(),
        expression.to_proto_bytes(alloc).err(),
    )
}

// The same for the expression, if it was made.
fn refusal_of(
    alloc: Global,
    made: Result<Expression, FnWireError>,
) -> Option<(bool, Option<FnWireError>)> {
    match made {
        Ok(expression) => Some(refusal(alloc, &expression)),
        Err(_) => None,
    }
}

// A foreign call of a call without options.
fn silent_within(alloc: Global) -> Result<Expression, FnWireError> {
    let silent = pair(alloc, None)?;
    over(alloc, silent)
}

#[test]
fn what_cannot_be_written(rt: HostRuntime) {
    let alloc = rt.alloc();
    let refused = Some((false, Some(FnWireError::NotSerializable)));
    assert!(rt; refusal_of(alloc, pair(alloc, None)) == refused);
    assert!(rt; refusal_of(alloc, silent_within(alloc)) == refused);
    assert!(rt; refusal_of(alloc, over(alloc, Expression::Root)) == Some((true, None)));
}

#[test]
fn levels(rt: HostRuntime) {
    let alloc = rt.alloc();
    assert!(rt; refusal_of(alloc, deep(alloc, 100)) == Some((true, None)));
    let too_deep = Some((true, Some(FnWireError::TooDeep)));
    assert!(rt; refusal_of(alloc, deep(alloc, 101)) == too_deep);
}
