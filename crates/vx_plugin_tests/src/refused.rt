//! A context that is not empty, where an array's node is refused.

use crate::odd::Oddity;
use crate::parts::{has_ids, ids_of, numbers, odd};
use std::alloc::Global;
use vx_arrays::Array;
use vx_registry::{ArrayContext, ArraySession, VortexSession};
use vx_serde::{ArrayNodeFlatBuffer, WireError};
use vx_test_arrays::parts::both;
use vx_type_wire::ExtSession;

// A context that holds `a`.
fn holding(alloc: Global) -> Result<ArrayContext, WireError> {
    let ids = ids_of(alloc, &["a"])?;
    let ctx = ArrayContext::new(alloc, &ids);
    drop(ids);
    match ctx {
        Ok(ctx) => Ok(ctx),
        Err(_) => Err(WireError::OutOfMemory),
    }
}

// Whether the node of an array is refused so, and the context holds `a` as before and nothing else.
fn keeps_a(
    alloc: Global,
    array: &Array,
    session: &VortexSession,
    error: WireError,
) -> Result<bool, WireError> {
    let mut ctx = holding(alloc)?;
    let found = match ArrayNodeFlatBuffer::try_new(alloc, &mut ctx, session, array) {
        Ok(_) => None,
        Err(e) => Some(e),
    };
    let kept = has_ids(alloc, &ctx, &["a"]);
    drop(ctx);
    Ok(found == Some(error) && kept)
}

// The same for three numbers.
fn numbers_refused(
    alloc: Global,
    session: Result<VortexSession, WireError>,
    error: WireError,
) -> Result<bool, WireError> {
    let (session, array) = both(session, numbers(alloc, &[1, 2, 3]))?;
    let kept = keeps_a(alloc, &array, &session, error);
    drop(array);
    drop(session);
    kept
}

#[test]
fn a_context_keeps_its_identifier_where_nothing_writes(rt: HostRuntime) {
    let alloc = rt.alloc();
    let session = VortexSession::new(ArraySession::empty(alloc), ExtSession::new(alloc));
    let error = WireError::NotRegistered;
    assert!(rt; numbers_refused(alloc, Ok(session), error) == Ok(true));
}

// The same with a plugin that does not write numbers as it should.
fn odd_refused(alloc: Global, does: Oddity, error: WireError) -> bool {
    numbers_refused(alloc, odd(alloc, does), error) == Ok(true)
}

#[test]
fn a_context_keeps_its_identifier_where_a_plugin_does_not_write(rt: HostRuntime) {
    let alloc = rt.alloc();
    assert!(rt; odd_refused(alloc, Oddity::Formless, WireError::NotSerializable));
    assert!(rt; odd_refused(alloc, Oddity::Undeclared, WireError::UndeclaredId));
    assert!(rt; odd_refused(alloc, Oddity::Unwilling, WireError::PluginRefused));
    assert!(rt; odd_refused(alloc, Oddity::Endless, WireError::WireLimit));
}
