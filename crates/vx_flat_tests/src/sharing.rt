//! Messages with equal field tables, shared and not shared.

use crate::kinds::{ArrayKind, EveryKind};
use crate::messages::{EVERY_SHARED, NODES};
use std::alloc::Global;
use vx_flat::{FlatError, TableKind, read_value, write_value, write_value_plain};

/// Whether the value of the message is written as the message, and in the plain form as
/// `plain_len` bytes that are read as the same value.
fn has_both_forms<K: TableKind>(
    alloc: Global,
    kind: &K,
    message: &[u8],
    plain_len: usize,
) -> Result<bool, FlatError> {
    let value = read_value(alloc, message, kind)?;
    let shared = write_value(alloc, kind, &value)?;
    let plain = write_value_plain(alloc, kind, &value)?;
    let again = read_value(alloc, plain.as_slice(), kind)?;
    let shared_again = write_value(alloc, kind, &again)?;
    Ok(
        plain.len() == plain_len
            && shared.as_slice() == message
            && shared_again.as_slice() == message,
    )
}

#[test]
fn worked_forms(rt: HostRuntime) {
    assert!(rt; has_both_forms(rt.alloc(), &ArrayKind, &NODES, 260) == Ok(true));
    assert!(rt; has_both_forms(rt.alloc(), &EveryKind, &EVERY_SHARED, 278) == Ok(true));
}
