//! The texts of the refusals of blobs and arrays.

use std::alloc::Global;
use vx_serde::WireError;

// Whether a refusal has this text.
fn is_text(alloc: Global, error: WireError, text: &str) -> bool {
    match format!(in alloc; "{error}") {
        Ok(printed) => printed.as_str() == text,
        Err(_) => false,
    }
}

const TEXTS: [(WireError, &str); 20] = [
    (WireError::OutOfMemory, "out of memory"),
    (WireError::TooShort, "the blob is too short"),
    (
        WireError::BadTable,
        "the message is no array message with a root",
    ),
    (
        WireError::TableLimit,
        "the message passes a limit on reading",
    ),
    (WireError::BadAlignment, "a buffer's alignment is over 2^16"),
    (WireError::Compressed, "a buffer is compressed"),
    (
        WireError::OutOfBounds,
        "a buffer lies out of bounds or has no descriptor",
    ),
    (
        WireError::UnknownIndex,
        "an encoding's index has no identifier",
    ),
    (
        WireError::UnknownEncoding,
        "an encoding's identifier is not registered",
    ),
    (
        WireError::BadMetadata,
        "an encoding's metadata is ill-formed",
    ),
    (
        WireError::BadShape,
        "a node's parts do not fit its encoding",
    ),
    (WireError::BadContent, "a node's content is broken"),
    (
        WireError::ForeignControl,
        "a foreign node says where rows are, or is the entries of a map",
    ),
    (WireError::BadStats, "a node's statistics are ill-formed"),
    (
        WireError::NotPermitted,
        "an encoding's identifier is not permitted",
    ),
    (WireError::WireLimit, "the array passes a limit on writing"),
    (
        WireError::NotRegistered,
        "nothing writes the arrays of an encoding",
    ),
    (
        WireError::NotSerializable,
        "a plugin has no form for an array",
    ),
    (
        WireError::UndeclaredId,
        "a plugin names an identifier that it does not declare",
    ),
    (WireError::PluginRefused, "a plugin refuses"),
];

#[test]
fn texts_of_refusals(rt: HostRuntime) {
    for (error, text) in &TEXTS {
        assert!(rt; is_text(rt.alloc(), *error, text), "{text}");
    }
}
