//! Reads and writes worked messages.

use crate::kinds::{ArrayKind, EveryKind, PairKind, TypeKind};
use crate::messages::{ARRAY, EVERY, TYPE};
use std::alloc::{AllocError, Global};
use vx_flat::{
    FlatBuffer, FlatError, TableKind, TableValue, read_value, write_value, write_value_plain,
};

/// A message with some of its bytes changed.
fn with_bytes(alloc: Global, message: &[u8], set: &[(usize, u8)]) -> Result<Vec<u8>, AllocError> {
    let mut bytes = Vec::from_slice(alloc, message)?;
    for (place, byte) in set {
        if let Some(old) = bytes.get_mut(*place) {
            *old = *byte;
        }
    }
    Ok(bytes)
}

/// Whether a value is printed as `text`.
fn is_printed_as(alloc: Global, value: &TableValue, text: &str) -> bool {
    match format!(in alloc; "{value:?}") {
        Ok(printed) => printed.as_str() == text,
        Err(_) => false,
    }
}

/// Whether a message shows a value that is printed as `text` and written as the same message, with
/// field tables shared or not.
fn is_worked<K: TableKind>(
    alloc: Global,
    kind: &K,
    shared: bool,
    message: &[u8],
    text: &str,
) -> Result<bool, FlatError> {
    let value = read_value(alloc, message, kind)?;
    let written = if shared {
        write_value(alloc, kind, &value)?
    } else {
        write_value_plain(alloc, kind, &value)?
    };
    Ok(is_printed_as(alloc, &value, text) && is_message(&written, message))
}

/// Whether these are the bytes of a message.
fn is_message(written: &FlatBuffer, message: &[u8]) -> bool {
    written.as_slice() == message && written.len() == message.len() && !written.is_empty()
}

const ARRAY_TEXT: &str =
    "TableValue { fields: [Table([Number(0), Elements([]), Tables([]), Elements([0, 0]), Table([Absent, Number(0), Absent, Number(0), Absent, Absent, Absent, Absent, Absent, Absent, Absent])]), Elements([0, 0, 2, 0, 16, 0, 0, 0])] }";

const TYPE_TEXT: &str = "TableValue { fields: [Member(3, [Number(6), Number(0)])] }";

const EVERY_TEXT: &str =
    "TableValue { fields: [Number(0), Number(300), Number(70000), Number(1099511627781), Number(0), Absent, Number(1), Number(0), Number(0), Absent, Elements([1, 0, 2, 0]), Elements([1, 0, 2, 3, 0, 4]), Text(\"ab\"), Texts([\"\", \"é\"]), Table([Number(7)]), Tables([[Number(0)], [Number(8)]]), Member(2, [Text(\"c\")]), Unknown(9), Absent] }";

#[test]
fn worked_messages(rt: HostRuntime) {
    assert!(rt; is_worked(rt.alloc(), &ArrayKind, true, &ARRAY, ARRAY_TEXT) == Ok(true));
    assert!(rt; is_worked(rt.alloc(), &TypeKind, true, &TYPE, TYPE_TEXT) == Ok(true));
    assert!(rt; is_worked(rt.alloc(), &EveryKind, false, &EVERY, EVERY_TEXT) == Ok(true));
}

/// Whether the vector of a written message has its bytes.
fn is_a_vector(alloc: Global) -> Result<bool, FlatError> {
    let value = read_value(alloc, &TYPE, &TypeKind)?;
    let written = write_value(alloc, &TypeKind, &value)?;
    Ok(written.into_vec().as_slice() == TYPE.as_slice())
}

#[test]
fn a_message_is_a_vector(rt: HostRuntime) {
    assert!(rt; is_a_vector(rt.alloc()) == Ok(true));
}

/// Why a message with some of its bytes changed is refused, if it is.
fn refusal_with<K: TableKind>(
    alloc: Global,
    kind: &K,
    message: &[u8],
    set: &[(usize, u8)],
) -> Option<FlatError> {
    match with_bytes(alloc, message, set) {
        Ok(bytes) => read_value(alloc, &bytes, kind).err(),
        Err(_) => Some(FlatError::OutOfMemory),
    }
}

/// Ill-formed variants of the worked array.
const BREACHES: [(&str, &[(usize, u8)]); 16] = [
    ("the root past the end", &[(0, 148)]),
    ("a root of three bytes", &[(0, 145)]),
    ("a field table before the message", &[(16, 17)]),
    ("a field table past the end", &[(19, 0x80)]),
    ("a field table of odd length", &[(8, 9)]),
    ("a field table of length 0", &[(8, 0)]),
    ("a field table of length 2", &[(8, 2)]),
    ("a field table that ends past the end", &[(8, 254)]),
    ("a field past the end", &[(12, 144)]),
    ("an offset past the end", &[(20, 255)]),
    (
        "a largest offset",
        &[(20, 255), (21, 255), (22, 255), (23, 255)],
    ),
    ("a table offset of 0, where no table is", &[(20, 0)]),
    ("a vector that ends past the end", &[(136, 2)]),
    (
        "a largest count",
        &[(136, 255), (137, 255), (138, 255), (139, 255)],
    ),
    ("a vector of offsets that ends past the end", &[(80, 17)]),
    ("a vector's offset to no table", &[(80, 1)]),
];

/// Ill-formed variants of the message with a field of every kind.
const OTHER_BREACHES: [(&str, &[(usize, u8)]); 7] = [
    ("a text that is no UTF-8", &[(156, 0xff)]),
    ("a text without its zero byte", &[(158, 1)]),
    ("a text that ends past the end", &[(152, 255)]),
    ("a tag alone", &[(46, 0)]),
    ("an offset alone", &[(44, 0)]),
    ("a tag of 0 with an offset", &[(108, 0)]),
    ("a tag that stands where there is no member", &[(52, 4)]),
];

#[test]
fn breaches_are_refused(rt: HostRuntime) {
    let bad = Some(FlatError::BadTable);
    for (name, set) in &BREACHES {
        assert_eq!(rt;
            refusal_with(rt.alloc(), &ArrayKind, &ARRAY, set),
            bad,
            "{name}"
        );
    }
    for (name, set) in &OTHER_BREACHES {
        assert_eq!(rt;
            refusal_with(rt.alloc(), &EveryKind, &EVERY, set),
            bad,
            "{name}"
        );
    }
}

/// Unusual variants of the worked array that are accepted.
const ODDITIES: [(&str, &[(usize, u8)]); 4] = [
    ("two vectors in one place", &[(52, 36)]),
    ("a vector that lies across others", &[(52, 37)]),
    ("a field table that reaches into its table", &[(8, 10)]),
    ("a field past its field table", &[(32, 12)]),
];

/// Unusual variants of the message with a field of every kind.
const OTHER_ODDITIES: [(&str, &[(usize, u8)]); 3] = [
    ("a flag of 7", &[(82, 7)]),
    (
        "an unknown member whose offset leads nowhere",
        &[(123, 255)],
    ),
    ("a text and texts by offsets of 0", &[(92, 0), (96, 0)]),
];

#[test]
fn oddities_are_accepted(rt: HostRuntime) {
    for (name, set) in &ODDITIES {
        assert_eq!(rt;
            refusal_with(rt.alloc(), &ArrayKind, &ARRAY, set),
            None,
            "{name}"
        );
    }
    for (name, set) in &OTHER_ODDITIES {
        assert_eq!(rt;
            refusal_with(rt.alloc(), &EveryKind, &EVERY, set),
            None,
            "{name}"
        );
    }
}

/// A message of nested tables, each in the first field of its parent, or in both.
pub fn nested(alloc: Global, levels: usize, both: bool) -> Result<Vec<u8>, AllocError> {
    let second = if both { 8 } else { 0 };
    let mut message = Vec::from_slice(alloc, &[16, 0, 0, 0, 0, 0, 0, 0])?;
    for _ in 1..levels {
        message.extend_from_slice(&[8, 0, 12, 0, 4, 0, second, 0])?;
        message.extend_from_slice(&[8, 0, 0, 0, 20, 0, 0, 0, 16, 0, 0, 0, 0, 0, 0, 0])?;
    }
    message.extend_from_slice(&[4, 0, 4, 0, 0, 0, 0, 0, 8, 0, 0, 0])?;
    Ok(message)
}

/// Why this many nested tables are refused, if they are.
fn refusal_of(alloc: Global, levels: usize, both: bool) -> Option<FlatError> {
    match nested(alloc, levels, both) {
        Ok(message) => read_value(alloc, &message, &PairKind).err(),
        Err(_) => Some(FlatError::OutOfMemory),
    }
}

#[test]
fn limits(rt: HostRuntime) {
    assert_eq!(rt; refusal_of(rt.alloc(), 63, false), None);
    assert_eq!(rt; refusal_of(rt.alloc(), 64, false), None);
    assert_eq!(rt;
        refusal_of(rt.alloc(), 65, false),
        Some(FlatError::TableLimit)
    );
    assert_eq!(rt;
        refusal_of(rt.alloc(), 20, true),
        Some(FlatError::TableLimit)
    );
}

const TEXTS: [(FlatError, &str); 4] = [
    (FlatError::OutOfMemory, "out of memory"),
    (
        FlatError::BadTable,
        "the message shows no value of its kind",
    ),
    (
        FlatError::TableLimit,
        "the message nests too deep, or unfolds to too many tables or bytes",
    ),
    (
        FlatError::MessageTooLong,
        "the written message would be too long",
    ),
];

/// Whether an error is printed as `text`.
fn is_said(alloc: Global, error: FlatError, text: &str) -> bool {
    match format!(in alloc; "{error}") {
        Ok(printed) => printed.as_str() == text,
        Err(_) => false,
    }
}

#[test]
fn texts_of_refusals(rt: HostRuntime) {
    for (error, text) in &TEXTS {
        assert!(rt; is_said(rt.alloc(), *error, text), "{text}");
    }
}
