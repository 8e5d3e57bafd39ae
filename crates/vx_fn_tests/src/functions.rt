//! Functions: their options, how their calls look, and the messages of aggregate functions.

use crate::samples::{foreign, id_of, metadata, named, or_memory, prints};
use std::alloc::Global;
use std::hash::{FoldHasher, Hash, Hasher};
use vx_fn_wire::{
    AggregateFn, Arity, FnWireError, ForeignAggregateFnOptions, ForeignAggregateFnVTable,
    ForeignScalarFnOptions, ForeignScalarFnVTable, PluginError, ScalarFn, ScalarFnOptions,
    ScalarFnSignature, new_foreign_aggregate_fn, pb,
};
use vx_proto::Message;
use vx_types::{Blob, Id};

// Whether a call of a function of this arity may have 0, 1, 2 and 3 children.
fn admits(arity: Arity, rows: [bool; 4]) -> bool {
    arity.admits(0) == rows[0]
        && arity.admits(1) == rows[1]
        && arity.admits(2) == rows[2]
        && arity.admits(3) == rows[3]
}

#[test]
fn arities(rt: HostRuntime) {
    let open = Arity::Variadic { min: 1, max: None };
    let closed = Arity::Variadic {
        min: 1,
        max: Some(2),
    };
    assert!(rt; admits(Arity::Exact(2), [false, false, true, false]));
    assert!(rt; admits(open, [false, true, true, true]));
    assert!(rt; admits(closed, [false, true, true, false]));
}

fn hash_of<T: Hash>(value: &T) -> u64 {
    let mut state = FoldHasher::default();
    value.hash(&mut state);
    state.finish()
}

// Whether two values are equal and hash alike.
fn are_alike<T: Hash>(one: &T, other: &T) -> bool {
    *one == *other && hash_of(one) == hash_of(other)
}

// Options of a foreign function of this arity.
fn options_of(alloc: Global, arity: usize) -> Result<ForeignScalarFnOptions, FnWireError> {
    Ok(ForeignScalarFnOptions::new(metadata(alloc)?, arity))
}

// Whether a copy of options is the same.
fn are_copied(alloc: Global, options: &ForeignScalarFnOptions) -> bool {
    match options.clone(alloc) {
        Ok(again) => are_alike(&again, options),
        Err(_) => false,
    }
}

// Whether options of another arity are not equal.
fn are_told_apart(alloc: Global, options: &ForeignScalarFnOptions) -> bool {
    match options_of(alloc, 2) {
        Ok(others) => others != *options,
        Err(_) => false,
    }
}

#[test]
fn foreign_options(rt: HostRuntime) {
    let alloc = rt.alloc();
    match options_of(alloc, 1) {
        Ok(options) => {
            assert!(rt; prints(alloc, &options, "foreign(arity=1, metadata=4B)"));
            assert!(rt; are_copied(alloc, &options));
            assert!(rt; are_told_apart(alloc, &options));
        }
        Err(_) => assert!(rt; false),
    }
}

// Options of a foreign aggregate function.
fn aggregate_options(alloc: Global) -> Result<ForeignAggregateFnOptions, FnWireError> {
    let metadata = or_memory(Blob::copy_from(alloc, b"\x07\x08\x09"))?;
    Ok(ForeignAggregateFnOptions::new(metadata))
}

// Whether a copy of such options is the same.
fn are_copied_too(alloc: Global, options: &ForeignAggregateFnOptions) -> bool {
    match options.clone(alloc) {
        Ok(again) => are_alike(&again, options),
        Err(_) => false,
    }
}

#[test]
fn foreign_aggregate_options(rt: HostRuntime) {
    let alloc = rt.alloc();
    match aggregate_options(alloc) {
        Ok(options) => {
            assert!(rt; prints(alloc, &options, "foreign(metadata=3B)"));
            assert!(rt; are_copied_too(alloc, &options));
        }
        Err(_) => assert!(rt; false),
    }
}

// A copy of the table of the foreign function of an identifier.
fn table(alloc: Global, id: Id) -> Result<ForeignScalarFnVTable, FnWireError> {
    ForeignScalarFnVTable::new(id).clone(alloc)
}

// The same of an aggregate function.
fn aggregate_table(alloc: Global, id: Id) -> Result<ForeignAggregateFnVTable, FnWireError> {
    ForeignAggregateFnVTable::new(id).clone(alloc)
}

// Whether the table of a foreign function keeps an identifier of this text.
fn is_kept(alloc: Global, text: &str) -> Result<bool, FnWireError> {
    let id = id_of(alloc, text)?;
    Ok(table(alloc, id)?.id().as_str() == text)
}

// The same of an aggregate function.
fn is_kept_too(alloc: Global, text: &str) -> Result<bool, FnWireError> {
    let id = id_of(alloc, text)?;
    Ok(aggregate_table(alloc, id)?.id().as_str() == text)
}

#[test]
fn foreign_tables(rt: HostRuntime) {
    let alloc = rt.alloc();
    assert!(rt; is_kept(alloc, "x.y") == Ok(true));
    assert!(rt; is_kept_too(alloc, "x.z") == Ok(true));
}

// Whether options are written as these bytes, or are not written.
fn is_metadata(alloc: Global, options: &ScalarFnOptions<'_>, bytes: Option<&[u8]>) -> bool {
    match options.serialize(alloc) {
        Ok(written) => match (&written, bytes) {
            (Some(written), Some(bytes)) => written.as_slice() == bytes,
            (None, None) => true,
            _ => false,
        },
        Err(_) => false,
    }
}

// Whether a child has this name.
fn is_name(alloc: Global, signature: &ScalarFnSignature<'_>, index: usize, text: &str) -> bool {
    match signature.child_name(alloc, index) {
        Ok(name) => name.as_str() == text,
        Err(_) => false,
    }
}

// Whether options and signature are those of the foreign function.
fn is_foreign(alloc: Global, function: &ScalarFn) -> bool {
    let options = function.options();
    let signature = function.signature();
    prints(alloc, &options, "foreign(arity=1, metadata=4B)")
        && is_metadata(alloc, &options, Some(b"\x01\x02\x03\x04"))
        && signature.arity() == Arity::Exact(1)
        && !signature.is_strict()
        && !signature.is_infallible()
        && is_name(alloc, &signature, 3, "arg3")
}

#[test]
fn foreign_functions(rt: HostRuntime) {
    let alloc = rt.alloc();
    match foreign(alloc) {
        Ok(function) => assert!(rt; is_foreign(alloc, &function)),
        Err(_) => assert!(rt; false),
    }
}

// Whether options and signature are those of the named function without options.
fn is_named(alloc: Global, function: &ScalarFn) -> bool {
    let options = function.options();
    let signature = function.signature();
    prints(alloc, &options, "of the rows")
        && is_metadata(alloc, &options, None)
        && signature.is_strict()
        && signature.is_infallible()
        && is_name(alloc, &signature, 0, "left")
        && is_name(alloc, &signature, 1, "arg1")
}

#[test]
fn named_functions(rt: HostRuntime) {
    let alloc = rt.alloc();
    match named(alloc, None) {
        Ok(function) => assert!(rt; is_named(alloc, &function)),
        Err(_) => assert!(rt; false),
    }
}

// The named function with empty options.
fn with_options(alloc: Global) -> Result<ScalarFn, FnWireError> {
    let options = or_memory(Blob::copy_from(alloc, b""))?;
    named(alloc, Some(options))
}

// Whether a function's options are their own, and not those of the named function with empty ones.
fn are_own(alloc: Global, function: &ScalarFn) -> bool {
    let options = function.options();
    match with_options(alloc) {
        Ok(other) => are_alike(&options, &function.options()) && options != other.options(),
        Err(_) => false,
    }
}

#[test]
fn options_are_compared(rt: HostRuntime) {
    let alloc = rt.alloc();
    match named(alloc, None) {
        Ok(function) => assert!(rt; are_own(alloc, &function)),
        Err(_) => assert!(rt; false),
    }
}

// The bytes of a function's message.
fn written(alloc: Global, function: &AggregateFn) -> Result<vx_proto::Blob, FnWireError> {
    let message = function.serialize_proto(alloc)?;
    Ok(message.encode_to_vec(alloc)?)
}

// The foreign aggregate function of the rows.
fn aggregate(alloc: Global) -> Result<AggregateFn, FnWireError> {
    let id = id_of(alloc, "vortex.test.foreign_aggregate")?;
    let metadata = or_memory(Blob::copy_from(alloc, b"\x07\x08\x09"))?;
    Ok(new_foreign_aggregate_fn(id, metadata))
}

// Whether the foreign aggregate function is written as these bytes.
fn is_written(alloc: Global, bytes: &[u8]) -> Result<bool, FnWireError> {
    let function = aggregate(alloc)?;
    Ok(written(alloc, &function)?.as_slice() == bytes)
}

// Whether bytes are read as a message that is written as they are.
fn come_back(alloc: Global, bytes: &[u8]) -> Result<bool, FnWireError> {
    let read = pb::AggregateFn::decode(alloc, bytes)?;
    let again = read.encode_to_vec(alloc)?;
    Ok(again.as_slice() == bytes)
}

// Why an aggregate function without options is not written.
fn silence(alloc: Global) -> Result<Option<FnWireError>, FnWireError> {
    let id = id_of(alloc, "x.f")?;
    let silent = AggregateFn { id, options: None };
    Ok(written(alloc, &silent).err())
}

#[test]
fn aggregate_functions(rt: HostRuntime) {
    let alloc = rt.alloc();
    let bytes = b"\x0a\x1dvortex.test.foreign_aggregate\x12\x03\x07\x08\x09";
    assert!(rt; is_written(alloc, bytes) == Ok(true));
    assert!(rt; come_back(alloc, bytes) == Ok(true));
    assert!(rt; silence(alloc) == Ok(Some(FnWireError::NotSerializable)));
}

const TEXTS: [(FnWireError, &str); 9] = [
    (FnWireError::OutOfMemory, "out of memory"),
    (
        FnWireError::BadMessage,
        "the bytes are no message of an expression or of a function",
    ),
    (FnWireError::TooDeep, "over 100 messages nest"),
    (FnWireError::RootWithChildren, "a root has children"),
    (
        FnWireError::UnknownId,
        "a function's identifier has no reader",
    ),
    (
        FnWireError::ArityMismatch,
        "the number of children is outside the function's arity",
    ),
    (
        FnWireError::IdMismatch,
        "an aggregate function's reader gave another identifier",
    ),
    (
        FnWireError::NotSerializable,
        "a function's options cannot be written",
    ),
    (
        FnWireError::PluginRefused,
        "a function's reader refuses its metadata",
    ),
];

const PLUGIN_TEXTS: [(PluginError, &str); 2] = [
    (PluginError::OutOfMemory, "out of memory"),
    (PluginError::Refused, "the plugin refuses"),
];

#[test]
fn texts_of_refusals(rt: HostRuntime) {
    for (error, text) in &TEXTS {
        assert!(rt; prints(rt.alloc(), error, text), "{text}");
    }
    for (error, text) in &PLUGIN_TEXTS {
        assert!(rt; prints(rt.alloc(), error, text), "{text}");
    }
}
