//! The refusals of this crate.

ghost use Rattle.std.specs.Prelude.{◌≡◌};
ghost use Rattle.vx_fn_wire.specs.declared.error.FnWireError.TheVariants.{OutOfMemory};

use std::alloc::{AllocError, AllocFailed};
use thiserror::Error;
use vx_proto::ProtoError;

/// Why a function or an expression could not be made, read or written.
#[derive(Clone, Copy, Debug, PartialEq, Eq, Error)]
pub enum FnWireError {
    /// An allocation failed.
    #[error("out of memory")]
    OutOfMemory,
    /// The bytes are no message of the schema: 1.
    #[error("the bytes are no message of an expression or of a function")]
    BadMessage,
    /// Over 100 messages nest, on reading or on writing: 2.
    #[error("over 100 messages nest")]
    TooDeep,
    /// An expression with the identifier of the root has children: 3.
    #[error("a root has children")]
    RootWithChildren,
    /// An identifier has no plugin, and functions without one are not allowed: 4.
    #[error("a function's identifier has no reader")]
    UnknownId,
    /// The number of a call's children is outside the function's arity: 5.
    #[error("the number of children is outside the function's arity")]
    ArityMismatch,
    /// The plugin of an aggregate function gave one of another identifier: 6.
    #[error("an aggregate function's reader gave another identifier")]
    IdMismatch,
    /// A function's options cannot be written: 7.
    #[error("a function's options cannot be written")]
    NotSerializable,
    /// The plugin of an identifier refuses the metadata: 8.
    #[error("a function's reader refuses its metadata")]
    PluginRefused,
}

impl From<AllocError> for FnWireError {
    ghost from_gives = { λ _ e. e ≡ OutOfMemory };

    fn from(_e: AllocError) -> FnWireError {
        FnWireError::OutOfMemory
    }
}

impl<T: Drop> From<AllocFailed<T>> for FnWireError {
    ghost from_gives = { λ _ e. e ≡ OutOfMemory };

    fn from(_e: AllocFailed<T>) -> FnWireError {
        FnWireError::OutOfMemory
    }
}

impl From<ProtoError> for FnWireError {
    ghost use Rattle.vx_fn_wire.specs.Refusals.{refusal_of_proto};

    ghost from_gives = { λ p e. e ≡ refusal_of_proto p };

    fn from(error: ProtoError) -> FnWireError {
        match error {
            ProtoError::OutOfMemory => FnWireError::OutOfMemory,
            ProtoError::BadMessage => FnWireError::BadMessage,
            ProtoError::TooDeep => FnWireError::TooDeep,
            ProtoError::OutOfRange => FnWireError::BadMessage,
        }
    }
}
