//! Refusals of this crate.

ghost use Rattle.std.specs.Prelude.{◌≡◌};
ghost use Rattle.vx_type_wire.specs.declared.error.TypeWireError.TheVariants.{OutOfMemory};

use std::alloc::{AllocError, AllocFailed};
use thiserror::Error;
use vx_flat::FlatError;
use vx_proto::ProtoError;
use vx_types::TypeError;

/// Why a message is not read as a type, or a type is not written.
#[derive(Clone, Copy, Debug, PartialEq, Eq, Error)]
pub enum TypeWireError {
    /// An allocation failed.
    #[error("out of memory")]
    OutOfMemory,
    /// The message shows no table of the kind: 1.
    #[error("the message is no table of a type")]
    BadTable,
    /// The message passes a limit of nesting, tables or bytes: 2.
    #[error("the message nests too deep or unfolds to too many tables or bytes")]
    TableLimit,
    /// The bytes are no fields of the schema of types: 3.
    #[error("the bytes are no message of a type")]
    BadMessage,
    /// Over 100 messages nest: 4.
    #[error("over 100 messages nest")]
    TooDeep,
    /// The table or message is no type's: its union or oneof has no member or an
    /// unknown one, a part is absent, a number is no code or out of range, lists of
    /// parts differ in length, a tag occurs twice, or a decimal's precision is 0 or
    /// over 76: 5.
    #[error("the table or message is no type's")]
    BadType,
    /// An extension has no reader, and extensions without a reader are not
    /// allowed: 6.
    #[error("an extension's identifier has no reader")]
    UnknownExtension,
    /// The reader of an extension's identifier does not accept its metadata and
    /// storage: 7.
    #[error("an extension's reader does not accept it")]
    ExtensionRefused,
    /// The type has over 32 levels as a table or over 50 as a message, its table
    /// would pass a limit of messages, or the message would be too long: 8.
    #[error("the type is too deep or too large to be written")]
    WireLimit,
}

impl From<AllocError> for TypeWireError {
    ghost from_gives = { λ _ e. e ≡ OutOfMemory };

    fn from(_e: AllocError) -> TypeWireError {
        TypeWireError::OutOfMemory
    }
}

impl<T: Drop> From<AllocFailed<T>> for TypeWireError {
    ghost from_gives = { λ _ e. e ≡ OutOfMemory };

    fn from(_e: AllocFailed<T>) -> TypeWireError {
        TypeWireError::OutOfMemory
    }
}

impl From<FlatError> for TypeWireError {
    ghost use Rattle.vx_type_wire.specs.Answers.{refusal_of_flat};

    ghost from_gives = { λ f e. e ≡ refusal_of_flat f };

    fn from(error: FlatError) -> TypeWireError {
        match error {
            FlatError::OutOfMemory => TypeWireError::OutOfMemory,
            FlatError::BadTable => TypeWireError::BadTable,
            FlatError::TableLimit => TypeWireError::TableLimit,
            FlatError::MessageTooLong => TypeWireError::WireLimit,
        }
    }
}

impl From<ProtoError> for TypeWireError {
    ghost use Rattle.vx_type_wire.specs.Answers.{refusal_of_proto};

    ghost from_gives = { λ p e. e ≡ refusal_of_proto p };

    fn from(error: ProtoError) -> TypeWireError {
        match error {
            ProtoError::OutOfMemory => TypeWireError::OutOfMemory,
            ProtoError::BadMessage => TypeWireError::BadMessage,
            ProtoError::TooDeep => TypeWireError::TooDeep,
            ProtoError::OutOfRange => TypeWireError::BadType,
        }
    }
}

impl From<TypeError> for TypeWireError {
    ghost use Rattle.vx_type_wire.specs.Answers.{refusal_of};

    ghost from_gives = { λ t e. e ≡ refusal_of t };

    fn from(error: TypeError) -> TypeWireError {
        match error {
            TypeError::OutOfMemory => TypeWireError::OutOfMemory,
            _ => TypeWireError::BadType,
        }
    }
}
