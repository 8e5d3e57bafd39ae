//! Refusals of this crate.

ghost use Rattle.std.specs.Prelude.{◌≡◌};
ghost use Rattle.vx_scalar_wire.specs.Writing.{IsOfBuilder, builder_error};
ghost use Rattle.vx_scalar_wire.specs.declared.error.ScalarWireError.TheVariants.{OutOfMemory};

use std::alloc::{AllocError, AllocFailed};
use thiserror::Error;
use vx_flat::FlatError;
use vx_proto::ProtoError;
use vx_type_wire::TypeWireError;
use vx_types::TypeError;

/// Why a message is not read as a scalar, or a scalar is not written.
#[derive(Clone, Copy, Debug, PartialEq, Eq, Error)]
pub enum ScalarWireError {
    /// An allocation failed.
    #[error("out of memory")]
    OutOfMemory,
    /// The bytes are no fields of the schema: 1.
    #[error("the bytes are no message of a scalar")]
    BadMessage,
    /// Over 100 messages nest: 2.
    #[error("over 100 messages nest")]
    TooDeep,
    /// A value or type is absent: a oneof without member, a union or a variant
    /// without value, a scalar without type or value: 3.
    #[error("the message has no value or no type")]
    MissingKind,
    /// The oneof's member is not one that the type allows: 4.
    #[error("the member is none of the type's")]
    KindMismatch,
    /// A number is out of the range of its field or of its type: 5.
    #[error("a number is out of its field's or its type's range")]
    OutOfRange,
    /// The values of a structure are not as many as its fields, a union has no member
    /// with the tag, or a union's value does not fit the member: 6.
    #[error("a child is missing, too many, or fits no member")]
    BadChild,
    /// A value does not fit its type, or bytes are not UTF-8: 7.
    #[error("the value does not fit its type, or is no text")]
    BadScalar,
    /// A statistic's precision is over 1: 8.
    #[error("a statistic has an unknown precision")]
    BadPrecision,
    /// The type of the scalar, or of a scalar in it, is refused. The refusal is never
    /// `OutOfMemory`: 9.
    #[error("a type is refused: {0}")]
    BadDType(TypeWireError),
    /// The written message would be too long: 10.
    #[error("the written message would be too long")]
    MessageTooLong,
}

impl From<AllocError> for ScalarWireError {
    ghost from_gives = { λ _ e. e ≡ OutOfMemory };

    fn from(_e: AllocError) -> ScalarWireError {
        ScalarWireError::OutOfMemory
    }
}

impl<T: Drop> From<AllocFailed<T>> for ScalarWireError {
    ghost from_gives = { λ _ e. e ≡ OutOfMemory };

    fn from(_e: AllocFailed<T>) -> ScalarWireError {
        ScalarWireError::OutOfMemory
    }
}

impl From<ProtoError> for ScalarWireError {
    ghost use Rattle.vx_scalar_wire.specs.Writing.{refusal_of_proto};

    ghost from_gives = { λ p e. e ≡ refusal_of_proto p };

    fn from(error: ProtoError) -> ScalarWireError {
        match error {
            ProtoError::OutOfMemory => ScalarWireError::OutOfMemory,
            ProtoError::BadMessage => ScalarWireError::BadMessage,
            ProtoError::TooDeep => ScalarWireError::TooDeep,
            ProtoError::OutOfRange => ScalarWireError::OutOfRange,
        }
    }
}

impl From<TypeError> for ScalarWireError {
    ghost use Rattle.vx_scalar_wire.specs.Writing.{refusal_of_scalar};

    ghost from_gives = { λ s e. e ≡ refusal_of_scalar s };

    fn from(error: TypeError) -> ScalarWireError {
        match error {
            TypeError::OutOfMemory => ScalarWireError::OutOfMemory,
            _ => ScalarWireError::BadScalar,
        }
    }
}

// The refusal of a builder as one of statistics. A builder reads no table, so it never refuses one.
pub(crate) fn of_builder(error: FlatError) -> ScalarWireError
    requires { IsOfBuilder error }
    ensures { result ≡ builder_error error }
{
    match error {
        FlatError::OutOfMemory => ScalarWireError::OutOfMemory,
        FlatError::MessageTooLong => ScalarWireError::MessageTooLong,
        FlatError::BadTable | FlatError::TableLimit => unreachable!(),
    }
}
