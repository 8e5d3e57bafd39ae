//! Refusals of arrays and of messages, as those of an encoding.

ghost use Rattle.std.specs.Prelude.{◌≡◌};
ghost use Rattle.vx_encodings.specs.Steps.{IsOfConstructor, constructor_error, message_error};

use vx_arrays::ArrayError;
use vx_plans::EncodingError;
use vx_proto::ProtoError;

// The refusal of an array's constructor, as one of its encoding. A constructor reads no row and merges nothing, so it
// has none of the refusals of those.
pub(crate) fn of_constructor(error: ArrayError) -> EncodingError
    requires { IsOfConstructor error }
    ensures { result ≡ constructor_error error }
{
    match error {
        ArrayError::OutOfMemory => EncodingError::OutOfMemory,
        ArrayError::BadShape => EncodingError::BadShape,
        ArrayError::BadContent => EncodingError::BadContent,
        ArrayError::ForeignControl => EncodingError::ForeignControl,
        ArrayError::ValueTooLarge | ArrayError::BadCast => unreachable!(),
    }
}

// The refusal of a message, as one of its encoding.
pub(crate) fn of_message(error: ProtoError) -> EncodingError
    ensures { result ≡ message_error error }
{
    match error {
        ProtoError::OutOfMemory => EncodingError::OutOfMemory,
        ProtoError::BadMessage | ProtoError::TooDeep | ProtoError::OutOfRange =>
            EncodingError::BadMetadata,
    }
}
