//! Why a blob is not read or an array not written.

ghost use Rattle.std.specs.Prelude.{◌≡◌};
ghost use Rattle.vx_serialized.specs.declared.error.WireError.TheVariants.{OutOfMemory};
ghost use Rattle.vx_serialized.specs.Errors.{error_number, registry_refusal};

use std::alloc::{AllocError, AllocFailed};
use thiserror::Error;
use vx_buffer::BufferError;
use vx_registry::RegistryError;

/// Why a blob is not read, or an array not written. `number` gives each refusal its number.
#[derive(Clone, Copy, Debug, PartialEq, Eq, Error)]
pub enum WireError {
    /// An allocation failed: 1.
    #[error("out of memory")]
    OutOfMemory,
    /// The blob ends before its message's length, or has fewer bytes before it than the length says: 10.
    #[error("the blob is too short")]
    TooShort,
    /// The message is no array message, or one without a root: 11.
    #[error("the message is no array message with a root")]
    BadTable,
    /// The message passes a limit on reading: 12.
    #[error("the message passes a limit on reading")]
    TableLimit,
    /// A descriptor's exponent is over 16: 13.
    #[error("a buffer's alignment is over 2^16")]
    BadAlignment,
    /// A descriptor's compression byte is not 0: 14.
    #[error("a buffer is compressed")]
    Compressed,
    /// A descriptor's range ends past the segment, or a node names a buffer that has no descriptor: 15.
    #[error("a buffer lies out of bounds or has no descriptor")]
    OutOfBounds,
    /// A node names an encoding by an index that has no identifier: 16.
    #[error("an encoding's index has no identifier")]
    UnknownIndex,
    /// A node's identifier is not registered, and unknown ones are not allowed: 17.
    #[error("an encoding's identifier is not registered")]
    UnknownEncoding,
    /// A node's metadata is none that its encoding reads: 18.
    #[error("an encoding's metadata is ill-formed")]
    BadMetadata,
    /// A node's type, length, buffers or children do not fit its encoding: 19.
    #[error("a node's parts do not fit its encoding")]
    BadShape,
    /// A node's parts fit its encoding, and a value in a buffer or a child points at nothing that is there, or bytes
    /// that are to be a text are not UTF-8: 20.
    #[error("a node's content is broken")]
    BadContent,
    /// A child that says where a node's rows are holds a foreign node, or the entries of maps are one: 21.
    #[error("a foreign node says where rows are, or is the entries of a map")]
    ForeignControl,
    /// A node's statistics are no values of their types, or have an unknown precision: 22.
    #[error("a node's statistics are ill-formed")]
    BadStats,
    /// The write context does not allow an identifier, or has no number left for it: 23.
    #[error("an encoding's identifier is not permitted")]
    NotPermitted,
    /// The array passes a limit on writing: 24.
    #[error("the array passes a limit on writing")]
    WireLimit,
    /// Nothing writes the arrays of an encoding, or a node is foreign and such nodes are not allowed: 25.
    #[error("nothing writes the arrays of an encoding")]
    NotRegistered,
    /// The plugin that writes a node has no form for it: 26.
    #[error("a plugin has no form for an array")]
    NotSerializable,
    /// The plugin that writes a node names an identifier that it does not declare: 27.
    #[error("a plugin names an identifier that it does not declare")]
    UndeclaredId,
    /// A plugin refuses a node's head or its parts or, on writing, an array: 28.
    #[error("a plugin refuses")]
    PluginRefused,
}

impl WireError {
    /// The refusal's number, which is the exit status of the program for it.
    pub fn number(self) -> u8
        ensures { result ≡ error_number self }
    {
        match self {
            WireError::OutOfMemory => 1,
            WireError::TooShort => 10,
            WireError::BadTable => 11,
            WireError::TableLimit => 12,
            WireError::BadAlignment => 13,
            WireError::Compressed => 14,
            WireError::OutOfBounds => 15,
            WireError::UnknownIndex => 16,
            WireError::UnknownEncoding => 17,
            WireError::BadMetadata => 18,
            WireError::BadShape => 19,
            WireError::BadContent => 20,
            WireError::ForeignControl => 21,
            WireError::BadStats => 22,
            WireError::NotPermitted => 23,
            WireError::WireLimit => 24,
            WireError::NotRegistered => 25,
            WireError::NotSerializable => 26,
            WireError::UndeclaredId => 27,
            WireError::PluginRefused => 28,
        }
    }
}

impl From<AllocError> for WireError {
    ghost from_gives = { λ _ e. e ≡ OutOfMemory };

    fn from(_e: AllocError) -> WireError {
        WireError::OutOfMemory
    }
}

impl<T: Drop> From<AllocFailed<T>> for WireError {
    ghost from_gives = { λ _ e. e ≡ OutOfMemory };

    fn from(_e: AllocFailed<T>) -> WireError {
        WireError::OutOfMemory
    }
}

impl From<BufferError> for WireError {
    ghost from_gives = { λ _ e. e ≡ OutOfMemory };

    fn from(e: BufferError) -> WireError {
        match e {
            BufferError::OutOfMemory => WireError::OutOfMemory,
        }
    }
}

impl From<RegistryError> for WireError {
    ghost from_gives = { λ r e. e ≡ registry_refusal r };

    fn from(e: RegistryError) -> WireError {
        match e {
            RegistryError::OutOfMemory => WireError::OutOfMemory,
            RegistryError::NotRegistered => WireError::NotRegistered,
            RegistryError::UndeclaredId => WireError::UndeclaredId,
            RegistryError::PluginRefused => WireError::PluginRefused,
            RegistryError::WireLimit => WireError::WireLimit,
        }
    }
}
