//! Why a node of a wire tree is refused.

ghost use Rattle.std.specs.Prelude.{◌≡◌};
ghost use Rattle.vx_plans.specs.declared.error.EncodingError.TheVariants.{OutOfMemory};

use std::alloc::{AllocError, AllocFailed};
use thiserror::Error;

/// Why a node was not planned or built, or why its metadata was not written.
#[derive(Clone, Copy, Debug, PartialEq, Eq, Error)]
pub enum EncodingError {
    /// An allocation failed.
    #[error("out of memory")]
    OutOfMemory,
    /// The metadata is none that the encoding reads: its bytes show no message, or one that is not admitted, as a bit
    /// offset of 8, floats as offsets, or a type that the session does not know.
    #[error("the metadata is none of the encoding's")]
    BadMetadata,
    /// The node's type, its numbers of buffers and children, or a buffer's length or alignment do not fit the encoding.
    #[error("the parts do not fit the encoding")]
    BadShape,
    /// A value in a buffer or a child points at nothing that is there, or bytes that are to be a text are not UTF-8.
    #[error("the content is broken")]
    BadContent,
    /// A foreign node stands as a child whose values say where rows are, or as the entries of maps.
    #[error("a foreign node says where rows are, or is the entries of a map")]
    ForeignControl,
    /// The metadata has a number that its message cannot hold.
    #[error("the metadata does not fit its message")]
    WireLimit,
}

impl From<AllocError> for EncodingError {
    ghost from_gives = { λ _ e. e ≡ OutOfMemory };

    fn from(_: AllocError) -> EncodingError {
        EncodingError::OutOfMemory
    }
}

impl<T: Drop> From<AllocFailed<T>> for EncodingError {
    ghost from_gives = { λ _ e. e ≡ OutOfMemory };

    fn from(_: AllocFailed<T>) -> EncodingError {
        EncodingError::OutOfMemory
    }
}
