//! Refusals of calls on arrays and their rows.

ghost use Rattle.std.specs.Prelude.{◌≡◌};
ghost use Rattle.vx_rows.specs.declared.error.ArrayError.TheVariants.{OutOfMemory};

use std::alloc::{AllocError, AllocFailed};
use thiserror::Error;
use vx_buffer::BufferError;

/// Why a call on an array, or on a row of one, was refused.
#[derive(Clone, Copy, Debug, PartialEq, Eq, Error)]
pub enum ArrayError {
    /// An allocation failed.
    #[error("out of memory")]
    OutOfMemory,
    /// The parts do not fit the type, the length or one another.
    #[error("the parts fit no sound array")]
    BadShape,
    /// A value in a buffer or a child refers to nothing that exists, or the bytes of a Utf8 row are not UTF-8.
    #[error("the content is broken")]
    BadContent,
    /// A foreign node stands in a control child (validity, codes, offsets, sizes or tags), or as the entries of maps.
    #[error("a foreign node says where rows are, or is the entries of a map")]
    ForeignControl,
    /// A row takes more cells than the budget.
    #[error("the row takes too many cells")]
    ValueTooLarge,
    /// The merged value is null, and the requested type is not nullable.
    #[error("a merge that is null is of a type without nulls")]
    BadCast,
}

impl From<AllocError> for ArrayError {
    ghost from_gives = { λ _ e. e ≡ OutOfMemory };

    fn from(_: AllocError) -> ArrayError {
        ArrayError::OutOfMemory
    }
}

impl<T: Drop> From<AllocFailed<T>> for ArrayError {
    ghost from_gives = { λ _ e. e ≡ OutOfMemory };

    fn from(_: AllocFailed<T>) -> ArrayError {
        ArrayError::OutOfMemory
    }
}

impl From<BufferError> for ArrayError {
    ghost from_gives = { λ _ e. e ≡ OutOfMemory };

    fn from(e: BufferError) -> ArrayError {
        match e {
            BufferError::OutOfMemory => ArrayError::OutOfMemory,
        }
    }
}
