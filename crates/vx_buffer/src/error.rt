//! The refusals of this crate.

ghost use Rattle.std.specs.Prelude.{◌≡◌};
ghost use Rattle.vx_buffer.specs.declared.error.BufferError.TheVariants.{OutOfMemory};

use std::alloc::{AllocError, AllocFailed};
use thiserror::Error;

/// Why a call on buffers was refused.
#[derive(Clone, Copy, Debug, PartialEq, Eq, Error)]
pub enum BufferError {
    /// An allocation failed, or a count of owners is full.
    #[error("out of memory")]
    OutOfMemory,
}

impl From<AllocError> for BufferError {
    ghost from_gives = { λ _ e. e ≡ OutOfMemory };

    fn from(_: AllocError) -> BufferError {
        BufferError::OutOfMemory
    }
}

impl<T: Drop> From<AllocFailed<T>> for BufferError {
    ghost from_gives = { λ _ e. e ≡ OutOfMemory };

    fn from(_: AllocFailed<T>) -> BufferError {
        BufferError::OutOfMemory
    }
}
