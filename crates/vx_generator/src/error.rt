//! The refusals of this crate.

ghost use Rattle.std.specs.Prelude.{◌≡◌};
ghost use Rattle.vx_generator.specs.declared.error.GeneratorError.TheVariants.{OutOfMemory};

use std::alloc::{AllocError, AllocFailed};
use thiserror::Error;
use vx_buffer::BufferError;

/// Why a table was not made.
#[derive(Clone, Copy, Debug, PartialEq, Eq, Error)]
pub enum GeneratorError {
    /// An allocation failed.
    #[error("out of memory")]
    OutOfMemory,
}

impl From<AllocError> for GeneratorError {
    ghost from_gives = { λ _ e. e ≡ OutOfMemory };

    fn from(_: AllocError) -> GeneratorError {
        GeneratorError::OutOfMemory
    }
}

impl<T: Drop> From<AllocFailed<T>> for GeneratorError {
    ghost from_gives = { λ _ e. e ≡ OutOfMemory };

    fn from(_: AllocFailed<T>) -> GeneratorError {
        GeneratorError::OutOfMemory
    }
}

impl From<BufferError> for GeneratorError {
    ghost from_gives = { λ _ e. e ≡ OutOfMemory };

    fn from(e: BufferError) -> GeneratorError {
        match e {
            BufferError::OutOfMemory => GeneratorError::OutOfMemory,
        }
    }
}
