//! Refusals of column files.

ghost use Rattle.std.specs.Prelude.{◌≡◌};
ghost use Rattle.vx_file.specs.declared.error.FileError.TheVariants.{OutOfMemory};

use std::alloc::{AllocError, AllocFailed};
use thiserror::Error;
use vx_serialized::BlobRefusal;

/// Why a column file is not written, loaded, or selected from.
#[derive(Clone, Copy, Debug, PartialEq, Eq, Error)]
pub enum FileError {
    /// An allocation failed: 1.
    #[error("out of memory")]
    OutOfMemory,
    /// The file could not be read: 3.
    #[error("the file could not be read")]
    StoreFault,
    /// The bytes have not the form of a column file: 40.
    #[error("the bytes are no column file")]
    NotAFile,
    /// The type is not read, is none of structures without nulls, or has another number of fields: 41.
    #[error("the type is none of tables of so many columns")]
    BadType,
    /// A column is asked that is not there: 42.
    #[error("there is no column {0}")]
    NoColumn(u32),
    /// The blob of a column is refused: 43.
    #[error("the blob of column {0} is refused: {1:?}")]
    BadColumn(u32, BlobRefusal),
    /// On writing: the array is not encoded as structures, or its rows may be null: 44.
    #[error("the array is no table")]
    NotAStruct,
    /// On writing: a count or a length passes four bytes, or the type a limit of tables: 45.
    #[error("a count or a length passes four bytes, or the type is too large to be written")]
    TooLong,
    /// On writing: a column is refused, by the number of its own refusal.
    #[error("a column is not written: {0:?}")]
    Wire(BlobRefusal),
}

impl From<AllocError> for FileError {
    ghost from_gives = { λ _ e. e ≡ OutOfMemory };

    fn from(_: AllocError) -> Self {
        FileError::OutOfMemory
    }
}

impl<T: Drop> From<AllocFailed<T>> for FileError {
    ghost from_gives = { λ _ e. e ≡ OutOfMemory };

    fn from(_: AllocFailed<T>) -> Self {
        FileError::OutOfMemory
    }
}
