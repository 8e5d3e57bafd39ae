//! Why a value is not read.

use thiserror::Error;

/// Why there is no value at the front of bytes.
#[derive(Clone, Copy, Debug, PartialEq, Eq, Error)]
pub enum ReadError {
    /// There is no value yet: further bytes are needed to tell.
    #[error("further bytes are needed")]
    Short,
    /// There is no value, whatever bytes follow.
    #[error("the bytes do not have the form")]
    Wrong,
}
