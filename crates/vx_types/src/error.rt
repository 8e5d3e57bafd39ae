//! Errors of types and scalars.

ghost use Rattle.std.specs.Prelude.{◌≡◌, Ok, OnOk, IfOk, IsOk, IsOkUnless};
ghost use Rattle.vx_types.specs.declared.error.TypeError.TheVariants.{OutOfMemory};

use std::alloc::{AllocError, AllocFailed};
use thiserror::Error;

/// Why a type, a scalar or a set of statistics is not made or not accepted.
#[derive(Clone, Copy, Debug, PartialEq, Eq, Error)]
pub enum TypeError {
    /// An allocation failed.
    #[error("out of memory")]
    OutOfMemory,
    /// A decimal's precision is 0 or over 76.
    #[error("a decimal's precision is not 1 to 76")]
    BadDecimal,
    /// The lists of names, types and tags differ in length.
    #[error("the numbers of names, types and tags differ")]
    FieldCount,
    /// Two members of a union have the same tag.
    #[error("a union's tag stands twice")]
    DuplicateTag,
    /// A value does not fit its type, or a statistic the type of that statistic.
    #[error("the value does not fit the type")]
    BadScalar,
}

impl From<AllocError> for TypeError {
    ghost from_gives = { λ _ e. e ≡ OutOfMemory };

    fn from(_e: AllocError) -> TypeError {
        TypeError::OutOfMemory
    }
}

impl<T: Drop> From<AllocFailed<T>> for TypeError {
    ghost from_gives = { λ _ e. e ≡ OutOfMemory };

    fn from(_e: AllocFailed<T>) -> TypeError {
        TypeError::OutOfMemory
    }
}

/// The result of a call whose only error is `OutOfMemory`, with the allocator's own error
/// in its place, which each crate converts to its own error by `?`.
pub fn or_memory<T: Drop>(made: Result<T, TypeError>) -> Result<T, AllocError>
    requires only { IsOkUnless made TypeError.OutOfMemory }
    ensures same { IfOk result (λ x. made ≡ Ok x) }
    ensures kept { OnOk made (IsOk result) }
{
    match made {
        Ok(value) => Ok(value),
        Err(_) => Err(AllocError),
    }
}
