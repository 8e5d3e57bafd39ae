ghost use Rattle.std.specs.Prelude.{◌≡◌};
ghost use Rattle.vx_registry.specs.declared.error.RegistryError.TheVariants.{OutOfMemory};

use std::alloc::{AllocError, AllocFailed};
use thiserror::Error;

/// Why a call on sessions and contexts was refused.
#[derive(Clone, Copy, Debug, PartialEq, Eq, Error)]
pub enum RegistryError {
    /// An allocation failed.
    #[error("out of memory")]
    OutOfMemory,
    /// Nothing writes the arrays of this encoding, or the node is foreign and such nodes are not allowed.
    #[error("nothing writes the arrays of this encoding")]
    NotRegistered,
    /// The plugin that writes the array names an identifier that it does not declare.
    #[error("a plugin names an identifier that it does not declare")]
    UndeclaredId,
    /// The plugin that writes the array refuses it.
    #[error("a plugin refuses the array")]
    PluginRefused,
    /// The metadata has a number or a type that its message cannot hold.
    #[error("the metadata does not fit its message")]
    WireLimit,
}

impl From<AllocError> for RegistryError {
    ghost from_gives = { λ _ e. e ≡ OutOfMemory };

    fn from(_: AllocError) -> RegistryError {
        RegistryError::OutOfMemory
    }
}

impl<T: Drop> From<AllocFailed<T>> for RegistryError {
    ghost from_gives = { λ _ e. e ≡ OutOfMemory };

    fn from(_: AllocFailed<T>) -> RegistryError {
        RegistryError::OutOfMemory
    }
}
