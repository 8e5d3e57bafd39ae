//! What the program loads from and saves into.

ghost use Rattle.std.specs.Prelude.{◌≡◌, ◌≢◌, ◌⊎◌, ◌≤◌, ℕ, Some, List, [], ◌∷◌, ◌++◌, IsTrue, IfOk, OnOk, IsErrOf};
ghost use Rattle.vx_buffer.specs.Joined.{joined};
ghost use Rattle.vxcat_store.specs.StoreState.{StoreState, HasRisen};
ghost use Rattle.vxcat_store.specs.declared.store.StoreError.TheVariants as store_error;

use std::alloc::{AllocError, AllocFailed, Global};
use thiserror::Error;
use vx_buffer::ByteBuffers;
use vx_types::{Blob, Name};

/// Why a file was not loaded or not saved.
#[derive(Clone, Copy, Debug, PartialEq, Eq, Error)]
pub enum StoreError {
    /// An allocation failed.
    #[error("out of memory")]
    OutOfMemory,
    /// The file is not there, or a read or write of it failed.
    #[error("the file could not be read or written")]
    Failed,
}

impl From<AllocError> for StoreError {
    ghost from_gives = { λ _ e. e ≡ store_error.OutOfMemory };

    fn from(_: AllocError) -> Self {
        StoreError::OutOfMemory
    }
}

impl<T: Drop> From<AllocFailed<T>> for StoreError {
    ghost from_gives = { λ _ e. e ≡ store_error.OutOfMemory };

    fn from(_: AllocFailed<T>) -> Self {
        StoreError::OutOfMemory
    }
}

/// Files under names: from a store the program reads its inputs, and there it saves its outputs.
///
/// A store may tell the bytes at its names, as one in memory does, or tell nothing, as one over real files must.
/// Whether it tells them never changes. Its two counts of faults never decrease.
pub trait Store {
    /// Whether the store tells its files, what it tells of its names, which of them `load` was given so far, and how
    /// many loads and saves failed.
    ghost state: { Self → StoreState };

    /// The bytes at the name.
    ///
    /// # Errors
    /// `OutOfMemory`; `Failed` where they could not be read, and then the count of load faults has risen.
    fn load(&mut self, alloc: Global, name: &Name) -> Result<Blob, StoreError>
        ensures bytes { IsTrue (state self.old).tells
            → IfOk result (λ bytes. (state self.old).file name.now ≡ Some bytes) }

        // Nothing changes but the names that were asked for and, where refused, the count.
        ensures told { (state self.new).tells ≡ (state self.old).tells }
        ensures files { (state self.new).file ≡ (state self.old).file }
        ensures save_faults { (state self.new).save_faults ≡ (state self.old).save_faults }

        // The name is added to those that were asked for; it may be missing there after allocation failure.
        ensures asked { ((state self.new).asked ≡ (state self.old).asked ++ name.now ∷ [])
            ⊎ (((state self.new).asked ≡ (state self.old).asked) × IsErrOf result store_error.OutOfMemory) }
        ensures never_decreases { (state self.old).load_faults ≤ (state self.new).load_faults }
        ensures no_fault { OnOk result ((state self.new).load_faults ≡ (state self.old).load_faults) }
        ensures fault { IsErrOf result store_error.Failed
            → HasRisen (state self.old).load_faults (state self.new).load_faults };

    /// Puts the bytes at the name. After a refusal nothing is known of what stands at that name.
    ///
    /// # Errors
    /// `OutOfMemory`; `Failed` where they could not be written, and then the count of save faults has risen.
    fn save(&mut self, alloc: Global, name: &Name, bytes: &[u8]) -> Result<(), StoreError>
        ensures saved { IsTrue (state self.old).tells
            → OnOk result ((state self.new).file name.now ≡ Some bytes.now) }
        ensures others { IsTrue (state self.old).tells
            → (other : List ℕ) → other ≢ name.now → (state self.new).file other ≡ (state self.old).file other }
        ensures told { (state self.new).tells ≡ (state self.old).tells }
        ensures asked { (state self.new).asked ≡ (state self.old).asked }
        ensures load_faults { (state self.new).load_faults ≡ (state self.old).load_faults }
        ensures never_decreases { (state self.old).save_faults ≤ (state self.new).save_faults }
        ensures no_fault { OnOk result ((state self.new).save_faults ≡ (state self.old).save_faults) }
        ensures fault { IsErrOf result store_error.Failed
            → HasRisen (state self.old).save_faults (state self.new).save_faults };

    /// Puts the bytes of these buffers, one after the other, at the name, as [`save`](Store::save) does with the bytes
    /// joined. A store that can write them in pieces needs no memory for the whole.
    ///
    /// # Errors
    /// Those of [`save`](Store::save).
    fn save_buffers(
        &mut self,
        alloc: Global,
        name: &Name,
        buffers: &ByteBuffers,
    ) -> Result<(), StoreError>
        ensures saved { IsTrue (state self.old).tells
            → OnOk result ((state self.new).file name.now ≡ Some (joined buffers.now)) }
        ensures others { IsTrue (state self.old).tells
            → (other : List ℕ) → other ≢ name.now → (state self.new).file other ≡ (state self.old).file other }
        ensures told { (state self.new).tells ≡ (state self.old).tells }
        ensures asked { (state self.new).asked ≡ (state self.old).asked }
        ensures load_faults { (state self.new).load_faults ≡ (state self.old).load_faults }
        ensures never_decreases { (state self.old).save_faults ≤ (state self.new).save_faults }
        ensures no_fault { OnOk result ((state self.new).save_faults ≡ (state self.old).save_faults) }
        ensures fault { IsErrOf result store_error.Failed
            → HasRisen (state self.old).save_faults (state self.new).save_faults }
    {
        match buffers.join(alloc) {
            Ok(bytes) => self.save(alloc, name, bytes.as_slice()),
            Err(_) => Err(StoreError::OutOfMemory),
        }
    }
}
