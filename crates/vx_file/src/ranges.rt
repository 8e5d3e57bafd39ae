//! A file of which ranges are loaded.

ghost use Rattle.std.specs.Prelude.{◌≡◌, ◌≤◌, ◌+◌, ℕ, IfOk, IfSome, OnOk, IsErrOf, length, slice_range};
ghost use Rattle.vx_file.specs.Ranges.{RangesState, HasRisen, after_taking};
ghost use Rattle.vx_file.specs.declared.ranges.RangesError.TheVariants as ranges_error;

use std::alloc::{AllocError, AllocFailed, Global};
use thiserror::Error;
use vx_types::Blob;

/// Why a range was not loaded.
#[derive(Clone, Copy, Debug, PartialEq, Eq, Error)]
pub enum RangesError {
    /// An allocation failed.
    #[error("out of memory")]
    OutOfMemory,
    /// The range could not be read.
    #[error("the file could not be read")]
    Failed,
}

impl From<AllocError> for RangesError {
    ghost from_gives = { λ _ e. e ≡ ranges_error.OutOfMemory };

    fn from(_: AllocError) -> Self {
        RangesError::OutOfMemory
    }
}

impl<T: Drop> From<AllocFailed<T>> for RangesError {
    ghost from_gives = { λ _ e. e ≡ ranges_error.OutOfMemory };

    fn from(_: AllocFailed<T>) -> Self {
        RangesError::OutOfMemory
    }
}

/// A file of which ranges are loaded. It may tell its bytes, as one in memory does, or not, as one over a real file must;
/// no call changes them, whether they are told, or their number.
pub trait Ranges {
    /// The file's bytes where they are told, their number, how many loads failed, and how many bytes were loaded.
    ghost state: { Self → RangesState };

    /// How many bytes the file has.
    fn size(&self) -> u64
        ensures size { result ≡ (state self.now).size }
        ensures told { IfSome (state self.now).told (λ bytes. length bytes ≡ result) };

    /// The bytes of a range.
    ///
    /// # Errors
    /// `OutOfMemory`; `Failed` where they could not be read, and then the count of faults rose.
    fn load(&mut self, alloc: Global, start: u64, len: u64) -> Result<Blob, RangesError>
        requires { start + len ≤ (state self.old).size }
        ensures bytes { IfSome (state self.old).told (λ bytes. IfOk result (λ blob. blob ≡ slice_range bytes start (start + len))) }
        ensures len { IfOk result (λ blob. length blob ≡ len) }
        ensures told { (state self.new).told ≡ (state self.old).told }
        ensures size { (state self.new).size ≡ (state self.old).size }
        ensures taken { OnOk result ((state self.new).taken ≡ after_taking (state self.old).taken len) }
        ensures taken_never_falls { (state self.old).taken ≤ (state self.new).taken }
        ensures never_falls { (state self.old).faults ≤ (state self.new).faults }
        ensures no_fault { OnOk result ((state self.new).faults ≡ (state self.old).faults) }
        ensures fault { IsErrOf result ranges_error.Failed → HasRisen (state self.old).faults (state self.new).faults };
}
