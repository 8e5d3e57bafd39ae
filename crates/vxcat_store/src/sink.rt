//! What the program prints into.

ghost use Rattle.std.specs.Prelude.{◌≡◌, ◌<◌, ◌≤◌, length, IfOk, OnOk, OnErr};
ghost use Rattle.std.specs.Io.KnownBytes.{WriteAppends};
ghost use Rattle.vxcat_store.specs.StoreState.{HasRisen};
ghost use Rattle.vxcat_store.specs.SinkState.{SinkState};

use thiserror::Error;

/// Why a piece of text was not written.
#[derive(Clone, Copy, Debug, PartialEq, Eq, Error)]
pub enum SinkError {
    /// Nothing of the piece could be written.
    #[error("the text could not be written")]
    Failed,
}

/// The output to which the program writes its text.
///
/// A sink may tell the bytes that were written to it, and then tells them from then on. Its count of faults never
/// decreases.
pub trait Sink {
    /// The bytes written so far, where the sink tells them, and how many writes failed.
    ghost state: { Self → SinkState };

    /// Appends a prefix of the piece of at least one byte, and returns its length.
    ///
    /// # Errors
    /// `Failed` where nothing of the piece could be written; the count of faults has risen then.
    fn write(&mut self, piece: &[u8]) -> Result<usize, SinkError>
        requires { 0 < length piece.now }
        ensures some { IfOk result (λ taken. 0 < taken) }
        ensures within { IfOk result (λ taken. taken ≤ length piece.now) }
        ensures written { WriteAppends (state self.old).written (state self.new).written result piece.now }
        ensures never_decreases { (state self.old).faults ≤ (state self.new).faults }
        ensures no_fault { OnOk result ((state self.new).faults ≡ (state self.old).faults) }
        ensures fault { OnErr result (HasRisen (state self.old).faults (state self.new).faults) };
}
