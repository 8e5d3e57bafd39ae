//! Printing a whole text into a sink.

ghost use Rattle.std.specs.Prelude.{◌≡◌, ◌≤◌, OnOk, OnErr};
ghost use Rattle.std.specs.Io.KnownBytes.{Appends};
ghost use Rattle.vxcat_store.specs.StoreState.{HasRisen};
ghost use Rattle.vxcat_store.specs.Written.{AppendsPrefix};
ghost use Rattle.vxcat_store.specs.declared.print.PrintError.TheVariants as print_error;

use crate::sink::{Sink, SinkError};
use std::alloc::AllocError;
use thiserror::Error;

/// Why a text was not wholly printed.
#[derive(Clone, Copy, Debug, PartialEq, Eq, Error)]
pub enum PrintError {
    /// An allocation for the text failed.
    #[error("out of memory")]
    OutOfMemory,
    /// A write failed, after none or some of the text.
    #[error("the text could not be written")]
    Failed,
}

impl From<AllocError> for PrintError {
    ghost from_gives = { λ _ e. e ≡ print_error.OutOfMemory };

    fn from(_: AllocError) -> Self {
        PrintError::OutOfMemory
    }
}

impl From<SinkError> for PrintError {
    ghost from_gives = { λ _ e. e ≡ print_error.Failed };

    fn from(_: SinkError) -> Self {
        PrintError::Failed
    }
}

/// Writes a whole text, in as many writes as the sink needs.
///
/// # Errors
/// `Failed` where a write failed; a prefix of the text is then written.
pub fn write_text<O: Sink>(out: &mut O, text: &[u8]) -> Result<(), SinkError>
    ensures ok { OnOk result (Appends (O.state out.old).written (O.state out.new).written text.now) }
    ensures prefix { AppendsPrefix (O.state out.old).written (O.state out.new).written text.now }
    ensures never_decreases { (O.state out.old).faults ≤ (O.state out.new).faults }
    ensures fault { OnErr result (HasRisen (O.state out.old).faults (O.state out.new).faults) }
{
    let mut rest = text;
    while !rest.is_empty() {
        let taken = out.write(rest)?;
        let (_, after) = rest.split_at(taken);
        rest = after;
    }
    Ok(())
}
