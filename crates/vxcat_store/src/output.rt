//! A writer as a sink.

ghost use Rattle.std.specs.Prelude.{◌≡◌};

use crate::sink::{Sink, SinkError};
use std::io::Write;

/// A writer as a sink, such as standard output. The sink tells what the writer tells.
///
/// A write that takes nothing, or that is interrupted, is a fault.
#[derive(Drop)]
pub struct Output<W: Write + Drop> {
    writer: W,
    faults: u64,
}

impl<W: Write + Drop> Output<W> {
    /// A sink over the writer, with no fault so far.
    pub fn new(writer: W) -> Output<W>
        ensures { ⟦<Output<W> as Sink>⟧.state result ≡ record { written = W.contents writer; faults = 0 } }
    {
        Output { writer, faults: 0 }
    }
}

impl<W: Write + Drop> Sink for Output<W> {
    ghost state = { λ s. record { written = W.contents s.writer; faults = s.faults } };

    fn write(&mut self, piece: &[u8]) -> Result<usize, SinkError> {
        match self.writer.write(piece) {
            Ok(taken) if taken > 0 => Ok(taken),
            _ => {
                self.faults = self.faults.saturating_add(1);
                Err(SinkError::Failed)
            }
        }
    }
}
