//! Text in memory, as a sink.

ghost use Rattle.std.specs.Prelude.{◌≡◌, ◌<◌, ◌≤◌, [], length, Some, IfOk, IsErr, OnOk, OnErr};
ghost use Rattle.std.specs.Io.KnownBytes.{WriteAppends};
ghost use Rattle.vxcat_store.specs.StoreState.{HasRisen};

use crate::sink::{Sink, SinkError};
use std::alloc::Global;

/// Text in memory, for tests. One write of it may fail, and a write may take only a few bytes.
#[derive(Drop)]
pub struct MemSink {
    text: Vec<u8>,
    failing: u64,
    most: usize,
    writes: u64,
    faults: u64,
    ghost takes_some: { 0 < most },
}

impl MemSink {
    ghost use Rattle.vxcat_store.specs.MemCalls.{most_taken, failing_write, writes_made};

    /// A sink of which every write takes its whole piece.
    pub fn new(alloc: Global) -> MemSink
        ensures state { ⟦<MemSink as Sink>⟧.state result ≡ record { written = Some []; faults = 0 } }
        ensures named { failing_write result ≡ 0 }
        ensures writes { writes_made result ≡ 0 }
    {
        MemSink::failing(alloc, 0)
    }

    /// A sink of which the write of this number, counted from 1, fails, and no other.
    pub fn failing(alloc: Global, number: u64) -> MemSink
        ensures state { ⟦<MemSink as Sink>⟧.state result ≡ record { written = Some []; faults = 0 } }
        ensures named { failing_write result ≡ number }
        ensures writes { writes_made result ≡ 0 }
    {
        MemSink {
            text: Vec::new(alloc),
            failing: number,
            most: usize::MAX,
            writes: 0,
            faults: 0,
        }
    }

    /// The same sink, of which a write takes at most `most` bytes.
    pub fn taking(self, most: usize) -> MemSink
        requires { 0 < most }
        ensures state { ⟦<MemSink as Sink>⟧.state result ≡ ⟦<MemSink as Sink>⟧.state self }
        ensures most { most_taken result ≡ most }
        ensures named { failing_write result ≡ failing_write self }
        ensures writes { writes_made result ≡ writes_made self }
    {
        let MemSink {
            text,
            failing,
            writes,
            faults,
            ..
        } = self;
        MemSink {
            text,
            failing,
            most,
            writes,
            faults,
        }
    }

    /// All that was written.
    pub fn text(&self) -> &[u8]
        ensures { (⟦<MemSink as Sink>⟧.state self.now).written ≡ Some result.now }
    {
        self.text.as_slice()
    }
}

/// A write whose memory cannot be allocated is a fault.
impl Sink for MemSink {
    ghost use Rattle.vxcat_store.specs.MemCalls.{most_taken, failing_write, writes_made, next_call};
    ghost use Rattle.std.specs.Prelude.{Some};

    ghost state = { λ s. record { written = Some s.text.items; faults = s.faults } };

    fn write(&mut self, piece: &[u8]) -> Result<usize, SinkError>
        requires { 0 < length piece.now }
        ensures some { IfOk result (λ taken. 0 < taken) }
        ensures within { IfOk result (λ taken. taken ≤ length piece.now) }
        ensures written { WriteAppends (⟦<MemSink as Sink>⟧.state self.old).written (⟦<MemSink as Sink>⟧.state self.new).written result piece.now }
        ensures never_decreases { (⟦<MemSink as Sink>⟧.state self.old).faults ≤ (⟦<MemSink as Sink>⟧.state self.new).faults }
        ensures no_fault { OnOk result ((⟦<MemSink as Sink>⟧.state self.new).faults ≡ (⟦<MemSink as Sink>⟧.state self.old).faults) }
        ensures fault { OnErr result (HasRisen (⟦<MemSink as Sink>⟧.state self.old).faults (⟦<MemSink as Sink>⟧.state self.new).faults) }

        // A write of the named number fails, and another takes at most so many bytes.
        ensures at_most { IfOk result (λ taken. taken ≤ most_taken self.old) }
        ensures most { most_taken self.new ≡ most_taken self.old }
        ensures named { failing_write self.new ≡ failing_write self.old }
        ensures writes { writes_made self.new ≡ next_call (writes_made self.old) }
        ensures fails { next_call (writes_made self.old) ≡ failing_write self.old → IsErr result }
    {
        self.writes = self.writes.saturating_add(1);
        let taken = piece.len().min(self.most);
        if self.writes != self.failing && self.text.extend_from_slice(&piece[..taken]).is_ok() {
            return Ok(taken);
        }
        self.faults = self.faults.saturating_add(1);
        Err(SinkError::Failed)
    }
}
