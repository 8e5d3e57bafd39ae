//! A file of a caller's own, which does not tell its bytes, as one over a real file cannot.

use crate::bytes::WORKED;
use crate::reading::{Unknown, have_texts, selected, selection_of, session_of};
use std::alloc::Global;
use vx_file::{FileError, Ranges, RangesError};
use vx_types::Blob;

// Bytes that contracts do not see, and how many of them were loaded.
#[derive(Drop)]
struct Untold<'a> {
    bytes: &'a [u8],
    taken: u128,
}

impl Ranges for Untold<'_> {
    ghost use Rattle.std.specs.Prelude.{None, length};

    ghost state = { λ s. record {
      told = None;
      size = length s.bytes.now;
      faults = 0;
      taken = s.taken;
    } };

    fn size(&self) -> u64 {
        self.bytes.len() as u64
    }

    fn load(&mut self, alloc: Global, start: u64, len: u64) -> Result<Blob, RangesError> {
        let from = start as usize;
        let to = from + len as usize;
        let blob = match Blob::copy_from(alloc, &self.bytes[from..to]) {
            Ok(blob) => blob,
            Err(_) => return Err(RangesError::OutOfMemory),
        };
        self.taken = self.taken.saturating_add(len as u128);
        Ok(blob)
    }
}

// Whether the worked column is read twice of such a file, and how many bytes are loaded for it.
fn reads_twice(alloc: Global) -> Result<(bool, u128), FileError> {
    let mut ranges = Untold {
        bytes: &WORKED,
        taken: 0,
    };
    let asked = selection_of(alloc, &[0, 0])?;
    let session = session_of(alloc, Unknown::Refused)?;
    let columns = selected(alloc, &mut ranges, &asked, &session)?;
    let ones: &[&str] = &["1", "2", "3", "4"];
    Ok((have_texts(alloc, &columns, &[ones, ones]), ranges.taken))
}

#[test]
fn a_file_may_be_a_callers_own(rt: HostRuntime) {
    assert!(rt; reads_twice(rt.alloc()) == Ok((true, 529)));
}
