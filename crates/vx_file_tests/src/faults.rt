//! A file of which one load fails.

use crate::bytes::WORKED;
use crate::reading::{Unknown, failing, picked};
use std::alloc::Global;
use vx_file::FileError;

// What is refused, how many bytes were taken until then, and what is refused if it is tried again.
type Outcome = (Option<FileError>, u128, Option<FileError>);

// The same where this load of the worked file fails, of which the column is asked twice.
fn outcome(alloc: Global, call: u64) -> Result<Outcome, FileError> {
    let mut ranges = failing(alloc, &WORKED, call)?;
    let first = picked(alloc, &mut ranges, &[0, 0], Unknown::Refused).err();
    let taken = ranges.taken();
    let again = picked(alloc, &mut ranges, &[0, 0], Unknown::Refused).err();
    Ok((first, taken, again))
}

const FAULT: Option<FileError> = Some(FileError::StoreFault);

// The load that fails, what is refused then, and how many bytes were taken: the word, the length with the word, the footer,
// and the column twice. The sixth is the first load of the second try.
const CALLS: [(u64, Option<FileError>, u128, Option<FileError>); 7] = [
    (1, FAULT, 0, None),
    (2, FAULT, 4, None),
    (3, FAULT, 12, None),
    (4, FAULT, 185, None),
    (5, FAULT, 357, None),
    (6, None, 529, FAULT),
    (11, None, 529, None),
];

#[test]
fn each_load_may_fail(rt: HostRuntime) {
    for (call, first, taken, again) in &CALLS {
        let outcome = outcome(rt.alloc(), *call);
        assert!(rt; outcome == Ok((*first, *taken, *again)), "{call}");
    }
}
