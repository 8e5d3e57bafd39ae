//! Loading parts of a file, and finding its footer.

ghost use Rattle.std.specs.Prelude.{◌≡◌, ◌≤◌, ◌+◌, ℕ, List, IfOk, IfErr, IfSome, OnOk, length, option_map};
ghost use Rattle.vx_forms.specs.Frame.{cut_frame, footer_len};
ghost use Rattle.vx_file.specs.Causes.{IsMemoryOrFault};
ghost use Rattle.vx_file.specs.Loading.{len_by_ends, frame_of};
ghost use Rattle.vx_file.specs.Ranges.{Tells, IsSameFile, HasTaken};
ghost use Rattle.vx_file.specs.Selecting.{part_of};

use crate::error::FileError;
use crate::ranges::{Ranges, RangesError};
use std::alloc::Global;
use vx_types::Blob;

/// The bytes of a footer, and the offset at which it begins.
#[derive(Drop)]
pub(crate) struct LoadedFrame {
    pub(crate) footer: Blob,
    pub(crate) offset: u64,
}

/// The bytes of a range of a file that begins at `start`. A load that failed is a fault.
pub(crate) fn load_range<R: Ranges>(
    alloc: Global,
    ranges: &mut R,
    start: u64,
    offset: u64,
    len: u64,
) -> Result<Blob, FileError>
    requires { start + (offset + len) ≤ (R.state ranges.old).size }
    ensures bytes { (bytes : List ℕ) → Tells (R.state ranges.old) bytes → IfOk result (λ b. b ≡ part_of bytes (start + offset) len) }
    ensures len { IfOk result (λ b. length b ≡ len) }
    ensures taken { OnOk result (HasTaken len (R.state ranges.old) (R.state ranges.new)) }
    ensures same { IsSameFile (R.state ranges.old) (R.state ranges.new) }
    ensures cause { IfErr result (λ e. IsMemoryOrFault e (R.state ranges.old) (R.state ranges.new)) }
{
    // Offsets within the file's size have eight bytes.
    let _size = ranges.size();
    match ranges.load(alloc, start + offset, len) {
        Ok(blob) => Ok(blob),
        Err(RangesError::OutOfMemory) => Err(FileError::OutOfMemory),
        Err(RangesError::Failed) => Err(FileError::StoreFault),
    }
}

/// The length of a footer, by the first four and the last eight bytes of a file: none where its ends are not the word.
fn len_in(word: &[u8], head: &[u8], tail: &[u8]) -> Option<u32>
    requires { length tail.now ≡ 8 }
    ensures { result ≡ len_by_ends word.now head.now tail.now }
{
    let (count, last) = tail.split_at(4);
    if head != word {
        return None;
    }
    if last != word {
        return None;
    }
    Some(u32::from_le_bytes([count[0], count[1], count[2], count[3]]))
}

/// The footer of a file that has `len` bytes from `start` on, where both ends of it are the word and the footer has room:
/// the word at both ends, the footer's length and the footer are loaded.
pub(crate) fn load_frame<R: Ranges>(
    alloc: Global,
    ranges: &mut R,
    start: u64,
    len: u64,
    word: &[u8],
) -> Result<Option<LoadedFrame>, FileError>
    requires { start + len ≤ (R.state ranges.old).size }
    ensures found { (bytes : List ℕ) → Tells (R.state ranges.old) bytes
        → IfOk result (λ o. cut_frame word.now (part_of bytes start len) ≡ option_map frame_of o) }
    ensures taken { (bytes : List ℕ) → Tells (R.state ranges.old) bytes
        → IfOk result (λ o. IfSome o (λ _. HasTaken (12 + footer_len (part_of bytes start len)) (R.state ranges.old) (R.state ranges.new))) }
    ensures offset { IfOk result (λ o. IfSome o (λ x. x.offset ≤ len)) }
    ensures same { IsSameFile (R.state ranges.old) (R.state ranges.new) }
    ensures cause { IfErr result (λ e. IsMemoryOrFault e (R.state ranges.old) (R.state ranges.new)) }
{
    if len < 12 {
        return Ok(None);
    }
    let head = load_range(alloc, ranges, start, 0, 4)?;
    let tail = load_range(alloc, ranges, start, len - 8, 8)?;
    let Some(count) = len_in(word, head.as_slice(), tail.as_slice()) else {
        return Ok(None);
    };
    let footer_len = count as u64;
    if len - 12 < footer_len {
        return Ok(None);
    }
    let offset = len - 8 - footer_len;
    let footer = load_range(alloc, ranges, start, offset, footer_len)?;
    Ok(Some(LoadedFrame { footer, offset }))
}
