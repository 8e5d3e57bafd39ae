//! The bytes of lists of buffers.

ghost use Rattle.std.specs.Prelude.{◌≡◌, ◌<◌, ◌^◌, ◌++◌, length, IfOk, OnOk};
ghost use Rattle.vx_buffer.specs.Joined.{joined};
ghost use Rattle.vx_forms.specs.Frame.{frame_end};
ghost use Rattle.vx_file.specs.Footer.{file_word};

use std::alloc::{AllocError, Global};
use vx_buffer::{BufferError, ByteBuffer, ByteBuffers};
use vx_forms::push_frame_end;

/// The word with which a column file begins and ends.
pub(crate) const WORD: [u8; 4] = [86, 88, 67, 70];

/// The number of bytes of buffers.
pub(crate) fn joined_len(buffers: &ByteBuffers) -> u64
    requires { length (joined buffers.now) < 2 ^ 64 }
    ensures { result ≡ length (joined buffers.now) }
{
    let mut len: u64 = 0;
    for buffer in buffers.as_slice() {
        len += buffer.len() as u64;
    }
    len
}

/// Appends buffers to others.
pub(crate) fn append(buffers: &mut ByteBuffers, more: ByteBuffers) -> Result<(), BufferError>
    ensures { OnOk result (joined buffers.new ≡ joined buffers.old ++ joined more) }
{
    for buffer in more.into_vec() {
        buffers.push(buffer)?;
    }
    Ok(())
}

/// The number of bytes of a file, up to the greatest one: no allocation has that size.
fn file_len(buffers: &[ByteBuffer], footer: &[u8]) -> usize {
    let mut len = footer.len().saturating_add(12);
    for buffer in buffers {
        len = len.saturating_add(buffer.len());
    }
    len
}

/// The bytes of a file: the word, the buffers, and the footer with its length and the word.
pub(crate) fn join_file(
    alloc: Global,
    buffers: &ByteBuffers,
    footer: &[u8],
) -> Result<Vec<u8>, AllocError>
    requires { length footer.now < 2 ^ 32 }
    ensures { IfOk result (λ out. out.items ≡ file_word ++ (joined buffers.now ++ frame_end file_word footer.now)) }
{
    let mut out = Vec::with_capacity(alloc, file_len(buffers.as_slice(), footer))?;
    out.extend_from_slice(&WORD)?;
    for buffer in buffers.as_slice() {
        out.extend_from_slice(buffer.as_slice())?;
    }
    push_frame_end(&mut out, footer, &WORD)?;
    Ok(out)
}
