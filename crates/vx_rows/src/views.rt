//! Views of 16 bytes: short bytes are inline in the view, and a long one refers to a range of a buffer.

ghost use Rattle.std.specs.Prelude.{◌≡◌, ◌≤◌, ◌<◌, ◌+◌, ◌^◌, length, take, drop, option_map};
ghost use Rattle.std.specs.Int.{w32, from_le_bytes};
ghost use Rattle.vx_array_tree.specs.Encodings.VarBinViews.{found, long_view, viewed};

use bytes::Buf;
use vx_buffer::BufferHandle;

/// The bytes that a view gives, if it is right. The length is read first, since it decides what the other 12 bytes are:
/// the bytes themselves, or a prefix, a buffer's number and an offset.
pub fn viewed<'a>(buffers: &'a [BufferHandle], view: &'a [u8]) -> Option<&'a [u8]>
    requires { length view.now ≡ 16 }
    ensures { option_map (λ b. b.now) result ≡ viewed buffers.now view.now }
{
    let size = word_at(view, 0);
    if size <= 12 {
        return Some(&view[4..4 + size]);
    }
    long_view(buffers, size, view)
}

// The bytes to which a view of more than 12 bytes refers, if they exist and begin with its prefix.
fn long_view<'a>(buffers: &'a [BufferHandle], size: usize, view: &[u8]) -> Option<&'a [u8]>
    requires whole { length view.now ≡ 16 }
    requires long { 12 < size }
    requires small { size < 2 ^ 32 }
    ensures { option_map (λ b. b.now) result ≡ long_view buffers.now size view.now }
{
    let which = word_at(view, 8);
    let offset = word_at(view, 12);
    match buffers.get(which) {
        None => None,
        Some(buffer) => found(size, &view[4..8], offset, buffer.as_host().as_slice()),
    }
}

// The bytes of this size at an offset, if they exist and begin with the prefix.
fn found<'a>(size: usize, prefix: &[u8], offset: usize, bytes: &'a [u8]) -> Option<&'a [u8]>
    requires long { 12 < size }
    requires small { size < 2 ^ 32 }
    requires near { offset < 2 ^ 32 }
    ensures { option_map (λ b. b.now) result ≡ found size prefix.now offset bytes.now }
{
    let end = offset + size;
    if end > bytes.len() {
        return None;
    }
    let part = &bytes[offset..end];
    if &part[..4] == prefix {
        Some(part)
    } else {
        None
    }
}

// The number of four bytes at a place of a view.
fn word_at(view: &[u8], place: usize) -> usize
    requires { place + 4 ≤ length view.now }
    ensures word { result ≡ from_le_bytes w32 (take 4 (drop place view.now)) }
    ensures small { result < 2 ^ 32 }
{
    let mut rest = &view[place..];
    rest.get_u32_le() as usize
}
