//! The descriptors of an array message.

ghost use Rattle.std.specs.Prelude.{◌≡◌, ◌+◌, ◌<◌, ◌^◌, ◌∷◌, [], IfSome, IfNone, length};
ghost use Rattle.vx_serialized.specs.Message.{descriptors_of};

/// The descriptor of a buffer: a struct of eight bytes, which says where the buffer lies in the segment.
#[derive(Clone, Copy, Debug, PartialEq, Eq)]
pub struct Descriptor {
    /// The bytes to skip before the buffer, counted from the end of the one before it. No place is stored in the
    /// message: each follows from the descriptors before it.
    pub padding: u16,
    /// The exponent of the buffer's alignment.
    pub exponent: u8,
    /// How the buffer is compressed. Only 0, not at all, is read.
    pub compression: u8,
    /// The buffer's length in bytes.
    pub len: u32,
}

impl Descriptor {
    /// The greatest exponent of the alignment of a buffer that is read or written.
    pub const MAX_EXPONENT: u8 = 16;
}

/// The descriptor in the first eight bytes, and the bytes after it. `None` where there are fewer.
pub(crate) fn first_descriptor(bytes: &[u8]) -> Option<(Descriptor, &[u8])>
    ensures some { IfSome result (λ p. descriptors_of bytes.now ≡ p.0 ∷ descriptors_of p.1.now) }
    ensures shorter { IfSome result (λ p. length p.1.now < length bytes.now) }
    ensures narrow { IfSome result (λ p. p.0.padding + p.0.len < 2 ^ 33) }
    ensures none { IfNone result (descriptors_of bytes.now ≡ []) }
{
    if bytes.len() < 8 {
        return None;
    }
    let descriptor = Descriptor {
        padding: u16::from_le_bytes([bytes[0], bytes[1]]),
        exponent: bytes[2],
        compression: bytes[3],
        len: u32::from_le_bytes([bytes[4], bytes[5], bytes[6], bytes[7]]),
    };
    let (_, rest) = bytes.split_at(8);
    Some((descriptor, rest))
}
