//! The two parts of a blob.

ghost use Rattle.std.specs.Prelude.{IfSome, IfNone};
ghost use Rattle.vx_serialized.specs.Blob.{IsBlob};
ghost use Rattle.vx_serialized.specs.Opening.{IsTooShort};

/// A blob's segment and its message, whose length stands in the blob's last four bytes. `None` where these say more
/// than there is.
pub(crate) fn split_blob(blob: &[u8]) -> Option<(&[u8], &[u8])>
    ensures some { IfSome result (λ p. IsBlob blob.now p.0.now p.1.now) }
    ensures none { IfNone result (IsTooShort blob.now) }
{
    if blob.len() < 4 {
        return None;
    }
    let (front, word) = blob.split_at(blob.len() - 4);
    let len = u32::from_le_bytes([word[0], word[1], word[2], word[3]]) as usize;
    if front.len() < len {
        return None;
    }
    Some(front.split_at(front.len() - len))
}
