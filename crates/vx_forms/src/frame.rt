//! Files between two equal words, with a footer and its length before the last one.

ghost use Rattle.std.specs.Prelude.{◌≡◌, ◌<◌, ◌^◌, ◌++◌, length, take, IfSome, IfNone, OnOk, OnErr, option_map};
ghost use Rattle.vx_forms.specs.Frame as frame;
ghost use Rattle.vx_forms.specs.Frame.{IsFile, HasNoFooter, EndsFile};
ghost use Rattle.vx_forms.specs.FrameSeen.{frame_seen};

use crate::writing::push_u32;
use std::alloc::AllocError;

/// The footer of a file.
#[derive(Clone, Copy, Debug)]
pub struct FrameParts<'a> {
    /// The footer's bytes.
    pub footer: &'a [u8],
    /// The offset at which they begin.
    pub offset: usize,
}

/// The bytes of a file beside its body and its footer: the two words and the footer's length.
const AROUND: usize = 12;

/// The footer of a file that begins and ends with `word`: none where the bytes are no such file.
pub fn cut_frame<'a>(bytes: &'a [u8], word: &[u8; 4]) -> Option<FrameParts<'a>>
    ensures found { IfSome result (λ x. IsFile word.now bytes.now x.footer.now x.offset) }
    ensures no_file { IfNone result (HasNoFooter word.now bytes.now) }
    ensures cut { option_map frame_seen result ≡ frame.cut_frame word.now bytes.now }
{
    find_footer(bytes, word.as_slice())
}

fn find_footer<'a>(bytes: &'a [u8], word: &[u8]) -> Option<FrameParts<'a>>
    ensures { option_map frame_seen result ≡ frame.cut_frame word.now bytes.now }
{
    let len = bytes.len();
    if len < AROUND {
        return None;
    }
    if &bytes[..4] != word {
        return None;
    }
    if &bytes[len - 4..] != word {
        return None;
    }
    let count = &bytes[len - 8..len - 4];
    let footer_len = u32::from_le_bytes([count[0], count[1], count[2], count[3]]) as usize;
    if len - AROUND < footer_len {
        return None;
    }
    let offset = len - 8 - footer_len;
    Some(FrameParts {
        footer: &bytes[offset..len - 8],
        offset,
    })
}

/// Appends the end of a file: its footer, the footer's length, and its word.
pub fn push_frame_end(out: &mut Vec<u8>, footer: &[u8], word: &[u8; 4]) -> Result<(), AllocError>
    requires { length footer.now < 2 ^ 32 }
    ensures written { OnOk result (out.new.items ≡ out.old.items ++ frame.frame_end word.now footer.now) }
    ensures file { OnOk result (EndsFile word.now out.old.items footer.now out.new.items) }
    ensures unchanged { OnErr result (out.new.items ≡ out.old.items) }
{
    let start = out.len();
    match push_parts(out, footer, word) {
        Ok(()) => Ok(()),
        Err(e) => {
            out.truncate(start);
            Err(e)
        }
    }
}

fn push_parts(out: &mut Vec<u8>, footer: &[u8], word: &[u8; 4]) -> Result<(), AllocError>
    requires { length footer.now < 2 ^ 32 }
    ensures written { OnOk result (out.new.items ≡ out.old.items ++ frame.frame_end word.now footer.now) }
    ensures kept { OnErr result (take (length out.old.items) out.new.items ≡ out.old.items) }
{
    out.extend_from_slice(footer)?;
    push_u32(out, footer.len() as u32)?;
    out.extend_from_slice(word.as_slice())
}
