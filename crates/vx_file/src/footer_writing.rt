//! The footer of a column file, as it is written.

ghost use Rattle.std.specs.Prelude.{◌≡◌, ◌+◌, ◌*◌, ◌<◌, ◌^◌, ◌-◌, ◌++◌, min, IsTrue, IfOk, IfErr, OnOk, length};
ghost use Rattle.std.specs.List.{AllByRecursion, flat_map};
ghost use Rattle.std.specs.Str.{is_utf8};
ghost use Rattle.vx_forms.specs.Frame.{FitsFrame};
ghost use Rattle.vx_file.specs.Footer.{range_form, ranges_form, ids_form, footer_form};
ghost use Rattle.vx_file.specs.FooterReading.{range_of, ranges_of};
ghost use Rattle.vx_file.specs.FooterWriting.{footer_in, RefusesWritingFooter};
ghost use Rattle.vx_forms.specs.Octets.{octets_written};

use crate::error::FileError;
use crate::footer::ColumnRange;
use std::alloc::{AllocError, Global};
use vx_forms::{push_octets, push_text, push_u32, push_u64};
use vx_types::Id;

/// Appends a range.
fn push_range(out: &mut Vec<u8>, range: ColumnRange) -> Result<(), AllocError>
    ensures written { OnOk result (out.new.items ≡ out.old.items ++ range_form.write (range_of range)) }
    ensures fits { range_form.Fits (range_of range) }
{
    push_u64(out, range.start)?;
    push_u64(out, range.len)
}

/// Appends ranges after their count.
fn push_ranges(out: &mut Vec<u8>, ranges: &[ColumnRange]) -> Result<(), AllocError>
    requires { length ranges.now < 2 ^ 32 }
    ensures written { OnOk result (out.new.items ≡ out.old.items ++ ranges_form.write (ranges_of ranges.now)) }
    ensures fit { OnOk result (AllByRecursion range_form.Fits (ranges_of ranges.now)) }
{
    push_u32(out, ranges.len() as u32)?;
    for range in ranges {
        push_range(out, *range)?;
    }
    Ok(())
}

/// Appends identifiers after their count.
fn push_ids(out: &mut Vec<u8>, ids: &[Id]) -> Result<(), AllocError>
    requires few { length ids.now < 2 ^ 32 }
    requires short { length (flat_map octets_written ids.now) < 2 ^ 32 }
    ensures written { OnOk result (out.new.items ≡ out.old.items ++ ids_form.write ids.now) }
    ensures texts { OnOk result (AllByRecursion (λ id. IsTrue (is_utf8 id)) ids.now) }
{
    push_u32(out, ids.len() as u32)?;
    for id in ids {
        push_text(out, id.as_str())?;
    }
    Ok(())
}

/// The number of bytes of identifiers after their lengths, up to the greatest one of eight bytes.
fn ids_len(ids: &[Id]) -> u64
    ensures { result ≡ min (length (flat_map octets_written ids.now)) (2 ^ 64 - 1) }
{
    let mut len: u64 = 0;
    for id in ids {
        len = len
            .saturating_add(4)
            .saturating_add(id.as_str().len() as u64);
    }
    len
}

/// The number of bytes of a footer of these parts, up to the greatest one of eight bytes.
fn footer_len(ranges: &[ColumnRange], ids: &[Id], message: &[u8]) -> u64
    ensures { result ≡ min (16 * length ranges.now + length (flat_map octets_written ids.now) + length message.now + 20) (2 ^ 64 - 1) }
{
    let ranges = (ranges.len() as u64).saturating_mul(16);
    let parts = ranges.saturating_add(ids_len(ids));
    parts
        .saturating_add(message.len() as u64)
        .saturating_add(20)
}

/// The bytes of a footer of these parts.
pub(crate) fn footer_bytes(
    alloc: Global,
    rows: u64,
    ranges: &[ColumnRange],
    ids: &[Id],
    message: &[u8],
) -> Result<Vec<u8>, FileError>
    ensures written { IfOk result (λ out. out.items ≡ footer_form.write (footer_in rows ranges.now ids.now message.now)) }
    ensures fits { OnOk result (FitsFrame footer_form (footer_in rows ranges.now ids.now message.now)) }
    ensures cause { IfErr result (RefusesWritingFooter (footer_in rows ranges.now ids.now message.now)) }
{
    let len = footer_len(ranges, ids, message);
    if len > u32::MAX as u64 {
        return Err(FileError::TooLong);
    }
    let mut out = Vec::with_capacity(alloc, len as usize)?;
    push_u64(&mut out, rows)?;
    push_ranges(&mut out, ranges)?;
    push_ids(&mut out, ids)?;
    push_octets(&mut out, message)?;
    Ok(out)
}
