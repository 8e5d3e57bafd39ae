//! The footer of a column file, as it is read.

ghost use Rattle.std.specs.Prelude.{◌≡◌, IfOk, IfErr, IsOkUnless, option_map};
ghost use Rattle.std.specs.List.{list_all};
ghost use Rattle.vx_forms.specs.Form.{whole, read_all};
ghost use Rattle.vx_forms.specs.Refused.{refusal};
ghost use Rattle.vx_file.specs.Footer.{range_form, ranges_form, ids_form, footer_form};
ghost use Rattle.vx_file.specs.FooterReading.{range_of, ranges_of, footer_of};
ghost use Rattle.vx_file.specs.Within.{lies_within};

use std::alloc::{AllocError, Global};
use vx_forms::{ReadError, take_count, take_octets, take_text, take_u64};
use vx_types::{Id, Ids, TypeError};

/// Where a column's blob stands in a file: the offset at which it starts, and how many bytes it has.
#[derive(Clone, Copy, Debug, PartialEq, Eq)]
pub struct ColumnRange {
    /// The offset at which it starts.
    pub start: u64,
    /// How many bytes it has.
    pub len: u64,
}

/// Ranges, and the bytes after them.
type RangesRead<'a> = Result<(Vec<ColumnRange>, &'a [u8]), ReadError>;

/// Identifiers, and the bytes after them.
type IdsRead<'a> = Result<(Ids, &'a [u8]), ReadError>;

/// The range at the front.
fn take_range(bytes: &[u8]) -> Result<(ColumnRange, &[u8]), ReadError>
    ensures whole { IfOk result (λ p. range_form.read bytes.now ≡ whole (range_of p.0) p.1.now) }
    ensures refused { IfErr result (λ e. range_form.read bytes.now ≡ refusal e) }
{
    let (start, rest) = take_u64(bytes)?;
    let (len, rest) = take_u64(rest)?;
    Ok((ColumnRange { start, len }, rest))
}

/// The ranges at the front, after their count.
fn take_ranges(alloc: Global, bytes: &[u8]) -> Result<RangesRead<'_>, AllocError>
    ensures whole { IfOk result (λ r. IfOk r (λ p. ranges_form.read bytes.now ≡ whole (ranges_of p.0.items) p.1.now)) }
    ensures refused { IfOk result (λ r. IfErr r (λ e. ranges_form.read bytes.now ≡ refusal e)) }
{
    let (count, after) = match take_count(bytes, 0, u32::MAX) {
        Ok(found) => found,
        Err(e) => return Ok(Err(e)),
    };
    let mut ranges = Vec::new(alloc);
    let mut rest = after;
    for _ in 0..count {
        match take_range(rest) {
            Ok((range, after)) => {
                ranges.push(range)?;
                rest = after;
            }
            Err(e) => return Ok(Err(e)),
        }
    }
    Ok(Ok((ranges, rest)))
}

/// The identifiers at the front, after their count.
fn take_ids(alloc: Global, bytes: &[u8]) -> Result<IdsRead<'_>, TypeError>
    ensures whole { IfOk result (λ r. IfOk r (λ p. ids_form.read bytes.now ≡ whole p.0 p.1.now)) }
    ensures refused { IfOk result (λ r. IfErr r (λ e. ids_form.read bytes.now ≡ refusal e)) }
    ensures err { IsOkUnless result TypeError.OutOfMemory }
{
    let (count, after) = match take_count(bytes, 0, u32::MAX) {
        Ok(found) => found,
        Err(e) => return Ok(Err(e)),
    };
    let mut ids = Ids::new(alloc);
    let mut rest = after;
    for _ in 0..count {
        match take_text(rest, 0, u32::MAX) {
            Ok((text, after)) => {
                ids.push(Id::new(alloc, text)?)?;
                rest = after;
            }
            Err(e) => return Ok(Err(e)),
        }
    }
    Ok(Ok((ids, rest)))
}

/// What a footer tells, with its type's message as it stands.
#[derive(Drop)]
pub(crate) struct FooterRead<'a> {
    pub(crate) rows: u64,
    pub(crate) ranges: Vec<ColumnRange>,
    pub(crate) ids: Ids,
    pub(crate) type_message: &'a [u8],
}

/// What all of these bytes tell as a footer.
pub(crate) fn read_footer(alloc: Global, bytes: &[u8]) -> Result<Option<FooterRead<'_>>, TypeError>
    ensures ok { IfOk result (λ o. option_map footer_of o ≡ read_all footer_form bytes.now) }
    ensures err { IsOkUnless result TypeError.OutOfMemory }
{
    let Ok((rows, rest)) = take_u64(bytes) else {
        return Ok(None);
    };
    let Ok((ranges, rest)) = take_ranges(alloc, rest)? else {
        return Ok(None);
    };
    let Ok((ids, rest)) = take_ids(alloc, rest)? else {
        return Ok(None);
    };
    let Ok((type_message, rest)) = take_octets(rest, 0, u32::MAX) else {
        return Ok(None);
    };
    if !rest.is_empty() {
        return Ok(None);
    }
    Ok(Some(FooterRead {
        rows,
        ranges,
        ids,
        type_message,
    }))
}

/// Whether a range lies between the first word of a file and an offset.
fn is_within(range: ColumnRange, offset: u64) -> bool
    ensures { result ≡ lies_within offset (range_of range) }
{
    if range.start < 4 {
        return false;
    }
    if range.len > offset {
        return false;
    }
    range.start <= offset - range.len
}

/// Whether each of these ranges does.
pub(crate) fn are_within(ranges: &[ColumnRange], offset: u64) -> bool
    ensures { result ≡ list_all (lies_within offset) (ranges_of ranges.now) }
{
    for range in ranges {
        if !is_within(*range, offset) {
            return false;
        }
    }
    true
}
