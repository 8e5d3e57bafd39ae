//! Texts and bytes: which bytes are texts, parts of bytes by offsets, and rows of bytes.

ghost use Rattle.std.specs.Prelude.{ℕ, suc, ◌≡◌, ◌<◌, ◌↔◌, [], Some, IsTrue, length};
ghost use Rattle.vx_trees.specs.Rose.{count, label};
ghost use Rattle.vx_types.specs.Content.{IsText};
ghost use Rattle.vx_types.specs.Seen.{typ};
ghost use Rattle.vx_array_tree.specs.Encodings.VarBins.{AreOffsets, IsContent, bytes_at, mark_of};
ghost use Rattle.vx_array_tree.specs.Place.{before_validity};
ghost use Rattle.vx_array_tree.specs.Rows.{IsThere, validity as valid_by};
ghost use Rattle.vx_array_tree.specs.Tree.{option_trees, places, rows_below, rows_of};
ghost use Rattle.vx_rows.specs.Lone.{lone_mark};
ghost use Rattle.vx_arrays.specs.VarBins.{IsOfBytes};
ghost use Rattle.std.specs.Str.{is_utf8};

use crate::array::Array;
use crate::offsets::index_at;
use crate::validity::option_validity_at;
use vx_rows::LoneRow;
use vx_types::DType;

// The bytes from an offset up to the next one.
#[tactic(auto, using(crate::proofs::Rising::parts))]
pub(crate) fn part_at<'a>(bytes: &'a [u8], offsets: &Array, parts: usize, index: usize) -> &'a [u8]
    requires counted { (label offsets.now).len ≡ suc parts }
    requires offsets { AreOffsets (rows_of offsets.now) parts (length bytes.now) }
    requires inside { index < parts }
    ensures { result.now ≡ bytes_at bytes.now (rows_of offsets.now) index }
{
    let Some(start) = index_at(offsets, index) else {
        unreachable!()
    };
    let Some(end) = index_at(offsets, index + 1) else {
        unreachable!()
    };
    &bytes[start as usize..end as usize]
}

// Whether the parts of the valid rows are texts.
pub(crate) fn are_texts(
    bytes: &[u8],
    offsets: &Array,
    validity: &Option<Array>,
    rows: usize,
) -> bool
    requires counted { (label offsets.now).len ≡ suc rows }
    requires offsets { AreOffsets (rows_of offsets.now) rows (length bytes.now) }
    requires planned { before_validity [] rows (count (option_trees validity.now)) ≡ Some (places (option_trees validity.now)) }
    ensures { IsTrue result ↔ ((i : ℕ) → i < rows → IsThere (valid_by (rows_below (option_trees validity.now))) i → IsText (bytes_at bytes.now (rows_of offsets.now) i)) }
{
    for i in 0..rows {
        if !is_text_at(bytes, offsets, validity, rows, i) {
            return false;
        }
    }
    true
}

// Whether a row's part is a text, where the row is valid.
fn is_text_at(
    bytes: &[u8],
    offsets: &Array,
    validity: &Option<Array>,
    rows: usize,
    index: usize,
) -> bool
    requires counted { (label offsets.now).len ≡ suc rows }
    requires offsets { AreOffsets (rows_of offsets.now) rows (length bytes.now) }
    requires planned { before_validity [] rows (count (option_trees validity.now)) ≡ Some (places (option_trees validity.now)) }
    requires inside { index < rows }
    ensures { IsTrue result ↔ (IsThere (valid_by (rows_below (option_trees validity.now))) index → IsText (bytes_at bytes.now (rows_of offsets.now) index)) }
{
    match option_validity_at(validity, rows, index) {
        Some(true) => is_text(part_at(bytes, offsets, rows, index)),
        Some(false) => true,
        None => true,
    }
}

// Whether bytes fit a type of texts or of bytes.
pub(crate) fn is_content(dtype: &DType, bytes: &[u8]) -> bool
    ensures { IsTrue result ↔ IsContent (typ dtype.now) bytes.now }
{
    match dtype {
        DType::Utf8(_) => is_text(bytes),
        _ => true,
    }
}

// Whether bytes are a text.
fn is_text(bytes: &[u8]) -> bool
    ensures { result ≡ is_utf8 bytes.now }
{
    simdutf8::basic::from_utf8(bytes).is_ok()
}

// Whether a type is one of texts or of bytes.
pub(crate) fn is_of_bytes(dtype: &DType) -> bool
    ensures { IsTrue result ↔ IsOfBytes (typ dtype.now) }
{
    match dtype {
        DType::Utf8(_) => true,
        DType::Binary(_) => true,
        _ => false,
    }
}

// A text by its bytes.
fn text_of(bytes: &[u8]) -> &str
    requires { IsText bytes.now }
    ensures { result.now ≡ bytes.now }
{
    match simdutf8::basic::from_utf8(bytes) {
        Ok(text) => text,
        Err(_) => unreachable!(),
    }
}

// A row of a type of texts or of bytes, by its bytes.
pub(crate) fn lone_part<'a>(dtype: &DType, bytes: &'a [u8]) -> LoneRow<'a>
    requires kind { IsOfBytes (typ dtype.now) }
    requires text { IsContent (typ dtype.now) bytes.now }
    ensures { lone_mark result ≡ mark_of (typ dtype.now) bytes.now }
{
    match dtype {
        DType::Utf8(_) => LoneRow::Utf8(text_of(bytes)),
        DType::Binary(_) => LoneRow::Binary(bytes),
        _ => unreachable!(),
    }
}
