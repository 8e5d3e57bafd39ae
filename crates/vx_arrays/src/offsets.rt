//! Offsets: rows of an array that say where the parts of a whole begin and end.

ghost use Rattle.std.specs.Prelude.{suc, ◌^◌, ◌≡◌, ◌<◌, ◌≤◌, ◌↔◌, IfSome, IfNone, IsTrue};
ghost use Rattle.vx_trees.specs.Rose.{label};
ghost use Rattle.vx_array_tree.specs.Encodings.VarBins.{AreOffsets};
ghost use Rattle.vx_array_tree.specs.Rows.{index_at, IsIndex, IsThere};
ghost use Rattle.vx_types.specs.Seen.{typ};
ghost use Rattle.vx_array_tree.specs.Tree.{rows_of};
ghost use Rattle.vx_arrays.specs.VarBins.{IsOfOffsets};

use crate::array::Array;
use crate::plain_offsets::{are_plain_offsets, plain_numbers};
use vx_types::{DType, Nullability};

// A row as a natural number: 0 where the row is opaque; None where it is valid and no natural number.
pub(crate) fn index_at(array: &Array, index: usize) -> Option<u64>
    requires inside { index < (label array.now).len }
    ensures value { IfSome result (λ n. n ≡ index_at (rows_of array.now) index) }
    ensures natural { IfSome result (λ _. IsThere (rows_of array.now).valid index → IsIndex (rows_of array.now) index) }
    ensures none { IfNone result ((IsThere (rows_of array.now).valid index → IsIndex (rows_of array.now) index) → ⊥) }
{
    match array.natural_at(index) {
        Some(n) => Some(n),
        None => {
            match array.is_valid(index) {
                Some(true) => None,
                Some(false) => Some(0),
                None => Some(0),
            }
        }
    }
}

// Whether rows are offsets: natural numbers that never decrease, of which the last is at most a total. Plain numbers are
// read from their bytes in one pass, which costs less than asking an array row by row.
pub(crate) fn are_offsets(offsets: &Array, parts: usize, total: usize) -> bool
    requires counted { (label offsets.now).len ≡ suc parts }
    ensures { IsTrue result ↔ AreOffsets (rows_of offsets.now) parts total }
{
    match plain_numbers(offsets) {
        Some((kind, bytes)) => are_plain_offsets(kind, bytes, parts, total),
        None => are_offsets_by_rows(offsets, parts, total),
    }
}

// The same of any array, asked row by row.
#[tactic(auto, using(crate::proofs::Rising::rising))]
fn are_offsets_by_rows(offsets: &Array, parts: usize, total: usize) -> bool
    requires counted { (label offsets.now).len ≡ suc parts }
    ensures { IsTrue result ↔ AreOffsets (rows_of offsets.now) parts total }
{
    let count = offsets.len();
    let mut last = 0;
    for i in 0..count {
        match index_at(offsets, i) {
            None => return false,
            Some(offset) => {
                if offset < last {
                    return false;
                }
                last = offset;
            }
        }
    }
    last <= total as u64
}

// Whether a type is one of offsets.
pub(crate) fn is_of_offsets(dtype: &DType) -> bool
    ensures { IsTrue result ↔ IsOfOffsets (typ dtype.now) }
{
    match dtype {
        DType::Primitive(kind, Nullability::NonNullable) => kind.is_int(),
        _ => false,
    }
}

// Whether an array may be the offsets of `len` parts: it has one more row, and an integer type that is not nullable.
pub(crate) fn are_counted(offsets: &Array, parts: usize) -> bool
    ensures kind { IsTrue result → IsOfOffsets (label offsets.now).dtype }
    ensures counted { IsTrue result → (label offsets.now).len ≡ suc parts }
    ensures few { IsTrue result → suc parts < 2 ^ 64 }
    ensures all { IsOfOffsets (label offsets.now).dtype → (label offsets.now).len ≡ suc parts → IsTrue result }
{
    match offsets.len().checked_sub(1) {
        Some(count) => count == parts && is_of_offsets(offsets.dtype()),
        None => false,
    }
}

// An offset among right ones: 0 where it is opaque.
#[tactic(auto, using(crate::proofs::Rising::parts))]
pub(crate) fn offset_at(offsets: &Array, parts: usize, total: usize, index: usize) -> usize
    requires counted { (label offsets.now).len ≡ suc parts }
    requires offsets { AreOffsets (rows_of offsets.now) parts total }
    requires inside { index ≤ parts }
    ensures value { result ≡ index_at (rows_of offsets.now) index }
    ensures within { result ≤ total }
{
    match index_at(offsets, index) {
        Some(offset) => offset as usize,
        None => unreachable!(),
    }
}
