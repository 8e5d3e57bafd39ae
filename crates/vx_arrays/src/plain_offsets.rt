//! Offsets as plain numbers in a buffer, without a validity.

ghost use Rattle.std.specs.Prelude.{suc, ℕ, Some, ◌≡◌, ◌<◌, ◌≤◌, ◌↔◌, ◌+◌, ◌*◌, ◌^◌, IfSome, IsTrue, length};
ghost use Rattle.vx_trees.specs.Rose.{label};
ghost use Rattle.vx_numbers.specs.Numbers.{width_of};
ghost use Rattle.vx_types.specs.Value.{natural_number};
ghost use Rattle.vx_numbers.specs.declared.ptype.PType.{PType as Kind};
ghost use Rattle.vx_numbers.specs.declared.ptype.PType.TheVariants.{U8, U16, U32, U64};
ghost use Rattle.vx_array_tree.specs.Bytes.{primitive_at};
ghost use Rattle.vx_array_tree.specs.Encodings.VarBins.{AreOffsets};
ghost use Rattle.vx_array_tree.specs.Tree.{rows_of};
ghost use Rattle.vx_arrays.specs.Offsets.{plain_rows};

use crate::array::Array;
use crate::body::Body;
use vx_types::{DType, PType};

// Unsigned numbers, little-endian.
trait Unsigned {
    ghost kind: { Kind };

    // How many numbers the bytes hold.
    fn count_in(bytes: &[u8]) -> usize
        ensures { (n : ℕ) → length bytes.now ≡ width_of kind * n → result ≡ n };

    // The number at an index, where they stand one after the other.
    fn number_at(bytes: &[u8], index: usize) -> u64
        requires { width_of kind * index + width_of kind ≤ length bytes.now }
        ensures { natural_number (primitive_at kind bytes.now index) ≡ Some result };
}

impl Unsigned for u8 {
    ghost kind = { U8 };

    fn count_in(bytes: &[u8]) -> usize {
        bytes.len()
    }

    fn number_at(bytes: &[u8], index: usize) -> u64 {
        bytes[index] as u64
    }
}

impl Unsigned for u16 {
    ghost kind = { U16 };

    fn count_in(bytes: &[u8]) -> usize {
        bytes.len() / 2
    }

    fn number_at(bytes: &[u8], index: usize) -> u64 {
        let rest = &bytes[2 * index..];
        u16::from_le_bytes(*rest.first_chunk::<2>().unwrap()) as u64
    }
}

impl Unsigned for u32 {
    ghost kind = { U32 };

    fn count_in(bytes: &[u8]) -> usize {
        bytes.len() / 4
    }

    fn number_at(bytes: &[u8], index: usize) -> u64 {
        let rest = &bytes[4 * index..];
        u32::from_le_bytes(*rest.first_chunk::<4>().unwrap()) as u64
    }
}

impl Unsigned for u64 {
    ghost kind = { U64 };

    fn count_in(bytes: &[u8]) -> usize {
        bytes.len() / 8
    }

    fn number_at(bytes: &[u8], index: usize) -> u64 {
        let rest = &bytes[8 * index..];
        u64::from_le_bytes(*rest.first_chunk::<8>().unwrap())
    }
}

// The kind and the bytes of a primitive array without a validity; None of any other array.
pub(crate) fn plain_numbers(array: &Array) -> Option<(PType, &[u8])>
    ensures rows { IfSome result (λ x. rows_of array.now ≡ plain_rows x.0 (label array.now).len x.1.now) }
    ensures filled { IfSome result (λ x. length x.1.now ≡ width_of x.0 * (label array.now).len) }
{
    let (Body::Primitive(numbers), []) = (array.body(), array.children()) else {
        return None;
    };
    match array.dtype() {
        DType::Primitive(kind, _) => Some((*kind, numbers.values().as_host().as_slice())),
        _ => None,
    }
}

// Whether numbers of this kind are offsets. Signed numbers are read as unsigned ones: those below 0 are then greater
// than all others, and than the total.
pub(crate) fn are_plain_offsets(kind: PType, bytes: &[u8], parts: usize, total: usize) -> bool
    requires filled { length bytes.now ≡ width_of kind * suc parts }
    requires few { suc parts < 2 ^ 64 }
    ensures { IsTrue result ↔ AreOffsets (plain_rows kind (suc parts) bytes.now) parts total }
{
    match kind {
        PType::U8 => are_rising::<u8>(bytes, parts, total),
        PType::U16 => are_rising::<u16>(bytes, parts, total),
        PType::U32 => are_rising::<u32>(bytes, parts, total),
        PType::U64 => are_rising::<u64>(bytes, parts, total),
        PType::I8 => are_rising::<u8>(bytes, parts, total.min(i8::MAX as usize)),
        PType::I16 => are_rising::<u16>(bytes, parts, total.min(i16::MAX as usize)),
        PType::I32 => are_rising::<u32>(bytes, parts, total.min(i32::MAX as usize)),
        PType::I64 => are_rising::<u64>(bytes, parts, total.min(i64::MAX as usize)),
        PType::F16 | PType::F32 | PType::F64 => false,
    }
}

// Whether numbers never decrease, and the last is at most a total.
#[tactic(auto, using(crate::proofs::PlainOffsets::plain))]
fn are_rising<T: Unsigned>(bytes: &[u8], parts: usize, total: usize) -> bool
    requires filled { length bytes.now ≡ width_of T.kind * suc parts }
    requires few { suc parts < 2 ^ 64 }
    ensures { IsTrue result ↔ AreOffsets (plain_rows T.kind (suc parts) bytes.now) parts total }
{
    let _parts = parts;
    let count = T::count_in(bytes);
    let mut last = 0;
    for i in 0..count {
        let offset = T::number_at(bytes, i);
        if offset < last {
            return false;
        }
        last = offset;
    }
    last <= total as u64
}
