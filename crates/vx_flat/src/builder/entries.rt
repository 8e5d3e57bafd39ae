//! The entries of a table before its links are set.

ghost use Rattle.std.specs.Prelude.{◌≡◌};
ghost use Rattle.vx_flat.specs.Linking as to;

use crate::builder::piece::BlockField;
use crate::schema::Width;
use crate::writing::block::Cell;

/// The width of 1, 2, 4 or 8 bytes.
fn width_at(bytes: u8) -> Width
    ensures { result ≡ to.width_at bytes }
{
    match bytes {
        1 => Width::One,
        2 => Width::Two,
        4 => Width::Four,
        _ => Width::Eight,
    }
}

/// The cell of an entry. A link points to `block`.
pub fn cell_at(entry: BlockField, block: usize) -> Cell
    ensures { result ≡ to.cell_at entry block }
{
    match entry {
        BlockField::Absent => Cell::Gap,
        BlockField::Number { width, bits } => Cell::Inline(width_at(width), bits),
        BlockField::Link(_) => Cell::Link(block),
        BlockField::UnknownMember => Cell::Null,
    }
}
