//! Unset links.

use crate::builder::piece::LinkKind;

/// A link to a later block.
#[derive(Clone, Copy, Debug, PartialEq, Eq)]
pub struct Slot {
    /// The number of the block that has it.
    pub block: u32,
    /// Its index among the entries or elements.
    pub index: u32,
    /// What it points to.
    pub kind: LinkKind,
    /// The place of its offset.
    pub place: usize,
}
