//! The limits on trees that are written, and on a buffer's alignment.

ghost use Rattle.std.specs.Prelude.{◌≡◌, ◌<◌, ◌-◌, ◌↔◌, IsTrue};
ghost use Rattle.vx_wire_tree.specs.Limits.{IsDescribable, AreDescribable};
ghost use Rattle.vx_serde.specs.Limits.{most_levels as levels_by};

use crate::borrowed_buffers::BorrowedBuffers;
use crate::options::SerializeOptions;
use vx_buffer::BufferHandle;
use vx_serialized::Descriptor;

/// The greatest number of levels of a written tree. It is two below the 64 tables that may nest, as the message and the
/// statistics of the lowest node are tables, too.
pub(crate) const MAX_LEVELS: usize = 62;

/// The greatest number of levels where deep trees are asked for.
const MAX_LEVELS_DEEP: usize = 126;

/// The greatest number of buffers of a written tree: nodes name them by a u16.
pub(crate) const MAX_BUFFERS: usize = 65_535;

/// The greatest number of nodes of a written tree. A message is a table, each node another one, and so are its
/// statistics, and a message has at most 1,000,000 tables.
pub(crate) const MAX_NODES: usize = 499_999;

/// The greatest length of a written buffer in bytes, as a descriptor's length has four.
pub(crate) const MAX_BUFFER_LEN: usize = 4_294_967_295;

/// The greatest number of levels of a tree that is written by these options.
pub(crate) fn most_levels(options: &SerializeOptions) -> usize
    ensures { result ≡ levels_by options.now }
{
    if options.deep {
        return MAX_LEVELS_DEEP;
    }
    MAX_LEVELS
}

/// Whether a descriptor can describe a buffer, by its exponent and its length.
fn is_describable(buffer: &BufferHandle) -> bool
    ensures { IsTrue result ↔ IsDescribable buffer.now }
{
    if buffer.alignment().exponent() > Descriptor::MAX_EXPONENT {
        return false;
    }
    buffer.len() <= MAX_BUFFER_LEN
}

/// Whether descriptors can describe each of these buffers.
pub(crate) fn are_describable(buffers: &BorrowedBuffers<'_>) -> bool
    ensures { IsTrue result ↔ AreDescribable buffers.now }
{
    for i in 0..buffers.len() {
        if !is_describable(buffers.get(i)) {
            return false;
        }
    }
    true
}
