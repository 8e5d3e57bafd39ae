//! Where an array stands among the children of a node.

ghost use Rattle.std.specs.Prelude.{◌≡◌, ◌↔◌, IsTrue};
ghost use Rattle.vx_trees.specs.Rose.{label};
ghost use Rattle.vx_types.specs.Seen.{typ};
ghost use Rattle.vx_array_tree.specs.Place.{place};
ghost use Rattle.vx_array_tree.specs.Tree.{array_place};

use crate::array::Array;
use vx_types::DType;

/// Whether an array is of this type and has n rows.
pub(crate) fn stands_at(array: &Array, dtype: &DType, len: usize) -> bool
    ensures { IsTrue result ↔ (array_place array.now ≡ place (typ dtype.now) len) }
{
    array.len() == len && *array.dtype() == *dtype
}

/// Whether an array is of this type.
pub(crate) fn is_of_type(array: &Array, dtype: &DType) -> bool
    ensures { IsTrue result ↔ ((label array.now).dtype ≡ typ dtype.now) }
{
    *array.dtype() == *dtype
}
