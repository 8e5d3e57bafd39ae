//! Whether a node's metadata fits its message, asked of each encoding.

ghost use Rattle.std.specs.Prelude.{IsTrue, IsFalse};
ghost use Rattle.vx_trees.specs.Rose.{label, below};
ghost use Rattle.vx_wire_tree.specs.Limits.{HasMessage};

use crate::encodings;
use vx_arrays::{Array, Body};

/// Whether the root's metadata fits its message: a dictionary's number of values has 32 bits there, and the type of a
/// variant's shredded child at most 49 levels. A writer asks this of each node before it takes anything of it, so that
/// no metadata is refused later.
#[tactic(auto, using(crate::proofs::Fit::fit))]
pub fn has_message(array: &Array) -> bool
    ensures fits { IsTrue result → HasMessage (label array.now) (below array.now) }
    ensures over { IsFalse result → HasMessage (label array.now) (below array.now) → ⊥ }
{
    match array.body() {
        Body::Null => true,
        Body::Bool(_) => true,
        Body::Primitive(_) => true,
        Body::Decimal(_) => true,
        Body::VarBin(_) => true,
        Body::VarBinView(_) => true,
        Body::FixedSizeList => true,
        Body::Struct => true,
        Body::Ext => true,
        Body::List | Body::ListView(_) => encodings::lists::has_message(array.children()),
        Body::Dict(_) => encodings::dict::has_message(array.children()),
        Body::Map | Body::Union => true,
        Body::Variant => encodings::variant::has_message(array.children()),
        Body::Foreign(_) => true,
    }
}
