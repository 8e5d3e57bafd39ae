//! The Booleans of a validity, by encoding.

ghost use Rattle.std.specs.Prelude.{◌≡◌, ◌<◌};
ghost use Rattle.vx_trees.specs.Rose.{label, node, end};
ghost use Rattle.vx_types.specs.Kind.{boolean};
ghost use Rattle.vx_types.specs.Value.{flag_in};
ghost use Rattle.vx_types.specs.declared.nullability.Nullability.TheVariants.{NonNullable};
ghost use Rattle.vx_array_tree.specs.Tree.{row_at};

use crate::array::Array;
use crate::body::Body;

impl Array {
    // The row's Boolean, where this array has the type of a validity; None where the row is no Boolean.
    #[cycle(naturals)]
    #[tactic(auto, using(crate::proofs::Untold::untold_node))]
    pub(crate) fn flag_at(&self, index: usize) -> Option<bool>
        requires inside { index < (label self.now).len }
        requires flags { (label self.now).dtype ≡ node (boolean NonNullable) end }
        ensures { result ≡ flag_in (row_at self.now index) }
    {
        match &self.body {
            Body::Null => None,
            Body::Primitive(_) => None,
            Body::Bool(flags) => Some(flags.bit(index)),
            Body::Decimal(_) => None,
            Body::VarBin(_) => None,
            Body::VarBinView(_) => None,
            Body::FixedSizeList | Body::Struct | Body::Ext | Body::List => None,
            Body::Dict(flag) => {
                let children = self.children.as_slice();
                let (codes, values) = flag.pair_in(&self.dtype, self.len, children);
                match codes.natural_at(index) {
                    Some(code) => values.flag_at(code as usize),
                    None => None,
                }
            }
            Body::ListView(_) | Body::Map | Body::Union => None,
            Body::Variant => None,
            Body::Foreign(_) => None,
        }
    }
}
