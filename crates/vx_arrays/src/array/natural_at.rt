//! Rows as natural numbers, by encoding.

ghost use Rattle.std.specs.Prelude.{◌≡◌, ◌<◌};
ghost use Rattle.vx_trees.specs.Rose.{label};
ghost use Rattle.vx_types.specs.Value.{natural};
ghost use Rattle.vx_array_tree.specs.Tree.{row_at};

use crate::array::Array;
use crate::body::Body;
use crate::encodings::extension::storage_in;
use crate::encodings::map::entries_in;

impl Array {
    // The row as a natural number; None where it is none, null or opaque.
    #[cycle(naturals)]
    #[tactic(auto, using(crate::proofs::Naturals::naturals, crate::proofs::Untold::untold_node, crate::proofs::Stored::stored_rows, crate::proofs::Mapped::mapped_rows))]
    pub(crate) fn natural_at(&self, index: usize) -> Option<u64>
        requires { index < (label self.now).len }
        ensures { result ≡ natural (row_at self.now index) }
    {
        let children = self.children.as_slice();
        match &self.body {
            Body::Null => None,
            Body::Primitive(numbers) => numbers.natural_at(&self.dtype, self.len, children, index),
            Body::Bool(_) => None,
            Body::Decimal(_) => None,
            Body::VarBin(_) => None,
            Body::VarBinView(_) => None,
            Body::FixedSizeList | Body::Struct | Body::List => None,
            Body::ListView(_) | Body::Union | Body::Foreign(_) => None,
            Body::Variant => None,
            Body::Map => {
                let entries = entries_in(&self.dtype, self.len, children);
                entries.natural_at(index)
            }
            Body::Ext => {
                let storage = storage_in(&self.dtype, self.len, children);
                storage.natural_at(index)
            }
            Body::Dict(flag) => {
                let (codes, values) = flag.pair_in(&self.dtype, self.len, children);
                match codes.natural_at(index) {
                    Some(code) => values.natural_at(code as usize),
                    None => None,
                }
            }
        }
    }
}
