//! Whether a row is valid, by encoding.

ghost use Rattle.std.specs.Prelude.{◌≡◌, ◌<◌};
ghost use Rattle.vx_trees.specs.Rose.{label};
ghost use Rattle.vx_array_tree.specs.Tree.{valid_at};

use crate::array::Array;
use crate::body::Body;
use crate::encodings::extension::storage_in;
use crate::encodings::fixed_size_list::FixedSizeListArray;
use crate::encodings::lists::ListArray;
use crate::encodings::map::entries_in;
use crate::encodings::structs::StructArray;
use crate::encodings::union::tags_in;
use crate::encodings::variant::core_in;
use crate::validity::validity_at;

impl Array {
    /// Whether the row is valid; None where it is opaque.
    #[tactic(auto, using(crate::proofs::Untold::untold_node, crate::proofs::Stored::stored_rows, crate::proofs::Mapped::mapped_rows, crate::proofs::VariantNodes::variant_nodes))]
    pub fn is_valid(&self, index: usize) -> Option<bool>
        requires { index < (label self.now).len }
        ensures { result ≡ valid_at self.now index }
    {
        match &self.body {
            Body::Null => Some(false),
            Body::Primitive(_) => validity_at(self.children.as_slice(), self.len, index),
            Body::Bool(_) => validity_at(self.children.as_slice(), self.len, index),
            Body::Decimal(_) => validity_at(self.children.as_slice(), self.len, index),
            Body::VarBin(parts) => {
                parts.valid_at(&self.dtype, self.len, self.children.as_slice(), index)
            }
            Body::VarBinView(_) => validity_at(self.children.as_slice(), self.len, index),
            Body::FixedSizeList => FixedSizeListArray::valid_at(
                &self.dtype,
                self.len,
                self.children.as_slice(),
                index,
            ),
            Body::Struct => {
                StructArray::valid_at(&self.dtype, self.len, self.children.as_slice(), index)
            }
            Body::List => {
                ListArray::valid_at(&self.dtype, self.len, self.children.as_slice(), index)
            }
            Body::ListView(views) => {
                views.valid_at(&self.dtype, self.len, self.children.as_slice(), index)
            }
            Body::Map => {
                let entries = entries_in(&self.dtype, self.len, self.children.as_slice());
                entries.is_valid(index)
            }
            Body::Ext => {
                let storage = storage_in(&self.dtype, self.len, self.children.as_slice());
                storage.is_valid(index)
            }
            Body::Union => {
                let tags = tags_in(&self.dtype, self.len, self.children.as_slice());
                tags.is_valid(index)
            }
            Body::Dict(flag) => {
                let children = self.children.as_slice();
                let (codes, values) = flag.pair_in(&self.dtype, self.len, children);
                match codes.natural_at(index) {
                    Some(code) => values.is_valid(code as usize),
                    None => codes.is_valid(index),
                }
            }
            Body::Variant => {
                let (core, after) = core_in(&self.dtype, self.len, self.children.as_slice());
                match after {
                    [] => core.is_valid(index),
                    [shredded, ..] => match shredded.is_valid(index) {
                        Some(false) => core.is_valid(index),
                        valid => valid,
                    },
                }
            }
            Body::Foreign(_) => None,
        }
    }
}
