//! The parts of a row, by encoding.

ghost use Rattle.std.specs.Prelude.{◌≡◌, ◌<◌};
ghost use Rattle.vx_trees.specs.Rose.{label};
ghost use Rattle.vx_trees.specs.Walks.{nodes};
ghost use Rattle.vx_array_tree.specs.Tree.{row_at, cells};
ghost use Rattle.vx_arrays.specs.Parts.{AreThere, parts_cells, parts_nodes, parts_value};

use crate::array::Array;
use crate::body::Body;
use crate::encodings::extension::storage_in;
use crate::encodings::fixed_size_list::FixedSizeListArray;
use crate::encodings::lists::ListArray;
use crate::encodings::map::entries_in;
use crate::encodings::structs::StructArray;
use crate::encodings::union::UnionArray;
use crate::encodings::variant::VariantArray;
use crate::parts::RowParts;
use vx_rows::LoneRow;

impl Array {
    // The parts of a row.
    #[tactic(auto, using(crate::proofs::Untold::untold_node, crate::proofs::Stored::stored_rows, crate::proofs::Mapped::mapped_rows))]
    pub(crate) fn parts_at(&self, index: usize) -> RowParts<'_>
        requires { index < (label self.now).len }
        ensures value { parts_value result ≡ row_at self.now index }
        ensures cells { parts_cells result ≡ cells self.now index }
        ensures there { AreThere result }
        ensures smaller { parts_nodes result < nodes self.now }
    {
        let dtype = &self.dtype;
        let len = self.len;
        let children = self.children.as_slice();
        match &self.body {
            Body::Null => RowParts::Lone(LoneRow::Null),
            Body::Primitive(numbers) => RowParts::Lone(numbers.row_at(dtype, len, children, index)),
            Body::Bool(flags) => RowParts::Lone(flags.row_at(dtype, len, children, index)),
            Body::Decimal(decimals) => RowParts::Lone(decimals.row_at(dtype, len, children, index)),
            Body::VarBin(parts) => RowParts::Lone(parts.row_at(dtype, len, children, index)),
            Body::VarBinView(views) => RowParts::Lone(views.row_at(dtype, len, children, index)),
            Body::FixedSizeList => FixedSizeListArray::parts_at(dtype, len, children, index),
            Body::Struct => StructArray::parts_at(dtype, len, children, index),
            Body::List => ListArray::parts_at(dtype, len, children, index),
            Body::Union => UnionArray::parts_at(dtype, len, children, index),
            Body::Dict(flag) => flag.parts_at(dtype, len, children, index),
            Body::ListView(views) => views.parts_at(dtype, len, children, index),
            Body::Map => {
                let array = entries_in(dtype, len, children);
                RowParts::At { array, index }
            }
            Body::Ext => {
                let array = storage_in(dtype, len, children);
                RowParts::At { array, index }
            }
            Body::Variant => VariantArray::parts_at(dtype, len, children, index),
            Body::Foreign(_) => RowParts::Lone(LoneRow::Opaque),
        }
    }
}
