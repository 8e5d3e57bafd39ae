//! How many buffers a node of each encoding has.

ghost use Rattle.std.specs.Prelude.{◌≡◌, length};
ghost use Rattle.vx_array_tree.specs.Table.{buffers_of};
ghost use Rattle.vx_arrays.specs.Plain.{plain_body};

use crate::body::Body;

impl Body {
    /// How many buffers there are.
    pub fn nbuffers(&self) -> usize
        ensures { result ≡ length (buffers_of (plain_body self.now)) }
    {
        match self {
            Body::Null => 0,
            Body::Primitive(_) => 1,
            Body::Bool(_) => 1,
            Body::Decimal(_) => 1,
            Body::VarBin(_) => 1,
            Body::VarBinView(views) => views.nbuffers(),
            Body::FixedSizeList | Body::Struct | Body::Ext | Body::List => 0,
            Body::ListView(_) | Body::Map | Body::Union | Body::Dict(_) | Body::Variant => 0,
            Body::Foreign(foreign) => foreign.buffers().len(),
        }
    }
}
