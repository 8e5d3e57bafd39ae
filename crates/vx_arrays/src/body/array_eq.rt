//! What equality compares of a node, by encoding.

ghost use Rattle.std.specs.Prelude.{◌≡◌, ◌↔◌, IsTrue};
ghost use Rattle.vx_arrays.specs.Compared.{compared_body};
ghost use Rattle.vx_arrays.specs.Plain.{plain_body};

use crate::body::Body;

impl Body {
    // Whether the encodings and what they hold are equal, whatever the alignments of the buffers.
    pub(crate) fn array_eq(&self, other: &Body) -> bool
        ensures { IsTrue result ↔ (compared_body (plain_body self.now) ≡ compared_body (plain_body other.now)) }
    {
        match (self, other) {
            (Body::Null, Body::Null) => true,
            (Body::Primitive(x), Body::Primitive(y)) => x.array_eq(y),
            (Body::Bool(x), Body::Bool(y)) => x.array_eq(y),
            (Body::Decimal(x), Body::Decimal(y)) => x.array_eq(y),
            (Body::VarBin(x), Body::VarBin(y)) => x.array_eq(y),
            (Body::VarBinView(x), Body::VarBinView(y)) => x.array_eq(y),
            (Body::FixedSizeList, Body::FixedSizeList) => true,
            (Body::Struct, Body::Struct) => true,
            (Body::Ext, Body::Ext) => true,
            (Body::List, Body::List) => true,
            (Body::Union, Body::Union) => true,
            (Body::Dict(x), Body::Dict(y)) => x.array_eq(y),
            (Body::ListView(x), Body::ListView(y)) => x.array_eq(y),
            (Body::Map, Body::Map) => true,
            (Body::Variant, Body::Variant) => true,
            (Body::Foreign(x), Body::Foreign(y)) => x.array_eq(y),
            _ => false,
        }
    }
}
