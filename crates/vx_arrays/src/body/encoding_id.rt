//! The identifier of each encoding.

ghost use Rattle.std.specs.Prelude.{◌≡◌};
ghost use Rattle.vx_array_tree.specs.Table.{own_id};
ghost use Rattle.vx_arrays.specs.Plain.{plain_body};

use crate::body::Body;

impl Body {
    /// The identifier of the encoding; of a foreign node its own.
    pub fn encoding_id(&self) -> &str
        ensures { result.now ≡ own_id (plain_body self.now) }
    {
        match self {
            Body::Null => crate::NullArray::ID,
            Body::Primitive(_) => crate::PrimitiveArray::ID,
            Body::Bool(_) => crate::BoolArray::ID,
            Body::Decimal(_) => crate::DecimalArray::ID,
            Body::VarBin(_) => crate::VarBinArray::ID,
            Body::VarBinView(_) => crate::VarBinViewArray::ID,
            Body::FixedSizeList => crate::FixedSizeListArray::ID,
            Body::Struct => crate::StructArray::ID,
            Body::Ext => crate::ExtensionArray::ID,
            Body::List => crate::ListArray::ID,
            Body::Union => crate::UnionArray::ID,
            Body::Dict(_) => crate::DictArray::ID,
            Body::ListView(_) => crate::ListViewArray::ID,
            Body::Map => crate::MapArray::ID,
            Body::Variant => crate::VariantArray::ID,
            Body::Foreign(foreign) => foreign.id().as_str(),
        }
    }
}
