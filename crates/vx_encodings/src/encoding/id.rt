//! The identifier of each encoding.

ghost use Rattle.std.specs.Prelude.{◌≡◌};
ghost use Rattle.vx_array_tree.specs.Table.{id_of};
ghost use Rattle.vx_encodings.specs.Plain.{plain_encoding};

use crate::encoding::Encoding;

impl Encoding {
    /// The identifier of the encoding's nodes. It is borrowed as a text, since an `Id` would own memory.
    pub fn id(self) -> &'static str
        ensures { result.now ≡ id_of (plain_encoding self) }
    {
        match self {
            Encoding::Null => vx_arrays::NullArray::ID,
            Encoding::Bool => vx_arrays::BoolArray::ID,
            Encoding::Primitive => vx_arrays::PrimitiveArray::ID,
            Encoding::Decimal => vx_arrays::DecimalArray::ID,
            Encoding::VarBin => vx_arrays::VarBinArray::ID,
            Encoding::VarBinView => vx_arrays::VarBinViewArray::ID,
            Encoding::Dict => vx_arrays::DictArray::ID,
            Encoding::FixedSizeList => vx_arrays::FixedSizeListArray::ID,
            Encoding::Struct => vx_arrays::StructArray::ID,
            Encoding::Extension => vx_arrays::ExtensionArray::ID,
            Encoding::List => vx_arrays::ListArray::ID,
            Encoding::ListView => vx_arrays::ListViewArray::ID,
            Encoding::Map => vx_arrays::MapArray::ID,
            Encoding::Union => vx_arrays::UnionArray::ID,
            Encoding::Variant => vx_arrays::VariantArray::ID,
        }
    }
}
