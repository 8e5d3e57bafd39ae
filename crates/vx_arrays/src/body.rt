//! What a node holds beside its type, its length and its children, by encoding.

ghost use Rattle.std.specs.Prelude.{◌↔◌, IsTrue};
ghost use Rattle.vx_array_tree.specs.Table.{IsNative};

mod array_eq;
mod buffer;
mod clone;
mod encoding_id;
mod nbuffers;

/// What a node holds beside its type, its length and its children.
#[derive(Drop)]
pub enum Body {
    Null, // nothing: each row is null
    Primitive(crate::PrimitiveData), // numbers
    Bool(crate::BoolData), // flags
    Decimal(crate::DecimalData), // decimals
    VarBin(crate::VarBinData), // texts or bytes by offsets
    VarBinView(crate::VarBinViewData), // texts or bytes by views
    FixedSizeList, // nothing: lists of one size
    Struct, // nothing: structures
    Ext, // nothing: extensions
    List, // nothing: lists, split by offsets
    Union, // nothing: unions
    Dict(crate::DictData), // dictionaries: a flag
    ListView(crate::ListViewData), // a flag: lists, each with an offset and a size of its own
    Map, // nothing: maps, by their entries
    Variant, // nothing: variants, by their core and, in part, a typed child
    Foreign(crate::ForeignData), // all that is known of a node of an identifier that nothing reads
}

impl Body {
    ghost use Rattle.vx_arrays.specs.Plain.{plain_body};

    // Whether the encoding is registered rather than foreign.
    pub(crate) fn is_native(&self) -> bool
        ensures { IsTrue result ↔ IsNative (plain_body self.now) }
    {
        match self {
            Body::Foreign(_) => false,
            _ => true,
        }
    }
}
