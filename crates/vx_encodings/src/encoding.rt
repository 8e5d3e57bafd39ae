//! The encodings.

mod id;

/// The shipped encodings, one for each file of `encodings`.
#[derive(Clone, Copy, Debug, PartialEq, Eq)]
pub enum Encoding {
    Null, // nulls alone
    Bool, // flags, a bit each
    Primitive, // numbers, one after the other
    Decimal, // decimals, by their unscaled integers, one after the other
    VarBin, // texts or bytes, one after the other, by offsets
    VarBinView, // texts or bytes, by views into buffers
    Dict, // dictionaries, whose rows are named by codes among values
    FixedSizeList, // lists of one size, whose elements stand one row's after the other's
    Struct, // structures, by their fields
    Extension, // extensions, by their storage
    List, // lists, whose elements are split by offsets
    ListView, // lists, each with an offset and a size of its own
    Map, // maps, by their entries
    Union, // unions, by the tags of their rows
    Variant, // variants, by a core and a typed child that may stand over it
}
