//! Logical types, their parts, and both of their wire forms.

pub use vx_type_wire::{DTypeExt, ExtPlugin, ExtSession, TypeWireError};
pub use vx_types::{
    Blob, DType, DTypes, DecimalDType, DecimalType, ExtDType, Id, Ids, MapDType, Name, Names,
    Nullability, PType, PValue, StructFields, TypeError, TypeIds, UnionVariants,
};
