//! Logical types: the values that an array's rows may have, whatever their bytes.
//!
//! Contracts see a [`DType`] as a tree of kinds (`specs::Typ`), so that a rule on
//! types is written once over trees. Texts, bytes and lists of names, types, tags
//! and identifiers are small types that contracts see as lists.
#![tactic(auto)]

pub mod blob;
mod copy;
pub mod decimal;
pub mod dtype;
pub mod dtypes;
pub mod error;
pub mod ext;
pub mod id;
pub mod ids;
pub mod laws;
mod levels;
pub mod map;
pub mod name;
pub mod names;
pub mod nullability;
mod same;
pub mod struct_fields;
pub mod type_ids;
mod type_list;
pub mod type_ref;
pub mod union_variants;

pub use blob::Blob;
pub use decimal::DecimalDType;
pub use dtype::DType;
pub use dtypes::DTypes;
pub use error::{TypeError, or_memory};
pub use ext::ExtDType;
pub use id::Id;
pub use ids::Ids;
pub use map::MapDType;
pub use name::Name;
pub use names::Names;
pub use nullability::Nullability;
pub use struct_fields::StructFields;
pub use type_ids::TypeIds;
pub use type_ref::TypeRef;
pub use union_variants::UnionVariants;
pub use vx_numbers::{DecimalType, PType, PValue};
