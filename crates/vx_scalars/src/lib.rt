//! Scalars: single values with their types, and statistics of arrays.
//!
//! The types and the error in these signatures are re-exported from `vx_types`, so
//! that a caller needs this crate alone.
#![tactic(auto)]

mod copy;
pub mod decimal;
pub mod fits;
pub mod precision;
pub mod scalar;
pub mod stat;
mod stats_fit;
pub mod stats_set;
pub mod value;
pub mod value_ref;
pub mod values;
pub mod variant_ref;

pub use decimal::DecimalValue;
pub use fits::bare_dtype;
pub use precision::Precision;
pub use scalar::Scalar;
pub use stat::Stat;
pub use stats_set::StatsSet;
pub use value::ScalarValue;
pub use value_ref::ValueRef;
pub use values::Values;
pub use variant_ref::VariantRef;
pub use vx_types::{
    Blob, DType, DTypes, DecimalDType, DecimalType, ExtDType, Id, Ids, MapDType, Name, Names,
    Nullability, PType, PValue, StructFields, TypeError, TypeIds, TypeRef, UnionVariants,
};
