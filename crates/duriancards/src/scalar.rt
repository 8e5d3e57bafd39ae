//! Scalars: values with their types, and their messages.

pub use vx_scalar_wire::{ScalarExt, ScalarValueExt, ScalarWireError};
pub use vx_scalars::{DecimalValue, Scalar, ScalarValue, ValueRef, Values, VariantRef};
