//! Values of scalars.

ghost use Rattle.std.specs.Prelude.{◌≡◌, IfOk, IsOkUnless};

use crate::decimal::DecimalValue;
use crate::value_ref::ValueRef;
use crate::values::Values;
use crate::variant_ref::VariantRef;
use std::alloc::Global;
use vx_types::{Blob, Name, PValue, TypeError};

/// A value that is not null, without its type. A null is the `None` of an
/// `Option<ScalarValue>`.
#[cycle(scalar)]
#[derive(Debug)]
pub enum ScalarValue {
    /// True or false.
    Bool(bool),
    /// A number of one of the eleven kinds.
    Primitive(PValue),
    /// A decimal's unscaled integer.
    Decimal(DecimalValue),
    /// UTF-8 text.
    Utf8(Name),
    /// Bytes.
    Binary(Blob),
    /// A row of a list, a structure or a map. The entries of a map are tuples of a
    /// key and a value.
    Tuple(Values),
    /// The tag of a union's member, and the member's value.
    Union(u8, ValueRef),
    /// A value with a type of its own.
    Variant(VariantRef),
}

// By hand, so that code that drops a value calls this and does not repeat the drops
// of its parts.
impl Drop for ScalarValue {
    #[cycle(dropping)]
    fn drop(self) {
        match self {
            ScalarValue::Bool(_) => {}
            ScalarValue::Primitive(_) => {}
            ScalarValue::Decimal(_) => {}
            ScalarValue::Utf8(_) => {}
            ScalarValue::Binary(_) => {}
            ScalarValue::Tuple(_) => {}
            ScalarValue::Union(_, _) => {}
            ScalarValue::Variant(_) => {}
        }
    }
}

impl ScalarValue {
    /// An equal value.
    #[cycle(copy)]
    pub fn clone(&self, alloc: Global) -> Result<ScalarValue, TypeError>
        ensures ok { IfOk result (λ value. value ≡ self.now) }
        ensures err { IsOkUnless result TypeError.OutOfMemory }
    {
        match self {
            ScalarValue::Bool(flag) => Ok(ScalarValue::Bool(*flag)),
            ScalarValue::Primitive(number) => Ok(ScalarValue::Primitive(*number)),
            ScalarValue::Decimal(decimal) => Ok(ScalarValue::Decimal(*decimal)),
            ScalarValue::Utf8(text) => Ok(ScalarValue::Utf8(text.clone(alloc)?)),
            ScalarValue::Binary(bytes) => Ok(ScalarValue::Binary(bytes.clone(alloc)?)),
            ScalarValue::Tuple(values) => Ok(ScalarValue::Tuple(values.clone(alloc)?)),
            ScalarValue::Union(tag, value) => Ok(ScalarValue::Union(*tag, value.clone(alloc)?)),
            ScalarValue::Variant(scalar) => Ok(ScalarValue::Variant(scalar.clone(alloc)?)),
        }
    }
}
