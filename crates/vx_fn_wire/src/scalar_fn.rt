//! Scalar functions: functions of rows.

ghost use Rattle.std.specs.Prelude.{◌≡◌, option_map};
ghost use Rattle.vx_types.specs.Content.{IsText};

use crate::arity::Arity;
use crate::views::{ScalarFnOptions, ScalarFnSignature};
use vx_types::{Blob, Id, Name, Names};

/// A function of rows: what its messages and its texts say of it.
#[derive(Debug, Drop)]
pub struct ScalarFn {
    /// The identifier of the function.
    pub id: Id,
    /// Its options as bytes; `None` where they cannot be written.
    pub options: Option<Blob>,
    /// Its options as a text.
    pub text: Name,
    /// How many children a call of it may have.
    pub arity: Arity,
    /// The names of its first children. Later ones are called `arg` and their number.
    pub child_names: Names,
    /// Whether a row of the result is null where a child's row is.
    pub strict: bool,
    /// Whether the function succeeds on every row.
    pub infallible: bool,
}

/// A function by the name that other interfaces give it. It is a plain value here, and not a reference.
pub type ScalarFnRef = ScalarFn;

impl ScalarFn {
    /// A view of its options, borrowed.
    pub fn options(&self) -> ScalarFnOptions<'_>
        ensures id { result.id.now ≡ self.now.id }
        ensures bytes { option_map (λ s. s.now) result.bytes ≡ self.now.options }
        ensures arity { result.arity ≡ self.now.arity }
        ensures text { result.text.now ≡ self.now.text }
    {
        ScalarFnOptions::of(self)
    }

    /// A view of the form of its calls, borrowed. The identifier in it is a text.
    pub fn signature(&self) -> ScalarFnSignature<'_>
        ensures function { result.function.now ≡ self.now }
        ensures id { result.id.now ≡ self.now.id }
        ensures text { IsText self.now.id }
    {
        ScalarFnSignature::of(self)
    }
}
