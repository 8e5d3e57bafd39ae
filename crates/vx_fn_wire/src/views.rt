//! Views of a function: its options, and the form of its calls.

ghost use Rattle.std.specs.Prelude.{◌≡◌, Some, None, option_map, IfOk, IsOkUnless};
ghost use Rattle.vx_types.specs.Content.{IsText};
ghost use Rattle.vx_fn_wire.specs.Texts.{child_name_of};

use crate::arity::Arity;
use crate::error::FnWireError;
use crate::scalar_fn::ScalarFn;
use std::alloc::Global;
use std::fmt;
use std::hash::{Hash, Hasher};
use vx_types::{Blob, Name, or_memory};

/// The options of a function, borrowed from it. Two are equal where identifier, bytes and arity are;
/// they are printed as the function's text.
#[derive(Clone, Copy, Debug)]
#[derive_where(PartialEq, Eq, Hash)]
pub struct ScalarFnOptions<'a> {
    id: &'a str,
    bytes: Option<&'a [u8]>,
    arity: Arity,
    #[derive_where(skip(EqHashOrd))]
    text: &'a str,
}

impl<'a> ScalarFnOptions<'a> {
    pub(crate) fn of(function: &'a ScalarFn) -> ScalarFnOptions<'a>
        ensures id { result.id.now ≡ function.now.id }
        ensures bytes { option_map (λ s. s.now) result.bytes ≡ function.now.options }
        ensures arity { result.arity ≡ function.now.arity }
        ensures text { result.text.now ≡ function.now.text }
    {
        let bytes = match &function.options {
            Some(options) => Some(options.as_slice()),
            None => None,
        };
        ScalarFnOptions {
            id: function.id.as_str(),
            bytes,
            arity: function.arity,
            text: function.text.as_str(),
        }
    }

    /// A copy of the options as bytes; `None` where they cannot be written. The only refusal is `OutOfMemory`.
    pub fn serialize(&self, alloc: Global) -> Result<Option<Blob>, FnWireError>
        ensures same { IfOk result (λ options. options ≡ option_map (λ s. s.now) self.now.bytes) }
        ensures err { IsOkUnless result FnWireError.OutOfMemory }
    {
        match self.bytes {
            Some(bytes) => Ok(Some(or_memory(Blob::copy_from(alloc, bytes))?)),
            None => Ok(None),
        }
    }
}

impl fmt::Display for ScalarFnOptions<'_> {
    ghost output = { λ o. Some o.text.now };

    fn fmt<W: fmt::Write>(&self, f: &mut fmt::Formatter<W>) -> fmt::Result {
        write!(f, "{}", self.text)
    }
}

/// The form of a function's calls, borrowed from the function, with its identifier.
#[derive(Clone, Copy, Debug)]
pub struct ScalarFnSignature<'a> {
    id: &'a str,
    function: &'a ScalarFn,
}

impl<'a> ScalarFnSignature<'a> {
    pub(crate) fn of(function: &'a ScalarFn) -> ScalarFnSignature<'a>
        ensures function { result.function.now ≡ function.now }
        ensures id { result.id.now ≡ function.now.id }
        ensures text { IsText function.now.id }
    {
        ScalarFnSignature {
            id: function.id.as_str(),
            function,
        }
    }

    /// The identifier of the function.
    pub fn id(&self) -> &'a str
        ensures { result.now ≡ self.now.id.now }
    {
        self.id
    }

    /// How many children a call may have.
    pub fn arity(&self) -> Arity
        ensures { result ≡ self.now.function.now.arity }
    {
        self.function.arity
    }

    /// The name of the child at this index, as a copy: `arg` and the index where the function has no name
    /// for it.
    pub fn child_name(&self, alloc: Global, index: usize) -> Result<Name, FnWireError>
        ensures same { IfOk result (λ name. name ≡ child_name_of self.now.function.now.child_names index) }
        ensures err { IsOkUnless result FnWireError.OutOfMemory }
    {
        match self.function.child_names.get(index) {
            Some(name) => Ok(or_memory(name.clone(alloc))?),
            None => {
                let text = format!(in alloc; "arg{index}")?;
                Ok(or_memory(Name::new(alloc, text.as_str()))?)
            }
        }
    }

    /// Whether a row of the result is null where a child's row is.
    pub fn is_strict(&self) -> bool
        ensures { result ≡ self.now.function.now.strict }
    {
        self.function.strict
    }

    /// Whether the function succeeds on every row.
    pub fn is_infallible(&self) -> bool
        ensures { result ≡ self.now.function.now.infallible }
    {
        self.function.infallible
    }
}
