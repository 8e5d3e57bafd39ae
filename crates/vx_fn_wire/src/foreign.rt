//! Functions of rows that no plugin knows.

ghost use Rattle.std.specs.Prelude.{◌≡◌, ◌++◌, Some, false, IfOk, IsOkUnless};
ghost use Rattle.std.proofs.Common.{rules};
ghost use Rattle.std.specs.Hash as fed;
ghost use Rattle.std.specs.Cmp.Rules.{hashing};
ghost use Rattle.vx_fn_wire.specs.Foreign.{foreign_fn};
ghost use Rattle.vx_fn_wire.specs.Texts.{foreign_text};

use crate::arity::Arity;
use crate::error::FnWireError;
use crate::scalar_fn::ScalarFn;
use std::alloc::Global;
use std::fmt;
use std::hash::{Hash, Hasher};
use vx_types::{Blob, Id, Name, Names, or_memory};

/// The options of a foreign function: its metadata unchanged, and how many children a call has. The
/// number of children is part of the options, since it is all that a message shows of the arity.
#[derive(Debug, Drop, PartialEq, Eq)]
pub struct ForeignScalarFnOptions {
    metadata: Blob,
    arity: usize,
}

impl ForeignScalarFnOptions {
    /// Options of this metadata, for a function whose calls have exactly `arity` children.
    pub fn new(metadata: Blob, arity: usize) -> ForeignScalarFnOptions
        ensures { result ≡ record { metadata = metadata; arity = arity } }
    {
        ForeignScalarFnOptions { metadata, arity }
    }

    /// A copy of the options. The only refusal is `OutOfMemory`.
    pub fn clone(&self, alloc: Global) -> Result<ForeignScalarFnOptions, FnWireError>
        ensures same { IfOk result (λ options. options ≡ self.now) }
        ensures err { IsOkUnless result FnWireError.OutOfMemory }
    {
        Ok(ForeignScalarFnOptions {
            metadata: or_memory(self.metadata.clone(alloc))?,
            arity: self.arity,
        })
    }
}

impl Hash for ForeignScalarFnOptions {
    ghost hash_input = { λ o. fed.slice fed.u8 o.metadata ++ fed.usize o.arity };

    ghost respects_eq = { Prim.search (hashing, rules) };

    fn hash<H: Hasher>(&self, state: &mut H) {
        self.metadata.as_slice().hash(state);
        self.arity.hash(state);
    }
}

impl fmt::Display for ForeignScalarFnOptions {
    ghost output = { λ o. Some (foreign_text o.arity o.metadata) };

    fn fmt<W: fmt::Write>(&self, f: &mut fmt::Formatter<W>) -> fmt::Result {
        let arity = self.arity;
        let len = self.metadata.len();
        write!(f, "foreign(arity={arity}, metadata={len}B)")
    }
}

/// The maker of the foreign functions of one identifier.
#[derive(Debug, Drop)]
pub struct ForeignScalarFnVTable {
    id: Id,
}

impl ForeignScalarFnVTable {
    /// The maker of the foreign functions of this identifier.
    pub fn new(id: Id) -> ForeignScalarFnVTable
        ensures { result.id ≡ id }
    {
        ForeignScalarFnVTable { id }
    }

    /// The identifier.
    pub fn id(&self) -> &Id
        ensures { result.now ≡ self.now.id }
    {
        &self.id
    }

    /// The foreign function of this identifier and metadata, whose calls have exactly `arity` children. It
    /// is not strict, and its rows may fail, since nothing is known of it. The only refusal is
    /// `OutOfMemory`.
    pub fn make_scalar_fn(
        alloc: Global,
        id: Id,
        metadata: Blob,
        arity: usize,
    ) -> Result<ScalarFn, FnWireError>
        ensures same { IfOk result (λ f. f ≡ foreign_fn id metadata arity) }
        ensures err { IsOkUnless result FnWireError.OutOfMemory }
    {
        let options = ForeignScalarFnOptions::new(metadata, arity);
        let text = format!(in alloc; "{options}")?;
        Ok(ScalarFn {
            id,
            options: Some(options.metadata),
            text: or_memory(Name::new(alloc, text.as_str()))?,
            arity: Arity::Exact(arity),
            child_names: Names::new(alloc),
            strict: false,
            infallible: false,
        })
    }

    /// A maker of the same functions. The only refusal is `OutOfMemory`.
    pub fn clone(&self, alloc: Global) -> Result<ForeignScalarFnVTable, FnWireError>
        ensures same { IfOk result (λ vtable. vtable ≡ self.now) }
        ensures err { IsOkUnless result FnWireError.OutOfMemory }
    {
        Ok(ForeignScalarFnVTable {
            id: or_memory(self.id.clone(alloc))?,
        })
    }
}
