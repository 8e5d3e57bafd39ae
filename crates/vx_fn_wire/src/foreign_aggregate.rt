//! Aggregate functions that no plugin knows.

ghost use Rattle.std.specs.Prelude.{◌≡◌, Some, IfOk, IsOkUnless};
ghost use Rattle.std.proofs.Common.{rules};
ghost use Rattle.std.specs.Hash as fed;
ghost use Rattle.std.specs.Cmp.Rules.{hashing};
ghost use Rattle.vx_fn_wire.specs.Foreign.{foreign_aggregate_fn};
ghost use Rattle.vx_fn_wire.specs.Texts.{foreign_aggregate_text};

use crate::aggregate_fn::AggregateFn;
use crate::error::FnWireError;
use std::alloc::Global;
use std::fmt;
use std::hash::{Hash, Hasher};
use vx_types::{Blob, Id, or_memory};

/// The options of a foreign aggregate function: its metadata unchanged.
#[derive(Debug, Drop, PartialEq, Eq)]
pub struct ForeignAggregateFnOptions {
    metadata: Blob,
}

impl ForeignAggregateFnOptions {
    /// Options of this metadata.
    pub fn new(metadata: Blob) -> ForeignAggregateFnOptions
        ensures { result.metadata ≡ metadata }
    {
        ForeignAggregateFnOptions { metadata }
    }

    /// A copy of the options. The only refusal is `OutOfMemory`.
    pub fn clone(&self, alloc: Global) -> Result<ForeignAggregateFnOptions, FnWireError>
        ensures same { IfOk result (λ options. options ≡ self.now) }
        ensures err { IsOkUnless result FnWireError.OutOfMemory }
    {
        Ok(ForeignAggregateFnOptions {
            metadata: or_memory(self.metadata.clone(alloc))?,
        })
    }
}

impl Hash for ForeignAggregateFnOptions {
    ghost hash_input = { λ o. fed.slice fed.u8 o.metadata };

    ghost respects_eq = { Prim.search (hashing, rules) };

    fn hash<H: Hasher>(&self, state: &mut H) {
        self.metadata.as_slice().hash(state);
    }
}

impl fmt::Display for ForeignAggregateFnOptions {
    ghost output = { λ o. Some (foreign_aggregate_text o.metadata) };

    fn fmt<W: fmt::Write>(&self, f: &mut fmt::Formatter<W>) -> fmt::Result {
        let len = self.metadata.len();
        write!(f, "foreign(metadata={len}B)")
    }
}

/// The maker of the foreign aggregate functions of one identifier.
#[derive(Debug, Drop)]
pub struct ForeignAggregateFnVTable {
    id: Id,
}

impl ForeignAggregateFnVTable {
    /// The maker of the foreign aggregate functions of this identifier.
    pub fn new(id: Id) -> ForeignAggregateFnVTable
        ensures { result.id ≡ id }
    {
        ForeignAggregateFnVTable { id }
    }

    /// The identifier.
    pub fn id(&self) -> &Id
        ensures { result.now ≡ self.now.id }
    {
        &self.id
    }

    /// A maker of the same functions. The only refusal is `OutOfMemory`.
    pub fn clone(&self, alloc: Global) -> Result<ForeignAggregateFnVTable, FnWireError>
        ensures same { IfOk result (λ vtable. vtable ≡ self.now) }
        ensures err { IsOkUnless result FnWireError.OutOfMemory }
    {
        Ok(ForeignAggregateFnVTable {
            id: or_memory(self.id.clone(alloc))?,
        })
    }
}

/// The foreign aggregate function of this identifier and metadata, both moved in.
pub fn new_foreign_aggregate_fn(id: Id, metadata: Blob) -> AggregateFn
    ensures { result ≡ foreign_aggregate_fn id metadata }
{
    AggregateFn {
        id,
        options: Some(metadata),
    }
}
