//! Reading aggregate functions from messages.

ghost use Rattle.std.specs.Prelude.{◌≡◌, ◌⊎◌, Bool, Some, IfOk, IfErr, option_map};
ghost use Rattle.vx_fn_wire.specs.Messages.{metadata_of};
ghost use Rattle.vx_fn_wire.specs.Session.{aggregates_meaning, IsAggregateOf, RefusesAggregate, HoldsAggregate};

use crate::aggregate_fn::AggregateFn;
use crate::error::FnWireError;
use crate::foreign_aggregate::new_foreign_aggregate_fn;
use crate::pb;
use crate::plugin::{AggregateFnPlugin, PluginError, aggregate_by};
use crate::session::AggregateFnSession;
use std::alloc::Global;
use vx_proto::{octets_at, text_at};
use vx_types::{Blob, Id, or_memory};

/// What the message of an aggregate function holds: an identifier, and metadata that may be absent.
#[derive(Clone, Copy)]
pub struct AggregateParts<'a> {
    pub id: &'a str,
    pub metadata: Option<&'a [u8]>,
}

impl<'a> AggregateParts<'a> {
    /// The metadata; empty where it is absent.
    pub fn metadata_or_none(&self) -> &'a [u8]
        ensures { result.now ≡ metadata_of (option_map (λ s. s.now) self.now.metadata) }
    {
        match self.metadata {
            Some(metadata) => metadata,
            None => &[],
        }
    }
}

/// The parts of a message, borrowed from it.
pub fn parts_of(message: &pb::AggregateFn) -> AggregateParts<'_>
    ensures { HoldsAggregate message.now result.id.now (option_map (λ s. s.now) result.metadata) }
{
    let Some(slots) = message.slots() else {
        return AggregateParts {
            id: "",
            metadata: None,
        };
    };
    let Some(id) = text_at(slots, 0) else {
        unreachable!();
    };
    AggregateParts {
        id,
        metadata: octets_at(slots, 1),
    }
}

/// The function of an identifier that has a plugin.
fn registered(
    alloc: Global,
    id: &Id,
    metadata: &[u8],
    plugin: &Box<dyn AggregateFnPlugin>,
) -> Result<AggregateFn, FnWireError>
    ensures given { IfOk result (λ f. (aggregate_of plugin.now metadata.now ≡ Some f) × (f.id ≡ id.now)) }
    ensures cause { IfErr result (λ e. (e ≡ FnWireError.OutOfMemory) ⊎ ((unknown : Bool) → RefusesAggregate e (Some (aggregate_of plugin.now)) unknown id.now metadata.now)) }
{
    match aggregate_by(alloc, plugin, metadata) {
        Ok(function) => {
            if function.id.as_str() != id.as_str() {
                return Err(FnWireError::IdMismatch);
            }
            Ok(function)
        }
        Err(PluginError::OutOfMemory) => Err(FnWireError::OutOfMemory),
        Err(PluginError::Refused) => Err(FnWireError::PluginRefused),
    }
}

/// The function of an identifier and metadata: a plugin's, or the foreign one.
pub fn function_of(
    alloc: Global,
    id: Id,
    metadata: &[u8],
    session: &AggregateFnSession,
    unknown: bool,
) -> Result<AggregateFn, FnWireError>
    ensures given { IfOk result (λ f. IsAggregateOf (aggregates_meaning aggregate_of session.now id) unknown id metadata.now f) }
    ensures cause { IfErr result (λ e. (e ≡ FnWireError.OutOfMemory) ⊎ RefusesAggregate e (aggregates_meaning aggregate_of session.now id) unknown id metadata.now) }
{
    match session.plugins.get(&id) {
        Some(plugin) => registered(alloc, &id, metadata, plugin),
        None => {
            if !unknown {
                return Err(FnWireError::UnknownId);
            }
            let metadata = or_memory(Blob::copy_from(alloc, metadata))?;
            Ok(new_foreign_aggregate_fn(id, metadata))
        }
    }
}
