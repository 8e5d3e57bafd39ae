//! Aggregate functions: functions of columns.

ghost use Rattle.std.specs.Prelude.{◌≡◌, ◌⊎◌, None, IfOk, IfErr, IsErr, MatchResult};
ghost use Rattle.vx_fn_wire.specs.Messages.{aggregate_message, RefusesWritingAggregate};
ghost use Rattle.vx_fn_wire.specs.Session.{aggregates_meaning, ReadsAggregate, RefusesReadingAggregate};
ghost use Rattle.vx_fn_wire.specs.declared.aggregate_fn.AggregateFn.{AggregateFn as Aggregate};
ghost use Rattle.vx_fn_wire.specs.declared.error.FnWireError.{FnWireError as Refusal};

use crate::aggregate_reading::{function_of, parts_of};
use crate::error::FnWireError;
use crate::pb;
use crate::plugin::AggregateFnPlugin;
use crate::session::FnSession;
use crate::slots::octets_slot;
use std::alloc::Global;
use vx_proto::PlainMessage;
use vx_types::{Blob, Id, or_memory};

/// A function of columns: what its message says of it.
#[derive(Debug, Drop)]
pub struct AggregateFn {
    /// The identifier of the function.
    pub id: Id,
    /// Its options as bytes; `None` where they cannot be written.
    pub options: Option<Blob>,
}

/// An aggregate function by the name that other interfaces give it. It is a plain value here, and not a reference.
pub type AggregateFnRef = AggregateFn;

impl AggregateFn {
    /// The function whose message this is: the one that its plugin makes of the metadata, or the foreign
    /// one where no plugin stands and unknown ones are allowed. Absent metadata is read as empty.
    ///
    /// Refuses with `UnknownId` where neither is, `IdMismatch` where the plugin's function has another
    /// identifier, and `PluginRefused` where the plugin refuses the metadata.
    pub fn from_proto(
        alloc: Global,
        message: &pb::AggregateFn,
        session: &FnSession,
    ) -> Result<AggregateFn, FnWireError>
        ensures read { IfOk result (λ f. ReadsAggregate (aggregates_meaning aggregate_of session.now.aggregates) session.now.unknown message.now f) }
        ensures cause { IfErr result (λ e. (e ≡ FnWireError.OutOfMemory) ⊎ RefusesReadingAggregate e (aggregates_meaning aggregate_of session.now.aggregates) session.now.unknown message.now) }
        ensures complete { (f : Aggregate) → ReadsAggregate (aggregates_meaning aggregate_of session.now.aggregates) session.now.unknown message.now f
            → MatchResult result (λ g. g ≡ f) (λ e. e ≡ FnWireError.OutOfMemory) }
        ensures refused { (e : Refusal) → RefusesReadingAggregate e (aggregates_meaning aggregate_of session.now.aggregates) session.now.unknown message.now → IsErr result }
    {
        let parts = parts_of(message);
        let id = or_memory(Id::new(alloc, parts.id))?;
        let metadata = parts.metadata_or_none();
        function_of(alloc, id, metadata, &session.aggregates, session.unknown)
    }

    /// The function's message. `NotSerializable` exactly where its options cannot be written.
    pub fn serialize_proto(&self, alloc: Global) -> Result<pb::AggregateFn, FnWireError>
        ensures same { IfOk result (λ m. m ≡ aggregate_message self.now) }
        ensures cause { IfErr result (λ e. RefusesWritingAggregate e self.now) }
        ensures refused { self.now.options ≡ None → IsErr result }
    {
        let Some(metadata) = &self.options else {
            return Err(FnWireError::NotSerializable);
        };
        let id = octets_slot(alloc, 1, self.id.as_str().as_bytes())?;
        let metadata = octets_slot(alloc, 2, metadata.as_slice())?;
        let slots = vec![in alloc; id, metadata]?;
        Ok(PlainMessage::new(slots))
    }
}
