//! Reading expressions from messages.

ghost use Rattle.std.specs.Prelude.{◌≡◌, ◌⊎◌, None, Some, IfOk, IfErr, length};
ghost use Rattle.vx_trees.specs.Rose.{roses_of};
ghost use Rattle.vx_proto.specs.Form.{HasForm};
ghost use Rattle.vx_proto.specs.Parts.{entries_in, octets_in};
ghost use Rattle.vx_proto.specs.Value.{value_view};
ghost use Rattle.vx_fn_wire.specs.Expr.{IsExpr, AreExprs};
ghost use Rattle.vx_fn_wire.specs.Messages.{metadata_of};
ghost use Rattle.vx_fn_wire.specs.ReadsExpr.{IsFunctionOf, IsNodeOf, RefusesCall, ReadsExpr, RefusesReadingExpr};
ghost use Rattle.vx_fn_wire.specs.Schema.{expr_lists};
ghost use Rattle.vx_fn_wire.specs.Seen.{expr};
ghost use Rattle.vx_fn_wire.specs.Session.{scalars_meaning, RefusesGiving};

use crate::error::FnWireError;
use crate::expression::Expression;
use crate::expressions::Expressions;
use crate::foreign::ForeignScalarFnVTable;
use crate::pb;
use crate::plugin::{PluginError, ScalarFnPlugin, scalar_by};
use crate::scalar_fn::ScalarFn;
use crate::session::ScalarFnSession;
use crate::writing::ROOT_ID;
use std::alloc::Global;
use vx_proto::{Entries, entries_at, octets_at, text_at};
use vx_types::{Blob, Id, or_memory};

/// The function that the plugin of an identifier makes of metadata.
fn registered(
    alloc: Global,
    metadata: &[u8],
    plugin: &Box<dyn ScalarFnPlugin>,
) -> Result<ScalarFn, FnWireError>
    ensures given { IfOk result (λ f. scalar_of plugin.now metadata.now ≡ Some f) }
    ensures cause { IfErr result (λ e. (e ≡ FnWireError.OutOfMemory) ⊎ ((e ≡ FnWireError.PluginRefused) × (scalar_of plugin.now metadata.now ≡ None))) }
{
    match scalar_by(alloc, plugin, metadata) {
        Ok(function) => Ok(function),
        Err(PluginError::OutOfMemory) => Err(FnWireError::OutOfMemory),
        Err(PluginError::Refused) => Err(FnWireError::PluginRefused),
    }
}

/// The function of an identifier and metadata, for a call on `arity` children.
fn function_of(
    alloc: Global,
    id: Id,
    metadata: &[u8],
    children: usize,
    session: &ScalarFnSession,
    unknown: bool,
) -> Result<ScalarFn, FnWireError>
    ensures given { IfOk result (λ f. IsFunctionOf (scalars_meaning scalar_of session.now) unknown id metadata.now children f) }
    ensures cause { IfErr result (λ e. (e ≡ FnWireError.OutOfMemory) ⊎ RefusesGiving e (scalars_meaning scalar_of session.now id) unknown metadata.now) }
{
    match session.plugins.get(&id) {
        Some(plugin) => registered(alloc, metadata, plugin),
        None => {
            if !unknown {
                return Err(FnWireError::UnknownId);
            }
            let metadata = or_memory(Blob::copy_from(alloc, metadata))?;
            ForeignScalarFnVTable::make_scalar_fn(alloc, id, metadata, children)
        }
    }
}

/// The expression of an identifier and metadata over these children.
fn node_of(
    alloc: Global,
    id: &str,
    metadata: &[u8],
    children: Expressions,
    session: &ScalarFnSession,
    unknown: bool,
) -> Result<Expression, FnWireError>
    ensures given { IfOk result (λ e. IsNodeOf (scalars_meaning scalar_of session.now) unknown id.now metadata.now (roses_of children) (expr e)) }
    ensures formed { AreExprs children → IfOk result (λ e. IsExpr (expr e)) }
    ensures cause { IfErr result (λ e. (e ≡ FnWireError.OutOfMemory) ⊎ RefusesCall (scalars_meaning scalar_of session.now) unknown e id.now metadata.now (length children)) }
{
    if id == ROOT_ID {
        if !children.is_empty() {
            return Err(FnWireError::RootWithChildren);
        }
        return Ok(Expression::Root);
    }
    let id = or_memory(Id::new(alloc, id))?;
    let function = function_of(alloc, id, metadata, children.len(), session, unknown)?;
    if !function.signature().arity().admits(children.len()) {
        return Err(FnWireError::ArityMismatch);
    }
    Ok(Expression::call(function, children))
}

/// The metadata of a message; empty where it is absent.
fn metadata_at(slots: &[Entries]) -> &[u8]
    ensures { result.now ≡ metadata_of (octets_in (entries_in (value_view slots.now) 2)) }
{
    match octets_at(slots, 2) {
        Some(metadata) => metadata,
        None => &[],
    }
}

/// The expression whose message has these slots.
fn expression_in(
    alloc: Global,
    slots: &[Entries],
    session: &ScalarFnSession,
    unknown: bool,
) -> Result<Expression, FnWireError>
    requires { HasForm expr_lists 0 (value_view slots.now) }
    ensures read { IfOk result (λ e. ReadsExpr (scalars_meaning scalar_of session.now) unknown (value_view slots.now) (expr e)) }
    ensures cause { IfErr result (λ e. (e ≡ FnWireError.OutOfMemory) ⊎ RefusesReadingExpr (scalars_meaning scalar_of session.now) unknown e (value_view slots.now)) }
{
    let mut children = Expressions::new(alloc);
    for (_, element) in entries_at(slots, 1) {
        let Some(child) = element.as_message() else {
            unreachable!();
        };
        children.push(expression_in(alloc, child, session, unknown)?)?;
    }
    let Some(id) = text_at(slots, 0) else {
        unreachable!();
    };
    node_of(alloc, id, metadata_at(slots), children, session, unknown)
}

/// The expression whose message this is.
pub fn expression_of(
    alloc: Global,
    message: &pb::Expr,
    session: &ScalarFnSession,
    unknown: bool,
) -> Result<Expression, FnWireError>
    ensures read { IfOk result (λ e. ReadsExpr (scalars_meaning scalar_of session.now) unknown message.now (expr e)) }
    ensures cause { IfErr result (λ e. (e ≡ FnWireError.OutOfMemory) ⊎ RefusesReadingExpr (scalars_meaning scalar_of session.now) unknown e message.now) }
{
    match message.slots() {
        Some(slots) => expression_in(alloc, slots, session, unknown),
        None => node_of(alloc, "", &[], Expressions::new(alloc), session, unknown),
    }
}
