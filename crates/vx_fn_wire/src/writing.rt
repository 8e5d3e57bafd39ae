//! Writing expressions as messages.

ghost use Rattle.std.specs.Prelude.{◌≡◌, ◌↔◌, IfOk, IsOkUnless, IsTrue};
ghost use Rattle.vx_trees.specs.Rose.{roses_of};
ghost use Rattle.vx_proto.specs.Value.{value_view, entries_view};
ghost use Rattle.vx_proto.specs.Repeated.{messages};
ghost use Rattle.vx_fn_wire.specs.Expr.{IsExpr, AreExprs};
ghost use Rattle.vx_fn_wire.specs.Messages as message;
ghost use Rattle.vx_fn_wire.specs.Messages.{expr_message, expr_messages, IsSerializable, AreSerializable};
ghost use Rattle.vx_fn_wire.specs.Seen.{expr, exprs};

use crate::call::Call;
use crate::expression::Expression;
use crate::slots::octets_slot;
use std::alloc::Global;
use vx_proto::{Element, Entries, ProtoError};

/// The identifier of the root, which no function has.
pub const ROOT_ID: &str = "vortex.root";

/// Whether the options of each function in an expression can be written.
#[cycle(serializable)]
pub fn is_serializable(expression: &Expression) -> bool
    ensures { IsTrue result ↔ IsSerializable (expr expression.now) }
{
    match expression {
        Expression::Root => true,
        Expression::Call(call) => {
            if call.function().options.is_none() {
                return false;
            }
            are_serializable(call.children().as_slice())
        }
    }
}

// The same for each of these expressions.
#[cycle(serializable)]
#[tactic(auto, using(crate::proofs::Lists::decreasing))]
fn are_serializable(expressions: &[Expression]) -> bool
    ensures { IsTrue result ↔ AreSerializable (roses_of (exprs expressions.now)) }
{
    for expression in expressions {
        if !is_serializable(expression) {
            return false;
        }
    }
    true
}

/// The plain value of an expression's message. Options that cannot be written stand there as empty metadata, so callers
/// test `is_serializable` first. The walk looks at each call, so it also shows that the expression is one.
#[cycle(values)]
pub fn slots_of(alloc: Global, expression: &Expression) -> Result<Vec<Entries>, ProtoError>
    ensures same { IfOk result (λ v. value_view v.items ≡ expr_message (expr expression.now)) }
    ensures formed { IfOk result (λ _. IsExpr (expr expression.now)) }
    ensures err { IsOkUnless result ProtoError.OutOfMemory }
{
    match expression {
        Expression::Root => {
            let id = octets_slot(alloc, 1, ROOT_ID.as_bytes())?;
            let metadata = octets_slot(alloc, 3, &[])?;
            Ok(vec![in alloc; id, Vec::new(alloc), metadata]?)
        }
        Expression::Call(call) => {
            let id = octets_slot(alloc, 1, call.function().id.as_str().as_bytes())?;
            let children = children_slot(alloc, call.children().as_slice())?;
            let metadata = octets_slot(alloc, 3, metadata_of(call))?;
            Ok(vec![in alloc; id, children, metadata]?)
        }
    }
}

// The metadata as which the options of a call's function are written.
fn metadata_of(call: &Call) -> &[u8]
    ensures { result.now ≡ message.metadata_of call.now.function.options }
{
    match &call.function().options {
        Some(options) => options.as_slice(),
        None => &[],
    }
}

// The slot of a call's children.
#[cycle(values)]
fn children_slot(alloc: Global, children: &[Expression]) -> Result<Entries, ProtoError>
    ensures same { IfOk result (λ es. entries_view es.items ≡ messages (λ v. v) 2 (expr_messages (roses_of (exprs children.now)))) }
    ensures formed { IfOk result (λ _. AreExprs (exprs children.now)) }
    ensures err { IsOkUnless result ProtoError.OutOfMemory }
{
    let mut entries = Vec::new(alloc);
    for child in children {
        entries.push((2, Element::Message(slots_of(alloc, child)?)))?;
    }
    Ok(entries)
}
