//! The command `expr`: it loads a file, reads an expression from it, and prints the expression.

ghost use Rattle.std.specs.Prelude.{◌≡◌, ℕ, List, IfOk, IfErr, IfSome, IfNone, string_bytes};
ghost use Rattle.vx_fn_wire.specs.Expr.{Expr};
ghost use Rattle.vx_fn_wire.specs.Seen.{expr};
ghost use Rattle.vxcat_blobs.specs.ExprCommand.{InvokesExpr, IsReadAsExpression, EndsExpr, RefusesExpr, lines_of, two_lines};
ghost use Rattle.vxcat_store.specs.RunState.{run_of};

use std::alloc::{AllocError, Global};
use vx_fn_wire::{AggregateFnSession, Expression, FnSession, ScalarFnSession};
use vx_types::{Blob, Name};
use vxcat_store::{Sink, Status, Store, write_text};

/// The file in words of the form `expr FILE`; `None` for other words.
pub fn parse_expr<'a>(words: &'a [Name]) -> Option<&'a Name>
    ensures invoked { IfSome result (λ file. InvokesExpr words.now file.now) }
    ensures none { IfNone result ((file : List ℕ) → ¬ (InvokesExpr words.now file)) }
{
    let [command, file] = words else {
        return None;
    };
    if command.as_str() != "expr" {
        return None;
    }
    Some(file)
}

/// Runs the command on this file.
pub fn run_expr<S: Store, O: Sink>(alloc: Global, file: &Name, store: &mut S, out: &mut O) -> Status
    ensures { EndsExpr result file.now (run_of (S.state store.old) (S.state store.new) (O.state out.old) (O.state out.new)) }
{
    let bytes = match store.load(alloc, file) {
        Ok(bytes) => bytes,
        Err(error) => return Status::of_load(error),
    };
    let lines = match expression_lines(alloc, &bytes) {
        Ok(lines) => lines,
        Err(status) => return status,
    };
    match write_text(out, lines.as_str().as_bytes()) {
        Ok(()) => Status::Done,
        Err(_) => Status::WriteFault,
    }
}

// The two lines of the expression that bytes are read as.
fn expression_lines(alloc: Global, bytes: &Blob) -> Result<String, Status>
    ensures lines { IfOk result (λ lines. (e : Expr) × IsReadAsExpression bytes.now e × (string_bytes lines ≡ lines_of e)) }
    ensures cause { IfErr result (λ status. RefusesExpr status bytes.now) }
{
    let scalars = ScalarFnSession::new(alloc);
    let aggregates = AggregateFnSession::new(alloc);
    let session = FnSession {
        scalars,
        aggregates,
        unknown: true,
    };
    let expression = match Expression::from_proto_bytes(alloc, bytes.as_slice(), &session) {
        Ok(expression) => expression,
        Err(error) => return Err(Status::of_expr(error)),
    };
    // What was read has at most 100 levels and options that can be written, so the only refusal left is `OutOfMemory`.
    let written = match expression.to_proto_bytes(alloc) {
        Ok(written) => written,
        Err(error) => return Err(Status::of_expr(error)),
    };
    match two_lines(alloc, &expression, &written) {
        Ok(lines) => Ok(lines),
        Err(_) => Err(Status::OutOfMemory),
    }
}

// The text of an expression and bytes as hex digits, each on a line.
fn two_lines(alloc: Global, expression: &Expression, bytes: &Blob) -> Result<String, AllocError>
    ensures { IfOk result (λ text. string_bytes text ≡ two_lines (expr expression.now) bytes.now) }
{
    let digits = hex::encode(alloc, bytes.as_slice())?;
    format!(in alloc; "{expression}\n{digits}\n")
}
