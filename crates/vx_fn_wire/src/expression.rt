//! Expressions.

ghost use Rattle.std.specs.Prelude.{◌≡◌, ◌↔◌, ◌≤◌, ◌⊎◌, Bool, Some, length, IsTrue, IfOk, IfErr, IsOk, IsErr, MatchResult};
ghost use Rattle.vx_trees.specs.Rose.{node, roses_of};
ghost use Rattle.vx_trees.specs.Walks.{levels};
ghost use Rattle.vx_proto.specs.Reads.{Reads};
ghost use Rattle.vx_proto.specs.Written.{written};
ghost use Rattle.vx_fn_wire.specs.Arity.{Admits};
ghost use Rattle.vx_fn_wire.specs.Expr.{Expr, call, IsExpr};
ghost use Rattle.vx_fn_wire.specs.ExprText.{expr_text};
ghost use Rattle.vx_fn_wire.specs.Messages.{expr_message, IsSerializable, RefusesWritingExpr, RefusesWritingExprBytes};
ghost use Rattle.vx_fn_wire.specs.ReadsExpr.{ReadsExpr, RefusesReadingExpr, ReadsExprBytes, RefusesReadingExprBytes, GivesEachBack};
ghost use Rattle.vx_fn_wire.specs.Schema.{expr_lists};
ghost use Rattle.vx_fn_wire.specs.Seen.{expr};
ghost use Rattle.vx_fn_wire.specs.Session.{Registry, scalars_meaning};
ghost use Rattle.vx_fn_wire.specs.declared.error.FnWireError.{FnWireError as Refusal};
ghost use Rattle.vx_fn_wire.specs.declared.scalar_fn.ScalarFn.{ScalarFn as Scalar};

use crate::call::Call;
use crate::error::FnWireError;
use crate::expression_reading::expression_of;
use crate::expressions::Expressions;
use crate::pb;
use crate::plugin::ScalarFnPlugin;
use crate::scalar_fn::ScalarFn;
use crate::session::FnSession;
use crate::writing::{self, slots_of};
use std::alloc::Global;
use std::fmt;
use std::fmt::Display;
use vx_proto::{Message, PlainMessage};
use vx_types::Blob;

/// An expression: the root, or a call of a function on expressions. Contracts see its tree.
#[cycle(expression)]
#[derive(Debug, Drop)]
pub enum Expression {
    /// The rows that the expression is evaluated on.
    Root,
    /// A call of a function.
    Call(Call),
}

impl Expression {
    /// The call of a function on these children. The function's arity admits their number, which
    /// [`crate::Arity::admits`] tests.
    pub fn call(function: ScalarFn, children: Expressions) -> Expression
        requires { Admits function.arity (length children) }
        ensures { expr result ≡ node (call function) (roses_of children) }
    {
        Expression::Call(Call::new(function, children))
    }

    /// The expression whose message this is. The identifier of the root is looked at first. Any other
    /// identifier has the function that its plugin makes of the metadata, or the foreign one where no
    /// plugin stands and unknown ones are allowed. Absent metadata is read as empty, and a root's is
    /// ignored.
    ///
    /// Refuses with `RootWithChildren` where a root has children, `UnknownId` where an identifier has no
    /// plugin and unknown ones are not allowed, `PluginRefused` where a plugin refuses the metadata, and
    /// `ArityMismatch` where the number of a call's children is outside its function's arity. Where several
    /// of them have a cause, any is answered.
    pub fn from_proto(
        alloc: Global,
        message: &pb::Expr,
        session: &FnSession,
    ) -> Result<Expression, FnWireError>
        ensures read { IfOk result (λ e. ReadsExpr (scalars_meaning scalar_of session.now.scalars) session.now.unknown message.now (expr e)) }
        ensures cause { IfErr result (λ e. (e ≡ FnWireError.OutOfMemory) ⊎ RefusesReadingExpr (scalars_meaning scalar_of session.now.scalars) session.now.unknown e message.now) }
        ensures complete { (e : Expr) → ReadsExpr (scalars_meaning scalar_of session.now.scalars) session.now.unknown message.now e
            → MatchResult result (λ d. expr d ≡ e) (λ e. e ≡ FnWireError.OutOfMemory) }
        ensures refused { (e : Refusal) → RefusesReadingExpr (scalars_meaning scalar_of session.now.scalars) session.now.unknown e message.now → IsErr result }
    {
        expression_of(alloc, message, &session.scalars, session.unknown)
    }

    /// The expression whose message these bytes are. `BadMessage` where they are no fields of the schema,
    /// `TooDeep` where over 100 messages nest, and the refusals of `from_proto`.
    pub fn from_proto_bytes(
        alloc: Global,
        bytes: &[u8],
        session: &FnSession,
    ) -> Result<Expression, FnWireError>
        ensures read { IfOk result (λ e. ReadsExprBytes (scalars_meaning scalar_of session.now.scalars) session.now.unknown bytes.now (expr e)) }
        ensures cause { IfErr result (λ e. (e ≡ FnWireError.OutOfMemory) ⊎ RefusesReadingExprBytes (scalars_meaning scalar_of session.now.scalars) session.now.unknown e bytes.now) }
        ensures complete { (e : Expr) → ReadsExprBytes (scalars_meaning scalar_of session.now.scalars) session.now.unknown bytes.now e
            → MatchResult result (λ d. expr d ≡ e) (λ e. e ≡ FnWireError.OutOfMemory) }
        ensures refused { (e : Refusal) → RefusesReadingExprBytes (scalars_meaning scalar_of session.now.scalars) session.now.unknown e bytes.now → IsErr result }
        ensures shallow { IfOk result (λ e. levels (expr e) ≤ 100) }
    {
        let message = pb::Expr::decode(alloc, bytes)?;
        Expression::from_proto(alloc, &message, session)
    }

    /// Whether the options of each function in the expression can be written.
    pub fn is_serializable(&self) -> bool
        ensures { IsTrue result ↔ IsSerializable (expr self.now) }
    {
        writing::is_serializable(self)
    }

    /// The bytes of the expression's message. `NotSerializable` where the options of some function in it
    /// cannot be written, `TooDeep` where it has over 100 levels, the root counted as one: each level is a
    /// message in the one above. What is written is read as the expression by each session that gives its
    /// functions back.
    #[tactic(auto, using(crate::proofs::Forms::expr_form, crate::proofs::Forms::expr_depth))]
    pub fn to_proto_bytes(&self, alloc: Global) -> Result<Blob, FnWireError>
        ensures exact { IfOk result (λ bytes. bytes ≡ written expr_lists 0 (expr_message (expr self.now))) }
        ensures read { IfOk result (λ bytes. Reads expr_lists 0 bytes (expr_message (expr self.now))) }
        ensures read_back { IfOk result (λ bytes. (registry : Registry Scalar) (unknown : Bool) → GivesEachBack registry unknown (expr self.now) → ReadsExprBytes registry unknown bytes (expr self.now)) }
        ensures whole { IsOk result → IsSerializable (expr self.now) }
        ensures shallow { IsOk result → levels (expr self.now) ≤ 100 }
        ensures cause { IfErr result (λ e. RefusesWritingExprBytes e (expr self.now)) }
    {
        let message = self.message(alloc)?;
        let bytes = message.encode_to_vec(alloc)?;
        Ok(Blob::new(bytes.into_vec()))
    }

    // The message of the expression. The walk that makes it also shows that each call has as many children
    // as its function's arity admits.
    #[tactic(auto, using(crate::proofs::Forms::expr_form))]
    fn message(&self, alloc: Global) -> Result<pb::Expr, FnWireError>
        ensures same { IfOk result (λ m. m ≡ expr_message (expr self.now)) }
        ensures formed { IfOk result (λ _. IsExpr (expr self.now)) }
        ensures read_back { IfOk result (λ m. (registry : Registry Scalar) (unknown : Bool) → GivesEachBack registry unknown (expr self.now) → ReadsExpr registry unknown m (expr self.now)) }
        ensures whole { IsOk result → IsSerializable (expr self.now) }
        ensures cause { IfErr result (λ e. RefusesWritingExpr e (expr self.now)) }
    {
        if !self.is_serializable() {
            return Err(FnWireError::NotSerializable);
        }
        let slots = slots_of(alloc, self)?;
        Ok(PlainMessage::new(slots))
    }
}

/// The expression whose message this is, as [`Expression::from_proto`] reads it.
pub fn deserialize_expr_proto(
    alloc: Global,
    message: &pb::Expr,
    session: &FnSession,
) -> Result<Expression, FnWireError>
    ensures read { IfOk result (λ e. ReadsExpr (scalars_meaning scalar_of session.now.scalars) session.now.unknown message.now (expr e)) }
    ensures cause { IfErr result (λ e. (e ≡ FnWireError.OutOfMemory) ⊎ RefusesReadingExpr (scalars_meaning scalar_of session.now.scalars) session.now.unknown e message.now) }
    ensures complete { (e : Expr) → ReadsExpr (scalars_meaning scalar_of session.now.scalars) session.now.unknown message.now e
        → MatchResult result (λ d. expr d ≡ e) (λ e. e ≡ FnWireError.OutOfMemory) }
    ensures refused { (e : Refusal) → RefusesReadingExpr (scalars_meaning scalar_of session.now.scalars) session.now.unknown e message.now → IsErr result }
{
    Expression::from_proto(alloc, message, session)
}

/// Writing an expression as its message.
pub trait ExprSerializeProtoExt {
    /// The tree of the expression.
    ghost tree: { Self → Expr };

    /// The message of the expression. `NotSerializable` where the options of some function in it cannot be
    /// written. A message in memory may nest as deep as it likes; the limit of 100 is one of bytes. What is
    /// written is read as the expression by each session that gives its functions back.
    fn serialize_proto(&self, alloc: Global) -> Result<pb::Expr, FnWireError>
        ensures same { IfOk result (λ m. m ≡ expr_message (tree self.now)) }
        ensures read_back { IfOk result (λ m. (registry : Registry Scalar) (unknown : Bool) → GivesEachBack registry unknown (tree self.now) → ReadsExpr registry unknown m (tree self.now)) }
        ensures whole { IsOk result → IsSerializable (tree self.now) }
        ensures cause { IfErr result (λ e. RefusesWritingExpr e (tree self.now)) };
}

impl ExprSerializeProtoExt for Expression {
    ghost tree = { expr };

    fn serialize_proto(&self, alloc: Global) -> Result<pb::Expr, FnWireError> {
        self.message(alloc)
    }
}

impl fmt::Display for Expression {
    ghost output = { λ e. Some (expr_text (expr e)) };

    fn fmt<W: fmt::Write>(&self, f: &mut fmt::Formatter<W>) -> fmt::Result {
        match self {
            Expression::Root => f.write_str("root"),
            Expression::Call(call) => {
                f.write_str(call.function().id.as_str())?;
                f.write_str("(")?;
                if let [first, rest @ ..] = call.children().as_slice() {
                    first.fmt(f)?;
                    for child in rest {
                        f.write_str(", ")?;
                        child.fmt(f)?;
                    }
                }
                f.write_str(")")
            }
        }
    }
}
