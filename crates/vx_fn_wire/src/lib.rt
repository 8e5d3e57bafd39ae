//! Expressions and functions as tagged messages.
//!
//! A [`ScalarFn`] is a function of rows, as far as messages describe it: its identifier, its options as
//! bytes, their text, and the form of its calls. An [`AggregateFn`] is a function of columns: an
//! identifier and options. Functions that no plugin knows are foreign: [`ForeignScalarFnVTable`] and
//! [`new_foreign_aggregate_fn`] make them from what their messages hold.
//!
//! An [`Expression`] is a tree of calls over the root. It is written as a message and printed. An
//! [`FnSession`] holds boxed plugins, by which expressions and aggregate functions are read from their
//! messages.
//!
//! The definitions that the contracts cite are public: `specs::Arity` says how many children a call may
//! have, `specs::Expr` which trees are expressions, `specs::Messages` which message a function and an
//! expression have, `specs::Foreign` what a foreign function is, `specs::Texts` and `specs::ExprText`
//! how options and expressions are printed, `specs::ReadsExpr` which expression a message is under a
//! session, or why it is none, and `specs::Session` the same of aggregate functions.
#![tactic(auto)]

mod aggregate_fn;
mod aggregate_reading;
mod arity;
mod call;
mod error;
mod expression;
mod expression_reading;
mod expressions;
mod foreign;
mod foreign_aggregate;
pub mod pb;
mod plugin;
mod scalar_fn;
mod session;
mod slots;
mod views;
mod writing;

pub use aggregate_fn::{AggregateFn, AggregateFnRef};
pub use arity::Arity;
pub use call::Call;
pub use error::FnWireError;
pub use expression::{ExprSerializeProtoExt, Expression, deserialize_expr_proto};
pub use expressions::Expressions;
pub use foreign::{ForeignScalarFnOptions, ForeignScalarFnVTable};
pub use foreign_aggregate::{
    ForeignAggregateFnOptions, ForeignAggregateFnVTable, new_foreign_aggregate_fn,
};
pub use pb::{AggregateFnMessage, ExprMessage};
pub use plugin::{AggregateFnPlugin, PlainAggregateFnPlugin, PluginError, ScalarFnPlugin};
pub use scalar_fn::{ScalarFn, ScalarFnRef};
pub use session::{AggregateFnSession, FnSession, ScalarFnSession};
pub use views::{ScalarFnOptions, ScalarFnSignature};
