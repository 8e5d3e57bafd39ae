//! Expressions, scalar functions and aggregate functions, and their messages.

pub use vx_fn_wire::{
    AggregateFn, AggregateFnPlugin, AggregateFnRef, AggregateFnSession, Arity, Call,
    ExprSerializeProtoExt, Expression, Expressions, FnSession, FnWireError,
    ForeignAggregateFnOptions, ForeignAggregateFnVTable, ForeignScalarFnOptions,
    ForeignScalarFnVTable, PlainAggregateFnPlugin, ScalarFn, ScalarFnOptions, ScalarFnPlugin,
    ScalarFnRef, ScalarFnSession, ScalarFnSignature, deserialize_expr_proto,
    new_foreign_aggregate_fn,
};
