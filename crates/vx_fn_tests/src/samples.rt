//! Functions, expressions and checks that the tests share.

use std::alloc::Global;
use std::fmt::Display;
use vx_fn_wire::{Arity, Expression, Expressions, FnWireError, ForeignScalarFnVTable, ScalarFn};
use vx_types::{Blob, Id, Name, Names, TypeError};

/// Whether a value is printed as this text.
pub fn prints<T: Display>(alloc: Global, value: &T, text: &str) -> bool {
    match format!(in alloc; "{value}") {
        Ok(printed) => printed.as_str() == text,
        Err(_) => false,
    }
}

/// The result of a call of types, whose only refusal is `OutOfMemory`.
pub fn or_memory<T: Drop>(made: Result<T, TypeError>) -> Result<T, FnWireError> {
    match made {
        Ok(value) => Ok(value),
        Err(_) => Err(FnWireError::OutOfMemory),
    }
}

/// The identifier of this text.
pub fn id_of(alloc: Global, text: &str) -> Result<Id, FnWireError> {
    or_memory(Id::new(alloc, text))
}

/// The metadata of the foreign functions in these tests.
pub fn metadata(alloc: Global) -> Result<Blob, FnWireError> {
    or_memory(Blob::copy_from(alloc, b"\x01\x02\x03\x04"))
}

/// The foreign function in these tests, whose calls have one child.
pub fn foreign(alloc: Global) -> Result<ScalarFn, FnWireError> {
    let id = id_of(alloc, "vortex.test.foreign_scalar_fn")?;
    ForeignScalarFnVTable::make_scalar_fn(alloc, id, metadata(alloc)?, 1)
}

// The name of a first child.
fn left(alloc: Global) -> Result<Names, TypeError> {
    let mut names = Names::new(alloc);
    names.push(Name::new(alloc, "left")?)?;
    Ok(names)
}

// A function of any number of children from one on, the first of them named.
fn named_as(id: Id, text: Name, child_names: Names, options: Option<Blob>) -> ScalarFn {
    ScalarFn {
        id,
        options,
        text,
        arity: Arity::Variadic { min: 1, max: None },
        child_names,
        strict: true,
        infallible: true,
    }
}

/// The function `x.f` of any number of children from one on, the first of them named, with these options.
pub fn named(alloc: Global, options: Option<Blob>) -> Result<ScalarFn, FnWireError> {
    let id = id_of(alloc, "x.f")?;
    let text = or_memory(Name::new(alloc, "of the rows"))?;
    let first = or_memory(left(alloc))?;
    Ok(named_as(id, text, first, options))
}

/// The call of a function on these children, if its arity admits their number.
pub fn call(function: ScalarFn, children: Expressions) -> Result<Expression, FnWireError> {
    if !function.arity.admits(children.len()) {
        return Err(FnWireError::ArityMismatch);
    }
    Ok(Expression::call(function, children))
}

// A list of one child.
fn only(alloc: Global, child: Expression) -> Result<Expressions, FnWireError> {
    let mut children = Expressions::new(alloc);
    children.push(child)?;
    Ok(children)
}

/// The foreign call of one child.
pub fn over(alloc: Global, child: Expression) -> Result<Expression, FnWireError> {
    let children = only(alloc, child)?;
    call(foreign(alloc)?, children)
}

/// A chain of foreign calls of `levels` levels, the root counted.
pub fn deep(alloc: Global, levels: u32) -> Result<Expression, FnWireError> {
    let mut expression = Expression::Root;
    for _ in 1..levels {
        expression = over(alloc, expression)?;
    }
    Ok(expression)
}
