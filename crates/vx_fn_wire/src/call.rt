//! Calls of functions.

ghost use Rattle.std.specs.Prelude.{◌≡◌, length};
ghost use Rattle.vx_fn_wire.specs.Arity.{Admits};

use crate::expressions::Expressions;
use crate::scalar_fn::ScalarFn;
use std::marker::Model;

/// A call of a function: the function and its arguments, which are expressions.
#[cycle(expression)]
#[derive(Debug, Drop)]
pub struct Call {
    function: ScalarFn,
    children: Expressions,
}

impl Model for Call {
    ghost use Rattle.std.specs.Prelude.{length};
    ghost use Rattle.std.proofs.Common.{arith};
    ghost use Rattle.vx_fn_wire.specs.Arity.{Admits};
    ghost use Rattle.vx_fn_wire.specs.Parts.{CallParts, call_code, call_size};

    ghost Value = { CallParts };

    ghost coded = { call_code };

    ghost view = { λ a. record { function = a.function; children = a.children } };

    ghost invariant = { λ a. Admits a.function.arity (length a.children) };

    ghost size = { call_size };

    ghost size_decreases = { λ a h. Prim.omega arith };
}

impl Call {
    /// The call of a function on these children. The function's arity admits their number.
    pub fn new(function: ScalarFn, children: Expressions) -> Call
        requires { Admits function.arity (length children) }
        ensures { result ≡ record { function = function; children = children } }
    {
        Call { function, children }
    }

    /// The function.
    pub fn function(&self) -> &ScalarFn
        ensures { result.now ≡ self.now.function }
    {
        &self.function
    }

    /// The children, in order: as many as the function's arity admits.
    pub fn children(&self) -> &Expressions
        ensures same { result.now ≡ self.now.children }
        ensures arity { Admits self.now.function.arity (length self.now.children) }
    {
        &self.children
    }
}
