//! Lists of expressions.

ghost use Rattle.std.specs.Prelude.{◌≡◌, ◌==◌, [], ◌∷◌, ◌++◌, OnOk, OnErr, IsOkUnless, length, slice_get, option_map, option_copied};
ghost use Rattle.vx_fn_wire.specs.Seen.{expr, exprs};

use crate::error::FnWireError;
use crate::expression::Expression;
use std::alloc::Global;
use std::marker::Model;

/// A list of expressions, in order: the children of a call. Contracts see the list of their trees.
#[cycle(expression)]
#[derive(Debug, Drop)]
pub struct Expressions {
    items: Vec<Expression>,
}

impl Model for Expressions {
    ghost use Rattle.std.specs.Prelude.{List};
    ghost use Rattle.std.specs.Coded.{coded_list};
    ghost use Rattle.std.proofs.Common.{arith};
    ghost use Rattle.vx_fn_wire.specs.Expr.{Expr, expr_code};
    ghost use Rattle.vx_fn_wire.specs.Parts.{exprs_size};

    ghost Value = { List Expr };

    ghost coded = { coded_list expr_code };

    ghost use Rattle.vx_fn_wire.specs.Seen.{exprs};

    ghost view = { λ a. exprs a.items.items };

    ghost size = { exprs_size };

    ghost use Rattle.vx_fn_wire.specs.Measures.{most_le-size};

    ghost size_decreases = { λ a h. Prim.omega (arith, most_le-size a.items.items) };
}

impl Expressions {
    /// The empty list, which takes no memory. Later items are stored with this allocator.
    pub fn new(alloc: Global) -> Expressions
        ensures { result ≡ [] }
    {
        Expressions {
            items: Vec::new(alloc),
        }
    }

    /// The number of expressions.
    pub fn len(&self) -> usize
        ensures { result ≡ length self.now }
    {
        self.items.len()
    }

    /// Whether the list is empty.
    pub fn is_empty(&self) -> bool
        ensures { result ≡ (length self.now == 0) }
    {
        self.items.is_empty()
    }

    /// The expression at this index; `None` past the end.
    pub fn get(&self, index: usize) -> Option<&Expression>
        ensures { option_map expr (option_copied result) ≡ slice_get self.now index }
    {
        self.items.as_slice().get(index)
    }

    /// All expressions, in order, borrowed.
    pub fn as_slice(&self) -> &[Expression]
        ensures { exprs result.now ≡ self.now }
    {
        self.items.as_slice()
    }

    /// Appends an expression. The only refusal is `OutOfMemory`: the list then stays as it was, and the
    /// expression is dropped.
    pub fn push(&mut self, expression: Expression) -> Result<(), FnWireError>
        ensures ok { OnOk result (self.new ≡ self.old ++ expr expression ∷ []) }
        ensures unchanged { OnErr result (self.new ≡ self.old) }
        ensures err { IsOkUnless result FnWireError.OutOfMemory }
    {
        self.items.push(expression)?;
        Ok(())
    }
}
