//! The validity among a node's children: the only child, or the one after another.

ghost use Rattle.std.specs.Prelude.{◌≡◌, ◌≤◌, length};
ghost use Rattle.vx_trees.specs.Rose.{more, roses_of};
ghost use Rattle.vx_array_tree.specs.Tree.{option_trees};

use vx_arrays::Array;

// The validity of a node that has no other children. It is taken from the end, so that nothing moves.
pub(crate) fn only_validity(children: Vec<Array>) -> Option<Array>
    requires { length children.items ≤ 1 }
    ensures { option_trees result ≡ roses_of children.items }
{
    let mut items = children;
    items.pop()
}

// The first of a node's children, and the optional validity after it.
pub(crate) fn first_and_validity(children: Vec<Array>) -> (Array, Option<Array>)
    requires some { 1 ≤ length children.items }
    requires few { length children.items ≤ 2 }
    ensures { more result.0 (option_trees result.1) ≡ roses_of children.items }
{
    let mut items = children;
    let first = items.remove(0);
    (first, items.pop())
}
