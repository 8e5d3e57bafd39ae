//! Lists of arrays, as the children of a node.

ghost use Rattle.std.specs.Prelude.{◌≡◌, ◌≤◌, OnOk, OnErr, IsOkUnless};
ghost use Rattle.vx_trees.specs.Everywhere.{EverywhereBelow};
ghost use Rattle.vx_trees.specs.Rose.{count, end, more, roses_list, roses_of};
ghost use Rattle.std.specs.Prelude.{◌++◌, ◌∷◌, []};
ghost use Rattle.vx_array_tree.specs.Sound.{IsSoundNode};
ghost use Rattle.vx_array_tree.specs.Tree.{option_trees};

use crate::array::Array;
use std::alloc::Global;
use std::marker::Model;
use vx_rows::ArrayError;

/// A list of arrays, as the children of a node.
#[derive(Drop)]
pub struct Arrays {
    items: Vec<Array>,
}

impl Model for Arrays {
    ghost use Rattle.vx_array_tree.specs.Tree.{Trees, trees_code};

    ghost Value = { Trees };

    ghost coded = { trees_code };

    ghost use Rattle.vx_trees.specs.Rose.{roses_of};
    ghost use Rattle.vx_trees.specs.Everywhere.{EverywhereBelow};
    ghost use Rattle.vx_array_tree.specs.Sound.{IsSoundNode};

    ghost view = { λ a. roses_of a.items.items };

    ghost invariant = { λ a. EverywhereBelow IsSoundNode (roses_of a.items.items) };
}

impl Arrays {
    /// The empty list. It takes no memory.
    pub fn new(alloc: Global) -> Arrays
        ensures { result ≡ end }
    {
        Arrays {
            items: Vec::new(alloc),
        }
    }

    /// Appends an array. On allocation failure the list stays as it was, and the array is dropped.
    pub fn push(&mut self, array: Array) -> Result<(), ArrayError>
        ensures ok { OnOk result (roses_list self.new ≡ roses_list self.old ++ array ∷ []) }
        ensures unchanged { OnErr result (self.new ≡ self.old) }
        ensures err { IsOkUnless result ArrayError.OutOfMemory }
    {
        // Asked for its clause, that the array is sound.
        let _rows = array.len();
        self.items.push(array)?;
        Ok(())
    }

    // Appends an array, if any.
    pub(crate) fn push_some(&mut self, array: Option<Array>) -> Result<(), ArrayError>
        ensures ok { OnOk result (roses_list self.new ≡ roses_list self.old ++ roses_list (option_trees array)) }
        ensures err { IsOkUnless result ArrayError.OutOfMemory }
    {
        match array {
            None => Ok(()),
            Some(array) => self.push(array),
        }
    }

    // Puts an array in front, as the validity of a struct comes before its columns and the tags of a union before its
    // members.
    pub(crate) fn put_first(&mut self, array: Array) -> Result<(), ArrayError>
        ensures ok { OnOk result (self.new ≡ more array self.old) }
        ensures err { IsOkUnless result ArrayError.OutOfMemory }
    {
        // Asked for its clause, that the array is sound.
        let _rows = array.len();
        self.items.insert(0, array)?;
        Ok(())
    }

    /// Removes and returns the first array.
    pub fn remove_first(&mut self) -> Array
        requires { 1 ≤ count self.old }
        ensures { more result self.new ≡ self.old }
    {
        self.items.remove(0)
    }

    /// How many arrays there are.
    pub fn len(&self) -> usize
        ensures { result ≡ count self.now }
    {
        self.items.as_slice().len()
    }

    /// The arrays in their order, borrowed.
    pub fn as_slice(&self) -> &[Array]
        ensures items { roses_of result.now ≡ self.now }
        ensures sound { EverywhereBelow IsSoundNode self.now }
    {
        self.items.as_slice()
    }

    /// The arrays in their order, by value.
    pub fn into_vec(self) -> Vec<Array>
        ensures items { roses_of result.items ≡ self }
        ensures sound { EverywhereBelow IsSoundNode self }
    {
        self.items
    }
}
