//! Lists of values.

ghost use Rattle.std.specs.Prelude.{◌≡◌, ◌==◌, [], ◌∷◌, ◌++◌, OnOk, OnErr, IfOk, IsOkUnless, length};
ghost use Rattle.vx_scalars.specs.Seen.{seen, all_seen};

use crate::copy::copy_all;
use crate::value::ScalarValue;
use std::alloc::Global;
use std::marker::Model;
use vx_types::TypeError;

/// The values of a tuple, in order, each of which may be null. Contracts see the
/// list of their trees.
#[cycle(scalar)]
#[derive(Debug, Drop)]
pub struct Values {
    items: Vec<Option<ScalarValue>>,
}

impl Model for Values {
    ghost use Rattle.std.specs.Prelude.{List};
    ghost use Rattle.std.specs.Coded.{coded_list};
    ghost use Rattle.std.proofs.Common.{arith};
    ghost use Rattle.vx_types.specs.Value.{Value as Tree, value_code};
    ghost use Rattle.vx_scalars.specs.Measures.{values_size};

    ghost Value = { List Tree };

    ghost coded = { coded_list value_code };

    ghost use Rattle.vx_scalars.specs.Seen.{all_seen};

    ghost view = { λ a. all_seen a.items.items };

    ghost size = { values_size };

    ghost use Rattle.vx_scalars.specs.Decreasing.{most_le-size};

    ghost size_decreases = { λ a h. Prim.omega (arith, most_le-size a.items.items) };
}

impl Values {
    /// An empty list; values that are pushed are allocated by `alloc`.
    pub fn new(alloc: Global) -> Values
        ensures { result ≡ [] }
    {
        Values {
            items: Vec::new(alloc),
        }
    }

    /// The number of values.
    pub fn len(&self) -> usize
        ensures { result ≡ length self.now }
    {
        self.items.len()
    }

    /// Whether the list is empty.
    pub fn is_empty(&self) -> bool
        ensures { result ≡ (length self.now == 0) }
    {
        self.items.is_empty()
    }

    /// All values, in order; `None` is a null.
    pub fn as_slice(&self) -> &[Option<ScalarValue>]
        ensures { all_seen result.now ≡ self.now }
    {
        self.items.as_slice()
    }

    /// Appends a value; `None` is a null. On `OutOfMemory` the list is unchanged, and
    /// the value is dropped.
    pub fn push(&mut self, value: Option<ScalarValue>) -> Result<(), TypeError>
        ensures ok { OnOk result (self.new ≡ self.old ++ seen value ∷ []) }
        ensures unchanged { OnErr result (self.new ≡ self.old) }
        ensures err { IsOkUnless result TypeError.OutOfMemory }
    {
        self.items.push(value)?;
        Ok(())
    }

    /// An equal list.
    #[cycle(copy)]
    pub fn clone(&self, alloc: Global) -> Result<Values, TypeError>
        ensures ok { IfOk result (λ values. values ≡ self.now) }
        ensures err { IsOkUnless result TypeError.OutOfMemory }
    {
        let items = copy_all(self.as_slice(), alloc)?;
        Ok(Values { items })
    }
}
