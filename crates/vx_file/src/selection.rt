//! Which columns are asked of a file.

ghost use Rattle.std.specs.Prelude.{◌≡◌, ◌∷◌, ◌++◌, [], length, slice_get, OnOk, OnErr, IsOkUnless};
ghost use Rattle.std.specs.Option.{option_copied};

use std::alloc::{AllocError, Global};
use std::marker::Model;

/// The numbers of columns, in the order in which they are asked; one may be asked again.
#[derive(Drop)]
pub struct Selection {
    columns: Vec<u32>,
}

impl Model for Selection {
    ghost use Rattle.std.specs.Prelude.{List, ℕ};

    ghost Value = { List ℕ };

    ghost view = { λ s. s.columns.items };
}

impl Selection {
    /// No column is asked.
    pub fn new(alloc: Global) -> Selection
        ensures { result ≡ [] }
    {
        Selection {
            columns: Vec::new(alloc),
        }
    }

    /// One more column is asked.
    ///
    /// # Errors
    /// Allocation failure; the selection stays as it was.
    pub fn push(&mut self, column: u32) -> Result<(), AllocError>
        ensures ok { OnOk result (self.new ≡ self.old ++ column ∷ []) }
        ensures err { OnErr result (self.new ≡ self.old) }
    {
        self.columns.push(column)?;
        Ok(())
    }

    /// The columns in their order.
    pub fn as_slice(&self) -> &[u32]
        ensures { result.now ≡ self.now }
    {
        self.columns.as_slice()
    }
}
