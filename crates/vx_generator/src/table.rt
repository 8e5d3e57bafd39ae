//! Tables drawn from a seed.

ghost use Rattle.std.specs.Prelude.{◌≡◌, ◌<◌, ◌≤◌, ℕ, IfOk, IsOkUnless};
ghost use Rattle.vx_array_tree.specs.Tree.{row_at};
ghost use Rattle.vx_generator.specs.Columns.{before};
ghost use Rattle.vx_generator.specs.Made.{data_len, made};
ghost use Rattle.vx_generator.specs.Rows.{row_value};

use crate::arrays::table_of;
use crate::columns::columns_of;
use crate::error::GeneratorError;
use std::alloc::Global;
use vx_arrays::{Array, ArrayError};

/// A table, and the total length of its buffers.
#[derive(Drop)]
pub struct Table {
    /// The table.
    pub array: Array,
    /// The total length of its buffers in bytes.
    pub data_len: u64,
}

/// The table of `rows` rows that is drawn from a seed: structures of a 64-bit number that may be null, of a text and of
/// a list of 16-bit numbers. Each row takes three draws and as many more as its list has elements. The only refusal is
/// `OutOfMemory`. A million rows at most keep all offsets and lengths in 32 bits.
pub fn generate(alloc: Global, seed: u64, rows: usize) -> Result<Table, GeneratorError>
    requires { rows ≤ 1000000 }
    ensures array { IfOk result (λ t. t.array ≡ made seed rows) }
    ensures rows { IfOk result (λ t. (i : ℕ) → i < rows → row_at t.array i ≡ row_value (before seed i)) }
    ensures data { IfOk result (λ t. t.data_len ≡ data_len (made seed rows)) }
    ensures err { IsOkUnless result GeneratorError.OutOfMemory }
{
    let columns = columns_of(alloc, seed, rows)?;
    let data_len = columns.data_len();
    match table_of(alloc, columns, rows) {
        Ok(array) => Ok(Table { array, data_len }),
        Err(ArrayError::OutOfMemory) => Err(GeneratorError::OutOfMemory),
        Err(_) => unreachable!(),
    }
}
