//! The line that is printed of a table.

ghost use Rattle.std.specs.Prelude.{◌≡◌, IfOk, string_bytes};
ghost use Rattle.vx_generator.specs.Summary.{line_of};

use std::alloc::{AllocError, Global};

// The number of arrays that a table is made of, itself included, and the number of their buffers.
const NODES: u32 = 9;

const BUFFERS: u32 = 7;

/// The line `rows=R nodes=9 buffers=7 data=D` of a table of `rows` rows whose buffers have `data_len` bytes. The only
/// refusal is `AllocError`.
pub fn summary(alloc: Global, rows: usize, data_len: u64) -> Result<String, AllocError>
    ensures { IfOk result (λ text. string_bytes text ≡ line_of rows 9 7 data_len) }
{
    let (nodes, buffers) = (NODES, BUFFERS);
    format!(in alloc; "rows={rows} nodes={nodes} buffers={buffers} data={data_len}\n")
}
