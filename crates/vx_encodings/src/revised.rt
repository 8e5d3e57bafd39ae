//! The two identifiers of primitives, where they have two.

ghost use Rattle.std.specs.Prelude.{◌≡◌, IfOk, IsOkUnless};
ghost use Rattle.vx_wire_tree.specs.Revised.{revised_holds as holds, revised_id as id_for};

use std::alloc::Global;
use vx_arrays::PrimitiveArray;
use vx_plans::EncodingError;
use vx_types::{Id, or_memory};

// The identifier of the lengths that the old one does not hold.
const SECOND: &'static str = "vortex.primitive.v2";

// The greatest number of rows that the old identifier holds.
const MOST: usize = 4;

/// Whether nodes of this identifier hold `len` rows, where primitives have two identifiers: `false` exactly for
/// `vortex.primitive` and more than four rows. The new identifier holds any number of rows.
pub fn revised_holds(id: &Id, len: usize) -> bool
    ensures { result ≡ holds id.now len }
{
    if id.as_str() == PrimitiveArray::ID {
        return len <= MOST;
    }
    true
}

/// The identifier under which primitives of `len` rows are written, where they have two. The only refusal is
/// `OutOfMemory`.
pub fn revised_id(alloc: Global, len: usize) -> Result<Id, EncodingError>
    ensures ok { IfOk result (λ id. id ≡ id_for len) }
    ensures err { IsOkUnless result EncodingError.OutOfMemory }
{
    let text = if len <= MOST {
        PrimitiveArray::ID
    } else {
        SECOND
    };
    Ok(or_memory(Id::new(alloc, text))?)
}
