//! Copies of the parts of values.

ghost use Rattle.std.specs.Prelude.{◌≡◌, IfOk, IsOkUnless, option_copied};

use crate::value::ScalarValue;
use std::alloc::Global;
use vx_types::TypeError;

// A copy of a value; `None` is a null.
#[cycle(copy)]
pub(crate) fn copied(
    value: Option<&ScalarValue>,
    alloc: Global,
) -> Result<Option<ScalarValue>, TypeError>
    ensures ok { IfOk result (λ copy. copy ≡ option_copied value.entry) }
    ensures err { IsOkUnless result TypeError.OutOfMemory }
{
    match value {
        None => Ok(None),
        Some(value) => Ok(Some(value.clone(alloc)?)),
    }
}

// Copies of values, in order.
#[cycle(copy)]
#[tactic(auto, using(crate::proofs::LawsOfLists::decreasing))]
pub(crate) fn copy_all(
    values: &[Option<ScalarValue>],
    alloc: Global,
) -> Result<Vec<Option<ScalarValue>>, TypeError>
    ensures ok { IfOk result (λ copies. copies.items ≡ values.now) }
    ensures err { IsOkUnless result TypeError.OutOfMemory }
{
    let mut copies = Vec::new(alloc);
    for value in values {
        copies.push(copied(value.as_ref(), alloc)?)?;
    }
    Ok(copies)
}
