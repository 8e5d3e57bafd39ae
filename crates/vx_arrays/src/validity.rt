//! The validity of a node: the child that says which rows are valid.

ghost use Rattle.std.specs.Prelude.{◌≡◌, ◌<◌, ◌≤◌, ◌↔◌, ℕ, [], Some, false, IfErr, IfOk, IsTrue, IsOkUnless, length};
ghost use Rattle.vx_trees.specs.Everywhere.{EverywhereBelow};
ghost use Rattle.vx_trees.specs.Rose.{count, end, more, node, roses_of};
ghost use Rattle.vx_types.specs.Seen.{typ};
ghost use Rattle.vx_array_tree.specs.Place.{before_validity};
ghost use Rattle.vx_array_tree.specs.Refused.{IsWellShaped};
ghost use Rattle.vx_types.specs.Value.{flag_in};
ghost use Rattle.vx_array_tree.specs.Rows.{validity as valid_by};
ghost use Rattle.vx_array_tree.specs.Sound.{IsSound, IsSoundNode};
ghost use Rattle.vx_array_tree.specs.Table.{Content};
ghost use Rattle.vx_array_tree.specs.Tree.{option_trees, places, row_at, rows_below, untold};
ghost use Rattle.vx_arrays.specs.Plain.{plain_body};
ghost use Rattle.vx_arrays.specs.Refused.{RefusesMaking, IsOkOrMemory};
ghost use Rattle.vx_arrays.specs.Validity.{IsValidity, all_invalid};

use crate::array::Array;
use crate::body::Body;
use crate::construction::over_children;
use crate::encodings::bool::BoolArray;
use crate::list::Arrays;
use crate::place::stands_at;
use std::alloc::Global;
use vx_buffer::{BufferHandle, ByteBuffer};
use vx_rows::ArrayError;
use vx_types::{DType, Nullability};

// Whether a row is valid, by the validity that a node of `len` rows may have as its only child; None where it is
// opaque. Without a validity each row is valid.
#[cycle(naturals)]
pub(crate) fn validity_at(children: &[Array], len: usize, index: usize) -> Option<bool>
    requires planned { before_validity [] len (count (roses_of children.now)) ≡ Some (places (roses_of children.now)) }
    requires inside { index < len }
    ensures { result ≡ valid_by (rows_below (roses_of children.now)) index }
{
    match children {
        [] => Some(true),
        [array, ..] => array.flag_at(index),
    }
}

// The same by the validity that a node of `len` rows is to have.
pub(crate) fn option_validity_at(validity: &Option<Array>, len: usize, index: usize) -> Option<bool>
    requires planned { before_validity [] len (count (option_trees validity.now)) ≡ Some (places (option_trees validity.now)) }
    requires inside { index < len }
    ensures { result ≡ valid_by (rows_below (option_trees validity.now)) index }
{
    match validity {
        None => Some(true),
        Some(array) => array.flag_at(index),
    }
}

// Whether an array may be the validity of a node of this nullability and length.
pub(crate) fn is_validity(nullability: Nullability, len: usize, validity: &Option<Array>) -> bool
    ensures fits { IsTrue result ↔ IsValidity nullability len (option_trees validity.now) }
    ensures sound { EverywhereBelow IsSoundNode (option_trees validity.now) }
{
    let array = match validity {
        None => return true,
        Some(array) => array,
    };
    if array.len() != len {
        return false;
    }
    if nullability == Nullability::NonNullable {
        return false;
    }
    match array.dtype() {
        DType::Bool(Nullability::NonNullable) => true,
        _ => false,
    }
}

// The children of a node that has a validity and no others.
pub(crate) fn only_validity(
    alloc: Global,
    validity: Option<Array>,
) -> Result<Vec<Array>, ArrayError>
    ensures children { IfOk result (λ children. roses_of children.items ≡ option_trees validity) }
    ensures err { IsOkUnless result ArrayError.OutOfMemory }
{
    // Most nodes of wide tables have a validity alone, so the list has a capacity of one.
    match validity {
        None => Ok(Vec::new(alloc)),
        Some(array) => only_child(alloc, array),
    }
}

// A list of one array, of capacity one.
fn only_child(alloc: Global, array: Array) -> Result<Vec<Array>, ArrayError>
    ensures children { IfOk result (λ children. roses_of children.items ≡ more array end) }
    ensures err { IsOkUnless result ArrayError.OutOfMemory }
{
    match Vec::from_array(alloc, [array]) {
        Ok(children) => Ok(children),
        Err(_) => Err(ArrayError::OutOfMemory),
    }
}

// The array of a node that has at most a validity below and no content rules; `shaped` says whether it has its
// encoding's shape.
pub(crate) fn over_validity(
    alloc: Global,
    dtype: DType,
    len: usize,
    body: Body,
    validity: Option<Array>,
    shaped: bool,
) -> Result<Array, ArrayError>
    requires shaped { IsTrue shaped ↔ IsWellShaped (untold (typ dtype) len (plain_body body)) (option_trees validity) }
    requires content { Content (typ dtype) len (plain_body body) (rows_below (option_trees validity)) }
    requires below { IsTrue shaped → EverywhereBelow IsSoundNode (option_trees validity) }
    ensures ok { IfOk result (λ a. a ≡ node (untold (typ dtype) len (plain_body body)) (option_trees validity)) }
    ensures sound { IfOk result IsSound }
    ensures err { IfErr result (λ e. RefusesMaking e (node (untold (typ dtype) len (plain_body body)) (option_trees validity))) }
    ensures complete { IsSound (node (untold (typ dtype) len (plain_body body)) (option_trees validity)) → IsOkOrMemory result }
{
    match only_validity(alloc, validity) {
        Ok(children) => over_children(dtype, len, body, children, shaped, true),
        Err(error) => {
            drop(body);
            Err(error)
        }
    }
}

// Whether the arrays after a node's other children are the validity of `len` rows, or none.
pub(crate) fn is_validity_after(nullability: Nullability, after: &[Array], len: usize) -> bool
    ensures { IsTrue result ↔ IsValidity nullability len (roses_of after.now) }
{
    match after {
        [] => true,
        [validity] => match nullability {
            Nullability::Nullable => {
                stands_at(validity, &DType::Bool(Nullability::NonNullable), len)
            }
            Nullability::NonNullable => false,
        },
        _ => false,
    }
}

// The children of a node that has two, and after them at most a validity. All are pushed before one failure is told:
// a `?` between them would add a case to the proof for each list that it drops.
pub(crate) fn listed(
    alloc: Global,
    first: Array,
    second: Array,
    validity: Option<Array>,
) -> Result<Arrays, ArrayError>
    ensures children { IfOk result (λ children. children ≡ more first (more second (option_trees validity))) }
    ensures err { IsOkUnless result ArrayError.OutOfMemory }
{
    let mut children = Arrays::new(alloc);
    let one = children.push(first);
    let two = children.push(second);
    let last = children.push_some(validity);
    match (one, two, last) {
        (Ok(()), Ok(()), Ok(())) => Ok(children),
        _ => Err(ArrayError::OutOfMemory),
    }
}

// The children of a node that has three, and after them at most a validity.
pub(crate) fn listed_by_three(
    alloc: Global,
    first: Array,
    second: Array,
    third: Array,
    validity: Option<Array>,
) -> Result<Arrays, ArrayError>
    ensures children { IfOk result (λ children. children ≡ more first (more second (more third (option_trees validity)))) }
    ensures err { IsOkUnless result ArrayError.OutOfMemory }
{
    let mut children = Arrays::new(alloc);
    let one = children.push(first);
    let two = children.push(second);
    let three = children.push(third);
    let last = children.push_some(validity);
    match (one, two, three, last) {
        (Ok(()), Ok(()), Ok(()), Ok(())) => Ok(children),
        _ => Err(ArrayError::OutOfMemory),
    }
}

// The first of a node's children, and those after it.
pub(crate) fn split_first(children: &[Array]) -> (&Array, &[Array])
    requires { 1 ≤ length children.now }
    ensures { more result.0.now (roses_of result.1.now) ≡ roses_of children.now }
{
    match children {
        [first, after @ ..] => (first, after),
        [] => unreachable!(),
    }
}

// The children of a node that has one, and after it at most a validity.
pub(crate) fn with_validity(
    alloc: Global,
    first: Array,
    validity: Option<Array>,
) -> Result<Vec<Array>, ArrayError>
    ensures children { IfOk result (λ children. roses_of children.items ≡ more first (option_trees validity)) }
    ensures err { IsOkUnless result ArrayError.OutOfMemory }
{
    let mut children = Arrays::new(alloc);
    let one = children.push(first);
    let last = children.push_some(validity);
    match (one, last) {
        (Ok(()), Ok(())) => Ok(children.into_vec()),
        _ => Err(ArrayError::OutOfMemory),
    }
}

/// The validity of `len` rows that are all null: a bit of 0 for each, in the fewest bytes.
#[tactic(auto, using(crate::proofs::AllInvalid::all_invalid_steps))]
pub fn validity_all_invalid(alloc: Global, len: usize) -> Result<Array, ArrayError>
    ensures ok { IfOk result (λ a. a ≡ all_invalid len) }
    ensures sound { IfOk result IsSound }
    ensures none { IfOk result (λ a. (i : ℕ) → i < len → flag_in (row_at a i) ≡ Some false) }
    ensures err { IsOkUnless result ArrayError.OutOfMemory }
{
    let bytes = vec![in alloc; 0; len.div_ceil(8)]?;
    let bits = BufferHandle::new_host(ByteBuffer::from_vec(bytes)?);
    BoolArray::try_new(alloc, bits, 0, len, Nullability::NonNullable, None)
}
