//! Arrays over their children. This is the one place where a node with children is made, after its shape, its control
//! children and its content are judged.

ghost use Rattle.std.specs.Prelude.{◌≡◌, ◌↔◌, IfOk, IfErr, OnOk, IsTrue};
ghost use Rattle.vx_trees.specs.Everywhere.{EverywhereBelow};
ghost use Rattle.vx_trees.specs.Rose.{node, roses_of};
ghost use Rattle.vx_types.specs.Seen.{typ};
ghost use Rattle.vx_array_tree.specs.Refused.{IsWellShaped};
ghost use Rattle.vx_array_tree.specs.Sound.{IsControlled, IsSound, IsSoundNode};
ghost use Rattle.vx_array_tree.specs.Table.{Content};
ghost use Rattle.vx_array_tree.specs.Tree.{rows_below, untold};
ghost use Rattle.vx_arrays.specs.Plain.{plain_body};
ghost use Rattle.vx_arrays.specs.Refused.{RefusesMaking, IsOkOrMemory};

use crate::array::Array;
use crate::body::Body;
use crate::control::is_controlled;
use vx_rows::ArrayError;
use vx_types::DType;

// Judges parts: `shaped` says whether they have their encoding's shape, and `right` whether their content is right
// where the control children are known. Control comes before content: the rows of a foreign node are unknown, so content
// that depends on them is neither right nor wrong.
fn judge(
    dtype: &DType,
    len: usize,
    body: &Body,
    children: &[Array],
    shaped: bool,
    right: bool,
) -> Result<(), ArrayError>
    requires shaped { IsTrue shaped ↔ IsWellShaped (untold (typ dtype.now) len (plain_body body.now)) (roses_of children.now) }
    requires content { IsTrue shaped → IsControlled (untold (typ dtype.now) len (plain_body body.now)) (roses_of children.now) →
        IsTrue right ↔ Content (typ dtype.now) len (plain_body body.now) (rows_below (roses_of children.now)) }
    ensures shaped { OnOk result (IsTrue shaped) }
    ensures controlled { OnOk result (IsControlled (untold (typ dtype.now) len (plain_body body.now)) (roses_of children.now)) }
    ensures right { OnOk result (IsTrue right) }
    ensures err { IfErr result (λ e. RefusesMaking e (node (untold (typ dtype.now) len (plain_body body.now)) (roses_of children.now))) }
{
    if !shaped {
        return Err(ArrayError::BadShape);
    }
    if !is_controlled(dtype, len, body, children) {
        return Err(ArrayError::ForeignControl);
    }
    if !right {
        return Err(ArrayError::BadContent);
    }
    Ok(())
}

// The array of a node over these children. `shaped` says whether they have the shape that its encoding requires, and
// `right` whether their content is right where no control child holds a foreign node. Otherwise `right` may be
// anything: content is judged row by row, and nothing bounds the number of rows of a foreign node.
pub(crate) fn over_children(
    dtype: DType,
    len: usize,
    body: Body,
    children: Vec<Array>,
    shaped: bool,
    right: bool,
) -> Result<Array, ArrayError>
    requires shaped { IsTrue shaped ↔ IsWellShaped (untold (typ dtype) len (plain_body body)) (roses_of children.items) }
    requires content { IsTrue shaped → IsControlled (untold (typ dtype) len (plain_body body)) (roses_of children.items) →
        IsTrue right ↔ Content (typ dtype) len (plain_body body) (rows_below (roses_of children.items)) }
    requires below { IsTrue shaped → EverywhereBelow IsSoundNode (roses_of children.items) }
    ensures ok { IfOk result (λ a. a ≡ node (untold (typ dtype) len (plain_body body)) (roses_of children.items)) }
    ensures sound { IfOk result IsSound }
    ensures err { IfErr result (λ e. RefusesMaking e (node (untold (typ dtype) len (plain_body body)) (roses_of children.items))) }
    ensures complete { IsSound (node (untold (typ dtype) len (plain_body body)) (roses_of children.items)) → IsOkOrMemory result }
{
    match judge(&dtype, len, &body, children.as_slice(), shaped, right) {
        Ok(()) => Ok(Array::from_parts(dtype, len, body, children)),
        Err(error) => {
            // Dropped explicitly: an implicit drop splits the proof into a case for each encoding.
            drop(body);
            Err(error)
        }
    }
}
