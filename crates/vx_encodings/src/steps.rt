//! The steps of one node: the plan of its children, the node built of its parts, and its metadata. Each is asked of the
//! encodings in a file of its own.

ghost use Rattle.std.specs.Prelude.{◌≡◌, List, IfOk, IfErr, OnOk};
ghost use Rattle.vx_trees.specs.Rose.{label, below};
ghost use Rattle.vx_type_wire.specs.Session.{ext_meaning};
ghost use Rattle.vx_array_tree.specs.Place.{Place};
ghost use Rattle.vx_array_tree.specs.Sound.{IsSound, metadata_in};
ghost use Rattle.vx_array_tree.specs.Tree.{Tree, places};
ghost use Rattle.vx_wire_tree.specs.Fields.{told};
ghost use Rattle.vx_wire_tree.specs.Limits.{HasMessage};
ghost use Rattle.vx_encodings.specs.Messages.{message_bytes};
ghost use Rattle.vx_encodings.specs.Steps.{IsPlanned, RefusesPlanning, IsBuilt, RefusesBuilding, RefusesWritingMetadata, IsOkOrMemory};

mod building;
pub(crate) mod fitting;
mod planning;
mod writing;

use crate::encoding::Encoding;
use crate::steps::building::build_by;
use crate::steps::fitting::has_message;
use crate::steps::planning::plan_by;
use crate::steps::writing::metadata_by;
use std::alloc::Global;
use vx_arrays::{Array, Arrays};
use vx_buffer::BufferHandles;
use vx_plans::{ArrayHead, ChildPlans, EncodingError};
use vx_type_wire::ExtSession;
use vx_types::Blob;

/// The plan of the children of a node of this encoding. Buffers are not looked at; only `build` judges them.
///
/// `BadMetadata` where its metadata is none of the encoding's, else `BadShape` where its type is of another kind or its
/// number of children does not fit. A validity is planned under types that are not nullable as well: so its own faults
/// are found first, and `build` refuses it.
///
/// `readers` are the session's readers of extensions. Only variants ask them, whose metadata has a type; all encodings
/// take them, so that a session can call each in the same way.
pub fn plan(
    alloc: Global,
    encoding: Encoding,
    head: &ArrayHead,
    readers: &ExtSession,
) -> Result<ChildPlans, EncodingError>
    ensures plan { let x = ext_meaning (λ b. accepted (b.vtable, b.value)) readers.now in
        IfOk result (λ plans. IsPlanned x encoding head.now plans) }
    ensures err { let x = ext_meaning (λ b. accepted (b.vtable, b.value)) readers.now in
        IfErr result (λ e. RefusesPlanning e x encoding head.now) }
    ensures complete { let x = ext_meaning (λ b. accepted (b.vtable, b.value)) readers.now in
        (ps : List Place) → IsPlanned x encoding head.now ps → IsOkOrMemory result }
{
    plan_by(alloc, encoding, head, readers)
}

/// The array of these parts. The children have the planned places, which `build` does not judge again.
///
/// `BadShape` where the parts are not as the encoding's row asks, else `ForeignControl` where a child that says where
/// rows are holds a foreign node, or the entries of maps are one, else `BadContent` where their content is broken.
/// Content is judged after control, so that no walk over rows rests on a foreign node, whose number of rows no bytes
/// bound.
///
/// The metadata of variants is not read again: their children have the type, and they are held against the plan.
pub fn build(
    alloc: Global,
    encoding: Encoding,
    head: ArrayHead,
    buffers: BufferHandles,
    children: Arrays,
    readers: &ExtSession,
) -> Result<Array, EncodingError>
    requires { let x = ext_meaning (λ b. accepted (b.vtable, b.value)) readers.now in
        IsPlanned x encoding head (places children) }
    ensures parts { let x = ext_meaning (λ b. accepted (b.vtable, b.value)) readers.now in
        IfOk result (λ t. IsBuilt x encoding head buffers children t) }
    ensures sound { IfOk result IsSound }
    ensures err { let x = ext_meaning (λ b. accepted (b.vtable, b.value)) readers.now in
        IfErr result (λ e. RefusesBuilding e x encoding head buffers children) }
    ensures complete { let x = ext_meaning (λ b. accepted (b.vtable, b.value)) readers.now in
        (t : Tree) → IsBuilt x encoding head buffers children t → IsSound t → IsOkOrMemory result }
{
    build_by(alloc, encoding, head, buffers, children, readers)
}

/// The bytes of the root's metadata, as they are written: `WireLimit` exactly where it does not fit its message.
pub fn metadata(alloc: Global, array: &Array) -> Result<Blob, EncodingError>
    ensures ok { IfOk result (λ bytes. bytes ≡ message_bytes (told (metadata_in (label array.now) (below array.now)))) }
    ensures fits { OnOk result (HasMessage (label array.now) (below array.now)) }
    ensures err { IfErr result (λ e. RefusesWritingMetadata e array.now) }
    ensures complete { HasMessage (label array.now) (below array.now) → IsOkOrMemory result }
{
    if !has_message(array) {
        return Err(EncodingError::WireLimit);
    }
    metadata_by(alloc, array)
}
