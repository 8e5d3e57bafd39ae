//! Whether a node's control children are known: no foreign node stands in a validity, codes, offsets, sizes or tags,
//! or as the entries of maps.

ghost use Rattle.std.specs.Prelude.{◌≡◌, ◌↔◌, IsTrue};
ghost use Rattle.vx_trees.specs.Rose.{roses_of};
ghost use Rattle.vx_types.specs.Seen.{typ};
ghost use Rattle.vx_array_tree.specs.Encoding as E;
ghost use Rattle.vx_array_tree.specs.Encodings.Structs.{has_validity};
ghost use Rattle.vx_array_tree.specs.Refused.{IsWellShaped};
ghost use Rattle.vx_array_tree.specs.Sound.{HasNativeEntries, HasNoForeign, IsControlled};
ghost use Rattle.vx_array_tree.specs.Table.{encoding_of, is_control};
ghost use Rattle.vx_array_tree.specs.Tree.{untold};
ghost use Rattle.vx_arrays.specs.Plain.{plain_body};
ghost use Rattle.vx_arrays.specs.Structs.{IsOfFields};

use crate::array::Array;
use crate::body::Body;
use crate::encodings::structs::width_of;
use vx_types::DType;

impl Array {
    // Whether no node is foreign.
    #[tactic(auto, using(vx_trees::proofs::Roses::roses))]
    pub(crate) fn has_no_foreign(&self) -> bool
        ensures { IsTrue result ↔ HasNoForeign self.now }
    {
        if !self.body().is_native() {
            return false;
        }
        for child in self.children() {
            if !child.has_no_foreign() {
                return false;
            }
        }
        true
    }
}

// Whether the control children of a node of the right shape are known.
pub(crate) fn is_controlled(dtype: &DType, len: usize, body: &Body, children: &[Array]) -> bool
    requires { IsWellShaped (untold (typ dtype.now) len (plain_body body.now)) (roses_of children.now) }
    ensures { IsTrue result ↔ IsControlled (untold (typ dtype.now) len (plain_body body.now)) (roses_of children.now) }
{
    // Reads the length, so that the proof has its range.
    let _len = len;
    if !has_native_entries(body, children) {
        return false;
    }
    for i in 0..children.len() {
        if is_control(dtype, body, children.len(), i) && !children[i].has_no_foreign() {
            return false;
        }
    }
    true
}

// Whether the entries of a map node are not foreign. The node alone is asked: what stands below it is no control
// child of the map.
fn has_native_entries(body: &Body, children: &[Array]) -> bool
    ensures { IsTrue result ↔ HasNativeEntries (encoding_of (plain_body body.now)) (roses_of children.now) }
{
    match (body, children) {
        (Body::Map, [entries, ..]) => entries.body().is_native(),
        _ => true,
    }
}

// Whether the child at an index, of n children, is a control child.
fn is_control(dtype: &DType, body: &Body, count: usize, index: usize) -> bool
    requires { encoding_of (plain_body body.now) ≡ E.struct → IsOfFields (typ dtype.now) }
    ensures { result ≡ is_control (encoding_of (plain_body body.now)) (typ dtype.now) count index }
{
    match body {
        Body::Bool(_) | Body::Primitive(_) | Body::Decimal(_) => true,
        Body::VarBin(_) | Body::VarBinView(_) => true,
        Body::List | Body::ListView(_) | Body::FixedSizeList => index >= 1,
        Body::Union | Body::Dict(_) => index == 0,
        Body::Struct => has_front(dtype, count) && index == 0,
        Body::Null | Body::Map | Body::Ext | Body::Variant | Body::Foreign(_) => false,
    }
}

// Whether the first of n children of a struct node is a validity.
fn has_front(dtype: &DType, count: usize) -> bool
    requires { IsOfFields (typ dtype.now) }
    ensures { result ≡ has_validity (typ dtype.now) count }
{
    count >= 1 && count - 1 == width_of(dtype)
}
