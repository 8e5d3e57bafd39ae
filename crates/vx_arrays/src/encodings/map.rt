//! Arrays of maps, by their entries.

ghost use Rattle.std.specs.Prelude.{◌≡◌, ◌↔◌, IfOk, IfErr, IsTrue, Some, ◌∷◌, []};
ghost use Rattle.vx_trees.specs.Rose.{end, label, more, node, roses_of};
ghost use Rattle.vx_types.specs.Seen.{typ, typs};
ghost use Rattle.vx_types.specs.Words.{entries, key_name, value_name};
ghost use Rattle.vx_array_tree.specs.Body as B;
ghost use Rattle.vx_array_tree.specs.Encodings.Maps.{Takes};
ghost use Rattle.vx_array_tree.specs.Refused.{IsWellShaped};
ghost use Rattle.vx_array_tree.specs.Sound.{IsSound, IsSoundNode};
ghost use Rattle.vx_array_tree.specs.Table.{encoding_of};
ghost use Rattle.vx_array_tree.specs.Tree.{untold};
ghost use Rattle.vx_arrays.specs.Maps.{entries_of, map_tree, AreEntries};
ghost use Rattle.vx_arrays.specs.Plain.{plain_body};
ghost use Rattle.vx_arrays.specs.Refused.{RefusesMaking, IsOkOrMemory};

use crate::array::Array;
use crate::body::Body;
use crate::construction::over_children;
use crate::list::Arrays;
use std::alloc::Global;
use vx_rows::ArrayError;
use vx_types::{DType, MapDType, Name, Nullability};

/// Arrays of maps, by their entries.
pub struct MapArray {}

impl MapArray {
    /// The identifier of the encoding.
    pub const ID: &'static str = "vortex.map";

    /// The array of maps whose rows are lists of entries, which are null where the maps are.
    ///
    /// `BadShape` where the entries have a registered encoding other than list view, or are not lists of the entry
    /// structs of the map's type. `ForeignControl` where they are foreign.
    pub fn try_new(alloc: Global, map: MapDType, entries: Array) -> Result<Array, ArrayError>
        ensures ok { IfOk result (λ a. a ≡ map_tree map entries) }
        ensures sound { IfOk result IsSound }
        ensures err { IfErr result (λ e. RefusesMaking e (map_tree map entries)) }
        ensures complete { IsSound (map_tree map entries) → IsOkOrMemory result }
    {
        let len = entries.len();
        let nullability = entries.dtype().nullability();
        let mut children = Arrays::new(alloc);
        children.push(entries)?;
        MapArray::of_children(DType::Map(map, nullability), len, children)
    }

    /// The array of a node of this type and length over these children.
    ///
    /// `BadShape` where they are not one array of n rows of entries, in lists by views. `ForeignControl` where that
    /// is foreign.
    pub fn of_children(dtype: DType, len: usize, children: Arrays) -> Result<Array, ArrayError>
        ensures ok { IfOk result (λ a. a ≡ node (untold (typ dtype) len B.map) children) }
        ensures sound { IfOk result IsSound }
        ensures err { IfErr result (λ e. RefusesMaking e (node (untold (typ dtype) len B.map) children)) }
        ensures complete { IsSound (node (untold (typ dtype) len B.map) children) → IsOkOrMemory result }
    {
        let shaped = is_shaped(&dtype, len, children.as_slice());
        over_children(dtype, len, Body::Map, children.into_vec(), shaped, true)
    }
}

// The entries among the children of a node of this type and length.
#[tactic(auto, using(crate::proofs::Mapped::maps))]
pub(crate) fn entries_in<'a>(dtype: &DType, len: usize, children: &'a [Array]) -> &'a Array
    requires { IsSoundNode (untold (typ dtype.now) len B.map) (roses_of children.now) }
    ensures alone { roses_of children.now ≡ more result.now end }
    ensures rows { (label result.now).len ≡ len }
{
    let _len = len;
    let _dtype = dtype;
    match children {
        [entries, ..] => entries,
        [] => unreachable!(),
    }
}

// Whether arrays are the children of a map node: its entries alone.
#[tactic(auto, using(crate::proofs::Mapped::shapes))]
fn is_shaped(dtype: &DType, len: usize, children: &[Array]) -> bool
    ensures { IsTrue result ↔ IsWellShaped (untold (typ dtype.now) len B.map) (roses_of children.now) }
{
    match children {
        [entries] => are_entries(dtype, len, entries),
        _ => false,
    }
}

// Whether an array is the entries of n maps of a type: of the type of their lists, and a list view as far as its
// encoding is known.
fn are_entries(dtype: &DType, len: usize, entries: &Array) -> bool
    ensures { IsTrue result ↔ AreEntries (typ dtype.now) len entries.now }
{
    let typed = entries.len() == len && are_lists_of_entries(dtype, entries.dtype());
    typed && may_hold_entries(entries.body())
}

// Whether what a node holds is that of a list view, or of a foreign node.
fn may_hold_entries(body: &Body) -> bool
    ensures { IsTrue result ↔ Takes (encoding_of (plain_body body.now) ∷ []) }
{
    match body {
        Body::ListView(_) | Body::Foreign(_) => true,
        _ => false,
    }
}

// Whether a type is that of the lists of entries, of a type of maps.
fn are_lists_of_entries(dtype: &DType, lists: &DType) -> bool
    ensures { IsTrue result ↔ (entries_of (typ dtype.now) ≡ Some (typ lists.now)) }
{
    match (dtype, lists) {
        (DType::Map(map, nullability), DType::List(element, other)) => {
            *nullability == *other && is_entry(map, element.get())
        }
        _ => false,
    }
}

// Whether a type is that of an entry: a struct of a key and a value that are of the map's types.
fn is_entry(map: &MapDType, dtype: &DType) -> bool
    ensures { IsTrue result ↔ (typ dtype.now ≡ entries map.now) }
{
    match dtype {
        DType::Struct(fields, nullability) => match nullability {
            Nullability::NonNullable => {
                are_names(fields.names().as_slice()) && are_types(map, fields.fields().as_slice())
            }
            Nullability::Nullable => false,
        },
        _ => false,
    }
}

// Whether names are those of an entry's fields.
fn are_names(names: &[Name]) -> bool
    ensures { IsTrue result ↔ (names.now ≡ key_name ∷ value_name ∷ []) }
{
    match names {
        [key, value] => is_text(key, "key") && is_text(value, "value"),
        _ => false,
    }
}

// Whether types are those of an entry's fields.
fn are_types(map: &MapDType, types: &[DType]) -> bool
    ensures { IsTrue result ↔ (typs types.now ≡ map.now.key ∷ map.now.value ∷ []) }
{
    match types {
        [key, value] => is_type(key, map.key_dtype()) && is_type(value, map.value_dtype()),
        _ => false,
    }
}

// Whether a name is a text.
fn is_text(name: &Name, text: &str) -> bool
    ensures { IsTrue result ↔ (name.now ≡ text.now) }
{
    name.as_str() == text
}

// Whether a type is another.
#[tactic(auto, using(vx_trees::proofs::Sameness::sameness))]
fn is_type(dtype: &DType, other: &DType) -> bool
    ensures { IsTrue result ↔ (typ dtype.now ≡ typ other.now) }
{
    *dtype == *other
}
