//! Extension arrays, over their storage.

ghost use Rattle.std.specs.Prelude.{◌≡◌, ◌↔◌, IfOk, IfErr, IsTrue, option_map};
ghost use Rattle.vx_trees.specs.Rose.{end, label, more, node, roses_of};
ghost use Rattle.vx_types.specs.Seen.{typ};
ghost use Rattle.vx_array_tree.specs.Body as B;
ghost use Rattle.vx_array_tree.specs.Refused.{IsWellShaped};
ghost use Rattle.vx_array_tree.specs.Sound.{IsSound, IsSoundNode};
ghost use Rattle.vx_array_tree.specs.Tree.{untold};
ghost use Rattle.vx_arrays.specs.Extensions.{extension_tree, storage_of};
ghost use Rattle.vx_arrays.specs.Refused.{RefusesMaking, IsOkOrMemory};

use crate::array::Array;
use crate::body::Body;
use crate::construction::over_children;
use crate::list::Arrays;
use crate::place::stands_at;
use std::alloc::Global;
use vx_rows::ArrayError;
use vx_types::{DType, ExtDType};

/// Extension arrays, over their storage.
pub struct ExtensionArray {}

impl ExtensionArray {
    /// The identifier of the encoding.
    pub const ID: &'static str = "vortex.ext";

    /// The extension array over its storage: each row is that of the storage.
    ///
    /// `BadShape` where the storage does not have the extension's storage type.
    pub fn try_new(alloc: Global, ext: ExtDType, storage: Array) -> Result<Array, ArrayError>
        ensures ok { IfOk result (λ a. a ≡ extension_tree ext storage) }
        ensures sound { IfOk result IsSound }
        ensures err { IfErr result (λ e. RefusesMaking e (extension_tree ext storage)) }
        ensures complete { IsSound (extension_tree ext storage) → IsOkOrMemory result }
    {
        let len = storage.len();
        let mut children = Arrays::new(alloc);
        children.push(storage)?;
        ExtensionArray::of_children(DType::Extension(ext), len, children)
    }

    /// The array of a node of this type and length over these children.
    ///
    /// `BadShape` where they are not one storage of this length and of the extension's storage type.
    pub fn of_children(dtype: DType, len: usize, children: Arrays) -> Result<Array, ArrayError>
        ensures ok { IfOk result (λ a. a ≡ node (untold (typ dtype) len B.ext) children) }
        ensures sound { IfOk result IsSound }
        ensures err { IfErr result (λ e. RefusesMaking e (node (untold (typ dtype) len B.ext) children)) }
        ensures complete { IsSound (node (untold (typ dtype) len B.ext) children) → IsOkOrMemory result }
    {
        let shaped = is_shaped(&dtype, len, children.as_slice());
        over_children(dtype, len, Body::Ext, children.into_vec(), shaped, true)
    }
}

// The storage among the children of a node of this type and length.
#[tactic(auto, using(crate::proofs::Stored::storages))]
pub(crate) fn storage_in<'a>(dtype: &DType, len: usize, children: &'a [Array]) -> &'a Array
    requires { IsSoundNode (untold (typ dtype.now) len B.ext) (roses_of children.now) }
    ensures alone { roses_of children.now ≡ more result.now end }
    ensures rows { (label result.now).len ≡ len }
{
    let _len = len;
    let _dtype = dtype;
    match children {
        [storage, ..] => storage,
        [] => unreachable!(),
    }
}

// The storage type of an extension type; None of any other type.
fn storage_type(dtype: &DType) -> Option<&DType>
    ensures { option_map (λ d. typ d.now) result ≡ storage_of (typ dtype.now) }
{
    match dtype {
        DType::Extension(ext) => Some(ext.storage_dtype()),
        _ => None,
    }
}

// Whether arrays are the children of an extension node: its storage alone.
fn is_shaped(dtype: &DType, len: usize, children: &[Array]) -> bool
    ensures { IsTrue result ↔ IsWellShaped (untold (typ dtype.now) len B.ext) (roses_of children.now) }
{
    match children {
        [storage] => match storage_type(dtype) {
            Some(kind) => stands_at(storage, kind, len),
            None => false,
        },
        _ => false,
    }
}
