//! The names of a node's slots and of its buffers.

ghost use Rattle.std.specs.Prelude.{◌≡◌, ◌<◌, ◌++◌, codes, decimal, length, slice_get, Some, [], IfOk, IfSome, IfNone, IsOkUnless};
ghost use Rattle.vx_trees.specs.Rose.{below, count, label};
ghost use Rattle.vx_types.specs.Seen.{typ};
ghost use Rattle.vx_arrays.specs.Slots.{slot_names, member_names};

mod buffer_name;
mod count;
mod name;

use crate::array::Array;
use crate::body::Body;
use crate::slots::count::slots_of;
use crate::slots::name::slot_of;
use std::alloc::Global;
use vx_rows::{ArrayError, owned_text};
use vx_types::{DType, Name, Names};

impl Array {
    /// How many slots the root has: one for each child that a node of its encoding and type may have, absent or not.
    /// A foreign node has one for each child.
    pub fn nslots(&self) -> usize
        ensures { result ≡ length (slot_names (label self.now).dtype (label self.now).body (count (below self.now))) }
    {
        slots_of(self.dtype(), self.body(), self.children().len())
    }

    /// The name of the root's slot at an index: that of the child which stands there, or may.
    pub fn slot_name(&self, alloc: Global, index: usize) -> Result<Name, ArrayError>
        requires { index < length (slot_names (label self.now).dtype (label self.now).body (count (below self.now))) }
        ensures ok { IfOk result (λ name. slice_get (slot_names (label self.now).dtype (label self.now).body (count (below self.now))) index ≡ Some name) }
        ensures err { IsOkUnless result ArrayError.OutOfMemory }
    {
        match self.body() {
            Body::Foreign(_) => numbered(alloc, "child", index),
            _ => owned_text(alloc, slot_of(self.dtype(), self.body(), index)),
        }
    }
}

// A word with a number in brackets.
pub(crate) fn numbered(alloc: Global, word: &str, index: usize) -> Result<Name, ArrayError>
    ensures ok { IfOk result (λ name. name ≡ word.now ++ (codes "[" ++ (decimal index ++ codes "]"))) }
    ensures err { IsOkUnless result ArrayError.OutOfMemory }
{
    let text = format!(in alloc; "{word}[{index}]")?;
    owned_text(alloc, text.as_str())
}

// The names of the fields of a struct type, and of the members of one of unions.
pub(crate) fn members_of(dtype: &DType) -> Option<&Names>
    ensures some { IfSome result (λ names. names.now ≡ member_names (typ dtype.now)) }
    ensures none { IfNone result (member_names (typ dtype.now) ≡ []) }
{
    match dtype {
        DType::Struct(fields, _) => Some(fields.names()),
        DType::Union(members, _) => Some(members.names()),
        _ => None,
    }
}

// The name of the field or member at an index.
pub(crate) fn member_of(dtype: &DType, index: usize) -> &str
    requires { index < length (member_names (typ dtype.now)) }
    ensures { slice_get (member_names (typ dtype.now)) index ≡ Some result.now }
{
    match members_of(dtype) {
        Some(names) => names.as_slice()[index].as_str(),
        None => unreachable!(),
    }
}
