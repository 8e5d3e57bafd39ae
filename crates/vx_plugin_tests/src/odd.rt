//! Plugins that do not write what they are asked for.

ghost use Rattle.std.specs.Prelude.{◌≡◌, ◌∷◌, [], IfOk, IsOkUnless, Some};
ghost use Rattle.vx_types.specs.Seen.{typ};
ghost use Rattle.vx_array_tree.specs.Place.{place};
ghost use Rattle.vx_wire_tree.specs.Plugin.{given};
ghost use Rattle.vx_registry.specs.Plugin.{IsAnswer, IsWrittenAs};
ghost use Rattle.vx_plugin_tests.specs.Meanings.{odd};
ghost use Rattle.vx_plugin_tests.specs.Odd.{over, odd_build};

use crate::named::{copied, named, push};
use crate::versioned::copy_of;
use std::alloc::{AllocError, Global};
use vx_arrays::{Array, Arrays};
use vx_buffer::BufferHandles;
use vx_encodings::{ArrayHead, ChildPlan, ChildPlans};
use vx_registry::{ArrayDeserialization, ArrayPlugin, ArraySerialization, PluginError};
use vx_type_wire::Readers;
use vx_types::{Blob, DType, Id, Ids};

/// What such a plugin does with an array.
#[derive(Clone, Copy, Debug, PartialEq, Eq)]
pub enum Oddity {
    /// It has no form for it.
    Formless,
    /// It refuses it.
    Unwilling,
    /// It writes it over the array itself, under an identifier that it does not declare.
    Undeclared,
    /// It writes it over the array itself, and that again in the same way, without an end.
    Endless,
}

/// A plugin for the arrays of one encoding. It reads a node as its one child.
#[derive(Drop)]
pub struct Odd {
    id: Id,
    other: Id,
    does: Oddity,
}

impl Odd {
    /// The plugin of the encoding of this identifier.
    pub fn new(alloc: Global, id: &str, does: Oddity) -> Result<Odd, AllocError> {
        Ok(Odd {
            id: named(alloc, id)?,
            other: named(alloc, "vortex.test.undeclared")?,
            does,
        })
    }
}

// An array over itself, under an identifier.
fn written_over(
    alloc: Global,
    id: &Id,
    array: &Array,
) -> Result<Option<ArraySerialization>, PluginError>
    ensures { IsWrittenAs (given (over id.now array.now)) result }
{
    let id = copied(alloc, id)?;
    let metadata = Blob::new(Vec::new(alloc));
    let buffers = BufferHandles::new(alloc);
    let mut children = Arrays::new(alloc);
    match children.push(copy_of(alloc, array)?) {
        Ok(()) => Ok(Some(ArraySerialization::new(id, metadata, buffers, children))),
        Err(_) => Err(PluginError::OutOfMemory),
    }
}

/// The plan of one child, of this type and length.
pub(crate) fn own_place(alloc: Global, dtype: &DType, len: usize) -> Result<ChildPlans, PluginError>
    ensures ok { IfOk result (λ ps. ps ≡ place (typ dtype.now) len ∷ []) }
    ensures err { IsOkUnless result PluginError.OutOfMemory }
{
    let Ok(dtype) = dtype.clone(alloc) else {
        return Err(PluginError::OutOfMemory);
    };
    let mut plans = ChildPlans::new(alloc);
    match plans.push(ChildPlan { dtype, len }) {
        Ok(()) => Ok(plans),
        Err(_) => Err(PluginError::OutOfMemory),
    }
}

/// The first of a node's children.
pub(crate) fn own_child(alloc: Global, parts: &ArrayDeserialization) -> Result<Array, PluginError>
    ensures { IsAnswer (odd_build parts.now.children) result }
{
    match parts.children.as_slice().get(0) {
        Some(child) => copy_of(alloc, child),
        None => Err(PluginError::Refused),
    }
}

impl ArrayPlugin for Odd {
    ghost means = { λ p. odd p.does p.id p.other };

    fn id(&self) -> &Id {
        &self.id
    }

    fn serialized_ids(&self, alloc: Global) -> Result<Ids, PluginError> {
        let mut ids = Ids::new(alloc);
        push(alloc, &self.id, &mut ids)?;
        Ok(ids)
    }

    fn serialize(
        &self,
        alloc: Global,
        array: &Array,
    ) -> Result<Option<ArraySerialization>, PluginError> {
        match self.does {
            Oddity::Formless => Ok(None),
            Oddity::Unwilling => Err(PluginError::Refused),
            Oddity::Undeclared => written_over(alloc, &self.other, array),
            Oddity::Endless => written_over(alloc, &self.id, array),
        }
    }

    fn plan(
        &self,
        alloc: Global,
        head: &ArrayHead,
        _ext: &Readers,
    ) -> Result<ChildPlans, PluginError> {
        if head.nchildren != 1 {
            return Err(PluginError::Refused);
        }
        own_place(alloc, &head.dtype, head.len)
    }

    fn build(
        &self,
        alloc: Global,
        parts: ArrayDeserialization,
        _ext: &Readers,
    ) -> Result<Array, PluginError> {
        own_child(alloc, &parts)
    }

    fn is_supported_encoding(&self, _encoding: &Id) -> bool {
        true
    }
}
