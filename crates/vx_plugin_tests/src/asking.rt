//! A plugin that asks the session's readers of extensions.

ghost use Rattle.std.specs.Prelude.{◌≡◌};
ghost use Rattle.vx_type_wire.specs.Borrowed.{borrowed_meaning};
ghost use Rattle.vx_types.specs.Seen.{typ};
ghost use Rattle.vx_plugin_tests.specs.Asking.{is_accepted};
ghost use Rattle.vx_plugin_tests.specs.Meanings.{asking};

use crate::named::{named, push};
use crate::odd::{own_child, own_place};
use std::alloc::{AllocError, Global};
use vx_arrays::Array;
use vx_encodings::{ArrayHead, ChildPlans};
use vx_registry::{ArrayDeserialization, ArrayPlugin, ArraySerialization, PluginError};
use vx_type_wire::{ExtPlugin, Readers};
use vx_types::{DType, Id, Ids};

/// A plugin that reads a node as its one child, where the session accepts the extension that the node is of, if it is
/// of one. It writes nothing.
#[derive(Drop)]
pub struct Asking {
    id: Id,
}

impl Asking {
    /// The plugin of nodes of an identifier of its own.
    pub fn new(alloc: Global) -> Result<Asking, AllocError> {
        Ok(Asking {
            id: named(alloc, "vortex.test.asking")?,
        })
    }
}

// Whether the readers accept a type, if it is that of an extension.
fn accepts(dtype: &DType, ext: &Readers) -> bool
    ensures { result ≡ is_accepted (borrowed_meaning (λ r. accepted r.now) ext.now) (typ dtype.now) }
{
    match dtype {
        DType::Extension(it) => ext.accepts(it.id(), it.metadata().as_slice(), it.storage_dtype()),
        _ => true,
    }
}

impl ArrayPlugin for Asking {
    ghost means = { λ p. asking p.id };

    fn id(&self) -> &Id {
        &self.id
    }

    fn serialized_ids(&self, alloc: Global) -> Result<Ids, PluginError> {
        let mut ids = Ids::new(alloc);
        push(alloc, &self.id, &mut ids)?;
        Ok(ids)
    }

    fn serialize(
        &self,
        _alloc: Global,
        _array: &Array,
    ) -> Result<Option<ArraySerialization>, PluginError> {
        Err(PluginError::Refused)
    }

    fn plan(
        &self,
        alloc: Global,
        head: &ArrayHead,
        ext: &Readers,
    ) -> Result<ChildPlans, PluginError> {
        if !accepts(&head.dtype, ext) || head.nchildren != 1 {
            return Err(PluginError::Refused);
        }
        own_place(alloc, &head.dtype, head.len)
    }

    fn build(
        &self,
        alloc: Global,
        parts: ArrayDeserialization,
        _ext: &Readers,
    ) -> Result<Array, PluginError> {
        own_child(alloc, &parts)
    }

    fn is_supported_encoding(&self, _encoding: &Id) -> bool {
        true
    }
}
