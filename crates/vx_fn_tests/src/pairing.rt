//! A plugin of functions of rows, for tests.

ghost use Rattle.vx_fn_tests.specs.Pairing.{pairing_of};

use std::alloc::Global;
use vx_fn_wire::{Arity, PluginError, ScalarFn, ScalarFnPlugin};
use vx_types::{Blob, Id, Name, Names};

/// Gives a function of two children with the metadata as its options; it refuses empty metadata.
#[derive(Drop)]
pub struct Pairing {
    pub id: Id,
}

impl ScalarFnPlugin for Pairing {
    ghost scalar_id = { λ p. p.id };

    ghost scalar_of = { λ p metadata. pairing_of p.id metadata };

    fn id(&self) -> &Id {
        &self.id
    }

    fn deserialize(&self, alloc: Global, metadata: &[u8]) -> Result<ScalarFn, PluginError> {
        if metadata.is_empty() {
            return Err(PluginError::Refused);
        }
        let Ok(id) = self.id.clone(alloc) else {
            return Err(PluginError::OutOfMemory);
        };
        let Ok(options) = Blob::copy_from(alloc, metadata) else {
            return Err(PluginError::OutOfMemory);
        };
        let Ok(text) = Name::new(alloc, "") else {
            return Err(PluginError::OutOfMemory);
        };
        Ok(ScalarFn {
            id,
            options: Some(options),
            text,
            arity: Arity::Exact(2),
            child_names: Names::new(alloc),
            strict: true,
            infallible: false,
        })
    }
}
