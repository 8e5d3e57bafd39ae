//! Plugins of aggregate functions, for tests.

ghost use Rattle.std.specs.Prelude.{None, Some, option_map};

use std::alloc::Global;
use vx_fn_wire::{AggregateFn, AggregateFnPlugin, PlainAggregateFnPlugin, PluginError};
use vx_types::{Blob, DType, Id};

/// A plugin that makes a function of an identifier, which may be another than its own, with the metadata as its
/// options. It refuses all metadata where it has no such identifier.
#[derive(Drop)]
pub struct Echo {
    pub id: Id,
    pub gives: Option<Id>,
}

impl PlainAggregateFnPlugin for Echo {
    ghost plain_id = { λ p. p.id };

    ghost plain_of = { λ p metadata. option_map (λ id. record { id = id; options = Some metadata }) p.gives };

    fn id(&self) -> &Id {
        &self.id
    }

    fn deserialize(&self, alloc: Global, metadata: &[u8]) -> Result<AggregateFn, PluginError> {
        let Some(id) = &self.gives else {
            return Err(PluginError::Refused);
        };
        let Ok(id) = id.clone(alloc) else {
            return Err(PluginError::OutOfMemory);
        };
        let Ok(metadata) = Blob::copy_from(alloc, metadata) else {
            return Err(PluginError::OutOfMemory);
        };
        Ok(AggregateFn {
            id,
            options: Some(metadata),
        })
    }
}

/// A plugin that tells zones of rows of each type apart by the function of its identifier, without options.
#[derive(Drop)]
pub struct Zoned {
    pub id: Id,
}

impl AggregateFnPlugin for Zoned {
    ghost aggregate_id = { λ p. p.id };

    ghost aggregate_of = { λ p _. Some (record { id = p.id; options = None }) };

    ghost zone_default = { λ p _. Some (Some (record { id = p.id; options = None })) };

    fn id(&self) -> &Id {
        &self.id
    }

    fn deserialize(&self, alloc: Global, _metadata: &[u8]) -> Result<AggregateFn, PluginError> {
        let Ok(id) = self.id.clone(alloc) else {
            return Err(PluginError::OutOfMemory);
        };
        Ok(AggregateFn { id, options: None })
    }

    fn zone_stat_default(
        &self,
        alloc: Global,
        _dtype: &DType,
    ) -> Result<Option<AggregateFn>, PluginError> {
        Ok(Some(self.deserialize(alloc, &[])?))
    }
}
