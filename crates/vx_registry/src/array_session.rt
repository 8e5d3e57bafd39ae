//! What a session holds of encodings and plugins.

ghost use Rattle.std.specs.Prelude.{length};
ghost use Rattle.vx_registry.specs.Session.{AreWithin};

use crate::plugin::ArrayPlugin;
use crate::tables::Tables;
use std::alloc::Global;

/// The encodings and the caller's plugins by which arrays are read and written, each by its identifier.
#[derive(Drop)]
pub struct ArraySession {
    pub(crate) plugins: Vec<Box<dyn ArrayPlugin>>,
    pub(crate) tables: Tables,
    pub(crate) alloc: Global,
    // Each plugin number in the tables is that of a plugin.
    pub(crate) ghost in_range: { AreWithin tables (length plugins.items) },
}
