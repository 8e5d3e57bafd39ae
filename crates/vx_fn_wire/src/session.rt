//! Sessions: the functions that a caller knows.

ghost use Rattle.std.specs.Prelude.{◌≡◌, ℕ, List, None, Some, cond, bytes_eq, OnOk, OnErr, IsOkUnless};
ghost use Rattle.vx_fn_wire.specs.Session.{scalars_meaning, aggregates_meaning};

use crate::error::FnWireError;
use crate::plugin::{AggregateFnPlugin, ScalarFnPlugin, id_of_aggregate, id_of_scalar};
use std::alloc::Global;
use std::collections::HashMap;
use vx_types::{Id, or_memory};

/// The functions of rows that a caller knows: one plugin for each identifier.
#[derive(Drop)]
pub struct ScalarFnSession {
    pub(crate) plugins: HashMap<Id, Box<dyn ScalarFnPlugin>>,
    alloc: Global,
}

impl ScalarFnSession {
    /// A session without plugins, which takes no memory. Later ones are stored with this allocator.
    pub fn new(alloc: Global) -> ScalarFnSession
        ensures { (id : List ℕ) → scalars_meaning scalar_of result id ≡ None }
    {
        ScalarFnSession {
            plugins: HashMap::new(alloc),
            alloc,
        }
    }

    /// Sets the plugin of its identifier, in place of an earlier one. The only refusal is `OutOfMemory`:
    /// the session then stays as it was, and the plugin is dropped.
    pub fn register(&mut self, plugin: Box<dyn ScalarFnPlugin>) -> Result<(), FnWireError>
        ensures set { OnOk result ((id : List ℕ) → scalars_meaning scalar_of self.new id
            ≡ cond (bytes_eq (scalar_id plugin) id) (Some (scalar_of plugin)) (scalars_meaning scalar_of self.old id)) }
        ensures kept { OnErr result ((id : List ℕ) → scalars_meaning scalar_of self.new id ≡ scalars_meaning scalar_of self.old id) }
        ensures err { IsOkUnless result FnWireError.OutOfMemory }
    {
        let id = or_memory(id_of_scalar(&plugin).clone(self.alloc))?;
        self.plugins.insert(id, plugin)?;
        Ok(())
    }

    /// The plugins by their identifiers.
    pub fn registry(&self) -> &HashMap<Id, Box<dyn ScalarFnPlugin>>
        ensures { result.now ≡ self.now.plugins }
    {
        &self.plugins
    }
}

/// The aggregate functions that a caller knows: one plugin for each identifier.
#[derive(Drop)]
pub struct AggregateFnSession {
    pub(crate) plugins: HashMap<Id, Box<dyn AggregateFnPlugin>>,
    alloc: Global,
}

impl AggregateFnSession {
    /// A session without plugins, which takes no memory. Later ones are stored with this allocator.
    pub fn new(alloc: Global) -> AggregateFnSession
        ensures functions { (id : List ℕ) → aggregates_meaning aggregate_of result id ≡ None }
        ensures zones { (id : List ℕ) → aggregates_meaning zone_default result id ≡ None }
    {
        AggregateFnSession {
            plugins: HashMap::new(alloc),
            alloc,
        }
    }

    /// Sets the plugin of its identifier, in place of an earlier one. The only refusal is `OutOfMemory`:
    /// the session then stays as it was, and the plugin is dropped.
    pub fn register(&mut self, plugin: Box<dyn AggregateFnPlugin>) -> Result<(), FnWireError>
        ensures set { OnOk result ((id : List ℕ) → aggregates_meaning aggregate_of self.new id
            ≡ cond (bytes_eq (aggregate_id plugin) id) (Some (aggregate_of plugin)) (aggregates_meaning aggregate_of self.old id)) }
        ensures set_zones { OnOk result ((id : List ℕ) → aggregates_meaning zone_default self.new id
            ≡ cond (bytes_eq (aggregate_id plugin) id) (Some (zone_default plugin)) (aggregates_meaning zone_default self.old id)) }
        ensures kept { OnErr result ((id : List ℕ) → aggregates_meaning aggregate_of self.new id ≡ aggregates_meaning aggregate_of self.old id) }
        ensures kept_zones { OnErr result ((id : List ℕ) → aggregates_meaning zone_default self.new id ≡ aggregates_meaning zone_default self.old id) }
        ensures err { IsOkUnless result FnWireError.OutOfMemory }
    {
        let id = or_memory(id_of_aggregate(&plugin).clone(self.alloc))?;
        self.plugins.insert(id, plugin)?;
        Ok(())
    }

    /// The plugins by their identifiers.
    pub fn registry(&self) -> &HashMap<Id, Box<dyn AggregateFnPlugin>>
        ensures { result.now ≡ self.now.plugins }
    {
        &self.plugins
    }
}

/// The functions that a caller knows, and whether others are read as foreign ones.
#[derive(Drop)]
pub struct FnSession {
    /// The functions of rows.
    pub scalars: ScalarFnSession,
    /// The aggregate functions.
    pub aggregates: AggregateFnSession,
    /// Whether identifiers without a plugin are read as foreign functions.
    pub unknown: bool,
}
