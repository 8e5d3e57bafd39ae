//! Plugins: the caller's readers of functions.

ghost use Rattle.std.specs.Prelude.{◌≡◌, ℕ, List, Option, Some, None};
ghost use Rattle.vx_types.specs.Seen.{typ};
ghost use Rattle.vx_types.specs.Typ.{Typ};
ghost use Rattle.vx_fn_wire.specs.Plugin.{IsAnswer};
ghost use Rattle.vx_fn_wire.specs.declared.scalar_fn.ScalarFn.{ScalarFn as Scalar};
ghost use Rattle.vx_fn_wire.specs.declared.aggregate_fn.AggregateFn.{AggregateFn as Aggregate};
ghost use Rattle.vx_fn_wire.specs.declared.plugin.PluginError.TheVariants.{OutOfMemory};

use crate::aggregate_fn::AggregateFn;
use crate::scalar_fn::ScalarFn;
use std::alloc::{AllocError, AllocFailed, Global};
use thiserror::Error;
use vx_types::{DType, Id};

/// Why a plugin gives no function.
#[derive(Clone, Copy, Debug, PartialEq, Eq, Error)]
pub enum PluginError {
    /// An allocation failed.
    #[error("out of memory")]
    OutOfMemory,
    /// The plugin refuses the metadata.
    #[error("the plugin refuses")]
    Refused,
}

impl From<AllocError> for PluginError {
    ghost from_gives = { λ _ e. e ≡ OutOfMemory };

    fn from(_: AllocError) -> PluginError {
        PluginError::OutOfMemory
    }
}

impl<T: Drop> From<AllocFailed<T>> for PluginError {
    ghost from_gives = { λ _ e. e ≡ OutOfMemory };

    fn from(_: AllocFailed<T>) -> PluginError {
        PluginError::OutOfMemory
    }
}

/// A caller's reader of the functions of rows of one identifier.
pub trait ScalarFnPlugin: Drop {
    /// The identifier that the plugin is for.
    ghost scalar_id: { Self → List ℕ };

    /// The function that the plugin makes of metadata; None where it refuses the metadata.
    ghost scalar_of: { Self → List ℕ → Option Scalar };

    /// The identifier of the functions.
    fn id(&self) -> &Id
        ensures { result.now ≡ scalar_id self.now };

    /// The function of this metadata. `Refused` exactly where the plugin's meaning refuses it.
    fn deserialize(&self, alloc: Global, metadata: &[u8]) -> Result<ScalarFn, PluginError>
        ensures { IsAnswer (scalar_of self.now metadata.now) result };
}

/// A caller's reader of the aggregate functions of one identifier.
pub trait AggregateFnPlugin: Drop {
    /// The identifier that the plugin is for.
    ghost aggregate_id: { Self → List ℕ };

    /// The function that the plugin makes of metadata; None where it refuses the metadata.
    ghost aggregate_of: { Self → List ℕ → Option Aggregate };

    /// The identifier of the functions.
    fn id(&self) -> &Id
        ensures { result.now ≡ aggregate_id self.now };

    /// The function of this metadata. `Refused` exactly where the plugin's meaning refuses it.
    fn deserialize(&self, alloc: Global, metadata: &[u8]) -> Result<AggregateFn, PluginError>
        ensures { IsAnswer (aggregate_of self.now metadata.now) result };

    /// The function whose results tell zones of rows of a type apart, if there is one; None where the
    /// plugin refuses the type. A plugin that has none for each type is written as a
    /// `PlainAggregateFnPlugin`.
    ghost zone_default: { Self → Typ → Option (Option Aggregate) } = { λ _ _. Some None };

    /// The function whose results tell zones of rows of this type apart, if there is one. `Refused`
    /// exactly where the plugin's meaning refuses the type.
    fn zone_stat_default(
        &self,
        alloc: Global,
        dtype: &DType,
    ) -> Result<Option<AggregateFn>, PluginError>
        ensures { IsAnswer (zone_default self.now (typ dtype.now)) result };
}

/// A caller's reader of the aggregate functions of one identifier, for which no function tells zones
/// of rows apart. Each such plugin is an `AggregateFnPlugin` whose `zone_stat_default` has none for
/// each type. It is a trait of its own, since a body in `AggregateFnPlugin` would be proved of every
/// plugin, whatever its meaning.
pub trait PlainAggregateFnPlugin: Drop {
    /// The identifier that the plugin is for.
    ghost plain_id: { Self → List ℕ };

    /// The function that the plugin makes of metadata; None where it refuses the metadata.
    ghost plain_of: { Self → List ℕ → Option Aggregate };

    /// The identifier of the functions.
    fn id(&self) -> &Id
        ensures { result.now ≡ plain_id self.now };

    /// The function of this metadata. `Refused` exactly where the plugin's meaning refuses it.
    fn deserialize(&self, alloc: Global, metadata: &[u8]) -> Result<AggregateFn, PluginError>
        ensures { IsAnswer (plain_of self.now metadata.now) result };
}

impl<P: PlainAggregateFnPlugin> AggregateFnPlugin for P {
    ghost aggregate_id = { λ plugin. P.plain_id plugin };

    ghost aggregate_of = { λ plugin metadata. P.plain_of plugin metadata };

    fn id(&self) -> &Id {
        PlainAggregateFnPlugin::id(self)
    }

    fn deserialize(&self, alloc: Global, metadata: &[u8]) -> Result<AggregateFn, PluginError> {
        PlainAggregateFnPlugin::deserialize(self, alloc, metadata)
    }

    fn zone_stat_default(
        &self,
        _alloc: Global,
        _dtype: &DType,
    ) -> Result<Option<AggregateFn>, PluginError> {
        Ok(None)
    }
}

/// `id` of a boxed plugin.
pub(crate) fn id_of_scalar(plugin: &Box<dyn ScalarFnPlugin>) -> &Id
    ensures { result.now ≡ scalar_id plugin.now }
{
    plugin.id()
}

/// `id` of a boxed plugin.
pub(crate) fn id_of_aggregate(plugin: &Box<dyn AggregateFnPlugin>) -> &Id
    ensures { result.now ≡ aggregate_id plugin.now }
{
    plugin.id()
}

/// `deserialize` of a boxed plugin.
pub(crate) fn scalar_by(
    alloc: Global,
    plugin: &Box<dyn ScalarFnPlugin>,
    metadata: &[u8],
) -> Result<ScalarFn, PluginError>
    ensures { IsAnswer (scalar_of plugin.now metadata.now) result }
{
    plugin.deserialize(alloc, metadata)
}

/// `deserialize` of a boxed plugin.
pub(crate) fn aggregate_by(
    alloc: Global,
    plugin: &Box<dyn AggregateFnPlugin>,
    metadata: &[u8],
) -> Result<AggregateFn, PluginError>
    ensures { IsAnswer (aggregate_of plugin.now metadata.now) result }
{
    plugin.deserialize(alloc, metadata)
}
