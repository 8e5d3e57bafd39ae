//! An array's root as it is written, by what writes it.

ghost use Rattle.std.specs.Prelude.{◌≡◌, IfOk, IfErr, OnOk};
ghost use Rattle.vx_trees.specs.Rose.{label, below};
ghost use Rattle.vx_types.specs.Known.{ExtMeaning};
ghost use Rattle.vx_wire_tree.specs.Context.{is_among};
ghost use Rattle.vx_wire_tree.specs.Limits.{HasMessage};
ghost use Rattle.vx_wire_tree.specs.Taken.{step, plugin_step};
ghost use Rattle.vx_wire_tree.specs.Written.{writes_two};
ghost use Rattle.vx_registry.specs.Meaning.{arrays_meaning};
ghost use Rattle.vx_registry.specs.Serialization.{HasPartsOf, RefusesPartsOf, IsSerializedAs, RefusesSerializing, IsRootOf};

use crate::array_session::ArraySession;
use crate::error::RegistryError;
use crate::named::named;
use crate::plugin::{ArrayPlugin, PluginError, ids_of, serialize_by};
use crate::serialization::ArraySerialization;
use crate::tables::Entry;
use std::alloc::Global;
use vx_arrays::Array;
use vx_types::{Id, Ids};

/// How an array's root is written. An unchanged root is a case of its own, so that none of its parts is copied.
#[derive(Drop)]
pub enum WrittenRoot {
    /// Unchanged: by its encoding, or as the foreign node that it is.
    Own,
    /// As the parts that its plugin gives.
    Given(ArraySerialization),
    /// Not at all: its plugin has no form for it.
    Nothing,
}

/// How an array's root is written by an entry of the session, or, where it is foreign, where such nodes are allowed
/// (`unknown`). Its metadata is not looked at.
///
/// Refuses with `NotRegistered` where nothing writes it or it is foreign and such nodes are not allowed, `UndeclaredId`
/// where its plugin names an identifier that it does not declare, and `PluginRefused` where its plugin refuses it.
pub fn written_root(
    alloc: Global,
    array: &Array,
    arrays: &ArraySession,
    unknown: bool,
) -> Result<WrittenRoot, RegistryError>
    ensures root { (x : ExtMeaning) → x.unknown ≡ unknown → IfOk result (IsRootOf array.now (step (arrays_meaning means arrays.now x) array.now)) }
    ensures cause { (x : ExtMeaning) → x.unknown ≡ unknown → IfErr result (λ e. RefusesSerializing e (step (arrays_meaning means arrays.now x) array.now)) }
{
    if array.is_foreign() {
        if !unknown {
            return Err(RegistryError::NotRegistered);
        }
        return Ok(WrittenRoot::Own);
    }
    let id = named(alloc, array.encoding_id())?;
    match arrays.writer(&id) {
        Some(Entry::Shipped(_)) => Ok(WrittenRoot::Own),
        Some(Entry::Revised) => Ok(WrittenRoot::Own),
        Some(Entry::Boxed(number)) => match arrays.plugin(number) {
            Some(plugin) => given_root(alloc, plugin, array),
            None => Err(RegistryError::NotRegistered),
        },
        None => Err(RegistryError::NotRegistered),
    }
}

// What a plugin gives for an array, where the plugin declares the identifier.
fn given_root(
    alloc: Global,
    plugin: &Box<dyn ArrayPlugin>,
    array: &Array,
) -> Result<WrittenRoot, RegistryError>
    ensures root { IfOk result (IsRootOf array.now (plugin_step (means plugin.now) (label array.now) ((means plugin.now).serialize array.now))) }
    ensures cause { IfErr result (λ e. RefusesSerializing e (plugin_step (means plugin.now) (label array.now) ((means plugin.now).serialize array.now))) }
{
    let parts = match serialize_by(alloc, plugin, array) {
        Ok(Some(parts)) => parts,
        Ok(None) => return Ok(WrittenRoot::Nothing),
        Err(PluginError::OutOfMemory) => return Err(RegistryError::OutOfMemory),
        Err(PluginError::Refused) => return Err(RegistryError::PluginRefused),
    };
    let Ok(ids) = ids_of(alloc, plugin) else {
        return Err(RegistryError::OutOfMemory);
    };
    if !is_among(&ids, &parts.serialized_id) {
        return Err(RegistryError::UndeclaredId);
    }
    Ok(WrittenRoot::Given(parts))
}

/// An array's root as it is written, where foreign nodes are allowed (`unknown`) or not: its parts, or `None` where its
/// plugin has no form for it. The refusals are those of `written_root`, and `WireLimit` where a root that is written
/// unchanged has metadata that does not fit its message.
pub fn serialize_root(
    alloc: Global,
    array: &Array,
    arrays: &ArraySession,
    unknown: bool,
) -> Result<Option<ArraySerialization>, RegistryError>
    ensures parts { (x : ExtMeaning) → x.unknown ≡ unknown → IfOk result (IsSerializedAs (arrays_meaning means arrays.now x) (step (arrays_meaning means arrays.now x) array.now)) }
    ensures cause { (x : ExtMeaning) → x.unknown ≡ unknown → IfErr result (λ e. RefusesSerializing e (step (arrays_meaning means arrays.now x) array.now)) }
{
    match written_root(alloc, array, arrays, unknown)? {
        WrittenRoot::Own => Ok(Some(own_parts(alloc, array, arrays)?)),
        WrittenRoot::Given(parts) => Ok(Some(parts)),
        WrittenRoot::Nothing => Ok(None),
    }
}

// The parts of a root that is written unchanged.
fn own_parts(
    alloc: Global,
    array: &Array,
    arrays: &ArraySession,
) -> Result<ArraySerialization, RegistryError>
    ensures parts { (x : ExtMeaning) → IfOk result (HasPartsOf (writes_two (arrays_meaning means arrays.now x)) array.now) }
    ensures fits { OnOk result (HasMessage (label array.now) (below array.now)) }
    ensures err { IfErr result (λ e. RefusesPartsOf e array.now) }
{
    let two = match arrays.writes_two(alloc) {
        Ok(two) => two,
        Err(_) => return Err(RegistryError::OutOfMemory),
    };
    ArraySerialization::written_as(alloc, array, two)
}

// Whether an identifier is one of several.
fn is_among(ids: &Ids, id: &Id) -> bool
    ensures { result ≡ is_among id.now ids.now }
{
    for other in ids.as_slice() {
        if *id == *other {
            return true;
        }
    }
    false
}
