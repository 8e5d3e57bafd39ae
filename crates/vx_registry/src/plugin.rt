//! Plugins: the caller's readers and writers of arrays.

ghost use Rattle.std.specs.Prelude.{◌≡◌, IfOk, IsOkUnless};
ghost use Rattle.vx_type_wire.specs.Borrowed.{borrowed_meaning};
ghost use Rattle.vx_wire_tree.specs.Plugin.{PluginMeaning};
ghost use Rattle.vx_registry.specs.Plugin.{IsAnswer, IsWrittenAs, head_in, read_head};
ghost use Rattle.vx_registry.specs.declared.plugin.PluginError.TheVariants.{OutOfMemory};

use crate::serialization::{ArrayDeserialization, ArraySerialization};
use std::alloc::{AllocError, AllocFailed, Global};
use thiserror::Error;
use vx_arrays::Array;
use vx_encodings::{ArrayHead, ChildPlans};
use vx_type_wire::{ExtPlugin, Readers};
use vx_types::{Id, Ids};

/// Why a plugin returns nothing.
#[derive(Clone, Copy, Debug, PartialEq, Eq, Error)]
pub enum PluginError {
    /// An allocation failed.
    #[error("out of memory")]
    OutOfMemory,
    /// The plugin refuses what it was given.
    #[error("the plugin refuses")]
    Refused,
}

impl From<AllocError> for PluginError {
    ghost from_gives = { λ _ e. e ≡ OutOfMemory };

    fn from(_: AllocError) -> PluginError {
        PluginError::OutOfMemory
    }
}

impl<T: Drop> From<AllocFailed<T>> for PluginError {
    ghost from_gives = { λ _ e. e ≡ OutOfMemory };

    fn from(_: AllocFailed<T>) -> PluginError {
        PluginError::OutOfMemory
    }
}

/// A caller's reader and writer: a form of its own for the arrays of one encoding, under identifiers of its own.
///
/// Its meaning (`means`) says what each method returns, allocation failure aside, and brings the laws that it keeps. It
/// plans one place for each child. Of children that stand there it builds arrays of the type and the length that are
/// asked for, of an encoding that it supports. What it gave for a sound and normal array it plans and builds again as
/// that array.
pub trait ArrayPlugin: Drop {
    /// The meaning of the plugin: plain functions with their laws.
    ghost means: { Self → PluginMeaning };

    /// The identifier of the encoding whose arrays the plugin writes.
    fn id(&self) -> &Id
        ensures { result.now ≡ (means self.now).id };

    /// The identifiers that the plugin declares: those of the nodes that it writes and those that it reads. The only
    /// refusal is `OutOfMemory`.
    fn serialized_ids(&self, alloc: Global) -> Result<Ids, PluginError>
        ensures declared { IfOk result (λ ids. ids ≡ (means self.now).declared) }
        ensures err { IsOkUnless result PluginError.OutOfMemory };

    /// The parts as which an array is written: `None` where the plugin has no form for it, and `Refused` where it
    /// refuses the array.
    fn serialize(
        &self,
        alloc: Global,
        array: &Array,
    ) -> Result<Option<ArraySerialization>, PluginError>
        ensures { IsWrittenAs ((means self.now).serialize array.now) result };

    /// The type and length of each child of a node, in order; `Refused` where the plugin refuses the head. The
    /// extension readers are borrowed from the session.
    fn plan(
        &self,
        alloc: Global,
        head: &ArrayHead,
        ext: &Readers,
    ) -> Result<ChildPlans, PluginError>
        ensures { IsAnswer ((means self.now).plan (head_in head.now) (borrowed_meaning (λ r. accepted r.now) ext.now)) result };

    /// The array of a node's parts, whose statistics the reader sets afterwards; `Refused` where the plugin refuses the
    /// parts.
    fn build(
        &self,
        alloc: Global,
        parts: ArrayDeserialization,
        ext: &Readers,
    ) -> Result<Array, PluginError>
        ensures { IsAnswer ((means self.now).build (read_head parts) parts.buffers parts.children (borrowed_meaning (λ r. accepted r.now) ext.now)) result };

    /// Whether the plugin may build arrays of the encoding of this identifier.
    fn is_supported_encoding(&self, encoding: &Id) -> bool
        ensures { result ≡ (means self.now).supported encoding.now };
}

/// `id` of a boxed plugin.
pub(crate) fn id_of(plugin: &Box<dyn ArrayPlugin>) -> &Id
    ensures { result.now ≡ (means plugin.now).id }
{
    plugin.id()
}

/// `serialized_ids` of a boxed plugin.
pub(crate) fn ids_of(alloc: Global, plugin: &Box<dyn ArrayPlugin>) -> Result<Ids, PluginError>
    ensures declared { IfOk result (λ ids. ids ≡ (means plugin.now).declared) }
    ensures err { IsOkUnless result PluginError.OutOfMemory }
{
    plugin.serialized_ids(alloc)
}

/// `serialize` of a boxed plugin.
pub(crate) fn serialize_by(
    alloc: Global,
    plugin: &Box<dyn ArrayPlugin>,
    array: &Array,
) -> Result<Option<ArraySerialization>, PluginError>
    ensures { IsWrittenAs ((means plugin.now).serialize array.now) result }
{
    plugin.serialize(alloc, array)
}

/// `plan` of a boxed plugin.
pub fn plan_by(
    alloc: Global,
    plugin: &Box<dyn ArrayPlugin>,
    head: &ArrayHead,
    ext: &Readers,
) -> Result<ChildPlans, PluginError>
    ensures { IsAnswer ((means plugin.now).plan (head_in head.now) (borrowed_meaning (λ r. accepted r.now) ext.now)) result }
{
    plugin.plan(alloc, head, ext)
}

/// `build` of a boxed plugin.
pub fn build_by(
    alloc: Global,
    plugin: &Box<dyn ArrayPlugin>,
    parts: ArrayDeserialization,
    ext: &Readers,
) -> Result<Array, PluginError>
    ensures { IsAnswer ((means plugin.now).build (read_head parts) parts.buffers parts.children (borrowed_meaning (λ r. accepted r.now) ext.now)) result }
{
    plugin.build(alloc, parts, ext)
}
