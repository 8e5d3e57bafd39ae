//! The steps of one node, by what reads it: an encoding or a plugin.

ghost use Rattle.std.specs.Prelude.{◌≡◌, Option, Some, IfOk, IfErr, IsSome, IsTrue, IsFalse};
ghost use Rattle.vx_type_wire.specs.Borrowed.{borrowed_meaning};
ghost use Rattle.vx_type_wire.specs.Session.{ext_meaning};
ghost use Rattle.vx_array_tree.specs.Sound.{IsSound};
ghost use Rattle.vx_array_tree.specs.Tree.{places};
ghost use Rattle.vx_wire_tree.specs.Revised.{revised_holds as holds};
ghost use Rattle.vx_wire_tree.specs.Session.{Reader, encoding_by};
ghost use Rattle.vx_encodings.specs.Plain.{plain_encoding};
ghost use Rattle.vx_encodings.specs.Steps.{IsPlanned, IsBuilt};
ghost use Rattle.vx_registry.specs.Meaning.{reader_in, session_meaning};
ghost use Rattle.vx_serialized.specs.Decoding.{PlansBy, RefusesPlan, BuildsBy, RefusesBuild, plugin_refusal};

use crate::error::WireError;
use std::alloc::Global;
use vx_arrays::{Array, Arrays};
use vx_buffer::BufferHandles;
use vx_encodings::{ArrayHead, ChildPlans, Encoding, build, plan, revised_holds};
use vx_registry::{
    ArrayDeserialization, ArrayPlugin, Entry, PluginError, VortexSession, build_by, plan_by,
};
use vx_type_wire::{ExtPlugin, Readers};

/// The plan of a node's children, by an entry.
pub(crate) fn plan_entry(
    alloc: Global,
    entry: Entry,
    head: &ArrayHead,
    session: &VortexSession,
    ext: &Readers,
) -> Result<ChildPlans, WireError>
    requires borrowed { borrowed_meaning (λ r. accepted r.now) ext.now ≡ ext_meaning (λ b. accepted (b.vtable, b.value)) session.now.ext }
    requires within { IsSome (reader_in (λ b. means (b.vtable, b.value)) session.now.arrays entry) }
    ensures plan { let s = session_meaning (λ b. means (b.vtable, b.value)) (λ b. accepted (b.vtable, b.value)) session.now in
        IfOk result (λ ps. PlansBy s.ext (reader_in (λ b. means (b.vtable, b.value)) session.now.arrays entry) head.now ps) }
    ensures cause { let s = session_meaning (λ b. means (b.vtable, b.value)) (λ b. accepted (b.vtable, b.value)) session.now in
        IfErr result (λ e. RefusesPlan e s.ext (reader_in (λ b. means (b.vtable, b.value)) session.now.arrays entry) head.now) }
{
    match entry {
        Entry::Shipped(encoding) => match plan(alloc, encoding, head, &session.ext) {
            Ok(children) => Ok(children),
            Err(e) => Err(WireError::from(e)),
        },
        Entry::Revised => match plan(alloc, Encoding::Primitive, head, &session.ext) {
            Ok(children) => held(head, children),
            Err(e) => Err(WireError::from(e)),
        },
        Entry::Boxed(number) => match session.arrays.plugin(number) {
            Some(plugin) => match plan_by(alloc, plugin, head, ext) {
                Ok(children) => Ok(children),
                Err(e) => Err(plugin_error(e)),
            },
            None => unreachable!(),
        },
    }
}

/// The array that an entry builds of a node's parts.
pub(crate) fn build_entry(
    alloc: Global,
    entry: Entry,
    head: ArrayHead,
    buffers: BufferHandles,
    children: Arrays,
    session: &VortexSession,
    ext: &Readers,
) -> Result<Array, WireError>
    requires borrowed { borrowed_meaning (λ r. accepted r.now) ext.now ≡ ext_meaning (λ b. accepted (b.vtable, b.value)) session.now.ext }
    requires within { IsSome (reader_in (λ b. means (b.vtable, b.value)) session.now.arrays entry) }
    requires planned { let s = session_meaning (λ b. means (b.vtable, b.value)) (λ b. accepted (b.vtable, b.value)) session.now in
        PlansBy s.ext (reader_in (λ b. means (b.vtable, b.value)) session.now.arrays entry) head (places children) }
    ensures built { let s = session_meaning (λ b. means (b.vtable, b.value)) (λ b. accepted (b.vtable, b.value)) session.now in
        IfOk result (λ t. BuildsBy s.ext (reader_in (λ b. means (b.vtable, b.value)) session.now.arrays entry) head buffers children t) }
    ensures sound { IfOk result IsSound }
    ensures cause { let s = session_meaning (λ b. means (b.vtable, b.value)) (λ b. accepted (b.vtable, b.value)) session.now in
        IfErr result (λ e. RefusesBuild e s.ext (reader_in (λ b. means (b.vtable, b.value)) session.now.arrays entry) head buffers children) }
{
    match entry {
        Entry::Shipped(encoding) => build_of(alloc, encoding, head, buffers, children, session),
        Entry::Revised => build_of(alloc, Encoding::Primitive, head, buffers, children, session),
        Entry::Boxed(number) => match session.arrays.plugin(number) {
            Some(plugin) => {
                let parts = ArrayDeserialization::new(
                    head.serialized_id,
                    head.dtype,
                    head.len,
                    head.metadata,
                    buffers,
                    children,
                );
                match build_by(alloc, plugin, parts, ext) {
                    Ok(array) => Ok(array),
                    Err(e) => Err(plugin_error(e)),
                }
            }
            None => unreachable!(),
        },
    }
}

// The array that an encoding builds of a node's parts, whatever entry it reads by.
fn build_of(
    alloc: Global,
    encoding: Encoding,
    head: ArrayHead,
    buffers: BufferHandles,
    children: Arrays,
    session: &VortexSession,
) -> Result<Array, WireError>
    requires { let x = ext_meaning (λ b. accepted (b.vtable, b.value)) session.now.ext in IsPlanned x encoding head (places children) }
    ensures built { let x = ext_meaning (λ b. accepted (b.vtable, b.value)) session.now.ext in IfOk result (λ t. IsBuilt x encoding head buffers children t) }
    ensures sound { IfOk result IsSound }
    ensures cause { let x = ext_meaning (λ b. accepted (b.vtable, b.value)) session.now.ext in
        (r : Option Reader) → encoding_by r ≡ Some (plain_encoding encoding) → IfErr result (λ e. RefusesBuild e x r head buffers children) }
{
    match build(alloc, encoding, head, buffers, children, &session.ext) {
        Ok(array) => Ok(array),
        Err(e) => Err(WireError::from(e)),
    }
}

// The plan of a node of primitives under two identifiers, where its identifier holds its length.
fn held(head: &ArrayHead, children: ChildPlans) -> Result<ChildPlans, WireError>
    ensures ok { IfOk result (λ ps. (ps ≡ children) × IsTrue (holds head.now.serialized_id head.now.len)) }
    ensures err { IfErr result (λ e. (e ≡ WireError.BadShape) × IsFalse (holds head.now.serialized_id head.now.len)) }
{
    if !revised_holds(&head.serialized_id, head.len) {
        return Err(WireError::BadShape);
    }
    Ok(children)
}

// A plugin's refusal as one of a blob.
fn plugin_error(error: PluginError) -> WireError
    ensures { result ≡ plugin_refusal error }
{
    match error {
        PluginError::OutOfMemory => WireError::OutOfMemory,
        PluginError::Refused => WireError::PluginRefused,
    }
}
