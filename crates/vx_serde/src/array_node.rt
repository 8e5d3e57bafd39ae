//! The node of an array in a message that a caller builds.

ghost use Rattle.std.specs.Prelude.{◌≡◌, ◌≤◌, ◌<◌, ◌^◌, Some, length, IfOk, IfErr, OnOk, OnErr, IsOk};
ghost use Rattle.vx_flat.specs.Building.{Takes, Written, Keeps};
ghost use Rattle.vx_trees.specs.Walks.{levels};
ghost use Rattle.vx_wire_tree.specs.Context.{grown};
ghost use Rattle.vx_wire_tree.specs.Session.{SessionMeaning};
ghost use Rattle.vx_wire_tree.specs.Taken.{IsTaken};
ghost use Rattle.vx_wire_tree.specs.Wire.{ids_in};
ghost use Rattle.vx_wire_tree.specs.Written.{writes_two, wire};
ghost use Rattle.vx_encodings.specs.Messages.{codec};
ghost use Rattle.vx_registry.specs.Meaning.{session_meaning};
ghost use Rattle.vx_serde.specs.ArrayNode.{plain_options, array_value, array_pieces, RefusesBlocks};
ghost use Rattle.vx_serialized.specs.ArraySchema.{array_schema, node_fields};
ghost use Rattle.vx_serde.specs.Causes.{RefusesArray};
ghost use Rattle.vx_serde.specs.KeptContext.{KeepsContext};
ghost use Rattle.vx_serde.specs.Taking.{as_written};

use crate::gathering::{Gathered, gather};
use crate::limits::{MAX_BUFFERS, MAX_LEVELS, MAX_NODES};
use crate::node_ref::NodeRef;
use crate::nodes::{Passed, write_node};
use crate::taken::{Source, TakenNode, take};
use std::alloc::Global;
use vx_arrays::Array;
use vx_flat::{Builder, LinkKind};
use vx_registry::{ArrayContext, VortexSession};
use vx_serialized::WireError;

/// An array as a node of a message that a caller builds block by block. A context numbers the identifiers of its
/// encodings. The message is the caller's, so its weight is the caller's to judge, and the limits here are those
/// without `deep`.
#[derive(Drop)]
pub struct ArrayNodeFlatBuffer<'a> {
    ctx: &'a mut ArrayContext,
    array: TakenNode<'a>,
    two: bool,
}

impl<'a> ArrayNodeFlatBuffer<'a> {
    /// The array, where each of its nodes can be written. Nothing is taken into the context yet: these refusals come
    /// before the context or a builder has changed.
    ///
    /// # Errors
    /// `WireLimit` where the array as it is written has over 62 levels or a node's metadata does not fit its message;
    /// `NotRegistered` where nothing writes the arrays of a node's encoding, or a node is foreign and the session does
    /// not allow such nodes; and `NotSerializable`, `UndeclaredId` and `PluginRefused` where the plugin that writes a
    /// node has no form for it, names an identifier that it does not declare, or refuses it.
    pub fn try_new(
        alloc: Global,
        ctx: &'a mut ArrayContext,
        session: &VortexSession,
        array: &'a Array,
    ) -> Result<ArrayNodeFlatBuffer<'a>, WireError>
        ensures same_reference { IfOk result (λ n. n.ctx.ghost_name ≡ ctx.entry.ghost_name) }
        ensures context { IfOk result (λ n. n.ctx.now ≡ ctx.old) }
        ensures array { let s = session_meaning (λ b. means (b.vtable, b.value)) (λ b. accepted (b.vtable, b.value)) session.now in IfOk result (λ n. n.array ≡ as_written s plain_options array.now) }
        ensures two { let s = session_meaning (λ b. means (b.vtable, b.value)) (λ b. accepted (b.vtable, b.value)) session.now in IfOk result (λ n. writes_two s ≡ n.two) }
        ensures levels { IfOk result (λ n. levels n.array ≤ 62) }
        ensures taken { let s = session_meaning (λ b. means (b.vtable, b.value)) (λ b. accepted (b.vtable, b.value)) session.now in OnOk result (IsTaken s 62 array.now) }
        ensures cause { let s = session_meaning (λ b. means (b.vtable, b.value)) (λ b. accepted (b.vtable, b.value)) session.now in IfErr result (RefusesArray s array.now ctx.old plain_options) }
    {
        let two = match session.arrays.writes_two(alloc) {
            Ok(two) => two,
            Err(_) => return Err(WireError::OutOfMemory),
        };
        let unknown = session.allows_unknown();
        let array = take(
            alloc,
            Source::Borrowed(array),
            &session.arrays,
            unknown,
            MAX_LEVELS,
        )?;
        Ok(ArrayNodeFlatBuffer { ctx, array, two })
    }

    /// Takes the array's identifiers into the context in preorder, and writes the blocks of its nodes after those that
    /// the builder has, the root's first. The buffers are numbered in preorder from 0 on.
    ///
    /// # Errors
    /// `NotPermitted` where the context does not take an identifier, and `WireLimit` where the array passes a limit on
    /// writing or the builder's message would be too long or was before. After each of them the context keeps what it
    /// had and may have taken identifiers of the array, and the builder keeps its blocks, with those that were written
    /// so far. A builder whose message would be too long has failed, and each later call of it is refused.
    pub fn try_write_flatbuffer(
        &mut self,
        alloc: Global,
        builder: &mut Builder,
    ) -> Result<(), WireError>
        requires { Takes LinkKind.Table builder.old }
        ensures same_reference { self.new.ctx.ghost_name ≡ self.old.ctx.ghost_name }
        ensures array { self.new.array ≡ self.old.array }
        ensures two { self.new.two ≡ self.old.two }
        ensures grown { (s : SessionMeaning) → writes_two s ≡ self.old.two → OnOk result (grown codec s self.old.ctx.now self.old.array ≡ Some self.new.ctx.now) }
        ensures written { (s : SessionMeaning) → writes_two s ≡ self.old.two → OnOk result (Written array_schema node_fields (array_value s self.old.array self.old.ctx.now) builder.old builder.new) }
        ensures fits { IsOk result → length builder.new.bytes < 2 ^ 31 }
        ensures left { (s : SessionMeaning) → writes_two s ≡ self.old.two → KeepsContext (ids_in (wire codec s self.old.array)) self.old.ctx.now self.new.ctx.now }
        ensures kept { (s : SessionMeaning) → writes_two s ≡ self.old.two → OnErr result (Keeps builder.old (array_pieces s self.old.array self.old.ctx.now) builder.new) }
        ensures cause { (s : SessionMeaning) → writes_two s ≡ self.old.two → IfErr result (RefusesBlocks s self.old.array self.old.ctx.now builder.old builder.new) }
    {
        let array = NodeRef::taken(&self.array);
        write_into(alloc, &array, self.two, self.ctx, builder)
    }
}

// Takes the identifiers of an array that is written into the context in preorder, and writes the blocks of its nodes
// after those that the builder has, the root's first.
fn write_into(
    alloc: Global,
    array: &NodeRef<'_, '_>,
    two: bool,
    ctx: &mut ArrayContext,
    builder: &mut Builder,
) -> Result<(), WireError>
    requires { Takes LinkKind.Table builder.old }
    ensures grown { (s : SessionMeaning) → writes_two s ≡ two → OnOk result (grown codec s ctx.old array.now ≡ Some ctx.new) }
    ensures written { (s : SessionMeaning) → writes_two s ≡ two → OnOk result (Written array_schema node_fields (array_value s array.now ctx.old) builder.old builder.new) }
    ensures fits { IsOk result → length builder.new.bytes < 2 ^ 31 }
    ensures left { (s : SessionMeaning) → writes_two s ≡ two → KeepsContext (ids_in (wire codec s array.now)) ctx.old ctx.new }
    ensures kept { (s : SessionMeaning) → writes_two s ≡ two → OnErr result (Keeps builder.old (array_pieces s array.now ctx.old) builder.new) }
    ensures cause { (s : SessionMeaning) → writes_two s ≡ two → IfErr result (RefusesBlocks s array.now ctx.old builder.old builder.new) }
{
    let mut found = Gathered::new(alloc);
    gather(alloc, array, two, ctx, &mut found)?;
    if found.buffers.len() > MAX_BUFFERS || found.encodings.len() > MAX_NODES {
        return Err(WireError::WireLimit);
    }
    let mut passed = Passed {
        nodes: 0,
        buffers: 0,
    };
    write_node(alloc, array, &found.encodings, &mut passed, builder)?;
    Ok(())
}
