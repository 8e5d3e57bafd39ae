//! The buffers of the nodes of an array that is written, and the numbers of their encodings.

ghost use Rattle.std.specs.Prelude.{◌≡◌, ◌++◌, ◌∷◌, [], ℕ, List, Some, OnOk, IfOk, IfErr};
ghost use Rattle.vx_trees.specs.Rose.{label};
ghost use Rattle.vx_array_tree.specs.Table.{buffers_of};
ghost use Rattle.vx_wire_tree.specs.Context.{grown_by, index_of};
ghost use Rattle.vx_wire_tree.specs.Session.{SessionMeaning};
ghost use Rattle.vx_wire_tree.specs.Wire.{ids_in, buffers_in};
ghost use Rattle.vx_wire_tree.specs.Written.{writes_two, wire};
ghost use Rattle.vx_encodings.specs.Messages.{codec};
ghost use Rattle.vx_registry.specs.Serialization.{array_id};
ghost use Rattle.vx_serde.specs.Blocks.{encodings_in};
ghost use Rattle.vx_serde.specs.KeptContext.{KeepsContext};
ghost use Rattle.vx_serde.specs.WritingSteps.{RefusesIds};

use crate::borrowed_buffers::BorrowedBuffers;
use crate::node_ref::NodeRef;
use std::alloc::Global;
use vx_buffer::BufferError;
use vx_registry::ArrayContext;
use vx_serialized::WireError;

/// The buffers of nodes, borrowed, and the numbers of their encodings in a context, both in preorder.
#[derive(Drop)]
pub(crate) struct Gathered<'a> {
    pub(crate) buffers: BorrowedBuffers<'a>,
    pub(crate) encodings: Vec<u16>,
}

impl<'a> Gathered<'a> {
    /// No buffers and no numbers, before the first node.
    pub(crate) fn new(alloc: Global) -> Gathered<'a>
        ensures buffers { result.buffers ≡ [] }
        ensures encodings { result.encodings.items ≡ [] }
    {
        Gathered {
            buffers: BorrowedBuffers::new(alloc),
            encodings: Vec::new(alloc),
        }
    }
}

/// The number of a root's identifier, which the context takes where it is new.
fn encoding_number(
    alloc: Global,
    array: &NodeRef<'_, '_>,
    two: bool,
    ctx: &mut ArrayContext,
) -> Result<u16, WireError>
    ensures grown { OnOk result (grown_by (array_id two array.now ∷ []) ctx.old ≡ Some ctx.new) }
    ensures number { IfOk result (λ n. (more : List (List ℕ)) → index_of (array_id two array.now) (ctx.new.ids ++ more) ≡ n) }
    ensures kept { KeepsContext (array_id two array.now ∷ []) ctx.old ctx.new }
    ensures cause { IfErr result (RefusesIds (array_id two array.now ∷ []) ctx.old) }
{
    let Ok(id) = array.written_id(alloc, two) else {
        return Err(WireError::OutOfMemory);
    };
    match ctx.intern(&id) {
        Ok(Some(number)) => Ok(number),
        Ok(None) => Err(WireError::NotPermitted),
        Err(_) => Err(WireError::OutOfMemory),
    }
}

/// Appends the buffers of an array's root.
fn push_own<'a>(array: &NodeRef<'a, '_>, found: &mut BorrowedBuffers<'a>) -> Result<(), BufferError>
    ensures { OnOk result (found.new ≡ found.old ++ buffers_of (label array.now).body) }
{
    for i in 0..array.nbuffers() {
        found.push(array.buffer(i))?;
    }
    Ok(())
}

/// Appends the buffers of an array's root, and the number of its encoding.
fn push_root<'a>(
    alloc: Global,
    array: &NodeRef<'a, '_>,
    two: bool,
    ctx: &mut ArrayContext,
    found: &mut Gathered<'a>,
) -> Result<(), WireError>
    ensures buffers { OnOk result (found.new.buffers ≡ found.old.buffers ++ buffers_of (label array.now).body) }
    ensures encodings { (more : List (List ℕ)) → OnOk result (found.new.encodings.items ≡ found.old.encodings.items ++ index_of (array_id two array.now) (ctx.new.ids ++ more) ∷ []) }
    ensures grown { OnOk result (grown_by (array_id two array.now ∷ []) ctx.old ≡ Some ctx.new) }
    ensures kept { KeepsContext (array_id two array.now ∷ []) ctx.old ctx.new }
    ensures cause { IfErr result (RefusesIds (array_id two array.now ∷ []) ctx.old) }
{
    let encoding = encoding_number(alloc, array, two, ctx)?;
    found.encodings.push(encoding)?;
    push_own(array, &mut found.buffers)?;
    Ok(())
}

/// Appends the buffers of an array's nodes and the numbers of their encodings, in preorder. The identifiers are taken
/// into the context in preorder; `two` says whether primitives have two. `NotPermitted` where the context does not take
/// one.
#[tactic(auto, using(vx_trees::proofs::Roses::roses))]
pub(crate) fn gather<'a>(
    alloc: Global,
    array: &NodeRef<'a, '_>,
    two: bool,
    ctx: &mut ArrayContext,
    found: &mut Gathered<'a>,
) -> Result<(), WireError>
    ensures buffers { (s : SessionMeaning) → OnOk result (found.new.buffers ≡ found.old.buffers ++ buffers_in (wire codec s array.now)) }
    ensures encodings { (s : SessionMeaning) (more : List (List ℕ)) → writes_two s ≡ two → OnOk result (found.new.encodings.items ≡ found.old.encodings.items ++ encodings_in (ctx.new.ids ++ more) (wire codec s array.now)) }
    ensures grown { (s : SessionMeaning) → writes_two s ≡ two → OnOk result (grown_by (ids_in (wire codec s array.now)) ctx.old ≡ Some ctx.new) }
    ensures kept { (s : SessionMeaning) → writes_two s ≡ two → KeepsContext (ids_in (wire codec s array.now)) ctx.old ctx.new }
    ensures cause { (s : SessionMeaning) → writes_two s ≡ two → IfErr result (RefusesIds (ids_in (wire codec s array.now)) ctx.old) }
{
    push_root(alloc, array, two, ctx, found)?;
    let children = array.children();
    for i in 0..children.len() {
        let child = children.get(i);
        gather(alloc, &child, two, ctx, found)?;
    }
    Ok(())
}
