//! An array as it is written: each node as its writer takes it.

ghost use Rattle.std.specs.Prelude.{◌≡◌, ◌≤◌, ◌<◌, ◌⊎◌, ◌++◌, ◌∷◌, [], Some, None, Err, IsTrue, length, slice_get, IfOk, IfErr, OnOk, IsOk, IsOkUnless};
ghost use Rattle.vx_trees.specs.Rose.{node, label, below, count, roses_of, roses_list};
ghost use Rattle.vx_trees.specs.Walks.{levels};
ghost use Rattle.vx_types.specs.Known.{ExtMeaning};
ghost use Rattle.vx_scalars.specs.Stats.{FitStats};
ghost use Rattle.vx_array_tree.specs.Sound.{metadata_in};
ghost use Rattle.vx_array_tree.specs.Table.{buffers_of};
ghost use Rattle.vx_array_tree.specs.Tree.{Trees, Head, places};
ghost use Rattle.vx_wire_tree.specs.Fields.{told};
ghost use Rattle.vx_wire_tree.specs.Limits.{HasMessage, HasMessages};
ghost use Rattle.vx_wire_tree.specs.Taken.{step, written, taken, IsTaken};
ghost use Rattle.vx_encodings.specs.Messages.{message_bytes};
ghost use Rattle.vx_registry.specs.Meaning.{arrays_meaning};
ghost use Rattle.vx_registry.specs.Serialization.{array_id};
ghost use Rattle.vx_serde.specs.Taking.{source_tree, taken_head, root_head, root_below, root_node, root_arrays, StandsAs, IsOwn, AreTaken, AreWithinLevels, IsRootAt, RefusesTaking, RefusesOneOf};

use crate::node_ref::{NodeRefs, item_at};
use std::alloc::Global;
use std::marker::Model;
use vx_arrays::Array;
use vx_buffer::{BufferHandle, BufferHandles};
use vx_encodings::{has_message, metadata};
use vx_registry::{
    ArrayPlugin, ArraySerialization, ArraySession, WrittenRoot, written_id, written_root,
};
use vx_scalars::StatsSet;
use vx_serialized::WireError;
use vx_types::{Blob, Id};

/// An array that is written: one that is borrowed, or, below what a plugin gave, one that is owned.
#[derive(Drop)]
pub(crate) enum Source<'a> {
    Borrowed(&'a Array),
    Held(Box<Array>),
}

impl<'a> Source<'a> {
    /// The array.
    fn array(&self) -> &Array
        ensures { result.now ≡ source_tree self.now }
    {
        match self {
            Source::Borrowed(array) => array,
            Source::Held(array) => array,
        }
    }
}

// A copy of an array, which is owned.
fn copy_of<'a>(alloc: Global, array: &Array) -> Result<Source<'a>, WireError>
    ensures ok { IfOk result (λ s. source_tree s ≡ array.now) }
    ensures err { IsOkUnless result WireError.OutOfMemory }
{
    let Ok(copy) = array.clone(alloc) else {
        return Err(WireError::OutOfMemory);
    };
    match Box::new(alloc, copy) {
        Ok(copy) => Ok(Source::Held(copy)),
        Err(_) => Err(WireError::OutOfMemory),
    }
}

// A child of an array: borrowed, where the array is borrowed, and else a copy.
fn child_of<'a>(alloc: Global, source: &Source<'a>, i: usize) -> Result<Source<'a>, WireError>
    requires { i < count (below (source_tree source.now)) }
    ensures ok { IfOk result (λ s. slice_get (roses_list (below (source_tree source.now))) i ≡ Some (source_tree s)) }
    ensures err { IsOkUnless result WireError.OutOfMemory }
{
    match source {
        Source::Borrowed(array) => Ok(Source::Borrowed(borrowed_child(array, i))),
        Source::Held(array) => {
            let child = borrowed_child(array, i);
            copy_of(alloc, child)
        }
    }
}

// A child of an array, borrowed.
fn borrowed_child(array: &Array, i: usize) -> &Array
    requires { i < count (below array.now) }
    ensures { slice_get (roses_list (below array.now)) i ≡ Some result.now }
{
    let children = array.children();
    item_at(children, i)
}

/// The parts that a plugin gives for an array's root.
#[derive(Drop)]
pub(crate) struct GivenParts {
    id: Id,
    metadata: Blob,
    buffers: BufferHandles,
}

/// A node as it is written, with those below it: as an array's root is, or with the parts that a plugin gives for it.
/// Where an array is written unchanged, with all below it, no node is kept below it: one reference stands for the
/// whole. Contracts see the tree that is written.
#[derive(Drop)]
pub(crate) struct TakenNode<'a> {
    source: Source<'a>,
    given: Option<Box<GivenParts>>,
    children: Option<Vec<TakenNode<'a>>>,
}

impl<'a> Model for TakenNode<'a> {
    ghost use Rattle.vx_array_tree.specs.Tree.{Tree, tree_code};

    ghost Value = { Tree };

    ghost coded = { tree_code };

    ghost use Rattle.std.proofs.Common.{arith};
    ghost use Rattle.vx_trees.specs.Rose.{node, label, below};
    ghost use Rattle.vx_trees.specs.Walks.{nodes};
    ghost use Rattle.vx_serde.specs.Taking.{source_tree, taken_head, taken_below, StandsAs};

    ghost view = { λ n. node (taken_head (label (source_tree n.source)) n.given) (taken_below (below (source_tree n.source)) n.children) };

    ghost invariant = { λ n. StandsAs n.given (taken_below (below (source_tree n.source)) n.children) (below (source_tree n.source)) };

    ghost size = { nodes };

    ghost use Rattle.vx_serde.specs.TakenMeasures.{children_le-nodes};

    ghost size_decreases = { λ n h. Prim.omega (arith, children_le-nodes (below (source_tree n.source)) n.children) };
}

impl<'a> TakenNode<'a> {
    /// The identifier under which the node is written; `two` says whether primitives have two.
    pub(crate) fn written_id(&self, alloc: Global, two: bool) -> Result<Id, WireError>
        ensures ok { IfOk result (λ id. id ≡ array_id two self.now) }
        ensures err { IsOkUnless result WireError.OutOfMemory }
    {
        match &self.given {
            Some(given) => match given.id.clone(alloc) {
                Ok(id) => Ok(id),
                Err(_) => Err(WireError::OutOfMemory),
            },
            None => match written_id(alloc, self.source.array(), two) {
                Ok(id) => Ok(id),
                Err(_) => Err(WireError::OutOfMemory),
            },
        }
    }

    /// The bytes of the node's metadata.
    pub(crate) fn metadata(&self, alloc: Global) -> Result<Blob, WireError>
        ensures ok { IfOk result (λ bytes. bytes ≡ message_bytes (told (metadata_in (label self.now) (below self.now)))) }
        ensures err { IsOkUnless result WireError.OutOfMemory }
    {
        match &self.given {
            Some(given) => match given.metadata.clone(alloc) {
                Ok(bytes) => Ok(bytes),
                Err(_) => Err(WireError::OutOfMemory),
            },
            None => own_metadata(alloc, self.source.array()),
        }
    }

    /// The number of the node's own buffers.
    pub(crate) fn nbuffers(&self) -> usize
        ensures { result ≡ length (buffers_of (label self.now).body) }
    {
        match &self.given {
            Some(given) => given.buffers.len(),
            None => self.source.array().nbuffers(),
        }
    }

    /// The node's own buffer at this index.
    pub(crate) fn buffer(&self, i: usize) -> &BufferHandle
        requires { i < length (buffers_of (label self.now).body) }
        ensures { slice_get (buffers_of (label self.now).body) i ≡ Some result.now }
    {
        match &self.given {
            Some(given) => match given.buffers.get(i) {
                Some(buffer) => buffer,
                None => unreachable!(),
            },
            None => self.source.array().buffer(i),
        }
    }

    /// The node's statistics.
    pub(crate) fn statistics(&self) -> &StatsSet
        ensures stats { result.now ≡ (label self.now).stats }
        ensures fits { FitStats (label self.now).dtype (label self.now).stats }
    {
        self.source.array().statistics()
    }

    /// The nodes right below it.
    pub(crate) fn children<'n>(&'n self) -> NodeRefs<'n, 'a>
        ensures children { roses_of result ≡ below self.now }
    {
        match &self.children {
            Some(children) => NodeRefs::taken(children.as_slice()),
            None => NodeRefs::own(self.source.array().children()),
        }
    }
}

/// The bytes of the metadata of an array's root, which is known to fit its message.
pub(crate) fn own_metadata(alloc: Global, array: &Array) -> Result<Blob, WireError>
    ensures ok { IfOk result (λ bytes. bytes ≡ message_bytes (told (metadata_in (label array.now) (below array.now)))) }
    ensures err { IsOkUnless result WireError.OutOfMemory }
{
    match metadata(alloc, array) {
        Ok(bytes) => Ok(bytes),
        Err(_) => Err(WireError::OutOfMemory),
    }
}

/// A root that is written: unchanged, or as the parts that a plugin gives for it.
#[derive(Drop)]
struct TakenRoot<'a> {
    source: Source<'a>,
    given: Option<ArraySerialization>,
}

impl<'a> TakenRoot<'a> {
    /// The number of arrays that it is written over.
    fn nchildren(&self) -> usize
        ensures { result ≡ count (root_arrays self.now) }
    {
        match &self.given {
            Some(parts) => parts.children.len(),
            None => self.source.array().children().len(),
        }
    }

    /// One of the arrays that it is written over: borrowed, where it can be, or a copy.
    fn child(&self, alloc: Global, i: usize) -> Result<Source<'a>, WireError>
        requires { i < count (root_arrays self.now) }
        ensures ok { IfOk result (λ s. slice_get (roses_list (root_arrays self.now)) i ≡ Some (source_tree s)) }
        ensures err { IsOkUnless result WireError.OutOfMemory }
    {
        match &self.given {
            Some(parts) => {
                let arrays = parts.children.as_slice();
                let array = item_at(arrays, i);
                copy_of(alloc, array)
            }
            None => child_of(alloc, &self.source, i),
        }
    }

    /// Whether it is written unchanged, over its array's own children unchanged (`below`).
    fn is_own(&self, below: bool) -> bool
        ensures { IsTrue result → IsTrue below × (self.now.given ≡ None) }
    {
        below && self.given.is_none()
    }

    /// The node, over those below it. These are not kept where all of it is the array unchanged.
    fn over(
        self,
        alloc: Global,
        children: Vec<TakenNode<'a>>,
        own: bool,
    ) -> Result<TakenNode<'a>, WireError>
        requires places { places (roses_of children.items) ≡ places (root_arrays self) }
        requires own { IsTrue own → IsOwn self children.items }
        ensures ok { IfOk result (λ n. n ≡ node (root_node self.entry) (roses_of children.entry.items)) }
        ensures err { IsOkUnless result WireError.OutOfMemory }
    {
        let TakenRoot { source, given } = self;
        if own {
            drop(given);
            drop(children);
            return Ok(TakenNode {
                source,
                given: None,
                children: None,
            });
        }
        match given_parts(alloc, given) {
            Ok(given) => Ok(TakenNode {
                source,
                given,
                children: Some(children),
            }),
            Err(e) => {
                drop(source);
                drop(children);
                Err(e)
            }
        }
    }
}

// The parts that a plugin gives for a root itself, without the arrays below it.
fn given_parts(
    alloc: Global,
    parts: Option<ArraySerialization>,
) -> Result<Option<Box<GivenParts>>, WireError>
    ensures head { (h : Head) → IfOk result (λ g. taken_head h g ≡ root_head h parts) }
    ensures stands { (us ts : Trees) → places us ≡ places (root_below ts parts) → IfOk result (λ g. StandsAs g us ts) }
    ensures err { IsOkUnless result WireError.OutOfMemory }
{
    match parts {
        Some(parts) => {
            let ArraySerialization {
                serialized_id: id,
                metadata,
                buffers,
                children,
            } = parts;
            drop(children);
            let own = GivenParts {
                id,
                metadata,
                buffers,
            };
            match Box::new(alloc, own) {
                Ok(own) => Ok(Some(own)),
                Err(_) => Err(WireError::OutOfMemory),
            }
        }
        None => Ok(None),
    }
}

// The parts that a plugin gives for an array's root, where there is room for a level; `None`, where the root is written
// unchanged. `WireLimit` where there is no room or its metadata does not fit its message, else as `written_root`.
fn parts_of(
    alloc: Global,
    array: &Array,
    arrays: &ArraySession,
    unknown: bool,
    room: usize,
) -> Result<Option<ArraySerialization>, WireError>
    ensures room { OnOk result (0 < room) }
    ensures step { (x : ExtMeaning) → x.unknown ≡ unknown → IfOk result (λ p. step (arrays_meaning (λ b. means (b.vtable, b.value)) arrays.now x) array.now ≡ written (root_head (label array.now) p) (root_below (below array.now) p)) }
    ensures message { IfOk result (λ p. HasMessage (root_head (label array.now) p) (root_below (below array.now) p)) }
    ensures cause { (x : ExtMeaning) → x.unknown ≡ unknown → IfErr result (RefusesTaking (arrays_meaning (λ b. means (b.vtable, b.value)) arrays.now x) room array.now) }
{
    if room == 0 {
        return Err(WireError::WireLimit);
    }
    match written_root(alloc, array, arrays, unknown) {
        Ok(WrittenRoot::Own) => {
            if !has_message(array) {
                return Err(WireError::WireLimit);
            }
            Ok(None)
        }
        Ok(WrittenRoot::Given(parts)) => Ok(Some(parts)),
        Ok(WrittenRoot::Nothing) => Err(WireError::NotSerializable),
        Err(e) => Err(WireError::from(e)),
    }
}

/// A root that is written, the nodes below it that are taken so far, and whether each of these is the root's array's
/// own child unchanged. It is passed on or dropped by hand wherever it is held: where it is dropped by itself, the
/// proof spells out each of its parts.
#[derive(Drop)]
struct OpenRoot<'a> {
    root: TakenRoot<'a>,
    children: Vec<TakenNode<'a>>,
    own: bool,
}

// Room for `count` nodes, where that memory can be allocated now. Pushing allocates what is missing.
fn room_for<'a>(alloc: Global, count: usize) -> Vec<TakenNode<'a>>
    ensures { result.items ≡ [] }
{
    match Vec::with_capacity(alloc, count) {
        Ok(room) => room,
        Err(_) => Vec::new(alloc),
    }
}

impl<'a> OpenRoot<'a> {
    /// The root of an array, where there is room for `room` levels. The refusals are those of `take`.
    fn new(
        alloc: Global,
        source: Source<'a>,
        arrays: &ArraySession,
        unknown: bool,
        room: usize,
    ) -> Result<OpenRoot<'a>, WireError>
        ensures room { OnOk result (0 < room) }
        ensures none { IfOk result (λ o. o.children.items ≡ []) }
        ensures source { IfOk result (λ o. source_tree o.root.source ≡ source_tree source.entry) }
        ensures step { (x : ExtMeaning) → x.unknown ≡ unknown → IfOk result (λ o. step (arrays_meaning (λ b. means (b.vtable, b.value)) arrays.now x) (source_tree source.entry) ≡ written (root_node o.root) (root_arrays o.root)) }
        ensures message { IfOk result (λ o. HasMessage (root_node o.root) (root_arrays o.root)) }
        ensures cause { (x : ExtMeaning) → x.unknown ≡ unknown → IfErr result (RefusesTaking (arrays_meaning (λ b. means (b.vtable, b.value)) arrays.now x) room (source_tree source.entry)) }
    {
        let parts = parts_of(alloc, source.array(), arrays, unknown, room);
        match parts {
            Ok(given) => {
                let root = TakenRoot { source, given };
                let children = room_for(alloc, root.nchildren());
                Ok(OpenRoot {
                    root,
                    children,
                    own: true,
                })
            }
            Err(e) => {
                drop(source);
                Err(e)
            }
        }
    }

    /// The number of arrays that it is written over.
    fn nchildren(&self) -> usize
        ensures { result ≡ count (root_arrays self.now.root) }
    {
        self.root.nchildren()
    }

    /// The root of one of the arrays below it, where there is room for `room` levels.
    fn child(
        &self,
        alloc: Global,
        arrays: &ArraySession,
        unknown: bool,
        room: usize,
        i: usize,
    ) -> Result<OpenRoot<'a>, WireError>
        requires { i < count (root_arrays self.now.root) }
        ensures room { OnOk result (0 < room) }
        ensures none { IfOk result (λ o. o.children.items ≡ []) }
        ensures stands { IfOk result (λ o. slice_get (roses_list (root_arrays self.now.root)) i ≡ Some (source_tree o.root.source)) }
        ensures opened { (x : ExtMeaning) → x.unknown ≡ unknown → IfOk result (λ o. IsRootAt (arrays_meaning (λ b. means (b.vtable, b.value)) arrays.now x) (root_arrays self.now.root) i (root_node o.root) (root_arrays o.root)) }
        ensures message { IfOk result (λ o. HasMessage (root_node o.root) (root_arrays o.root)) }
        ensures cause { (x : ExtMeaning) → x.unknown ≡ unknown → IfErr result (RefusesOneOf (arrays_meaning (λ b. means (b.vtable, b.value)) arrays.now x) room (root_arrays self.now.root)) }
    {
        let below = self.root.child(alloc, i)?;
        OpenRoot::new(alloc, below, arrays, unknown, room)
    }

    /// The node of the root, over the nodes below it, once these are taken; and whether it is its array unchanged.
    fn closed(self, alloc: Global) -> Result<(TakenNode<'a>, bool), WireError>
        requires places { places (roses_of self.children.items) ≡ places (root_arrays self.root) }
        requires own { IsTrue self.own → self.children.items ≡ roses_list (root_arrays self.root) }
        ensures ok { IfOk result (λ p. p.0 ≡ node (root_node self.entry.root) (roses_of self.entry.children.items)) }
        ensures own { IfOk result (λ p. IsTrue p.1 → IsOwn self.entry.root self.entry.children.items) }
        ensures err { IsOkUnless result WireError.OutOfMemory }
    {
        let OpenRoot {
            root,
            children,
            own,
        } = self;
        let own = root.is_own(own);
        let node = root.over(alloc, children, own)?;
        Ok((node, own))
    }

    /// Appends a node below it: a root, once the nodes below that one are taken.
    fn close(
        &mut self,
        alloc: Global,
        child: OpenRoot<'a>,
        filled: Result<(), WireError>,
    ) -> Result<(), WireError>
        requires places { IsOk filled → places (roses_of child.children.items) ≡ places (root_arrays child.root) }
        requires own { IsOk filled → IsTrue child.own → child.children.items ≡ roses_list (root_arrays child.root) }
        ensures root { self.new.root ≡ self.old.root }
        ensures well { OnOk result (IsOk filled) }
        ensures children { OnOk result (self.new.children.items ≡ self.old.children.items ++ node (root_node child.entry.root) (roses_of child.entry.children.items) ∷ []) }
        ensures own { OnOk result (IsTrue self.new.own → IsTrue self.old.own × IsOwn child.entry.root child.entry.children.items) }
        ensures cause { IfErr result (λ e. (e ≡ WireError.OutOfMemory) ⊎ (filled ≡ Err e)) }
    {
        match filled {
            Ok(()) => {
                let (node, own) = child.closed(alloc)?;
                self.push(node, own)
            }
            Err(e) => {
                drop(child);
                Err(e)
            }
        }
    }

    // Appends a node below it; `own` says whether it is the array's own child unchanged.
    fn push(&mut self, node: TakenNode<'a>, own: bool) -> Result<(), WireError>
        ensures root { self.new.root ≡ self.old.root }
        ensures children { OnOk result (self.new.children.items ≡ self.old.children.items ++ node.entry ∷ []) }
        ensures own { OnOk result (IsTrue self.new.own → IsTrue self.old.own × IsTrue own) }
        ensures err { IsOkUnless result WireError.OutOfMemory }
    {
        match self.children.push(node) {
            Ok(()) => {
                self.own = self.own && own;
                Ok(())
            }
            Err(_) => Err(WireError::OutOfMemory),
        }
    }
}

// Takes the nodes below a root, where there is room for `room` levels below the root.
fn fill<'a>(
    alloc: Global,
    above: &mut OpenRoot<'a>,
    arrays: &ArraySession,
    unknown: bool,
    room: usize,
) -> Result<(), WireError>
    requires none { above.old.children.items ≡ [] }
    ensures root { above.new.root ≡ above.old.root }
    ensures taken { (x : ExtMeaning) → x.unknown ≡ unknown → OnOk result (AreTaken (arrays_meaning (λ b. means (b.vtable, b.value)) arrays.now x) room (roses_list (root_arrays above.old.root)) above.new.children.items) }
    ensures within { OnOk result (AreWithinLevels room above.new.children.items) }
    ensures own { OnOk result (IsTrue above.new.own → above.new.children.items ≡ roses_list (root_arrays above.old.root)) }
    ensures cause { (x : ExtMeaning) → x.unknown ≡ unknown → IfErr result (RefusesOneOf (arrays_meaning (λ b. means (b.vtable, b.value)) arrays.now x) room (root_arrays above.old.root)) }
{
    for i in 0..above.nchildren() {
        let mut child = above.child(alloc, arrays, unknown, room, i)?;
        let filled = fill(alloc, &mut child, arrays, unknown, room - 1);
        above.close(alloc, child, filled)?;
    }
    Ok(())
}

/// How the nodes of an array are written: `WireLimit` where there are more than `room` levels, whatever plugins give,
/// or a node's metadata does not fit its message; `NotRegistered` where nothing writes a node; `NotSerializable`,
/// `UndeclaredId` and `PluginRefused` where a plugin does not. Levels are judged on the way down, so no deeper tree is
/// entered.
pub(crate) fn take<'a>(
    alloc: Global,
    source: Source<'a>,
    arrays: &ArraySession,
    unknown: bool,
    room: usize,
) -> Result<TakenNode<'a>, WireError>
    ensures tree { (x : ExtMeaning) → x.unknown ≡ unknown → IfOk result (λ n. n ≡ taken (arrays_meaning (λ b. means (b.vtable, b.value)) arrays.now x) room (source_tree source.entry)) }
    ensures written { (x : ExtMeaning) → x.unknown ≡ unknown → OnOk result (IsTaken (arrays_meaning (λ b. means (b.vtable, b.value)) arrays.now x) room (source_tree source.entry)) }
    ensures levels { IfOk result (λ n. levels n ≤ room) }
    ensures messages { IfOk result HasMessages }
    ensures cause { (x : ExtMeaning) → x.unknown ≡ unknown → IfErr result (RefusesTaking (arrays_meaning (λ b. means (b.vtable, b.value)) arrays.now x) room (source_tree source.entry)) }
{
    let mut above = OpenRoot::new(alloc, source, arrays, unknown, room)?;
    match fill(alloc, &mut above, arrays, unknown, room - 1) {
        Ok(()) => {
            let (node, _) = above.closed(alloc)?;
            Ok(node)
        }
        Err(e) => {
            drop(above);
            Err(e)
        }
    }
}
