//! Arrays, each a tree of nodes, and their parts.

ghost use Rattle.std.specs.Prelude.{◌≡◌, ◌<◌, ◌≤◌, ◌==◌, ◌+◌, length, IfOk, IfErr, OnOk, OnErr, IsOk, IsOkUnless, IsTrue, IsFalse, Some, slice_get};
ghost use Rattle.vx_trees.specs.Everywhere.{EverywhereBelow};
ghost use Rattle.vx_trees.specs.Rose.{label, below, node, roses_of};
ghost use Rattle.vx_types.specs.Seen.{typ};
ghost use Rattle.vx_scalars.specs.Stats.{FitStats};
ghost use Rattle.vx_array_tree.specs.Refused.{IsWellShaped};
ghost use Rattle.vx_array_tree.specs.Sound.{IsControlled, IsSound, IsSoundNode};
ghost use Rattle.vx_array_tree.specs.Encoding as E;
ghost use Rattle.vx_array_tree.specs.Table.{encoding_of, own_id, buffers_of, Content, IsNative};
ghost use Rattle.vx_array_tree.specs.Tree.{Tree, rows_of, rows_below, row_at, cells, untold, with_stats};
ghost use Rattle.vx_trees.specs.Walks.{nodes};
ghost use Rattle.vx_rows.specs.Plain.{plain_value};
ghost use Rattle.vx_arrays.specs.Plain.{plain_body, plain_head};
ghost use Rattle.vx_arrays.specs.Refused.{RefusesRow};

mod flag_at;
mod is_valid;
mod natural_at;
mod parts_at;
mod untold_with;

use crate::body::Body;
use crate::parts::built;
use std::alloc::Global;
use std::marker::Model;
use vx_buffer::BufferHandle;
use vx_rows::{ArrayError, RowValue};
use vx_scalars::StatsSet;
use vx_types::{DType, TypeError};

/// An array: a tree of nodes that is sound as a whole, each with its statistics.
pub struct Array {
    dtype: DType,
    len: usize,
    stats: StatsSet,
    body: Body,
    children: Vec<Array>,
}

// Drops an array by one call: where arrays are dropped implicitly, proofs then do not go through their parts.
impl Drop for Array {
    #[cycle(dropping)]
    fn drop(self) {
        let Array {
            dtype: _,
            len: _,
            stats: _,
            body: _,
            children: _,
        } = self;
    }
}

impl Model for Array {
    ghost use Rattle.vx_array_tree.specs.Tree.{Tree, tree_code};

    ghost Value = { Tree };

    ghost coded = { tree_code };

    ghost use Rattle.std.proofs.Common.{arith};
    ghost use Rattle.vx_trees.specs.Rose.{node, roses_of};
    ghost use Rattle.vx_trees.specs.Walks.{nodes};
    ghost use Rattle.vx_trees.proofs.Counting.{most_le-nodes};
    ghost use Rattle.vx_types.specs.Seen.{typ};
    ghost use Rattle.vx_array_tree.specs.Sound.{IsSound};
    ghost use Rattle.vx_arrays.specs.Plain.{plain_head};

    ghost view = { λ a. node (plain_head (typ a.dtype) a.len a.stats a.body) (roses_of a.children.items) };

    ghost invariant = { λ a. IsSound (node (plain_head (typ a.dtype) a.len a.stats a.body) (roses_of a.children.items)) };

    ghost size = { nodes };

    ghost size_decreases = { λ a h. Prim.omega (arith, most_le-nodes a.children.items) };
}

impl Array {
    // An array of parts that fit together, without statistics.
    #[tactic(auto, using(crate::proofs::Untold::untold_sound))]
    pub(crate) fn from_parts(dtype: DType, len: usize, body: Body, children: Vec<Array>) -> Array
        requires shaped { IsWellShaped (untold (typ dtype) len (plain_body body)) (roses_of children.items) }
        requires controlled { IsControlled (untold (typ dtype) len (plain_body body)) (roses_of children.items) }
        requires content { Content (typ dtype) len (plain_body body) (rows_below (roses_of children.items)) }
        requires below { EverywhereBelow IsSoundNode (roses_of children.items) }
        ensures array { result ≡ node (untold (typ dtype) len (plain_body body)) (roses_of children.items) }
        ensures sound { IsSound result }
    {
        let stats = StatsSet::new(*children.allocator());
        Array::with_parts(dtype, len, stats, body, children)
    }

    // An array of parts that are sound together.
    pub(crate) fn with_parts(
        dtype: DType,
        len: usize,
        stats: StatsSet,
        body: Body,
        children: Vec<Array>,
    ) -> Array
        requires node { IsSoundNode (plain_head (typ dtype) len stats body) (roses_of children.items) }
        requires below { EverywhereBelow IsSoundNode (roses_of children.items) }
        ensures { result ≡ node (plain_head (typ dtype) len stats body) (roses_of children.items) }
    {
        Array {
            dtype,
            len,
            stats,
            body,
            children,
        }
    }

    /// The logical type of the rows.
    pub fn dtype(&self) -> &DType
        ensures dtype { typ result.now ≡ (label self.now).dtype }
        ensures sound { IsSound self.now }
    {
        &self.dtype
    }

    /// How many rows there are.
    pub fn len(&self) -> usize
        ensures len { result ≡ (label self.now).len }
        ensures sound { IsSound self.now }
    {
        self.len
    }

    /// Whether there are no rows.
    pub fn is_empty(&self) -> bool
        ensures { result ≡ ((label self.now).len == 0) }
    {
        self.len == 0
    }

    /// The statistics of the root. Constructors set none.
    pub fn statistics(&self) -> &StatsSet
        ensures stats { result.now ≡ (label self.now).stats }
        ensures fits { FitStats (label self.now).dtype (label self.now).stats }
    {
        &self.stats
    }

    /// Replaces the statistics of the root alone. `BadScalar` exactly where a statistic is no value of its type; the
    /// array then stays as it was.
    pub fn set_all(&mut self, stats: StatsSet) -> Result<(), TypeError>
        ensures ok { OnOk result (self.new ≡ with_stats stats self.old) }
        ensures fits { OnOk result (FitStats (label self.old).dtype stats) }
        ensures unchanged { OnErr result (self.new ≡ self.old) }
        ensures err { IfErr result (λ e. (e ≡ TypeError.BadScalar) × (FitStats (label self.old).dtype stats → ⊥)) }
    {
        // Judged before they are stored, so that a refusal leaves the array as it was.
        stats.validate(&self.dtype)?;
        self.stats = stats;
        Ok(())
    }

    // The same array with these statistics, which fit its type.
    pub(crate) fn told(self, stats: StatsSet) -> Array
        requires { FitStats (label self).dtype stats }
        ensures array { result ≡ with_stats stats self }
        ensures sound { IsSound result }
    {
        let mut array = self;
        array.stats = stats;
        array
    }

    /// What the root's encoding holds.
    pub fn body(&self) -> &Body
        ensures { plain_body result.now ≡ (label self.now).body }
    {
        &self.body
    }

    /// The identifier of the root's encoding; of a foreign node its own.
    pub fn encoding_id(&self) -> &str
        ensures { result.now ≡ own_id (label self.now).body }
    {
        self.body.encoding_id()
    }

    /// Whether the root is foreign, of an unregistered encoding.
    pub fn is_foreign(&self) -> bool
        ensures foreign { IsTrue result → encoding_of (label self.now).body ≡ E.foreign }
        ensures native { IsFalse result → IsNative (label self.now).body }
    {
        matches!(self.body(), Body::Foreign(_))
    }

    /// The root's children, in wire order.
    pub fn children(&self) -> &[Array]
        ensures children { roses_of result.now ≡ below self.now }
        ensures sound { EverywhereBelow IsSoundNode (below self.now) }
    {
        self.children.as_slice()
    }

    /// How many buffers the root holds itself.
    pub fn nbuffers(&self) -> usize
        ensures { result ≡ length (buffers_of (label self.now).body) }
    {
        self.body.nbuffers()
    }

    /// The root's buffer at an index.
    pub fn buffer(&self, index: usize) -> &BufferHandle
        requires { index < length (buffers_of (label self.now).body) }
        ensures { slice_get (buffers_of (label self.now).body) index ≡ Some result.now }
    {
        self.body.buffer(index)
    }

    /// Checks the whole tree. Constructors make no unsound array, so the answer is always Ok: the body is read for the
    /// invariant alone.
    pub fn validate(&self) -> Result<(), ArrayError>
        ensures ok { IsOk result }
        ensures sound { IsSound self.now }
    {
        let _ = &self.body;
        Ok(())
    }

    // The row's value, if the budget has cells for it.
    #[cycle(rows)]
    #[tactic(auto, using(crate::proofs::Counted::counted))]
    pub(crate) fn row_within(
        &self,
        alloc: Global,
        index: usize,
        budget: &mut u64,
    ) -> Result<RowValue, ArrayError>
        requires { index < (label self.now).len }
        ensures row { IfOk result (λ row. plain_value row ≡ row_at self.now index) }
        ensures spent { OnOk result (budget.old ≡ cells self.now index + budget.new) }
        ensures err { IfErr result (λ e. RefusesRow e (rows_of self.now) index budget.old) }
    {
        let parts = self.parts_at(index);
        built(alloc, parts, budget)
    }

    /// The row's value, if it takes at most `budget` cells. Without a budget a few bytes could ask for a row of any size,
    /// as dictionaries and lists repeat what they refer to.
    #[tactic(auto, using(crate::proofs::Counted::counted))]
    pub fn value_at(&self, alloc: Global, index: usize, budget: u64) -> Result<RowValue, ArrayError>
        requires { index < (label self.now).len }
        ensures row { IfOk result (λ row. plain_value row ≡ row_at self.now index) }
        ensures fits { IfOk result (λ _. cells self.now index ≤ budget) }
        ensures err { IfErr result (λ e. RefusesRow e (rows_of self.now) index budget) }
    {
        let mut left = budget;
        self.row_within(alloc, index, &mut left)
    }

    /// A copy that shares the buffers' bytes.
    #[tactic(auto, using(vx_trees::proofs::Roses::roses))]
    pub fn clone(&self, alloc: Global) -> Result<Array, ArrayError>
        ensures ok { IfOk result (λ a. a ≡ self.now) }
        ensures err { IsOkUnless result ArrayError.OutOfMemory }
    {
        let mut children = Vec::new(alloc);
        for child in self.children() {
            children.push(child.clone(alloc)?)?;
        }
        let dtype = match self.dtype().clone(alloc) {
            Ok(dtype) => dtype,
            Err(_) => return Err(ArrayError::OutOfMemory),
        };
        let stats = match self.statistics().clone(alloc) {
            Ok(stats) => stats,
            Err(_) => return Err(ArrayError::OutOfMemory),
        };
        let body = self.body().clone(alloc)?;
        Ok(Array::with_parts(dtype, self.len(), stats, body, children))
    }
}
