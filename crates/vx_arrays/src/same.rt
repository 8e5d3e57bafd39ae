//! Equality and hashes of arrays: of all but statistics, alignments of buffers and the flags of dictionaries.

ghost use Rattle.std.specs.Prelude.{◌≡◌, ◌↔◌, fold, IsTrue};
ghost use Rattle.vx_trees.specs.Rose.{label, below, count};
ghost use Rattle.vx_arrays.specs.Compared.{IsSame, compared, compared_head, fed_array, fed_head};

use crate::array::Array;
use std::hash::{Hash, Hasher};

impl Array {
    /// Whether the arrays are equal: the same encoding, type and length, the same bytes in their buffers, equal
    /// children, and equal other parts of an encoding (a bit offset, the width of decimals, a list view's flag, a
    /// foreign node's metadata). Statistics, alignments of buffers and a dictionary's flag are not compared.
    #[tactic(auto, using(vx_trees::proofs::Roses::roses))]
    pub fn array_eq(&self, other: &Array) -> bool
        ensures { IsTrue result ↔ IsSame self.now other.now }
    {
        if !self.has_root_of(other) {
            return false;
        }
        let children = self.children();
        let others = other.children();
        for i in 0..children.len() {
            if !children[i].array_eq(&others[i]) {
                return false;
            }
        }
        true
    }

    // Whether the roots are equal but for their children, and have the same number of these.
    #[tactic(auto, using(vx_trees::proofs::Sameness::sameness, crate::proofs::Comparing::roots))]
    fn has_root_of(&self, other: &Array) -> bool
        ensures { IsTrue result ↔ (compared_head (label self.now) ≡ compared_head (label other.now)) × (count (below self.now) ≡ count (below other.now)) }
    {
        if self.len() != other.len() {
            return false;
        }
        if self.children().len() != other.children().len() {
            return false;
        }
        if *self.dtype() != *other.dtype() {
            return false;
        }
        self.body().array_eq(other.body())
    }

    /// Hashes the array: of each node, in preorder, the identifier of its encoding, its length and the bytes of its
    /// buffers. Equal arrays have equal hashes, and so have some that differ, as by their types alone.
    #[tactic(auto, using(vx_trees::proofs::Roses::roses))]
    pub fn array_hash<H: Hasher>(&self, state: &mut H)
        ensures { state.new ≡ fold H.write state.old (fed_array (compared self.now)) }
    {
        self.hash_root(state);
        for child in self.children() {
            child.array_hash(state);
        }
    }

    // Hashes the root without its children.
    fn hash_root<H: Hasher>(&self, state: &mut H)
        ensures { state.new ≡ fold H.write state.old (fed_head (label self.now)) }
    {
        self.encoding_id().hash(state);
        self.len().hash(state);
        let count = self.nbuffers();
        count.hash(state);
        for i in 0..count {
            self.buffer(i).array_hash(state);
        }
    }
}
