//! The members of a union.

ghost use Rattle.std.specs.Prelude.{◌≡◌, ◌==◌, ◌-◌, ◌^◌, IfOk, IfErr, IsOkUnless, MatchBool, length, min, position};
ghost use Rattle.vx_trees.specs.Rose.{roses_of};
ghost use Rattle.vx_trees.specs.Walks.{levels_below};
ghost use Rattle.vx_types.specs.Content.{AreDistinct};
ghost use Rattle.vx_types.specs.Typ.{AreTypes, IsUnion};
ghost use Rattle.vx_types.specs.Refused.{RefusesUnion};

use crate::dtypes::DTypes;
use crate::error::TypeError;
use crate::names::Names;
use crate::type_ids::TypeIds;
use std::alloc::Global;
use std::marker::Model;

/// The names of a union's members, and as many types and tags in the same order.
/// The tags are distinct.
#[cycle(dtype)]
#[derive(Debug, Drop)]
pub struct UnionVariants {
    names: Names,
    types: DTypes,
    ids: TypeIds,
}

impl Model for UnionVariants {
    ghost use Rattle.std.specs.Prelude.{length};
    ghost use Rattle.std.proofs.Common.{arith};
    ghost use Rattle.vx_types.specs.Parts.{Members, members_code, members_size};
    ghost use Rattle.vx_types.specs.Typ.{IsUnion};

    ghost Value = { Members };

    ghost coded = { members_code };

    ghost view = { λ a. record { names = a.names; types = a.types; ids = a.ids } };

    ghost invariant = { λ a. IsUnion a.names a.ids (length a.types) };

    ghost size = { members_size };

    ghost size_decreases = { λ a h. Prim.omega arith };
}

impl UnionVariants {
    /// Members of these names, types and tags. `FieldCount` only where the lists
    /// differ in length, `DuplicateTag` only where two tags are equal, and one of
    /// the two wherever either holds. Tags are distinct so that a row's tag names one
    /// member.
    pub fn try_new(names: Names, types: DTypes, ids: TypeIds) -> Result<UnionVariants, TypeError>
        ensures ok { IfOk result (λ members. members ≡ record { names = names; types = types; ids = ids }) }
        ensures types_fit { IfOk result (λ _. length names ≡ length types) }
        ensures ids_fit { IfOk result (λ _. length names ≡ length ids) }
        ensures distinct { IfOk result (λ _. AreDistinct ids) }
        ensures err { IfErr result (λ e. RefusesUnion e names types ids) }
    {
        if names.len() != types.len() {
            return Err(TypeError::FieldCount);
        }
        if names.len() != ids.len() {
            return Err(TypeError::FieldCount);
        }
        if has_duplicate(ids.as_slice()) {
            return Err(TypeError::DuplicateTag);
        }
        Ok(UnionVariants { names, types, ids })
    }

    /// The names, in the members' order.
    pub fn names(&self) -> &Names
        ensures { result.now ≡ self.now.names }
    {
        &self.names
    }

    /// The types, in the members' order.
    pub fn variants(&self) -> &DTypes
        ensures { result.now ≡ self.now.types }
    {
        &self.types
    }

    /// The tags, in the members' order.
    pub fn type_ids(&self) -> &TypeIds
        ensures { result.now ≡ self.now.ids }
    {
        &self.ids
    }

    /// The index of the member with this tag; `None` if no member has it.
    pub fn tag_to_child_index(&self, tag: u8) -> Option<usize>
        ensures index { result ≡ position (λ id. id == tag) self.now.ids }
        ensures union { IsUnion self.now.names self.now.ids (length self.now.types) }
    {
        self.ids.as_slice().iter().position(|id| *id == tag)
    }

    /// Equal members.
    #[cycle(copy)]
    pub fn clone(&self, alloc: Global) -> Result<UnionVariants, TypeError>
        ensures ok { IfOk result (λ members. members ≡ self.now) }
        ensures err { IsOkUnless result TypeError.OutOfMemory }
    {
        let names = self.names.clone(alloc)?;
        let types = self.types.clone(alloc)?;
        let ids = self.ids.clone(alloc)?;
        Ok(UnionVariants { names, types, ids })
    }

    // The number of levels of the deepest of the types, capped at the largest `u64`.
    pub(crate) fn levels(&self) -> u64
        ensures levels { result ≡ min (levels_below (roses_of self.now.types)) (2 ^ 64 - 1) }
        ensures union { IsUnion self.now.names self.now.ids (length self.now.types) }
        ensures types { AreTypes self.now.types }
    {
        self.types.levels()
    }
}

// Whether two tags are equal. No table of tags is needed: there are 256 at most, so among 257 two are equal, and the
// outer loop ends there.
fn has_duplicate(ids: &[u8]) -> bool
    ensures { MatchBool result (AreDistinct ids.now → ⊥) (AreDistinct ids.now) }
{
    for i in 0..ids.len() {
        for j in 0..i {
            if ids[j] == ids[i] {
                return true;
            }
        }
    }
    false
}
