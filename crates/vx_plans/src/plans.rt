//! Plans of children, in lists.

ghost use Rattle.std.specs.Prelude.{◌≡◌, ◌∷◌, ◌++◌, [], length, slice_get, option_map, Some, IfOk, IfErr, OnOk, OnErr, IsOkUnless};
ghost use Rattle.vx_types.specs.Seen.{typ};
ghost use Rattle.vx_array_tree.specs.Place.{exactly, place};
ghost use Rattle.vx_plans.specs.Plans.{planned_place, RefusesPlaces};

use crate::error::EncodingError;
use std::alloc::Global;
use std::marker::Model;
use vx_types::{DType, or_memory};

/// The type and length that a child is to have.
#[derive(Drop)]
pub struct ChildPlan {
    /// The type that it is to have.
    pub dtype: DType,
    /// The number of rows that it is to have.
    pub len: usize,
}

/// The plan of a child with this type, which is copied, and this number of rows. The only refusal is `OutOfMemory`.
pub fn plan_of(alloc: Global, dtype: &DType, len: usize) -> Result<ChildPlan, EncodingError>
    ensures ok { IfOk result (λ plan. planned_place plan ≡ place (typ dtype.now) len) }
    ensures err { IsOkUnless result EncodingError.OutOfMemory }
{
    let dtype = or_memory(dtype.clone(alloc))?;
    Ok(ChildPlan { dtype, len })
}

/// The plans of a node's children, in order. Contracts see the places that they stand for.
#[derive(Drop)]
pub struct ChildPlans {
    items: Vec<ChildPlan>,
}

impl Model for ChildPlans {
    ghost use Rattle.std.specs.Prelude.{List, map};
    ghost use Rattle.vx_array_tree.specs.Place.{Place, places_code};
    ghost use Rattle.vx_plans.specs.Plans.{planned_place};

    ghost Value = { List Place };

    ghost coded = { places_code };

    ghost view = { λ p. map planned_place p.items.items };
}

impl ChildPlans {
    ghost use Rattle.vx_plans.specs.Plans.{planned_place};

    /// No children. It takes no memory.
    pub fn new(alloc: Global) -> ChildPlans
        ensures { result ≡ [] }
    {
        ChildPlans {
            items: Vec::new(alloc),
        }
    }

    /// Appends a plan. The only refusal is `OutOfMemory`.
    pub fn push(&mut self, plan: ChildPlan) -> Result<(), EncodingError>
        ensures ok { OnOk result (self.new ≡ self.old ++ planned_place plan ∷ []) }
        ensures unchanged { OnErr result (self.new ≡ self.old) }
        ensures err { IsOkUnless result EncodingError.OutOfMemory }
    {
        self.items.push(plan)?;
        Ok(())
    }

    /// How many children there are to be.
    pub fn len(&self) -> usize
        ensures { result ≡ length self.now }
    {
        self.items.as_slice().len()
    }

    /// The plan of the child at this index: `None` exactly past the end.
    pub fn get(&self, index: usize) -> Option<&ChildPlan>
        ensures { option_map (λ p. planned_place p.now) result ≡ slice_get self.now index }
    {
        self.items.as_slice().get(index)
    }
}

/// The list of this one plan, for a node of exactly one child: `BadShape` exactly where `count` is
/// another number.
#[tactic(auto, using(crate::proofs::Alone::alone))]
pub fn plan_only(alloc: Global, plan: ChildPlan, count: usize) -> Result<ChildPlans, EncodingError>
    ensures plan { IfOk result (λ plans. exactly (planned_place plan ∷ []) count ≡ Some plans) }
    ensures err { IfErr result (λ e. RefusesPlaces e (exactly (planned_place plan ∷ []) count)) }
{
    if count != 1 {
        return Err(EncodingError::BadShape);
    }
    let mut plans = ChildPlans::new(alloc);
    plans.push(plan)?;
    Ok(plans)
}
