//! Plans of a validity child: alone, or after other children.

ghost use Rattle.std.specs.Prelude.{◌≡◌, [], ◌∷◌, Some, IfOk, IfErr};
ghost use Rattle.vx_array_tree.specs.Place.{before_validity, validity_place};
ghost use Rattle.vx_plans.specs.Plans.{planned_place, RefusesPlaces};

use crate::error::EncodingError;
use crate::plans::{ChildPlan, ChildPlans};
use std::alloc::Global;
use vx_types::{DType, Nullability};

/// The plan of the validity of `len` rows: booleans without nulls.
pub fn validity_of(len: usize) -> ChildPlan
    ensures { planned_place result ≡ validity_place len }
{
    ChildPlan {
        dtype: DType::Bool(Nullability::NonNullable),
        len,
    }
}

/// The plan of a validity, where `count` is 1; and no plan where it is 0. `BadShape`
/// exactly where `count` is over 1.
pub fn plan_validity(alloc: Global, len: usize, count: usize) -> Result<ChildPlans, EncodingError>
    ensures plan { IfOk result (λ plans. before_validity [] len count ≡ Some plans) }
    ensures err { IfErr result (λ e. RefusesPlaces e (before_validity [] len count)) }
{
    let mut plans = ChildPlans::new(alloc);
    match count {
        0 => Ok(plans),
        1 => {
            plans.push(validity_of(len))?;
            Ok(plans)
        }
        _ => Err(EncodingError::BadShape),
    }
}

/// The plan of one child, and after it that of a validity where `count` is 2. `BadShape` exactly where
/// `count` is 0 or over 2.
pub fn plan_after(
    alloc: Global,
    first: ChildPlan,
    len: usize,
    count: usize,
) -> Result<ChildPlans, EncodingError>
    ensures plan { IfOk result (λ plans. before_validity (planned_place first ∷ []) len count ≡ Some plans) }
    ensures err { IfErr result (λ e. RefusesPlaces e (before_validity (planned_place first ∷ []) len count)) }
{
    let mut plans = ChildPlans::new(alloc);
    plans.push(first)?;
    match count {
        1 => Ok(plans),
        2 => {
            plans.push(validity_of(len))?;
            Ok(plans)
        }
        _ => Err(EncodingError::BadShape),
    }
}

/// These plans, and after them that of a validity where `count` is one more than their number.
/// `BadShape` exactly where `count` is smaller than their number, or larger by more than one.
#[tactic(auto, using(crate::proofs::Validities::after_all))]
pub fn plan_after_all(
    front: ChildPlans,
    len: usize,
    count: usize,
) -> Result<ChildPlans, EncodingError>
    ensures plan { IfOk result (λ plans. before_validity front len count ≡ Some plans) }
    ensures err { IfErr result (λ e. RefusesPlaces e (before_validity front len count)) }
{
    let mut plans = front;
    match count.checked_sub(plans.len()) {
        Some(0) => Ok(plans),
        Some(1) => {
            plans.push(validity_of(len))?;
            Ok(plans)
        }
        _ => Err(EncodingError::BadShape),
    }
}
