//! What is known of a node before its children are read, the plans of its children, and why a node is refused.
#![tactic(auto)]

mod error;
mod head;
mod plans;
mod validity;

pub use error::EncodingError;
pub use head::ArrayHead;
pub use plans::{ChildPlan, ChildPlans, plan_of, plan_only};
pub use validity::{plan_after, plan_after_all, plan_validity, validity_of};
