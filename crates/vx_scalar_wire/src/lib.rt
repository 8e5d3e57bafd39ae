//! Scalars as tagged messages, and statistics as tables.
#![tactic(auto)]

mod error;
mod kinds;
mod messages;
mod nans;
pub mod pb;
mod reading;
mod stats;
mod stats_kind;
mod writing;

pub use error::ScalarWireError;
pub use kinds::{ListValueMessage, ScalarMessage, ScalarValueMessage, UnionValueMessage};
pub use messages::{ScalarExt, ScalarValueExt};
pub use nans::canonical_nan_sum;
pub use stats::StatsSetExt;
pub use stats_kind::StatsKind;
