//! Statistics of arrays: which there are, how exact they are, and their table.

pub use vx_scalar_wire::{StatsSetExt, canonical_nan_sum};
pub use vx_scalars::{Precision, Stat, StatsSet};
